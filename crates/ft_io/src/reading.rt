//! Reading a source to its end, under a limit on how many bytes are kept.

ghost use Rattle.std.specs.Prelude.{◌≡◌, ◌≤◌, ◌<◌, ◌+◌, ◌++◌, take, length, vec_len, IfOk, OnOk, IfSome, IsErrOf};
ghost use Rattle.std.specs.Io.KnownBytes.{Consumes, IsAtEnd};
ghost use Rattle.ft_io.specs.declared.reading.ReadEnd.TheVariants.{NoMemory, Fault};
ghost use Rattle.ft_io.specs.Faults.{Rose};
ghost use Rattle.ft_io.specs.Source.{ConsumesAtMost};

use crate::{Failed, Source};
use std::alloc::{AllocError, Global};

/// Bytes that one read may move.
const CHUNK: usize = 4096;

/// Why a reading ended before the source's end.
#[derive(Clone, Copy, PartialEq, Eq)]
pub enum ReadEnd {
    /// An allocation failed.
    NoMemory,
    /// A read failed.
    Fault,
    /// The source has more bytes than the limit.
    TooLong,
}

impl From<AllocError> for ReadEnd {
    ghost from_gives = { λ _ end. end ≡ NoMemory };

    fn from(_error: AllocError) -> ReadEnd {
        ReadEnd::NoMemory
    }
}

impl From<Failed> for ReadEnd {
    ghost from_gives = { λ _ end. end ≡ Fault };

    fn from(_failed: Failed) -> ReadEnd {
        ReadEnd::Fault
    }
}

/// Reads the source to its end, at most `limit` bytes. It takes at most one byte past the limit, to see that there is one.
/// After an error the bytes that were taken are lost. Only at `ReadEnd::Fault` has the count of faults risen.
pub fn read_to_limit<I: Source>(
    alloc: Global,
    input: &mut I,
    limit: usize,
) -> Result<Vec<u8>, ReadEnd>
    ensures whole { IfOk result (λ bytes. IfSome (I.left input.old) (λ left. bytes.items ≡ left)) }
    ensures end { OnOk result (IsAtEnd (I.left input.new)) }
    ensures within { IfOk result (λ bytes. vec_len bytes ≤ limit) }

    ensures too_long { IsErrOf result ReadEnd.TooLong →
        IfSome (I.left input.old) (λ left. limit < length left) }
    ensures fault { IsErrOf result ReadEnd.Fault →
        Rose (I.fault_count input.old) (I.fault_count input.new) }

    ensures taken { ConsumesAtMost (limit + 1) (I.left input.old) (I.left input.new) }
    ensures no_fault { OnOk result (I.fault_count input.new ≡ I.fault_count input.old) }
    ensures no_fault_at_the_limit { IsErrOf result ReadEnd.TooLong →
        I.fault_count input.new ≡ I.fault_count input.old }
    ensures no_fault_of_memory { IsErrOf result ReadEnd.NoMemory →
        I.fault_count input.new ≡ I.fault_count input.old }
    ensures never_falls { I.fault_count input.old ≤ I.fault_count input.new }
{
    let mut bytes = Vec::new(alloc);
    let mut chunk = [0u8; CHUNK];
    while bytes.len() <= limit {
        let room = (limit - bytes.len()).saturating_add(1);
        if read_more(input, room, &mut chunk, &mut bytes)? == 0 {
            return Ok(bytes);
        }
    }
    Err(ReadEnd::TooLong)
}

/// Reads at most `room` bytes once, through `chunk`, and appends them to `bytes`. Returns how many they were.
fn read_more<I: Source>(
    input: &mut I,
    room: usize,
    chunk: &mut [u8],
    bytes: &mut Vec<u8>,
) -> Result<usize, ReadEnd>
    requires some_room { 0 < room }
    requires some_chunk { 0 < length chunk.old }
    ensures kept { IfOk result (λ n. bytes.new.items ≡ bytes.old.items ++ take n chunk.new) }
    ensures within { IfOk result (λ n. (n ≤ room) × (n ≤ length chunk.new)) }
    ensures moved { IfOk result (λ n.
        Consumes (I.left input.old) (I.left input.new) (take n chunk.new)) }
    ensures end { IfOk result (λ n. n ≡ 0 → IsAtEnd (I.left input.new)) }
    ensures taken { ConsumesAtMost room (I.left input.old) (I.left input.new) }
    ensures fault { IsErrOf result ReadEnd.Fault →
        Rose (I.fault_count input.old) (I.fault_count input.new) }
    ensures no_fault { OnOk result (I.fault_count input.new ≡ I.fault_count input.old) }
    ensures no_fault_of_memory { IsErrOf result ReadEnd.NoMemory →
        I.fault_count input.new ≡ I.fault_count input.old }
    ensures no_limit { IsErrOf result ReadEnd.TooLong → ⊥ }
    ensures never_falls { I.fault_count input.old ≤ I.fault_count input.new }
{
    let most = room.min(chunk.len());
    let n = input.read(&mut chunk[..most])?;
    bytes.extend_from_slice(&chunk[..n])?;
    Ok(n)
}
