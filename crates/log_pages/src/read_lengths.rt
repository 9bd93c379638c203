//! The lengths of an entry's reads. The first of them may be discarded.

ghost use Rattle.limits.specs.Limits.{longest_stream};
ghost use Rattle.std.specs.Prelude.{[], ◌≡◌, ◌≤◌, ◌<◌, ◌+◌, ◌-◌, ◌*◌, ◌^◌, ◌++◌, ◌∷◌, true, IsOk, OnOk, OnErr, length, take, drop, slice_index, sum, nat_le};
ghost use Rattle.std.specs.List.{list_all};
ghost use Rattle.log_pages.specs.Levels.{AreLevel};
ghost use Rattle.log_pages.specs.Pages.{ends_with, lengths_in, level, levelled, reads_on, took};

use crate::lens::Lens;
use crate::runs::{Run, Runs, spell_run, took_of};
use ft_io::NoMemory;
use std::alloc::Global;
use std::marker::Model;

/// The lengths of reads. Those of the first reads may be discarded: in their place stand as many *level* lengths with the same sum, any two differing by at
/// most one.
#[derive(Drop)]
pub struct ReadLengths {
    /// The smaller of the level lengths in place of the discarded ones, ..
    low: Run,
    /// .. and those that are larger by one.
    high: Run,
    /// The lengths after them.
    rest: Runs,
}

impl Model for ReadLengths {
    ghost use Rattle.std.specs.Prelude.{ℕ, ◌≡◌, ◌+◌, ◌*◌, ◌^◌, ◌<◌, ◌++◌, List};
    ghost use Rattle.log_pages.specs.Pages.{lengths_in};
    ghost use Rattle.log_pages.specs.Levels.{AreLevel};

    ghost Value = { List ℕ };

    ghost view = { λ r. lengths_in r.low ++ (lengths_in r.high ++ r.rest) };

    ghost invariant = { λ r. AreLevel r.low r.high };
}

/// Returns as many lengths as `reads`, with the sum `bytes`: a run of the smaller ones, and a run of those that are larger by one.
fn level_runs(reads: u32, bytes: u32) -> (Run, Run)
    requires { (reads ≤ bytes) × (bytes ≤ 2048 * reads) }
    ensures value { lengths_in result.0 ++ lengths_in result.1 ≡ level reads bytes }
    ensures level { AreLevel result.0 result.1 }
{
    let (length, larger) = if reads == 0 {
        (0, 0)
    } else {
        (bytes / reads, bytes % reads)
    };
    let low = Run {
        length: length as u16,
        count: reads - larger,
    };
    let high = Run {
        length: length as u16 + 1,
        count: larger,
    };
    (low, high)
}

impl ReadLengths {
    /// No lengths. Nothing is allocated yet.
    pub fn new(alloc: Global) -> ReadLengths
        ensures { result ≡ [] }
    {
        let (low, high) = level_runs(0, 0);
        ReadLengths {
            low,
            high,
            rest: Runs::new(alloc),
        }
    }

    /// Appends the length of the next read. A length equal to the last one needs no allocation.
    pub fn push(&mut self, len: u16) -> Result<(), NoMemory>
        requires { length self.old < 2 ^ 32 - 1 }
        ensures ok { OnOk result (self.new ≡ self.old ++ len ∷ []) }
        ensures err { OnErr result (self.new ≡ self.old) }
        ensures again { ends_with len self.old ≡ true → IsOk result }
    {
        self.rest.push(len)
    }

    /// The length of the read with index `i`, counted from 0, in bytes.
    pub fn at(&self, i: usize) -> u16
        requires { i < length self.now }
        ensures { result ≡ slice_index self.now i }
    {
        let (low, high) = (self.low.count as usize, self.high.count as usize);
        if i < low {
            return self.low.length;
        }
        if i - low < high {
            return self.high.length;
        }
        self.rest.at(i - low - high)
    }

    /// Copies the lengths from index `first` on, at most 512, into the empty `lens`.
    pub fn copy(&self, first: usize, lens: &mut Lens)
        requires empty { lens.old ≡ [] }
        ensures { lens.new ≡ take 512 (drop first self.now) }
    {
        let skip = spell_run(self.low, first, lens);
        let skip = spell_run(self.high, skip, lens);
        self.rest.copy(skip, lens);
    }

    /// How many bytes the first `reads` reads took; `None` if a closing read is among them.
    pub fn took(&self, reads: usize) -> Option<u32>
        requires { sum self.now ≤ longest_stream }
        ensures { result ≡ took reads self.now }
    {
        let (low, high) = (self.low.count as usize, self.high.count as usize);
        let in_low = took_of(self.low, reads)?;
        let in_high = took_of(self.high, reads.saturating_sub(low))?;
        let in_rest = self
            .rest
            .took(reads.saturating_sub(low).saturating_sub(high))?;
        Some(in_low + in_high + in_rest)
    }

    /// Discards the lengths of the first `reads` reads, counting those discarded before. Nothing is allocated.
    pub fn discard(&mut self, reads: u32)
        requires there { reads ≤ length self.old }
        requires few { sum self.old ≤ longest_stream }
        requires on { reads_on (take reads self.old) ≡ true }
        requires each { list_all (λ n. nat_le n 2048) self.old ≡ true }
        ensures { self.new ≡ levelled reads self.old }
    {
        let given_up = self.low.count + self.high.count;
        if reads <= given_up {
            return;
        }
        let bytes = self.low.count * u32::from(self.low.length)
            + self.high.count * u32::from(self.high.length);
        let more = self.rest.drop_first(reads - given_up);
        (self.low, self.high) = level_runs(reads, bytes + more);
    }
}
