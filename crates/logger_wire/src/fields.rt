//! The fields of a message, read at their positions and checked for their ranges.

ghost use Rattle.std.specs.Prelude.{◌≡◌, ◌≤◌, ◌<◌, ◌+◌, ◌==◌, length, drop};
ghost use Rattle.seq_arith.specs.MessageGrammar.{is_in_range, is_in_range_by, most_ending as most_ending_lem};
ghost use Rattle.logger_wire.specs.Places.{number_at, checked};

use crate::layout::{KEY, PORT};
use byteorder::{BigEndian, ByteOrder};
use ft_io::Key;
use limits::{ENTRIES, SEGMENT, SHORTEST_SEGMENT, STREAM, UNITS};
use seq_arith::{BadMsg, Field, Grammar};

/// The longest read, in bytes.
pub(crate) const LONGEST_READ: u16 = 2048;

#[tactic(auto, using(crate::proofs::NumbersRead::byte_is), unfolding(crate::specs::Places::number_at))]
pub(crate) fn byte(bytes: &[u8], at: usize) -> u8
    requires { at < length bytes.now }
    ensures { result ≡ number_at 1 at bytes.now }
{
    bytes[at]
}

#[tactic(auto, using(std::proofs::lemmas::List::take_rest), unfolding(crate::specs::Places::number_at, seq_arith::specs::MessageGrammar::number_in))]
pub(crate) fn word(bytes: &[u8], at: usize) -> u16
    requires { at + 2 ≤ length bytes.now }
    ensures { result ≡ number_at 2 at bytes.now }
{
    BigEndian::read_u16(&bytes[at..])
}

#[tactic(auto, using(std::proofs::lemmas::List::take_rest), unfolding(crate::specs::Places::number_at, seq_arith::specs::MessageGrammar::number_in))]
pub(crate) fn long(bytes: &[u8], at: usize) -> u32
    requires { at + 4 ≤ length bytes.now }
    ensures { result ≡ number_at 4 at bytes.now }
{
    BigEndian::read_u32(&bytes[at..])
}

#[tactic(auto, using(std::proofs::lemmas::List::take_rest), unfolding(crate::specs::Places::number_at, seq_arith::specs::MessageGrammar::number_in))]
pub(crate) fn huge(bytes: &[u8], at: usize) -> u64
    requires { at + 8 ≤ length bytes.now }
    ensures { result ≡ number_at 8 at bytes.now }
{
    BigEndian::read_u64(&bytes[at..])
}

/// Returns the bytes from a position on.
#[tactic(auto, using(std::proofs::lemmas::List::take_rest))]
pub(crate) fn behind(bytes: &[u8], at: usize) -> &[u8]
    requires { at ≤ length bytes.now }
    ensures bytes { result.now ≡ drop at bytes.now }
    ensures length { length result.now + at ≡ length bytes.now }
{
    &bytes[at..]
}

/// Reads a key: its address, and then its port.
pub(crate) fn key(bytes: &[u8], at: usize) -> Key
    requires { at + KEY ≤ length bytes.now }
    ensures ip { result.ip ≡ number_at 4 at bytes.now }
    ensures port { result.port ≡ number_at 2 (at + PORT) bytes.now }
{
    Key {
        ip: long(bytes, at),
        port: word(bytes, at + PORT),
    }
}

/// Reads a number of log entries.
pub(crate) fn count(bytes: &[u8], at: usize) -> Result<u16, BadMsg>
    requires { at + 2 ≤ length bytes.now }
    ensures { result ≡ checked (is_in_range 0 0 Field.Count (number_at 2 at bytes.now)) (number_at 2 at bytes.now) }
{
    let n = word(bytes, at);
    if n <= ENTRIES {
        Ok(n)
    } else {
        Err(BadMsg::Field)
    }
}

/// Reads the index of a log entry.
pub(crate) fn place(bytes: &[u8], at: usize) -> Result<u16, BadMsg>
    requires { at + 2 ≤ length bytes.now }
    ensures { result ≡ checked (is_in_range 0 0 Field.Place (number_at 2 at bytes.now)) (number_at 2 at bytes.now) }
{
    let n = word(bytes, at);
    if n < ENTRIES {
        Ok(n)
    } else {
        Err(BadMsg::Field)
    }
}

pub(crate) fn segment_size(bytes: &[u8], at: usize) -> Result<u16, BadMsg>
    requires { at + 2 ≤ length bytes.now }
    ensures { result ≡ checked (is_in_range 0 0 Field.Mss (number_at 2 at bytes.now)) (number_at 2 at bytes.now) }
{
    let n = word(bytes, at);
    if SHORTEST_SEGMENT <= n && n <= SEGMENT {
        Ok(n)
    } else {
        Err(BadMsg::Field)
    }
}

pub(crate) fn read_length(bytes: &[u8], at: usize) -> Result<u16, BadMsg>
    requires { at + 2 ≤ length bytes.now }
    ensures { result ≡ checked (is_in_range 0 0 Field.ReadLength (number_at 2 at bytes.now)) (number_at 2 at bytes.now) }
{
    let n = word(bytes, at);
    if n <= LONGEST_READ {
        Ok(n)
    } else {
        Err(BadMsg::Field)
    }
}

/// Reads a number of logged bytes.
pub(crate) fn stream_length(bytes: &[u8], at: usize) -> Result<u32, BadMsg>
    requires { at + 4 ≤ length bytes.now }
    ensures { result ≡ checked (is_in_range 0 0 Field.Length (number_at 4 at bytes.now)) (number_at 4 at bytes.now) }
{
    let n = long(bytes, at);
    if n <= STREAM {
        Ok(n)
    } else {
        Err(BadMsg::Field)
    }
}

/// Reads a number of reads, or of bytes and the FIN after them.
pub(crate) fn units(bytes: &[u8], at: usize) -> Result<u32, BadMsg>
    requires { at + 4 ≤ length bytes.now }
    ensures { result ≡ checked (is_in_range 0 0 Field.Units (number_at 4 at bytes.now)) (number_at 4 at bytes.now) }
{
    let n = long(bytes, at);
    if n <= UNITS {
        Ok(n)
    } else {
        Err(BadMsg::Field)
    }
}

/// Reads the offset, in a stream, of the bytes from `start` to the message's end. These must end within the longest stream.
pub(crate) fn offset(bytes: &[u8], at: usize, start: usize) -> Result<u32, BadMsg>
    requires room { at + 4 ≤ length bytes.now }
    requires start { start ≤ length bytes.now }
    requires short { length bytes.now ≤ 65535 }
    ensures { result ≡ checked (is_in_range 0 (length (drop start bytes.now)) Field.Offset (number_at 4 at bytes.now)) (number_at 4 at bytes.now) }
{
    let n = long(bytes, at);
    if u64::from(n) + (bytes.len() - start) as u64 <= u64::from(STREAM) {
        Ok(n)
    } else {
        Err(BadMsg::Field)
    }
}

/// Reads a boot number, which must be larger than `boot`.
pub(crate) fn newer(bytes: &[u8], at: usize, boot: u64) -> Result<u64, BadMsg>
    requires { at + 8 ≤ length bytes.now }
    ensures { result ≡ checked (is_in_range boot 0 Field.Newer (number_at 8 at bytes.now)) (number_at 8 at bytes.now) }
{
    let n = huge(bytes, at);
    if boot < n { Ok(n) } else { Err(BadMsg::Field) }
}

pub(crate) fn flag(bytes: &[u8], at: usize) -> Result<bool, BadMsg>
    requires { at < length bytes.now }
    ensures { result ≡ checked (is_in_range 0 0 Field.Flag (number_at 1 at bytes.now)) (number_at 1 at bytes.now == 1) }
{
    let n = byte(bytes, at);
    if n <= 1 {
        Ok(n == 1)
    } else {
        Err(BadMsg::Field)
    }
}

/// Reads how a Data ends: 1 if the FIN follows its bytes, and in the wide grammar 2 if a later Data of the same turn does.
pub(crate) fn ending(grammar: Grammar, bytes: &[u8], at: usize) -> Result<u8, BadMsg>
    requires { at < length bytes.now }
    ensures { result ≡ checked (is_in_range_by grammar 0 0 Field.Ending (number_at 1 at bytes.now)) (number_at 1 at bytes.now) }
{
    let n = byte(bytes, at);
    if n <= most_ending(grammar) {
        Ok(n)
    } else {
        Err(BadMsg::Field)
    }
}

/// Returns the most that an ending may be.
fn most_ending(grammar: Grammar) -> u8
    ensures { result ≡ most_ending_lem grammar }
{
    match grammar {
        Grammar::Plain => 1,
        Grammar::Wide => 2,
    }
}
