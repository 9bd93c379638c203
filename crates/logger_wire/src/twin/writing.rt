//! Writing a datagram between two loggers in its one spelling. The checksum is computed over the bytes to be written, with zero in its own field.

ghost use Rattle.std.specs.Prelude.{◌≡◌, ◌≤◌, ◌+◌, ◌++◌, true, length, take, drop, Ok};
ghost use Rattle.seq_arith.specs.declared.kinds.Grammar.{Grammar};
ghost use Rattle.seq_arith.specs.TwinGrammar.{kind_of as kind_lem, number_of as number_lem, behind_of as behind_lem};
ghost use Rattle.seq_arith.specs.TwinGrammar.{has_length, spelling, reading_by, IsSpellableBy};
ghost use Rattle.logger_wire.specs.TwinValue.{said_by};
ghost use Rattle.logger_wire.specs.TwinHeader.{header_of};

use crate::twin::table::{HEADER, MAGIC, VERSION, number_of};
use crate::twin::twin_msg::TwinMsg;
use crate::writing::checksum_of_both;
use byteorder::{BigEndian, ByteOrder};
use seq_arith::TwinKind;

/// Writes a datagram between two loggers at the beginning of `out`, which has room for 2,048 bytes, and returns how many bytes it has: at most 1,507. Its
/// spelling doesn't depend on the grammar of the loggers' messages.
pub fn write_twin(m: &TwinMsg<'_>, out: &mut [u8]) -> usize
    requires size { has_length (kind_lem (said_by m.now)) (16 + length (behind_lem (said_by m.now))) ≡ true }
    requires room { 2048 ≤ length out.old }
    ensures length { result ≡ 16 + length (behind_lem (said_by m.now)) }
    ensures bytes { out.new ≡ spelling (said_by m.now) ++ drop result out.old }
    // What is written can be read back, by the grammar in which what it says is in its range.
    ensures read { (grammar : Grammar) → IsSpellableBy grammar (said_by m.now) → reading_by grammar (take result out.new) ≡ Ok (said_by m.now) }
{
    let (front, rest) = out.split_at_mut(HEADER);
    let behind = behind_of(m);
    let len = HEADER + behind.len();
    put(behind, rest);
    let kind = kind_of(m);
    let number = number_in(m);
    let blank = header(kind, len as u16, 0, number);
    let check = checksum_of_both(&blank, behind);
    front.copy_from_slice(&header(kind, len as u16, check, number));
    len
}

/// Writes bytes at the beginning of others.
fn put(bytes: &[u8], out: &mut [u8])
    requires { length bytes.now ≤ length out.old }
    ensures { out.new ≡ bytes.now ++ drop (length bytes.now) out.old }
{
    out[..bytes.len()].copy_from_slice(bytes);
}

/// The kind of a datagram.
fn kind_of(m: &TwinMsg<'_>) -> TwinKind
    ensures { result ≡ kind_lem (said_by m.now) }
{
    match m {
        TwinMsg::Forward { .. } => TwinKind::Forward,
        TwinMsg::Got { .. } => TwinKind::Got,
        TwinMsg::Alone => TwinKind::Alone,
    }
}

/// The number of a datagram, which is 0 for `Alone`.
fn number_in(m: &TwinMsg<'_>) -> u64
    ensures { result ≡ number_lem (said_by m.now) }
{
    match *m {
        TwinMsg::Forward { number, .. } | TwinMsg::Got { number } => number,
        TwinMsg::Alone => 0,
    }
}

/// The bytes after a datagram's header.
fn behind_of<'a>(m: &TwinMsg<'a>) -> &'a [u8]
    ensures { result.now ≡ behind_lem (said_by m.now) }
{
    match *m {
        TwinMsg::Forward { message, .. } => message,
        TwinMsg::Got { .. } | TwinMsg::Alone => &[],
    }
}

/// The header of a datagram of a kind with this length, checksum and number.
#[tactic(auto, unfolding(crate::specs::TwinHeader::header_of, seq_arith::specs::MessageGrammar::number_bytes, seq_arith::specs::Bytes::two))]
fn header(kind: TwinKind, len: u16, check: u16, number: u64) -> [u8; HEADER]
    ensures { result ≡ header_of kind len check number }
{
    let mut header = [0; HEADER];
    BigEndian::write_u16(&mut header, MAGIC);
    header[2] = VERSION;
    header[3] = number_of(kind);
    BigEndian::write_u16(&mut header[4..], len);
    BigEndian::write_u16(&mut header[6..], check);
    BigEndian::write_u64(&mut header[8..], number);
    header
}
