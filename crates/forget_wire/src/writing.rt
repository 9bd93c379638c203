//! Writing a message about forgetting in its one spelling. The checksum is computed over the bytes to be written, with zero in its own field.

ghost use Rattle.std.specs.Prelude.{◌≡◌, ◌++◌, Ok};
ghost use Rattle.seq_arith.specs.MessageGrammar.{numbers_bytes};
ghost use Rattle.long_laws.specs.ForgetGrammar.{kind_number, naming, numbers_of, spelling, reading, IsSpellable};
ghost use Rattle.forget_wire.specs.Value.{named_said, kind_said, message_of};
ghost use Rattle.forget_wire.specs.Spelling.{header_of};

use crate::message::{ForgetMsg, Kind, Named};
use crate::{HEADER, LENGTH, MAGIC, NAMED, VERSION};
use byteorder::{BigEndian, ByteOrder};
use logger_wire::checksum_of_both;

/// Returns a message about forgetting as bytes.
pub fn write_forget(m: &ForgetMsg) -> [u8; LENGTH]
    requires { IsSpellable (message_of m.now) }
    ensures bytes { result ≡ spelling (message_of m.now) }
    // What was written is read back.
    ensures read { reading result ≡ Ok (message_of m.now) }
{
    let kind = m.body.kind();
    let named = named_bytes(m.body.named());
    let blank = header(kind, 0, m.boot);
    let check = checksum_of_both(&blank, &named);
    joined(&header(kind, check, m.boot), &named)
}

/// Returns a header and what follows it, one after the other.
fn joined(header: &[u8; HEADER], named: &[u8; NAMED]) -> [u8; LENGTH]
    ensures { result ≡ header.now ++ named.now }
{
    let mut bytes = [0; LENGTH];
    let (front, rest) = bytes.split_at_mut(HEADER);
    front.copy_from_slice(header);
    rest.copy_from_slice(named);
    bytes
}

/// Returns the connection that a message is about as bytes.
#[tactic(auto, unfolding(seq_arith::specs::MessageGrammar::number_bytes))]
fn named_bytes(named: Named) -> [u8; NAMED]
    ensures { result ≡ numbers_bytes naming (numbers_of (named_said named)) }
{
    let mut bytes = [0; NAMED];
    BigEndian::write_u32(&mut bytes, named.key.ip);
    BigEndian::write_u16(&mut bytes[4..], named.key.port);
    BigEndian::write_u32(&mut bytes[6..], named.cisn);
    BigEndian::write_u32(&mut bytes[10..], named.sisn);
    bytes
}

/// Returns the header of a message of a kind with this checksum and boot number.
#[tactic(auto, unfolding(crate::specs::Spelling::header_of, seq_arith::specs::MessageGrammar::number_bytes, seq_arith::specs::Bytes::two))]
fn header(kind: Kind, check: u16, boot: u64) -> [u8; HEADER]
    ensures { result ≡ header_of (kind_said kind) check boot }
{
    let mut header = [0; HEADER];
    BigEndian::write_u16(&mut header, MAGIC);
    header[2] = VERSION;
    header[3] = number_of(kind);
    BigEndian::write_u16(&mut header[4..], LENGTH as u16);
    BigEndian::write_u16(&mut header[6..], check);
    BigEndian::write_u64(&mut header[8..], boot);
    header
}

/// Returns a kind's number on the wire.
fn number_of(kind: Kind) -> u8
    ensures { result ≡ kind_number (kind_said kind) }
{
    kind as u8
}
