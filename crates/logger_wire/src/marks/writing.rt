//! Writing a message about marks in its one spelling. The checksum is computed over the bytes to be written, with zero in its own field.

ghost use Rattle.std.specs.Prelude.{◌≡◌, ◌≤◌, ◌+◌, ◌<◌, ◌^◌, [], ◌∷◌, ◌++◌, length, take, drop, Ok};
ghost use Rattle.seq_arith.specs.Checksum.{checksum};
ghost use Rattle.seq_arith.specs.MessageGrammar.{key_and, numbers_bytes};
ghost use Rattle.seq_arith.specs.MarkGrammar.{kind_number, kind_of, marking, behind_header, message_length, spelling, reading, IsSpellable};
ghost use Rattle.logger_wire.specs.MarkValue.{body_of, message_of};
ghost use Rattle.logger_wire.specs.MarkSpelling.{header_of, sealed};

use crate::marks::{HEADER, MAGIC, MarkBody, MarkMsg, VERSION};
use byteorder::{BigEndian, ByteOrder};
use ft_io::Key;
use seq_arith::{MarkKind, Sum16};

/// The length in bytes of a mark's numbers: its key, its reads, its length and the output made. Other kinds have a prefix of these.
const NUMBERS: usize = 18;

/// Writes a message about marks at the beginning of `out`, which has room for 2,048 bytes. Returns the length of the message: at most 1,134 bytes.
pub fn write_mark(m: &MarkMsg<'_>, out: &mut [u8]) -> usize
    requires sendable { IsSpellable (message_of m.now) }
    requires room { 2048 ≤ length out.old }
    ensures length { result ≡ message_length (body_of m.now.body) }
    ensures short { result ≤ 1134 }
    ensures bytes { out.new ≡ spelling (message_of m.now) ++ drop result out.old }
    // What was written is read back.
    ensures read { reading (take result out.new) ≡ Ok (message_of m.now) }
{
    put_body(m.boot, &m.body, out)
}

/// Writes a message with this boot number and body. Returns the length of the message.
fn put_body(boot: u64, body: &MarkBody<'_>, out: &mut [u8]) -> usize
    requires short { message_length (body_of body.now) ≤ 1134 }
    requires room { message_length (body_of body.now) ≤ length out.old }
    ensures length { result ≡ message_length (body_of body.now) }
    ensures bytes { out.new ≡ sealed (kind_of (body_of body.now)) boot (behind_header (body_of body.now)) ++ drop result out.old }
{
    match *body {
        MarkBody::Mark { key, mark } => put(
            MarkKind::Mark,
            boot,
            &numbers(key, mark.reads, mark.length, mark.made),
            mark.state,
            out,
        ),
        MarkBody::Marked { key, reads } => put(
            MarkKind::Marked,
            boot,
            &numbers(key, reads, 0, 0)[..10],
            &[],
            out,
        ),
        MarkBody::Ask { key } => put(MarkKind::Ask, boot, &numbers(key, 0, 0, 0)[..6], &[], out),
        MarkBody::Held { key, mark } => put(
            MarkKind::Held,
            boot,
            &numbers(key, mark.reads, mark.length, mark.made),
            mark.state,
            out,
        ),
    }
}

/// Returns a mark's numbers as bytes.
#[tactic(auto, unfolding(seq_arith::specs::MessageGrammar::number_bytes))]
fn numbers(key: Key, reads: u32, length: u32, made: u32) -> [u8; NUMBERS]
    ensures { result ≡ numbers_bytes marking (key_and key (reads ∷ length ∷ made ∷ [])) }
{
    let mut numbers = [0; NUMBERS];
    BigEndian::write_u32(&mut numbers, key.ip);
    BigEndian::write_u16(&mut numbers[4..], key.port);
    BigEndian::write_u32(&mut numbers[6..], reads);
    BigEndian::write_u32(&mut numbers[10..], length);
    BigEndian::write_u32(&mut numbers[14..], made);
    numbers
}

/// Writes a message of a kind with these numbers and this state. Returns the length of the message.
fn put(kind: MarkKind, boot: u64, numbers: &[u8], state: &[u8], out: &mut [u8]) -> usize
    requires short { 16 + length numbers.now + length state.now < 2 ^ 16 }
    requires room { 16 + length numbers.now + length state.now ≤ length out.old }
    ensures length { result ≡ 16 + length numbers.now + length state.now }
    ensures bytes { out.new ≡ sealed kind boot (numbers.now ++ state.now) ++ drop result out.old }
{
    let (front, rest) = out.split_at_mut(HEADER);
    put_both(numbers, state, rest);
    let len = HEADER + numbers.len() + state.len();
    let blank = header(kind, len as u16, 0, boot);
    let check = checksum_of_parts(&blank, numbers, state);
    front.copy_from_slice(&header(kind, len as u16, check, boot));
    len
}

/// Writes two strings of bytes, one after the other.
fn put_both(front: &[u8], behind: &[u8], out: &mut [u8])
    requires { length front.now + length behind.now ≤ length out.old }
    ensures { out.new ≡ (front.now ++ behind.now) ++ drop (length front.now + length behind.now) out.old }
{
    let (at_front, rest) = out.split_at_mut(front.len());
    at_front.copy_from_slice(front);
    rest[..behind.len()].copy_from_slice(behind);
}

/// Returns the checksum of three strings of bytes, one after the other.
fn checksum_of_parts(header: &[u8], numbers: &[u8], state: &[u8]) -> u16
    requires { length header.now + length numbers.now + length state.now < 2 ^ 16 }
    ensures { result ≡ checksum (header.now ++ numbers.now ++ state.now) }
{
    let mut sum = Sum16::new();
    sum.take(header);
    sum.take(numbers);
    sum.take(state);
    sum.check()
}

/// Returns the header of a message of a kind with this length, checksum and boot number.
#[tactic(auto, unfolding(crate::specs::MarkSpelling::header_of, seq_arith::specs::MessageGrammar::number_bytes, seq_arith::specs::Bytes::two))]
fn header(kind: MarkKind, len: u16, check: u16, boot: u64) -> [u8; HEADER]
    ensures { result ≡ header_of kind len check boot }
{
    let mut header = [0; HEADER];
    BigEndian::write_u16(&mut header, MAGIC);
    header[2] = VERSION;
    header[3] = number_of(kind);
    BigEndian::write_u16(&mut header[4..], len);
    BigEndian::write_u16(&mut header[6..], check);
    BigEndian::write_u64(&mut header[8..], boot);
    header
}

/// Returns a kind's number on the wire.
fn number_of(kind: MarkKind) -> u8
    ensures { result ≡ kind_number kind }
{
    kind as u8
}
