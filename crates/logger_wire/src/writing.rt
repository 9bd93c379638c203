//! Writing a message in its one spelling, each field at a constant position. The header is written last: the checksum is computed over the rest, with zero
//! in its own field.

ghost use Rattle.std.specs.Prelude.{◌≡◌, ◌≤◌, ◌<◌, ◌+◌, ◌%◌, ◌^◌, ◌++◌, length, take, drop, Ok};
ghost use Rattle.seq_arith.specs.Checksum.{checksum};
ghost use Rattle.seq_arith.specs.Message.Body.{HelloMsg, SummaryMsg, EntryMsg, PartMsg, OpenMsg, DataMsg, StableMsg, ReadMsg, DoneMsg, StaleMsg};
ghost use Rattle.seq_arith.specs.MessageGrammar.{kind_of as kind_lem, kind_number, lens_in, lens_bytes, message_length, behind_at};
ghost use Rattle.seq_arith.specs.MessageGrammar.{header, spelling, spelling_by, reading, reading_by};
ghost use Rattle.logger_wire.specs.Spelling.{put, body_bytes, sealed, framed};
ghost use Rattle.logger_wire.specs.Records.{numbers_said, kept_said, head_said, part_said};
ghost use Rattle.logger_wire.specs.Value.{body_of as said_body, message_of, left_over, IsSendable, IsSendableBy};

use crate::layout::{
    AFTER_COUNT, AFTER_KEY, AFTER_LENGTH, AFTER_NEWER, AFTER_START, BOOT_AT, CHECKSUM_AT, HEADER,
    LENGTH_AT, MAGIC, MAGIC_AT, VERSION_AT,
};
use crate::places::{put_bytes, put_huge, put_key, put_long, put_word};
use crate::reading::{checksum_of, version_of};
use crate::records::{EntryHead, Kept, Numbers, Part};
use crate::{Body, Msg};
use ft_io::Key;
use seq_arith::{Grammar, Kind, Sum16};

/// Writes a message at the beginning of `out`, which has room for 2,048 bytes. Returns the length of the message: at most 1,491 bytes.
pub fn write_msg(m: &Msg<'_>, out: &mut [u8]) -> usize
    requires sendable { IsSendable m.now }
    requires room { 2048 ≤ length out.old }
    ensures length { result ≡ message_length (said_body m.now.body) }
    ensures bytes { out.new ≡ spelling (message_of m.now) ++ drop result out.old }
    // What was written is read back.
    ensures read { reading (take result out.new) ≡ Ok (message_of m.now) }
{
    write_msg_by(Grammar::Plain, m, out)
}

/// Writes a message in a grammar at the beginning of `out`, which has room for 2,048 bytes. Returns the length of the message: at most 1,491 bytes.
pub fn write_msg_by(grammar: Grammar, m: &Msg<'_>, out: &mut [u8]) -> usize
    requires sendable { IsSendableBy grammar m.now }
    requires room { 2048 ≤ length out.old }
    ensures length { result ≡ message_length (said_body m.now.body) }
    ensures bytes { out.new ≡ spelling_by grammar (message_of m.now) ++ drop result out.old }
    // What was written is read back.
    ensures read { reading_by grammar (take result out.new) ≡ Ok (message_of m.now) }
{
    put_msg_by(grammar, m, out)
}

/// Writes a message at the beginning of `out`, which has room for it. Returns the length of the message in bytes.
pub fn put_msg(m: &Msg<'_>, out: &mut [u8]) -> usize
    requires sendable { IsSendable m.now }
    requires room { message_length (said_body m.now.body) ≤ length out.old }
    ensures length { result ≡ message_length (said_body m.now.body) }
    ensures bytes { out.new ≡ spelling (message_of m.now) ++ drop result out.old }
    // What was written is read back.
    ensures read { reading (take result out.new) ≡ Ok (message_of m.now) }
{
    put_msg_by(Grammar::Plain, m, out)
}

/// Writes a message in a grammar at the beginning of `out`, which has room for it. Returns the length of the message in bytes.
pub fn put_msg_by(grammar: Grammar, m: &Msg<'_>, out: &mut [u8]) -> usize
    requires sendable { IsSendableBy grammar m.now }
    requires room { message_length (said_body m.now.body) ≤ length out.old }
    ensures length { result ≡ message_length (said_body m.now.body) }
    ensures bytes { out.new ≡ spelling_by grammar (message_of m.now) ++ drop result out.old }
    // What was written is read back.
    ensures read { reading_by grammar (take result out.new) ≡ Ok (message_of m.now) }
{
    put_kind(grammar, m, out)
}

/// Writes a message, of whichever kind.
#[tactic(auto, unfolding(crate::specs::Spelling::body_bytes))]
fn put_kind(grammar: Grammar, m: &Msg<'_>, out: &mut [u8]) -> usize
    requires lens { left_over m.now.body ≡ 0 }
    requires short { message_length (said_body m.now.body) < 2 ^ 16 }
    requires room { message_length (said_body m.now.body) ≤ length out.old }
    ensures length { result ≡ message_length (said_body m.now.body) }
    ensures bytes { out.new ≡ put 0 (sealed grammar (kind_lem (said_body m.now.body)) m.now.boot (body_bytes (said_body m.now.body))) out.old }
{
    let boot = m.boot;
    match m.body {
        Body::Hello => put_hello(grammar, boot, out),
        Body::Summary { count } => put_count(grammar, Kind::Summary, boot, count, out),
        Body::List { index } => put_count(grammar, Kind::List, boot, index, out),
        Body::Entry { index, head } => put_entry(grammar, boot, index, &head, out),
        Body::Bytes { key, offset } => put_from(grammar, Kind::Bytes, boot, key, offset, &[], out),
        Body::Part { key, offset, bytes } => put_from(
            grammar,
            Kind::Part,
            boot,
            key,
            offset,
            bytes,
            out,
        ),
        Body::Cuts { key, first } => put_from(grammar, Kind::Cuts, boot, key, first, &[], out),
        Body::Lens { key, first, lens } => {
            put_from(
                grammar,
                Kind::Lens,
                boot,
                key,
                first,
                two_bytes_each(lens),
                out,
            )
        }
        Body::Open(numbers) => put_opening(grammar, Kind::Open, boot, &numbers, out),
        Body::Opened(numbers) => put_opening(grammar, Kind::Opened, boot, &numbers, out),
        Body::Data(part) => put_data(grammar, boot, &part, out),
        Body::Stable(kept) => put_kept(grammar, Kind::Stable, boot, &kept, out),
        Body::Read { key, index, length } => put_read(grammar, boot, key, index, length, out),
        Body::Reads(kept) => put_kept(grammar, Kind::Reads, boot, &kept, out),
        Body::Done { key } => put_only_key(grammar, Kind::Done, boot, key, out),
        Body::Ended { key } => put_only_key(grammar, Kind::Ended, boot, key, out),
        Body::Stale { newer } => put_stale(grammar, boot, newer, out),
        Body::Full { key } => put_only_key(grammar, Kind::Full, boot, key, out),
    }
}

/// Returns the bytes that spell lengths, which are those from which the lengths were read.
fn two_bytes_each(lens: &[u8]) -> &[u8]
    requires { length lens.now % 2 ≡ 0 }
    ensures { result.now ≡ lens_bytes (lens_in lens.now) }
{
    lens
}

fn put_hello(grammar: Grammar, boot: u64, out: &mut [u8]) -> usize
    requires { behind_at Kind.Hello ≤ length out.old }
    ensures length { result ≡ behind_at Kind.Hello }
    ensures bytes { out.new ≡ put 0 (sealed grammar Kind.Hello boot (body_bytes HelloMsg)) out.old }
{
    finish(grammar, Kind::Hello, boot, HEADER, out)
}

/// Writes a Summary, or a List.
fn put_count(grammar: Grammar, kind: Kind, boot: u64, n: u16, out: &mut [u8]) -> usize
    requires { behind_at Kind.Summary ≤ length out.old }
    ensures length { result ≡ behind_at Kind.Summary }
    ensures bytes { out.new ≡ put 0 (sealed grammar kind boot (body_bytes (SummaryMsg n))) out.old }
{
    put_word(out, HEADER, n);
    finish(grammar, kind, boot, AFTER_COUNT, out)
}

fn put_entry(grammar: Grammar, boot: u64, index: u16, head: &EntryHead, out: &mut [u8]) -> usize
    requires { behind_at Kind.Entry ≤ length out.old }
    ensures length { result ≡ behind_at Kind.Entry }
    ensures bytes { out.new ≡ put 0 (sealed grammar Kind.Entry boot (body_bytes (EntryMsg index (head_said head.now)))) out.old }
{
    head.put(index, out);
    finish(grammar, Kind::Entry, boot, EntryHead::END, out)
}

/// Writes a message of a kind that has a key, the offset or index at which its bytes or lengths start, and these.
fn put_from(
    grammar: Grammar,
    kind: Kind,
    boot: u64,
    key: Key,
    start: u32,
    behind: &[u8],
    out: &mut [u8],
) -> usize
    requires short { message_length (PartMsg key start behind.now) < 2 ^ 16 }
    requires room { message_length (PartMsg key start behind.now) ≤ length out.old }
    ensures length { result ≡ message_length (PartMsg key start behind.now) }
    ensures bytes { out.new ≡ put 0 (sealed grammar kind boot (body_bytes (PartMsg key start behind.now))) out.old }
{
    put_key(out, HEADER, key);
    put_long(out, AFTER_KEY, start);
    finish_with(grammar, kind, boot, AFTER_START, behind, out)
}

/// Writes an Open, or an Opened.
fn put_opening(grammar: Grammar, kind: Kind, boot: u64, numbers: &Numbers, out: &mut [u8]) -> usize
    requires { behind_at Kind.Open ≤ length out.old }
    ensures length { result ≡ behind_at Kind.Open }
    ensures bytes { out.new ≡ put 0 (sealed grammar kind boot (body_bytes (OpenMsg (numbers_said numbers.now)))) out.old }
{
    numbers.put(out);
    finish(grammar, kind, boot, Numbers::END, out)
}

fn put_data(grammar: Grammar, boot: u64, part: &Part<'_>, out: &mut [u8]) -> usize
    requires short { message_length (DataMsg (part_said part.now)) < 2 ^ 16 }
    requires room { message_length (DataMsg (part_said part.now)) ≤ length out.old }
    ensures length { result ≡ message_length (DataMsg (part_said part.now)) }
    ensures bytes { out.new ≡ put 0 (sealed grammar Kind.Data boot (body_bytes (DataMsg (part_said part.now)))) out.old }
{
    part.put(out);
    finish_with(grammar, Kind::Data, boot, Part::END, part.bytes, out)
}

/// Writes a Stable, or a Reads.
fn put_kept(grammar: Grammar, kind: Kind, boot: u64, kept: &Kept, out: &mut [u8]) -> usize
    requires { behind_at Kind.Stable ≤ length out.old }
    ensures length { result ≡ behind_at Kind.Stable }
    ensures bytes { out.new ≡ put 0 (sealed grammar kind boot (body_bytes (StableMsg (kept_said kept.now)))) out.old }
{
    kept.put(out);
    finish(grammar, kind, boot, Kept::END, out)
}

fn put_read(grammar: Grammar, boot: u64, key: Key, index: u32, len: u16, out: &mut [u8]) -> usize
    requires { behind_at Kind.Read ≤ length out.old }
    ensures length { result ≡ behind_at Kind.Read }
    ensures bytes { out.new ≡ put 0 (sealed grammar Kind.Read boot (body_bytes (ReadMsg key index len))) out.old }
{
    put_key(out, HEADER, key);
    put_long(out, AFTER_KEY, index);
    put_word(out, AFTER_START, len);
    finish(grammar, Kind::Read, boot, AFTER_LENGTH, out)
}

/// Writes a message of a kind that has only a key.
fn put_only_key(grammar: Grammar, kind: Kind, boot: u64, key: Key, out: &mut [u8]) -> usize
    requires { behind_at Kind.Done ≤ length out.old }
    ensures length { result ≡ behind_at Kind.Done }
    ensures bytes { out.new ≡ put 0 (sealed grammar kind boot (body_bytes (DoneMsg key))) out.old }
{
    put_key(out, HEADER, key);
    finish(grammar, kind, boot, AFTER_KEY, out)
}

fn put_stale(grammar: Grammar, boot: u64, newer: u64, out: &mut [u8]) -> usize
    requires { behind_at Kind.Stale ≤ length out.old }
    ensures length { result ≡ behind_at Kind.Stale }
    ensures bytes { out.new ≡ put 0 (sealed grammar Kind.Stale boot (body_bytes (StaleMsg newer))) out.old }
{
    put_huge(out, HEADER, newer);
    finish(grammar, Kind::Stale, boot, AFTER_NEWER, out)
}

/// Writes the header before a body that is already in place. Returns the length of the message.
fn finish(grammar: Grammar, kind: Kind, boot: u64, len: usize, out: &mut [u8]) -> usize
    requires long { HEADER ≤ len }
    requires short { len < 2 ^ 16 }
    requires room { len ≤ length out.old }
    ensures length { result ≡ len }
    ensures bytes { out.new ≡ framed grammar kind boot len out.old }
{
    put_header(grammar, kind, boot, len as u16, out);
    let check = checksum_of(&out[..len]);
    put_word(out, CHECKSUM_AT, check);
    len
}

/// Writes the header, and the bytes after the fields. It computes the checksum over these bytes where they come from: reading back what was just written is
/// slower.
fn finish_with(
    grammar: Grammar,
    kind: Kind,
    boot: u64,
    at: usize,
    behind: &[u8],
    out: &mut [u8],
) -> usize
    requires long { HEADER ≤ at }
    requires short { at + length behind.now < 2 ^ 16 }
    requires room { at + length behind.now ≤ length out.old }
    ensures length { result ≡ at + length behind.now }
    ensures bytes { out.new ≡ framed grammar kind boot (at + length behind.now) (put at behind.now out.old) }
{
    let len = at + behind.len();
    put_bytes(out, at, behind);
    put_header(grammar, kind, boot, len as u16, out);
    let check = checksum_of_both(&out[..at], behind);
    put_word(out, CHECKSUM_AT, check);
    len
}

/// Writes a header with zero in its checksum field.
fn put_header(grammar: Grammar, kind: Kind, boot: u64, len: u16, out: &mut [u8])
    requires { HEADER ≤ length out.old }
    ensures { out.new ≡ put 0 (header grammar kind len 0 boot) out.old }
{
    put_word(out, MAGIC_AT, MAGIC);
    put_bytes(out, VERSION_AT, &[version_of(grammar), number_of(kind)]);
    put_word(out, LENGTH_AT, len);
    put_word(out, CHECKSUM_AT, 0);
    put_huge(out, BOOT_AT, boot);
}

/// Returns a kind's number on the wire.
fn number_of(kind: Kind) -> u8
    ensures { result ≡ kind_number kind }
{
    kind as u8
}

/// Returns the checksum of two strings of bytes, one after the other.
pub fn checksum_of_both(front: &[u8], rest: &[u8]) -> u16
    requires { length front.now + length rest.now < 2 ^ 16 }
    ensures { result ≡ checksum (front.now ++ rest.now) }
{
    let mut sum = Sum16::new();
    sum.take(front);
    sum.take(rest);
    sum.check()
}
