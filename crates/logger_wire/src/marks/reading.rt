//! Reading a message about marks in place: the tests in the order of the grammar, and each field at a constant position.

ghost use Rattle.limits.specs.Limits.{longest_stream, most_units};
ghost use Rattle.std.specs.Prelude.{◌≡◌, ◌≤◌, ◌+◌, ◌^◌, ◌&&◌, nat_le, true, length, drop, IfOk};
ghost use Rattle.seq_arith.specs.MessageGrammar.{number_in};
ghost use Rattle.seq_arith.specs.MarkGrammar.{kind_numbered, has_length as has_length_lem, marking, fields_of, numbers_of, behind_at, behind_of};
ghost use Rattle.seq_arith.specs.MarkGrammar.{kind_of, mark_in, body_in};
ghost use Rattle.seq_arith.specs.MarkGrammar.{is_sound as is_sound_lem, reading_of, reading, IsSpellable};
ghost use Rattle.seq_arith.specs.MessageGrammar.{numbers_in};
ghost use Rattle.logger_wire.specs.MarkValue.{mark_said, body_of, message_of, seen};

use crate::marks::{HEADER, MAGIC, Mark, MarkBody, MarkMsg, VERSION};
use crate::reading::{checksum_of, word_at};
use byteorder::{BigEndian, ByteOrder};
use ft_io::Key;
use limits::{STREAM, UNITS};
use seq_arith::{BadMark, MarkKind};

/// Reads a message about marks. The error is the first test of its grammar that it fails. It copies none of the message's bytes.
#[tactic(auto, unfolding(seq_arith::specs::MarkGrammar::reading))]
pub fn read_mark(bytes: &[u8]) -> Result<MarkMsg<'_>, BadMark>
    ensures value { seen result ≡ reading bytes.now }
    // A message that was read may be sent.
    ensures sendable { IfOk result (λ msg. IsSpellable (message_of msg)) }
{
    if bytes.len() < HEADER {
        return Err(BadMark::Short);
    }
    if word_at(bytes, 0) != MAGIC {
        return Err(BadMark::Magic);
    }
    if bytes[2] != VERSION {
        return Err(BadMark::Version);
    }
    match kind_of_number(bytes[3]) {
        Some(kind) => read_kind(kind, bytes),
        None => Err(BadMark::Kind),
    }
}

/// Returns the kind with this number on the wire, if there is one.
#[tactic(auto, unfolding(seq_arith::specs::MarkGrammar::kind_numbered))]
fn kind_of_number(number: u8) -> Option<MarkKind>
    ensures { result ≡ kind_numbered number }
{
    match number {
        1 => Some(MarkKind::Mark),
        2 => Some(MarkKind::Marked),
        3 => Some(MarkKind::Ask),
        4 => Some(MarkKind::Held),
        _ => None,
    }
}

/// Returns whether a message of a kind may have `len` bytes.
#[tactic(auto, unfolding(seq_arith::specs::MarkGrammar::has_length))]
fn has_length(kind: MarkKind, len: usize) -> bool
    ensures { result ≡ has_length_lem kind len }
{
    match kind {
        MarkKind::Mark | MarkKind::Held => (34..=1_134).contains(&len),
        MarkKind::Marked => len == 26,
        MarkKind::Ask => len == 22,
    }
}

/// Reads a message of a kind.
#[tactic(auto, unfolding(seq_arith::specs::MarkGrammar::reading_of))]
fn read_kind(kind: MarkKind, bytes: &[u8]) -> Result<MarkMsg<'_>, BadMark>
    requires { 16 ≤ length bytes.now }
    ensures value { seen result ≡ reading_of kind bytes.now }
    ensures sendable { IfOk result (λ msg. IsSpellable (message_of msg)) }
{
    if usize::from(word_at(bytes, 4)) != bytes.len() || !has_length(kind, bytes.len()) {
        return Err(BadMark::Length);
    }
    if checksum_of(bytes) != 0 {
        return Err(BadMark::Sum);
    }
    let msg = MarkMsg {
        boot: huge(bytes, 8),
        body: read_body(kind, bytes),
    };
    if !is_sound(&msg) {
        return Err(BadMark::Field);
    }
    Ok(msg)
}

/// Reads the body of a message of a kind, which follows its header.
#[tactic(auto, unfolding(seq_arith::specs::MarkGrammar::has_length))]
fn read_body(kind: MarkKind, bytes: &[u8]) -> MarkBody<'_>
    requires { has_length_lem kind (length bytes.now) ≡ true }
    ensures { body_of result ≡ body_in kind (numbers_in (fields_of kind) (drop 16 bytes.now)) (drop (behind_at kind) bytes.now) }
{
    match kind {
        MarkKind::Mark => MarkBody::Mark {
            key: key(bytes),
            mark: mark_after_key(bytes),
        },
        MarkKind::Marked => MarkBody::Marked {
            key: key(bytes),
            reads: long(bytes, 22),
        },
        MarkKind::Ask => MarkBody::Ask { key: key(bytes) },
        MarkKind::Held => MarkBody::Held {
            key: key(bytes),
            mark: mark_after_key(bytes),
        },
    }
}

/// Returns whether all numbers of a message are in their ranges.
#[tactic(auto, unfolding(seq_arith::specs::MarkGrammar::is_sound))]
fn is_sound(msg: &MarkMsg<'_>) -> bool
    ensures { result ≡ is_sound_lem (kind_of (body_of msg.now.body)) msg.now.boot (length (behind_of (body_of msg.now.body)))
        (numbers_of (body_of msg.now.body)) }
{
    let is_body_sound = match msg.body {
        MarkBody::Mark { mark, .. } => mark.reads >= 1 && is_in_range(&mark),
        MarkBody::Marked { reads, .. } => reads <= UNITS,
        MarkBody::Ask { .. } => true,
        MarkBody::Held { mark, .. } => is_in_range(&mark),
    };
    msg.boot >= 1 && is_body_sound
}

/// Returns whether the numbers of a mark are in the ranges that those of a Held have.
fn is_in_range(mark: &Mark<'_>) -> bool
    ensures { result ≡ (nat_le mark.now.reads most_units && (nat_le mark.now.length longest_stream && nat_le mark.now.made longest_stream)) }
{
    mark.reads <= UNITS && mark.length <= STREAM && mark.made <= STREAM
}

/// Reads the mark that follows the key: its numbers, and then the state.
fn mark_after_key(bytes: &[u8]) -> Mark<'_>
    requires { 34 ≤ length bytes.now }
    ensures { mark_said result ≡ mark_in (numbers_in marking (drop 16 bytes.now)) (drop 34 bytes.now) }
{
    Mark {
        reads: long(bytes, 22),
        length: long(bytes, 26),
        made: long(bytes, 30),
        state: behind(bytes, 34),
    }
}

/// Reads the key, which every kind has first: its address, and then its port.
fn key(bytes: &[u8]) -> Key
    requires { 22 ≤ length bytes.now }
    ensures ip { result.ip ≡ number_in 4 (drop 16 bytes.now) }
    ensures port { result.port ≡ number_in 2 (drop 20 bytes.now) }
{
    Key {
        ip: long(bytes, 16),
        port: word(bytes, 20),
    }
}

#[tactic(auto, using(std::proofs::lemmas::List::take_rest), unfolding(seq_arith::specs::MessageGrammar::number_in))]
fn word(bytes: &[u8], at: usize) -> u16
    requires { at + 2 ≤ length bytes.now }
    ensures { result ≡ number_in 2 (drop at bytes.now) }
{
    BigEndian::read_u16(&bytes[at..])
}

#[tactic(auto, using(std::proofs::lemmas::List::take_rest), unfolding(seq_arith::specs::MessageGrammar::number_in))]
fn long(bytes: &[u8], at: usize) -> u32
    requires { at + 4 ≤ length bytes.now }
    ensures { result ≡ number_in 4 (drop at bytes.now) }
{
    BigEndian::read_u32(&bytes[at..])
}

#[tactic(auto, using(std::proofs::lemmas::List::take_rest), unfolding(seq_arith::specs::MessageGrammar::number_in))]
fn huge(bytes: &[u8], at: usize) -> u64
    requires { at + 8 ≤ length bytes.now }
    ensures { result ≡ number_in 8 (drop at bytes.now) }
{
    BigEndian::read_u64(&bytes[at..])
}

/// Returns the bytes from a position on.
#[tactic(auto, using(std::proofs::lemmas::List::take_rest))]
fn behind(bytes: &[u8], at: usize) -> &[u8]
    requires { at ≤ length bytes.now }
    ensures { result.now ≡ drop at bytes.now }
{
    &bytes[at..]
}
