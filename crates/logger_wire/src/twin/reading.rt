//! Reading a datagram between two loggers in place: the tests in the grammar's order.

ghost use Rattle.std.specs.Prelude.{◌≡◌, ◌≤◌, ◌<◌, ◌^◌, true, length, drop, IfOk};
ghost use Rattle.seq_arith.specs.MessageGrammar.{number_in};
ghost use Rattle.seq_arith.specs.declared.kinds.Grammar.{Grammar};
ghost use Rattle.seq_arith.specs.TwinGrammar.{reading, reading_by, reading_of, is_sound as is_sound_lem, is_sound_by, datagram_of};
ghost use Rattle.seq_arith.specs.TwinGrammar.{kind_of, number_of, behind_of};
ghost use Rattle.logger_wire.specs.TwinValue.{said_by, seen};

use crate::reading::{checksum_of, word_at};
use crate::twin::table::{HEADER, MAGIC, VERSION, has_length, is_sound, kind_of_number};
use crate::twin::twin_msg::TwinMsg;
use byteorder::{BigEndian, ByteOrder};
use seq_arith::{BadTwin, Grammar, TwinKind};

/// Reads a datagram between two loggers whose messages have the plain grammar, or says which test of its grammar it fails first. It copies none of its bytes.
pub fn read_twin(bytes: &[u8]) -> Result<TwinMsg<'_>, BadTwin>
    ensures value { seen result ≡ reading bytes.now }
    // What is read is in its range.
    ensures sound { IfOk result (λ m. is_sound_lem (kind_of (said_by m)) (number_of (said_by m)) (behind_of (said_by m)) ≡ true) }
{
    read_twin_by(Grammar::Plain, bytes)
}

/// Reads a datagram between two loggers whose messages have this grammar.
#[tactic(auto, unfolding(seq_arith::specs::TwinGrammar::reading_by))]
pub fn read_twin_by(grammar: Grammar, bytes: &[u8]) -> Result<TwinMsg<'_>, BadTwin>
    ensures value { seen result ≡ reading_by grammar bytes.now }
    ensures sound { IfOk result (λ m. is_sound_by grammar (kind_of (said_by m)) (number_of (said_by m)) (behind_of (said_by m)) ≡ true) }
{
    if bytes.len() < HEADER {
        return Err(BadTwin::Short);
    }
    if word_at(bytes, 0) != MAGIC {
        return Err(BadTwin::Magic);
    }
    if bytes[2] != VERSION {
        return Err(BadTwin::Version);
    }
    match kind_of_number(bytes[3]) {
        Some(kind) => read_kind(grammar, kind, bytes),
        None => Err(BadTwin::Kind),
    }
}

/// Reads a datagram of a known kind.
#[tactic(auto, using(std::proofs::lemmas::List::take_rest), unfolding(crate::proofs::Unfolded::read_kind_words))]
fn read_kind(grammar: Grammar, kind: TwinKind, bytes: &[u8]) -> Result<TwinMsg<'_>, BadTwin>
    requires { 16 ≤ length bytes.now }
    ensures value { seen result ≡ reading_of grammar kind bytes.now }
    ensures sound { IfOk result (λ m. is_sound_by grammar (kind_of (said_by m)) (number_of (said_by m)) (behind_of (said_by m)) ≡ true) }
{
    if usize::from(word_at(bytes, 4)) != bytes.len() || !has_length(kind, bytes.len()) {
        return Err(BadTwin::Length);
    }
    if checksum_of(bytes) != 0 {
        return Err(BadTwin::Sum);
    }
    let number = number_in(bytes);
    let behind = &bytes[HEADER..];
    if !is_sound(grammar, kind, number, behind) {
        return Err(BadTwin::Field);
    }
    Ok(datagram_of(kind, number, behind))
}

#[tactic(auto, using(std::proofs::lemmas::List::take_rest), unfolding(seq_arith::specs::MessageGrammar::number_in))]
fn number_in(bytes: &[u8]) -> u64
    requires { 16 ≤ length bytes.now }
    ensures { result ≡ number_in 8 (drop 8 bytes.now) }
{
    BigEndian::read_u64(&bytes[8..])
}

/// The datagram of a kind with this number and these bytes after its header.
#[tactic(auto, unfolding(seq_arith::specs::TwinGrammar::is_sound_by))]
fn datagram_of(kind: TwinKind, number: u64, behind: &[u8]) -> TwinMsg<'_>
    ensures value { said_by result ≡ datagram_of kind number behind.now }
    ensures sound { (grammar : Grammar) → is_sound_by grammar kind number behind.now ≡ true
        → is_sound_by grammar (kind_of (said_by result)) (number_of (said_by result)) (behind_of (said_by result)) ≡ true }
{
    match kind {
        TwinKind::Forward => TwinMsg::Forward {
            number,
            message: behind,
        },
        TwinKind::Got => TwinMsg::Got { number },
        TwinKind::Alone => TwinMsg::Alone,
    }
}
