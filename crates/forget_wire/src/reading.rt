//! Reading a message about forgetting: the tests in the order of the grammar, and each field at a constant position.

ghost use Rattle.std.specs.Prelude.{◌≡◌, ◌≤◌, ◌+◌, length, drop, option_map, IfOk};
ghost use Rattle.seq_arith.specs.MessageGrammar.{number_in, numbers_in};
ghost use Rattle.long_laws.specs.ForgetGrammar.{kind_numbered, naming, named_in, reading_of, reading, IsSpellable};
ghost use Rattle.forget_wire.specs.Value.{named_said, kind_said, message_of, seen};

use crate::message::{ForgetBody, ForgetMsg, Kind, Named};
use crate::{HEADER, LENGTH, MAGIC, VERSION};
use byteorder::{BigEndian, ByteOrder};
use ft_io::Key;
use logger_wire::{checksum_of, word_at};
use seq_arith::BadMsg;

/// Reads a message about forgetting. The error is the first test of its grammar that it fails.
#[tactic(auto, unfolding(long_laws::specs::ForgetGrammar::reading))]
pub fn read_forget(bytes: &[u8]) -> Result<ForgetMsg, BadMsg>
    ensures value { seen result ≡ reading bytes.now }
    // A message that was read may be sent.
    ensures sendable { IfOk result (λ msg. IsSpellable (message_of msg)) }
{
    if bytes.len() < HEADER {
        return Err(BadMsg::Short);
    }
    if word_at(bytes, 0) != MAGIC {
        return Err(BadMsg::Magic);
    }
    if bytes[2] != VERSION {
        return Err(BadMsg::Version);
    }
    match kind_of_number(bytes[3]) {
        Some(kind) => read_kind(kind, bytes),
        None => Err(BadMsg::Kind),
    }
}

/// Returns the kind with this number on the wire, if there is one.
#[tactic(auto, unfolding(long_laws::specs::ForgetGrammar::kind_numbered))]
fn kind_of_number(number: u8) -> Option<Kind>
    ensures { option_map kind_said result ≡ kind_numbered number }
{
    match number {
        1 => Some(Kind::Forget),
        2 => Some(Kind::Forgotten),
        _ => None,
    }
}

/// Reads a message of a kind.
#[tactic(auto, unfolding(long_laws::specs::ForgetGrammar::reading_of, long_laws::specs::ForgetGrammar::boot_in))]
fn read_kind(kind: Kind, bytes: &[u8]) -> Result<ForgetMsg, BadMsg>
    requires { 16 ≤ length bytes.now }
    ensures value { seen result ≡ reading_of (kind_said kind) bytes.now }
    ensures sendable { IfOk result (λ msg. IsSpellable (message_of msg)) }
{
    if usize::from(word_at(bytes, 4)) != bytes.len() || bytes.len() != LENGTH {
        return Err(BadMsg::Length);
    }
    if checksum_of(bytes) != 0 {
        return Err(BadMsg::Sum);
    }
    let boot = huge(bytes, 8);
    if boot < 1 {
        return Err(BadMsg::Field);
    }
    Ok(ForgetMsg {
        boot,
        body: ForgetBody::of(kind, read_named(bytes)),
    })
}

/// Reads the connection that a message is about.
fn read_named(bytes: &[u8]) -> Named
    requires { LENGTH ≤ length bytes.now }
    ensures { named_said result ≡ named_in (numbers_in naming (drop 16 bytes.now)) }
{
    Named {
        key: key(bytes),
        cisn: long(bytes, 22),
        sisn: long(bytes, 26),
    }
}

/// Reads the key, which follows the header: its address, and then its port.
fn key(bytes: &[u8]) -> Key
    requires { 22 ≤ length bytes.now }
    ensures ip { result.ip ≡ number_in 4 (drop 16 bytes.now) }
    ensures port { result.port ≡ number_in 2 (drop 20 bytes.now) }
{
    Key {
        ip: long(bytes, 16),
        port: word(bytes, 20),
    }
}

#[tactic(auto, using(std::proofs::lemmas::List::take_rest), unfolding(seq_arith::specs::MessageGrammar::number_in))]
fn word(bytes: &[u8], at: usize) -> u16
    requires { at + 2 ≤ length bytes.now }
    ensures { result ≡ number_in 2 (drop at bytes.now) }
{
    BigEndian::read_u16(&bytes[at..])
}

#[tactic(auto, using(std::proofs::lemmas::List::take_rest), unfolding(seq_arith::specs::MessageGrammar::number_in))]
fn long(bytes: &[u8], at: usize) -> u32
    requires { at + 4 ≤ length bytes.now }
    ensures { result ≡ number_in 4 (drop at bytes.now) }
{
    BigEndian::read_u32(&bytes[at..])
}

#[tactic(auto, using(std::proofs::lemmas::List::take_rest), unfolding(seq_arith::specs::MessageGrammar::number_in))]
fn huge(bytes: &[u8], at: usize) -> u64
    requires { at + 8 ≤ length bytes.now }
    ensures { result ≡ number_in 8 (drop at bytes.now) }
{
    BigEndian::read_u64(&bytes[at..])
}
