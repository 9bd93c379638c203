//! The kinds of datagrams between two loggers as the code reads them: their numbers, lengths and ranges.

ghost use Rattle.std.specs.Prelude.{◌≡◌};
ghost use Rattle.seq_arith.specs.TwinGrammar.{kind_number, kind_numbered, has_length as has_length_lem, is_asking_by, is_sound_by};

use crate::reading::read_msg_by;
use seq_arith::{Grammar, TwinKind};

/// The length of every header, in bytes.
pub(crate) const HEADER: usize = 16;

/// The first two bytes of every datagram, "FU". The version follows.
pub(crate) const MAGIC: u16 = 0x4655;

pub(crate) const VERSION: u8 = 1;

const KINDS: [TwinKind; 3] = [TwinKind::Forward, TwinKind::Got, TwinKind::Alone];

/// A kind's number on the wire.
pub(crate) fn number_of(kind: TwinKind) -> u8
    ensures { result ≡ kind_number kind }
{
    kind as u8
}

/// The kind with a number on the wire, if there is one.
#[tactic(auto, unfolding(seq_arith::specs::TwinGrammar::kind_numbered))]
pub(crate) fn kind_of_number(number: u8) -> Option<TwinKind>
    ensures { result ≡ kind_numbered number }
{
    KINDS
        .iter()
        .copied()
        .find(|kind| number_of(*kind) == number)
}

/// Whether a datagram of a kind may have `len` bytes.
#[tactic(auto, unfolding(seq_arith::specs::TwinGrammar::has_length))]
pub(crate) fn has_length(kind: TwinKind, len: usize) -> bool
    ensures { result ≡ has_length_lem kind len }
{
    match kind {
        TwinKind::Forward => (32..=1_507).contains(&len),
        TwinKind::Got | TwinKind::Alone => len == HEADER,
    }
}

/// Whether bytes are a message of a grammar that a server may send to a logger.
#[tactic(auto, unfolding(seq_arith::specs::TwinGrammar::is_asking_by))]
pub(crate) fn is_asking(grammar: Grammar, bytes: &[u8]) -> bool
    ensures { result ≡ is_asking_by grammar bytes.now }
{
    match read_msg_by(grammar, bytes) {
        Ok(msg) => !msg.body.is_answer(),
        Err(_) => false,
    }
}

/// Whether a datagram of a kind may have this number, and these bytes after its header, where the loggers' messages have this grammar.
#[tactic(auto, unfolding(seq_arith::specs::TwinGrammar::is_sound_by))]
pub(crate) fn is_sound(grammar: Grammar, kind: TwinKind, number: u64, behind: &[u8]) -> bool
    ensures { result ≡ is_sound_by grammar kind number behind.now }
{
    match kind {
        TwinKind::Forward => number >= 1 && is_asking(grammar, behind),
        TwinKind::Got => number >= 1,
        TwinKind::Alone => number == 0,
    }
}
