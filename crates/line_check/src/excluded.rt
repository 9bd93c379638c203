//! Wrong results that the contracts of this crate exclude. Each function calls another one of the crate, and promises of its result what a wrong body would
//! make false. It is proved from the other's contract alone, so it is no longer proved once that contract lets the wrong body pass.

ghost use Rattle.std.specs.Prelude.{◌≡◌, true, false, IfOk};

use crate::columns::{Limits, in_range};
use crate::header_line::is_header_of;
use crate::packet_line::passes;
use crate::values::number_word;
use crate::words::before_feed;
use ft_io::NoMemory;
use schedule_text::Schedule;
use seq_arith::{Field, Grammar};
use std::alloc::Global;

/// No text is accepted as the header of a schedule with two loggers: the contract of `is_header_of`.
fn a_header_of_two_loggers_passes(
    alloc: Global,
    schedule: &Schedule,
    text: &[u8],
) -> Result<bool, NoMemory>
    requires { schedule.now.twin ≡ true }
    ensures { IfOk result (λ same. same ≡ false) }
{
    is_header_of(alloc, schedule, text)
}

/// A word with a leading zero spells no number: the contract of `number_word`.
#[tactic(auto, unfolding(crate::proofs::Unfolded::a_leading_zero_passes_words))]
fn a_leading_zero_passes() -> Option<u64>
    ensures { result ≡ None }
{
    number_word(99, b"07")
}

/// A line that doesn't end with its line feed has no words: the contract of `before_feed`.
fn a_line_without_its_feed_passes() -> bool
    ensures { result ≡ false }
{
    before_feed(b"event 1 tick").is_some()
}

/// No line is that of packet 200,001: the contract of `passes`.
fn one_packet_past_the_limit_passes(grammar: Grammar, clients: usize, line: &[u8]) -> bool
    ensures { result ≡ false }
{
    passes(grammar, clients, 200_001, line)
}

/// No Data of the plain grammar says that a later one follows: the contract of `in_range`.
fn a_plain_data_that_another_follows() -> bool
    ensures { result ≡ false }
{
    let limits = Limits {
        grammar: Grammar::Plain,
        boot: 1,
        behind: 0,
    };
    in_range(limits, Field::Ending, 2)
}
