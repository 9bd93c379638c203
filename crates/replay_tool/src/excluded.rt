//! Wrong results that the contracts of this crate exclude. Each function calls another one of the crate, and promises of its result what a wrong body would
//! make false. It is proved from the other's contract alone, so it is no longer proved once that contract lets the wrong body pass.

ghost use Rattle.std.specs.Prelude.{◌≡◌, map, string_bytes};
ghost use Rattle.replay_tool.specs.Words.{AreOther};

use crate::top::replay;
use ft_io::{Sink, Source};
use replay_check::Status;
use std::alloc::Global;

/// For words that are none of `run`, `check` and a seed's nothing is read: the clause `other_words` of `replay`.
fn takes_every_word_for_a_run<I: Source, O: Sink, E: Sink>(
    alloc: Global,
    words: &[String],
    input: &mut I,
    out: &mut O,
    err: &mut E,
) -> Status
    requires { AreOther (map string_bytes words.now) }
    ensures { input.new ≡ input.old }
{
    replay(alloc, words, input, out, err)
}
