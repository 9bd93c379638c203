//! The `seed` command, from its arguments to the exit status.

ghost use Rattle.std.specs.Prelude.{◌≡◌, ◌⊎◌, true, map, string_bytes, None, IfSome};
ghost use Rattle.replay_seed.specs.SeedWords.{asked};
ghost use Rattle.replay_check.specs.Ends.{is_seed_code};
ghost use Rattle.replay_check.specs.Outcome.{HasEnded};
ghost use Rattle.replay_tool.specs.SeedRuns.{SeedDoes, end_of_seed as end_lem};
ghost use Rattle.replay_check.specs.Stream.{stream, IsStill};

use ft_io::Sink;
use replay_check::{RunEnd, Status, TooMuch, report_end};
use replay_seed::{SeedEnd, seed};
use std::alloc::Global;

/// Returns the end of a generated run as the end of a run.
fn end_of_seed(end: SeedEnd) -> RunEnd
    ensures { result ≡ end_lem end }
{
    match end {
        SeedEnd::Usage => RunEnd::Usage,
        SeedEnd::NoMemory => RunEnd::NoMemory,
        SeedEnd::WriteFault => RunEnd::WriteFault,
        SeedEnd::PacketLimit => RunEnd::TooLong(TooMuch::Packets),
    }
}

/// Plays the schedule generated from the arguments and writes its summary to `out`. If the run ended early, it then writes the reason to `err`.
pub(crate) fn run_seed<O: Sink, E: Sink>(
    alloc: Global,
    words: &[String],
    out: &mut O,
    err: &mut E,
) -> Status
    requires seeds { asked (map string_bytes words.now) ≡ None → ⊥ }
    ensures ended { IfSome (asked (map string_bytes words.now)) (λ a. HasEnded (SeedDoes a (stream O.taken O.fault_count out.old out.new))
        (stream E.taken E.fault_count err.old err.new) result.code) }
    ensures codes { is_seed_code result.code ≡ true }
    ensures settled { IsStill (O.fault_count out.old) (O.fault_count out.new) → IsStill (E.fault_count err.old) (E.fault_count err.new)
        → (result.code ≡ 0) ⊎ (result.code ≡ 3) ⊎ (result.code ≡ 8) }
{
    match seed(alloc, words, out) {
        Ok(()) => Status { code: 0 },
        Err(end) => report_end(err, end_of_seed(end)),
    }
}
