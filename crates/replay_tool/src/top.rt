//! The top call.

ghost use Rattle.std.specs.Prelude.{◌≡◌, true, map, string_bytes, IfSome};
ghost use Rattle.ft_io.specs.Source.{ConsumesAtMost};
ghost use Rattle.replay_seed.specs.SeedWords.{asked};
ghost use Rattle.replay_tool.specs.Words.{is_run, is_check, most_read, AreOther};
ghost use Rattle.replay_check.specs.PartialWrite.{Wrote};
ghost use Rattle.replay_run.specs.PlayedRun.{Spells, ReportsAll};
ghost use Rattle.replay_check.specs.Checks.{IsFoundLegal, HasChecked};
ghost use Rattle.replay_tool.specs.Kinds.{HasSeeded, IsUsage};
ghost use Rattle.replay_run.specs.Runs.{HasRun};
ghost use Rattle.replay_check.specs.Stream.{stream};
ghost use Rattle.replay_check.specs.Ends.{is_code};

use crate::seeds::run_seed;
use ft_io::{Sink, Source};
use replay_check::{RunEnd, Status, check_report, report_end};
use replay_run::replay_schedule;
use replay_seed::Asked;
use std::alloc::Global;

/// Returns whether the arguments are the one word `run`.
fn asks_for_run(words: &[String]) -> bool
    ensures { result ≡ is_run (map string_bytes words.now) }
{
    match words {
        [word] => word.as_str() == "run",
        _ => false,
    }
}

/// Returns whether the arguments are the one word `check`.
fn asks_for_check(words: &[String]) -> bool
    ensures { result ≡ is_check (map string_bytes words.now) }
{
    match words {
        [word] => word.as_str() == "check",
        _ => false,
    }
}

/// Runs `ftreplay` with these arguments. For `run` it reads a schedule from `input` to its end and writes the report to `out` as it plays the schedule. For
/// `check` it reads a report from `input` to its end, and writes either to `out` that it is the report of a legal trace, or to `err` the line and the law by
/// which it is rejected. For `seed SEED CLIENTS EVENTS` it plays this many events of the schedule that the seed generates for this many clients, and writes
/// their summary to `out` at the end; it reads nothing. If a run ended early, it then writes the reason to `err`. The status is 0 if all was done, 2 for
/// other arguments, 3 where an allocation failed, 4 for a fault of the source, 5 for a fault of a sink, 6 for a refused line, 7 for a refused event, 8 at a
/// limit, and 9 for a rejected report. For a seed it is 0, 3, 5 or 8.
#[tactic(auto, using(crate::proofs::Seeding::run_asks_none, crate::proofs::Seeding::check_asks_none, crate::proofs::Seeding::run_is_no_check))]
pub fn replay<I: Source, O: Sink, E: Sink>(
    alloc: Global,
    words: &[String],
    input: &mut I,
    out: &mut O,
    err: &mut E,
) -> Status
    // For `run`, the main promise: the input was read to its end and spells a schedule, and the text written is the report of a legal, masked trace of it.
    ensures done { is_run (map string_bytes words.now) ≡ true → result.code ≡ 0
        → IfSome (I.left input.old) (λ text. Spells text (λ schedule. Wrote (O.taken out.old) (O.taken out.new) (ReportsAll schedule))) }
    // For `check`: the input is the report of a legal, masked trace, and the text written gives the numbers of its events and packets.
    ensures legal { is_check (map string_bytes words.now) ≡ true → result.code ≡ 0
        → IfSome (I.left input.old) (λ text. Wrote (O.taken out.old) (O.taken out.new) (IsFoundLegal text)) }

    // How the call ended: what was read, what was written, and which calls failed; the exit status, and what was written to err.
    ensures run { is_run (map string_bytes words.now) ≡ true
        → HasRun (stream I.left I.fault_count input.old input.new) (stream O.taken O.fault_count out.old out.new)
        (stream E.taken E.fault_count err.old err.new) result.code }
    ensures check { is_check (map string_bytes words.now) ≡ true
        → HasChecked (stream I.left I.fault_count input.old input.new) (stream O.taken O.fault_count out.old out.new)
        (stream E.taken E.fault_count err.old err.new) result.code }
    ensures seed { IfSome (asked (map string_bytes words.now))
        (λ a. HasSeeded a (stream I.left I.fault_count input.old input.new) (stream O.taken O.fault_count out.old out.new)
        (stream E.taken E.fault_count err.old err.new) result.code) }
    ensures other_words { AreOther (map string_bytes words.now)
        → IsUsage (stream I.left I.fault_count input.old input.new) (stream O.taken O.fault_count out.old out.new)
        (stream E.taken E.fault_count err.old err.new) result.code }

    // The status is 2 only for other arguments, and 9 only for `check`.
    ensures codes { is_code result.code ≡ true }
    ensures usage { result.code ≡ 2 → AreOther (map string_bytes words.now) }
    ensures rejected { result.code ≡ 9 → is_check (map string_bytes words.now) ≡ true }
    // It reads at most one byte past the limit of the text.
    ensures taken { ConsumesAtMost (most_read (map string_bytes words.now)) (I.left input.old) (I.left input.new) }
{
    if Asked::from_words(words).is_some() {
        return run_seed(alloc, words, out, err);
    }
    if asks_for_run(words) {
        return replay_schedule(alloc, input, out, err);
    }
    if asks_for_check(words) {
        return check_report(alloc, input, out, err);
    }
    report_end(err, RunEnd::Usage)
}
