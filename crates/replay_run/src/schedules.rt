//! The `run` command, from reading the schedule to the exit status.

ghost use Rattle.std.specs.Prelude.{◌≡◌};
ghost use Rattle.ft_io.specs.Source.{ConsumesAtMost};
ghost use Rattle.replay_run.specs.Runs.{Reports, HasRun};
ghost use Rattle.replay_run.specs.PlayedRun.{ReportsAll};
ghost use Rattle.replay_check.specs.Stream.{stream};

use crate::laws::schedules_end_in_one_way;
use crate::run::run;
use ft_io::{Sink, Source};
use replay_check::{Status, report_end};
use std::alloc::Global;

/// Reads a schedule to its end, plays it and writes its report to `out`. If the run ended early, it then writes the reason to `err`.
pub fn replay_schedule<I: Source, O: Sink, E: Sink>(
    alloc: Global,
    input: &mut I,
    out: &mut O,
    err: &mut E,
) -> Status
    ensures run { HasRun (stream I.left I.fault_count input.old input.new) (stream O.taken O.fault_count out.old out.new)
        (stream E.taken E.fault_count err.old err.new) result.code }
    ensures done { result.code ≡ 0
        → Reports (stream I.left I.fault_count input.old input.new) (stream O.taken O.fault_count out.old out.new) ReportsAll }
    ensures taken { ConsumesAtMost 8388609 (I.left input.old) (I.left input.new) }
{
    // A theorem for the proof. It does nothing when it is called.
    schedules_end_in_one_way();
    match run(alloc, input, out) {
        Ok(()) => Status { code: 0 },
        Err(end) => report_end(err, end),
    }
}
