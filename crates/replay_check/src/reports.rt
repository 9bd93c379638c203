//! The `check` command, from reading the report to the exit status.

ghost use Rattle.std.specs.Prelude.{◌≡◌};
ghost use Rattle.ft_io.specs.Source.{ConsumesAtMost};
ghost use Rattle.replay_check.specs.Checks.{FindsLegal, HasChecked};
ghost use Rattle.replay_check.specs.Stream.{stream};

use crate::check::check;
use crate::reporting::report_end;
use crate::status::Status;
use ft_io::{Sink, Source};
use report_laws::no_report_has_a_rejected_prefix;
use sample_servers::AnyService;
use std::alloc::Global;

/// Reads a report to its end and checks it. Writes to `out` that it is legal, or to `err` at which line it is rejected or why the check ended early.
pub fn check_report<I: Source, O: Sink, E: Sink>(
    alloc: Global,
    input: &mut I,
    out: &mut O,
    err: &mut E,
) -> Status
    ensures checked { HasChecked (stream I.left I.fault_count input.old input.new) (stream O.taken O.fault_count out.old out.new)
        (stream E.taken E.fault_count err.old err.new) result.code }
    ensures legal { result.code ≡ 0
        → FindsLegal (stream I.left I.fault_count input.old input.new) (stream O.taken O.fault_count out.old out.new) }
    ensures taken { ConsumesAtMost 268435457 (I.left input.old) (I.left input.new) }
{
    // A theorem for the proof. It does nothing when it is called.
    no_report_has_a_rejected_prefix::<AnyService>();
    match check(alloc, input, out) {
        Ok(()) => Status { code: 0 },
        Err(end) => report_end(err, end),
    }
}
