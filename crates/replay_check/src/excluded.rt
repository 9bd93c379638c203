//! Wrong results that the contracts of this crate exclude. Each function calls another one of the crate, and promises of its result what a wrong body would
//! make false. It is proved from the other's contract alone, so it is no longer proved once that contract lets the wrong body pass.

ghost use Rattle.std.specs.Prelude.{◌≡◌, IfSome};
ghost use Rattle.report_laws.specs.Transitions.{IsReport};
ghost use Rattle.sample_servers.specs.AnyService.{any_machine};

use crate::reports::check_report;
use crate::status::Status;
use ft_io::{Sink, Source};
use std::alloc::Global;

/// The status is 0 only where the text is the report of a legal trace: the clause `legal` of `check_report`.
fn finds_every_report_legal<I: Source, O: Sink, E: Sink>(
    alloc: Global,
    input: &mut I,
    out: &mut O,
    err: &mut E,
) -> Status
    ensures { result.code ≡ 0 → IfSome (I.left input.old) (IsReport any_machine) }
{
    check_report(alloc, input, out, err)
}
