//! Wrong results that the contracts of this crate exclude. Each function calls another one of the crate, and promises of its result what a wrong body would
//! make false. It is proved from the other's contract alone, so it is no longer proved once that contract lets the wrong body pass.

ghost use Rattle.std.specs.Prelude.{◌≡◌, ◌<◌, ℕ, Err, codes, length, IfOk, OnOk};
ghost use Rattle.ft_io.specs.Faults.{Rose};
ghost use Rattle.ft_model.specs.declared.schedule.LineWhy.{LineWhy};
ghost use Rattle.net_schedule.specs.WorldView.{kept};
ghost use Rattle.replay_run.specs.TraceEnd.{IsStanding};
ghost use Rattle.replay_check.specs.declared.status.RunEnd.TheVariants.{BadLine, WriteFault};

use crate::lines::write_played;
use crate::report::{Report, flush_piece};
use crate::run::run;
use ft_io::{Failed, NoMemory, Sink, Source};
use ft_model::Event;
use net_schedule::{StepOut, World};
use replay_check::RunEnd;
use sample_servers::AnyService;
use std::alloc::Global;

/// A run ends with `WriteFault` only where a call on the sink failed: the clause `stops` of `run`, and the clause `faults` of `play`, on which it stands.
fn always_faults<I: Source, O: Sink>(
    alloc: Global,
    input: &mut I,
    out: &mut O,
) -> Result<(), RunEnd>
    ensures { result ≡ Err WriteFault → Rose (O.fault_count out.old) (O.fault_count out.new) }
{
    run(alloc, input, out)
}

/// After each event less than 65,536 bytes of the report are held back: the clause `held_back` of `flush_piece`.
fn holds_the_report_back_to_its_end<O: Sink>(report: &mut Report, out: &mut O) -> Result<(), Failed>
    ensures { OnOk result (length report.new.held.items < 65536) }
{
    flush_piece(report, out)
}

/// The lines of a crash that is the first event begin with its own: the contract of `write_played`.
#[tactic(auto, unfolding(ft_model::proofs::ReportOnLiterals::report_on_literals))]
fn reports_a_crash_as_a_tick(alloc: Global, world: &World<AnyService>) -> Result<Vec<u8>, NoMemory>
    requires { IsStanding (kept world.now) }
    ensures { IfOk result (λ lines. lines.items ≡ codes "event 1 crash\n") }
{
    let mut lines = Vec::new(alloc);
    let nothing_sent = StepOut { first: 1, count: 0 };
    write_played(alloc, 1, &Event::Crash, world, nothing_sent, &mut lines)?;
    Ok(lines)
}

/// Where a line of the schedule is refused, `out` is left as it was: the clause `stops` of `run`.
fn writes_before_the_text_is_judged<I: Source, O: Sink>(
    alloc: Global,
    input: &mut I,
    out: &mut O,
) -> Result<(), RunEnd>
    ensures { (line : ℕ) (why : LineWhy) → result ≡ Err (BadLine line why) → out.new ≡ out.old }
{
    run(alloc, input, out)
}
