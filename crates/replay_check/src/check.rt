//! The check of a report: reads its text, and writes one line if the report is legal.

ghost use Rattle.std.specs.Prelude.{◌++◌, ◌∷◌, [], codes, OnOk, OnErr, IfErr};
ghost use Rattle.std.specs.Io.KnownBytes.{Appends};
ghost use Rattle.ft_io.specs.Source.{ConsumesAtMost};
ghost use Rattle.replay_check.specs.Checks.{counted, legal_line, FindsLegal, CheckStops};
ghost use Rattle.replay_check.specs.PartialWrite.{WroteFront, CountsFailed};
ghost use Rattle.replay_check.specs.Stream.{stream};

use crate::reporting::{write_both, write_text};
use crate::safe::joint_traces_are_safe;
use crate::status::RunEnd;
use ft_io::{Failed, Sink, Source, read_to_limit};
use itoa::Buffer;
use sample_servers::AnyService;
use std::alloc::Global;
use trace_check::{Yes, check_trace};

/// The largest size of a report, in bytes.
const REPORT_LIMIT: usize = 268_435_456;

/// Writes a name followed by its number.
#[tactic(auto, unfolding(crate::specs::Checks::counted))]
fn write_counted<O: Sink>(out: &mut O, name: &str, n: u32) -> Result<(), Failed>
    ensures whole { OnOk result (Appends (O.taken out.old) (O.taken out.new) (counted name.now n)) }
    ensures front { OnErr result (WroteFront (O.taken out.old) (O.taken out.new) (counted name.now n)) }
    ensures fault { CountsFailed (O.fault_count out.old) (O.fault_count out.new) result }
{
    let mut number = Buffer::new();
    write_both(out, name, number.format(n))
}

/// Writes the number of packets and the end of the line.
#[tactic(auto, using(crate::proofs::Fronts::then_whole, crate::proofs::Fronts::then_front, crate::proofs::Fronts::front_then))]
fn write_packets<O: Sink>(out: &mut O, packets: u32) -> Result<(), Failed>
    ensures whole { OnOk result (Appends (O.taken out.old) (O.taken out.new) (counted (codes " packets ") packets ++ 10 ∷ [])) }
    ensures front { OnErr result (WroteFront (O.taken out.old) (O.taken out.new) (counted (codes " packets ") packets ++ 10 ∷ [])) }
    ensures fault { CountsFailed (O.fault_count out.old) (O.fault_count out.new) result }
{
    write_counted(out, " packets ", packets)?;
    write_text(out, "\n")?;
    Ok(())
}

/// Writes the line for a legal report.
#[tactic(auto, using(crate::proofs::Cited::write_legal_lemmas), unfolding(crate::specs::Checks::legal_line))]
fn write_legal<O: Sink>(out: &mut O, yes: Yes) -> Result<(), Failed>
    ensures whole { OnOk result (Appends (O.taken out.old) (O.taken out.new) (legal_line yes.events yes.packets)) }
    ensures front { OnErr result (WroteFront (O.taken out.old) (O.taken out.new) (legal_line yes.events yes.packets)) }
    ensures fault { CountsFailed (O.fault_count out.old) (O.fault_count out.new) result }
{
    write_counted(out, "legal events ", yes.events)?;
    write_packets(out, yes.packets)?;
    Ok(())
}

/// Reads a report to its end, checks it, and writes one line if it is legal.
pub(crate) fn check<I: Source, O: Sink>(
    alloc: Global,
    input: &mut I,
    out: &mut O,
) -> Result<(), RunEnd>
    ensures done { OnOk result (FindsLegal (stream I.left I.fault_count input.old input.new) (stream O.taken O.fault_count out.old out.new)) }
    ensures stops { IfErr result (CheckStops (stream I.left I.fault_count input.old input.new) (stream O.taken O.fault_count out.old out.new)) }
    ensures taken { ConsumesAtMost 268435457 (I.left input.old) (I.left input.new) }
{
    // A theorem for the proof. It does nothing when it is called.
    joint_traces_are_safe();
    let text = read_to_limit(alloc, input, REPORT_LIMIT)?;
    let yes = check_trace::<AnyService>(alloc, &text)?;
    write_legal(out, yes)?;
    Ok(())
}
