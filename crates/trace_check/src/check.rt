//! The check of a text, from its first line to its end.

ghost use Rattle.std.specs.Prelude.{◌≡◌, ◌+◌, ◌≤◌, ◌^◌, List, [], drop, length, IfErr, IfOk};
ghost use Rattle.ft_model.specs.Legal.{machines};
ghost use Rattle.ft_model.specs.Report.{packet_count};
ghost use Rattle.ft_model.specs.World.{Moment};
ghost use Rattle.ft_model.specs.declared.line.Draft.TheVariants.{Begun};
ghost use Rattle.report_laws.specs.Canonical.{schedule_bytes};
ghost use Rattle.report_laws.specs.Transitions.{IsReport, closing_of};
ghost use Rattle.report_laws.specs.Transitions.Position.{InClosing};
ghost use Rattle.trace_check.specs.After.{IsAfter};
ghost use Rattle.trace_check.specs.Leads.{IsReadTo, IsRejection, Leads};
ghost use Rattle.trace_check.specs.Turn.{IsChecked};
ghost use Rattle.trace_check.specs.Walk.{IsPlaceIn, IsWalked, Reports};

use crate::closing::{check_closing, write_closing};
use crate::end::CheckEnd;
use crate::header::{Header, read_header};
use crate::walk::{Place, walk};
use ft_io::NoMemory;
use ft_model::Schedule;
use plain_world::PlainWorld;
use server_trait::Service;
use std::alloc::Global;

/// The counts that a check returns for the report of a legal trace.
#[derive(Clone, Copy)]
pub struct Yes {
    /// The trace's events.
    pub events: u32,
    /// The packets sent in it.
    pub packets: u32,
}

/// The length of a report's first line, in bytes.
const NAME_BYTES: usize = 11;

/// Checks the closing lines of a report whose turns end at this place.
fn close<S: Service>(
    alloc: Global,
    schedule: &Schedule,
    text: &[u8],
    place: Place,
    world: &PlainWorld<S>,
) -> Result<Yes, CheckEnd>
    requires schedule { IsChecked schedule.now }
    requires within { IsPlaceIn text.now place × (length text.now ≤ 2 ^ 28) }
    requires walked { (trace : List Moment) × IsWalked (machines S.started S.after S.greeting) text.now schedule.now trace place world.now
        × Leads (machines S.started S.after S.greeting) text.now (InClosing (closing_of schedule.now trace)) (drop place.at text.now) place.lines }
    ensures legal { IfOk result (Reports (machines S.started S.after S.greeting) text.now) }
    ensures rejected { IfErr result (IsRejection (machines S.started S.after S.greeting) text.now) }
{
    let mut due = Vec::new(alloc);
    match write_closing(alloc, world, &mut due) {
        Ok(()) => {
            check_closing::<S>(text, place.at, place.lines, &due)?;
            Ok(Yes {
                events: world.turns(),
                packets: world.packets().len() as u32,
            })
        }
        Err(NoMemory) => Err(CheckEnd::NoMemory),
    }
}

/// Checks the turns of a report and its closing lines.
fn check_turns<S: Service>(
    alloc: Global,
    schedule: &Schedule,
    text: &[u8],
    start: Place,
    world: &mut PlainWorld<S>,
) -> Result<Yes, CheckEnd>
    requires schedule { IsChecked schedule.now }
    requires within { IsPlaceIn text.now start × (length text.now ≤ 2 ^ 28) × (world.old.turns ≤ 100000) }
    requires walked { (trace : List Moment) × IsWalked (machines S.started S.after S.greeting) text.now schedule.now trace start world.old }
    ensures legal { IfOk result (Reports (machines S.started S.after S.greeting) text.now) }
    ensures rejected { IfErr result (IsRejection (machines S.started S.after S.greeting) text.now) }
{
    let end = walk(alloc, schedule, text, start, world)?;
    close(alloc, schedule, text, end, world)
}

/// Checks what follows a report's header.
fn check_after<S: Service>(alloc: Global, header: &Header, text: &[u8]) -> Result<Yes, CheckEnd>
    requires short { length text.now ≤ 2 ^ 28 }
    requires read { IsReadTo (machines S.started S.after S.greeting) text.now (Begun header.now.schedule) header.now.bytes header.now.lines }
    requires after { IsAfter (machines S.started S.after S.greeting) text.now header.now.schedule [] (drop header.now.bytes text.now) header.now.lines }
    requires size { length (schedule_bytes (Begun header.now.schedule)) + 11 ≡ header.now.bytes }
    ensures legal { IfOk result (Reports (machines S.started S.after S.greeting) text.now) }
    ensures rejected { IfErr result (IsRejection (machines S.started S.after S.greeting) text.now) }
{
    let Ok(mut world) = PlainWorld::<S>::new(alloc, &header.schedule) else {
        return Err(CheckEnd::NoMemory);
    };
    let start = Place {
        at: header.bytes,
        lines: header.lines,
        size: header.bytes - NAME_BYTES,
    };
    check_turns(alloc, &header.schedule, text, start, &mut world)
}

/// Checks a text. Returns the counts if it is the report of a legal trace. Otherwise returns the rejected line and the law that it breaks, or `NoMemory`.
pub fn check_trace<S: Service>(alloc: Global, text: &[u8]) -> Result<Yes, CheckEnd>
    requires { length text.now ≤ 268435456 }
    ensures legal { IfOk result (λ yes. (r : IsReport (machines S.started S.after S.greeting) text.now) × (yes.events ≡ length r.trace)
        × (yes.packets ≡ packet_count r.trace)) }
    ensures rejected { IfErr result (IsRejection (machines S.started S.after S.greeting) text.now) }
{
    let header = read_header::<S>(alloc, text)?;
    check_after::<S>(alloc, &header, text)
}
