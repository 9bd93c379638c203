//! The turns of a report: each event is played in the plain world, and the packet lines after its line must be those of the packets that the world sends.

ghost use Rattle.std.specs.Prelude.{◌≡◌, ℕ, ◌+◌, ◌<◌, ◌≤◌, ◌^◌, List, [], ◌∷◌, ◌++◌, drop, length, IfErr, IfOk};
ghost use Rattle.ft_model.specs.Legal.{IsLegalFor, machines, start_of};
ghost use Rattle.ft_model.specs.Network.{Packet};
ghost use Rattle.ft_model.specs.Report.{packet_count};
ghost use Rattle.ft_model.specs.World.{World, Moment, events_of, world_after};
ghost use Rattle.ft_model.specs.declared.event.Event.{Event as Asked};
ghost use Rattle.ft_model.specs.declared.schedule.Schedule.{Schedule as Written};
ghost use Rattle.plain_world.specs.WorldState.{IsAt};
ghost use Rattle.report_laws.specs.Transitions.{actor as actor_lem, closing_of};
ghost use Rattle.report_laws.specs.Transitions.Position.{InClosing, InTurn};
ghost use Rattle.report_laws.specs.TurnLines.{schedule_through};
ghost use Rattle.trace_check.specs.After.{ReadsEvent, is_refused as refused_lem};
ghost use Rattle.trace_check.specs.Leads.{IsRejection, Leads};
ghost use Rattle.trace_check.specs.Turn.{IsChecked, ReportsTurn, with_events};
ghost use Rattle.trace_check.specs.Walk.{IsPlaceIn, IsPlayed, IsWalked};

use crate::end::CheckEnd;
use crate::next::{EventRead, read_event};
use crate::sent::actor;
use crate::turn::{read_packet_lines, read_sent};
use ft_io::NoMemory;
use ft_model::{Event, Schedule};
use plain_world::PlainWorld;
use report_laws::Law;
use server_trait::Service;
use std::alloc::Global;

/// The largest number of events in a trace.
const EVENT_LIMIT: u32 = 100_000;

/// A place in a report's text.
#[derive(Clone, Copy)]
pub(crate) struct Place {
    /// How many bytes of the text come before it.
    pub at: usize,
    /// How many lines come before it.
    pub lines: u32,
    /// The size in bytes of the schedule's own text up to it.
    pub size: usize,
}

/// The line of an event: where it begins, and what is read of it.
#[derive(Clone, Copy)]
struct EventLine {
    place: Place,
    read: EventRead,
}

/// An event that was just played.
#[derive(Clone, Copy)]
pub(crate) struct Played {
    /// Where the lines of its packets begin.
    pub place: Place,
    /// How many packets were sent before it.
    pub before: usize,
    /// The law that rejects a wrong packet line: that of the party whose turn it was.
    pub law: Law,
}

/// Returns whether an event may not happen then, or is one too many.
pub(crate) fn is_refused<S: Service>(world: &PlainWorld<S>, event: &Event) -> bool
    ensures { (schedule : Written) (trace : List Moment) → IsAt (machines S.started S.after S.greeting) schedule trace world.now
        → result ≡ refused_lem schedule trace event.now }
{
    world.refusal(event).is_some() || EVENT_LIMIT <= world.turns()
}

/// Returns the rejection of a turn whose packet lines, after a place, no legal trace has.
fn reject_turn<S: Service>(
    schedule: &Schedule,
    text: &[u8],
    place: Place,
    reported: u32,
    law: Law,
) -> CheckEnd
    requires schedule { IsChecked schedule.now }
    requires within { IsPlaceIn text.now place × (length text.now ≤ 2 ^ 28) × (reported ≤ 200000) }
    ensures { (trace : List Moment) (event : Asked) → packet_count trace ≡ reported → law ≡ actor_lem (world_after (start_of schedule.now) trace) event
        → Leads (machines S.started S.after S.greeting) text.now (InTurn (with_events schedule.now (events_of trace ++ event ∷ [])) trace event [])
        (drop place.at text.now) place.lines
        → ((sent : List Packet) (w : World) (end : ℕ) → ReportsTurn text.now schedule.now place.at end (reported + 1) sent
        → IsLegalFor (machines S.started S.after S.greeting) (with_events schedule.now (events_of trace ++ event ∷ [])) (events_of trace ++ event ∷ [])
        (record { event = event; sent = sent; world = w } ∷ trace) → ⊥)
        → IsRejection (machines S.started S.after S.greeting) text.now result }
{
    let read = read_packet_lines::<S>(schedule, text, place.at, reported);
    CheckEnd::Reject {
        line: place.lines + read.count + 1,
        law,
    }
}

/// Judges the packet lines of an event: they must be the lines of all packets that were sent at it.
fn judge<S: Service>(
    alloc: Global,
    schedule: &Schedule,
    text: &[u8],
    played: Played,
    world: &PlainWorld<S>,
    due: &mut Vec<u8>,
) -> Result<Place, CheckEnd>
    requires schedule { IsChecked schedule.now }
    requires within { IsPlaceIn text.now played.place × (length text.now ≤ 2 ^ 28) }
    requires known { (played.before ≤ length world.now.packets) × (played.before ≤ 200000) }
    requires played { (trace : List Moment) × (moment : Moment)
        × IsPlayed (machines S.started S.after S.greeting) text.now schedule.now trace moment played.place played.before played.law world.now }
    ensures within { IfOk result (λ after. IsPlaceIn text.now after × (played.place.at ≤ after.at)) }
    ensures walked { IfOk result (λ after. (trace : List Moment)
        × IsWalked (machines S.started S.after S.greeting) text.now schedule.now trace after world.now) }
    ensures rejected { IfErr result (IsRejection (machines S.started S.after S.greeting) text.now) }
{
    let Played { place, before, law } = played;
    match read_sent(alloc, schedule, text, played, world.packets(), due) {
        Ok(Some(read)) => Ok(Place {
            at: read.end,
            lines: place.lines + read.count,
            size: place.size,
        }),
        Ok(None) => Err(reject_turn::<S>(schedule, text, place, before as u32, law)),
        Err(NoMemory) => Err(CheckEnd::NoMemory),
    }
}

/// Plays the event of a line. The text is rejected if the event may not happen then, or if its packet lines aren't those of its turn. After
/// `NoMemory` the world may only be dropped.
fn take_event<S: Service>(
    alloc: Global,
    schedule: &Schedule,
    text: &[u8],
    line: EventLine,
    world: &mut PlainWorld<S>,
    due: &mut Vec<u8>,
) -> Result<Place, CheckEnd>
    requires schedule { IsChecked schedule.now }
    requires within { IsPlaceIn text.now line.place × (length text.now ≤ 2 ^ 28) × (world.old.turns ≤ 100000) }
    requires read { (line.place.at < line.read.end) × (line.read.end ≤ length text.now) × (line.read.size ≤ 8388609) }
    requires walked { (trace : List Moment) × IsWalked (machines S.started S.after S.greeting) text.now schedule.now trace line.place world.old
        × ReadsEvent (machines S.started S.after S.greeting) text.now
        (schedule_through schedule.now trace) trace line.read.event line.place.at line.read.end line.place.lines line.read.size }
    ensures within { IfOk result (λ after. IsPlaceIn text.now after × (line.place.at < after.at) × (world.new.turns ≤ 100000)) }
    ensures walked { IfOk result (λ after. (trace : List Moment)
        × IsWalked (machines S.started S.after S.greeting) text.now schedule.now trace after world.new) }
    ensures rejected { IfErr result (IsRejection (machines S.started S.after S.greeting) text.now) }
{
    let EventLine { place, read } = line;
    if is_refused(world, &read.event) {
        return Err(CheckEnd::Reject {
            line: place.lines + 1,
            law: Law::Event,
        });
    }
    let law = actor(world.packets(), &read.event);
    let before = world.packets().len();
    let place = Place {
        at: read.end,
        lines: place.lines + 1,
        size: read.size,
    };
    let played = Played { place, before, law };
    match world.step(alloc, &read.event) {
        Ok(()) => judge(alloc, schedule, text, played, world, due),
        Err(NoMemory) => Err(CheckEnd::NoMemory),
    }
}

/// Walks over the turns of a report, from a place on, up to the first line that isn't an event's. After `NoMemory` the world may only be dropped.
pub(crate) fn walk<S: Service>(
    alloc: Global,
    schedule: &Schedule,
    text: &[u8],
    start: Place,
    world: &mut PlainWorld<S>,
) -> Result<Place, CheckEnd>
    requires schedule { IsChecked schedule.now }
    requires within { IsPlaceIn text.now start × (length text.now ≤ 2 ^ 28) × (world.old.turns ≤ 100000) }
    requires walked { (trace : List Moment) × IsWalked (machines S.started S.after S.greeting) text.now schedule.now trace start world.old }
    ensures within { IfOk result (IsPlaceIn text.now) }
    ensures walked { IfOk result (λ after. (trace : List Moment) × IsWalked (machines S.started S.after S.greeting) text.now schedule.now trace after world.new
        × Leads (machines S.started S.after S.greeting) text.now (InClosing (closing_of schedule.now trace)) (drop after.at text.now) after.lines) }
    ensures rejected { IfErr result (IsRejection (machines S.started S.after S.greeting) text.now) }
{
    let mut due = Vec::new(alloc);
    let mut place = start;
    while let Some(read) = read_event::<S>(
        text,
        place.at,
        place.lines,
        place.size,
        world.turns(),
    )? {
        let line = EventLine { place, read };
        place = take_event(alloc, schedule, text, line, world, &mut due)?;
    }
    Ok(place)
}
