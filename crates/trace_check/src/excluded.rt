//! Wrong results that the contracts of this crate exclude. Each function calls another one of the crate, and promises of its result what a wrong body would
//! make false. It is proved from the other's contract alone, so it is no longer proved once that contract lets the wrong body pass.

ghost use Rattle.std.specs.Prelude.{◌≡◌, ℕ, ◌+◌, ◌≤◌, false, true, List, [], drop, take, is_some, length, IfSome};
ghost use Rattle.ft_model.specs.Legal.{machines, refusal, start_of};
ghost use Rattle.ft_model.specs.Network.{Packet};
ghost use Rattle.ft_model.specs.Report.{packet_count, packet_lines};
ghost use Rattle.ft_model.specs.World.{Moment, world_after};
ghost use Rattle.ft_model.specs.declared.event.Event.{Event as Asked};
ghost use Rattle.ft_model.specs.declared.schedule.Schedule.{Schedule as Written};
ghost use Rattle.plain_world.specs.WorldState.{IsAt};
ghost use Rattle.report_laws.specs.Lines.{lines_in};
ghost use Rattle.report_laws.specs.Transitions.{clients_in};
ghost use Rattle.report_laws.specs.Transitions.Position.{InTurn};
ghost use Rattle.trace_check.specs.Leads.{Leads};
ghost use Rattle.trace_check.specs.Turn.{EndsTurn, IsChecked, with_events};

use crate::closing::is_same;
use crate::turn::{PacketLines, read_packet_lines, reported_end};
use crate::walk::is_refused;
use ft_model::{Event, Schedule};
use plain_world::PlainWorld;
use server_trait::Service;

/// A long line isn't taken for another one that is due: the contract of `is_same`.
fn a_closing_line_is_not_compared() -> bool
    ensures { result ≡ false }
{
    is_same(&[b' '; 100], b"end 0\n")
}

/// Where a turn's packet lines end, no line of the next packet follows, whatever its number: the contract of `reported_end`.
fn a_further_packet_line_passes(
    schedule: &Schedule,
    text: &[u8],
    from: usize,
    due: &[u8],
) -> Option<usize>
    requires within { from ≤ length text.now }
    requires schedule { IsChecked schedule.now }
    ensures { IfSome result (λ end. EndsTurn schedule.now 1000 (lines_in (drop end text.now))) }
{
    reported_end(schedule, text, from, due, 1000)
}

/// The packet lines of a turn are numbered on from those before it: the clause `packets` of `read_packet_lines`.
fn a_packet_is_reported_twice<S: Service>(
    schedule: &Schedule,
    text: &[u8],
    at: usize,
    reported: u32,
) -> PacketLines
    requires within { (at ≤ length text.now) × (reported ≤ 200000) }
    requires schedule { IsChecked schedule.now }
    ensures { (events : List Asked) (trace : List Moment) (event : Asked) (lines : ℕ) → packet_count trace ≡ reported
        → Leads (machines S.started S.after S.greeting) text.now (InTurn (with_events schedule.now events) trace event []) (drop at text.now) lines
        → (sent : List Packet) × (drop at (take result.end text.now) ≡ packet_lines (clients_in schedule.now) (packet_count trace + 1) sent) }
{
    read_packet_lines::<S>(schedule, text, at, reported)
}

/// An event that may not happen then is refused, however few came before it: the contract of `is_refused`.
fn a_refused_event_passes<S: Service>(world: &PlainWorld<S>, event: &Event) -> bool
    ensures { (schedule : Written) (trace : List Moment) → IsAt (machines S.started S.after S.greeting) schedule trace world.now
        → is_some (refusal (world_after (start_of schedule) trace) event.now) ≡ true → result ≡ true }
{
    is_refused(world, event)
}
