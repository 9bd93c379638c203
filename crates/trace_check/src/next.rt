//! The line after an event's packets: the next event's, or the first of those that close the report.

ghost use Rattle.std.specs.Prelude.{◌≡◌, ℕ, ◌<◌, ◌≤◌, ◌+◌, ◌^◌, ◌&&◌, nat_le, List, codes, drop, length, IfErr, IfOk, IfSome, MatchOption};
ghost use Rattle.ft_model.specs.Legal.{machines};
ghost use Rattle.ft_model.specs.World.{Moment};
ghost use Rattle.ft_model.specs.declared.line.Draft.TheVariants.{Begun};
ghost use Rattle.ft_model.specs.declared.schedule.Schedule.{Schedule};
ghost use Rattle.report_laws.specs.Canonical.{schedule_bytes};
ghost use Rattle.report_laws.specs.Transitions.{begins_with, closing_of};
ghost use Rattle.report_laws.specs.Transitions.Position.{InClosing};
ghost use Rattle.trace_check.specs.After.{IsAfter, ReadsEvent};
ghost use Rattle.trace_check.specs.Leads.{IsRejection, Leads};

use crate::end::CheckEnd;
use crate::lines::{between, line_end};
use ft_model::Event;
use line_check::read_event_line;
use report_laws::Law;
use server_trait::Service;

/// An event whose line is read.
#[derive(Clone, Copy)]
pub struct EventRead {
    pub event: Event,
    /// Where its line ends in the text.
    pub end: usize,
    /// The size in bytes of the schedule's own text with the event.
    pub size: usize,
}

/// Returns whether a line begins as a packet's, although at least one event has been read.
fn is_late_packet(line: &[u8], events: u32) -> bool
    ensures { result ≡ (begins_with (codes "packet ") line.now && nat_le 1 events) }
{
    line.starts_with(b"packet ") && 1 <= events
}

fn begins_event(line: &[u8]) -> bool
    ensures { result ≡ begins_with (codes "event ") line.now }
{
    line.starts_with(b"event ")
}

/// Reads the line after the first `at` bytes of a text, where a legal trace of `events` events ends, and the schedule's own text has `size` bytes so far.
/// Returns `None` if closing lines are due there. It doesn't test whether the event may happen.
#[tactic(auto, using(crate::proofs::Cited::read_event_lemmas))]
pub fn read_event<S: Service>(
    text: &[u8],
    at: usize,
    lines: u32,
    size: usize,
    events: u32,
) -> Result<Option<EventRead>, CheckEnd>
    requires within { (at ≤ length text.now) × (length text.now < 2 ^ 32) × (lines ≤ at) }
    requires limits { (size ≤ 8388609) × (events ≤ 100000) }
    ensures within { IfOk result (λ next. IfSome next (λ e. (at < e.end) × (e.end ≤ length text.now) × (e.size ≤ 8388609))) }
    ensures read { IfOk result (λ next. (schedule : Schedule) (trace : List Moment) → length trace ≡ events → length (schedule_bytes (Begun schedule)) ≡ size
        → IsAfter (machines S.started S.after S.greeting) text.now schedule trace (drop at text.now) lines
        → MatchOption next (Leads (machines S.started S.after S.greeting) text.now (InClosing (closing_of schedule trace)) (drop at text.now) lines)
        (λ e. ReadsEvent (machines S.started S.after S.greeting) text.now schedule trace e.event at e.end lines e.size)) }
    ensures rejected { IfErr result (λ why. (schedule : Schedule) (trace : List Moment) → length trace ≡ events
        → length (schedule_bytes (Begun schedule)) ≡ size
        → IsAfter (machines S.started S.after S.greeting) text.now schedule trace (drop at text.now) lines
        → IsRejection (machines S.started S.after S.greeting) text.now why) }
{
    if at == text.len() {
        return Ok(None);
    }
    let end = line_end(text, at);
    let line = between(text, at, end);
    if is_late_packet(line, events) {
        return Err(CheckEnd::Reject {
            line: lines + 1,
            law: Law::Packet,
        });
    }
    if !begins_event(line) {
        return Ok(None);
    }
    match read_event_line(size, events + 1, line) {
        Some((event, size)) => Ok(Some(EventRead { event, end, size })),
        None => Err(CheckEnd::Reject {
            line: lines + 1,
            law: Law::Text,
        }),
    }
}
