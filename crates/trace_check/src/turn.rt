//! The packet lines of an event.

ghost use Rattle.std.specs.Prelude.{◌≡◌, ℕ, ◌<◌, ◌≤◌, ◌+◌, false, true, List, [], drop, length, IfOk, IfSome, MatchOption};
ghost use Rattle.ft_model.specs.Legal.{machines};
ghost use Rattle.ft_model.specs.Network.{Packet};
ghost use Rattle.ft_model.specs.Report.{packet_count};
ghost use Rattle.ft_model.specs.World.{Moment};
ghost use Rattle.ft_model.specs.declared.event.Event.{Event};
ghost use Rattle.report_laws.specs.Lines.{lines_in};
ghost use Rattle.report_laws.specs.Transitions.Position.{InTurn};
ghost use Rattle.trace_check.specs.Leads.{Leads};
ghost use Rattle.trace_check.specs.Turn.{AreSent, EndsTurn, IsChecked, IsReported, ReportsPackets, ReportsTurn, with_events};

use crate::lines::{between, line_end};
use crate::sent::write_wires;
use crate::walk::Played;
use ft_io::NoMemory;
use line_check::is_packet_line;
use plain_packets::PlainPackets;
use schedule_text::Schedule;
use server_trait::Service;
use std::alloc::Global;

/// The largest number of packets in a trace.
const PACKET_LIMIT: usize = 200_000;

/// The packet lines of an event.
#[derive(Clone, Copy)]
pub struct PacketLines {
    /// Where they end in the text.
    pub end: usize,
    /// How many there are.
    pub count: u32,
}

/// Reads the packet lines after the first `at` bytes of a text; those of `reported` packets come before. The line after them is not that of the next packet.
#[tactic(auto, using(crate::proofs::Cited::read_packet_lines_lemmas))]
pub fn read_packet_lines<S: Service>(
    schedule: &Schedule,
    text: &[u8],
    at: usize,
    reported: u32,
) -> PacketLines
    requires within { (at ≤ length text.now) × (reported ≤ 200000) }
    requires schedule { IsChecked schedule.now }
    ensures within { (at ≤ result.end) × (result.end ≤ length text.now) × (reported + result.count ≤ 200000) }
    ensures packets { (events : List Event) (trace : List Moment) (event : Event) (lines : ℕ) → packet_count trace ≡ reported
        → Leads (machines S.started S.after S.greeting) text.now (InTurn (with_events schedule.now events) trace event []) (drop at text.now) lines
        → ReportsPackets (machines S.started S.after S.greeting) text.now (with_events schedule.now events) trace event at result.end
        (lines + result.count) result.count }
    ensures complete { EndsTurn schedule.now (reported + result.count + 1) (lines_in (drop result.end text.now)) }
{
    let mut end = at;
    let mut count = 0;
    while end < text.len() {
        let next = line_end(text, end);
        if !is_packet_line(schedule, reported + count + 1, between(text, end, next)) {
            return PacketLines { end, count };
        }
        end = next;
        count += 1;
    }
    PacketLines { end, count }
}

/// Returns whether the line of packet `n` follows the first `at` bytes of a text.
#[tactic(auto, using(crate::proofs::Cited::another_follows_lemmas))]
fn another_follows(schedule: &Schedule, text: &[u8], at: usize, n: u32) -> bool
    requires within { at ≤ length text.now }
    requires schedule { IsChecked schedule.now }
    ensures no { result ≡ false → EndsTurn schedule.now n (lines_in (drop at text.now)) }
    ensures yes { result ≡ true → EndsTurn schedule.now n (lines_in (drop at text.now)) → ⊥ }
{
    if !text[at..].starts_with(b"packet ") {
        return false;
    }
    let end = line_end(text, at);
    is_packet_line(schedule, n, between(text, at, end))
}

/// Returns where `due` ends, if it follows the first `from` bytes of a text, and is not followed by the line of packet `n`.
#[tactic(auto, using(crate::proofs::Cited::reported_end_lemmas))]
pub(crate) fn reported_end(
    schedule: &Schedule,
    text: &[u8],
    from: usize,
    due: &[u8],
    n: u32,
) -> Option<usize>
    requires within { from ≤ length text.now }
    requires schedule { IsChecked schedule.now }
    ensures { MatchOption result ((end : ℕ) → IsReported text.now schedule.now from end n due.now
        → ⊥) (λ end. IsReported text.now schedule.now from end n due.now) }
{
    if !text[from..].starts_with(due) {
        return None;
    }
    let end = from + due.len();
    if another_follows(schedule, text, end, n) {
        None
    } else {
        Some(end)
    }
}

/// Reads the packet lines of an event, if they are the lines of all packets that were sent at it. `due` is overwritten.
pub(crate) fn read_sent(
    alloc: Global,
    schedule: &Schedule,
    text: &[u8],
    played: Played,
    packets: &PlainPackets,
    due: &mut Vec<u8>,
) -> Result<Option<PacketLines>, NoMemory>
    requires within { (played.place.at ≤ length text.now) × (played.before ≤ length packets.now) }
    requires schedule { IsChecked schedule.now }
    requires sent { (sent : List Packet) × AreSent packets.now played.before sent }
    ensures within { IfOk result (λ read. IfSome read (λ p. (played.place.at + p.count ≤ p.end) × (p.end ≤ length text.now)
        × (played.before + p.count ≡ length packets.now) × (played.before + p.count ≤ 200000))) }
    ensures reported { IfOk result (λ read. (sent : List Packet) → AreSent packets.now played.before sent
        → MatchOption read ((end : ℕ) → ReportsTurn text.now schedule.now played.place.at end (played.before + 1) sent → ⊥)
        (λ p. ReportsTurn text.now schedule.now played.place.at p.end (played.before + 1) sent)) }
{
    let before = played.before;
    let all = packets.as_slice();
    if PACKET_LIMIT < all.len() {
        return Ok(None);
    }
    due.clear();
    write_wires(alloc, schedule, before as u32 + 1, &all[before..], due)?;
    match reported_end(schedule, text, played.place.at, due, all.len() as u32 + 1) {
        Some(end) => Ok(Some(PacketLines {
            end,
            count: (all.len() - before) as u32,
        })),
        None => Ok(None),
    }
}
