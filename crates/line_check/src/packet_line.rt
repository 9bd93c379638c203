//! The lines of packets.

ghost use Rattle.std.specs.Prelude.{◌≡◌, ◌-◌, ◌^◌, ◌↔◌, ◌&&◌, nat_le, true, IsTrue};
ghost use Rattle.ft_model.specs.Network.{Packet};
ghost use Rattle.ft_model.specs.Readable.{FitsSchedule};
ghost use Rattle.ft_model.specs.World.{are_apart};
ghost use Rattle.report_laws.specs.Transitions.{clients_in, IsPacketLine};
ghost use Rattle.line_check.specs.Left.{words_left};
ghost use Rattle.line_check.specs.Words as spelled;

use crate::direction::Direction;
use crate::message::is_message;
use crate::segment::is_segment;
use crate::values::{is_numbered, number_word};
use crate::words::{Words, before_feed, is_text, next_word, words_of};
use schedule_text::Schedule;
use seq_arith::Grammar;

/// The largest number of packets in a report.
pub const PACKET_LIMIT: u32 = 200_000;

/// The length of `>S`, in bytes.
const TO_SERVER_BYTES: usize = 2;

/// Returns the direction that a word names.
#[tactic(auto, unfolding(crate::specs::Words::direction_of))]
fn direction_of(word: &[u8]) -> Option<Direction>
    ensures { result ≡ spelled.direction_of word.now }
{
    if is_text(word, "S>L") || is_text(word, "L>S") {
        return Some(Direction::WithLogger);
    }
    if word.starts_with(b"S>") {
        return Some(Direction::ToClient(number_word(u64::MAX, &word[2..])?));
    }
    let (front, end) = word.split_at(word.len().saturating_sub(TO_SERVER_BYTES));
    if !is_text(end, ">S") {
        return None;
    }
    Some(Direction::FromClient(number_word(u64::MAX, front)?))
}

/// Returns whether there is a client with this number.
fn is_client(clients: usize, n: u64) -> bool
    ensures { result ≡ spelled.is_client clients n }
{
    1 <= n && n <= clients as u64
}

/// Returns whether these are the words of a packet in this direction, where messages have this grammar.
fn content_fits(
    grammar: Grammar,
    clients: usize,
    direction: Option<Direction>,
    words: Words<'_>,
) -> bool
    ensures { result ≡ spelled.content_fits grammar clients direction (words_left words.entry.rest) }
{
    match direction {
        Some(Direction::FromClient(n)) => is_client(clients, n) && is_segment(words),
        Some(Direction::ToClient(n)) => is_client(clients, n) && is_segment(words),
        Some(Direction::WithLogger) => is_message(grammar, words),
        None => false,
    }
}

/// Returns whether these are the words of a packet's line.
#[tactic(auto, unfolding(crate::specs::Words::packet_words_fit))]
fn packet_words_fit(grammar: Grammar, clients: usize, n: u32, words: Words<'_>) -> bool
    ensures { result ≡ spelled.packet_words_fit grammar clients n (words_left words.entry.rest) }
{
    let mut words = words;
    let Some(packet) = next_word(&mut words) else {
        return false;
    };
    let Some(number) = next_word(&mut words) else {
        return false;
    };
    let Some(direction) = next_word(&mut words) else {
        return false;
    };
    if !is_text(packet, "packet") {
        return false;
    }
    is_numbered(n, number) && content_fits(grammar, clients, direction_of(direction), words)
}

/// Returns whether a text passes the tests of a packet's line.
#[tactic(auto, unfolding(crate::specs::Words::is_packet_text))]
fn is_packet_text(grammar: Grammar, clients: usize, n: u32, line: &[u8]) -> bool
    ensures { result ≡ spelled.is_packet_text grammar clients n line.now }
{
    match before_feed(line) {
        Some(front) => packet_words_fit(grammar, clients, n, words_of(front)),
        None => false,
    }
}

/// Returns whether a text passes these tests, and the packet's number is within the limit.
pub(crate) fn passes(grammar: Grammar, clients: usize, n: u32, line: &[u8]) -> bool
    ensures { result ≡ (nat_le n 200000 && spelled.is_packet_text grammar clients n line.now) }
{
    n <= PACKET_LIMIT && is_packet_text(grammar, clients, n, line)
}

/// Returns whether a line, with its line feed, is that of packet `n`, in the one spelling of a report. The packet is a segment between the server and a
/// client of the schedule, or a message between the server and the logger in the grammar of the schedule's profile.
#[tactic(auto, using(crate::proofs::PacketLines::line_iff))]
pub fn is_packet_line(schedule: &Schedule, n: u32, line: &[u8]) -> bool
    requires fits { FitsSchedule schedule.now }
    requires apart { are_apart schedule.now.server (clients_in schedule.now) ≡ true }
    ensures { IsTrue result ↔ ((packet : Packet) × IsPacketLine schedule.now n packet line.now) }
{
    let grammar = schedule.profile.grammar();
    passes(grammar, schedule.clients.as_slice().len(), n, line)
}
