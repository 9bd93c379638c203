//! The lines of events.

ghost use Rattle.std.specs.Prelude.{◌≡◌, ◌≤◌, ◌+◌, ◌-◌, length, decimal, IfSome, MatchOption};
ghost use Rattle.ft_model.specs.Grammar.{with_line};
ghost use Rattle.ft_model.specs.declared.event.Event.{Event};
ghost use Rattle.ft_model.specs.declared.line.Draft.TheVariants.{Begun};
ghost use Rattle.ft_model.specs.declared.line.Line.TheVariants as says;
ghost use Rattle.ft_model.specs.declared.schedule.Schedule.{Schedule};
ghost use Rattle.report_laws.specs.Canonical.{schedule_bytes};
ghost use Rattle.report_laws.specs.Transitions.{IsEventLine};
ghost use Rattle.line_check.specs.EventWords as spelled;
ghost use Rattle.line_check.specs.Left.{words_left};

use crate::event_words::event_of_words;
use crate::values::is_numbered;
use crate::words::{Words, before_feed, is_text, next_word, words_of};
use ft_model::Event;
use itoa::Buffer;

/// The largest size in bytes of a schedule's own text, with its last line feed.
const TEXT_LIMIT: usize = 8_388_609;

/// The number of bytes of `event` and of the spaces around the number after it.
const EVENT_BYTES: usize = 7;

/// Returns the event of a line with these words, if its number is `n`.
#[tactic(auto, unfolding(crate::specs::EventWords::event_in_words))]
fn event_in_words(n: u32, words: Words<'_>) -> Option<Event>
    ensures { result ≡ spelled.event_in_words n (words_left words.entry.rest) }
{
    let mut words = words;
    let word = next_word(&mut words)?;
    let number = next_word(&mut words)?;
    if is_text(word, "event") && is_numbered(n, number) {
        event_of_words(words)
    } else {
        None
    }
}

/// Returns the event if a text is the line of an event with number `n`.
#[tactic(auto, unfolding(crate::specs::EventWords::event_in_text))]
fn event_in_text(n: u32, line: &[u8]) -> Option<Event>
    ensures { result ≡ spelled.event_in_text n line.now }
{
    event_in_words(n, words_of(before_feed(line)?))
}

/// Returns how many decimal digits a number has.
fn digit_count(n: u32) -> usize
    ensures value { result ≡ length (decimal n) }
    ensures most { result ≤ 20 }
{
    let mut buffer = Buffer::new();
    buffer.format(n).len()
}

/// Returns the size of a schedule's own text with the event of a line added.
fn size_with(size: usize, n: u32, line: &[u8]) -> usize
    requires { size ≤ 8388609 }
    ensures { result ≡ (size + length line.now) - (7 + length (decimal n)) }
{
    (size + line.len()).saturating_sub(EVENT_BYTES + digit_count(n))
}

/// Returns the event if a text is the line of an event with number `n`, and the size of the schedule's own text with it; `size` is the size before. Returns
/// `None` if the text is the line of no event, or if the schedule's text would exceed its limit.
#[tactic(auto, using(crate::proofs::EventLines::event_line_too_long))]
pub fn read_event_line(size: usize, n: u32, line: &[u8]) -> Option<(Event, usize)>
    requires { size ≤ 8388609 }
    ensures event { (schedule : Schedule) → length (schedule_bytes (Begun schedule)) ≡ size
        → MatchOption result ((event : Event) → IsEventLine schedule n event line.now → ⊥) (λ read. IsEventLine schedule n read.0 line.now) }
    ensures size { (schedule : Schedule) → length (schedule_bytes (Begun schedule)) ≡ size
        → IfSome result (λ read. length (schedule_bytes (with_line (Begun schedule) (says.Event read.0))) ≡ read.1) }
    ensures most { IfSome result (λ read. read.1 ≤ 8388609) }
{
    let Some(event) = event_in_text(n, line) else {
        return None;
    };
    let size = size_with(size, n, line);
    if size <= TEXT_LIMIT {
        Some((event, size))
    } else {
        None
    }
}
