//! The words of an event: its verb, and its numbers in their ranges.

ghost use Rattle.std.specs.Prelude.{◌≡◌, ◌≤◌, ◌^◌, ◌-◌, ℕ, List, None, Some, option_map, IfSome, MatchOption};
ghost use Rattle.ft_model.specs.declared.event.Event.TheVariants as events;
ghost use Rattle.line_check.specs.EventWords as spelled;
ghost use Rattle.line_check.specs.Left.{words_left};

use crate::values::number_word;
use crate::words::{Words, is_text, next_word};
use ft_model::{Event, Verb};

/// The largest number of 32 bits.
const LONG_MOST: u64 = 0xFFFF_FFFF;

/// Returns the number that a word spells, if it is from `least` to `most`.
#[tactic(auto, unfolding(crate::specs::EventWords::ranged))]
fn ranged(least: u64, most: u64, word: &[u8]) -> Option<u64>
    ensures value { result ≡ spelled.ranged least most word.now }
    ensures range { IfSome result (λ n. n ≤ most) }
{
    let n = number_word(most, word)?;
    if least <= n { Some(n) } else { None }
}

fn client_in(word: &[u8]) -> Option<u8>
    ensures { result ≡ spelled.client_in word.now }
{
    Some(ranged(1, 16, word)? as u8)
}

fn long_in(word: &[u8]) -> Option<u32>
    ensures { result ≡ spelled.long_in word.now }
{
    Some(ranged(0, LONG_MOST, word)? as u32)
}

fn window_in(word: &[u8]) -> Option<u16>
    ensures { result ≡ spelled.window_in word.now }
{
    Some(ranged(0, 65_535, word)? as u16)
}

fn packet_in(word: &[u8]) -> Option<u32>
    ensures { result ≡ spelled.packet_in word.now }
{
    Some(ranged(1, LONG_MOST, word)? as u32)
}

/// Returns the word, if there is exactly one.
fn one_of<'a>(words: Words<'a>) -> Option<&'a [u8]>
    ensures { MatchOption result (spelled.one_of (words_left words.entry.rest) ≡ None) (λ word. spelled.one_of (words_left words.entry.rest) ≡ Some word.now) }
{
    let mut words = words;
    let word = next_word(&mut words)?;
    if next_word(&mut words).is_some() {
        return None;
    }
    Some(word)
}

/// Returns the words, if there are exactly two.
fn two_of<'a>(words: Words<'a>) -> Option<(&'a [u8], &'a [u8])>
    ensures { MatchOption result (spelled.two_of (words_left words.entry.rest) ≡ None) (λ pair. spelled.two_of (words_left words.entry.rest)
        ≡ Some (pair.0.now, pair.1.now)) }
{
    let mut words = words;
    let first = next_word(&mut words)?;
    let second = next_word(&mut words)?;
    if next_word(&mut words).is_some() {
        return None;
    }
    Some((first, second))
}

/// Returns the words, if there are exactly three.
fn three_of<'a>(words: Words<'a>) -> Option<(&'a [u8], &'a [u8], &'a [u8])>
    ensures { MatchOption result (spelled.three_of (words_left words.entry.rest) ≡ None)
        (λ three. spelled.three_of (words_left words.entry.rest) ≡ Some (three.0.now, three.1.now, three.2.now)) }
{
    let mut words = words;
    let first = next_word(&mut words)?;
    let (second, third) = two_of(words)?;
    Some((first, second, third))
}

/// Returns an event without numbers, if there are no more words.
fn bare(event: Event, words: Words<'_>) -> Option<Event>
    ensures { result ≡ spelled.bare event (words_left words.entry.rest) }
{
    let mut words = words;
    match next_word(&mut words) {
        Some(_) => None,
        None => Some(event),
    }
}

fn boot_of(words: Words<'_>) -> Option<Event>
    ensures { result ≡ spelled.boot_words (spelled.two_of (words_left words.entry.rest)) }
{
    let (boot, isn) = two_of(words)?;
    let boot = ranged(1, u64::MAX, boot)?;
    let isn = long_in(isn)?;
    Some(Event::Boot { boot, isn })
}

fn deliver_of(words: Words<'_>) -> Option<Event>
    ensures { result ≡ spelled.deliver_words (spelled.one_of (words_left words.entry.rest)) }
{
    let packet = packet_in(one_of(words)?)?;
    Some(Event::Deliver { packet })
}

fn flip_of(words: Words<'_>) -> Option<Event>
    ensures { result ≡ spelled.flip_words (spelled.two_of (words_left words.entry.rest)) }
{
    let (packet, bit) = two_of(words)?;
    let packet = packet_in(packet)?;
    let bit = long_in(bit)?;
    Some(Event::Flip { packet, bit })
}

fn begin_of(words: Words<'_>) -> Option<Event>
    ensures { result ≡ spelled.window_words events.Begin (spelled.two_of (words_left words.entry.rest)) }
{
    let (client, window) = two_of(words)?;
    let client = client_in(client)?;
    let window = window_in(window)?;
    Some(Event::Begin { client, window })
}

fn ack_of(words: Words<'_>) -> Option<Event>
    ensures { result ≡ spelled.window_words events.Ack (spelled.two_of (words_left words.entry.rest)) }
{
    let (client, window) = two_of(words)?;
    let client = client_in(client)?;
    let window = window_in(window)?;
    Some(Event::Ack { client, window })
}

fn send_of(words: Words<'_>) -> Option<Event>
    ensures { result ≡ spelled.send_words (spelled.three_of (words_left words.entry.rest)) }
{
    let (client, from, len) = three_of(words)?;
    let client = client_in(client)?;
    let from = long_in(from)?;
    let len = long_in(len)?;
    Some(Event::Send { client, from, len })
}

fn fin_of(words: Words<'_>) -> Option<Event>
    ensures { result ≡ spelled.client_words events.Fin (spelled.one_of (words_left words.entry.rest)) }
{
    let client = client_in(one_of(words)?)?;
    Some(Event::Fin { client })
}

fn reset_of(words: Words<'_>) -> Option<Event>
    ensures { result ≡ spelled.client_words events.Reset (spelled.one_of (words_left words.entry.rest)) }
{
    let client = client_in(one_of(words)?)?;
    Some(Event::Reset { client })
}

fn stop_of(words: Words<'_>) -> Option<Event>
    ensures { result ≡ spelled.stop_words (spelled.one_of (words_left words.entry.rest)) }
{
    let part = ranged(1, 2, one_of(words)?)? as u8;
    Some(Event::Stop { part })
}

/// Returns the verb that a word names.
#[tactic(auto, unfolding(crate::specs::EventWords::verb_named))]
fn verb_named(word: &[u8]) -> Option<Verb>
    ensures { result ≡ spelled.verb_named word.now }
{
    if is_text(word, "boot") {
        Some(Verb::Boot)
    } else if is_text(word, "crash") {
        Some(Verb::Crash)
    } else if is_text(word, "tick") {
        Some(Verb::Tick)
    } else if is_text(word, "deliver") {
        Some(Verb::Deliver)
    } else if is_text(word, "flip") {
        Some(Verb::Flip)
    } else if is_text(word, "open") {
        Some(Verb::Open)
    } else if is_text(word, "send") {
        Some(Verb::Send)
    } else if is_text(word, "fin") {
        Some(Verb::Fin)
    } else if is_text(word, "ack") {
        Some(Verb::Ack)
    } else if is_text(word, "reset") {
        Some(Verb::Reset)
    } else if is_text(word, "stop") {
        Some(Verb::Stop)
    } else {
        None
    }
}

/// Returns the event of a verb and the words after it.
fn event_for(verb: Option<Verb>, words: Words<'_>) -> Option<Event>
    ensures { result ≡ spelled.event_for verb (words_left words.entry.rest) }
{
    match verb {
        Some(Verb::Boot) => boot_of(words),
        Some(Verb::Crash) => bare(Event::Crash, words),
        Some(Verb::Tick) => bare(Event::Tick, words),
        Some(Verb::Deliver) => deliver_of(words),
        Some(Verb::Flip) => flip_of(words),
        Some(Verb::Open) => begin_of(words),
        Some(Verb::Send) => send_of(words),
        Some(Verb::Fin) => fin_of(words),
        Some(Verb::Ack) => ack_of(words),
        Some(Verb::Reset) => reset_of(words),
        Some(Verb::Stop) => stop_of(words),
        None => None,
    }
}

/// Returns the event of these words, if each is in its one spelling.
pub(crate) fn event_of_words(words: Words<'_>) -> Option<Event>
    ensures { result ≡ spelled.event_of_words (words_left words.entry.rest) }
{
    let mut words = words;
    let verb = next_word(&mut words)?;
    event_for(verb_named(verb), words)
}
