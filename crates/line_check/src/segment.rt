//! The words of a segment: its flags, its numbers, its segment size, its payload and its timestamps.

ghost use Rattle.std.specs.Prelude.{◌≡◌, ◌-◌, ◌^◌, [], ◌∷◌, codes, length};
ghost use Rattle.line_check.specs.Left.{words_left};
ghost use Rattle.line_check.specs.Words as spelled;

use crate::columns::{Limits, number_fits};
use crate::values::{are_flags, byte_count, is_number, option_size};
use crate::words::{Words, is_text, named, next_word};
use limits::PACKET;
use seq_arith::{Field, Grammar};

/// The size of a packet's two headers, in bytes.
const HEADER_BYTES: usize = 40;

/// The largest number that a timestamp can be.
const LARGEST_TIMESTAMP: u64 = 0xFFFF_FFFF;

/// The bytes that the timestamps take in a header.
const TIMESTAMPS_BYTES: usize = 12;

/// Returns whether a packet has room for options and a payload of these sizes.
fn sizes_fit(mss: Option<usize>, timestamps: Option<usize>, payload: Option<usize>) -> bool
    ensures { result ≡ spelled.sizes_fit mss timestamps payload }
{
    let Some(mss) = mss else {
        return false;
    };
    let Some(timestamps) = timestamps else {
        return false;
    };
    let Some(payload) = payload else {
        return false;
    };
    let room = PACKET - HEADER_BYTES;
    if room < mss {
        return false;
    }
    if room - mss < timestamps {
        return false;
    }
    payload <= room - mss - timestamps
}

/// Returns how many bytes the timestamps take that are the last words of a segment: 0 where none follow its text.
fn timestamps_size(words: Words<'_>) -> Option<usize>
    ensures { result ≡ spelled.timestamps_size (words_left words.entry.rest) }
{
    let mut words = words;
    let Some(name) = next_word(&mut words) else {
        return Some(0);
    };
    let Some(value) = next_word(&mut words) else {
        return None;
    };
    let Some(echo) = next_word(&mut words) else {
        return None;
    };
    if next_word(&mut words).is_some() {
        return None;
    }
    if is_text(name, "ts")
        && is_number(LARGEST_TIMESTAMP, value)
        && is_number(LARGEST_TIMESTAMP, echo)
    {
        Some(TIMESTAMPS_BYTES)
    } else {
        None
    }
}

/// Returns whether these are the last words of a segment: its segment size, its payload and its timestamps, with sizes that fit a packet.
fn text_fits(words: Words<'_>) -> bool
    ensures { result ≡ spelled.text_fits (words_left words.entry.rest) }
{
    let mut words = words;
    let Some(size) = named("mss", &mut words) else {
        return false;
    };
    let Some(bytes) = named("data", &mut words) else {
        return false;
    };
    sizes_fit(option_size(size), timestamps_size(words), byte_count(bytes))
}

/// Returns whether these are the words of a segment.
#[tactic(auto, using(crate::proofs::Taken::dropped_six), unfolding(crate::specs::Words::is_segment))]
pub(crate) fn is_segment(words: Words<'_>) -> bool
    ensures { result ≡ spelled.is_segment (words_left words.entry.rest) }
{
    let mut words = words;
    let Some(flags) = next_word(&mut words) else {
        return false;
    };
    if !are_flags(flags) {
        return false;
    }
    let free = Limits {
        grammar: Grammar::Plain,
        boot: 0,
        behind: 0,
    };
    number_fits(free, Field::Initial, "seq", &mut words)
        && number_fits(free, Field::Initial, "ack", &mut words)
        && number_fits(free, Field::Port, "window", &mut words)
        && text_fits(words)
}
