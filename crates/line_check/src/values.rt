//! The values of a packet's line, each in its one spelling: numbers, bytes in hexadecimal, addresses, flags and lists of lengths.

ghost use Rattle.std.specs.Prelude.{◌≡◌, ◌≤◌, ◌<◌, ◌+◌, ◌-◌, ◌^◌, length, IfSome};
ghost use Rattle.std.specs.List.{list_all, slice_split};
ghost use Rattle.ft_model.specs.Words.{is};
ghost use Rattle.line_check.specs.Words as spelled;

use crate::words::{is_text, last_piece, next_piece};
use itoa::Buffer;
use schedule_text::read_number;

/// The largest length of a read, in bytes.
const READ_LIMIT: u64 = 2_048;

/// The largest number of lengths in a message.
const LENS_LIMIT: usize = 512;

/// The length of the MSS option, in bytes.
const OPTION_BYTES: usize = 4;

/// Returns the number that a word spells, if it is at most `most`.
#[tactic(auto, unfolding(crate::specs::Words::number_word))]
pub(crate) fn number_word(most: u64, word: &[u8]) -> Option<u64>
    ensures value { result ≡ spelled.number_word most word.now }
    ensures most { IfSome result (λ n. n ≤ most) }
{
    let n = read_number(word, 0, most)?;
    let mut buffer = Buffer::new();
    if buffer.format(n).as_bytes() == word {
        Some(n)
    } else {
        None
    }
}

/// Returns whether a word spells a number that is at most `most`.
pub(crate) fn is_number(most: u64, word: &[u8]) -> bool
    ensures { result ≡ spelled.is_number most word.now }
{
    number_word(most, word).is_some()
}

/// Returns whether a word spells this number.
pub(crate) fn is_numbered(n: u32, word: &[u8]) -> bool
    ensures { result ≡ spelled.is_numbered n (spelled.number_word (2 ^ 32 - 1) word.now) }
{
    match number_word(0xFFFF_FFFF, word) {
        Some(m) => m == u64::from(n),
        None => false,
    }
}

fn is_lower_digit(byte: u8) -> bool
    ensures { result ≡ spelled.is_lower_digit byte }
{
    48 <= byte && byte <= 57 || 97 <= byte && byte <= 102
}

fn all_lower_digits(word: &[u8]) -> bool
    ensures { result ≡ list_all spelled.is_lower_digit word.now }
{
    word.iter().all(|byte| is_lower_digit(*byte))
}

/// Returns whether a word consists of pairs of lower-case hexadecimal digits, at least one.
#[tactic(auto, unfolding(crate::specs::Words::is_hex_word))]
fn is_hex_word(word: &[u8]) -> bool
    ensures { result ≡ spelled.is_hex_word word.now }
{
    if word.is_empty() {
        return false;
    }
    if word.len() % 2 != 0 {
        return false;
    }
    all_lower_digits(word)
}

/// Returns how many bytes a word spells in lower-case hexadecimal: 0 for a dash.
#[tactic(auto, unfolding(crate::specs::Words::byte_count))]
pub(crate) fn byte_count(word: &[u8]) -> Option<usize>
    ensures value { result ≡ spelled.byte_count word.now }
    ensures most { IfSome result (λ n. n ≤ length word.now) }
{
    if is_text(word, "-") {
        return Some(0);
    }
    if is_hex_word(word) {
        Some(word.len() / 2)
    } else {
        None
    }
}

/// Returns whether a word spells lengths of reads, joined by commas.
fn are_lengths(word: &[u8]) -> bool
    ensures { result ≡ list_all (spelled.is_number 2048) (slice_split (is 44) word.now) }
{
    let mut rest = word;
    while let Some((first, behind)) = next_piece(rest, b',') {
        if !is_number(READ_LIMIT, first) {
            return false;
        }
        rest = behind;
    }
    is_number(READ_LIMIT, rest)
}

/// Returns into how many pieces commas cut a word.
fn count_pieces(word: &[u8]) -> usize
    ensures value { result ≡ length (slice_split (is 44) word.now) }
    ensures most { result ≤ length word.now + 1 }
{
    let mut rest = word;
    let mut count = 1;
    while let Some((_, behind)) = next_piece(rest, b',') {
        rest = behind;
        count += 1;
    }
    count
}

/// Returns how many lengths of reads a word spells, if a message has room for them.
#[tactic(auto, unfolding(crate::specs::Words::lens_count))]
pub(crate) fn lens_count(word: &[u8]) -> Option<usize>
    ensures value { result ≡ spelled.lens_count word.now }
    ensures most { IfSome result (λ n. n ≤ 512) }
{
    if !are_lengths(word) {
        return None;
    }
    let count = count_pieces(word);
    if count <= LENS_LIMIT {
        Some(count)
    } else {
        None
    }
}

/// Returns whether a text consists of four octets separated by dots.
fn are_octets(host: &[u8]) -> bool
    ensures { result ≡ spelled.are_octets (slice_split (is 46) host.now) }
{
    let Some((first, rest)) = next_piece(host, b'.') else {
        return false;
    };
    let Some((second, rest)) = next_piece(rest, b'.') else {
        return false;
    };
    let Some((third, rest)) = next_piece(rest, b'.') else {
        return false;
    };
    let Some(fourth) = last_piece(rest, b'.') else {
        return false;
    };
    is_number(255, first)
        && is_number(255, second)
        && is_number(255, third)
        && is_number(255, fourth)
}

/// Returns whether a word spells an address with a port.
#[tactic(auto, unfolding(crate::specs::Words::is_address))]
pub(crate) fn is_address(word: &[u8]) -> bool
    ensures { result ≡ spelled.is_address word.now }
{
    let Some((host, rest)) = next_piece(word, b':') else {
        return false;
    };
    let Some(port) = last_piece(rest, b':') else {
        return false;
    };
    are_octets(host) && is_number(65_535, port)
}

/// Returns a text without its first letter, if that is this one, and otherwise the whole text.
fn without(letter: u8, word: &[u8]) -> &[u8]
    ensures { result.now ≡ spelled.without letter word.now }
{
    let Some((first, rest)) = word.split_first() else {
        return word;
    };
    if *first == letter { rest } else { word }
}

/// Returns whether a text consists of letters of flags in their order.
#[tactic(auto, unfolding(crate::specs::Words::are_letters))]
fn are_letters(word: &[u8]) -> bool
    ensures { result ≡ spelled.are_letters word.now }
{
    let rest = without(b'A', without(b'U', without(b'E', without(b'C', word))));
    let rest = without(b'F', without(b'S', without(b'R', without(b'P', rest))));
    rest.is_empty()
}

/// Returns whether a word spells flags.
#[tactic(auto, unfolding(crate::specs::Words::are_flags))]
pub(crate) fn are_flags(word: &[u8]) -> bool
    ensures { result ≡ spelled.are_flags word.now }
{
    if is_text(word, "-") {
        return true;
    }
    if word.is_empty() {
        return false;
    }
    are_letters(word)
}

/// Returns the size in bytes of the MSS option that a word spells: 0 for none.
#[tactic(auto, unfolding(crate::specs::Words::option_size))]
pub(crate) fn option_size(word: &[u8]) -> Option<usize>
    ensures value { result ≡ spelled.option_size word.now }
    ensures most { IfSome result (λ n. n ≤ 4) }
{
    if is_text(word, "-") {
        return Some(0);
    }
    if is_number(65_535, word) {
        Some(OPTION_BYTES)
    } else {
        None
    }
}
