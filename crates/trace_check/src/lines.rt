//! The lines of a text, and the pieces of a line.

ghost use Rattle.std.specs.Prelude.{◌≡◌, ℕ, ◌<◌, ◌≤◌, ◌+◌, ◌||◌, ◌&&◌, List, [], ◌∷◌, codes, decimal, drop, length, take, MatchOption};
ghost use Rattle.std.specs.List.{position, position_or_len};
ghost use Rattle.std.specs.Str.{bytes_eq};
ghost use Rattle.ft_model.specs.Words.{is};
ghost use Rattle.report_laws.specs.Lines.{lines_in};
ghost use Rattle.report_laws.specs.Transitions.{is_lone_word, is_header_line, pieces};

use itoa::Buffer;
use schedule_text::Schedule;

/// Returns the index of the first line feed.
fn find_feed(text: &[u8]) -> Option<usize>
    ensures { result ≡ position (is 10) text.now }
{
    text.iter().position(|byte| *byte == b'\n')
}

/// Returns the index of the first line feed, or the length if there is none.
#[tactic(auto, using(schedule_text::proofs::Pieces::position_or_length))]
fn feed_or_end(text: &[u8]) -> usize
    ensures value { result ≡ position_or_len (is 10) text.now }
    ensures within { result ≤ length text.now }
{
    find_feed(text).unwrap_or(text.len())
}

/// Returns the length of a text's first line, in bytes.
#[tactic(auto, using(crate::proofs::TextLines::first_line, crate::proofs::TextLines::last_line))]
pub(crate) fn line_length(text: &[u8]) -> usize
    requires { 0 < length text.now }
    ensures first { lines_in text.now ≡ take result text.now ∷ lines_in (drop result text.now) }
    ensures within { (0 < result) × (result ≤ length text.now) }
{
    let end = feed_or_end(text);
    if end == text.len() { end } else { end + 1 }
}

/// Returns the end of the line that begins at `at`.
#[tactic(auto, using(crate::proofs::TextLines::line_from, std::proofs::lemmas::List::take_rest))]
pub(crate) fn line_end(text: &[u8], at: usize) -> usize
    requires { at < length text.now }
    ensures line { lines_in (drop at text.now) ≡ drop at (take result text.now) ∷ lines_in (drop result text.now) }
    ensures within { (at < result) × (result ≤ length text.now) }
{
    at + line_length(&text[at..])
}

/// Returns the bytes from `at` to `end`.
#[tactic(auto, using(std::proofs::lemmas::List::take_rest))]
pub(crate) fn between(text: &[u8], at: usize, end: usize) -> &[u8]
    requires { (at ≤ end) × (end ≤ length text.now) }
    ensures { result.now ≡ drop at (take end text.now) }
{
    let front = &text[..end];
    &front[at..]
}

fn ends_piece(byte: u8) -> bool
    ensures { result ≡ (is 32 byte || is 10 byte) }
{
    byte == b' ' || byte == b'\n'
}

/// Returns the index of the first space or line feed.
fn find_end(text: &[u8]) -> Option<usize>
    ensures { result ≡ position (λ c. is 32 c || is 10 c) text.now }
{
    text.iter().position(|byte| ends_piece(*byte))
}

/// Returns the index of the first space or line feed, or the length if there is none.
#[tactic(auto, using(schedule_text::proofs::Pieces::position_or_length))]
fn end_of_piece(text: &[u8]) -> usize
    ensures value { result ≡ position_or_len (λ c. is 32 c || is 10 c) text.now }
    ensures within { result ≤ length text.now }
{
    find_end(text).unwrap_or(text.len())
}

/// Returns the first piece of a line and what follows its end, or `None` if it is the only one.
#[tactic(auto, using(crate::proofs::Cited::next_piece_lemmas))]
fn next_piece(text: &[u8]) -> Option<(&[u8], &[u8])>
    ensures { MatchOption result (pieces text.now ≡ text.now ∷ []) (λ p. pieces text.now ≡ p.0.now ∷ pieces p.1.now) }
{
    let end = end_of_piece(text);
    if end == text.len() {
        return None;
    }
    Some((&text[..end], &text[end + 1..]))
}

/// Returns the first piece of a line.
fn first_piece(text: &[u8]) -> &[u8]
    ensures { (more : List (List ℕ)) × (pieces text.now ≡ result.now ∷ more) }
{
    match next_piece(text) {
        Some((first, _)) => first,
        None => text,
    }
}

fn is_number(n: usize, word: &[u8]) -> bool
    ensures { result ≡ bytes_eq word.now (decimal n) }
{
    let mut buffer = Buffer::new();
    word == buffer.format(n).as_bytes()
}

/// Returns whether a word begins the line of a profile, or a line that no report of one logger has.
fn is_single(word: &[u8]) -> bool
    ensures { result ≡ is_lone_word word.now }
{
    word == b"profile".as_slice()
        || word == b"twin".as_slice()
        || word == b"marks".as_slice()
        || word == b"lasting".as_slice()
}

/// Returns whether these pieces begin the line of client `n`.
fn is_client(n: usize, first: &[u8], second: &[u8]) -> bool
    ensures { result ≡ (bytes_eq first.now (codes "client") && bytes_eq second.now (decimal n)) }
{
    first == b"client".as_slice() && is_number(n, second)
}

/// Returns whether these pieces begin a line of a header in which client `n` is the next.
fn begins_header_line(n: usize, first: &[u8], second: &[u8]) -> bool
    ensures { result ≡ (is_lone_word first.now || bytes_eq first.now (codes "client") && bytes_eq second.now (decimal n)) }
{
    is_single(first) || is_client(n, first, second)
}

/// Returns whether a line belongs to the header that so far spells a schedule.
#[tactic(auto, using(crate::proofs::TextLines::one_piece, crate::proofs::TextLines::two_pieces))]
pub(crate) fn belongs_to_header(schedule: &Schedule, line: &[u8]) -> bool
    ensures { result ≡ is_header_line schedule.now (pieces line.now) }
{
    let Some((first, rest)) = next_piece(line) else {
        return is_single(line);
    };
    begins_header_line(
        schedule.clients.as_slice().len() + 1,
        first,
        first_piece(rest),
    )
}
