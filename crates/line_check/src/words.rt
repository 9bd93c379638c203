//! The words of a line, one after another, separated by single spaces.

ghost use Rattle.std.specs.Prelude.{◌≡◌, ℕ, ◌<◌, ◌≤◌, ◌-◌, true, false, None, Some, List, [], ◌∷◌, drop, take, length, IfSome, MatchOption};
ghost use Rattle.std.specs.List.{position, position_or_len, slice_split};
ghost use Rattle.std.specs.Str.{bytes_eq};
ghost use Rattle.ft_model.specs.Words.{is};
ghost use Rattle.line_check.specs.Words.{ends_with_feed, last_named as last_named_in, named as named_in};
ghost use Rattle.line_check.specs.Left.{words_left};

/// The words not read yet: those of this text, or none.
#[derive(Clone, Copy)]
pub(crate) struct Words<'a> {
    rest: Option<&'a [u8]>,
}

/// Returns the index of the first occurrence of a byte.
fn find(bytes: &[u8], mark: u8) -> Option<usize>
    ensures { result ≡ position (is mark) bytes.now }
{
    bytes.iter().position(|byte| *byte == mark)
}

/// Returns the index of the first occurrence of a byte, or the length if there is none.
#[tactic(auto, using(schedule_text::proofs::Pieces::position_or_length))]
fn position_of(bytes: &[u8], mark: u8) -> usize
    ensures value { result ≡ position_or_len (is mark) bytes.now }
    ensures within { result ≤ length bytes.now }
{
    find(bytes, mark).unwrap_or(bytes.len())
}

/// Returns the bytes before the first `mark` and those after it, or `None` if no byte is `mark`.
#[tactic(auto, using(crate::proofs::Cited::next_piece_lemmas))]
pub(crate) fn next_piece(bytes: &[u8], mark: u8) -> Option<(&[u8], &[u8])>
    ensures pieces { MatchOption result (slice_split (is mark) bytes.now ≡ bytes.now ∷ [])
        (λ p. slice_split (is mark) bytes.now ≡ p.0.now ∷ slice_split (is mark) p.1.now) }
    ensures shorter { IfSome result (λ p. length p.1.now < length bytes.now) }
{
    let end = position_of(bytes, mark);
    if end == bytes.len() {
        return None;
    }
    Some((&bytes[..end], &bytes[end + 1..]))
}

/// Returns all bytes, if none of them is `mark`.
#[tactic(auto, using(schedule_text::proofs::Pieces::two_pieces))]
pub(crate) fn last_piece(bytes: &[u8], mark: u8) -> Option<&[u8]>
    ensures { MatchOption result
        ((first : List ℕ) × (second : List ℕ) × (more : List (List ℕ)) × (slice_split (is mark) bytes.now ≡ first ∷ second ∷ more))
        (λ piece. slice_split (is mark) bytes.now ≡ piece.now ∷ []) }
{
    match next_piece(bytes, mark) {
        Some(_) => None,
        None => Some(bytes),
    }
}

/// Returns what follows the first `count` words of a text, or `None` if it has no more words.
#[tactic(auto, using(crate::proofs::Taken::one_less, crate::proofs::Taken::none_after_one))]
fn skip_words(count: usize, text: &[u8]) -> Option<&[u8]>
    ensures { MatchOption result (drop count (slice_split (is 32) text.now) ≡ []) (λ rest. drop count (slice_split (is 32) text.now)
        ≡ slice_split (is 32) rest.now) }
{
    let mut rest = text;
    let mut left = count;
    while 0 < left {
        let (_, behind) = next_piece(rest, b' ')?;
        rest = behind;
        left -= 1;
    }
    Some(rest)
}

/// Returns the words after the first `count`.
pub(crate) fn skip<'a>(count: usize, words: Words<'a>) -> Words<'a>
    ensures { words_left result.rest ≡ drop count (words_left words.entry.rest) }
{
    match words.rest {
        Some(text) => Words {
            rest: skip_words(count, text),
        },
        None => words,
    }
}

/// Returns a line without its line feed, or `None` if it doesn't end with one.
pub(crate) fn before_feed(line: &[u8]) -> Option<&[u8]>
    ensures { MatchOption result (ends_with_feed line.now ≡ false) (λ front. (ends_with_feed line.now ≡ true)
        × (front.now ≡ take (length line.now - 1) line.now)) }
{
    if line.is_empty() {
        return None;
    }
    let (front, feed) = line.split_at(line.len() - 1);
    if is_text(feed, "\n") {
        Some(front)
    } else {
        None
    }
}

/// Returns the words of a line that has no line feed.
pub(crate) fn words_of(line: &[u8]) -> Words<'_>
    ensures { words_left result.rest ≡ slice_split (is 32) line.now }
{
    Words { rest: Some(line) }
}

/// Takes the next word.
pub(crate) fn next_word<'a>(words: &mut Words<'a>) -> Option<&'a [u8]>
    ensures word { MatchOption result (words_left words.old.rest ≡ []) (λ word. words_left words.old.rest ≡ word.now ∷ words_left words.new.rest) }
    ensures rest { words_left words.new.rest ≡ drop 1 (words_left words.old.rest) }
{
    let rest = words.rest?;
    match next_piece(rest, b' ') {
        Some((word, behind)) => {
            words.rest = Some(behind);
            Some(word)
        }
        None => {
            words.rest = None;
            Some(rest)
        }
    }
}

/// Takes a name and the word after it. Returns the word if the name is this one.
#[tactic(auto, using(crate::proofs::Taken::dropped))]
pub(crate) fn named<'a>(name: &str, words: &mut Words<'a>) -> Option<&'a [u8]>
    ensures word { MatchOption result (named_in name.now (words_left words.old.rest) ≡ None) (λ word. named_in name.now (words_left words.old.rest)
        ≡ Some word.now) }
    ensures rest { words_left words.new.rest ≡ drop 2 (words_left words.old.rest) }
{
    let label = next_word(words)?;
    let word = next_word(words)?;
    if is_text(label, name) {
        Some(word)
    } else {
        None
    }
}

/// Returns the second word, if there are exactly two and the first is this name.
pub(crate) fn last_named<'a>(name: &str, words: Words<'a>) -> Option<&'a [u8]>
    ensures { MatchOption result (last_named_in name.now (words_left words.entry.rest) ≡ None) (λ word. last_named_in name.now (words_left words.entry.rest)
        ≡ Some word.now) }
{
    let mut words = words;
    let label = next_word(&mut words)?;
    let word = next_word(&mut words)?;
    if next_word(&mut words).is_some() {
        return None;
    }
    if is_text(label, name) {
        Some(word)
    } else {
        None
    }
}

/// Returns whether a word is this one.
pub(crate) fn is_text(word: &[u8], name: &str) -> bool
    ensures { result ≡ bytes_eq word.now name.now }
{
    word == name.as_bytes()
}
