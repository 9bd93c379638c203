//! Lines and words, each cut off the beginning of the remaining text. So a text is scanned once, and a line once for each of its tests.

ghost use Rattle.std.specs.Prelude.{◌≡◌, ℕ, List, ◌<◌, ◌≤◌, not, [], ◌∷◌, length, IfSome, MatchOption};
ghost use Rattle.std.specs.List.{position, position_or_len, slice_split};
ghost use Rattle.std.specs.Str.{bytes_eq};
ghost use Rattle.ft_model.specs.Words.{is, lines_of, words_of};

/// Returns the index of the first occurrence of a byte.
fn find(bytes: &[u8], mark: u8) -> Option<usize>
    ensures { result ≡ position (is mark) bytes.now }
{
    bytes.iter().position(|byte| *byte == mark)
}

/// Returns the index of the first occurrence of a byte, or the length if there is none.
#[tactic(auto, using(crate::proofs::Pieces::position_or_length))]
fn position_of(bytes: &[u8], mark: u8) -> usize
    ensures value { result ≡ position_or_len (is mark) bytes.now }
    ensures within { result ≤ length bytes.now }
{
    find(bytes, mark).unwrap_or(bytes.len())
}

/// Returns the bytes before the first `mark` and those after it, or `None` if no byte is `mark`.
#[tactic(auto, using(crate::proofs::Pieces::slice_split_whole, crate::proofs::Pieces::slice_split_at_mark, std::proofs::lemmas::List::take_rest))]
pub(crate) fn next_piece(bytes: &[u8], mark: u8) -> Option<(&[u8], &[u8])>
    ensures pieces { MatchOption result (slice_split (is mark) bytes.now ≡ bytes.now ∷ [])
        (λ p. slice_split (is mark) bytes.now ≡ p.0.now ∷ slice_split (is mark) p.1.now) }
    ensures shorter { IfSome result (λ p. length p.1.now < length bytes.now) }
{
    let end = position_of(bytes, mark);
    if end == bytes.len() {
        return None;
    }
    Some((&bytes[..end], &bytes[end + 1..]))
}

/// Returns all bytes, if none of them is `mark`.
#[tactic(auto, using(crate::proofs::Pieces::two_pieces))]
pub(crate) fn last_piece(bytes: &[u8], mark: u8) -> Option<&[u8]>
    ensures { MatchOption result
        ((first : List ℕ) × (second : List ℕ) × (more : List (List ℕ)) × (slice_split (is mark) bytes.now ≡ first ∷ second ∷ more))
        (λ piece. slice_split (is mark) bytes.now ≡ piece.now ∷ []) }
{
    match next_piece(bytes, mark) {
        Some(_) => None,
        None => Some(bytes),
    }
}

/// Returns the first line of a text, without its line feed, and the lines after it.
#[tactic(auto, using(crate::proofs::Pieces::lines_of_first, crate::proofs::Pieces::lines_of_last))]
pub(crate) fn next_line(text: &[u8]) -> (&[u8], &[u8])
    requires { 0 < length text.now }
    ensures first { lines_of text.now ≡ result.0.now ∷ lines_of result.1.now }
    ensures shorter { length result.1.now < length text.now }
{
    match next_piece(text, b'\n') {
        Some(cut) => cut,
        None => (text, &[]),
    }
}

/// Returns the index of the first byte that isn't a space.
fn find_word(line: &[u8]) -> Option<usize>
    ensures { result ≡ position (λ byte. not (is 32 byte)) line.now }
{
    line.iter().position(|byte| *byte != b' ')
}

/// Returns the first word of a line and what follows it, or `None` if the line has no word.
#[tactic(auto, using(crate::proofs::Pieces::words_of_none, crate::proofs::Pieces::words_of_some, std::proofs::lemmas::List::take_rest))]
pub(crate) fn next_word(line: &[u8]) -> Option<(&[u8], &[u8])>
    ensures { MatchOption result (words_of line.now ≡ []) (λ w. words_of line.now ≡ w.0.now ∷ words_of w.1.now) }
{
    let line = &line[find_word(line)?..];
    Some(line.split_at(position_of(line, b' ')))
}

/// Returns whether a word is this one.
pub(crate) fn is_text(word: &[u8], name: &str) -> bool
    ensures { result ≡ bytes_eq word.now name.now }
{
    word == name.as_bytes()
}
