//! TCP's tests of an arriving segment, over stream offsets (RFC 9293, 3.10.7.4). A hostile packet's offset may be before the beginning of the stream, so it
//! is signed. What was taken of a stream is counted by an unsigned number.

ghost use Rattle.std.specs.Prelude.{◌≡◌, ◌+◌, ◌^◌, ◌<◌, ◌≤◌, MatchOption, pos, ◌+ℤ◌, ◌<ℤ◌, length, take, drop};
ghost use Rattle.seq_arith.specs.Number.{number_at, offset_of as offset_lem};
ghost use Rattle.tcp_rules.specs.Arrival.{int_eq, is_acceptable as acceptable_lem, is_acceptable_or_at_edge, is_at_right_edge, is_allowed_at_zero};
ghost use Rattle.tcp_rules.specs.Arrival.{is_usable as usable_lem, lies_in as lies_lem};

use seq_arith::Seq;

/// Returns the sequence number at an offset of the stream whose initial sequence number is `isn`.
pub fn number_of(isn: u32, offset: u64) -> u32
    requires { offset ≤ 2 ^ 63 }
    ensures { result ≡ number_at isn offset }
{
    ((u64::from(isn) + 1 + offset) % (1 << 32)) as u32
}

/// Returns the offset of a sequence number in the stream whose initial sequence number is `isn`. The SYN is at -1.
#[tactic(auto, unfolding(seq_arith::specs::Number::offset_of))]
pub fn offset_of(isn: u32, number: u32) -> i64
    ensures { result ≡ offset_lem isn number }
{
    Seq(number).signed_gap(Seq(isn).add(1))
}

/// Returns the offset n past `first`, or `None` if it is before the beginning of the stream.
pub fn place_of(first: i64, n: u64) -> Option<u64>
    requires { n < 2 ^ 63 }
    ensures { MatchOption result ((first +ℤ pos n) <ℤ pos 0) (λ place. (first +ℤ pos n) ≡ pos place) }
{
    if first >= 0 {
        Some(first as u64 + n)
    } else {
        n.checked_sub(first.unsigned_abs())
    }
}

/// Returns whether the offset n past `first` is `next`.
pub fn is_at(next: u64, first: i64, n: u64) -> bool
    requires { n < 2 ^ 63 }
    ensures { result ≡ int_eq (first +ℤ pos n) (pos next) }
{
    match place_of(first, n) {
        Some(place) => place == next,
        None => false,
    }
}

/// Returns whether the offset n past `first` is in the window that begins at `next`.
fn lies_in(next: u64, window: u64, first: i64, n: u64) -> bool
    requires { n < 2 ^ 63 }
    ensures { result ≡ lies_lem next window (first +ℤ pos n) }
{
    match place_of(first, n) {
        Some(place) => next <= place && place - next < window,
        None => false,
    }
}

/// Returns whether a segment of length `len` that begins at `first` is acceptable, by the four cases of length and window.
pub fn is_acceptable(next: u64, window: u64, first: i64, len: u64) -> bool
    requires { len ≤ 2 ^ 63 }
    ensures { result ≡ acceptable_lem next window first len }
{
    match (len, window) {
        (0, 0) => is_at(next, first, 0),
        (0, _) => lies_in(next, window, first, 0),
        (_, 0) => false,
        (_, _) => lies_in(next, window, first, 0) || lies_in(next, window, first, len - 1),
    }
}

/// Returns whether a segment of length 0 is at exactly the right edge of an open window.
#[tactic(auto, unfolding(tcp_rules::specs::Arrival::is_at_right_edge))]
pub(crate) fn is_at_right_edge(next: u64, window: u64, first: i64, len: u64) -> bool
    requires next { next ≤ 2 ^ 63 }
    requires window { window < 2 ^ 62 }
    ensures { result ≡ is_at_right_edge next window first len }
{
    len == 0 && window > 0 && is_at(next + window, first, 0)
}

/// Returns whether a segment is acceptable, or of length 0 at exactly the right edge of an open window.
pub fn accepts(next: u64, window: u64, first: i64, len: u64) -> bool
    requires next { next ≤ 2 ^ 63 }
    requires window { window < 2 ^ 62 }
    requires len { len ≤ 2 ^ 63 }
    ensures { result ≡ is_acceptable_or_at_edge next window first len }
{
    is_acceptable(next, window, first, len) || is_at_right_edge(next, window, first, len)
}

/// Returns whether a segment begins at exactly the next number while the window is zero.
#[tactic(auto, unfolding(tcp_rules::specs::Arrival::is_allowed_at_zero))]
pub(crate) fn is_allowed_at_zero(next: u64, window: u64, first: i64) -> bool
    ensures { result ≡ is_allowed_at_zero next window first }
{
    window == 0 && is_at(next, first, 0)
}

/// Returns whether a segment is used: it is acceptable, of length 0 at exactly the right edge of an open window, or at the next number of a zero window.
pub fn is_usable(next: u64, window: u64, first: i64, len: u64) -> bool
    requires next { next ≤ 2 ^ 63 }
    requires window { window < 2 ^ 62 }
    requires len { len ≤ 2 ^ 63 }
    ensures { result ≡ usable_lem next window first len }
{
    accepts(next, window, first, len) || is_allowed_at_zero(next, window, first)
}

/// Returns a text without its first `skipped` bytes.
pub fn rest(text: &[u8], skipped: u64) -> &[u8]
    ensures { result.now ≡ drop skipped text.now }
{
    let from = skipped.min(text.len() as u64) as usize;
    &text[from..]
}

/// Returns a text without its first `skipped` bytes, cut to this room.
pub fn part(text: &[u8], skipped: u64, room: u64) -> &[u8]
    ensures { result.now ≡ take room (drop skipped text.now) }
{
    let rest = rest(text, skipped);
    let len = room.min(rest.len() as u64) as usize;
    &rest[..len]
}
