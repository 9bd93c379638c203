//! The sum of the words of a long string, and its checksum.

ghost use Rattle.std.specs.Prelude.{◌≡◌, ◌<◌, ◌%◌, ◌^◌, false, length};
ghost use Rattle.seq_arith.specs.Checksum.{word_sum, check_of};

/// Returns a number that differs from the sum of a string's words by a multiple of 65,535. Two words are read at once, each with its bytes in the other order,
/// and what they sum to is turned round at the end (RFC 1071, 2).
#[inline(always)]
pub(crate) fn words_of(bytes: &[u8]) -> u64
    requires { length bytes.now < 2 ^ 16 }
    ensures sum { result % 65535 ≡ word_sum false bytes.now % 65535 }
    ensures bound { result < 2 ^ 60 }
{
    let mut total = 0u32;
    let mut rest = bytes;
    while let [a, b, c, d, behind @ ..] = rest {
        let words = u32::from_le_bytes([*a, *b, *c, *d]);
        total += words % 65536 + words / 65536;
        rest = behind;
    }
    u64::from(total) * 256 + u64::from(last_words(rest))
}

/// Returns the sum of the words of at most three bytes.
fn last_words(bytes: &[u8]) -> u32
    requires { length bytes.now < 4 }
    ensures sum { result ≡ word_sum false bytes.now }
    ensures bound { result < 2 ^ 18 }
{
    match bytes {
        [first] => u32::from(*first) * 256,
        [high, low] => u32::from(*high) * 256 + u32::from(*low),
        [high, low, last] => (u32::from(*high) + u32::from(*last)) * 256 + u32::from(*low),
        _ => 0,
    }
}

/// Returns the checksum of a sum that isn't 0 (RFC 1071).
#[tactic(auto, unfolding(seq_arith::specs::Checksum::check_of, seq_arith::specs::Checksum::folded))]
pub(crate) fn check_of(total: u64) -> u16
    requires { 0 < total }
    ensures { result ≡ check_of total }
{
    (65534 - (total - 1) % 65535) as u16
}
