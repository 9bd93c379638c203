//! The Internet checksum of bytes that are given in pieces, and its update where one summed word is replaced.

ghost use Rattle.std.specs.Prelude.{◌≡◌, ◌<◌, ◌≤◌, ◌+◌, ◌-◌, ◌*◌, ℕ, Bool, false, length};
ghost use Rattle.seq_arith.specs.Checksum.{Summed, word_sum, folded, check_of, nothing_summed, odd_after, with_bytes, patched};

use std::marker::Model;

/// The sum of the 16-bit words of a string of bytes that is given in pieces. A piece may end inside a word.
#[derive(Drop)]
pub struct Sum16 {
    total: u32,
    odd: bool,
    count: u32,
}

impl Model for Sum16 {
    ghost Value = { Summed };

    ghost view = { λ s. record { total = s.total; odd = s.odd; count = s.count } };

    ghost invariant = { λ s. (s.total ≤ 65280 * s.count) × (s.count ≤ 65535) };
}

impl Sum16 {
    /// Returns the sum of no bytes.
    pub fn new() -> Sum16
        ensures { result ≡ nothing_summed }
    {
        Sum16 {
            total: 0,
            odd: false,
            count: 0,
        }
    }

    /// Adds the next bytes of the string, which has at most 65,535 bytes in all.
    pub fn take(&mut self, bytes: &[u8])
        requires { self.old.count + length bytes.now ≤ 65535 }
        ensures { self.new ≡ with_bytes self.old bytes.now }
    {
        self.total += sum_behind(self.odd, bytes);
        self.odd = ends_inside(self.odd, bytes);
        self.count += bytes.len() as u32;
    }

    /// Returns the checksum of all bytes so far (RFC 1071).
    pub fn check(&self) -> u16
        ensures { result ≡ check_of self.now.total }
    {
        complement(self.total)
    }
}

/// Returns the sum of the words of a string, which begins inside a word if `odd`.
fn sum_behind(odd: bool, bytes: &[u8]) -> u32
    requires { length bytes.now ≤ 65535 }
    ensures sum { result ≡ word_sum odd bytes.now }
    ensures bound { result ≤ 65280 * length bytes.now }
{
    match bytes.split_first() {
        Some((first, rest)) if odd => u32::from(*first) + sum_of(rest),
        _ => sum_of(bytes),
    }
}

/// Returns whether a string ends inside a word. It begins inside one if `odd`.
#[tactic(auto, using(crate::proofs::Sums::odd_after_parity))]
fn ends_inside(odd: bool, bytes: &[u8]) -> bool
    ensures { result ≡ odd_after odd bytes.now }
{
    odd != (bytes.len() % 2 == 1)
}

/// Returns the sum of the words of a string that begins with a word.
fn sum_of(bytes: &[u8]) -> u32
    requires { length bytes.now ≤ 65535 }
    ensures sum { result ≡ word_sum false bytes.now }
    ensures bound { result ≤ 65280 * length bytes.now }
{
    let mut total = 0u32;
    let mut rest = bytes;
    while let [high, low, behind @ ..] = rest {
        total += u32::from(*high) * 256 + u32::from(*low);
        rest = behind;
    }
    if let [high] = rest {
        total += u32::from(*high) * 256;
    }
    total
}

/// Returns the one's complement of a sum whose carries are added back in.
#[tactic(auto, unfolding(crate::specs::Checksum::check_of, crate::specs::Checksum::folded))]
fn complement(total: u32) -> u16
    ensures { result ≡ check_of total }
{
    if total == 0 {
        0xFFFF
    } else {
        (65534 - (total - 1) % 65535) as u16
    }
}

/// Returns the checksum after the summed word `old` was replaced by `new` (RFC 1624, equation 3).
#[tactic(auto, unfolding(crate::specs::Checksum::patched, crate::specs::Checksum::check_of, crate::specs::Checksum::folded))]
pub fn patch16(check: u16, old: u16, new: u16) -> u16
    ensures exact { result ≡ patched check old new }
    // It is the checksum of the sum with `new` in place of `old`, if that sum is 0 neither before nor after.
    ensures anew { (total : ℕ) → check ≡ check_of total → old ≤ total → 0 < total → 0 < total - old + new → result ≡ check_of (total - old + new) }
{
    complement(u32::from(!check) + u32::from(!old) + u32::from(new))
}
