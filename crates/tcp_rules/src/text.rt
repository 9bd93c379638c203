//! Where a segment's text is in its stream.

ghost use Rattle.std.specs.Prelude.{◌≡◌, ◌<◌, ◌≤◌, ◌^◌};
ghost use Rattle.tcp_rules.specs.Arrival.{below, text_between};

/// Returns how much of a text that begins at the offset `first` is below the offset `next`. A hostile segment may begin before its stream.
pub fn below(next: u64, first: i64) -> u64
    requires { next < 2 ^ 63 }
    ensures { result ≡ below next first }
{
    if first >= 0 {
        next.saturating_sub(first as u64)
    } else {
        next + first.unsigned_abs()
    }
}

/// Returns the part of a text between the offsets `from` and `to`. The text begins at the offset `first`.
#[tactic(auto, unfolding(crate::specs::Arrival::text_between))]
pub fn text_between(text: &[u8], first: i64, from: u64, to: u64) -> &[u8]
    requires begins { from < 2 ^ 63 }
    requires ends { to < 2 ^ 63 }
    ensures { result.now ≡ text_between from to first text.now }
{
    let len = text.len() as u64;
    let end = below(to, first).min(len) as usize;
    let front = &text[..end];
    let start = below(from, first).min(end as u64) as usize;
    &front[start..]
}
