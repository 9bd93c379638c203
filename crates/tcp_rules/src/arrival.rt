//! Whether a segment is acceptable (RFC 9293, 3.10.7.4, first check), over offsets in its sender's stream.

ghost use Rattle.std.specs.Prelude.{◌≡◌, ◌≤◌, ◌^◌, nat_abs};
ghost use Rattle.tcp_rules.specs.Arrival.{is_acceptable, is_acceptable_or_at_edge, is_at_right_edge, lies_in};

/// Whether a segment of length `len` that begins at this offset is acceptable, or at the right edge, where `next` is RCV.NXT and `room` is RCV.WND.
pub fn is_acceptable_or_at_edge(next: u32, room: u32, first: i64, len: u32) -> bool
    requires first { nat_abs first ≤ 2 ^ 31 }
    requires len { len ≤ 2 ^ 16 }
    ensures { result ≡ is_acceptable_or_at_edge next room first len }
{
    is_acceptable(next, room, first, len) || is_at_right_edge(next, room, first, len)
}

/// Whether a segment is acceptable, by TCP's four cases.
fn is_acceptable(next: u32, room: u32, first: i64, len: u32) -> bool
    requires first { nat_abs first ≤ 2 ^ 31 }
    requires len { len ≤ 2 ^ 16 }
    ensures { result ≡ is_acceptable next room first len }
{
    if room == 0 {
        return len == 0 && first == i64::from(next);
    }
    lies_in(next, room, first) || (0 < len && lies_in(next, room, first + i64::from(len - 1)))
}

/// Whether a segment's SEG.LEN is 0 and it is at the right edge of an open window.
#[tactic(auto, unfolding(crate::specs::Arrival::is_at_right_edge))]
fn is_at_right_edge(next: u32, room: u32, first: i64, len: u32) -> bool
    ensures { result ≡ is_at_right_edge next room first len }
{
    len == 0 && 0 < room && first == i64::from(next) + i64::from(room)
}

/// Whether an offset lies in a window.
fn lies_in(next: u32, room: u32, offset: i64) -> bool
    ensures { result ≡ lies_in next room offset }
{
    i64::from(next) <= offset && offset < i64::from(next) + i64::from(room)
}
