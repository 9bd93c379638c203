//! The options of a segment, and the size of the segments that a peer accepts.

ghost use Rattle.limits.specs.Limits.{largest_segment, least_segment};
ghost use Rattle.std.specs.Prelude.{◌≡◌, ◌≤◌};
ghost use Rattle.seq_arith.specs.Packet.{segment_size, text_size};

use limits::{SEGMENT, SHORTEST_SEGMENT};

/// The bytes that the timestamps option takes in a header, with the two NOPs that align it (RFC 7323, appendix A).
const TIMESTAMPS_LENGTH: u16 = 12;

/// The timestamps option (RFC 7323, 3.2).
#[derive(Clone, Copy, Debug, PartialEq, Eq)]
pub struct Timestamps {
    /// TSval: the sender's clock.
    pub value: u32,
    /// TSecr: the latest TSval that the sender has received.
    pub echo: u32,
}

/// Returns the segment size, in bytes, for a peer whose SYN offers `mss`: that size, limited to the range from 64 to 1,460, or 536 where the SYN offers none
/// (RFC 9293, 3.7.1).
pub fn segment_size(mss: Option<u16>) -> u16
    ensures size { result ≡ segment_size mss }
    ensures least { least_segment ≤ result }
    ensures most { result ≤ largest_segment }
{
    match mss {
        Some(mss) => mss.clamp(SHORTEST_SEGMENT, SEGMENT),
        None => 536,
    }
}

/// Returns the size of a segment's text, in bytes, for a peer whose SYN offers `mss` and has these timestamps: each segment then carries timestamps too
/// (RFC 9293, 3.7.1; RFC 7323, 3.2).
pub fn text_size(mss: Option<u16>, timestamps: Option<Timestamps>) -> u16
    ensures size { result ≡ text_size mss timestamps }
    ensures least { least_segment ≤ result }
    ensures most { result ≤ largest_segment }
{
    let size = segment_size(mss);
    match timestamps {
        Some(_) => size.saturating_sub(TIMESTAMPS_LENGTH).max(SHORTEST_SEGMENT),
        None => size,
    }
}
