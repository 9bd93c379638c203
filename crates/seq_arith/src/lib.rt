//! Numbers modulo 2^32, the Internet checksum, and the definitions of packets and messages as values and as bytes. Nothing here allocates.
#![tactic(auto)]

ghost use Rattle.std.specs.Prelude.{◌≡◌, ◌+◌, ◌%◌, ◌^◌};
ghost use Rattle.seq_arith.specs.Number.{distance, gap, precedes, precedes_or_is, is_in_window};

pub use checksum::{Sum16, patch16};
pub use damage::flip;
pub use flags::{ACK, CWR, ECE, FIN, PSH, RST, SYN, URG, has};
pub use head::Head;
pub use kinds::{BadMsg, Field, Grammar, Kind};
pub use mark::{BadMark, MarkKind};
pub use options::{Timestamps, segment_size, text_size};
pub use twin::{BadTwin, TwinKind};

mod checksum;
mod damage;
mod flags;
mod head;
mod kinds;
pub mod laws;
mod mark;
mod options;
mod twin;

/// Why a string of bytes is no packet: the first test of the packet grammar that it fails, in this order.
#[derive(Clone, Copy, Debug, PartialEq, Eq)]
pub enum BadPacket {
    /// There are fewer than 40 bytes.
    Short,
    /// The IP version isn't 4.
    Version,
    /// The IP header isn't 20 bytes long.
    HeaderLength,
    /// The total length isn't the count of bytes.
    TotalLength,
    /// It is a fragment.
    Fragment,
    /// It isn't TCP.
    Protocol,
    /// The IP header doesn't sum to its checksum.
    IpChecksum,
    /// The TCP header is below 20 bytes, or runs past the packet.
    DataOffset,
    /// An option has no length, or one below 2, or runs past the header.
    OptionLength,
    /// The addresses, the TCP header and the payload don't sum to their checksum.
    TcpChecksum,
    /// There are more than 1,500 bytes.
    TooLong,
}

/// A sequence number of TCP, modulo 2^32 (RFC 9293, 3.4).
#[derive(Clone, Copy, PartialEq, Eq)]
pub struct Seq(pub u32);

impl Seq {
    /// Returns the number `n` further on.
    pub fn add(self, n: u32) -> Seq
        ensures { result.0 ≡ (self.0 + n) % 2 ^ 32 }
    {
        Seq(self.0.wrapping_add(n))
    }

    /// Returns how far this number is past `from`: the n with `from.add(n) == self`.
    pub fn minus(self, from: Seq) -> u32
        ensures { result ≡ distance self.0 from.0 }
    {
        self.0.wrapping_sub(from.0)
    }

    /// Returns whether this number is less than `other` in TCP's order: `other` is 1 to 2^31 - 1 further on.
    pub fn lt(self, other: Seq) -> bool
        ensures { result ≡ precedes self.0 other.0 }
    {
        let n = other.minus(self);
        0 < n && n < 1 << 31
    }

    /// Returns whether `other` is this number or comes after it in TCP's order.
    pub fn le(self, other: Seq) -> bool
        ensures { result ≡ precedes_or_is self.0 other.0 }
    {
        self.0 == other.0 || self.lt(other)
    }

    /// Returns whether this is one of the `len` numbers from `first` on.
    pub fn in_window(self, first: Seq, len: u32) -> bool
        ensures { result ≡ is_in_window self.0 first.0 len }
    {
        self.minus(first) < len
    }

    /// Returns the signed distance from `from` to this number: the only one from -2^31 to 2^31 - 1 that equals their difference modulo 2^32.
    pub fn signed_gap(self, from: Seq) -> i64
        ensures { result ≡ gap self.0 from.0 }
    {
        let n = i64::from(self.minus(from));
        if n < 1 << 31 { n } else { n - (1 << 32) }
    }
}
