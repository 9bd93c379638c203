//! The kinds of datagrams between two loggers, and why a string of bytes is none.

/// Why a string of bytes is no datagram between two loggers: the first test of their grammar that it fails, in this order.
#[derive(Clone, Copy, PartialEq, Eq)]
pub enum BadTwin {
    /// There are fewer than 16 bytes.
    Short,
    /// The first two bytes aren't the magic.
    Magic,
    /// The version isn't 1.
    Version,
    /// The kind isn't 1 to 3.
    Kind,
    /// The length isn't the count of bytes, or isn't one of the kind's.
    Length,
    /// The datagram doesn't sum to its checksum.
    Sum,
    /// The number is outside its range, or the forwarded bytes are no message that a server sends.
    Field,
}

/// The kinds of datagrams between two loggers, each with its number on the wire.
#[derive(Clone, Copy)]
pub enum TwinKind {
    /// From the head to the tail: a server's message, with its number.
    Forward = 1,
    /// From the tail to the head: all messages up to this number are applied.
    Got = 2,
    /// The other logger has stopped. Only someone who has made sure of that may send this.
    Alone = 3,
}
