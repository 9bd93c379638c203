//! What a datagram between two loggers says.

/// A datagram between two loggers. A Forward borrows its message from the bytes of the datagram.
#[derive(Clone, Copy)]
pub enum TwinMsg<'a> {
    /// A server's message, 16 to 1,491 bytes as they arrived, with its number, at least 1.
    Forward { number: u64, message: &'a [u8] },
    /// All messages up to this number, at least 1, are applied.
    Got { number: u64 },
    /// The other logger has stopped.
    Alone,
}
