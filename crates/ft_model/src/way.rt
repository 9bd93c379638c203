//! The direction of a packet.

/// A packet's sender and receiver. Clients are numbered from 1.
#[derive(Clone, Copy)]
pub enum Way {
    ClientToServer(u8),
    ServerToClient(u8),
    ServerToLogger,
    LoggerToServer,
    /// From the head of two loggers to the tail.
    HeadToTail,
    /// From the tail to the head.
    TailToHead,
}
