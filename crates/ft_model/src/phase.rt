//! The phases of a client.

/// The state of a client's connection.
#[derive(Clone, Copy, Debug, PartialEq, Eq)]
pub enum Phase {
    /// Nothing was sent.
    New,
    /// The SYN was sent, and no SYN-ACK has arrived.
    Opening,
    /// The SYN-ACK has arrived. The report prints `open`.
    Established,
    /// The server's FIN was accepted.
    Ended,
    /// The connection was reset, by either side.
    Reset,
}
