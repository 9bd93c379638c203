//! Which of two loggers is meant, and the sender of a datagram to one of them.

/// One of two loggers.
#[derive(Clone, Copy, PartialEq, Eq)]
pub enum Part {
    /// The one that takes the server's messages, numbers them and forwards them.
    Head,
    /// The one that applies them in that order and answers.
    Tail,
}

/// The other end of a logger's datagrams.
#[derive(Clone, Copy, PartialEq, Eq)]
pub enum Side {
    /// The server.
    Server,
    /// The other logger.
    Other,
}
