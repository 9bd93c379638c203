//! The events of a schedule, and why one may not happen.

/// One turn of one actor. Clients are numbered from 1 in the schedule's order, and packets from 1 over the whole run.
#[derive(Clone, Copy)]
pub enum Event {
    /// The server starts, with its boot number and the initial sequence number of its first connection.
    Boot { boot: u64, isn: u32 },
    /// The server crashes, and all its state is lost.
    Crash,
    /// A tick of the server's clock.
    Tick,
    /// A packet reaches its addressee, for the first time or again.
    Deliver { packet: u32 },
    /// A packet reaches its addressee with one bit changed.
    Flip { packet: u32, bit: u32 },
    /// A client sends its SYN.
    Begin { client: u8, window: u16 },
    /// A client sends `len` bytes of its script from offset `from` on.
    Send { client: u8, from: u32, len: u32 },
    /// A client sends its FIN.
    Fin { client: u8 },
    /// A client sends a pure ACK.
    Ack { client: u8, window: u16 },
    /// A client resets its connection.
    Reset { client: u8 },
    /// One of two loggers stops, and the other learns of it: 1 is the head, 2 the tail.
    Stop { part: u8 },
}

/// Why an event may not happen, in the order of the tests.
#[derive(Clone, Copy, Debug, PartialEq, Eq)]
pub enum EventWhy {
    /// A boot while the server is up.
    Up,
    /// A boot whose number is not larger than every earlier one.
    Boot,
    /// A crash or a tick while the server is down.
    Down,
    /// A packet that was not sent.
    Packet,
    /// A bit past the packet's end.
    Bit,
    /// A stop where there is only one logger, or after another stop.
    Stop,
    /// A client that the schedule does not have.
    Client,
    /// A move that the client's state does not allow.
    State,
    /// Text outside the range that may be sent, or a FIN before the whole script is sent.
    Range,
}
