//! The lines of a schedule as values: the kind of line that its first word names, what a well-formed line says, and what the lines read so far spell
//! together.

use crate::event::Event;
use crate::schedule::{ClientLine, Lasting, Schedule, ServiceKind};
use ft_io::Addr;
use tcp_rules::Profile;

/// The first word of an event's line.
#[derive(Clone, Copy, PartialEq, Eq)]
pub enum Verb {
    Boot,
    Crash,
    Tick,
    Deliver,
    Flip,
    Open,
    Send,
    Fin,
    Ack,
    Reset,
    Stop,
}

/// The first word of a line, which names the kind of line.
#[derive(Clone, Copy)]
pub enum Keyword {
    Service,
    Server,
    Profile,
    Twin,
    Marks,
    Lasting,
    Client,
    Event(Verb),
}

/// What a well-formed line says.
#[derive(Drop)]
pub enum Line {
    Service(ServiceKind),
    Server(Addr),
    /// The server has this profile.
    Profile(Profile),
    /// There are two loggers.
    Twin,
    /// The server marks the log after this many reads.
    Marks(u32),
    /// The server is one that lasts, and waits so long.
    Lasting(Lasting),
    Client(ClientLine),
    Event(Event),
}

/// What the lines read so far spell.
#[derive(Drop)]
pub enum Draft {
    /// Nothing: the service line comes next.
    Empty,
    /// A service: the server line comes next.
    Named(ServiceKind),
    /// A schedule, to which clients and events may be added.
    Begun(Schedule),
}
