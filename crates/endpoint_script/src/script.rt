//! A script as a value: ways and cases, each a list of steps. It borrows the words of its text.

use ft_io::Addr;
use std::alloc::Global;
use tcp_endpoint::{State, StateName};

/// A text that is written, read or carried by a segment.
#[derive(Clone, Copy)]
pub(crate) enum Text<'a> {
    /// The letters of a word.
    Word(&'a str),
    /// Pairs of hexadecimal digits.
    Hex(&'a str),
    /// So many bytes of the pattern, from a place of it on: the byte at place p is p modulo 251.
    Fill { count: u16, place: u32 },
}

/// What a segment says.
#[derive(Clone, Copy)]
pub(crate) struct Segment<'a> {
    pub(crate) flags: u8,
    pub(crate) seq: u32,
    pub(crate) ack: u32,
    pub(crate) window: u16,
    pub(crate) mss: Option<u16>,
    pub(crate) text: Text<'a>,
}

/// How an endpoint begins: an active open where `remote` is given.
#[derive(Clone, Copy)]
pub(crate) struct Opening {
    pub(crate) local: Addr,
    pub(crate) remote: Option<Addr>,
    pub(crate) isn: u32,
    /// The right edge of the receive window never passes this many bytes.
    pub(crate) limit: u32,
    /// Whether it measures round trips, and recovers the losses of one flight one after another.
    pub(crate) measures: bool,
}

/// A number that an endpoint shows.
#[derive(Clone, Copy)]
pub(crate) enum Quantity {
    Readable,
    Room,
    /// 1 where the peer's stream is read to its end, and else 0.
    Ended,
    Sent,
    Acked,
}

/// What happens to an endpoint, or what must be seen of it.
#[derive(Clone, Copy)]
pub(crate) enum Deed<'a> {
    Comes(Segment<'a>),
    Tick,
    EndTurn,
    Write {
        text: Text<'a>,
        taken: usize,
    },
    /// A read, or a peek where `from` is given.
    Read {
        from: Option<u16>,
        room: u16,
        text: Text<'a>,
    },
    Close,
    Leaves(Segment<'a>),
    Segments(u16),
    State(State),
    Shows(Quantity, u32),
}

/// One of two endpoints that are joined: its initial sequence number, and how many bytes its user writes.
#[derive(Clone, Copy)]
pub(crate) struct Joiner {
    pub(crate) isn: u32,
    pub(crate) bytes: u16,
}

/// Two endpoints that are joined by ways that lose, repeat and reorder.
#[derive(Clone, Copy)]
pub(crate) struct Join {
    pub(crate) client: Joiner,
    pub(crate) server: Joiner,
    pub(crate) seed: u64,
    pub(crate) turns: u32,
    /// Whether both measure round trips.
    pub(crate) measures: bool,
}

/// Hostile datagrams to endpoints that begin as the ways among the first parts of the script leave them, one way after the other.
#[derive(Clone, Copy)]
pub(crate) struct Hostile {
    pub(crate) count: u32,
    pub(crate) seed: u64,
    pub(crate) parts: usize,
}

/// What is counted of hostile datagrams.
#[derive(Clone, Copy)]
pub(crate) enum Counted {
    /// Datagrams that were handed to an endpoint in a state.
    Met(StateName),
    /// Datagrams that were handed to an endpoint.
    Handed,
    /// Datagrams that can't be read.
    Refused,
    /// Connections that were reset.
    Resets,
    /// Bytes that were read.
    Read,
    /// Units of the endpoints' own streams that were acknowledged.
    Acked,
}

/// What a step does or says.
#[derive(Clone, Copy)]
pub(crate) enum Action<'a> {
    Open(Opening),
    Deed(Deed<'a>),
    Join(Join),
    Hostile(Hostile),
    /// So much, at least, was counted since the script began.
    Tally(Counted, u32),
}

/// An action, and the line that asks for it.
#[derive(Clone, Copy)]
pub(crate) struct Step<'a> {
    pub(crate) line: u32,
    pub(crate) action: Action<'a>,
}

/// A way or a case. Its steps are those from this one on, up to the next part's. They begin with the steps of the way with which it begins.
#[derive(Clone, Copy)]
pub(crate) struct Part<'a> {
    pub(crate) is_way: bool,
    pub(crate) name: &'a str,
    pub(crate) start: usize,
}

/// A script, as far as it is read.
#[derive(Drop)]
pub(crate) struct Script<'a> {
    /// Its ways and cases, in their order.
    pub(crate) parts: Vec<Part<'a>>,
    /// How many of them there are up to the last way: 0 where none is a way.
    pub(crate) ways: usize,
    /// The steps of all of them.
    pub(crate) steps: Vec<Step<'a>>,
    /// How many lines were read. The last of them is the one that is refused, where one is.
    pub(crate) lines: u32,
}

impl<'a> Script<'a> {
    /// Nothing is read yet.
    pub(crate) fn new(alloc: Global) -> Script<'a> {
        Script {
            parts: Vec::new(alloc),
            ways: 0,
            steps: Vec::new(alloc),
            lines: 0,
        }
    }

    /// Where the steps of a part begin. They come after those of the parts before it.
    pub(crate) fn start(&self, number: usize) -> usize {
        match self.parts.get(number) {
            Some(part) => part.start,
            None => self.steps.len(),
        }
    }

    /// Whether the part with this number is a way.
    pub(crate) fn is_way(&self, number: usize) -> bool {
        match self.parts.get(number) {
            Some(part) => part.is_way,
            None => false,
        }
    }

    /// The steps of the part with this number, counted from 0.
    pub(crate) fn steps_of(&self, number: usize) -> &[Step<'a>] {
        let steps = self.steps.as_slice();
        let to = self.start(number.saturating_add(1)).min(steps.len());
        let from = self.start(number).min(to);
        &steps[from..to]
    }
}
