//! Two connected endpoints that hand their packets to one another, and their users. A user's turn is: what came is taken, read and
//! answered, and the turn's segments go out. One segment is under way at a time, and it acknowledges the one before; or a window of them is.

use crate::SERVER;
use ft_io::{Addr, NoMemory};
use segment_codec::read_packet;
use seq_arith::Seq;
use socket_layer::Socket;
use std::alloc::Global;
use tcp_endpoint::{Endpoint, Outbox, State, StateName};
use test_data::PatternTable;

const CLIENT: Addr = Addr {
    ip: 0xC000_0201,
    port: 40_000,
};

/// The right edge of a connection's receive window never passes this many bytes.
const LIMIT: u32 = 1 << 30;

/// The most bytes in flight if a full window may be in flight: 44 full segments.
const WINDOW: u32 = 64_240;

/// At most this many ticks pass.
const TICKS: u32 = 10_000_000;

/// How the packets of a turn reach the other end.
#[derive(Clone, Copy, Debug, PartialEq, Eq)]
pub(crate) enum Way {
    /// One segment is under way at a time.
    Single,
    /// A window of them is, and they come in order.
    Window,
    /// The same, and of each two the second one comes first.
    Swapped,
    /// They come in order, and one packet of 100 is lost.
    Lossy,
}

impl Way {
    /// The most reads and writes of a turn.
    fn calls(self) -> u32 {
        if self == Way::Single { 1 } else { 45 }
    }

    /// The place of the packet that comes as number `i`.
    fn place(self, i: usize, len: usize) -> usize {
        let other = if i % 2 == 0 {
            i.wrapping_add(1)
        } else {
            i.wrapping_sub(1)
        };
        if self == Way::Swapped && other < len {
            other
        } else {
            i
        }
    }
}

/// One end, with what it sent last.
#[derive(Drop)]
pub(crate) struct Side {
    endpoint: Endpoint,
    out: Outbox,
    /// How many packets were sent to it.
    due: u32,
    /// How many segments it sent in all.
    pub(crate) segments: u64,
}

impl Side {
    /// The client, which connects, or the server, which listens.
    fn new(alloc: Global, connects: bool) -> Result<Side, NoMemory> {
        let endpoint = if connects {
            Endpoint::connect(alloc, CLIENT, SERVER, Seq(1_000), LIMIT)?
        } else {
            Endpoint::listen(alloc, SERVER, Seq(5_000), LIMIT)?
        };
        Ok(Side {
            endpoint,
            out: Outbox::new(alloc)?,
            due: 0,
            segments: 0,
        })
    }

    /// Takes what the other end sent last. With one segment in flight this is at most one packet, since a FIN has a segment of its own.
    fn receive(&mut self, sent: &Outbox, way: Way) {
        for i in 0..sent.len() {
            let place = way.place(i, sent.len());
            self.due = self.due.wrapping_add(1);
            let is_lost = way == Way::Lossy && self.due % 100 == 0;
            if !is_lost && place < sent.len() {
                if let Ok(packet) = read_packet(sent.packet(place)) {
                    self.endpoint.on_packet(packet);
                }
            }
        }
    }

    /// Ends the turn.
    fn flush(&mut self) {
        self.out.clear();
        self.endpoint.flush(&mut self.out);
        self.segments = self.segments.saturating_add(self.out.len() as u64);
    }

    pub(crate) fn state(&self) -> State {
        self.endpoint.state()
    }
}

/// A client and a server, and how far the echo is.
#[derive(Drop)]
pub(crate) struct Exchange {
    pub(crate) client: Side,
    pub(crate) server: Side,
    pattern: PatternTable,
    buf: [u8; limits::TEXT],
    way: Way,
    /// The ticks that passed because nothing else came.
    pub(crate) ticks: u32,
    /// The bytes of a write.
    write: usize,
    bytes: u32,
    written: u32,
    /// How many bytes came back.
    pub(crate) echoed: u32,
    differs: bool,
}

impl Exchange {
    /// Nothing is sent yet.
    pub(crate) fn new(
        alloc: Global,
        bytes: u32,
        write: usize,
        way: Way,
    ) -> Result<Exchange, NoMemory> {
        Ok(Exchange {
            client: Side::new(alloc, true)?,
            server: Side::new(alloc, false)?,
            pattern: PatternTable::new(),
            buf: [0; limits::TEXT],
            way,
            ticks: 0,
            write,
            bytes,
            written: 0,
            echoed: 0,
            differs: false,
        })
    }

    /// The sides take turns until neither sends a segment, and then the four ticks of TIME-WAIT. Where packets are lost, ticks pass until all is over.
    pub(crate) fn run(&mut self) {
        for _ in 0..u64::MAX {
            self.client_turn();
            self.server_turn();
            if self.client.out.is_empty() && self.server.out.is_empty() {
                // Both ends have closed, and the client's wait is all that is left.
                let client = self.client.state().name;
                let is_over = self.server.state().name == StateName::Closed
                    && (client == StateName::TimeWait || client == StateName::Closed);
                if self.way != Way::Lossy || is_over || self.ticks >= TICKS {
                    break;
                }
                self.ticks = self.ticks.wrapping_add(1);
                self.client.endpoint.on_tick();
                self.server.endpoint.on_tick();
            }
        }
        for _ in 0..4 {
            self.client.endpoint.on_tick();
            self.client.flush();
        }
    }

    /// Reads what came back, and writes the next bytes, or closes after the last.
    fn client_turn(&mut self) {
        self.client.receive(&self.server.out, self.way);
        for _ in 0..self.way.calls() {
            let count = self.client.endpoint.read(&mut self.buf);
            let expected = self.pattern.part(self.echoed, count);
            self.differs = self.differs || &self.buf[..count] != expected;
            self.echoed = self.echoed.saturating_add(count as u32);
            if count == 0 {
                break;
            }
        }
        // The bytes that may be under way before the next write.
        let window = if self.way == Way::Single { 1 } else { WINDOW };
        for _ in 0..self.way.calls() {
            if self.written.saturating_sub(self.echoed) >= window {
                break;
            }
            let left = self.bytes.saturating_sub(self.written);
            if left == 0 {
                self.client.endpoint.close();
                continue;
            }
            let next = self
                .pattern
                .part(self.written, self.write.min(left as usize));
            let count = self.client.endpoint.write(next);
            self.written = self.written.saturating_add(count as u32);
        }
        self.client.flush();
    }

    /// Echoes all that came, as far as there is room to write it, and closes after the peer's end.
    fn server_turn(&mut self) {
        self.server.receive(&self.client.out, self.way);
        for _ in 0..self.way.calls() {
            let room = self.server.endpoint.room().min(limits::TEXT);
            let buf = &mut self.buf[..];
            let count = self
                .server
                .endpoint
                .read(&mut buf[..room])
                .min(limits::TEXT);
            let _written = self.server.endpoint.write(&self.buf[..count]);
            if count == 0 {
                break;
            }
        }
        if self.server.endpoint.ended() {
            self.server.endpoint.close();
        }
        self.server.flush();
    }

    /// Whether all bytes came back as they were written.
    pub(crate) fn is_whole(&self) -> bool {
        !self.differs && self.echoed == self.bytes
    }
}
