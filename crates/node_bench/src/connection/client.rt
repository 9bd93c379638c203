//! A client: an endpoint whose user writes a stream and compares what comes back. One segment is under way at a time.

use crate::SERVER;
use crate::logger::CLIENT_ISN;
use ft_io::{Addr, Key, NoMemory};
use limits::STREAM;
use segment_codec::read_packet;
use socket_layer::Socket;
use std::alloc::Global;
use tcp_endpoint::{Endpoint, Outbox, StateName};
use test_data::PatternTable;

/// What each client does.
#[derive(Clone, Copy, Debug)]
pub(crate) struct Work {
    pub(crate) bytes: u32,
    /// The bytes of a write, at most those of a segment.
    pub(crate) write: usize,
}

/// The client's side of a connection, and how far the echo is.
#[derive(Drop)]
pub(crate) struct Client {
    endpoint: Endpoint,
    work: Work,
    pattern: PatternTable,
    buf: [u8; limits::TEXT],
    written: u32,
    /// How many bytes came back.
    pub(crate) echoed: u32,
    differs: bool,
    /// How many segments it sent.
    pub(crate) segments: u64,
}

impl Client {
    /// Nothing is sent yet.
    pub(crate) fn new(alloc: Global, key: Key, work: Work) -> Result<Client, NoMemory> {
        let local = Addr {
            ip: key.ip,
            port: key.port,
        };
        Ok(Client {
            endpoint: Endpoint::connect(alloc, local, SERVER, CLIENT_ISN, STREAM)?,
            work,
            pattern: PatternTable::new(),
            buf: [0; limits::TEXT],
            written: 0,
            echoed: 0,
            differs: false,
            segments: 0,
        })
    }

    /// Takes what the server sent.
    pub(crate) fn receive(&mut self, sent: &Outbox) {
        for i in 0..sent.len() {
            if let Ok(packet) = read_packet(sent.packet(i)) {
                self.endpoint.on_packet(packet);
            }
        }
    }

    /// Ends the endpoint's turn.
    pub(crate) fn flush(&mut self, out: &mut Outbox) {
        out.clear();
        self.endpoint.flush(out);
        self.segments = self.segments.saturating_add(out.len() as u64);
    }

    /// The user's turn: what came back is read, and the next bytes are written where all came back. After the last the user closes.
    pub(crate) fn turn(&mut self) {
        let count = self.endpoint.read(&mut self.buf);
        let expected = self.pattern.part(self.echoed, count);
        self.differs = self.differs || &self.buf[..count] != expected;
        self.echoed = self.echoed.saturating_add(count as u32);
        if self.written != self.echoed {
            return;
        }
        let left = self.work.bytes.saturating_sub(self.written);
        if left == 0 {
            self.endpoint.close();
            return;
        }
        let next = self
            .pattern
            .part(self.written, self.work.write.min(left as usize));
        let count = self.endpoint.write(next);
        self.written = self.written.saturating_add(count as u32);
    }

    pub(crate) fn tick(&mut self) {
        self.endpoint.on_tick();
    }

    /// Whether all bytes came back as they were written, and the connection is closed.
    pub(crate) fn is_whole(&self) -> bool {
        let closed = matches!(self.endpoint.state().name, StateName::Closed);
        closed && !self.differs && self.echoed == self.work.bytes
    }
}
