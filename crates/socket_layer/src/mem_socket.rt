//! A socket in memory, for cases of code that uses a socket: what the peer sent is given, and what is written to the peer is stored.

ghost use Rattle.std.specs.Prelude.{◌≡◌, ◌-◌, ◌==◌, ◌&&◌, ◌++◌, [], false, length, min, take, drop, IfOk};

use crate::Socket;
use std::alloc::{AllocError, Global};
use std::marker::Model;

/// A socket in memory: what the peer sent, with the bytes before `at` read, and what was written to the peer, at most 8 bytes.
#[derive(Drop)]
pub struct MemSocket {
    came: Vec<u8>,
    at: usize,
    has_end: bool,
    written: Vec<u8>,
    closed: bool,
}

impl Model for MemSocket {
    ghost use Rattle.std.specs.Prelude.{◌≤◌, drop, vec_len, vec_capacity};
    ghost use Rattle.socket_layer.specs.MemSocket.{MemSocket as Queues};

    ghost Value = { Queues };

    ghost view = { λ s. record {
      unread = drop s.at s.came.items;
      has_end = s.has_end;
      written = s.written.items;
      closed = s.closed;
    } };

    ghost invariant = { λ s. (s.at ≤ vec_len s.came) × (8 ≤ vec_capacity s.written) };
}

impl MemSocket {
    /// Returns an open socket with these bytes unread, the peer's last ones if `has_end`. Fails where an allocation fails.
    pub fn new(alloc: Global, came: Vec<u8>, has_end: bool) -> Result<MemSocket, AllocError>
        ensures { IfOk result (λ s. s ≡ record { unread = came.items; has_end = has_end; written = []; closed = false }) }
    {
        Ok(MemSocket {
            came,
            at: 0,
            has_end,
            written: Vec::with_capacity(alloc, 8)?,
            closed: false,
        })
    }

    /// All that was written.
    pub fn written(&self) -> &[u8]
        ensures { result.now ≡ self.now.written }
    {
        self.written.as_slice()
    }

    /// Whether its user has closed it.
    pub fn is_closed(&self) -> bool
        ensures { result ≡ self.now.closed }
    {
        self.closed
    }
}

impl Socket for MemSocket {
    ghost use Rattle.std.proofs.Common.{arith, length-append, refl};
    ghost use Rattle.socket_layer.specs.MemSocket.{room_of, read_from, written_to, closed_by_user};

    ghost unread = { λ s. s.unread };

    ghost has_end = { λ s. s.has_end };

    ghost write_room = { room_of };

    ghost is_closed = { λ s. s.closed };

    ghost after_read = { read_from };

    ghost after_write = { written_to };

    ghost after_close = { closed_by_user };

    ghost closed_has_no_room = { λ s closed. Prim.rw closed refl };

    ghost read_takes_the_front = { λ s n. refl };

    ghost read_keeps_the_end = { λ s n. refl };

    ghost read_keeps_the_room = { λ s n. refl };

    ghost read_keeps_open = { λ s n. refl };

    ghost write_fills_the_room = { λ s bytes. Prim.grind (arith, length-append) };

    ghost write_keeps_the_unread = { λ s bytes. refl };

    ghost write_keeps_the_end = { λ s bytes. refl };

    ghost write_keeps_open = { λ s bytes. refl };

    ghost close_closes = { λ s. refl };

    ghost close_keeps_the_unread = { λ s. refl };

    ghost close_keeps_the_end = { λ s. refl };

    fn readable(&self) -> usize {
        self.came.len() - self.at
    }

    fn read(&mut self, buf: &mut [u8]) -> usize {
        let n = self.readable().min(buf.len());
        buf[..n].copy_from_slice(&self.came[self.at..self.at + n]);
        self.at += n;
        n
    }

    fn room(&self) -> usize {
        if self.closed {
            0
        } else {
            8usize.saturating_sub(self.written.len())
        }
    }

    fn write(&mut self, bytes: &[u8]) -> usize {
        let n = self.room().min(bytes.len());
        self.written.extend_from_slice(&bytes[..n]).unwrap();
        n
    }

    fn close(&mut self) {
        self.closed = true;
    }

    fn ended(&self) -> bool {
        self.has_end && self.readable() == 0
    }
}
