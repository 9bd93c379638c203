//! The bytes received in order that the user hasn't read, and after them those received out of order.

ghost use Rattle.limits.specs.Limits.{buffer_size};
ghost use Rattle.std.specs.Prelude.{◌≡◌, ℕ, ◌+◌, ◌-◌, ◌<◌, ◌≤◌, ◌==◌, [], ◌++◌, length, min, take, drop, nat_le, nat_lt, IfOk};
ghost use Rattle.tcp_rules.specs.Early.{laid, run_count, front_run, holds_some, held_with, most_runs};
ghost use Rattle.tcp_buffers.specs.Queue.{empty_queue, pushed, added_by};

use crate::QUEUE_ROOM;
use crate::copying::copy_behind;
use crate::early_runs::EarlyRuns;
use crate::overwriting::overwrite;
use circular_buffer::HeapCircularBuffer;
use ft_io::NoMemory;
use std::alloc::Global;
use std::marker::Model;

/// A queue of received bytes, at most 65,535 including those out of order (RFC 9293, 3.10.7.4, seventh check). In contracts it is the bytes in order, the
/// oldest first, and after them places that each hold a byte or none.
#[derive(Drop)]
pub struct RecvQueue {
    /// The bytes that are in order and not read, the oldest first, and after them those out of order, with arbitrary bytes in the gaps. There is room for
    /// 65,535.
    bytes: HeapCircularBuffer<u8>,
    /// How many are in order.
    in_order: usize,
    /// Which of the others are held.
    early: EarlyRuns,
}

impl Model for RecvQueue {
    ghost use Rattle.limits.specs.Limits.{buffer_size};
    ghost use Rattle.std.specs.Prelude.{◌≡◌, take, drop};
    ghost use Rattle.tcp_buffers.specs.Queue.{Queue};
    ghost use Rattle.tcp_buffers.specs.Runs.{QueueInvariant, marked};

    ghost Value = { Queue };

    ghost view = { λ q. record { unread = take q.in_order q.bytes.items; early = marked 0 q.early (drop q.in_order q.bytes.items) } };

    ghost invariant = { λ q. (q.bytes.capacity ≡ buffer_size) × QueueInvariant q.bytes.items q.in_order q.early };
}

impl RecvQueue {
    /// Creates an empty queue, and allocates all its room. Fails where an allocation fails.
    pub fn new(alloc: Global) -> Result<RecvQueue, NoMemory>
        ensures { IfOk result (λ queue. queue ≡ empty_queue) }
    {
        let bytes = HeapCircularBuffer::with_capacity(alloc, QUEUE_ROOM)?;
        Ok(RecvQueue {
            bytes,
            in_order: 0,
            early: EarlyRuns::new(),
        })
    }

    /// Returns the number of bytes in order.
    pub fn len(&self) -> usize
        ensures count { result ≡ length self.now.unread }
        ensures most { result ≤ 65535 }
    {
        self.in_order
    }

    /// Returns whether no byte is in order.
    pub fn is_empty(&self) -> bool
        ensures { result ≡ (length self.now.unread == 0) }
    {
        self.in_order == 0
    }

    /// Appends the first bytes of `bytes`, as many as fit, in place of what was held there, and then the held bytes that continue them. Returns how many
    /// bytes are added to those in order.
    pub fn push(&mut self, bytes: &[u8]) -> usize
        ensures count { result ≡ length (added_by bytes.now self.old) }
        ensures state { self.new ≡ pushed bytes.now self.old }
    {
        if self.early.is_empty() {
            return self.append(bytes);
        }
        self.fill_gap(bytes)
    }

    /// Does what `push` does, where nothing is held.
    fn append(&mut self, bytes: &[u8]) -> usize
        requires { length self.old.early ≡ 0 }
        ensures count { result ≡ length (added_by bytes.now self.old) }
        ensures state { self.new ≡ pushed bytes.now self.old }
    {
        let count = self.bytes.fill_from_slice(bytes);
        self.in_order += count;
        count
    }

    /// Does what `push` does, where something may be held.
    fn fill_gap(&mut self, bytes: &[u8]) -> usize
        ensures count { result ≡ length (added_by bytes.now self.old) }
        ensures state { self.new ≡ pushed bytes.now self.old }
    {
        let fitting = bytes.len().min(QUEUE_ROOM - self.in_order);
        overwrite(&mut self.bytes, self.in_order, &bytes[..fitting]);
        let grown = self.early.grow(fitting);
        self.in_order += grown;
        grown
    }

    /// Holds out-of-order bytes that begin `at` bytes after the end of those in order. Returns false, and holds none of them, where the places held would form
    /// more than sixteen runs.
    pub fn hold(&mut self, at: usize, bytes: &[u8]) -> bool
        requires ahead { 0 < at }
        requires fits { length self.old.unread + at + length bytes.now ≤ buffer_size }
        ensures held { result ≡ nat_le (run_count (laid at bytes.now self.old.early)) most_runs }
        ensures state { self.new ≡ record self.old { early = held_with at bytes.now self.old.early } }
    {
        if bytes.is_empty() {
            self.few();
            return true;
        }
        if !self.early.cover(at, at + bytes.len()) {
            return false;
        }
        overwrite(&mut self.bytes, self.in_order + at, bytes);
        true
    }

    /// Returns where the last held byte ends, counted from the end of the bytes in order; 0 where no byte is held.
    pub fn held_to(&self) -> usize
        ensures held { (k : ℕ) → holds_some (drop k self.now.early) ≡ nat_lt k result }
        ensures places { result ≡ length self.now.early }
    {
        self.bytes.len() - self.in_order
    }

    /// A fact for proofs: no held byte continues those in order.
    pub fn has_gap(&self)
        ensures { front_run self.now.early ≡ [] }
    {
        let _in_order = self.in_order;
    }

    /// A fact for proofs: at most sixteen runs are held.
    fn few(&self)
        ensures { run_count self.now.early ≤ most_runs }
    {
        let _none = self.early.is_empty();
    }

    /// Moves the oldest bytes to the beginning of `buf`, as many as fit, and returns how many. The rest of `buf` stays.
    pub fn read(&mut self, buf: &mut [u8]) -> usize
        ensures count { result ≡ min (length self.old.unread) (length buf.old) }
        ensures bytes { buf.new ≡ take result self.old.unread ++ drop result buf.old }
        ensures state { self.new ≡ record self.old { unread = drop result self.old.unread } }
    {
        let most = self.in_order.min(buf.len());
        let count = self.bytes.read_into(&mut buf[..most]);
        self.in_order -= count;
        count
    }

    /// Copies the bytes in order, from place `from` on, to the beginning of `out`, as many as there are and fit, and returns how many. None is consumed, and
    /// the rest of `out` stays.
    pub fn peek(&self, from: usize, out: &mut [u8]) -> usize
        ensures count { result ≡ min (length self.now.unread - from) (length out.old) }
        ensures bytes { out.new ≡ take result (drop from self.now.unread) ++ drop result out.old }
    {
        let most = self.in_order.saturating_sub(from).min(out.len());
        copy_behind(&self.bytes, from, &mut out[..most])
    }

    /// Drops all bytes.
    pub fn clear(&mut self)
        ensures { self.new ≡ empty_queue }
    {
        self.bytes.clear();
        self.in_order = 0;
        self.early = EarlyRuns::new();
    }
}
