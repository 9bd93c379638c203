//! The two loggers of a world.

ghost use Rattle.std.specs.Prelude.{◌≡◌, ◌||◌, not, false, IfOk, OnOk};
ghost use Rattle.schedule_network.specs.Loggers.{new_loggers, serving_log, stopped, head_receives, tail_receives, front_receives, pair_receives};

use crate::answers::keep_datagrams;
use crate::packets::Packets;
use ft_io::NoMemory;
use ft_model::Way;
use logger_store::LogStore;
use logger_wire::Grammar;
use std::alloc::Global;
use std::marker::Model;
use twin_log::{Part, Side, TwinLog, TwinOut};

/// A head and a tail. One of them serves alone exactly if the other has stopped.
#[derive(Drop)]
pub struct LogPair {
    head: TwinLog,
    tail: TwinLog,
    /// What one of them sends in a turn.
    out: TwinOut,
}

impl Model for LogPair {
    ghost use Rattle.schedule_network.specs.Loggers.{Loggers};

    ghost Value = { Loggers };

    ghost view = { λ p. record { head = p.head; tail = p.tail } };
}

impl LogPair {
    /// Creates two running loggers with empty logs and messages of this grammar.
    pub fn new(alloc: Global, grammar: Grammar) -> Result<LogPair, NoMemory>
        ensures { IfOk result (λ pair. pair ≡ new_loggers grammar) }
    {
        Ok(LogPair {
            head: TwinLog::new_by(alloc, grammar, Part::Head)?,
            tail: TwinLog::new_by(alloc, grammar, Part::Tail)?,
            out: TwinOut::new(alloc)?,
        })
    }

    /// Returns the log that serves: the tail's, until the tail stops.
    pub fn log(&self) -> &LogStore
        ensures { result.now ≡ serving_log self.now }
    {
        if self.tail_runs() {
            return self.tail.log();
        }
        self.head.log()
    }

    /// Returns whether the head still runs.
    fn head_runs(&self) -> bool
        ensures { result ≡ not self.now.tail.alone }
    {
        !self.tail.is_alone()
    }

    /// Returns whether the tail still runs.
    fn tail_runs(&self) -> bool
        ensures { result ≡ not self.now.head.alone }
    {
        !self.head.is_alone()
    }

    /// Returns whether one of them has stopped.
    pub fn has_stopped(&self) -> bool
        ensures { result ≡ (self.now.tail.alone || self.now.head.alone) }
    {
        self.tail.is_alone() || self.head.is_alone()
    }

    /// Stops one of them. The other serves alone from now on.
    pub fn stop(&mut self, part: Part)
        requires head { self.old.head.alone ≡ false }
        requires tail { self.old.tail.alone ≡ false }
        ensures { self.new ≡ stopped part self.old }
    {
        match part {
            Part::Head => self.tail.alone(),
            Part::Tail => self.head.alone(),
        }
    }

    /// Passes bytes to the head, and stores what it sends.
    fn head_receives(
        &mut self,
        alloc: Global,
        from: Side,
        bytes: &[u8],
        packets: &mut Packets,
    ) -> Result<(), NoMemory>
        ensures { OnOk result ((self.new, packets.new) ≡ head_receives from bytes.now (self.old, packets.old)) }
    {
        if !self.head_runs() {
            return Ok(());
        }
        self.head.deliver(alloc, from, bytes, &mut self.out)?;
        keep_datagrams(Part::Head, &self.out, packets)
    }

    /// Passes bytes to the tail, and stores what it sends.
    fn tail_receives(
        &mut self,
        alloc: Global,
        from: Side,
        bytes: &[u8],
        packets: &mut Packets,
    ) -> Result<(), NoMemory>
        ensures { OnOk result ((self.new, packets.new) ≡ tail_receives from bytes.now (self.old, packets.old)) }
    {
        if !self.tail_runs() {
            return Ok(());
        }
        self.tail.deliver(alloc, from, bytes, &mut self.out)?;
        keep_datagrams(Part::Tail, &self.out, packets)
    }

    /// Passes bytes of the server to the head, or to the tail once the head has stopped.
    fn front_receives(
        &mut self,
        alloc: Global,
        bytes: &[u8],
        packets: &mut Packets,
    ) -> Result<(), NoMemory>
        ensures { OnOk result ((self.new, packets.new) ≡ front_receives bytes.now (self.old, packets.old)) }
    {
        if self.head_runs() {
            return self.head_receives(alloc, Side::Server, bytes, packets);
        }
        self.tail_receives(alloc, Side::Server, bytes, packets)
    }

    /// Passes bytes of this direction to the logger to which it leads, and stores what that logger sends.
    pub fn receive(
        &mut self,
        alloc: Global,
        way: Way,
        bytes: &[u8],
        packets: &mut Packets,
    ) -> Result<(), NoMemory>
        ensures { OnOk result ((self.new, packets.new) ≡ pair_receives way bytes.now (self.old, packets.old)) }
    {
        match way {
            Way::ServerToLogger => self.front_receives(alloc, bytes, packets),
            Way::HeadToTail => self.tail_receives(alloc, Side::Other, bytes, packets),
            Way::TailToHead => self.head_receives(alloc, Side::Other, bytes, packets),
            Way::ClientToServer(_) | Way::ServerToClient(_) | Way::LoggerToServer => Ok(()),
        }
    }
}
