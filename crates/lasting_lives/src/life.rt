//! What the server knows of a key besides what its node has: the watch of a live connection, or the quarantine of one that is done.

ghost use Rattle.std.specs.Prelude.{◌≡◌, nat_le};
ghost use Rattle.seq_arith.specs.Packet.{Segment};
ghost use Rattle.seq_arith.specs.Value.{said};
ghost use Rattle.lasting_laws.specs.Closing.{is_newer, end_of_head};
ghost use Rattle.logger_wire.specs.Records.{head_said};
ghost use Rattle.forget_wire.specs.Value.{named_said};
ghost use Rattle.long_laws.specs.Quarantine.{Quarantined, begun, named_head, is_leaving, is_same};
ghost use Rattle.ft_model.specs.Opening.{is_syn as is_syn_segment};
ghost use Rattle.lasting_lives.specs.Lives.{older, older_resting, left, left_resting, receipt};
ghost use Rattle.lasting_lives.specs.Watches.{QuarantineStands};

use crate::watch::Watch;
use forget_wire::Named;
use logger_wire::EntryHead;
use segment_codec::Head;
use seq_arith::{ACK, RST, SYN, Seq, has};

/// A connection that is done, in quarantine.
#[derive(Clone, Copy)]
pub struct Resting {
    pub named: Named,
    /// The number after its client's last one.
    pub end: Seq,
    /// In ticks since it is done; it stops at `u32::MAX`.
    pub age: u32,
}

/// What the server knows of a key.
#[derive(Clone, Copy)]
pub enum Life {
    Watched(Watch),
    Resting(Resting),
}

impl Resting {
    /// The connection of an entry that was fetched as done.
    pub fn fetched(head: &EntryHead) -> Resting
        ensures { QuarantineStands result (begun (named_head (head_said head.now))) × (result.end.0 ≡ end_of_head (head_said head.now)) }
    {
        Resting {
            named: Named {
                key: head.key,
                cisn: head.cisn,
                sisn: head.sisn,
            },
            end: Seq(head.cisn)
                .add(1)
                .add(head.length)
                .add(u32::from(head.fin)),
            age: 0,
        }
    }

    /// Notes that a tick has passed.
    pub fn tick(&mut self)
        ensures { self.new ≡ older_resting self.old }
    {
        self.age = self.age.saturating_add(1);
    }

    /// Whether its quarantine of `wait` ticks is over.
    pub fn is_leaving(&self, wait: u32) -> bool
        ensures law { (q : Quarantined) → QuarantineStands self.now q → result ≡ is_leaving wait q }
        ensures age { result ≡ nat_le wait self.now.age }
    {
        self.age >= wait
    }

    /// Ends its quarantine of `wait` ticks.
    pub fn leave(&mut self, wait: u32)
        ensures { self.new ≡ left_resting wait self.old }
    {
        self.age = self.age.max(wait);
    }

    /// Whether a segment is the SYN of a new connection: one above the old connection's last number (RFC 9293, 3.6.1).
    pub fn is_before(&self, head: &Head) -> bool
        ensures { (segment : Segment) → segment.head ≡ said head.now → result ≡ is_newer self.now.end.0 segment }
    {
        is_syn(head) && self.end.le(head.seq)
    }

    /// Whether a message names this connection.
    pub fn is_named(&self, named: &Named) -> bool
        ensures { (q : Quarantined) → QuarantineStands self.now q → result ≡ is_same q.named (named_said named.now) }
    {
        self.named.key == named.key
            && self.named.cisn == named.cisn
            && self.named.sisn == named.sisn
    }
}

impl Life {
    /// Notes that a packet of its client came.
    pub fn receive(&mut self)
        ensures { self.new ≡ receipt self.old }
    {
        if let Life::Watched(watch) = self {
            watch.receive();
        }
    }

    /// Ends its quarantine of `wait` ticks.
    pub fn leave(&mut self, wait: u32)
        ensures { self.new ≡ left wait self.old }
    {
        if let Life::Resting(resting) = self {
            resting.leave(wait);
        }
    }

    /// Notes that a tick has passed.
    pub fn tick(&mut self)
        ensures { self.new ≡ older self.old }
    {
        match self {
            Life::Watched(watch) => watch.tick(),
            Life::Resting(resting) => resting.tick(),
        }
    }
}

/// Whether a segment has SYN, without ACK and RST.
fn is_syn(head: &Head) -> bool
    ensures { (segment : Segment) → segment.head ≡ said head.now → result ≡ is_syn_segment segment }
{
    has(head.flags, SYN) && !has(head.flags, ACK) && !has(head.flags, RST)
}
