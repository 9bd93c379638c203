//! A live connection as its client knows it, and the segments by which the server asks the client for a sign of life, or lets go of it.

ghost use Rattle.std.specs.Prelude.{◌≡◌, [], false};
ghost use Rattle.seq_arith.specs.Value.{said};
ghost use Rattle.ft_model.specs.Point.{Point};
ghost use Rattle.lasting_laws.specs.Watching.{is_all_acknowledged, is_empty};
ghost use Rattle.long_laws.specs.LongTrace.{last_rst, keep_alive};
ghost use Rattle.lasting_lives.specs.Watches.{ShowsPoint, QuarantineStands, end_there};
ghost use Rattle.long_laws.specs.Quarantine.{begun, named_point};

use crate::life::Resting;
use forget_wire::Named;
use ft_io::{Addr, Key};
use segment_codec::Head;
use seq_arith::{ACK, RST, Seq};

/// The numbers of a live connection, in the client's sequence space.
#[derive(Clone, Copy)]
pub struct Outside {
    pub key: Key,
    pub cisn: Seq,
    pub sisn: Seq,
    /// The client's units that are taken.
    pub taken: u32,
    pub reads: u32,
    /// The units of output that the client has acknowledged.
    pub una: u32,
    /// The units of output that are sent.
    pub sent: u32,
    /// Whether the client has acknowledged the SYN.
    pub syn_acked: bool,
    /// Whether the client has reset the connection.
    pub reset: bool,
    /// What was acknowledged last, and the window from there.
    pub ack: Seq,
    pub window: u16,
}

impl Outside {
    /// Whether the client has acknowledged all that was sent.
    pub fn is_all_acknowledged(&self) -> bool
        ensures { (p : Point) → ShowsPoint self.now p → p.reset ≡ false → result ≡ is_all_acknowledged p }
    {
        self.syn_acked && self.una == self.sent
    }

    /// Whether nothing is logged of the connection.
    pub fn is_empty(&self) -> bool
        ensures { (p : Point) → ShowsPoint self.now p → result ≡ is_empty p }
    {
        self.taken == 0 && self.reads == 0 && self.una == 0
    }

    /// RCV.NXT: the number after the client's last one.
    pub fn end(&self) -> Seq
        ensures { (p : Point) → ShowsPoint self.now p → result.0 ≡ end_there p }
    {
        self.cisn.add(1).add(self.taken)
    }

    /// The connection by its numbers, with a quarantine that begins.
    pub fn resting(&self) -> Resting
        ensures { (p : Point) → ShowsPoint self.now p → QuarantineStands result (begun (named_point p)) × (result.end.0 ≡ end_there p) }
    {
        Resting {
            named: Named {
                key: self.key,
                cisn: self.cisn.0,
                sisn: self.sisn.0,
            },
            end: self.end(),
            age: 0,
        }
    }

    /// A RST at exactly RCV.NXT, as the client would send it.
    pub fn last_rst(&self, local: Addr) -> Head
        ensures { (p : Point) → ShowsPoint self.now p → record { head = said result; payload = [] } ≡ last_rst local p }
    {
        Head {
            src: self.key.ip,
            dst: local.ip,
            sport: self.key.port,
            dport: local.port,
            seq: self.end(),
            ack: Seq(0),
            flags: RST,
            window: 0,
            mss: None,
            timestamps: None,
        }
    }

    /// A keep-alive: SEG.SEQ is SND.NXT - 1 (RFC 9293, 3.8.4).
    pub fn keep_alive(&self, local: Addr) -> Head
        ensures { (p : Point) → ShowsPoint self.now p → record { head = said result; payload = [] } ≡ keep_alive local p }
    {
        Head {
            src: local.ip,
            dst: self.key.ip,
            sport: local.port,
            dport: self.key.port,
            seq: self.sisn.add(self.sent),
            ack: self.ack,
            flags: ACK,
            window: self.window,
            mss: None,
            timestamps: None,
        }
    }
}
