//! The state of the client, and the moves that it may make.

ghost use Rattle.limits.specs.Limits.{longest_stream};
ghost use Rattle.std.specs.Prelude.{◌≡◌, ℕ, ◌+◌, ◌-◌, ◌^◌, ◌<◌, ◌≤◌, None, length};
ghost use Rattle.segment_codec.specs.Value.{segment_of as value_of};
ghost use Rattle.seq_arith.specs.Value.{said};
ghost use Rattle.plain_world.specs.Moves.{move_value};

use crate::moves::{Move, flags};
use ft_io::{Addr, Key};
use ft_model::{Event, EventWhy, Phase};
use limits::SEGMENT;
use plain_packets::{number_of, part};
use segment_codec::{Head, PacketRef};
use seq_arith::Seq;
use std::alloc::Global;
use std::marker::Model;

/// A scripted client. Offsets are in units: bytes, and one more for a FIN.
#[derive(Drop)]
pub struct PlainClient {
    /// Its address and port.
    pub(crate) key: Key,
    /// The server's address and port.
    pub(crate) server: Addr,
    /// Its initial sequence number.
    pub(crate) isn: u32,
    /// The bytes that it has to send.
    pub(crate) script: Vec<u8>,
    /// The state of its connection.
    pub(crate) phase: Phase,
    /// The server's initial sequence number; 0 until it is known.
    pub(crate) sisn: u32,
    /// The number of units sent.
    pub(crate) sent: u32,
    /// The number of these units that the server has acknowledged.
    pub(crate) acknowledged: u32,
    /// The server's bytes that it has accepted.
    pub(crate) accepted: Vec<u8>,
    /// The right edge of the window: no byte from here on is accepted.
    pub(crate) edge: u64,
}

impl Model for PlainClient {
    ghost use Rattle.limits.specs.Limits.{longest_stream, most_units};
    ghost use Rattle.std.specs.Prelude.{ℕ, ◌≤◌, ◌+◌, ◌^◌, length};
    ghost use Rattle.tcp_rules.specs.Coming.{nothing_early};
    ghost use Rattle.ft_model.specs.Client as machine;
    ghost use Rattle.ft_model.specs.Client.ClientKind.{Scripted};

    ghost Value = { machine.Client };

    ghost view = { λ c. record {
      kind = Scripted;
      key = c.key;
      server = c.server;
      isn = c.isn;
      script = c.script.items;
      phase = c.phase;
      sisn = c.sisn;
      sent = c.sent;
      acknowledged = c.acknowledged;
      accepted = c.accepted.items;
      edge = c.edge;
      early = nothing_early;
    } };

    ghost invariant = { λ c. (length c.script.items ≤ longest_stream) × (c.sent ≤ most_units) };
}

impl PlainClient {
    ghost use Rattle.ft_model.specs.Client.ClientKind.{Scripted};
    ghost use Rattle.ft_model.specs.Client.{new_client, accepted_units as units_lem, suits_phase, suits_range, seq_of, ack_number_of, payload_of, segment_of};
    ghost use Rattle.ft_model.specs.Client.{moved, window_of, refusal_of_move};

    /// Creates a client that has sent nothing. Its script has at most 2^24 bytes. Allocates nothing.
    pub fn new(alloc: Global, key: Key, server: Addr, isn: u32, script: Vec<u8>) -> PlainClient
        requires { length script.items ≤ longest_stream }
        ensures { result ≡ new_client Scripted server key isn script.items }
    {
        PlainClient {
            key,
            server,
            isn,
            script,
            phase: Phase::New,
            sisn: 0,
            sent: 0,
            acknowledged: 0,
            accepted: Vec::new(alloc),
            edge: 0,
        }
    }

    /// Returns its address and port.
    pub fn key(&self) -> Key
        ensures { result ≡ self.now.key }
    {
        self.key
    }

    /// Returns the state of its connection.
    pub fn phase(&self) -> Phase
        ensures { result ≡ self.now.phase }
    {
        self.phase
    }

    /// Returns the server's bytes that it has accepted.
    pub fn accepted(&self) -> &[u8]
        ensures { result.now ≡ self.now.accepted }
    {
        self.accepted.as_slice()
    }

    /// Returns how many units it has accepted.
    pub(crate) fn accepted_units(&self) -> u64
        ensures value { result ≡ units_lem self.now }
        ensures within { result ≤ 2 ^ 63 }
    {
        self.accepted.len() as u64 + u64::from(self.phase == Phase::Ended)
    }

    pub(crate) fn suits_phase(&self, made: Move) -> bool
        ensures { result ≡ suits_phase self.now (move_value made) }
    {
        let unfinished = self.acknowledged as usize <= self.script.len();
        let is_open = self.phase == Phase::Established || self.phase == Phase::Ended;
        match made {
            Move::Syn => self.phase == Phase::New || self.phase == Phase::Opening,
            Move::Text { .. } | Move::Fin => is_open && unfinished,
            Move::Acknowledge => is_open,
            Move::Rst => self.phase == Phase::Opening || is_open,
        }
    }

    fn suits_range(&self, made: Move) -> bool
        ensures { result ≡ suits_range self.now (move_value made) }
    {
        match made {
            Move::Text { from, len } => {
                self.acknowledged <= from
                    && from <= self.sent
                    && 1 <= len
                    && len <= u32::from(SEGMENT)
                    && u64::from(from) + u64::from(len) <= self.script.len() as u64
            }
            Move::Fin => self.script.len() <= self.sent as usize,
            Move::Syn | Move::Acknowledge | Move::Rst => true,
        }
    }

    /// Returns why the client's state doesn't allow the move, or `None` if it does.
    pub fn refusal(&self, made: Move) -> Option<EventWhy>
        ensures { result ≡ refusal_of_move self.now (move_value made) }
    {
        if !self.suits_phase(made) {
            Some(EventWhy::State)
        } else if !self.suits_range(made) {
            Some(EventWhy::Range)
        } else {
            None
        }
    }

    /// Returns the window that an event's move advertises.
    pub fn window(&self, event: &Event) -> u16
        ensures { result ≡ window_of self.now event.now }
    {
        let room = self.edge.saturating_sub(self.accepted.len() as u64);
        match *event {
            Event::Begin { window, .. } | Event::Ack { window, .. } => window,
            Event::Send { .. } | Event::Fin { .. } => room.min(65_535) as u16,
            _ => 0,
        }
    }

    fn seq(&self, made: Move) -> u32
        ensures { result ≡ seq_of self.now (move_value made) }
    {
        match made {
            Move::Syn => self.isn,
            Move::Text { from, .. } => number_of(self.isn, u64::from(from)),
            Move::Fin => number_of(self.isn, self.script.len() as u64),
            Move::Acknowledge | Move::Rst => number_of(self.isn, u64::from(self.sent)),
        }
    }

    fn ack_number(&self, made: Move) -> u32
        ensures { result ≡ ack_number_of self.now (move_value made) }
    {
        match made {
            Move::Text { .. } | Move::Fin | Move::Acknowledge => {
                number_of(self.sisn, self.accepted_units())
            }
            Move::Syn | Move::Rst => 0,
        }
    }

    fn payload(&self, made: Move) -> &[u8]
        ensures { result.now ≡ payload_of self.now (move_value made) }
    {
        match made {
            Move::Text { from, len } => part(&self.script, u64::from(from), u64::from(len)),
            Move::Syn | Move::Fin | Move::Acknowledge | Move::Rst => &[],
        }
    }

    fn head(&self, made: Move, window: u16) -> Head
        ensures { said result ≡ (segment_of self.now (move_value made) window).head }
    {
        Head {
            src: self.key.ip,
            dst: self.server.ip,
            sport: self.key.port,
            dport: self.server.port,
            seq: Seq(self.seq(made)),
            ack: Seq(self.ack_number(made)),
            flags: flags(made),
            window,
            mss: None,
            timestamps: None,
        }
    }

    /// Returns the segment of a move, with the window that it advertises.
    pub fn segment(&self, made: Move, window: u16) -> PacketRef<'_>
        ensures { value_of result ≡ segment_of self.now (move_value made) window }
    {
        PacketRef {
            head: self.head(made, window),
            payload: self.payload(made),
        }
    }

    /// Makes a move that the client's state allows.
    pub fn make(&mut self, made: Move, window: u16)
        requires { refusal_of_move self.old (move_value made) ≡ None }
        ensures { self.new ≡ moved self.old (move_value made) window }
    {
        match made {
            Move::Syn => self.phase = Phase::Opening,
            Move::Text { from, len } => self.sent = self.sent.max(from + len),
            Move::Fin => self.sent = self.script.len() as u32 + 1,
            Move::Rst => self.phase = Phase::Reset,
            Move::Acknowledge => {}
        }
        let advertised = self.accepted.len() as u64 + u64::from(window);
        self.edge = self.edge.max(advertised);
    }
}
