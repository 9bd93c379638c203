//! The scripted client: its state, and the moves that it makes.

ghost use Rattle.limits.specs.Limits.{largest_segment, longest_packet, longest_stream};
ghost use Rattle.std.specs.Prelude.{◌≡◌, ℕ, ◌+◌, ◌-◌, ◌^◌, ◌<◌, ◌≤◌, None, length, IfOk, IfErr, IsSome, OnErr};
ghost use Rattle.peer_client.specs.Moves.{move_value};

use crate::arrival::{number_of, part};
use crate::moves::{Move, flags, of_event};
use ft_io::{Addr, Key};
use ft_model::{Event, EventWhy, Phase};
use limits::SEGMENT;
use segment_codec::{Head, write_packet};
use seq_arith::Seq;
use std::alloc::Global;
use std::marker::Model;

/// The error of a move that the client's state doesn't allow.
#[derive(Clone, Copy, PartialEq, Eq)]
pub struct Refused {
    /// The first test that the move fails.
    pub why: EventWhy,
}

/// A client that makes the moves of a schedule. Offsets are in units: bytes, and one more for a FIN.
#[derive(Drop)]
pub struct Client {
    pub(crate) key: Key,
    pub(crate) server: Addr,
    pub(crate) isn: u32,
    pub(crate) script: Vec<u8>,
    pub(crate) phase: Phase,
    pub(crate) sisn: u32,
    pub(crate) sent: u32,
    pub(crate) acknowledged: u32,
    pub(crate) accepted: Vec<u8>,
    pub(crate) edge: u64,
}

impl Model for Client {
    ghost use Rattle.limits.specs.Limits.{longest_stream, most_units};
    ghost use Rattle.std.specs.Prelude.{ℕ, ◌≤◌, ◌+◌, ◌^◌, length};
    ghost use Rattle.tcp_rules.specs.Coming.{nothing_early};
    ghost use Rattle.ft_model.specs.Client as machine;
    ghost use Rattle.ft_model.specs.Client.ClientKind.{Scripted};

    ghost Value = { machine.Client };

    ghost view = { λ c. record {
      kind = Scripted;
      key = c.key;
      server = c.server;
      isn = c.isn;
      script = c.script.items;
      phase = c.phase;
      sisn = c.sisn;
      sent = c.sent;
      acknowledged = c.acknowledged;
      accepted = c.accepted.items;
      edge = c.edge;
      early = nothing_early;
    } };

    ghost invariant = { λ c. (length c.script.items ≤ longest_stream) × (c.sent ≤ most_units) };
}

impl Client {
    ghost use Rattle.std.specs.Prelude.{take, drop, ◌++◌, Ok};
    ghost use Rattle.seq_arith.specs.Value.{said};
    ghost use Rattle.seq_arith.specs.PacketGrammar.{reading, spelling};
    ghost use Rattle.peer_client.specs.Scripted.{Makes, Refuses};
    ghost use Rattle.ft_model.specs.Client.ClientKind.{Scripted};
    ghost use Rattle.ft_model.specs.Client.{new_client, accepted_units as units_lem, suits_phase, suits_range, seq_of, ack_number_of, payload_of, segment_of};
    ghost use Rattle.ft_model.specs.Client.{moved, move_of, window_of, refusal_of_move};

    /// Creates a client that has sent nothing, without allocating. Its script has at most 2^24 bytes.
    pub fn new(alloc: Global, key: Key, server: Addr, isn: u32, script: Vec<u8>) -> Client
        requires { length script.items ≤ longest_stream }
        ensures { result ≡ new_client Scripted server key isn script.items }
    {
        Client {
            key,
            server,
            isn,
            script,
            phase: Phase::New,
            sisn: 0,
            sent: 0,
            acknowledged: 0,
            accepted: Vec::new(alloc),
            edge: 0,
        }
    }

    /// Returns the server's bytes that the client has accepted.
    pub fn accepted(&self) -> &[u8]
        ensures { result.now ≡ self.now.accepted }
    {
        self.accepted.as_slice()
    }

    /// Returns how many units the client has sent: bytes, and one more for its FIN.
    pub fn sent(&self) -> u32
        ensures { result ≡ self.now.sent }
    {
        self.sent
    }

    /// Returns how many units of the client's stream the server has acknowledged.
    pub fn acked(&self) -> u32
        ensures { result ≡ self.now.acknowledged }
    {
        self.acknowledged
    }

    /// Returns the state of the client's connection.
    pub fn phase(&self) -> Phase
        ensures { result ≡ self.now.phase }
    {
        self.phase
    }

    /// How many units the client has accepted: bytes, and one more for the server's FIN.
    pub(crate) fn accepted_units(&self) -> u64
        ensures value { result ≡ units_lem self.now }
        ensures within { result ≤ 2 ^ 63 }
    {
        self.accepted.len() as u64 + u64::from(self.phase == Phase::Ended)
    }

    pub(crate) fn suits_phase(&self, made: Move) -> bool
        ensures { result ≡ suits_phase self.now (move_value made) }
    {
        let unfinished = self.acknowledged as usize <= self.script.len();
        let stands = self.phase == Phase::Established || self.phase == Phase::Ended;
        match made {
            Move::Syn => self.phase == Phase::New || self.phase == Phase::Opening,
            Move::Text { .. } | Move::Fin => stands && unfinished,
            Move::Acknowledge => stands,
            Move::Rst => self.phase == Phase::Opening || stands,
        }
    }

    fn suits_range(&self, made: Move) -> bool
        ensures { result ≡ suits_range self.now (move_value made) }
    {
        match made {
            Move::Text { from, len } => {
                self.acknowledged <= from
                    && from <= self.sent
                    && 1 <= len
                    && len <= u32::from(SEGMENT)
                    && u64::from(from) + u64::from(len) <= self.script.len() as u64
            }
            Move::Fin => self.script.len() <= self.sent as usize,
            Move::Syn | Move::Acknowledge | Move::Rst => true,
        }
    }

    /// Why the client does not make the move; `None` where it may.
    fn refusal(&self, made: Move) -> Option<EventWhy>
        ensures { result ≡ refusal_of_move self.now (move_value made) }
    {
        if !self.suits_phase(made) {
            Some(EventWhy::State)
        } else if !self.suits_range(made) {
            Some(EventWhy::Range)
        } else {
            None
        }
    }

    /// The window that the move of an event advertises.
    fn window(&self, event: &Event) -> u16
        ensures { result ≡ window_of self.now event.now }
    {
        let room = self.edge.saturating_sub(self.accepted.len() as u64);
        match *event {
            Event::Begin { window, .. } | Event::Ack { window, .. } => window,
            Event::Send { .. } | Event::Fin { .. } => room.min(65_535) as u16,
            _ => 0,
        }
    }

    fn seq(&self, made: Move) -> u32
        ensures { result ≡ seq_of self.now (move_value made) }
    {
        match made {
            Move::Syn => self.isn,
            Move::Text { from, .. } => number_of(self.isn, u64::from(from)),
            Move::Fin => number_of(self.isn, self.script.len() as u64),
            Move::Acknowledge | Move::Rst => number_of(self.isn, u64::from(self.sent)),
        }
    }

    fn ack_number(&self, made: Move) -> u32
        ensures { result ≡ ack_number_of self.now (move_value made) }
    {
        match made {
            Move::Text { .. } | Move::Fin | Move::Acknowledge => {
                number_of(self.sisn, self.accepted_units())
            }
            Move::Syn | Move::Rst => 0,
        }
    }

    fn payload(&self, made: Move) -> &[u8]
        requires { refusal_of_move self.now (move_value made) ≡ None }
        ensures text { result.now ≡ payload_of self.now (move_value made) }
        ensures size { length result.now ≤ largest_segment }
    {
        match made {
            Move::Text { from, len } => part(&self.script, u64::from(from), u64::from(len)),
            Move::Syn | Move::Fin | Move::Acknowledge | Move::Rst => &[],
        }
    }

    fn head(&self, made: Move, window: u16) -> Head
        ensures fields { said result ≡ (segment_of self.now (move_value made) window).head }
        ensures option { result.mss ≡ None }
        ensures timestamps { result.timestamps ≡ None }
    {
        Head {
            src: self.key.ip,
            dst: self.server.ip,
            sport: self.key.port,
            dport: self.server.port,
            seq: Seq(self.seq(made)),
            ack: Seq(self.ack_number(made)),
            flags: flags(made),
            window,
            mss: None,
            timestamps: None,
        }
    }

    /// Writes the packet of a move, which the client may make, at the beginning of `out`, and returns its length.
    fn write(&self, made: Move, window: u16, out: &mut [u8]) -> usize
        requires may { refusal_of_move self.now (move_value made) ≡ None }
        requires room { longest_packet ≤ length out.old }
        ensures bytes { out.new ≡ spelling (segment_of self.now (move_value made) window) ++ drop result out.old }
        ensures read { reading (take result out.new) ≡ Ok (segment_of self.now (move_value made) window) }
    {
        write_packet(&self.head(made, window), self.payload(made), out)
    }

    /// Updates the client's state for a move that it may make.
    fn note(&mut self, made: Move, window: u16)
        requires { refusal_of_move self.old (move_value made) ≡ None }
        ensures { self.new ≡ moved self.old (move_value made) window }
    {
        match made {
            Move::Syn => self.phase = Phase::Opening,
            Move::Text { from, len } => self.sent = self.sent.max(from + len),
            Move::Fin => self.sent = self.script.len() as u32 + 1,
            Move::Rst => self.phase = Phase::Reset,
            Move::Acknowledge => {}
        }
        self.edge = self
            .edge
            .max(self.accepted.len() as u64 + u64::from(window));
    }

    /// Makes the move that an event asks for: one of the five moves of a client. Which client the event names is ignored. Writes the move's packet at the
    /// beginning of `out`, which has room for at least 1,500 bytes, and returns the packet's length. A refused move changes nothing.
    pub fn step(&mut self, event: &Event, out: &mut [u8]) -> Result<usize, Refused>
        requires asks { IsSome (move_of event.now) }
        requires room { longest_packet ≤ length out.old }
        ensures made { IfOk result (λ n. Makes self.old event.now out.old n out.new self.new) }
        ensures refused { IfErr result (λ end. Refuses self.old event.now end.why) }
        ensures kept { OnErr result (self.new ≡ self.old) }
        ensures unwritten { OnErr result (out.new ≡ out.old) }
    {
        let Some(made) = of_event(event) else {
            unreachable!()
        };
        if let Some(why) = self.refusal(made) {
            return Err(Refused { why });
        }
        let window = self.window(event);
        let len = self.write(made, window, out);
        self.note(made, window);
        Ok(len)
    }
}
