//! One connection's endpoint: its two halves, its state, and what is due at the end of the turn.

ghost use Rattle.std.specs.Prelude.{◌≡◌, IfOk};
ghost use Rattle.tcp_endpoint.specs.Tcb.{listening, listening_measuring, connecting, connecting_measuring};
ghost use Rattle.tcp_endpoint.specs.UserCalls.{sent_number, acked_number};

use crate::receiver::Receiver;
use crate::sender::Sender;
use crate::states::{State, StateName};
use ft_io::{Addr, NoMemory};
use segment_codec::Head;
use seq_arith::Seq;
use std::alloc::Global;
use std::marker::Model;
use tcp_buffers::{RecvQueue, SendQueue};

/// A TCP endpoint for one connection (RFC 9293). `on_packet` and `on_tick` begin a turn and `flush` ends it, so call `flush` once between any two of them. In
/// contracts an endpoint is a record of its variables, mostly as offsets in the two streams.
#[derive(Drop)]
pub struct Endpoint {
    /// Our address.
    pub(crate) local: Addr,
    /// The peer's address, once it is known.
    pub(crate) remote: Addr,
    /// The state's name.
    pub(crate) name: StateName,
    /// Whether the peer has reset the connection.
    pub(crate) reset: bool,
    /// The peer's stream: IRS, RCV.NXT, RCV.WND.
    pub(crate) receiver: Receiver,
    /// Our stream: ISS, SND.UNA, SND.NXT, SND.WND.
    pub(crate) sender: Sender,
    /// The ticks left in TIME-WAIT.
    pub(crate) wait: u8,
    /// The acknowledgement last sent, as an offset in the peer's stream.
    pub(crate) last_ack_sent: u32,
    /// The right edge last advertised, as an offset in the peer's stream.
    pub(crate) last_advertised_edge: u32,
    /// Whether this turn's input requires an ACK.
    pub(crate) ack_pending: bool,
    /// Whether the first unacknowledged segment is due in this turn: a first SYN or SYN-ACK, or a retransmission.
    pub(crate) retransmission_due: bool,
    /// Whether a probe is due in this turn.
    pub(crate) probe: bool,
    /// The RST that is due in this turn, in reply to a segment.
    pub(crate) reset_reply: Option<Head>,
}

impl Model for Endpoint {
    ghost use Rattle.tcp_endpoint.specs.Tcb.{Tcb};

    ghost Value = { Tcb };

    ghost view = { λ e. record {
      local = e.local;
      remote = e.remote;
      name = e.name;
      reset = e.reset;
      receiving = e.receiver;
      sending = e.sender;
      wait = e.wait;
      last_ack_sent = e.last_ack_sent;
      last_advertised_edge = e.last_advertised_edge;
      ack_pending = e.ack_pending;
      retransmission_due = e.retransmission_due;
      probe = e.probe;
      reset_reply = e.reset_reply;
    } };
}

impl Endpoint {
    /// Opens passively at a local address, with the initial sequence number `isn`. The endpoint never takes more than `limit` bytes of the peer's stream, nor
    /// more than 2^30. Fails where an allocation fails.
    #[tactic(auto, unfolding(crate::specs::Tcb::listening, crate::specs::Tcb::listening_measuring))]
    pub fn listen(alloc: Global, local: Addr, isn: Seq, limit: u32) -> Result<Endpoint, NoMemory>
        ensures { IfOk result (λ e. e ≡ listening local isn.0 limit) }
    {
        Endpoint::listen_measuring(alloc, local, isn, limit, false)
    }

    /// Opens passively as `listen` does. If the endpoint measures round trips (`measures`), its retransmission timer follows them (RFC 6298), and it recovers
    /// the losses of one flight one after another (RFC 6582). Otherwise its timer starts with one tick.
    #[tactic(auto, unfolding(crate::specs::Tcb::listening, crate::specs::Tcb::listening_measuring))]
    pub fn listen_measuring(
        alloc: Global,
        local: Addr,
        isn: Seq,
        limit: u32,
        measures: bool,
    ) -> Result<Endpoint, NoMemory>
        ensures { IfOk result (λ e. e ≡ listening_measuring measures local isn.0 limit) }
    {
        let queue = RecvQueue::new(alloc)?;
        let held = SendQueue::new(alloc)?;
        Ok(Endpoint {
            local,
            remote: Addr { ip: 0, port: 0 },
            name: StateName::Listen,
            reset: false,
            receiver: Receiver::new(queue, limit),
            sender: Sender::new(isn, held, measures),
            wait: 0,
            last_ack_sent: 0,
            last_advertised_edge: 0,
            ack_pending: false,
            retransmission_due: false,
            probe: false,
            reset_reply: None,
        })
    }

    /// Opens actively to a remote address, with `isn` and `limit` as in `listen`. The next flush sends the SYN. Fails where an allocation fails.
    #[tactic(auto, unfolding(crate::proofs::Unfolded::connect_words))]
    pub fn connect(
        alloc: Global,
        local: Addr,
        remote: Addr,
        isn: Seq,
        limit: u32,
    ) -> Result<Endpoint, NoMemory>
        ensures { IfOk result (λ e. e ≡ connecting local remote isn.0 limit) }
    {
        Endpoint::connect_measuring(alloc, local, remote, isn, limit, false)
    }

    /// Opens actively as `connect` does, with `measures` as in `listen_measuring`.
    #[tactic(auto, unfolding(crate::specs::Tcb::connecting_measuring))]
    pub fn connect_measuring(
        alloc: Global,
        local: Addr,
        remote: Addr,
        isn: Seq,
        limit: u32,
        measures: bool,
    ) -> Result<Endpoint, NoMemory>
        ensures { IfOk result (λ e. e ≡ connecting_measuring measures local remote isn.0 limit) }
    {
        let mut endpoint = Endpoint::listen_measuring(alloc, local, isn, limit, measures)?;
        endpoint.remote = remote;
        endpoint.name = StateName::SynSent;
        endpoint.retransmission_due = true;
        Ok(endpoint)
    }

    /// Returns the state, and whether the peer has reset the connection.
    pub fn state(&self) -> State
        ensures { result ≡ record { name = self.now.name; reset = self.now.reset } }
    {
        State {
            name: self.name,
            reset: self.reset,
        }
    }

    /// Returns SND.NXT; in LISTEN, ISS.
    pub fn sent(&self) -> Seq
        ensures { result.0 ≡ sent_number self.now }
    {
        if self.name.is_listen() {
            return self.sender.iss();
        }
        self.sender.nxt()
    }

    /// Returns SND.UNA; until our SYN is acknowledged, ISS.
    pub fn acked(&self) -> Seq
        ensures { result.0 ≡ acked_number self.now }
    {
        if !self.sender.is_syn_acked() {
            return self.sender.iss();
        }
        self.sender.una()
    }
}
