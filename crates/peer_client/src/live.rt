//! The live client: an active open of the TCP endpoint that sends a script and hands out what the server sends.

ghost use Rattle.limits.specs.Limits.{longest_stream};
ghost use Rattle.std.specs.Prelude.{None, IsSome, ◌≡◌, ◌+◌, ◌-◌, ◌^◌, ◌≤◌, ◌==◌, ◌&&◌, [], ◌++◌, IfOk, length, min, take, drop};
ghost use Rattle.segment_codec.specs.Value.{segment_of};
ghost use Rattle.tcp_endpoint.specs.Output.{packets};
ghost use Rattle.tcp_endpoint.specs.Packets.{AreReadable};
ghost use Rattle.tcp_endpoint.specs.SendHalf.{IsShort};
ghost use Rattle.tcp_endpoint.specs.States.{has_begun as begun_lem, is_syn_sent as syn_sent_lem};
ghost use Rattle.tcp_endpoint.specs.Arrival.{received};
ghost use Rattle.tcp_endpoint.specs.UserCalls.{after_read};
ghost use Rattle.peer_client.specs.Live.{new_live, new_live_in, is_of, end_of, first_end, met, after_packet, ticked, unread, handed, given_up};
ghost use Rattle.peer_client.specs.Stamping.{as_read, stamps_after, EchoFits};
ghost use Rattle.peer_client.specs.Live.{supplied, closes as closes_lem};
ghost use Rattle.peer_client.specs.Live.{shut as shut_lem, sent_by, turned};
ghost use Rattle.peer_client.specs.Refinement.{IsBetween, IsDue, AcksNear, AckFits, receiving, Moves, HasReceived, handed_out, outcome_of};
ghost use Rattle.seq_arith.specs.PacketGrammar.{reading};
ghost use Rattle.tcp_rules.specs.Profiles.{profile_of};
ghost use Rattle.ft_model.specs.Client.{Client, new_client};
ghost use Rattle.ft_model.specs.Client.ClientKind.{Live};

use crate::stamping::Stamping;
use ft_io::{Addr, NoMemory};
use limits::STREAM;
use segment_codec::{PacketRef, read_packet};
use seq_arith::Seq;
use socket_layer::Socket;
use std::alloc::Global;
use std::marker::Model;
use tcp_endpoint::{Endpoint, Outbox, StateName};
use tcp_rules::Profile;

/// How a live client's connection ended.
#[derive(Clone, Copy, Debug, PartialEq, Eq)]
pub enum ClientEnd {
    /// The server acknowledged the client's FIN, and the client accepted the server's.
    Closed,
    /// A valid RST arrived.
    Reset,
}

/// A client that is a TCP of its own. It opens a connection to the server, writes its script as there is room, closes after it, and stores the server's bytes
/// until `accept` hands them out. `on_packet` and `on_tick` begin a turn and `flush` ends it, so call `flush` once between any two of them.
#[derive(Drop)]
pub struct LiveClient {
    local: Addr,
    server: Addr,
    endpoint: Endpoint,
    script: Vec<u8>,
    /// How many bytes of the script the endpoint was given.
    written: usize,
    /// How many of the endpoint's unread bytes were handed out.
    seen: usize,
    outcome: Option<ClientEnd>,
    /// The timestamps of its segments.
    stamping: Stamping,
}

impl Model for LiveClient {
    ghost use Rattle.limits.specs.Limits.{longest_stream};
    ghost use Rattle.std.specs.Prelude.{◌≤◌, ◌^◌, length};
    ghost use Rattle.peer_client.specs.Live.{LiveState};

    ghost Value = { LiveState };

    ghost view = { λ c. record {
      local = c.local;
      server = c.server;
      tcb = c.endpoint;
      script = c.script.items;
      written = c.written;
      seen = c.seen;
      outcome = c.outcome;
      stamps = c.stamping;
    } };

    ghost invariant = { λ c. (length c.script.items ≤ longest_stream) × (c.written ≤ length c.script.items) };
}

impl LiveClient {
    /// Creates a client that connects from `local` to `server` with the initial sequence number `isn`. Its script has at most 2^24 bytes. The next flush
    /// sends the SYN. Fails where an allocation fails.
    #[tactic(auto, unfolding(crate::proofs::Unfolded::new_words))]
    pub fn new(
        alloc: Global,
        local: Addr,
        server: Addr,
        isn: u32,
        script: Vec<u8>,
    ) -> Result<LiveClient, NoMemory>
        requires { length script.items ≤ longest_stream }
        ensures made { IfOk result (λ client. client ≡ new_live local server isn script.items) }
        // A new live client of the model corresponds to it.
        ensures beside { IfOk result (λ client. IsDue client (new_client Live server (record { ip = local.ip; port = local.port }) isn script.items)) }
    {
        LiveClient::new_in(Profile::Plain, alloc, local, server, isn, script)
    }

    /// The same of a client with this profile. Its TCP measures round trips, and its segments carry timestamps if the server's do, exactly if the profile says
    /// so.
    pub fn new_in(
        profile: Profile,
        alloc: Global,
        local: Addr,
        server: Addr,
        isn: u32,
        script: Vec<u8>,
    ) -> Result<LiveClient, NoMemory>
        requires { length script.items ≤ longest_stream }
        ensures made { IfOk result (λ client. client ≡ new_live_in (profile_of profile) local server isn script.items) }
        ensures beside { IfOk result (λ client. IsDue client (new_client Live server (record { ip = local.ip; port = local.port }) isn script.items)) }
    {
        let endpoint = Endpoint::connect_measuring(
            alloc,
            local,
            server,
            Seq(isn),
            STREAM,
            profile.measures(),
        )?;
        let stamping = Stamping::new(alloc, profile.timestamps())?;
        Ok(LiveClient {
            local,
            server,
            endpoint,
            script,
            written: 0,
            seen: 0,
            outcome: None,
            stamping,
        })
    }

    /// Returns how the connection ended, if it has. An outcome never changes.
    pub fn outcome(&self) -> Option<ClientEnd>
        ensures { result ≡ self.now.outcome }
    {
        self.outcome
    }

    /// Receives a datagram. Bytes that are no packet from the server to this client are dropped.
    pub fn on_packet(&mut self, bytes: &[u8])
        ensures state { IsShort self.old.tcb.sending → self.new ≡ after_packet self.old bytes.now }
        // The client machine receives what the client does ..
        ensures beside { (c : Client) → IsBetween self.old c → self.old.outcome ≡ None → AcksNear c (reading bytes.now)
            → IsDue self.new (receiving self.old c (reading bytes.now)) }
        // .. and has the same outcome. The first one stays.
        ensures outcome { (c : Client) → IsBetween self.old c → self.old.outcome ≡ None → AcksNear c (reading bytes.now)
            → self.new.outcome ≡ outcome_of (receiving self.old c (reading bytes.now)) }
        ensures stays { IsSome self.old.outcome → self.new.outcome ≡ self.old.outcome }
    {
        self.receive(bytes);
    }

    fn receive(&mut self, bytes: &[u8])
        ensures state { IsShort self.old.tcb.sending → self.new ≡ after_packet self.old bytes.now }
        ensures fits { AckFits (reading bytes.now) }
        ensures echo { EchoFits self.new.stamps.timestamping }
        ensures stays { IsSome self.old.outcome → self.new.outcome ≡ self.old.outcome }
    {
        if let Ok(packet) = read_packet(bytes) {
            if self.is_of_connection(packet) {
                self.meet(packet);
            }
        }
        self.stamping.echo_fits();
    }

    fn is_of_connection(&self, p: PacketRef<'_>) -> bool
        ensures { result ≡ is_of self.now.local self.now.server (segment_of p.entry) }
    {
        p.head.src == self.server.ip
            && p.head.sport == self.server.port
            && p.head.dst == self.local.ip
            && p.head.dport == self.local.port
    }

    fn meet(&mut self, p: PacketRef<'_>)
        requires { length p.payload.now ≤ 65535 }
        ensures state { IsShort self.old.tcb.sending → self.new ≡ met self.old (segment_of p.entry) }
        ensures stays { IsSome self.old.outcome → self.new.outcome ≡ self.old.outcome }
    {
        let opening = is_syn_sent(self.endpoint.state().name);
        self.reach_tcp(p);
        self.note_timestamps(opening, p);
        self.note_end();
    }

    /// TCP takes a segment. It knows nothing of timestamps, so the segment size that it reads leaves room for them.
    fn reach_tcp(&mut self, p: PacketRef<'_>)
        requires { length p.payload.now ≤ 65535 }
        ensures state { IsShort self.old.tcb.sending
            → self.new ≡ record self.old { tcb = received self.old.tcb (as_read self.old.stamps (segment_of p.entry)) } }
        ensures outcome { self.new.outcome ≡ self.old.outcome }
    {
        self.endpoint.on_packet(self.stamping.as_read(p));
    }

    /// Notes the timestamps of a segment that TCP has taken.
    fn note_timestamps(&mut self, opening: bool, p: PacketRef<'_>)
        requires { length p.payload.now ≤ 65535 }
        ensures { self.new ≡ record self.old { stamps = stamps_after opening (begun_lem self.old.tcb.name) (segment_of p.entry) self.old.stamps } }
    {
        let begun = has_begun(self.endpoint.state().name);
        self.stamping.note(opening, begun, p);
    }

    /// Notes how the connection has ended, if it has. The first outcome stays.
    fn note_end(&mut self)
        ensures { self.new ≡ record self.old { outcome = first_end self.old.outcome (end_of self.old.tcb) } }
    {
        if self.outcome.is_none() {
            self.outcome = self.end();
        }
    }

    fn end(&self) -> Option<ClientEnd>
        ensures { result ≡ end_of self.now.tcb }
    {
        let state = self.endpoint.state();
        if state.reset {
            return Some(ClientEnd::Reset);
        }
        match state.name {
            StateName::TimeWait | StateName::Closed => Some(ClientEnd::Closed),
            _ => None,
        }
    }

    /// Counts a tick of the client's TCP.
    pub fn on_tick(&mut self)
        ensures state { self.new ≡ ticked self.old }
        ensures beside { (c : Client) → IsBetween self.old c → IsDue self.new c }
    {
        self.tick();
    }

    fn tick(&mut self)
        ensures { self.new ≡ ticked self.old }
    {
        self.endpoint.on_tick();
    }

    /// Copies the next accepted bytes to the beginning of `buf`, as many as there are and fit, and returns how many. The rest of `buf` stays.
    pub fn accept(&mut self, buf: &mut [u8]) -> usize
        ensures count { result ≡ min (length (unread self.old)) (length buf.old) }
        ensures bytes { buf.new ≡ take result (unread self.old) ++ drop result buf.old }
        ensures state { self.new ≡ handed self.old result }
        // These are the bytes that the client machine has accepted, in order, after those that were handed out before.
        ensures accepted { (c : Client) → IsDue self.old c → unread self.old ≡ drop (handed_out self.old) c.accepted }
        ensures rest { (c : Client) → HasReceived self.old.tcb.receiving c → unread self.old ≡ drop (handed_out self.old) c.accepted }
        ensures due { (c : Client) → IsDue self.old c → IsDue self.new c }
        ensures between { (c : Client) → IsBetween self.old c → IsBetween self.new c }
    {
        self.hand_out(buf)
    }

    pub(crate) fn hand_out(&mut self, buf: &mut [u8]) -> usize
        ensures count { result ≡ min (length (unread self.old)) (length buf.old) }
        ensures bytes { buf.new ≡ take result (unread self.old) ++ drop result buf.old }
        ensures state { self.new ≡ handed self.old result }
    {
        if self.endpoint.readable() <= self.seen {
            return 0;
        }
        let count = self.endpoint.peek(self.seen, buf);
        self.seen += count;
        count
    }

    /// Ends the turn: puts the packets that it sends into `out`, which is empty before.
    pub fn flush(&mut self, out: &mut Outbox)
        requires { out.old ≡ [] }
        ensures state { self.new ≡ turned self.old }
        ensures sent { out.new ≡ packets (sent_by self.old) }
        ensures readable { AreReadable (sent_by self.old) }
        // Each of these segments is a move of the client machine, which continues to correspond to the client until there is an outcome.
        ensures moves { (c : Client) → IsDue self.old c → Moves self.new (sent_by self.old) c }
    {
        self.end_turn(out);
    }

    pub(crate) fn end_turn(&mut self, out: &mut Outbox)
        requires { out.old ≡ [] }
        ensures state { self.new ≡ turned self.old }
        ensures sent { out.new ≡ packets (sent_by self.old) }
        ensures readable { AreReadable (sent_by self.old) }
        ensures echo { EchoFits self.old.stamps.timestamping }
    {
        self.stamping.echo_fits();
        self.discard();
        self.supply();
        self.shut();
        self.endpoint.flush(out);
        self.stamping.stamp(out);
    }

    /// Drops from the endpoint what was handed out.
    fn discard(&mut self)
        ensures { self.new ≡ given_up self.old }
    {
        pass_over(&mut self.endpoint, self.seen);
        self.seen = 0;
    }

    /// Gives the endpoint as much of the script as it has room for.
    fn supply(&mut self)
        ensures { self.new ≡ supplied self.old }
    {
        self.written += self.endpoint.write(&self.script[self.written..]);
    }

    /// Closes the endpoint once it was given the whole script and the connection has begun.
    fn shut(&mut self)
        ensures { self.new ≡ shut_lem self.old }
    {
        if self.closes() {
            self.endpoint.close();
        }
    }

    fn closes(&self) -> bool
        ensures { result ≡ closes_lem self.now }
    {
        has_begun(self.endpoint.state().name) && self.script.len() <= self.written
    }
}

/// Whether the client's SYN is sent, or due, and isn't answered yet.
fn is_syn_sent(name: StateName) -> bool
    ensures { result ≡ syn_sent_lem name }
{
    matches!(name, StateName::SynSent)
}

/// Whether both initial sequence numbers are known.
fn has_begun(name: StateName) -> bool
    ensures { result ≡ begun_lem name }
{
    !matches!(
        name,
        StateName::Closed | StateName::Listen | StateName::SynSent
    )
}

/// Reads `count` bytes, or all that there are.
fn pass_over(endpoint: &mut Endpoint, count: usize)
    ensures { endpoint.new ≡ after_read endpoint.old (min count (length endpoint.old.receiving.unread)) }
{
    let mut scratch = [0; 2_048];
    let mut left = count.min(endpoint.readable());
    while left > 0 {
        let most = left.min(2_048);
        left -= endpoint.read(&mut scratch[..most]);
    }
}
