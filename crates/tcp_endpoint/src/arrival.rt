//! A segment arrives: the checks of RFC 9293, 3.10.7, in their order. Of those in 3.10.7.4, the third (security) and the sixth (URG) aren't made, and a
//! repeated FIN restarts TIME-WAIT before the first.

ghost use Rattle.std.specs.Prelude.{◌≡◌, ◌+◌, ◌/◌, ◌%◌, ◌^◌, ◌<◌, ◌≤◌, ◌==◌, ◌&&◌, not, nat_lt, Bool, true, false, length, if◌then◌else◌};
ghost use Rattle.seq_arith.specs.Packet.{has_fin, has_syn, has_rst, has_ack};
ghost use Rattle.segment_codec.specs.Value.{segment_of};
ghost use Rattle.seq_arith.specs.Offset.{length_of};
ghost use Rattle.std.specs.Bool.{OnTrue};
ghost use Rattle.tcp_buffers.specs.Near.{is_ahead, IsNearFirst};
ghost use Rattle.tcp_endpoint.specs.SendHalf.{IsShort};
ghost use Rattle.tcp_endpoint.specs.Arrival.{first, ack_at, with_reset_reply, with_reset_reply_without_ack, with_ack_pending_if, with_reset};
ghost use Rattle.tcp_endpoint.specs.Arrival.{entering, in_closed, begun, in_listen, answered};
ghost use Rattle.tcp_endpoint.specs.Arrival.{in_syn_sent, with_text_and_fin, with_fin_acked, with_first_ack, is_bare, with_ack_used, with_ack};
ghost use Rattle.tcp_endpoint.specs.Arrival.{check_ack, check_syn, check_rst};
ghost use Rattle.tcp_endpoint.specs.Arrival.{with_time_wait_restarted, is_allowed, check_sequence, in_others, received, within_ip};

use crate::endpoint::Endpoint;
use crate::sender::AckUse;
use crate::states::StateName;
use ft_io::Addr;
use segment_codec::{Head, PacketRef};
use seq_arith::{ACK, FIN, RST, SYN, Seq, has};

/// The most bytes that an IP packet can have.
const LONGEST: usize = 65_535;

fn has_fin(p: PacketRef<'_>) -> bool
    ensures { result ≡ has_fin (segment_of p.entry) }
{
    has(p.head.flags, FIN)
}

fn has_syn(p: PacketRef<'_>) -> bool
    ensures { result ≡ has_syn (segment_of p.entry) }
{
    has(p.head.flags, SYN)
}

fn has_rst(p: PacketRef<'_>) -> bool
    ensures { result ≡ has_rst (segment_of p.entry) }
{
    has(p.head.flags, RST)
}

fn has_ack(p: PacketRef<'_>) -> bool
    ensures { result ≡ has_ack (segment_of p.entry) }
{
    has(p.head.flags, ACK)
}

/// SEG.LEN: the text and the FIN; 1 for a SYN, whose text and FIN aren't counted; 0 for a RST.
fn length_of(p: PacketRef<'_>) -> u32
    requires { length p.payload.now ≤ 65535 }
    ensures count { result ≡ length_of (segment_of p.entry) }
    ensures most { result ≤ 2 ^ 16 }
{
    if has_rst(p) {
        return 0;
    }
    if has_syn(p) {
        return 1;
    }
    p.payload.len() as u32 + u32::from(has_fin(p))
}

/// Whether the segment has neither text nor FIN.
fn is_bare(p: PacketRef<'_>) -> bool
    ensures { result ≡ is_bare (segment_of p.entry) }
{
    p.payload.is_empty() && !has_fin(p)
}

/// The packet with the first 65,535 bytes of its text. No IP packet has more.
#[tactic(auto, using(std::proofs::lemmas::List::take_all, std::proofs::lemmas::List::take_min))]
fn shortened(p: PacketRef<'_>) -> PacketRef<'_>
    ensures short { length result.payload.now ≤ 65535 }
    ensures cut { segment_of result ≡ within_ip (segment_of p.entry) }
    ensures same { length p.entry.payload.now ≤ 65535 → segment_of result ≡ segment_of p.entry }
{
    PacketRef {
        head: p.head,
        payload: &p.payload[..LONGEST.min(p.payload.len())],
    }
}

impl Endpoint {
    /// Receives a packet of the peer. Text past 65,535 bytes is ignored: it is more than IP carries. The contract says what the packet does to the endpoint
    /// as long as the offsets in our stream are at most 2^30, so that numbers modulo 2^32 show their order.
    pub fn on_packet(&mut self, p: PacketRef<'_>)
        ensures any { IsShort self.old.sending → self.new ≡ received self.old (within_ip (segment_of p.entry)) }
        // A text of at most 65,535 bytes isn't cut.
        ensures whole { length p.entry.payload.now ≤ 65535 → IsShort self.old.sending → self.new ≡ received self.old (segment_of p.entry) }
    {
        self.receive(shortened(p));
    }

    #[tactic(auto, unfolding(crate::specs::Arrival::received))]
    fn receive(&mut self, p: PacketRef<'_>)
        requires { length p.payload.now ≤ 65535 }
        ensures { IsShort self.old.sending → self.new ≡ received self.old (segment_of p.entry) }
    {
        match self.name {
            StateName::Closed => self.in_closed(p),
            StateName::Listen => self.in_listen(p),
            StateName::SynSent => self.in_syn_sent(p),
            _ => self.in_others(p),
        }
    }

    /// Answers with a RST at SEG.ACK.
    #[tactic(auto, unfolding(crate::specs::Arrival::with_reset_reply))]
    fn reply_reset(&mut self, p: PacketRef<'_>)
        ensures { self.new ≡ with_reset_reply self.old (segment_of p.entry) }
    {
        self.reset_reply = Some(Head {
            src: self.local.ip,
            dst: p.head.src,
            sport: self.local.port,
            dport: p.head.sport,
            seq: p.head.ack,
            ack: Seq(0),
            flags: RST,
            window: 0,
            mss: None,
            timestamps: None,
        });
    }

    /// Answers a segment without ACK with a RST at number 0 that acknowledges it.
    #[tactic(auto, unfolding(crate::specs::Arrival::with_reset_reply_without_ack))]
    fn reply_reset_without_ack(&mut self, p: PacketRef<'_>)
        requires { length p.payload.now ≤ 65535 }
        ensures { self.new ≡ with_reset_reply_without_ack self.old (segment_of p.entry) }
    {
        self.reset_reply = Some(Head {
            src: self.local.ip,
            dst: p.head.src,
            sport: self.local.port,
            dport: p.head.sport,
            seq: Seq(0),
            ack: Seq(p.head.seq.add(length_of(p)).0),
            flags: RST | ACK,
            window: 0,
            mss: None,
            timestamps: None,
        });
    }

    /// CLOSED (RFC 9293, 3.10.7.1).
    #[tactic(auto, unfolding(crate::specs::Arrival::in_closed))]
    fn in_closed(&mut self, p: PacketRef<'_>)
        requires { length p.payload.now ≤ 65535 }
        ensures { self.new ≡ in_closed self.old (segment_of p.entry) }
    {
        if has_rst(p) {
            return;
        }
        if has_ack(p) {
            self.reply_reset(p);
        } else {
            self.reply_reset_without_ack(p);
        }
    }

    /// Opens the connection that a SYN asks for. Its SYN-ACK becomes due.
    #[tactic(auto, unfolding(crate::specs::Arrival::begun))]
    fn begin(&mut self, p: PacketRef<'_>)
        ensures { self.new ≡ begun self.old (segment_of p.entry) }
    {
        self.remote = Addr {
            ip: p.head.src,
            port: p.head.sport,
        };
        self.name = StateName::SynReceived;
        self.receiver.begin(p.head.seq);
        self.sender.begin(p.head.mss);
        self.retransmission_due = true;
    }

    /// LISTEN (RFC 9293, 3.10.7.2).
    #[tactic(auto, unfolding(crate::specs::Arrival::in_listen))]
    fn in_listen(&mut self, p: PacketRef<'_>)
        ensures { self.new ≡ in_listen self.old (segment_of p.entry) }
    {
        if has_rst(p) {
            return;
        }
        if has_ack(p) {
            self.reply_reset(p);
        } else if has_syn(p) {
            self.begin(p);
        }
    }

    /// Establishes the connection: the peer's SYN acknowledges ours.
    #[tactic(auto, unfolding(crate::specs::Arrival::answered))]
    fn answered(&mut self, p: PacketRef<'_>)
        ensures { self.new ≡ answered self.old (segment_of p.entry) }
    {
        self.name = StateName::Established;
        self.receiver.begin(p.head.seq);
        self.sender.begin(p.head.mss);
        self.sender.open(p.head.seq, p.head.window);
        self.ack_pending = true;
    }

    /// SYN-SENT (RFC 9293, 3.10.7.3), without simultaneous open: a SYN without ACK is ignored.
    #[tactic(auto, unfolding(crate::specs::Arrival::in_syn_sent))]
    fn in_syn_sent(&mut self, p: PacketRef<'_>)
        ensures { self.new ≡ in_syn_sent self.old (segment_of p.entry) }
    {
        if !has_ack(p) {
            return;
        }
        if !self.sender.acks_syn(p.head.ack) {
            if !has_rst(p) {
                self.reply_reset(p);
            }
            return;
        }
        if has_rst(p) {
            self.reset_connection();
        } else if has_syn(p) {
            self.answered(p);
        }
    }

    /// Resets the connection.
    fn reset_connection(&mut self)
        ensures { self.new ≡ with_reset self.old }
    {
        self.name = StateName::Closed;
        self.reset = true;
    }

    /// Enters a state. TIME-WAIT lasts four ticks.
    fn enter(&mut self, name: StateName)
        ensures { self.new ≡ entering name self.old }
    {
        if name.is_time_wait() && !self.name.is_time_wait() {
            self.wait = 4;
        }
        self.name = name;
    }

    /// Notes that this turn's input requires an ACK, if `is_ack_pending` is true.
    fn make_ack_pending(&mut self, is_ack_pending: bool)
        ensures { self.new ≡ with_ack_pending_if is_ack_pending self.old }
    {
        self.ack_pending = self.ack_pending || is_ack_pending;
    }

    /// RFC 9293, 3.10.7.4, first check: a segment that is neither acceptable nor specially allowed (`is_allowed`) requires an ACK, unless it is a RST.
    #[tactic(auto, unfolding(crate::proofs::Unfolded::in_others_words))]
    fn in_others(&mut self, p: PacketRef<'_>)
        requires { length p.payload.now ≤ 65535 }
        ensures { IsShort self.old.sending → self.new ≡ in_others self.old (segment_of p.entry) }
    {
        self.restart_time_wait(p);
        if self.receiver.accepts(p.head.seq, length_of(p)) || self.is_allowed(p) {
            self.check_rst(p);
        } else {
            self.make_ack_pending(!has_rst(p));
        }
    }

    /// First check, special allowance: at a zero window a segment at RCV.NXT is processed further, in SYN-RECEIVED only where it acknowledges the SYN.
    #[tactic(auto, unfolding(crate::specs::Arrival::is_allowed))]
    fn is_allowed(&self, p: PacketRef<'_>) -> bool
        ensures allowed { result ≡ is_allowed self.now (segment_of p.entry) }
        // Such a segment begins where numbers show the order of offsets.
        ensures near { OnTrue result (IsNearFirst (first self.now (segment_of p.entry))) }
    {
        self.receiver.allows(p.head.seq)
            && (self.sender.is_syn_acked() || self.sender.acks_syn(p.head.ack))
    }

    /// Restarts TIME-WAIT where the peer repeats its FIN.
    #[tactic(auto, unfolding(crate::specs::Arrival::with_time_wait_restarted))]
    fn restart_time_wait(&mut self, p: PacketRef<'_>)
        requires { length p.payload.now ≤ 65535 }
        ensures { self.new ≡ with_time_wait_restarted self.old (segment_of p.entry) }
    {
        let is_fin = has_fin(p) && !has_syn(p) && !has_rst(p);
        if self.name.is_time_wait()
            && is_fin
            && self.receiver.ends(p.head.seq, p.payload.len() as u32)
        {
            self.wait = 4;
        }
    }

    /// Second check: RST.
    #[tactic(auto, unfolding(crate::specs::Arrival::check_rst))]
    pub(crate) fn check_rst(&mut self, p: PacketRef<'_>)
        requires short { length p.payload.now ≤ 65535 }
        requires near { IsNearFirst (first self.old (segment_of p)) }
        ensures { IsShort self.old.sending → self.new ≡ check_rst self.old (segment_of p.entry) }
    {
        if !has_rst(p) {
            self.check_syn(p);
        } else if self.receiver.is_next(p.head.seq) {
            self.reset_connection();
        } else {
            self.make_ack_pending(true);
        }
    }

    /// Fourth check: SYN.
    #[tactic(auto, unfolding(crate::specs::Arrival::check_syn))]
    fn check_syn(&mut self, p: PacketRef<'_>)
        requires short { length p.payload.now ≤ 65535 }
        requires near { IsNearFirst (first self.old (segment_of p)) }
        ensures { IsShort self.old.sending → self.new ≡ check_syn self.old (segment_of p.entry) }
    {
        if has_syn(p) {
            self.make_ack_pending(true);
            return;
        }
        self.make_ack_pending(length_of(p) > 0);
        self.check_ack(p);
    }

    /// Fifth check: ACK.
    #[tactic(auto, unfolding(crate::specs::Arrival::check_ack))]
    fn check_ack(&mut self, p: PacketRef<'_>)
        requires short { length p.payload.now ≤ 65535 }
        requires near { IsNearFirst (first self.old (segment_of p)) }
        ensures { IsShort self.old.sending → self.new ≡ check_ack self.old (segment_of p.entry) }
    {
        if !has_ack(p) {
            return;
        }
        if self.sender.is_syn_acked() {
            self.use_ack(p);
        } else {
            self.use_first_ack(p);
        }
    }

    /// Fifth check, in SYN-RECEIVED.
    #[tactic(auto, unfolding(crate::specs::Arrival::with_first_ack))]
    fn use_first_ack(&mut self, p: PacketRef<'_>)
        requires short { length p.payload.now ≤ 65535 }
        requires near { IsNearFirst (first self.old (segment_of p)) }
        ensures { self.new ≡ with_first_ack self.old (segment_of p.entry) }
    {
        if !self.sender.acks_syn(p.head.ack) {
            self.reply_reset(p);
            return;
        }
        self.name = StateName::after_syn_acked(self.sender.is_closed());
        self.sender.open(p.head.seq, p.head.window);
        self.take_text_and_fin(p);
    }

    /// Fifth check, in the other states.
    #[tactic(auto, unfolding(crate::specs::Arrival::with_ack))]
    fn use_ack(&mut self, p: PacketRef<'_>)
        requires short { length p.payload.now ≤ 65535 }
        requires near { IsNearFirst (first self.old (segment_of p)) }
        ensures { IsShort self.old.sending → self.new ≡ with_ack self.old (segment_of p.entry) }
    {
        if self.note_ack(p) {
            self.note_fin_acked();
            self.take_text_and_fin(p);
        } else {
            self.make_ack_pending(true);
        }
    }

    /// Uses the acknowledgement and the window. Returns false, and changes nothing, where the acknowledgement is ahead of SND.NXT.
    #[tactic(auto, unfolding(crate::specs::Arrival::with_ack_used))]
    pub(crate) fn note_ack(&mut self, p: PacketRef<'_>) -> bool
        ensures used { IsShort self.old.sending → result ≡ not (is_ahead self.old.sending.sent (ack_at self.old (segment_of p.entry))) }
        ensures state { IsShort self.old.sending
            → self.new ≡ (if is_ahead self.old.sending.sent (ack_at self.old (segment_of p.entry)) then self.old
            else with_ack_used self.old (segment_of p.entry)) }
        ensures receiving { self.new.receiving ≡ self.old.receiving }
    {
        let head = p.head;
        match self
            .sender
            .on_ack(head.seq, head.ack, head.window, is_bare(p))
        {
            AckUse::Ahead => false,
            AckUse::Used => true,
            AckUse::ShowsLoss => {
                self.retransmission_due = true;
                true
            }
        }
    }

    /// Enters the next state where our FIN is acknowledged.
    #[tactic(auto, unfolding(crate::specs::Arrival::with_fin_acked))]
    fn note_fin_acked(&mut self)
        ensures state { self.new ≡ with_fin_acked self.old }
        ensures receiving { self.new.receiving ≡ self.old.receiving }
    {
        if self.sender.fin_acked() {
            self.enter(self.name.after_fin_acked());
        }
    }

    /// Seventh and eighth check: text and FIN are taken, or held.
    #[tactic(auto, unfolding(crate::specs::Arrival::with_text_and_fin))]
    fn take_text_and_fin(&mut self, p: PacketRef<'_>)
        requires short { length p.payload.now ≤ 65535 }
        requires near { IsNearFirst (first self.old (segment_of p)) }
        ensures { self.new ≡ with_text_and_fin self.old (segment_of p.entry) }
    {
        let had_fin = self.receiver.has_fin();
        self.receiver.take(p.head.seq, p.payload, has_fin(p));
        if self.receiver.has_fin() && !had_fin {
            self.enter(self.name.after_fin());
        }
    }
}
