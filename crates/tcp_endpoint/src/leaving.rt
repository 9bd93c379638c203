//! The end of a turn: what is sent, in order (RFC 9293, 3.7, 3.8.1, 3.8.6.1 and 3.10.7.4), and the timer.

ghost use Rattle.limits.specs.Limits.{largest_segment, longest_packet};
ghost use Rattle.std.specs.Prelude.{◌≡◌, ℕ, ◌+◌, ◌*◌, ◌-◌, ◌<◌, ◌≤◌, ◌==◌, ◌&&◌, ◌||◌, Bool, true, false, Some, List, [], ◌∷◌, ◌++◌, length};
ghost use Rattle.std.specs.Prelude.{if◌then◌else◌};
ghost use Rattle.seq_arith.specs.Packet.{Segment};
ghost use Rattle.seq_arith.specs.PacketGrammar.{options_of, spelling};
ghost use Rattle.segment_codec.specs.Value.{said};
ghost use Rattle.segment_codec.specs.Spelling.{segment_with};
ghost use Rattle.tcp_endpoint.specs.Packets.{byte_count, IsReadable, AreReadable};
ghost use Rattle.tcp_endpoint.specs.SendHalf.{in_flight};
ghost use Rattle.tcp_endpoint.specs.Output.{head_at, opening_segment, text_at, fin_at, texts, reset_reply_out, retransmission_out, probe_out};
ghost use Rattle.tcp_endpoint.specs.Output.{with_probe, text_out};
ghost use Rattle.tcp_endpoint.specs.Output.{with_text_sent, new_length, fin_out, with_fin_out, with_timed, is_ack_pending, bare_segment, leaving};
ghost use Rattle.tcp_endpoint.specs.Output.{full_out, with_ack_delayed, with_advertised, is_timed};
ghost use Rattle.tcp_endpoint.specs.Output.{with_turn_ended, flushed, packets, or_bare};

use crate::endpoint::Endpoint;
use crate::outbox::Outbox;
use limits::SEGMENT;
use segment_codec::Head;
use seq_arith::{ACK, FIN, SYN, Seq};

impl Endpoint {
    /// Ends the turn: puts the packets that it sends into `out`, which is empty before. They are at most 1,030, of at most 110,000 bytes in all.
    #[tactic(auto, using(crate::proofs::Spelled::leaving_is), unfolding(crate::specs::Output::flushed, crate::specs::Output::after_full))]
    pub fn flush(&mut self, out: &mut Outbox)
        requires { out.old ≡ [] }
        ensures state { self.new ≡ flushed self.old }
        ensures sent { out.new ≡ packets (leaving self.old) }
        ensures count { length out.new ≤ 1030 }
        ensures bytes { byte_count out.new ≤ 110000 }
        ensures readable { AreReadable (leaving self.old) }
    {
        self.send_reset_reply(out);
        self.retransmit(out);
        self.send_probe(out);
        let place = self.in_flight();
        self.send_text(out);
        self.send_fin(out);
        self.time_first(place);
        self.send_pending_ack(out);
        self.end_turn();
    }

    /// The header of every segment except a RST sent in reply.
    #[tactic(auto, unfolding(crate::specs::Output::head_at))]
    fn head(&self, seq: Seq, flags: u8) -> Head
        ensures head { said result ≡ head_at self.now seq.0 flags }
        ensures size { length (options_of (said result)) ≡ 0 }
    {
        Head {
            src: self.local.ip,
            dst: self.remote.ip,
            sport: self.local.port,
            dport: self.remote.port,
            seq,
            ack: self.receiver.next_number(),
            flags,
            window: self.receiver.window(),
            mss: None,
            timestamps: None,
        }
    }

    /// The header of the SYN or of the SYN-ACK.
    #[tactic(auto, unfolding(crate::specs::Output::opening_segment))]
    fn opening_head(&self) -> Head
        ensures { segment_with result [] ≡ opening_segment self.now }
    {
        if self.name.is_syn_sent() {
            let head = self.head(self.sender.iss(), SYN);
            return Head {
                ack: Seq(0),
                mss: Some(SEGMENT),
                ..head
            };
        }
        let head = self.head(self.sender.iss(), SYN | ACK);
        Head {
            mss: Some(SEGMENT),
            ..head
        }
    }

    /// Sends the RST in reply to a segment, where one is due.
    #[tactic(auto, using(crate::proofs::Cited::send_reset_reply_lemmas), unfolding(crate::specs::Output::reset_reply_out))]
    fn send_reset_reply(&self, out: &mut Outbox)
        requires { out.old ≡ [] }
        ensures sent { out.new ≡ packets (reset_reply_out self.now) }
        ensures count { length out.new ≤ 1 }
        ensures bytes { byte_count out.new ≤ 56 }
        ensures readable { AreReadable (reset_reply_out self.now) }
    {
        if let Some(head) = self.reset_reply {
            out.push_segment(&head, &[], &[]);
        }
    }

    /// Sends `n` bytes of text that begin `place` units after SND.UNA.
    #[tactic(auto, unfolding(crate::specs::Output::text_at))]
    fn send_text_at(&self, place: u32, n: u32, out: &mut Outbox)
        requires text { place + n ≤ length self.now.sending.held }
        requires size { n ≤ largest_segment }
        requires count { length out.old < 1100 }
        requires bytes { byte_count out.old ≤ 118000 }
        ensures sent { out.new ≡ out.old ++ spelling (text_at self.now place n) ∷ [] }
        ensures count { length out.new ≡ length out.old + 1 }
        ensures bytes { byte_count out.new ≡ byte_count out.old + 40 + n }
        ensures readable { IsReadable (text_at self.now place n) }
    {
        let head = self.head(self.sender.number_behind(place), ACK);
        let (front, back) = self.sender.text(place, n);
        out.push_segment(&head, front, back);
    }

    /// Sends the FIN, `place` units after SND.UNA.
    #[tactic(auto, unfolding(crate::specs::Output::fin_at))]
    fn send_fin_at(&self, place: u32, out: &mut Outbox)
        requires count { length out.old < 1100 }
        requires bytes { byte_count out.old ≤ 118000 }
        ensures sent { out.new ≡ out.old ++ spelling (fin_at self.now place) ∷ [] }
        ensures count { length out.new ≡ length out.old + 1 }
        ensures bytes { byte_count out.new ≡ byte_count out.old + 40 }
        ensures readable { IsReadable (fin_at self.now place) }
    {
        let head = self.head(self.sender.number_behind(place), FIN | ACK);
        out.push_segment(&head, &[], &[]);
    }

    /// Sends the first unacknowledged segment, where it is due.
    #[tactic(auto, using(crate::proofs::Cited::retransmit_lemmas), unfolding(crate::proofs::Unfolded::retransmit_words))]
    fn retransmit(&self, out: &mut Outbox)
        requires count { length out.old ≤ 1 }
        requires bytes { byte_count out.old ≤ 56 }
        ensures sent { out.new ≡ out.old ++ packets (retransmission_out self.now) }
        ensures count { length out.new ≤ length out.old + 1 }
        ensures bytes { byte_count out.new ≤ byte_count out.old + longest_packet }
        ensures readable { AreReadable (retransmission_out self.now) }
    {
        if !self.retransmission_due || self.name.is_closed() || !self.sender.is_unacknowledged() {
            return;
        }
        if !self.sender.is_syn_acked() {
            out.push_segment(&self.opening_head(), &[], &[]);
        } else if self.sender.held() == 0 {
            self.send_fin_at(0, out);
        } else {
            self.send_text_at(0, self.sender.resent_length(), out);
        }
    }

    /// Sends a probe, where it is due.
    #[tactic(auto, using(crate::proofs::Cited::send_probe_lemmas), unfolding(crate::specs::Output::probe_out, crate::specs::Output::with_probe))]
    fn send_probe(&mut self, out: &mut Outbox)
        requires count { length out.old ≤ 2 }
        requires bytes { byte_count out.old ≤ 1556 }
        ensures state { self.new ≡ with_probe self.old }
        ensures sent { out.new ≡ out.old ++ packets (probe_out self.old) }
        ensures count { length out.new ≤ length out.old + 1 }
        ensures bytes { byte_count out.new ≤ byte_count out.old + 41 }
        ensures readable { AreReadable (probe_out self.old) }
    {
        if !self.probe
            || !self.name.has_begun()
            || !self.sender.is_syn_acked()
            || self.sender.is_fin_sent()
        {
            return;
        }
        let place = self.sender.in_flight();
        if (place as usize) < self.sender.held() {
            self.send_text_at(place, 1, out);
            self.sender.note_sent(1);
        } else if self.sender.is_closed() {
            self.send_fin_at(place, out);
            self.sender.note_fin_sent();
        }
    }

    /// How many bytes are sent for the first time.
    fn new_length(&self) -> u32
        ensures count { result ≡ new_length self.now }
        ensures held { 0 < result → in_flight self.now.sending + result ≤ length self.now.sending.held }
        ensures short { result ≤ 65535 }
    {
        if self.name.has_begun() {
            self.sender.sendable()
        } else {
            0
        }
    }

    /// Sends text for the first time.
    #[tactic(auto, unfolding(crate::specs::Output::text_out, crate::specs::Output::with_text_sent))]
    fn send_text(&mut self, out: &mut Outbox)
        requires count { length out.old ≤ 3 }
        requires bytes { byte_count out.old ≤ 1597 }
        ensures state { self.new ≡ with_text_sent self.old }
        ensures sent { out.new ≡ out.old ++ packets (text_out self.old) }
        ensures count { length out.new ≤ length out.old + 1024 }
        ensures bytes { byte_count out.new ≤ byte_count out.old + 106495 }
        ensures readable { AreReadable (text_out self.old) }
    {
        let n = self.new_length();
        self.send_texts(self.sender.in_flight(), n, out);
        self.sender.note_sent(n);
    }

    /// Sends `left` bytes of text, from `place` units after SND.UNA on, in segments of the segment size. The last may be shorter.
    fn send_texts(&self, mut place: u32, mut left: u32, out: &mut Outbox)
        requires text { 0 < left → place + left ≤ length self.now.sending.held }
        requires near { place ≤ 65536 }
        requires short { left ≤ 65535 }
        requires count { length out.old ≤ 3 }
        requires bytes { byte_count out.old ≤ 1597 }
        ensures sent { out.new ≡ out.old ++ packets (texts left self.now place left) }
        ensures count { length out.new ≤ length out.old + 1024 }
        ensures bytes { byte_count out.new ≤ byte_count out.old + 106495 }
        ensures readable { AreReadable (texts left self.now place left) }
    {
        while left > 0 {
            let n = left.min(self.sender.mss());
            self.send_text_at(place, n, out);
            place += n;
            left -= n;
        }
    }

    /// Sends the FIN for the first time, where it is due.
    #[tactic(auto, using(crate::proofs::Cited::send_probe_lemmas), unfolding(crate::specs::Output::fin_out, crate::specs::Output::with_fin_out))]
    fn send_fin(&mut self, out: &mut Outbox)
        requires count { length out.old ≤ 1027 }
        requires bytes { byte_count out.old ≤ 108092 }
        ensures state { self.new ≡ with_fin_out self.old }
        ensures sent { out.new ≡ out.old ++ packets (fin_out self.old) }
        ensures count { length out.new ≤ length out.old + 1 }
        ensures bytes { byte_count out.new ≤ byte_count out.old + 40 }
        ensures readable { AreReadable (fin_out self.old) }
    {
        if self.name.has_begun() && self.sender.sends_fin() {
            self.send_fin_at(self.sender.in_flight(), out);
            self.sender.note_fin_sent();
        }
    }

    /// The units sent and not acknowledged.
    fn in_flight(&self) -> u32
        ensures { result ≡ in_flight self.now.sending }
    {
        self.sender.in_flight()
    }

    /// Times the unit that is `place` units after SND.UNA, if it was sent by now and none is timed.
    #[tactic(auto, unfolding(crate::specs::Output::with_timed))]
    fn time_first(&mut self, place: u32)
        ensures { self.new ≡ with_timed place self.old }
    {
        self.sender.time_unit(place);
    }

    /// Whether an ACK is due in a connection that has begun: this turn's input requires one, or RCV.NXT or the right edge differs from the one last sent.
    #[tactic(auto, unfolding(crate::specs::Output::is_ack_pending))]
    fn is_ack_pending(&self) -> bool
        ensures { result ≡ is_ack_pending self.now }
    {
        self.name.has_begun()
            && (self.ack_pending
                || self.last_ack_sent != self.receiver.next()
                || self.last_advertised_edge != self.receiver.advertised_edge())
    }

    /// Whether a pure ACK is sent: an ACK is due, and no other segment is sent.
    fn sends_bare(&self, out: &Outbox) -> bool
        ensures { result ≡ ((length out.now == 0) && is_ack_pending self.now) }
    {
        out.is_empty() && self.is_ack_pending()
    }

    /// Sends a pure ACK, if an ACK is due and no other segment is sent.
    #[tactic(auto, unfolding(crate::specs::Output::bare_segment))]
    fn send_pending_ack(&self, out: &mut Outbox)
        requires count { length out.old ≤ 1028 }
        requires bytes { byte_count out.old ≤ 108132 }
        ensures sent { out.new ≡ or_bare (is_ack_pending self.now) (spelling (bare_segment self.now)) out.old }
        ensures count { length out.new ≤ length out.old + 1 }
        ensures bytes { byte_count out.new ≤ byte_count out.old + 40 }
        ensures readable { (full : List Segment) → out.old ≡ packets full → AreReadable full
            → AreReadable (or_bare (is_ack_pending self.now) (bare_segment self.now) full) }
    {
        if self.sends_bare(out) {
            let seq = self.sender.number_behind(self.sender.in_flight());
            out.push_segment(&self.head(seq, ACK), &[], &[]);
        }
    }

    /// Delays the ACK that is due in this turn: the flush doesn't send it alone (RFC 9293, 3.8.6.3). Segments that are sent for another reason acknowledge as
    /// ever, and the turn ends as ever. A user who knows that more will be acknowledged soon calls it before the flush.
    #[tactic(auto, using(crate::proofs::Delayed::delayed_leaves, crate::proofs::Delayed::delayed_ends))]
    pub fn delay_ack(&mut self)
        ensures state { self.new ≡ with_ack_delayed self.old }
        ensures sent { leaving self.new ≡ full_out self.old }
        ensures ended { flushed self.new ≡ flushed self.old }
    {
        self.count_as_sent();
    }

    /// Notes that the ACK that is due counts as sent.
    #[tactic(auto, unfolding(crate::specs::Output::with_ack_delayed))]
    fn count_as_sent(&mut self)
        ensures { self.new ≡ with_ack_delayed self.old }
    {
        if self.name.has_begun() {
            self.last_ack_sent = self.receiver.next();
            self.last_advertised_edge = self.receiver.advertised_edge();
        }
        self.ack_pending = false;
    }

    /// Notes what was advertised, and that nothing is due any more.
    #[tactic(auto, unfolding(crate::specs::Output::with_advertised))]
    fn note_advertised(&mut self)
        ensures { self.new ≡ with_advertised self.old }
    {
        if self.name.has_begun() {
            self.last_ack_sent = self.receiver.next();
            self.last_advertised_edge = self.receiver.advertised_edge();
        }
        self.ack_pending = false;
        self.retransmission_due = false;
        self.probe = false;
        self.reset_reply = None;
    }

    /// Whether the timer runs.
    fn is_timed(&self) -> bool
        ensures { result ≡ is_timed self.now }
    {
        (self.name.has_begun() || self.name.is_syn_sent()) && self.sender.must_run()
    }

    /// Notes what was advertised, and starts or stops the timer.
    #[tactic(auto, unfolding(crate::specs::Output::with_turn_ended, crate::specs::Output::with_advertised))]
    fn end_turn(&mut self)
        ensures { self.new ≡ with_turn_ended self.old }
    {
        self.note_advertised();
        let runs = self.is_timed();
        self.sender.set_timer(runs);
    }
}
