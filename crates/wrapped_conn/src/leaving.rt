//! The segments that a turn sends: TCP's, each through the south wrapper, and those that the connection adds.

ghost use Rattle.std.specs.Prelude.{◌≡◌, ◌≤◌, ◌<◌, ◌+◌, ◌-◌, ◌==◌, min, ◌∷◌, ◌++◌, [], Some, None, List, Option, length, IsOk, IfOk};
ghost use Rattle.std.specs.Bool.{OnTrue};
ghost use Rattle.std.specs.Prelude.{Ok, not, true, is_some, map, if◌then◌else◌};
ghost use Rattle.std.specs.List.{AllByRecursion, list_any};
ghost use Rattle.seq_arith.specs.Packet.{Segment, has_rst};
ghost use Rattle.seq_arith.specs.PacketGrammar.{packet_length, reading, spelling};
ghost use Rattle.limits.specs.Limits.{longest_packet};
ghost use Rattle.tcp_rules.specs.Timestamping.{timestamps_sent};
ghost use Rattle.south_wrap.specs.Translation.{outward};
ghost use Rattle.segment_codec.specs.Value.{said};
ghost use Rattle.tcp_endpoint.specs.Output.{leaving, packets, or_bare};
ghost use Rattle.tcp_endpoint.specs.Packets.{AreReadable, byte_count};
ghost use Rattle.wrapped_conn.specs.Output.{passed, AllFit, turn_ended, is_delayed, tcp_out, own_segment, syn_ack, bare, is_ack_pending};
ghost use Rattle.wrapped_conn.specs.Sound.{IsSound};

use crate::conn::Conn;
use crate::stage::Before;
use limits::{BUFFER, PACKET, SEGMENT};
use segment_codec::{Head, write_packet};
use seq_arith::{ACK, SYN, Seq};
use server_trait::Service;
use south_wrap::South;
use std::mem;
use tcp_endpoint::Outbox;

impl<S: Service> Conn<S> {
    /// Ends TCP's turn, and passes on what it sends.
    #[tactic(auto, using(crate::proofs::Cited::flush_lemmas))]
    pub(crate) fn flush(&mut self, out: &mut Outbox, spare: &mut Outbox)
        requires sound { IsSound self.old }
        requires empty { out.old ≡ [] }
        ensures state { self.new ≡ turn_ended self.old }
        ensures sent { out.new ≡ packets (passed (turn_ended self.old).south (leaving self.old.endpoint)) }
        ensures count { length out.new ≤ 1030 }
        ensures bytes { byte_count out.new ≤ 123000 }
        ensures sound { IsSound self.new }
    {
        self.endpoint.flush(out);
        let sent = self.sent();
        self.south.sent(sent);
        pass(&mut self.south, out, spare);
    }

    /// Has TCP delay its ACK, where that waits for the log.
    #[tactic(auto, using(crate::proofs::Cited::delay_ack_lemmas))]
    pub(crate) fn delay_ack(&mut self, before: Before)
        requires sound { IsSound self.old }
        ensures sent { leaving self.new.endpoint ≡ tcp_out before self.old }
        ensures ended { turn_ended self.new ≡ turn_ended self.old }
        ensures sound { IsSound self.new }
    {
        if self.is_delayed(before) {
            self.endpoint.delay_ack();
        }
    }

    /// Whether the ACK of what the turn's segment brought waits for the log, whose answer makes it due.
    pub(crate) fn is_delayed(&self, before: Before) -> bool
        requires { IsSound self.now }
        ensures { result ≡ is_delayed before self.now }
    {
        let acknowledgeable = self.acknowledgeable();
        self.delays
            && before.segment
            && u64::from(before.taken) + u64::from(before.fin) < u64::from(self.taken_units())
            && !self.endpoint.holds_early()
            && before.acknowledgeable == acknowledgeable
            && window(before.edge, before.acknowledgeable) == window(self.edge(), acknowledgeable)
    }

    /// The header of a segment that the connection adds to TCP's.
    fn head(&self, seq: Seq, flags: u8, mss: Option<u16>) -> Head
        ensures { record { head = said result; payload = [] } ≡ own_segment self.now seq.0 flags mss }
    {
        let reported = self.south.ack_now();
        Head {
            src: self.local.ip,
            dst: self.key.ip,
            sport: self.local.port,
            dport: self.key.port,
            seq,
            ack: reported.ack,
            flags,
            window: reported.window,
            mss,
            timestamps: self.south.timestamping().sent(),
        }
    }

    /// Sends the SYN-ACK with the logged numbers, where the client has repeated its SYN.
    #[tactic(auto, unfolding(crate::specs::Output::syn_ack))]
    pub(crate) fn send_syn_ack(&self, repeats: bool, out: &mut Outbox)
        requires count { length out.old ≤ 1030 }
        requires bytes { byte_count out.old ≤ 123000 }
        ensures { out.new ≡ (if repeats then out.old ++ spelling (syn_ack self.now) ∷ [] else out.old) }
    {
        if !repeats {
            return;
        }
        push_bare(&self.head(self.south.sisn(), SYN | ACK, Some(SEGMENT)), out);
    }

    /// Sends a pure ACK, if an ACK is pending and no other segment is sent.
    #[tactic(auto, unfolding(crate::specs::Output::bare))]
    pub(crate) fn send_bare(&self, ack_pending: bool, out: &mut Outbox)
        ensures { out.new ≡ or_bare ack_pending (spelling (bare self.now)) out.old }
    {
        if !ack_pending || !out.is_empty() {
            return;
        }
        push_bare(&self.head(self.sent_number(), ACK, None), out);
    }

    /// Whether an ACK is pending that TCP doesn't send: TCP can't know that more is answered, or that the connection was over or just became live; and a TCP
    /// that is CLOSED sends none.
    pub(crate) fn is_ack_pending(&self, before: Before) -> bool
        requires { IsSound self.now }
        ensures { result ≡ is_ack_pending before self.now }
    {
        before.asks || (self.is_closed() && (before.needs_ack || before.edge != self.edge()))
    }
}

/// Sends a segment without text.
#[tactic(auto, using(seq_arith::proofs::Units::options_short))]
fn push_bare(head: &Head, out: &mut Outbox)
    requires count { length out.old ≤ 1030 }
    requires bytes { byte_count out.old ≤ 123000 }
    ensures { out.new ≡ out.old ++ spelling (record { head = said head.now; payload = [] }) ∷ [] }
{
    let mut packet = [0u8; PACKET];
    let len = write_packet(head, &[], &mut packet);
    out.push_longer(&packet[..len]);
}

/// The window from an offset up to a right edge.
fn window(edge: u32, from: u32) -> u32
    ensures { result ≡ min 65535 (edge - from) }
{
    edge.saturating_sub(from).min(BUFFER)
}

/// Passes TCP's segments to the client: with the connection's timestamps, if it has them.
fn pass(south: &mut South, out: &mut Outbox, spare: &mut Outbox)
    requires accepted { AllByRecursion (λ packet. IsOk (reading packet)) out.old }
    requires spelled { (segments : List Segment) × (out.old ≡ packets segments) × AreReadable segments
        × (is_some (timestamps_sent south.old.timestamping) ≡ true → AllFit south.old segments) }
    requires count { length out.old ≤ 1030 }
    requires bytes { byte_count out.old ≤ 110000 }
    ensures south { south.new ≡ south.old }
    ensures passed { (segments : List Segment) → out.old ≡ packets segments → AreReadable segments → out.new ≡ packets (passed south.old segments) }
    ensures count { length out.new ≤ 1030 }
    ensures bytes { byte_count out.new ≤ 123000 }
{
    match south.timestamping().sent() {
        None => pass_outward(south, out),
        Some(_) => pass_stamped(south, out, spare),
    }
}

/// Passes TCP's segments to the client, changed by the south wrapper. If there is a RST, which TCP sends alone, it passes nothing.
fn pass_outward(south: &mut South, out: &mut Outbox)
    requires accepted { AllByRecursion (λ packet. IsOk (reading packet)) out.old }
    requires off { timestamps_sent south.old.timestamping ≡ None }
    ensures south { south.new ≡ south.old }
    ensures passed { (segments : List Segment) → out.old ≡ packets segments → AreReadable segments → out.new ≡ packets (passed south.old segments) }
    ensures count { length out.new ≤ length out.old }
    ensures bytes { byte_count out.new ≤ byte_count out.old }
{
    for i in 0..out.len() {
        if !south.outward(out.packet_mut(i)) {
            out.clear();
            return;
        }
    }
}

/// Does the same with the connection's timestamps, which make the segments longer: they are written into `spare`, which then changes places with `out`.
fn pass_stamped(south: &South, out: &mut Outbox, spare: &mut Outbox)
    requires spelled { (segments : List Segment) × (out.old ≡ packets segments) × AreReadable segments × AllFit south.now segments }
    requires count { length out.old ≤ 1030 }
    requires bytes { byte_count out.old ≤ 110000 }
    ensures passed { (segments : List Segment) → out.old ≡ packets segments → AreReadable segments → out.new ≡ packets (passed south.now segments) }
    ensures count { length out.new ≤ 1030 }
    ensures bytes { byte_count out.new ≤ 123000 }
{
    spare.clear();
    if append_all(south, out, spare) {
        mem::swap(out, spare);
    } else {
        out.clear();
    }
}

/// Appends all of TCP's segments as the ones for the client, and returns true; or returns false where there is a RST.
fn append_all(south: &South, segments: &Outbox, out: &mut Outbox) -> bool
    requires spelled { (own : List Segment) × (segments.now ≡ packets own) × AreReadable own × AllFit south.now own }
    requires empty { out.old ≡ [] }
    requires count { length segments.now ≤ 1030 }
    requires bytes { byte_count segments.now ≤ 110000 }
    ensures passed { (own : List Segment) → segments.now ≡ packets own → AreReadable own
        → (result ≡ not (list_any has_rst own)) × OnTrue result (out.new ≡ packets (map (outward south.now) own)) }
    ensures count { OnTrue result (length out.new ≤ 1030) }
    ensures bytes { OnTrue result (byte_count out.new ≤ 123000) }
{
    for i in 0..segments.len() {
        if !append_stamped(south, segments.packet(i), out) {
            return false;
        }
    }
    true
}

/// Appends TCP's segment as the one for the client, with the connection's timestamps, and returns true; or returns false for a RST.
fn append_stamped(south: &South, packet: &[u8], out: &mut Outbox) -> bool
    requires accepted { IsOk (reading packet.now) }
    requires fits { IfOk (reading packet.now) (λ segment. packet_length (outward south.now segment) ≤ longest_packet) }
    requires count { length out.old ≤ 1030 }
    requires bytes { byte_count out.old ≤ 122500 }
    ensures answer { IfOk (reading packet.now) (λ segment. result ≡ not (has_rst segment)) }
    ensures appended { (segment : Segment) → reading packet.now ≡ Ok segment → OnTrue result (out.new ≡ out.old ++ spelling (outward south.now segment) ∷ []) }
{
    let mut bytes = [0u8; PACKET];
    let Some(len) = south.outward_with_timestamps(packet, &mut bytes) else {
        return false;
    };
    out.push_longer(&bytes[..len]);
    true
}
