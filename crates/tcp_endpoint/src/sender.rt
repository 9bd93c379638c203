//! The sending half of a connection. It compares numbers of our stream, modulo 2^32, with the help of `SendState`. Contracts speak of offsets in our stream,
//! whatever its initial sequence number.

ghost use Rattle.limits.specs.Limits.{buffer_size, largest_segment, least_segment};
ghost use Rattle.std.specs.Prelude.{◌≡◌, ℕ, ◌+◌, ◌-◌, ◌%◌, ◌^◌, ◌<◌, ◌≤◌, ◌==◌, ◌&&◌, ◌||◌, pos, int_le, Bool, false, true, not, List, [], ◌++◌};
ghost use Rattle.std.specs.Prelude.{length, min, take};
ghost use Rattle.std.specs.Prelude.{drop, if◌then◌else◌};
ghost use Rattle.seq_arith.specs.Number.{number_at, offset_of};
ghost use Rattle.tcp_rules.specs.Arrival.{int_eq};
ghost use Rattle.tcp_rules.specs.Congestion.{initial_window, is_third};
ghost use Rattle.seq_arith.specs.Packet.{segment_size};
ghost use Rattle.tcp_buffers.specs.Near.{is_ahead};
ghost use Rattle.tcp_endpoint.specs.SendHalf.{sending_measuring, with_segment_size, with_syn_acked, fin_acked, in_flight, is_unacknowledged, expires};
ghost use Rattle.tcp_endpoint.specs.SendHalf.{is_first_expiry, ticked, must_run, timed};
ghost use Rattle.tcp_endpoint.specs.SendHalf.{send_edge, sendable, sends_fin, resent_length, with_sent, with_fin_sent, with_unit_timed};
ghost use Rattle.tcp_endpoint.specs.SendHalf.{units_of, was_sent, repeats, acks_part, timing_by, restarted, acknowledged, is_duplicate};
ghost use Rattle.tcp_endpoint.specs.SendHalf.{is_partial_ack, duplicated};
ghost use Rattle.tcp_endpoint.specs.SendHalf.{untimed_if, answered_by, use_of, NumbersFit, IsShort};
ghost use Rattle.tcp_endpoint.specs.declared.sender.AckUse.TheVariants.{Used, ShowsLoss};

use limits::BUFFER;
use seq_arith::{Seq, segment_size};
use std::marker::Model;
use tcp_buffers::{AckKind, SendQueue, SendState, Timing};

/// How an acknowledgement counts for the sender.
#[derive(Clone, Copy, PartialEq, Eq)]
pub(crate) enum AckUse {
    /// It is ahead of SND.NXT, and nothing of it is used.
    Ahead,
    /// It is used.
    Used,
    /// It is used, and shows that the first unacknowledged segment is lost: it is the third duplicate in a row, or a partial acknowledgement.
    ShowsLoss,
}

/// What is known of our stream.
#[derive(Drop)]
pub(crate) struct Sender {
    /// ISS: our initial sequence number.
    iss: Seq,
    /// Whether the SYN is acknowledged.
    syn_acked: bool,
    /// SND.UNA, SND.NXT, SND.WND, SND.WL1, SND.WL2, the timer, the segment size and the congestion window.
    numbers: SendState,
    /// The estimate of the round-trip time.
    timing: Timing,
    /// The bytes written and not acknowledged, from SND.UNA on.
    held: SendQueue,
    /// Whether the user has closed: a FIN follows the bytes written.
    closed: bool,
    /// Whether the FIN is sent.
    fin_sent: bool,
}

impl Model for Sender {
    ghost use Rattle.tcp_endpoint.specs.SendHalf.{Sending, sending_of, SenderInvariant};

    ghost Value = { Sending };

    ghost view = { λ s. sending_of s.iss.0 s.syn_acked s.numbers s.timing s.held s.closed s.fin_sent };

    ghost invariant = { λ s. SenderInvariant s.numbers s.held s.fin_sent };
}

impl Sender {
    /// Creates a sender that has sent nothing, with an empty send queue. If it measures round trips, it also recovers the losses of one flight one after
    /// another.
    pub(crate) fn new(iss: Seq, held: SendQueue, measures: bool) -> Sender
        requires { held ≡ [] }
        ensures { result ≡ sending_measuring measures iss.0 }
    {
        let first = iss.add(1);
        let timing = Timing::new(measures);
        Sender {
            iss,
            syn_acked: false,
            numbers: SendState {
                una: first,
                nxt: first,
                wnd: 0,
                wl1: Seq(0),
                wl2: first,
                interval: timing.base(),
                left: 0,
                mss: 536,
                cwnd: initial_window(536),
                ssthresh: BUFFER,
                dups: 0,
                recovers: measures,
                lost: 0,
            },
            timing,
            held,
            closed: false,
            fin_sent: false,
        }
    }

    /// Notes the segment size that the peer's SYN offers, and starts congestion control with it.
    pub(crate) fn begin(&mut self, mss: Option<u16>)
        ensures { self.new ≡ with_segment_size (segment_size mss) self.old }
    {
        let mss = u32::from(segment_size(mss));
        self.numbers = SendState {
            mss,
            cwnd: initial_window(mss),
            ssthresh: BUFFER,
            dups: 0,
            lost: 0,
            ..self.numbers
        };
    }

    /// ISS.
    pub(crate) fn iss(&self) -> Seq
        ensures { result.0 ≡ self.now.iss }
    {
        self.iss
    }

    /// SND.NXT.
    pub(crate) fn nxt(&self) -> Seq
        ensures { result.0 ≡ number_at self.now.iss self.now.sent }
    {
        fit(&self.numbers, self.iss, self.iss);
        self.numbers.nxt
    }

    /// SND.UNA.
    pub(crate) fn una(&self) -> Seq
        ensures { result.0 ≡ number_at self.now.iss self.now.una }
    {
        fit(&self.numbers, self.iss, self.iss);
        self.numbers.una
    }

    pub(crate) fn is_syn_acked(&self) -> bool
        ensures { result ≡ self.now.syn_acked }
    {
        self.syn_acked
    }

    pub(crate) fn is_fin_sent(&self) -> bool
        ensures { result ≡ self.now.fin_sent }
    {
        self.fin_sent
    }

    pub(crate) fn is_closed(&self) -> bool
        ensures { result ≡ self.now.closed }
    {
        self.closed
    }

    /// The number of byte 0.
    fn first(&self) -> Seq
        ensures { result.0 ≡ (self.now.iss + 1) % 2 ^ 32 }
    {
        self.iss.add(1)
    }

    /// Whether this acknowledges the SYN and nothing else.
    #[tactic(auto, using(crate::proofs::Acks::first_is))]
    pub(crate) fn acks_syn(&self, ack: Seq) -> bool
        ensures { result ≡ int_eq (offset_of self.now.iss ack.0) (pos 0) }
    {
        let _number = ack.0;
        ack == self.first()
    }

    /// Uses the acknowledgement of our SYN.
    pub(crate) fn open(&mut self, seq: Seq, window: u16)
        ensures { self.new ≡ with_syn_acked self.old seq.0 window }
    {
        let first = self.first();
        self.syn_acked = true;
        self.numbers = SendState {
            una: first,
            nxt: first,
            wnd: u32::from(window),
            wl1: seq,
            wl2: first,
            interval: self.timing.base(),
            left: 0,
            ..self.numbers
        };
    }

    /// Uses an acknowledgement and a window (RFC 9293, 3.10.7.4, fifth check; RFC 5681, 3; RFC 6582, 3.2). Nothing changes where the acknowledgement is ahead
    /// of SND.NXT. `is_bare` says that the segment has neither text nor FIN. What is retransmitted isn't timed.
    pub(crate) fn on_ack(&mut self, seq: Seq, ack: Seq, window: u16, is_bare: bool) -> AckUse
        ensures used { IsShort self.old → result ≡ use_of self.old is_bare (offset_of self.old.iss ack.0) window }
        ensures state { IsShort self.old
            → self.new ≡ (if is_ahead self.old.sent (offset_of self.old.iss ack.0) then self.old
            else answered_by self.old is_bare seq.0 (offset_of self.old.iss ack.0) window) }
    {
        let is_duplicate = self.is_duplicate(ack, window, is_bare);
        let is_partial = self.is_partial(ack);
        if !self.acknowledge(seq, ack, window) {
            return AckUse::Ahead;
        }
        let is_third = self.count_duplicate(is_duplicate);
        self.note_loss(is_third, is_partial)
    }

    /// Whether this is a duplicate acknowledgement (RFC 5681, 2): its segment has neither text nor FIN (`is_bare`), and it acknowledges SND.UNA again while
    /// something is in flight, with the same right edge.
    fn is_duplicate(&self, ack: Seq, window: u16, is_bare: bool) -> bool
        ensures { IsShort self.now → result ≡ is_duplicate self.now is_bare (offset_of self.now.iss ack.0) window }
    {
        fit(&self.numbers, self.iss, ack);
        is_bare && repeats(&self.numbers, ack, window)
    }

    /// Whether this acknowledges only a part of what was in flight when a loss was noticed.
    fn is_partial(&self, ack: Seq) -> bool
        ensures { IsShort self.now → is_ahead self.now.sent (offset_of self.now.iss ack.0) ≡ false
            → result ≡ is_partial_ack self.now (offset_of self.now.iss ack.0) }
    {
        fit(&self.numbers, self.iss, ack);
        acks_part(&self.numbers, ack)
    }

    /// Uses an acknowledgement and a window, whether it is a duplicate or not. Returns false, and changes nothing, where the acknowledgement is ahead of
    /// SND.NXT.
    fn acknowledge(&mut self, seq: Seq, ack: Seq, window: u16) -> bool
        ensures used { IsShort self.old → result ≡ not (is_ahead self.old.sent (offset_of self.old.iss ack.0)) }
        ensures state { IsShort self.old
            → self.new ≡ (if is_ahead self.old.sent (offset_of self.old.iss ack.0) then self.old
            else acknowledged self.old seq.0 (offset_of self.old.iss ack.0) window) }
    {
        fit(&self.numbers, seq, ack);
        let kind = self.numbers.on_ack(seq, ack, window);
        let units = units_of(kind).min(self.held.len());
        self.held.drop_front(units);
        restart(&mut self.numbers, &mut self.timing, kind);
        was_sent(kind)
    }

    /// Counts an acknowledgement that is a duplicate, and returns whether it is the third in a row.
    fn count_duplicate(&mut self, is_duplicate: bool) -> bool
        ensures third { result ≡ (is_duplicate && is_third self.old.congestion) }
        ensures state { self.new ≡ (if is_duplicate then duplicated self.old else self.old) }
    {
        is_duplicate && self.numbers.on_duplicate()
    }

    /// Notes whether an acknowledgement that is used shows a loss, and returns how it counts. What is retransmitted isn't timed.
    fn note_loss(&mut self, is_third: bool, is_partial: bool) -> AckUse
        ensures used { result ≡ (if is_third || is_partial then ShowsLoss else Used) }
        ensures state { self.new ≡ untimed_if (is_third || is_partial) self.old }
    {
        if !is_third && !is_partial {
            return AckUse::Used;
        }
        self.timing.on_retransmission();
        AckUse::ShowsLoss
    }

    /// Whether our FIN is acknowledged.
    pub(crate) fn fin_acked(&self) -> bool
        ensures { result ≡ fin_acked self.now }
    {
        self.fin_sent && self.in_flight() == 0
    }

    /// The units sent and not acknowledged.
    pub(crate) fn in_flight(&self) -> u32
        ensures count { result ≡ in_flight self.now }
        ensures most { result ≤ length self.now.held + 1 }
        ensures short { result ≤ 65536 }
        ensures text { self.now.fin_sent ≡ false → result ≤ length self.now.held }
    {
        self.numbers.nxt.minus(self.numbers.una)
    }

    /// The number `place` units after SND.UNA.
    pub(crate) fn number_behind(&self, place: u32) -> Seq
        ensures { result.0 ≡ number_at self.now.iss (self.now.una + place) }
    {
        self.numbers.una.add(place)
    }

    /// How many bytes are written and not acknowledged.
    pub(crate) fn held(&self) -> usize
        ensures count { result ≡ length self.now.held }
        ensures most { result ≤ 65535 }
    {
        self.held.len()
    }

    /// How many units past SND.UNA the peer has room for.
    fn room(&self) -> u32
        ensures { result ≡ self.now.edge - self.now.una }
    {
        let edge = self.numbers.una.add(self.numbers.wnd).minus(self.first());
        edge.saturating_sub(self.numbers.una.minus(self.first()))
    }

    /// The segment size.
    pub(crate) fn mss(&self) -> u32
        ensures size { result ≡ self.now.mss }
        ensures least { least_segment ≤ result }
        ensures most { result ≤ largest_segment }
    {
        self.numbers.mss
    }

    /// How many units from SND.UNA on the peer's window and the congestion window allow.
    pub(crate) fn send_room(&self) -> u32
        ensures { result ≡ send_edge self.now - self.now.una }
    {
        self.room().min(self.numbers.cwnd)
    }

    /// How many bytes may be sent for the first time.
    pub(crate) fn sendable(&self) -> u32
        ensures count { result ≡ sendable self.now }
        ensures most { 0 < result → in_flight self.now + result ≤ length self.now.held }
        ensures short { result ≤ 65535 }
    {
        if !self.syn_acked || self.fin_sent {
            return 0;
        }
        (self.held.len() as u32)
            .min(self.send_room())
            .saturating_sub(self.in_flight())
    }

    /// Whether the FIN may be sent.
    pub(crate) fn sends_fin(&self) -> bool
        ensures { result ≡ sends_fin self.now }
    {
        self.syn_acked
            && self.closed
            && !self.fin_sent
            && self.in_flight() == self.held.len() as u32
            && self.in_flight() < self.send_room()
    }

    /// How many bytes are retransmitted.
    pub(crate) fn resent_length(&self) -> u32
        ensures count { result ≡ resent_length self.now }
        ensures most { result ≤ length self.now.held }
        ensures segment { result ≤ largest_segment }
    {
        let sent = self.in_flight().min(self.held.len() as u32);
        self.mss().min(sent.min(self.room().max(1)))
    }

    /// How many more bytes may be written.
    pub(crate) fn write_room(&self) -> usize
        ensures { result ≡ buffer_size - length self.now.held }
    {
        self.held.room()
    }

    /// Returns `n` of the bytes written and not acknowledged, from `place` bytes after SND.UNA on, in two pieces.
    pub(crate) fn text(&self, place: u32, n: u32) -> (&[u8], &[u8])
        requires { place + n ≤ length self.now.held }
        ensures { result.0.now ++ result.1.now ≡ take n (drop place self.now.held) }
    {
        self.held.text(place as usize, n as usize)
    }

    /// Notes that `n` more bytes are sent.
    pub(crate) fn note_sent(&mut self, n: u32)
        requires { 0 < n → in_flight self.old + n ≤ length self.old.held }
        ensures { self.new ≡ with_sent self.old n }
    {
        self.numbers.nxt = self.numbers.nxt.add(n);
    }

    /// Notes that the FIN is sent.
    pub(crate) fn note_fin_sent(&mut self)
        requires { self.old.fin_sent ≡ false }
        ensures { self.new ≡ with_fin_sent self.old }
    {
        self.numbers.nxt = self.numbers.nxt.add(1);
        self.fin_sent = true;
    }

    /// Times the unit that is `place` units after SND.UNA, if it was sent by now and none is timed.
    pub(crate) fn time_unit(&mut self, place: u32)
        ensures { self.new ≡ with_unit_timed place self.old }
    {
        if self.in_flight() > place {
            self.timing.on_send(place + 1);
        }
    }

    /// Whether something sent is unacknowledged.
    pub(crate) fn is_unacknowledged(&self) -> bool
        ensures { result ≡ is_unacknowledged self.now }
    {
        !self.syn_acked || self.in_flight() > 0
    }

    /// Whether the timer must run.
    pub(crate) fn must_run(&self) -> bool
        ensures { result ≡ must_run self.now }
    {
        self.is_unacknowledged() || (!self.fin_sent && (!self.held.is_empty() || self.closed))
    }

    /// Counts a tick, and returns whether the timer expires.
    pub(crate) fn tick(&mut self) -> bool
        ensures expires { result ≡ expires self.old }
        ensures state { self.new ≡ ticked self.old }
    {
        let is_first = self.is_first_expiry();
        let expires = self.numbers.on_tick_after(is_first);
        if expires {
            self.timing.on_expiry(self.numbers.interval);
        } else {
            self.timing.on_tick();
        }
        expires
    }

    /// Whether the timer hasn't expired since its interval was last computed.
    fn is_first_expiry(&self) -> bool
        ensures { result ≡ is_first_expiry self.now }
    {
        if self.timing.measures() {
            !self.timing.is_backed_off()
        } else {
            self.numbers.interval == 1
        }
    }

    /// Starts the timer with the interval of the estimate if it must run (`runs`) and doesn't yet, and stops it if it needn't run.
    pub(crate) fn set_timer(&mut self, runs: bool)
        ensures { self.new ≡ timed runs self.old }
    {
        let base = self.timing.base();
        if !runs {
            self.numbers.interval = base;
            self.numbers.left = 0;
        } else if self.numbers.left == 0 {
            self.numbers.interval = base;
            self.numbers.left = base;
        }
    }

    /// Appends the first bytes of `bytes` to those written, as many as fit, and returns how many.
    pub(crate) fn write(&mut self, bytes: &[u8]) -> usize
        ensures count { result ≡ min (buffer_size - length self.old.held) (length bytes.now) }
        ensures state { self.new ≡ record self.old { held = self.old.held ++ take result bytes.now } }
    {
        self.held.write(bytes)
    }

    /// Notes that the user has closed.
    pub(crate) fn close(&mut self)
        ensures { self.new ≡ record self.old { closed = true } }
    {
        self.closed = true;
    }
}

/// Facts for proofs: numbers are below 2^32.
fn fit(numbers: &SendState, seq: Seq, ack: Seq)
    ensures { NumbersFit numbers.now seq.0 ack.0 }
{
    let _una = numbers.una.0;
    let _nxt = numbers.nxt.0;
    let _wnd = numbers.wnd;
    let _wl2 = numbers.wl2.0;
    let _seq = seq.0;
    let _ack = ack.0;
}

/// Whether an acknowledgement and a window only repeat the current ones while something is in flight.
fn repeats(numbers: &SendState, ack: Seq, window: u16) -> bool
    ensures { result ≡ repeats numbers.now ack.0 window }
{
    ack == numbers.una && numbers.una != numbers.nxt && numbers.wnd == u32::from(window)
}

/// Whether an acknowledgement is only of a part of what was in flight when a loss was noticed.
fn acks_part(numbers: &SendState, ack: Seq) -> bool
    ensures { result ≡ acks_part numbers.now ack.0 }
{
    numbers.una.lt(ack)
        && ack.le(numbers.nxt)
        && numbers.recovers
        && ack.minus(numbers.una) < numbers.lost
}

/// Computes the interval of the timer anew, after an acknowledgement of this kind. A timer that runs restarts with it.
fn restart(numbers: &mut SendState, timing: &mut Timing, kind: AckKind)
    ensures numbers { numbers.new ≡ restarted kind timing.old numbers.old }
    ensures timing { timing.new ≡ timing_by kind timing.old }
    ensures interval { 1 ≤ numbers.old.interval → 1 ≤ numbers.new.interval }
{
    let AckKind::New { units } = kind else {
        return;
    };
    timing.on_ack(units);
    numbers.interval = timing.base();
    if numbers.left > 0 {
        numbers.left = timing.base();
    }
}

/// The initial congestion window.
fn initial_window(mss: u32) -> u32
    requires { mss ≤ largest_segment }
    ensures { result ≡ initial_window mss }
{
    if mss <= 1_095 { 4 * mss } else { 3 * mss }
}

/// Whether an acknowledgement is only of what was sent.
fn was_sent(kind: AckKind) -> bool
    ensures { result ≡ was_sent kind }
{
    !matches!(kind, AckKind::Beyond)
}

/// How many units are newly acknowledged.
fn units_of(kind: AckKind) -> usize
    ensures { result ≡ units_of kind }
{
    match kind {
        AckKind::New { units } => units as usize,
        _ => 0,
    }
}
