//! The sender's numbers, its timer and its congestion window (RFC 9293, 3.3.1 and 3.10.7.4; RFC 6298, 5, in ticks; RFC 5681; RFC 6582).

ghost use Rattle.std.specs.Prelude.{◌≡◌, ◌<◌, ◌≤◌, ◌^◌, ◌==◌, min, if◌then◌else◌};
ghost use Rattle.tcp_rules.specs.Congestion.{most_window, growth, is_recovering, is_partial, deflated, with_new_data, lowered_threshold, is_third};
ghost use Rattle.tcp_buffers.specs.declared.send_state.AckKind.TheVariants.{Beyond};
ghost use Rattle.tcp_buffers.specs.SendNumbers.{kind_of, is_window_used, edge_after, una_by, interval_by, left_by, IsUsed, ticked};
ghost use Rattle.tcp_buffers.specs.SendNumbers.{congestion_of, segment_of, flight_of, congestion_by, duplicated, is_lost, expired, ticked_after};

use seq_arith::Seq;

/// How an acknowledgement counts for the sender.
#[derive(Clone, Copy)]
pub enum AckKind {
    /// It acknowledges `units` numbers for the first time: SND.UNA < SEG.ACK =< SND.NXT.
    New { units: u32 },
    /// It acknowledges nothing new.
    Old,
    /// It acknowledges what was never sent: SEG.ACK > SND.NXT.
    Beyond,
}

/// The sender's variables.
#[derive(Clone, Copy)]
pub struct SendState {
    /// SND.UNA: the first number that isn't acknowledged.
    pub una: Seq,
    /// SND.NXT: the next number to be sent.
    pub nxt: Seq,
    /// SND.WND: the distance from `una` to the right edge, modulo 2^32. It is 2^31 or more if the peer's right edge is before `una`.
    pub wnd: u32,
    /// SND.WL1: the sequence number of the segment that last moved the edge.
    pub wl1: Seq,
    /// SND.WL2: what that segment acknowledged.
    pub wl2: Seq,
    /// The timer's interval, in ticks.
    pub interval: u8,
    /// The ticks until the timer expires; 0 while it doesn't run.
    pub left: u8,
    /// SMSS: the segment size, in bytes of text. Where something is computed from it, it counts as at most 2^31 - 1.
    pub mss: u32,
    /// cwnd: the congestion window, in bytes. Nothing new is sent past `una` plus this.
    pub cwnd: u32,
    /// ssthresh: the slow start threshold, in bytes.
    pub ssthresh: u32,
    /// The duplicate acknowledgements since `una` rose or the timer expired with a loss, counted up to four.
    pub dups: u8,
    /// Whether the losses of one flight are recovered one after another. It never changes.
    pub recovers: bool,
    /// The units after `una` that were in flight when a loss was noticed; 0 once they are acknowledged, and for a sender that doesn't recover so.
    pub lost: u32,
}

impl SendState {
    /// Uses the acknowledgement and the window of a segment with sequence number `seq` (RFC 9293, 3.10.7.4, fifth check). The right edge moves if SND.UNA =<
    /// SEG.ACK =< SND.NXT and the segment isn't older than the segment that last moved it. It stays where only `una` moves. An acknowledgement of something
    /// new sets the interval back to one tick. It restarts the timer or, where nothing is left in flight, stops it (RFC 6298, 5.2 and 5.3). It also lets the
    /// congestion window grow, or ends fast recovery (RFC 5681, 3.1 and 3.2).
    pub fn on_ack(&mut self, seq: Seq, ack: Seq, wnd: u16) -> AckKind
        ensures kind { result ≡ kind_of self.old.una.0 self.old.nxt.0 ack.0 }
        ensures used { IsUsed self.old self.new seq.0 ack.0 wnd }
        ensures beyond { result ≡ Beyond → self.new ≡ self.old }
    {
        self.numbers_fit(ack);
        let kind = self.kind_of(ack);
        let edge = self.edge_after(seq, ack, wnd);
        let (wl1, wl2) = self.window_source(seq, ack);
        let una = una_by(kind, self.una, ack);
        let (interval, left) = self.timer_by(kind, ack);
        let (cwnd, dups, lost) = self.congestion_by(kind);
        *self = SendState {
            una,
            wnd: edge.minus(una),
            wl1,
            wl2,
            interval,
            left,
            cwnd,
            dups,
            lost,
            ..*self
        };
        kind
    }

    /// Counts a duplicate acknowledgement, and returns whether it is the third in a row, at which a segment has to be retransmitted at once. The third begins
    /// fast recovery, and each further one widens the congestion window by a segment (RFC 5681, 3.2). None counts as the third while what was in flight at an
    /// earlier loss is recovered.
    #[tactic(auto, unfolding(tcp_rules::specs::Congestion::is_third, tcp_rules::specs::Congestion::with_duplicate))]
    pub fn on_duplicate(&mut self) -> bool
        ensures third { result ≡ is_third (congestion_of self.old) }
        ensures state { self.new ≡ duplicated self.old }
    {
        if self.dups >= 3 {
            // Another segment has left the network.
            self.cwnd = capped(u64::from(self.cwnd) + u64::from(self.segment()));
            self.dups = 4;
            return false;
        }
        if self.is_third() {
            // Fast recovery begins. Three segments have left the network.
            self.ssthresh = self.lowered_threshold();
            self.cwnd = capped(u64::from(self.ssthresh) + 3 * u64::from(self.segment()));
            self.lost = self.noticed();
            self.dups = 3;
            return true;
        }
        self.dups = if self.is_recovering() {
            (self.dups + 1).min(2)
        } else {
            self.dups + 1
        };
        false
    }

    /// Counts a tick, and returns whether the timer expires at it. The timer then restarts with twice the interval, at most 64 ticks (RFC 6298, 5.5 and 5.6).
    /// What is in flight then counts as lost, if the peer's right edge is past SND.UNA (RFC 5681, 3.1).
    pub fn on_tick(&mut self) -> bool
        ensures expires { result ≡ (self.old.left == 1) }
        ensures state { self.new ≡ ticked self.old }
    {
        let first = self.interval == 1;
        self.on_tick_after(first)
    }

    /// Counts a tick as `on_tick` does. `first` says whether the timer hasn't expired since its interval was computed.
    pub fn on_tick_after(&mut self, first: bool) -> bool
        ensures expires { result ≡ (self.old.left == 1) }
        ensures state { self.new ≡ ticked_after first self.old }
    {
        if self.left == 1 {
            self.expire(first);
            self.interval = self.interval.min(32) * 2;
            self.left = self.interval;
            return true;
        }
        self.left = self.left.saturating_sub(1);
        false
    }

    /// Notes that what is in flight is lost, if the peer's right edge is past SND.UNA.
    #[tactic(auto, unfolding(tcp_rules::specs::Congestion::with_expiry))]
    fn expire(&mut self, first: bool)
        ensures state { self.new ≡ expired first self.old }
        ensures interval { self.new.interval ≡ self.old.interval }
    {
        if !self.is_lost() {
            return;
        }
        self.ssthresh = self.threshold_after_expiry(first);
        self.cwnd = capped(u64::from(self.segment()));
        self.lost = self.noticed();
        self.dups = 0;
    }

    /// Whether something is in flight, and the peer's right edge is past SND.UNA.
    pub(crate) fn is_lost(&self) -> bool
        ensures { result ≡ is_lost self.now }
    {
        self.una != self.nxt && self.una.lt(self.una.add(self.wnd))
    }

    /// The slow start threshold after an expiry. Only the first expiry lowers it.
    fn threshold_after_expiry(&self, first: bool) -> u32
        ensures { result ≡ (if first then lowered_threshold (segment_of self.now) (flight_of self.now) else self.now.ssthresh) }
    {
        if first {
            self.lowered_threshold()
        } else {
            self.ssthresh
        }
    }

    /// The segment size, but at most 2^31 - 1, so that twice as much fits 32 bits.
    fn segment(&self) -> u32
        ensures { result ≡ segment_of self.now }
    {
        self.mss.min(u32::MAX / 2)
    }

    /// What was in flight at an earlier loss isn't all acknowledged yet.
    fn is_recovering(&self) -> bool
        ensures { result ≡ is_recovering (congestion_of self.now) }
    {
        self.recovers && self.lost > 0
    }

    /// Whether the next duplicate counts as the third in a row.
    #[tactic(auto, unfolding(tcp_rules::specs::Congestion::is_third))]
    fn is_third(&self) -> bool
        ensures { result ≡ is_third (congestion_of self.now) }
    {
        !self.is_recovering() && self.dups == 2
    }

    /// What is to be recovered after a loss that is noticed now: all that is in flight.
    fn noticed(&self) -> u32
        ensures { result ≡ (if self.now.recovers then flight_of self.now else 0) }
    {
        if self.recovers {
            self.nxt.minus(self.una)
        } else {
            0
        }
    }

    /// Whether an acknowledgement of `units` units is partial: of what was in flight at a loss more stays unacknowledged (RFC 6582, 3.2).
    fn is_partial(&self, units: u32) -> bool
        ensures { result ≡ is_partial units (congestion_of self.now) }
    {
        self.recovers && units < self.lost
    }

    /// Half of what is in flight, but at least two segments.
    fn lowered_threshold(&self) -> u32
        ensures { result ≡ lowered_threshold (segment_of self.now) (flight_of self.now) }
    {
        (self.nxt.minus(self.una) / 2).max(2 * self.segment())
    }

    /// The congestion window, the count of duplicates and what is to be recovered, after an acknowledgement of this kind.
    #[tactic(auto, unfolding(tcp_rules::specs::Congestion::with_new_data))]
    fn congestion_by(&self, kind: AckKind) -> (u32, u8, u32)
        ensures cwnd { result.0 ≡ (congestion_by kind self.now).cwnd }
        ensures ssthresh { self.now.ssthresh ≡ (congestion_by kind self.now).ssthresh }
        ensures dups { result.1 ≡ (congestion_by kind self.now).dups }
        ensures recovers { self.now.recovers ≡ (congestion_by kind self.now).recovers }
        ensures lost { result.2 ≡ (congestion_by kind self.now).lost }
    {
        match kind {
            AckKind::New { units } => (
                self.grown(units),
                self.dups_after(units),
                self.lost_after(units),
            ),
            _ => (self.cwnd, self.dups, self.lost),
        }
    }

    /// The count of duplicates once `units` units are newly acknowledged: fast recovery continues at a partial acknowledgement.
    #[tactic(auto, unfolding(tcp_rules::specs::Congestion::with_new_data))]
    fn dups_after(&self, units: u32) -> u8
        ensures { result ≡ (with_new_data (segment_of self.now) units (congestion_of self.now)).dups }
    {
        if self.is_partial(units) && self.dups >= 3 {
            self.dups
        } else {
            0
        }
    }

    /// What is to be recovered once `units` units are newly acknowledged.
    #[tactic(auto, unfolding(tcp_rules::specs::Congestion::with_new_data))]
    fn lost_after(&self, units: u32) -> u32
        ensures { result ≡ (with_new_data (segment_of self.now) units (congestion_of self.now)).lost }
    {
        if self.is_partial(units) {
            self.lost - units
        } else {
            0
        }
    }

    /// The congestion window once `units` units are newly acknowledged.
    #[tactic(auto, unfolding(tcp_rules::specs::Congestion::with_new_data))]
    fn grown(&self, units: u32) -> u32
        ensures { result ≡ (with_new_data (segment_of self.now) units (congestion_of self.now)).cwnd }
    {
        if self.dups < 3 {
            return capped(u64::from(self.cwnd) + self.growth(units));
        }
        if self.is_partial(units) {
            return capped(self.deflated(units));
        }
        capped(u64::from(self.ssthresh))
    }

    /// The congestion window at a partial acknowledgement: it shrinks by what is acknowledged, and grows by a segment (RFC 6582, 3.2, step 3).
    fn deflated(&self, units: u32) -> u64
        ensures { result ≡ deflated (segment_of self.now) units (congestion_of self.now) }
    {
        let segment = u64::from(self.segment());
        let shrunk = u64::from(self.cwnd.saturating_sub(units)).max(segment);
        if u64::from(units) >= segment {
            shrunk + segment
        } else {
            shrunk
        }
    }

    /// By how much the congestion window grows outside fast recovery.
    pub(crate) fn growth(&self, units: u32) -> u64
        ensures count { result ≡ growth (segment_of self.now) units (congestion_of self.now) }
        ensures most { result ≤ 2 ^ 62 }
    {
        let segment = u64::from(self.segment());
        if self.cwnd < self.ssthresh {
            return u64::from(units).min(segment);
        }
        (segment * segment / u64::from(self.cwnd.max(1))).max(1)
    }

    /// Facts for proofs: numbers are below 2^32.
    fn numbers_fit(&self, ack: Seq)
        ensures una { self.now.una.0 < 2 ^ 32 }
        ensures nxt { self.now.nxt.0 < 2 ^ 32 }
        ensures wnd { self.now.wnd < 2 ^ 32 }
        ensures ack { ack.0 < 2 ^ 32 }
    {
        let _una = self.una.0;
        let _nxt = self.nxt.0;
        let _wnd = self.wnd;
    }

    /// How the acknowledgement counts.
    fn kind_of(&self, ack: Seq) -> AckKind
        ensures { result ≡ kind_of self.now.una.0 self.now.nxt.0 ack.0 }
    {
        if self.nxt.lt(ack) {
            AckKind::Beyond
        } else if self.una.lt(ack) && ack.le(self.nxt) {
            AckKind::New {
                units: ack.minus(self.una),
            }
        } else {
            AckKind::Old
        }
    }

    /// Whether the segment's window is used: SND.UNA =< SEG.ACK =< SND.NXT, and the segment isn't older than the segment that last moved the edge.
    fn is_window_used(&self, seq: Seq, ack: Seq) -> bool
        ensures { result ≡ is_window_used self.now seq.0 ack.0 }
    {
        let is_outstanding = self.una.le(ack) && ack.le(self.nxt);
        is_outstanding && (self.wl1.lt(seq) || (self.wl1 == seq && self.wl2.le(ack)))
    }

    /// The right edge after the segment, as a number.
    fn edge_after(&self, seq: Seq, ack: Seq, wnd: u16) -> Seq
        ensures { result.0 ≡ edge_after self.now seq.0 ack.0 wnd }
    {
        if self.is_window_used(seq, ack) {
            ack.add(u32::from(wnd))
        } else {
            self.una.add(self.wnd)
        }
    }

    /// SND.WL1 and SND.WL2 after the segment.
    fn window_source(&self, seq: Seq, ack: Seq) -> (Seq, Seq)
        ensures wl1 { result.0.0 ≡ (if is_window_used self.now seq.0 ack.0 then seq.0 else self.now.wl1.0) }
        ensures wl2 { result.1.0 ≡ (if is_window_used self.now seq.0 ack.0 then ack.0 else self.now.wl2.0) }
    {
        if self.is_window_used(seq, ack) {
            (seq, ack)
        } else {
            (self.wl1, self.wl2)
        }
    }

    /// The timer's interval and the ticks left of it, after an acknowledgement of this kind.
    fn timer_by(&self, kind: AckKind, ack: Seq) -> (u8, u8)
        ensures interval { result.0 ≡ interval_by kind self.now.interval }
        ensures left { result.1 ≡ left_by kind self.now.nxt.0 ack.0 self.now.left }
    {
        match kind {
            AckKind::New { .. } if ack == self.nxt => (1, 0),
            AckKind::New { .. } => (1, 1),
            _ => (self.interval, self.left),
        }
    }
}

/// A congestion window, capped at 2^20.
fn capped(window: u64) -> u32
    ensures { result ≡ min most_window window }
{
    window.min(1 << 20) as u32
}

/// SND.UNA after an acknowledgement of this kind.
fn una_by(kind: AckKind, una: Seq, ack: Seq) -> Seq
    ensures { result.0 ≡ una_by kind una.0 ack.0 }
{
    match kind {
        AckKind::New { .. } => ack,
        _ => una,
    }
}
