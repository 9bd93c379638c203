//! The law Sending: the effect of an acknowledgement (RFC 9293, 3.10.7.4, fifth check; RFC 5681, 2 and 3; RFC 6298). All is computed from the point before the
//! turn.

ghost use Rattle.std.specs.Prelude.{◌≡◌, ◌<◌, ◌≤◌, ◌-◌, ◌^◌, OnOk, IfSome, nat_lt};
ghost use Rattle.segment_codec.specs.Value.{segment_of};
ghost use Rattle.plain_point.specs.Values.{congestion_in, timing_in};

use crate::congestion::Window;
use crate::point::PlainPoint;
use crate::timing::{LONGEST_INTERVAL, Timing};
use ft_io::NoMemory;
use plain_packets::{counted_text, counts_fin};
use segment_codec::PacketRef;
use std::alloc::Global;

/// What the sender knows after a turn's news: SND.UNA, the right edge with SND.WL1 and SND.WL2, congestion control, the estimate of the round-trip
/// time, and whether the SYN is acknowledged.
#[derive(Clone, Copy)]
pub struct Sending {
    pub una: u64,
    pub edge: u64,
    pub wl1: i64,
    pub wl2: u64,
    pub congestion: Window,
    pub timing: Timing,
    pub syn_acked: bool,
}

/// An acknowledgement that is used: where its segment begins; the offset that it names, lowered to SND.NXT if it is above; and its window, then raised by
/// the difference, up to 65,535.
#[derive(Clone, Copy)]
pub(crate) struct Acknowledged {
    pub(crate) first: i64,
    pub(crate) acked: u64,
    pub(crate) window: u64,
}

impl PlainPoint {
    ghost use Rattle.tcp_rules.specs.Arrival.{updates_window as updates_lem};
    ghost use Rattle.ft_model.specs.News.News.{Comes, Ticks};
    ghost use Rattle.ft_model.specs.Sending.{acknowledges, acknowledges_new, acknowledged_by, moves_edge, is_duplicate as duplicate_lem};
    ghost use Rattle.ft_model.specs.Sending.{is_third_duplicate as third_lem, is_partial_ack as partial_lem, resends as resends_lem};
    ghost use Rattle.ft_model.specs.Sending.{is_lost as lost_lem, is_first_expiry as first_lem, flight as flight_lem, send_edge as send_edge_lem};
    ghost use Rattle.ft_model.specs.Sending.{acknowledged_after, edge_after, wl1_after, wl2_after, congestion_after};
    ghost use Rattle.plain_point.specs.Values.{IsAcknowledged};
    ghost use Rattle.plain_point.specs.Turn.{noted, timing_by, IsSendingAfter};

    /// Returns the acknowledgement of a segment, if it is used.
    pub(crate) fn acknowledged(&self, segment: &PacketRef<'_>) -> Option<Acknowledged>
        ensures value { IsAcknowledged (acknowledges self.now (segment_of segment.now)) self.now (segment_of segment.now) result }
        ensures small { IfSome result (λ a. (a.acked ≤ 2 ^ 63) × (a.window ≤ 65535)) }
    {
        let ack = self.ack(segment);
        if ack < 0 || !self.counts(segment) {
            return None;
        }
        let acked = (ack as u64).min(self.sent);
        let window = u64::from(segment.head.window) + ack as u64 - acked;
        Some(Acknowledged {
            first: self.first(segment),
            acked,
            window: window.min(65_535),
        })
    }

    /// Returns the flight size: SND.NXT less SND.UNA.
    pub(crate) fn flight(&self) -> u64
        ensures { result ≡ flight_lem self.now }
    {
        self.sent.saturating_sub(self.una)
    }

    /// Returns whether the window of an acknowledgement is used, by TCP's test for older segments.
    fn updates_window(&self, acknowledged: Acknowledged) -> bool
        ensures { result ≡ updates_lem self.now.una self.now.wl1 self.now.wl2 acknowledged.first acknowledged.acked }
    {
        self.una <= acknowledged.acked
            && (self.wl1 < acknowledged.first
                || (self.wl1 == acknowledged.first && self.wl2 <= acknowledged.acked))
    }

    /// Returns the acknowledgement of a segment, if its window is used too.
    fn window_update(&self, segment: &PacketRef<'_>) -> Option<Acknowledged>
        ensures value { IsAcknowledged (moves_edge self.now (segment_of segment.now)) self.now (segment_of segment.now) result }
        ensures small { IfSome result (λ a. (a.acked ≤ 2 ^ 63) × (a.window ≤ 65535)) }
    {
        let acknowledged = self.acknowledged(segment)?;
        if self.syn_acked && !self.updates_window(acknowledged) {
            return None;
        }
        Some(acknowledged)
    }

    /// Returns whether a segment is a duplicate acknowledgement (RFC 5681, 2).
    #[tactic(auto, unfolding(ft_model::specs::Sending::is_duplicate))]
    pub(crate) fn is_duplicate(&self, segment: &PacketRef<'_>) -> bool
        ensures { result ≡ duplicate_lem self.now (segment_of segment.now) }
    {
        match self.acknowledged(segment) {
            Some(acknowledged) => {
                counted_text(segment).is_empty()
                    && !counts_fin(segment)
                    && acknowledged.acked == self.una
                    && self.una < self.sent
                    && acknowledged.acked + acknowledged.window == self.edge
            }
            None => false,
        }
    }

    /// Returns how many units a segment newly acknowledges; 0 if it acknowledges nothing new.
    fn new_units(&self, segment: &PacketRef<'_>) -> u64
        ensures some { nat_lt 0 result ≡ acknowledges_new self.now (segment_of segment.now) }
        ensures value { 0 < result → result ≡ acknowledged_by self.now (segment_of segment.now) - self.now.una }
    {
        match self.acknowledged(segment) {
            Some(acknowledged) => acknowledged.acked.saturating_sub(self.una),
            None => 0,
        }
    }

    /// Returns whether a segment is the third duplicate acknowledgement in a row.
    #[tactic(auto, unfolding(ft_model::specs::Sending::is_third_duplicate))]
    fn is_third_duplicate(&self, segment: &PacketRef<'_>) -> bool
        ensures { result ≡ third_lem (Comes (segment_of segment.now)) self.now }
    {
        self.is_duplicate(segment) && self.congestion.is_third()
    }

    /// Returns whether a segment acknowledges only a part of what was in flight when a loss was noticed.
    #[tactic(auto, unfolding(ft_model::specs::Sending::is_partial_ack))]
    fn is_partial_ack(&self, segment: &PacketRef<'_>) -> bool
        ensures { result ≡ partial_lem (Comes (segment_of segment.now)) self.now }
    {
        let units = self.new_units(segment);
        units > 0 && self.congestion.is_partial(units)
    }

    /// Returns whether a segment shows a loss, so that something is retransmitted at once.
    pub fn resends(&self, segment: &PacketRef<'_>) -> bool
        ensures { result ≡ resends_lem (Comes (segment_of segment.now)) self.now }
    {
        self.is_third_duplicate(segment) || self.is_partial_ack(segment)
    }

    /// Returns the state of congestion control after a segment.
    #[tactic(auto, unfolding(ft_model::specs::Sending::congestion_after))]
    fn congestion_after(&self, segment: &PacketRef<'_>) -> Window
        ensures { congestion_in result ≡ congestion_after (Comes (segment_of segment.now)) self.now }
    {
        let mss = self.numbers.mss;
        let units = self.new_units(segment);
        if units > 0 {
            self.congestion.with_new_data(mss, units)
        } else if self.is_duplicate(segment) {
            self.congestion.with_duplicate(mss, self.flight())
        } else {
            self.congestion
        }
    }

    /// Returns whether the timer expires while something is in flight and the client has room for it.
    fn is_lost(&self) -> bool
        ensures { result ≡ lost_lem self.now }
    {
        self.rest == 1 && self.una < self.sent && self.una < self.edge
    }

    /// Returns whether an expiry of the timer is the first one since its interval was computed.
    fn is_first_expiry(&self) -> bool
        ensures { result ≡ first_lem self.now }
    {
        if self.timing.measures {
            !self.timing.backed_off
        } else {
            self.interval == 1
        }
    }

    /// Returns the state of congestion control after a tick.
    #[tactic(auto, unfolding(ft_model::specs::Sending::congestion_after))]
    pub(crate) fn congestion_after_tick(&self) -> Window
        ensures { congestion_in result ≡ congestion_after Ticks self.now }
    {
        if self.is_lost() {
            self.congestion
                .with_expiry(self.numbers.mss, self.flight(), self.is_first_expiry())
        } else {
            self.congestion
        }
    }

    /// Returns the offset from which on nothing new is sent: the right edge, or the end of the congestion window.
    pub fn send_edge(&self) -> u64
        ensures { result ≡ send_edge_lem self.now }
    {
        self.una.saturating_add(self.congestion.cwnd).min(self.edge)
    }

    /// Returns SND.UNA after a segment.
    #[tactic(auto, unfolding(ft_model::specs::Sending::acknowledged_after))]
    fn una_after(&self, segment: &PacketRef<'_>) -> u64
        ensures { result ≡ acknowledged_after (Comes (segment_of segment.now)) self.now }
    {
        match self.acknowledged(segment) {
            Some(acknowledged) => self.una.max(acknowledged.acked),
            None => self.una,
        }
    }

    /// Returns the estimate of the round-trip time after a segment.
    #[tactic(auto, unfolding(ft_model::specs::Timer::timing_noted))]
    fn timing_after(&self, segment: &PacketRef<'_>) -> Timing
        ensures { timing_in result ≡ timing_by (Comes (segment_of segment.now)) self.now }
    {
        let units = self.una_after(segment).saturating_sub(self.una);
        let timing = self.timing.with_acknowledged(units);
        if self.resends(segment) {
            timing.without_trip()
        } else {
            timing
        }
    }

    /// Returns the estimate of the round-trip time after a tick.
    #[tactic(auto, unfolding(ft_model::specs::Timer::timing_noted))]
    pub(crate) fn timing_after_tick(&self) -> Timing
        ensures { timing_in result ≡ timing_by Ticks self.now }
    {
        if self.rest == 1 {
            let doubled = self.interval.saturating_mul(2).min(LONGEST_INTERVAL);
            self.timing.with_backoff(doubled)
        } else {
            self.timing.with_tick()
        }
    }

    /// Returns the right edge after a segment, with SND.WL1 and SND.WL2.
    #[tactic(auto, unfolding(ft_model::specs::Sending::edge_after, ft_model::specs::Sending::wl1_after, ft_model::specs::Sending::wl2_after))]
    fn edge_after(&self, segment: &PacketRef<'_>) -> (u64, i64, u64)
        ensures edge { result.0 ≡ edge_after (Comes (segment_of segment.now)) self.now }
        ensures wl1 { result.1 ≡ wl1_after (Comes (segment_of segment.now)) self.now }
        ensures wl2 { result.2 ≡ wl2_after (Comes (segment_of segment.now)) self.now }
    {
        match self.window_update(segment) {
            Some(
                Acknowledged {
                    first,
                    acked,
                    window,
                },
            ) => (acked + window, first, acked),
            None => (self.edge, self.wl1, self.wl2),
        }
    }

    /// Returns what the sender knows after a segment.
    #[tactic(auto, unfolding(ft_model::specs::Sending::syn_acked_after))]
    pub fn after_segment(&self, segment: &PacketRef<'_>) -> Sending
        ensures { IsSendingAfter (Comes (segment_of segment.now)) self.now result }
    {
        let (edge, wl1, wl2) = self.edge_after(segment);
        Sending {
            una: self.una_after(segment),
            edge,
            wl1,
            wl2,
            congestion: self.congestion_after(segment),
            timing: self.timing_after(segment),
            syn_acked: self.syn_acked || self.counts(segment),
        }
    }

    /// Notes what a segment brings, before the service reads. After `NoMemory` the point may only be dropped.
    #[tactic(auto, unfolding(ft_model::specs::Answered::answered_after, ft_model::specs::Answered::reads_answered_after))]
    pub fn note_segment(&mut self, alloc: Global, segment: &PacketRef<'_>) -> Result<(), NoMemory>
        ensures { OnOk result (self.new ≡ noted (Comes (segment_of segment.now)) self.old) }
    {
        let sending = self.after_segment(segment);
        let timestamping = self.timestamping_after(segment);
        self.take(alloc, segment)?;
        self.una = sending.una;
        self.edge = sending.edge;
        self.wl1 = sending.wl1;
        self.wl2 = sending.wl2;
        self.congestion = sending.congestion;
        self.timing = sending.timing;
        self.syn_acked = sending.syn_acked;
        self.timestamping = timestamping;
        Ok(())
    }
}
