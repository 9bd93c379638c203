//! Congestion control (RFC 5681, 3.1 and 3.2; RFC 6582, 3.2), in bytes.

ghost use Rattle.std.specs.Prelude.{◌≡◌, ◌≤◌, ◌+◌, min, nat_le, if◌then◌else◌};
ghost use Rattle.tcp_rules.specs.Congestion.{most_window, initial_congestion, initial_window as initial_lem, growth as growth_lem};
ghost use Rattle.tcp_rules.specs.Congestion.{is_recovering as recovering_lem, is_partial as partial_lem, deflated as deflated_lem};
ghost use Rattle.tcp_rules.specs.Congestion.{lowered_threshold as lowered_lem, with_new_data, with_duplicate, with_expiry, is_third};
ghost use Rattle.plain_point.specs.Values.{congestion_in};

use limits::BUFFER;

/// The upper bound of the congestion window, in bytes.
const MOST_WINDOW: u64 = 1 << 20;

/// The congestion window, the slow start threshold, the number of duplicate acknowledgements, up to four, and the recovery from a loss.
#[derive(Clone, Copy)]
pub struct Window {
    pub cwnd: u64,
    pub ssthresh: u64,
    pub dups: u64,
    /// Whether the losses of one flight are recovered one after another.
    pub recovers: bool,
    /// How many units after SND.UNA were sent when a loss was noticed.
    pub lost: u64,
}

impl Window {
    /// Returns the congestion window with which a connection begins.
    pub(crate) fn initial(recovers: bool, mss: u16) -> Window
        ensures { congestion_in result ≡ initial_congestion recovers mss }
    {
        Window {
            cwnd: initial_window(mss),
            ssthresh: u64::from(BUFFER),
            dups: 0,
            recovers,
            lost: 0,
        }
    }

    /// Returns whether something isn't acknowledged that was in flight when a loss was noticed.
    fn is_recovering(self) -> bool
        ensures { result ≡ recovering_lem (congestion_in self) }
    {
        self.recovers && self.lost > 0
    }

    /// Returns whether an acknowledgement of so many further units is partial: it leaves something that was in flight when a loss was noticed.
    pub(crate) fn is_partial(self, units: u64) -> bool
        ensures { result ≡ partial_lem units (congestion_in self) }
    {
        self.recovers && units < self.lost
    }

    /// Returns how far the window grows: in slow start by what is acknowledged, up to a segment; in congestion avoidance by a segment for each window.
    fn growth(self, mss: u16, units: u64) -> u64
        ensures { result ≡ growth_lem mss units (congestion_in self) }
    {
        let segment = u64::from(mss);
        if self.cwnd < self.ssthresh {
            return units.min(segment);
        }
        (segment * segment / self.cwnd.max(1)).max(1)
    }

    /// Returns the congestion window after a partial acknowledgement in fast recovery: less what is acknowledged, and a segment more.
    fn deflated(self, mss: u16, units: u64) -> u64
        ensures { result ≡ min most_window (deflated_lem mss units (congestion_in self)) }
    {
        let segment = u64::from(mss);
        let rest = self.cwnd.saturating_sub(units).max(segment);
        let more = if segment <= units { segment } else { 0 };
        rest.saturating_add(more).min(MOST_WINDOW)
    }

    /// Returns the congestion window after new data is acknowledged: after three duplicates fast recovery ends or continues, and otherwise the window grows.
    fn window_after(self, mss: u16, units: u64) -> u64
        ensures { result ≡ (let c = congestion_in self in min most_window (if nat_le 3 c.dups
            then (if partial_lem units c then deflated_lem mss units c else c.ssthresh) else c.cwnd + growth_lem mss units c)) }
    {
        if self.dups < 3 {
            let grown = self.cwnd.saturating_add(self.growth(mss, units));
            return grown.min(MOST_WINDOW);
        }
        if self.is_partial(units) {
            return self.deflated(mss, units);
        }
        self.ssthresh.min(MOST_WINDOW)
    }

    /// Returns the state after new data is acknowledged.
    #[tactic(auto, unfolding(tcp_rules::specs::Congestion::with_new_data))]
    pub(crate) fn with_new_data(self, mss: u16, units: u64) -> Window
        ensures { congestion_in result ≡ with_new_data mss units (congestion_in self) }
    {
        let cwnd = self.window_after(mss, units);
        if !self.is_partial(units) {
            return Window {
                cwnd,
                dups: 0,
                lost: 0,
                ..self
            };
        }
        Window {
            cwnd,
            dups: if self.dups >= 3 { self.dups } else { 0 },
            lost: self.lost - units,
            ..self
        }
    }

    /// Returns whether the next duplicate is the third in a row. None is while something lost is recovered.
    #[tactic(auto, unfolding(tcp_rules::specs::Congestion::is_third))]
    pub(crate) fn is_third(self) -> bool
        ensures { result ≡ is_third (congestion_in self) }
    {
        !self.is_recovering() && self.dups == 2
    }

    /// Returns how much is noted as lost if this much is in flight when a loss is noticed.
    fn lost_of(self, flight: u64) -> u64
        ensures { result ≡ (if self.recovers then flight else 0) }
    {
        if self.recovers { flight } else { 0 }
    }

    /// Returns the number of duplicates after one that isn't the third: two at most while something lost is recovered.
    fn counted(self) -> u64
        requires { self.dups ≤ 2 }
        ensures { result ≡ (if recovering_lem (congestion_in self) then min 2 (self.dups + 1) else self.dups + 1) }
    {
        let count = self.dups + 1;
        if self.is_recovering() {
            count.min(2)
        } else {
            count
        }
    }

    /// Returns the state after a duplicate acknowledgement. The third one begins fast recovery.
    #[tactic(auto, unfolding(tcp_rules::specs::Congestion::with_duplicate))]
    pub(crate) fn with_duplicate(self, mss: u16, flight: u64) -> Window
        ensures { congestion_in result ≡ with_duplicate mss flight (congestion_in self) }
    {
        let segment = u64::from(mss);
        if self.dups >= 3 {
            return Window {
                cwnd: self.cwnd.saturating_add(segment).min(MOST_WINDOW),
                dups: 4,
                ..self
            };
        }
        if self.is_third() {
            let lowered = lowered_threshold(segment, flight);
            return Window {
                cwnd: (lowered + 3 * segment).min(MOST_WINDOW),
                ssthresh: lowered,
                dups: 3,
                lost: self.lost_of(flight),
                ..self
            };
        }
        Window {
            dups: self.counted(),
            ..self
        }
    }

    /// Returns the state after the timer expires: everything in flight counts as lost. Only the first expiry lowers the threshold.
    #[tactic(auto, unfolding(tcp_rules::specs::Congestion::with_expiry))]
    pub(crate) fn with_expiry(self, mss: u16, flight: u64, is_first: bool) -> Window
        ensures { congestion_in result ≡ with_expiry mss flight is_first (congestion_in self) }
    {
        let segment = u64::from(mss);
        let ssthresh = if is_first {
            lowered_threshold(segment, flight)
        } else {
            self.ssthresh
        };
        Window {
            cwnd: segment,
            ssthresh,
            dups: 0,
            lost: self.lost_of(flight),
            ..self
        }
    }
}

/// Returns the initial window: four segments, or three if a segment has more than 1,095 bytes.
fn initial_window(mss: u16) -> u64
    ensures { result ≡ initial_lem mss }
{
    let segment = u64::from(mss);
    if mss <= 1_095 {
        4 * segment
    } else {
        3 * segment
    }
}

/// Returns the threshold after a loss: half of the flight size, but at least two segments.
fn lowered_threshold(mss: u64, flight: u64) -> u64
    requires { mss ≤ 65535 }
    ensures value { result ≡ lowered_lem mss flight }
    ensures within { result ≤ 9223372036854775807 }
{
    (flight / 2).max(2 * mss)
}
