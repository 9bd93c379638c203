//! The estimate of the round-trip time, and the interval that the timer starts with (RFC 6298, in ticks).

ghost use Rattle.std.specs.Prelude.{◌≡◌};
ghost use Rattle.tcp_rules.specs.Timing.{initial_timing, apart as apart_lem, smoothed_by, variation_by, computed_base, with_sample};
ghost use Rattle.tcp_rules.specs.Timing.{with_acknowledged, with_tick, without_trip, with_backoff, with_sent};
ghost use Rattle.plain_point.specs.Values.{timing_in};

/// The shortest interval of a timer that follows measured round trips, in ticks.
const LEAST_INTERVAL: u64 = 2;

/// The longest interval of the timer, in ticks.
pub(crate) const LONGEST_INTERVAL: u64 = 64;

/// The estimate of the round-trip time.
#[derive(Clone, Copy)]
pub struct Timing {
    /// Whether round trips are measured.
    pub measures: bool,
    /// The interval that the timer starts with, in ticks.
    pub base: u64,
    /// The smoothed round-trip time, in eighths of a tick.
    pub smoothed: u16,
    /// The round-trip time's variation, in quarters of a tick.
    pub variation: u16,
    /// Whether a round trip has been measured.
    pub sampled: bool,
    /// Whether a unit is timed.
    pub timed: bool,
    /// How many units after SND.UNA the timed unit ends.
    pub ahead: u64,
    /// The ticks since it was sent, at most 255.
    pub ticks: u8,
    /// Whether the timer has expired since the interval was last computed.
    pub backed_off: bool,
}

impl Timing {
    /// Returns the estimate of a new connection: nothing is measured.
    pub(crate) fn initial(measures: bool) -> Timing
        ensures { timing_in result ≡ initial_timing measures }
    {
        Timing {
            measures,
            base: if measures { 10 } else { 1 },
            smoothed: 0,
            variation: 0,
            sampled: false,
            timed: false,
            ahead: 0,
            ticks: 0,
            backed_off: false,
        }
    }

    /// Returns the smoothed round-trip time after a measurement. Each one but the first counts an eighth.
    fn smoothed_by(self, ticks: u8) -> u16
        ensures { result ≡ smoothed_by ticks (timing_in self) }
    {
        if self.sampled {
            self.smoothed - self.smoothed / 8 + u16::from(ticks)
        } else {
            8 * u16::from(ticks)
        }
    }

    /// Returns the variation after a measurement. Each one but the first counts a quarter.
    fn variation_by(self, ticks: u8) -> u16
        ensures { result ≡ variation_by ticks (timing_in self) }
    {
        if self.sampled {
            let deviation = apart(u16::from(ticks), self.smoothed / 8);
            self.variation - self.variation / 4 + deviation
        } else {
            2 * u16::from(ticks)
        }
    }

    /// Returns the estimate after the round trip of the timed unit is measured.
    #[tactic(auto, unfolding(tcp_rules::specs::Timing::with_sample))]
    fn with_sample(self) -> Timing
        ensures { timing_in result ≡ with_sample (timing_in self) }
    {
        let smoothed = self.smoothed_by(self.ticks);
        let variation = self.variation_by(self.ticks);
        Timing {
            base: interval_for(smoothed, variation),
            smoothed,
            variation,
            sampled: true,
            timed: false,
            backed_off: false,
            ..self
        }
    }

    /// Returns the estimate after so many units are newly acknowledged.
    #[tactic(auto, unfolding(tcp_rules::specs::Timing::with_acknowledged))]
    pub(crate) fn with_acknowledged(self, units: u64) -> Timing
        ensures { timing_in result ≡ with_acknowledged units (timing_in self) }
    {
        if !self.timed {
            return self;
        }
        if self.ahead <= units {
            return self.with_sample();
        }
        Timing {
            ahead: self.ahead - units,
            ..self
        }
    }

    /// Returns the estimate after a tick.
    #[tactic(auto, unfolding(tcp_rules::specs::Timing::with_tick))]
    pub(crate) fn with_tick(self) -> Timing
        ensures { timing_in result ≡ with_tick (timing_in self) }
    {
        if !self.timed {
            return self;
        }
        Timing {
            ticks: self.ticks.saturating_add(1),
            ..self
        }
    }

    /// Returns the estimate after a retransmission: no unit is timed.
    #[tactic(auto, unfolding(tcp_rules::specs::Timing::without_trip))]
    pub(crate) fn without_trip(self) -> Timing
        ensures { timing_in result ≡ without_trip (timing_in self) }
    {
        Timing {
            timed: false,
            ..self
        }
    }

    /// Returns the estimate after the timer expires, if its interval is then this long.
    #[tactic(auto, unfolding(tcp_rules::specs::Timing::with_backoff))]
    pub(crate) fn with_backoff(self, interval: u64) -> Timing
        ensures { timing_in result ≡ with_backoff interval (timing_in self) }
    {
        if !self.measures {
            return self;
        }
        Timing {
            base: interval,
            timed: false,
            backed_off: true,
            ..self
        }
    }

    /// Returns the estimate after a unit is sent for the first time that ends `ahead` units after SND.UNA. It is timed if no other unit is.
    #[tactic(auto, unfolding(tcp_rules::specs::Timing::with_sent))]
    pub(crate) fn with_sent(self, ahead: u64) -> Timing
        ensures { timing_in result ≡ with_sent ahead (timing_in self) }
    {
        if !self.measures || self.timed {
            return self;
        }
        Timing {
            timed: true,
            ahead,
            ticks: 0,
            ..self
        }
    }
}

/// Returns how far two numbers are apart.
fn apart(m: u16, n: u16) -> u16
    ensures { result ≡ apart_lem m n }
{
    m.abs_diff(n)
}

/// Returns the interval that the timer starts with: the smoothed round-trip time and four times the variation, the latter at least two ticks.
fn interval_for(smoothed: u16, variation: u16) -> u64
    ensures { result ≡ computed_base smoothed variation }
{
    let trip = u64::from(smoothed / 8);
    let interval = trip + u64::from(variation).max(2);
    interval.max(LEAST_INTERVAL).min(LONGEST_INTERVAL)
}
