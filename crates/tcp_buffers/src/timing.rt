//! The estimate of the round-trip time, in ticks, and the interval with which the retransmission timer starts (RFC 6298).

ghost use Rattle.std.specs.Prelude.{◌≡◌, ◌≤◌};
ghost use Rattle.tcp_rules.specs.Timing.{initial_timing, smoothed_by, variation_by, computed_base, with_sample, with_acknowledged, with_tick};
ghost use Rattle.tcp_rules.specs.Timing.{without_trip, with_backoff, with_sent};

use std::marker::Model;

/// The estimate of the round-trip time. One that doesn't measure keeps an interval of one tick.
#[derive(Drop)]
pub struct Timing {
    /// Whether round trips are measured.
    measures: bool,
    /// The interval with which the timer starts, in ticks.
    base: u8,
    /// SRTT, in eighths of a tick.
    smoothed: u16,
    /// RTTVAR, in quarters of a tick.
    variation: u16,
    /// Whether a round trip has been measured.
    sampled: bool,
    /// Whether a measurement is under way.
    timed: bool,
    /// How many units after SND.UNA the timed unit ends.
    ahead: u32,
    /// The ticks since it was sent, at most 255.
    ticks: u8,
    /// Whether the timer has expired since the interval was last computed.
    backed_off: bool,
}

impl Model for Timing {
    ghost use Rattle.tcp_rules.specs.Timing.{Timing as Estimate, IsTiming};

    ghost Value = { Estimate };

    ghost view = { λ t. record {
      measures = t.measures;
      base = t.base;
      smoothed = t.smoothed;
      variation = t.variation;
      sampled = t.sampled;
      timed = t.timed;
      ahead = t.ahead;
      ticks = t.ticks;
      backed_off = t.backed_off;
    } };

    ghost invariant = { λ t. IsTiming (record {
      measures = t.measures;
      base = t.base;
      smoothed = t.smoothed;
      variation = t.variation;
      sampled = t.sampled;
      timed = t.timed;
      ahead = t.ahead;
      ticks = t.ticks;
      backed_off = t.backed_off;
    }) };
}

impl Timing {
    /// Nothing is measured yet.
    pub fn new(measures: bool) -> Timing
        ensures { result ≡ initial_timing measures }
    {
        Timing {
            measures,
            base: if measures { 10 } else { 1 },
            smoothed: 0,
            variation: 0,
            sampled: false,
            timed: false,
            ahead: 0,
            ticks: 0,
            backed_off: false,
        }
    }

    /// The interval with which the timer starts, in ticks.
    pub fn base(&self) -> u8
        ensures base { result ≡ self.now.base }
        ensures least { 1 ≤ result }
        ensures most { result ≤ 64 }
    {
        self.base
    }

    /// Whether the timer has expired since the interval was last computed.
    pub fn is_backed_off(&self) -> bool
        ensures { result ≡ self.now.backed_off }
    {
        self.backed_off
    }

    /// Whether round trips are measured.
    pub fn measures(&self) -> bool
        ensures { result ≡ self.now.measures }
    {
        self.measures
    }

    /// Notes that `units` units are newly acknowledged. A measurement ends if the timed unit is among them.
    #[tactic(auto, unfolding(tcp_rules::specs::Timing::with_acknowledged))]
    pub fn on_ack(&mut self, units: u32)
        ensures { self.new ≡ with_acknowledged units self.old }
    {
        if !self.timed {
            return;
        }
        if self.ahead <= units {
            self.sample();
        } else {
            self.ahead -= units;
        }
    }

    /// Counts a tick.
    #[tactic(auto, unfolding(tcp_rules::specs::Timing::with_tick))]
    pub fn on_tick(&mut self)
        ensures { self.new ≡ with_tick self.old }
    {
        if self.timed {
            self.ticks = self.ticks.saturating_add(1);
        }
    }

    /// Notes that something is retransmitted: no measurement is under way.
    #[tactic(auto, unfolding(tcp_rules::specs::Timing::without_trip))]
    pub fn on_retransmission(&mut self)
        ensures { self.new ≡ without_trip self.old }
    {
        self.timed = false;
    }

    /// Notes that the timer expired, and that its interval is now this long.
    #[tactic(auto, unfolding(tcp_rules::specs::Timing::with_backoff))]
    pub fn on_expiry(&mut self, interval: u8)
        requires least { 1 ≤ interval }
        requires most { interval ≤ 64 }
        ensures { self.new ≡ with_backoff interval self.old }
    {
        if self.measures {
            self.base = interval;
            self.timed = false;
            self.backed_off = true;
        }
    }

    /// Notes that a unit that ends `ahead` units after SND.UNA is sent for the first time. It is timed, if none is.
    #[tactic(auto, unfolding(tcp_rules::specs::Timing::with_sent))]
    pub fn on_send(&mut self, ahead: u32)
        ensures { self.new ≡ with_sent ahead self.old }
    {
        if self.measures && !self.timed {
            self.timed = true;
            self.ahead = ahead;
            self.ticks = 0;
        }
    }

    /// Notes the round trip of the timed unit.
    #[tactic(auto, unfolding(tcp_rules::specs::Timing::with_sample))]
    fn sample(&mut self)
        ensures { self.new ≡ with_sample self.old }
    {
        let smoothed = self.smoothed_next();
        let variation = self.variation_next();
        self.base = base_of(smoothed, variation);
        self.smoothed = smoothed;
        self.variation = variation;
        self.sampled = true;
        self.timed = false;
        self.backed_off = false;
    }

    /// SRTT after the measurement.
    fn smoothed_next(&self) -> u16
        ensures count { result ≡ smoothed_by self.now.ticks self.now }
        ensures most { result ≤ 2047 }
    {
        let ticks = u16::from(self.ticks);
        if self.sampled {
            self.smoothed - self.smoothed / 8 + ticks
        } else {
            8 * ticks
        }
    }

    /// RTTVAR after the measurement.
    fn variation_next(&self) -> u16
        ensures count { result ≡ variation_by self.now.ticks self.now }
        ensures most { result ≤ 1024 }
    {
        let ticks = u16::from(self.ticks);
        if self.sampled {
            self.variation - self.variation / 4 + ticks.abs_diff(self.smoothed / 8)
        } else {
            2 * ticks
        }
    }
}

/// The interval that follows from SRTT and RTTVAR.
fn base_of(smoothed: u16, variation: u16) -> u8
    requires smoothed { smoothed ≤ 2047 }
    requires variation { variation ≤ 1024 }
    ensures base { result ≡ computed_base smoothed variation }
    ensures least { 1 ≤ result }
    ensures most { result ≤ 64 }
{
    (smoothed / 8 + variation.max(2)).max(2).min(64) as u8
}
