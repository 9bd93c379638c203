//! The timer after a turn, and the end ticks of a connection that is over (RFC 9293, 3.8.1, in ticks).

ghost use Rattle.std.specs.Prelude.{◌≡◌, ◌+◌, min, if◌then◌else◌};

use crate::point::PlainPoint;
use crate::timing::LONGEST_INTERVAL;

/// The number of end ticks that are counted.
const END_TICKS: u64 = 4;

/// The timer before a turn, and the fields that show whether it is restarted.
#[derive(Clone, Copy)]
pub struct Timer {
    una: u64,
    syn_acked: bool,
    interval: u64,
    rest: u64,
}

impl PlainPoint {
    ghost use Rattle.plain_point.specs.Turn.{timer_of, is_set_anew_since, interval_since, rest_since, timing_since};

    /// Returns the timer before a turn.
    pub fn timer(&self) -> Timer
        ensures { result ≡ timer_of self.now }
    {
        Timer {
            una: self.una,
            syn_acked: self.syn_acked,
            interval: self.interval,
            rest: self.rest,
        }
    }

    /// Returns whether the timer is restarted: it didn't run, or something new has been acknowledged since.
    fn is_set_anew(&self, timer: Timer) -> bool
        ensures { result ≡ is_set_anew_since timer self.now }
    {
        timer.rest == 0 || timer.una < self.una || (self.syn_acked && !timer.syn_acked)
    }

    /// Returns the interval after a turn: the estimate's if the timer is restarted. At an expiry it is doubled, up to 64 ticks.
    fn interval_after(&self, timer: Timer, ticks: bool) -> u64
        ensures { result ≡ interval_since ticks timer self.now }
    {
        if self.is_set_anew(timer) {
            self.timing.base
        } else if ticks && timer.rest == 1 {
            timer.interval.saturating_mul(2).min(LONGEST_INTERVAL)
        } else {
            timer.interval
        }
    }

    /// Returns the ticks that remain after a turn: a full interval if the timer is restarted or has expired; one less at any other tick; none if it needn't
    /// run.
    fn rest_after(&self, timer: Timer, ticks: bool, must_run: bool) -> u64
        ensures { result ≡ rest_since must_run ticks timer self.now }
    {
        if !must_run {
            return 0;
        }
        if self.is_set_anew(timer) || (ticks && timer.rest == 1) {
            return self.interval_after(timer, ticks);
        }
        timer.rest.saturating_sub(u64::from(ticks))
    }

    /// Times the first unit that is sent for the first time, if no unit is timed: SND.NXT rises from `sent` to `at_once`, not counting a probe.
    pub fn time_sent(&mut self, sent: u64, at_once: u64)
        ensures { self.new ≡ record self.old { timing = timing_since sent at_once self.old } }
    {
        if sent < at_once {
            let ahead = (sent + 1).saturating_sub(self.una);
            self.timing = self.timing.with_sent(ahead);
        }
    }

    /// Sets the timer after a turn. `must_run` says whether it must run.
    pub fn set_timer(&mut self, timer: Timer, ticks: bool, must_run: bool)
        ensures { self.new ≡ record self.old { interval = interval_since ticks timer self.old; rest = rest_since must_run ticks timer self.old } }
    {
        let rest = self.rest_after(timer, ticks, must_run);
        self.interval = self.interval_after(timer, ticks);
        self.rest = rest;
    }

    /// Counts an end tick, up to four, if `ends` is set.
    pub fn count_end(&mut self, ends: bool)
        ensures { self.new ≡ record self.old { end_ticks = (if ends then min 4 (self.old.end_ticks + 1) else self.old.end_ticks) } }
    {
        if ends {
            self.end_ticks = self.end_ticks.saturating_add(1).min(END_TICKS);
        }
    }
}
