//! What a turn sets at its end, and what it then reads from the point.

ghost use Rattle.std.specs.Prelude.{◌≡◌, ◌==◌, ◌||◌, not, true, nat_lt, max};

use crate::point::PlainPoint;

impl PlainPoint {
    ghost use Rattle.ft_model.specs.Point.{acknowledgement, taken_units};

    /// Returns the lengths of all reads, the first one first.
    pub fn lengths(&self) -> &[u16]
        ensures { result.now ≡ self.now.lengths }
    {
        self.lengths.as_slice()
    }

    /// Returns whether all that is taken is known to be logged.
    pub fn is_all_answered(&self) -> bool
        ensures { result ≡ (acknowledgement self.now == taken_units self.now) }
    {
        self.acknowledgement() == self.taken_units()
    }

    /// Returns whether something is unacknowledged, including the SYN, or waits to be sent. Up to `target` units may be sent.
    pub fn must_run(&self, target: u64) -> bool
        ensures { result ≡ (not self.now.syn_acked || nat_lt self.now.una (max self.now.sent target)) }
    {
        !self.syn_acked || self.una < self.sent.max(target)
    }

    /// Sets SND.NXT.
    pub fn set_sent(&mut self, sent: u64)
        ensures { self.new ≡ record self.old { sent = sent } }
    {
        self.sent = sent;
    }

    /// Records that the client reset the connection.
    pub fn set_reset(&mut self)
        ensures { self.new ≡ record self.old { reset = true } }
    {
        self.reset = true;
    }
}
