//! The law Answered: what the logger's answers say is logged; and what a tick changes at once.

ghost use Rattle.std.specs.Prelude.{◌≡◌};
ghost use Rattle.logger_wire.specs.Records.{kept_said};

use crate::point::PlainPoint;
use logger_wire::Kept;

impl PlainPoint {
    ghost use Rattle.ft_model.specs.News.News.{Logged, Ticks};
    ghost use Rattle.plain_point.specs.Turn.{noted};

    /// Records how much is logged. Reads that this incarnation hasn't made don't count.
    #[tactic(auto, unfolding(crate::proofs::Unfolded::note_logged_words))]
    pub fn note_logged(&mut self, kept: Kept)
        ensures { self.new ≡ noted (Logged (kept_said kept)) self.old }
    {
        let answered = u64::from(kept.length) + u64::from(kept.fin);
        let reads = (kept.reads as usize).min(self.lengths.len());
        self.answered = self.answered.max(answered);
        self.reads_answered = self.reads_answered.max(reads);
    }

    /// Records a tick: if the timer expires while something is in flight and the client has room for it, that counts as lost.
    #[tactic(auto, unfolding(crate::proofs::Unfolded::note_tick_words))]
    pub fn note_tick(&mut self)
        ensures { self.new ≡ noted Ticks self.old }
    {
        let congestion = self.congestion_after_tick();
        self.timing = self.timing_after_tick();
        self.congestion = congestion;
    }
}
