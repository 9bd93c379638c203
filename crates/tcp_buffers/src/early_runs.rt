//! Which places after the bytes in order hold an out-of-order byte: at most sixteen runs of places.

ghost use Rattle.std.specs.Prelude.{◌≡◌, ◌+◌, ◌-◌, ◌<◌, ◌≤◌, ◌==◌, Bool, true, false, List, [], ◌∷◌, ◌++◌, length, nat_le};
ghost use Rattle.std.specs.Bool.{OnTrue, OnFalse};
ghost use Rattle.tcp_buffers.specs.Runs.{run, covered, covered_more, grown_to, runs_past, shifted};

use arrayvec::ArrayVec;
use std::marker::Model;

/// Places from `start` up to `end`, counted from the end of the bytes in order.
#[derive(Clone, Copy, Default)]
pub(crate) struct Run {
    pub(crate) start: usize,
    pub(crate) end: usize,
}

/// At most sixteen runs, in order.
#[derive(Drop)]
pub(crate) struct EarlyRuns {
    runs: ArrayVec<Run, 16>,
}

impl Model for EarlyRuns {
    ghost use Rattle.std.specs.Prelude.{List};
    ghost use Rattle.tcp_buffers.specs.declared.early_runs.Run.{Run};

    ghost Value = { List Run };

    ghost view = { λ r. r.runs.items };
}

impl EarlyRuns {
    /// Creates a list of no runs.
    pub(crate) fn new() -> EarlyRuns
        ensures { result ≡ [] }
    {
        EarlyRuns {
            runs: ArrayVec::new(),
        }
    }

    /// Whether there is no run.
    pub(crate) fn is_empty(&self) -> bool
        ensures none { result ≡ (length self.now == 0) }
        ensures few { length self.now ≤ 16 }
    {
        let runs = self.runs.as_slice();
        runs.is_empty()
    }

    /// Adds a run, merged with those that it touches. Returns false, and changes nothing, if there would be more than sixteen.
    #[tactic(auto, using(crate::proofs::Covered::few_are), unfolding(crate::specs::Runs::covered_more))]
    pub(crate) fn cover(&mut self, start: usize, end: usize) -> bool
        requires { start < end }
        ensures fits { result ≡ nat_le (length (covered self.old start end)) 16 }
        ensures held { OnTrue result (self.new ≡ covered self.old start end) }
        ensures full { OnFalse result (self.new ≡ self.old) }
    {
        let mut covering = Covering {
            kept: ArrayVec::new(),
            run: Run { start, end },
            is_kept: false,
        };
        if !covering.pass_all(self.runs.as_slice()) {
            return false;
        }
        few(&covering.kept);
        self.runs = covering.kept;
        true
    }

    /// Notes that the first `n` places are in order now, and with them the run that continues them. Returns how many places are in order then. The places of
    /// the other runs are counted from there.
    pub(crate) fn grow(&mut self, n: usize) -> usize
        ensures grown { result ≡ grown_to n self.old }
        ensures left { self.new ≡ shifted (grown_to n self.old) (runs_past n self.old) }
    {
        let (grown, left) = past(self.runs.as_slice(), n);
        let moved = shift(left, grown);
        self.runs = moved;
        grown
    }
}

/// A fact for proofs: a vector of runs has at most sixteen.
fn few(runs: &ArrayVec<Run, 16>)
    ensures { length runs.now.items ≤ 16 }
{
    let _count = runs.as_slice().len();
}

/// Returns how many places are in order once the first `n` are, and the runs past those.
#[tactic(auto, using(crate::proofs::Cited::past_lemmas), unfolding(crate::specs::Runs::grown_to, crate::specs::Runs::runs_past))]
fn past(runs: &[Run], n: usize) -> (usize, &[Run])
    ensures grown { result.0 ≡ grown_to n runs.now }
    ensures left { result.1.now ≡ runs_past n runs.now }
    ensures fewer { length result.1.now ≤ length runs.now }
{
    let mut rest = runs;
    while let Some((run, behind)) = rest.split_first() {
        if n < run.end {
            if n < run.start {
                return (n, rest);
            }
            return (run.end, behind);
        }
        rest = behind;
    }
    (n, rest)
}

/// The runs, with places counted from place `m`.
#[tactic(auto, unfolding(crate::specs::Runs::shifted))]
fn shift(runs: &[Run], m: usize) -> ArrayVec<Run, 16>
    requires { length runs.now ≤ 16 }
    ensures { result.items ≡ shifted m runs.now }
{
    let mut left = ArrayVec::new();
    let mut rest = runs;
    while let Some((run, behind)) = rest.split_first() {
        left.push(run.moved(m));
        rest = behind;
    }
    left
}

impl Run {
    /// The run, with places counted from place `m`.
    fn moved(self, m: usize) -> Run
        ensures { result ≡ run (self.start - m) (self.end - m) }
    {
        Run {
            start: self.start.saturating_sub(m),
            end: self.end.saturating_sub(m),
        }
    }
}

/// The insertion of a run: the others are passed, one after another in their order.
#[derive(Drop)]
struct Covering {
    /// The runs kept so far.
    kept: ArrayVec<Run, 16>,
    /// The added run, merged with those that it touched.
    run: Run,
    /// Whether the added run is among those kept.
    is_kept: bool,
}

impl Covering {
    /// Passes a run: keeps it, or merges it with the added run. Returns false where no room is left.
    #[tactic(auto, using(crate::proofs::Covered::long_more), unfolding(crate::specs::Runs::covered, crate::specs::Runs::covered_more))]
    fn pass(&mut self, run: Run) -> bool
        ensures passed { OnTrue result ((rest : List Run) → self.new.kept.items ++ covered_more self.new.is_kept self.new.run rest
            ≡ self.old.kept.items ++ covered_more self.old.is_kept self.old.run (run ∷ rest)) }
        ensures full { OnFalse result ((rest : List Run)
            → nat_le (length (self.old.kept.items ++ covered_more self.old.is_kept self.old.run (run ∷ rest))) 16 ≡ false) }
    {
        if self.is_kept || run.end < self.run.start {
            return self.keep(run);
        }
        if self.run.end < run.start {
            self.is_kept = true;
            return self.keep(self.run) && self.keep(run);
        }
        self.run = Run {
            start: self.run.start.min(run.start),
            end: self.run.end.max(run.end),
        };
        true
    }

    /// Appends a run to those kept. Returns false where no room is left.
    fn keep(&mut self, run: Run) -> bool
        ensures kept { OnTrue result (self.new.kept.items ≡ self.old.kept.items ++ run ∷ []) }
        ensures full { OnFalse result (length self.old.kept.items ≡ 16) }
        ensures run { self.new.run ≡ self.old.run }
        ensures is_kept { self.new.is_kept ≡ self.old.is_kept }
    {
        self.kept.try_push(run).is_ok()
    }

    /// Passes all of these runs, and keeps the added one. Returns false where no room is left.
    fn pass_all(&mut self, runs: &[Run]) -> bool
        ensures done { OnTrue result (self.new.kept.items ≡ self.old.kept.items ++ covered_more self.old.is_kept self.old.run runs.now) }
        ensures full { OnFalse result (nat_le (length (self.old.kept.items ++ covered_more self.old.is_kept self.old.run runs.now)) 16 ≡ false) }
    {
        let mut rest = runs;
        while let Some((run, behind)) = rest.split_first() {
            if !self.pass(*run) {
                return false;
            }
            rest = behind;
        }
        self.finish()
    }

    /// Keeps the added run, if it isn't kept yet, after all others are passed. Returns false where no room is left.
    #[tactic(auto, using(crate::proofs::Covered::long_more), unfolding(crate::specs::Runs::covered, crate::specs::Runs::covered_more))]
    fn finish(&mut self) -> bool
        ensures done { OnTrue result (self.new.kept.items ≡ self.old.kept.items ++ covered_more self.old.is_kept self.old.run []) }
        ensures full { OnFalse result (nat_le (length (self.old.kept.items ++ covered_more self.old.is_kept self.old.run [])) 16 ≡ false) }
    {
        self.is_kept || self.keep(self.run)
    }
}
