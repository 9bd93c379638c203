//! The lengths of an entry's reads, in runs of equal ones.

ghost use Rattle.limits.specs.Limits.{longest_stream};
ghost use Rattle.std.specs.Prelude.{[], ◌≡◌, ◌≤◌, ◌<◌, ◌+◌, ◌-◌, ◌*◌, ◌^◌, ◌++◌, ◌∷◌, true, IsOk, OnOk, OnErr, List, length, take, drop, slice_index, sum};
ghost use Rattle.std.specs.List.{flat_map};
ghost use Rattle.log_pages.specs.Pages.{ends_with, lengths_in, took};

use crate::lens::{LENS, Lens};
use ft_io::NoMemory;
use std::alloc::Global;
use std::marker::Model;

/// Equal lengths that follow one another.
#[derive(Clone, Copy)]
pub struct Run {
    /// The length, in bytes.
    pub length: u16,
    /// How many reads have it.
    pub count: u32,
}

/// The lengths of reads: complete runs, and the run of the last length. The last run has the count 0 before the first read, and when all reads are discarded.
#[derive(Drop)]
pub struct Runs {
    /// The runs before the last, the first first.
    closed: Vec<Run>,
    /// The last run: a further read of the same length only raises its count.
    last: Run,
}

impl Model for Runs {
    ghost use Rattle.std.specs.Prelude.{ℕ, ◌++◌, List};
    ghost use Rattle.std.specs.List.{flat_map};
    ghost use Rattle.log_pages.specs.Pages.{lengths_in};

    ghost Value = { List ℕ };

    ghost view = { λ r. flat_map lengths_in r.closed.items ++ lengths_in r.last };
}

/// Appends the lengths of a run past its first `skip`, as many as there is room for, and returns how many lengths after the run are still to be skipped.
#[tactic(auto, using(crate::proofs::Lengths::run_behind, std::proofs::lemmas::List::replicate_more, std::proofs::Common::append_assoc))]
pub fn spell_run(run: Run, skip: usize, lens: &mut Lens) -> usize
    ensures skip { result ≡ skip - run.count }
    ensures lens { lens.new ≡ take 512 (lens.old ++ drop skip (lengths_in run)) }
{
    let count = run.count as usize;
    let room = LENS - lens.len();
    for _more in 0..room.min(count.saturating_sub(skip)) {
        lens.push(run.length);
    }
    skip.saturating_sub(count)
}

/// How many bytes the first `reads` reads of a run took; `None` if they are closing reads.
#[tactic(auto, using(crate::proofs::Took::took_same, crate::proofs::Took::took_closing, crate::proofs::Took::took_nothing, crate::proofs::Took::few_fit))]
pub fn took_of(run: Run, reads: usize) -> Option<u32>
    requires { sum (lengths_in run) ≤ longest_stream }
    ensures value { result ≡ took reads (lengths_in run) }
{
    let count = reads.min(run.count as usize);
    if count == 0 {
        return Some(0);
    }
    if run.length == 0 {
        return None;
    }
    Some(count as u32 * u32::from(run.length))
}

/// A prefix of a list of runs.
#[derive(Clone, Copy)]
struct Front {
    /// How many runs it has, ..
    runs: usize,
    /// .. how many reads they have, ..
    reads: u32,
    /// .. and how many bytes these took.
    bytes: u32,
}

/// Returns the longest prefix of `runs` that has at most `reads` reads.
#[tactic(auto, using(crate::proofs::Cited::front_of_lemmas))]
fn front_of(runs: &[Run], reads: u32) -> Front
    requires { sum (flat_map lengths_in runs.now) ≤ longest_stream }
    ensures runs { result.runs ≤ length runs.now }
    ensures reads { result.reads ≡ length (flat_map lengths_in (take result.runs runs.now)) }
    ensures bytes { result.bytes ≡ sum (flat_map lengths_in (take result.runs runs.now)) }
    ensures few { result.reads ≤ reads }
    ensures longest { (run : Run) → (rest : List Run) → drop result.runs runs.now ≡ run ∷ rest → reads < result.reads + run.count }
{
    let mut front = Front {
        runs: 0,
        reads: 0,
        bytes: 0,
    };
    for run in runs {
        if reads - front.reads < run.count {
            return front;
        }
        front = Front {
            runs: front.runs + 1,
            reads: front.reads + run.count,
            bytes: front.bytes + run.count * u32::from(run.length),
        };
    }
    front
}

/// Discards the first `reads` reads of a run, and returns how many bytes they took.
#[tactic(auto, using(crate::proofs::Cutting::cut_rest, crate::proofs::Cutting::cut_took, crate::proofs::Cutting::cut_few))]
fn cut(run: &mut Run, reads: u32) -> u32
    requires there { reads ≤ run.old.count }
    requires few { sum (lengths_in run.old) ≤ longest_stream }
    ensures rest { lengths_in run.new ≡ drop reads (lengths_in run.old) }
    ensures took { result ≡ sum (take reads (lengths_in run.old)) }
{
    run.count -= reads;
    reads * u32::from(run.length)
}

/// Discards the first `count` runs.
#[tactic(auto, using(crate::proofs::Cutting::turned))]
fn drop_runs(runs: &mut Vec<Run>, count: usize)
    requires { count ≤ length runs.old.items }
    ensures { runs.new.items ≡ drop count runs.old.items }
{
    let kept = runs.len() - count;
    runs.rotate_left(count);
    runs.truncate(kept);
}

/// Discards the first `reads` reads of the first run, which is `last` if `runs` is empty, and returns how many bytes they took.
#[tactic(auto, using(crate::proofs::Cutting::first_rest, crate::proofs::Cutting::first_took))]
fn cut_first(runs: &mut Vec<Run>, last: &mut Run, reads: u32) -> u32
    requires in_run { (run : Run) → (rest : List Run) → runs.old.items ≡ run ∷ rest → reads ≤ run.count }
    requires in_last { runs.old.items ≡ [] → reads ≤ last.old.count }
    requires few { sum (flat_map lengths_in runs.old.items ++ lengths_in last.old) ≤ longest_stream }
    ensures rest { flat_map lengths_in runs.new.items ++ lengths_in last.new ≡ drop reads (flat_map lengths_in runs.old.items ++ lengths_in last.old) }
    ensures took { result ≡ sum (take reads (flat_map lengths_in runs.old.items ++ lengths_in last.old)) }
{
    match runs.first_mut() {
        Some(run) => cut(run, reads),
        None => cut(last, reads),
    }
}

impl Runs {
    /// No lengths. Nothing is allocated yet.
    pub fn new(alloc: Global) -> Runs
        ensures { result ≡ [] }
    {
        Runs {
            closed: Vec::new(alloc),
            last: Run {
                length: 0,
                count: 0,
            },
        }
    }

    /// Appends the length of the next read. A length equal to the last one needs no allocation.
    #[tactic(auto, using(crate::proofs::Lengths::last_length, std::proofs::Common::append_assoc))]
    pub fn push(&mut self, len: u16) -> Result<(), NoMemory>
        requires { length self.old < 2 ^ 32 - 1 }
        ensures ok { OnOk result (self.new ≡ self.old ++ len ∷ []) }
        ensures err { OnErr result (self.new ≡ self.old) }
        ensures again { ends_with len self.old ≡ true → IsOk result }
        ensures first { self.old ≡ [] → IsOk result }
    {
        if self.last.length == len {
            self.last.count += 1;
            return Ok(());
        }
        if self.last.count > 0 {
            self.closed.push(self.last)?;
        }
        self.last = Run {
            length: len,
            count: 1,
        };
        Ok(())
    }

    /// The length of the read with index `i`, counted from 0, in bytes.
    pub fn at(&self, i: usize) -> u16
        requires { i < length self.now }
        ensures { result ≡ slice_index self.now i }
    {
        let mut left = i;
        for run in &self.closed {
            let count = run.count as usize;
            if left < count {
                return run.length;
            }
            left -= count;
        }
        self.last.length
    }

    /// Appends the lengths from index `first` on, as many as there is room for.
    pub fn copy(&self, first: usize, lens: &mut Lens)
        requires { length lens.old ≤ 512 }
        ensures { lens.new ≡ take 512 (lens.old ++ drop first self.now) }
    {
        let mut skip = first;
        for run in &self.closed {
            skip = spell_run(*run, skip, lens);
        }
        spell_run(self.last, skip, lens);
    }

    /// How many bytes the first `reads` reads took; `None` if a closing read is among them.
    pub fn took(&self, reads: usize) -> Option<u32>
        requires { sum self.now ≤ longest_stream }
        ensures { result ≡ took reads self.now }
    {
        let (mut left, mut total) = (reads, 0u32);
        for run in &self.closed {
            total += took_of(*run, left)?;
            left = left.saturating_sub(run.count as usize);
        }
        Some(total + took_of(self.last, left)?)
    }

    /// Discards the first `reads` lengths, and returns how many bytes these reads took. Nothing is allocated.
    #[tactic(auto, using(crate::proofs::Cited::drop_first_lemmas))]
    pub fn drop_first(&mut self, reads: u32) -> u32
        requires there { reads ≤ length self.old }
        requires few { sum self.old ≤ longest_stream }
        ensures rest { self.new ≡ drop reads self.old }
        ensures took { result ≡ sum (take reads self.old) }
    {
        let front = front_of(&self.closed, reads);
        drop_runs(&mut self.closed, front.runs);
        front.bytes + cut_first(&mut self.closed, &mut self.last, reads - front.reads)
    }
}
