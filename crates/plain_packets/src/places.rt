//! Places after the bytes taken. Each holds a byte or none.

ghost use Rattle.std.specs.Prelude.{ℕ, List, ◌≡◌, ◌==◌, ◌≤◌, ◌<◌, [], ◌∷◌, ◌++◌, OnOk, length, take, drop, slice_get, not, nat_lt, ◌&&◌, ◌-◌};
ghost use Rattle.tcp_rules.specs.Early.{laid, run_count, front_run, behind_front_run, holds_some, held_with};

use ft_io::NoMemory;
use std::alloc::Global;
use std::collections::VecDeque;
use std::marker::Model;

/// The largest number of runs that are held.
const MOST_RUNS: usize = 16;

/// Places, in order, and how many runs of held bytes they have. Neither the bytes held nor their runs are counted again when a segment comes.
#[derive(Drop)]
pub(crate) struct Places {
    places: VecDeque<Option<u8>>,
    runs: usize,
}

impl Model for Places {
    ghost use Rattle.std.specs.Prelude.{◌≡◌, ℕ, List, Option};
    ghost use Rattle.tcp_rules.specs.Early.{run_count};

    ghost Value = { List (Option ℕ) };

    ghost view = { λ p. p.places.items };

    ghost invariant = { λ p. p.runs ≡ run_count p.places.items };
}

/// Returns whether this place holds a byte.
#[tactic(auto, using(crate::proofs::Runs::holds_here, crate::proofs::Runs::holds_nothing))]
fn holds(places: &VecDeque<Option<u8>>, place: usize) -> bool
    ensures { result ≡ holds_some (take 1 (drop place places.now.items)) }
{
    match places.get(place) {
        Some(held) => held.is_some(),
        None => false,
    }
}

/// Returns whether the place before this one holds a byte.
fn follows_byte(places: &VecDeque<Option<u8>>, place: usize) -> bool
    ensures { result ≡ (nat_lt 0 place && holds_some (take 1 (drop (place - 1) places.now.items))) }
{
    place > 0 && holds(places, place - 1)
}

/// Returns whether the first place holds a byte and the second one doesn't.
fn begins_with_one_byte(places: &VecDeque<Option<u8>>) -> bool
    ensures { result ≡ (holds_some (take 1 places.now.items) && not (holds_some (take 1 (drop 1 places.now.items)))) }
{
    holds(places, 0) && !holds(places, 1)
}

/// Returns how many runs there are once these bytes are laid over the places from this one on, given how many there are before.
#[tactic(auto, using(crate::proofs::Runs::follows_is, crate::proofs::Runs::follows_next, crate::proofs::Runs::runs_next))]
fn runs_with(places: &VecDeque<Option<u8>>, runs: usize, at: usize, bytes: &[u8]) -> usize
    requires runs { runs ≡ run_count places.now.items }
    requires some { 0 < length bytes.now }
    ensures { result ≡ run_count (laid at bytes.now places.now.items) }
{
    let continues = follows_byte(places, at);
    let end = at.saturating_add(bytes.len() + 1).min(places.len());
    let (mut met, mut is_within) = (0, continues);
    for place in at..end {
        let is_held = holds(places, place);
        met += usize::from(is_held && !is_within);
        is_within = is_held;
    }
    if continues {
        runs - met
    } else {
        runs + 1 - met
    }
}

/// Adds empty places up to this one. Laying bytes from there on gives the same as before.
#[tactic(auto, using(crate::proofs::Laying::padded))]
fn pad(places: &mut VecDeque<Option<u8>>, at: usize) -> Result<(), NoMemory>
    ensures long { OnOk result (at ≤ length places.new.items) }
    ensures same { OnOk result ((bytes : List ℕ) → 0 < length bytes → laid at bytes places.new.items ≡ laid at bytes places.old.items) }
{
    while places.len() < at {
        places.push_back(None)?;
    }
    Ok(())
}

/// Lays a byte at a place within the others or directly after them.
#[tactic(auto, using(crate::proofs::Laying::laid_within, crate::proofs::Laying::laid_after))]
fn put(places: &mut VecDeque<Option<u8>>, at: usize, byte: u8) -> Result<(), NoMemory>
    requires { at ≤ length places.old.items }
    ensures put { OnOk result (places.new.items ≡ laid at (byte ∷ []) places.old.items) }
    ensures long { OnOk result (at < length places.new.items) }
{
    if at < places.len() {
        places[at] = Some(byte);
    } else {
        places.push_back(Some(byte))?;
    }
    Ok(())
}

/// Lays bytes over the places from this one on. This one is among the places, or directly after them.
#[tactic(auto, using(crate::proofs::Laying::laid_one_first, crate::proofs::Laying::nothing_laid))]
fn lay_within(places: &mut VecDeque<Option<u8>>, at: usize, bytes: &[u8]) -> Result<(), NoMemory>
    requires { at ≤ length places.old.items }
    ensures { OnOk result (places.new.items ≡ laid at bytes.now places.old.items) }
{
    let (mut place, mut rest) = (at, bytes);
    while let Some((byte, behind)) = rest.split_first() {
        put(places, place, *byte)?;
        place += 1;
        rest = behind;
    }
    Ok(())
}

/// Lays some bytes over the places from this one on.
fn lay(places: &mut VecDeque<Option<u8>>, at: usize, bytes: &[u8]) -> Result<(), NoMemory>
    requires { 0 < length bytes.now }
    ensures { OnOk result (places.new.items ≡ laid at bytes.now places.old.items) }
{
    pad(places, at)?;
    lay_within(places, at, bytes)
}

impl Places {
    /// Creates no places. Allocates nothing.
    pub(crate) fn new(alloc: Global) -> Places
        ensures { result ≡ [] }
    {
        Places {
            places: VecDeque::new(alloc),
            runs: 0,
        }
    }

    /// Returns whether there are no places.
    pub(crate) fn is_empty(&self) -> bool
        ensures { result ≡ (length self.now == 0) }
    {
        self.places.is_empty()
    }

    /// Returns whether some place holds a byte, from this place on. The last place is looked at first, since it holds one.
    #[tactic(auto, using(crate::proofs::Cited::hold_some_from_lemmas))]
    pub(crate) fn hold_some_from(&self, first: u64) -> bool
        ensures { result ≡ holds_some (drop first self.now) }
    {
        let mut end = self.places.len();
        while end as u64 > first {
            end -= 1;
            if holds(&self.places, end) {
                return true;
            }
        }
        false
    }

    /// Holds bytes from a place on, unless that would make more than sixteen runs. After `NoMemory` nothing is held.
    #[tactic(auto, unfolding(tcp_rules::specs::Early::held_with))]
    pub(crate) fn hold(&mut self, at: usize, bytes: &[u8]) -> Result<(), NoMemory>
        ensures { OnOk result (self.new ≡ held_with at bytes.now self.old) }
    {
        if bytes.is_empty() {
            return Ok(());
        }
        let runs = runs_with(&self.places, self.runs, at, bytes);
        if runs > MOST_RUNS {
            return Ok(());
        }
        match lay(&mut self.places, at, bytes) {
            Ok(()) => {
                self.runs = runs;
                Ok(())
            }
            Err(error) => {
                self.places.clear();
                self.runs = 0;
                Err(error)
            }
        }
    }

    /// Returns the first of the held bytes that continue what is taken.
    #[tactic(auto, using(crate::proofs::Runs::front_is, crate::proofs::Runs::front_none))]
    fn first(&self) -> Option<u8>
        ensures { result ≡ slice_get (front_run self.now) 0 }
    {
        match self.places.front() {
            Some(place) => *place,
            None => None,
        }
    }

    /// Removes the first place.
    #[tactic(auto, using(crate::proofs::Runs::front_runs))]
    fn pop(&mut self)
        ensures { self.new ≡ drop 1 self.old }
    {
        self.runs -= usize::from(begins_with_one_byte(&self.places));
        self.places.pop_front();
    }

    /// Removes so many places from the front, or all if there are fewer.
    #[tactic(auto, using(std::proofs::lemmas::List::drop_min))]
    pub(crate) fn drop_front(&mut self, count: usize)
        ensures { self.new ≡ drop count self.old }
    {
        for _place in 0..count.min(self.places.len()) {
            self.pop();
        }
    }

    /// Takes the held bytes that continue what is taken off the front, and appends them. After `NoMemory` `added` may only be dropped.
    #[tactic(auto, using(crate::proofs::Runs::front_more, crate::proofs::Runs::front_done, std::proofs::Common::append_assoc))]
    pub(crate) fn take_front(&mut self, added: &mut Vec<u8>) -> Result<(), NoMemory>
        ensures bytes { OnOk result (added.new.items ≡ added.old.items ++ front_run self.old) }
        ensures rest { OnOk result (self.new ≡ behind_front_run self.old) }
    {
        while let Some(byte) = self.first() {
            added.push(byte)?;
            self.pop();
        }
        Ok(())
    }
}
