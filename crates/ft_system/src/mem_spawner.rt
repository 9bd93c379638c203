//! A spawner in memory, for tests. Its children end at once with the statuses that it was made with. It records its calls. It fails where it was made to fail,
//! and where an allocation fails or the numbers for children run out; from then on `reported` returns `None`.

ghost use Rattle.std.specs.Prelude.{◌≡◌, ◌≤◌, ◌⊎◌, map, string_bytes, slice_get, Some, None, IfSome, IfOk, OnOk, OnErr};
ghost use Rattle.ft_io.specs.declared.spawn_call.SpawnCall.TheVariants.{Started, Ended};
ghost use Rattle.ft_io.specs.Faults.{Rose};
ghost use Rattle.ft_system.specs.NumberedCalls.{IsNextListed};
ghost use Rattle.ft_io.specs.Reported.{Reports};
ghost use Rattle.ft_io.specs.Spawner.{start_reported, wait_reported, NumbersNext};
ghost use Rattle.ft_system.specs.MemSpawner.{fresh_spawner, reported_of, status_of, or_zero, attempted, noted, with_child, failed, starved};

use crate::numbered::NumberedCalls;
use ft_io::{Failed, SpawnCall, Spawner, Words};
use std::alloc::Global;
use std::marker::Model;

/// Children that end with listed statuses, and some of whose starts and waits fail.
#[derive(Drop)]
pub struct MemSpawner {
    alloc: Global,
    statuses: Vec<i32>,
    attempts: NumberedCalls,
    started: u32,
    calls: Vec<SpawnCall>,
    faults: u64,
    starved: u64,
}

impl Model for MemSpawner {
    ghost use Rattle.std.specs.Prelude.{◌≤◌};
    ghost use Rattle.ft_system.specs.MemSpawner.{SpawnerState};

    ghost Value = { SpawnerState };

    ghost view = { λ s. record {
      statuses = s.statuses.items;
      attempts = s.attempts;
      started = s.started;
      calls = s.calls.items;
      faults = s.faults;
      starved = s.starved;
    } };

    ghost invariant = { λ s. s.starved ≤ s.faults };
}

impl MemSpawner {
    /// Makes a spawner whose children end with `statuses`, in the order of their starts, and with 0 past that list. The starts and waits fail whose numbers,
    /// counted from 1 and in one numbering, are in `fails`. Nothing is allocated yet.
    pub fn new(alloc: Global, statuses: Vec<i32>, fails: Vec<u32>) -> MemSpawner
        ensures { result ≡ fresh_spawner statuses.items fails.items }
    {
        MemSpawner {
            alloc,
            statuses,
            attempts: NumberedCalls::new(fails),
            started: 0,
            calls: Vec::new(alloc),
            faults: 0,
            starved: 0,
        }
    }

    /// Returns how many calls failed because an allocation failed, or because the numbers for children ran out. The count never falls, and each of them counts
    /// among the faults too.
    pub fn starved(&self) -> u64
        ensures count { result ≡ self.now.starved }
        ensures among_faults { result ≤ self.now.faults }
    {
        self.starved
    }

    /// Returns the calls so far, the oldest first, or `None` once `starved` has risen.
    pub fn reported(&self) -> Option<&[SpawnCall]>
        ensures some { IfSome result (λ calls. reported_of self.now ≡ Some calls.now) }
        ensures none { result ≡ None → reported_of self.now ≡ None }
    {
        if self.starved == 0 {
            Some(self.calls.as_slice())
        } else {
            None
        }
    }

    fn fail(&mut self) -> Failed
        ensures { self.new ≡ failed self.old }
    {
        self.faults = self.faults.saturating_add(1);
        Failed
    }

    fn starve(&mut self) -> Failed
        ensures { self.new ≡ starved self.old }
    {
        self.faults = self.faults.saturating_add(1);
        self.starved = self.starved.saturating_add(1);
        Failed
    }

    /// Records a call, or fails where an allocation does.
    fn note(&mut self, call: SpawnCall) -> Result<(), Failed>
        ensures ok { OnOk result (self.new ≡ noted self.old call) }
        ensures err { OnErr result (self.new ≡ starved self.old) }
    {
        if self.calls.push(call).is_err() {
            return Err(self.starve());
        }
        Ok(())
    }
}

impl Spawner for MemSpawner {
    ghost reported = { reported_of };

    ghost started = { λ s. s.started };

    ghost fault_count = { λ s. s.faults };

    fn faults(&self) -> u64 {
        self.faults
    }

    fn start(&mut self, words: &[String]) -> Result<u32, Failed>
        // It fails exactly where its call is listed so, or where an allocation fails or the numbers run out.
        ensures ok { OnOk result ((IsNextListed self.old.attempts → ⊥)
            × (self.new ≡ with_child (noted (attempted self.old) (Started (map string_bytes words.now))))) }
        ensures err { OnErr result ((IsNextListed self.old.attempts × (self.new ≡ failed (attempted self.old)))
            ⊎ (self.new ≡ starved (attempted self.old))) }

        // What every spawner promises.
        ensures number { NumbersNext self.old.started self.new.started result }
        ensures reported { Reports (reported_of self.old) (reported_of self.new) (start_reported (map string_bytes words.now) result) }
        ensures cause { OnErr result (Rose self.old.faults self.new.faults) }
        ensures no_fault { OnOk result (self.new.faults ≡ self.old.faults) }
        ensures never_falls { self.old.faults ≤ self.new.faults }
    {
        if self.attempts.next_fails() {
            return Err(self.fail());
        }
        let Some(number) = self.started.checked_add(1) else {
            return Err(self.starve());
        };
        let Ok(copy) = Words::copy(self.alloc, words) else {
            return Err(self.starve());
        };
        self.note(SpawnCall::Started(copy))?;
        self.started = number;
        Ok(number)
    }

    fn wait(&mut self, child: u32) -> Result<i32, Failed>
        requires from_one { 1 ≤ child }
        requires was_started { child ≤ self.old.started }

        // It fails exactly where its call is listed so, or where an allocation fails, and returns this child's status.
        ensures status { IfOk result (λ status. status ≡ status_of self.old.statuses child) }
        ensures ok { OnOk result ((IsNextListed self.old.attempts → ⊥)
            × (self.new ≡ noted (attempted self.old) (Ended child (status_of self.old.statuses child)))) }
        ensures err { OnErr result ((IsNextListed self.old.attempts × (self.new ≡ failed (attempted self.old)))
            ⊎ (self.new ≡ starved (attempted self.old))) }

        // What every spawner promises.
        ensures same_children { self.new.started ≡ self.old.started }
        ensures reported { Reports (reported_of self.old) (reported_of self.new) (wait_reported child result) }
        ensures cause { OnErr result (Rose self.old.faults self.new.faults) }
        ensures no_fault { OnOk result (self.new.faults ≡ self.old.faults) }
        ensures never_falls { self.old.faults ≤ self.new.faults }
    {
        if self.attempts.next_fails() {
            return Err(self.fail());
        }
        let status = status_at(self.statuses.as_slice(), child as usize - 1);
        self.note(SpawnCall::Ended(child, status))?;
        Ok(status)
    }
}

/// Returns the status at this place, or 0 past the list.
fn status_at(statuses: &[i32], at: usize) -> i32
    ensures { result ≡ or_zero (slice_get statuses.now at) }
{
    match statuses.get(at) {
        Some(status) => *status,
        None => 0,
    }
}
