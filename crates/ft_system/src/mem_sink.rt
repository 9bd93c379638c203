//! A sink that stores what it takes in memory, for tests and for schedules. Its content is specified. It fails where it was made to fail, and where an
//! allocation fails.

ghost use Rattle.std.specs.Prelude.{◌≡◌, ◌≤◌, ◌<◌, ◌⊎◌, length, Some, IfOk, OnOk, OnErr, IsErr};
ghost use Rattle.std.specs.Io.KnownBytes.{WriteAppends};
ghost use Rattle.ft_io.specs.Faults.{Rose, raised};
ghost use Rattle.ft_system.specs.NumberedCalls.{after_call, IsNextListed};
ghost use Rattle.ft_system.specs.MemSink.{fresh_sink};

use crate::numbered::NumberedCalls;
use ft_io::{Failed, Sink};
use std::alloc::Global;
use std::marker::Model;

/// Bytes that were written, some of whose writes fail.
#[derive(Drop)]
pub struct MemSink {
    bytes: Vec<u8>,
    calls: NumberedCalls,
    faults: u64,
    starved: u64,
}

impl Model for MemSink {
    ghost use Rattle.std.specs.Prelude.{◌≤◌};
    ghost use Rattle.ft_system.specs.MemSink.{SinkState};

    ghost Value = { SinkState };

    ghost view = { λ s. record {
      taken = s.bytes.items;
      calls = s.calls;
      faults = s.faults;
      starved = s.starved;
    } };

    ghost invariant = { λ s. s.starved ≤ s.faults };
}

impl MemSink {
    /// Makes an empty sink. The writes fail whose numbers, counted from 1, are in `fails`. Nothing is allocated yet.
    pub fn new(alloc: Global, fails: Vec<u32>) -> MemSink
        ensures { result ≡ fresh_sink fails.items }
    {
        MemSink {
            bytes: Vec::new(alloc),
            calls: NumberedCalls::new(fails),
            faults: 0,
            starved: 0,
        }
    }

    /// Returns how many writes failed because an allocation failed. The count never falls, and each of them counts among the faults too.
    pub fn starved(&self) -> u64
        ensures count { result ≡ self.now.starved }
        ensures among_faults { result ≤ self.now.faults }
    {
        self.starved
    }

    /// Returns all bytes that the sink took.
    pub fn written(&self) -> &[u8]
        ensures { result.now ≡ self.now.taken }
    {
        self.bytes.as_slice()
    }
}

impl Sink for MemSink {
    ghost taken = { λ s. Some s.taken };

    ghost fault_count = { λ s. s.faults };

    fn faults(&self) -> u64 {
        self.faults
    }

    /// Takes all of `buf`.
    fn write(&mut self, buf: &[u8]) -> Result<usize, Failed>
        // It fails exactly where its call is listed so, or where an allocation fails, which `starved` counts.
        ensures listed { IsNextListed self.old.calls →
            IsErr result × (self.new.starved ≡ self.old.starved) }
        ensures failed { OnErr result
            (IsNextListed self.old.calls ⊎ Rose self.old.starved self.new.starved) }
        ensures not_starved { OnOk result (self.new.starved ≡ self.old.starved) }
        ensures starved_never_falls { self.old.starved ≤ self.new.starved }

        ensures whole { IfOk result (λ n. n ≡ length buf.now) }
        ensures calls { self.new.calls ≡ after_call self.old.calls }
        ensures fault { OnErr result (self.new.faults ≡ raised self.old.faults) }
        ensures no_fault { OnOk result (self.new.faults ≡ self.old.faults) }

        // What every sink promises.
        ensures within { IfOk result (λ n. n ≤ length buf.now) }
        ensures some { IfOk result (λ n. 0 < length buf.now → 0 < n) }
        ensures bytes { WriteAppends (Some self.old.taken) (Some self.new.taken) result buf.now }
        ensures cause { OnErr result (Rose self.old.faults self.new.faults) }
        ensures never_falls { self.old.faults ≤ self.new.faults }
    {
        if self.calls.next_fails() {
            self.faults = self.faults.saturating_add(1);
            return Err(Failed);
        }
        if self.bytes.extend_from_slice(buf).is_err() {
            self.faults = self.faults.saturating_add(1);
            self.starved = self.starved.saturating_add(1);
            return Err(Failed);
        }
        Ok(buf.len())
    }
}
