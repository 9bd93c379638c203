//! A source over bytes in memory, for tests and for schedules. Its content is specified. It fails where it was made to fail.

ghost use Rattle.std.specs.Prelude.{◌≡◌, ◌≤◌, ◌<◌, ◌↔◌, length, min, take, Some, IfOk, OnOk, OnErr, IsErr};
ghost use Rattle.std.specs.Io.KnownBytes.{ReadConsumes, IsAtEnd};
ghost use Rattle.ft_io.specs.Faults.{Rose, raised};
ghost use Rattle.ft_system.specs.NumberedCalls.{after_call, IsNextListed};
ghost use Rattle.ft_system.specs.MemSource.{fresh_source};

use crate::numbered::NumberedCalls;
use ft_io::{Failed, Source};
use std::marker::Model;

/// Bytes to be read, some of whose reads fail.
#[derive(Drop)]
pub struct MemSource {
    bytes: Vec<u8>,
    at: usize,
    calls: NumberedCalls,
    faults: u64,
}

impl Model for MemSource {
    ghost use Rattle.std.specs.Prelude.{◌≤◌, drop, vec_len};
    ghost use Rattle.ft_system.specs.MemSource.{SourceState};

    ghost Value = { SourceState };

    ghost view = { λ s. record {
      left = drop s.at s.bytes.items;
      calls = s.calls;
      faults = s.faults;
    } };

    ghost invariant = { λ s. s.at ≤ vec_len s.bytes };
}

impl MemSource {
    /// Makes a source of `bytes`. The reads fail whose numbers, counted from 1, are in `fails`.
    pub fn new(bytes: Vec<u8>, fails: Vec<u32>) -> MemSource
        ensures { result ≡ fresh_source bytes.items fails.items }
    {
        MemSource {
            bytes,
            at: 0,
            calls: NumberedCalls::new(fails),
            faults: 0,
        }
    }

    /// Returns the bytes that are left.
    pub fn rest(&self) -> &[u8]
        ensures { result.now ≡ self.now.left }
    {
        &self.bytes[self.at..]
    }
}

impl Source for MemSource {
    ghost left = { λ s. Some s.left };

    ghost fault_count = { λ s. s.faults };

    fn faults(&self) -> u64 {
        self.faults
    }

    /// Moves as many bytes as are left and fit.
    fn read(&mut self, buf: &mut [u8]) -> Result<usize, Failed>
        requires { 0 < length buf.old }

        // It fails exactly where its call is listed so, and moves all that is left and fits.
        ensures fails { IsErr result ↔ IsNextListed self.old.calls }
        ensures moved { IfOk result (λ n. n ≡ min (length self.old.left) (length buf.new)) }
        ensures calls { self.new.calls ≡ after_call self.old.calls }
        ensures fault { OnErr result (self.new.faults ≡ raised self.old.faults) }
        ensures no_fault { OnOk result (self.new.faults ≡ self.old.faults) }

        // What every source promises.
        ensures within { IfOk result (λ n. n ≤ length buf.new) }
        ensures bytes { ReadConsumes (Some self.old.left) (Some self.new.left) result buf.new }
        ensures end { IfOk result (λ n. n ≡ 0 → IsAtEnd (Some self.old.left)) }
        ensures cause { OnErr result (Rose self.old.faults self.new.faults) }
        ensures never_falls { self.old.faults ≤ self.new.faults }
    {
        if self.calls.next_fails() {
            self.faults = self.faults.saturating_add(1);
            return Err(Failed);
        }
        let n = copy_front(self.rest(), buf);
        self.at += n;
        Ok(n)
    }
}

/// Copies the first bytes of `bytes` into `buf`, as many as fit, and returns how many.
pub(crate) fn copy_front(bytes: &[u8], buf: &mut [u8]) -> usize
    ensures count { result ≡ min (length bytes.now) (length buf.new) }
    ensures copied { take result buf.new ≡ take result bytes.now }
{
    let n = bytes.len().min(buf.len());
    buf[..n].copy_from_slice(&bytes[..n]);
    n
}
