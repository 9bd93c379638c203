//! Sinks for bytes. A sink counts its failed calls, so that a caller's contract can say that an error had a cause.

ghost use Rattle.std.specs.Prelude.{◌≡◌, ◌≤◌, ◌<◌, ℕ, List, length, IfOk, OnOk, OnErr};
ghost use Rattle.std.specs.declared.option.Option.{Option};
ghost use Rattle.std.specs.Io.KnownBytes.{WriteAppends};
ghost use Rattle.ft_io.specs.Faults.{Rose};

use crate::Failed;

/// A sink for bytes: a file, standard output, or memory.
pub trait Sink {
    /// All bytes that it took, or `None` where its content isn't specified.
    ghost taken: { Self → Option (List ℕ) };

    /// What `faults` returns.
    ghost fault_count: { Self → ℕ };

    /// Returns how many calls have failed. The count never falls, and stops at `u64::MAX`.
    fn faults(&self) -> u64
        ensures { result ≡ fault_count self.now };

    /// Takes a prefix of `buf`, and returns its length. To take nothing of a nonempty `buf` is a fault. After `Failed` nothing was taken, where the
    /// content is specified, and the call may be tried again. The count of faults rises only at `Failed`.
    fn write(&mut self, buf: &[u8]) -> Result<usize, Failed>
        ensures within { IfOk result (λ n. n ≤ length buf.now) }
        ensures some { IfOk result (λ n. 0 < length buf.now → 0 < n) }
        ensures bytes { WriteAppends (taken self.old) (taken self.new) result buf.now }
        ensures cause { OnErr result (Rose (fault_count self.old) (fault_count self.new)) }
        ensures no_fault { OnOk result (fault_count self.new ≡ fault_count self.old) }
        ensures never_falls { fault_count self.old ≤ fault_count self.new };
}
