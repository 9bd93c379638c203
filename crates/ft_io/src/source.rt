//! Sources of bytes. A source counts its failed calls, so that a caller's contract can say that an error had a cause.

ghost use Rattle.std.specs.Prelude.{◌≡◌, ◌≤◌, ◌<◌, ℕ, List, length, IfOk, OnOk, OnErr};
ghost use Rattle.std.specs.declared.option.Option.{Option};
ghost use Rattle.std.specs.Io.KnownBytes.{ReadConsumes, IsAtEnd};
ghost use Rattle.ft_io.specs.Faults.{Rose};

use crate::Failed;

/// A source of bytes: a file, standard input, or bytes in memory.
pub trait Source {
    /// The bytes that aren't read yet, or `None` where its content isn't specified.
    ghost left: { Self → Option (List ℕ) };

    /// What `faults` returns.
    ghost fault_count: { Self → ℕ };

    /// Returns how many calls have failed. The count never falls, and stops at `u64::MAX`.
    fn faults(&self) -> u64
        ensures { result ≡ fault_count self.now };

    /// Moves the next bytes to the beginning of `buf`, and returns how many: 0 only at the end. What follows them in `buf` is unspecified. After `Failed`
    /// nothing was taken, and the call may be tried again. The count of faults rises only at `Failed`.
    fn read(&mut self, buf: &mut [u8]) -> Result<usize, Failed>
        requires { 0 < length buf.old }
        ensures within { IfOk result (λ n. n ≤ length buf.new) }
        ensures bytes { ReadConsumes (left self.old) (left self.new) result buf.new }
        ensures end { IfOk result (λ n. n ≡ 0 → IsAtEnd (left self.old)) }
        ensures cause { OnErr result (Rose (fault_count self.old) (fault_count self.new)) }
        ensures no_fault { OnOk result (fault_count self.new ≡ fault_count self.old) }
        ensures never_falls { fault_count self.old ≤ fault_count self.new };
}
