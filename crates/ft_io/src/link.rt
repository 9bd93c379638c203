//! A network of datagrams. A link counts its failed calls, and its failed binds separately too, so that a caller's contract can say that an error had a cause.

ghost use Rattle.std.specs.Prelude.{◌≡◌, ◌≤◌, ℕ, List, length, IfOk, OnOk, OnErr};
ghost use Rattle.std.specs.declared.option.Option.{Option};
ghost use Rattle.ft_io.specs.declared.link_call.LinkCall.{LinkCall};
ghost use Rattle.ft_io.specs.Faults.{Rose};
ghost use Rattle.ft_io.specs.Reported.{Reports};
ghost use Rattle.ft_io.specs.Link.{bind_reported, send_reported, recv_reported, HasAtMost};

use crate::{Addr, Failed};

/// What a receive returned.
#[derive(Clone, Copy)]
pub enum Receipt {
    /// The first `len` bytes of a datagram from `from`.
    Got { len: usize, from: Addr },
    /// No datagram came in time.
    Nothing,
}

/// A socket for datagrams, once it is bound.
pub trait Link {
    /// The calls so far, the oldest first, or `None` where they aren't recorded.
    ghost reported: { Self → Option (List LinkCall) };

    /// What `faults` returns.
    ghost fault_count: { Self → ℕ };

    /// What `bind_faults` returns.
    ghost bind_fault_count: { Self → ℕ };

    /// Returns how many calls have failed. The count never falls, rises only by a call that fails, and stops at `u64::MAX`.
    fn faults(&self) -> u64
        ensures { result ≡ fault_count self.now };

    /// Returns how many binds have failed. They count among the faults too.
    fn bind_faults(&self) -> u64
        ensures { result ≡ bind_fault_count self.now };

    /// Sends and receives at the address `at` from now on. After `Failed` all is as before, except for the counts.
    fn bind(&mut self, at: Addr) -> Result<(), Failed>
        ensures reported { Reports (reported self.old) (reported self.new) (bind_reported at result) }
        ensures cause { OnErr result (Rose (fault_count self.old) (fault_count self.new)) }
        ensures bind_cause { OnErr result (Rose (bind_fault_count self.old) (bind_fault_count self.new)) }
        ensures no_fault { OnOk result (fault_count self.new ≡ fault_count self.old) }
        ensures no_bind_fault { OnOk result (bind_fault_count self.new ≡ bind_fault_count self.old) }
        ensures never_falls { fault_count self.old ≤ fault_count self.new }
        ensures bind_never_falls { bind_fault_count self.old ≤ bind_fault_count self.new };

    /// Sends one datagram. Whether it arrives is unspecified.
    fn send(&mut self, to: Addr, bytes: &[u8]) -> Result<(), Failed>
        ensures reported { Reports (reported self.old) (reported self.new) (send_reported to bytes.now result) }
        ensures cause { OnErr result (Rose (fault_count self.old) (fault_count self.new)) }
        ensures no_fault { OnOk result (fault_count self.new ≡ fault_count self.old) }
        ensures never_falls { fault_count self.old ≤ fault_count self.new }
        ensures no_bind_fault { bind_fault_count self.new ≡ bind_fault_count self.old };

    /// Waits a while for a datagram and moves it to the beginning of `buf`, or only its first bytes where it is longer. What follows them in `buf`, and all of
    /// `buf` where none was given, is unspecified.
    fn recv(&mut self, buf: &mut [u8]) -> Result<Receipt, Failed>
        requires { 2048 ≤ length buf.old }
        ensures within { IfOk result (λ receipt. HasAtMost receipt (length buf.new)) }
        ensures reported { Reports (reported self.old) (reported self.new) (recv_reported result buf.new) }
        ensures cause { OnErr result (Rose (fault_count self.old) (fault_count self.new)) }
        ensures no_fault { OnOk result (fault_count self.new ≡ fault_count self.old) }
        ensures never_falls { fault_count self.old ≤ fault_count self.new }
        ensures no_bind_fault { bind_fault_count self.new ≡ bind_fault_count self.old };
}
