//! Programs that run alongside this one. A spawner counts its failed calls, so that a caller's contract can say that an error had a cause.

ghost use Rattle.std.specs.Prelude.{◌≡◌, ◌≤◌, ℕ, List, map, string_bytes, OnOk, OnErr};
ghost use Rattle.std.specs.declared.option.Option.{Option};
ghost use Rattle.ft_io.specs.declared.spawn_call.SpawnCall.{SpawnCall};
ghost use Rattle.ft_io.specs.Faults.{Rose};
ghost use Rattle.ft_io.specs.Reported.{Reports};
ghost use Rattle.ft_io.specs.Spawner.{start_reported, wait_reported, NumbersNext};

use crate::Failed;

/// Starts programs and waits for their end.
pub trait Spawner {
    /// The calls so far, the oldest first, or `None` where they aren't recorded.
    ghost reported: { Self → Option (List SpawnCall) };

    /// How many children were started. Their numbers are from 1 to it.
    ghost started: { Self → ℕ };

    /// What `faults` returns.
    ghost fault_count: { Self → ℕ };

    /// Returns how many calls have failed. The count never falls, rises only by a call that fails, and stops at `u64::MAX`.
    fn faults(&self) -> u64
        ensures { result ≡ fault_count self.now };

    /// Starts the program that the first word names, with the others as its arguments, and returns the child's number, counted from 1.
    fn start(&mut self, words: &[String]) -> Result<u32, Failed>
        ensures number { NumbersNext (started self.old) (started self.new) result }
        ensures reported { Reports (reported self.old) (reported self.new) (start_reported (map string_bytes words.now) result) }
        ensures cause { OnErr result (Rose (fault_count self.old) (fault_count self.new)) }
        ensures no_fault { OnOk result (fault_count self.new ≡ fault_count self.old) }
        ensures never_falls { fault_count self.old ≤ fault_count self.new };

    /// Waits for the end of a child that was started, and returns its exit status.
    fn wait(&mut self, child: u32) -> Result<i32, Failed>
        requires from_one { 1 ≤ child }
        requires was_started { child ≤ started self.old }
        ensures same_children { started self.new ≡ started self.old }
        ensures reported { Reports (reported self.old) (reported self.new) (wait_reported child result) }
        ensures cause { OnErr result (Rose (fault_count self.old) (fault_count self.new)) }
        ensures no_fault { OnOk result (fault_count self.new ≡ fault_count self.old) }
        ensures never_falls { fault_count self.old ≤ fault_count self.new };
}
