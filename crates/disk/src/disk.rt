//! A file that is read once, when it is opened, and is then appended to. A byte of it can be replaced, and its end can be cut off.

ghost use Rattle.std.specs.Prelude.{◌≡◌, ◌≤◌, ◌<◌, ℕ, List, [], ◌∷◌, length, is_err, IfOk, OnErr};
ghost use Rattle.std.specs.declared.option.Option.{Option};
ghost use Rattle.std.specs.Io.KnownBytes.{ReadConsumes, IsAtEnd};
ghost use Rattle.ft_io.specs.Faults.{Rose};
ghost use Rattle.ft_io.specs.Reported.{Reports};
ghost use Rattle.disk.specs.Counts.{Beside};
ghost use Rattle.disk.specs.declared.calls.DeskCall.{DeskCall};
ghost use Rattle.disk.specs.declared.calls.DeskCall.TheVariants.{OnDisk};
ghost use Rattle.disk.specs.declared.calls.DiskCall.TheVariants.{Appended, Put, Cut, Synced};

use ft_io::Failed;

/// A file on a disk. It counts its failed calls, so that a caller's contract can say that an error had a cause.
pub trait Disk {
    /// The calls that changed the file since it was opened, the oldest first, or `None` where they aren't recorded. On a desk the calls on its network are
    /// among them.
    ghost reported: { Self → Option (List DeskCall) };

    /// The bytes that it had when it was opened and that aren't read yet, or `None` where its content isn't specified.
    ghost left: { Self → Option (List ℕ) };

    /// What `faults` returns.
    ghost fault_count: { Self → ℕ };

    /// The counts of the rest of a desk: no call on the file changes them.
    ghost beside: { Self → Beside };

    /// How many calls have failed. The count never falls, and stops at `u64::MAX`.
    fn faults(&self) -> u64
        ensures { result ≡ fault_count self.now };

    /// Moves bytes to the beginning of `buf`, the next of those that the file had when it was opened, and returns how many: 0 only at the end.
    fn read(&mut self, buf: &mut [u8]) -> Result<usize, Failed>
        requires { 0 < length buf.old }
        ensures within { IfOk result (λ n. n ≤ length buf.new) }
        ensures bytes { ReadConsumes (left self.old) (left self.new) result buf.new }
        ensures end { IfOk result (λ n. n ≡ 0 → IsAtEnd (left self.old)) }
        ensures reported { Reports (reported self.old) (reported self.new) [] }
        ensures cause { OnErr result (Rose (fault_count self.old) (fault_count self.new)) }
        ensures never_falls { fault_count self.old ≤ fault_count self.new }
        ensures beside { beside self.new ≡ beside self.old };

    /// Appends bytes at the end. After `Failed` some of them may be there.
    fn append(&mut self, bytes: &[u8]) -> Result<(), Failed>
        ensures reported { Reports (reported self.old) (reported self.new) (OnDisk (Appended bytes.now (is_err result)) ∷ []) }
        ensures cause { OnErr result (Rose (fault_count self.old) (fault_count self.new)) }
        ensures never_falls { fault_count self.old ≤ fault_count self.new }
        ensures beside { beside self.new ≡ beside self.old };

    /// Replaces the byte at the place `at`, counted from 0. After `Failed` it may be replaced or not.
    fn put(&mut self, at: u64, byte: u8) -> Result<(), Failed>
        ensures reported { Reports (reported self.old) (reported self.new) (OnDisk (Put at byte (is_err result)) ∷ []) }
        ensures cause { OnErr result (Rose (fault_count self.old) (fault_count self.new)) }
        ensures never_falls { fault_count self.old ≤ fault_count self.new }
        ensures beside { beside self.new ≡ beside self.old };

    /// Cuts off the bytes from the place `at` on, counted from 0. After `Failed` they may be cut off or not.
    fn cut(&mut self, at: u64) -> Result<(), Failed>
        ensures reported { Reports (reported self.old) (reported self.new) (OnDisk (Cut at (is_err result)) ∷ []) }
        ensures cause { OnErr result (Rose (fault_count self.old) (fault_count self.new)) }
        ensures never_falls { fault_count self.old ≤ fault_count self.new }
        ensures beside { beside self.new ≡ beside self.old };

    /// Waits until all that was done is on the disk, and the file's name if it is a new one. After `Failed` it may be there or not.
    fn sync(&mut self) -> Result<(), Failed>
        ensures reported { Reports (reported self.old) (reported self.new) (OnDisk (Synced (is_err result)) ∷ []) }
        ensures cause { OnErr result (Rose (fault_count self.old) (fault_count self.new)) }
        ensures never_falls { fault_count self.old ≤ fault_count self.new }
        ensures beside { beside self.new ≡ beside self.old };
}
