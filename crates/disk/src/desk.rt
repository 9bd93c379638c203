//! A network of datagrams and one file, whose calls are recorded in one order. So a contract can say that an answer was sent after the sync that it depends on.

ghost use Rattle.std.specs.Prelude.{◌≡◌, ◌≤◌, ℕ, List, [], ◌∷◌, ◌++◌, Some, true, false, length, is_err, IfOk, OnOk, OnErr, IsErrOf};
ghost use Rattle.std.specs.declared.option.Option.{Option};
ghost use Rattle.ft_io.specs.Faults.{Rose};
ghost use Rattle.ft_io.specs.Reported.{Reports};
ghost use Rattle.ft_io.specs.Link.{bind_reported, send_reported, recv_reported, HasAtMost};
ghost use Rattle.disk.specs.Aside.{HasAside};
ghost use Rattle.disk.specs.CallRecord.{on_link};
ghost use Rattle.disk.specs.declared.calls.DeskCall.TheVariants.{OnDisk};
ghost use Rattle.disk.specs.declared.calls.DiskCall.TheVariants.{Replaced};

use crate::{Disk, ShelfEnd};
use ft_io::{Addr, Failed, Receipt};

/// A socket for datagrams and a file. `open` or `begin` comes before the calls on the file, and `bind` before those on the socket.
pub trait Desk: Disk {
    /// The content of the file of this name, empty if there is no such file, or `None` where the content isn't specified.
    ghost file_of: { Self → List ℕ → Option (List ℕ) };

    /// What the new file has that is to take the place of the open one, or `None` where that isn't specified.
    ghost aside: { Self → Option (List ℕ) };

    /// What it had at its last sync: a death leaves this of it.
    ghost aside_synced: { Self → Option (List ℕ) };

    /// How many times a file was refused because another process has it, because it isn't there, or because it is and was to be made. The count never falls,
    /// and stops at `u64::MAX`.
    fn refusals(&self) -> u64
        ensures { result ≡ (Self.beside self.now).refusals };

    /// How many calls on the network have failed. Those on the file are counted separately.
    fn link_faults(&self) -> u64
        ensures { result ≡ (Self.beside self.now).link_faults };

    /// How many binds have failed. They count among the faults of the network too.
    fn bind_faults(&self) -> u64
        ensures { result ≡ (Self.beside self.now).bind_faults };

    /// The nanoseconds since 1970 by the system's clock; 0 where it has none.
    fn time(&self) -> u64;

    /// Opens the file of this name, for this process only. What it has is on the disk then, so that a death loses nothing of what is read.
    fn open(&mut self, name: &str) -> Result<(), ShelfEnd>
        ensures file { OnOk result (Self.left self.new ≡ file_of self.old name.now) }
        ensures reported { Reports (Self.reported self.old) (Self.reported self.new) [] }
        ensures cause { IsErrOf result ShelfEnd.Failed → Rose (Self.fault_count self.old) (Self.fault_count self.new) }
        ensures in_use { IsErrOf result ShelfEnd.InUse → Rose (Self.beside self.old).refusals (Self.beside self.new).refusals }
        ensures missing { IsErrOf result ShelfEnd.Missing → Rose (Self.beside self.old).refusals (Self.beside self.new).refusals }
        ensures never_new { IsErrOf result ShelfEnd.Present → ⊥ }
        ensures never_falls { Self.fault_count self.old ≤ Self.fault_count self.new }
        ensures refusals_never_fall { (Self.beside self.old).refusals ≤ (Self.beside self.new).refusals }
        ensures no_link_fault { (Self.beside self.new).link_faults ≡ (Self.beside self.old).link_faults }
        ensures no_bind_fault { (Self.beside self.new).bind_faults ≡ (Self.beside self.old).bind_faults }
        ensures waits { (Self.beside self.new).waits ≡ (Self.beside self.old).waits };

    /// Makes a file of this name where none is, for this process only. It is empty.
    fn begin(&mut self, name: &str) -> Result<(), ShelfEnd>
        ensures empty { OnOk result ((bytes : List ℕ) → Self.left self.new ≡ Some bytes → bytes ≡ []) }
        ensures reported { Reports (Self.reported self.old) (Self.reported self.new) [] }
        ensures cause { IsErrOf result ShelfEnd.Failed → Rose (Self.fault_count self.old) (Self.fault_count self.new) }
        ensures in_use { IsErrOf result ShelfEnd.InUse → Rose (Self.beside self.old).refusals (Self.beside self.new).refusals }
        ensures present { IsErrOf result ShelfEnd.Present → Rose (Self.beside self.old).refusals (Self.beside self.new).refusals }
        ensures never_old { IsErrOf result ShelfEnd.Missing → ⊥ }
        ensures never_falls { Self.fault_count self.old ≤ Self.fault_count self.new }
        ensures refusals_never_fall { (Self.beside self.old).refusals ≤ (Self.beside self.new).refusals }
        ensures no_link_fault { (Self.beside self.new).link_faults ≡ (Self.beside self.old).link_faults }
        ensures no_bind_fault { (Self.beside self.new).bind_faults ≡ (Self.beside self.old).bind_faults }
        ensures waits { (Self.beside self.new).waits ≡ (Self.beside self.old).waits };

    /// Begins a new file beside the open one, which stays as it is. What is left of an earlier one is removed.
    fn begin_aside(&mut self) -> Result<(), Failed>
        ensures empty { OnOk result (HasAside (aside self.new) []) }
        ensures reported { Reports (Self.reported self.old) (Self.reported self.new) [] }
        ensures cause { OnErr result (Rose (Self.fault_count self.old) (Self.fault_count self.new)) }
        ensures never_falls { Self.fault_count self.old ≤ Self.fault_count self.new }
        ensures beside { Self.beside self.new ≡ Self.beside self.old };

    /// Appends bytes to the new file. The open one stays as it is.
    fn append_aside(&mut self, bytes: &[u8]) -> Result<(), Failed>
        ensures appended { OnOk result ((before : List ℕ) → HasAside (aside self.old) before → HasAside (aside self.new) (before ++ bytes.now)) }
        ensures reported { Reports (Self.reported self.old) (Self.reported self.new) [] }
        ensures cause { OnErr result (Rose (Self.fault_count self.old) (Self.fault_count self.new)) }
        ensures never_falls { Self.fault_count self.old ≤ Self.fault_count self.new }
        ensures beside { Self.beside self.new ≡ Self.beside self.old };

    /// Waits until the new file is on the disk.
    fn sync_aside(&mut self) -> Result<(), Failed>
        ensures synced { OnOk result (aside_synced self.new ≡ aside self.old) }
        ensures reported { Reports (Self.reported self.old) (Self.reported self.new) [] }
        ensures cause { OnErr result (Rose (Self.fault_count self.old) (Self.fault_count self.new)) }
        ensures never_falls { Self.fault_count self.old ≤ Self.fault_count self.new }
        ensures beside { Self.beside self.new ≡ Self.beside self.old };

    /// Removes the new file, so that it takes no room.
    fn drop_aside(&mut self)
        ensures reported { Reports (Self.reported self.old) (Self.reported self.new) [] }
        ensures same { Self.fault_count self.new ≡ Self.fault_count self.old }
        ensures beside { Self.beside self.new ≡ Self.beside self.old };

    /// The new file takes the place and the name of the open one, with what it had at its last sync. Until a sync the name may be the old file's after a death.
    /// After `Failed` it is the one's or the other's, and no more calls may be made on the file.
    fn replace(&mut self) -> Result<(), Failed>
        ensures reported { (bytes : List ℕ) → HasAside (aside_synced self.old) bytes
            → Reports (Self.reported self.old) (Self.reported self.new) (OnDisk (Replaced bytes (is_err result)) ∷ []) }
        ensures cause { OnErr result (Rose (Self.fault_count self.old) (Self.fault_count self.new)) }
        ensures never_falls { Self.fault_count self.old ≤ Self.fault_count self.new }
        ensures beside { Self.beside self.new ≡ Self.beside self.old };

    /// Sends and receives at the address `at` from now on. After `Failed` all is as before, except for the counts.
    fn bind(&mut self, at: Addr) -> Result<(), Failed>
        ensures reported { Reports (Self.reported self.old) (Self.reported self.new) (on_link (bind_reported at result)) }
        ensures cause { OnErr result (Rose (Self.beside self.old).link_faults (Self.beside self.new).link_faults) }
        ensures bind_cause { OnErr result (Rose (Self.beside self.old).bind_faults (Self.beside self.new).bind_faults) }
        ensures no_fault { OnOk result ((Self.beside self.new).link_faults ≡ (Self.beside self.old).link_faults) }
        ensures no_bind_fault { OnOk result ((Self.beside self.new).bind_faults ≡ (Self.beside self.old).bind_faults) }
        ensures never_falls { (Self.beside self.old).link_faults ≤ (Self.beside self.new).link_faults }
        ensures bind_never_falls { (Self.beside self.old).bind_faults ≤ (Self.beside self.new).bind_faults }
        ensures no_disk_fault { Self.fault_count self.new ≡ Self.fault_count self.old }
        ensures no_refusal { (Self.beside self.new).refusals ≡ (Self.beside self.old).refusals }
        ensures left { Self.left self.new ≡ Self.left self.old }
        ensures waits { (Self.beside self.new).waits ≡ (Self.beside self.old).waits };

    /// Sends one datagram. Whether it arrives is unspecified.
    fn send(&mut self, to: Addr, bytes: &[u8]) -> Result<(), Failed>
        ensures reported { Reports (Self.reported self.old) (Self.reported self.new) (on_link (send_reported to bytes.now result)) }
        ensures cause { OnErr result (Rose (Self.beside self.old).link_faults (Self.beside self.new).link_faults) }
        ensures no_fault { OnOk result ((Self.beside self.new).link_faults ≡ (Self.beside self.old).link_faults) }
        ensures never_falls { (Self.beside self.old).link_faults ≤ (Self.beside self.new).link_faults }
        ensures no_bind_fault { (Self.beside self.new).bind_faults ≡ (Self.beside self.old).bind_faults }
        ensures no_disk_fault { Self.fault_count self.new ≡ Self.fault_count self.old }
        ensures no_refusal { (Self.beside self.new).refusals ≡ (Self.beside self.old).refusals }
        ensures left { Self.left self.new ≡ Self.left self.old }
        ensures waits { (Self.beside self.new).waits ≡ (Self.beside self.old).waits };

    /// Waits a while for a datagram and moves it to the beginning of `buf`, or only its first bytes where it is longer. What follows them in `buf`, and all of
    /// `buf` where none was given, is unspecified.
    fn recv(&mut self, buf: &mut [u8]) -> Result<Receipt, Failed>
        requires { 2048 ≤ length buf.old }
        ensures within { IfOk result (λ receipt. HasAtMost receipt (length buf.new)) }
        ensures reported { Reports (Self.reported self.old) (Self.reported self.new) (on_link (recv_reported result buf.new)) }
        ensures cause { OnErr result (Rose (Self.beside self.old).link_faults (Self.beside self.new).link_faults) }
        ensures no_fault { OnOk result ((Self.beside self.new).link_faults ≡ (Self.beside self.old).link_faults) }
        ensures never_falls { (Self.beside self.old).link_faults ≤ (Self.beside self.new).link_faults }
        ensures no_bind_fault { (Self.beside self.new).bind_faults ≡ (Self.beside self.old).bind_faults }
        ensures no_disk_fault { Self.fault_count self.new ≡ Self.fault_count self.old }
        ensures no_refusal { (Self.beside self.new).refusals ≡ (Self.beside self.old).refusals }
        ensures left { Self.left self.new ≡ Self.left self.old }
        // It is recorded as a receive that waits.
        ensures waits { Reports (Self.beside self.old).waits (Self.beside self.new).waits (true ∷ []) };

    /// Receives like `recv`, but doesn't wait: returns `Receipt::Nothing` unless a datagram has arrived already.
    fn recv_waiting(&mut self, buf: &mut [u8]) -> Result<Receipt, Failed>
        requires { 2048 ≤ length buf.old }
        ensures within { IfOk result (λ receipt. HasAtMost receipt (length buf.new)) }
        ensures reported { Reports (Self.reported self.old) (Self.reported self.new) (on_link (recv_reported result buf.new)) }
        ensures cause { OnErr result (Rose (Self.beside self.old).link_faults (Self.beside self.new).link_faults) }
        ensures no_fault { OnOk result ((Self.beside self.new).link_faults ≡ (Self.beside self.old).link_faults) }
        ensures never_falls { (Self.beside self.old).link_faults ≤ (Self.beside self.new).link_faults }
        ensures no_bind_fault { (Self.beside self.new).bind_faults ≡ (Self.beside self.old).bind_faults }
        ensures no_disk_fault { Self.fault_count self.new ≡ Self.fault_count self.old }
        ensures no_refusal { (Self.beside self.new).refusals ≡ (Self.beside self.old).refusals }
        ensures left { Self.left self.new ≡ Self.left self.old }
        // .. and this as one that doesn't.
        ensures waits { Reports (Self.beside self.old).waits (Self.beside self.new).waits (false ∷ []) };
}
