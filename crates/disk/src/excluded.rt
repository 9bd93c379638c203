//! Wrong results that the contracts of this crate exclude. Each function calls another one of the crate, and promises of its result what a wrong body would
//! make false. It is proved from the other's contract alone, so it is no longer proved once that contract lets the wrong body pass.

ghost use Rattle.std.specs.Prelude.{◌≡◌, ◌≤◌, false, true, length, take, [], ◌∷◌, ◌++◌, option_map, IsErr, IfOk, OnOk, OnErr};
ghost use Rattle.std.specs.Bool.{OnTrue};
ghost use Rattle.ft_io.specs.declared.link_call.LinkCall.TheVariants.{Handed};
ghost use Rattle.ft_io.specs.Reported.{Reports};
ghost use Rattle.disk.specs.declared.calls.DeskCall.TheVariants.{OnLink, OnDisk};
ghost use Rattle.disk.specs.declared.calls.DiskCall.TheVariants.{Synced};
ghost use Rattle.disk.specs.FileContent.{EndsAt};
ghost use Rattle.disk.specs.MemDesk.{waits_of};
ghost use Rattle.disk.specs.MemDisk.{reported_of};

use crate::death::cut_off;
use crate::{Desk, DeskCall, Disk, FileDisk, MemDesk, MemDisk, OpenFile, ShelfEnd};
use ft_io::{Addr, Failed, LinkCall, Octets};

/// Nothing stands from the place on at which a file is cut: the contract of `cut_off`.
fn a_cut_one_byte_off(bytes: &mut Vec<u8>, at: u64)
    ensures { length bytes.new.items ≤ at }
{
    cut_off(bytes, at);
}

/// A sync that fails is recorded as one that failed: the clauses `failed` and `reported` of `MemDisk::sync`.
fn a_failed_sync_is_reported_as_done(disk: &mut MemDisk) -> Result<(), Failed>
    ensures { OnErr result (Reports (reported_of disk.old) (reported_of disk.new) (OnDisk (Synced true) ∷ [])) }
{
    disk.sync()
}

/// A file that another process has isn't opened: the clause `opened` of `MemDesk::open`.
fn a_file_in_use_is_opened(desk: &mut MemDesk) -> Result<(), ShelfEnd>
    requires { desk.old.is_in_use ≡ true }
    ensures { IsErr result }
{
    desk.open("log")
}

/// A send that comes after a sync is recorded behind it: the clause `noted` of `MemDisk::note`.
fn a_send_reported_before_the_sync_that_came_first(
    disk: &mut MemDisk,
    to: Addr,
    bytes: Octets,
) -> bool
    requires { disk.old.calls ≡ OnDisk (Synced false) ∷ [] }
    ensures { OnTrue result (disk.new.calls ≡ OnDisk (Synced false) ∷ OnLink (Handed to bytes false) ∷ []) }
{
    disk.note(DeskCall::OnLink(LinkCall::Handed(to, bytes, false)))
}

/// All bytes of an append are in the file, however few each write takes: the clause `appended` of `FileDisk::append`.
fn a_short_write_is_taken_for_all<F: OpenFile + Drop>(
    disk: &mut FileDisk<F>,
    bytes: &[u8],
) -> Result<(), Failed>
    requires { EndsAt (F.content disk.old.file) disk.old.count }
    ensures { OnOk result (F.content disk.new.file ≡ option_map (λ file. file ++ bytes.now) (F.content disk.old.file)) }
{
    disk.append(bytes)
}

/// After a sync that succeeds all that the file has is on the disk: the clause `synced` of `FileDisk::sync`.
fn a_failed_sync_of_the_file_is_reported_as_done<F: OpenFile + Drop>(
    disk: &mut FileDisk<F>,
) -> Result<(), Failed>
    ensures { OnOk result (F.synced disk.new.file ≡ F.content disk.old.file) }
{
    disk.sync()
}

/// What a new disk's file has is on the disk before it is read: the clauses `same` and `synced` of `FileDisk::over`.
fn opened_without_a_sync<F: OpenFile + Drop>(file: F) -> Result<FileDisk<F>, Failed>
    ensures { IfOk result (λ disk. F.synced disk.file ≡ F.content file) }
{
    FileDisk::over(file)
}

/// A cut makes the file shorter: the clause `cut` of `FileDisk::cut`.
fn a_cut_keeps_the_length<F: OpenFile + Drop>(disk: &mut FileDisk<F>, at: u64) -> Result<(), Failed>
    requires { EndsAt (F.content disk.old.file) disk.old.count }
    ensures { OnOk result (F.content disk.new.file ≡ option_map (take at) (F.content disk.old.file)) }
{
    disk.cut(at)
}

/// A receive that doesn't wait is recorded as such: the clause `waits` of `MemDesk::recv_waiting`.
fn a_receive_always_waits(desk: &mut MemDesk, buf: &mut [u8]) -> bool
    requires { 2048 ≤ length buf.old }
    ensures { Reports (waits_of desk.old) (waits_of desk.new) (false ∷ []) }
{
    desk.recv_waiting(buf).is_ok()
}
