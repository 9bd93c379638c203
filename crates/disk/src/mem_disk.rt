//! A file in memory, for tests. It records its calls. It fails where it was made to fail, and where an allocation fails; once an allocation has failed,
//! `reported` returns `None`. It can be asked what a death at any moment leaves of it.

ghost use Rattle.std.specs.Prelude.{◌≡◌, ◌≤◌, ◌<◌, ◌↔◌, ◌⊎◌, length, min, take, false, true, None, Some, [], ◌∷◌, ◌++◌, is_err, IfSome, IfOk, OnOk};
ghost use Rattle.std.specs.Prelude.{OnErr, IsErr};
ghost use Rattle.std.specs.Bool.{OnTrue, OnFalse};
ghost use Rattle.std.specs.Io.KnownBytes.{ReadConsumes, IsAtEnd};
ghost use Rattle.ft_io.specs.Faults.{Rose};
ghost use Rattle.ft_system.specs.NumberedCalls.{IsNextListed};
ghost use Rattle.ft_io.specs.Reported.{Reports};
ghost use Rattle.disk.specs.Counts.{nothing};
ghost use Rattle.disk.specs.declared.calls.DeskCall.TheVariants.{OnDisk};
ghost use Rattle.disk.specs.declared.calls.DiskCall.TheVariants.{Appended, Put, Cut, Synced, Replaced};
ghost use Rattle.disk.specs.Death.{left_of};
ghost use Rattle.disk.specs.Remains.{LeftBy};
ghost use Rattle.disk.specs.CallRecord.{disk_calls};
ghost use Rattle.disk.specs.MemDisk.{fresh_disk, reported_of, noted, starved, failed, changing, made_anew};

use crate::death::left_behind;
use crate::{Death, DeskCall, Disk, DiskCall};
use ft_io::{Failed, NoMemory, Octets};
use ft_system::NumberedCalls;
use std::alloc::Global;
use std::marker::Model;

/// A file of given bytes, some of whose calls fail.
#[derive(Drop)]
pub struct MemDisk {
    alloc: Global,
    first: Vec<u8>,
    at: usize,
    reads: NumberedCalls,
    changes: NumberedCalls,
    aside: Vec<u8>,
    aside_synced: Vec<u8>,
    calls: Vec<DeskCall>,
    faults: u64,
    is_starved: bool,
}

impl Model for MemDisk {
    ghost use Rattle.std.specs.Prelude.{◌≤◌, drop, vec_len};
    ghost use Rattle.disk.specs.MemDisk.{DiskState};

    ghost Value = { DiskState };

    ghost view = { λ d. record {
      first = d.first.items;
      left = drop d.at d.first.items;
      reads = d.reads;
      changes = d.changes;
      aside = d.aside.items;
      aside_synced = d.aside_synced.items;
      calls = d.calls.items;
      faults = d.faults;
      is_starved = d.is_starved;
    } };

    ghost invariant = { λ d. d.at ≤ vec_len d.first };
}

impl MemDisk {
    /// A file that had these bytes when it was opened. The reads whose numbers, counted from 1, are in `read_fails` fail, and so do the calls that change it
    /// whose numbers are in `fails`. Nothing is allocated yet.
    pub fn new(alloc: Global, first: Vec<u8>, read_fails: Vec<u32>, fails: Vec<u32>) -> MemDisk
        ensures { result ≡ fresh_disk first.items read_fails.items fails.items }
    {
        MemDisk {
            alloc,
            first,
            at: 0,
            reads: NumberedCalls::new(read_fails),
            changes: NumberedCalls::new(fails),
            aside: Vec::new(alloc),
            aside_synced: Vec::new(alloc),
            calls: Vec::new(alloc),
            faults: 0,
            is_starved: false,
        }
    }

    /// The calls so far, the oldest first, or `None` once an allocation has failed in a call.
    pub fn reported(&self) -> Option<&[DeskCall]>
        ensures some { IfSome result (λ calls. reported_of self.now ≡ Some calls.now) }
        ensures none { result ≡ None → reported_of self.now ≡ None }
    {
        if self.is_starved {
            None
        } else {
            Some(self.calls.as_slice())
        }
    }

    /// What a death during the calls so far leaves of the file.
    pub fn after_death(&self, death: Death) -> Result<Vec<u8>, NoMemory>
        ensures is { IfOk result (λ left. left.items ≡ left_of death self.now.first self.now.calls) }
        ensures may_be { IfOk result (λ left. LeftBy self.now.first (λ c. c ≡ self.now.first) (disk_calls (take death.calls self.now.calls)) left.items) }
    {
        let left = self.leave(death)?;
        Ok(left)
    }

    fn leave(&self, death: Death) -> Result<Vec<u8>, NoMemory>
        ensures { IfOk result (λ left. left.items ≡ left_of death self.now.first self.now.calls) }
    {
        let count = death.calls.min(self.calls.len());
        left_behind(self.alloc, death, &self.first, &self.calls[..count])
    }

    /// Records a call. Returns false if an allocation for that fails.
    pub(crate) fn note(&mut self, call: DeskCall) -> bool
        ensures noted { OnTrue result (self.new ≡ noted self.old call) }
        ensures starved { OnFalse result (self.new ≡ starved self.old) }
    {
        let is_noted = self.calls.push(call).is_ok();
        if !is_noted {
            self.starve();
        }
        is_noted
    }

    /// The bytes that aren't read yet.
    fn rest(&self) -> &[u8]
        ensures { result.now ≡ self.now.left }
    {
        &self.first[self.at..]
    }

    /// Gives no record from now on: `reported` returns `None`.
    pub(crate) fn starve(&mut self)
        ensures { self.new ≡ starved self.old }
    {
        self.is_starved = true;
    }

    /// Becomes a file of another name, which is created empty.
    pub(crate) fn make_anew(&mut self)
        ensures { self.new ≡ made_anew self.old }
    {
        self.first = Vec::new(self.alloc);
        self.at = 0;
    }

    /// Begins a new file beside this one.
    pub(crate) fn begin_aside(&mut self) -> Result<(), Failed>
        // It fails exactly where its call is listed as failing.
        ensures done { OnOk result ((IsNextListed self.old.changes → ⊥) × (self.new ≡ record (changing self.old) { aside = [] })) }
        ensures failed { OnErr result (IsNextListed self.old.changes × (self.new ≡ failed (changing self.old))) }
        ensures cause { OnErr result (Rose self.old.faults self.new.faults) }
    {
        if self.changes.next_fails() {
            return Err(self.fail());
        }
        self.aside.clear();
        Ok(())
    }

    /// Appends bytes to the new file.
    pub(crate) fn append_aside(&mut self, bytes: &[u8]) -> Result<(), Failed>
        // It fails only where its call is listed as failing, or where an allocation fails.
        ensures done { OnOk result ((IsNextListed self.old.changes → ⊥) × (self.new ≡ record (changing self.old) { aside = self.old.aside ++ bytes.now })) }
        ensures failed { OnErr result (self.new ≡ failed (changing self.old)) }
        ensures cause { OnErr result (Rose self.old.faults self.new.faults) }
    {
        if self.changes.next_fails() || self.aside.extend_from_slice(bytes).is_err() {
            return Err(self.fail());
        }
        Ok(())
    }

    /// Syncs the new file.
    pub(crate) fn sync_aside(&mut self) -> Result<(), Failed>
        // It fails only where its call is listed as failing, or where an allocation fails.
        ensures done { OnOk result ((IsNextListed self.old.changes → ⊥) × (self.new ≡ record (changing self.old) { aside_synced = self.old.aside })) }
        ensures failed { OnErr result (self.new ≡ failed (changing self.old)) }
        ensures cause { OnErr result (Rose self.old.faults self.new.faults) }
    {
        if self.changes.next_fails() {
            return Err(self.fail());
        }
        match self.aside.as_slice().to_vec(self.alloc) {
            Ok(copy) => self.aside_synced = copy,
            Err(_) => return Err(self.fail()),
        }
        Ok(())
    }

    /// Removes the new file.
    pub(crate) fn drop_aside(&mut self)
        ensures { self.new ≡ record self.old { aside = []; aside_synced = [] } }
    {
        self.aside.clear();
        self.aside_synced.clear();
    }

    /// The new file takes the place of this one, with what it had at its last sync.
    pub(crate) fn replace(&mut self) -> Result<(), Failed>
        // It fails exactly where its call is listed as failing, or where an allocation fails.
        ensures done { OnOk result ((IsNextListed self.old.changes → ⊥)
            × (self.new ≡ noted (changing self.old) (OnDisk (Replaced self.old.aside_synced false)))) }
        ensures failed { OnErr result ((IsNextListed self.old.changes
            × (self.new ≡ failed (noted (changing self.old) (OnDisk (Replaced self.old.aside_synced true)))))
            ⊎ (self.new ≡ failed (starved (changing self.old)))) }
        ensures reported { Reports (reported_of self.old) (reported_of self.new) (OnDisk (Replaced self.old.aside_synced (is_err result)) ∷ []) }
        ensures cause { OnErr result (Rose self.old.faults self.new.faults) }
    {
        let fails = self.changes.next_fails();
        let Ok(copy) = self.aside_synced.as_slice().to_vec(self.alloc) else {
            self.starve();
            return Err(self.fail());
        };
        self.finish(DiskCall::Replaced(Octets::new(copy), fails), fails)
    }

    /// Counts a call as failed.
    pub(crate) fn fail(&mut self) -> Failed
        ensures counted { self.new ≡ failed self.old }
        ensures cause { Rose self.old.faults self.new.faults }
    {
        self.faults = self.faults.saturating_add(1);
        Failed
    }

    /// Records a call that changes the file, and returns its result.
    fn finish(&mut self, call: DiskCall, fails: bool) -> Result<(), Failed>
        ensures ok { OnOk result ((fails ≡ false) × (self.new ≡ noted self.old (OnDisk call))) }
        ensures err { OnErr result (((fails ≡ true) × (self.new ≡ failed (noted self.old (OnDisk call)))) ⊎ (self.new ≡ failed (starved self.old))) }
    {
        if !self.note(DeskCall::OnDisk(call)) || fails {
            return Err(self.fail());
        }
        Ok(())
    }
}

impl Disk for MemDisk {
    ghost reported = { reported_of };

    ghost left = { λ d. Some d.left };

    ghost fault_count = { λ d. d.faults };

    ghost beside = { λ _. nothing };

    fn faults(&self) -> u64 {
        self.faults
    }

    /// Moves as many bytes as aren't read yet and fit.
    fn read(&mut self, buf: &mut [u8]) -> Result<usize, Failed>
        requires { 0 < length buf.old }

        // It fails exactly where its call is listed as failing, and moves all that is left and fits.
        ensures fails { IsErr result ↔ IsNextListed self.old.reads }
        ensures moved { IfOk result (λ n. n ≡ min (length self.old.left) (length buf.new)) }
        ensures same { self.new.calls ≡ self.old.calls }

        // What every disk promises.
        ensures within { IfOk result (λ n. n ≤ length buf.new) }
        ensures bytes { ReadConsumes (Some self.old.left) (Some self.new.left) result buf.new }
        ensures end { IfOk result (λ n. n ≡ 0 → IsAtEnd (Some self.old.left)) }
        ensures reported { Reports (reported_of self.old) (reported_of self.new) [] }
        ensures cause { OnErr result (Rose self.old.faults self.new.faults) }
        ensures never_falls { self.old.faults ≤ self.new.faults }
    {
        if self.reads.next_fails() {
            return Err(self.fail());
        }
        let n = copy_front(self.rest(), buf);
        self.at += n;
        Ok(n)
    }

    fn append(&mut self, bytes: &[u8]) -> Result<(), Failed>
        // It fails exactly where its call is listed as failing, or where an allocation fails. So do the other calls that change the file.
        ensures done { OnOk result ((IsNextListed self.old.changes → ⊥)
            × (self.new ≡ noted (changing self.old) (OnDisk (Appended bytes.now false)))) }
        ensures failed { OnErr result ((IsNextListed self.old.changes
            × (self.new ≡ failed (noted (changing self.old) (OnDisk (Appended bytes.now true)))))
            ⊎ (self.new ≡ failed (starved (changing self.old)))) }

        // What every disk promises.
        ensures reported { Reports (reported_of self.old) (reported_of self.new) (OnDisk (Appended bytes.now (is_err result)) ∷ []) }
        ensures cause { OnErr result (Rose self.old.faults self.new.faults) }
        ensures never_falls { self.old.faults ≤ self.new.faults }
    {
        let fails = self.changes.next_fails();
        let Ok(copy) = bytes.to_vec(self.alloc) else {
            self.starve();
            return Err(self.fail());
        };
        self.finish(DiskCall::Appended(Octets::new(copy), fails), fails)
    }

    fn put(&mut self, at: u64, byte: u8) -> Result<(), Failed>
        ensures done { OnOk result ((IsNextListed self.old.changes → ⊥)
            × (self.new ≡ noted (changing self.old) (OnDisk (Put at byte false)))) }
        ensures failed { OnErr result ((IsNextListed self.old.changes
            × (self.new ≡ failed (noted (changing self.old) (OnDisk (Put at byte true)))))
            ⊎ (self.new ≡ failed (starved (changing self.old)))) }

        // What every disk promises.
        ensures reported { Reports (reported_of self.old) (reported_of self.new) (OnDisk (Put at byte (is_err result)) ∷ []) }
        ensures cause { OnErr result (Rose self.old.faults self.new.faults) }
        ensures never_falls { self.old.faults ≤ self.new.faults }
    {
        let fails = self.changes.next_fails();
        self.finish(DiskCall::Put(at, byte, fails), fails)
    }

    fn cut(&mut self, at: u64) -> Result<(), Failed>
        ensures done { OnOk result ((IsNextListed self.old.changes → ⊥)
            × (self.new ≡ noted (changing self.old) (OnDisk (Cut at false)))) }
        ensures failed { OnErr result ((IsNextListed self.old.changes
            × (self.new ≡ failed (noted (changing self.old) (OnDisk (Cut at true)))))
            ⊎ (self.new ≡ failed (starved (changing self.old)))) }

        // What every disk promises.
        ensures reported { Reports (reported_of self.old) (reported_of self.new) (OnDisk (Cut at (is_err result)) ∷ []) }
        ensures cause { OnErr result (Rose self.old.faults self.new.faults) }
        ensures never_falls { self.old.faults ≤ self.new.faults }
    {
        let fails = self.changes.next_fails();
        self.finish(DiskCall::Cut(at, fails), fails)
    }

    fn sync(&mut self) -> Result<(), Failed>
        ensures done { OnOk result ((IsNextListed self.old.changes → ⊥)
            × (self.new ≡ noted (changing self.old) (OnDisk (Synced false)))) }
        ensures failed { OnErr result ((IsNextListed self.old.changes
            × (self.new ≡ failed (noted (changing self.old) (OnDisk (Synced true)))))
            ⊎ (self.new ≡ failed (starved (changing self.old)))) }

        // What every disk promises.
        ensures reported { Reports (reported_of self.old) (reported_of self.new) (OnDisk (Synced (is_err result)) ∷ []) }
        ensures cause { OnErr result (Rose self.old.faults self.new.faults) }
        ensures never_falls { self.old.faults ≤ self.new.faults }
    {
        let fails = self.changes.next_fails();
        self.finish(DiskCall::Synced(fails), fails)
    }
}

/// Copies the first bytes of `bytes` into `buf`, as many as fit, and returns how many.
fn copy_front(bytes: &[u8], buf: &mut [u8]) -> usize
    ensures count { result ≡ min (length bytes.now) (length buf.new) }
    ensures copied { take result buf.new ≡ take result bytes.now }
{
    let n = bytes.len().min(buf.len());
    buf[..n].copy_from_slice(&bytes[..n]);
    n
}
