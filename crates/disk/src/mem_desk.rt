//! A network and a file in memory, for tests: the datagrams that arrive, the file's bytes and the calls that fail are given, and the calls on both are recorded
//! in one list.

ghost use Rattle.std.specs.Prelude.{◌≡◌, ◌≤◌, ◌<◌, ◌⊎◌, ℕ, List, length, take, false, true, None, Some, [], ◌∷◌, string_bytes, IfSome, IfOk, OnOk};
ghost use Rattle.std.specs.Prelude.{OnErr, IsErrOf};
ghost use Rattle.std.specs.Bool.{OnTrue, OnFalse};
ghost use Rattle.ft_io.specs.declared.link_call.LinkCall.TheVariants.{Handed};
ghost use Rattle.ft_system.specs.Arrival.{arriving};
ghost use Rattle.ft_io.specs.Faults.{Rose};
ghost use Rattle.ft_io.specs.Link.{bind_reported, send_reported, recv_reported, received_as, HasAtMost};
ghost use Rattle.ft_system.specs.MemLink.{BindFails};
ghost use Rattle.ft_system.specs.NumberedCalls.{IsNextListed};
ghost use Rattle.ft_io.specs.Reported.{Reports};
ghost use Rattle.std.specs.Str.{bytes_eq};
ghost use Rattle.disk.specs.Death.{left_of};
ghost use Rattle.disk.specs.Remains.{LeftBy};
ghost use Rattle.disk.specs.CallRecord.{on_link, disk_calls};
ghost use Rattle.disk.specs.MemDesk.{fresh_desk, reported_of, waits_of, file_of, noted, starved, IsStarved};

use crate::{Death, Desk, DeskCall, Disk, MemDisk, ShelfEnd};
use ft_io::{Addr, Failed, Link, LinkCall, NoMemory, Octets, Receipt};
use ft_system::{MemLink, NumberedCalls};
use std::alloc::Global;
use std::marker::Model;

/// A link in memory and a file in memory.
#[derive(Drop)]
pub struct MemDesk {
    alloc: Global,
    link: MemLink,
    disk: MemDisk,
    name: String,
    opens: NumberedCalls,
    is_in_use: bool,
    refusals: u64,
    link_faults: u64,
    bind_faults: u64,
    waits: Vec<bool>,
    forgets_waits: bool,
}

impl Model for MemDesk {
    ghost use Rattle.std.specs.Prelude.{string_bytes};
    ghost use Rattle.disk.specs.MemDesk.{DeskState};

    ghost Value = { DeskState };

    ghost view = { λ d. record {
      link = d.link;
      disk = d.disk;
      name = string_bytes d.name;
      opens = d.opens;
      is_in_use = d.is_in_use;
      refusals = d.refusals;
      link_faults = d.link_faults;
      bind_faults = d.bind_faults;
      waits = d.waits.items;
      forgets_waits = d.forgets_waits;
    } };
}

impl MemDesk {
    /// A desk with this network, and with this file under this name. The opens whose numbers, counted from 1, are in `open_fails` fail, and if `is_in_use`,
    /// every open is refused. Nothing is allocated yet.
    pub fn new(
        alloc: Global,
        link: MemLink,
        disk: MemDisk,
        name: String,
        open_fails: Vec<u32>,
        is_in_use: bool,
    ) -> MemDesk
        ensures { result ≡ fresh_desk link disk (string_bytes name) open_fails.items is_in_use }
    {
        MemDesk {
            alloc,
            link,
            disk,
            name,
            opens: NumberedCalls::new(open_fails),
            is_in_use,
            refusals: 0,
            link_faults: 0,
            bind_faults: 0,
            waits: Vec::new(alloc),
            forgets_waits: false,
        }
    }

    /// The calls so far, the oldest first, or `None` once an allocation for their record has failed.
    pub fn reported(&self) -> Option<&[DeskCall]>
        ensures some { IfSome result (λ calls. reported_of self.now ≡ Some calls.now) }
        ensures none { result ≡ None → reported_of self.now ≡ None }
    {
        self.disk.reported()
    }

    /// Of each receive so far, the oldest first, whether it waits; or `None` once an allocation for that has failed.
    pub fn waits(&self) -> Option<&[bool]>
        ensures some { IfSome result (λ waits. waits_of self.now ≡ Some waits.now) }
        ensures none { result ≡ None → waits_of self.now ≡ None }
    {
        if self.forgets_waits {
            None
        } else {
            Some(self.waits.as_slice())
        }
    }

    /// What a death during the calls so far leaves of the file.
    pub fn after_death(&self, death: Death) -> Result<Vec<u8>, NoMemory>
        ensures is { IfOk result (λ left. left.items ≡ left_of death self.now.disk.first self.now.disk.calls) }
        ensures may_be { IfOk result (λ left.
            LeftBy self.now.disk.first (λ c. c ≡ self.now.disk.first) (disk_calls (take death.calls self.now.disk.calls)) left.items) }
    {
        self.disk.after_death(death)
    }

    fn note(&mut self, call: LinkCall) -> bool
        ensures noted { OnTrue result (self.new ≡ noted self.old call) }
        ensures starved { OnFalse result (self.new ≡ starved self.old) }
    {
        self.disk.note(DeskCall::OnLink(call))
    }

    /// Records a datagram that was handed to `send`. Returns false if an allocation for that fails.
    fn note_handed(&mut self, to: Addr, bytes: &[u8], fails: bool) -> bool
        ensures noted { OnTrue result (self.new ≡ noted self.old (Handed to bytes.now fails)) }
        ensures starved { OnFalse result (self.new ≡ starved self.old) }
    {
        let Ok(copy) = bytes.to_vec(self.alloc) else {
            self.disk.starve();
            return false;
        };
        self.note(LinkCall::Handed(to, Octets::new(copy), fails))
    }

    /// Records what was received. Returns false if an allocation for that fails.
    fn note_received(&mut self, receipt: Receipt, buf: &[u8]) -> bool
        requires { HasAtMost receipt (length buf.now) }
        ensures noted { OnTrue result (self.new ≡ noted self.old (received_as receipt buf.now)) }
        ensures starved { OnFalse result (self.new ≡ starved self.old) }
    {
        let Receipt::Got { len, from } = receipt else {
            return self.note(LinkCall::Silent);
        };
        let Ok(copy) = buf[..len].to_vec(self.alloc) else {
            self.disk.starve();
            return false;
        };
        self.note(LinkCall::Came(from, Octets::new(copy)))
    }

    /// Counts a refusal.
    fn refuse(&mut self, end: ShelfEnd) -> ShelfEnd
        ensures same { result ≡ end }
        ensures disk { self.new.disk ≡ self.old.disk }
        ensures cause { Rose self.old.refusals self.new.refusals }
        ensures no_link_fault { self.new.link_faults ≡ self.old.link_faults }
        ensures no_bind_fault { self.new.bind_faults ≡ self.old.bind_faults }
        ensures waits { waits_of self.new ≡ waits_of self.old }
    {
        self.refusals = self.refusals.saturating_add(1);
        end
    }

    fn fail_on_link(&mut self) -> Failed
        ensures disk { self.new.disk ≡ self.old.disk }
        ensures link { self.new.link ≡ self.old.link }
        ensures cause { Rose self.old.link_faults self.new.link_faults }
        ensures binds { self.new.bind_faults ≡ self.old.bind_faults }
        ensures refusals { self.new.refusals ≡ self.old.refusals }
        ensures waits { waits_of self.new ≡ waits_of self.old }
    {
        self.link_faults = self.link_faults.saturating_add(1);
        Failed
    }

    /// Records whether a receive waits.
    fn note_wait(&mut self, waits: bool)
        ensures reported { Reports (waits_of self.old) (waits_of self.new) (waits ∷ []) }
        ensures disk { self.new.disk ≡ self.old.disk }
        ensures link { self.new.link ≡ self.old.link }
        ensures faults { self.new.link_faults ≡ self.old.link_faults }
        ensures binds { self.new.bind_faults ≡ self.old.bind_faults }
        ensures refusals { self.new.refusals ≡ self.old.refusals }
    {
        if self.waits.push(waits).is_err() {
            self.forgets_waits = true;
        }
    }

    /// Receives, and records the outcome.
    fn receive(&mut self, buf: &mut [u8]) -> Result<Receipt, Failed>
        requires { 2048 ≤ length buf.old }
        ensures receipt { IfOk result (λ receipt. received_as receipt buf.new ≡ arriving (length buf.new) self.old.link.arrivals) }
        ensures fails { OnErr result (IsNextListed self.old.link.recvs ⊎ IsStarved self.new) }
        ensures within { IfOk result (λ receipt. HasAtMost receipt (length buf.new)) }
        ensures reported { Reports (reported_of self.old) (reported_of self.new) (on_link (recv_reported result buf.new)) }
        ensures cause { OnErr result (Rose self.old.link_faults self.new.link_faults) }
        ensures no_fault { OnOk result (self.new.link_faults ≡ self.old.link_faults) }
        ensures never_falls { self.old.link_faults ≤ self.new.link_faults }
        ensures binds { self.new.bind_faults ≡ self.old.bind_faults }
        ensures no_disk_fault { self.new.disk.faults ≡ self.old.disk.faults }
        ensures refusals { self.new.refusals ≡ self.old.refusals }
        ensures left { self.new.disk.left ≡ self.old.disk.left }
        ensures waits { waits_of self.new ≡ waits_of self.old }
    {
        let Ok(receipt) = self.link.recv(buf) else {
            self.note(LinkCall::Missed);
            return Err(self.fail_on_link());
        };
        if self.note_received(receipt, buf) {
            return Ok(receipt);
        }
        Err(self.fail_on_link())
    }
}

impl Disk for MemDesk {
    ghost reported = { reported_of };

    ghost left = { λ d. Some d.disk.left };

    ghost fault_count = { λ d. d.disk.faults };

    ghost beside = { λ d. record { refusals = d.refusals; link_faults = d.link_faults; bind_faults = d.bind_faults; waits = waits_of d } };

    fn faults(&self) -> u64 {
        self.disk.faults()
    }

    fn read(&mut self, buf: &mut [u8]) -> Result<usize, Failed> {
        self.disk.read(buf)
    }

    fn append(&mut self, bytes: &[u8]) -> Result<(), Failed> {
        self.disk.append(bytes)
    }

    fn put(&mut self, at: u64, byte: u8) -> Result<(), Failed> {
        self.disk.put(at, byte)
    }

    fn cut(&mut self, at: u64) -> Result<(), Failed> {
        self.disk.cut(at)
    }

    fn sync(&mut self) -> Result<(), Failed> {
        self.disk.sync()
    }
}

impl Desk for MemDesk {
    ghost file_of = { file_of };

    ghost aside = { λ d. Some d.disk.aside };

    ghost aside_synced = { λ d. Some d.disk.aside_synced };

    fn refusals(&self) -> u64 {
        self.refusals
    }

    fn link_faults(&self) -> u64 {
        self.link_faults
    }

    fn bind_faults(&self) -> u64 {
        self.bind_faults
    }

    /// It has no clock.
    fn time(&self) -> u64 {
        0
    }

    fn open(&mut self, name: &str) -> Result<(), ShelfEnd>
        // It fails exactly where its call is listed as failing, and is refused exactly where another process has the file, or the file has another name.
        ensures opened { OnOk result ((self.old.is_in_use ≡ false) × (IsNextListed self.old.opens → ⊥) × (bytes_eq self.old.name name.now ≡ true)) }
        ensures failed { IsErrOf result ShelfEnd.Failed → IsNextListed self.old.opens }
        ensures refused { IsErrOf result ShelfEnd.InUse → self.old.is_in_use ≡ true }
        ensures unnamed { IsErrOf result ShelfEnd.Missing → bytes_eq self.old.name name.now ≡ false }

        // What every desk promises.
        ensures file { OnOk result (Some self.new.disk.left ≡ file_of self.old name.now) }
        ensures reported { Reports (reported_of self.old) (reported_of self.new) [] }
        ensures cause { IsErrOf result ShelfEnd.Failed → Rose self.old.disk.faults self.new.disk.faults }
        ensures in_use { IsErrOf result ShelfEnd.InUse → Rose self.old.refusals self.new.refusals }
        ensures missing { IsErrOf result ShelfEnd.Missing → Rose self.old.refusals self.new.refusals }
        ensures never_new { IsErrOf result ShelfEnd.Present → ⊥ }
        ensures never_falls { self.old.disk.faults ≤ self.new.disk.faults }
        ensures refusals_never_fall { self.old.refusals ≤ self.new.refusals }
        ensures no_link_fault { self.new.link_faults ≡ self.old.link_faults }
        ensures no_bind_fault { self.new.bind_faults ≡ self.old.bind_faults }
        ensures waits { waits_of self.new ≡ waits_of self.old }
    {
        if self.is_in_use {
            return Err(self.refuse(ShelfEnd::InUse));
        }
        if self.opens.next_fails() {
            self.disk.fail();
            return Err(ShelfEnd::Failed);
        }
        if self.name.as_str() != name {
            return Err(self.refuse(ShelfEnd::Missing));
        }
        Ok(())
    }

    /// The new file is the desk's from then on, under the old name.
    fn begin(&mut self, name: &str) -> Result<(), ShelfEnd>
        // It fails exactly where its call is listed as failing, and is refused exactly where another process has the file, or the file has this name.
        ensures begun { OnOk result ((self.old.is_in_use ≡ false) × (IsNextListed self.old.opens → ⊥) × (bytes_eq self.old.name name.now ≡ false)) }
        ensures failed { IsErrOf result ShelfEnd.Failed → IsNextListed self.old.opens }
        ensures refused { IsErrOf result ShelfEnd.InUse → self.old.is_in_use ≡ true }
        ensures named { IsErrOf result ShelfEnd.Present → bytes_eq self.old.name name.now ≡ true }

        // What every desk promises.
        ensures empty { OnOk result ((bytes : List ℕ) → Some self.new.disk.left ≡ Some bytes → bytes ≡ []) }
        ensures reported { Reports (reported_of self.old) (reported_of self.new) [] }
        ensures cause { IsErrOf result ShelfEnd.Failed → Rose self.old.disk.faults self.new.disk.faults }
        ensures in_use { IsErrOf result ShelfEnd.InUse → Rose self.old.refusals self.new.refusals }
        ensures present { IsErrOf result ShelfEnd.Present → Rose self.old.refusals self.new.refusals }
        ensures never_old { IsErrOf result ShelfEnd.Missing → ⊥ }
        ensures never_falls { self.old.disk.faults ≤ self.new.disk.faults }
        ensures refusals_never_fall { self.old.refusals ≤ self.new.refusals }
        ensures no_link_fault { self.new.link_faults ≡ self.old.link_faults }
        ensures no_bind_fault { self.new.bind_faults ≡ self.old.bind_faults }
        ensures waits { waits_of self.new ≡ waits_of self.old }
    {
        let is_others = self.is_in_use;
        if is_others {
            return Err(self.refuse(ShelfEnd::InUse));
        }
        if self.opens.next_fails() {
            self.disk.fail();
            return Err(ShelfEnd::Failed);
        }
        if self.name.as_str() == name {
            return Err(self.refuse(ShelfEnd::Present));
        }
        self.disk.make_anew();
        Ok(())
    }

    fn begin_aside(&mut self) -> Result<(), Failed> {
        self.disk.begin_aside()
    }

    fn append_aside(&mut self, bytes: &[u8]) -> Result<(), Failed> {
        self.disk.append_aside(bytes)
    }

    fn sync_aside(&mut self) -> Result<(), Failed> {
        self.disk.sync_aside()
    }

    fn drop_aside(&mut self) {
        self.disk.drop_aside();
    }

    fn replace(&mut self) -> Result<(), Failed> {
        self.disk.replace()
    }

    fn bind(&mut self, at: Addr) -> Result<(), Failed>
        // It fails only where it was made to fail, or where an allocation fails.
        ensures fails { OnErr result (BindFails self.old.link ⊎ IsStarved self.new) }

        // What every desk promises.
        ensures reported { Reports (reported_of self.old) (reported_of self.new) (on_link (bind_reported at result)) }
        ensures cause { OnErr result (Rose self.old.link_faults self.new.link_faults) }
        ensures bind_cause { OnErr result (Rose self.old.bind_faults self.new.bind_faults) }
        ensures no_fault { OnOk result (self.new.link_faults ≡ self.old.link_faults) }
        ensures no_bind_fault { OnOk result (self.new.bind_faults ≡ self.old.bind_faults) }
        ensures never_falls { self.old.link_faults ≤ self.new.link_faults }
        ensures bind_never_falls { self.old.bind_faults ≤ self.new.bind_faults }
        ensures no_disk_fault { self.new.disk.faults ≡ self.old.disk.faults }
        ensures no_refusal { self.new.refusals ≡ self.old.refusals }
        ensures left { Some self.new.disk.left ≡ Some self.old.disk.left }
        ensures waits { waits_of self.new ≡ waits_of self.old }
    {
        let is_bound = self.link.bind(at).is_ok() && self.note(LinkCall::Bound(at));
        if is_bound {
            return Ok(());
        }
        self.bind_faults = self.bind_faults.saturating_add(1);
        Err(self.fail_on_link())
    }

    fn send(&mut self, to: Addr, bytes: &[u8]) -> Result<(), Failed>
        // It fails only where its call is listed as failing, or where an allocation fails.
        ensures fails { OnErr result (IsNextListed self.old.link.sends ⊎ IsStarved self.new) }

        // What every desk promises.
        ensures reported { Reports (reported_of self.old) (reported_of self.new) (on_link (send_reported to bytes.now result)) }
        ensures cause { OnErr result (Rose self.old.link_faults self.new.link_faults) }
        ensures no_fault { OnOk result (self.new.link_faults ≡ self.old.link_faults) }
        ensures never_falls { self.old.link_faults ≤ self.new.link_faults }
        ensures no_bind_fault { self.new.bind_faults ≡ self.old.bind_faults }
        ensures no_disk_fault { self.new.disk.faults ≡ self.old.disk.faults }
        ensures no_refusal { self.new.refusals ≡ self.old.refusals }
        ensures left { Some self.new.disk.left ≡ Some self.old.disk.left }
        ensures waits { waits_of self.new ≡ waits_of self.old }
    {
        let is_sent = self.link.send(to, bytes).is_ok();
        if self.note_handed(to, bytes, !is_sent) && is_sent {
            return Ok(());
        }
        Err(self.fail_on_link())
    }

    fn recv(&mut self, buf: &mut [u8]) -> Result<Receipt, Failed>
        requires { 2048 ≤ length buf.old }

        // It fails only where its call is listed as failing, or where an allocation fails, and gives the next arrival.
        ensures receipt { IfOk result (λ receipt. received_as receipt buf.new ≡ arriving (length buf.new) self.old.link.arrivals) }
        ensures fails { OnErr result (IsNextListed self.old.link.recvs ⊎ IsStarved self.new) }

        // What every desk promises.
        ensures within { IfOk result (λ receipt. HasAtMost receipt (length buf.new)) }
        ensures reported { Reports (reported_of self.old) (reported_of self.new) (on_link (recv_reported result buf.new)) }
        ensures cause { OnErr result (Rose self.old.link_faults self.new.link_faults) }
        ensures no_fault { OnOk result (self.new.link_faults ≡ self.old.link_faults) }
        ensures never_falls { self.old.link_faults ≤ self.new.link_faults }
        ensures no_bind_fault { self.new.bind_faults ≡ self.old.bind_faults }
        ensures no_disk_fault { self.new.disk.faults ≡ self.old.disk.faults }
        ensures no_refusal { self.new.refusals ≡ self.old.refusals }
        ensures left { Some self.new.disk.left ≡ Some self.old.disk.left }
        ensures waits { Reports (waits_of self.old) (waits_of self.new) (true ∷ []) }
    {
        self.note_wait(true);
        self.receive(buf)
    }

    /// Its calls and those of `recv` are numbered together.
    fn recv_waiting(&mut self, buf: &mut [u8]) -> Result<Receipt, Failed>
        requires { 2048 ≤ length buf.old }

        // It fails only where its call is listed as failing, or where an allocation fails, and gives the next arrival.
        ensures receipt { IfOk result (λ receipt. received_as receipt buf.new ≡ arriving (length buf.new) self.old.link.arrivals) }
        ensures fails { OnErr result (IsNextListed self.old.link.recvs ⊎ IsStarved self.new) }

        // What every desk promises.
        ensures within { IfOk result (λ receipt. HasAtMost receipt (length buf.new)) }
        ensures reported { Reports (reported_of self.old) (reported_of self.new) (on_link (recv_reported result buf.new)) }
        ensures cause { OnErr result (Rose self.old.link_faults self.new.link_faults) }
        ensures no_fault { OnOk result (self.new.link_faults ≡ self.old.link_faults) }
        ensures never_falls { self.old.link_faults ≤ self.new.link_faults }
        ensures no_bind_fault { self.new.bind_faults ≡ self.old.bind_faults }
        ensures no_disk_fault { self.new.disk.faults ≡ self.old.disk.faults }
        ensures no_refusal { self.new.refusals ≡ self.old.refusals }
        ensures left { Some self.new.disk.left ≡ Some self.old.disk.left }
        ensures waits { Reports (waits_of self.old) (waits_of self.new) (false ∷ []) }
    {
        self.note_wait(false);
        self.receive(buf)
    }
}
