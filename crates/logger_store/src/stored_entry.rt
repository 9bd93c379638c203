//! What is logged of one connection.

ghost use Rattle.limits.specs.Limits.{largest_segment, least_segment, longest_stream, most_units};
ghost use Rattle.std.specs.Prelude.{[], take, drop, ◌≡◌, ◌≤◌, ◌<◌, ◌+◌, ◌-◌, ◌^◌, ◌&&◌, min, nat_le, true, false, OnOk, OnErr, IsOk, length};
ghost use Rattle.std.specs.Prelude.{slice_index, sum, IfSome};
ghost use Rattle.std.specs.List.{list_all};
ghost use Rattle.ft_model.specs.Log.{new_entry, with_bytes, with_its_fin, with_part, with_read, is_next_read, numbers_of_entry, kept_of, head_of, Entry};
ghost use Rattle.logger_store.specs.Changes.{part_changes};
ghost use Rattle.log_pages.specs.Pages.{reads_on, took, without};
ghost use Rattle.logger_wire.specs.Records.{numbers_said, kept_said, head_said, part_said};
ghost use Rattle.logger_store.specs.StoreState.{acknowledging, adds_page, begins_run};

use arrayvec::ArrayVec;
use ft_io::NoMemory;
use log_pages::{Lens, PAGE, PART, Pages, ReadLengths};
use logger_wire::{EntryHead, Kept, Numbers, Part};
use std::alloc::Global;
use std::marker::Model;

/// What is logged of a connection. Its reads are counted and summed as they are logged.
#[derive(Drop)]
pub struct StoredEntry {
    /// The key, the initial sequence numbers and the segment size.
    numbers: Numbers,
    /// The client's bytes, from the first on.
    bytes: Pages,
    /// Whether the client's FIN is logged.
    fin: bool,
    /// The lengths of the server's reads, in bytes.
    lengths: ReadLengths,
    /// How many reads there are.
    reads: u32,
    /// How many bytes they took.
    read: u32,
    /// Whether the closing read, of length 0, is logged.
    closed: bool,
    /// How many units of output the client has acknowledged.
    acknowledged: u32,
    /// Whether the connection has ended.
    done: bool,
}

impl Model for StoredEntry {
    ghost use Rattle.std.specs.Prelude.{◌≡◌, ◌==◌, ◌≤◌, ◌^◌, ◌+◌, length, sum};
    ghost use Rattle.std.specs.List.{list_any};
    ghost use Rattle.ft_model.specs.Log.{Entry};
    ghost use Rattle.logger_store.specs.StoreState.{AreRead, IsInRange};

    ghost Value = { Entry };

    ghost view = { λ e. record {
      key = e.numbers.key;
      cisn = e.numbers.cisn;
      sisn = e.numbers.sisn;
      mss = e.numbers.mss;
      bytes = e.bytes.bytes;
      fin = e.fin;
      lengths = e.lengths;
      acknowledged = e.acknowledged;
      done = e.done;
    } };

    ghost invariant = { λ e. (e.reads ≡ length e.lengths) × (e.read ≡ sum e.lengths) × (e.closed ≡ list_any (λ k. k == 0) e.lengths)
        × IsInRange e.numbers.mss (length e.bytes.bytes) e.acknowledged × AreRead (length e.bytes.bytes) e.lengths };
}

impl StoredEntry {
    /// An entry in which nothing is logged yet. Nothing is allocated.
    pub fn new(alloc: Global, numbers: &Numbers) -> StoredEntry
        requires { (least_segment ≤ numbers.now.mss) × (numbers.now.mss ≤ largest_segment) }
        ensures { result ≡ new_entry (numbers_said numbers.now) }
    {
        StoredEntry {
            numbers: *numbers,
            bytes: Pages::new(alloc),
            fin: false,
            lengths: ReadLengths::new(alloc),
            reads: 0,
            read: 0,
            closed: false,
            acknowledged: 0,
            done: false,
        }
    }

    /// How many bytes are logged.
    fn length(&self) -> u32
        ensures value { result ≡ length self.now.bytes }
        ensures within { result ≤ longest_stream }
    {
        self.bytes.len() as u32
    }

    /// The numbers with which it was opened.
    pub fn numbers(&self) -> Numbers
        ensures value { numbers_said result ≡ numbers_of_entry self.now }
        ensures mss { (least_segment ≤ result.mss) × (result.mss ≤ largest_segment) }
    {
        self.numbers
    }

    /// How much is logged.
    pub fn kept(&self) -> Kept
        ensures value { kept_said result ≡ kept_of self.now }
        ensures length { result.length ≤ longest_stream }
        ensures reads { result.reads ≤ most_units }
    {
        Kept {
            key: self.numbers.key,
            length: self.length(),
            fin: self.fin,
            reads: self.reads,
        }
    }

    /// The entry without its bytes and lengths.
    pub fn head(&self) -> EntryHead
        ensures value { head_said result ≡ head_of self.now }
        ensures mss { (least_segment ≤ result.mss) × (result.mss ≤ largest_segment) }
        ensures length { result.length ≤ longest_stream }
        ensures reads { result.reads ≤ most_units }
        ensures acked { result.acked ≤ most_units }
    {
        EntryHead {
            key: self.numbers.key,
            cisn: self.numbers.cisn,
            sisn: self.numbers.sisn,
            mss: self.numbers.mss,
            length: self.length(),
            fin: self.fin,
            done: self.done,
            reads: self.reads,
            acked: self.acknowledged,
        }
    }

    /// The logged byte at the place `at`, counted from 0.
    pub fn byte(&self, at: u32) -> u8
        requires { at < length self.now.bytes }
        ensures { result ≡ slice_index self.now.bytes at }
    {
        self.bytes.at(at as usize)
    }

    /// The length of the read with this index, counted from 0.
    pub fn read_length(&self, index: u32) -> u16
        requires { index < length self.now.lengths }
        ensures value { result ≡ slice_index self.now.lengths index }
        ensures within { result ≤ 2048 }
    {
        self.lengths.at(index as usize)
    }

    /// Copies the logged bytes from `offset` on, at most 1,024, into the empty `part`.
    #[tactic(auto, using(crate::proofs::Fronts::front_length))]
    pub fn copy_bytes(&self, offset: u32, part: &mut ArrayVec<u8, PART>)
        requires empty { part.old.items ≡ [] }
        requires there { offset < length self.now.bytes }
        ensures value { part.new.items ≡ take 1024 (drop offset self.now.bytes) }
        ensures count { length part.new.items ≡ min 1024 (length self.now.bytes - offset) }
    {
        self.bytes.copy(offset as usize, part);
    }

    /// Copies the lengths of the reads from index `first` on, at most 512, into the empty `lens`.
    #[tactic(auto, using(crate::proofs::Fronts::front_length, crate::proofs::Fronts::front_holds))]
    pub fn copy_lengths(&self, first: u32, lens: &mut Lens)
        requires empty { lens.old ≡ [] }
        ensures value { lens.new ≡ take 512 (drop first self.now.lengths) }
        ensures count { length lens.new ≡ min 512 (length self.now.lengths - first) }
        ensures each { list_all (λ n. nat_le n 2048) lens.new ≡ true }
    {
        self.lengths.copy(first as usize, lens);
    }

    /// Logs the part's bytes past the logged ones, unless they leave a gap or the FIN is logged.
    pub(crate) fn take_bytes(&mut self, alloc: Global, part: &Part<'_>) -> Result<(), NoMemory>
        requires room { part.now.offset + length part.now.bytes.now ≤ longest_stream }
        requires few { length part.now.bytes.now ≤ largest_segment }
        ensures ok { OnOk result (self.new ≡ with_bytes (part_said part.now) self.old) }
        ensures err { OnErr result (self.new ≡ self.old) }
        ensures in_page { adds_page (part_said part.now) self.old ≡ false → IsOk result }
    {
        let logged = self.length();
        if self.fin || part.offset > logged {
            return Ok(());
        }
        match part.bytes.get((logged - part.offset) as usize..) {
            Some(bytes) => self.bytes.add(alloc, bytes),
            None => Ok(()),
        }
    }

    /// Logs the FIN of a part that ends where the logged bytes end.
    fn take_fin(&mut self, part: &Part<'_>)
        requires { part.now.offset + length part.now.bytes.now ≤ longest_stream }
        ensures { self.new ≡ with_its_fin (part_said part.now) self.old }
    {
        let end = part.offset + part.bytes.len() as u32;
        if part.fin && end == self.length() {
            self.fin = true;
        }
    }

    /// Keeps a part of the client's stream.
    pub fn take_part(&mut self, alloc: Global, part: &Part<'_>) -> Result<(), NoMemory>
        requires room { part.now.offset + length part.now.bytes.now ≤ longest_stream }
        requires few { length part.now.bytes.now ≤ largest_segment }
        requires acked { part.now.acked ≤ most_units }
        ensures ok { OnOk result (self.new ≡ with_part (part_said part.now) self.old) }
        ensures err { OnErr result (self.new ≡ self.old) }
        ensures in_page { adds_page (part_said part.now) self.old ≡ false → IsOk result }
        ensures key { self.new.key ≡ self.old.key }
    {
        self.take_bytes(alloc, part)?;
        self.take_fin(part);
        self.acknowledged = self.acknowledged.max(part.acked);
        Ok(())
    }

    /// Whether keeping a part changes anything.
    pub fn part_changes(&self, part: &Part<'_>) -> bool
        requires { part.now.offset + length part.now.bytes.now ≤ longest_stream }
        ensures { result ≡ part_changes (part_said part.now) self.now }
    {
        let (end, logged) = (part.offset + part.bytes.len() as u32, self.length());
        self.acknowledged < part.acked
            || (!self.fin && part.offset <= logged && (logged < end || (part.fin && end == logged)))
    }

    /// Whether a read with this index and length can be logged next.
    pub fn is_next_read(&self, index: u32, len: u16) -> bool
        ensures { result ≡ is_next_read self.now index len }
    {
        let (end, length) = (self.read + u32::from(len), self.length());
        index == self.reads
            && !self.closed
            && end <= length
            && (0 < len || (self.fin && self.read == length))
    }

    /// Keeps the length of a read, if it is the next one.
    pub fn take_read(&mut self, index: u32, len: u16) -> Result<(), NoMemory>
        requires { len ≤ 2048 }
        ensures ok { OnOk result (self.new ≡ with_read index len self.old) }
        ensures err { OnErr result (self.new ≡ self.old) }
        ensures again { (is_next_read self.old index len && begins_run len self.old) ≡ false → IsOk result }
        ensures key { self.new.key ≡ self.old.key }
    {
        if self.is_next_read(index, len) {
            self.lengths.push(len)?;
            self.reads += 1;
            self.read += u32::from(len);
            self.closed = len == 0;
        }
        Ok(())
    }

    /// How many bytes the first `reads` reads took; `None` if a closing read is among them.
    #[tactic(auto, using(log_pages::proofs::Took::sum_took, log_pages::proofs::Took::few_took, log_pages::proofs::Took::on_took))]
    pub fn took(&self, reads: u32) -> Option<u32>
        ensures value { result ≡ took reads self.now.lengths }
        ensures bytes { IfSome result (λ n. n ≡ sum (take reads self.now.lengths)) }
        ensures within { IfSome result (λ n. n ≤ length self.now.bytes) }
        ensures on { IfSome result (λ n. reads_on (take reads self.now.lengths) ≡ true) }
    {
        self.lengths.took(reads as usize)
    }

    /// Discards the lengths of the first `reads` reads, and the complete pages of the `bytes` bytes that they took. Nothing is allocated.
    #[tactic(auto, using(crate::proofs::Without::kept_without, crate::proofs::Without::below_there))]
    pub fn discard(&mut self, bytes: u32, reads: u32)
        requires there { reads ≤ length self.old.lengths }
        requires took { bytes ≡ sum (take reads self.old.lengths) }
        requires on { reads_on (take reads self.old.lengths) ≡ true }
        ensures { self.new ≡ without bytes reads self.old }
    {
        self.bytes.discard(bytes as usize / PAGE);
        self.lengths.discard(reads);
    }

    /// Notes that at least `units` units of output are acknowledged.
    pub fn acknowledge(&mut self, units: u32)
        requires { units ≤ most_units }
        ensures { self.new ≡ acknowledging units self.old }
    {
        self.acknowledged = self.acknowledged.max(units);
    }

    /// Whether the connection has ended.
    pub fn is_done(&self) -> bool
        ensures { result ≡ self.now.done }
    {
        self.done
    }

    /// Notes that the connection has ended.
    pub fn end(&mut self)
        ensures { self.new ≡ record self.old { done = true } }
    {
        self.done = true;
    }
}
