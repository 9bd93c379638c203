//! An entry of the log, as far as it has been fetched.

ghost use Rattle.std.specs.Prelude.{◌≡◌, ◌<◌, ◌≤◌, ◌+◌, ◌++◌, [], ◌∷◌, true, false, OnOk, MatchOption, nat_le, length, sum, option_map};
ghost use Rattle.std.specs.List.{list_all};
ghost use Rattle.seq_arith.specs.MessageGrammar.{lens_in};
ghost use Rattle.logger_wire.specs.Records.{head_said};
ghost use Rattle.plain_log.specs.Values.{wanted_in, wanted_of};
ghost use Rattle.plain_log.specs.Following.{follows};

use crate::lengths::split_first;
use crate::wanted::Wanted;
use ft_io::NoMemory;
use logger_wire::EntryHead;
use std::alloc::Global;
use std::marker::Model;

/// An entry, as far as it has been fetched. If it is done, only its head is fetched.
#[derive(Drop)]
pub struct PlainFetched {
    pub(crate) head: EntryHead,
    /// The client's bytes, from the first on.
    bytes: Vec<u8>,
    /// The lengths of the first reads.
    lengths: Vec<u16>,
    /// The sum of the lengths.
    read: u64,
    /// Whether the read of length 0 is among them.
    closed: bool,
}

/// The parts of an entry.
#[derive(Drop)]
pub struct EntryParts {
    pub head: EntryHead,
    /// The client's bytes, from the first on.
    pub bytes: Vec<u8>,
    /// The lengths of the reads, from the first on.
    pub lengths: Vec<u16>,
}

impl Model for PlainFetched {
    ghost use Rattle.std.specs.Prelude.{◌≡◌, ◌==◌, ◌≤◌, true, nat_le, length, sum};
    ghost use Rattle.std.specs.List.{list_any, list_all};
    ghost use Rattle.ft_model.specs.Restart.{Fetched};
    ghost use Rattle.logger_wire.specs.Records.{head_said};

    ghost Value = { Fetched };

    ghost view = { λ f. record { head = head_said f.head; bytes = f.bytes.items; lengths = f.lengths.items } };

    ghost invariant = { λ f. (f.read ≡ sum f.lengths.items) × (f.closed ≡ list_any (λ k. k == 0) f.lengths.items)
        × (length f.bytes.items ≤ f.head.length) × (length f.lengths.items ≤ f.head.reads) × (f.read ≤ f.head.length)
        × (list_all (λ k. nat_le k 2048) f.lengths.items ≡ true) };
}

impl PlainFetched {
    ghost use Rattle.ft_model.specs.Restart.{lacks_read_bytes as read_bytes_lem, lacks_lengths as lengths_lem, lacks_bytes as bytes_lem};
    ghost use Rattle.ft_model.specs.Restart.{is_whole as whole_lem, all_follow};
    ghost use Rattle.ft_model.specs.Log.{may_follow};

    /// Creates an entry of which only the head is fetched. Allocates nothing.
    pub(crate) fn new(alloc: Global, head: EntryHead) -> PlainFetched
        ensures { result ≡ record { head = head_said head; bytes = []; lengths = [] } }
    {
        PlainFetched {
            head,
            bytes: Vec::new(alloc),
            lengths: Vec::new(alloc),
            read: 0,
            closed: false,
        }
    }

    /// Returns its head.
    pub fn head(&self) -> EntryHead
        ensures { head_said result ≡ self.now.head }
    {
        self.head
    }

    /// Returns its parts. The reads end within the entry's length, and none is longer than 2,048 bytes.
    pub fn into_parts(self) -> EntryParts
        ensures head { head_said result.head ≡ self.head }
        ensures bytes { result.bytes.items ≡ self.bytes }
        ensures lengths { result.lengths.items ≡ self.lengths }
        ensures within { length self.bytes ≤ self.head.length }
        ensures read { sum self.lengths ≤ self.head.length }
        ensures short { list_all (λ k. nat_le k 2048) self.lengths ≡ true }
    {
        EntryParts {
            head: self.head,
            bytes: self.bytes,
            lengths: self.lengths,
        }
    }

    /// Returns whether bytes of a read whose length is fetched are missing.
    fn lacks_read_bytes(&self) -> bool
        ensures { result ≡ read_bytes_lem self.now }
    {
        !self.head.done && (self.bytes.len() as u64) < self.read
    }

    /// Returns whether lengths of reads are missing.
    fn lacks_lengths(&self) -> bool
        ensures { result ≡ lengths_lem self.now }
    {
        !self.head.done && (self.lengths.len() as u64) < u64::from(self.head.reads)
    }

    /// Returns whether any bytes are missing.
    fn lacks_bytes(&self) -> bool
        ensures { result ≡ bytes_lem self.now }
    {
        !self.head.done && (self.bytes.len() as u64) < u64::from(self.head.length)
    }

    /// Returns whether nothing is missing.
    pub fn is_whole(&self) -> bool
        ensures { result ≡ whole_lem self.now }
    {
        !self.lacks_lengths() && !self.lacks_bytes()
    }

    /// Returns how many of its bytes are fetched.
    fn bytes_fetched(&self) -> u32
        ensures { result ≡ length self.now.bytes }
    {
        (self.bytes.len() as u64).min(u64::from(self.head.length)) as u32
    }

    /// Returns how many lengths of its reads are fetched.
    fn reads_fetched(&self) -> u32
        ensures { result ≡ length self.now.lengths }
    {
        (self.lengths.len() as u64).min(u64::from(self.head.reads)) as u32
    }

    /// Returns what is requested next, if anything: bytes of reads whose lengths are fetched, else further lengths, else the bytes after all reads.
    pub(crate) fn wanted(&self) -> Option<Wanted>
        ensures { option_map wanted_in result ≡ wanted_of self.now }
    {
        let key = self.head.key;
        if self.lacks_read_bytes() || (!self.lacks_lengths() && self.lacks_bytes()) {
            let offset = self.bytes_fetched();
            return Some(Wanted::Bytes { key, offset });
        }
        if self.lacks_lengths() {
            let first = self.reads_fetched();
            return Some(Wanted::Lengths { key, first });
        }
        None
    }

    /// Returns whether so many more bytes end within the entry's length.
    pub(crate) fn has_room(&self, bytes: &[u8]) -> bool
        ensures { result ≡ nat_le (length self.now.bytes + length bytes.now) self.now.head.length }
    {
        bytes.len() as u64 <= u64::from(self.head.length) - self.bytes.len() as u64
    }

    /// Adds bytes that end within the entry's length. After `NoMemory` the entry may only be dropped.
    pub(crate) fn add_bytes(&mut self, bytes: &[u8]) -> Result<(), NoMemory>
        requires { length self.old.bytes + length bytes.now ≤ self.old.head.length }
        ensures { OnOk result (self.new ≡ record self.old { bytes = self.old.bytes ++ bytes.now }) }
    {
        self.bytes.extend_from_slice(bytes)?;
        Ok(())
    }

    /// Returns whether so many more lengths end within the entry's count.
    #[tactic(auto, using(seq_arith::proofs::Texts::lens_in_length))]
    pub(crate) fn has_reads_left(&self, lens: &[u8]) -> bool
        ensures { result ≡ nat_le (length self.now.lengths + length (lens_in lens.now)) self.now.head.reads }
    {
        (lens.len() / 2) as u64 <= u64::from(self.head.reads) - self.lengths.len() as u64
    }

    /// Returns how many bytes are read after one more read of this length, or `None` if it may not follow the reads that took `read` bytes.
    fn end_of_read(&self, read: u64, closed: bool, len: u16) -> Option<u64>
        requires { read ≤ self.now.head.length }
        ensures { MatchOption result (follows self.now.head.length self.now.head.fin read closed len ≡ false)
            (λ end. (follows self.now.head.length self.now.head.fin read closed len ≡ true) × (end ≡ read + len) × (end ≤ self.now.head.length)) }
    {
        let length = u64::from(self.head.length);
        let end = read + u64::from(len);
        if !closed && end <= length && (len > 0 || (self.head.fin && read == length)) {
            Some(end)
        } else {
            None
        }
    }

    /// Returns whether each of these lengths may follow those before it, by the log's rule for reads.
    #[tactic(auto, using(crate::proofs::Following::all_follow_is))]
    pub(crate) fn all_follow(&self, lens: &[u8]) -> bool
        ensures { result ≡ all_follow self.now.head.length self.now.head.fin self.now.lengths (lens_in lens.now) }
    {
        let (mut read, mut closed, mut rest) = (self.read, self.closed, lens);
        while let Some((len, behind)) = split_first(rest) {
            let Some(end) = self.end_of_read(read, closed, len) else {
                return false;
            };
            read = end;
            closed = closed || len == 0;
            rest = behind;
        }
        true
    }

    /// Adds the length of a read that may follow. After `NoMemory` the entry may only be dropped.
    #[tactic(auto, using(crate::proofs::Cited::add_length_lemmas))]
    fn add_length(&mut self, len: u16) -> Result<(), NoMemory>
        requires count { length self.old.lengths < self.old.head.reads }
        requires follow { may_follow self.old.head.length self.old.head.fin self.old.lengths len ≡ true }
        requires short { len ≤ 2048 }
        ensures { OnOk result (self.new ≡ record self.old { lengths = self.old.lengths ++ len ∷ [] }) }
    {
        self.lengths.push(len)?;
        self.read += u64::from(len);
        self.closed = len == 0;
        Ok(())
    }

    /// Adds lengths of reads that may follow. After `NoMemory` the entry may only be dropped.
    #[tactic(auto, using(crate::proofs::Following::next_follows, crate::proofs::Following::all_added))]
    pub(crate) fn add_lengths(&mut self, lens: &[u8]) -> Result<(), NoMemory>
        requires count { length self.old.lengths + length (lens_in lens.now) ≤ self.old.head.reads }
        requires follow { all_follow self.old.head.length self.old.head.fin self.old.lengths (lens_in lens.now) ≡ true }
        requires short { list_all (λ k. nat_le k 2048) (lens_in lens.now) ≡ true }
        ensures { OnOk result (self.new ≡ record self.old { lengths = self.old.lengths ++ lens_in lens.now }) }
    {
        let mut rest = lens;
        while let Some((len, behind)) = split_first(rest) {
            self.add_length(len)?;
            rest = behind;
        }
        Ok(())
    }
}
