//! The log's entry for one connection.

ghost use Rattle.limits.specs.Limits.{longest_stream};
ghost use Rattle.std.specs.Prelude.{◌≡◌, ◌≤◌, ◌+◌, ◌^◌, ◌++◌, OnOk, IfSome, length, take, drop, option_map, true};
ghost use Rattle.seq_arith.specs.Message.Body.{EntryMsg, OpenedMsg, StableMsg, ReadsMsg};
ghost use Rattle.seq_arith.specs.MessageGrammar.{lens_in};
ghost use Rattle.ft_model.specs.Log.{new_entry, with_bytes, with_its_fin, with_part, with_read, is_next_read, numbers_of_entry, kept_of, head_of};
ghost use Rattle.ft_model.specs.Log.{part_of, lens_of};
ghost use Rattle.logger_wire.specs.Records.{numbers_said, kept_said, part_said};
ghost use Rattle.logger_wire.specs.Value.{body_of};

use ft_io::{Key, NoMemory};
use logger_wire::{Body, EntryHead, Kept, Numbers, Part};
use std::alloc::Global;
use std::marker::Model;

/// The largest number of bytes in one answer.
const MOST_BYTES: usize = 1_024;

/// The largest number of lengths in one answer.
const MOST_LENGTHS: usize = 512;

/// The log's entry for one connection. The lengths of its reads are summed as they are logged.
#[derive(Drop)]
pub struct PlainEntry {
    /// The key, the initial sequence numbers and the segment size.
    numbers: Numbers,
    /// The client's bytes, from the first on: at most 2^24.
    bytes: Vec<u8>,
    /// Whether the client's FIN is logged.
    fin: bool,
    /// The lengths of the server's reads, in bytes.
    lengths: Vec<u16>,
    /// The sum of the lengths.
    read: u32,
    /// Whether the read of length 0, which is the last one, is logged.
    closed: bool,
    /// The units of output that the client has acknowledged.
    acknowledged: u32,
    /// Whether the connection is done.
    done: bool,
}

impl Model for PlainEntry {
    ghost use Rattle.limits.specs.Limits.{longest_stream};
    ghost use Rattle.std.specs.Prelude.{◌≡◌, ◌==◌, ◌≤◌, ◌^◌, ◌+◌, length, sum};
    ghost use Rattle.std.specs.List.{list_any};
    ghost use Rattle.seq_arith.specs.Offset.{one_if};
    ghost use Rattle.ft_model.specs.Log.{Entry};

    ghost Value = { Entry };

    ghost view = { λ e. record {
      key = e.numbers.key;
      cisn = e.numbers.cisn;
      sisn = e.numbers.sisn;
      mss = e.numbers.mss;
      bytes = e.bytes.items;
      fin = e.fin;
      lengths = e.lengths.items;
      acknowledged = e.acknowledged;
      done = e.done;
    } };

    ghost invariant = { λ e. (length e.bytes.items ≤ longest_stream) × (e.read ≡ sum e.lengths.items) × (e.closed ≡ list_any (λ k. k == 0) e.lengths.items)
        × (e.read ≤ length e.bytes.items) × (length e.lengths.items ≤ e.read + one_if e.closed) };
}

impl PlainEntry {
    /// Creates an entry in which nothing is logged yet. Allocates nothing.
    pub(crate) fn new(alloc: Global, numbers: &Numbers) -> PlainEntry
        ensures { result ≡ new_entry (numbers_said numbers.now) }
    {
        PlainEntry {
            numbers: *numbers,
            bytes: Vec::new(alloc),
            fin: false,
            lengths: Vec::new(alloc),
            read: 0,
            closed: false,
            acknowledged: 0,
            done: false,
        }
    }

    /// Returns the client's address and port.
    pub fn key(&self) -> Key
        ensures { result ≡ self.now.key }
    {
        self.numbers.key
    }

    /// Returns how many of the client's bytes are logged.
    pub fn length(&self) -> u32
        ensures value { result ≡ length self.now.bytes }
        ensures within { result ≤ longest_stream }
    {
        self.bytes.len() as u32
    }

    /// Returns whether the client's FIN is logged.
    pub fn fin(&self) -> bool
        ensures { result ≡ self.now.fin }
    {
        self.fin
    }

    /// Returns the lengths of the server's reads, in order.
    pub fn lengths(&self) -> &[u16]
        ensures { result.now ≡ self.now.lengths }
    {
        self.lengths.as_slice()
    }

    /// Returns how many reads are logged.
    fn reads(&self) -> u32
        ensures { result ≡ length self.now.lengths }
    {
        self.lengths.len() as u32
    }

    /// Returns how many units of output the client has acknowledged.
    pub fn acked(&self) -> u32
        ensures { result ≡ self.now.acknowledged }
    {
        self.acknowledged
    }

    /// Returns whether the connection is done.
    pub fn is_done(&self) -> bool
        ensures { result ≡ self.now.done }
    {
        self.done
    }

    /// Records that the connection is done.
    pub(crate) fn end(&mut self)
        ensures { self.new ≡ record self.old { done = true } }
    {
        self.done = true;
    }

    /// Logs those bytes of a part that aren't logged yet, unless they leave a gap or come after the FIN.
    fn take_bytes(&mut self, part: &Part<'_>) -> Result<(), NoMemory>
        requires { part.now.offset + length part.now.bytes.now ≤ longest_stream }
        ensures { OnOk result (self.new ≡ with_bytes (part_said part.now) self.old) }
    {
        let logged = self.length();
        if self.fin || part.offset > logged {
            return Ok(());
        }
        let known = (logged - part.offset) as usize;
        if let Some(new) = part.bytes.get(known..) {
            self.bytes.extend_from_slice(new)?;
        }
        Ok(())
    }

    /// Logs the FIN of a part that ends where the logged bytes end.
    fn take_fin(&mut self, part: &Part<'_>)
        requires { part.now.offset + length part.now.bytes.now ≤ longest_stream }
        ensures { self.new ≡ with_its_fin (part_said part.now) self.old }
    {
        let end = part.offset + part.bytes.len() as u32;
        if part.fin && end == self.length() {
            self.fin = true;
        }
    }

    /// Logs a part of the client's stream. After `NoMemory` the entry may only be dropped.
    pub(crate) fn take_part(&mut self, part: &Part<'_>) -> Result<(), NoMemory>
        requires { part.now.offset + length part.now.bytes.now ≤ longest_stream }
        ensures { OnOk result (self.new ≡ with_part (part_said part.now) self.old) }
    {
        self.take_bytes(part)?;
        self.take_fin(part);
        self.acknowledged = self.acknowledged.max(part.acked);
        Ok(())
    }

    /// Returns whether a read of this index and length is the next one to be logged.
    fn is_next_read(&self, index: u32, len: u16) -> bool
        ensures { result ≡ is_next_read self.now index len }
    {
        let (end, length) = (self.read + u32::from(len), self.length());
        index == self.reads()
            && !self.closed
            && end <= length
            && (0 < len || (self.fin && self.read == length))
    }

    /// Logs the length of a read, if it is the next one. After `NoMemory` the entry may only be dropped.
    pub(crate) fn take_read(&mut self, index: u32, len: u16) -> Result<(), NoMemory>
        ensures { OnOk result (self.new ≡ with_read index len self.old) }
    {
        if self.is_next_read(index, len) {
            self.lengths.push(len)?;
            self.read += u32::from(len);
            self.closed = len == 0;
        }
        Ok(())
    }

    /// Returns everything but the bytes and lengths, as the entry at this index.
    pub(crate) fn head<'a>(&self, index: u16) -> Body<'a>
        ensures { body_of result ≡ EntryMsg index (head_of self.now) }
    {
        let head = EntryHead {
            key: self.numbers.key,
            cisn: self.numbers.cisn,
            sisn: self.numbers.sisn,
            mss: self.numbers.mss,
            length: self.length(),
            fin: self.fin,
            done: self.done,
            reads: self.reads(),
            acked: self.acknowledged,
        };
        Body::Entry { index, head }
    }

    /// Returns the numbers with which the entry was opened.
    pub(crate) fn opened<'a>(&self) -> Body<'a>
        ensures { body_of result ≡ OpenedMsg (numbers_of_entry self.now) }
    {
        Body::Opened(self.numbers)
    }

    /// Returns how much is logged.
    fn kept(&self) -> Kept
        ensures { kept_said result ≡ kept_of self.now }
    {
        Kept {
            key: self.key(),
            length: self.length(),
            fin: self.fin,
            reads: self.reads(),
        }
    }

    /// Returns how much is logged, as the answer to bytes.
    pub(crate) fn stable<'a>(&self) -> Body<'a>
        ensures { body_of result ≡ StableMsg (kept_of self.now) }
    {
        Body::Stable(self.kept())
    }

    /// Returns how much is logged, as the answer to a read.
    pub(crate) fn reads_reported<'a>(&self) -> Body<'a>
        ensures { body_of result ≡ ReadsMsg (kept_of self.now) }
    {
        Body::Reads(self.kept())
    }

    /// Returns at most 1,024 of the bytes, from this offset on, or `None` if there are none.
    pub(crate) fn part(&self, offset: u32) -> Option<Body<'_>>
        ensures { option_map body_of result ≡ part_of self.now offset }
    {
        if offset >= self.length() {
            return None;
        }
        Some(Body::Part {
            key: self.key(),
            offset,
            bytes: front(behind(&self.bytes, offset as usize), MOST_BYTES),
        })
    }

    /// Returns at most 512 lengths of reads, from this index on, or `None` if there are none. `lens` spells them.
    pub(crate) fn lens<'a>(&self, first: u32, lens: &'a [u8]) -> Option<Body<'a>>
        requires { lens_in lens.now ≡ take 512 (drop first self.now.lengths) }
        ensures { option_map body_of result ≡ lens_of self.now first }
    {
        if first >= self.reads() {
            return None;
        }
        Some(Body::Lens {
            key: self.key(),
            first,
            lens,
        })
    }

    /// Writes at most 512 lengths of reads, from this index on, in two bytes each, to an empty list. After `NoMemory` `out` may only be dropped.
    pub(crate) fn spell_lengths(&self, first: u32, out: &mut Vec<u8>) -> Result<(), NoMemory>
        requires { length out.old.items ≡ 0 }
        ensures { OnOk result (lens_in out.new.items ≡ take 512 (drop first self.now.lengths)) }
    {
        let lengths = behind(&self.lengths, first as usize);
        spell(front(lengths, MOST_LENGTHS), out)
    }
}

/// Returns the elements from an index on.
#[tactic(auto, using(std::proofs::lemmas::List::take_rest))]
fn behind<T>(elements: &[T], first: usize) -> &[T]
    ensures { result.now ≡ drop first elements.now }
{
    &elements[first.min(elements.len())..]
}

/// Returns the first `most` elements, or all if there are fewer.
fn front<T>(elements: &[T], most: usize) -> &[T]
    ensures { result.now ≡ take most elements.now }
{
    &elements[..most.min(elements.len())]
}

/// Appends each length in two bytes, the high one first. After `NoMemory` `out` may only be dropped.
#[tactic(auto, using(crate::proofs::ReadLengths::none_spelled, crate::proofs::ReadLengths::one_more_spelled, std::proofs::lemmas::List::take_more))]
fn spell(lengths: &[u16], out: &mut Vec<u8>) -> Result<(), NoMemory>
    requires { length out.old.items ≡ 0 }
    ensures { OnOk result (lens_in out.new.items ≡ lengths.now) }
{
    for length in lengths {
        out.extend_from_slice(&length.to_be_bytes())?;
    }
    Ok(())
}
