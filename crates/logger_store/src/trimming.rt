//! A log store that can be trimmed. No answer reports what is *trimmed*. Of it, the lengths and the complete pages are *discarded*: they are no longer stored.

ghost use Rattle.limits.specs.Limits.{most_entries, most_units};
ghost use Rattle.std.specs.Prelude.{[], ◌≡◌, ◌≤◌, ◌<◌, ◌+◌, ◌-◌, ◌^◌, ◌&&◌, ◌==◌, true, false, None, option_map, option_copied, IfSome, OnOk, OnErr};
ghost use Rattle.std.specs.Prelude.{IsOk, length, sum, take, slice_get, slice_index, slice_index_or, slice_set, if◌then◌else◌};
ghost use Rattle.ft_model.specs.Log.{head_of, with_entry, log_after, answer_to};
ghost use Rattle.logger_wire.specs.Records.{head_said};
ghost use Rattle.logger_wire.specs.Value.{body_of, message_of, IsSendable, IsSendableBy};
ghost use Rattle.logger_store.specs.StoreState.{acknowledging, answer_bytes, answer_bytes_by, wants_memory, bytes_of, lengths_of};
ghost use Rattle.log_pages.specs.Pages.{pages, place_of, reads_on, took};

use crate::msg_out::MsgOut;
use crate::store::LogStore;
use ft_io::{Key, NoMemory};
use limits::ENTRIES;
use log_pages::PAGE;
use logger_wire::{Body, EntryHead, Grammar, Msg};
use std::alloc::Global;
use std::marker::Model;

/// How much of an entry's beginning is trimmed: no answer reports it any more.
#[derive(Clone, Copy)]
pub struct Trim {
    /// How many of the first bytes are trimmed, at most 2^24: all that the trimmed reads took.
    pub bytes: u32,
    /// How many first reads are trimmed, at most 2^24 + 1.
    pub reads: u32,
}

/// Nothing is trimmed.
const UNTRIMMED: Trim = Trim { bytes: 0, reads: 0 };

/// A log store that can be trimmed: no answer reports an entry's trimmed first reads and their bytes any more, and their lengths and the complete pages of the
/// bytes are discarded.
#[derive(Drop)]
pub struct TrimStore {
    /// It has zeros in place of the discarded bytes.
    log: LogStore,
    /// How much of the entry at each place is trimmed.
    trims: [Trim; ENTRIES as usize],
}

impl Model for TrimStore {
    ghost use Rattle.logger_store.specs.Trim.{TrimmedLog};

    ghost Value = { TrimmedLog };

    ghost view = { λ s. record { log = s.log; trims = s.trims } };
}

impl TrimStore {
    ghost use Rattle.logger_store.specs.Trim.{untrimmed, trim_at, trim_of, is_trimmed, answer_left, with_trim, MayTrim};

    /// A log of boot 0 without entries. Nothing is allocated yet.
    pub fn new(alloc: Global) -> TrimStore
        ensures { result ≡ untrimmed }
    {
        TrimStore {
            log: LogStore::new(alloc),
            trims: [UNTRIMMED; ENTRIES as usize],
        }
    }

    /// The boot number of the newest server that has sent Hello; 0 before the first.
    pub fn boot(&self) -> u64
        ensures { result ≡ self.now.log.boot }
    {
        self.log.boot()
    }

    /// How many entries there are, at most 64.
    pub fn count(&self) -> u16
        ensures value { result ≡ length self.now.log.entries }
        ensures within { result ≤ 64 }
    {
        self.log.count()
    }

    /// The entry at place `i`, counted from 0, without its bytes and lengths; `None` exactly if there is no such entry.
    pub fn entry(&self, i: u16) -> Option<EntryHead>
        ensures value { option_map head_said result ≡ option_map head_of (slice_get self.now.log.entries i) }
    {
        self.log.entry(i)
    }

    /// The logged byte at the place `at`, counted from 0, of the entry at place `i`. It mustn't be trimmed.
    pub fn byte(&self, i: u16, at: u32) -> u8
        requires there { at < length (bytes_of (slice_get self.now.log.entries i)) }
        requires reported { (trim_at self.now.trims i).bytes ≤ at }
        ensures { result ≡ slice_index (bytes_of (slice_get self.now.log.entries i)) at }
    {
        self.log.byte(i, at)
    }

    /// The logged length, in bytes, of the read with the index `at`, counted from 0, of the entry at place `i`. It mustn't be trimmed.
    pub fn length(&self, i: u16, at: u32) -> u16
        requires there { at < length (lengths_of (slice_get self.now.log.entries i)) }
        requires reported { (trim_at self.now.trims i).reads ≤ at }
        ensures { result ≡ slice_index (lengths_of (slice_get self.now.log.entries i)) at }
    {
        self.log.length(i, at)
    }

    /// How much of the entry at place `i` is trimmed.
    pub fn trim_at(&self, i: u16) -> Trim
        ensures { result ≡ trim_at self.now.trims i }
    {
        match self.trims.get(usize::from(i)) {
            Some(trim) => *trim,
            None => UNTRIMMED,
        }
    }

    /// How much of a key's entry is trimmed; nothing if the key has no entry.
    pub fn trim_of(&self, key: Key) -> Trim
        ensures { result ≡ trim_of key self.now }
    {
        match self.log.place_of(key) {
            Some(place) => self.trim_at(place),
            None => UNTRIMMED,
        }
    }

    /// Whether a body asks for trimmed bytes or lengths.
    fn is_trimmed(&self, body: &Body<'_>) -> bool
        ensures { result ≡ is_trimmed self.now (body_of body.now) }
    {
        match *body {
            Body::Bytes { key, offset } => offset < self.trim_of(key).bytes,
            Body::Cuts { key, first } => first < self.trim_of(key).reads,
            _ => false,
        }
    }

    /// Whether a message has the log's boot number and asks for trimmed bytes or lengths. Such a message changes nothing.
    #[tactic(auto, using(crate::proofs::Asking::question_stays))]
    fn hides(&self, m: &Msg<'_>) -> bool
        ensures value { result ≡ (m.now.boot == self.now.log.boot && is_trimmed self.now (body_of m.now.body)) }
        ensures stays { result ≡ true → log_after self.now.log (message_of m.now) ≡ self.now.log }
    {
        m.boot == self.boot() && self.is_trimmed(&m.body)
    }

    /// Takes a message, and replaces the content of `out` by the answer to it, or by nothing, as `LogStore::answer` does; but it doesn't answer questions with
    /// the log's boot number about what is trimmed. After `NoMemory` the log is unchanged, `out` empty.
    pub fn answer(&mut self, alloc: Global, m: &Msg<'_>, out: &mut MsgOut) -> Result<(), NoMemory>
        requires { IsSendable m.now }
        ensures next { OnOk result (self.new.log ≡ log_after self.old.log (message_of m.now)) }
        ensures answer { OnOk result (out.new ≡ answer_bytes (answer_left self.old (message_of m.now))) }
        ensures refused { OnErr result (self.new.log ≡ self.old.log) }
        ensures empty { OnErr result (out.new ≡ []) }
        ensures memory { wants_memory self.old.log (message_of m.now) ≡ false → IsOk result }
        ensures trims { self.new.trims ≡ self.old.trims }
    {
        self.answer_by(alloc, Grammar::Plain, m, out)
    }

    /// Takes a message of a grammar, and replaces the content of `out` by the answer to it in that grammar, or by nothing.
    #[tactic(auto, unfolding(crate::specs::Trim::answer_left))]
    pub fn answer_by(
        &mut self,
        alloc: Global,
        grammar: Grammar,
        m: &Msg<'_>,
        out: &mut MsgOut,
    ) -> Result<(), NoMemory>
        requires { IsSendableBy grammar m.now }
        ensures next { OnOk result (self.new.log ≡ log_after self.old.log (message_of m.now)) }
        ensures answer { OnOk result (out.new ≡ answer_bytes_by grammar (answer_left self.old (message_of m.now))) }
        ensures refused { OnErr result (self.new.log ≡ self.old.log) }
        ensures empty { OnErr result (out.new ≡ []) }
        ensures memory { wants_memory self.old.log (message_of m.now) ≡ false → IsOk result }
        ensures trims { self.new.trims ≡ self.old.trims }
    {
        if self.hides(m) {
            out.clear();
            return Ok(());
        }
        self.log.answer_by(alloc, grammar, m, out)
    }

    /// The place of a key's entry, counted from 0; `None` if the key has no entry.
    pub fn place_of(&self, key: Key) -> Option<u16>
        ensures value { result ≡ place_of key self.now.log }
        ensures there { IfSome result (λ i. i < length self.now.log.entries) }
        ensures within { length self.now.log.entries ≤ most_entries }
    {
        self.log.place_of(key)
    }

    /// Notes that `units` units of a connection's output are acknowledged, if these are more than before. Nothing is allocated.
    pub fn acknowledge(&mut self, key: Key, units: u32)
        requires { units ≤ most_units }
        ensures log { self.new.log ≡ with_entry key (acknowledging units) self.old.log }
        ensures trims { self.new.trims ≡ self.old.trims }
    {
        self.log.acknowledge(key, units);
    }

    /// How many bytes the first `reads` reads of the entry at place `i` took; `None` if a closing read is among them.
    pub fn took(&self, i: u16, reads: u32) -> Option<u32>
        ensures value { IfSome result (λ n. n ≡ sum (take reads (lengths_of (slice_get self.now.log.entries i)))) }
        ensures within { IfSome result (λ n. n ≤ length (bytes_of (slice_get self.now.log.entries i))) }
        ensures on { IfSome result (λ n. reads_on (take reads (lengths_of (slice_get self.now.log.entries i))) ≡ true) }
        ensures all { i < length self.now.log.entries → result ≡ took reads (lengths_of (slice_get self.now.log.entries i)) }
    {
        self.log.took(i, reads)
    }

    /// Trims the entry at place `i`: no answer reports its first `reads` reads, and the `bytes` bytes that they took, any more. Nothing is allocated.
    pub fn trim(&mut self, i: u16, bytes: u32, reads: u32)
        requires { MayTrim i bytes reads self.old }
        ensures { self.new ≡ with_trim i bytes reads self.old }
    {
        if i >= self.count() {
            return;
        }
        self.log.discard(i, bytes, reads);
        self.trims[usize::from(i)] = Trim { bytes, reads };
    }

    /// How many bytes of the entry at place `i` are stored: those past the complete pages that are discarded.
    pub fn kept(&self, i: u16) -> u32
        requires { i < length self.now.log.entries }
        ensures { result ≡ length (bytes_of (slice_get self.now.log.entries i)) - pages (trim_at self.now.trims i).bytes }
    {
        match self.log.entry(i) {
            Some(head) => {
                let bytes = self.trim_at(i).bytes;
                head.length.saturating_sub(bytes - bytes % PAGE as u32)
            }
            None => 0,
        }
    }
}
