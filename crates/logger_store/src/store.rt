//! The log of all connections.

ghost use Rattle.limits.specs.Limits.{largest_segment, least_segment, longest_stream, most_entries, most_units};
ghost use Rattle.std.specs.Prelude.{[], ◌≡◌, ◌≤◌, ◌<◌, ◌^◌, ◌+◌, ℕ, Some, None, true, false, option_map, option_copied, OnOk, OnErr, IsOk, IfSome, length};
ghost use Rattle.std.specs.Prelude.{slice_get, slice_index};
ghost use Rattle.ft_model.specs.Log.{Entry, Log, log_after, answer_to, empty_log, opened, with_body, answer_from, is_hello, entry_of, with_entry};
ghost use Rattle.ft_model.specs.Log.{with_part, with_read, head_of};
ghost use Rattle.std.specs.Prelude.{◌||◌, nat_le, not, map, filter};
ghost use Rattle.ft_model.specs.Keys.{AreDistinct};
ghost use Rattle.std.specs.List.{list_any};
ghost use Rattle.ft_io.specs.Key.{key_eq};
ghost use Rattle.seq_arith.specs.Message.Body.{OpenMsg, DataMsg, ReadMsg, DoneMsg};
ghost use Rattle.logger_wire.specs.Records.{numbers_said, head_said, part_said};
ghost use Rattle.logger_wire.specs.Value.{body_of, message_of, IsSendable, IsSendableBy};
ghost use Rattle.logger_store.specs.Changes.{body_changes, changes};
ghost use Rattle.std.specs.Prelude.{sum, take};
ghost use Rattle.log_pages.specs.Pages.{changed_at, reads_on, took, without, place_of};
ghost use Rattle.logger_store.specs.StoreState.{adds, answer_bytes, answer_bytes_by, acknowledging, with_boot, wants_memory, bytes_of, lengths_of};

use crate::msg_out::MsgOut;
use crate::reporting::{
    answer_count, answer_ended, answer_head, answer_lengths, answer_opened, answer_part,
    answer_reads, answer_stable, answer_stale,
};
use crate::stored_entry::StoredEntry;
use ft_io::{Key, NoMemory};
use indexmap::IndexMap;
use limits::ENTRIES;
use logger_wire::{Body, EntryHead, Grammar, Msg, Numbers, Part};
use std::alloc::Global;
use std::marker::Model;

/// The log: the boot number of the newest server that has sent Hello, and an entry for each connection, in the order of their opening.
#[derive(Drop)]
pub struct LogStore {
    /// The newest server's boot number.
    boot: u64,
    /// At most 64, in the order in which they were opened.
    entries: IndexMap<Key, StoredEntry>,
}

impl Model for LogStore {
    ghost use Rattle.limits.specs.Limits.{most_entries};
    ghost use Rattle.std.specs.Prelude.{◌≡◌, ◌≤◌, length, map};
    ghost use Rattle.ft_model.specs.Log.{Log};
    ghost use Rattle.indexmap.specs.IndexMap.{keys, values};

    ghost Value = { Log };

    ghost view = { λ l. record { boot = l.boot; entries = values l.entries } };

    ghost invariant = { λ l. (keys l.entries ≡ map (λ e. e.key) (values l.entries)) × (length (values l.entries) ≤ most_entries) };
}

/// Whether a body is Hello.
fn is_hello(body: &Body<'_>) -> bool
    ensures { result ≡ is_hello (body_of body.now) }
{
    match body {
        Body::Hello => true,
        _ => false,
    }
}

impl LogStore {
    /// A log of boot 0 without entries. Nothing is allocated yet.
    pub fn new(alloc: Global) -> LogStore
        ensures { result ≡ empty_log }
    {
        LogStore {
            boot: 0,
            entries: IndexMap::new(alloc),
        }
    }

    /// The boot number of the newest server that has sent Hello; 0 before the first.
    pub fn boot(&self) -> u64
        ensures { result ≡ self.now.boot }
    {
        self.boot
    }

    /// How many entries there are, at most 64.
    pub fn count(&self) -> u16
        ensures value { result ≡ length self.now.entries }
        ensures within { result ≤ 64 }
    {
        self.entries.len() as u16
    }

    /// The entry at place `i`, counted from 0; `None` exactly if there is no such entry.
    pub fn at(&self, i: u16) -> Option<&StoredEntry>
        ensures { option_copied result ≡ slice_get self.now.entries i }
    {
        let (_key, entry) = self.entries.get_index(usize::from(i))?;
        Some(entry)
    }

    /// The entry at place `i`, counted from 0, without its bytes and lengths; `None` exactly if there is no such entry.
    pub fn entry(&self, i: u16) -> Option<EntryHead>
        ensures value { option_map head_said result ≡ option_map head_of (slice_get self.now.entries i) }
    {
        Some(self.at(i)?.head())
    }

    /// The logged byte at the place `at`, counted from 0, of the entry at place `i`.
    pub fn byte(&self, i: u16, at: u32) -> u8
        requires { at < length (bytes_of (slice_get self.now.entries i)) }
        ensures { result ≡ slice_index (bytes_of (slice_get self.now.entries i)) at }
    {
        match self.at(i) {
            Some(entry) => entry.byte(at),
            None => 0,
        }
    }

    /// The logged length, in bytes, of the read with the index `at`, counted from 0, of the entry at place `i`.
    pub fn length(&self, i: u16, at: u32) -> u16
        requires { at < length (lengths_of (slice_get self.now.entries i)) }
        ensures { result ≡ slice_index (lengths_of (slice_get self.now.entries i)) at }
    {
        match self.at(i) {
            Some(entry) => entry.read_length(at),
            None => 0,
        }
    }

    fn find(&self, key: Key) -> Option<&StoredEntry>
        ensures { option_copied result ≡ entry_of key self.now }
    {
        self.entries.get(&key)
    }

    /// The entry of a key. No other entry has the key, so a change that leaves this entry as it is leaves the log as it is.
    fn only(&self, key: Key) -> Option<&StoredEntry>
        ensures entry { option_copied result ≡ entry_of key self.now }
        ensures alone { (change : Entry → Entry) → option_map change (entry_of key self.now) ≡ entry_of key self.now
            → with_entry key change self.now ≡ self.now }
    {
        let place = self.entries.get_index_of(&key)?;
        self.at(place as u16)
    }

    fn knows(&self, key: Key) -> bool
        ensures { result ≡ list_any (λ e. key_eq e.key key) self.now.entries }
    {
        self.find(key).is_some()
    }

    /// The entry of a key, without its bytes and lengths; `None` exactly if the key has no entry. No two entries have the same key.
    pub fn head_of(&self, key: Key) -> Option<EntryHead>
        ensures value { option_map head_said result ≡ option_map head_of (entry_of key self.now) }
        ensures apart { AreDistinct (map (λ e. e.key) self.now.entries) }
    {
        let place = self.entries.get_index_of(&key)?;
        self.entry(place as u16)
    }

    /// Removes the entry of a key, if it has one. The others keep their order. Nothing is allocated.
    pub fn remove(&mut self, key: Key)
        ensures { self.new ≡ record self.old { entries = filter (λ e. not (key_eq e.key key)) self.old.entries } }
    {
        let Some(_place) = self.entries.get_index_of(&key) else {
            return;
        };
        drop(self.entries.shift_remove(&key));
    }

    /// Whether no entry is added for a key: it has one, or the log is full.
    fn turns_away(&self, key: Key) -> bool
        ensures { result ≡ (list_any (λ e. key_eq e.key key) self.now.entries || nat_le most_entries (length self.now.entries)) }
    {
        self.knows(key) || self.count() >= ENTRIES
    }

    /// Adds an entry for a key that has none, while there is room.
    fn open(&mut self, alloc: Global, numbers: &Numbers) -> Result<(), NoMemory>
        requires { (least_segment ≤ numbers.now.mss) × (numbers.now.mss ≤ largest_segment) }
        ensures ok { OnOk result (self.new ≡ opened (numbers_said numbers.now) self.old) }
        ensures err { OnErr result (self.new ≡ self.old) }
        ensures known { adds (OpenMsg (numbers_said numbers.now)) self.old ≡ false → IsOk result }
    {
        if self.turns_away(numbers.key) {
            return Ok(());
        }
        let entry = StoredEntry::new(alloc, numbers);
        self.entries.insert(numbers.key, entry)?;
        Ok(())
    }

    /// Keeps a part of a client's stream.
    fn take_part(&mut self, alloc: Global, part: &Part<'_>) -> Result<(), NoMemory>
        requires room { part.now.offset + length part.now.bytes.now ≤ longest_stream }
        requires few { length part.now.bytes.now ≤ largest_segment }
        requires acked { part.now.acked ≤ most_units }
        ensures ok { OnOk result (self.new ≡ with_entry part.now.key (with_part (part_said part.now)) self.old) }
        ensures err { OnErr result (self.new ≡ self.old) }
        ensures in_page { adds (DataMsg (part_said part.now)) self.old ≡ false → IsOk result }
    {
        let Some(entry) = self.entries.get_mut(&part.key) else {
            return Ok(());
        };
        entry.take_part(alloc, part)
    }

    /// Keeps the length of a read.
    fn take_read(&mut self, key: Key, index: u32, len: u16) -> Result<(), NoMemory>
        requires { len ≤ 2048 }
        ensures ok { OnOk result (self.new ≡ with_entry key (with_read index len) self.old) }
        ensures err { OnErr result (self.new ≡ self.old) }
        ensures again { adds (ReadMsg key index len) self.old ≡ false → IsOk result }
    {
        let Some(entry) = self.entries.get_mut(&key) else {
            return Ok(());
        };
        entry.take_read(index, len)
    }

    /// Discards the lengths of the first `reads` reads of the entry at place `i`, and the complete pages of the `bytes` bytes that they took. Nothing is
    /// allocated.
    pub(crate) fn discard(&mut self, i: u16, bytes: u32, reads: u32)
        requires there { reads ≤ length (lengths_of (slice_get self.old.entries i)) }
        requires took { bytes ≡ sum (take reads (lengths_of (slice_get self.old.entries i))) }
        requires on { reads_on (take reads (lengths_of (slice_get self.old.entries i))) ≡ true }
        ensures { self.new ≡ record self.old { entries = changed_at i (without bytes reads) self.old.entries } }
    {
        let Some(entry) = self.entries.get_index_mut(usize::from(i)) else {
            return;
        };
        entry.discard(bytes, reads);
    }

    /// Notes that at least `units` units of a connection's output are acknowledged.
    pub(crate) fn acknowledge(&mut self, key: Key, units: u32)
        requires { units ≤ most_units }
        ensures { self.new ≡ with_entry key (acknowledging units) self.old }
    {
        let Some(entry) = self.entries.get_mut(&key) else {
            return;
        };
        entry.acknowledge(units);
    }

    /// How many bytes the first `reads` reads of the entry at place `i` took; `None` if there is no such entry, or a closing read is among them.
    pub(crate) fn took(&self, i: u16, reads: u32) -> Option<u32>
        ensures value { IfSome result (λ n. n ≡ sum (take reads (lengths_of (slice_get self.now.entries i)))) }
        ensures within { IfSome result (λ n. n ≤ length (bytes_of (slice_get self.now.entries i))) }
        ensures on { IfSome result (λ n. reads_on (take reads (lengths_of (slice_get self.now.entries i))) ≡ true) }
        ensures all { i < length self.now.entries → result ≡ took reads (lengths_of (slice_get self.now.entries i)) }
    {
        self.at(i)?.took(reads)
    }

    /// The place of a key's entry, counted from 0; `None` if the key has no entry.
    pub(crate) fn place_of(&self, key: Key) -> Option<u16>
        ensures value { result ≡ place_of key self.now }
        ensures there { IfSome result (λ i. i < length self.now.entries) }
        ensures within { length self.now.entries ≤ most_entries }
    {
        Some(self.entries.get_index_of(&key)? as u16)
    }

    /// Notes that a connection has ended.
    fn end(&mut self, key: Key)
        ensures { self.new ≡ with_entry key (λ e. record e { done = true }) self.old }
    {
        let Some(entry) = self.entries.get_mut(&key) else {
            return;
        };
        entry.end();
    }

    /// Whether keeping a part changes anything.
    fn part_changes(&self, part: &Part<'_>) -> bool
        requires { part.now.offset + length part.now.bytes.now ≤ longest_stream }
        ensures value { result ≡ body_changes (DataMsg (part_said part.now)) self.now }
        ensures stays { result ≡ false → with_entry part.now.key (with_part (part_said part.now)) self.now ≡ self.now }
    {
        match self.only(part.key) {
            Some(entry) => entry.part_changes(part),
            None => false,
        }
    }

    /// Whether keeping the length of a read changes anything.
    fn read_changes(&self, key: Key, index: u32, len: u16) -> bool
        ensures value { result ≡ body_changes (ReadMsg key index len) self.now }
        ensures stays { result ≡ false → with_entry key (with_read index len) self.now ≡ self.now }
    {
        match self.only(key) {
            Some(entry) => entry.is_next_read(index, len),
            None => false,
        }
    }

    /// Whether noting that a connection has ended changes anything.
    fn end_changes(&self, key: Key) -> bool
        ensures value { result ≡ body_changes (DoneMsg key) self.now }
        ensures stays { result ≡ false → with_entry key (λ e. record e { done = true }) self.now ≡ self.now }
    {
        match self.only(key) {
            Some(entry) => !entry.is_done(),
            None => false,
        }
    }

    /// Whether the body of a message with the log's boot number changes anything.
    #[tactic(auto, using(crate::proofs::Sending::data_ranges))]
    fn body_changes(&self, grammar: Grammar, m: &Msg<'_>) -> bool
        requires { IsSendableBy grammar m.now }
        ensures value { result ≡ body_changes (body_of m.now.body) self.now }
        ensures stays { result ≡ false → with_body (body_of m.now.body) self.now ≡ self.now }
    {
        match m.body {
            Body::Open(numbers) => !self.turns_away(numbers.key),
            Body::Data(part) => self.part_changes(&part),
            Body::Read { key, index, length } => self.read_changes(key, index, length),
            Body::Done { key } => self.end_changes(key),
            _ => false,
        }
    }

    /// Whether a message of the plain grammar changes the log. The log depends on the messages that do, and on no others.
    pub fn changes(&self, m: &Msg<'_>) -> bool
        requires { IsSendable m.now }
        ensures value { result ≡ changes self.now (message_of m.now) }
        ensures stays { result ≡ false → log_after self.now (message_of m.now) ≡ self.now }
        ensures differs { result ≡ true → ¬ (log_after self.now (message_of m.now) ≡ self.now) }
    {
        self.changes_by(Grammar::Plain, m)
    }

    /// Whether a message of a grammar changes the log.
    #[tactic(auto, unfolding(ft_model::specs::Log::log_after, crate::specs::Changes::changes))]
    pub fn changes_by(&self, grammar: Grammar, m: &Msg<'_>) -> bool
        requires { IsSendableBy grammar m.now }
        ensures value { result ≡ changes self.now (message_of m.now) }
        ensures stays { result ≡ false → log_after self.now (message_of m.now) ≡ self.now }
        ensures differs { result ≡ true → ¬ (log_after self.now (message_of m.now) ≡ self.now) }
    {
        if m.body.is_answer() {
            return false;
        }
        if is_hello(&m.body) {
            return self.boot < m.boot;
        }
        m.boot == self.boot && self.body_changes(grammar, m)
    }

    /// Keeps what a message with the log's boot number says.
    #[tactic(auto, using(crate::proofs::Cited::take_lemmas))]
    fn take(&mut self, alloc: Global, grammar: Grammar, m: &Msg<'_>) -> Result<(), NoMemory>
        requires { IsSendableBy grammar m.now }
        ensures ok { OnOk result (self.new ≡ with_body (body_of m.now.body) self.old) }
        ensures err { OnErr result (self.new ≡ self.old) }
        ensures memory { adds (body_of m.now.body) self.old ≡ false → IsOk result }
    {
        match m.body {
            Body::Open(numbers) => self.open(alloc, &numbers),
            Body::Data(part) => self.take_part(alloc, &part),
            Body::Read { key, index, length } => self.take_read(key, index, length),
            Body::Done { key } => {
                self.end(key);
                Ok(())
            }
            _ => Ok(()),
        }
    }

    /// Writes the log's answer to a message with its boot number into the empty `out`, after the log has taken the message. A Data that a later one of its turn
    /// follows has none.
    #[tactic(auto, using(crate::proofs::Sending::some_boot, crate::proofs::Sending::list_range), unfolding(crate::proofs::Unfolded::write_answer_words))]
    fn write_answer(&self, grammar: Grammar, m: &Msg<'_>, out: &mut MsgOut)
        requires sendable { IsSendableBy grammar m.now }
        requires empty { out.old ≡ [] }
        ensures { out.new ≡ answer_bytes_by grammar (with_boot m.now.boot (answer_from (body_of m.now.body) self.now)) }
    {
        let boot = m.boot;
        match m.body {
            Body::Hello => answer_count(grammar, self.count(), boot, out),
            Body::List { index } => answer_head(grammar, self.at(index), boot, index, out),
            Body::Bytes { key, offset } => answer_part(grammar, self.find(key), boot, offset, out),
            Body::Cuts { key, first } => answer_lengths(grammar, self.find(key), boot, first, out),
            Body::Open(numbers) => {
                answer_opened(grammar, self.find(numbers.key), boot, numbers.key, out)
            }
            Body::Data(part) if part.more => (),
            Body::Data(part) => answer_stable(grammar, self.find(part.key), boot, out),
            Body::Read { key, .. } => answer_reads(grammar, self.find(key), boot, out),
            Body::Done { key } => answer_ended(grammar, self.find(key), boot, key, out),
            _ => (),
        }
    }

    /// Takes a message of the plain grammar, and replaces the content of `out` by the answer to it, or by nothing. It allocates only for an entry of a new key,
    /// for bytes that don't fit the page of the entry's last byte, and for a read whose length differs from the last one. After `NoMemory` the log is
    /// unchanged, `out` empty.
    pub fn answer(&mut self, alloc: Global, m: &Msg<'_>, out: &mut MsgOut) -> Result<(), NoMemory>
        requires { IsSendable m.now }
        ensures next { OnOk result (self.new ≡ log_after self.old (message_of m.now)) }
        ensures answer { OnOk result (out.new ≡ answer_bytes (answer_to self.old (message_of m.now))) }
        ensures refused { OnErr result (self.new ≡ self.old) }
        ensures empty { OnErr result (out.new ≡ []) }
        ensures memory { wants_memory self.old (message_of m.now) ≡ false → IsOk result }
    {
        self.answer_by(alloc, Grammar::Plain, m, out)
    }

    /// Takes a message of a grammar, and replaces the content of `out` by the answer to it in that grammar, or by nothing.
    #[tactic(auto, using(crate::proofs::Sending::some_boot), unfolding(crate::proofs::Unfolded::answer_by_words))]
    pub fn answer_by(
        &mut self,
        alloc: Global,
        grammar: Grammar,
        m: &Msg<'_>,
        out: &mut MsgOut,
    ) -> Result<(), NoMemory>
        requires { IsSendableBy grammar m.now }
        ensures next { OnOk result (self.new ≡ log_after self.old (message_of m.now)) }
        ensures answer { OnOk result (out.new ≡ answer_bytes_by grammar (answer_to self.old (message_of m.now))) }
        ensures refused { OnErr result (self.new ≡ self.old) }
        ensures empty { OnErr result (out.new ≡ []) }
        ensures memory { wants_memory self.old (message_of m.now) ≡ false → IsOk result }
    {
        out.clear();
        if m.body.is_answer() {
            return Ok(());
        }
        if m.boot < self.boot {
            answer_stale(grammar, m.boot, self.boot, out);
            return Ok(());
        }
        if is_hello(&m.body) {
            self.boot = m.boot;
        } else if m.boot == self.boot {
            self.take(alloc, grammar, m)?;
        } else {
            return Ok(());
        }
        self.write_answer(grammar, m, out);
        Ok(())
    }
}
