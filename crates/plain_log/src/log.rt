//! The log of all connections.

ghost use Rattle.limits.specs.Limits.{most_entries};
ghost use Rattle.std.specs.Prelude.{◌≡◌, ◌≤◌, OnOk, Some, option_map, option_copied, find, map, length, slice_get, ◌||◌, nat_le};
ghost use Rattle.std.specs.List.{list_any};
ghost use Rattle.ft_io.specs.Key.{key_eq};
ghost use Rattle.seq_arith.specs.Message.Body.{HelloMsg};
ghost use Rattle.seq_arith.specs.MessageGrammar.{lens_in};
ghost use Rattle.ft_model.specs.Log.{Log, empty_log, entry_of, opened, opened_answer, with_body, is_hello as hello_lem, log_after, answer_from, answer_to};
ghost use Rattle.logger_wire.specs.Records.{numbers_said};
ghost use Rattle.seq_arith.specs.declared.kinds.Grammar.TheVariants.{Wide};
ghost use Rattle.logger_wire.specs.Value.{body_of, message_of, IsSendableBy};
ghost use Rattle.plain_log.specs.Parts.{logged_in, StaysInStream};
ghost use Rattle.plain_log.specs.Reply.{reply, lengths_asked};

use crate::entry::PlainEntry;
use ft_io::{Key, NoMemory};
use logger_wire::{Body, Msg, Numbers};
use std::alloc::Global;
use std::marker::Model;

/// The largest number of entries in a log.
const ENTRY_LIMIT: usize = limits::ENTRIES as usize;

/// The log of a schedule's run.
#[derive(Drop)]
pub struct PlainLog {
    /// The boot number of the newest server that has sent Hello.
    boot: u64,
    /// At most 64, in the order in which they were opened.
    entries: Vec<PlainEntry>,
}

impl Model for PlainLog {
    ghost use Rattle.std.specs.Prelude.{◌≤◌, length};
    ghost use Rattle.ft_model.specs.Log.{Log};

    ghost Value = { Log };

    ghost view = { λ l. record { boot = l.boot; entries = l.entries.items } };

    ghost invariant = { λ l. length l.entries.items ≤ 64 };
}

/// Returns whether a body is Hello.
fn is_hello(body: &Body<'_>) -> bool
    ensures { result ≡ hello_lem (body_of body.now) }
{
    match body {
        Body::Hello => true,
        _ => false,
    }
}

/// Logs in an entry what a body says about its key. After `NoMemory` the entry may only be dropped.
fn log_in(entry: &mut PlainEntry, body: &Body<'_>) -> Result<(), NoMemory>
    requires { StaysInStream (body_of body.now) }
    ensures { OnOk result (entry.new ≡ logged_in (body_of body.now) entry.old) }
{
    match *body {
        Body::Data(part) if entry.key() == part.key => entry.take_part(&part),
        Body::Read { key, index, length } if entry.key() == key => {
            entry.take_read(index, length)
        }
        Body::Done { key } if entry.key() == key => {
            entry.end();
            Ok(())
        }
        _ => Ok(()),
    }
}

/// Logs in each entry what a body says about its key. After `NoMemory` the entries may only be dropped.
fn log_in_all(entries: &mut [PlainEntry], body: &Body<'_>) -> Result<(), NoMemory>
    requires { StaysInStream (body_of body.now) }
    ensures { OnOk result (entries.new ≡ map (logged_in (body_of body.now)) entries.old) }
{
    for entry in entries.iter_mut() {
        log_in(entry, body)?;
    }
    Ok(())
}

/// Returns the entry of a key.
fn find_entry(entries: &[PlainEntry], key: Key) -> Option<&PlainEntry>
    ensures { option_copied result ≡ find (λ e. key_eq e.key key) entries.now }
{
    entries.iter().find(|entry| entry.key() == key)
}

/// Returns whether a key has an entry.
fn has_entry(entries: &[PlainEntry], key: Key) -> bool
    ensures { result ≡ list_any (λ e. key_eq e.key key) entries.now }
{
    entries.iter().any(|entry| entry.key() == key)
}

impl PlainLog {
    /// Creates a log of boot 0 without entries. Allocates nothing.
    pub fn new(alloc: Global) -> PlainLog
        ensures { result ≡ empty_log }
    {
        PlainLog {
            boot: 0,
            entries: Vec::new(alloc),
        }
    }

    /// Returns the boot number of the newest server that has sent Hello; 0 before the first.
    pub fn boot(&self) -> u64
        ensures { result ≡ self.now.boot }
    {
        self.boot
    }

    /// Returns the entries, in the order in which they were opened.
    pub fn entries(&self) -> &[PlainEntry]
        ensures { result.now ≡ self.now.entries }
    {
        self.entries.as_slice()
    }

    fn find(&self, key: Key) -> Option<&PlainEntry>
        ensures { option_copied result ≡ entry_of key self.now }
    {
        find_entry(self.entries.as_slice(), key)
    }

    /// Returns whether a new entry for this key is refused: the key has one, or the log is full.
    pub(crate) fn turns_away(&self, key: Key) -> bool
        ensures { result ≡ (list_any (λ e. key_eq e.key key) self.now.entries || nat_le most_entries (length self.now.entries)) }
    {
        has_entry(self.entries.as_slice(), key) || self.entries.len() >= ENTRY_LIMIT
    }

    /// Adds an entry for an unknown key, if there is room.
    fn open(&mut self, alloc: Global, numbers: &Numbers) -> Result<(), NoMemory>
        ensures { OnOk result (self.new ≡ opened (numbers_said numbers.now) self.old) }
    {
        if !self.turns_away(numbers.key) {
            self.entries.push(PlainEntry::new(alloc, numbers))?;
        }
        Ok(())
    }

    /// Logs the body of a message whose boot number is the log's own.
    fn take_body(&mut self, alloc: Global, body: &Body<'_>) -> Result<(), NoMemory>
        requires { StaysInStream (body_of body.now) }
        ensures { OnOk result (self.new ≡ with_body (body_of body.now) self.old) }
    {
        match *body {
            Body::Open(numbers) => self.open(alloc, &numbers),
            Body::Data(_) | Body::Read { .. } | Body::Done { .. } => {
                log_in_all(&mut self.entries, body)
            }
            _ => Ok(()),
        }
    }

    /// Takes a message that may be sent in the wide grammar, as each of the plain one may. Each message that a codec reads may. After `NoMemory` the log may
    /// only be dropped.
    #[tactic(auto, using(crate::proofs::Ranges::stays_in_stream), unfolding(ft_model::specs::Log::log_after))]
    pub fn take(&mut self, alloc: Global, msg: &Msg<'_>) -> Result<(), NoMemory>
        requires { IsSendableBy Wide msg.now }
        ensures { OnOk result (self.new ≡ log_after self.old (message_of msg.now)) }
    {
        if msg.body.is_answer() || msg.boot < self.boot {
            return Ok(());
        }
        if is_hello(&msg.body) {
            self.boot = msg.boot;
            return Ok(());
        }
        if msg.boot == self.boot {
            self.take_body(alloc, &msg.body)?;
        }
        Ok(())
    }

    /// Returns the number of entries.
    fn summary<'a>(&self) -> Body<'a>
        ensures { Some (body_of result) ≡ answer_from HelloMsg self.now }
    {
        Body::Summary {
            count: self.entries.len() as u16,
        }
    }

    /// Returns the numbers with which the connection of a key was opened, or that the log is full.
    fn opened<'a>(&self, key: Key) -> Body<'a>
        ensures { Some (body_of result) ≡ opened_answer key (entry_of key self.now) }
    {
        match self.find(key) {
            Some(entry) => entry.opened(),
            None => Body::Full { key },
        }
    }

    /// Returns the answer to the body of a message that the log has just taken and whose boot number is the log's own.
    fn answer_body<'a>(&'a self, body: &Body<'_>, lens: &'a [u8]) -> Option<Body<'a>>
        requires { lens_in lens.now ≡ lengths_asked (body_of body.now) self.now }
        ensures { option_map body_of result ≡ answer_from (body_of body.now) self.now }
    {
        match *body {
            Body::Hello => Some(self.summary()),
            Body::List { index } => {
                let entry = self.entries.get(usize::from(index))?;
                Some(entry.head(index))
            }
            Body::Bytes { key, offset } => self.find(key)?.part(offset),
            Body::Cuts { key, first } => self.find(key)?.lens(first, lens),
            Body::Open(numbers) => Some(self.opened(numbers.key)),
            Body::Data(part) if part.more => None,
            Body::Data(part) => Some(self.find(part.key)?.stable()),
            Body::Read { key, .. } => Some(self.find(key)?.reads_reported()),
            Body::Done { key } => {
                self.find(key)?;
                Some(Body::Ended { key })
            }
            _ => None,
        }
    }

    /// Writes the lengths that a request asks for, in two bytes each, to an empty list. After `NoMemory` `lens` may only be dropped.
    pub fn spell_lengths(&self, msg: &Msg<'_>, lens: &mut Vec<u8>) -> Result<(), NoMemory>
        requires { length lens.old.items ≡ 0 }
        ensures { OnOk result (lens_in lens.new.items ≡ lengths_asked (body_of msg.now.body) self.now) }
    {
        if let Body::Cuts { key, first } = msg.body
            && let Some(entry) = self.find(key)
        {
            return entry.spell_lengths(first, lens);
        }
        Ok(())
    }

    /// Returns the answer to a message that the log has just taken. `lens` spells the lengths that the message asks for (`spell_lengths`).
    #[tactic(auto, using(crate::proofs::Replies::reply_is_the_answer))]
    pub fn answer<'a>(&'a self, msg: &Msg<'_>, lens: &'a [u8]) -> Option<Msg<'a>>
        requires { lens_in lens.now ≡ lengths_asked (body_of msg.now.body) self.now }
        ensures reply { option_map message_of result ≡ reply self.now (message_of msg.now) }
        ensures answer { (before : Log) → self.now ≡ log_after before (message_of msg.now)
            → option_map message_of result ≡ answer_to before (message_of msg.now) }
    {
        let boot = msg.boot;
        if msg.body.is_answer() {
            return None;
        }
        if boot < self.boot {
            let body = Body::Stale { newer: self.boot };
            return Some(Msg { boot, body });
        }
        if boot > self.boot {
            return None;
        }
        let body = self.answer_body(&msg.body, lens)?;
        Some(Msg { boot, body })
    }
}
