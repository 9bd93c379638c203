//! The fetched entries, newest first.

ghost use Rattle.std.specs.Prelude.{◌≡◌, true, [], IfOk, nat_le, option_map};
ghost use Rattle.std.specs.List.{list_all};
ghost use Rattle.seq_arith.specs.MessageGrammar.{lens_of};
ghost use Rattle.ft_model.specs.Restart.{is_fetched};
ghost use Rattle.logger_wire.specs.Value.{body_of};
ghost use Rattle.plain_log.specs.Values.{wanted_in, IsTakenAs};

use crate::fetched::PlainFetched;
use crate::wanted::Wanted;
use ft_io::{Key, NoMemory};
use logger_wire::Body;
use std::alloc::Global;
use std::marker::Model;

/// The entries fetched so far, newest first.
#[derive(Drop)]
pub struct PlainFetching {
    pub(crate) entries: Vec<PlainFetched>,
}

impl Model for PlainFetching {
    ghost use Rattle.std.specs.Prelude.{List};
    ghost use Rattle.ft_model.specs.Restart.{Fetched};

    ghost Value = { List Fetched };

    ghost view = { λ f. f.entries.items };
}

/// Returns whether an entry of this key is fetched.
fn is_among(entries: &[PlainFetched], key: Key) -> bool
    ensures { result ≡ is_fetched key entries.now }
{
    entries.iter().any(|entry| entry.head.key == key)
}

impl PlainFetching {
    ghost use Rattle.ft_model.specs.Restart.{wanted as wanted_lem, fetched_by, fetched_after};
    ghost use Rattle.ft_model.specs.Restart.Wanted.{An_entry, Its_bytes, Its_lengths};

    /// Creates an empty list: nothing is fetched. Allocates nothing.
    pub fn new(alloc: Global) -> PlainFetching
        ensures { result ≡ [] }
    {
        PlainFetching {
            entries: Vec::new(alloc),
        }
    }

    /// Returns what is requested next from a log with `count` entries.
    pub fn wanted(&self, count: u16) -> Option<Wanted>
        ensures { option_map wanted_in result ≡ wanted_lem count self.now }
    {
        if let Some(newest) = self.entries.first()
            && let Some(wanted) = newest.wanted()
        {
            return Some(wanted);
        }
        let index = self.entries.len();
        if index < usize::from(count) {
            return Some(Wanted::Entry {
                index: index as u16,
            });
        }
        None
    }

    /// Takes an answer that is the entry at this index, if the entry's key is new. Returns whether it fits. After `NoMemory` the list may only be dropped.
    fn take_entry(&mut self, alloc: Global, index: u16, body: &Body<'_>) -> Result<bool, NoMemory>
        ensures { IfOk result (λ fits. IsTakenAs (fetched_by (An_entry index) (body_of body.now) self.old) self.old self.new fits) }
    {
        let Body::Entry { index: found, head } = *body else {
            return Ok(false);
        };
        if found != index || is_among(self.entries.as_slice(), head.key) {
            return Ok(false);
        }
        self.entries.insert(0, PlainFetched::new(alloc, head))?;
        Ok(true)
    }

    /// Takes bytes of the newest entry, if the answer has those requested. Returns whether it fits. After `NoMemory` the list may only be dropped.
    pub(crate) fn take_bytes(
        &mut self,
        key: Key,
        offset: u32,
        body: &Body<'_>,
    ) -> Result<bool, NoMemory>
        ensures { IfOk result (λ fits. IsTakenAs (fetched_by (Its_bytes key offset) (body_of body.now) self.old) self.old self.new fits) }
    {
        let Body::Part {
            key: found,
            offset: at,
            bytes,
        } = *body
        else {
            return Ok(false);
        };
        let Some(newest) = self.entries.get_mut(0) else {
            return Ok(false);
        };
        if found != key || at != offset || !newest.has_room(bytes) {
            return Ok(false);
        }
        newest.add_bytes(bytes)?;
        Ok(true)
    }

    /// Takes an answer of this boot, from a log with `count` entries, if it fits the request. Returns whether it fits. After `NoMemory` the list may only be
    /// dropped.
    pub fn take(&mut self, alloc: Global, count: u16, body: &Body<'_>) -> Result<bool, NoMemory>
        requires { list_all (λ len. nat_le len 2048) (lens_of (body_of body.now)) ≡ true }
        ensures { IfOk result (λ fits. IsTakenAs (fetched_after (wanted_lem count self.old) (body_of body.now) self.old) self.old self.new fits) }
    {
        match self.wanted(count) {
            Some(Wanted::Entry { index }) => self.take_entry(alloc, index, body),
            Some(Wanted::Bytes { key, offset }) => self.take_bytes(key, offset, body),
            Some(Wanted::Lengths { key, first }) => self.take_lengths(key, first, body),
            None => Ok(false),
        }
    }

    /// Takes lengths of the newest entry, if the answer has those requested. Returns whether it fits. After `NoMemory` the list may only be dropped.
    fn take_lengths(&mut self, key: Key, first: u32, body: &Body<'_>) -> Result<bool, NoMemory>
        requires { list_all (λ len. nat_le len 2048) (lens_of (body_of body.now)) ≡ true }
        ensures { IfOk result (λ fits. IsTakenAs (fetched_by (Its_lengths key first) (body_of body.now) self.old) self.old self.new fits) }
    {
        let Body::Lens {
            key: found,
            first: at,
            lens,
        } = *body
        else {
            return Ok(false);
        };
        let Some(newest) = self.entries.get_mut(0) else {
            return Ok(false);
        };
        if found != key || at != first || !newest.has_reads_left(lens) || !newest.all_follow(lens) {
            return Ok(false);
        }
        newest.add_lengths(lens)?;
        Ok(true)
    }
}
