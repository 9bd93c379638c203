//! A recycled entry, as a report tells it.

ghost use Rattle.std.specs.Prelude.{◌≡◌, IfOk, length, slice_get};
ghost use Rattle.ft_model.specs.Log.{entry_of};
ghost use Rattle.logger_store.specs.StoreState.{lengths_of};
ghost use Rattle.lasting_world.specs.GoneEntries.{IsEntryToGo};

use ft_io::{Key, NoMemory};
use logger_store::LogStore;
use logger_wire::EntryHead;
use std::alloc::Global;

/// An entry at the time at which it was recycled: its head, and the lengths of its reads.
#[derive(Drop)]
pub struct GoneEntry {
    pub head: EntryHead,
    pub lengths: Vec<u16>,
}

/// The entry of a key, if the log has one.
pub(crate) fn entry_to_go(
    alloc: Global,
    log: &LogStore,
    key: Key,
) -> Result<Option<GoneEntry>, NoMemory>
    ensures { IfOk result (λ gone. IsEntryToGo gone (entry_of key log.now)) }
{
    for i in 0..log.count() {
        let Some(head) = log.entry(i) else {
            return Ok(None);
        };
        if head.key == key {
            let lengths = lengths_at(alloc, log, i, head.reads)?;
            return Ok(Some(GoneEntry { head, lengths }));
        }
    }
    Ok(None)
}

/// The lengths of the `count` reads of the entry at place `i`.
fn lengths_at(alloc: Global, log: &LogStore, i: u16, count: u32) -> Result<Vec<u16>, NoMemory>
    requires { count ≡ length (lengths_of (slice_get log.now.entries i)) }
    ensures { IfOk result (λ lengths. lengths.items ≡ lengths_of (slice_get log.now.entries i)) }
{
    let mut lengths = Vec::new(alloc);
    for at in 0..count {
        lengths.push(log.length(i, at))?;
    }
    Ok(lengths)
}
