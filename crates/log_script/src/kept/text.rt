//! What is written of calls on a file, and of a log.

use crate::readers::{write_extent, write_key};
use disk::{DeskCall, DiskCall, MemDesk};
use ft_io::NoMemory;
use kept_log::{KeepEnd, KeptLog, OpenEnd};
use logger_store::LogStore;
use test_data::Said;

/// Says the calls on a desk that change its file, from one of them on, each after a semicolon.
pub(crate) fn write_calls(desk: &MemDesk, from: usize, said: &mut Said) {
    let Some(calls) = desk.reported() else {
        return said.add(b"; untold");
    };
    for call in calls.iter().skip(from) {
        let DeskCall::OnDisk(call) = call else {
            continue;
        };
        let failed = match call {
            DiskCall::Appended(_, failed)
            | DiskCall::Put(_, _, failed)
            | DiskCall::Cut(_, failed)
            | DiskCall::Synced(failed)
            | DiskCall::Replaced(_, failed) => *failed,
        };
        said.add(if failed { b"; failed " } else { b"; " });
        match call {
            DiskCall::Appended(bytes, _) => {
                said.add(b"append ");
                said.brief(bytes.as_slice());
            }
            DiskCall::Put(at, byte, _) => write!(said, "put {at} {byte}"),
            DiskCall::Cut(at, _) => write!(said, "cut {at}"),
            DiskCall::Synced(_) => said.add(b"sync"),
            DiskCall::Replaced(bytes, _) => {
                said.add(b"replace ");
                said.brief(bytes.as_slice());
            }
        }
    }
}

/// How many calls a desk has recorded.
pub(crate) fn call_count(desk: &MemDesk) -> usize {
    match desk.reported() {
        Some(calls) => calls.len(),
        None => 0,
    }
}

/// Says a log's boot number, its count of entries and where the next block begins.
pub(crate) fn write_log(log: &KeptLog, said: &mut Said) {
    let (boot, count, end) = (log.log().boot(), log.log().count(), log.tip().end);
    write!(said, "boot {boot} count {count} end {end}");
}

/// Says what came of an opening, with the calls on the file.
pub(crate) fn write_opening(
    opened: &Result<(KeptLog, usize), OpenEnd>,
    desk: &MemDesk,
    said: &mut Said,
) -> Result<(), NoMemory> {
    match opened {
        Ok((log, cut)) => {
            write_log(log, said);
            write!(said, " cut {cut}");
        }
        Err(OpenEnd::NoMemory) => return Err(NoMemory),
        Err(OpenEnd::Failed) => said.add(b"failed"),
        Err(OpenEnd::Empty) => said.add(b"empty"),
        Err(OpenEnd::Unfinished) => said.add(b"unfinished"),
        Err(OpenEnd::Older) => said.add(b"older"),
        Err(OpenEnd::OtherGrammar) => said.add(b"other"),
        Err(OpenEnd::Wrong(at)) => write!(said, "wrong {at}"),
    }
    write_calls(desk, 0, said);
    Ok(())
}

/// Says what came of the making of a journal, with the calls on the file.
pub(crate) fn write_beginning(
    begun: &Result<KeptLog, KeepEnd>,
    desk: &MemDesk,
    said: &mut Said,
) -> Result<(), NoMemory> {
    match begun {
        Ok(log) => write_log(log, said),
        Err(KeepEnd::NoMemory) => return Err(NoMemory),
        Err(KeepEnd::Failed) => said.add(b"failed"),
    }
    write_calls(desk, 0, said);
    Ok(())
}

/// Says the entry at a place of a log, without the numbers of its Open.
pub(crate) fn write_kept_entry(log: &LogStore, place: u16, said: &mut Said) {
    let Some(entry) = log.entry(place) else {
        return write!(said, "entry {place} none");
    };
    write_key(place, &entry, said);
    write_extent(&entry, said);
}
