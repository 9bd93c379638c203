//! The restarts that are played.

use crate::peers::CLIENT;
use crate::restarts::hostile::attack;
use crate::restarts::logged::{Logged, NO_MARK, head_of, lens_of};
use crate::restarts::marked::{at_the_ends, hostile_marks, with_marks};
use crate::restarts::play::{BOOT, begin, fetch, hand, restore};
use ft_io::{Key, NoMemory};
use reincarnate::Fetching;
use sample_servers::AnyService;
use std::alloc::Global;
use test_data::Said;

pub(crate) const ECHO: u8 = 1;

pub(crate) const METER: u8 = 4;

/// One connection that is restored, with what is asked for it.
fn one(
    alloc: Global,
    kind: u8,
    marks: bool,
    entry: Logged<'_>,
    said: &mut Said,
) -> Result<u32, NoMemory> {
    let mut fetching = begin(alloc, kind, 1, marks)?;
    fetch(alloc, &mut fetching, &[entry], said)?;
    restore(alloc, fetching, said)
}

/// One connection that is restored, from marks if the log has them, with its name and what is asked for it.
pub(crate) fn restart(
    alloc: Global,
    name: &str,
    kind: u8,
    marks: bool,
    entry: Logged<'_>,
    said: &mut Said,
) {
    write!(said, "case {name}\n");
    if one(alloc, kind, marks, entry, said).is_err() {
        said.note(Err(NoMemory));
    }
}

/// An entry of the worked runs' client.
pub(crate) fn logged<'a>(bytes: &'a [u8], fin: u8, reads: &'a [u16], acked: u32) -> Logged<'a> {
    Logged {
        key: CLIENT,
        bytes,
        fin,
        done: 0,
        reads,
        acked,
        mark: NO_MARK,
    }
}

/// 64 entries of one byte each, of which every second one is done.
fn many_entries(alloc: Global) -> Result<Vec<Logged<'static>>, NoMemory> {
    let mut entries = Vec::new(alloc);
    for i in 0..64u16 {
        entries.push(Logged {
            key: Key { ip: 7, port: i },
            bytes: b"x",
            fin: 0,
            done: (i % 2) as u8,
            reads: &[1],
            acked: 0,
            mark: NO_MARK,
        })?;
    }
    Ok(entries)
}

/// Restores the connections of a log with these entries, and returns how many they are.
fn restored(alloc: Global, entries: &[Logged<'_>], passed: &mut Said) -> Result<u32, NoMemory> {
    let mut fetching = begin(alloc, ECHO, 64, false)?;
    fetch(alloc, &mut fetching, entries, passed)?;
    restore(alloc, fetching, passed)
}

/// 64 entries, of which only the count of connections is printed.
fn many(alloc: Global, said: &mut Said) -> Result<(), NoMemory> {
    let entries = many_entries(alloc)?;
    let count = restored(alloc, &entries, &mut Said::new(alloc))?;
    write!(said, "case 64_entries\nrestored {count}\n");
    Ok(())
}

/// 10,000 messages that answer no question, in the middle of a restart, which continues as if they hadn't arrived.
fn hostile_fetch(
    alloc: Global,
    fetching: &mut Fetching<AnyService>,
    entry: Logged<'_>,
    said: &mut Said,
) -> Result<(), NoMemory> {
    hand(alloc, fetching, &head_of(alloc, BOOT, 0, &entry)?)?;
    hand(alloc, fetching, &lens_of(alloc, BOOT, &entry, 0)?)?;
    let fitted = attack(alloc, fetching, &entry, 10_000)?;
    write!(said, "case hostile_messages\nfitted {fitted}\n");
    fetch(alloc, fetching, &[entry], said)
}

/// A restart that hostile messages meet.
fn hostile(alloc: Global, bytes: &[u8], said: &mut Said) -> Result<(), NoMemory> {
    let mut fetching = begin(alloc, METER, 1, false)?;
    let entry = logged(bytes, 0, &[2_048, 452], 5);
    hostile_fetch(alloc, &mut fetching, entry, said)?;
    restore(alloc, fetching, said)?;
    Ok(())
}

/// Connections whose client continues to send, and then some whose client has sent its FIN: the server's FIN is acknowledged, isn't, or isn't due before the
/// rest is read.
fn open_and_ending(alloc: Global, long: &[u8], said: &mut Said) {
    let long = logged(long, 0, &[2_048, 452], 5);
    restart(alloc, "streaming_questions", METER, false, long, said);
    let hello = logged(b"hello", 0, &[5], 0);
    restart(alloc, "crash_after_logged", ECHO, false, hello, said);
    let abc = logged(b"abc", 0, &[2, 1], 2);
    restart(alloc, "cuts_and_swallowing", METER, false, abc, said);
    let none = logged(b"", 0, &[], 0);
    restart(alloc, "nothing", ECHO, false, none, said);
    let ended = logged(b"", 1, &[0], 1);
    restart(alloc, "acknowledged_fin", ECHO, false, ended, said);
    let ending = logged(b"hello", 1, &[5, 0], 2);
    restart(alloc, "fin_not_acknowledged", ECHO, false, ending, said);
    let unread = logged(b"hello", 1, &[2], 0);
    restart(alloc, "fin_behind_the_rest", METER, false, unread, said);
}

/// All of them.
pub(crate) fn play_all(alloc: Global, said: &mut Said) -> Result<(), NoMemory> {
    let long = vec![in alloc; b'a'; 2_500]?;
    open_and_ending(alloc, &long, said);
    many(alloc, said)?;
    hostile(alloc, &long, said)?;
    with_marks(alloc, said);
    at_the_ends(alloc, said);
    hostile_marks(alloc, said)
}
