//! Restarts that begin at marks.

use crate::peers::CLIENT;
use crate::restarts::cases::{ECHO, METER, logged, restart};
use crate::restarts::logged::{Logged, Marked, head_of, held_of, lens_of, part_of};
use crate::restarts::play::{BOOT, begin, fetch, hand, restore};
use ft_io::{Key, NoMemory};
use reincarnate::Fetching;
use sample_servers::AnyService;
use std::alloc::Global;
use test_data::Said;

const LINE: u8 = 2;

const TRANSFER: u8 = 3;

/// A request of 300 bytes and one of 5, which the first read cuts in two. Its mark has 300 modulo 251 and the second request's first two bytes.
const REQUESTS: &[u8] = &[0, 0, 1, 44, 0, 0, 0, 5];

const CUT_IN_TWO: Marked<'static> = Marked {
    reads: 1,
    length: 6,
    made: 300,
    state: &[49, 0, 0],
};

/// The mark of one read of 5 bytes, all of which the service has sent back.
const ECHOED: Marked<'static> = Marked {
    reads: 1,
    length: 5,
    made: 5,
    state: b"",
};

/// One connection that is restored from its mark, with what is asked for it.
fn from_mark(
    alloc: Global,
    name: &str,
    kind: u8,
    entry: Logged<'_>,
    mark: Marked<'_>,
    said: &mut Said,
) {
    let entry = Logged { mark, ..entry };
    restart(alloc, name, kind, true, entry, said);
}

/// Connections with a mark, whose reads end at it or continue.
pub(crate) fn with_marks(alloc: Global, said: &mut Said) {
    with_empty_states(alloc, said);
    with_states(alloc, said);
}

/// The services of these marks have nothing to save.
fn with_empty_states(alloc: Global, said: &mut Said) {
    from_mark(
        alloc,
        "restart_from_mark",
        ECHO,
        logged(b"hello", 0, &[5], 5),
        ECHOED,
        said,
    );
    from_mark(
        alloc,
        "reads_above_the_mark",
        METER,
        logged(b"abc", 0, &[2, 1], 2),
        Marked {
            reads: 1,
            length: 2,
            made: 2,
            state: b"",
        },
        said,
    );
}

/// The services of these marks hold bytes, or a count.
fn with_states(alloc: Global, said: &mut Said) {
    from_mark(
        alloc,
        "state_with_held_bytes",
        TRANSFER,
        logged(REQUESTS, 0, &[6, 2], 302),
        CUT_IN_TWO,
        said,
    );
    from_mark(
        alloc,
        "state_with_a_count",
        LINE,
        logged(b"one\ntwo\nthree\n", 0, &[8, 6], 12),
        Marked {
            reads: 1,
            length: 8,
            made: 12,
            state: &[0, 0, 0, 0, 0, 0, 0, 2],
        },
        said,
    );
}

/// Connections whose end or rest is above the mark, or that have none.
pub(crate) fn at_the_ends(alloc: Global, said: &mut Said) {
    from_mark(
        alloc,
        "closing_read_above_the_mark",
        ECHO,
        logged(b"hello", 1, &[5, 0], 5),
        ECHOED,
        said,
    );
    from_mark(
        alloc,
        "rest_above_the_mark",
        ECHO,
        logged(b"helloworld", 0, &[5], 5),
        ECHOED,
        said,
    );
    let none = logged(b"hello", 0, &[5], 0);
    from_mark(alloc, "no_mark", ECHO, none, none.mark, said);
    let unread = logged(b"", 0, &[], 0);
    from_mark(alloc, "no_reads", ECHO, unread, unread.mark, said);
    let ended = Logged {
        done: 1,
        ..logged(b"hello", 1, &[5, 0], 6)
    };
    from_mark(alloc, "ended", ECHO, ended, ECHOED, said);
}

/// A message that isn't the awaited mark: one of another boot or another key, one that the entry can't have, one whose state isn't read back, or another
/// answer.
fn wrong(alloc: Global, entry: &Logged<'_>, drawn: u32) -> Result<Vec<u8>, NoMemory> {
    let mark = entry.mark;
    let more = 1 + drawn / 10 % 1_000;
    let wrong = match drawn % 10 {
        0 => return held_of(alloc, 1, entry.key, mark),
        1 => return held_of(alloc, BOOT, Key { ip: 9, port: 9 }, mark),
        2 => return part_of(alloc, BOOT, entry, 0),
        3 => return lens_of(alloc, BOOT, entry, 0),
        4 => Marked {
            reads: 2 + more,
            ..mark
        },
        5 => Marked {
            length: 8 + more,
            ..mark
        },
        6 => Marked {
            made: 302 + more,
            ..mark
        },
        7 => Marked {
            reads: 2,
            length: 1,
            ..mark
        },
        8 => Marked {
            state: &[251],
            ..mark
        },
        _ => Marked {
            state: &[49, 0, 0, 0, 0],
            ..mark
        },
    };
    held_of(alloc, BOOT, entry.key, wrong)
}

/// 1,000 such messages while a mark is awaited, and then three equal marks. The restart continues as if the former hadn't arrived. Once the mark has come, it
/// is no answer any more. How many of all are taken is said.
fn hostile_fetch(
    alloc: Global,
    fetching: &mut Fetching<AnyService>,
    said: &mut Said,
) -> Result<(), NoMemory> {
    let entry = Logged {
        mark: CUT_IN_TWO,
        ..logged(REQUESTS, 0, &[6, 2], 302)
    };
    hand(alloc, fetching, &head_of(alloc, BOOT, 0, &entry)?)?;
    let mut fitted = 0u32;
    for drawn in 0..1_000u32 {
        if hand(alloc, fetching, &wrong(alloc, &entry, drawn)?)? {
            fitted = fitted.saturating_add(1);
        }
    }
    let held = held_of(alloc, BOOT, CLIENT, CUT_IN_TWO)?;
    for _ in 0..3u32 {
        if hand(alloc, fetching, &held)? {
            fitted = fitted.saturating_add(1);
        }
    }
    write!(said, "case hostile_marks\nfitted {fitted}\n");
    fetch(alloc, fetching, &[entry], said)
}

/// A restart that hostile marks meet.
pub(crate) fn hostile_marks(alloc: Global, said: &mut Said) -> Result<(), NoMemory> {
    let mut fetching = begin(alloc, TRANSFER, 1, true)?;
    hostile_fetch(alloc, &mut fetching, said)?;
    restore(alloc, fetching, said)?;
    Ok(())
}
