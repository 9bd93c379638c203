//! A connection that is restarted from a log: `restart SERVICE BYTES READ ROUNDS [MARKED]`. A log takes an entry of BYTES bytes, at most 2^24, in Data of 1,460
//! bytes and Reads of READ bytes, all of whose output is acknowledged. In each of ROUNDS rounds a server that starts anew fetches the entry, replays it and
//! splices the connection. SERVICE is `echo` or `meter`. Each message is spelled, read and answered as bytes. It prints how many questions the restarts
//! asked, how many connections they restored, and where the last one continues. With MARKED it is a log with marks, which takes a mark after the first MARKED
//! reads, and the restarts begin there.

ghost use Rattle.std.specs.Prelude.{◌≤◌, ◌^◌, IfSome};

use crate::logger::Logger;
use crate::{STREAM, without_memory};
use entry::{fill, mark};
use ft_io::NoMemory;
use restored::{Restored, restart};
use std::alloc::Global;
use std::io;

mod entry;
mod restored;

/// The most bytes of a read.
const READ: u16 = 2_048;

/// The most rounds.
const ROUNDS: u16 = 50_000;

/// What the words ask for.
#[derive(Clone, Copy)]
struct Work {
    kind: u8,
    bytes: u32,
    read: u16,
    rounds: u16,
    /// How many reads are below the mark, in a log with marks.
    marked: Option<u32>,
}

fn work_of(words: &[&str]) -> Option<Work>
    ensures bytes { IfSome result (λ work. work.bytes ≤ 2 ^ 24) }
    ensures read { IfSome result (λ work. work.read ≤ 2048) }
{
    let [service, bytes, read, rounds, marked @ ..] = words else {
        return None;
    };
    let kind = if *service == "meter" { 4 } else { 1 };
    let (Ok(bytes), Ok(read), Ok(rounds)) = (
        bytes.parse::<u32>(),
        read.parse::<u16>(),
        rounds.parse::<u16>(),
    ) else {
        return None;
    };
    let marked = match marked {
        [] => None,
        [reads] => Some(marked_of(reads, bytes, read)?),
        _ => return None,
    };
    let fits = bytes <= STREAM && (1..=READ).contains(&read) && rounds <= ROUNDS;
    fits.then_some(Work {
        kind,
        bytes,
        read,
        rounds,
        marked,
    })
}

/// How many reads are below the mark: at least one, and no more than there are of this size.
fn marked_of(reads: &str, bytes: u32, read: u16) -> Option<u32> {
    let reads: u32 = reads.parse().ok()?;
    let within = u64::from(reads) * u64::from(read) <= u64::from(bytes);
    (reads >= 1 && within).then_some(reads)
}

fn run(alloc: Global, work: Work) -> Result<Restored, NoMemory>
    requires bytes { work.bytes ≤ 2 ^ 24 }
    requires read { work.read ≤ 2048 }
{
    let mut logger = Logger::new(alloc, work.marked.is_some());
    restart_all(alloc, work, &mut logger)
}

/// Puts the entry into an empty log, with its mark where the log has marks, and restarts from there.
fn restart_all(alloc: Global, work: Work, logger: &mut Logger) -> Result<Restored, NoMemory>
    requires bytes { work.bytes ≤ 2 ^ 24 }
    requires read { work.read ≤ 2048 }
{
    logger.begin(alloc)?;
    fill(alloc, logger, work.bytes, work.read)?;
    if let Some(reads) = work.marked {
        mark(alloc, logger, work.kind, work.read, reads)?;
    }
    let mut restored = Restored::NONE;
    for round in 0..work.rounds {
        let boot = u64::from(round) + 2;
        restart(alloc, logger, work.kind, boot, &mut restored)?;
    }
    Ok(restored)
}

/// Plays the restarts of these words, and prints what came of them. Its status.
pub(crate) fn play<R: AllocGlobal + Print + Eprint>(rt: &R, words: &[&str]) -> io::Result<u8> {
    let Some(work) = work_of(words) else {
        eprintln!(rt;
            "restart SERVICE BYTES READ ROUNDS [MARKED], of at most 16777216 bytes, reads of 1 to 2048, at most 50000 rounds, and 1 to BYTES / READ reads marked"
        )?;
        return Ok(2);
    };
    let Ok(restored) = run(rt.alloc(), work) else {
        return without_memory(rt);
    };
    println!(rt;
        "{} questions, {} connections, {} bytes pending, delta {}",
        restored.questions, restored.connections, restored.pending, restored.delta
    )?;
    Ok(0)
}
