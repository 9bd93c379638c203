//! A server with live connections and its log: `node KIND CLIENTS SIZE ROUNDS TICKS`. It opens 1 to 64 connections to a service of this kind (1 is Echo, 4 is
//! Meter). In each of ROUNDS rounds every client sends a segment of SIZE bytes, at most 1,460, which is logged; with Echo it acknowledges all that came
//! back before. With SIZE 0 each segment lies before what is taken, so that it is answered by a pure ACK. Then TICKS ticks pass. Packets and
//! messages pass as bytes. It prints how many turns the server had after the openings, what it sent to the clients, how many messages to the log, and the
//! numbers of the first connection.

ghost use Rattle.std.specs.Prelude.{◌≤◌, IfSome};

use crate::without_memory;
use ft_io::NoMemory;
use host::{Counts, Host};
use limits::{ENTRIES, SEGMENT};
use std::alloc::Global;
use std::io;
use wrapped_conn::Inside;

mod host;

/// The most connections.
const CLIENTS: u16 = ENTRIES;

/// What the words ask for.
#[derive(Clone, Copy)]
struct Work {
    kind: u8,
    clients: u16,
    size: u16,
    rounds: u32,
    ticks: u32,
}

fn work_of(words: &[&str]) -> Option<Work>
    ensures { IfSome result (λ work. work.size ≤ 1460) }
{
    let [kind, clients, size, rounds, ticks] = words else {
        return None;
    };
    let (Ok(kind), Ok(clients), Ok(size)) = (
        kind.parse::<u8>(),
        clients.parse::<u16>(),
        size.parse::<u16>(),
    ) else {
        return None;
    };
    let (Ok(rounds), Ok(ticks)) = (rounds.parse::<u32>(), ticks.parse::<u32>()) else {
        return None;
    };
    let fits = (1..=CLIENTS).contains(&clients) && size <= SEGMENT;
    fits.then_some(Work {
        kind,
        clients,
        size,
        rounds,
        ticks,
    })
}

/// What the server did, and the numbers of the first connection.
fn run(alloc: Global, work: Work) -> Result<(Counts, Option<Inside>), NoMemory>
    requires { work.size ≤ 1460 }
{
    let mut host = Host::new(alloc, work.kind)?;
    run_on(alloc, work, &mut host)
}

/// .. with this server, which is just booted.
fn run_on(alloc: Global, work: Work, host: &mut Host) -> Result<(Counts, Option<Inside>), NoMemory>
    requires { work.size ≤ 1460 }
{
    host.open(alloc, work.clients)?;
    host.play(alloc, work.clients, work.size, work.rounds)?;
    host.tick(alloc, work.ticks)?;
    Ok((host.counts, host.first()))
}

/// Plays the rounds of these words, and prints what came of them. Its status.
pub(crate) fn play<R: AllocGlobal + Print + Eprint>(rt: &R, words: &[&str]) -> io::Result<u8> {
    let Some(work) = work_of(words) else {
        eprintln!(rt;
            "node KIND CLIENTS SIZE ROUNDS TICKS, of 1 to 64 clients and at most 1460 bytes"
        )?;
        return Ok(2);
    };
    let Ok((counts, first)) = run(rt.alloc(), work) else {
        return without_memory(rt);
    };
    println!(rt;
        "{} turns, {} packets to clients\n{} bytes of text, {} messages to the log",
        counts.turns, counts.packets, counts.text, counts.messages
    )?;
    if let Some(now) = first {
        println!(rt;
            "taken {}, logged {}, made {} reads, sent {}",
            now.taken, now.answered, now.reads, now.sent
        )?;
    }
    Ok(0)
}
