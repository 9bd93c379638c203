//! A client and a server endpoint in memory: `echo BYTES WRITE [WAY]` has the client write so many bytes in writes of WRITE bytes, the server echo them, and
//! the client compare the echo and close. One segment is under way at a time; with a WAY a window of them is, which come in order (`window`), with each two
//! swapped (`swapped`), or with one packet of 100 lost (`lossy`). It prints the segments that each side sent and the bytes that came back, and the ticks, if
//! there were any. It fails if the echo differs or isn't completed.

use crate::without_memory;
use exchange::{Exchange, Way};
use ft_io::NoMemory;
use std::io;

mod exchange;

/// What the words ask for.
#[derive(Clone, Copy, Debug)]
struct Work {
    bytes: u32,
    /// The bytes of a write, at most those of a segment.
    write: usize,
    way: Way,
}

fn work_of(words: &[&str]) -> Option<Work> {
    let (bytes, write, way) = match words {
        [bytes, write] => (bytes, write, Way::Single),
        [bytes, write, "window"] => (bytes, write, Way::Window),
        [bytes, write, "swapped"] => (bytes, write, Way::Swapped),
        [bytes, write, "lossy"] => (bytes, write, Way::Lossy),
        _ => return None,
    };
    let (Ok(bytes), Ok(write)) = (bytes.parse::<u32>(), write.parse::<usize>()) else {
        return None;
    };
    let fits = (1..1 << 30).contains(&bytes) && (1..=limits::TEXT).contains(&write);
    fits.then_some(Work { bytes, write, way })
}

/// Plays the echo of these words, and prints what came of it. Its status.
pub(crate) fn play<R: AllocGlobal + Print + Eprint>(rt: &R, words: &[&str]) -> io::Result<u8> {
    let Some(work) = work_of(words) else {
        eprintln!(rt;
            "echo BYTES WRITE [window|swapped|lossy], of 1 to 1073741823 bytes and writes of 1 to 1460"
        )?;
        return Ok(2);
    };
    match Exchange::new(rt.alloc(), work.bytes, work.write, work.way) {
        Ok(mut exchange) => run(rt, &mut exchange),
        Err(NoMemory) => without_memory(rt),
    }
}

/// Plays an exchange to its end, and prints what each side sent, and what came back. Its status.
fn run(rt: &(impl Print + Eprint), exchange: &mut Exchange) -> io::Result<u8> {
    exchange.run();
    let (client, server) = (exchange.client.segments, exchange.server.segments);
    let client_name = exchange.client.state().name;
    let server_name = exchange.server.state().name;
    let (echoed, ticks) = (exchange.echoed, exchange.ticks);
    println!(rt;
        "client {client} segments, {client_name:?}\nserver {server} segments, {server_name:?}\nechoed {echoed} bytes"
    )?;
    if ticks > 0 {
        println!(rt; "{ticks} ticks")?;
    }
    if exchange.is_whole() {
        return Ok(0);
    }
    eprintln!(rt; "the echo differs")?;
    Ok(1)
}
