//! Eight connections with an echo service, one after another: `connection BYTES WRITE` has each client, a plain endpoint with a key of its own, write so many
//! bytes in writes of WRITE bytes and compare what comes back, and then close. The server's side is a wrapped connection with a log after it. Segments and
//! messages pass as bytes. It prints the segments of the clients, of the connections and the messages to the log, how many bytes came back, and how many
//! connections ended.

use crate::logger::Logger;
use crate::{CLIENT, STREAM, without_memory};
use client::Work;
use exchange::Exchange;
use ft_io::{Key, NoMemory};
use server::Backend;
use std::alloc::Global;
use std::io;
use tcp_endpoint::Outbox;
use wrapped_conn::TurnOut;

mod client;
mod exchange;
mod server;

/// How many connections there are.
const CONNECTIONS: u16 = 8;

/// What the run did.
#[derive(Clone, Copy, Debug)]
struct Totals {
    client_segments: u64,
    server_segments: u64,
    messages: u64,
    echoed: u64,
    /// How many connections echoed all and ended.
    whole: u16,
}

impl Totals {
    const NONE: Totals = Totals {
        client_segments: 0,
        server_segments: 0,
        messages: 0,
        echoed: 0,
        whole: 0,
    };

    fn add(&mut self, exchange: &Exchange) {
        self.client_segments = self
            .client_segments
            .saturating_add(exchange.client.segments);
        self.server_segments = self
            .server_segments
            .saturating_add(exchange.server.segments);
        self.echoed = self
            .echoed
            .saturating_add(u64::from(exchange.client.echoed));
        self.whole = self.whole.saturating_add(u16::from(exchange.is_whole()));
    }
}

fn work_of(words: &[&str]) -> Option<Work> {
    let [bytes, write] = words else {
        return None;
    };
    let (Ok(bytes), Ok(write)) = (bytes.parse::<u32>(), write.parse::<usize>()) else {
        return None;
    };
    let fits = (1..=STREAM).contains(&bytes) && (1..=limits::TEXT).contains(&write);
    fits.then_some(Work { bytes, write })
}

/// All connections, with an empty log. What they did.
fn run(alloc: Global, work: Work) -> Result<Totals, NoMemory> {
    let mut packets = Outbox::new(alloc)?;
    let answers = Outbox::new(alloc)?;
    let turn = TurnOut::new(alloc)?;
    let mut backend = Backend {
        turn,
        answers,
        logger: Logger::new(alloc, false),
    };
    connect_all(alloc, work, &mut packets, &mut backend)
}

/// .. with this log, which is empty, and with room for what the clients send.
fn connect_all(
    alloc: Global,
    work: Work,
    packets: &mut Outbox,
    backend: &mut Backend,
) -> Result<Totals, NoMemory> {
    backend.logger.begin(alloc)?;
    let mut totals = Totals::NONE;
    for i in 0..CONNECTIONS {
        let key = Key {
            ip: CLIENT.ip,
            port: CLIENT.port + i,
        };
        connect(alloc, work, key, packets, backend, &mut totals)?;
    }
    totals.messages = backend.logger.messages;
    Ok(totals)
}

/// The connection of one client. What it did is added to the totals.
fn connect(
    alloc: Global,
    work: Work,
    key: Key,
    packets: &mut Outbox,
    backend: &mut Backend,
    totals: &mut Totals,
) -> Result<(), NoMemory> {
    backend.logger.open(alloc, key)?;
    let mut exchange = Exchange::new(alloc, work, key)?;
    exchange.run(alloc, packets, backend, totals)
}

/// Plays the connections of these words, and prints what came of them. Its status.
pub(crate) fn play<R: AllocGlobal + Print + Eprint>(rt: &R, words: &[&str]) -> io::Result<u8> {
    let Some(work) = work_of(words) else {
        eprintln!(rt; "connection BYTES WRITE, of 1 to 16777216 bytes and writes of 1 to 1460")?;
        return Ok(2);
    };
    let Ok(totals) = run(rt.alloc(), work) else {
        return without_memory(rt);
    };
    println!(rt;
        "clients {} segments\nconnections {} segments\nlog {} messages\nechoed {} bytes\nended {} connections",
        totals.client_segments, totals.server_segments, totals.messages, totals.echoed, totals.whole
    )?;
    Ok(u8::from(totals.whole < CONNECTIONS))
}
