//! What passes on the wire, read and written many times, and a log that takes it. The first word of a command says what:
//!
//! - `packets BYTES ROUNDS [set]`, for `bench/packets.sh`: packets ([`packets`]);
//! - `messages WHAT KIND ROUNDS`, for `bench/packets.sh`: messages ([`messages`]);
//! - `lines write CYCLES ROUNDS`, `lines read ROUNDS`, for `bench/replay.sh`: the lines of a report, and a schedule ([`lines`]);
//! - `link BYTES ROUNDS`, for `bench/link.sh`: datagrams of a UDP socket ([`link`]);
//! - `log READS BYTES ROUNDS [marked]`, `log marks READS ROUNDS`, for `bench/log.sh`, and `log twin WHO COUNT BURST`, for `bench/twin.sh`: a log, or two that
//!   act as one ([`log`]).
#![tactic(auto)]

use anyhow::{Result, bail};
use ft_io::{Key, Source};
use ft_system::WriteSink;
use std::io;
use std::net::Net;
use std::time::Clock;

mod cycle;
mod lines;
mod link;
mod log;
mod messages;
mod packets;

/// The address and the port of the client.
const CLIENT: Key = Key {
    ip: 0xC000_0201,
    port: 40_000,
};

/// Does what the words of a command ask for, and prints what came of it. A schedule is read from the input.
pub fn run<R: AllocGlobal + Print + Net + Clock, I: Source>(
    rt: &R,
    command: &[&str],
    input: &mut I,
) -> Result<()> {
    match command {
        ["packets", words @ ..] => print(rt, packets::total(rt.alloc(), words), ""),
        ["messages", words @ ..] => print(rt, messages::total(rt.alloc(), words), ""),
        ["lines", "write", words @ ..] => {
            lines::write(rt.alloc(), words, &mut WriteSink::new(io::writer(rt)))
        }
        ["lines", "read", words @ ..] => print(rt, lines::read(rt.alloc(), words, input), ""),
        ["log", words @ ..] => log::run(rt, words),
        ["link", words @ ..] => print(rt, link::came(rt, words), " bytes"),
        _ => bail!("packets|messages|lines|link|log WORD.."),
    }
}

/// Prints a number and its unit. Its error is handed on.
fn print(rt: &impl Print, number: Result<u64>, unit: &str) -> Result<()> {
    println!(rt; "{}{unit}", number?)?;
    Ok(())
}
