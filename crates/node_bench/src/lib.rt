//! Endpoints, services, and the server and its parts with a log, in memory. The first word of a command says what:
//!
//! - `echo BYTES WRITE [WAY]`, for `bench/endpoint.sh`: two endpoints that hand their packets to each other ([`echo`]);
//! - `service NAME`, for `bench/services.sh` and `bench/web.sh`: a service over the input ([`service`]);
//! - `connection BYTES WRITE`, for `bench/connection.sh`: eight wrapped connections, one after another ([`connection`]);
//! - `node KIND CLIENTS SIZE ROUNDS TICKS`, for `bench/node.sh`: a server with live connections ([`node`]);
//! - `restart SERVICE BYTES READ ROUNDS [MARKED]`, for `bench/restart.sh`: restarts of a connection from the log ([`restart`]).
//!
//! Statuses: 0, 1 where an echo differs, a connection doesn't end or a service fails, 2 for wrong words, 3 if memory runs out.
#![tactic(auto)]

use ft_io::{Addr, Key};
use limits::STREAM;
use std::io;
use std::io::Read;

mod connection;
mod echo;
mod logger;
mod node;
mod restart;
mod service;

/// The server's address.
const SERVER: Addr = Addr {
    ip: 0xC000_0264,
    port: 7,
};

/// The address and the port of the client, or of the first of several.
const CLIENT: Key = Key {
    ip: 0xC000_0201,
    port: 40_000,
};

/// Does what the words of a command ask for, and prints what came of it. A service is run over the input. The status.
pub fn run<R: AllocGlobal + Print + Eprint, I: Read>(
    rt: &R,
    command: &[&str],
    input: &mut I,
) -> io::Result<u8> {
    match command {
        ["echo", words @ ..] => echo::play(rt, words),
        ["service", name] => service::play(rt, name, input),
        ["connection", words @ ..] => connection::play(rt, words),
        ["node", words @ ..] => node::play(rt, words),
        ["restart", words @ ..] => restart::play(rt, words),
        _ => {
            eprintln!(rt; "echo|connection|node|restart WORD.., or service NAME")?;
            Ok(2)
        }
    }
}

/// Prints that there is no memory. The status of that.
fn without_memory(rt: &impl Eprint) -> io::Result<u8> {
    eprintln!(rt; "no memory is left")?;
    Ok(3)
}
