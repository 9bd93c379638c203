//! A link in memory.

use crate::numbers;
use ft_io::{Addr, Failed, Link, NoMemory, Octets, Receipt};
use ft_system::{Arrival, MemLink};
use std::alloc::Global;
use test_data::Said;

const HOME: Addr = Addr {
    ip: 0x7F00_0001,
    port: 7007,
};

const PEER: Addr = Addr {
    ip: 0x7F00_0001,
    port: 7008,
};

/// A short datagram, silence, one longer than the buffer, and one of length 0.
fn four_arrivals(alloc: Global) -> Result<Vec<Arrival>, NoMemory> {
    let short = b"hello".to_vec(alloc)?;
    let long = vec![in alloc; b'x'; 3000]?;
    let empty = Vec::new(alloc);
    Ok(vec![in alloc; come(short), Arrival::Nothing, come(long), come(empty)]?)
}

fn come(bytes: Vec<u8>) -> Arrival {
    Arrival::Datagram {
        from: PEER,
        bytes: Octets::new(bytes),
    }
}

/// Says what a receive returned: the length of a datagram and its first five bytes, `silent` or `failed`; `elsewhere` where the
/// datagram isn't from the peer.
fn write_received(receipt: Result<Receipt, Failed>, buf: &[u8], said: &mut Said) {
    match receipt {
        Ok(Receipt::Got { len, from }) if from == PEER => {
            said.value(len);
            said.word(&buf[..len.min(5).min(buf.len())]);
        }
        Ok(Receipt::Got { .. }) => said.word(b"elsewhere"),
        Ok(Receipt::Nothing) => said.word(b"silent"),
        Err(Failed) => said.word(b"failed"),
    }
}

/// Five receives: what each returned, and the counts of faults and of recorded calls.
pub fn receive_five(alloc: Global, fails: &str, said: &mut Said) -> Result<(), NoMemory> {
    let fails = numbers(alloc, fails)?;
    let arrivals = four_arrivals(alloc)?;
    let mut link = MemLink::new(alloc, arrivals, Vec::new(alloc), fails, false);
    for _ in 0..5 {
        let mut buf = [1u8; 2048];
        let receipt = link.recv(&mut buf);
        write_received(receipt, &buf, said);
    }
    write_counts(&link, said);
    Ok(())
}

/// A bind, which fails where all do, and two sends: what each returned, and the counts.
pub fn send_two(
    alloc: Global,
    fails: &str,
    bind_fails: bool,
    said: &mut Said,
) -> Result<(), NoMemory> {
    let fails = numbers(alloc, fails)?;
    let mut link = MemLink::new(alloc, Vec::new(alloc), fails, Vec::new(alloc), bind_fails);
    said.done(link.bind(HOME).is_ok());
    said.done(link.send(PEER, b"abc").is_ok());
    said.done(link.send(PEER, b"").is_ok());
    write_counts(&link, said);
    Ok(())
}

/// Three binds, some of which are listed to fail: what each returned, and the counts.
pub fn bind_three(alloc: Global, fails: &str, said: &mut Said) -> Result<(), NoMemory> {
    let fails = numbers(alloc, fails)?;
    let arrivals = four_arrivals(alloc)?;
    let none = Vec::new(alloc);
    let mut link = MemLink::with_bind_fails(alloc, arrivals, none, Vec::new(alloc), fails);
    for _ in 0..3 {
        said.done(link.bind(HOME).is_ok());
    }
    write_counts(&link, said);
    Ok(())
}

/// Says the counts of faults, of failed binds, and of recorded calls.
fn write_counts(link: &MemLink, said: &mut Said) {
    said.value(link.faults());
    said.value(link.bind_faults());
    said.value(link.reported().map_or(0, |calls| calls.len() as u64));
}
