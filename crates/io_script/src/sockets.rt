//! Std's UDP socket as a link.

use ft_io::{Addr, Failed, Link, Receipt};
use ft_system::UdpLink;
use std::net::Net;
use std::time::Clock;
use test_data::{Said, bind_somewhere};

/// The first of the ports that are tried.
pub const PORT: u16 = 7431;

/// Receives, at most eight times, until there is anything but silence: a slow machine may be 20 ms late.
fn await_datagram<L: Link>(link: &mut L, buf: &mut [u8; 2048]) -> Result<Receipt, Failed> {
    for _ in 0..8 {
        let receipt = link.recv(buf);
        if !matches!(receipt, Ok(Receipt::Nothing)) {
            return receipt;
        }
    }
    Ok(Receipt::Nothing)
}

/// Sends itself a datagram of this many bytes, and says its length and first bytes when it arrives.
fn send_round<L: Link>(link: &mut L, here: Addr, text: &[u8], said: &mut Said) {
    said.done(link.send(here, text).is_ok());
    let mut buf = [b'.'; 2048];
    match await_datagram(link, &mut buf) {
        Ok(Receipt::Got { len, from }) if from == here => {
            said.value(len);
            let same = buf[..len.min(2048)] == text[..len.min(text.len())];
            said.word(if same { b"the same" } else { b"other bytes" });
        }
        Ok(Receipt::Got { .. }) => said.word(b"elsewhere"),
        Ok(Receipt::Nothing) => said.word(b"silent"),
        Err(Failed) => said.word(b"failed"),
    }
}

/// Datagrams of 5, 0, 2,048 and 3,000 bytes to itself, and a receive in silence; then another link asks for the same address, and sends. Says what each
/// returned, and how many faults there were besides binds to other ports.
fn write_rounds<L: Link>(link: &mut L, second: &mut L, here: Addr, said: &mut Said) {
    let others = link.bind_faults();
    for text in [b"hello".as_slice(), b"", &[7; 2048], &[9; 3000]] {
        send_round(link, here, text, said);
    }
    let mut buf = [0u8; 2048];
    let silent = matches!(link.recv(&mut buf), Ok(Receipt::Nothing));
    said.word(if silent { b"silent" } else { b"not silent" });
    said.value(link.faults().saturating_sub(others));
    said.done(second.bind(here).is_ok());
    said.done(second.send(here, b"early").is_ok());
    said.value(second.faults());
    said.value(second.bind_faults());
}

/// A receive before the bind, and then what `write_rounds` does.
pub fn send_to_itself<R: Net + Clock>(system: &R, said: &mut Said) {
    let mut link = UdpLink::new(system);
    let mut second = UdpLink::new(system);
    let mut buf = [0u8; 2048];
    said.done(link.recv(&mut buf).is_ok());
    match bind_somewhere(&mut link, PORT) {
        Some(here) => write_rounds(&mut link, &mut second, here, said),
        None => said.word(b"no port is free"),
    }
}

/// The first of the ports that are tried for two links with one port, and how many are.
const SHARED: u16 = 7478;

const TRIED: u16 = 16;

/// Binds both links to one port, the first at 127.0.0.1 and the second at 127.0.0.2. The second one's address, or `None` where no port is free.
fn bind_apart<L: Link>(near: &mut L, far: &mut L) -> Option<Addr> {
    for more in 0..TRIED {
        let port = SHARED.wrapping_add(more);
        let there = Addr {
            ip: 0x7F00_0002,
            port,
        };
        let here = Addr {
            ip: 0x7F00_0001,
            port,
        };
        if near.bind(here).is_ok() && far.bind(there).is_ok() {
            return Some(there);
        }
    }
    None
}

/// Says from which address a receive got a datagram.
fn write_sender<L: Link>(link: &mut L, said: &mut Said) {
    let mut buf = [b'.'; 2048];
    match await_datagram(link, &mut buf) {
        Ok(Receipt::Got { len, from }) => {
            said.word(&buf[..len.min(2048)]);
            said.value(from.ip);
        }
        Ok(Receipt::Nothing) => said.word(b"silent"),
        Err(Failed) => said.word(b"failed"),
    }
}

/// A link at 127.0.0.1 and one at 127.0.0.2, with the same port: the first sends to the second, and the second to the first. Says what each received, and from
/// which address.
pub fn send_apart<R: Net + Clock>(system: &R, said: &mut Said) {
    let mut near = UdpLink::new(system);
    let mut far = UdpLink::new(system);
    let Some(there) = bind_apart(&mut near, &mut far) else {
        return said.word(b"no port is free");
    };
    let here = Addr {
        ip: 0x7F00_0001,
        port: there.port,
    };
    said.done(near.send(there, b"to the second").is_ok());
    write_sender(&mut far, said);
    said.done(far.send(here, b"to the first").is_ok());
    write_sender(&mut near, said);
}
