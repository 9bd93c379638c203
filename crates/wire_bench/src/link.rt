//! A UDP socket that sends datagrams to itself: `link BYTES ROUNDS` sends ROUNDS datagrams of BYTES bytes through std's UDP socket, receives
//! after each send, and gives how many bytes came back.

use anyhow::{Context, Result, bail, ensure};
use ft_io::{Link, Receipt};
use ft_system::UdpLink;
use std::net::Net;
use std::time::Clock;
use test_data::bind_somewhere;

/// The first of the ports that are tried.
const PORT: u16 = 7451;

/// How many bytes of the datagrams of these words came back.
pub(crate) fn came<R: Net + Clock>(rt: &R, words: &[&str]) -> Result<u64> {
    let [bytes, rounds] = words else {
        bail!("link BYTES ROUNDS");
    };
    let bytes: usize = bytes.parse().context("BYTES")?;
    let rounds: u32 = rounds.parse().context("ROUNDS")?;
    ensure!(bytes <= 2048, "BYTES is at most 2048");
    let text = [b'a'; 2048];
    exchange(&mut UdpLink::new(rt), &text[..bytes], rounds)
}

/// Binds the link, then sends to it and receives so many times, and returns how many bytes came back. If none comes for 20 milliseconds, the receive
/// gives nothing, and is made once more.
fn exchange<L: Link>(link: &mut L, text: &[u8], rounds: u32) -> Result<u64> {
    let Some(here) = bind_somewhere(link, PORT) else {
        bail!("no port is free");
    };
    let mut buf = [0u8; 2048];
    let mut came = 0u64;
    for _ in 0..rounds {
        if link.send(here, text).is_err() {
            continue;
        }
        let mut receipt = link.recv(&mut buf);
        if let Ok(Receipt::Nothing) = receipt {
            receipt = link.recv(&mut buf);
        }
        if let Ok(Receipt::Got { len, .. }) = receipt {
            came = came.wrapping_add(len as u64);
        }
    }
    Ok(came)
}
