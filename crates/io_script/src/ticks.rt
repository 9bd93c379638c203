//! When a UDP socket gives nothing though datagrams come, and when it does so in silence.

use crate::sockets::PORT;
use crate::watch::Watch;
use ft_io::{Addr, Link, NoMemory, Receipt};
use ft_system::UdpLink;
use std::alloc::Global;
use std::net::Net;
use std::time::{Clock, Duration, Instant};
use std::{io, thread};
use test_data::{Said, bind_somewhere};

/// The listed times, in milliseconds; `-` is a clock that can't be read.
fn listed(alloc: Global, times: &str) -> Result<Vec<Option<u64>>, NoMemory> {
    let mut listed = Vec::new(alloc);
    for time in times.split(' ') {
        let digits = time.strip_suffix('+').unwrap_or(time);
        listed.push(digits.parse::<u64>().ok())?;
    }
    Ok(listed)
}

/// Says what the link receives at each time but the first. A datagram is sent to it before: by itself where `+` follows the time, and else by the stranger.
fn write_at_times<L: Link, M: Link>(link: &mut L, stranger: &mut M, times: &str, said: &mut Said) {
    let (Some(here), Some(_)) = (bind_somewhere(link, PORT), bind_somewhere(stranger, PORT)) else {
        return said.word(b"no port is free");
    };
    for time in times.split(' ').skip(1) {
        // One that isn't sent shows in what is received.
        let _ = if time.ends_with('+') {
            link.send(here, b"own")
        } else {
            stranger.send(here, b"stray")
        };
        write_receive(link, said);
    }
    said.value(link.faults().saturating_sub(link.bind_faults()));
}

/// A bind at the first of the listed times, in milliseconds, and a receive at each later one, `-` for a clock that can't be read.
/// Before each receive a datagram is sent to the link, so that something always comes: by the link itself where `+` follows the time,
/// and else by a stranger. Says what each receive returned, and the count of faults.
pub fn by_the_list<R: Net + Clock>(
    system: &R,
    alloc: Global,
    times: &str,
    said: &mut Said,
) -> Result<(), NoMemory> {
    let listed = listed(alloc, times)?;
    let watch = Watch::new(system, listed.as_slice());
    let mut stranger = UdpLink::new(system);
    write_at_times(&mut UdpLink::new(&watch), &mut stranger, times, said);
    Ok(())
}

/// Receives once, and says what that gave.
fn write_receive<L: Link>(link: &mut L, said: &mut Said) {
    let mut buf = [0u8; 2048];
    said.word(match link.recv(&mut buf) {
        Ok(Receipt::Got { .. }) => b"got",
        Ok(Receipt::Nothing) => b"nothing",
        Err(_) => b"failed",
    });
}

/// Five receives in silence: says whether the quickest of the last four took 15 to 200 ms, and else how long it took.
pub fn in_silence<C: Clock, L: Link>(clock: &C, link: &mut L, said: &mut Said) {
    if bind_somewhere(link, PORT).is_none() {
        return said.word(b"no port is free");
    }
    let mut quickest = u128::MAX;
    for round in 0..5u32 {
        match silent_millis(clock, link) {
            Ok(Some(millis)) if round > 0 => quickest = quickest.min(millis),
            Ok(Some(_)) => (),
            _ => said.word(b"not silent"),
        }
    }
    if (15..=200).contains(&quickest) {
        return said.word(b"nothing after 15 to 200 ms");
    }
    said.word(b"nothing after ms");
    said.value(u64::try_from(quickest).unwrap_or(u64::MAX));
}

/// How many milliseconds a receive took, or `None` where it gave something.
fn silent_millis<C: Clock, L: Link>(clock: &C, link: &mut L) -> io::Result<Option<u128>> {
    let mut buf = [0u8; 2048];
    let begun = Instant::now(clock)?;
    let receipt = link.recv(&mut buf);
    let millis = begun.elapsed(clock)?.as_millis();
    Ok(if matches!(receipt, Ok(Receipt::Nothing)) {
        Some(millis)
    } else {
        None
    })
}

/// What came among datagrams without a pause.
#[derive(Clone, Copy)]
struct Came {
    datagrams: u64,
    ticks: u64,
}

impl Came {
    fn new() -> Came {
        Came {
            datagrams: 0,
            ticks: 0,
        }
    }
}

/// The milliseconds since a time, or 0 without a clock.
fn millis_since<C: Clock>(clock: &C, begun: Instant) -> u128 {
    begun.elapsed(clock).map_or(0, |time| time.as_millis())
}

/// 2,000 datagrams of a stranger, one half a millisecond after another, so that one always waits: says whether all came, with 20 ticks
/// or more among them and no more than one in 15 ms, and else what came.
pub fn in_traffic<C: Clock, L: Link>(clock: &C, link: &mut L, stranger: &mut L, said: &mut Said) {
    let (Some(here), Some(_)) = (bind_somewhere(link, PORT), bind_somewhere(stranger, PORT)) else {
        return said.word(b"no port is free");
    };
    let Ok(begun) = Instant::now(clock) else {
        return said.word(b"no clock");
    };
    let mut came = Came::new();
    for _ in 0..2000 {
        // One that isn't sent shows in what comes.
        let _ = stranger.send(here, b"stray");
        receive_past_ticks(link, &mut came);
        thread::sleep(clock, Duration::from_micros(500));
    }
    let most = 1 + millis_since(clock, begun) / 15;
    if came.datagrams == 2000 && came.ticks >= 20 && u128::from(came.ticks) <= most {
        return said.word(b"2000 datagrams, 20 ticks or more, at most one in 15 ms");
    }
    said.value(came.datagrams);
    said.value(came.ticks);
}

/// The same, but that the link sends the datagrams to itself, as one that answers what comes: says whether all came, with at most one tick
/// a second among them, and else what came.
pub fn in_exchange<C: Clock, L: Link>(clock: &C, link: &mut L, said: &mut Said) {
    let Some(here) = bind_somewhere(link, PORT) else {
        return said.word(b"no port is free");
    };
    let Ok(begun) = Instant::now(clock) else {
        return said.word(b"no clock");
    };
    let mut came = Came::new();
    for _ in 0..2000 {
        let _ = link.send(here, b"own");
        receive_past_ticks(link, &mut came);
        thread::sleep(clock, Duration::from_micros(500));
    }
    let most = 1 + millis_since(clock, begun) / 1000;
    if came.datagrams == 2000 && u128::from(came.ticks) <= most {
        return said.word(b"2000 datagrams, at most one tick a second");
    }
    said.value(came.datagrams);
    said.value(came.ticks);
}

/// Receives until a datagram comes, at most eight times.
fn receive_past_ticks<L: Link>(link: &mut L, came: &mut Came) {
    let mut buf = [0u8; 2048];
    for _ in 0..8 {
        match link.recv(&mut buf) {
            Ok(Receipt::Nothing) => came.ticks = came.ticks.wrapping_add(1),
            Ok(Receipt::Got { .. }) => {
                came.datagrams = came.datagrams.wrapping_add(1);
                return;
            }
            Err(_) => return,
        }
    }
}
