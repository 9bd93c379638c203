//! The lines of a report, written many times, and a schedule, read many times. `lines write CYCLES ROUNDS` writes, in each of ROUNDS rounds, the lines of the
//! turns in which one client sends a byte and receives its echo, CYCLES of them after the opening: the packets are stored as bytes, and are made once. `lines
//! read ROUNDS` reads the schedule on the standard input, and gives how many events it spells.

ghost use Rattle.std.specs.Prelude.{◌≤◌, ◌<◌};

use crate::cycle::{Run, SENT, Sent, push_cycles};
use anyhow::{Context, Result, bail, ensure};
use ft_io::{NoMemory, Sink, Source, read_to_limit, write_all};
use ft_model::Event;
use schedule_text::{read_schedule, write_event, write_packet_line};
use std::alloc::Global;

/// The most bytes of a schedule.
const SCHEDULE: usize = 8_388_608;

/// The most cycles.
const CYCLES: u32 = 100_000;

/// How many bytes of lines are gathered before they are written out.
const GATHERED: usize = 65_536;

/// Writes the lines of these words.
pub(crate) fn write<O: Sink>(alloc: Global, words: &[&str], out: &mut O) -> Result<()> {
    let [cycles, rounds] = words else {
        bail!("lines write CYCLES ROUNDS");
    };
    let cycles: u32 = cycles.parse().context("CYCLES")?;
    ensure!(cycles <= CYCLES, "CYCLES is at most 100,000");
    let rounds: u32 = rounds.parse().context("ROUNDS")?;
    let mut lines = Vec::with_capacity(alloc, 2 * GATHERED)?;
    let mut sent = Run {
        packets: Vec::new(alloc),
        is_lost: false,
    };
    write_rounds(alloc, cycles, rounds, &mut sent, &mut lines, out)
}

/// How many events a schedule spells, over the rounds of these words.
pub(crate) fn read<I: Source>(alloc: Global, words: &[&str], input: &mut I) -> Result<u64> {
    let [rounds] = words else {
        bail!("lines read ROUNDS");
    };
    let rounds: u32 = rounds.parse().context("ROUNDS")?;
    let Ok(text) = read_to_limit(alloc, input, SCHEDULE) else {
        bail!("no text");
    };
    let mut events = 0u64;
    for _ in 0..rounds {
        if let Ok(schedule) = read_schedule(alloc, text.as_slice()) {
            events = events.wrapping_add(schedule.events.as_slice().len() as u64);
        }
    }
    Ok(events)
}

/// Makes the packets of all cycles, and writes the lines of the cycles this many times.
fn write_rounds<O: Sink>(
    alloc: Global,
    cycles: u32,
    rounds: u32,
    sent: &mut Run,
    lines: &mut Vec<u8>,
    out: &mut O,
) -> Result<()>
    requires { cycles ≤ 100000 }
{
    push_cycles(alloc, cycles, sent);
    ensure!(!sent.is_lost, "no memory");
    for _ in 0..rounds {
        ensure!(
            write_cycles(alloc, &sent.packets, cycles, lines, out).is_ok(),
            "no memory, or a fault"
        );
    }
    ensure!(write_all(out, lines).is_ok(), "a fault");
    Ok(())
}

/// Writes the lines of each cycle once, and hands out what is gathered.
fn write_cycles<O: Sink>(
    alloc: Global,
    sent: &[Sent],
    cycles: u32,
    lines: &mut Vec<u8>,
    out: &mut O,
) -> Result<(), NoMemory>
    requires { cycles ≤ 100000 }
{
    for i in 0..cycles {
        let start = SENT * i as usize;
        let packets = sent.get(start..start + SENT).unwrap_or(&[]);
        write_cycle(alloc, i, packets, lines)?;
        if lines.len() >= GATHERED {
            if write_all(out, lines.as_slice()).is_err() {
                return Err(NoMemory);
            }
            lines.clear();
        }
    }
    Ok(())
}

/// Writes the events of a cycle, each with the packets that it sends.
fn write_cycle(alloc: Global, i: u32, sent: &[Sent], lines: &mut Vec<u8>) -> Result<(), NoMemory>
    requires { i < 100000 }
{
    let first_event = 11 + 10 * i;
    let first = 8 + 11 * i;
    let turns = [
        (
            Event::Send {
                client: 1,
                from: i,
                len: 1,
            },
            0..1,
        ),
        (Event::Deliver { packet: first }, 1..4),
        (Event::Deliver { packet: first + 2 }, 4..5),
        (Event::Deliver { packet: first + 4 }, 5..6),
        (Event::Deliver { packet: first + 3 }, 6..7),
        (Event::Deliver { packet: first + 6 }, 7..8),
        (Event::Deliver { packet: first + 7 }, 8..8),
        (
            Event::Ack {
                client: 1,
                window: 65_535,
            },
            8..9,
        ),
        (Event::Deliver { packet: first + 8 }, 9..10),
        (Event::Deliver { packet: first + 9 }, 10..11),
    ];
    for (k, (event, places)) in turns.iter().enumerate() {
        write_event(alloc, first_event + k as u32, event, lines)?;
        write_sent(alloc, first, sent, places.start, places.end, lines)?;
    }
    Ok(())
}

/// Writes the packets of a turn, of a cycle whose first packet has this number.
fn write_sent(
    alloc: Global,
    first: u32,
    sent: &[Sent],
    from: usize,
    to: usize,
    lines: &mut Vec<u8>,
) -> Result<(), NoMemory>
    requires { first < 2000000 }
{
    for j in from..to.min(SENT) {
        if let Some(packet) = sent.get(j) {
            write_packet_line(
                alloc,
                first + j as u32,
                packet.way,
                packet.bytes.as_slice(),
                lines,
            )?;
        }
    }
    Ok(())
}
