//! The packets of the plain world: their lines, and whose turn an event is.

ghost use Rattle.std.specs.Prelude.{◌≡◌, ◌+◌, ◌<◌, ◌≤◌, ◌^◌, ◌++◌, length, position, IfSome, IsSome, OnOk};
ghost use Rattle.ft_io.specs.Key.{key_eq};
ghost use Rattle.plain_packets.specs.Parties.{from_of, to_of};
ghost use Rattle.plain_packets.specs.Sent.{wire_at};
ghost use Rattle.report_laws.specs.Transitions.{clients_in};
ghost use Rattle.trace_check.specs.SentLines as spelled;

use ft_io::{Key, NoMemory};
use ft_model::{ClientLine, Event, Schedule, Way};
use logger_wire::Grammar;
use plain_packets::{Path, PlainPackets, PlainWire};
use report_laws::Law;
use schedule_text::write_packet_line_by;
use std::alloc::Global;

/// Returns the index of the client with this key.
fn find_client(lines: &[ClientLine], key: Key) -> Option<usize>
    ensures value { result ≡ position (λ line. key_eq line.key key) lines.now }
    ensures within { IfSome result (λ i. i < length lines.now) }
{
    lines.iter().position(|line| line.key == key)
}

/// Returns the number of the client with this key, counted from 1, or 0 if there is none.
fn client_number(lines: &[ClientLine], key: Key) -> u8
    requires { length lines.now ≤ 16 }
    ensures { result ≡ spelled.number_in lines.now key }
{
    match find_client(lines, key) {
        Some(i) => i as u8 + 1,
        None => 0,
    }
}

/// Returns the direction of a packet.
#[tactic(auto, using(crate::proofs::SentLines::number_is))]
fn way_along(schedule: &Schedule, path: Path) -> Way
    requires { length schedule.now.clients ≤ 16 }
    ensures { result ≡ spelled.way_between (clients_in schedule.now) (from_of path) (to_of path) }
{
    let clients = schedule.clients.as_slice();
    match path {
        Path::ToServer(key) => Way::ClientToServer(client_number(clients, key)),
        Path::ToClient(key) => Way::ServerToClient(client_number(clients, key)),
        Path::ToLogger => Way::ServerToLogger,
        Path::FromLogger => Way::LoggerToServer,
    }
}

/// Writes the line of packet `n`.
#[tactic(auto, using(crate::proofs::SentLines::line_is_written))]
fn write_wire(
    alloc: Global,
    schedule: &Schedule,
    n: u32,
    wire: &PlainWire,
    lines: &mut Vec<u8>,
) -> Result<(), NoMemory>
    requires few { length schedule.now.clients ≤ 16 }
    requires readable { IsSome (spelled.words_in (clients_in schedule.now) wire.now) }
    ensures { OnOk result (lines.new.items ≡ lines.old.items ++ spelled.wire_line (clients_in schedule.now) n wire.now) }
{
    let way = way_along(schedule, wire.path());
    write_packet_line_by(alloc, Grammar::Wide, n, way, wire.bytes(), lines)
}

/// Writes the lines of packets, numbered from `first` on.
pub(crate) fn write_wires(
    alloc: Global,
    schedule: &Schedule,
    first: u32,
    wires: &[PlainWire],
    lines: &mut Vec<u8>,
) -> Result<(), NoMemory>
    requires few { length schedule.now.clients ≤ 16 }
    requires numbers { first + length wires.now < 2 ^ 32 }
    requires readable { spelled.CanBeRead (clients_in schedule.now) wires.now }
    ensures { OnOk result (lines.new.items ≡ lines.old.items ++ spelled.wire_lines (clients_in schedule.now) first wires.now) }
{
    for i in 0..wires.len() {
        write_wire(alloc, schedule, first + i as u32, &wires[i], lines)?;
    }
    Ok(())
}

/// Returns the law of the party that receives packet `n`.
fn receiver(packets: &PlainPackets, n: u32) -> Law
    ensures { result ≡ spelled.law_at (wire_at packets.now n) }
{
    match packets.get(n) {
        Some(wire) => match wire.path() {
            Path::ToClient(_) => Law::Client,
            Path::ToLogger => Law::Log,
            Path::ToServer(_) | Path::FromLogger => Law::Server,
        },
        None => Law::Server,
    }
}

/// Returns the law of the party whose turn an event is.
pub(crate) fn actor(packets: &PlainPackets, event: &Event) -> Law
    ensures { result ≡ spelled.actor_along packets.now event.now }
{
    match *event {
        Event::Deliver { packet } | Event::Flip { packet, .. } => receiver(packets, packet),
        Event::Begin { .. }
        | Event::Send { .. }
        | Event::Fin { .. }
        | Event::Ack { .. }
        | Event::Reset { .. } => Law::Client,
        Event::Boot { .. } | Event::Crash | Event::Tick | Event::Stop { .. } => Law::Server,
    }
}
