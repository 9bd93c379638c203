//! Hostile datagrams from a seed: any bytes, and packets and messages with right checksums.

ghost use Rattle.std.specs.Prelude.{◌≡◌, ◌<◌, ◌≤◌, None};

use crate::player::LOCAL;
use ft_io::{Key, NoMemory};
use logger_wire::{Body, Msg, write_msg};
use sample_servers::AnyService;
use segment_codec::{Head, read_packet, write_packet};
use seq_arith::{ACK, RST, Seq, has};
use server_node::{Input, Node, OutPacket, To};
use std::alloc::Global;
use test_data::Draws;

/// The clients of hostile packets have this address, and four ports from this one on.
const FROM: Key = Key {
    ip: 0xC000_0201,
    port: 40_000,
};

/// A number near this one, or any.
fn number(draws: &mut Draws, near: u32) -> Seq {
    match draws.below(4) {
        0 => Seq(draws.draw()),
        1 => Seq(near).add(draws.below(70_000)),
        _ => Seq(near).add(draws.below(12)),
    }
}

/// The header of a segment of one of the clients: mostly with ACK as its only flag, else with any flags.
fn head(draws: &mut Draws) -> Head
    ensures mss { result.mss ≡ None }
    ensures timestamps { result.timestamps ≡ None }
{
    let any = draws.byte();
    let flags = if draws.below(3) == 0 { any } else { ACK };
    Head {
        src: FROM.ip,
        dst: LOCAL.ip,
        sport: 40_000 + draws.below(4) as u16,
        dport: LOCAL.port,
        seq: number(draws, 1_000),
        ack: number(draws, 5_000),
        flags,
        window: draws.below(65_536) as u16,
        mss: None,
        timestamps: None,
    }
}

/// Writes a Stale of another incarnation, which would end a server that took it for its own.
fn write_stale(draws: &mut Draws, out: &mut [u8; 2_048]) -> usize
    ensures { result ≤ 2048 }
{
    let boot = u64::from(draws.below(1_000)) + 1_000;
    let body = Body::Stale { newer: boot + 1 };
    write_msg(&Msg { boot, body }, out).min(2_048)
}

/// What came of all datagrams: how many packets the server sent, and how many of them were wrong.
#[derive(Clone, Copy)]
pub(crate) struct Tally {
    pub sent: u64,
    pub wrong: u64,
}

/// Whether a packet to a client can't be read, or is for a live connection and is a RST or doesn't acknowledge exactly what is taken and answered.
fn is_wrong(node: &Node<AnyService>, packet: &OutPacket) -> bool {
    let To::Client(key) = packet.to() else {
        return false;
    };
    let Ok(segment) = read_packet(packet.bytes()) else {
        return true;
    };
    let Some(conn) = node.conn(key) else {
        return false;
    };
    let now = conn.inside();
    let logged = conn.south().cisn().add(1).add(now.taken.min(now.answered));
    has(segment.head.flags, RST) || segment.head.ack != logged
}

/// Adds what the last turn sent.
fn count(node: &Node<AnyService>, tally: &mut Tally) {
    for packet in node.sent() {
        tally.sent = tally.sent.saturating_add(1);
        if is_wrong(node, packet) {
            tally.wrong = tally.wrong.saturating_add(1);
        }
    }
}

/// Gives a server this many datagrams, drawn from a seed: half of them with correct checksums, as packets and as messages.
pub(crate) fn attack(
    alloc: Global,
    node: &mut Node<AnyService>,
    times: u64,
    seed: u64,
) -> Result<Tally, NoMemory> {
    let mut draws = Draws::new(seed);
    let mut tally = Tally { sent: 0, wrong: 0 };
    let mut bytes = [0u8; 2_048];
    let text = [b'?'; 60];
    for _ in 0..times {
        let input = match draws.below(4) {
            0 => {
                let size = draws.below(61) as usize;
                let len = write_packet(&head(&mut draws), &text[..size], &mut bytes).min(
                    limits::PACKET,
                );
                Input::Packet(&bytes[..len])
            }
            1 => {
                let len = write_stale(&mut draws, &mut bytes);
                Input::Message(&bytes[..len])
            }
            2 => {
                let len = draws.anything(&mut bytes[..]);
                Input::Packet(&bytes[..len])
            }
            _ => {
                let len = draws.anything(&mut bytes[..]);
                Input::Message(&bytes[..len])
            }
        };
        if node.turn(alloc, input).is_err() {
            return Err(NoMemory);
        }
        count(node, &mut tally);
    }
    Ok(tally)
}
