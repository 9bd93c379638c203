//! Hostile segments of one client from a seed, and a digest of what the server sends at them.

ghost use Rattle.std.specs.Prelude.{◌<◌, ◌≤◌};

use crate::player::LOCAL;
use ft_io::{Key, NoMemory};
use sample_servers::AnyService;
use segment_codec::{Head, write_packet};
use seq_arith::{ACK, FIN, RST, SYN, Seq, Timestamps};
use server_node::{Input, Node, OutPacket, To};
use std::alloc::Global;
use test_data::Draws;

/// The client that strikes.
const FROM: Key = Key {
    ip: 0xC000_0242,
    port: 666,
};

/// What a line asks for: how many strikes, from which seed, of how many kinds, with timestamps or without, and the next numbers of the client and of the
/// server.
#[derive(Clone, Copy)]
pub(crate) struct Strikes {
    pub times: u64,
    pub seed: u64,
    pub kinds: u32,
    /// Whether each segment has timestamps.
    pub stamped: bool,
    pub seq: Seq,
    pub ack: Seq,
}

/// A segment as it is drawn. Its text is shorter than `room`.
#[derive(Clone, Copy)]
struct Blow {
    flags: u8,
    seq: Seq,
    ack: Seq,
    room: u32,
}

/// An acknowledgement up to 2^30 ahead, without text.
fn far_acknowledgement(draws: &mut Draws, strikes: Strikes) -> Blow
    ensures { (0 < result.room) × (result.room < 21) }
{
    Blow {
        flags: ACK,
        seq: strikes.seq,
        ack: strikes.ack.add(1 + draws.below(1 << 30)),
        room: 1,
    }
}

/// At the right edge of a full window, or next to it, with at most one byte.
fn wrong_edge(draws: &mut Draws, strikes: Strikes) -> Blow
    ensures { (0 < result.room) × (result.room < 21) }
{
    Blow {
        flags: ACK,
        seq: strikes.seq.add(65_534 + draws.below(4)),
        ack: strikes.ack,
        room: 2,
    }
}

/// A RST just before the next number, or past any value that the other segments of the same line can give that number.
fn wrong_reset(draws: &mut Draws, strikes: Strikes) -> Blow
    ensures { (0 < result.room) × (result.room < 21) }
{
    let past = match draws.below(5) {
        0 => 4_294_967_295,
        1 => 64,
        2 => 65,
        3 => 65_534,
        _ => 65_536,
    };
    Blow {
        flags: RST,
        seq: strikes.seq.add(past),
        ack: Seq(0),
        room: 1,
    }
}

/// Text that begins one to twelve bytes before the next number, and acknowledges less than the client could.
fn overlap(draws: &mut Draws, strikes: Strikes) -> Blow
    ensures { (0 < result.room) × (result.room < 21) }
{
    Blow {
        flags: ACK,
        seq: strikes.seq.add(4_294_967_284 + draws.below(12)),
        ack: strikes.ack.add(4_294_967_293 + draws.below(3)),
        room: 20,
    }
}

/// Text past the next number, with any acknowledgement and mostly odd flags.
fn odd_flags(draws: &mut Draws, strikes: Strikes) -> Blow
    ensures { (0 < result.room) × (result.room < 21) }
{
    let flags = match draws.below(5) {
        0 => ACK | FIN,
        1 => ACK | RST,
        2 => ACK | SYN,
        3 => FIN,
        _ => ACK,
    };
    Blow {
        flags,
        seq: strikes.seq.add(2 + draws.below(7)),
        ack: Seq(draws.draw()),
        room: 20,
    }
}

/// A SYN just before the client's next number, at it, or far past it.
fn opening(draws: &mut Draws, strikes: Strikes) -> Blow
    ensures { (0 < result.room) × (result.room < 21) }
{
    let past = match draws.below(4) {
        0 | 1 => 4_294_967_295,
        2 => 0,
        _ => 69_999,
    };
    Blow {
        flags: SYN,
        seq: strikes.seq.add(past),
        ack: Seq(0),
        room: 1,
    }
}

fn draw_blow(draws: &mut Draws, strikes: Strikes) -> Blow
    ensures { (0 < result.room) × (result.room < 21) }
{
    match draws.below(strikes.kinds.max(1)) {
        0 => far_acknowledgement(draws, strikes),
        1 => wrong_edge(draws, strikes),
        2 => wrong_reset(draws, strikes),
        3 => overlap(draws, strikes),
        4 => odd_flags(draws, strikes),
        _ => opening(draws, strikes),
    }
}

/// A value of the client's clock near the one at which it wraps, which is newer or older than others of the same line, and any echo.
fn timestamps(draws: &mut Draws) -> Timestamps {
    Timestamps {
        value: Seq(4_294_967_288).add(draws.below(16)).0,
        echo: draws.draw(),
    }
}

fn head(draws: &mut Draws, blow: Blow, stamped: bool) -> Head {
    Head {
        src: FROM.ip,
        dst: LOCAL.ip,
        sport: FROM.port,
        dport: LOCAL.port,
        seq: blow.seq,
        ack: blow.ack,
        flags: blow.flags,
        window: draws.below(65_536) as u16,
        mss: None,
        timestamps: if stamped {
            Some(timestamps(draws))
        } else {
            None
        },
    }
}

/// How many packets were sent, and a polynomial hash of them at 257, modulo 2^32 - 5.
#[derive(Clone, Copy)]
pub(crate) struct Digest {
    pub sent: u64,
    pub sum: u64,
}

impl Digest {
    fn note(&mut self, byte: u8) {
        self.sum = (self.sum % 4_294_967_291 * 257 + u64::from(byte) + 1) % 4_294_967_291;
    }

    fn note_all(&mut self, bytes: &[u8]) {
        for byte in bytes {
            self.note(*byte);
        }
    }

    /// A packet: the address of its client, if it is for one, and its bytes.
    fn note_packet(&mut self, packet: &OutPacket) {
        self.sent = self.sent.saturating_add(1);
        if let To::Client(key) = packet.to() {
            self.note_all(&key.ip.to_be_bytes());
            self.note_all(&key.port.to_be_bytes());
        }
        self.note_all(packet.bytes());
    }
}

/// Writes the next segment, and returns its length in bytes.
fn write_next(draws: &mut Draws, strikes: Strikes, bytes: &mut [u8; 2_048]) -> usize
    ensures { result ≤ 1500 }
{
    let blow = draw_blow(draws, strikes);
    let head = head(draws, blow, strikes.stamped);
    let text = [draws.byte(); 20];
    let size = draws.below(blow.room) as usize;
    write_packet(&head, &text[..size], bytes)
}

/// Gives a server these segments, one after another.
pub(crate) fn strike(
    alloc: Global,
    node: &mut Node<AnyService>,
    strikes: Strikes,
) -> Result<Digest, NoMemory> {
    let mut draws = Draws::new(strikes.seed);
    let mut digest = Digest { sent: 0, sum: 0 };
    let mut bytes = [0u8; 2_048];
    for _ in 0..strikes.times {
        let len = write_next(&mut draws, strikes, &mut bytes);
        if node.turn(alloc, Input::Packet(&bytes[..len])).is_err() {
            return Err(NoMemory);
        }
        for packet in node.sent() {
            digest.note_packet(packet);
        }
    }
    Ok(digest)
}
