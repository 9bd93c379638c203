//! The packets of the turns in which one client sends a byte and receives its echo, as bytes.

ghost use Rattle.std.specs.Prelude.{◌≡◌, ◌≤◌, ◌<◌, length, IsSome};
ghost use Rattle.logger_wire.specs.Value.{IsSendable};
ghost use Rattle.schedule_text.specs.Bytes.{content_in};

use crate::CLIENT;
use ft_io::Key;
use logger_wire::{Body, Kept, Msg, Part, write_msg};
use schedule_text::{Way, is_packet};
use segment_codec::write_packet;
use seq_arith::{ACK, Head, Seq};
use std::alloc::Global;

/// How many packets a cycle sends.
pub(crate) const SENT: usize = 11;

const SERVER: Key = Key {
    ip: 0xC000_0264,
    port: 7,
};

/// A packet of the run, as its bytes.
#[derive(Drop)]
pub(crate) struct Sent {
    pub(crate) way: Way,
    pub(crate) bytes: Vec<u8>,
    ghost accepted: { IsSome (content_in way bytes.items) },
}

/// The packets of the run so far. Where memory is refused, that is noted, and a packet is missing.
#[derive(Drop)]
pub(crate) struct Run {
    pub(crate) packets: Vec<Sent>,
    pub(crate) is_lost: bool,
}

/// The packets of all cycles, one after the other.
pub(crate) fn push_cycles(alloc: Global, cycles: u32, sent: &mut Run)
    requires { cycles ≤ 100000 }
{
    for i in 0..cycles {
        push_cycle(alloc, i, sent);
    }
}

/// The packets of a cycle: the byte, a duplicate ACK, Data, Read, Stable, an acknowledgement, Reads, the echo, the client's acknowledgement of it, and
/// Data and Stable for that.
fn push_cycle(alloc: Global, i: u32, sent: &mut Run)
    requires { i < 100000 }
{
    let byte = [(i % 256) as u8];
    push_segment(alloc, true, 1_001 + i, 5_001 + i, &byte, sent);
    push_segment(alloc, false, 5_001 + i, 1_001 + i, &[], sent);
    push_data(alloc, i, &byte, sent);
    push_read(alloc, i, sent);
    push_stable(alloc, i + 1, i, sent);
    push_segment(alloc, false, 5_001 + i, 1_002 + i, &[], sent);
    push_reads(alloc, i + 1, sent);
    push_segment(alloc, false, 5_001 + i, 1_002 + i, &byte, sent);
    push_segment(alloc, true, 1_002 + i, 5_002 + i, &[], sent);
    push_data(alloc, i + 1, &[], sent);
    push_stable(alloc, i + 1, i + 1, sent);
}

/// A segment of the client, or else of the server, with at most a byte of text.
fn push_segment(alloc: Global, is_client: bool, seq: u32, ack: u32, text: &[u8], sent: &mut Run)
    requires { length text.now ≤ 1 }
{
    let (way, from, to) = if is_client {
        (Way::ClientToServer(1), CLIENT, SERVER)
    } else {
        (Way::ServerToClient(1), SERVER, CLIENT)
    };
    let head = Head {
        src: from.ip,
        dst: to.ip,
        sport: from.port,
        dport: to.port,
        seq: Seq(seq),
        ack: Seq(ack),
        flags: ACK,
        window: 65_535,
        mss: None,
        timestamps: None,
    };
    let mut out = [0u8; limits::PACKET];
    let len = write_packet(&head, text, &mut out);
    push(alloc, way, &out[..len], sent);
}

/// Bytes to be logged, at most one, with as many acknowledged as are logged before.
#[tactic(auto, unfolding(seq_arith::specs::MessageGrammar::has_length, seq_arith::specs::MessageGrammar::is_sound_by))]
fn push_data(alloc: Global, offset: u32, bytes: &[u8], sent: &mut Run)
    requires few { length bytes.now ≤ 1 }
    requires within { offset ≤ 100000 }
{
    let body = Body::Data(Part {
        key: CLIENT,
        offset,
        acked: offset,
        fin: false,
        more: false,
        bytes,
    });
    push_message(alloc, Way::ServerToLogger, &Msg { boot: 1, body }, sent);
}

/// The length of a read, which is 1.
#[tactic(auto, unfolding(seq_arith::specs::MessageGrammar::has_length, seq_arith::specs::MessageGrammar::is_sound_by))]
fn push_read(alloc: Global, index: u32, sent: &mut Run)
    requires { index ≤ 100000 }
{
    let body = Body::Read {
        key: CLIENT,
        index,
        length: 1,
    };
    push_message(alloc, Way::ServerToLogger, &Msg { boot: 1, body }, sent);
}

/// How much is logged, as an answer to bytes.
#[tactic(auto, unfolding(seq_arith::specs::MessageGrammar::has_length, seq_arith::specs::MessageGrammar::is_sound_by))]
fn push_stable(alloc: Global, length: u32, reads: u32, sent: &mut Run)
    requires length { length ≤ 100000 }
    requires reads { reads ≤ 100000 }
{
    let body = Body::Stable(Kept {
        key: CLIENT,
        length,
        fin: false,
        reads,
    });
    push_message(alloc, Way::LoggerToServer, &Msg { boot: 1, body }, sent);
}

/// How much is logged, as an answer to a read.
#[tactic(auto, unfolding(seq_arith::specs::MessageGrammar::has_length, seq_arith::specs::MessageGrammar::is_sound_by))]
fn push_reads(alloc: Global, count: u32, sent: &mut Run)
    requires { count ≤ 100000 }
{
    let body = Body::Reads(Kept {
        key: CLIENT,
        length: count,
        fin: false,
        reads: count,
    });
    push_message(alloc, Way::LoggerToServer, &Msg { boot: 1, body }, sent);
}

fn push_message(alloc: Global, way: Way, m: &Msg<'_>, sent: &mut Run)
    requires { IsSendable m.now }
{
    let mut out = [0u8; 2_048];
    let len = write_msg(m, &mut out).min(2_048);
    push(alloc, way, &out[..len], sent);
}

/// Adds a packet, unless its bytes are none.
fn push(alloc: Global, way: Way, bytes: &[u8], sent: &mut Run) {
    if !is_packet(way, bytes) {
        return;
    }
    let Ok(bytes) = Vec::from_slice(alloc, bytes) else {
        sent.is_lost = true;
        return;
    };
    if sent.packets.push(Sent { way, bytes }).is_err() {
        sent.is_lost = true;
    }
}
