//! The RSTs that the node itself sends, to clients that have no connection (RFC 9293, 3.10.7.1 and 3.10.7.2).

ghost use Rattle.limits.specs.Limits.{largest_segment};
ghost use Rattle.std.specs.Prelude.{◌≡◌, ◌<◌, ◌≤◌, ◌^◌, ◌∷◌, [], IfSome, OnOk, length};
ghost use Rattle.seq_arith.specs.Offset.{length_of};
ghost use Rattle.seq_arith.specs.Value.{said};
ghost use Rattle.segment_codec.specs.Value.{segment_of};
ghost use Rattle.ft_model.specs.Refusal.{as_listen, as_closed, full_rst};
ghost use Rattle.node_serving.specs.Slots.{numbers_of};
ghost use Rattle.node_serving.specs.Turns.{SendsSegments};

use crate::identity::Identity;
use crate::out_packet::To;
use crate::slot::Opening;
use crate::turn::Turn;
use ft_io::{Key, NoMemory};
use segment_codec::{Head, PacketRef, write_packet};
use seq_arith::{ACK, FIN, RST, SYN, Seq, Timestamps, has};

/// Sends a segment without text to the client that its header names.
#[tactic(auto, using(seq_arith::proofs::Units::options_short))]
pub fn send_bare(head: Head, turn: &mut Turn) -> Result<(), NoMemory>
    ensures { OnOk result (SendsSegments (record { head = said head; payload = [] } ∷ []) turn.old turn.new) }
{
    fit_timestamps(head.timestamps);
    let mut text = [0; limits::PACKET];
    let len = write_packet(&head, &[], &mut text);
    let to = To::Client(Key {
        ip: head.dst,
        port: head.dport,
    });
    turn.sent.send(turn.alloc, to, &text[..len])
}

/// A fact for proofs: the numbers of timestamps fit their type.
fn fit_timestamps(timestamps: Option<Timestamps>)
    ensures { IfSome timestamps (λ t. (t.value < 2 ^ 32) × (t.echo < 2 ^ 32)) }
{
    if let Some(timestamps) = timestamps {
        let _value = timestamps.value;
        let _echo = timestamps.echo;
    }
}

/// SEG.LEN: the text and the FIN, or only the SYN; 0 for a RST.
fn length_of(segment: &PacketRef<'_>) -> u32
    requires { length segment.now.payload.now ≤ largest_segment }
    ensures { result ≡ length_of (segment_of segment.now) }
{
    let flags = segment.head.flags;
    if has(flags, RST) {
        return 0;
    }
    if has(flags, SYN) {
        return 1;
    }
    segment.payload.len() as u32 + u32::from(has(flags, FIN))
}

/// Answers a segment of a client whose connection has ended, as CLOSED does: by a RST, unless the segment has RST itself.
pub(crate) fn refuse_closed(
    who: Identity,
    segment: &PacketRef<'_>,
    turn: &mut Turn,
) -> Result<(), NoMemory>
    requires { length segment.now.payload.now ≤ largest_segment }
    ensures { OnOk result (SendsSegments (as_closed who.local (segment_of segment.now)) turn.old turn.new) }
{
    if has(segment.head.flags, RST) {
        return Ok(());
    }
    if has(segment.head.flags, ACK) {
        return send_bare(segment.head.reset_at_ack(who.local), turn);
    }
    let len = length_of(segment);
    send_bare(segment.head.reset_behind(who.local, len), turn)
}

/// Answers a segment of an unknown client, as LISTEN does: by a RST if it has ACK and no RST, and otherwise not at all.
pub(crate) fn refuse_unknown(
    who: Identity,
    segment: &PacketRef<'_>,
    turn: &mut Turn,
) -> Result<(), NoMemory>
    ensures { OnOk result (SendsSegments (as_listen who.local (segment_of segment.now)) turn.old turn.new) }
{
    if !has(segment.head.flags, ACK) || has(segment.head.flags, RST) {
        return Ok(());
    }
    send_bare(segment.head.reset_at_ack(who.local), turn)
}

/// Refuses the SYN of a client whose opening finds the log full.
pub(crate) fn refuse_full(
    who: Identity,
    key: Key,
    opening: Opening,
    turn: &mut Turn,
) -> Result<(), NoMemory>
    ensures { OnOk result (SendsSegments (full_rst who.local (numbers_of key opening) ∷ []) turn.old turn.new) }
{
    let behind = opening.cisn.add(1);
    send_bare(Head::reset(who.local, key, Seq(0), behind, RST | ACK), turn)
}
