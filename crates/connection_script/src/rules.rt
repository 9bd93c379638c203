//! What must hold of a connection whatever arrives.

ghost use Rattle.wrapped_conn.specs.Sound.{IsSound};

use crate::peers::{CISN, CLIENT, SERVER, SISN};
use logger_wire::{Body, Grammar, read_msg_by};
use sample_servers::AnyService;
use segment_codec::read_packet;
use seq_arith::{RST, has};
use test_data::{Pattern, require, require_all};
use wrapped_conn::{Conn, ConnStage, Inside, TurnOut};

/// A rule that a hostile datagram broke.
#[derive(Clone, Copy, Debug, PartialEq, Eq)]
pub(crate) enum Rule {
    /// Bytes that are no packet change nothing, and nothing is sent.
    Silence,
    /// Counts never fall, and no more is acknowledged than is sent.
    Numbers,
    /// Each segment that leaves is a packet from the server to the client, without RST.
    Packet,
    /// It acknowledges no more than is logged.
    Ack,
    /// Its text is the client's at that place.
    Text,
    /// Each message is a Data with text that was taken, a Read, or a Done of a connection that has ended.
    Message,
    /// A connection that is reset sends no segment, and its numbers stay.
    Reset,
}

pub(crate) type Kept = Result<(), Rule>;

/// The client's stream.
pub(crate) const CLIENTS: Pattern = Pattern::Letters;

/// The rules on a segment.
fn check_segment(bytes: &[u8], after: Inside) -> Kept {
    let Ok(packet) = read_packet(bytes) else {
        return Err(Rule::Packet);
    };
    let head = packet.head;
    let is_from = head.src == SERVER.ip && head.sport == SERVER.port;
    let is_to = head.dst == CLIENT.ip && head.dport == CLIENT.port;
    let is_text = CLIENTS.is_part(head.seq.minus(SISN.add(1)), packet.payload);
    require_all(&[
        (is_from && is_to && !has(head.flags, RST), Rule::Packet),
        (head.ack.minus(CISN.add(1)) <= after.answered, Rule::Ack),
        (is_text, Rule::Text),
    ])
}

/// The rules on a message, which is of the connection's grammar.
fn check_message(grammar: Grammar, bytes: &[u8], after: Inside, has_ended: bool) -> Kept {
    let Ok(message) = read_msg_by(grammar, bytes) else {
        return Err(Rule::Message);
    };
    let holds = match message.body {
        Body::Data(part) => {
            let place = usize::try_from(part.offset).unwrap_or(0);
            let taken = usize::try_from(after.taken).unwrap_or(0);
            place <= taken
                && part.bytes.len() <= taken - place
                && part.acked == after.una
                && CLIENTS.is_part(part.offset, part.bytes)
        }
        Body::Read { index, .. } => index < after.reads,
        Body::Done { .. } => has_ended,
        _ => false,
    };
    require(holds && message.boot == 1, Rule::Message)
}

fn check_leaving(grammar: Grammar, after: Inside, has_ended: bool, out: &TurnOut) -> Kept {
    for i in 0..out.segments().len() {
        check_segment(out.segments().packet(i), after)?;
    }
    for i in 0..out.messages() {
        check_message(grammar, out.message(i), after, has_ended)?;
    }
    Ok(())
}

fn never_fall(before: Inside, after: Inside) -> bool {
    before.delta == after.delta
        && before.taken <= after.taken
        && before.answered <= after.answered
        && before.read <= after.read
        && before.reads <= after.reads
        && before.una <= after.una
        && before.sent <= after.sent
        && after.una <= after.sent
        && after.read <= after.taken
}

/// Whether a connection's numbers are the same before a turn and after it.
fn is_same(before: Inside, after: Inside) -> bool {
    after.delta == before.delta
        && after.taken == before.taken
        && after.answered == before.answered
        && after.read == before.read
        && after.reads == before.reads
        && after.una == before.una
        && after.sent == before.sent
}

/// The rules on a turn, before which a connection's numbers were these. It may be reset by then, and the datagram may be no packet.
pub(crate) fn check(
    before: Inside,
    is_reset: bool,
    is_packet: bool,
    grammar: Grammar,
    conn: &Conn<AnyService>,
    out: &TurnOut,
) -> Kept
    requires { IsSound conn.now }
{
    let after = conn.inside();
    let has_none = out.segments().is_empty();
    let is_silent = has_none && out.messages() == 0 && is_same(before, after);
    let is_still = has_none && after.taken == before.taken;
    require_all(&[
        (is_packet || is_silent, Rule::Silence),
        (never_fall(before, after), Rule::Numbers),
        (!is_reset || is_still, Rule::Reset),
    ])?;
    check_leaving(grammar, after, conn.stage() != ConnStage::Live, out)
}
