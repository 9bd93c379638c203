//! What must hold of an endpoint after any datagram, in RFC 9293's words.

use segment_codec::{Head, PacketRef};
use seq_arith::{ACK, FIN, RST, SYN, Seq, has};
use tcp_endpoint::StateName;
use test_data::{Pattern, require, require_all};

/// A SYN with ACK.
const SYN_ACK: u8 = 18;

/// A FIN with ACK.
const FIN_ACK: u8 = 17;

/// A rule.
#[derive(Clone, Copy)]
pub(crate) enum Rule {
    Damage,
    Reset,
    Room,
    Text,
    Acknowledgement,
    Numbers,
    Closed,
    ReadText,
    Counts,
    RstAlone,
    RstFields,
    Unconnected,
    OwnSyn,
    SynAck,
    News,
    Bare,
    OwnText,
    Fin,
    Flags,
    Packet,
    Silence,
}

impl Rule {
    pub(crate) fn text(self) -> &'static str {
        match self {
            Rule::Damage => "a damaged datagram is refused, and a whole one is read",
            Rule::Reset => "a RST resets just at the next number, or where it acknowledges the SYN",
            Rule::Room => "a connection that was reset is CLOSED and has no room",
            Rule::Text => "no text is taken without ACK, with SYN or RST, or behind the FIN",
            Rule::Acknowledgement => "no acknowledgement is used without ACK, or with SYN or RST",
            Rule::Numbers =>
                "SND.UNA only grows, to what was acknowledged, and never passes SND.NXT",
            Rule::Closed => "CLOSED stays as it is",
            Rule::ReadText => "what is read stands at its place in the peer's stream",
            Rule::Counts => "a read or a write takes no more than it is given",
            Rule::RstAlone => "a RST leaves alone, without text and window",
            Rule::RstFields => "a RST stands at the acknowledgement, or at 0 and acknowledges",
            Rule::Unconnected => "CLOSED and LISTEN send nothing but RSTs",
            Rule::OwnSyn => "SYN-SENT sends nothing but its SYN and RSTs",
            Rule::SynAck => "a SYN-ACK leaves in SYN-RECEIVED alone, at the initial number",
            Rule::News => "each segment acknowledges all that is taken, and tells the window",
            Rule::Bare => "a segment without text leaves alone, at SND.NXT",
            Rule::OwnText => "text leaves as it was written",
            Rule::Fin => "the FIN stands behind all text",
            Rule::Flags => "only ACK, SYN-ACK and FIN-ACK leave",
            Rule::Packet => "what leaves can be read",
            Rule::Silence => "nothing comes of a datagram that is refused",
        }
    }
}

/// A rule is kept, or this one is broken.
pub(crate) type Kept = Result<(), Rule>;

/// What is seen of an endpoint from outside.
#[derive(Clone, Copy, PartialEq, Eq)]
pub(crate) struct Seen {
    pub(crate) state: StateName,
    /// Whether the peer has reset the connection.
    pub(crate) reset: bool,
    pub(crate) sent: Seq,
    pub(crate) acked: Seq,
    pub(crate) readable: usize,
    pub(crate) room: usize,
}

/// What the peer and the user know of an endpoint when it sends packets.
#[derive(Clone, Copy)]
pub(crate) struct Known {
    pub(crate) name: StateName,
    pub(crate) sent: Seq,
    /// The endpoint's initial sequence number.
    pub(crate) isn: Seq,
    /// The peer's next sequence number, and the receive window.
    pub(crate) next: Seq,
    pub(crate) window: u16,
    /// How many bytes the user has written.
    pub(crate) written: u32,
    /// How many packets leave.
    pub(crate) count: usize,
}

/// Whether this is a state other than CLOSED in which the peer's FIN is taken.
pub(crate) fn is_behind_fin(name: StateName) -> bool {
    use StateName::*;
    matches!(name, CloseWait | Closing | LastAck | TimeWait)
}

/// The endpoint's own stream.
pub(crate) const OWN: Pattern = Pattern::Capitals;

/// Whether a segment resets, by RFC 9293, 3.10.7.3 and 3.10.7.4. `first` is the number after the endpoint's SYN, `next` the peer's next one.
pub(crate) fn resets(before: Seen, first: Seq, next: Seq, head: Head) -> bool {
    let is_rst = has(head.flags, RST);
    match before.state {
        StateName::Closed | StateName::Listen => false,
        StateName::SynSent => is_rst && has(head.flags, ACK) && head.ack == first,
        _ => is_rst && head.seq == next,
    }
}

/// A connection is reset where a segment resets, and then it is CLOSED. No text is taken from a segment without ACK, or with SYN or RST, or once the peer's
/// FIN is taken. The acknowledgement of a segment without ACK, or with SYN or RST, isn't used, except in SYN-SENT.
pub(crate) fn check_taken(before: Seen, after: Seen, resets: bool, flags: u8) -> Kept {
    let is_closed = after.state == StateName::Closed && after.room == 0;
    let is_used = flags & (SYN | RST | ACK) == ACK;
    let may_take = is_used && !is_behind_fin(before.state);
    let may_use = is_used || before.state == StateName::SynSent;
    require_all(&[
        (after.reset == (before.reset || resets), Rule::Reset),
        (!after.reset || is_closed, Rule::Room),
        (may_take || after.readable == before.readable, Rule::Text),
        (
            may_use || after.acked == before.acked,
            Rule::Acknowledgement,
        ),
    ])
}

/// The numbers after a turn in which a segment acknowledged `ack`.
pub(crate) fn check_numbers(before: Seen, after: Seen, ack: Seq) -> Kept {
    let grows = before.acked.le(after.acked) && before.sent.le(after.sent);
    let is_reported = after.acked == before.acked || after.acked == ack;
    let is_sent = after.acked.le(after.sent);
    let readable = after.readable;
    let is_still = after == Seen { readable, ..before };
    require_all(&[
        (grows && is_reported && is_sent, Rule::Numbers),
        (readable <= 65_535, Rule::Text),
        (before.state != StateName::Closed || is_still, Rule::Closed),
    ])
}

/// A RST in answer is the only segment of its turn.
fn check_rst(p: PacketRef<'_>, count: usize) -> Kept {
    let is_alone = p.head.window == 0 && p.payload.is_empty() && count == 1;
    let at_ack = p.head.flags == RST && p.head.ack == Seq(0);
    let behind = p.head.flags == RST | ACK && p.head.seq == Seq(0);
    require_all(&[
        (is_alone, Rule::RstAlone),
        (at_ack || behind, Rule::RstFields),
    ])
}

/// Text leaves as it was written, and the FIN comes after it.
fn check_text(known: Known, p: PacketRef<'_>) -> Kept {
    let place = p.head.seq.minus(known.isn.add(1));
    let left = known.written.saturating_sub(place) as usize;
    let is_own = p.payload.len() <= left && OWN.is_part(place, p.payload);
    let is_behind = place == known.written && p.payload.is_empty();
    require_all(&[
        (is_own, Rule::OwnText),
        (is_behind || !has(p.head.flags, FIN), Rule::Fin),
    ])
}

/// A segment without RST in a connection.
fn check_segment(known: Known, p: PacketRef<'_>) -> Kept {
    let is_news = p.head.ack == known.next && p.head.window == known.window;
    require(is_news, Rule::News)?;
    match p.head.flags {
        SYN_ACK => {
            let opens = known.name == StateName::SynReceived && p.head.seq == known.isn;
            require(opens && p.payload.is_empty(), Rule::SynAck)
        }
        ACK if p.payload.is_empty() => {
            require(p.head.seq == known.sent && known.count == 1, Rule::Bare)
        }
        ACK | FIN_ACK => check_text(known, p),
        _ => Err(Rule::Flags),
    }
}

/// What leaves in a state.
pub(crate) fn check_leaving(known: Known, p: PacketRef<'_>) -> Kept {
    if has(p.head.flags, RST) {
        return check_rst(p, known.count);
    }
    match known.name {
        StateName::Closed | StateName::Listen => Err(Rule::Unconnected),
        StateName::SynSent => {
            let is_syn = p.head.flags == SYN && p.head.ack == Seq(0);
            require(is_syn && p.head.seq == known.isn, Rule::OwnSyn)
        }
        _ => check_segment(known, p),
    }
}
