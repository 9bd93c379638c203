//! The fields of an arriving segment: its place in the stream, and its text.

ghost use Rattle.std.specs.Prelude.{◌≡◌, ◌≤◌, ◌^◌};
ghost use Rattle.seq_arith.specs.Packet.{has_fin as fin_lem, has_syn as syn_lem, has_rst as rst_lem, has_ack as ack_lem};
ghost use Rattle.seq_arith.specs.Offset.{first_of, ack_of, text_of, fin_of, length_of};
ghost use Rattle.segment_codec.specs.Value.{segment_of};

use crate::arrival::offset_of;
use segment_codec::PacketRef;
use seq_arith::{ACK, FIN, RST, SYN, has};

fn has_fin(segment: &PacketRef<'_>) -> bool
    ensures { result ≡ fin_lem (segment_of segment.now) }
{
    has(segment.head.flags, FIN)
}

/// Returns whether a segment has the flag SYN.
pub fn has_syn(segment: &PacketRef<'_>) -> bool
    ensures { result ≡ syn_lem (segment_of segment.now) }
{
    has(segment.head.flags, SYN)
}

/// Returns whether a segment has the flag RST.
pub fn has_rst(segment: &PacketRef<'_>) -> bool
    ensures { result ≡ rst_lem (segment_of segment.now) }
{
    has(segment.head.flags, RST)
}

/// Returns whether a segment has the flag ACK.
pub fn has_ack(segment: &PacketRef<'_>) -> bool
    ensures { result ≡ ack_lem (segment_of segment.now) }
{
    has(segment.head.flags, ACK)
}

/// Returns the text that counts: none with a SYN or a RST.
pub fn counted_text<'a>(segment: &PacketRef<'a>) -> &'a [u8]
    ensures { result.now ≡ text_of (segment_of segment.now) }
{
    if has_syn(segment) || has_rst(segment) {
        return &[];
    }
    segment.payload
}

/// Returns whether a segment ends its sender's stream. A FIN with a SYN or a RST doesn't count.
pub fn counts_fin(segment: &PacketRef<'_>) -> bool
    ensures { result ≡ fin_of (segment_of segment.now) }
{
    has_fin(segment) && !(has_syn(segment) || has_rst(segment))
}

/// Returns SEG.LEN: the length of the text and the FIN, or only that of the SYN; 0 for a RST (RFC 9293, 3.4).
pub fn segment_len(segment: &PacketRef<'_>) -> u64
    ensures value { result ≡ length_of (segment_of segment.now) }
    ensures within { result ≤ 2 ^ 63 }
{
    if has_rst(segment) {
        return 0;
    }
    if has_syn(segment) {
        return 1;
    }
    segment.payload.len() as u64 + u64::from(has_fin(segment))
}

/// Returns the offset at which a segment begins in its sender's stream, whose initial sequence number is `own`.
pub fn first(own: u32, segment: &PacketRef<'_>) -> i64
    ensures { result ≡ first_of own (segment_of segment.now) }
{
    offset_of(own, segment.head.seq.0)
}

/// Returns the offset up to which a segment acknowledges the other stream, whose initial sequence number is `peer`.
pub fn ack(peer: u32, segment: &PacketRef<'_>) -> i64
    ensures { result ≡ ack_of peer (segment_of segment.now) }
{
    offset_of(peer, segment.head.ack.0)
}
