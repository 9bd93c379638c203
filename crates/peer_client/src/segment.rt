//! What the flags of an arriving segment say of its text.

ghost use Rattle.std.specs.Prelude.{◌≡◌, ◌≤◌, ◌^◌, length};
ghost use Rattle.seq_arith.specs.Packet.{has_fin as fin_lem, has_syn as syn_lem, has_rst as rst_lem, has_ack as ack_lem};
ghost use Rattle.ft_model.specs.Offset.{text_of, fin_of, length_of};
ghost use Rattle.segment_codec.specs.Value.{segment_of};

use segment_codec::PacketRef;
use seq_arith::{ACK, FIN, RST, SYN, has};

fn has_fin(segment: &PacketRef<'_>) -> bool
    ensures { result ≡ fin_lem (segment_of segment.now) }
{
    has(segment.head.flags, FIN)
}

/// Whether a segment has the flag SYN.
pub fn has_syn(segment: &PacketRef<'_>) -> bool
    ensures { result ≡ syn_lem (segment_of segment.now) }
{
    has(segment.head.flags, SYN)
}

/// Whether a segment has the flag RST.
pub fn has_rst(segment: &PacketRef<'_>) -> bool
    ensures { result ≡ rst_lem (segment_of segment.now) }
{
    has(segment.head.flags, RST)
}

/// Whether a segment has the flag ACK.
pub fn has_ack(segment: &PacketRef<'_>) -> bool
    ensures { result ≡ ack_lem (segment_of segment.now) }
{
    has(segment.head.flags, ACK)
}

/// The text that counts: none with a SYN or a RST.
pub fn counted_text<'a>(segment: &PacketRef<'a>) -> &'a [u8]
    ensures { result.now ≡ text_of (segment_of segment.now) }
{
    if has_syn(segment) || has_rst(segment) {
        return &[];
    }
    segment.payload
}

/// Whether the segment ends its sender's stream. A FIN with a SYN or a RST doesn't count.
pub fn counts_fin(segment: &PacketRef<'_>) -> bool
    ensures { result ≡ fin_of (segment_of segment.now) }
{
    has_fin(segment) && !(has_syn(segment) || has_rst(segment))
}

/// SEG.LEN (RFC 9293, 3.4): the text and the FIN; 1 for a SYN, whose text and FIN aren't counted; 0 for a RST.
pub fn segment_len(segment: &PacketRef<'_>) -> u64
    ensures value { result ≡ length_of (segment_of segment.now) }
    ensures within { result ≤ 2 ^ 63 }
    ensures most { length segment.now.payload.now ≤ 65535 → result ≤ 2 ^ 16 }
{
    if has_rst(segment) {
        return 0;
    }
    if has_syn(segment) {
        return 1;
    }
    segment.payload.len() as u64 + u64::from(has_fin(segment))
}
