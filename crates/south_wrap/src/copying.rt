//! The part of a segment that is sent to the logger.

ghost use Rattle.limits.specs.Limits.{largest_segment};
ghost use Rattle.std.specs.Prelude.{◌≡◌, ◌≤◌, ◌<◌, ◌+◌, ◌+ℤ◌, ◌^◌, ◌&&◌, ◌||◌, pos, nat_abs, nat_lt, nat_le, max, min, IsOk, IfOk, IfSome, is_some, length};
ghost use Rattle.tcp_rules.specs.Arrival.{below, int_eq};
ghost use Rattle.seq_arith.specs.Offset.{text_of, fin_of};
ghost use Rattle.seq_arith.specs.PacketGrammar.{reading};
ghost use Rattle.segment_codec.specs.Value.{segment_of};
ghost use Rattle.ft_model.specs.Copy.{from_start};
ghost use Rattle.south_wrap.specs.Translation.{copied, is_some_copied, IsPart};

use crate::answers::CopyPart;
use crate::south::South;
use segment_codec::{PacketRef, read_accepted};
use seq_arith::{FIN, RST, SYN, has};
use tcp_rules::below;

impl South {
    /// Returns the part of a client's segment that is taken and not known to be logged, if there is any. Text and FIN of a segment with SYN or RST don't count.
    /// Whether the segment was acceptable, or has ACK, doesn't matter.
    pub fn copy_of(&self, packet: &[u8]) -> Option<CopyPart>
        requires { IsOk (reading packet.now) }
        ensures which { IfOk (reading packet.now) (λ segment. is_some result ≡ is_some_copied (copied self.now segment)) }
        ensures part { IfSome result (λ part. IfOk (reading packet.now) (λ segment. IsPart packet.now part (copied self.now segment))) }
    {
        let segment = read_accepted(packet);
        let text = text_of(&segment);
        let first = self.offset_of(segment.head.seq);
        let offset = self.copy_start(first);
        let skipped = self.skipped(first, text.len());
        let count = (self.bytes_taken().saturating_sub(offset) as usize).min(text.len() - skipped);
        let from = packet.len() - segment.payload.len() + skipped;
        part(
            offset,
            from,
            count,
            self.copies_fin(&segment, first, text.len()),
        )
    }

    /// Whether the segment's FIN is the one that is taken, and isn't known to be logged.
    fn copies_fin(&self, segment: &PacketRef<'_>, first: i64, len: usize) -> bool
        requires begins { nat_abs first ≤ 2 ^ 31 }
        requires most { len ≤ largest_segment }
        ensures { result ≡ (fin_of (segment_of segment.now)
            && (self.now.fin && int_eq (first +ℤ pos len) (pos self.now.taken) && nat_le self.now.answered self.now.taken)) }
    {
        ends(segment) && self.is_end(first + len as i64)
    }

    /// Where the part that isn't known to be logged begins.
    fn copy_start(&self, first: i64) -> u32
        requires { nat_abs first ≤ 2 ^ 31 }
        ensures { result ≡ max self.now.answered (from_start first) }
    {
        if first < 0 {
            return self.answered();
        }
        self.answered().max(first as u32)
    }

    /// How much of a text of this length, which begins at this offset, is known to be logged.
    fn skipped(&self, first: i64, len: usize) -> usize
        ensures { result ≡ min (below self.now.answered first) len }
    {
        below(u64::from(self.answered()), first).min(len as u64) as usize
    }
}

/// The segment's text; none with SYN or RST.
fn text_of<'a>(segment: &PacketRef<'a>) -> &'a [u8]
    ensures value { result.now ≡ text_of (segment_of segment.now) }
    ensures most { length result.now ≤ length segment.now.payload.now }
{
    if has(segment.head.flags, SYN) || has(segment.head.flags, RST) {
        return &[];
    }
    segment.payload
}

/// Whether the segment has a FIN that counts; with SYN or RST none does.
fn ends(segment: &PacketRef<'_>) -> bool
    ensures { result ≡ fin_of (segment_of segment.now) }
{
    has(segment.head.flags, FIN) && !(has(segment.head.flags, SYN) || has(segment.head.flags, RST))
}

/// A part of `count` bytes, unless it has neither bytes nor FIN.
fn part(offset: u32, from: usize, count: usize, fin: bool) -> Option<CopyPart>
    requires { from + count < 2 ^ 32 }
    ensures which { is_some result ≡ (nat_lt 0 count || fin) }
    ensures part { IfSome result (λ p. p ≡ record { offset = offset; from = from; to = from + count; fin = fin }) }
{
    if count == 0 && !fin {
        return None;
    }
    Some(CopyPart {
        offset,
        from,
        to: from + count,
        fin,
    })
}
