//! The law Copy: which part of a segment is sent to the logger. It doesn't matter whether the segment was acceptable.

ghost use Rattle.std.specs.Prelude.{◌≡◌, ◌≤◌, ◌+◌, ◌^◌, ◌==◌, ◌&&◌, ◌||◌, not, nat_lt, length};
ghost use Rattle.segment_codec.specs.Value.{segment_of};
ghost use Rattle.ft_model.specs.Point.{Point};
ghost use Rattle.plain_point.specs.Values.{data_in, bodies_of};
ghost use Rattle.plain_point.specs.Copying.{further_part};

use crate::point::PlainPoint;
use ft_io::Key;
use plain_packets::{counted_text, counts_fin, is_at, part, place_of, rest};
use segment_codec::PacketRef;
use tcp_rules::below;

/// A part of the client's stream that is sent to the logger.
#[derive(Clone, Copy)]
pub struct Data<'a> {
    /// The client's address and port.
    pub key: Key,
    /// Where the bytes begin in the stream.
    pub offset: u64,
    /// SND.UNA.
    pub acked: u64,
    /// Whether the client's FIN follows the bytes.
    pub fin: bool,
    /// The bytes of text.
    pub bytes: &'a [u8],
}

impl PlainPoint {
    ghost use Rattle.ft_model.specs.Copy.{copy_start as start_lem, copied_text as text_lem, copies_fin as fin_lem, una_part as una_lem};
    ghost use Rattle.ft_model.specs.Copy.{own_data as own_lem, further_start};

    /// Returns where the part of a segment's text that isn't known to be logged begins.
    fn copy_start(&self, segment: &PacketRef<'_>) -> u64
        ensures { result ≡ start_lem self.now (segment_of segment.now) }
    {
        let first = self.first(segment);
        if first >= 0 {
            self.answered.max(first as u64)
        } else {
            self.answered
        }
    }

    /// Returns a segment's text from `copy_start` up to the end of the bytes taken.
    fn copied_text<'a>(&self, segment: &PacketRef<'a>) -> &'a [u8]
        ensures { result.now ≡ text_lem self.now (segment_of segment.now) }
    {
        let taken = self.taken.len() as u64;
        let room = taken.saturating_sub(self.copy_start(segment));
        let skipped = below(self.answered, self.first(segment));
        part(counted_text(segment), skipped, room)
    }

    /// Returns whether the segment's FIN is the one that is taken, and isn't known to be logged.
    fn copies_fin(&self, segment: &PacketRef<'_>) -> bool
        ensures { result ≡ fin_lem self.now (segment_of segment.now) }
    {
        let taken = self.taken.len() as u64;
        let len = counted_text(segment).len() as u64;
        counts_fin(segment)
            && self.fin
            && is_at(taken, self.first(segment), len)
            && self.answered <= taken
    }

    /// Returns the part of a segment between what is answered and what is taken after the turn, if there is one.
    #[tactic(auto, unfolding(ft_model::specs::Copy::own_data))]
    pub fn own_data<'a>(&self, segment: &PacketRef<'a>) -> Option<Data<'a>>
        ensures { bodies_of result ≡ own_lem self.now (segment_of segment.now) }
    {
        let (bytes, fin) = (self.copied_text(segment), self.copies_fin(segment));
        if bytes.is_empty() && !fin {
            return None;
        }
        Some(Data {
            key: self.numbers.key,
            offset: self.copy_start(segment),
            acked: self.una,
            fin,
            bytes,
        })
    }

    /// Returns a Data without text that only reports SND.UNA.
    pub fn una_data<'a>(&self) -> Data<'a>
        ensures { data_in result ≡ una_lem self.now }
    {
        Data {
            key: self.numbers.key,
            offset: self.answered.min(self.taken.len() as u64),
            acked: self.una,
            fin: false,
            bytes: &[],
        }
    }

    /// Returns where the text begins that was held, is taken in this turn, and isn't known to be logged. It comes after the `taken` bytes that were taken
    /// before the turn, and after the segment's own text.
    fn further_start(&self, taken: u64, segment: &PacketRef<'_>) -> u64
        requires { taken ≤ 2 ^ 63 }
        ensures value { (before : Point) → taken ≡ length before.taken → result ≡ further_start before self.now (segment_of segment.now) }
        ensures within { result ≤ 2 ^ 63 }
    {
        let len = counted_text(segment).len() as u64;
        let end = place_of(self.first(segment), len).unwrap_or(0);
        let own = end.min(self.taken.len() as u64);
        self.answered.max(taken.max(own))
    }

    /// Returns the text and the FIN that were held, are taken in this turn, and aren't known to be logged. Before the turn `taken` bytes were taken, and
    /// `fin` says whether the FIN was.
    pub fn further_data(&self, taken: u64, fin: bool, segment: &PacketRef<'_>) -> Data<'_>
        requires { taken ≤ 2 ^ 63 }
        ensures value { (before : Point) → taken ≡ length before.taken → fin ≡ before.fin
            → data_in result ≡ further_part before self.now (segment_of segment.now) }
        ensures within { result.offset + length result.bytes.now ≤ 2 ^ 63 }
    {
        let offset = self.further_start(taken, segment);
        let takes_fin = self.fin && !fin && !self.copies_fin(segment);
        Data {
            key: self.numbers.key,
            offset,
            acked: self.una,
            fin: takes_fin && self.answered <= self.taken.len() as u64,
            bytes: rest(&self.taken, offset),
        }
    }
}
