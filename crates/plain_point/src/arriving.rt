//! The law Taken: which segments count, and what their text and FIN do (RFC 9293, 3.10.7.4); and when a segment makes an ACK pending.

ghost use Rattle.std.specs.Prelude.{◌≡◌, OnOk};
ghost use Rattle.segment_codec.specs.Value.{segment_of};

use crate::point::PlainPoint;
use ft_io::NoMemory;
use plain_packets::{
    Coming, Held, Stream, accepts, ack, counted_text, counts_fin, first, has_ack, has_rst, has_syn,
    is_at, is_usable, segment_len,
};
use segment_codec::PacketRef;
use std::alloc::Global;
use std::mem;
use tcp_rules::Timestamping;

impl PlainPoint {
    ghost use Rattle.ft_model.specs.News.News.{Comes};
    ghost use Rattle.ft_model.specs.Offset.{first_of, ack_of};
    ghost use Rattle.ft_model.specs.Taken.{accepts as accepts_lem, uses as uses_lem, acknowledges_unsent as unsent_lem, counts as counts_lem};
    ghost use Rattle.ft_model.specs.Taken.{taken_after, early_after, fin_after};
    ghost use Rattle.ft_model.specs.PendingAck.{is_refused as refused_lem, is_unsent_ack as unsent_ack_lem};
    ghost use Rattle.ft_model.specs.PendingAck.{needs_ack_if_acceptable as acceptable_lem, needs_ack as needs_lem};
    ghost use Rattle.ft_model.specs.Segments.{repeats_syn as repeats_lem};
    ghost use Rattle.ft_model.specs.ResetAndEnd.{reset_after};
    ghost use Rattle.ft_model.specs.Timestamps.{is_timely as timely_lem, timestamping_after};

    /// Returns the offset at which a segment begins in the client's stream.
    pub(crate) fn first(&self, segment: &PacketRef<'_>) -> i64
        ensures { result ≡ first_of self.now.cisn (segment_of segment.now) }
    {
        first(self.numbers.cisn, segment)
    }

    /// Returns the offset up to which a segment acknowledges the output.
    pub(crate) fn ack(&self, segment: &PacketRef<'_>) -> i64
        ensures { result ≡ ack_of self.now.sisn (segment_of segment.now) }
    {
        ack(self.numbers.sisn, segment)
    }

    /// Returns whether a segment is acceptable, or of length 0 at exactly the right edge of an open window.
    #[tactic(auto, unfolding(ft_model::specs::Taken::accepts))]
    fn accepts(&self, segment: &PacketRef<'_>) -> bool
        ensures { result ≡ accepts_lem self.now (segment_of segment.now) }
    {
        let (next, room) = (self.taken_units(), self.room());
        accepts(next, room, self.first(segment), segment_len(segment))
    }

    /// Returns whether a segment is used: it is acceptable, of length 0 at exactly the right edge of an open window, or at the next number of a zero window.
    #[tactic(auto, unfolding(ft_model::specs::Taken::uses))]
    fn uses(&self, segment: &PacketRef<'_>) -> bool
        ensures { result ≡ uses_lem self.now (segment_of segment.now) }
    {
        let (next, room) = (self.taken_units(), self.room());
        is_usable(next, room, self.first(segment), segment_len(segment))
    }

    /// Returns whether the value of a segment counts (RFC 7323, 4.3): the segment is acceptable, no RST, and begins at or before the last acknowledgement sent.
    #[tactic(auto, unfolding(ft_model::specs::Timestamps::is_timely))]
    fn is_timely(&self, segment: &PacketRef<'_>) -> bool
        ensures { result ≡ timely_lem self.now (segment_of segment.now) }
    {
        self.accepts(segment)
            && !has_rst(segment)
            && self.first(segment) <= self.acknowledgement() as i64
    }

    /// Returns which value of the client is echoed after a segment.
    pub(crate) fn timestamping_after(&self, segment: &PacketRef<'_>) -> Timestamping
        ensures { result ≡ timestamping_after (Comes (segment_of segment.now)) self.now }
    {
        self.timestamping
            .after(self.is_timely(segment), segment.head.timestamps)
    }

    /// Returns whether a segment acknowledges something that was never sent, neither by this incarnation nor by an earlier one.
    #[tactic(auto, unfolding(ft_model::specs::Taken::acknowledges_unsent))]
    fn acknowledges_unsent(&self, segment: &PacketRef<'_>) -> bool
        ensures { result ≡ unsent_lem self.now (segment_of segment.now) }
    {
        let ack = self.ack(segment);
        ack > 0 && ack as u64 > self.sent.max(self.fetched_output)
    }

    /// Returns whether a segment counts: it has ACK but neither SYN nor RST, it is used, it acknowledges the SYN or the SYN is already acknowledged, and it
    /// acknowledges nothing that was never sent.
    #[tactic(auto, unfolding(ft_model::specs::Taken::counts))]
    pub(crate) fn counts(&self, segment: &PacketRef<'_>) -> bool
        ensures { result ≡ counts_lem self.now (segment_of segment.now) }
    {
        has_ack(segment)
            && !has_syn(segment)
            && !has_rst(segment)
            && self.uses(segment)
            && (self.syn_acked || self.ack(segment) >= 0)
            && !self.acknowledges_unsent(segment)
    }

    /// Takes or holds the text and the FIN of a segment, if it counts. After `NoMemory` the point may only be dropped.
    #[tactic(auto, unfolding(crate::proofs::Unfolded::take_words))]
    pub(crate) fn take(&mut self, alloc: Global, segment: &PacketRef<'_>) -> Result<(), NoMemory>
        ensures { OnOk result (self.new ≡ record self.old {
          taken = taken_after (Comes (segment_of segment.now)) self.old;
          early = early_after (Comes (segment_of segment.now)) self.old;
          fin = fin_after (Comes (segment_of segment.now)) self.old;
        }) }
    {
        if !self.counts(segment) {
            return Ok(());
        }
        let (first, text, has_fin) = (
            self.first(segment),
            counted_text(segment),
            counts_fin(segment),
        );
        let stream = Stream {
            taken: self.taken.len() as u64,
            edge: self.receive_edge(),
            fin: self.fin,
        };
        let held = mem::replace(&mut self.held, Held::new(alloc));
        let Coming { added, held, fin } = Coming::of(alloc, stream, held, first, text, has_fin)?;
        self.taken.extend_from_slice(added.as_slice())?;
        self.held = held;
        self.fin = fin;
        Ok(())
    }

    /// Returns whether a segment acknowledges anything but the SYN, before the SYN is acknowledged. TCP answers it with a RST, which isn't passed on.
    fn is_refused(&self, segment: &PacketRef<'_>) -> bool
        ensures { result ≡ refused_lem self.now (segment_of segment.now) }
    {
        !self.syn_acked
            && has_ack(segment)
            && (self.ack(segment) < 0 || self.acknowledges_unsent(segment))
    }

    /// Returns whether a segment has an acknowledgement of what was never sent.
    fn is_unsent_ack(&self, segment: &PacketRef<'_>) -> bool
        ensures { result ≡ unsent_ack_lem self.now (segment_of segment.now) }
    {
        has_ack(segment) && self.acknowledges_unsent(segment)
    }

    /// Returns whether TCP answers an acceptable segment with an ACK.
    fn needs_ack_if_acceptable(&self, segment: &PacketRef<'_>) -> bool
        ensures { result ≡ acceptable_lem self.now (segment_of segment.now) }
    {
        if has_rst(segment) {
            !is_at(self.taken_units(), self.first(segment), 0)
        } else if has_syn(segment) {
            true
        } else {
            !self.is_refused(segment) && (segment_len(segment) > 0 || self.is_unsent_ack(segment))
        }
    }

    /// Returns whether TCP answers a segment with an ACK.
    #[tactic(auto, unfolding(ft_model::specs::PendingAck::needs_ack))]
    pub fn needs_ack(&self, segment: &PacketRef<'_>) -> bool
        ensures { result ≡ needs_lem self.now (segment_of segment.now) }
    {
        if self.accepts(segment) {
            self.needs_ack_if_acceptable(segment)
        } else {
            !has_rst(segment)
        }
    }

    /// Returns whether the client retransmits its SYN, while neither its stream nor the output has progressed.
    pub fn repeats_syn(&self, segment: &PacketRef<'_>) -> bool
        ensures { result ≡ repeats_lem self.now (segment_of segment.now) }
    {
        has_syn(segment)
            && !has_ack(segment)
            && !has_rst(segment)
            && segment.head.seq.0 == self.numbers.cisn
            && self.taken_units() == 0
            && self.una == 0
    }

    /// Returns whether the client resets the connection with this segment, or has reset it already.
    #[tactic(auto, unfolding(ft_model::specs::ResetAndEnd::reset_after))]
    pub fn resets(&self, segment: &PacketRef<'_>) -> bool
        ensures { result ≡ reset_after (Comes (segment_of segment.now)) self.now }
    {
        self.reset || (has_rst(segment) && is_at(self.taken_units(), self.first(segment), 0))
    }
}
