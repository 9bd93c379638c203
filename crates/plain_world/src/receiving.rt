//! What a client does with an arriving segment (RFC 9293, 3.10.7.3 and 3.10.7.4, for a client that sends nothing in reply).

ghost use Rattle.std.specs.Prelude.{◌≡◌, ◌+◌, ◌<◌, ◌^◌, pos, ◌+ℤ◌, ◌≤ℤ◌, OnOk, length};
ghost use Rattle.segment_codec.specs.Value.{segment_of as value_of};
ghost use Rattle.ft_model.specs.Client as machine;
ghost use Rattle.ft_model.specs.Client.{is_ended};
ghost use Rattle.plain_world.specs.Accepting.{added, next_text, is_fin_at as fin_lem};

use crate::client::PlainClient;
use ft_io::NoMemory;
use ft_model::Phase;
use plain_packets::{
    ack, counted_text, counts_fin, first, has_ack, has_rst, has_syn, is_acceptable, is_at,
    number_of, part, segment_len,
};
use segment_codec::PacketRef;
use tcp_rules::below;

/// Returns whether a FIN that is `len` past `first` is accepted: at the next offset, below the right edge.
#[tactic(auto, unfolding(crate::specs::Accepting::is_fin_at))]
fn is_fin_at(next: u64, edge: u64, first: i64, len: u64) -> bool
    requires { len < 2 ^ 63 }
    ensures { result ≡ fin_lem next edge (first +ℤ pos len) }
{
    is_at(next, first, len) && next < edge
}

impl PlainClient {
    /// Receives a segment. After `NoMemory` the client may only be dropped.
    pub fn receive(&mut self, segment: &PacketRef<'_>) -> Result<(), NoMemory>
        ensures { OnOk result (self.new ≡ machine.received self.old (value_of segment.now)) }
    {
        match self.phase {
            Phase::Opening => {
                self.open_by(segment);
                Ok(())
            }
            Phase::Established | Phase::Ended => self.arrive(segment),
            Phase::New | Phase::Reset => Ok(()),
        }
    }

    /// Receives a segment while the SYN is unacknowledged.
    fn open_by(&mut self, segment: &PacketRef<'_>)
        ensures { self.new ≡ machine.opened_by self.old (value_of segment.now) }
    {
        if !has_ack(segment) || segment.head.ack.0 != number_of(self.isn, 0) {
            return;
        }
        if has_rst(segment) {
            self.phase = Phase::Reset;
        } else if has_syn(segment) {
            self.phase = Phase::Established;
            self.sisn = segment.head.seq.0;
        }
    }

    /// Receives a segment while the connection is open.
    fn arrive(&mut self, segment: &PacketRef<'_>) -> Result<(), NoMemory>
        ensures { OnOk result (self.new ≡ machine.arrived self.old (value_of segment.now)) }
    {
        let next = self.accepted_units();
        let room = self.edge.saturating_sub(self.accepted.len() as u64);
        let first = first(self.sisn, segment);
        if !is_acceptable(next, room, first, segment_len(segment)) {
            return Ok(());
        }
        if has_rst(segment) {
            if is_at(next, first, 0) {
                self.phase = Phase::Reset;
            }
            return Ok(());
        }
        if has_syn(segment) || !has_ack(segment) {
            return Ok(());
        }
        self.use_segment(segment)
    }

    /// Uses an acceptable segment with ACK. If it acknowledges something that was not sent, it is dropped.
    fn use_segment(&mut self, segment: &PacketRef<'_>) -> Result<(), NoMemory>
        ensures { OnOk result (self.new ≡ machine.used self.old (value_of segment.now)) }
    {
        let ack = ack(self.isn, segment);
        if ack > i64::from(self.sent) {
            return Ok(());
        }
        let first = first(self.sisn, segment);
        self.accept(first, counted_text(segment), counts_fin(segment))?;
        self.note_ack(ack);
        Ok(())
    }

    /// Accepts what a text that begins at `first`, and the FIN after it, add to the server's stream. Anything after a gap is dropped.
    #[tactic(auto, using(crate::proofs::Alone::accepted_is))]
    fn accept(&mut self, first: i64, text: &[u8], fin: bool) -> Result<(), NoMemory>
        ensures { OnOk result (self.new ≡ machine.with_added self.old (added self.old first text.now fin)) }
    {
        let added = self.next_text(first, text);
        let next = (self.accepted.len() + added.len()) as u64;
        let ends = fin && is_fin_at(next, self.edge, first, text.len() as u64);
        self.accepted.extend_from_slice(added)?;
        if ends {
            self.phase = Phase::Ended;
        }
        Ok(())
    }

    /// Returns the part of a text that continues the accepted bytes, up to the right edge.
    #[tactic(auto, unfolding(crate::specs::Accepting::next_text))]
    pub(crate) fn next_text<'a>(&self, first: i64, text: &'a [u8]) -> &'a [u8]
        ensures { result.now ≡ next_text (length self.now.accepted) self.now.edge (is_ended self.now.phase) first text.now }
    {
        let next = self.accepted.len() as u64;
        if self.phase == Phase::Ended || (first >= 0 && first as u64 > next) {
            return &[];
        }
        part(text, below(next, first), self.edge.saturating_sub(next))
    }

    fn note_ack(&mut self, ack: i64)
        requires { ack ≤ℤ pos self.old.sent }
        ensures { self.new ≡ machine.with_ack self.old ack }
    {
        if ack > i64::from(self.acknowledged) {
            self.acknowledged = ack as u32;
        }
    }
}
