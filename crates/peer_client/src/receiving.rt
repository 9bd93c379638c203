//! What the scripted client does with a packet that arrives (RFC 9293, 3.10.7.3 and 3.10.7.4, for a client that never answers).

ghost use Rattle.std.specs.Prelude.{◌≡◌, pos, ◌≤ℤ◌, OnOk, OnErr, length};
ghost use Rattle.segment_codec.specs.Value.{segment_of as value_of};
ghost use Rattle.ft_model.specs.Client as machine;
ghost use Rattle.ft_model.specs.Client.{is_ended};
ghost use Rattle.peer_client.specs.Scripted.{delivered, added, next_text};

use crate::arrival::{is_acceptable, is_at, is_fin_at, number_of, offset_of, part, skipped};
use crate::client::Client;
use crate::segment::{counted_text, counts_fin, has_ack, has_rst, has_syn, segment_len};
use ft_io::NoMemory;
use ft_model::Phase;
use segment_codec::{PacketRef, read_packet};
use std::alloc::Global;

impl Client {
    /// Receives a packet. Bytes that are no packet change nothing. After `NoMemory` the client is as before.
    pub fn deliver(&mut self, _alloc: Global, packet: &[u8]) -> Result<(), NoMemory>
        ensures taken { OnOk result (self.new ≡ delivered self.old packet.now) }
        ensures kept { OnErr result (self.new ≡ self.old) }
    {
        match read_packet(packet) {
            Ok(segment) => self.receive(&segment),
            Err(_) => Ok(()),
        }
    }

    fn receive(&mut self, segment: &PacketRef<'_>) -> Result<(), NoMemory>
        ensures taken { OnOk result (self.new ≡ machine.received self.old (value_of segment.now)) }
        ensures kept { OnErr result (self.new ≡ self.old) }
    {
        match self.phase {
            Phase::Opening => {
                self.open_by(segment);
                Ok(())
            }
            Phase::Established | Phase::Ended => self.arrive(segment),
            Phase::New | Phase::Reset => Ok(()),
        }
    }

    /// Handles a segment that arrives while the SYN is unacknowledged.
    fn open_by(&mut self, segment: &PacketRef<'_>)
        ensures { self.new ≡ machine.opened_by self.old (value_of segment.now) }
    {
        if !has_ack(segment) || segment.head.ack.0 != number_of(self.isn, 0) {
            return;
        }
        if has_rst(segment) {
            self.phase = Phase::Reset;
        } else if has_syn(segment) {
            self.phase = Phase::Established;
            self.sisn = segment.head.seq.0;
        }
    }

    /// Handles a segment that arrives while the connection is open.
    fn arrive(&mut self, segment: &PacketRef<'_>) -> Result<(), NoMemory>
        ensures taken { OnOk result (self.new ≡ machine.arrived self.old (value_of segment.now)) }
        ensures kept { OnErr result (self.new ≡ self.old) }
    {
        let next = self.accepted_units();
        let room = self.edge.saturating_sub(self.accepted.len() as u64);
        let first = offset_of(self.sisn, segment.head.seq.0);
        if !is_acceptable(next, room, first, segment_len(segment)) {
            return Ok(());
        }
        if has_rst(segment) {
            if is_at(next, first, 0) {
                self.phase = Phase::Reset;
            }
            return Ok(());
        }
        if has_syn(segment) || !has_ack(segment) {
            return Ok(());
        }
        self.use_segment(segment)
    }

    /// Handles an acceptable segment with ACK. A segment that acknowledges what was not sent is dropped. If an allocation for the text fails, the
    /// acknowledgement isn't used either.
    fn use_segment(&mut self, segment: &PacketRef<'_>) -> Result<(), NoMemory>
        ensures taken { OnOk result (self.new ≡ machine.used self.old (value_of segment.now)) }
        ensures kept { OnErr result (self.new ≡ self.old) }
    {
        let ack = offset_of(self.isn, segment.head.ack.0);
        if ack > i64::from(self.sent) {
            return Ok(());
        }
        let first = offset_of(self.sisn, segment.head.seq.0);
        self.accept(first, counted_text(segment), counts_fin(segment))?;
        self.note_ack(ack);
        Ok(())
    }

    /// Accepts what a text that begins at `first`, and the FIN after it, add to the server's stream. What comes after a gap is dropped.
    #[tactic(auto, using(crate::proofs::Alone::accepted_is))]
    fn accept(&mut self, first: i64, text: &[u8], fin: bool) -> Result<(), NoMemory>
        ensures taken { OnOk result (self.new ≡ machine.with_added self.old (added self.old first text.now fin)) }
        ensures kept { OnErr result (self.new ≡ self.old) }
    {
        let added = self.next_text(first, text);
        let next = (self.accepted.len() + added.len()) as u64;
        let ends = fin && is_fin_at(next, self.edge, first, text.len() as u64);
        self.accepted.extend_from_slice(added)?;
        if ends {
            self.phase = Phase::Ended;
        }
        Ok(())
    }

    /// The part of a text that continues what is accepted, up to the right edge.
    #[tactic(auto, unfolding(crate::specs::Scripted::next_text))]
    pub(crate) fn next_text<'a>(&self, first: i64, text: &'a [u8]) -> &'a [u8]
        ensures { result.now ≡ next_text (length self.now.accepted) self.now.edge (is_ended self.now.phase) first text.now }
    {
        let next = self.accepted.len() as u64;
        if self.phase == Phase::Ended || (first >= 0 && first as u64 > next) {
            return &[];
        }
        part(text, skipped(next, first), self.edge.saturating_sub(next))
    }

    fn note_ack(&mut self, ack: i64)
        requires { ack ≤ℤ pos self.old.sent }
        ensures { self.new ≡ machine.with_ack self.old ack }
    {
        if ack > i64::from(self.acknowledged) {
            self.acknowledged = ack as u32;
        }
    }
}
