//! What a turn sends to the client (RFC 9293, 3.8.1, 3.8.3, 3.8.6.1 and 3.10.7.4; RFC 5681, 3.2). All of it is computed from the connection after the turn,
//! and from what the turn compares with the connection before it.

ghost use Rattle.std.specs.Prelude.{◌≡◌, ◌<◌, ◌+◌, ◌^◌, ◌&&◌, not, [], ◌∷◌, map, OnOk, IfOk};
ghost use Rattle.segment_codec.specs.Value.{segment_of};
ghost use Rattle.server_trait.specs.Service.{machine};
ghost use Rattle.ft_model.specs.Network.Packet.{To_client};
ghost use Rattle.ft_model.specs.News.{News};
ghost use Rattle.ft_model.specs.Point.{Point};
ghost use Rattle.plain_packets.specs.Sent.{Appends};
ghost use Rattle.plain_connection.specs.State.{IsServed};
ghost use Rattle.plain_connection.specs.Before.{IsBefore};
ghost use Rattle.plain_connection.specs.Since.{Sends, having_sent, syn_acks_since, resent_since, full_segments_since, is_delayed_since};
ghost use Rattle.plain_connection.specs.Since.{is_ack_due_since, is_ack_pending_since};

use crate::before::Before;
use crate::connection::PlainConnection;
use ft_io::{Addr, NoMemory};
use plain_packets::{PlainPackets, part};
use segment_codec::PacketRef;
use seq_arith::{ACK, FIN};
use server_trait::Service;
use std::alloc::Global;

/// Sends a segment. The result is true: some segment is sent.
fn send(alloc: Global, segment: &PacketRef<'_>, sent: &mut PlainPackets) -> Result<bool, NoMemory>
    ensures { IfOk result (λ any. Sends any sent.old sent.new (segment_of segment.now ∷ [])) }
{
    sent.send_to_client(alloc, segment)?;
    Ok(true)
}

impl<S: Service> PlainConnection<S> {
    ghost use Rattle.ft_model.specs.Point.{target as target_lem};
    ghost use Rattle.ft_model.specs.Sending.{sent_at_once as at_once_lem};
    ghost use Rattle.ft_model.specs.Segments.{segments_of, text_at as text_lem, texts as texts_lem, fin_segment as fin_lem, fin_if_closed};
    ghost use Rattle.ft_model.specs.Segments.{resent_length as resent_lem, first_unacknowledged, probe, is_unacknowledged as unacknowledged_lem};
    ghost use Rattle.ft_model.specs.Segments.{new_texts, new_fin};

    /// Returns how many units may be sent: the output of the answered reads, and the FIN after it if they have closed the service.
    pub fn target(&self) -> u64
        requires { IsServed (machine (S.started self.now.kind) S.after S.greeting) self.now }
        ensures { result ≡ target_lem (machine (S.started self.now.kind) S.after S.greeting) self.now.point }
    {
        self.output().len() as u64 + u64::from(self.answered_end().closed)
    }

    /// Returns SND.NXT after the turn, not counting a probe.
    #[tactic(auto, using(crate::proofs::Sends::at_once_since), unfolding(ft_model::specs::Sending::sent_at_once))]
    pub(crate) fn sent_at_once(&self, before: &Before) -> u64
        requires { IsServed (machine (S.started self.now.kind) S.after S.greeting) self.now }
        ensures value { result ≡ at_once_lem (machine (S.started self.now.kind) S.after S.greeting)
            (having_sent before.now.sent self.now.point) self.now.point }
        ensures turn { (news : News) (p : Point) → IsBefore (machine (S.started self.now.kind) S.after S.greeting) news p before.now
            → result ≡ at_once_lem (machine (S.started self.now.kind) S.after S.greeting) p self.now.point }
    {
        before.sent.max(self.target().min(self.point.send_edge()))
    }

    /// Returns a segment with `n` bytes of output, from an offset on.
    fn text_at(&self, server: Addr, offset: u64, n: u64) -> PacketRef<'_>
        requires { IsServed (machine (S.started self.now.kind) S.after S.greeting) self.now }
        ensures { segment_of result ≡ text_lem (machine (S.started self.now.kind) S.after S.greeting) server self.now.point offset n }
    {
        let text = part(self.output(), offset, n);
        self.point.segment_at(server, offset, ACK, text)
    }

    /// Sends the SYN-ACK if it answers the news. Returns whether it does.
    fn send_syn_ack(
        &self,
        alloc: Global,
        server: Addr,
        before: &Before,
        sent: &mut PlainPackets,
    ) -> Result<bool, NoMemory>
        ensures { IfOk result (λ any. Sends any sent.old sent.new (syn_acks_since server before.now self.now.point)) }
    {
        if !before.opens {
            return Ok(false);
        }
        send(alloc, &self.point.syn_ack(server), sent)
    }

    /// Sends the FIN, in a segment of its own, if an answered read has closed the service. Returns whether one has.
    fn send_fin_if_closed(
        &self,
        alloc: Global,
        server: Addr,
        sent: &mut PlainPackets,
    ) -> Result<bool, NoMemory>
        requires { IsServed (machine (S.started self.now.kind) S.after S.greeting) self.now }
        ensures { IfOk result (λ any. Sends any sent.old sent.new
            (fin_if_closed (machine (S.started self.now.kind) S.after S.greeting) server self.now.point)) }
    {
        if !self.answered_end().closed {
            return Ok(false);
        }
        let segment = self
            .point
            .segment_at(server, self.released(), FIN | ACK, &[]);
        send(alloc, &segment, sent)
    }

    /// Returns how many bytes are retransmitted: at most a segment of what was sent, and at most the client's room, which counts as at least one byte.
    fn resent_length(&self, before: &Before) -> u64
        requires { IsServed (machine (S.started self.now.kind) S.after S.greeting) self.now }
        ensures { result ≡ resent_lem (machine (S.started self.now.kind) S.after S.greeting) (having_sent before.now.sent self.now.point) self.now.point }
    {
        let una = self.point.una();
        let unacknowledged = before.sent.min(self.released()).saturating_sub(una);
        let room = self.point.edge().saturating_sub(una).max(1);
        u64::from(self.point.mss()).min(unacknowledged.min(room))
    }

    /// Retransmits the first unacknowledged segment: the SYN-ACK, else the FIN if all released output is acknowledged, else text from SND.UNA on. Returns
    /// whether it sends one.
    fn send_first_unacknowledged(
        &self,
        alloc: Global,
        server: Addr,
        before: &Before,
        sent: &mut PlainPackets,
    ) -> Result<bool, NoMemory>
        requires { IsServed (machine (S.started self.now.kind) S.after S.greeting) self.now }
        ensures { IfOk result (λ any. Sends any sent.old sent.new
            (first_unacknowledged (machine (S.started self.now.kind) S.after S.greeting) server (having_sent before.now.sent self.now.point) self.now.point)) }
    {
        if !self.point.syn_acked() {
            return send(alloc, &self.point.syn_ack(server), sent);
        }
        let una = self.point.una();
        if una == self.released() {
            return self.send_fin_if_closed(alloc, server, sent);
        }
        let segment = self.text_at(server, una, self.resent_length(before));
        send(alloc, &segment, sent)
    }

    /// Sends the probe, at SND.NXT: one byte, or the FIN if no byte is waiting. Returns whether it sends one.
    fn send_probe(
        &self,
        alloc: Global,
        server: Addr,
        before: &Before,
        sent: &mut PlainPackets,
    ) -> Result<bool, NoMemory>
        requires { IsServed (machine (S.started self.now.kind) S.after S.greeting) self.now }
        ensures { IfOk result (λ any. Sends any sent.old sent.new
            (probe (machine (S.started self.now.kind) S.after S.greeting) server (having_sent before.now.sent self.now.point) self.now.point)) }
    {
        if before.sent >= self.released() {
            return self.send_fin_if_closed(alloc, server, sent);
        }
        let segment = self.text_at(server, before.sent, 1);
        send(alloc, &segment, sent)
    }

    /// Returns whether something that was sent is unacknowledged: the SYN, or a unit of output.
    fn is_unacknowledged(&self, before: &Before) -> bool
        ensures { result ≡ unacknowledged_lem (having_sent before.now.sent self.now.point) self.now.point }
    {
        !self.point.syn_acked() || self.point.una() < before.sent
    }

    /// Sends one more segment if the timer expires, and at the third duplicate acknowledgement: a retransmission, or else a probe. Returns whether it sends
    /// one.
    fn resend(
        &self,
        alloc: Global,
        server: Addr,
        before: &Before,
        sent: &mut PlainPackets,
    ) -> Result<bool, NoMemory>
        requires { IsServed (machine (S.started self.now.kind) S.after S.greeting) self.now }
        ensures { IfOk result (λ any. Sends any sent.old sent.new
            (resent_since (machine (S.started self.now.kind) S.after S.greeting) server before.now self.now.point)) }
    {
        if !before.resends {
            return Ok(false);
        }
        if self.is_unacknowledged(before) {
            self.send_first_unacknowledged(alloc, server, before, sent)
        } else {
            self.send_probe(alloc, server, before, sent)
        }
    }

    /// Sends `len` bytes of output from `from` on, in segments of the segment size; the last one may be shorter.
    fn send_texts(
        &self,
        alloc: Global,
        server: Addr,
        from: u64,
        len: u64,
        sent: &mut PlainPackets,
    ) -> Result<(), NoMemory>
        requires served { IsServed (machine (S.started self.now.kind) S.after S.greeting) self.now }
        requires within { from + len < 2 ^ 64 }
        ensures { OnOk result (Appends sent.old sent.new
            (map To_client (texts_lem (machine (S.started self.now.kind) S.after S.greeting) server self.now.point len from len))) }
    {
        let size = u64::from(self.point.mss());
        let (mut offset, mut left) = (from, len);
        for _step in 0..len {
            if left == 0 {
                return Ok(());
            }
            let n = left.min(size);
            sent.send_to_client(alloc, &self.text_at(server, offset, n))?;
            offset += n;
            left -= n;
        }
        Ok(())
    }

    /// Sends the output that is sent for the first time. Returns whether there is some.
    fn send_new_texts(
        &self,
        alloc: Global,
        server: Addr,
        before: &Before,
        sent: &mut PlainPackets,
    ) -> Result<bool, NoMemory>
        requires { IsServed (machine (S.started self.now.kind) S.after S.greeting) self.now }
        ensures { IfOk result (λ any. Sends any sent.old sent.new
            (new_texts (machine (S.started self.now.kind) S.after S.greeting) server (having_sent before.now.sent self.now.point) self.now.point)) }
    {
        let end = self.sent_at_once(before).min(self.released());
        let len = end.saturating_sub(before.sent);
        self.send_texts(alloc, server, before.sent, len, sent)?;
        Ok(len > 0)
    }

    /// Sends the FIN if it is sent for the first time. Returns whether it is.
    #[tactic(auto, unfolding(ft_model::specs::Segments::new_fin))]
    fn send_new_fin(
        &self,
        alloc: Global,
        server: Addr,
        before: &Before,
        sent: &mut PlainPackets,
    ) -> Result<bool, NoMemory>
        requires { IsServed (machine (S.started self.now.kind) S.after S.greeting) self.now }
        ensures { IfOk result (λ any. Sends any sent.old sent.new
            (new_fin (machine (S.started self.now.kind) S.after S.greeting) server (having_sent before.now.sent self.now.point) self.now.point)) }
    {
        let released = self.released();
        if released >= self.sent_at_once(before) || before.sent > released {
            return Ok(false);
        }
        self.send_fin_if_closed(alloc, server, sent)
    }

    /// Returns whether the ACK of what is taken waits for the log: nothing is held after a gap, and the ACK would repeat the last acknowledgement and the last
    /// window.
    fn is_delayed(&self, before: &Before) -> bool
        ensures { result ≡ is_delayed_since before.now self.now.point }
    {
        before.delays
            && before.arrives
            && before.units < self.point.taken_units()
            && self.point.holds_no_text()
            && self.point.holds_no_fin()
            && before.acknowledged == self.point.acknowledgement()
            && before.window == self.point.window()
    }

    /// Returns whether an ACK is due: the news requires a segment, more is known to be logged, or RCV.NXT or the advertised right edge has changed.
    fn is_ack_due(&self, before: &Before) -> bool
        ensures { result ≡ is_ack_due_since before.now self.now.point }
    {
        before.asks
            || before.answered < self.point.answered()
            || before.units != self.point.taken_units()
            || before.edge != self.point.advertised_edge()
    }

    /// Returns whether an ACK is pending: it is due, and doesn't wait.
    fn is_ack_pending(&self, before: &Before) -> bool
        ensures { result ≡ is_ack_pending_since before.now self.now.point }
    {
        !self.is_delayed(before) && self.is_ack_due(before)
    }

    /// Returns whether a pure ACK is sent: an ACK is pending, and no other segment is sent.
    fn is_bare_due(&self, any: bool, before: &Before) -> bool
        ensures { result ≡ (not any && is_ack_pending_since before.now self.now.point) }
    {
        !any && self.is_ack_pending(before)
    }

    /// Sends all segments except a pure ACK, in order. Returns whether there are any.
    fn send_full_segments(
        &self,
        alloc: Global,
        server: Addr,
        before: &Before,
        sent: &mut PlainPackets,
    ) -> Result<bool, NoMemory>
        requires { IsServed (machine (S.started self.now.kind) S.after S.greeting) self.now }
        ensures { IfOk result (λ any. Sends any sent.old sent.new
            (full_segments_since (machine (S.started self.now.kind) S.after S.greeting) server before.now self.now.point)) }
    {
        let opens = self.send_syn_ack(alloc, server, before, sent)?;
        let resends = self.resend(alloc, server, before, sent)?;
        let proceeds = self.send_new_texts(alloc, server, before, sent)?;
        let ends = self.send_new_fin(alloc, server, before, sent)?;
        Ok(opens | resends | proceeds | ends)
    }

    /// Sends the segments of a turn, given the connection after it: a pure ACK exactly if an ACK is pending and no other segment is sent.
    pub(crate) fn send_segments(
        &self,
        alloc: Global,
        server: Addr,
        before: &Before,
        sent: &mut PlainPackets,
    ) -> Result<(), NoMemory>
        requires { IsServed (machine (S.started self.now.kind) S.after S.greeting) self.now }
        ensures { (news : News) (p : Point) → IsBefore (machine (S.started self.now.kind) S.after S.greeting) news p before.now
            → OnOk result (Appends sent.old sent.new
            (map To_client (segments_of (machine (S.started self.now.kind) S.after S.greeting) server news p self.now.point))) }
    {
        let any = self.send_full_segments(alloc, server, before, sent)?;
        if !self.is_bare_due(any, before) {
            return Ok(());
        }
        sent.send_to_client(alloc, &self.point.bare_segment(server))
    }
}
