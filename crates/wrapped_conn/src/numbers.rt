//! The offsets of a connection in its two streams, as its parts show them.

ghost use Rattle.limits.specs.Limits.{largest_segment, longest_stream, most_units};
ghost use Rattle.std.specs.Prelude.{◌≡◌, ◌≤◌, ◌+◌, ◌-◌, ◌^◌, ◌%◌, pos, nat_abs, length, max, min};
ghost use Rattle.tcp_rules.specs.Arrival.{int_eq};
ghost use Rattle.seq_arith.specs.Number.{number_at, offset_of};
ghost use Rattle.seq_arith.specs.Offset.{length_of as length_of_lem, text_of};
ghost use Rattle.segment_codec.specs.Value.{segment_of, said};
ghost use Rattle.ft_model.specs.Copy.{from_start};
ghost use Rattle.tcp_endpoint.specs.States.{is_closed};
ghost use Rattle.wrapped_conn.specs.Numbers.{has_fin as has_fin_lem, is_over as is_over_lem, fetched_or_read, bytes_taken, units_taken, advertised};
ghost use Rattle.wrapped_conn.specs.Numbers.{una_units, outer_sent};
ghost use Rattle.wrapped_conn.specs.Numbers.{sent_units, logged_units, acknowledgeable, resets, is_unsent_ack, needs_ack_if_acceptable, needs_ack};
ghost use Rattle.wrapped_conn.specs.LoggerMessages.{end_of};
ghost use Rattle.wrapped_conn.specs.Sound.{IsSound};

use crate::conn::{Conn, has_fin, is_over};
use limits::{BUFFER, STREAM};
use segment_codec::{Head, PacketRef};
use seq_arith::{ACK, FIN, RST, SYN, Seq, has};
use server_trait::Service;
use socket_layer::Socket;
use tcp_endpoint::StateName;
use tcp_rules::is_acceptable_or_at_edge;

/// The most units of a stream: its bytes and the FIN.
const UNITS: i64 = limits::UNITS as i64;

impl<S: Service> Conn<S> {
    /// Whether its TCP is CLOSED.
    pub(crate) fn is_closed(&self) -> bool
        ensures { result ≡ is_closed self.now.endpoint.name }
    {
        matches!(self.endpoint.state().name, StateName::Closed)
    }

    /// Whether the client's FIN is taken.
    pub(crate) fn has_fin(&self) -> bool
        ensures { result ≡ has_fin_lem self.now.endpoint.name }
    {
        has_fin(self.endpoint.state().name)
    }

    /// Whether the connection is over: the client's FIN is taken, and the server's is acknowledged.
    pub(crate) fn is_over(&self) -> bool
        ensures { result ≡ is_over_lem self.now.endpoint.name }
    {
        is_over(self.endpoint.state().name)
    }

    /// The offset up to which the client's bytes are read or fetched.
    pub(crate) fn fetched_or_read(&self) -> u32
        ensures { result ≡ fetched_or_read self.now }
    {
        self.fetched.max(self.north.read())
    }

    /// The client's bytes that are taken and not read.
    #[tactic(auto, using(crate::proofs::Small::buffered))]
    pub(crate) fn unread(&self) -> u32
        requires { IsSound self.now }
        ensures value { result ≡ length self.now.endpoint.receiving.unread }
        ensures most { result ≤ 65535 }
    {
        self.endpoint.readable() as u32
    }

    /// The client's bytes that are taken.
    #[tactic(auto, using(crate::proofs::Small::taken_small))]
    pub(crate) fn taken(&self) -> u32
        requires { IsSound self.now }
        ensures value { result ≡ bytes_taken self.now }
        ensures most { result ≤ longest_stream }
    {
        self.fetched_or_read() + self.unread()
    }

    /// The client's units that are taken.
    pub(crate) fn taken_units(&self) -> u32
        requires { IsSound self.now }
        ensures value { result ≡ units_taken self.now }
        ensures most { result ≤ most_units }
    {
        self.taken() + u32::from(self.has_fin())
    }

    /// The right edge that TCP advertises, as an offset.
    #[tactic(auto, using(crate::proofs::Small::taken_small))]
    pub(crate) fn edge(&self) -> u32
        requires { IsSound self.now }
        ensures value { result ≡ advertised self.now }
        ensures most { result ≤ most_units }
    {
        (self.fetched_or_read() + BUFFER).min(STREAM) + u32::from(self.has_fin())
    }

    /// The units of output that the client has acknowledged; 0 before the SYN is acknowledged.
    pub(crate) fn una(&self) -> u32
        ensures value { result ≡ una_units self.now }
        ensures most { result ≤ most_units }
    {
        let outer = self.endpoint.acked().add(self.south.delta());
        units(offset(self.south.sisn(), outer))
    }

    /// The sequence number after what TCP has sent, as the client knows it.
    pub(crate) fn sent_number(&self) -> Seq
        ensures { result.0 ≡ outer_sent self.now }
    {
        self.endpoint.sent().add(self.south.delta())
    }

    /// Where TCP's sent output ends, in units from the connection's start.
    pub(crate) fn sent(&self) -> u32
        ensures { result ≡ sent_units self.now }
    {
        self.sent_number().minus(self.south.sisn().add(1))
    }

    /// The client's units that are known to be logged.
    pub(crate) fn logged(&self) -> u32
        ensures { result ≡ logged_units self.now }
    {
        self.south.stable().minus(self.south.cisn().add(1))
    }

    /// The client's units that may be acknowledged: those that are both taken and known to be logged.
    pub(crate) fn acknowledgeable(&self) -> u32
        requires { IsSound self.now }
        ensures { result ≡ acknowledgeable self.now }
    {
        self.taken_units().min(self.logged())
    }

    /// Where a segment begins in the client's stream.
    fn place_of(&self, head: &Head) -> i64
        ensures value { result ≡ offset_of self.now.south.cisn (said head.now).seq }
        ensures within { nat_abs result ≤ 2 ^ 31 }
    {
        offset(self.south.cisn(), head.seq)
    }

    /// The offset at which a segment's text ends in the client's stream, limited to the range from 0 to 2^24 + 1.
    pub(crate) fn text_end(&self, segment: &PacketRef<'_>) -> u32
        requires { length segment.now.payload.now ≤ largest_segment }
        ensures { result ≡ min (from_start (end_of (segment_of segment.now) self.now)) most_units }
    {
        units(self.place_of(&segment.head) + i64::from(text_length(segment)))
    }

    /// Whether a segment begins at exactly the next number.
    fn begins_at_next(&self, head: &Head) -> bool
        requires { IsSound self.now }
        ensures { result ≡ int_eq (offset_of self.now.south.cisn (said head.now).seq) (pos (units_taken self.now)) }
    {
        self.place_of(head) == i64::from(self.taken_units())
    }

    /// Whether a segment resets the connection: a RST at exactly the next number does (RFC 5961, 3.2).
    pub(crate) fn is_reset_by(&self, segment: &PacketRef<'_>) -> bool
        requires { IsSound self.now }
        ensures { result ≡ resets self.now (segment_of segment.now) }
    {
        has(segment.head.flags, RST) && self.begins_at_next(&segment.head)
    }

    /// Whether a segment acknowledges something that was never sent.
    fn is_unsent_ack(&self, segment: &PacketRef<'_>) -> bool
        ensures { result ≡ is_unsent_ack self.now (segment_of segment.now) }
    {
        has(segment.head.flags, ACK) && self.south.acknowledges_unsent(segment.head.ack)
    }

    /// Whether a segment makes an ACK pending by TCP's rules (RFC 9293, 3.10.7.4), once the SYN is acknowledged.
    #[tactic(auto, unfolding(crate::specs::Numbers::needs_ack))]
    pub(crate) fn needs_ack(&self, segment: &PacketRef<'_>) -> bool
        requires sound { IsSound self.now }
        requires short { length segment.now.payload.now ≤ largest_segment }
        ensures { result ≡ needs_ack self.now (segment_of segment.now) }
    {
        let first = self.place_of(&segment.head);
        let next = self.taken_units();
        let len = length_of(segment);
        let room = self.edge().saturating_sub(next);
        if !is_acceptable_or_at_edge(next, room, first, len) {
            return !has(segment.head.flags, RST);
        }
        self.needs_ack_if_acceptable(segment)
    }

    /// Whether an acceptable segment makes an ACK pending.
    pub(crate) fn needs_ack_if_acceptable(&self, segment: &PacketRef<'_>) -> bool
        requires sound { IsSound self.now }
        requires short { length segment.now.payload.now ≤ largest_segment }
        ensures { result ≡ needs_ack_if_acceptable self.now (segment_of segment.now) }
    {
        let head = &segment.head;
        if has(head.flags, RST) {
            return !self.begins_at_next(head);
        }
        if has(head.flags, SYN) {
            return true;
        }
        0 < length_of(segment) || self.is_unsent_ack(segment)
    }
}

/// The offset of a sequence number in the stream with this initial sequence number.
#[tactic(auto, unfolding(seq_arith::specs::Number::offset_of))]
fn offset(isn: Seq, number: Seq) -> i64
    ensures value { result ≡ offset_of isn.0 number.0 }
    ensures within { nat_abs result ≤ 2 ^ 31 }
{
    number.signed_gap(isn.add(1))
}

/// An offset as units of a stream, limited to the range from 0 to 2^24 + 1.
fn units(offset: i64) -> u32
    requires { nat_abs offset ≤ 2 ^ 32 }
    ensures value { result ≡ min (from_start offset) most_units }
    ensures most { result ≤ most_units }
{
    if offset < 0 {
        return 0;
    }
    offset.min(UNITS) as u32
}

/// SEG.LEN: the text and the FIN, or only the SYN; 0 for a RST.
fn length_of(segment: &PacketRef<'_>) -> u32
    requires { length segment.now.payload.now ≤ largest_segment }
    ensures value { result ≡ length_of_lem (segment_of segment.now) }
    ensures most { result ≤ 2 ^ 16 }
{
    if has(segment.head.flags, RST) {
        return 0;
    }
    if has(segment.head.flags, SYN) {
        return 1;
    }
    segment.payload.len() as u32 + u32::from(has(segment.head.flags, FIN))
}

/// The length of a segment's text: none of it counts with SYN or RST.
fn text_length(segment: &PacketRef<'_>) -> u32
    requires { length segment.now.payload.now ≤ largest_segment }
    ensures value { result ≡ length (text_of (segment_of segment.now)) }
    ensures most { result ≤ largest_segment }
{
    if has(segment.head.flags, SYN) || has(segment.head.flags, RST) {
        return 0;
    }
    segment.payload.len() as u32
}
