//! What a turn sends to the logger: copies of the client's text, the lengths of reads, and that the connection is done. A message that has no spelling isn't
//! sent: one whose offset, acknowledged units or read index is past its field's range.

ghost use Rattle.limits.specs.Limits.{largest_segment};
ghost use Rattle.std.specs.Prelude.{◌≡◌, ◌≤◌, ◌+◌, ◌^◌, ◌&&◌, ◌||◌, nat_lt, Bool, [], ◌∷◌, length, map, drop, OnOk};
ghost use Rattle.server_trait.specs.Service.{machine};
ghost use Rattle.seq_arith.specs.Message.Body.{DataMsg, ReadMsg, DoneMsg};
ghost use Rattle.ft_model.specs.Connection.{reported_by};
ghost use Rattle.ft_model.specs.Point.{Point};
ghost use Rattle.ft_model.specs.Reads.{read_messages};
ghost use Rattle.segment_codec.specs.Value.{segment_of};
ghost use Rattle.plain_point.specs.Values.{data_in};
ghost use Rattle.plain_packets.specs.Sent.{Appends};
ghost use Rattle.plain_connection.specs.News.{news_in};
ghost use Rattle.plain_connection.specs.Before.{IsBefore};
ghost use Rattle.plain_connection.specs.Copying.{batched, datas_of, followed};

use crate::before::Before;
use crate::connection::PlainConnection;
use crate::news::News;
use ft_io::{Key, NoMemory};
use limits::{STREAM, TEXT, UNITS};
use logger_wire::{Body, Msg, Part};
use plain_packets::PlainPackets;
use plain_point::Data;
use segment_codec::PacketRef;
use server_trait::Service;
use std::alloc::Global;

/// Sends a part of the client's stream. `more` says that a later part of the turn is answered in place of this one. After `NoMemory` the packets may only be
/// dropped.
#[tactic(auto, using(crate::proofs::Spelled::far_data, crate::proofs::Spelled::high_data))]
fn send_data(
    alloc: Global,
    boot: u64,
    part: &Data<'_>,
    more: bool,
    sent: &mut PlainPackets,
) -> Result<(), NoMemory>
    ensures { OnOk result (Appends sent.old sent.new (reported_by boot (DataMsg (followed more (data_in part.now))) ∷ [])) }
{
    if part.offset > u64::from(STREAM) || part.acked > u64::from(UNITS) {
        return Ok(());
    }
    let body = Body::Data(Part {
        key: part.key,
        offset: part.offset as u32,
        acked: part.acked as u32,
        fin: !more && part.fin,
        more,
        bytes: part.bytes,
    });
    sent.send_to_logger(alloc, &Msg { boot, body })
}

/// Returns whether a part has text or the FIN.
fn has_any(part: &Data<'_>) -> bool
    ensures { result ≡ (nat_lt 0 (length part.now.bytes.now) || part.now.fin) }
{
    !part.bytes.is_empty() || part.fin
}

/// Returns whether the part before this one is answered by it: this one has text or the FIN, and the turn's Data are a batch.
fn follows(part: &Data<'_>, batches: bool) -> bool
    ensures { result ≡ ((nat_lt 0 (length part.now.bytes.now) || part.now.fin) && batches) }
{
    has_any(part) && batches
}

/// Sends the last part of a text, at most 1,460 bytes, if it has text or the FIN. After `NoMemory` the packets may only be dropped.
#[tactic(auto, using(crate::proofs::Copies::last_sent, crate::proofs::Copies::none_sent))]
fn send_last(
    alloc: Global,
    boot: u64,
    part: &Data<'_>,
    sent: &mut PlainPackets,
) -> Result<(), NoMemory>
    requires { length part.now.bytes.now ≤ largest_segment }
    ensures { (batches : Bool) → OnOk result (Appends sent.old sent.new (map (reported_by boot) (batched batches (datas_of (data_in part.now))))) }
{
    if has_any(part) {
        send_data(alloc, boot, part, false, sent)
    } else {
        Ok(())
    }
}

/// Sends a part of the client's stream, in messages of 1,460 bytes each except the last, which has the FIN. In a batch only the last is answered. After
/// `NoMemory` the packets may only be dropped.
#[tactic(auto, using(crate::proofs::Reporting::reporting_begins))]
fn send_datas(
    alloc: Global,
    boot: u64,
    part: &Data<'_>,
    batches: bool,
    sent: &mut PlainPackets,
) -> Result<(), NoMemory>
    requires { part.now.offset + length part.now.bytes.now ≤ 2 ^ 63 }
    ensures { OnOk result (Appends sent.old sent.new (map (reported_by boot) (batched batches (datas_of (data_in part.now))))) }
{
    let mut rest = *part;
    while rest.bytes.len() > TEXT {
        let (bytes, behind) = rest.bytes.split_at(TEXT);
        let full = Data {
            fin: false,
            bytes,
            ..rest
        };
        send_data(alloc, boot, &full, batches, sent)?;
        rest = Data {
            offset: rest.offset + TEXT as u64,
            bytes: behind,
            ..rest
        };
    }
    send_last(alloc, boot, &rest, sent)
}

/// Sends the length of one read. After `NoMemory` the packets may only be dropped.
#[tactic(auto, using(crate::proofs::Spelled::far_read))]
fn send_read(
    alloc: Global,
    boot: u64,
    key: Key,
    index: usize,
    length: u16,
    sent: &mut PlainPackets,
) -> Result<(), NoMemory>
    ensures { OnOk result (Appends sent.old sent.new (reported_by boot (ReadMsg key index length) ∷ [])) }
{
    if index as u64 > u64::from(UNITS) {
        return Ok(());
    }
    let body = Body::Read {
        key,
        index: index as u32,
        length,
    };
    sent.send_to_logger(alloc, &Msg { boot, body })
}

/// Sends the lengths of the reads from this one on. After `NoMemory` the packets may only be dropped.
#[tactic(auto, using(crate::proofs::Reporting::reporting_begins))]
fn send_reads(
    alloc: Global,
    boot: u64,
    key: Key,
    first: usize,
    lengths: &[u16],
    sent: &mut PlainPackets,
) -> Result<(), NoMemory>
    ensures { OnOk result (Appends sent.old sent.new (map (reported_by boot) (read_messages key first (drop first lengths.now)))) }
{
    for index in first..lengths.len() {
        send_read(alloc, boot, key, index, lengths[index], sent)?;
    }
    Ok(())
}

impl<S: Service> PlainConnection<S> {
    ghost use Rattle.ft_model.specs.Copy.{copies};
    ghost use Rattle.ft_model.specs.News.News.{Comes};
    ghost use Rattle.ft_model.specs.Reads.{first_reported, reads_reported};
    ghost use Rattle.ft_model.specs.ResetAndEnd.{dones, reports_done};

    /// Sends what is copied because of a segment, given the connection after the turn: the segment's own part, then what was held, as a batch if the log
    /// answers only the last Data of a turn. Each message reports SND.UNA. If there is no part, and SND.UNA rose, one message reports it alone. After
    /// `NoMemory` the packets may only be dropped.
    fn send_copied(
        &self,
        alloc: Global,
        boot: u64,
        segment: &PacketRef<'_>,
        before: &Before,
        sent: &mut PlainPackets,
    ) -> Result<(), NoMemory>
        requires { before.now.taken ≤ 2 ^ 63 }
        ensures { (p : Point) → before.now.taken ≡ length p.taken → before.now.fin ≡ p.fin → before.now.una ≡ p.una
            → OnOk result (Appends sent.old sent.new (map (reported_by boot) (copies (Comes (segment_of segment.now)) p self.now.point))) }
    {
        let batches = self.point.batches();
        let further = self.point.further_data(before.taken, before.fin, segment);
        match self.point.own_data(segment) {
            Some(own) => {
                let more = follows(&further, batches);
                send_data(alloc, boot, &own, more, sent)?;
                send_datas(alloc, boot, &further, batches, sent)
            }
            None => {
                if has_any(&further) {
                    return send_datas(alloc, boot, &further, batches, sent);
                }
                if before.una < self.point.una() {
                    return send_data(alloc, boot, &self.point.una_data(), false, sent);
                }
                Ok(())
            }
        }
    }

    /// Sends copies of the client's text, given the connection after the turn. After `NoMemory` the packets may only be dropped.
    #[tactic(auto, unfolding(ft_model::specs::Copy::copies), using(plain_packets::proofs::Sent::appends_none))]
    pub(crate) fn send_copies(
        &self,
        alloc: Global,
        boot: u64,
        news: &News<'_>,
        before: &Before,
        sent: &mut PlainPackets,
    ) -> Result<(), NoMemory>
        requires { before.now.taken ≤ 2 ^ 63 }
        ensures { (p : Point) → IsBefore (machine (S.started self.now.kind) S.after S.greeting) (news_in news.now) p before.now
            → OnOk result (Appends sent.old sent.new (map (reported_by boot) (copies (news_in news.now) p self.now.point))) }
    {
        match news {
            News::Segment(segment) => self.send_copied(alloc, boot, segment, before, sent),
            News::Logged(_) | News::Tick | News::Begins => Ok(()),
        }
    }

    /// Returns the first read whose length is sent: a new one, or at a tick the first unanswered one.
    pub(crate) fn first_reported(&self, news: &News<'_>, before: &Before) -> usize
        ensures { (p : Point) → IsBefore (machine (S.started self.now.kind) S.after S.greeting) (news_in news.now) p before.now
            → result ≡ first_reported (news_in news.now) p self.now.point }
    {
        match news {
            News::Tick => self.point.reads_answered(),
            News::Segment(_) | News::Logged(_) | News::Begins => before.reads,
        }
    }

    /// Sends the lengths of the reads of this turn, and at a tick those of all unanswered reads, given the connection after the turn. After `NoMemory` the
    /// packets may only be dropped.
    pub(crate) fn send_reads_reported(
        &self,
        alloc: Global,
        boot: u64,
        news: &News<'_>,
        before: &Before,
        sent: &mut PlainPackets,
    ) -> Result<(), NoMemory>
        ensures { (p : Point) → IsBefore (machine (S.started self.now.kind) S.after S.greeting) (news_in news.now) p before.now
            → OnOk result (Appends sent.old sent.new (map (reported_by boot) (reads_reported (news_in news.now) p self.now.point))) }
    {
        let first = self.first_reported(news, before);
        let (key, lengths) = (self.point.key(), self.point.lengths());
        send_reads(alloc, boot, key, first, lengths, sent)
    }

    /// Returns whether the turn reports that the connection is done: in the turn of the reset, at the fourth end tick, and at each tick from then on.
    /// `was_reset` says whether it was reset before the turn.
    fn reports_done(&self, news: &News<'_>, was_reset: bool) -> bool
        ensures { (p : Point) → was_reset ≡ p.reset → result ≡ reports_done (news_in news.now) p self.now.point }
    {
        let is_reset = self.point.is_reset();
        (is_reset && !was_reset) || (news.is_tick() && (is_reset || self.point.end_ticks() == 4))
    }

    /// Sends a Done, if the turn reports that the connection is done. After `NoMemory` the packets may only be dropped.
    #[tactic(auto, unfolding(ft_model::specs::ResetAndEnd::dones), using(plain_packets::proofs::Sent::appends_none))]
    pub(crate) fn send_dones(
        &self,
        alloc: Global,
        boot: u64,
        news: &News<'_>,
        was_reset: bool,
        sent: &mut PlainPackets,
    ) -> Result<(), NoMemory>
        ensures { (p : Point) → was_reset ≡ p.reset
            → OnOk result (Appends sent.old sent.new (map (reported_by boot) (dones (news_in news.now) p self.now.point))) }
    {
        if !self.reports_done(news, was_reset) {
            return Ok(());
        }
        let body = Body::Done {
            key: self.point.key(),
        };
        sent.send_to_logger(alloc, &Msg { boot, body })
    }
}
