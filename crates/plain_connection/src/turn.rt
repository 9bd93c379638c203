//! One turn of a connection: it notes the news, the service reads on, what is sent and the timer are settled, and packets are sent. A connection that its
//! client resets, or has reset, only notes what is logged and reports that it is done.

ghost use Rattle.std.specs.Prelude.{◌≡◌, ◌≤◌, ◌^◌, ℕ, false, IfOk, OnOk};
ghost use Rattle.server_trait.specs.Service.{machine};
ghost use Rattle.ft_model.specs.Connection.{LiveTurn, sent_by};
ghost use Rattle.ft_model.specs.News.{News as model};
ghost use Rattle.ft_model.specs.Point.{Point};
ghost use Rattle.plain_packets.specs.Sent.{Appends};
ghost use Rattle.plain_point.specs.Turn.{noted};
ghost use Rattle.plain_connection.specs.State.{IsServed};
ghost use Rattle.plain_connection.specs.News.{news_in};
ghost use Rattle.plain_connection.specs.Before.{IsBefore};
ghost use Rattle.plain_connection.specs.Turn.{TakesTurn, reset_noted, settled_since};

use crate::before::Before;
use crate::connection::PlainConnection;
use crate::news::News;
use ft_io::{Addr, NoMemory};
use plain_packets::PlainPackets;
use server_trait::Service;
use std::alloc::Global;

/// The incarnation of a server that takes a turn.
#[derive(Clone, Copy)]
struct Incarnation {
    /// The server's address and port.
    server: Addr,
    /// Its boot number.
    boot: u64,
}

impl<S: Service> PlainConnection<S> {
    ghost use Rattle.ft_model.specs.ResetAndEnd.{is_end_tick as end_lem};
    ghost use Rattle.ft_model.specs.Sending.{sent_after as sent_lem};

    /// Notes what the news brings, before the service reads. After `NoMemory` the connection may only be dropped.
    #[tactic(auto, unfolding(crate::proofs::Unfolded::note_words))]
    fn note(&mut self, alloc: Global, news: &News<'_>) -> Result<(), NoMemory>
        ensures kind { self.new.kind ≡ self.old.kind }
        ensures noted { OnOk result (self.new ≡ record self.old { point = noted (news_in news.now) self.old.point }) }
    {
        match news {
            News::Segment(segment) => self.point.note_segment(alloc, segment),
            News::Logged(kept) => {
                self.point.note_logged(*kept);
                Ok(())
            }
            News::Tick => {
                self.point.note_tick();
                Ok(())
            }
            News::Begins => Ok(()),
        }
    }

    /// Returns whether the turn is an end tick: the connection is over, and all that is taken is known to be logged.
    fn is_end_tick(&self, news: &News<'_>) -> bool
        requires { IsServed (machine (S.started self.now.kind) S.after S.greeting) self.now }
        ensures { result ≡ end_lem (machine (S.started self.now.kind) S.after S.greeting) (news_in news.now) self.now.point }
    {
        match news {
            News::Tick => self.is_over() && self.point.is_all_answered(),
            News::Segment(_) | News::Logged(_) | News::Begins => false,
        }
    }

    /// Returns SND.NXT after the turn. If it doesn't fit its type, the result is `NoMemory`: no memory could hold so many units.
    fn sent_after(&self, before: &Before) -> Result<u64, NoMemory>
        requires { IsServed (machine (S.started self.now.kind) S.after S.greeting) self.now }
        ensures { (news : model) (p : Point) → IsBefore (machine (S.started self.now.kind) S.after S.greeting) news p before.now
            → IfOk result (λ sent. sent ≡ sent_lem (machine (S.started self.now.kind) S.after S.greeting) news p self.now.point) }
    {
        let at_once = self.sent_at_once(before);
        match at_once.checked_add(u64::from(before.probes)) {
            Some(sent) => Ok(sent),
            None => Err(NoMemory),
        }
    }

    /// Settles what is sent, the measurement of a round trip, the timer and the end ticks, once the service has read on. After `NoMemory` the connection may
    /// only be dropped.
    fn settle(&mut self, news: &News<'_>, before: &Before) -> Result<(), NoMemory>
        requires { IsServed (machine (S.started self.old.kind) S.after S.greeting) self.old }
        ensures kind { self.new.kind ≡ self.old.kind }
        ensures settled { (p : Point) → IsBefore (machine (S.started self.old.kind) S.after S.greeting) (news_in news.now) p before.now
            → OnOk result (self.new ≡ record self.old {
              point = settled_since (machine (S.started self.old.kind) S.after S.greeting)
                  (news_in news.now) p self.old.point;
            }) }
    {
        let sent = self.sent_after(before)?;
        let at_once = self.sent_at_once(before);
        let (target, ends) = (self.target(), self.is_end_tick(news));
        self.point.time_sent(before.sent, at_once);
        self.point.set_sent(sent);
        let must_run = self.point.must_run(target);
        self.point.set_timer(before.timer, news.is_tick(), must_run);
        self.point.count_end(ends);
        Ok(())
    }

    /// Takes the news of a connection that its client hasn't reset. It sends no packets. After `NoMemory` the connection may only be dropped.
    fn advance(&mut self, alloc: Global, news: &News<'_>, before: &Before) -> Result<(), NoMemory>
        requires served { IsServed (machine (S.started self.old.kind) S.after S.greeting) self.old }
        requires before { IsBefore (machine (S.started self.old.kind) S.after S.greeting) (news_in news.now) self.old.point before.now }
        requires live { before.now.reset ≡ false }
        ensures kind { self.new.kind ≡ self.old.kind }
        ensures served { OnOk result (IsServed (machine (S.started self.old.kind) S.after S.greeting) self.new) }
        ensures turn { (server : Addr) (boot : ℕ)
            → OnOk result (LiveTurn (machine (S.started self.old.kind) S.after S.greeting) server boot (news_in news.now) self.old.point self.new.point
            (sent_by (machine (S.started self.old.kind) S.after S.greeting) server boot (news_in news.now) self.old.point self.new.point)) }
    {
        self.note(alloc, news)?;
        self.read_on()?;
        self.settle(news, before)
    }

    /// Sends the packets of a turn, in their order, for a connection that its client hasn't reset. The connection is the one after the turn. After
    /// `NoMemory` the packets may only be dropped.
    fn send_turn(
        &self,
        alloc: Global,
        who: Incarnation,
        news: &News<'_>,
        before: &Before,
        sent: &mut PlainPackets,
    ) -> Result<(), NoMemory>
        requires served { IsServed (machine (S.started self.now.kind) S.after S.greeting) self.now }
        requires taken { before.now.taken ≤ 2 ^ 63 }
        ensures { (p : Point) → p.reset ≡ false → IsBefore (machine (S.started self.now.kind) S.after S.greeting) (news_in news.now) p before.now
            → OnOk result (Appends sent.old sent.new
            (sent_by (machine (S.started self.now.kind) S.after S.greeting) who.server who.boot (news_in news.now) p self.now.point)) }
    {
        let Incarnation { server, boot } = who;
        self.send_segments(alloc, server, before, sent)?;
        self.send_copies(alloc, boot, news, before, sent)?;
        self.send_reads_reported(alloc, boot, news, before, sent)?;
        self.send_dones(alloc, boot, news, false, sent)
    }

    /// Takes the news of a connection that its client resets, or has reset: it only notes what is logged.
    #[tactic(auto, unfolding(crate::proofs::Unfolded::note_words))]
    fn note_reset(&mut self, news: &News<'_>)
        ensures { self.new ≡ record self.old { point = reset_noted (news_in news.now) self.old.point } }
    {
        match news {
            News::Logged(kept) => {
                self.point.note_logged(*kept);
                self.point.set_reset();
            }
            News::Segment(_) | News::Tick | News::Begins => self.point.set_reset(),
        }
    }

    /// Takes one turn. After `NoMemory` the connection may only be dropped.
    pub fn turn(
        &mut self,
        alloc: Global,
        server: Addr,
        boot: u64,
        news: &News<'_>,
        sent: &mut PlainPackets,
    ) -> Result<(), NoMemory>
        requires { IsServed (machine (S.started self.old.kind) S.after S.greeting) self.old }
        ensures kind { self.new.kind ≡ self.old.kind }
        ensures served { OnOk result (IsServed (machine (S.started self.old.kind) S.after S.greeting) self.new) }
        ensures turn { OnOk result (TakesTurn (machine (S.started self.old.kind) S.after S.greeting) server boot
            (news_in news.now) self.old.point self.new.point sent.old sent.new) }
    {
        let before = self.before(news);
        if before.reset {
            let was_reset = self.point.is_reset();
            self.note_reset(news);
            return self.send_dones(alloc, boot, news, was_reset, sent);
        }
        self.advance(alloc, news, &before)?;
        self.send_turn(alloc, Incarnation { server, boot }, news, &before, sent)
    }
}
