//! The north wrapper.

ghost use Rattle.limits.specs.Limits.{longest_stream, most_units};
ghost use Rattle.std.specs.Prelude.{◌≡◌, ◌∷◌, ◌||◌, false, ℕ, ◌+◌, ◌-◌, ◌^◌, ◌<◌, ◌≤◌, ◌==◌, ◌&&◌, Some, List, [], ◌++◌, length, take};
ghost use Rattle.std.specs.Prelude.{drop, OnOk, IfOk, IfSome};
ghost use Rattle.server_trait.specs.Service.{machine};
ghost use Rattle.ft_model.specs.Offset.{one_if};
ghost use Rattle.ft_model.specs.Point.{Point, released, whole_run};
ghost use Rattle.north_wrap.specs.Refinement.{NorthStands, SocketStands, NorthTurn, with_answered};
ghost use Rattle.north_wrap.specs.RunState.{run_on};
ghost use Rattle.north_wrap.specs.Sockets.{reader, writer};
ghost use Rattle.north_wrap.specs.NorthState.{fresh_north, resumed_north, unstable, given_north, given_socket, shut_north, shut_socket, Turns, answered_on};
ghost use Rattle.north_wrap.specs.NorthState.{Allows, record_of, chunk_of, next_length, next_at, is_free_to_read, noted, read_on, socket_on, Reads, lengths_of};
ghost use Rattle.north_wrap.specs.NorthState.{is_empty};

use crate::read_record::ReadRecord;
use crate::records::ReadRecords;
use crate::replayed_reads::ReplayedReads;
use crate::rest::Rest;
use crate::service_run::ServiceRun;
use ft_io::NoMemory;
use limits::BUFFER;
use server_trait::{CHUNK_LIMIT, Service};
use socket_layer::Socket;
use std::alloc::Global;
use std::marker::Model;

/// The most reads that may be unanswered.
const READ_LIMIT: usize = 32;

/// A read is made only while at most this many bytes of output are made: a stream has 2^24, and one read makes at most 2^20.
const MADE_LIMIT: u32 = 15_728_640;

/// The north wrapper of one connection: it reads from TCP for the service, and writes to TCP for it.
#[derive(Drop)]
pub struct North<S: Service> {
    /// The service, with the output that isn't given to TCP yet.
    run: ServiceRun<S>,
    /// The bytes that a restart fetched beyond the fetched reads, as far as they aren't read yet.
    rest: Rest,
    /// The last read that is known to be logged.
    last: ReadRecord,
    /// The reads that aren't known to be logged.
    reads: ReadRecords,
    /// The bytes of all reads.
    read: u32,
    /// How many reads there are.
    count: u32,
    /// Whether a read of length 0 was made.
    ended: bool,
    /// Whether the socket was closed.
    shut: bool,
}

impl<S: Service> Model for North<S> {
    ghost use Rattle.limits.specs.Limits.{longest_stream};
    ghost use Rattle.std.specs.Prelude.{length, ◌≤◌, ◌+◌, ◌^◌};
    ghost use Rattle.ft_model.specs.Offset.{one_if};
    ghost use Rattle.north_wrap.specs.Sockets.{reader, writer};
    ghost use Rattle.north_wrap.specs.NorthState.{NorthState};

    ghost Value = { NorthState S };

    ghost view = { λ n. record { run = n.run; rest = n.rest; last = n.last; reads = n.reads; read = n.read; count = n.count; ended = n.ended; shut = n.shut } };

    ghost invariant = { λ n. (length n.reads ≤ 32) × (n.read + length n.rest ≤ longest_stream) × (n.count ≤ n.read + one_if n.ended) };
}

impl<S: Service> North<S> {
    /// Returns a wrapper before its first read, whose service is started as this kind.
    pub fn new(alloc: Global, kind: u8) -> Result<North<S>, NoMemory>
        ensures { IfOk result (λ n. n ≡ fresh_north (S.started kind) (S.greeting (S.started kind))) }
    {
        let service = S::fresh(alloc, kind);
        let mut greeting = Vec::new(alloc);
        greeting.extend_from_slice(service.greeting())?;
        let made = greeting.len() as u32;
        Ok(North {
            run: ServiceRun::new(service, greeting, made, false),
            rest: Rest::new(Vec::new(alloc)),
            last: ReadRecord {
                index: 0,
                length: 0,
                made,
                closed: false,
            },
            reads: ReadRecords::new(),
            read: 0,
            count: 0,
            ended: false,
            shut: false,
        })
    }

    /// Returns a wrapper at the end of a restart. `rest` are the fetched bytes that aren't read, and `pending` the output that the client hasn't acknowledged.
    /// `reads` reads were fetched, of `read` bytes together, and they made `made` bytes of output. `ended` says that one of them has length 0, and `closed`
    /// that the service has closed. All of these reads are answered. `after_reads` takes the same as one record.
    pub fn resumed(
        _alloc: Global,
        service: S,
        rest: Vec<u8>,
        pending: Vec<u8>,
        reads: u32,
        read: u32,
        made: u32,
        ended: bool,
        closed: bool,
    ) -> North<S>
        requires within { read + length rest.items ≤ longest_stream }
        requires made { made ≤ longest_stream }
        requires reads { reads ≤ read + one_if ended }
        ensures { result ≡ resumed_north service rest.items pending.items reads read made ended closed }
    {
        North::after_reads(ReplayedReads {
            service,
            rest,
            pending,
            count: reads,
            read,
            made,
            ended,
            closed,
        })
    }

    /// Returns a wrapper at the end of a restart, which goes on after these reads.
    pub fn after_reads(replayed: ReplayedReads<S>) -> North<S>
        requires within { replayed.read + length replayed.rest.items ≤ longest_stream }
        requires made { replayed.made ≤ longest_stream }
        requires reads { replayed.count ≤ replayed.read + one_if replayed.ended }
        ensures { result ≡ resumed_north replayed.service replayed.rest.items replayed.pending.items replayed.count replayed.read replayed.made
            replayed.ended replayed.closed }
    {
        let ReplayedReads {
            service,
            rest,
            pending,
            count,
            read,
            made,
            ended,
            closed,
        } = replayed;
        North {
            run: ServiceRun::new(service, pending, made, closed),
            rest: Rest::new(rest),
            last: ReadRecord {
                index: 0,
                length: 0,
                made,
                closed,
            },
            reads: ReadRecords::new(),
            read,
            count,
            ended,
            shut: false,
        }
    }

    /// Whether a read may be made: all output so far may be sent, and at most 65,535 bytes of it are unacknowledged; one more read's output fits into the
    /// stream; and fewer than 32 reads are unanswered.
    pub(crate) fn is_free_to_read(&self, una: u32) -> bool
        requires { una ≤ most_units }
        ensures { result ≡ is_free_to_read una self.now }
    {
        let made = self.run.made();
        made <= self.last.made.min(una + BUFFER)
            && made <= MADE_LIMIT
            && self.reads.len() < READ_LIMIT
    }

    /// The length of the next read, if one is made.
    #[tactic(auto, unfolding(crate::specs::NorthState::next_length))]
    fn next_length(&self, una: u32, readable: usize, at_end: bool) -> Option<usize>
        requires { una ≤ most_units }
        ensures value { result ≡ next_length una readable at_end self.now }
        ensures allowed { IfSome result (λ k. Allows readable k self.now) }
    {
        if !self.is_free_to_read(una) {
            return None;
        }
        let rest = self.rest.len();
        if 0 < rest {
            return Some(rest.min(CHUNK_LIMIT));
        }
        if 0 < readable {
            return Some(readable.min(CHUNK_LIMIT));
        }
        if at_end && !self.ended { Some(0) } else { None }
    }

    /// Takes a chunk of this length from the rest while any is left, and otherwise from the socket, and gives it to the service.
    #[tactic(auto, using(crate::proofs::Empty::drop_none, crate::proofs::Empty::take_zero), unfolding(crate::specs::NorthState::socket_on))]
    fn take_chunk<K: Socket>(&mut self, sock: &mut K, size: usize) -> Result<(), NoMemory>
        requires allowed { Allows (length (K.unread sock.old)) size self.old }
        ensures state { OnOk result (self.new ≡ record self.old {
          run = run_on S.after self.old.run (chunk_of (K.unread sock.old) size self.old);
          rest = drop size self.old.rest;
        }) }
        ensures socket { sock.new ≡ socket_on (reader K.unread K.has_end K.after_read) size self.old sock.old }
        ensures read { self.new.read ≡ self.old.read }
        ensures rest { length self.new.rest ≤ length self.old.rest }
    {
        if 0 < self.rest.len() {
            self.run.feed(self.rest.front(size))?;
            self.rest.skip(size);
            return Ok(());
        }
        if size == 0 {
            return self.run.feed(&[]);
        }
        self.run.feed_from(sock, size)
    }

    /// Notes a read of this length, whose bytes the service was given.
    fn note(&mut self, size: usize) -> ReadRecord
        requires most { size ≤ 2048 }
        requires fewer { length self.old.reads < 32 }
        requires within { self.old.read + size + length self.old.rest ≤ longest_stream }
        requires once { size ≡ 0 → self.old.ended ≡ false }
        ensures state { self.new ≡ record self.old {
          reads = self.old.reads ++ record_of size self.old self.old.run ∷ [];
          read = self.old.read + size;
          count = self.old.count + 1;
          ended = self.old.ended || size == 0;
        } }
        ensures read { result ≡ record_of size self.old self.old.run }
    {
        let read = ReadRecord {
            index: self.count,
            length: size as u16,
            made: self.run.made(),
            closed: self.run.is_closed(),
        };
        self.reads.push(read);
        self.read += size as u32;
        self.count += 1;
        self.ended = self.ended || size == 0;
        read
    }

    /// Makes one read of this length.
    #[tactic(auto, using(crate::proofs::Empty::take_zero), unfolding(crate::specs::NorthState::read_on, crate::specs::NorthState::socket_on))]
    fn read_next<K: Socket>(
        &mut self,
        sock: &mut K,
        size: usize,
        news: &mut ReadRecords,
    ) -> Result<(), NoMemory>
        requires allowed { Allows (length (K.unread sock.old)) size self.old }
        requires within { self.old.read + length self.old.rest + length (K.unread sock.old) ≤ longest_stream }
        requires room { length news.old < 32 }
        ensures state { OnOk result (self.new ≡ read_on S.after (K.unread sock.old) size self.old) }
        ensures socket { sock.new ≡ socket_on (reader K.unread K.has_end K.after_read) size self.old sock.old }
        ensures news { OnOk result (news.new ≡ news.old ++ record_of size self.old self.new.run ∷ []) }
        ensures reads { OnOk result (self.new.reads ≡ self.old.reads ++ record_of size self.old self.new.run ∷ []) }
        ensures bounded { self.new.read + length self.new.rest + length (K.unread sock.new) ≤ longest_stream }
    {
        self.take_chunk(sock, size)?;
        let read = self.note(size);
        news.push(read);
        Ok(())
    }

    /// Makes the reads of a turn.
    #[tactic(auto, using(crate::proofs::ReadSequence::begins, crate::proofs::ReadSequence::proceeds, crate::proofs::ReadSequence::ends))]
    fn make_reads<K: Socket>(
        &mut self,
        sock: &mut K,
        una: u32,
        news: &mut ReadRecords,
    ) -> Result<(), NoMemory>
        requires una { una ≤ most_units }
        requires within { self.old.read + length self.old.rest + length (K.unread sock.old) ≤ longest_stream }
        requires none { news.old ≡ [] }
        ensures reads { OnOk result (Reads S.after (reader K.unread K.has_end K.after_read) una self.old sock.old (lengths_of news.new) self.new sock.new) }
        ensures news { OnOk result (self.new.reads ≡ self.old.reads ++ news.new) }
        ensures bounded { self.new.read + length self.new.rest + length (K.unread sock.new) ≤ longest_stream }
    {
        while let Some(size) = self.next_length(una, sock.readable(), sock.ended()) {
            self.read_next(sock, size, news)?;
        }
        Ok(())
    }

    /// How many bytes of output may not be sent yet: those of reads that aren't known to be logged.
    pub fn unstable(&self) -> u32
        ensures { result ≡ unstable self.now }
    {
        self.run.made().saturating_sub(self.last.made)
    }

    /// Gives the socket the output that may be sent, as much as it has room for.
    fn write_output<K: Socket>(&mut self, sock: &mut K)
        ensures state { self.new ≡ given_north (writer K.write_room K.is_closed K.after_write K.after_close) self.old sock.old }
        ensures socket { sock.new ≡ given_socket (writer K.write_room K.is_closed K.after_write K.after_close) self.old sock.old }
        ensures unread { K.unread sock.new ≡ K.unread sock.old }
    {
        let unstable = self.unstable();
        self.run.write_output(sock, unstable);
    }

    /// Closes the socket once the read that closed the service is known to be logged and all output is given.
    pub(crate) fn close<K: Socket>(&mut self, sock: &mut K)
        ensures state { self.new ≡ shut_north self.old }
        ensures socket { sock.new ≡ shut_socket (writer K.write_room K.is_closed K.after_write K.after_close) self.old sock.old }
        ensures unread { K.unread sock.new ≡ K.unread sock.old }
    {
        if self.shut || !self.last.closed || self.run.pending() != 0 {
            return;
        }
        sock.close();
        self.shut = true;
    }

    /// A turn: gives the output that may be sent, closes the socket where all is given, and makes the reads that are due.
    pub fn turn<K: Socket>(
        &mut self,
        _alloc: Global,
        sock: &mut K,
        una: u32,
        news: &mut ReadRecords,
    ) -> Result<(), NoMemory>
        requires una { una ≤ most_units }
        requires within { self.old.read + length self.old.rest + length (K.unread sock.old) ≤ longest_stream }
        ensures turn { OnOk result (Turns S.after (reader K.unread K.has_end K.after_read)
            (writer K.write_room K.is_closed K.after_write K.after_close) una self.old sock.old news.new self.new sock.new) }
        ensures law { OnOk result ((fresh : S) (p : Point) (given : ℕ) → NorthStands (machine fresh S.after S.greeting) p given self.old
            → SocketStands p self.old (K.unread sock.old) (K.has_end sock.old) (K.is_closed sock.old) → p.una ≡ una
            → given ≤ released (machine fresh S.after S.greeting) p
            → NorthTurn (machine fresh S.after S.greeting) (reader K.unread K.has_end K.after_read)
            (writer K.write_room K.is_closed K.after_write K.after_close) p given self.old sock.old news.new self.new sock.new) }
        ensures bounded { self.new.read + length self.new.rest + length (K.unread sock.new) ≤ longest_stream }
    {
        self.make_turn(sock, una, news)
    }

    fn make_turn<K: Socket>(
        &mut self,
        sock: &mut K,
        una: u32,
        news: &mut ReadRecords,
    ) -> Result<(), NoMemory>
        requires una { una ≤ most_units }
        requires within { self.old.read + length self.old.rest + length (K.unread sock.old) ≤ longest_stream }
        ensures turn { OnOk result (Turns S.after (reader K.unread K.has_end K.after_read)
            (writer K.write_room K.is_closed K.after_write K.after_close) una self.old sock.old news.new self.new sock.new) }
        ensures bounded { self.new.read + length self.new.rest + length (K.unread sock.new) ≤ longest_stream }
    {
        news.clear();
        self.write_output(sock);
        self.close(sock);
        self.make_reads(sock, una, news)
    }

    /// Notes the logger's answer that it has this many reads of the connection.
    pub fn on_reads(&mut self, count: u32)
        ensures state { self.new ≡ answered_on count self.old }
        ensures read { self.new.read ≡ self.old.read }
        ensures rest { self.new.rest ≡ self.old.rest }
        ensures law { (fresh : S) (p : Point) (given : ℕ) → NorthStands (machine fresh S.after S.greeting) p given self.old
            → NorthStands (machine fresh S.after S.greeting) (with_answered count p) given self.new }
    {
        self.note_reads(count);
    }

    #[tactic(auto, unfolding(crate::specs::NorthState::answered_on))]
    pub(crate) fn note_reads(&mut self, count: u32)
        ensures state { self.new ≡ answered_on count self.old }
        ensures read { self.new.read ≡ self.old.read }
        ensures rest { self.new.rest ≡ self.old.rest }
    {
        let answered = self.count.saturating_sub(self.reads.len() as u32);
        let more = (count.saturating_sub(answered) as usize).min(self.reads.len());
        self.last = self.reads.take_front(more, self.last);
    }

    /// The reads that aren't known to be logged.
    pub fn unanswered(&self) -> &ReadRecords
        ensures { result.now ≡ self.now.reads }
    {
        &self.reads
    }

    /// Returns the service. Its state is that of an uncrashed server after the same reads.
    pub fn service(&self) -> &S
        ensures value { result.now ≡ self.now.run.service }
        ensures law { (fresh : S) (p : Point) (given : ℕ) → NorthStands (machine fresh S.after S.greeting) p given self.now
            → result.now ≡ (whole_run (machine fresh S.after S.greeting) p).state }
    {
        self.run.service()
    }

    /// Whether the service has closed.
    pub fn is_closed(&self) -> bool
        ensures { result ≡ self.now.run.closed }
    {
        self.run.is_closed()
    }

    /// The bytes of all output.
    pub fn made(&self) -> u32
        ensures { result ≡ self.now.run.made }
    {
        self.run.made()
    }

    /// How many reads were made, the fetched ones included.
    pub fn count(&self) -> u32
        ensures { result ≡ self.now.count }
    {
        self.count
    }

    /// The bytes of all reads.
    pub fn read(&self) -> u32
        ensures { result ≡ self.now.read }
    {
        self.read
    }
}
