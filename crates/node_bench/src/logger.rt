//! The log, which takes and gives datagrams.

ghost use Rattle.seq_arith.specs.MarkGrammar.{IsSpellable};
ghost use Rattle.logger_wire.specs.MarkValue.{message_of};
ghost use Rattle.logger_wire.specs.Value.{IsSendable};
ghost use Rattle.reincarnate.specs.Marking.{IsAnySendable};

use ft_io::{Key, NoMemory};
use limits::SEGMENT;
use logger_store::{LogStore, MsgOut};
use logger_wire::{Body, MarkMsg, Msg, Numbers, read_msg, write_mark, write_msg};
use mark_store::MarkStore;
use reincarnate::AnyMsg;
use seq_arith::Seq;
use std::alloc::Global;
use tcp_endpoint::Outbox;
use wrapped_conn::TurnOut;

/// The number of the server's first start.
pub(crate) const BOOT: u64 = 1;

/// The initial sequence numbers of each connection, and the segment size that its client offers.
pub(crate) const CLIENT_ISN: Seq = Seq(1_000);

pub(crate) const SERVER_ISN: Seq = Seq(5_000);

/// A log without marks, or with marks.
#[derive(Drop)]
enum Log {
    Plain(LogStore),
    Marked(MarkStore),
}

impl Log {
    /// An empty log.
    fn new(alloc: Global, has_marks: bool) -> Log {
        if has_marks {
            Log::Marked(MarkStore::new(alloc))
        } else {
            Log::Plain(LogStore::new(alloc))
        }
    }

    /// Takes a datagram, and puts the answer, or nothing, in place of what was in `answer`.
    fn take(
        &mut self,
        alloc: Global,
        datagram: &[u8],
        answer: &mut MsgOut,
    ) -> Result<(), NoMemory> {
        match self {
            Log::Plain(log) => match read_msg(datagram) {
                Ok(m) => log.answer(alloc, &m, answer),
                Err(_) => Ok(()),
            },
            Log::Marked(log) => log.answer(alloc, datagram, answer),
        }
    }
}

/// A log, with room for a message and for its answer.
#[derive(Drop)]
pub(crate) struct Logger {
    log: Log,
    datagram: [u8; 2_048],
    answer: MsgOut,
    /// How many messages it took.
    pub(crate) messages: u64,
}

impl Logger {
    /// An empty log, with marks or without.
    pub(crate) fn new(alloc: Global, has_marks: bool) -> Logger {
        Logger {
            log: Log::new(alloc, has_marks),
            datagram: [0; 2_048],
            answer: MsgOut::new(),
            messages: 0,
        }
    }

    /// Tells it that the server has started.
    #[tactic(auto, unfolding(seq_arith::specs::MessageGrammar::has_length, seq_arith::specs::MessageGrammar::is_sound_by))]
    pub(crate) fn begin(&mut self, alloc: Global) -> Result<(), NoMemory> {
        let body = Body::Hello;
        self.send(alloc, &Msg { boot: BOOT, body })
    }

    /// Opens an entry.
    #[tactic(auto, unfolding(seq_arith::specs::MessageGrammar::has_length, seq_arith::specs::MessageGrammar::is_sound_by))]
    pub(crate) fn open(&mut self, alloc: Global, key: Key) -> Result<(), NoMemory> {
        let body = Body::Open(Numbers {
            key,
            cisn: CLIENT_ISN.0,
            sisn: SERVER_ISN.0,
            mss: SEGMENT,
        });
        self.send(alloc, &Msg { boot: BOOT, body })
    }

    /// Whether it is a log with marks.
    pub(crate) fn has_marks(&self) -> bool {
        matches!(self.log, Log::Marked(_))
    }

    /// Spells a message and takes it.
    pub(crate) fn send(&mut self, alloc: Global, m: &Msg<'_>) -> Result<(), NoMemory>
        requires { IsSendable m.now }
    {
        let len = write_msg(m, &mut self.datagram).min(2_048);
        self.messages = self.messages.saturating_add(1);
        self.log
            .take(alloc, &self.datagram[..len], &mut self.answer)
    }

    /// Spells a message about marks and takes it.
    pub(crate) fn send_mark(&mut self, alloc: Global, m: &MarkMsg<'_>) -> Result<(), NoMemory>
        requires { IsSpellable (message_of m.now) }
    {
        let len = write_mark(m, &mut self.datagram).min(2_048);
        self.messages = self.messages.saturating_add(1);
        self.log
            .take(alloc, &self.datagram[..len], &mut self.answer)
    }

    /// Spells a question of either kind and takes it.
    #[tactic(auto, using(reincarnate::proofs::Sendable::asked_by))]
    pub(crate) fn ask(&mut self, alloc: Global, question: &AnyMsg<'_>) -> Result<(), NoMemory>
        requires { IsAnySendable question.now }
    {
        match question {
            AnyMsg::Log(m) => self.send(alloc, m),
            AnyMsg::Mark(m) => self.send_mark(alloc, m),
        }
    }

    /// Takes a datagram.
    fn take(&mut self, alloc: Global, datagram: &[u8]) -> Result<(), NoMemory> {
        self.messages = self.messages.saturating_add(1);
        self.log.take(alloc, datagram, &mut self.answer)
    }

    /// What it answered last.
    pub(crate) fn answer(&self) -> &[u8] {
        self.answer.bytes()
    }

    /// Takes the messages of a turn, and puts the answers after those that wait.
    pub(crate) fn take_turn(
        &mut self,
        alloc: Global,
        turn: &TurnOut,
        answers: &mut Outbox,
    ) -> Result<(), NoMemory> {
        for i in 0..turn.messages() {
            self.take(alloc, turn.message(i))?;
            answers.push(self.answer.bytes());
        }
        Ok(())
    }
}
