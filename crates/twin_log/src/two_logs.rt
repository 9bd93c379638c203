//! One of two loggers.

ghost use Rattle.std.specs.Prelude.{[], ◌∷◌, ◌++◌, ◌≡◌, ◌≤◌, ◌<◌, ◌+◌, ◌^◌, true, false, Ok, IsOk, OnOk, OnErr, IfOk, length};
ghost use Rattle.seq_arith.specs.MessageGrammar.{reading_by};
ghost use Rattle.seq_arith.specs.TwinGrammar.{reading_by as twin_reading};
ghost use Rattle.seq_arith.specs.declared.kinds.Grammar.TheVariants.{Plain};
ghost use Rattle.logger_wire.specs.Value.{message_of, IsSendableBy};
ghost use Rattle.twin_laws.specs.Twin.{asked, forwarded_as, from_other_logger};
ghost use Rattle.twin_laws.specs.Twin.Between.{Got};
ghost use Rattle.twin_laws.specs.Twin.Comes.{Reports};
ghost use Rattle.twin_laws.specs.StoredState.{kept_does, paired_does, new_kept, left_alone, serves_alone, kept_head_asked, kept_tail_reported};
ghost use Rattle.twin_laws.specs.StoredState.{kept_takes, keeps_too, has_kept_room, forwards_once as forwards_once_lem, kept_confirmed, sends_kept};
ghost use Rattle.twin_laws.specs.StoredState.{forwards_sent, sent_to_other, applies_kept};
ghost use Rattle.twin_laws.specs.declared.part.Side.TheVariants as sides;
ghost use Rattle.twin_log.specs.Outbox.{answer_out, is_forwardable, request_in};

use crate::twin_out::TwinOut;
use crate::waiting::Waiting;
use ft_io::NoMemory;
use limits::WAITING;
use logger_store::{LogStore, MsgOut};
use logger_wire::{Grammar, Msg, TwinMsg, read_msg_by, read_twin_by};
use std::alloc::Global;
use std::marker::Model;
use twin_laws::{Part, Side};

/// A head or a tail: its log, and how many messages it has taken or applied. A head also stores the messages that the tail hasn't confirmed, at most 64.
#[derive(Drop)]
pub struct TwinLog {
    /// That of the server's messages. The answers have it too.
    grammar: Grammar,
    part: Part,
    /// Whether the other has stopped.
    alone: bool,
    log: LogStore,
    /// A head: how many messages it took. A tail: how many it applied.
    number: u64,
    /// Of a head: the messages that it took and that the tail hasn't confirmed, in order. Of a tail: none.
    waiting: Waiting,
    /// Room for the log's answer in a turn.
    answer: MsgOut,
}

impl Model for TwinLog {
    ghost use Rattle.std.specs.Prelude.{◌≤◌, length};
    ghost use Rattle.twin_laws.specs.StoredState.{Kept};

    ghost Value = { Kept };

    ghost view = { λ l. record { grammar = l.grammar; part = l.part; alone = l.alone; log = l.log; number = l.number; waiting = l.waiting } };

    ghost invariant = { λ l. length l.waiting ≤ l.number };
}

impl TwinLog {
    /// A logger of a pair, with an empty log. The server's messages have the plain grammar.
    pub fn new(alloc: Global, part: Part) -> Result<TwinLog, NoMemory>
        ensures { IfOk result (λ l. l ≡ new_kept Plain part) }
    {
        TwinLog::new_by(alloc, Grammar::Plain, part)
    }

    /// A logger of a pair, with an empty log, of a server whose messages have this grammar.
    pub fn new_by(alloc: Global, grammar: Grammar, part: Part) -> Result<TwinLog, NoMemory>
        ensures { IfOk result (λ l. l ≡ new_kept grammar part) }
    {
        Ok(TwinLog {
            grammar,
            part,
            alone: false,
            log: LogStore::new(alloc),
            number: 0,
            waiting: Waiting::new(alloc)?,
            answer: MsgOut::new(),
        })
    }

    /// Its log.
    pub fn log(&self) -> &LogStore
        ensures { result.now ≡ self.now.log }
    {
        &self.log
    }

    /// How many messages a head has taken, or a tail applied.
    pub fn number(&self) -> u64
        ensures { result ≡ self.now.number }
    {
        self.number
    }

    /// Whether it serves alone.
    pub fn is_alone(&self) -> bool
        ensures { result ≡ self.now.alone }
    {
        self.alone
    }

    /// Notes that the other logger has stopped: this one serves alone from now on.
    pub fn alone(&mut self)
        requires { self.old.alone ≡ false }
        ensures { self.new ≡ left_alone self.old }
    {
        self.alone = true;
    }

    /// Takes a datagram from the server or from the other logger, and replaces the content of `out` by what is sent. After `NoMemory` the logger is
    /// unchanged, `out` empty.
    pub fn deliver(
        &mut self,
        alloc: Global,
        from: Side,
        bytes: &[u8],
        out: &mut TwinOut,
    ) -> Result<(), NoMemory>
        ensures next { OnOk result (self.new ≡ (kept_does from bytes.now self.old).next) }
        ensures sent { OnOk result (out.new ≡ (kept_does from bytes.now self.old).sent) }
        ensures refused { OnErr result (self.new ≡ self.old) }
        ensures empty { OnErr result (out.new ≡ []) }
    {
        out.clear();
        match from {
            Side::Server => self.on_server(alloc, bytes, out),
            Side::Other => self.on_other(alloc, bytes, out),
        }
    }

    /// Takes a datagram of the server.
    #[tactic(auto, using(crate::proofs::Cases::noise_in_pair), unfolding(twin_laws::specs::StoredState::kept_does))]
    pub(crate) fn on_server(
        &mut self,
        alloc: Global,
        bytes: &[u8],
        out: &mut TwinOut,
    ) -> Result<(), NoMemory>
        requires empty { out.old ≡ [] }
        ensures next { OnOk result (self.new ≡ (kept_does sides.Server bytes.now self.old).next) }
        ensures sent { OnOk result (out.new ≡ (kept_does sides.Server bytes.now self.old).sent) }
        ensures refused { OnErr result (self.new ≡ self.old) }
        ensures empty { OnErr result (out.new ≡ []) }
    {
        let Ok(msg) = read_msg_by(self.grammar, bytes) else {
            return Ok(());
        };
        if self.alone {
            return self.serve(alloc, &msg, out);
        }
        match self.part {
            Part::Head => self.take(alloc, &msg, bytes, out),
            Part::Tail => Ok(()),
        }
    }

    /// Takes a datagram of the other logger. A logger that serves alone ignores it.
    #[tactic(auto, using(crate::proofs::Cases::reported_alone), unfolding(twin_laws::specs::StoredState::kept_does))]
    fn on_other(&mut self, alloc: Global, bytes: &[u8], out: &mut TwinOut) -> Result<(), NoMemory>
        requires empty { out.old ≡ [] }
        ensures next { OnOk result (self.new ≡ (kept_does sides.Other bytes.now self.old).next) }
        ensures sent { OnOk result (out.new ≡ (kept_does sides.Other bytes.now self.old).sent) }
        ensures refused { OnErr result (self.new ≡ self.old) }
        ensures empty { OnErr result (out.new ≡ []) }
    {
        if !self.alone {
            return self.on_reported(alloc, bytes, out);
        }
        Ok(())
    }

    /// Takes a datagram of the other logger as one of a pair.
    #[tactic(auto, using(crate::proofs::Cases::noise_in_pair, crate::proofs::Cases::some_number))]
    fn on_reported(
        &mut self,
        alloc: Global,
        bytes: &[u8],
        out: &mut TwinOut,
    ) -> Result<(), NoMemory>
        requires empty { out.old ≡ [] }
        ensures next { let comes = from_other_logger self.old.grammar (twin_reading self.old.grammar bytes.now)
            in OnOk result (self.new ≡ (paired_does self.old.part comes self.old).next) }
        ensures sent { let comes = from_other_logger self.old.grammar (twin_reading self.old.grammar bytes.now)
            in OnOk result (out.new ≡ (paired_does self.old.part comes self.old).sent) }
        ensures refused { OnErr result (self.new ≡ self.old) }
        ensures empty { OnErr result (out.new ≡ []) }
    {
        let Ok(said) = read_twin_by(self.grammar, bytes) else {
            return Ok(());
        };
        match said {
            TwinMsg::Forward { number, message } => self.on_forward(alloc, number, message, out),
            TwinMsg::Got { number } => {
                self.on_got(number);
                Ok(())
            }
            TwinMsg::Alone => Ok(()),
        }
    }

    /// Takes a forwarded message as one of a pair. The head ignores it.
    #[tactic(auto, using(crate::proofs::Cases::noise_in_pair))]
    fn on_forward(
        &mut self,
        alloc: Global,
        number: u64,
        message: &[u8],
        out: &mut TwinOut,
    ) -> Result<(), NoMemory>
        requires some { 1 ≤ number }
        requires empty { out.old ≡ [] }
        ensures next { let comes = forwarded_as number (asked message.now (reading_by self.old.grammar message.now))
            in OnOk result (self.new ≡ (paired_does self.old.part comes self.old).next) }
        ensures sent { let comes = forwarded_as number (asked message.now (reading_by self.old.grammar message.now))
            in OnOk result (out.new ≡ (paired_does self.old.part comes self.old).sent) }
        ensures refused { OnErr result (self.new ≡ self.old) }
        ensures empty { OnErr result (out.new ≡ []) }
    {
        let Ok(msg) = read_msg_by(self.grammar, message) else {
            return Ok(());
        };
        match self.part {
            Part::Head => Ok(()),
            Part::Tail => self.apply(alloc, number, &msg, out),
        }
    }

    /// Takes a Got as one of a pair. The tail ignores it.
    fn on_got(&mut self, number: u64)
        ensures { self.new ≡ (paired_does self.old.part (Reports (Got number)) self.old).next }
    {
        match self.part {
            Part::Head => self.confirm(number),
            Part::Tail => (),
        }
    }

    /// Gives a message to the log, and sends the log's answer to the server. A logger that serves alone does nothing else.
    #[tactic(auto, using(crate::proofs::Outgoing::answer_is))]
    fn serve(&mut self, alloc: Global, msg: &Msg<'_>, out: &mut TwinOut) -> Result<(), NoMemory>
        requires sendable { IsSendableBy self.old.grammar msg.now }
        requires empty { out.old ≡ [] }
        ensures next { OnOk result (self.new ≡ (serves_alone (message_of msg.now) self.old).next) }
        ensures sent { OnOk result (out.new ≡ (serves_alone (message_of msg.now) self.old).sent) }
        ensures refused { OnErr result (self.new ≡ self.old) }
        ensures empty { OnErr result (out.new ≡ []) }
    {
        self.log
            .answer_by(alloc, self.grammar, msg, &mut self.answer)?;
        send_answer(&self.answer, out);
        Ok(())
    }

    /// Takes a message as the head of a pair, and forwards it. A message that only a logger sends is ignored. Where there is no room for one more, all that is
    /// unconfirmed is forwarded.
    fn take(
        &mut self,
        alloc: Global,
        msg: &Msg<'_>,
        bytes: &[u8],
        out: &mut TwinOut,
    ) -> Result<(), NoMemory>
        requires sendable { IsSendableBy self.old.grammar msg.now }
        requires read { reading_by self.old.grammar bytes.now ≡ Ok (message_of msg.now) }
        requires empty { out.old ≡ [] }
        ensures next { OnOk result (self.new ≡ (kept_head_asked (request_in bytes.now (message_of msg.now)) self.old).next) }
        ensures sent { OnOk result (out.new ≡ (kept_head_asked (request_in bytes.now (message_of msg.now)) self.old).sent) }
        ensures refused { OnErr result (self.new ≡ self.old) }
        ensures empty { OnErr result (out.new ≡ []) }
    {
        if msg.body.is_answer() {
            return Ok(());
        }
        if self.has_room() {
            return self.take_new(alloc, msg, bytes, out);
        }
        self.forward(out);
        Ok(())
    }

    /// Adds a message to those that a head took, and forwards it: alone, or with all that is unconfirmed.
    #[tactic(auto, using(crate::proofs::Outgoing::read_is_forwardable))]
    pub(crate) fn take_new(
        &mut self,
        alloc: Global,
        msg: &Msg<'_>,
        bytes: &[u8],
        out: &mut TwinOut,
    ) -> Result<(), NoMemory>
        requires sendable { IsSendableBy self.old.grammar msg.now }
        requires read { reading_by self.old.grammar bytes.now ≡ Ok (message_of msg.now) }
        requires room { has_kept_room self.old ≡ true }
        requires empty { out.old ≡ [] }
        ensures next { OnOk result (self.new ≡ (kept_takes (request_in bytes.now (message_of msg.now)) self.old).next) }
        ensures sent { OnOk result (out.new ≡ (kept_takes (request_in bytes.now (message_of msg.now)) self.old).sent) }
        ensures refused { OnErr result (self.new ≡ self.old) }
        ensures empty { OnErr result (out.new ≡ []) }
    {
        let once = self.forwards_once(bytes);
        let taken = self.number;
        self.add(alloc, msg, bytes)?;
        if once {
            send_forward(taken, bytes, out);
        } else {
            self.forward(out);
        }
        Ok(())
    }

    /// Whether a message is forwarded alone: it is a wide one, and none that waits has its bytes.
    #[tactic(auto, using(crate::proofs::Cases::plain_version, crate::proofs::Cases::wide_version))]
    fn forwards_once(&self, bytes: &[u8]) -> bool
        requires { IsOk (reading_by self.now.grammar bytes.now) }
        ensures { result ≡ forwards_once_lem bytes.now self.now }
    {
        match self.grammar {
            Grammar::Plain => false,
            Grammar::Wide => !self.waiting.has(bytes),
        }
    }

    /// Whether a head can take a further message.
    fn has_room(&self) -> bool
        ensures { result ≡ has_kept_room self.now }
    {
        self.waiting.len() < WAITING && self.number < u64::MAX
    }

    /// Adds a message to those that a head took. The answer of the head's log isn't sent.
    #[tactic(auto, using(crate::proofs::Outgoing::read_is_forwardable))]
    fn add(&mut self, alloc: Global, msg: &Msg<'_>, bytes: &[u8]) -> Result<(), NoMemory>
        requires sendable { IsSendableBy self.old.grammar msg.now }
        requires read { reading_by self.old.grammar bytes.now ≡ Ok (message_of msg.now) }
        requires room { has_kept_room self.old ≡ true }
        ensures next { OnOk result (self.new ≡ keeps_too (request_in bytes.now (message_of msg.now)) self.old) }
        ensures refused { OnErr result (self.new ≡ self.old) }
    {
        let message = bytes.to_vec(alloc)?;
        self.log
            .answer_by(alloc, self.grammar, msg, &mut self.answer)?;
        self.waiting.push(message);
        self.number += 1;
        Ok(())
    }

    /// Forwards all that is unconfirmed, in order.
    fn forward(&self, out: &mut TwinOut)
        requires { out.old ≡ [] }
        ensures { out.new ≡ (sends_kept self.now).sent }
    {
        let confirmed = self.number - self.waiting.len() as u64;
        self.waiting.forward(confirmed, out);
    }

    /// Removes the messages up to this number from the unconfirmed ones. A number that the head hasn't given yet is ignored.
    fn confirm(&mut self, number: u64)
        ensures { self.new ≡ kept_confirmed number self.old }
    {
        let confirmed = self.number - self.waiting.len() as u64;
        if confirmed < number && number <= self.number {
            self.waiting.drop_front((number - confirmed) as usize);
        }
    }

    /// Takes a forwarded message as the tail of a pair. It applies the one with the next number. For an earlier one it confirms again all that it has applied,
    /// and it ignores one after a gap.
    pub(crate) fn apply(
        &mut self,
        alloc: Global,
        number: u64,
        msg: &Msg<'_>,
        out: &mut TwinOut,
    ) -> Result<(), NoMemory>
        requires sendable { IsSendableBy self.old.grammar msg.now }
        requires some { 1 ≤ number }
        requires empty { out.old ≡ [] }
        ensures next { OnOk result (self.new ≡ (kept_tail_reported number (message_of msg.now) self.old).next) }
        ensures sent { OnOk result (out.new ≡ (kept_tail_reported number (message_of msg.now) self.old).sent) }
        ensures refused { OnErr result (self.new ≡ self.old) }
        ensures empty { OnErr result (out.new ≡ []) }
    {
        if number <= self.number {
            send_got(self.number, out);
            return Ok(());
        }
        if number - self.number > 1 {
            return Ok(());
        }
        self.apply_next(alloc, msg, out)
    }

    /// Applies the next message, answers it and then confirms it.
    #[tactic(auto, using(crate::proofs::Outgoing::few_sent))]
    fn apply_next(
        &mut self,
        alloc: Global,
        msg: &Msg<'_>,
        out: &mut TwinOut,
    ) -> Result<(), NoMemory>
        requires sendable { IsSendableBy self.old.grammar msg.now }
        requires room { self.old.number + 1 < 2 ^ 64 }
        requires empty { out.old ≡ [] }
        ensures next { OnOk result (self.new ≡ (applies_kept (message_of msg.now) self.old).next) }
        ensures sent { OnOk result (out.new ≡ (applies_kept (message_of msg.now) self.old).sent) }
        ensures refused { OnErr result (self.new ≡ self.old) }
        ensures empty { OnErr result (out.new ≡ []) }
    {
        self.serve(alloc, msg, out)?;
        self.number += 1;
        send_got(self.number, out);
        Ok(())
    }
}

/// Sends the log's answer to the server, if there is one.
#[tactic(auto, using(crate::proofs::Outgoing::answer_some, crate::proofs::Outgoing::answer_none))]
fn send_answer(answer: &MsgOut, out: &mut TwinOut)
    requires { out.old ≡ [] }
    ensures { out.new ≡ answer_out answer.now }
{
    let bytes = answer.bytes();
    if bytes.is_empty() {
        return;
    }
    out.answer(bytes);
}

/// Forwards one message, with the number after `taken`.
fn send_forward(taken: u64, message: &[u8], out: &mut TwinOut)
    requires fits { is_forwardable message.now ≡ true }
    requires number { taken + 1 < 2 ^ 64 }
    requires empty { out.old ≡ [] }
    ensures { out.new ≡ forwards_sent taken (message.now ∷ []) }
{
    let number = taken + 1;
    out.put(&TwinMsg::Forward { number, message });
}

/// Confirms to the head all messages up to this number.
#[tactic(auto, unfolding(twin_laws::specs::Twin::bytes_of))]
fn send_got(number: u64, out: &mut TwinOut)
    requires some { 1 ≤ number }
    requires room { length out.old < 64 }
    ensures { out.new ≡ out.old ++ sent_to_other (Got number ∷ []) }
{
    out.put(&TwinMsg::Got { number });
}
