//! The log over bytes, with room for one answer.

ghost use Rattle.std.specs.Prelude.{[], ◌≡◌, ◌≤◌, ◌<◌, Some, false, IsOk, OnOk, OnErr};
ghost use Rattle.seq_arith.specs.Message.Body.{StaleMsg};
ghost use Rattle.long_laws.specs.ForgetGrammar.{IsSpellable, spelling};
ghost use Rattle.long_laws.specs.Forgetting.{forgotten_message, after_forget, answer_to_forget};
ghost use Rattle.ft_model.specs.Log.{log_after, answer_to};
ghost use Rattle.logger_store.specs.StoreState.{answer_bytes_by, wants_memory};
ghost use Rattle.logger_wire.specs.Value.{message_of as msg_said, IsSendableBy};
ghost use Rattle.forget_wire.specs.Value.{named_said, message_of};
ghost use Rattle.forget_store.specs.Replies.{reply_said, reply_bytes, after_bytes, answer_to_bytes, IsSendable};

use crate::forgetting::take_forget;
use crate::reply::Reply;
use forget_wire::{ForgetBody, ForgetMsg, LENGTH, Named, read_forget, write_forget};
use ft_io::NoMemory;
use logger_store::{LogStore, MsgOut};
use logger_wire::{Body, Grammar, Msg, read_msg_by};
use std::alloc::Global;
use std::marker::Model;

/// Room for one answer: a message of the log, or one about forgetting. In contracts it is the answer's bytes, or none.
#[derive(Drop)]
pub struct AnswerOut {
    /// A message of the log, or none.
    of_log: MsgOut,
    /// A message about forgetting, in place of that.
    forgotten: Option<[u8; LENGTH]>,
}

impl Model for AnswerOut {
    ghost use Rattle.std.specs.Prelude.{ℕ, List};
    ghost use Rattle.forget_store.specs.Replies.{bytes_out};

    ghost Value = { List ℕ };

    ghost view = { λ out. bytes_out out.forgotten out.of_log };
}

impl AnswerOut {
    /// No bytes.
    pub fn new() -> AnswerOut
        ensures { result ≡ [] }
    {
        AnswerOut {
            of_log: MsgOut::new(),
            forgotten: None,
        }
    }

    /// The answer's bytes, or none.
    pub fn bytes(&self) -> &[u8]
        ensures { result.now ≡ self.now }
    {
        match &self.forgotten {
            Some(bytes) => &bytes[..],
            None => self.of_log.bytes(),
        }
    }

    /// Removes the answer.
    pub fn clear(&mut self)
        ensures { self.new ≡ [] }
    {
        self.of_log.clear();
        self.forgotten = None;
    }

    /// Replaces the content by Forgotten.
    fn put_forgotten(&mut self, boot: u64, named: Named)
        requires { IsSpellable (forgotten_message boot (named_said named)) }
        ensures { self.new ≡ spelling (forgotten_message boot (named_said named)) }
    {
        let body = ForgetBody::Forgotten(named);
        self.forgotten = Some(write_forget(&ForgetMsg { boot, body }));
    }

    /// Replaces the content by Stale, the answer to a message of boot `boot`.
    #[tactic(auto, unfolding(seq_arith::specs::MessageGrammar::has_length, seq_arith::specs::MessageGrammar::is_sound_by))]
    fn put_stale(&mut self, grammar: Grammar, boot: u64, newer: u64)
        requires boot { 1 ≤ boot }
        requires newer { boot < newer }
        ensures { self.new ≡ answer_bytes_by grammar (Some (record { boot = boot; body = StaleMsg newer })) }
    {
        self.forgotten = None;
        let body = Body::Stale { newer };
        self.of_log.put_by(grammar, &Msg { boot, body });
    }

    /// Replaces the content by an answer to a message about forgetting.
    fn put(&mut self, grammar: Grammar, reply: Reply)
        requires { IsSendable reply }
        ensures { self.new ≡ reply_bytes grammar (Some (reply_said reply)) }
    {
        match reply {
            Reply::Forgotten { boot, named } => self.put_forgotten(boot, named),
            Reply::Stale { boot, newer } => self.put_stale(grammar, boot, newer),
        }
    }
}

impl AnswerOut {
    /// Applies a message of the log to it, and replaces the content by the answer, or by nothing.
    pub(crate) fn take_usual(
        &mut self,
        log: &mut LogStore,
        alloc: Global,
        grammar: Grammar,
        m: &Msg<'_>,
    ) -> Result<(), NoMemory>
        requires { IsSendableBy grammar m.now }
        ensures next { OnOk result (log.new ≡ log_after log.old (msg_said m.now)) }
        ensures answer { OnOk result (self.new ≡ answer_bytes_by grammar (answer_to log.old (msg_said m.now))) }
        ensures refused { OnErr result (log.new ≡ log.old) }
        ensures empty { OnErr result (self.new ≡ []) }
        ensures memory { wants_memory log.old (msg_said m.now) ≡ false → IsOk result }
    {
        self.forgotten = None;
        log.answer_by(alloc, grammar, m, &mut self.of_log)
    }

    /// Applies a message about forgetting to the log, and replaces the content by the answer, or by nothing.
    pub(crate) fn take_forgetting(&mut self, log: &mut LogStore, grammar: Grammar, m: &ForgetMsg)
        requires { IsSpellable (message_of m.now) }
        ensures next { log.new ≡ after_forget log.old (message_of m.now) }
        ensures answer { self.new ≡ reply_bytes grammar (answer_to_forget log.old (message_of m.now)) }
    {
        self.clear();
        receive_forget(log, grammar, m, self);
    }
}

/// Takes a message about forgetting, and writes the answer to it, or nothing, into the empty `out`.
fn receive_forget(log: &mut LogStore, grammar: Grammar, m: &ForgetMsg, out: &mut AnswerOut)
    requires spellable { IsSpellable (message_of m.now) }
    requires empty { out.old ≡ [] }
    ensures next { log.new ≡ after_forget log.old (message_of m.now) }
    ensures answer { out.new ≡ reply_bytes grammar (answer_to_forget log.old (message_of m.now)) }
{
    if let Some(reply) = take_forget(log, m) {
        out.put(grammar, reply);
    }
}

/// Takes bytes, which may be a message of the log in this grammar, one about forgetting, or neither, and replaces the content of `out` by the answer, or by
/// nothing. After `NoMemory` the log is unchanged, `out` empty.
pub fn answer(
    log: &mut LogStore,
    alloc: Global,
    grammar: Grammar,
    bytes: &[u8],
    out: &mut AnswerOut,
) -> Result<(), NoMemory>
    ensures next { OnOk result (log.new ≡ after_bytes grammar bytes.now log.old) }
    ensures answer { OnOk result (out.new ≡ answer_to_bytes grammar bytes.now log.old) }
    ensures refused { OnErr result (log.new ≡ log.old) }
    ensures empty { OnErr result (out.new ≡ []) }
{
    out.forgotten = None;
    if let Ok(m) = read_msg_by(grammar, bytes) {
        return log.answer_by(alloc, grammar, &m, &mut out.of_log);
    }
    out.of_log.clear();
    if let Ok(m) = read_forget(bytes) {
        receive_forget(log, grammar, &m, out);
    }
    Ok(())
}
