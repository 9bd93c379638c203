//! Which messages a logger heeds, and what its log does with one.

ghost use Rattle.std.specs.Prelude.{[], ◌≡◌, false, option_map, IfSome, IsOk, OnOk, OnErr};
ghost use Rattle.forget_store.specs.AnyMessage.{any_said, heeded_in, log_after_any, answer_to_any, wants_for, is_changed_by, IsAnswerable};
ghost use Rattle.forget_store.specs.Replies.{reply_bytes};

use crate::forgetting::recycles;
use crate::store::AnswerOut;
use forget_wire::{ForgetMsg, read_forget};
use ft_io::NoMemory;
use logger_store::LogStore;
use logger_wire::{Grammar, Msg, read_msg_by};
use std::alloc::Global;

/// Which messages a logger heeds.
#[derive(Clone, Copy)]
pub struct Heeded {
    /// The grammar of its messages of the log. Those of the other one are no messages.
    pub grammar: Grammar,
    /// Whether it heeds messages about forgetting.
    pub forgets: bool,
}

/// A message that a logger heeds.
#[derive(Clone, Copy)]
pub enum AnyMsg<'a> {
    /// A message of the log.
    Usual(Msg<'a>),
    /// A message about forgetting.
    Forgetting(ForgetMsg),
}

/// Reads a message that is heeded. Returns `None` if the bytes are none.
pub fn read_heeded(heeded: Heeded, bytes: &[u8]) -> Option<AnyMsg<'_>>
    ensures value { option_map any_said result ≡ heeded_in heeded bytes.now }
    ensures answerable { IfSome result (IsAnswerable heeded.grammar) }
{
    if let Ok(m) = read_msg_by(heeded.grammar, bytes) {
        return Some(AnyMsg::Usual(m));
    }
    if !heeded.forgets {
        return None;
    }
    match read_forget(bytes) {
        Ok(m) => Some(AnyMsg::Forgetting(m)),
        Err(_) => None,
    }
}

/// Applies a message to the log, and replaces the content of `out` by the answer, or by nothing if there is none. After `NoMemory` the log is unchanged and
/// `out` empty.
pub fn take_any(
    log: &mut LogStore,
    alloc: Global,
    grammar: Grammar,
    any: &AnyMsg<'_>,
    out: &mut AnswerOut,
) -> Result<(), NoMemory>
    requires { IsAnswerable grammar any.now }
    ensures next { OnOk result (log.new ≡ log_after_any log.old (any_said any.now)) }
    ensures answer { OnOk result (out.new ≡ reply_bytes grammar (answer_to_any log.old (any_said any.now))) }
    ensures refused { OnErr result (log.new ≡ log.old) }
    ensures empty { OnErr result (out.new ≡ []) }
    ensures memory { wants_for log.old (any_said any.now) ≡ false → IsOk result }
{
    match any {
        AnyMsg::Usual(m) => out.take_usual(log, alloc, grammar, m),
        AnyMsg::Forgetting(m) => {
            out.take_forgetting(log, grammar, m);
            Ok(())
        }
    }
}

/// Whether a message changes the log. The log depends on the messages that do, and on no others.
pub fn is_changed(log: &LogStore, grammar: Grammar, any: &AnyMsg<'_>) -> bool
    requires { IsAnswerable grammar any.now }
    ensures value { result ≡ is_changed_by log.now (any_said any.now) }
    ensures stays { result ≡ false → log_after_any log.now (any_said any.now) ≡ log.now }
{
    match any {
        AnyMsg::Usual(m) => log.changes_by(grammar, m),
        AnyMsg::Forgetting(m) => recycles(log, m),
    }
}
