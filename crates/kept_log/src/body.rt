//! The messages of a block.

ghost use Rattle.std.specs.Prelude.{◌≡◌, ◌⊎◌, ◌<◌, ◌≤◌, List, ℕ, Ok, true, false, length, IfOk, IfSome, IfNone, []};
ghost use Rattle.seq_arith.specs.Bytes.{word_at as word_at_lem};
ghost use Rattle.seq_arith.specs.Message.{Message};
ghost use Rattle.seq_arith.specs.MessageGrammar.{reading_by};
ghost use Rattle.logger_wire.specs.Value.{message_of, IsSendableBy};
ghost use Rattle.forget_store.specs.AnyMessage.{AnyMessage as Said, any_said, IsAnswerable};
ghost use Rattle.kept_log.specs.MessageList.{IsSpelling, IsSpellingOf, Says};
ghost use Rattle.kept_log.specs.JournaledLog.{Waits};

use forget_store::{AnswerOut, AnyMsg, take_any};
use forget_wire::read_forget;
use ft_io::NoMemory;
use logger_store::LogStore;
use logger_wire::{Grammar, Msg, read_msg, read_wide_msg, word_at};
use std::alloc::Global;

/// Returns the length of the first message in these bytes, by its header. `None` if there are fewer bytes.
pub fn first_length(bytes: &[u8]) -> Option<usize>
    ensures some { IfSome result (λ n. (6 ≤ length bytes.now) × (n ≤ length bytes.now) × (n ≡ word_at_lem bytes.now 4)) }
    ensures few { IfNone result ((length bytes.now < 6) ⊎ (length bytes.now < word_at_lem bytes.now 4)) }
    ensures none { IfNone result ((messages : List Said) → Says bytes.now messages → bytes.now ≡ []) }
{
    if bytes.len() < 6 {
        return None;
    }
    let n = usize::from(word_at(bytes, 4));
    if n <= bytes.len() { Some(n) } else { None }
}

/// Reads a message of the log in the grammar that its version says.
pub fn read_any(bytes: &[u8]) -> Option<(Grammar, Msg<'_>)>
    ensures read { IfSome result (λ r. reading_by r.0 bytes.now ≡ Ok (message_of r.1)) }
    ensures sendable { IfSome result (λ r. IsSendableBy r.0 r.1) }
    ensures none { IfNone result ((message : Message) → IsSpelling bytes.now message → ⊥) }
{
    if let Ok(m) = read_msg(bytes) {
        return Some((Grammar::Plain, m));
    }
    match read_wide_msg(bytes) {
        Ok(m) => Some((Grammar::Wide, m)),
        Err(_) => None,
    }
}

/// Reads a message of the log, or one about forgetting. Its answer could be sent in the grammar that is returned, too.
fn read_one(bytes: &[u8]) -> Option<(Grammar, AnyMsg<'_>)>
    ensures read { IfSome result (λ r. IsSpellingOf bytes.now (any_said r.1)) }
    ensures answerable { IfSome result (λ r. IsAnswerable r.0 r.1) }
    ensures none { IfNone result ((any : Said) → IsSpellingOf bytes.now any → ⊥) }
{
    if let Some((grammar, m)) = read_any(bytes) {
        return Some((grammar, AnyMsg::Usual(m)));
    }
    match read_forget(bytes) {
        Ok(m) => Some((Grammar::Plain, AnyMsg::Forgetting(m))),
        Err(_) => None,
    }
}

/// Applies the messages of a block's body to the log. Returns false if the body isn't a sequence of messages; then some of them may be in the log.
pub fn take_body(alloc: Global, body: &[u8], store: &mut LogStore) -> Result<bool, NoMemory>
    ensures said { IfOk result (λ all. all ≡ true → Waits store.old body.now store.new) }
    ensures wrong { IfOk result (λ all. all ≡ false → (messages : List Said) → Says body.now messages → ⊥) }
{
    let mut out = AnswerOut::new();
    let mut rest = body;
    while !rest.is_empty() {
        let Some(n) = first_length(rest) else {
            return Ok(false);
        };
        let Some((grammar, any)) = read_one(&rest[..n]) else {
            return Ok(false);
        };
        take_any(store, alloc, grammar, &any, &mut out)?;
        rest = &rest[n..];
    }
    Ok(true)
}
