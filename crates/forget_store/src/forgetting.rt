//! What the log does with a message about forgetting.

ghost use Rattle.std.specs.Prelude.{◌≡◌, ◌==◌, ◌&&◌, false, option_map, IfSome};
ghost use Rattle.std.specs.List.{list_any};
ghost use Rattle.long_laws.specs.Forgetting.{forgotten_in, is_entry_of, is_recycled, after_forget, answer_to_forget};
ghost use Rattle.forget_wire.specs.Value.{named_said, body_of, message_of};
ghost use Rattle.forget_store.specs.AnyMessage.{recycles as recycles_lem};
ghost use Rattle.forget_store.specs.Replies.{reply_said, IsSendable};
ghost use Rattle.long_laws.specs.ForgetGrammar.{IsSpellable};

use crate::reply::Reply;
use forget_wire::{ForgetBody, ForgetMsg, Named};
use logger_store::LogStore;
use logger_wire::EntryHead;

/// Whether an entry of this key is this connection's.
fn is_its(head: &EntryHead, named: &Named) -> bool
    ensures { result ≡ (head.now.cisn == named.now.cisn && head.now.sisn == named.now.sisn) }
{
    head.cisn == named.cisn && head.sisn == named.sisn
}

/// Whether the log has the entry of this connection.
fn has_entry(log: &LogStore, named: &Named) -> bool
    ensures { result ≡ list_any (is_entry_of (named_said named.now)) log.now.entries }
{
    match log.head_of(named.key) {
        Some(head) => is_its(&head, named),
        None => false,
    }
}

/// Whether the log has the entry of this connection, and it is done.
fn has_done_entry(log: &LogStore, named: &Named) -> bool
    ensures { result ≡ list_any (is_recycled (named_said named.now)) log.now.entries }
{
    match log.head_of(named.key) {
        Some(head) => is_its(&head, named) && head.done,
        None => false,
    }
}

/// Whether a message about forgetting changes the log: it has the log's boot number, and recycles an entry.
#[tactic(auto, using(crate::proofs::AnyLogs::unchanged))]
pub(crate) fn recycles(log: &LogStore, m: &ForgetMsg) -> bool
    ensures value { result ≡ (m.now.boot == log.now.boot && recycles_lem (body_of m.now.body) log.now) }
    ensures stays { result ≡ false → after_forget log.now (message_of m.now) ≡ log.now }
{
    match &m.body {
        ForgetBody::Forget(named) => m.boot == log.boot() && has_done_entry(log, named),
        ForgetBody::Forgotten(_) => false,
    }
}

/// Recycles the entry of this connection, if it is done.
fn forget(log: &mut LogStore, named: &Named)
    ensures { log.new ≡ forgotten_in (named_said named.now) log.old }
{
    let Some(head) = log.head_of(named.key) else {
        return;
    };
    if is_its(&head, named) && head.done {
        log.remove(named.key);
    }
}

/// Takes a message about forgetting, and returns the answer to it. A Forget of the log's own boot recycles the entry that it names, if that is done, and gets
/// Forgotten unless the log still has this entry. One of an older boot gets Stale, as any other message would.
#[tactic(auto, unfolding(long_laws::specs::Forgetting::after_forget, long_laws::specs::Forgetting::answer_to_forget))]
pub fn take_forget(log: &mut LogStore, m: &ForgetMsg) -> Option<Reply>
    ensures next { log.new ≡ after_forget log.old (message_of m.now) }
    ensures answer { option_map reply_said result ≡ answer_to_forget log.old (message_of m.now) }
    ensures sendable { IfSome result (λ reply. IsSpellable (message_of m.now) → IsSendable reply) }
{
    let ForgetBody::Forget(named) = m.body else {
        return None;
    };
    let boot = log.boot();
    if m.boot < boot {
        return Some(Reply::Stale {
            boot: m.boot,
            newer: boot,
        });
    }
    if m.boot > boot {
        return None;
    }
    forget(log, &named);
    if has_entry(log, &named) {
        return None;
    }
    Some(Reply::Forgotten { boot, named })
}
