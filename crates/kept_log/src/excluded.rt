//! Wrong results that the contracts of this crate exclude. Each function calls another one of the crate, and promises of its result what a wrong body would
//! make false. It is proved from the other's contract alone, so it is no longer proved once that contract lets the wrong body pass.

ghost use Rattle.std.specs.Prelude.{◌≡◌, ◌≤◌, ◌<◌, ◌^◌, ℕ, [], ◌∷◌, ◌++◌, List, Some, true, false, length, drop, IfOk, OnOk};
ghost use Rattle.disk.specs.declared.calls.DeskCall.{DeskCall};
ghost use Rattle.disk.specs.declared.calls.DeskCall.TheVariants.{OnDisk};
ghost use Rattle.disk.specs.declared.calls.DiskCall.TheVariants.{Synced, Replaced};
ghost use Rattle.disk.specs.Aside.{HasAside};
ghost use Rattle.ft_io.specs.Reported.{Reports};
ghost use Rattle.kept_log.specs.Format.{digest, front, tip_of, BeginsNone};
ghost use Rattle.kept_log.specs.JournaledLog.{is_full};
ghost use Rattle.kept_log.specs.Startup.{IsFollowed, IsOfOther};
ghost use Rattle.seq_arith.specs.MessageGrammar.{number_bytes};
ghost use Rattle.long_laws.specs.ForgetGrammar.{IsSpellable};
ghost use Rattle.forget_wire.specs.Value.{message_of};
ghost use Rattle.forget_store.specs.AnyMessage.{any_said, heeded_in, is_changed_by, IsAnswerable};
ghost use Rattle.forget_store.specs.AnyMessage.AnyMessage.{Forgetting};

use crate::header::TIME;
use crate::journal::KeepEnd;
use crate::kept::KeptLog;
use crate::reading::{Found, Taken, tail_of, take_block};
use crate::snapshot::write_snapshot;
use crate::tip::{DIGEST, Tip, seal_of};
use crate::window::Window;
use disk::{Desk, Disk};
use forget_store::{AnswerOut, AnyMsg, Heeded};
use forget_wire::ForgetMsg;
use ft_io::{Failed, NoMemory};
use logger_store::LogStore;
use logger_wire::Grammar;
use std::alloc::Global;

/// A block that isn't the next one isn't taken: the contract of `take_block`.
fn a_wrong_block_is_passed_over(
    alloc: Global,
    window: &mut Window,
    tip: &mut Tip,
    store: &mut LogStore,
) -> Result<bool, NoMemory>
    requires number { tip.old.number < 2 ^ 63 }
    requires end { tip.old.end < 2 ^ 63 }
    requires none { BeginsNone tip.old window.old }
    ensures { IfOk result (λ is_taken. is_taken ≡ false) }
{
    match take_block(alloc, window, tip, store)? {
        Taken::Block => Ok(true),
        _ => Ok(false),
    }
}

/// The last call of an append that succeeds is a sync: the clause `kept` of `Tip::keep`.
fn acknowledged_before_the_sync<D: Disk>(
    tip: &mut Tip,
    alloc: Global,
    disk: &mut D,
    body: &[u8],
) -> Result<(), KeepEnd>
    requires small { length body.now < 2 ^ 32 }
    requires number { tip.old.number < 2 ^ 63 }
    requires end { tip.old.end < 2 ^ 63 }
    requires first { D.reported disk.old ≡ Some [] }
    ensures { OnOk result ((calls : List DeskCall) → D.reported disk.new ≡ Some calls → drop 1 calls ≡ OnDisk (Synced false) ∷ []) }
{
    tip.keep(alloc, disk, body)
}

/// What follows the blocks isn't cut off if it is longer than the longest block: the contract of `tail_of`.
fn a_long_tail_is_torn(tip: &Tip, tail: &[u8]) -> bool
    requires { 381740 < length tail.now }
    ensures { result ≡ false }
{
    matches!(tail_of(tip, tail), Found::Whole(_, _))
}

/// Nor if a later block begins in it: the contract of `tail_of`.
fn a_later_block_is_cut_off(tip: &Tip, tail: &[u8]) -> bool
    requires { IsFollowed tip.now tail.now }
    ensures { result ≡ false }
{
    matches!(tail_of(tip, tail), Found::Whole(_, _))
}

/// A block's digest depends on the one before it: the contract of `seal_of`.
#[tactic(auto, unfolding(crate::specs::Format::seal))]
fn a_digest_without_the_previous_one(tip: &Tip, body: &[u8]) -> [u8; DIGEST]
    requires { length body.now < 2 ^ 32 }
    ensures { result ≡ digest (((tip.now.previous ++ number_bytes 8 tip.now.number) ++ number_bytes 4 (length body.now)) ++ body.now) }
{
    seal_of(tip, body)
}

/// Each message that changes the log joins the round, however short it is: the clause `round` of `KeptLog::take`.
fn a_short_message_is_not_kept(
    kept: &mut KeptLog,
    alloc: Global,
    bytes: &[u8],
    any: &AnyMsg<'_>,
    out: &mut AnswerOut,
) -> Result<(), NoMemory>
    requires answerable { IsAnswerable kept.old.heeded.grammar any.now }
    requires read { heeded_in kept.old.heeded bytes.now ≡ Some (any_said any.now) }
    requires room { is_full kept.old ≡ false }
    requires changes { is_changed_by kept.old.log (any_said any.now) ≡ true }
    ensures { OnOk result (kept.new.round ≡ kept.old.round ++ bytes.now) }
{
    kept.take(alloc, bytes, any, out)
}

/// .. and so does each message about forgetting that recycles an entry: the clause `round` of `KeptLog::take`.
fn a_forget_is_not_kept(
    kept: &mut KeptLog,
    alloc: Global,
    bytes: &[u8],
    m: ForgetMsg,
    out: &mut AnswerOut,
) -> Result<(), NoMemory>
    requires spellable { IsSpellable (message_of m) }
    requires read { heeded_in kept.old.heeded bytes.now ≡ Some (Forgetting (message_of m)) }
    requires room { is_full kept.old ≡ false }
    requires recycles { is_changed_by kept.old.log (Forgetting (message_of m)) ≡ true }
    ensures { OnOk result (kept.new.round ≡ kept.old.round ++ bytes.now) }
{
    kept.take(alloc, bytes, &AnyMsg::Forgetting(m), out)
}

/// A new file is on the disk before it takes the old one's name: the clause `written` of `write_snapshot`.
fn renamed_before_the_sync<K: Desk>(
    alloc: Global,
    desk: &mut K,
    store: &LogStore,
    grammar: Grammar,
    made: &[u8; TIME],
) -> Result<Tip, KeepEnd>
    requires boot { 1 ≤ store.now.boot }
    requires time { length made.now ≡ 8 }
    ensures { IfOk result (λ tip. (bodies : List (List ℕ)) × (tip ≡ tip_of made.now bodies) × HasAside (K.aside_synced desk.new) (front made.now bodies)) }
{
    write_snapshot(alloc, desk, store, grammar, made)
}

/// Once a new file has the name, the folder is synced before anything else is done: the clause `compacted` of `KeptLog::compact`.
fn answered_before_the_folder_is_synced<K: Desk>(
    kept: &mut KeptLog,
    alloc: Global,
    desk: &mut K,
    made: u64,
) -> Result<bool, Failed>
    requires { kept.old.round ≡ [] }
    ensures { IfOk result (λ done. done ≡ true → (bytes : List ℕ)
        × Reports (K.reported desk.old) (K.reported desk.new) (OnDisk (Replaced bytes false) ∷ OnDisk (Synced false) ∷ [])) }
{
    kept.compact(alloc, desk, made)
}

/// A journal of another grammar isn't opened: the clause `has_grammar` of `KeptLog::open`.
fn a_journal_of_another_grammar_is_opened<D: Disk>(
    alloc: Global,
    heeded: Heeded,
    disk: &mut D,
) -> bool
    requires { (file : List ℕ) × (D.left disk.old ≡ Some file) × IsOfOther heeded.grammar file }
    ensures { result ≡ false }
{
    KeptLog::open(alloc, heeded, disk).is_ok()
}
