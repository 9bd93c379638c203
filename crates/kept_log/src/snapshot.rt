//! Writing a snapshot of a log: the messages that make it again, in a new file.

ghost use Rattle.std.specs.Prelude.{[], ◌≡◌, ◌≤◌, ◌∷◌, List, ℕ, None, false, length, map, IfOk, IfSome, OnOk, OnErr};
ghost use Rattle.ft_io.specs.Faults.{Rose};
ghost use Rattle.ft_io.specs.Reported.{Reports};
ghost use Rattle.seq_arith.specs.Message.{Message};
ghost use Rattle.seq_arith.specs.Message.Body.{HelloMsg};
ghost use Rattle.forget_store.specs.AnyMessage.AnyMessage.{Usual};
ghost use Rattle.long_laws.specs.Snapshot.{said, joined, messages_of, AreSaid, IsSnapshotOf};
ghost use Rattle.disk.specs.Aside.{HasAside};
ghost use Rattle.disk.specs.Remains.{IsFrontOf};
ghost use Rattle.disk.specs.CallRecord.{on_disk};
ghost use Rattle.disk.specs.declared.calls.DiskCall.{DiskCall};
ghost use Rattle.disk.specs.declared.calls.DiskCall.TheVariants.{Synced, Replaced};
ghost use Rattle.kept_log.specs.Compaction.{IsCompacted, IsCutCompaction};
ghost use Rattle.kept_log.specs.Draft.{IsWritten};
ghost use Rattle.kept_log.specs.Format.{front, tip_of};
ghost use Rattle.kept_log.specs.MessageList.{AreKept};
ghost use Rattle.kept_log.specs.declared.tip.Tip.{Tip};

use crate::draft::Draft;
use crate::header::TIME;
use crate::journal::KeepEnd;
use crate::tip::Tip;
use disk::Desk;
use ft_io::Failed;
use log_snapshot::{Step, write_step};
use logger_store::{LogStore, MsgOut, StoredEntry};
use logger_wire::Grammar;
use std::alloc::Global;

#[tactic(auto, using(crate::proofs::Cited::write_entry_lemmas))]
/// Writes what makes an entry again.
fn write_entry<K: Desk>(
    alloc: Global,
    desk: &mut K,
    draft: &mut Draft,
    entry: &StoredEntry,
    grammar: Grammar,
    boot: u64,
) -> Result<(), KeepEnd>
    requires boot { 1 ≤ boot }
    ensures written { OnOk result ((pieces : List (List ℕ)) × (joined pieces ≡ entry.now.bytes)
        × IsWritten (K.aside desk.old) draft.old (K.aside desk.new) draft.new (messages_of boot entry.now pieces)) }
    ensures reported { Reports (K.reported desk.old) (K.reported desk.new) [] }
    ensures never_falls { K.fault_count desk.old ≤ K.fault_count desk.new }
    ensures beside { K.beside desk.new ≡ K.beside desk.old }
{
    let mut out = MsgOut::new();
    let mut next = Some(Step::Open);
    while let Some(step) = next {
        out.clear();
        next = write_step(entry, grammar, boot, step, &mut out);
        draft.take(alloc, desk, out.bytes())?;
    }
    Ok(())
}

#[tactic(auto, using(crate::proofs::Cited::write_entries_lemmas))]
/// Writes what makes the entries of a log again.
fn write_entries<K: Desk>(
    alloc: Global,
    desk: &mut K,
    draft: &mut Draft,
    store: &LogStore,
    grammar: Grammar,
) -> Result<(), KeepEnd>
    requires boot { 1 ≤ store.now.boot }
    ensures written { OnOk result ((messages : List Message) × AreSaid store.now.boot store.now.entries messages
        × IsWritten (K.aside desk.old) draft.old (K.aside desk.new) draft.new messages) }
    ensures reported { Reports (K.reported desk.old) (K.reported desk.new) [] }
    ensures never_falls { K.fault_count desk.old ≤ K.fault_count desk.new }
    ensures beside { K.beside desk.new ≡ K.beside desk.old }
{
    for i in 0..store.count() {
        if let Some(entry) = store.at(i) {
            write_entry(alloc, desk, draft, entry, grammar, store.boot())?;
        }
    }
    Ok(())
}

/// Writes that a server of this boot has started.
#[tactic(auto, using(crate::proofs::Files::quiet_on, ft_io::proofs::Recordings::none_reported))]
fn write_boot<K: Desk>(
    alloc: Global,
    desk: &mut K,
    draft: &mut Draft,
    grammar: Grammar,
    boot: u64,
) -> Result<(), KeepEnd>
    requires boot { 1 ≤ boot }
    ensures written { OnOk result (IsWritten (K.aside desk.old) draft.old (K.aside desk.new) draft.new (said boot HelloMsg ∷ [])) }
    ensures reported { Reports (K.reported desk.old) (K.reported desk.new) [] }
    ensures never_falls { K.fault_count desk.old ≤ K.fault_count desk.new }
    ensures beside { K.beside desk.new ≡ K.beside desk.old }
{
    let mut out = MsgOut::new();
    log_snapshot::write_boot(grammar, boot, &mut out);
    draft.take(alloc, desk, out.bytes())
}

#[tactic(auto, using(crate::proofs::Said::new_file, crate::proofs::Files::quiet_on, ft_io::proofs::Recordings::none_reported))]
/// Writes a new file with a snapshot of a log, of a journal that is made at this time, and syncs it. Returns where its next block begins.
pub fn write_snapshot<K: Desk>(
    alloc: Global,
    desk: &mut K,
    store: &LogStore,
    grammar: Grammar,
    made: &[u8; TIME],
) -> Result<Tip, KeepEnd>
    requires boot { 1 ≤ store.now.boot }
    requires time { length made.now ≡ 8 }
    ensures written { IfOk result (λ tip. (bodies : List (List ℕ)) × (messages : List Message)
        × IsSnapshotOf store.now messages × AreKept bodies (map Usual messages)
        × (tip ≡ tip_of made.now bodies) × HasAside (K.aside_synced desk.new) (front made.now bodies)) }
    ensures reported { Reports (K.reported desk.old) (K.reported desk.new) [] }
    ensures never_falls { K.fault_count desk.old ≤ K.fault_count desk.new }
    ensures beside { K.beside desk.new ≡ K.beside desk.old }
{
    let mut draft = Draft::begin(alloc, desk, made)?;
    write_boot(alloc, desk, &mut draft, grammar, store.boot())?;
    write_entries(alloc, desk, &mut draft, store, grammar)?;
    draft.flush(alloc, desk)?;
    desk.sync_aside()?;
    Ok(draft.tip())
}

#[tactic(auto, using(crate::proofs::Drafts::placed, crate::proofs::Drafts::unsynced, crate::proofs::Drafts::unnamed))]
/// Puts the new file in the place of the old one, and syncs the folder.
fn take_place<K: Desk>(desk: &mut K) -> Result<(), Failed>
    ensures replaced { OnOk result ((bytes : List ℕ) → HasAside (K.aside_synced desk.old) bytes
        → Reports (K.reported desk.old) (K.reported desk.new) (on_disk (Replaced bytes false ∷ Synced false ∷ []))) }
    ensures failed { OnErr result ((bytes : List ℕ) → HasAside (K.aside_synced desk.old) bytes
        → (done : List DiskCall) × IsFrontOf (Replaced bytes false ∷ Synced false ∷ []) done
        × Reports (K.reported desk.old) (K.reported desk.new) (on_disk done)) }
    ensures cause { OnErr result (Rose (K.fault_count desk.old) (K.fault_count desk.new)) }
    ensures never_falls { K.fault_count desk.old ≤ K.fault_count desk.new }
    ensures beside { K.beside desk.new ≡ K.beside desk.old }
{
    desk.replace()?;
    desk.sync()?;
    Ok(())
}

#[tactic(auto, using(crate::proofs::Cited::replace_file_lemmas))]
/// Writes a new file with a snapshot of a log, of a journal that is made at this time, and puts it in the place of the old one. Returns where its next block
/// begins; `None` if it couldn't be written: then it is removed, and the old file is as before.
pub fn replace_file<K: Desk>(
    alloc: Global,
    desk: &mut K,
    store: &LogStore,
    grammar: Grammar,
    made: &[u8; TIME],
) -> Result<Option<Tip>, Failed>
    requires boot { 1 ≤ store.now.boot }
    requires time { length made.now ≡ 8 }
    ensures replaced { IfOk result (λ r. IfSome r (λ next. (tip : Tip) → IsCompacted made.now tip store.now next (K.reported desk.old) (K.reported desk.new))) }
    ensures stays { IfOk result (λ r. r ≡ None → Reports (K.reported desk.old) (K.reported desk.new) []) }
    ensures failed { OnErr result ((tip : Tip) → IsCutCompaction made.now tip store.now (K.reported desk.old) (K.reported desk.new)) }
    ensures cause { OnErr result (Rose (K.fault_count desk.old) (K.fault_count desk.new)) }
    ensures never_falls { K.fault_count desk.old ≤ K.fault_count desk.new }
    ensures beside { K.beside desk.new ≡ K.beside desk.old }
{
    let Ok(tip) = write_snapshot(alloc, desk, store, grammar, made) else {
        desk.drop_aside();
        return Ok(None);
    };
    take_place(desk)?;
    Ok(Some(tip))
}
