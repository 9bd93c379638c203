//! The log with its journal.

ghost use Rattle.std.specs.Prelude.{[], ◌≡◌, ◌≤◌, List, ℕ, Some, true, false, length, IfOk, IfErr, OnOk, OnErr, IsOk, IsErrOf};
ghost use Rattle.seq_arith.specs.MessageGrammar.{number_bytes};
ghost use Rattle.kept_log.specs.Format.{making};
ghost use Rattle.ft_io.specs.Faults.{Rose};
ghost use Rattle.ft_io.specs.Reported.{Reports};
ghost use Rattle.ft_model.specs.Log.{Log};
ghost use Rattle.forget_store.specs.AnyMessage.{any_said, heeded_in, log_after_any, answer_to_any, wants_for, IsAnswerable};
ghost use Rattle.forget_store.specs.Replies.{reply_bytes};
ghost use Rattle.disk.specs.declared.calls.DiskCall.{DiskCall};
ghost use Rattle.disk.specs.Remains.{IsFrontOf};
ghost use Rattle.disk.specs.CallRecord.{on_disk};
ghost use Rattle.kept_log.specs.Compaction.{IsCompacted, IsCutCompaction};
ghost use Rattle.kept_log.specs.JournaledLog.{is_full, kept_of, committing, tip_after, with_round, HasLog, Waits};
ghost use Rattle.kept_log.specs.Startup.{IsOpened, HasGrammar, HasOtherGrammar, HasStopped, HasNotBegun};
ghost use Rattle.std.specs.Prelude.{◌++◌};

use crate::block::MOST_BODY;
use crate::journal::KeepEnd;
use crate::opening::{OpenEnd, make, open_file};
use crate::snapshot::replace_file;
use crate::tip::Tip;
use disk::{Desk, Disk};
use forget_store::{AnswerOut, AnyMsg, Heeded, is_changed, take_any};
use ft_io::{Failed, NoMemory};
use limits::MESSAGE;
use logger_store::LogStore;
use std::alloc::Global;
use std::marker::Model;

/// A log, and the round of messages that have changed it and aren't in its journal yet. The caller has the journal's file, and passes the same one to each
/// call.
#[derive(Drop)]
pub struct KeptLog {
    store: LogStore,
    /// Which messages it heeds.
    heeded: Heeded,
    /// Where the next block begins in the journal.
    tip: Tip,
    /// Its room is allocated once.
    round: Vec<u8>,
}

impl Model for KeptLog {
    ghost use Rattle.std.specs.Prelude.{◌≤◌, length, vec_capacity};
    ghost use Rattle.kept_log.specs.JournaledLog.{KeptState};

    ghost Value = { KeptState };

    ghost view = { λ k. record { log = k.store; heeded = k.heeded; tip = k.tip; round = k.round.items } };

    ghost invariant = { λ k. (length k.round.items ≤ 381696) × (381696 ≤ vec_capacity k.round) };
}

impl KeptLog {
    /// Reads the journal in a file that was opened just now into a log, and cuts off what a death has left after its blocks. Returns how many bytes that were
    /// too. A file that isn't a whole journal of this grammar stays as it is.
    pub fn open<D: Disk>(
        alloc: Global,
        heeded: Heeded,
        disk: &mut D,
    ) -> Result<(KeptLog, usize), OpenEnd>
        ensures opened { IfOk result (λ r. IsOpened (D.left disk.old) (D.reported disk.old) (D.reported disk.new) r.0.tip r.1 r.0.log) }
        ensures none_waits { IfOk result (λ r. r.0.round ≡ []) }
        ensures heeded { IfOk result (λ r. r.0.heeded ≡ heeded) }
        ensures has_grammar { OnOk result (HasGrammar heeded.grammar (D.left disk.old)) }
        ensures other { IsErrOf result OpenEnd.OtherGrammar → HasOtherGrammar heeded.grammar (D.left disk.old) }
        ensures stopped { IfErr result (HasStopped (D.left disk.old) (D.reported disk.old) (D.reported disk.new)) }
        ensures cause { IsErrOf result OpenEnd.Failed → Rose (D.fault_count disk.old) (D.fault_count disk.new) }
        ensures never_falls { D.fault_count disk.old ≤ D.fault_count disk.new }
        ensures beside { D.beside disk.new ≡ D.beside disk.old }
    {
        let mut store = LogStore::new(alloc);
        let round = Vec::with_capacity(alloc, MOST_BODY).map_err(|_| OpenEnd::NoMemory)?;
        let (tip, cut) = open_file(alloc, heeded.grammar, disk, &mut store)?;
        let kept = KeptLog {
            store,
            heeded,
            tip,
            round,
        };
        Ok((kept, cut))
    }

    /// Makes a journal of this grammar in a file that is empty, at this time: nanoseconds since 1970. Its log is empty.
    #[tactic(auto, unfolding(seq_arith::specs::MessageGrammar::number_bytes))]
    pub fn begin<D: Disk>(
        alloc: Global,
        heeded: Heeded,
        disk: &mut D,
        made: u64,
    ) -> Result<KeptLog, KeepEnd>
        ensures begun { IfOk result (λ k. HasLog (number_bytes 8 made) [] k.tip k.log) }
        ensures reported { OnOk result (Reports (D.reported disk.old) (D.reported disk.new) (on_disk (making (number_bytes 8 made)))) }
        ensures none_waits { IfOk result (λ k. k.round ≡ []) }
        ensures heeded { IfOk result (λ k. k.heeded ≡ heeded) }
        ensures stopped { IfErr result (HasNotBegun (number_bytes 8 made) (D.reported disk.old) (D.reported disk.new)) }
        ensures cause { IsErrOf result KeepEnd.Failed → Rose (D.fault_count disk.old) (D.fault_count disk.new) }
        ensures never_falls { D.fault_count disk.old ≤ D.fault_count disk.new }
        ensures beside { D.beside disk.new ≡ D.beside disk.old }
    {
        let store = LogStore::new(alloc);
        let round = Vec::with_capacity(alloc, MOST_BODY)?;
        let tip = make(alloc, disk, &made.to_be_bytes())?;
        Ok(KeptLog {
            store,
            heeded,
            tip,
            round,
        })
    }

    /// The log, with the uncommitted round applied.
    pub fn log(&self) -> &LogStore
        ensures { result.now ≡ self.now.log }
    {
        &self.store
    }

    /// Which messages it heeds.
    pub fn heeded(&self) -> Heeded
        ensures { result ≡ self.now.heeded }
    {
        self.heeded
    }

    /// Where the next block begins: its number, and its place, which is the length of the file.
    pub fn tip(&self) -> &Tip
        ensures { result.now ≡ self.now.tip }
    {
        &self.tip
    }

    /// Whether the round has no room for one more message of the greatest length. It has room for 256 of these.
    pub fn is_full(&self) -> bool
        ensures { result ≡ is_full self.now }
    {
        self.round.len() > MOST_BODY - MESSAGE
    }

    /// Applies a message that it heeds to the log, and replaces the content of `out` by the answer, or by nothing if there is none. If the message changes the
    /// log, its bytes join the uncommitted round. The answer may be sent only once the round is committed. Only `LogStore::answer_by` allocates here.
    pub fn take(
        &mut self,
        alloc: Global,
        bytes: &[u8],
        any: &AnyMsg<'_>,
        out: &mut AnswerOut,
    ) -> Result<(), NoMemory>
        requires answerable { IsAnswerable self.old.heeded.grammar any.now }
        requires read { heeded_in self.old.heeded bytes.now ≡ Some (any_said any.now) }
        requires room { is_full self.old ≡ false }
        ensures next { OnOk result (self.new.log ≡ log_after_any self.old.log (any_said any.now)) }
        ensures answer { OnOk result (out.new ≡ reply_bytes self.old.heeded.grammar (answer_to_any self.old.log (any_said any.now))) }
        ensures round { OnOk result (self.new.round ≡ self.old.round ++ kept_of self.old.log (any_said any.now) bytes.now) }
        ensures tip { self.new.tip ≡ self.old.tip }
        ensures heeded { self.new.heeded ≡ self.old.heeded }
        // The uncommitted round has all changes of the log.
        ensures waits { OnOk result ((before : Log) → Waits before self.old.round self.old.log → Waits before self.new.round self.new.log) }
        ensures refused { OnErr result (self.new ≡ self.old) }
        ensures empty { OnErr result (out.new ≡ []) }
        ensures memory { wants_for self.old.log (any_said any.now) ≡ false → IsOk result }
    {
        let changes = is_changed(&self.store, self.heeded.grammar, any);
        take_any(&mut self.store, alloc, self.heeded.grammar, any, out)?;
        if changes {
            self.round.extend_from_slice(bytes).unwrap();
        }
        Ok(())
    }

    /// Writes a new file with a snapshot of the log, of a journal that is made at this time, puts it in the place of the file, and syncs the folder. Returns
    /// false if it couldn't be written, or the log has no boot number yet: then the old file and the log are as before. After an error the log may only be
    /// dropped.
    #[tactic(auto, using(ft_io::proofs::Recordings::none_reported), unfolding(seq_arith::specs::MessageGrammar::number_bytes))]
    pub fn compact<K: Desk>(
        &mut self,
        alloc: Global,
        desk: &mut K,
        made: u64,
    ) -> Result<bool, Failed>
        requires idle { self.old.round ≡ [] }
        ensures log { self.new.log ≡ self.old.log }
        ensures heeded { self.new.heeded ≡ self.old.heeded }
        ensures round { self.new.round ≡ [] }
        ensures compacted { IfOk result (λ done. done ≡ true
            → IsCompacted (number_bytes 8 made) self.old.tip self.old.log self.new.tip (K.reported desk.old) (K.reported desk.new)) }
        ensures kept { IfOk result (λ done. done ≡ false → (self.new.tip ≡ self.old.tip) × Reports (K.reported desk.old) (K.reported desk.new) []) }
        ensures failed { OnErr result (IsCutCompaction (number_bytes 8 made) self.old.tip self.old.log (K.reported desk.old) (K.reported desk.new)) }
        ensures cause { OnErr result (Rose (K.fault_count desk.old) (K.fault_count desk.new)) }
        ensures never_falls { K.fault_count desk.old ≤ K.fault_count desk.new }
        ensures beside { K.beside desk.new ≡ K.beside desk.old }
    {
        if self.store.boot() == 0 {
            return Ok(false);
        }
        match replace_file(
            alloc,
            desk,
            &self.store,
            self.heeded.grammar,
            &made.to_be_bytes(),
        )? {
            Some(tip) => {
                self.tip = tip;
                Ok(true)
            }
            None => Ok(false),
        }
    }

    /// Appends the uncommitted round as a block of the journal. After `Ok` the round is empty, and every death leaves a file that has the log. After an error
    /// the log may only be dropped; its file can then be opened again.
    pub fn commit<D: Disk>(&mut self, alloc: Global, disk: &mut D) -> Result<(), KeepEnd>
        ensures kept { OnOk result (Reports (D.reported disk.old) (D.reported disk.new) (on_disk (committing self.old.tip self.old.round))) }
        ensures round { OnOk result (self.new.round ≡ []) }
        ensures log { self.new.log ≡ self.old.log }
        ensures heeded { self.new.heeded ≡ self.old.heeded }
        ensures tip { OnOk result (self.new.tip ≡ tip_after self.old.tip self.old.round) }
        // The blocks with the round have the log.
        ensures has_log { OnOk result ((made : List ℕ) (bodies : List (List ℕ)) (before : Log) → HasLog made bodies self.old.tip before
            → Waits before self.old.round self.old.log → HasLog made (with_round bodies self.old.round) self.new.tip self.new.log) }
        ensures stopped { OnErr result ((done : List DiskCall) × IsFrontOf (committing self.old.tip self.old.round) done
            × Reports (D.reported disk.old) (D.reported disk.new) (on_disk done)) }
        // An empty round is always committed.
        ensures some { OnErr result (self.old.round ≡ [] → ⊥) }
        ensures cause { IsErrOf result KeepEnd.Failed → Rose (D.fault_count disk.old) (D.fault_count disk.new) }
        ensures never_falls { D.fault_count disk.old ≤ D.fault_count disk.new }
        ensures beside { D.beside disk.new ≡ D.beside disk.old }
    {
        if self.round.is_empty() {
            return Ok(());
        }
        if self.tip.is_beyond() {
            return Err(KeepEnd::NoMemory);
        }
        self.tip.keep(alloc, disk, &self.round)?;
        self.round.clear();
        Ok(())
    }
}
