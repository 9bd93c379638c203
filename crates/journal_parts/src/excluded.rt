//! Wrong results that the contracts of this crate exclude. Each function calls another one of the crate, and promises of its result what a wrong body would
//! make false. It is proved from the other's contract alone, so it is no longer proved once that contract lets the wrong body pass.

ghost use Rattle.std.specs.Prelude.{List, ◌≡◌, ◌≤◌, ◌<◌, ◌*◌, [], ◌++◌, OnOk, ◌∷◌, true, None, OnErr, vec_capacity};
ghost use Rattle.disk.specs.CallRecord.{on_disk, on_link};
ghost use Rattle.disk.specs.declared.calls.DiskCall.{DiskCall};
ghost use Rattle.ft_io.specs.Reported.{Reports};
ghost use Rattle.ft_io.specs.declared.link_call.LinkCall.{LinkCall};
ghost use Rattle.kept_log.specs.JournaledLog.{committing};
ghost use Rattle.link_parts.specs.Counts.{HasRoom};
ghost use Rattle.link_parts.specs.Receipt.{Received};
ghost use Rattle.journal_parts.specs.Rounds.{changes_in, receives};

use crate::answers::Answer;
use crate::rounds::{Compaction, compact_if_due, take_round};
use crate::status::ProcessEnd;
use disk::Desk;
use kept_log::KeptLog;
use link_parts::Counts;
use std::alloc::Global;

/// Where the commit fails, nothing of the round is answered: the clause `stopped` of `take_round`.
fn a_full_disk_answers<K: Desk>(
    alloc: Global,
    desk: &mut K,
    kept: &mut KeptLog,
    counts: &mut Counts,
    answers: &mut Vec<Answer>,
    most: u64,
) -> Result<u64, ProcessEnd>
    requires most { (1 ≤ most) × (most ≤ 256) }
    requires idle { kept.old.round ≡ [] }
    requires counts { HasRoom 512 counts.old }
    requires room { 256 ≤ vec_capacity answers.old }
    ensures { OnErr result ((received : List Received) × (done : List DiskCall)
        × Reports (K.reported desk.old) (K.reported desk.new) (on_link (receives received) ++ on_disk done)) }
{
    take_round(alloc, desk, kept, counts, answers, most)
}

/// The first receive of a round waits for a datagram, and no other does: the clause `waited` of `take_round`.
fn never_waits<K: Desk>(
    alloc: Global,
    desk: &mut K,
    kept: &mut KeptLog,
    counts: &mut Counts,
    answers: &mut Vec<Answer>,
) -> Result<u64, ProcessEnd>
    requires idle { kept.old.round ≡ [] }
    requires counts { HasRoom 512 counts.old }
    requires room { 256 ≤ vec_capacity answers.old }
    ensures { OnOk result (Reports (K.beside desk.old).waits (K.beside desk.new).waits (true ∷ [])) }
{
    take_round(alloc, desk, kept, counts, answers, 1)
}

/// All that a round's receives have changed is committed before any answer is handed to send: the clause `turned` of `take_round`.
fn answers_before_the_commit<K: Desk>(
    alloc: Global,
    desk: &mut K,
    kept: &mut KeptLog,
    counts: &mut Counts,
    answers: &mut Vec<Answer>,
    most: u64,
) -> Result<u64, ProcessEnd>
    requires most { (1 ≤ most) × (most ≤ 256) }
    requires idle { kept.old.round ≡ [] }
    requires counts { HasRoom 512 counts.old }
    requires room { 256 ≤ vec_capacity answers.old }
    ensures { OnOk result ((received : List Received) × (answered : List LinkCall) × Reports (K.reported desk.old) (K.reported desk.new)
        (on_link (receives received) ++ (on_disk (committing kept.old.tip (changes_in kept.old.heeded kept.old.log received)) ++ on_link answered))) }
{
    take_round(alloc, desk, kept, counts, answers, most)
}

/// A file that isn't longer than the least one stays: the clause `done` of `compact_if_due`.
fn a_short_file_is_replaced<K: Desk>(
    alloc: Global,
    desk: &mut K,
    kept: &mut KeptLog,
    compaction: &mut Compaction,
) -> Result<(), ProcessEnd>
    requires idle { kept.old.round ≡ [] }
    requires short { kept.old.tip.end ≤ compaction.old.least }
    ensures { OnOk result (Reports (K.reported desk.old) (K.reported desk.new) []) }
{
    compact_if_due(alloc, desk, kept, compaction)
}

/// .. and so does one that has at most twice the length after the last time, which is its own length once it was to be replaced: the clause `done` of
/// `compact_if_due`.
fn a_file_is_replaced_again_and_again<K: Desk>(
    alloc: Global,
    desk: &mut K,
    kept: &mut KeptLog,
    compaction: &mut Compaction,
) -> Result<(), ProcessEnd>
    requires idle { kept.old.round ≡ [] }
    ensures short { OnOk result (kept.old.tip.end ≤ 2 * compaction.old.last → Reports (K.reported desk.old) (K.reported desk.new) []) }
    ensures measured { OnOk result (compaction.old.least < kept.old.tip.end → 2 * compaction.old.last < kept.old.tip.end
        → compaction.new.last ≡ kept.new.tip.end) }
{
    compact_if_due(alloc, desk, kept, compaction)
}
