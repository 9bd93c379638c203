//! Rounds: receives, the commit of what they changed, and then their answers.

ghost use Rattle.std.specs.Prelude.{◌≡◌, ◌≤◌, ◌<◌, ◌+◌, [], ◌∷◌, take, length, true, false, vec_len, vec_capacity, IfOk, IfErr, OnOk, OnErr, IsErrOf};
ghost use Rattle.std.specs.Prelude.{MatchOption};
ghost use Rattle.std.specs.Bool.{OnTrue, OnFalse};
ghost use Rattle.ft_io.specs.Faults.{Rose};
ghost use Rattle.ft_io.specs.Reported.{Reports};
ghost use Rattle.disk.specs.CallRecord.{on_link};
ghost use Rattle.link_parts.specs.Counts.{HasRoom, with_calls};
ghost use Rattle.link_parts.specs.Receipt.{Received, datagram, received_as, IsQuiet};
ghost use Rattle.forget_store.specs.AnyMessage.{heeded_in};
ghost use Rattle.forget_store.specs.Replies.{reply_bytes};
ghost use Rattle.kept_log.specs.JournaledLog.{is_full};
ghost use Rattle.link_parts.specs.LoggerTurns.{answer_for, wants_in};
ghost use Rattle.journal_parts.specs.RoundParts.{place_of, with_bytes, HasTaken, HasGathered, IsCutGathering, HasTurned, IsCutRound, HasCompacted};
ghost use Rattle.journal_parts.specs.RoundParts.{FailsToCompact, HasServed, HasEndedBy, IsServeEnd};
ghost use Rattle.journal_parts.specs.Due.{IsDue};
ghost use Rattle.journal_parts.specs.Waits.{waits_in, wants_then};
ghost use Rattle.journal_parts.specs.declared.status.ProcessEnd.TheVariants as ends;
ghost use Rattle.link_parts.specs.Ranges.{most_turns};

use crate::answers::{Answer, reply_to_all};
use crate::status::ProcessEnd;
use disk::Desk;
use forget_store::{AnswerOut, read_heeded};
use ft_io::{Addr, Failed, NoMemory, Receipt};
use kept_log::KeptLog;
use link_parts::Counts;
use std::alloc::Global;

/// The length of the buffer for a datagram, in bytes: no message is longer.
const DATAGRAM_ROOM: usize = 2_048;

/// The most turns of a round.
const MOST: u64 = 256;

/// Receives once. Returns the length of the datagram, which is at the beginning of the buffer, and its sender. `None`: no datagram. It waits only if `waits`.
fn receive<K: Desk>(
    desk: &mut K,
    waits: bool,
    buffer: &mut [u8],
    counts: &mut Counts,
) -> Option<(usize, Addr)>
    requires room { 2048 ≤ length buffer.old }
    requires counts { HasRoom 1 counts.old }
    ensures received { (r : Received) × Reports (K.reported desk.old) (K.reported desk.new) (on_link (received_as r ∷ []))
        × (counts.new ≡ with_calls counts.old (received_as r ∷ []))
        × MatchOption result (IsQuiet r) (λ g. (g.0 ≤ length buffer.new) × (r ≡ datagram g.1 (take g.0 buffer.new))) }
    ensures waited { Reports (K.beside desk.old).waits (K.beside desk.new).waits (waits ∷ []) }
    ensures no_disk_fault { K.fault_count desk.new ≡ K.fault_count desk.old }
    ensures no_bind_fault { (K.beside desk.new).bind_faults ≡ (K.beside desk.old).bind_faults }
{
    let receipt = if waits {
        desk.recv(buffer)
    } else {
        desk.recv_waiting(buffer)
    };
    counts.note_received(&receipt);
    match receipt {
        Ok(Receipt::Got { len, from }) => Some((len, from)),
        _ => None,
    }
}

/// Applies to the log the message that the bytes spell, and returns the answer. Returns no bytes if there is no answer or the bytes are no message that is
/// heeded.
fn answer(alloc: Global, kept: &mut KeptLog, bytes: &[u8]) -> Result<AnswerOut, NoMemory>
    requires { is_full kept.old ≡ false }
    ensures next { OnOk result (kept.new ≡ with_bytes kept.old bytes.now) }
    ensures answer { IfOk result (λ out. out ≡ reply_bytes kept.old.heeded.grammar (answer_for kept.old.log (heeded_in kept.old.heeded bytes.now))) }
    ensures memory { OnErr result (wants_in kept.old.log (heeded_in kept.old.heeded bytes.now) ≡ true) }
{
    let mut out = AnswerOut::new();
    if let Some(any) = read_heeded(kept.heeded(), bytes) {
        kept.take(alloc, bytes, &any, &mut out)?;
    }
    Ok(out)
}

/// Receives once, and applies what arrived to the log. The answer waits for the commit. Returns whether a datagram arrived.
fn take_next<K: Desk>(
    alloc: Global,
    desk: &mut K,
    waits: bool,
    kept: &mut KeptLog,
    counts: &mut Counts,
    answers: &mut Vec<Answer>,
) -> Result<bool, NoMemory>
    requires counts { HasRoom 1 counts.old }
    requires room { is_full kept.old ≡ false }
    requires space { vec_len answers.old < vec_capacity answers.old }
    ensures taken { IfOk result (λ more. HasTaken more kept.old kept.new (K.reported desk.old)
        (K.reported desk.new) counts.old counts.new answers.old.items answers.new.items) }
    ensures cut_off { OnErr result ((r : Received) × (wants_then kept.old.heeded kept.old.log r ≡ true)
        × Reports (K.reported desk.old) (K.reported desk.new) (on_link (received_as r ∷ []))) }
    ensures waited { Reports (K.beside desk.old).waits (K.beside desk.new).waits (waits ∷ []) }
    ensures few { vec_len answers.new ≤ vec_len answers.old + 1 }
    ensures capacity { vec_capacity answers.new ≡ vec_capacity answers.old }
    ensures no_disk_fault { K.fault_count desk.new ≡ K.fault_count desk.old }
    ensures no_bind_fault { (K.beside desk.new).bind_faults ≡ (K.beside desk.old).bind_faults }
{
    let mut buffer = [0; DATAGRAM_ROOM];
    let Some((len, to)) = receive(desk, waits, &mut buffer, counts) else {
        return Ok(false);
    };
    let out = answer(alloc, kept, &buffer[..len])?;
    answers.push_reserved(Answer { to, out });
    Ok(true)
}

/// Makes the receives of a round: one that waits, then others until no datagram is there, a receive fails, there were `most`, or the block is full. Returns
/// how many there were.
fn gather<K: Desk>(
    alloc: Global,
    desk: &mut K,
    kept: &mut KeptLog,
    counts: &mut Counts,
    answers: &mut Vec<Answer>,
    most: u64,
) -> Result<u64, NoMemory>
    requires some { 1 ≤ most }
    requires within { most ≤ 256 }
    requires idle { kept.old.round ≡ [] }
    requires counts { HasRoom 256 counts.old }
    requires room { 256 ≤ vec_capacity answers.old }
    ensures count { IfOk result (λ count. (1 ≤ count) × (count ≤ most)) }
    ensures gathered { IfOk result (λ count. HasGathered count kept.old kept.new (K.reported desk.old)
        (K.reported desk.new) counts.old counts.new answers.new.items) }
    ensures cut_off { OnErr result (IsCutGathering most kept.old.heeded kept.old.log (K.reported desk.old) (K.reported desk.new)) }
    ensures waited { IfOk result (λ count. Reports (K.beside desk.old).waits (K.beside desk.new).waits (waits_in count)) }
    ensures capacity { vec_capacity answers.new ≡ vec_capacity answers.old }
    ensures no_disk_fault { K.fault_count desk.new ≡ K.fault_count desk.old }
    ensures no_bind_fault { (K.beside desk.new).bind_faults ≡ (K.beside desk.old).bind_faults }
{
    answers.clear();
    for count in 0..most {
        if kept.is_full() {
            return Ok(count);
        }
        if !take_next(alloc, desk, count == 0, kept, counts, answers)? {
            return Ok(count + 1);
        }
    }
    Ok(most)
}

/// Takes a round of at most `most` turns: receives, commits, and then answers. Returns how many turns it had.
pub(crate) fn take_round<K: Desk>(
    alloc: Global,
    desk: &mut K,
    kept: &mut KeptLog,
    counts: &mut Counts,
    answers: &mut Vec<Answer>,
    most: u64,
) -> Result<u64, ProcessEnd>
    requires some { 1 ≤ most }
    requires within { most ≤ 256 }
    requires idle { kept.old.round ≡ [] }
    requires counts { HasRoom 512 counts.old }
    requires room { 256 ≤ vec_capacity answers.old }
    ensures count { IfOk result (λ count. (1 ≤ count) × (count ≤ most)) }
    ensures turned { IfOk result (λ count. HasTurned count kept.old kept.new (K.reported desk.old) (K.reported desk.new) counts.old counts.new) }
    ensures stopped { OnErr result (IsCutRound most (place_of kept.old) (K.reported desk.old) (K.reported desk.new)) }
    ensures waited { IfOk result (λ count. Reports (K.beside desk.old).waits (K.beside desk.new).waits (waits_in count)) }
    ensures capacity { vec_capacity answers.new ≡ vec_capacity answers.old }
    ensures ends { IfErr result IsServeEnd }
    ensures cause { IsErrOf result ProcessEnd.JournalFault → Rose (K.fault_count desk.old) (K.fault_count desk.new) }
    ensures never_falls { K.fault_count desk.old ≤ K.fault_count desk.new }
    ensures no_bind_fault { (K.beside desk.new).bind_faults ≡ (K.beside desk.old).bind_faults }
{
    let count = gather(alloc, desk, kept, counts, answers, most)?;
    kept.commit(alloc, desk)?;
    reply_to_all(desk, answers, counts);
    Ok(count)
}

/// Room for the answers of a round: so a receive needs memory only for what the log keeps of it.
fn room_for_answers(alloc: Global) -> Result<Vec<Answer>, NoMemory>
    ensures { IfOk result (λ answers. 256 ≤ vec_capacity answers) }
{
    let answers = Vec::with_capacity(alloc, MOST as usize)?;
    Ok(answers)
}

/// When the file of a logger is replaced by a new one with a snapshot of its log.
#[derive(Clone, Copy)]
pub(crate) struct Compaction {
    /// No file of at most this many bytes is.
    pub least: u64,
    /// The length of the file after the last time, and 0 before the first.
    pub last: u64,
}

impl Compaction {
    /// Whether a file of this length is replaced: it is longer than `least`, and than twice its length after the last time.
    pub(crate) fn is_due(&self, len: u64) -> bool
        ensures due { OnTrue result (IsDue self.now.least self.now.last len) }
        ensures not_due { OnFalse result (IsDue self.now.least self.now.last len → ⊥) }
    {
        len > self.least && len.saturating_sub(self.last) > self.last
    }
}

#[tactic(auto, using(crate::proofs::Rounding::not_compacted, crate::proofs::Rounding::is_compacted))]
/// Replaces the file if it has grown so much. If the new file can't be written, the old one stays, until it has grown twice as long.
pub(crate) fn compact_if_due<K: Desk>(
    alloc: Global,
    desk: &mut K,
    kept: &mut KeptLog,
    compaction: &mut Compaction,
) -> Result<(), ProcessEnd>
    requires idle { kept.old.round ≡ [] }
    ensures done { OnOk result (HasCompacted compaction.old.least compaction.old.last compaction.new.last kept.old kept.new (K.reported desk.old)
        (K.reported desk.new)) }
    ensures least { compaction.new.least ≡ compaction.old.least }
    ensures stopped { OnErr result (FailsToCompact compaction.old.least compaction.old.last kept.old (K.reported desk.old) (K.reported desk.new)) }
    ensures fault { IfErr result (λ end. end ≡ ends.JournalFault) }
    ensures cause { OnErr result (Rose (K.fault_count desk.old) (K.fault_count desk.new)) }
    ensures never_falls { K.fault_count desk.old ≤ K.fault_count desk.new }
    ensures beside { K.beside desk.new ≡ K.beside desk.old }
{
    if !compaction.is_due(kept.tip().end) {
        return Ok(());
    }
    let made = desk.time();
    match kept.compact(alloc, desk, made) {
        Ok(_) => {
            compaction.last = kept.tip().end;
            Ok(())
        }
        Err(Failed) => Err(ProcessEnd::JournalFault),
    }
}

#[tactic(auto, using(crate::proofs::Cited::serve_lemmas))]
/// Takes this many turns, in rounds, and returns the counts of their calls. Before each round the file is replaced if it is longer than `compact`, and than
/// twice its length after the last time.
pub(crate) fn serve<K: Desk>(
    alloc: Global,
    desk: &mut K,
    kept: &mut KeptLog,
    turns: u64,
    compact: u64,
) -> Result<Counts, ProcessEnd>
    requires within { turns ≤ most_turns }
    requires idle { kept.old.round ≡ [] }
    ensures served { IfOk result (λ counts. HasServed compact turns (place_of kept.old) (place_of kept.new) (K.reported desk.old)
        (K.reported desk.new) counts) }
    ensures stopped { IfErr result (HasEndedBy compact turns (place_of kept.old) (K.reported desk.old) (K.reported desk.new)) }
    ensures ends { IfErr result IsServeEnd }
    ensures cause { IsErrOf result ProcessEnd.JournalFault → Rose (K.fault_count desk.old) (K.fault_count desk.new) }
    ensures never_falls { K.fault_count desk.old ≤ K.fault_count desk.new }
    ensures no_bind_fault { (K.beside desk.new).bind_faults ≡ (K.beside desk.old).bind_faults }
{
    let mut counts = Counts::new();
    let mut answers = room_for_answers(alloc)?;
    let mut compaction = Compaction {
        least: compact,
        last: 0,
    };
    let mut left = turns;
    while left > 0 {
        compact_if_due(alloc, desk, kept, &mut compaction)?;
        left -= take_round(alloc, desk, kept, &mut counts, &mut answers, left.min(MOST))?;
    }
    Ok(counts)
}
