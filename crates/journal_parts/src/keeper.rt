//! A logger that keeps its log in a journal.

ghost use Rattle.std.specs.Prelude.{◌≡◌, ◌≤◌, ◌⊎◌, ℕ, List, Option, [], true, false, Err, IfOk, IfErr, OnOk, IsErrOf};
ghost use Rattle.std.specs.Io.KnownBytes.{Appends};
ghost use Rattle.ft_io.specs.Faults.{Rose};
ghost use Rattle.journal_parts.specs.Ends.{UnlessFault};
ghost use Rattle.link_parts.specs.LoggerParts.{heeded_by};
ghost use Rattle.journal_parts.specs.LoggerLife.{IsKeeper, KeeperStops, IsOpen, OpeningStops};
ghost use Rattle.journal_parts.specs.RoundParts.{place_of, HasLived, ServingStops, HasServedNoted, ServingNotedStops};
ghost use Rattle.link_parts.specs.Ranges.{most_turns};

use crate::role::JournalRole;
use crate::rounds::serve;
use crate::status::{Lack, ProcessEnd, note_cut};
use disk::Desk;
use forget_store::Heeded;
use ft_io::{Failed, Sink};
use kept_log::KeptLog;
use link_parts::{NodeEnd, write_counts};
use std::alloc::Global;

/// Opens the journal of a role, or makes it. Returns how many bytes were cut off, too.
fn open_log<K: Desk>(
    alloc: Global,
    desk: &mut K,
    role: &JournalRole,
) -> Result<(KeptLog, usize), ProcessEnd>
    ensures opened { IfOk result (λ r. IsOpen (heeded_by role.now.logger) role.now.begins (K.file_of desk.old role.now.journal) r.1 (place_of r.0)
        (K.reported desk.old) (K.reported desk.new)) }
    ensures idle { IfOk result (λ r. r.0.round ≡ []) }
    ensures stops { IfErr result (OpeningStops (heeded_by role.now.logger) role.now.begins (K.file_of desk.old role.now.journal) (K.reported desk.old)
        (K.reported desk.new)) }
    ensures cause { IsErrOf result ProcessEnd.JournalFault → Rose (K.fault_count desk.old) (K.fault_count desk.new) }
    ensures in_use { IsErrOf result ProcessEnd.InUse → Rose (K.beside desk.old).refusals (K.beside desk.new).refusals }
    ensures missing { result ≡ Err (ProcessEnd.NoJournal Lack.Missing) → Rose (K.beside desk.old).refusals (K.beside desk.new).refusals }
    ensures present { result ≡ Err (ProcessEnd.NoJournal Lack.Present) → Rose (K.beside desk.old).refusals (K.beside desk.new).refusals }
    ensures never_falls { K.fault_count desk.old ≤ K.fault_count desk.new }
    ensures no_bind_fault { (K.beside desk.new).bind_faults ≡ (K.beside desk.old).bind_faults }
{
    let heeded = role.logger.heeded();
    if role.begins {
        make_log(alloc, heeded, desk, role.journal.as_str())
    } else {
        find_log(alloc, heeded, desk, role.journal.as_str())
    }
}

/// Opens the journal of this name.
fn find_log<K: Desk>(
    alloc: Global,
    heeded: Heeded,
    desk: &mut K,
    name: &str,
) -> Result<(KeptLog, usize), ProcessEnd>
    ensures opened { IfOk result (λ r. IsOpen heeded false (K.file_of desk.old name.now) r.1 (place_of r.0) (K.reported desk.old) (K.reported desk.new)) }
    ensures idle { IfOk result (λ r. r.0.round ≡ []) }
    ensures stops { IfErr result (OpeningStops heeded false (K.file_of desk.old name.now) (K.reported desk.old) (K.reported desk.new)) }
    ensures cause { IsErrOf result ProcessEnd.JournalFault → Rose (K.fault_count desk.old) (K.fault_count desk.new) }
    ensures in_use { IsErrOf result ProcessEnd.InUse → Rose (K.beside desk.old).refusals (K.beside desk.new).refusals }
    ensures missing { result ≡ Err (ProcessEnd.NoJournal Lack.Missing) → Rose (K.beside desk.old).refusals (K.beside desk.new).refusals }
    ensures never_present { result ≡ Err (ProcessEnd.NoJournal Lack.Present) → ⊥ }
    ensures never_falls { K.fault_count desk.old ≤ K.fault_count desk.new }
    ensures no_bind_fault { (K.beside desk.new).bind_faults ≡ (K.beside desk.old).bind_faults }
{
    desk.open(name)?;
    Ok(KeptLog::open(alloc, heeded, desk)?)
}

/// Makes a journal of this name, at the time of the desk's clock.
fn make_log<K: Desk>(
    alloc: Global,
    heeded: Heeded,
    desk: &mut K,
    name: &str,
) -> Result<(KeptLog, usize), ProcessEnd>
    ensures opened { IfOk result (λ r. (file : Option (List ℕ)) → IsOpen heeded true file r.1 (place_of r.0) (K.reported desk.old) (K.reported desk.new)) }
    ensures idle { IfOk result (λ r. r.0.round ≡ []) }
    ensures stops { IfErr result (λ end. (file : Option (List ℕ)) → OpeningStops heeded true file (K.reported desk.old) (K.reported desk.new) end) }
    ensures cause { IsErrOf result ProcessEnd.JournalFault → Rose (K.fault_count desk.old) (K.fault_count desk.new) }
    ensures in_use { IsErrOf result ProcessEnd.InUse → Rose (K.beside desk.old).refusals (K.beside desk.new).refusals }
    ensures present { result ≡ Err (ProcessEnd.NoJournal Lack.Present) → Rose (K.beside desk.old).refusals (K.beside desk.new).refusals }
    ensures never_missing { result ≡ Err (ProcessEnd.NoJournal Lack.Missing) → ⊥ }
    ensures never_falls { K.fault_count desk.old ≤ K.fault_count desk.new }
    ensures no_bind_fault { (K.beside desk.new).bind_faults ≡ (K.beside desk.old).bind_faults }
{
    desk.begin(name)?;
    let made = desk.time();
    let kept = KeptLog::begin(alloc, heeded, desk, made)?;
    Ok((kept, 0))
}

#[tactic(auto, using(crate::proofs::Living::ended_stops))]
/// Runs a logger after its bind: takes its rounds, and writes the line of the counts.
fn serve_and_report<K: Desk, O: Sink>(
    alloc: Global,
    turns: u64,
    compact: u64,
    desk: &mut K,
    kept: &mut KeptLog,
    out: &mut O,
) -> Result<(), ProcessEnd>
    requires within { turns ≤ most_turns }
    requires idle { kept.old.round ≡ [] }
    ensures done { OnOk result (HasLived compact turns (place_of kept.old) (K.reported desk.old) (K.reported desk.new)
        (Appends (O.taken out.old) (O.taken out.new))) }
    ensures stops { IfErr result (ServingStops compact turns (place_of kept.old) (K.reported desk.old) (K.reported desk.new) (O.taken out.old)
        (O.taken out.new)) }
    ensures cause { IsErrOf result ProcessEnd.JournalFault → Rose (K.fault_count desk.old) (K.fault_count desk.new) }
    ensures write_cause { result ≡ Err (ProcessEnd.Node NodeEnd.WriteFault) → Rose (O.fault_count out.old) (O.fault_count out.new) }
    ensures no_write_fault { UnlessFault result (O.fault_count out.new ≡ O.fault_count out.old) }
    ensures no_bind_fault { (K.beside desk.new).bind_faults ≡ (K.beside desk.old).bind_faults }
{
    let counts = serve(alloc, desk, kept, turns, compact)?;
    Ok(write_counts(alloc, &counts, out)?)
}

#[tactic(auto, using(crate::proofs::Living::served_noted, crate::proofs::Living::serving_stops))]
/// Writes how many bytes the opening has cut off. Binds, takes the turns, and writes the counts of their calls.
fn bind_and_serve<K: Desk, O: Sink, E: Sink>(
    alloc: Global,
    role: &JournalRole,
    desk: &mut K,
    kept: &mut KeptLog,
    torn: usize,
    out: &mut O,
    err: &mut E,
) -> Result<(), ProcessEnd>
    requires within { role.now.logger.turns ≤ most_turns }
    requires idle { kept.old.round ≡ [] }
    ensures done { OnOk result (HasServedNoted role.now (place_of kept.old) torn (K.reported desk.old) (K.reported desk.new)
        (Appends (O.taken out.old) (O.taken out.new)) (Appends (E.taken err.old) (E.taken err.new))) }
    ensures stops { IfErr result (ServingNotedStops role.now (place_of kept.old) torn (K.reported desk.old) (K.reported desk.new) (O.taken out.old)
        (O.taken out.new) (E.taken err.old) (E.taken err.new)) }
    ensures cause { IsErrOf result ProcessEnd.JournalFault → Rose (K.fault_count desk.old) (K.fault_count desk.new) }
    ensures bind_cause { result ≡ Err (ProcessEnd.Node NodeEnd.LinkFault) → Rose (K.beside desk.old).bind_faults (K.beside desk.new).bind_faults }
    ensures write_cause { result ≡ Err (ProcessEnd.Node NodeEnd.WriteFault) → Rose (O.fault_count out.old) (O.fault_count out.new)
        ⊎ Rose (E.fault_count err.old) (E.fault_count err.new) }
    ensures no_write_fault { UnlessFault result (O.fault_count out.new ≡ O.fault_count out.old) }
    ensures no_error { UnlessFault result (E.fault_count err.new ≡ E.fault_count err.old) }
    ensures errors_never_fall { E.fault_count err.old ≤ E.fault_count err.new }
    ensures no_bind_fault { UnlessFault result ((K.beside desk.new).bind_faults ≡ (K.beside desk.old).bind_faults) }
{
    if note_cut(err, torn).is_err() {
        return Err(ProcessEnd::Node(NodeEnd::WriteFault));
    }
    match desk.bind(role.logger.local) {
        Err(Failed) => Err(ProcessEnd::Node(NodeEnd::LinkFault)),
        Ok(()) => serve_and_report(alloc, role.logger.turns, role.compact, desk, kept, out),
    }
}

#[tactic(auto, using(crate::proofs::Living::kept, crate::proofs::Living::life_stops, crate::proofs::Living::stops_first))]
/// Runs a logger with a journal: opens its file or makes it, binds, takes its turns, and writes the counts of their calls.
pub fn run_keeper<K: Desk, O: Sink, E: Sink>(
    alloc: Global,
    role: &JournalRole,
    desk: &mut K,
    out: &mut O,
    err: &mut E,
) -> Result<(), ProcessEnd>
    requires { role.now.logger.turns ≤ most_turns }
    ensures done { OnOk result (IsKeeper role.now (K.file_of desk.old role.now.journal) (K.reported desk.old) (K.reported desk.new)
        (Appends (O.taken out.old) (O.taken out.new)) (Appends (E.taken err.old) (E.taken err.new))) }
    ensures stops { IfErr result (KeeperStops role.now (K.file_of desk.old role.now.journal) (K.reported desk.old) (K.reported desk.new)
        (O.taken out.old) (O.taken out.new) (E.taken err.old) (E.taken err.new)) }
    ensures cause { IsErrOf result ProcessEnd.JournalFault → Rose (K.fault_count desk.old) (K.fault_count desk.new) }
    ensures in_use { IsErrOf result ProcessEnd.InUse → Rose (K.beside desk.old).refusals (K.beside desk.new).refusals }
    ensures missing { result ≡ Err (ProcessEnd.NoJournal Lack.Missing) → Rose (K.beside desk.old).refusals (K.beside desk.new).refusals }
    ensures present { result ≡ Err (ProcessEnd.NoJournal Lack.Present) → Rose (K.beside desk.old).refusals (K.beside desk.new).refusals }
    ensures bind_cause { result ≡ Err (ProcessEnd.Node NodeEnd.LinkFault) → Rose (K.beside desk.old).bind_faults (K.beside desk.new).bind_faults }
    ensures write_cause { result ≡ Err (ProcessEnd.Node NodeEnd.WriteFault) → Rose (O.fault_count out.old) (O.fault_count out.new)
        ⊎ Rose (E.fault_count err.old) (E.fault_count err.new) }
    ensures no_write_fault { UnlessFault result (O.fault_count out.new ≡ O.fault_count out.old) }
    ensures no_error { UnlessFault result (E.fault_count err.new ≡ E.fault_count err.old) }
    ensures errors_never_fall { E.fault_count err.old ≤ E.fault_count err.new }
    ensures no_bind_fault { UnlessFault result ((K.beside desk.new).bind_faults ≡ (K.beside desk.old).bind_faults) }
{
    let (kept, torn) = open_log(alloc, desk, role)?;
    let mut kept = kept;
    bind_and_serve(alloc, role, desk, &mut kept, torn, out, err)
}
