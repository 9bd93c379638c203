//! A report that is being written to a sink: it is buffered, and written in pieces.

ghost use Rattle.std.specs.Prelude.{◌≡◌, ◌<◌, ℕ, List, [], Option, OnOk, OnErr, length};
ghost use Rattle.replay_check.specs.PartialWrite.{IsOnItsWay, WroteFront, CountsFailed};
ghost use Rattle.replay_run.specs.Playback.{piece};

use ft_io::{Failed, Sink, write_all};
use std::alloc::Global;

/// The size of a piece in bytes: once at least this many are buffered, they are written.
const PIECE: usize = 65_536;

/// The part of a report that isn't written yet, and the lines of one event, or of the end, until they are complete.
#[derive(Drop)]
pub(crate) struct Report {
    pub(crate) held: Vec<u8>,
    pub(crate) lines: Vec<u8>,
}

impl Report {
    ghost use Rattle.std.specs.Prelude.{◌≡◌, []};

    /// Returns a report without any text.
    pub(crate) fn new(alloc: Global) -> Report
        ensures { result.held.items ≡ [] }
    {
        Report {
            held: Vec::new(alloc),
            lines: Vec::new(alloc),
        }
    }
}

/// Writes all that is buffered.
pub(crate) fn flush<O: Sink>(report: &mut Report, out: &mut O) -> Result<(), Failed>
    ensures ok { OnOk result ((old : Option (List ℕ)) (text : List ℕ) → IsOnItsWay old (O.taken out.old) report.old.held.items text
        → IsOnItsWay old (O.taken out.new) report.new.held.items text) }
    ensures empty { OnOk result (report.new.held.items ≡ []) }
    ensures err { OnErr result ((old : Option (List ℕ)) (text : List ℕ) → IsOnItsWay old (O.taken out.old) report.old.held.items text
        → WroteFront old (O.taken out.new) text) }
    ensures faults { CountsFailed (O.fault_count out.old) (O.fault_count out.new) result }
{
    write_all(out, report.held.as_slice())?;
    report.held.clear();
    Ok(())
}

/// Writes the buffered bytes if they are at least a piece, so that fewer are buffered afterwards.
pub(crate) fn flush_piece<O: Sink>(report: &mut Report, out: &mut O) -> Result<(), Failed>
    ensures held_back { OnOk result (length report.new.held.items < piece) }
    ensures ok { OnOk result ((old : Option (List ℕ)) (text : List ℕ) → IsOnItsWay old (O.taken out.old) report.old.held.items text
        → IsOnItsWay old (O.taken out.new) report.new.held.items text) }
    ensures err { OnErr result ((old : Option (List ℕ)) (text : List ℕ) → IsOnItsWay old (O.taken out.old) report.old.held.items text
        → WroteFront old (O.taken out.new) text) }
    ensures faults { CountsFailed (O.fault_count out.old) (O.fault_count out.new) result }
{
    if report.held.len() < PIECE {
        return Ok(());
    }
    flush(report, out)
}
