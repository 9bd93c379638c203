//! Opening a journal: it is read, and then the bytes that a death has left after its blocks are cut off. And making one.

ghost use Rattle.std.specs.Prelude.{◌≡◌, ◌≤◌, List, ℕ, [], length, IfOk, IfErr, OnOk, OnErr, IsErrOf};
ghost use Rattle.ft_io.specs.Faults.{Rose};
ghost use Rattle.ft_io.specs.Reported.{Reports};
ghost use Rattle.disk.specs.declared.calls.DiskCall.{DiskCall};
ghost use Rattle.disk.specs.Remains.{IsFrontOf};
ghost use Rattle.disk.specs.CallRecord.{on_disk};
ghost use Rattle.ft_model.specs.Log.{empty_log};
ghost use Rattle.kept_log.specs.Format.{header, making, first_tip};
ghost use Rattle.kept_log.specs.Startup.{cutting, IsOpened, HasGrammar, HasOtherGrammar, HasStopped, HasNotBegun};
ghost use Rattle.kept_log.specs.declared.opening.OpenEnd.TheVariants as ends;

use crate::header::{MAGIC, TIME, first_of};
use crate::journal::KeepEnd;
use crate::reading::{Found, read_file};
use crate::tip::Tip;
use disk::Disk;
use ft_io::Failed;
use logger_store::LogStore;
use logger_wire::Grammar;
use std::alloc::{AllocError, Global};

/// Why a journal wasn't opened. No call has changed the file, unless one of those failed that cut off what a death has left.
#[derive(Clone, Copy)]
pub enum OpenEnd {
    /// An allocation failed, or the blocks of the file reach beyond 2^62 bytes.
    NoMemory,
    /// A call on the disk failed; the disk may be full.
    Failed,
    /// The file is empty.
    Empty,
    /// The file ends within its header: its making wasn't finished, or it was cut.
    Unfinished,
    /// The file is a journal of the first version.
    Older,
    /// The file is a journal whose first message is of another grammar.
    OtherGrammar,
    /// The file is damaged, or is no journal: the place, in bytes, where neither a block follows nor what a death leaves.
    Wrong(u64),
}

impl From<Failed> for OpenEnd {
    ghost from_gives = { λ _ e. e ≡ ends.Failed };

    fn from(_: Failed) -> OpenEnd {
        OpenEnd::Failed
    }
}

impl From<KeepEnd> for OpenEnd {
    ghost use Rattle.kept_log.specs.Startup.{opening_end};

    ghost from_gives = { λ k e. e ≡ opening_end k };

    fn from(end: KeepEnd) -> OpenEnd {
        match end {
            KeepEnd::NoMemory => OpenEnd::NoMemory,
            KeepEnd::Failed => OpenEnd::Failed,
        }
    }
}

/// The header of a journal that is made at this time.
pub(crate) fn header_of(alloc: Global, made: &[u8; TIME], tip: &Tip) -> Result<Vec<u8>, AllocError>
    requires { tip.now ≡ first_tip made.now }
    ensures { IfOk result (λ bytes. bytes.items ≡ header made.now) }
{
    let mut bytes = Vec::new(alloc);
    bytes.extend_from_slice(MAGIC)?;
    bytes.extend_from_slice(made)?;
    bytes.extend_from_slice(&tip.salt)?;
    Ok(bytes)
}

/// Makes a journal in an empty file, and returns where its first block begins.
pub fn make<D: Disk>(alloc: Global, disk: &mut D, made: &[u8; TIME]) -> Result<Tip, KeepEnd>
    ensures tip { IfOk result (λ tip. tip ≡ first_tip made.now) }
    ensures made { OnOk result (Reports (D.reported disk.old) (D.reported disk.new) (on_disk (making made.now))) }
    ensures stopped { IfErr result (HasNotBegun made.now (D.reported disk.old) (D.reported disk.new)) }
    ensures cause { IsErrOf result KeepEnd.Failed → Rose (D.fault_count disk.old) (D.fault_count disk.new) }
    ensures never_falls { D.fault_count disk.old ≤ D.fault_count disk.new }
    ensures beside { D.beside disk.new ≡ D.beside disk.old }
{
    let tip = first_of(made);
    let header = header_of(alloc, made, &tip)?;
    disk.append(&header)?;
    disk.sync()?;
    Ok(tip)
}

/// Cuts off this many bytes after the blocks.
fn cut_tail<D: Disk>(disk: &mut D, end: u64, tail: usize) -> Result<(), Failed>
    ensures cut { OnOk result ((torn : List ℕ) → length torn ≡ tail → Reports (D.reported disk.old) (D.reported disk.new) (on_disk (cutting end torn))) }
    ensures stopped { OnErr result ((torn : List ℕ) → length torn ≡ tail
        → (done : List DiskCall) × IsFrontOf (cutting end torn) done × Reports (D.reported disk.old) (D.reported disk.new) (on_disk done)) }
    ensures cause { OnErr result (Rose (D.fault_count disk.old) (D.fault_count disk.new)) }
    ensures never_falls { D.fault_count disk.old ≤ D.fault_count disk.new }
    ensures beside { D.beside disk.new ≡ D.beside disk.old }
{
    if tail == 0 {
        return Ok(());
    }
    disk.cut(end)?;
    disk.sync()
}

/// Reads a file that was opened just now into the empty log, and cuts off what follows its blocks. Returns where the next block begins, and how many bytes
/// were cut off.
pub fn open_file<D: Disk>(
    alloc: Global,
    grammar: Grammar,
    disk: &mut D,
    store: &mut LogStore,
) -> Result<(Tip, usize), OpenEnd>
    requires { store.old ≡ empty_log }
    ensures opened { IfOk result (λ found. IsOpened (D.left disk.old) (D.reported disk.old) (D.reported disk.new) found.0 found.1 store.new) }
    ensures grammar { OnOk result (HasGrammar grammar (D.left disk.old)) }
    ensures stopped { IfErr result (HasStopped (D.left disk.old) (D.reported disk.old) (D.reported disk.new)) }
    ensures other { IsErrOf result OpenEnd.OtherGrammar → HasOtherGrammar grammar (D.left disk.old) }
    ensures cause { IsErrOf result OpenEnd.Failed → Rose (D.fault_count disk.old) (D.fault_count disk.new) }
    ensures never_falls { D.fault_count disk.old ≤ D.fault_count disk.new }
    ensures beside { D.beside disk.new ≡ D.beside disk.old }
{
    match read_file(alloc, grammar, disk, store)? {
        Found::Whole(tip, tail) => {
            cut_tail(disk, tip.end, tail)?;
            Ok((tip, tail))
        }
        Found::Empty => Err(OpenEnd::Empty),
        Found::Unfinished => Err(OpenEnd::Unfinished),
        Found::Older => Err(OpenEnd::Older),
        Found::OtherGrammar => Err(OpenEnd::OtherGrammar),
        Found::Wrong(at) => Err(OpenEnd::Wrong(at)),
    }
}
