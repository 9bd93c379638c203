//! How a logger with a journal ends.

ghost use Rattle.std.specs.Prelude.{◌≡◌, ◌≤◌, ◌++◌, false, codes, decimal, OnOk, OnErr};
ghost use Rattle.std.specs.Io.KnownBytes.{Appends};
ghost use Rattle.ft_io.specs.Faults.{Rose};
ghost use Rattle.ft_io.specs.Sink.{AppendsFront};
ghost use Rattle.link_parts.specs.Ends.{is_fault_status};
ghost use Rattle.link_parts.specs.declared.status.NodeEnd.TheVariants as node_ends;
ghost use Rattle.journal_parts.specs.declared.status.ProcessEnd.TheVariants as ends;
ghost use Rattle.journal_parts.specs.Ends.{place_text, lack_text, cut_line, cut_text, from_shelf, from_open, from_keep, ReportsEnd, is_fault};

use disk::ShelfEnd;
use ft_io::{Failed, NoMemory, Sink, write_all};
use itoa::Buffer;
use kept_log::{KeepEnd, OpenEnd};
use link_parts::{NodeEnd, Status};

/// Why there is no journal that a logger could go on with, or none that it could begin.
#[derive(Clone, Copy)]
pub enum Lack {
    /// There is no such file.
    Missing,
    /// There is one, and it was to be made.
    Present,
    /// The file is empty.
    Empty,
    /// It ends within its header.
    Unfinished,
    /// It is of the first version.
    Older,
    /// Its messages are of the other profile's grammar.
    OtherProfile,
}

/// How a logger with a journal ends before its turns are done.
#[derive(Clone, Copy)]
pub enum ProcessEnd {
    /// An end that any role may have.
    Node(NodeEnd),
    /// A call on the journal's file failed.
    JournalFault,
    /// The file is no journal, or is damaged: `at`, in bytes, is where something begins that is neither a block nor what a death leaves.
    BadJournal { at: u64 },
    /// The file isn't there, is empty, ends too early, is of the first version or of another profile, and wasn't to be made; or it is there, and was.
    NoJournal(Lack),
    /// Another process has the file open.
    InUse,
}

impl From<NoMemory> for ProcessEnd {
    ghost from_gives = { λ _ e. e ≡ ends.Node node_ends.NoMemory };

    fn from(_error: NoMemory) -> ProcessEnd {
        ProcessEnd::Node(NodeEnd::NoMemory)
    }
}

impl From<NodeEnd> for ProcessEnd {
    ghost from_gives = { λ end e. e ≡ ends.Node end };

    fn from(end: NodeEnd) -> ProcessEnd {
        ProcessEnd::Node(end)
    }
}

impl From<ShelfEnd> for ProcessEnd {
    ghost from_gives = { λ end e. e ≡ from_shelf end };

    fn from(end: ShelfEnd) -> ProcessEnd {
        match end {
            ShelfEnd::Failed => ProcessEnd::JournalFault,
            ShelfEnd::InUse => ProcessEnd::InUse,
            ShelfEnd::Missing => ProcessEnd::NoJournal(Lack::Missing),
            ShelfEnd::Present => ProcessEnd::NoJournal(Lack::Present),
        }
    }
}

impl From<OpenEnd> for ProcessEnd {
    ghost from_gives = { λ end e. e ≡ from_open end };

    fn from(end: OpenEnd) -> ProcessEnd {
        match end {
            OpenEnd::NoMemory => ProcessEnd::Node(NodeEnd::NoMemory),
            OpenEnd::Failed => ProcessEnd::JournalFault,
            OpenEnd::Empty => ProcessEnd::NoJournal(Lack::Empty),
            OpenEnd::Unfinished => ProcessEnd::NoJournal(Lack::Unfinished),
            OpenEnd::Older => ProcessEnd::NoJournal(Lack::Older),
            OpenEnd::OtherGrammar => ProcessEnd::NoJournal(Lack::OtherProfile),
            OpenEnd::Wrong(at) => ProcessEnd::BadJournal { at },
        }
    }
}

impl From<KeepEnd> for ProcessEnd {
    ghost from_gives = { λ end e. e ≡ from_keep end };

    fn from(end: KeepEnd) -> ProcessEnd {
        match end {
            KeepEnd::NoMemory => ProcessEnd::Node(NodeEnd::NoMemory),
            KeepEnd::Failed => ProcessEnd::JournalFault,
        }
    }
}

/// Writes the line for a damaged file, with the place of the damage.
fn write_place<E: Sink>(err: &mut E, at: u64) -> Result<(), Failed>
    ensures whole { OnOk result (Appends (E.taken err.old) (E.taken err.new) (place_text at)) }
    ensures front { OnErr result (AppendsFront (E.taken err.old) (E.taken err.new) (place_text at)) }
    ensures cause { OnErr result (Rose (E.fault_count err.old) (E.fault_count err.new)) }
    ensures no_fault { OnOk result (E.fault_count err.new ≡ E.fault_count err.old) }
{
    let mut number = Buffer::new();
    write_all(err, b"ftnode: journal: byte ")?;
    write_all(err, number.format(at).as_bytes())?;
    write_all(err, b"\n")
}

/// The line for a journal that is missing, or is there already.
fn line_of<'a>(lack: Lack) -> &'a [u8]
    ensures { result.now ≡ lack_text lack }
{
    match lack {
        Lack::Missing => b"ftnode: journal: no such file\n",
        Lack::Present => b"ftnode: journal: the file is there\n",
        Lack::Empty => b"ftnode: journal: the file is empty\n",
        Lack::Unfinished => b"ftnode: journal: the file ends in its header\n",
        Lack::Older => b"ftnode: journal: version 1\n",
        Lack::OtherProfile => b"ftnode: journal: another profile\n",
    }
}

/// Writes how many bytes were cut off from the file, if there were any.
pub(crate) fn note_cut<E: Sink>(err: &mut E, torn: usize) -> Result<(), Failed>
    ensures whole { OnOk result (Appends (E.taken err.old) (E.taken err.new) (cut_text torn)) }
    ensures front { OnErr result (AppendsFront (E.taken err.old) (E.taken err.new) (cut_text torn)) }
    ensures cause { OnErr result (Rose (E.fault_count err.old) (E.fault_count err.new)) }
    ensures no_fault { OnOk result (E.fault_count err.new ≡ E.fault_count err.old) }
    ensures never_falls { E.fault_count err.old ≤ E.fault_count err.new }
{
    if torn == 0 {
        return Ok(());
    }
    write_cut(err, torn)
}

/// Writes that so many bytes were cut off.
fn write_cut<E: Sink>(err: &mut E, torn: usize) -> Result<(), Failed>
    ensures whole { OnOk result (Appends (E.taken err.old) (E.taken err.new) (cut_line torn)) }
    ensures front { OnErr result (AppendsFront (E.taken err.old) (E.taken err.new) (cut_line torn)) }
    ensures cause { OnErr result (Rose (E.fault_count err.old) (E.fault_count err.new)) }
    ensures no_fault { OnOk result (E.fault_count err.new ≡ E.fault_count err.old) }
{
    let mut number = Buffer::new();
    write_all(err, b"ftnode: journal: cut ")?;
    write_all(err, number.format(torn).as_bytes())?;
    write_all(err, b" bytes\n")
}

/// The status of an end: 5 if its line couldn't be written.
fn status_of(code: u8, written: Result<(), Failed>) -> Status
    ensures ok { OnOk written (result.code ≡ code) }
    ensures err { OnErr written (result.code ≡ 5) }
{
    match written {
        Ok(()) => Status { code },
        Err(Failed) => Status { code: 5 },
    }
}

/// Writes the line of an end, and returns its status: 5 if that write failed.
pub fn report_end<E: Sink>(err: &mut E, end: ProcessEnd) -> Status
    ensures reported { ReportsEnd end (E.taken err.old) (E.taken err.new) (E.fault_count err.old) (E.fault_count err.new) result.code }
    ensures early { result.code ≡ 0 → ⊥ }
    ensures fault { is_fault_status result.code ≡ false → is_fault end ≡ false }
    ensures no_fault { is_fault_status result.code ≡ false → E.fault_count err.new ≡ E.fault_count err.old }
    ensures unreported { end ≡ ends.Node node_ends.WriteFault → E.fault_count err.new ≡ E.fault_count err.old }
{
    match end {
        ProcessEnd::Node(NodeEnd::WriteFault) => Status { code: 5 },
        ProcessEnd::Node(end) => link_parts::report_end(err, end),
        ProcessEnd::JournalFault => status_of(11, write_all(err, b"ftnode: journal fault\n")),
        ProcessEnd::BadJournal { at } => status_of(12, write_place(err, at)),
        ProcessEnd::NoJournal(lack) => status_of(12, write_all(err, line_of(lack))),
        ProcessEnd::InUse => status_of(13, write_all(err, b"ftnode: journal in use\n")),
    }
}
