//! Reading a journal's file, once, from its beginning to its end.

ghost use Rattle.std.specs.Prelude.{[], ◌≡◌, ◌≤◌, ◌<◌, ◌^◌, ◌++◌, List, ℕ, length, IfOk, OnOk, IsErrOf};
ghost use Rattle.std.specs.Io.KnownBytes.{Consumes, IsAtEnd};
ghost use Rattle.ft_io.specs.Faults.{Rose};
ghost use Rattle.ft_io.specs.Reported.{Reports};
ghost use Rattle.ft_model.specs.Log.{empty_log};
ghost use Rattle.kept_log.specs.ReadSteps.{Takes, Steps, Reaches, IsTail, FindsBehind, FindsAs, FindsIn};

use crate::block::{MOST_BODY, Start, is_followed, start_of};
use crate::body::take_body;
use crate::grammar::has_other_grammar;
use crate::header::{Begin, HEADER, TIME, begin_of, first_of};
use crate::journal::KeepEnd;
use crate::tip::{HEAD, Tip};
use crate::window::{Window, fill};
use disk::Disk;
use ft_io::NoMemory;
use logger_store::LogStore;
use logger_wire::Grammar;
use std::alloc::Global;

/// The bytes that one read may move.
const CHUNK: usize = 65_536;

/// The most bytes that a death leaves after the blocks: the longest block.
pub const MOST_TORN: usize = HEAD + MOST_BODY;

/// What a step took from the beginning of the bytes read.
#[derive(Clone, Copy)]
pub enum Taken {
    /// The next block.
    Block,
    /// Nothing: the bytes are only a prefix of a block, or there are none. A step then reads more.
    Short,
    /// Nothing: the bytes don't begin with the next block, whatever follows.
    End,
    /// Nothing: they begin with a block whose body isn't messages.
    Wrong,
}

/// How the blocks end.
#[derive(Clone, Copy)]
pub enum Reached {
    /// Where the next block would begin: none follows.
    End(Tip),
    /// The place of a block whose body isn't messages.
    Wrong(u64),
}

/// What was found in a file.
#[derive(Clone, Copy)]
pub enum Found {
    /// The file is empty.
    Empty,
    /// It ends in its header.
    Unfinished,
    /// It is of the first version.
    Older,
    /// Its first message is of another grammar.
    OtherGrammar,
    /// Where the next block begins, and how many bytes come after the last one.
    Whole(Tip, usize),
    /// The place where neither a block follows nor what a death leaves; 0 if the header isn't whole.
    Wrong(u64),
}

/// Takes the block at the beginning of the bytes into the log.
pub(crate) fn take_block(
    alloc: Global,
    window: &mut Window,
    tip: &mut Tip,
    store: &mut LogStore,
) -> Result<Taken, NoMemory>
    requires number { tip.old.number < 2 ^ 63 }
    requires end { tip.old.end < 2 ^ 63 }
    ensures { IfOk result (Takes tip.old tip.new window.old window.new store.old store.new) }
{
    match start_of(alloc, tip, window.bytes())? {
        Start::Short => Ok(Taken::Short),
        Start::Other => Ok(Taken::End),
        Start::Block(len, digest) => {
            if !take_body(alloc, &window.bytes()[HEAD..len + HEAD], store)? {
                return Ok(Taken::Wrong);
            }
            window.skip(len + HEAD);
            tip.pass(len, digest);
            Ok(Taken::Block)
        }
    }
}

/// Takes a block into the log, or reads on.
#[tactic(auto, using(crate::proofs::Cited::step_lemmas))]
fn step<D: Disk>(
    alloc: Global,
    disk: &mut D,
    window: &mut Window,
    tip: &mut Tip,
    store: &mut LogStore,
    chunk: &mut [u8],
) -> Result<Taken, KeepEnd>
    requires chunk { 0 < length chunk.old }
    requires number { tip.old.number < 2 ^ 63 }
    requires end { tip.old.end < 2 ^ 63 }
    ensures stepped { IfOk result (Steps (D.left disk.old) (D.left disk.new) tip.old tip.new window.old window.new store.old store.new) }
    ensures reported { Reports (D.reported disk.old) (D.reported disk.new) [] }
    ensures cause { IsErrOf result KeepEnd.Failed → Rose (D.fault_count disk.old) (D.fault_count disk.new) }
    ensures never_falls { D.fault_count disk.old ≤ D.fault_count disk.new }
    ensures beside { D.beside disk.new ≡ D.beside disk.old }
{
    let Ok(taken) = take_block(alloc, window, tip, store) else {
        return Err(KeepEnd::NoMemory);
    };
    match taken {
        Taken::Short => match fill(disk, window, chunk)? {
            true => Ok(Taken::Short),
            false => Ok(Taken::End),
        },
        Taken::Block => Ok(Taken::Block),
        Taken::End => Ok(Taken::End),
        Taken::Wrong => Ok(Taken::Wrong),
    }
}

#[tactic(auto, using(crate::proofs::Cited::read_blocks_lemmas))]
/// Takes all blocks of a file into the log. The window has what was read after the header.
fn read_blocks<D: Disk>(
    alloc: Global,
    disk: &mut D,
    window: &mut Window,
    made: &[u8; TIME],
    store: &mut LogStore,
    chunk: &mut [u8],
) -> Result<Reached, KeepEnd>
    requires chunk { 0 < length chunk.old }
    requires log { store.old ≡ empty_log }
    requires time { length made.now ≡ 8 }
    ensures reached { IfOk result (Reaches made.now window.old (D.left disk.old) (D.left disk.new) window.new store.new) }
    ensures reported { Reports (D.reported disk.old) (D.reported disk.new) [] }
    ensures cause { IsErrOf result KeepEnd.Failed → Rose (D.fault_count disk.old) (D.fault_count disk.new) }
    ensures never_falls { D.fault_count disk.old ≤ D.fault_count disk.new }
    ensures beside { D.beside disk.new ≡ D.beside disk.old }
{
    let mut tip = first_of(made);
    for _step in 0..u64::MAX {
        if tip.is_beyond() {
            return Err(KeepEnd::NoMemory);
        }
        match step(alloc, disk, window, &mut tip, store, chunk)? {
            Taken::Block => (),
            Taken::Short => (),
            Taken::End => return Ok(Reached::End(tip)),
            Taken::Wrong => return Ok(Reached::Wrong(tip.end)),
        }
    }
    Err(KeepEnd::NoMemory)
}

#[tactic(auto, using(crate::proofs::Files::quiet_on, crate::proofs::Files::rose_later, ft_io::proofs::Recordings::none_reported))]
/// Reads until there are more than so many bytes, or the file ends.
fn fill_up<D: Disk>(
    disk: &mut D,
    window: &mut Window,
    chunk: &mut [u8],
    most: usize,
) -> Result<(), KeepEnd>
    requires chunk { 0 < length chunk.old }
    requires most { most < 1000000 }
    ensures read { OnOk result ((bytes : List ℕ) × Consumes (D.left disk.old) (D.left disk.new) bytes × (window.new ≡ window.old ++ bytes)) }
    ensures end { OnOk result (length window.new ≤ most → IsAtEnd (D.left disk.new)) }
    ensures reported { Reports (D.reported disk.old) (D.reported disk.new) [] }
    ensures cause { IsErrOf result KeepEnd.Failed → Rose (D.fault_count disk.old) (D.fault_count disk.new) }
    ensures never_falls { D.fault_count disk.old ≤ D.fault_count disk.new }
    ensures beside { D.beside disk.new ≡ D.beside disk.old }
{
    while window.bytes().len() <= most {
        if !fill(disk, window, chunk)? {
            return Ok(());
        }
    }
    Ok(())
}

/// Reads what comes after the header. The window has its first bytes.
#[tactic(auto, using(crate::proofs::Files::quiet_on, crate::proofs::Files::rose_later, ft_io::proofs::Recordings::none_reported))]
fn read_rest<D: Disk>(
    alloc: Global,
    disk: &mut D,
    window: &mut Window,
    made: &[u8; TIME],
    store: &mut LogStore,
    chunk: &mut [u8],
) -> Result<Found, KeepEnd>
    requires chunk { 0 < length chunk.old }
    requires log { store.old ≡ empty_log }
    requires time { length made.now ≡ 8 }
    ensures found { IfOk result (FindsBehind made.now window.old (D.left disk.old) store.new) }
    ensures reported { Reports (D.reported disk.old) (D.reported disk.new) [] }
    ensures cause { IsErrOf result KeepEnd.Failed → Rose (D.fault_count disk.old) (D.fault_count disk.new) }
    ensures never_falls { D.fault_count disk.old ≤ D.fault_count disk.new }
    ensures beside { D.beside disk.new ≡ D.beside disk.old }
{
    match read_blocks(alloc, disk, window, made, store, chunk)? {
        Reached::Wrong(at) => Ok(Found::Wrong(at)),
        Reached::End(tip) => {
            fill_up(disk, window, chunk, MOST_TORN)?;
            Ok(tail_of(&tip, window.bytes()))
        }
    }
}

#[tactic(auto, using(crate::proofs::Starts::too_much, crate::proofs::Starts::not_torn))]
/// What the bytes after the last block are: what a death leaves, or damage.
pub(crate) fn tail_of(tip: &Tip, tail: &[u8]) -> Found
    ensures { IsTail tip.now tail.now result }
{
    if tail.len() > MOST_TORN {
        return Found::Wrong(tip.end);
    }
    if is_followed(tip, tail) {
        return Found::Wrong(tip.end);
    }
    Found::Whole(*tip, tail.len())
}

/// Reads a file that was opened just now to its end, and takes its blocks into the empty log, if its messages are of this grammar. It changes
/// nothing of the file.
#[tactic(auto, using(crate::proofs::Files::quiet_on, crate::proofs::Files::rose_later, ft_io::proofs::Recordings::none_reported))]
pub fn read_file<D: Disk>(
    alloc: Global,
    grammar: Grammar,
    disk: &mut D,
    store: &mut LogStore,
) -> Result<Found, KeepEnd>
    requires { store.old ≡ empty_log }
    ensures found { IfOk result (FindsAs (D.left disk.old) store.new) }
    ensures grammar { IfOk result (FindsIn grammar (D.left disk.old)) }
    ensures reported { Reports (D.reported disk.old) (D.reported disk.new) [] }
    ensures cause { IsErrOf result KeepEnd.Failed → Rose (D.fault_count disk.old) (D.fault_count disk.new) }
    ensures never_falls { D.fault_count disk.old ≤ D.fault_count disk.new }
    ensures beside { D.beside disk.new ≡ D.beside disk.old }
{
    let mut window = Window::new(alloc);
    let mut chunk = vec![in alloc; 0u8; CHUNK]?;
    fill_up(disk, &mut window, &mut chunk, HEADER + MOST_TORN)?;
    match begin_of(window.bytes()) {
        Begin::Empty => Ok(Found::Empty),
        Begin::Unfinished => Ok(Found::Unfinished),
        Begin::Older => Ok(Found::Older),
        Begin::Missing => Ok(Found::Wrong(0)),
        Begin::Whole(made) => {
            window.skip(HEADER);
            if has_other_grammar(alloc, grammar, &made, window.bytes())? {
                return Ok(Found::OtherGrammar);
            }
            read_rest(alloc, disk, &mut window, &made, store, &mut chunk)
        }
    }
}
