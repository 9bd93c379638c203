//! A restart from the log.

ghost use Rattle.std.specs.Prelude.{◌≤◌, IfSome};
ghost use Rattle.reincarnate.specs.Marking.{IsAnyRead};

use crate::SERVER;
use crate::logger::Logger;
use ft_io::NoMemory;
use logger_wire::{Body, Msg, read_mark, read_msg};
use reincarnate::{AnyMsg, Asked, Entries, Fetching, Replayed};
use sample_servers::AnyService;
use seq_arith::Seq;
use std::alloc::Global;

/// The server's initial sequence number.
const ISN: Seq = Seq(900_000);

/// More questions than any log here needs.
const QUESTIONS: u32 = 100_000;

/// The counts of the restarts so far.
#[derive(Clone, Copy)]
pub(crate) struct Restored {
    pub(crate) questions: u32,
    pub(crate) connections: u32,
    pub(crate) pending: usize,
    pub(crate) delta: u32,
}

impl Restored {
    pub(crate) const NONE: Restored = Restored {
        questions: 0,
        connections: 0,
        pending: 0,
        delta: 0,
    };
}

/// Restarts a server of this boot number from the log, and from its marks if it has marks.
#[tactic(auto, using(reincarnate::proofs::Sendable::asked_by))]
pub(crate) fn restart(
    alloc: Global,
    logger: &mut Logger,
    kind: u8,
    boot: u64,
    restored: &mut Restored,
) -> Result<(), NoMemory>
    requires { 1 ≤ boot }
{
    let asked = Asked::new(boot);
    let hello = asked.question();
    logger.send(alloc, &hello)?;
    restored.questions = restored.questions.saturating_add(1);
    let count = match read_msg(logger.answer()) {
        Ok(
            Msg {
                body: Body::Summary { count },
                ..
            },
        ) => count.min(limits::ENTRIES),
        _ => 0,
    };
    let marks = logger.has_marks();
    match asked.on_summary(alloc, kind, count, marks) {
        Ok(fetching) => restore(alloc, logger, fetching, boot, restored),
        Err(_) => Err(NoMemory),
    }
}

/// Fetches the entries, and splices each connection.
fn restore(
    alloc: Global,
    logger: &mut Logger,
    mut fetching: Fetching<AnyService>,
    boot: u64,
    restored: &mut Restored,
) -> Result<(), NoMemory>
    requires { 1 ≤ boot }
{
    let fetched = fetch(alloc, logger, &mut fetching, restored);
    if fetched.is_err() || fetching.question().is_some() {
        return fetched;
    }
    join_all(alloc, boot, &mut fetching.finish(), restored)
}

/// Asks and answers until nothing is missing.
fn fetch(
    alloc: Global,
    logger: &mut Logger,
    fetching: &mut Fetching<AnyService>,
    restored: &mut Restored,
) -> Result<(), NoMemory> {
    for _ in 0..QUESTIONS {
        let Some(question) = fetching.question() else {
            return Ok(());
        };
        logger.ask(alloc, &question)?;
        restored.questions = restored.questions.saturating_add(1);
        if let Some(message) = read_any(logger.answer()) {
            fetching.on_answer(alloc, &message)?;
        }
    }
    Ok(())
}

/// The message of either kind that these bytes are.
#[tactic(auto, using(reincarnate::proofs::Sendable::read_plainly))]
fn read_any(bytes: &[u8]) -> Option<AnyMsg<'_>>
    ensures { IfSome result (λ m. IsAnyRead m) }
{
    if let Ok(m) = read_msg(bytes) {
        return Some(AnyMsg::Log(m));
    }
    match read_mark(bytes) {
        Ok(m) => Some(AnyMsg::Mark(m)),
        Err(_) => None,
    }
}

/// Splices each connection that is restored.
fn join_all(
    alloc: Global,
    boot: u64,
    entries: &mut Entries<AnyService>,
    restored: &mut Restored,
) -> Result<(), NoMemory>
    requires { 1 ≤ boot }
{
    for _ in 0..64u32 {
        let Some(replayed) = entries.next() else {
            return Ok(());
        };
        join(alloc, boot, replayed, restored)?;
    }
    Ok(())
}

fn join(
    alloc: Global,
    boot: u64,
    replayed: Replayed<AnyService>,
    restored: &mut Restored,
) -> Result<(), NoMemory>
    requires { 1 ≤ boot }
{
    let pending = replayed.pending().len();
    match replayed.splice(alloc, boot, SERVER, ISN) {
        Ok(spliced) => {
            restored.connections = restored.connections.saturating_add(1);
            restored.pending = pending;
            restored.delta = spliced.south().delta();
            Ok(())
        }
        Err(_) => Err(NoMemory),
    }
}
