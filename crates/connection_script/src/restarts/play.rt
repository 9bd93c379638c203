//! One restart.

use crate::peers::SERVER;
use crate::restarts::logged::{Logged, any_answer};
use crate::restarts::text::write_question;
use ft_io::NoMemory;
use logger_wire::{read_mark, read_msg};
use reincarnate::{AnyMsg, Asked, Entries, Fetching, Replayed};
use sample_servers::AnyService;
use seq_arith::Seq;
use std::alloc::Global;
use tcp_endpoint::StateName;
use test_data::Said;

/// The boot number of the server that restarts, and its initial sequence number.
pub(crate) const BOOT: u8 = 2;

const ISN: Seq = Seq(900_000);

/// More questions than any log here needs.
const QUESTIONS: u32 = 100_000;

pub(crate) fn begin(
    alloc: Global,
    kind: u8,
    count: usize,
    marks: bool,
) -> Result<Fetching<AnyService>, NoMemory> {
    let asked = Asked::new(u64::from(BOOT));
    let count = count.min(usize::from(limits::ENTRIES)) as u16;
    match asked.on_summary(alloc, kind, count, marks) {
        Ok(fetching) => Ok(fetching),
        Err(_) => Err(NoMemory),
    }
}

/// Hands over bytes, if they are a message of either kind. Whether it fits.
#[tactic(auto, using(reincarnate::proofs::Sendable::read_plainly))]
pub(crate) fn hand(
    alloc: Global,
    fetching: &mut Fetching<AnyService>,
    bytes: &[u8],
) -> Result<bool, NoMemory> {
    if let Ok(message) = read_msg(bytes) {
        return fetching.on_answer(alloc, &AnyMsg::Log(message));
    }
    match read_mark(bytes) {
        Ok(message) => fetching.on_answer(alloc, &AnyMsg::Mark(message)),
        Err(_) => Ok(false),
    }
}

/// Asks and answers until nothing is missing. What is asked is said.
pub(crate) fn fetch(
    alloc: Global,
    fetching: &mut Fetching<AnyService>,
    entries: &[Logged<'_>],
    said: &mut Said,
) -> Result<(), NoMemory> {
    for _ in 0..QUESTIONS {
        let bytes = match fetching.question() {
            Some(question) => {
                write_question(&question, said);
                any_answer(alloc, BOOT, entries, &question)?
            }
            None => return Ok(()),
        };
        hand(alloc, fetching, &bytes)?;
        write!(said, "held {}\n", fetching.held());
    }
    Ok(())
}

/// Joins a connection that is replayed, and says where it continues: delta, and the number, acknowledgement and window of the first segment that it would send.
fn join(alloc: Global, replayed: Replayed<AnyService>, said: &mut Said) -> Result<(), NoMemory> {
    let pending = hex::encode(alloc, replayed.pending())?;
    match replayed.splice(alloc, u64::from(BOOT), SERVER, ISN) {
        Ok(spliced) => {
            let delta = spliced.south().delta();
            let number = spliced.endpoint().sent().add(delta).0;
            let reported = spliced.south().ack_now();
            let (ack, window) = (reported.ack.0, reported.window);
            let state = match spliced.endpoint().state().name {
                StateName::Established => "established",
                StateName::CloseWait => "close-wait",
                _ => "another",
            };
            write!(
                said,
                "delta {delta}\nseq {number}\nack {ack}\nwindow {window}\n"
            );
            write!(said, "state {state}\npending {}\n", pending.as_str());
            Ok(())
        }
        Err(_) => Err(NoMemory),
    }
}

/// Joins each connection that is replayed, and returns how many they are.
fn join_all(
    alloc: Global,
    entries: &mut Entries<AnyService>,
    said: &mut Said,
) -> Result<u32, NoMemory> {
    let mut count = 0u32;
    for _ in 0..64u32 {
        let Some(replayed) = entries.next() else {
            return Ok(count);
        };
        join(alloc, replayed, said)?;
        count = count.saturating_add(1);
    }
    Ok(count)
}

/// Restores what is fetched, and returns how many connections that is.
pub(crate) fn restore(
    alloc: Global,
    fetching: Fetching<AnyService>,
    said: &mut Said,
) -> Result<u32, NoMemory> {
    if fetching.question().is_some() {
        said.line("something is missing");
        return Ok(0);
    }
    join_all(alloc, &mut fetching.finish(), said)
}
