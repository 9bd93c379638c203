//! A log with marks that takes a mark after each 64 reads.

ghost use Rattle.std.specs.Prelude.{◌≤◌, ◌+◌, ◌^◌, length};
ghost use Rattle.logger_wire.specs.Value.{IsSendable};

use crate::CLIENT;
use crate::log::{hello, opening};
use anyhow::{Context, Result, bail, ensure};
use logger_store::MsgOut;
use logger_wire::{Body, Mark, MarkBody, MarkMsg, Msg, Part, write_mark, write_msg};
use mark_store::MarkStore;
use std::alloc::Global;
use std::time::{Clock, Instant};

/// The reads between two marks.
const EVERY: u32 = 64;

/// The most reads: they take 16 bytes each, and a stream has at most 2^24.
const READS: u32 = 1 << 20;

/// How many marks are timed at the front and at the end.
const TIMED: u32 = 16;

/// A log with marks, and room for what is said.
#[derive(Drop)]
struct Talk {
    log: MarkStore,
    datagram: [u8; 2_048],
    out: MsgOut,
    /// Whether the log was refused memory for a message.
    is_lost: bool,
}

impl Talk {
    /// Spells a message, and gives it to the log.
    fn send(&mut self, alloc: Global, m: &Msg<'_>)
        requires { IsSendable m.now }
    {
        let len = write_msg(m, &mut self.datagram).min(2_048);
        let taken = self.log.answer(alloc, &self.datagram[..len], &mut self.out);
        self.is_lost = self.is_lost || taken.is_err();
    }
}

/// The bytes for the reads up to the next mark, and these reads.
#[tactic(auto, unfolding(seq_arith::specs::MessageGrammar::has_length, seq_arith::specs::MessageGrammar::is_sound_by))]
fn deliver_reads(alloc: Global, talk: &mut Talk, first: u32)
    requires { first + 64 ≤ 2 ^ 20 }
{
    let text = [b'a'; 1_024];
    let body = Body::Data(Part {
        key: CLIENT,
        offset: 16 * first,
        acked: 0,
        fin: false,
        more: false,
        bytes: &text,
    });
    talk.send(alloc, &Msg { boot: 1, body });
    for i in 0..EVERY {
        let body = Body::Read {
            key: CLIENT,
            index: first + i,
            length: if i % 2 == 0 { 15 } else { 17 },
        };
        talk.send(alloc, &Msg { boot: 1, body });
    }
}

/// The bytes of a mark of so many reads, and how many they are.
#[tactic(auto, unfolding(seq_arith::specs::MarkGrammar::has_length, seq_arith::specs::MarkGrammar::is_sound))]
fn mark_after(reads: u32, datagram: &mut [u8; 2_048]) -> usize
    requires { (1 ≤ reads) × (reads ≤ 2 ^ 20) }
    ensures { result ≤ 2048 }
{
    let body = MarkBody::Mark {
        key: CLIENT,
        mark: Mark {
            reads,
            length: 16 * reads,
            made: 0,
            state: b"a state.",
        },
    };
    write_mark(&MarkMsg { boot: 1, body }, datagram)
}

/// How long the mark of so many reads takes, in nanoseconds.
fn time_mark<C: Clock>(clock: &C, alloc: Global, talk: &mut Talk, reads: u32) -> Result<u128>
    requires { (1 ≤ reads) × (reads ≤ 2 ^ 20) }
{
    let len = mark_after(reads, &mut talk.datagram);
    let since = Instant::now(clock)?;
    let kept = talk.log.answer(alloc, &talk.datagram[..len], &mut talk.out);
    let took = Instant::now(clock)?.duration_since(since).as_nanos();
    ensure!(kept.is_ok(), "no memory");
    Ok(took)
}

/// What a run over reads and their marks saw.
#[derive(Clone, Copy)]
pub(crate) struct Seen {
    /// How long one of the first marks took at least, in nanoseconds, ..
    pub first: u128,
    /// .. and one of the last.
    pub last: u128,
    /// How many bytes were kept at most, just before a mark.
    pub kept: u32,
}

/// Gives a new log so many reads with their marks, so many times.
pub(crate) fn run_marks<C: Clock>(clock: &C, alloc: Global, words: &[&str]) -> Result<Seen> {
    let [reads, rounds] = words else {
        bail!("log marks READS ROUNDS");
    };
    let reads: u32 = reads.parse().context("READS")?;
    let rounds: u32 = rounds.parse().context("ROUNDS")?;
    ensure!(reads <= READS, "READS is at most 2^20");
    let mut seen = Seen {
        first: u128::MAX,
        last: u128::MAX,
        kept: 0,
    };
    for _ in 0..rounds {
        let mut talk = Talk {
            log: MarkStore::new(alloc),
            datagram: [0; 2_048],
            out: MsgOut::new(),
            is_lost: false,
        };
        deliver_marks(clock, alloc, &mut talk, reads / EVERY, &mut seen)?;
    }
    Ok(seen)
}

/// Opens a connection in an empty log, and gives it so many marks, each after its reads.
fn deliver_marks<C: Clock>(
    clock: &C,
    alloc: Global,
    talk: &mut Talk,
    marks: u32,
    seen: &mut Seen,
) -> Result<()>
    requires { marks ≤ 2 ^ 14 }
{
    talk.send(alloc, &hello());
    talk.send(alloc, &opening());
    for i in 0..marks {
        deliver_reads(alloc, talk, EVERY * i);
        seen.kept = seen.kept.max(talk.log.kept(0));
        let took = time_mark(clock, alloc, talk, EVERY * (i + 1))?;
        if i < TIMED {
            seen.first = seen.first.min(took);
        }
        if marks - i <= TIMED {
            seen.last = seen.last.min(took);
        }
    }
    ensure!(!talk.is_lost, "no memory");
    Ok(())
}
