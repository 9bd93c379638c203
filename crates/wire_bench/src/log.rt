//! Fills a log and fetches it again, for `bench/log.sh`: `log READS BYTES ROUNDS`. In each of ROUNDS rounds one entry of a new log takes BYTES bytes, at
//! most 2^24, in Data of 1,460 bytes, and after each Data a Read, and is then fetched completely in Parts and Lens. READS is `equal`, for reads of 1,460 bytes,
//! or `other`, for reads of 1,459 and 1,461 bytes in turn; or it is `made`, and the messages for `equal` are made and not given to a log. Each message is
//! spelled, read and answered. It prints how many messages there were, and what the lengths and checksums of all answers add up to. A fourth
//! word, `marked`, gives the messages to a log with marks, of which none is used.
//!
//! `log marks READS ROUNDS` fills a log with marks with READS reads, at most 2^20, of 15 and 17 bytes in turn, and a mark after each 64. It prints the most
//! bytes that were kept, and the minimum time that one of the first 16 and one of the last 16 marks took in nanoseconds, over all rounds.
//!
//! `log twin WHO COUNT BURST`, for `bench/twin.sh`, gives messages to one log or to a head and a tail: WHO is `one` or `pair`, or `wide` for a pair that is
//! given wide messages. COUNT messages, at most 100,000, are Data of 100 bytes, one after another in one entry. After each BURST of them a pair's tail is given
//! all that the head has forwarded, in order, and the head all that the tail has confirmed. It prints how many messages there were, how many Forwards, and how
//! many answers.

ghost use Rattle.std.specs.Prelude.{◌≡◌, ◌≤◌, ◌<◌, ◌+◌, ◌^◌, length};
ghost use Rattle.logger_wire.specs.Value.{IsSendable};

use crate::CLIENT;
use anyhow::{Context, Result, bail, ensure};
use ft_io::NoMemory;
use limits::STREAM;
use logger_store::{LogStore, MsgOut};
use logger_wire::{Body, Msg, Numbers, Part, read_msg, write_msg};
use mark_store::MarkStore;
use marking::{Seen, run_marks};
use std::alloc::Global;
use std::time::Clock;
use twins::run_twins;

mod marking;
mod twins;

/// The most bytes of a Data.
const DATA: u32 = limits::SEGMENT as u32;

/// The most bytes of a Part, and the most lengths of a Lens.
const PART: u32 = 1_024;

const LENS: u32 = 512;

/// Does what the words after `log` ask for, and prints what came of it.
pub(crate) fn run<R: AllocGlobal + Print + Clock>(rt: &R, command: &[&str]) -> Result<()> {
    match command {
        ["marks", words @ ..] => {
            let Seen { first, last, kept } = run_marks(rt, rt.alloc(), words)?;
            println!(rt;
                "at most {kept} bytes kept; the first marks {first} ns, the last {last} ns"
            )?;
        }
        ["twin", words @ ..] => {
            let sent = run_twins(rt.alloc(), words)?;
            println!(rt;
                "{} messages, {} forwarded, {} answered",
                sent.messages, sent.forwards, sent.answers
            )?;
        }
        [reads, bytes, rounds, rest @ ..] => {
            let bytes: u32 = bytes.parse().context("BYTES")?;
            let rounds: u32 = rounds.parse().context("ROUNDS")?;
            ensure!(bytes <= STREAM, "BYTES is at most 2^24");
            let tally = play(rt.alloc(), reads, bytes, rounds, !rest.is_empty())?;
            println!(rt; "{} messages, {}", tally.messages, tally.total)?;
        }
        _ => bail!("log marks|twin|READS WORD.."),
    }
    Ok(())
}

/// So many rounds, to a log with marks or to one without.
fn play(alloc: Global, reads: &str, bytes: u32, rounds: u32, is_marked: bool) -> Result<Tally>
    requires { bytes ≤ 2 ^ 24 }
{
    let mut tally = Tally {
        messages: 0,
        total: 0,
    };
    for _ in 0..rounds {
        let mut talk = Talk {
            ear: Ear::new(alloc, reads, is_marked),
            datagram: [0; 2_048],
            out: MsgOut::new(),
            tally,
            is_lost: false,
        };
        let Ok(after) = fill_and_fetch(alloc, &mut talk, bytes, reads == "other") else {
            bail!("no memory");
        };
        tally = after;
    }
    Ok(tally)
}

/// The messages so far, and what their answers add up to, modulo 2^64.
#[derive(Clone, Copy)]
struct Tally {
    messages: u64,
    total: u64,
}

impl Tally {
    /// Counts a message and its answer.
    fn count(&mut self, answer: &[u8]) {
        self.messages = self.messages.wrapping_add(1);
        if let [_, _, _, _, _, _, high, low, ..] = answer {
            let check = u64::from(u16::from_be_bytes([*high, *low]));
            self.total = self
                .total
                .wrapping_add(answer.len() as u64)
                .wrapping_add(check);
        }
    }
}

/// Who takes the messages.
#[derive(Drop)]
enum Ear {
    Nobody,
    Log(LogStore),
    Marked(MarkStore),
}

impl Ear {
    /// An empty log for these reads, with marks or without; or nobody, if the messages are only made.
    fn new(alloc: Global, reads: &str, is_marked: bool) -> Ear {
        if is_marked {
            Ear::Marked(MarkStore::new(alloc))
        } else if reads == "made" {
            Ear::Nobody
        } else {
            Ear::Log(LogStore::new(alloc))
        }
    }
}

/// A log, and one who sends it messages.
#[derive(Drop)]
struct Talk {
    ear: Ear,
    datagram: [u8; 2_048],
    out: MsgOut,
    tally: Tally,
    /// Whether the log was refused memory for a message.
    is_lost: bool,
}

impl Talk {
    /// Spells a message, and gives it to the log.
    fn send(&mut self, alloc: Global, m: &Msg<'_>)
        requires { IsSendable m.now }
    {
        let len = write_msg(m, &mut self.datagram).min(2_048);
        let bytes = &self.datagram[..len];
        let taken = match &mut self.ear {
            Ear::Nobody => Ok(()),
            Ear::Log(log) => match read_msg(bytes) {
                Ok(message) => log.answer(alloc, &message, &mut self.out),
                Err(_) => Ok(()),
            },
            Ear::Marked(log) => log.answer(alloc, bytes, &mut self.out),
        };
        self.is_lost = self.is_lost || taken.is_err();
        self.tally.count(self.out.bytes());
    }
}

/// Opens an entry, fills it, and fetches it. Returns the tally.
fn fill_and_fetch(
    alloc: Global,
    talk: &mut Talk,
    bytes: u32,
    alternates: bool,
) -> Result<Tally, NoMemory>
    requires { bytes ≤ 2 ^ 24 }
{
    talk.send(alloc, &hello());
    talk.send(alloc, &opening());
    let text = [b'a'; limits::TEXT];
    let mut read = 0u32;
    for i in 0..bytes.div_ceil(DATA) {
        let offset = i * DATA;
        let len = DATA.min(bytes.saturating_sub(offset));
        deliver_bytes(alloc, talk, offset, &text[..len as usize]);
        let other = if i % 2 == 0 { DATA - 1 } else { DATA + 1 };
        let wanted = if alternates { other } else { len };
        let next = wanted.min((offset + len).saturating_sub(read));
        deliver_read(alloc, talk, i, next);
        read += next;
    }
    for i in 0..bytes.div_ceil(PART) {
        fetch_bytes(alloc, talk, i * PART);
    }
    for i in 0..bytes.div_ceil(DATA).div_ceil(LENS) {
        fetch_lengths(alloc, talk, i * LENS);
    }
    if talk.is_lost {
        return Err(NoMemory);
    }
    Ok(talk.tally)
}

/// The first message.
#[tactic(auto, unfolding(seq_arith::specs::MessageGrammar::has_length, seq_arith::specs::MessageGrammar::is_sound_by))]
fn hello() -> Msg<'static>
    ensures { IsSendable result }
{
    Msg {
        boot: 1,
        body: Body::Hello,
    }
}

/// The message that opens the entry.
#[tactic(auto, unfolding(seq_arith::specs::MessageGrammar::has_length, seq_arith::specs::MessageGrammar::is_sound_by))]
fn opening() -> Msg<'static>
    ensures { IsSendable result }
{
    Msg {
        boot: 1,
        body: Body::Open(Numbers {
            key: CLIENT,
            cisn: 1_000,
            sisn: 5_000,
            mss: limits::SEGMENT,
        }),
    }
}

#[tactic(auto, unfolding(seq_arith::specs::MessageGrammar::has_length, seq_arith::specs::MessageGrammar::is_sound_by))]
fn deliver_bytes(alloc: Global, talk: &mut Talk, offset: u32, bytes: &[u8])
    requires few { length bytes.now ≤ 1460 }
    requires within { offset + length bytes.now ≤ 2 ^ 24 }
{
    let body = Body::Data(Part {
        key: CLIENT,
        offset,
        acked: 0,
        fin: false,
        more: false,
        bytes,
    });
    talk.send(alloc, &Msg { boot: 1, body });
}

#[tactic(auto, unfolding(seq_arith::specs::MessageGrammar::has_length, seq_arith::specs::MessageGrammar::is_sound_by))]
fn deliver_read(alloc: Global, talk: &mut Talk, index: u32, len: u32)
    requires index { index ≤ 2 ^ 24 }
    requires len { len ≤ 2048 }
{
    let body = Body::Read {
        key: CLIENT,
        index,
        length: len as u16,
    };
    talk.send(alloc, &Msg { boot: 1, body });
}

#[tactic(auto, unfolding(seq_arith::specs::MessageGrammar::has_length, seq_arith::specs::MessageGrammar::is_sound_by))]
fn fetch_bytes(alloc: Global, talk: &mut Talk, offset: u32)
    requires { offset ≤ 2 ^ 24 }
{
    let body = Body::Bytes {
        key: CLIENT,
        offset,
    };
    talk.send(alloc, &Msg { boot: 1, body });
}

#[tactic(auto, unfolding(seq_arith::specs::MessageGrammar::has_length, seq_arith::specs::MessageGrammar::is_sound_by))]
fn fetch_lengths(alloc: Global, talk: &mut Talk, first: u32)
    requires { first ≤ 2 ^ 24 }
{
    let body = Body::Cuts { key: CLIENT, first };
    talk.send(alloc, &Msg { boot: 1, body });
}
