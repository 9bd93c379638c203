//! Messages to one log, or to a head and a tail that act as one.

ghost use Rattle.std.specs.Prelude.{◌≤◌, ◌<◌, ◌+◌, ◌^◌, length};
ghost use Rattle.logger_wire.specs.Value.{IsSendableBy};

use crate::CLIENT;
use anyhow::{Context, Result, bail, ensure};
use ft_io::NoMemory;
use logger_store::{LogStore, MsgOut};
use logger_wire::{Body, Grammar, Msg, Numbers, read_msg, write_msg_by};
use std::alloc::Global;
use twin_log::{Part, Side, TwinLog, TwinOut};

/// The bytes of a Data.
const DATA: u32 = 100;

/// The most messages.
const MESSAGES: u32 = 100_000;

/// Gives COUNT messages to WHO, in bursts of BURST.
pub(crate) fn run_twins(alloc: Global, words: &[&str]) -> Result<Tally> {
    let [who, count, burst] = words else {
        bail!("log twin WHO COUNT BURST");
    };
    let count: u32 = count.parse().context("COUNT")?;
    let burst: u32 = burst.parse().context("BURST")?;
    ensure!(count <= MESSAGES, "COUNT is at most 100,000");
    let said = match *who {
        "one" => deliver_all(alloc, &mut LogStore::new(alloc), count),
        "pair" => to_pair(alloc, Grammar::Plain, count, burst),
        "wide" => to_pair(alloc, Grammar::Wide, count, burst),
        _ => bail!("WHO is one, pair or wide"),
    };
    let Ok(tally) = said else {
        bail!("no memory");
    };
    Ok(tally)
}

/// What went out.
#[derive(Clone, Copy)]
pub(crate) struct Tally {
    pub(crate) messages: u32,
    pub(crate) forwards: u64,
    pub(crate) answers: u64,
}

impl Tally {
    fn new(messages: u32) -> Tally {
        Tally {
            messages,
            forwards: 0,
            answers: 0,
        }
    }
}

/// A message as it is sent.
#[derive(Clone, Copy)]
struct Datagram {
    bytes: [u8; 2_048],
    len: usize,
}

impl Datagram {
    fn bytes(&self) -> &[u8] {
        &self.bytes[..self.len.min(2_048)]
    }
}

fn spelled(grammar: Grammar, m: &Msg<'_>) -> Datagram
    requires { IsSendableBy grammar m.now }
{
    let mut bytes = [0; 2_048];
    let len = write_msg_by(grammar, m, &mut bytes);
    Datagram { bytes, len }
}

/// The message of a place: Hello, Open, and then Data of 100 bytes, one after another.
fn message(grammar: Grammar, i: u32) -> Datagram
    requires { i < 100002 }
{
    match i {
        0 => hello(grammar),
        1 => opening(grammar),
        _ => data(grammar, i - 2),
    }
}

#[tactic(auto, unfolding(seq_arith::specs::MessageGrammar::has_length, seq_arith::specs::MessageGrammar::is_sound_by))]
fn hello(grammar: Grammar) -> Datagram {
    let body = Body::Hello;
    spelled(grammar, &Msg { boot: 1, body })
}

#[tactic(auto, unfolding(seq_arith::specs::MessageGrammar::has_length, seq_arith::specs::MessageGrammar::is_sound_by))]
fn opening(grammar: Grammar) -> Datagram {
    let body = Body::Open(Numbers {
        key: CLIENT,
        cisn: 1_000,
        sisn: 5_000,
        mss: limits::SEGMENT,
    });
    spelled(grammar, &Msg { boot: 1, body })
}

#[tactic(auto, unfolding(seq_arith::specs::MessageGrammar::has_length, seq_arith::specs::MessageGrammar::is_sound_by))]
fn data(grammar: Grammar, i: u32) -> Datagram
    requires { i < 100000 }
{
    let text = [b'a'; 100];
    let m = Msg {
        boot: 1,
        body: Body::Data(logger_wire::Part {
            key: CLIENT,
            offset: i * DATA,
            acked: 0,
            fin: false,
            more: false,
            bytes: &text,
        }),
    };
    spelled(grammar, &m)
}

/// Gives one log, which is empty, the messages.
fn deliver_all(alloc: Global, log: &mut LogStore, count: u32) -> Result<Tally, NoMemory>
    requires { count ≤ 100000 }
{
    let mut out = MsgOut::new();
    let mut tally = Tally::new(count);
    for i in 0..count {
        let datagram = message(Grammar::Plain, i);
        if let Ok(msg) = read_msg(datagram.bytes()) {
            log.answer(alloc, &msg, &mut out)?;
        }
        if !out.bytes().is_empty() {
            tally.answers = tally.answers.wrapping_add(1);
        }
    }
    Ok(tally)
}

/// A head, a tail, and what is on its way between them.
#[derive(Drop)]
struct Pair {
    grammar: Grammar,
    head: TwinLog,
    tail: TwinLog,
    out: TwinOut,
    to_tail: Vec<Vec<u8>>,
    to_head: Vec<Vec<u8>>,
    tally: Tally,
}

impl Pair {
    fn new(alloc: Global, grammar: Grammar, count: u32) -> Result<Pair, NoMemory> {
        Ok(Pair {
            grammar,
            out: TwinOut::new(alloc)?,
            head: TwinLog::new_by(alloc, grammar, Part::Head)?,
            tail: TwinLog::new_by(alloc, grammar, Part::Tail)?,
            to_tail: Vec::new(alloc),
            to_head: Vec::new(alloc),
            tally: Tally::new(count),
        })
    }

    /// Takes the messages, in bursts. Returns what went out.
    fn take_all(&mut self, alloc: Global, count: u32, burst: u32) -> Result<Tally, NoMemory>
        requires { count ≤ 100000 }
    {
        for i in 0..count {
            let datagram = message(self.grammar, i);
            self.ask(alloc, datagram.bytes())?;
            if burst == 0 || (i + 1) % burst == 0 {
                self.settle(alloc)?;
            }
        }
        self.settle(alloc)?;
        Ok(self.tally)
    }

    /// The head takes a message.
    fn ask(&mut self, alloc: Global, bytes: &[u8]) -> Result<(), NoMemory> {
        self.head
            .deliver(alloc, Side::Server, bytes, &mut self.out)?;
        keep_forwards(alloc, &self.out, &mut self.to_tail, &mut self.tally)
    }

    /// All that is on its way arrives, in order.
    fn settle(&mut self, alloc: Global) -> Result<(), NoMemory> {
        for forward in self.to_tail.iter() {
            self.tail
                .deliver(alloc, Side::Other, forward.as_slice(), &mut self.out)?;
            keep_replies(alloc, &self.out, &mut self.to_head, &mut self.tally)?;
        }
        for got in self.to_head.iter() {
            self.head
                .deliver(alloc, Side::Other, got.as_slice(), &mut self.out)?;
        }
        self.to_tail.clear();
        self.to_head.clear();
        Ok(())
    }
}

/// Keeps what the head forwards, and counts it.
fn keep_forwards(
    alloc: Global,
    out: &TwinOut,
    to_tail: &mut Vec<Vec<u8>>,
    tally: &mut Tally,
) -> Result<(), NoMemory> {
    for i in 0..out.len() {
        to_tail.push(out.bytes(i).to_vec(alloc)?)?;
        tally.forwards = tally.forwards.wrapping_add(1);
    }
    Ok(())
}

/// Keeps what the tail confirms, and counts what it answers.
fn keep_replies(
    alloc: Global,
    out: &TwinOut,
    to_head: &mut Vec<Vec<u8>>,
    tally: &mut Tally,
) -> Result<(), NoMemory> {
    for i in 0..out.len() {
        match out.to(i) {
            Side::Server => tally.answers = tally.answers.wrapping_add(1),
            Side::Other => to_head.push(out.bytes(i).to_vec(alloc)?)?,
        }
    }
    Ok(())
}

/// Gives a pair the messages.
fn to_pair(alloc: Global, grammar: Grammar, count: u32, burst: u32) -> Result<Tally, NoMemory>
    requires { count ≤ 100000 }
{
    let mut pair = Pair::new(alloc, grammar, count)?;
    pair.take_all(alloc, count, burst)
}
