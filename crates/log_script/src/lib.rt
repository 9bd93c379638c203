//! A log, two that act as one, or one in a journal's file, which are given the datagrams of a script: it is said what they answer. The lines of a script:
//!
//! - `log` begins with an empty log, and `# ..` is printed as it is;
//! - `in HEX` gives a datagram; the answer is printed as `out HEX`, or `out -` where there is none;
//! - `state` prints the log's boot number and its count of entries, and `entry I` the entry at place I;
//! - `byte I AT` and `length I AT` print the byte and the length at place AT of the entry at place I;
//! - `trim I READS` trims the entry at place I by its first READS reads, and prints how many bytes these took; `kept I` prints how many bytes are kept;
//! - `marks` begins with an empty log with marks, next to the other one; `give HEX` gives it bytes, `mark BOOT IP PORT READS LENGTH MADE STATE` a mark
//!   with a state in hexadecimal, and `ask BOOT IP PORT` a question for a mark; the answer is printed as `out HEX`, or `out -` where there is none;
//!   `kept marked I` prints how many bytes it keeps of the entry at place I;
//! - `random COUNT SEED` gives COUNT datagrams that are drawn from SEED, and prints how many of them were refused, answered and passed over, and a
//!   number that follows from all answers.
//!
//! Of two loggers, where a PART is `head` or `tail`:
//!
//! - `pair` begins with a new head and a new tail, and `pair wide` with two of a server whose messages are wide;
//! - `PART server HEX` and `PART other HEX` give a datagram that came from that side, and `PART sent N` gives what the other part sent as its Nth datagram,
//!   counted from 1. What is sent is printed after the part, in order, each datagram as `server HEX` or `other HEX`; `-` if nothing is sent;
//! - `PART log` prints the part's number, and its log's boot number and count of entries;
//! - `stop 1` stops the head and `stop 2` the tail, and the other is informed, unless one has stopped before;
//! - `lists COUNT LENGTH SEED` plays COUNT lists of LENGTH deliveries that are drawn from SEED, each with a new pair, and prints how many datagrams were sent
//!   to the server and to the other, the sum of all numbers at the ends, and a number that depends on all bytes; `lists wide COUNT LENGTH SEED` with wide
//!   messages.
//!
//! Of a log that is kept in a journal's file, which is in memory; each of these lines begins with the word `journal`:
//!
//! - `file HEX` sets the file's bytes, and `more COUNT BYTE` appends COUNT bytes of this number;
//! - `fail READ CALL` makes the READth read fail of each file that is opened from then on, and the CALLth call that changes it; 0 for none;
//! - `open` opens the journal in the file; `cuts` opens each prefix of the file, and `flips` the file with each of its bits changed in turn. The result of an
//!   opening is the log's boot number, its count of entries and the place of the closed gate, or why it wasn't opened, and the calls on the file;
//! - `in HEX` gives a datagram, and prints the answer; `long COUNT` gives at most COUNT Data messages of 1,460 bytes each, until the round is full;
//! - `commit` commits the round, and prints the calls on the file; `compact MADE` does that too, and then puts a new file in the place of the old one, of a
//!   journal that is made at MADE, in nanoseconds since 1970; `state` prints the same of the log as an opening; `entry I` the entry at place I;
//! - `death CALLS KEPT PUT` sets the file's bytes to what a death after CALLS calls leaves, with KEPT bytes of an append that no sync followed, and with a byte
//!   that was put, and the name that a new file has taken, if PUT is 1.
#![tactic(auto)]

use ft_io::NoMemory;
use kept::Bench;
use logger_store::{MsgOut, TrimStore};
use logger_wire::{Grammar, read_msg};
use mark_store::MarkStore;
use marking::{ask_line, deliver_bytes, kept_marked, mark_line};
use random::deliver_random;
use readers::{byte_at, entry_at, kept_at, length_at, trim_at};
use std::alloc::Global;
use test_data::{Said, bytes_of_hex};
use twin_log::TwinOut;
use twins::{Pair, play_pair};

mod kept;
mod marking;
mod random;
mod readers;
mod twins;

/// What became of a datagram.
#[derive(Clone, Copy, Debug, PartialEq, Eq)]
enum Given {
    /// It is no message.
    Refused,
    Answered,
    /// It is a message without an answer.
    Silent,
}

/// Gives the log a datagram.
fn deliver(
    alloc: Global,
    log: &mut TrimStore,
    datagram: &[u8],
    out: &mut MsgOut,
) -> Result<Given, NoMemory> {
    let Ok(message) = read_msg(datagram) else {
        return Ok(Given::Refused);
    };
    log.answer(alloc, &message, out)?;
    Ok(if out.bytes().is_empty() {
        Given::Silent
    } else {
        Given::Answered
    })
}

/// Says an answer as a line: `out HEX`, or `out -` without one.
fn write_answer(answer: &[u8], said: &mut Said) {
    said.add(b"out ");
    said.hex(answer);
}

/// The logs of a script: one that is trimmed by lines, one with marks, a pair, with what it has sent, and one in a journal's file.
#[derive(Drop)]
struct Logs {
    trimmed: TrimStore,
    marked: MarkStore,
    pair: Pair,
    sent: TwinOut,
    bench: Bench,
}

impl Logs {
    fn new(alloc: Global) -> Result<Logs, NoMemory> {
        let sent = TwinOut::new(alloc)?;
        let pair = Pair::new(alloc, Grammar::Plain)?;
        Ok(Logs {
            trimmed: TrimStore::new(alloc),
            marked: MarkStore::new(alloc),
            pair,
            sent,
            bench: Bench::new(alloc),
        })
    }
}

/// Plays a line of the log that is trimmed, and says what it prints.
fn play_trimmed(
    alloc: Global,
    log: &mut TrimStore,
    word: &str,
    rest: &str,
    said: &mut Said,
) -> Result<(), NoMemory> {
    match word {
        "log" => {
            *log = TrimStore::new(alloc);
            said.add(b"log");
        }
        "in" => match bytes_of_hex(alloc, rest)? {
            Some(datagram) => {
                let mut out = MsgOut::new();
                deliver(alloc, log, datagram.as_slice(), &mut out)?;
                write_answer(out.bytes(), said);
            }
            None => said.add(b"no datagram"),
        },
        "random" => deliver_random(alloc, log, rest, said)?,
        "trim" => trim_at(log, rest, said),
        "state" => {
            let (boot, count) = (log.boot(), log.count());
            write!(said, "state boot {boot} count {count}");
        }
        "entry" => entry_at(log, rest, said),
        "byte" => byte_at(log, rest, said),
        "length" => length_at(log, rest, said),
        "kept" => kept_at(log, rest, said),
        _ => said.add(b"no such line"),
    }
    Ok(())
}

/// Plays a line, and says what it prints.
fn play(alloc: Global, logs: &mut Logs, line: &str, said: &mut Said) -> Result<(), NoMemory> {
    let (word, rest) = line.split_once(' ').unwrap_or((line, ""));
    let played = match word {
        "#" => {
            said.add(line.as_bytes());
            Ok(())
        }
        "marks" => {
            logs.marked = MarkStore::new(alloc);
            said.add(b"marks");
            Ok(())
        }
        "give" => deliver_bytes(alloc, &mut logs.marked, rest, said),
        "mark" => mark_line(alloc, &mut logs.marked, rest, said),
        "ask" => ask_line(alloc, &mut logs.marked, rest, said),
        "kept" if rest.starts_with("marked ") => {
            kept_marked(&logs.marked, rest, said);
            Ok(())
        }
        "pair" | "stop" | "lists" | "head" | "tail" => {
            play_pair(alloc, &mut logs.pair, word, rest, &mut logs.sent, said)
        }
        _ => play_trimmed(alloc, &mut logs.trimmed, word, rest, said),
    };
    said.end_line();
    played
}

/// Plays the lines of a script, and says what each prints. Where memory is refused, a line is played once more, since the logs are then as they were before. A
/// line on a journal's file isn't, since it may have changed the file.
fn play_lines(alloc: Global, text: &str, logs: &mut Logs, said: &mut Said) -> Result<(), NoMemory> {
    for line in text.lines() {
        let before = said.len();
        if let Some(line) = line.strip_prefix("journal ") {
            logs.bench.play(alloc, line, said)?;
        } else if play(alloc, logs, line, said).is_err() || said.bytes().is_err() {
            said.cut(before);
            play(alloc, logs, line, said)?;
        }
    }
    Ok(())
}

/// Plays the lines of a script, and says what each prints. The status, which is 0. Where memory is refused for the empty logs, they are made once more.
pub fn run(alloc: Global, text: &str, said: &mut Said) -> Result<u8, NoMemory> {
    let mut logs = match Logs::new(alloc) {
        Ok(logs) => logs,
        Err(NoMemory) => Logs::new(alloc)?,
    };
    play_lines(alloc, text, &mut logs, said)?;
    Ok(0)
}
