//! Lists of deliveries to two loggers that follow from a seed, with losses, repeats, reorderings, changed bits and stops.

ghost use Rattle.std.specs.Prelude.{◌<◌};

use crate::twins::messages::{ROOM, any_message};
use crate::twins::pair::Pair;
use ft_io::NoMemory;
use logger_wire::Grammar;
use seq_arith::flip;
use std::alloc::Global;
use test_data::{Draws, Said, hashed};
use twin_log::{Part, Side, TwinOut};

/// What came of many lists.
#[derive(Clone, Copy)]
struct Tally {
    /// Datagrams to the server.
    answers: u32,
    /// Datagrams to the other logger.
    others: u32,
    /// The sum of both loggers' numbers at the end of each list.
    numbers: u64,
    /// The hash of all datagrams.
    bytes: u32,
}

impl Tally {
    fn count(&mut self, out: &TwinOut) {
        for i in 0..out.len() {
            match out.to(i) {
                Side::Server => self.answers = self.answers.wrapping_add(1),
                Side::Other => self.others = self.others.wrapping_add(1),
            }
            self.bytes = hashed(self.bytes, out.bytes(i));
        }
    }
}

/// The place of what is delivered to a part of so many datagrams, from 0: mostly the next in order, now and then without the one before it, and
/// else any.
fn place_of(draws: &mut Draws, pair: &mut Pair, part: Part, count: u32) -> usize
    requires { 0 < count }
{
    if draws.below(4) == 0 {
        return draws.below(count) as usize;
    }
    let lost = (draws.below(8) / 7) as usize;
    pair.pass(part, lost, count as usize - 1)
}

/// Delivers to a part something that the other sent, with one bit changed where that is wanted.
fn deliver_some(
    alloc: Global,
    draws: &mut Draws,
    pair: &mut Pair,
    part: Part,
    changed: bool,
    out: &mut TwinOut,
) -> Result<(), NoMemory> {
    out.clear();
    let count = pair.sent_to(part).len().min(1_000_000) as u32;
    if count == 0 {
        return Ok(());
    }
    let place = place_of(draws, pair, part, count);
    let Some(sent) = pair.sent_to(part).get(place) else {
        return Ok(());
    };
    let mut bytes = sent.to_vec(alloc)?;
    let bits = 8 * bytes.len().min(2_048) as u32;
    if changed && bits > 0 {
        let bit = draws.below(bits);
        flip(&mut bytes, bit as usize);
    }
    pair.deliver(alloc, part, Side::Other, bytes.as_slice(), out)
}

/// One delivery.
fn deliver_one(
    alloc: Global,
    draws: &mut Draws,
    pair: &mut Pair,
    out: &mut TwinOut,
) -> Result<(), NoMemory> {
    let kind = draws.below(40);
    if kind == 0 && draws.below(4) == 0 {
        out.clear();
        pair.stop(if draws.below(2) == 0 {
            Part::Head
        } else {
            Part::Tail
        });
        return Ok(());
    }
    if kind < 8 {
        // A server's message is sent to the head mostly, and to the tail once the head has stopped.
        let part = if pair.stopped() == Some(Part::Head) || draws.below(16) == 0 {
            Part::Tail
        } else {
            Part::Head
        };
        let mut bytes = [0; ROOM];
        let len = any_message(draws, pair.grammar(), &mut bytes);
        return pair.deliver(alloc, part, Side::Server, &bytes[..len], out);
    }
    let part = if kind < 16 { Part::Head } else { Part::Tail };
    deliver_some(alloc, draws, pair, part, kind == 39, out)
}

/// Plays one list with this pair.
fn play_list(
    alloc: Global,
    len: u32,
    draws: &mut Draws,
    pair: &mut Pair,
    out: &mut TwinOut,
    tally: &mut Tally,
) -> Result<(), NoMemory> {
    for _delivery in 0..len {
        deliver_one(alloc, draws, pair, out)?;
        tally.count(out);
    }
    let (head, tail) = (pair.logger(Part::Head), pair.logger(Part::Tail));
    tally.numbers = tally
        .numbers
        .wrapping_add(head.number())
        .wrapping_add(tail.number());
    Ok(())
}

/// The grammar of a line's pairs, which is wide if it begins with that word, and the rest of the line.
fn read_grammar(text: &str) -> (Grammar, &str) {
    match text.strip_prefix("wide ") {
        Some(rest) => (Grammar::Wide, rest),
        None => (Grammar::Plain, text),
    }
}

/// The three numbers of a line.
fn numbers(text: &str) -> Option<(u32, u32, u64)> {
    let (count, rest) = text.split_once(' ')?;
    let (len, seed) = rest.split_once(' ')?;
    let (Ok(count), Ok(len), Ok(seed)) = (
        count.parse::<u32>(),
        len.parse::<u32>(),
        seed.parse::<u64>(),
    ) else {
        return None;
    };
    Some((count, len, seed))
}

/// Plays one list with a new pair.
fn play_new(
    alloc: Global,
    grammar: Grammar,
    len: u32,
    draws: &mut Draws,
    out: &mut TwinOut,
    tally: &mut Tally,
) -> Result<(), NoMemory> {
    let mut pair = Pair::new(alloc, grammar)?;
    play_list(alloc, len, draws, &mut pair, out, tally)
}

/// Plays as many lists as a line asks for, each with a new pair, and says what that prints.
pub(crate) fn play_random(
    alloc: Global,
    text: &str,
    out: &mut TwinOut,
    said: &mut Said,
) -> Result<(), NoMemory> {
    let (grammar, text) = read_grammar(text);
    let Some((count, len, seed)) = numbers(text) else {
        said.add(b"no such line");
        return Ok(());
    };
    let mut draws = Draws::new(seed);
    let mut tally = Tally {
        answers: 0,
        others: 0,
        numbers: 0,
        bytes: 0,
    };
    for _list in 0..count {
        play_new(alloc, grammar, len, &mut draws, out, &mut tally)?;
    }
    let Tally {
        answers,
        others,
        numbers,
        bytes,
    } = tally;
    write!(
        said,
        "lists {count}: answers {answers} others {others} numbers {numbers} bytes {bytes}"
    );
    Ok(())
}
