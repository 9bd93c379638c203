//! The lines that play a log with marks.

use crate::write_answer;
use ft_io::{Key, NoMemory};
use limits::STREAM;
use logger_store::MsgOut;
use logger_wire::{Mark, MarkBody, MarkMsg, write_mark};
use mark_store::MarkStore;
use std::alloc::Global;
use test_data::{Said, bytes_of_word};

/// The longest state, in bytes.
const STATE: usize = 1_100;

/// Gives bytes to the log, and writes what it answers, as a line.
fn answer_to(
    alloc: Global,
    log: &mut MarkStore,
    bytes: &[u8],
    said: &mut Said,
) -> Result<(), NoMemory> {
    let mut out = MsgOut::new();
    log.answer(alloc, bytes, &mut out)?;
    write_answer(out.bytes(), said);
    Ok(())
}

/// Gives the bytes of a line to the log.
pub(crate) fn deliver_bytes(
    alloc: Global,
    log: &mut MarkStore,
    text: &str,
    said: &mut Said,
) -> Result<(), NoMemory> {
    match bytes_of_word(alloc, text)? {
        Some(bytes) => answer_to(alloc, log, bytes.as_slice(), said),
        None => {
            said.add(b"no datagram");
            Ok(())
        }
    }
}

/// A mark's numbers, in a line's order.
#[derive(Clone, Copy)]
struct Numbers {
    boot: u64,
    key: Key,
    reads: u32,
    length: u32,
    made: u32,
}

/// The numbers of a line, where a message may say them.
fn numbers_of(words: &[&str]) -> Option<Numbers> {
    let [boot, ip, port, reads, length, made] = words else {
        return None;
    };
    let (boot, key) = key_of(boot, ip, port)?;
    let (Ok(reads), Ok(length), Ok(made)) = (
        reads.parse::<u32>(),
        length.parse::<u32>(),
        made.parse::<u32>(),
    ) else {
        return None;
    };
    Some(Numbers {
        boot,
        key,
        reads,
        length,
        made,
    })
}

/// A boot number and a key.
fn key_of(boot: &str, ip: &str, port: &str) -> Option<(u64, Key)> {
    let (Ok(boot), Ok(ip), Ok(port)) = (boot.parse::<u64>(), ip.parse::<u32>(), port.parse::<u16>())
    else {
        return None;
    };
    Some((boot, Key { ip, port }))
}

/// Gives a mark to the log.
#[tactic(auto, unfolding(seq_arith::specs::MarkGrammar::has_length, seq_arith::specs::MarkGrammar::is_sound))]
fn deliver_mark(
    alloc: Global,
    log: &mut MarkStore,
    numbers: &Numbers,
    state: &[u8],
    said: &mut Said,
) -> Result<(), NoMemory> {
    let Numbers {
        boot,
        key,
        reads,
        length,
        made,
    } = *numbers;
    if boot == 0
        || reads == 0
        || reads > STREAM + 1
        || length > STREAM
        || made > STREAM
        || state.len() > STATE
    {
        said.add(b"no such line");
        return Ok(());
    }
    let body = MarkBody::Mark {
        key,
        mark: Mark {
            reads,
            length,
            made,
            state,
        },
    };
    let mut bytes = [0; 2_048];
    let len = write_mark(&MarkMsg { boot, body }, &mut bytes);
    answer_to(alloc, log, &bytes[..len], said)
}

/// Gives the mark of a line to the log.
pub(crate) fn mark_line(
    alloc: Global,
    log: &mut MarkStore,
    text: &str,
    said: &mut Said,
) -> Result<(), NoMemory> {
    let words: Vec<&str> = text.split(' ').collect(alloc)?;
    if let [numbers @ .., state] = words.as_slice()
        && let Some(numbers) = numbers_of(numbers)
        && let Some(state) = bytes_of_word(alloc, state)?
    {
        return deliver_mark(alloc, log, &numbers, state.as_slice(), said);
    }
    said.add(b"no such line");
    Ok(())
}

/// The boot number and the key of a line.
fn asked(text: &str) -> Option<(u64, Key)> {
    let (boot, rest) = text.split_once(' ')?;
    let (ip, port) = rest.split_once(' ')?;
    key_of(boot, ip, port)
}

/// Asks the log for the mark of a line's key.
#[tactic(auto, unfolding(seq_arith::specs::MarkGrammar::has_length, seq_arith::specs::MarkGrammar::is_sound))]
pub(crate) fn ask_line(
    alloc: Global,
    log: &mut MarkStore,
    text: &str,
    said: &mut Said,
) -> Result<(), NoMemory> {
    let Some((boot, key)) = asked(text) else {
        said.add(b"no such line");
        return Ok(());
    };
    if boot == 0 {
        said.add(b"no such line");
        return Ok(());
    }
    let mut bytes = [0; 2_048];
    let message = MarkMsg {
        boot,
        body: MarkBody::Ask { key },
    };
    let len = write_mark(&message, &mut bytes);
    answer_to(alloc, log, &bytes[..len], said)
}

/// How many bytes of an entry are kept, as a line.
pub(crate) fn kept_marked(log: &MarkStore, text: &str, said: &mut Said) {
    let place = text.strip_prefix("marked ").unwrap_or(text);
    match place.parse::<u16>() {
        Ok(place) if place < log.count() => {
            let kept = log.kept(place);
            write!(said, "kept marked {place} is {kept}");
        }
        _ => said.add(b"no such entry"),
    }
}
