//! Two loggers that act as one, and the lines of a script on them.

use ft_io::NoMemory;
use logger_wire::Grammar;
pub(crate) use pair::Pair;
use random::play_random;
use std::alloc::Global;
use test_data::{Said, bytes_of_hex};
use twin_log::{Part, Side, TwinOut};

mod messages;
mod pair;
mod random;

/// Says what is sent, as a line after the part's name.
fn write_sent(name: &str, out: &TwinOut, said: &mut Said) {
    said.add(name.as_bytes());
    if out.len() == 0 {
        said.add(b" -");
    }
    for i in 0..out.len() {
        said.add(match out.to(i) {
            Side::Server => b" server ",
            Side::Other => b" other ",
        });
        said.digits(out.bytes(i));
    }
}

/// Delivers what a line that begins with a part's name says. Returns whether it is a line that delivers.
fn deliver_line(
    alloc: Global,
    pair: &mut Pair,
    part: Part,
    rest: &str,
    out: &mut TwinOut,
) -> Result<bool, NoMemory> {
    let (word, text) = rest.split_once(' ').unwrap_or((rest, ""));
    let from = match word {
        "server" => Side::Server,
        "other" => Side::Other,
        "sent" => {
            let Ok(place) = text.parse::<u32>() else {
                return Ok(false);
            };
            pair.deliver_sent(alloc, part, place as usize, out)?;
            return Ok(true);
        }
        _ => return Ok(false),
    };
    let Some(datagram) = bytes_of_hex(alloc, text)? else {
        return Ok(false);
    };
    pair.deliver(alloc, part, from, datagram.as_slice(), out)?;
    Ok(true)
}

/// Plays a line on a pair, and says what it prints.
pub(crate) fn play_pair(
    alloc: Global,
    pair: &mut Pair,
    word: &str,
    rest: &str,
    out: &mut TwinOut,
    said: &mut Said,
) -> Result<(), NoMemory> {
    let part = match word {
        "pair" => {
            // Where memory is refused the old ones stay.
            if rest == "wide" {
                *pair = Pair::new(alloc, Grammar::Wide)?;
                said.add(b"pair wide");
            } else {
                *pair = Pair::new(alloc, Grammar::Plain)?;
                said.add(b"pair");
            }
            return Ok(());
        }
        "stop" => {
            pair.stop(if rest == "1" { Part::Head } else { Part::Tail });
            write!(said, "stop {rest}");
            return Ok(());
        }
        "lists" => return play_random(alloc, rest, out, said),
        "head" => Part::Head,
        _ => Part::Tail,
    };
    if rest == "log" {
        let logger = pair.logger(part);
        let (number, boot, count) = (logger.number(), logger.log().boot(), logger.log().count());
        write!(said, "{word} log number {number} boot {boot} count {count}");
    } else if deliver_line(alloc, pair, part, rest, out)? {
        write_sent(word, out, said);
    } else {
        said.add(b"no such line");
    }
    Ok(())
}
