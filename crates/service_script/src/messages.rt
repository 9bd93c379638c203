//! Messages about marks that are read, and written again.

ghost use Rattle.std.specs.Prelude.{◌≤◌, ◌<◌};

use crate::count_and_seed;
use ft_io::{Key, NoMemory};
use limits::STREAM;
use logger_wire::{BadMark, MarkBody, MarkMsg, read_mark, write_mark};
use seq_arith::flip;
use std::alloc::Global;
use test_data::{Draws, Said, bytes_of_word, hashed, seal};

/// The address of each key.
const ADDRESS: u32 = 0xC000_0201;

/// Room for a message that is written.
const ROOM: usize = 2_048;

/// Reads the message of a line, and says what it says, and `again` if writing it gives the same bytes; or which test it fails.
pub(crate) fn mark_line(alloc: Global, text: &str, said: &mut Said) -> Result<(), NoMemory> {
    let Some(bytes) = bytes_of_word(alloc, text)? else {
        said.add(b"no such line");
        return Ok(());
    };
    match read_mark(bytes.as_slice()) {
        Ok(msg) => {
            print_mark(&msg, said);
            let mut room = [0; ROOM];
            let len = write_mark(&msg, &mut room);
            if &room[..len] == bytes.as_slice() {
                said.add(b" again");
            }
        }
        Err(bad) => write!(said, "{bad:?}"),
    }
    Ok(())
}

/// Says what a message says.
fn print_mark(msg: &MarkMsg<'_>, said: &mut Said) {
    let (kind, key) = match msg.body {
        MarkBody::Mark { key, .. } => ("Mark", key),
        MarkBody::Marked { key, .. } => ("Marked", key),
        MarkBody::Ask { key } => ("Ask", key),
        MarkBody::Held { key, .. } => ("Held", key),
    };
    let (boot, Key { ip, port }) = (msg.boot, key);
    write!(said, "{kind} boot {boot} ip {ip} port {port}");
    match msg.body {
        MarkBody::Mark { mark, .. } | MarkBody::Held { mark, .. } => {
            let (reads, length, made) = (mark.reads, mark.length, mark.made);
            write!(said, " reads {reads} length {length} made {made} state ");
            said.hex(mark.state);
        }
        MarkBody::Marked { reads, .. } => write!(said, " reads {reads}"),
        MarkBody::Ask { .. } => (),
    }
}

/// What came of many messages: how many fail each test, in the tests' order, and then how many are read.
#[derive(Clone, Copy)]
struct Tally {
    counts: [u32; 8],
    /// What follows from all that is written again.
    bytes: u32,
}

/// The names of a tally's counts.
const NAMES: [&str; 8] = [
    "short", "magic", "version", "kind", "length", "sum", "field", "read",
];

/// The place of a test's count.
fn place_of(bad: BadMark) -> usize
    ensures { result < 7 }
{
    match bad {
        BadMark::Short => 0,
        BadMark::Magic => 1,
        BadMark::Version => 2,
        BadMark::Kind => 3,
        BadMark::Length => 4,
        BadMark::Sum => 5,
        BadMark::Field => 6,
    }
}

/// Reads as many messages as a line asks for, drawn from its seed, writes again those that are one, and says what came of them.
pub(crate) fn random_line(alloc: Global, text: &str, said: &mut Said) -> Result<(), NoMemory> {
    let Some((count, seed)) = count_and_seed(text) else {
        said.add(b"no such line");
        return Ok(());
    };
    let mut fields = Said::new(alloc);
    let mut message = Vec::new(alloc);
    let mut room = [0; ROOM];
    let mut draws = Draws::new(seed);
    let mut tally = Tally {
        counts: [0; 8],
        bytes: 0,
    };
    for _message in 0..count {
        make_message(&mut draws, &mut fields);
        damage(&mut draws, &fields, &mut message)?;
        match read_mark(message.as_slice()) {
            Ok(msg) => {
                let len = write_mark(&msg, &mut room);
                tally.bytes = hashed(tally.bytes, &room[..len]);
                tally.counts[7] = tally.counts[7].wrapping_add(1);
            }
            Err(bad) => {
                let place = place_of(bad);
                tally.counts[place] = tally.counts[place].wrapping_add(1);
            }
        }
    }
    write!(said, "random {count}:");
    for place in 0..8 {
        let (name, count) = (NAMES[place], tally.counts[place]);
        write!(said, " {name} {count}");
    }
    write!(said, " bytes {}", tally.bytes);
    Ok(())
}

/// A number at or near the ends of a range that ends at `most`, or any below that.
fn any_number(draws: &mut Draws, most: u32) -> u32
    requires { most ≤ 16777217 }
{
    match draws.below(8) {
        0 => 0,
        1 => 1,
        2 => most,
        3 => most + 1,
        _ => draws.below(most + 1),
    }
}

/// Makes a message of any kind in place of what is there, without its length and checksum: the header, the boot number, the key, and the fields of the kind.
fn make_message(draws: &mut Draws, fields: &mut Said) {
    let kind = 1 + draws.below(4) as u8;
    fields.cut(0);
    fields.add(&[0x46, 0x56, 1, kind, 0, 0, 0, 0, 0, 0, 0, 0]);
    fields.add(&draws.below(8).to_be_bytes());
    fields.add(&ADDRESS.to_be_bytes());
    fields.add(&(40_000 + draws.below(3) as u16).to_be_bytes());
    if kind != 3 {
        fields.add(&any_number(draws, STREAM + 1).to_be_bytes());
    }
    if kind != 1 && kind != 4 {
        return;
    }
    fields.add(&any_number(draws, STREAM).to_be_bytes());
    fields.add(&any_number(draws, STREAM).to_be_bytes());
    // A state of few bytes, or of about as many as one may have.
    let len = if draws.below(8) == 0 {
        1_098 + draws.below(5)
    } else {
        draws.below(40)
    };
    let first = draws.below(256);
    for i in 0..len {
        fields.add(&[((first + i) % 256) as u8]);
    }
}

/// Makes a message of these fields, in place of what is there: its length and its checksum are put in their places. In five of eight cases it damages the
/// message: before that it changes a byte of the header, or cuts or lengthens the message; or after that it changes a bit or cuts it.
fn damage(draws: &mut Draws, fields: &Said, bytes: &mut Vec<u8>) -> Result<(), NoMemory> {
    bytes.clear();
    bytes.extend_from_slice(fields.bytes()?)?;
    let way = draws.below(8);
    let place = draws.below(16) as usize;
    let byte = draws.below(6) as u8;
    match way {
        0 if place < bytes.len() => bytes[place] = byte,
        1 => bytes.push(byte)?,
        2 => {
            bytes.pop();
        }
        _ => {}
    }
    seal(bytes.as_mut_slice());
    match way {
        3 => {
            let bits = 8 * bytes.len().min(4_096) as u32;
            if bits > 0 {
                let bit = draws.below(bits);
                flip(bytes.as_mut_slice(), bit as usize);
            }
        }
        4 => bytes.truncate(10 + place),
        _ => {}
    }
    Ok(())
}
