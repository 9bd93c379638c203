//! Messages of a server, and now and then one that only a logger sends, that follow from a seed.

ghost use Rattle.std.specs.Prelude.{◌≡◌, ◌<◌, ◌≤◌, length};

use logger_wire::Grammar;
use test_data::{Draws, seal};

/// Room for the longest message that is drawn.
pub(crate) const ROOM: usize = 64;

/// The kinds that are drawn, each as often as it is listed here.
const KINDS: [u8; 16] = [1, 1, 1, 9, 9, 9, 13, 13, 15, 5, 7, 16, 11, 11, 11, 11];

/// Bytes that are appended one number after another.
#[derive(Clone, Copy)]
struct Draft {
    bytes: [u8; ROOM],
    len: usize,
}

impl Draft {
    /// Appends a number in this many bytes, as far as there is room.
    fn put(&mut self, n: u32, width: u32)
        requires { width ≤ 4 }
    {
        for i in 0..width {
            if self.len < ROOM {
                let rest = n.checked_shr(8 * (width - 1 - i)).unwrap_or(0);
                self.bytes[self.len] = (rest % 256) as u8;
                self.len += 1;
            }
        }
    }
}

/// The header of a message of a kind and a boot number, without its length and checksum.
fn begin(grammar: Grammar, kind: u8, boot: u8) -> Draft {
    let mut bytes = [0; ROOM];
    bytes[0] = 0x46;
    bytes[1] = 0x54;
    bytes[2] = match grammar {
        Grammar::Plain => 1,
        Grammar::Wide => 2,
    };
    bytes[3] = kind;
    bytes[15] = boot;
    Draft { bytes, len: 16 }
}

/// Writes a message, determined by what is drawn, at the beginning of `bytes`, and returns its length.
pub(crate) fn any_message(draws: &mut Draws, grammar: Grammar, bytes: &mut [u8; ROOM]) -> usize
    ensures { result ≤ 64 }
{
    let kind = KINDS[draws.below(16) as usize];
    let port = 40_000 + draws.below(3);
    let draft = drawn(draws, grammar, kind, port);
    let message = draft.bytes;
    *bytes = message;
    let len = draft.len.min(ROOM);
    seal(&mut bytes[..len]);
    len
}

/// How a part of a stream ends: now and then with a FIN, and if it is wide also with the word that another of its turn follows.
fn ending(grammar: Grammar, drawn: u32) -> u32 {
    match (drawn, grammar) {
        (7, _) => 1,
        (6, Grammar::Wide) => 2,
        _ => 0,
    }
}

/// A message of a kind, of the connection with this port, without its length and checksum.
fn drawn(draws: &mut Draws, grammar: Grammar, kind: u8, port: u32) -> Draft {
    if kind == 1 {
        return begin(grammar, 1, 1 + (draws.below(8) / 7) as u8);
    }
    let mut draft = begin(grammar, kind, 1);
    draft.put(0xC000_0201, 4);
    draft.put(port, 2);
    match kind {
        // The numbers of a connection.
        9 => {
            draft.put(draws.below(256), 4);
            draft.put(draws.below(256), 4);
            draft.put(536, 2);
        }
        13 => {
            draft.put(draws.below(4), 4);
            draft.put(draws.below(8), 2);
        }
        5 => draft.put(draws.below(16), 4),
        7 => draft.put(draws.below(4), 4),
        // A part of a stream.
        11 => {
            draft.put(draws.below(16), 4);
            draft.put(draws.below(64), 4);
            draft.put(ending(grammar, draws.below(8)), 1);
            for _more in 0..draws.below(12) {
                draft.put(97 + draws.below(26), 1);
            }
        }
        _ => (),
    }
    draft
}
