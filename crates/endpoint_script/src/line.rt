//! What one line says.

use crate::script::{Action, Counted, Deed, Hostile, Join, Joiner, Opening, Quantity};
use crate::words::{Why, Words};
use limits::STREAM;

/// What a line does or says, by its first word and the others. `ways` is how many parts of the script there are up to the last way.
pub(crate) fn action<'a>(keyword: &str, words: &mut Words<'a>, ways: usize) -> Action<'a> {
    match keyword {
        "listen" => Action::Open(opening(words, false)),
        "connect" => Action::Open(opening(words, true)),
        // `client isn N bytes N server isn N bytes N seed N turns N`, and `measuring`.
        "join" => Action::Join(Join {
            client: joiner(words, "client"),
            server: joiner(words, "server"),
            seed: u64::from(words.number_after("seed")),
            turns: words.number_after("turns"),
            measures: words.has("measuring"),
        }),
        // `COUNT seed N`.
        "hostile" => {
            let count = words.number();
            let seed = u64::from(words.number_after("seed"));
            if ways == 0 {
                words.refuse(Why::Way);
            }
            Action::Hostile(Hostile {
                count,
                seed,
                parts: ways,
            })
        }
        "tally" => Action::Tally(counted(words), words.number()),
        _ => Action::Deed(deed(keyword, words)),
    }
}

/// `LOCAL ISN`, or `LOCAL REMOTE ISN` for an active open, `limit N`, and `measuring`.
fn opening(words: &mut Words<'_>, is_active: bool) -> Opening {
    Opening {
        local: words.address(),
        remote: if is_active {
            Some(words.address())
        } else {
            None
        },
        isn: words.number(),
        limit: if words.has("limit") {
            words.number()
        } else {
            STREAM
        },
        measures: words.has("measuring"),
    }
}

/// `WHO isn N bytes N`.
fn joiner(words: &mut Words<'_>, who: &str) -> Joiner {
    words.key(who);
    Joiner {
        isn: words.number_after("isn"),
        bytes: words.short_after("bytes"),
    }
}

/// `WHAT` or `met STATE`.
fn counted(words: &mut Words<'_>) -> Counted {
    match words.word() {
        "met" => Counted::Met(words.state_name()),
        "handed" => Counted::Handed,
        "refused" => Counted::Refused,
        "resets" => Counted::Resets,
        "read" => Counted::Read,
        "acked" => Counted::Acked,
        _ => {
            words.refuse(Why::Word);
            Counted::Handed
        }
    }
}

/// What happens to an endpoint, or what must be seen of it.
fn deed<'a>(keyword: &str, words: &mut Words<'a>) -> Deed<'a> {
    match keyword {
        "in" => Deed::Comes(words.segment()),
        "out" => Deed::Leaves(words.segment()),
        "tick" => Deed::Tick,
        "flush" | "nothing" => Deed::EndTurn,
        "close" => Deed::Close,
        // `TEXT`, of which all is taken, or `TEXT takes N`.
        "write" => {
            let text = words.text();
            let taken = match words.short_if("takes") {
                Some(count) => usize::from(count),
                None => text.len(),
            };
            Deed::Write { text, taken }
        }
        "read" => read(None, words),
        "peek" => {
            let from = words.short();
            read(Some(from), words)
        }
        "segments" => Deed::Segments(words.short()),
        "state" => Deed::State(words.state()),
        "readable" => Deed::Shows(Quantity::Readable, u32::from(words.short())),
        "room" => Deed::Shows(Quantity::Room, u32::from(words.short())),
        "ended" => Deed::Shows(Quantity::Ended, u32::from(words.answer())),
        "sent" => Deed::Shows(Quantity::Sent, words.number()),
        "acked" => Deed::Shows(Quantity::Acked, words.number()),
        _ => {
            words.refuse(Why::Word);
            Deed::Tick
        }
    }
}

/// `ROOM TEXT`.
fn read<'a>(from: Option<u16>, words: &mut Words<'a>) -> Deed<'a> {
    let room = words.short();
    let text = words.text();
    Deed::Read { from, room, text }
}
