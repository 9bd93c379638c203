//! Reading and writing messages between server and logger as bytes; in `marks` the messages about marks, and in `twin` the datagrams between two loggers. The
//! grammars of `seq_arith` define what a string of bytes says, or with which error it is refused. Nothing here allocates.
#![tactic(auto)]

ghost use Rattle.std.specs.Prelude.{◌≡◌, ◌+◌, ◌*◌, ◌<◌, length, slice_index};
ghost use Rattle.seq_arith.specs.Message.{is_answer};
ghost use Rattle.seq_arith.specs.MessageGrammar.{lens_in};
ghost use Rattle.logger_wire.specs.Value.{body_of};

use byteorder::{BigEndian, ByteOrder};
use ft_io::Key;
pub use marks::{Mark, MarkBody, MarkMsg, read_mark, write_mark};
pub use reading::{checksum_of, read_msg, read_msg_by, read_wide_msg, word_at};
pub use records::{EntryHead, Kept, Numbers, Part};
pub use seq_arith::{BadMark, BadMsg, BadTwin, Grammar};
pub use twin::{TwinMsg, read_twin, read_twin_by, write_twin};
pub use writing::{checksum_of_both, put_msg, put_msg_by, write_msg, write_msg_by};

mod excluded;
mod fields;
mod layout;
mod marks;
mod places;
mod reading;
mod records;
mod twin;
mod writing;

/// A message, with the boot number of the server that sends it or that it answers.
#[derive(Clone, Copy)]
pub struct Msg<'a> {
    /// At least 1.
    pub boot: u64,
    /// Its kind, with its fields.
    pub body: Body<'a>,
}

/// The content of a message. It borrows the bytes of `Part` and `Data` and the lengths of `Lens` from the buffer that was read. An index of a log entry is at
/// most 63, and a count of entries at most 64. A count of reads is at most 2^24 + 1. The length of a read is at most 2,048 bytes. An offset plus the number of
/// its bytes is at most 2^24.
#[derive(Clone, Copy)]
pub enum Body<'a> {
    /// A server has started.
    Hello,
    /// How many entries the log has.
    Summary {
        count: u16,
    },
    /// Asks for the entry at this index.
    List {
        index: u16,
    },
    /// An entry without its bytes and lengths.
    Entry {
        index: u16,
        head: EntryHead,
    },
    /// Asks for logged bytes from this offset on.
    Bytes {
        key: Key,
        offset: u32,
    },
    /// Logged bytes, 1 to 1,024.
    Part {
        key: Key,
        offset: u32,
        bytes: &'a [u8],
    },
    /// Asks for logged lengths of reads, from this one on.
    Cuts {
        key: Key,
        first: u32,
    },
    /// Logged lengths of reads, 1 to 512 of two bytes each, which `len_at` reads.
    Lens {
        key: Key,
        first: u32,
        lens: &'a [u8],
    },
    /// Asks for an entry for a new connection.
    Open(Numbers),
    /// The connection has an entry, with these numbers.
    Opened(Numbers),
    /// Bytes to be logged, at most 1,460.
    Data(Part<'a>),
    /// How much is logged, as an answer to bytes.
    Stable(Kept),
    /// The length of a read to be logged.
    Read {
        key: Key,
        index: u32,
        length: u16,
    },
    /// How much is logged, as an answer to a read.
    Reads(Kept),
    /// A connection has ended.
    Done {
        key: Key,
    },
    /// Its end is logged.
    Ended {
        key: Key,
    },
    /// A server with this larger boot number has started.
    Stale {
        newer: u64,
    },
    /// There is no room for another connection.
    Full {
        key: Key,
    },
}

impl Body<'_> {
    /// Returns whether only the logger sends such a body.
    pub fn is_answer(&self) -> bool
        ensures { result ≡ is_answer (body_of self.now) }
    {
        match self {
            Body::Summary { .. }
            | Body::Entry { .. }
            | Body::Part { .. }
            | Body::Lens { .. }
            | Body::Opened(_)
            | Body::Stable(_)
            | Body::Reads(_)
            | Body::Ended { .. }
            | Body::Stale { .. }
            | Body::Full { .. } => true,
            _ => false,
        }
    }
}

/// Returns length `i`, counted from 0, of the lengths that a `Lens` borrows.
#[tactic(auto, using(std::proofs::lemmas::List::take_rest, crate::proofs::Lens::len_found))]
pub fn len_at(lens: &[u8], i: usize) -> u16
    requires { 2 * i + 1 < length lens.now }
    ensures { result ≡ slice_index (lens_in lens.now) i }
{
    BigEndian::read_u16(&lens[2 * i..])
}
