//! The content of a message about marks.

use ft_io::Key;

/// A message about marks, with the boot number of the server that sends it or that it answers.
#[derive(Clone, Copy)]
pub struct MarkMsg<'a> {
    /// At least 1.
    pub boot: u64,
    /// Its kind, with its fields.
    pub body: MarkBody<'a>,
}

/// A service's state at a point of a connection, and what led to it.
#[derive(Clone, Copy)]
pub struct Mark<'a> {
    /// How many reads led to it, at most 2^24 + 1.
    pub reads: u32,
    /// How many bytes they took, at most 2^24.
    pub length: u32,
    /// How many bytes of output the service had written by then, at most 2^24.
    pub made: u32,
    /// The form of the state, at most 1,100 bytes, borrowed from the buffer that was read.
    pub state: &'a [u8],
}

/// The content of a message about marks.
#[derive(Clone, Copy)]
pub enum MarkBody<'a> {
    /// A mark to be logged, of at least one read.
    Mark { key: Key, mark: Mark<'a> },
    /// After how many reads the logged mark was made. It answers a mark.
    Marked { key: Key, reads: u32 },
    /// A request for the logged mark.
    Ask { key: Key },
    /// The logged mark. If there is none, its numbers are 0 and it has no state.
    Held { key: Key, mark: Mark<'a> },
}
