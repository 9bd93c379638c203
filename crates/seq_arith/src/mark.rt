//! The kinds of messages about marks, and why a string of bytes is none.

/// Why a string of bytes is no message about marks: the first test of their grammar that it fails, in this order.
#[derive(Clone, Copy, Debug, PartialEq, Eq)]
pub enum BadMark {
    /// There are fewer than 16 bytes.
    Short,
    /// The first two bytes aren't the magic.
    Magic,
    /// The version isn't 1.
    Version,
    /// The kind isn't 1 to 4.
    Kind,
    /// The length isn't the count of bytes, or isn't one of the kind's.
    Length,
    /// The message doesn't sum to its checksum.
    Sum,
    /// A field is outside its range.
    Field,
}

/// The kinds of messages about marks, each with its number on the wire.
#[derive(Clone, Copy)]
pub enum MarkKind {
    /// A service's state to be logged.
    Mark = 1,
    /// Up to which read a state is logged, as an answer to a mark.
    Marked = 2,
    /// Asks for the logged state.
    Ask = 3,
    /// The logged state.
    Held = 4,
}
