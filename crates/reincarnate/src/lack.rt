//! What is missing of an entry.

/// What is asked for next of an entry.
#[derive(Clone, Copy, PartialEq, Eq)]
pub(crate) enum Lack {
    /// Bytes of its stream.
    Bytes,
    /// Lengths of its reads.
    Lengths,
    /// Nothing is missing, or nothing is wanted, since the connection has ended.
    Nothing,
}
