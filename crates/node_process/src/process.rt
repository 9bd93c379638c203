//! What a process is given.

use disk::Desk;
use ft_io::{Link, Sink, Source, Spawner};

/// What a process is given: its network, its streams, its children, and its journal.
#[derive(Drop)]
pub struct Process<L: Link, I: Source, O: Sink, E: Sink, P: Spawner, K: Desk> {
    /// The network of every role but a logger with a journal.
    pub link: L,
    /// Standard input: the bytes that a client sends, if its words give no script.
    pub input: I,
    /// Standard output.
    pub out: O,
    /// Standard error: why a role ended early.
    pub err: E,
    /// The children of a pair.
    pub children: P,
    /// The network and the file of a logger with a journal.
    pub desk: K,
}
