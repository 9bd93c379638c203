//! The reads that a restart has replayed, as a connection's north wrapper needs them.

use server_trait::Service;

/// The logged reads of a connection that a restart has replayed: the service after them, and how far they came. All of them are answered.
#[derive(Drop)]
pub struct ReplayedReads<S: Service> {
    /// The service after these reads.
    pub service: S,
    /// The fetched bytes that aren't read.
    pub rest: Vec<u8>,
    /// The output that the client hasn't acknowledged.
    pub pending: Vec<u8>,
    /// How many reads there are.
    pub count: u32,
    /// The bytes of all reads.
    pub read: u32,
    /// How many bytes of output they made.
    pub made: u32,
    /// Whether one of them has length 0.
    pub ended: bool,
    /// Whether the service has closed.
    pub closed: bool,
}
