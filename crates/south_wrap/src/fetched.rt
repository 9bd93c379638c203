//! What a restart has of a connection from the log, as its south wrapper needs it.

use seq_arith::Seq;

/// What a restart fetched of a connection.
#[derive(Clone, Copy)]
pub struct Fetched {
    /// The client's initial sequence number.
    pub cisn: Seq,
    /// The server's initial sequence number, as the client knows it.
    pub sisn: Seq,
    /// The client's bytes in the log.
    pub length: u32,
    /// Whether the client's FIN is in the log.
    pub fin: bool,
    /// The units of output that the logged reads make, all of which an earlier incarnation may have sent.
    pub output: u32,
    /// The units of output that the client had acknowledged.
    pub acked: u32,
}
