//! What must hold of a client whatever arrives.

use peer_client::Phase;
use test_data::Pattern;

/// A rule that a hostile datagram broke.
#[derive(Clone, Copy, Debug)]
pub(crate) enum Rule {
    /// Bytes that are no packet change nothing.
    Silence,
    /// What was accepted stays, and what is accepted is what a datagram carried at that place.
    Text,
    /// No more is accepted than was advertised.
    Window,
    /// What was sent stays sent, and no more is acknowledged.
    Numbers,
    /// A client that has ended or was reset stays so, and so does an outcome.
    End,
    /// Each segment that leaves is a packet from the client to the server.
    Packet,
    /// It acknowledges no more than was sent, and sends nothing beyond its script.
    Script,
}

/// A rule is kept, or this one is broken.
pub(crate) type Kept = Result<(), Rule>;

/// The server's stream.
pub(crate) const SERVERS: Pattern = Pattern::Letters;

/// A phase that follows another where a packet comes.
pub(crate) fn may_follow(before: Phase, after: Phase) -> bool {
    match before {
        Phase::New | Phase::Reset => after == before,
        Phase::Opening => after != Phase::New && after != Phase::Ended,
        Phase::Established => after != Phase::New && after != Phase::Opening,
        Phase::Ended => after == Phase::Ended || after == Phase::Reset,
    }
}
