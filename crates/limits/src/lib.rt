//! The limits of FT-TCP, each with where it comes from. Code spells no limit: it takes it from here (`tools/limits.py` looks).
#![tactic(auto)]

/// The most bytes of a stream, of a client's input or of a server's output. Numbers are modulo 2^32, so each number means one offset of such a stream, with its
/// FIN and a window on either side.
pub const STREAM: u32 = 1 << 24;

/// The most units of a stream: its FIN counts as one, as it takes one sequence number (RFC 9293, 3.4).
pub const UNITS: u32 = STREAM + 1;

/// The most bytes that TCP buffers in each direction: the largest window, whose field has 16 bits (RFC 9293, 3.1), as no end offers to scale it (RFC 7323).
pub const BUFFER: u32 = 65_535;

/// The largest size of a packet in bytes: what an Ethernet frame holds (RFC 894).
pub const PACKET: usize = 1_500;

/// The largest segment size: a packet less the headers of IPv4 and TCP without options, 20 bytes each (RFC 9293, 3.7.1). It is offered in each SYN.
pub const SEGMENT: u16 = 1_460;

/// The most bytes of a segment's text.
pub const TEXT: usize = SEGMENT as usize;

/// The least segment size: an offer below it counts as this, so that a peer can't make a server send its output byte by byte.
pub const SHORTEST_SEGMENT: u16 = 64;

/// The most bytes of a message to or from the logger: a Data or a Part, 31 bytes and the text of the largest segment.
pub const MESSAGE: usize = 1_491;

/// The most entries of a log.
pub const ENTRIES: u16 = 64;

/// The last index of an entry.
pub const LAST_INDEX: u16 = ENTRIES - 1;

/// The most openings that a server has pending: as many as a log has entries.
pub const PENDING: usize = 64;

/// The most messages that the head of two loggers has forwarded and the tail hasn't confirmed.
pub const WAITING: usize = 64;
