//! TCP packets over IPv4 as bytes: reading, writing, and changing one field in place (RFC 791, 3.1; RFC 9293, 3.1). What a string of bytes says, and which
//! refusal it gets, is defined by the packet grammar of `seq_arith`. Nothing here allocates.
#![tactic(auto)]

pub use accepted::read_accepted;
pub use header::{payload_start, write_header};
pub use reading::read_packet;
pub use seq_arith::{BadPacket, Head};
pub use setting::{set_ack, set_seq, set_window};
pub use writing::write_packet;

mod accepted;
mod excluded;
mod fields;
mod header;
mod reading;
mod setting;
mod summing;
mod writing;

/// A packet whose payload stays in the bytes that it was read from.
#[derive(Clone, Copy)]
pub struct PacketRef<'a> {
    /// The fields of both headers.
    pub head: Head,
    /// The text, borrowed from the packet's bytes.
    pub payload: &'a [u8],
}
