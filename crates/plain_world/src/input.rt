//! The input of a turn.

use logger_wire::Msg;
use segment_codec::PacketRef;

/// One turn's input.
#[derive(Clone, Copy)]
pub enum Input<'a> {
    /// A segment from a client.
    Packet(PacketRef<'a>),
    /// A message from the logger.
    Message(Msg<'a>),
    /// Bytes that are neither.
    Noise,
    /// A tick.
    Tick,
}
