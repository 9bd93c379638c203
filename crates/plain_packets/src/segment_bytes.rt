//! A segment as its bytes.

ghost use Rattle.limits.specs.Limits.{longest_packet};
ghost use Rattle.std.specs.Prelude.{◌≡◌, ◌≤◌, IfOk, IsTrue, ◌↔◌};
ghost use Rattle.seq_arith.specs.PacketGrammar.{packet_length, spelling};
ghost use Rattle.segment_codec.specs.Value.{segment_of};

use ft_io::NoMemory;
use limits::PACKET;
use segment_codec::{PacketRef, payload_start, write_header};
use std::alloc::Global;

/// Returns whether a segment fits a packet.
pub(crate) fn fits_packet(segment: &PacketRef<'_>) -> bool
    ensures { IsTrue result ↔ (packet_length (segment_of segment.now) ≤ longest_packet) }
{
    payload_start(&segment.head) + segment.payload.len() <= PACKET
}

/// Returns the bytes of a segment that fits a packet.
pub(crate) fn segment_bytes(alloc: Global, segment: &PacketRef<'_>) -> Result<Vec<u8>, NoMemory>
    requires { packet_length (segment_of segment.now) ≤ longest_packet }
    ensures { IfOk result (λ bytes. bytes.items ≡ spelling (segment_of segment.now)) }
{
    let start = payload_start(&segment.head);
    let mut bytes = Vec::with_capacity(alloc, start + segment.payload.len())?;
    bytes.resize(start, 0)?;
    bytes.extend_from_slice(segment.payload)?;
    write_header(&segment.head, &mut bytes);
    Ok(bytes)
}
