//! Writing a packet from a head and a payload.

ghost use Rattle.limits.specs.Limits.{longest_packet};
ghost use Rattle.std.specs.Prelude.{◌≡◌, ◌≤◌, ◌++◌, length, take, drop, Ok};
ghost use Rattle.seq_arith.specs.PacketGrammar.{packet_length, reading, spelling};
ghost use Rattle.segment_codec.specs.Spelling.{segment_with};

use crate::Head;
use crate::fields::put_bytes;
use crate::header::{payload_start, write_header};

/// Writes a packet at the beginning of `out`, which has room for 1,500 bytes, and returns the packet's length in bytes, at most 1,500.
pub fn write_packet(head: &Head, payload: &[u8], out: &mut [u8]) -> usize
    requires room { longest_packet ≤ length out.old }
    requires fits { packet_length (segment_with head.now payload.now) ≤ longest_packet }
    ensures length { result ≡ packet_length (segment_with head.now payload.now) }
    ensures bytes { out.new ≡ spelling (segment_with head.now payload.now) ++ drop result out.old }
    ensures front { take result out.new ≡ spelling (segment_with head.now payload.now) }
    // What was written is read back.
    ensures read { reading (take result out.new) ≡ Ok (segment_with head.now payload.now) }
{
    let start = payload_start(head);
    let len = start + payload.len();
    put_bytes(out, start, payload);
    write_header(head, &mut out[..len]);
    len
}
