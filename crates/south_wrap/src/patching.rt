//! A complete packet with one field of its headers changed in place.

ghost use Rattle.std.specs.Prelude.{◌≡◌, IsOk};
ghost use Rattle.seq_arith.specs.Packet.{Segment, with_seq, with_ack, with_window};
ghost use Rattle.seq_arith.specs.PacketGrammar.{reading, spelling};
ghost use Rattle.segment_codec.specs.Change.{changed};

use segment_codec::{set_ack, set_seq, set_window};
use seq_arith::Seq;

/// The bytes of a packet that hold its fields and its checksum.
const HEAD: usize = 40;

pub(crate) fn change_seq(packet: &mut [u8], seq: Seq)
    requires { IsOk (reading packet.old) }
    ensures read { reading packet.new ≡ changed (with_seq seq.0) (reading packet.old) }
    ensures accepted { IsOk (reading packet.new) }
    ensures canonical { (segment : Segment) → packet.old ≡ spelling segment → packet.new ≡ spelling (with_seq seq.0 segment) }
{
    set_seq(&mut packet[..HEAD], seq);
}

pub(crate) fn change_ack(packet: &mut [u8], ack: Seq)
    requires { IsOk (reading packet.old) }
    ensures read { reading packet.new ≡ changed (with_ack ack.0) (reading packet.old) }
    ensures accepted { IsOk (reading packet.new) }
    ensures canonical { (segment : Segment) → packet.old ≡ spelling segment → packet.new ≡ spelling (with_ack ack.0 segment) }
{
    set_ack(&mut packet[..HEAD], ack);
}

pub(crate) fn change_window(packet: &mut [u8], window: u16)
    requires { IsOk (reading packet.old) }
    ensures read { reading packet.new ≡ changed (with_window window) (reading packet.old) }
    ensures accepted { IsOk (reading packet.new) }
    ensures canonical { (segment : Segment) → packet.old ≡ spelling segment → packet.new ≡ spelling (with_window window segment) }
{
    set_window(&mut packet[..HEAD], window);
}
