//! A segment between the client and TCP.

ghost use Rattle.std.specs.Prelude.{◌≡◌, Ok, IsOk, IfOk, not};
ghost use Rattle.seq_arith.specs.Packet.{Segment, has_rst};
ghost use Rattle.seq_arith.specs.PacketGrammar.{reading, spelling};
ghost use Rattle.segment_codec.specs.Change.{changed};
ghost use Rattle.south_wrap.specs.Translation.{answer_in, passed_in, passed_out};

use crate::answers::Inward;
use crate::patching::{change_ack, change_seq, change_window};
use crate::south::South;
use segment_codec::read_accepted;
use seq_arith::{RST, has};

impl South {
    /// Changes a segment of the client into the one for TCP. SEG.ACK is lowered by delta. If SEG.ACK exceeds what is sent, and an earlier incarnation may have
    /// sent what is above, it is first lowered to what is sent, and SEG.WND raised equally, to at most 65,535. An acknowledgement of what was never sent stays
    /// above, and TCP refuses it. A repeated SYN stays unchanged, and gives `Repeat`.
    pub fn inward(&mut self, packet: &mut [u8]) -> Inward
        requires { IsOk (reading packet.old) }
        ensures answer { IfOk (reading packet.old) (λ segment. result ≡ answer_in self.old segment) }
        ensures state { self.new ≡ self.old }
        ensures read { reading packet.new ≡ changed (passed_in self.old) (reading packet.old) }
        ensures canonical { (segment : Segment) → reading packet.old ≡ Ok segment → packet.old ≡ spelling segment
            → packet.new ≡ spelling (passed_in self.old segment) }
    {
        let head = read_accepted(packet).head;
        if self.repeats_syn(&head) {
            return Inward::Repeat;
        }
        change_ack(packet, self.inner_ack(head.ack));
        change_window(packet, self.inner_window(head.ack, head.window));
        Inward::Pass
    }

    /// Changes a segment of TCP into the one for the client, and returns whether it is to be sent. A RST isn't, and stays unchanged. In every other segment
    /// SEG.SEQ is raised by delta, SEG.ACK acknowledges what is both taken and known to be logged, and SEG.WND is the window from there. It adds no timestamps:
    /// see `outward_with_timestamps`.
    pub fn outward(&mut self, packet: &mut [u8]) -> bool
        requires { IsOk (reading packet.old) }
        ensures answer { IfOk (reading packet.old) (λ segment. result ≡ not (has_rst segment)) }
        ensures state { self.new ≡ self.old }
        ensures read { reading packet.new ≡ changed (passed_out self.old) (reading packet.old) }
        ensures canonical { (segment : Segment) → reading packet.old ≡ Ok segment → packet.old ≡ spelling segment
            → packet.new ≡ spelling (passed_out self.old segment) }
    {
        let head = read_accepted(packet).head;
        if has(head.flags, RST) {
            return false;
        }
        let reported = self.ack_now();
        change_seq(packet, head.seq.add(self.delta()));
        change_ack(packet, reported.ack);
        change_window(packet, reported.window);
        true
    }
}
