//! The timestamps of the segments between the client and TCP, which knows nothing of them (RFC 7323).

ghost use Rattle.limits.specs.Limits.{largest_segment, longest_packet};
ghost use Rattle.std.specs.Prelude.{◌≡◌, ◌≤◌, ◌^◌, ℕ, List, Ok, IsOk, IfOk, IfSome, is_some, not, length, take};
ghost use Rattle.std.specs.Option.{option_or};
ghost use Rattle.tcp_rules.specs.Timestamping.{timestamps_sent};
ghost use Rattle.seq_arith.specs.Offset.{length_of};
ghost use Rattle.seq_arith.specs.Packet.{Segment, has_rst};
ghost use Rattle.seq_arith.specs.PacketGrammar.{packet_length, reading, spelling};
ghost use Rattle.segment_codec.specs.Value.{said, segment_of};
ghost use Rattle.south_wrap.specs.Translation.{is_timely, outward, with_value_of};

use crate::south::South;
use segment_codec::{Head, PacketRef, read_accepted, write_packet};
use seq_arith::{FIN, RST, SYN, Timestamps, has};
use tcp_rules::is_acceptable_or_at_edge;

impl South {
    /// Notes the timestamps of a client's segment, before TCP takes it: the value of one that is acceptable and begins at or before the last acknowledgement
    /// sent is echoed from then on (RFC 7323, 4.3).
    pub fn note_timestamps(&mut self, packet: &[u8])
        requires { IsOk (reading packet.now) }
        ensures { IfOk (reading packet.now) (λ segment. self.new ≡ with_value_of segment self.old) }
    {
        let segment = read_accepted(packet);
        let timely = self.is_timely(&segment);
        self.echo(timely, segment.head.timestamps);
    }

    /// Whether the segment's value counts.
    fn is_timely(&self, segment: &PacketRef<'_>) -> bool
        requires { length segment.now.payload.now ≤ largest_segment }
        ensures { result ≡ is_timely self.now (segment_of segment.now) }
    {
        let first = self.offset_of(segment.head.seq);
        let accepts = is_acceptable_or_at_edge(
            self.taken_units(),
            self.room(),
            first,
            length_of(segment),
        );
        accepts && !has(segment.head.flags, RST) && first <= i64::from(self.acknowledged())
    }

    /// Writes TCP's segment as the one for the client into `out`, and returns its length in bytes. A RST isn't written. It does the same as `outward`, and adds
    /// the timestamps, so that the segment may be longer than TCP's.
    pub fn outward_with_timestamps(&self, packet: &[u8], out: &mut [u8]) -> Option<usize>
        requires accepted { IsOk (reading packet.now) }
        requires room { longest_packet ≤ length out.old }
        requires fits { IfOk (reading packet.now) (λ segment. packet_length (outward self.now segment) ≤ longest_packet) }
        ensures answer { IfOk (reading packet.now) (λ segment. is_some result ≡ not (has_rst segment)) }
        ensures most { IfSome result (λ len. len ≤ longest_packet) }
        ensures canonical { IfSome result (λ len. (segment : Segment) → reading packet.now ≡ Ok segment
            → take len out.new ≡ spelling (outward self.now segment)) }
        ensures read { IfSome result (λ len. (segment : Segment) → reading packet.now ≡ Ok segment
            → reading (take len out.new) ≡ Ok (outward self.now segment)) }
    {
        let segment = read_accepted(packet);
        if has(segment.head.flags, RST) {
            return None;
        }
        Some(self.write_outward(&segment, out))
    }

    /// Writes a segment of TCP, which is no RST, as the one for the client.
    fn write_outward(&self, segment: &PacketRef<'_>, out: &mut [u8]) -> usize
        requires room { longest_packet ≤ length out.old }
        requires fits { packet_length (outward self.now (segment_of segment.now)) ≤ longest_packet }
        ensures most { result ≤ longest_packet }
        ensures canonical { take result out.new ≡ spelling (outward self.now (segment_of segment.now)) }
        ensures read { reading (take result out.new) ≡ Ok (outward self.now (segment_of segment.now)) }
    {
        write_packet(&self.outward_head(&segment.head), segment.payload, out)
    }

    /// The header for the client of a segment of TCP.
    fn outward_head(&self, head: &Head) -> Head
        ensures { (payload : List ℕ) → record { head = said result; payload = payload }
            ≡ outward self.now (record { head = said head.now; payload = payload }) }
    {
        let reported = self.ack_now();
        Head {
            seq: head.seq.add(self.delta()),
            ack: reported.ack,
            window: reported.window,
            timestamps: self.carried(head.timestamps),
            ..*head
        }
    }

    /// The timestamps that the law has a segment carry, or else its own.
    fn carried(&self, own: Option<Timestamps>) -> Option<Timestamps>
        ensures { result ≡ option_or (timestamps_sent self.now.timestamping) own }
    {
        match self.timestamping().sent() {
            Some(timestamps) => Some(timestamps),
            None => own,
        }
    }
}

/// SEG.LEN: the text and the FIN, or only the SYN; 0 for a RST.
fn length_of(segment: &PacketRef<'_>) -> u32
    requires { length segment.now.payload.now ≤ largest_segment }
    ensures value { result ≡ length_of (segment_of segment.now) }
    ensures most { result ≤ 2 ^ 16 }
{
    if has(segment.head.flags, RST) {
        return 0;
    }
    if has(segment.head.flags, SYN) {
        return 1;
    }
    segment.payload.len() as u32 + u32::from(has(segment.head.flags, FIN))
}
