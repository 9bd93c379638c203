//! The segments to the client: the laws Acknowledgement and Window, in the one header that all segments share.

ghost use Rattle.std.specs.Prelude.{◌≡◌, Some};
ghost use Rattle.seq_arith.specs.Value.{said};
ghost use Rattle.segment_codec.specs.Value.{segment_of};

use crate::point::PlainPoint;
use ft_io::Addr;
use limits::SEGMENT;
use plain_packets::number_of;
use segment_codec::{Head, PacketRef};
use seq_arith::{ACK, SYN, Seq};

impl PlainPoint {
    ghost use Rattle.ft_model.specs.Segments.{head_to, segment_at as segment_lem, syn_ack as syn_lem, bare_segment as bare_lem};

    /// Returns the header of a segment to the client. It acknowledges exactly what is both taken and known to be logged.
    fn head_to(&self, server: Addr, seq: u32, flags: u8, mss: Option<u16>) -> Head
        ensures { said result ≡ head_to server self.now seq flags mss }
    {
        Head {
            src: server.ip,
            dst: self.numbers.key.ip,
            sport: server.port,
            dport: self.numbers.key.port,
            seq: Seq(seq),
            ack: Seq(number_of(self.numbers.cisn, self.acknowledgement())),
            flags,
            window: self.window(),
            mss,
            timestamps: self.timestamping.sent(),
        }
    }

    /// Returns a segment at an offset of the output.
    pub fn segment_at<'a>(
        &self,
        server: Addr,
        offset: u64,
        flags: u8,
        payload: &'a [u8],
    ) -> PacketRef<'a>
        ensures { segment_of result ≡ segment_lem server self.now offset flags payload.now }
    {
        let seq = number_of(self.numbers.sisn, offset % (1 << 32));
        PacketRef {
            head: self.head_to(server, seq, flags, None),
            payload,
        }
    }

    /// Returns the SYN-ACK, with the logged numbers.
    pub fn syn_ack<'a>(&self, server: Addr) -> PacketRef<'a>
        ensures { segment_of result ≡ syn_lem server self.now }
    {
        PacketRef {
            head: self.head_to(server, self.numbers.sisn, SYN | ACK, Some(SEGMENT)),
            payload: &[],
        }
    }

    /// Returns the pure ACK, at SND.NXT.
    pub fn bare_segment<'a>(&self, server: Addr) -> PacketRef<'a>
        ensures { segment_of result ≡ bare_lem server self.now }
    {
        self.segment_at(server, self.sent, ACK, &[])
    }
}
