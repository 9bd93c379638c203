//! The fields of a packet's headers as a value, and the RSTs that answer a segment.

ghost use Rattle.std.specs.Prelude.{◌≡◌};
ghost use Rattle.seq_arith.specs.Value.{said};
ghost use Rattle.seq_arith.specs.Reset.{reset, reset_at_ack, reset_behind};

use crate::flags::{ACK, RST};
use crate::{Seq, Timestamps};
use ft_io::{Addr, Key};

/// The fields of the two headers that this project uses (RFC 791, 3.1; RFC 9293, 3.1). A packet is written with
/// no options but `mss` and `timestamps`, as far as they are there.
#[derive(Clone, Copy)]
pub struct Head {
    /// The source address, the first octet the highest.
    pub src: u32,
    /// The destination address.
    pub dst: u32,
    /// The source port.
    pub sport: u16,
    /// The destination port.
    pub dport: u16,
    /// SEG.SEQ: the number of the segment's first unit.
    pub seq: Seq,
    /// SEG.ACK. It counts only with the flag ACK.
    pub ack: Seq,
    /// The control bits, as `FIN` and the others name them.
    pub flags: u8,
    /// SEG.WND, in bytes, without scaling.
    pub window: u16,
    /// The maximum segment size option, in bytes, if there is one.
    pub mss: Option<u16>,
    /// The timestamps option, if there is one.
    pub timestamps: Option<Timestamps>,
}

impl Head {
    /// Makes the header of a RST to a peer, with window 0 and without options.
    pub fn reset(local: Addr, peer: Key, seq: Seq, ack: Seq, flags: u8) -> Head
        ensures { said result ≡ reset local peer seq.0 ack.0 flags }
    {
        Head {
            src: local.ip,
            dst: peer.ip,
            sport: local.port,
            dport: peer.port,
            seq,
            ack,
            flags,
            window: 0,
            mss: None,
            timestamps: None,
        }
    }

    /// Makes the RST at this segment's acknowledgement: SEQ=SEG.ACK, CTL=RST (RFC 9293, 3.10.7.1).
    pub fn reset_at_ack(&self, local: Addr) -> Head
        ensures { said result ≡ reset_at_ack local (said self.now) }
    {
        Head::reset(local, self.sender(), self.ack, Seq(0), RST)
    }

    /// Makes the RST that acknowledges this segment, whose length is `len`: SEQ=0, ACK=SEG.SEQ+SEG.LEN, CTL=RST,ACK (RFC 9293, 3.10.7.1).
    pub fn reset_behind(&self, local: Addr, len: u32) -> Head
        ensures { said result ≡ reset_behind local len (said self.now) }
    {
        let ack = self.seq.add(len);
        Head::reset(local, self.sender(), Seq(0), ack, RST | ACK)
    }

    /// Returns the address and port of the segment's sender.
    pub fn sender(&self) -> Key
        ensures { result ≡ record { ip = self.now.src; port = self.now.sport } }
    {
        Key {
            ip: self.src,
            port: self.sport,
        }
    }
}
