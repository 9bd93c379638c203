//! The control bits of a TCP header, each by its value in the octet that holds them (RFC 9293, 3.1; ECE and CWR: RFC 3168, 6.1).

ghost use Rattle.std.specs.Prelude.{◌≡◌, ◌<◌};
ghost use Rattle.seq_arith.specs.Packet.{has};

/// No more data from the sender.
pub const FIN: u8 = 1;

/// The number is an initial sequence number.
pub const SYN: u8 = 2;

/// The connection is reset.
pub const RST: u8 = 4;

/// What was received so far is to be passed to the user.
pub const PSH: u8 = 8;

/// The acknowledgement field counts.
pub const ACK: u8 = 16;

/// The urgent pointer counts.
pub const URG: u8 = 32;

/// Congestion was experienced on the way here.
pub const ECE: u8 = 64;

/// The congestion window was reduced.
pub const CWR: u8 = 128;

/// Returns whether an octet of control bits has `flag`, which is one of the eight above.
pub fn has(flags: u8, flag: u8) -> bool
    requires { 0 < flag }
    ensures { result ≡ has flags flag }
{
    flags / flag % 2 == 1
}
