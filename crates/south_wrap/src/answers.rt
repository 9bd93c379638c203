//! The wrapper's answers.

use seq_arith::Seq;

/// What becomes of a segment from the client.
#[derive(Clone, Copy, PartialEq, Eq)]
pub enum Inward {
    /// It is passed to TCP.
    Pass,
    /// It repeats the client's SYN: the SYN-ACK with the logged numbers answers it, and TCP doesn't see it.
    Repeat,
}

/// The part of a segment that is sent to the logger: text from `offset` of the client's stream on, which is `packet[from..to]`, and whether the client's FIN is
/// sent with it.
#[derive(Clone, Copy)]
pub struct CopyPart {
    /// Where the text begins in the client's stream, in bytes.
    pub offset: u32,
    /// Where it begins in the packet, in bytes.
    pub from: usize,
    /// Where it ends there.
    pub to: usize,
    /// Whether the client's FIN is sent with it.
    pub fin: bool,
}

/// SEG.ACK and SEG.WND of a segment to the client.
#[derive(Clone, Copy)]
pub struct AckOut {
    /// SEG.ACK: a sequence number of the client's stream.
    pub ack: Seq,
    /// SEG.WND: in bytes, from that number on.
    pub window: u16,
}
