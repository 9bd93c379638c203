//! How far a connection has come.

/// How far a connection has come.
#[derive(Clone, Copy, Debug, PartialEq, Eq)]
pub enum ConnStage {
    /// Until the first Done is sent.
    Live,
    /// From then on until the logger answers it.
    Ending,
    /// From that answer on.
    Done,
}

/// What a turn remembers of the connection before it.
#[derive(Clone, Copy)]
pub(crate) struct Before {
    /// The client's bytes that were taken.
    pub taken: u32,
    /// Whether the client's FIN was taken.
    pub fin: bool,
    /// The units of output that the client had acknowledged.
    pub una: u32,
    /// The right edge that TCP had advertised, as an offset.
    pub edge: u32,
    /// Whether an ACK is pending for a reason that TCP doesn't know.
    pub asks: bool,
    /// Whether the segment makes an ACK pending by TCP's rules.
    pub needs_ack: bool,
    /// Whether a segment has arrived.
    pub segment: bool,
    /// The client's units that could be acknowledged.
    pub acknowledgeable: u32,
}
