//! The states of a connection (RFC 9293, 3.3.2) and their transitions.

ghost use Rattle.std.specs.Prelude.{◌≡◌};
ghost use Rattle.tcp_endpoint.specs.States.{after_close, after_syn_acked, after_fin_acked, after_fin, is_closed, is_listen, is_syn_sent};
ghost use Rattle.tcp_endpoint.specs.States.{is_time_wait, has_begun};

/// The eleven states of RFC 9293.
#[derive(Clone, Copy, Debug, PartialEq, Eq)]
pub enum StateName {
    Closed,
    Listen,
    SynSent,
    SynReceived,
    Established,
    FinWait1,
    FinWait2,
    CloseWait,
    Closing,
    LastAck,
    TimeWait,
}

/// An endpoint's state, as `Endpoint::state` reports it.
#[derive(Clone, Copy)]
pub struct State {
    /// The state's name (RFC 9293, 3.3.2).
    pub name: StateName,
    /// Whether the peer has reset the connection.
    pub reset: bool,
}

impl StateName {
    /// The state once the user has closed (RFC 9293, 3.10.4).
    pub(crate) fn after_close(self) -> StateName
        ensures { result ≡ after_close self }
    {
        match self {
            StateName::Listen | StateName::SynSent => StateName::Closed,
            StateName::Established => StateName::FinWait1,
            StateName::CloseWait => StateName::LastAck,
            name => name,
        }
    }

    /// The state once our SYN is acknowledged. The user may have closed before that.
    pub(crate) fn after_syn_acked(closed: bool) -> StateName
        ensures { result ≡ after_syn_acked closed }
    {
        if closed {
            StateName::FinWait1
        } else {
            StateName::Established
        }
    }

    /// The state once our FIN is acknowledged (RFC 9293, 3.10.7.4, fifth check).
    pub(crate) fn after_fin_acked(self) -> StateName
        ensures { result ≡ after_fin_acked self }
    {
        match self {
            StateName::FinWait1 => StateName::FinWait2,
            StateName::Closing => StateName::TimeWait,
            StateName::LastAck => StateName::Closed,
            name => name,
        }
    }

    /// The state once the peer's FIN is taken (RFC 9293, 3.10.7.4, eighth check).
    pub(crate) fn after_fin(self) -> StateName
        ensures { result ≡ after_fin self }
    {
        match self {
            StateName::Established => StateName::CloseWait,
            StateName::FinWait1 => StateName::Closing,
            StateName::FinWait2 => StateName::TimeWait,
            name => name,
        }
    }

    pub(crate) fn is_closed(self) -> bool
        ensures { result ≡ is_closed self }
    {
        matches!(self, StateName::Closed)
    }

    pub(crate) fn is_listen(self) -> bool
        ensures { result ≡ is_listen self }
    {
        matches!(self, StateName::Listen)
    }

    pub(crate) fn is_syn_sent(self) -> bool
        ensures { result ≡ is_syn_sent self }
    {
        matches!(self, StateName::SynSent)
    }

    pub(crate) fn is_time_wait(self) -> bool
        ensures { result ≡ is_time_wait self }
    {
        matches!(self, StateName::TimeWait)
    }

    /// Whether both initial sequence numbers are known: in SYN-RECEIVED and the synchronized states.
    pub(crate) fn has_begun(self) -> bool
        ensures { result ≡ has_begun self }
    {
        !matches!(
            self,
            StateName::Closed | StateName::Listen | StateName::SynSent
        )
    }
}
