//! What happens to one live connection in a turn of the server.

ghost use Rattle.std.specs.Prelude.{◌≡◌};
ghost use Rattle.ft_model.specs.PendingAck.{is_segment};
ghost use Rattle.ft_model.specs.Timer.{is_tick};
ghost use Rattle.plain_connection.specs.News.{news_in};

use logger_wire::Kept;
use segment_codec::PacketRef;

/// What happens to one connection in a turn.
#[derive(Clone, Copy)]
pub enum News<'a> {
    /// A segment of its client.
    Segment(PacketRef<'a>),
    /// A Stable or a Reads of this boot: how much of the connection is logged.
    Logged(Kept),
    /// A tick.
    Tick,
    /// It becomes live in this turn, as a new connection or at the end of a restart.
    Begins,
}

impl News<'_> {
    /// Returns whether it is a segment.
    pub(crate) fn is_segment(&self) -> bool
        ensures { result ≡ is_segment (news_in self.now) }
    {
        match self {
            News::Segment(_) => true,
            News::Logged(_) | News::Tick | News::Begins => false,
        }
    }

    /// Returns whether it is a tick.
    pub(crate) fn is_tick(&self) -> bool
        ensures { result ≡ is_tick (news_in self.now) }
    {
        match self {
            News::Tick => true,
            News::Segment(_) | News::Logged(_) | News::Begins => false,
        }
    }
}
