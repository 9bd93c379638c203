//! What a turn compares with the connection before it, and what its news requires.

ghost use Rattle.std.specs.Prelude.{◌≡◌, ◌≤◌, ◌^◌, ◌||◌};
ghost use Rattle.server_trait.specs.Service.{machine};
ghost use Rattle.plain_connection.specs.State.{IsServed};
ghost use Rattle.plain_connection.specs.News.{news_in};
ghost use Rattle.plain_connection.specs.Before.{IsBefore};

use crate::connection::PlainConnection;
use crate::news::News;
use plain_packets::has_rst;
use plain_point::Timer;
use server_trait::Service;

/// What a turn compares with the connection before it.
#[derive(Clone, Copy)]
pub(crate) struct Before {
    /// The client's units that were known to be logged.
    pub(crate) answered: u64,
    /// The units that were taken.
    pub(crate) units: u64,
    /// The bytes that were taken.
    pub(crate) taken: u64,
    /// Whether the client's FIN was taken.
    pub(crate) fin: bool,
    /// The edge that TCP advertised.
    pub(crate) edge: u64,
    /// How many reads were made.
    pub(crate) reads: usize,
    /// SND.UNA.
    pub(crate) una: u64,
    /// SND.NXT.
    pub(crate) sent: u64,
    /// The timer.
    pub(crate) timer: Timer,
    /// Whether the SYN was acknowledged.
    pub(crate) syn_acked: bool,
    /// Whether the news requires a segment.
    pub(crate) asks: bool,
    /// Whether the SYN-ACK answers the news.
    pub(crate) opens: bool,
    /// Whether a retransmission or a probe is due: the timer expires, or an acknowledgement shows a loss.
    pub(crate) resends: bool,
    /// Whether a probe is sent past the edge.
    pub(crate) probes: bool,
    /// Whether the client resets the connection, or has reset it already.
    pub(crate) reset: bool,
    /// Whether the news is a segment.
    pub(crate) arrives: bool,
    /// Whether the ACK of text that isn't logged yet waits for the log.
    pub(crate) delays: bool,
    /// How many units were acknowledged.
    pub(crate) acknowledged: u64,
    /// The window that was advertised.
    pub(crate) window: u16,
}

impl<S: Service> PlainConnection<S> {
    ghost use Rattle.ft_model.specs.Point.{is_over as over_lem};
    ghost use Rattle.ft_model.specs.Timer.{expires, probes as probes_lem};
    ghost use Rattle.ft_model.specs.Sending.{resends as resends_lem};
    ghost use Rattle.ft_model.specs.PendingAck.{asks as asks_lem};
    ghost use Rattle.ft_model.specs.Segments.{opens_with};
    ghost use Rattle.ft_model.specs.ResetAndEnd.{reset_after};

    /// Returns whether the connection is over: the client's FIN is taken, and the server's is acknowledged.
    pub fn is_over(&self) -> bool
        requires { IsServed (machine (S.started self.now.kind) S.after S.greeting) self.now }
        ensures { result ≡ over_lem (machine (S.started self.now.kind) S.after S.greeting) self.now.point }
    {
        self.point.fin() && self.released() < self.point.una()
    }

    /// Returns whether the news requires a segment.
    fn asks(&self, news: &News<'_>) -> bool
        requires { IsServed (machine (S.started self.now.kind) S.after S.greeting) self.now }
        ensures { result ≡ asks_lem (machine (S.started self.now.kind) S.after S.greeting) (news_in news.now) self.now.point }
    {
        match news {
            News::Segment(segment) => {
                self.point.needs_ack(segment) || (self.is_over() && !has_rst(segment))
            }
            News::Logged(_) | News::Tick => false,
            News::Begins => true,
        }
    }

    /// Returns whether the SYN-ACK answers the news.
    fn opens(&self, news: &News<'_>) -> bool
        ensures { result ≡ opens_with (news_in news.now) self.now.point }
    {
        match news {
            News::Segment(segment) => self.point.repeats_syn(segment),
            News::Logged(_) | News::Tick => false,
            News::Begins => !self.point.syn_acked(),
        }
    }

    /// Returns whether a retransmission or a probe is due: the timer expires, or an acknowledgement shows a loss.
    #[tactic(auto, unfolding(ft_model::specs::Sending::is_third_duplicate, ft_model::specs::Sending::is_partial_ack))]
    fn resends(&self, news: &News<'_>) -> bool
        ensures { result ≡ (expires (news_in news.now) self.now.point || resends_lem (news_in news.now) self.now.point) }
    {
        match news {
            News::Segment(segment) => self.point.resends(segment),
            News::Tick => self.point.expires_at_tick(),
            News::Logged(_) | News::Begins => false,
        }
    }

    /// Returns whether the news causes a probe past the edge.
    fn probes(&self, news: &News<'_>) -> bool
        ensures { result ≡ probes_lem (news_in news.now) self.now.point }
    {
        match news {
            News::Tick => self.point.probes_at_tick(),
            News::Segment(_) | News::Logged(_) | News::Begins => false,
        }
    }

    /// Returns whether the client resets the connection by the news, or has reset it already.
    #[tactic(auto, unfolding(ft_model::specs::ResetAndEnd::reset_after))]
    fn resets(&self, news: &News<'_>) -> bool
        ensures { result ≡ reset_after (news_in news.now) self.now.point }
    {
        match news {
            News::Segment(segment) => self.point.resets(segment),
            News::Logged(_) | News::Tick | News::Begins => self.point.is_reset(),
        }
    }

    /// Returns what a turn with this news compares with the connection before it, which is this one.
    pub(crate) fn before(&self, news: &News<'_>) -> Before
        requires { IsServed (machine (S.started self.now.kind) S.after S.greeting) self.now }
        ensures value { IsBefore (machine (S.started self.now.kind) S.after S.greeting) (news_in news.now) self.now.point result }
        ensures within { result.taken ≤ 2 ^ 63 }
    {
        Before {
            answered: self.point.answered(),
            units: self.point.taken_units(),
            taken: self.point.taken(),
            fin: self.point.fin(),
            edge: self.point.advertised_edge(),
            reads: self.point.reads(),
            una: self.point.una(),
            sent: self.point.sent(),
            timer: self.point.timer(),
            syn_acked: self.point.syn_acked(),
            asks: self.asks(news),
            opens: self.opens(news),
            resends: self.resends(news),
            probes: self.probes(news),
            reset: self.resets(news),
            arrives: news.is_segment(),
            delays: self.point.delays(),
            acknowledged: self.point.acknowledgement(),
            window: self.point.window(),
        }
    }
}
