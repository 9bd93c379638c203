//! Wrong results that the contracts of this crate exclude. Each function calls another one of the crate, and promises of its result what a wrong body would
//! make false. It is proved from the other's contract alone, so it is no longer proved once that contract lets the wrong body pass.

ghost use Rattle.std.specs.Prelude.{◌≡◌, ◌<◌, ◌≤◌, ◌+◌, IfSome, pos, true, false};
ghost use Rattle.seq_arith.specs.Offset.{ack_of};
ghost use Rattle.ft_model.specs.Point.{most};
ghost use Rattle.segment_codec.specs.Value.{segment_of};

use crate::copying::Data;
use crate::point::PlainPoint;
use crate::sending::Acknowledged;
use segment_codec::PacketRef;

/// Only units that are known to be logged are acknowledged: the contract of `PlainPoint::acknowledgement`.
fn acknowledges_what_is_not_logged(point: &PlainPoint) -> u64
    ensures { result ≤ point.now.answered }
{
    point.acknowledgement()
}

/// Where the client acknowledges one unit more than was sent, its window is raised by one, so that the right edge stays where the client put it: the clause
/// `value` of `PlainPoint::acknowledged`.
fn edge_falls_where_the_client_knows_more(
    point: &PlainPoint,
    segment: &PacketRef<'_>,
) -> Option<Acknowledged>
    requires ack { ack_of point.now.sisn (segment_of segment.now) ≡ pos (point.now.sent + 1) }
    requires window { segment.now.head.window ≡ 0 }
    ensures { IfSome result (λ a. a.window ≡ 1) }
{
    point.acknowledged(segment)
}

/// A segment that acknowledges one unit more than was ever sent doesn't count: the contract of `PlainPoint::counts`.
#[tactic(auto, unfolding(ft_model::specs::Taken::counts, ft_model::specs::Taken::acknowledges_unsent))]
fn lowers_without_a_bound(point: &PlainPoint, segment: &PacketRef<'_>) -> bool
    requires { ack_of point.now.sisn (segment_of segment.now) ≡ pos (most point.now + 1) }
    ensures { result ≡ false }
{
    point.counts(segment)
}

/// A restart keeps how many units an earlier incarnation may have sent: the contract of `PlainPoint::resume_at`.
fn forgets_the_fetched_output(point: &mut PlainPoint, at: u64, units: u64)
    ensures { units ≤ most point.new }
{
    point.resume_at(at, units);
}

/// No probe is sent while anything is unacknowledged: the contract of `PlainPoint::probes_at_tick`.
fn probes_where_data_is_in_flight(point: &PlainPoint) -> bool
    requires { point.now.una < point.now.sent }
    ensures { result ≡ false }
{
    point.probes_at_tick()
}

/// A FIN that was taken before the turn isn't copied again: the clause `value` of `PlainPoint::further_data`.
fn sends_a_held_fin_again<'a>(
    before: &PlainPoint,
    after: &'a PlainPoint,
    segment: &PacketRef<'_>,
) -> Data<'a>
    requires { before.now.fin ≡ true }
    ensures { result.fin ≡ false }
{
    after.further_data(before.taken(), before.fin(), segment)
}
