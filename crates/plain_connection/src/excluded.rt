//! Wrong results that the contracts of this crate exclude. Each function calls another one of the crate, and promises of its result what a wrong body would
//! make false. It is proved from the other's contract alone, so it is no longer proved once that contract lets the wrong body pass.

ghost use Rattle.std.specs.Prelude.{◌≡◌, ◌<◌, ◌≤◌, None, max, true, false, IfOk};
ghost use Rattle.server_trait.specs.Service.{machine};
ghost use Rattle.ft_model.specs.Point.{made, released};
ghost use Rattle.ft_model.specs.Restart.{entry_in, is_whole, run_of};
ghost use Rattle.ft_model.specs.Sending.{send_edge};
ghost use Rattle.plain_connection.specs.State.{IsServed};

use crate::before::Before;
use crate::connection::PlainConnection;
use crate::news::News;
use ft_io::NoMemory;
use logger_wire::Numbers;
use plain_log::PlainFetched;
use server_trait::Service;
use std::alloc::Global;
use tcp_rules::{Profile, Timestamping};

/// A service doesn't read while any of its output isn't released: the contract of `PlainConnection::next_read`.
#[tactic(auto, unfolding(ft_model::specs::Reads::may_read))]
fn reads_past_unanswered_output<S: Service>(connection: &PlainConnection<S>) -> Option<u16>
    requires served { IsServed (machine (S.started connection.now.kind) S.after S.greeting) connection.now }
    requires waits { let service = machine (S.started connection.now.kind) S.after S.greeting in
        released service connection.now.point < made service connection.now.point }
    ensures { result ≡ None }
{
    connection.next_read()
}

/// The output that may be sent ends with that of the last read that is known to be logged: the contract of `PlainConnection::output`.
fn releases_unanswered_output<S: Service>(connection: &PlainConnection<S>) -> usize
    requires { IsServed (machine (S.started connection.now.kind) S.after S.greeting) connection.now }
    ensures { result ≡ released (machine (S.started connection.now.kind) S.after S.greeting) connection.now.point }
{
    connection.output().len()
}

/// Where an entry's reads have closed the service, its client may have been sent one unit more than their output: the clause `point` of
/// `PlainConnection::resumed`.
fn bounds_without_the_closing_unit<S: Service>(
    alloc: Global,
    kind: u8,
    entry: PlainFetched,
) -> Result<PlainConnection<S>, NoMemory>
    requires whole { is_whole entry ≡ true }
    requires live { entry.head.done ≡ false }
    requires closed { (run_of (machine (S.started kind) S.after S.greeting) (entry_in entry)).closed ≡ true }
    ensures { IfOk result (λ c. made (machine (S.started kind) S.after S.greeting) c.point < c.point.fetched_output) }
{
    PlainConnection::resumed(alloc, Profile::Plain, kind, entry)
}

/// A restart measures round trips anew: the clause `point` of `PlainConnection::resumed`.
fn keeps_the_interval_at_a_restart<S: Service>(
    alloc: Global,
    kind: u8,
    entry: PlainFetched,
) -> Result<PlainConnection<S>, NoMemory>
    requires whole { is_whole entry ≡ true }
    requires live { entry.head.done ≡ false }
    ensures { IfOk result (λ c. c.point.timing.base ≡ 10) }
{
    PlainConnection::resumed(alloc, Profile::Wan, kind, entry)
}

/// No ACK of the plain profile waits for the log: the clause `point` of `PlainConnection::opened`.
fn delays_in_the_plain_profile<S: Service>(
    alloc: Global,
    kind: u8,
    numbers: &Numbers,
) -> Result<PlainConnection<S>, NoMemory>
    ensures { IfOk result (λ c. c.point.delays ≡ false) }
{
    PlainConnection::opened(alloc, Profile::Plain, Timestamping::Off, kind, numbers)
}

/// Nothing new is sent past the client's right edge or the congestion window: the clause `value` of `PlainConnection::sent_at_once`.
#[tactic(auto, unfolding(ft_model::specs::Sending::sent_at_once))]
fn sends_past_the_edge<S: Service>(connection: &PlainConnection<S>, before: &Before) -> u64
    requires { IsServed (machine (S.started connection.now.kind) S.after S.greeting) connection.now }
    ensures { result ≤ max before.now.sent (send_edge connection.now.point) }
{
    connection.sent_at_once(before)
}

/// At a tick all reads that aren't known to be logged are told again, from the first one on: the contract of `PlainConnection::first_reported`.
fn reports_reads_only_once<S: Service>(connection: &PlainConnection<S>) -> usize
    requires { IsServed (machine (S.started connection.now.kind) S.after S.greeting) connection.now }
    ensures { result ≡ connection.now.point.reads_answered }
{
    let before = connection.before(&News::Tick);
    connection.first_reported(&News::Tick, &before)
}
