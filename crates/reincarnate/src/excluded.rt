//! Wrong results that the contracts of this crate exclude. Each function calls another one of the crate, and promises of its result what a wrong body would
//! make false. It is proved from the other's contract alone, so it is no longer proved once that contract lets the wrong body pass.

ghost use Rattle.limits.specs.Limits.{longest_stream};
ghost use Rattle.std.specs.Prelude.{◌≡◌, ◌^◌, ◌≤◌, true, length};
ghost use Rattle.logger_wire.specs.Records.{head_said};
ghost use Rattle.mark_laws.specs.Restart.{lies_within};
ghost use Rattle.logger_wire.specs.MarkValue.{mark_said};
ghost use Rattle.log_replay.specs.LoggedHead.{IsSegmentSize};

use crate::fetched_entry::FetchedEntry;
use crate::replayed::south_behind;
use ft_io::Key;
use log_replay::Cuts;
use logger_wire::{EntryHead, Mark};
use seq_arith::Seq;
use server_trait::Service;
use south_wrap::South;
use std::alloc::Global;

/// Delta is the server's initial sequence number plus the acknowledged output, less that of the inner TCP: the clause `value` of `south_behind`.
fn delta_without_syn() -> South
    ensures { result.delta ≡ 4100 }
{
    let head = EntryHead {
        key: Key { ip: 0, port: 0 },
        cisn: 0,
        sisn: 5000,
        mss: limits::SEGMENT,
        length: 0,
        fin: false,
        done: false,
        reads: 0,
        acked: 100,
    };
    south_behind(&head, Cuts::NONE, 100, false, Seq(1000))
}

/// Where the service has closed, an earlier incarnation may have sent one unit more than its output: the clause `value` of `south_behind`.
fn bounds_without_the_closing_unit(head: &EntryHead, cuts: Cuts, isn: Seq) -> South
    requires stream { head.now.length ≤ longest_stream }
    requires read { cuts.sum ≤ longest_stream }
    ensures { result.fetched_output ≡ 101 }
{
    south_behind(head, cuts, 100, true, isn)
}

/// The wrapper keeps how many units an earlier incarnation may have sent, also where the client has acknowledged none: the clause `value` of `south_behind`.
fn forgets_the_fetched_output(head: &EntryHead, cuts: Cuts, isn: Seq) -> South
    requires stream { head.now.length ≤ longest_stream }
    requires read { cuts.sum ≤ longest_stream }
    requires acked { head.now.acked ≡ 0 }
    ensures { result.fetched_output ≡ 100 }
{
    south_behind(head, cuts, 100, false, isn)
}

/// An entry that begins at a mark counts the bytes below the mark as fetched: the contract of `FetchedEntry::begin_at`.
fn replays_from_the_start<S: Service>(
    alloc: Global,
    head: EntryHead,
    mark: &Mark<'_>,
    service: S,
) -> FetchedEntry<S>
    requires stream { head.length ≤ longest_stream }
    requires segments { IsSegmentSize head.mss }
    requires made { mark.now.made ≤ longest_stream }
    requires within { lies_within (head_said head) (mark_said mark.now) ≡ true }
    ensures { result.bytes ≡ mark.now.length }
{
    FetchedEntry::begin_at(alloc, head, mark, service)
}
