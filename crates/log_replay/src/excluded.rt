//! Wrong results that the contracts of this crate exclude. Each function calls another one of the crate, and promises of its result what a wrong body would
//! make false. It is proved from the other's contract alone, so it is no longer proved once that contract lets the wrong body pass.

ghost use Rattle.std.specs.Prelude.{◌≡◌, ◌+◌, ◌≤◌, [], length, take, drop, IfOk, OnOk};
ghost use Rattle.limits.specs.Limits.{longest_stream};

use crate::replay::Replay;
use ft_io::NoMemory;
use server_trait::Service;
use std::alloc::Global;

/// What a client has acknowledged of the greeting isn't sent again by the next incarnation: the contract of `Replay::new`.
fn greets_again<S: Service>(alloc: Global, kind: u8, acked: u32) -> Result<Replay<S>, NoMemory>
    ensures { IfOk result (λ replay. replay.pending ≡ drop acked (S.greeting (S.started kind))) }
{
    Replay::new(alloc, kind, acked)
}

/// The output that a mark counts has the greeting already, so a restart from the mark neither counts nor sends it again: the contract of `Replay::resumed`.
fn greets_after_a_mark<S: Service>(alloc: Global, service: S, made: u32, acked: u32) -> Replay<S>
    requires { made ≤ longest_stream }
    ensures made { result.made ≡ made }
    ensures pending { result.pending ≡ [] }
{
    Replay::resumed(alloc, service, made, acked)
}

/// Output that the client has acknowledged doesn't become pending again: the clause `state` of `Replay::serve`.
fn replays_without_swallowing<S: Service>(
    replay: &mut Replay<S>,
    size: usize,
) -> Result<(), NoMemory>
    requires short { size ≤ 2048 }
    requires there { size ≤ length replay.old.held }
    requires acked { replay.old.made + length (S.after replay.old.service (take size replay.old.held)).output ≤ replay.old.acked }
    ensures { OnOk result (replay.new.pending ≡ replay.old.pending) }
{
    replay.serve(size)
}
