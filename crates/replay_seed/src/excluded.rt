//! Wrong results that the contracts of this crate exclude. Each function calls another one of the crate, and promises of its result what a wrong body would
//! make false. It is proved from the other's contract alone, so it is no longer proved once that contract lets the wrong body pass.

ghost use Rattle.std.specs.Prelude.{◌≡◌, ◌≤◌, ◌<◌, ◌+◌, List, [], length, OnOk};
ghost use Rattle.ft_model.specs.World.{Moment, events_of};
ghost use Rattle.net_schedule.specs.Step.{StandsAfter};
ghost use Rattle.net_schedule.specs.WorldView.{kept};
ghost use Rattle.sample_servers.specs.AnyService.{any_machine};
ghost use Rattle.replay_seed.specs.Generated.{AreDrawn, after_draws, schedule_of};
ghost use Rattle.replay_seed.specs.SeedSummaries.{StandsBehind, start_of_run};

use crate::asked::Asked;
use crate::seed_progress::Progress;
use crate::seed_run::SeedEnd;
use net_schedule::World;
use sample_servers::AnyService;
use std::alloc::Global;

/// The event that is played is the one that was drawn: the clause `done` of `Progress::play_event`.
fn plays_another_event(
    progress: &mut Progress,
    alloc: Global,
    asked: Asked,
    n: u32,
    world: &mut World<AnyService>,
) -> Result<(), SeedEnd>
    requires stands { StandsBehind asked n (kept world.old) progress.old }
    requires few { n < asked.events }
    requires limits { (0 < asked.clients) × (asked.clients ≤ 16) × (asked.events ≤ 20000) }
    ensures { OnOk result ((trace : List Moment) × (length trace ≡ n + 1) × AreDrawn (after_draws asked.seed asked.clients) (start_of_run asked) trace
        × StandsAfter any_machine (schedule_of asked.seed asked.clients []) (events_of trace) trace (kept world.new)) }
{
    progress.play_event(alloc, asked, n, world)
}
