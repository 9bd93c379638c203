//! A generated run, from its arguments to its summary.

ghost use Rattle.std.specs.Prelude.{◌≡◌, ◌≤◌, ◌<◌, map, string_bytes, None, IfSome, IfOk, IfErr, OnOk, IsErrOf};
ghost use Rattle.ft_io.specs.Faults.{Rose};
ghost use Rattle.replay_seed.specs.SeedWords.{asked as asked_lem};
ghost use Rattle.replay_seed.specs.declared.seed_run.SeedEnd.TheVariants as ends;
ghost use Rattle.replay_seed.specs.SeedSummaries.{StandsBehind, IsSummary, IsPastLimit, IsSummarized, EndsRun};
ghost use Rattle.net_schedule.specs.WorldView.{kept};

use crate::asked::Asked;
use crate::dice::Dice;
use crate::seed_progress::Progress;
use crate::seed_schedule::schedule_for;
use crate::seed_summary::summarize;
use ft_io::{Failed, NoMemory, Sink, write_all};
use net_schedule::World;
use pseudorandom::Generator;
use replay_check::joint_traces_are_safe;
use sample_servers::AnyService;
use std::alloc::Global;

/// Why a generated run ends without its complete summary.
#[derive(Clone, Copy, PartialEq, Eq)]
pub enum SeedEnd {
    /// The arguments aren't `seed SEED CLIENTS EVENTS`.
    Usage,
    NoMemory,
    /// The sink failed. It took a prefix of the summary.
    WriteFault,
    /// An event would exceed the limit of packets.
    PacketLimit,
}

impl From<NoMemory> for SeedEnd {
    ghost from_gives = { λ _ end. end ≡ ends.NoMemory };

    fn from(_error: NoMemory) -> SeedEnd {
        SeedEnd::NoMemory
    }
}

impl From<Failed> for SeedEnd {
    ghost from_gives = { λ _ end. end ≡ ends.WriteFault };

    fn from(_failed: Failed) -> SeedEnd {
        SeedEnd::WriteFault
    }
}

/// Plays the events in the world in which their schedule starts, and returns the summary.
fn play_in(
    alloc: Global,
    asked: Asked,
    progress: &mut Progress,
    world: &mut World<AnyService>,
) -> Result<Vec<u8>, SeedEnd>
    requires stands { StandsBehind asked 0 (kept world.old) progress.old }
    requires clients { (0 < asked.clients) × (asked.clients ≤ 16) }
    requires events { asked.events ≤ 20000 }
    ensures done { IfOk result (λ text. IsSummary asked text.items) }
    ensures past { IsErrOf result SeedEnd.PacketLimit → IsPastLimit asked }
    ensures no_usage { IsErrOf result SeedEnd.Usage → ⊥ }
    ensures no_fault { IsErrOf result SeedEnd.WriteFault → ⊥ }
{
    joint_traces_are_safe();
    progress.play(alloc, asked, world)?;
    Ok(summarize(alloc, asked, world, progress)?)
}

/// Plays the requested events, and returns the summary.
fn play_asked(alloc: Global, asked: Asked) -> Result<Vec<u8>, SeedEnd>
    requires clients { (0 < asked.clients) × (asked.clients ≤ 16) }
    requires events { asked.events ≤ 20000 }
    ensures done { IfOk result (λ text. IsSummary asked text.items) }
    ensures past { IsErrOf result SeedEnd.PacketLimit → IsPastLimit asked }
    ensures no_usage { IsErrOf result SeedEnd.Usage → ⊥ }
    ensures no_fault { IsErrOf result SeedEnd.WriteFault → ⊥ }
{
    let mut generator = Generator::new(asked.seed);
    let schedule = schedule_for(alloc, &mut generator, asked.clients)?;
    let mut world: World<AnyService> = World::new(alloc, &schedule)?;
    let mut progress = Progress::new(Dice { draws: generator });
    play_in(alloc, asked, &mut progress, &mut world)
}

/// Plays the schedule generated from the arguments, and then writes the summary of the run.
pub fn seed<O: Sink>(alloc: Global, words: &[String], out: &mut O) -> Result<(), SeedEnd>
    ensures done { OnOk result (IfSome (asked_lem (map string_bytes words.now)) (λ asked. IsSummarized asked (O.taken out.old) (O.taken out.new))) }
    ensures ends { IfErr result (λ end. IfSome (asked_lem (map string_bytes words.now)) (λ asked. EndsRun asked (O.taken out.old) (O.taken out.new) end)) }
    ensures usage { IsErrOf result SeedEnd.Usage → asked_lem (map string_bytes words.now) ≡ None }
    ensures other_words { asked_lem (map string_bytes words.now) ≡ None → IsErrOf result SeedEnd.Usage }
    ensures usage_keeps_out { IsErrOf result SeedEnd.Usage → out.new ≡ out.old }
    ensures no_memory_keeps_out { IsErrOf result SeedEnd.NoMemory → out.new ≡ out.old }
    ensures limit_keeps_out { IsErrOf result SeedEnd.PacketLimit → out.new ≡ out.old }
    ensures no_fault { OnOk result (O.fault_count out.new ≡ O.fault_count out.old) }
    ensures write_fault { IsErrOf result SeedEnd.WriteFault → Rose (O.fault_count out.old) (O.fault_count out.new) }
    ensures never_falls { O.fault_count out.old ≤ O.fault_count out.new }
{
    let Some(asked) = Asked::from_words(words) else {
        return Err(SeedEnd::Usage);
    };
    let lines = play_asked(alloc, asked)?;
    write_all(out, &lines)?;
    Ok(())
}
