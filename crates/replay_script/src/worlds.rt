//! What is done with a schedule in worlds of its own.

ghost use Rattle.std.specs.Prelude.{◌≤◌, length, IfOk};
ghost use Rattle.ft_model.specs.Playable.{IsPlayable};

use crate::crashes::play_crash;
use crate::deltas::write_deltas;
use ft_io::NoMemory;
use ft_model::grammar::{accepted_schedules_can_be_played, accepted_schedules_keep_the_limits};
use net_schedule::World;
use sample_servers::AnyService;
use schedule_text::{Schedule, ScheduleEnd, read_schedule};
use server_trait::Saved;
use std::alloc::Global;
use test_data::Said;

/// What is done in one world.
#[derive(Clone, Copy)]
enum Task {
    /// A crash after this number of events, with the stop of a logger if one is named.
    Crash { count: usize, stops: Option<u8> },
    /// The deltas at the end.
    Deltas,
}

/// The schedule that a text spells.
fn schedule_of(alloc: Global, text: &[u8]) -> Result<Schedule, ScheduleEnd>
    ensures playable { IfOk result IsPlayable }
    ensures clients { IfOk result (λ s. length s.clients ≤ 16) }
{
    accepted_schedules_can_be_played();
    accepted_schedules_keep_the_limits();
    read_schedule(alloc, text)
}

/// Does a task in a new world, and says what it prints. A schedule whose server lasts isn't played here.
/// Only this function owns a world: each exit of a function that drops one adds to its proof.
fn do_task<S: Saved>(
    alloc: Global,
    name: &str,
    schedule: &Schedule,
    task: Task,
    said: &mut Said,
) -> Result<(), NoMemory>
    requires playable { IsPlayable schedule.now }
    requires clients { length schedule.now.clients ≤ 16 }
{
    if schedule.lasting.is_some() {
        said.line("not played");
        return Ok(());
    }
    let mut world: World<S> = World::new(alloc, schedule)?;
    do_in(alloc, name, schedule, task, &mut world, said)
}

/// Does a task in a world.
fn do_in<S: Saved>(
    alloc: Global,
    name: &str,
    schedule: &Schedule,
    task: Task,
    world: &mut World<S>,
    said: &mut Said,
) -> Result<(), NoMemory> {
    let events = schedule.events.as_slice();
    match task {
        Task::Crash { count, stops } => {
            play_crash(
                alloc,
                world,
                &events[..count.min(events.len())],
                stops,
                said,
            )
        }
        Task::Deltas => {
            write_deltas(alloc, name, schedule, world, said);
            Ok(())
        }
    }
}

/// Plays a crash after each number of the first events of a schedule, and with it the stop of a logger, if one is named.
fn play_each_crash<S: Saved>(
    alloc: Global,
    name: &str,
    schedule: &Schedule,
    stops: Option<u8>,
    said: &mut Said,
) -> Result<(), NoMemory>
    requires playable { IsPlayable schedule.now }
    requires clients { length schedule.now.clients ≤ 16 }
{
    for count in 1..=schedule.events.as_slice().len() {
        write!(said, "{name}, crash after {count}: ");
        do_task::<S>(alloc, name, schedule, Task::Crash { count, stops }, said)?;
    }
    Ok(())
}

/// Plays the crash table of the schedule that a text spells, with this service.
pub(crate) fn play_crashes<S: Saved>(
    alloc: Global,
    name: &str,
    stops: Option<u8>,
    text: &[u8],
    said: &mut Said,
) -> Result<(), NoMemory> {
    match schedule_of(alloc, text) {
        Ok(schedule) => play_each_crash::<S>(alloc, name, &schedule, stops, said),
        Err(_) => {
            said.line("no schedule");
            Ok(())
        }
    }
}

/// Plays the schedule that a text spells, and says the deltas at the end.
pub(crate) fn play_deltas(
    alloc: Global,
    name: &str,
    text: &[u8],
    said: &mut Said,
) -> Result<(), NoMemory> {
    match schedule_of(alloc, text) {
        Ok(schedule) => do_task::<AnyService>(alloc, name, &schedule, Task::Deltas, said),
        Err(_) => {
            said.line("no schedule");
            Ok(())
        }
    }
}
