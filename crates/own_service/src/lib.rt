//! A service of your own in the world of a schedule: `run` plays a schedule with its crashes, and writes what each client has accepted, next to what a server
//! that never failed would have answered.
#![tactic(auto)]

ghost use Rattle.std.specs.Prelude.{◌≡◌, ◌≤◌, [], length, IfOk, IfSome, OnOk};
ghost use Rattle.std.specs.List.{AllByRecursion};
ghost use Rattle.ft_model.specs.Playable.{IsPlayable};
ghost use Rattle.net_schedule.specs.WorldView.{kept};
ghost use Rattle.own_service.specs.ClientView.{IsPlayed, SeesAnswers};
ghost use Rattle.counter_service.specs.Counter.{answers};

use counter_service::Counter;
use ft_io::NoMemory;
use ft_model::Script;
use ft_model::grammar::{accepted_schedules_can_be_played, accepted_schedules_keep_the_limits};
use ft_model::headline::clients_see_an_unfailing_server;
use net_schedule::{StepEnd, World};
use schedule_text::{Schedule, read_schedule};
use server_trait::{CHUNK_LIMIT, Service};
use std::alloc::Global;
use std::str;

/// Why a run has nothing to print.
#[derive(Clone, Copy, Debug, PartialEq, Eq)]
pub enum End {
    NoSchedule,
    NotPlayed,
    NoMemory,
}

impl End {
    /// What is printed instead.
    pub fn text(self) -> &'static str {
        match self {
            End::NoSchedule => "no schedule",
            End::NotPlayed => "not played",
            End::NoMemory => "no memory",
        }
    }
}

/// Plays the schedule that a text spells, and writes what is printed of its clients.
pub fn run(alloc: Global, text: &[u8], lines: &mut String) -> Result<(), End> {
    match read(alloc, text) {
        Some(schedule) => play_schedule(alloc, &schedule, lines),
        None => Err(End::NoSchedule),
    }
}

/// Plays a schedule with one logger, without marks, whose server doesn't last, in a world of its own.
fn play_schedule(alloc: Global, schedule: &Schedule, lines: &mut String) -> Result<(), End>
    requires playable { IsPlayable schedule.now }
    requires few { length schedule.now.clients ≤ 16 }
{
    if schedule.twin || schedule.marks.is_some() || schedule.lasting.is_some() {
        return Err(End::NotPlayed);
    }
    match World::new(alloc, schedule) {
        Ok(mut world) => play_in(alloc, schedule, &mut world, lines),
        Err(NoMemory) => Err(End::NoMemory),
    }
}

/// Plays a schedule in the world in which it starts, and writes what is printed at the end.
fn play_in(
    alloc: Global,
    schedule: &Schedule,
    world: &mut World<Counter>,
    lines: &mut String,
) -> Result<(), End>
    requires { IsPlayed schedule.now [] (kept world.old) }
{
    if play(alloc, schedule, world).is_err() {
        return Err(End::NotPlayed);
    }
    match write_clients(alloc, schedule, world, lines) {
        Ok(()) => Ok(()),
        Err(NoMemory) => Err(End::NoMemory),
    }
}

/// Reads the schedule that a text spells.
fn read(alloc: Global, text: &[u8]) -> Option<Schedule>
    ensures playable { IfSome result IsPlayable }
    ensures few { IfSome result (λ schedule. length schedule.clients ≤ 16) }
{
    // Theorems for the proof. They do nothing when they are called.
    accepted_schedules_can_be_played();
    accepted_schedules_keep_the_limits();
    match read_schedule(alloc, text) {
        Ok(schedule) => Some(schedule),
        Err(_) => None,
    }
}

/// Plays all events of a schedule in the world in which it starts. Whatever the events lose or repeat, and whenever the server crashes, what a client has
/// accepted is a prefix of the answers to its script.
pub fn play(alloc: Global, schedule: &Schedule, world: &mut World<Counter>) -> Result<(), StepEnd>
    requires { IsPlayed schedule.now [] (kept world.old) }
    ensures played { OnOk result (IsPlayed schedule.now schedule.now.events (kept world.new)) }
    ensures seen { OnOk result (AllByRecursion SeesAnswers (kept world.new).clients) }
{
    // A theorem for the proof. It does nothing when it is called.
    clients_see_an_unfailing_server::<Counter>();
    for event in schedule.events.as_slice() {
        world.step(alloc, event)?;
    }
    Ok(())
}

/// Returns what a server that never failed answers to a script, read in pieces of 2,048 bytes.
fn unfailing(alloc: Global, script: &[u8]) -> Result<Vec<u8>, NoMemory>
    ensures { IfOk result (λ out. out.items ≡ answers 0 script.now) }
{
    let mut counter = Counter::fresh(alloc, 0);
    let mut out = Vec::new(alloc);
    let mut rest = script;
    while !rest.is_empty() {
        let (piece, later) = rest.split_at(rest.len().min(CHUNK_LIMIT));
        counter.take(piece, &mut out)?;
        rest = later;
    }
    Ok(out)
}

/// Writes what a client has accepted, and below it the answers to its script without a crash.
fn write_client(
    alloc: Global,
    n: u8,
    accepted: &[u8],
    script: &[u8],
    lines: &mut String,
) -> Result<(), NoMemory> {
    let accepted = str::from_utf8(accepted).unwrap_or("no text");
    write!(lines, "client {n} accepted {accepted:?}\n")?;
    let answers = unfailing(alloc, script)?;
    let answers = str::from_utf8(&answers).unwrap_or("no text");
    write!(lines, "without a crash   {answers:?}\n")?;
    Ok(())
}

/// Writes two lines for each client whose script is given as bytes.
fn write_clients(
    alloc: Global,
    schedule: &Schedule,
    world: &World<Counter>,
    lines: &mut String,
) -> Result<(), NoMemory> {
    for (n, line) in (1..=16).zip(schedule.clients.as_slice()) {
        if let (Some(client), Script::Bytes(script)) = (world.client(n), &line.script) {
            write_client(alloc, n, client.accepted(), script.as_slice(), lines)?;
        }
    }
    Ok(())
}
