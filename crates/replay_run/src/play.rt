//! Playing a schedule: each event is played in the world, and its lines are appended to the report before the next event.

ghost use Rattle.std.specs.Prelude.{◌≡◌, ℕ, ◌+◌, ◌<◌, ◌≤◌, List, [], ◌∷◌, ◌++◌, Option, None, Some, Err, length, OnOk, OnErr, IfOk, IfErr};
ghost use Rattle.std.specs.List.{flat_map};
ghost use Rattle.ft_model.specs.Playable.{IsPlayable};
ghost use Rattle.ft_model.specs.Report.{client_lines, log_line, end_line};
ghost use Rattle.ft_model.specs.declared.event.Event.{Event as Asked};
ghost use Rattle.ft_model.specs.declared.event.EventWhy.{EventWhy};
ghost use Rattle.ft_model.specs.declared.schedule.Schedule.{Schedule as Written};
ghost use Rattle.net_schedule.specs.WorldView.{kept};
ghost use Rattle.replay_check.specs.PartialWrite.{Wrote, Holds};
ghost use Rattle.replay_check.specs.Ends.{CountsFaults};
ghost use Rattle.replay_run.specs.PlayedRun.{ReportsAll};
ghost use Rattle.replay_run.specs.TraceEnd.{IsStanding};
ghost use Rattle.replay_run.specs.Playback.{Reaches, StopsPlaying, HoldsAtEnd, EndsPlaying};
ghost use Rattle.replay_check.specs.declared.status.RunEnd.TheVariants.{BadEvent};

use crate::laws::legal_traces_are_safe;
use crate::lines::{write_closing, write_played};
use crate::report::{Report, flush, flush_piece};
use ft_io::{Failed, NoMemory, Sink};
use ft_model::Event;
use ft_model::grammar::playable_schedules_start;
use net_schedule::World;
use net_schedule::laws::{marked_worlds_keep_what_was_sent, worlds_keep_what_was_sent};
use replay_check::{RunEnd, end_of_step};
use sample_servers::AnyService;
use schedule_text::{Schedule, write_header};
use std::alloc::Global;

/// Plays event number `n`, and appends its lines to the report.
fn play_event<O: Sink>(
    alloc: Global,
    n: u32,
    event: &Event,
    world: &mut World<AnyService>,
    report: &mut Report,
    out: &mut O,
) -> Result<(), RunEnd>
    requires { IsStanding (kept world.old) }
    ensures stands { OnOk result (IsStanding (kept world.new)) }
    ensures done { OnOk result ((schedule : Written) (others : List Asked) (old : Option (List ℕ))
        (before : Reaches schedule (event.now ∷ others) (kept world.old) old (O.taken out.old) report.old.held.items)
        → n ≡ length before.plays.played.events + 1 → Reaches schedule others (kept world.new) old (O.taken out.new) report.new.held.items) }
    ensures stops { IfErr result (λ end. (schedule : Written) (others : List Asked) (old : Option (List ℕ))
        (before : Reaches schedule (event.now ∷ others) (kept world.old) old (O.taken out.old) report.old.held.items)
        → n ≡ length before.plays.played.events + 1 → StopsPlaying schedule (kept world.new) old (O.taken out.new) report.new.held.items end) }
    ensures faults { CountsFaults (O.fault_count out.old) (O.fault_count out.new) result }
{
    // Theorems for the proof. They do nothing when they are called.
    legal_traces_are_safe();
    worlds_keep_what_was_sent::<AnyService>();
    marked_worlds_keep_what_was_sent::<AnyService>();
    let answer = match world.step(alloc, event) {
        Ok(answer) => answer,
        Err(end) => return Err(end_of_step(end, n)),
    };
    report.lines.clear();
    write_played(alloc, n, event, world, answer, &mut report.lines)?;
    report.held.extend_from_slice(&report.lines)?;
    flush_piece(report, out)?;
    Ok(())
}

/// Plays the events in order.
fn play_events<O: Sink>(
    alloc: Global,
    schedule: &Schedule,
    world: &mut World<AnyService>,
    report: &mut Report,
    out: &mut O,
) -> Result<(), RunEnd>
    requires stands { IsStanding (kept world.old) }
    requires few { length schedule.now.events ≤ 100000 }
    ensures done { OnOk result ((old : Option (List ℕ)) → Reaches schedule.now schedule.now.events (kept world.old) old (O.taken out.old) report.old.held.items
        → Reaches schedule.now [] (kept world.new) old (O.taken out.new) report.new.held.items) }
    ensures stops { IfErr result (λ end. (old : Option (List ℕ))
        → Reaches schedule.now schedule.now.events (kept world.old) old (O.taken out.old) report.old.held.items
        → StopsPlaying schedule.now (kept world.new) old (O.taken out.new) report.new.held.items end) }
    ensures faults { CountsFaults (O.fault_count out.old) (O.fault_count out.new) result }
{
    let events = schedule.events.as_slice();
    for i in 0..events.len() {
        play_event(alloc, i as u32 + 1, &events[i], world, report, out)?;
    }
    Ok(())
}

/// Appends the closing lines, with the state of the world after `n` events, to the report.
fn close(
    alloc: Global,
    world: &World<AnyService>,
    n: u32,
    report: &mut Report,
) -> Result<(), NoMemory>
    requires { length world.now.clients.items ≤ 16 }
    ensures ok { OnOk result (report.new.held.items
        ≡ report.old.held.items
        ++ (client_lines 1 world.now.clients.items ++ (flat_map log_line (kept world.now).log.entries ++ end_line n))) }
    ensures err { OnErr result (report.new.held.items ≡ report.old.held.items) }
{
    report.lines.clear();
    write_closing(alloc, world, n, &mut report.lines)?;
    report.held.extend_from_slice(&report.lines)?;
    Ok(())
}

/// Creates the world in which a schedule starts, and appends the header to the report.
fn start<O: Sink>(
    alloc: Global,
    schedule: &Schedule,
    report: &mut Report,
    out: &mut O,
) -> Result<World<AnyService>, RunEnd>
    requires playable { IsPlayable schedule.now }
    requires fleeting { schedule.now.lasting ≡ None }
    requires clients { length schedule.now.clients ≤ 16 }
    requires marks { (every : ℕ) → schedule.now.marks ≡ Some every → 0 < every }
    requires empty { report.old.held.items ≡ [] }
    ensures reaches { IfOk result (λ world.
        Reaches schedule.now schedule.now.events (kept world) (O.taken out.old) (O.taken out.new) report.new.held.items) }
    ensures stops { IfErr result (HoldsAtEnd schedule.now (O.taken out.old) (O.taken out.new) report.new.held.items) }
    ensures no_fault { OnOk result (O.fault_count out.new ≡ O.fault_count out.old) }
    ensures faults { IfErr result (λ end. CountsFaults (O.fault_count out.old) (O.fault_count out.new) (Err end)) }
{
    // Theorems for the proof. They do nothing when they are called.
    playable_schedules_start();
    legal_traces_are_safe();
    write_header(alloc, schedule, &mut report.held)?;
    let world = World::new(alloc, schedule)?;
    flush_piece(report, out)?;
    Ok(world)
}

/// Appends the closing lines to the report, once all events of the schedule have been played.
fn close_whole(
    alloc: Global,
    schedule: &Schedule,
    world: &World<AnyService>,
    report: &mut Report,
) -> Result<(), NoMemory>
    requires stands { IsStanding (kept world.now) }
    requires events { length schedule.now.events ≤ 100000 }
    ensures done { OnOk result ((old now : Option (List ℕ)) → Reaches schedule.now [] (kept world.now) old now report.old.held.items
        → Holds old now report.new.held.items (ReportsAll schedule.now)) }
    ensures err { OnErr result (report.new.held.items ≡ report.old.held.items) }
{
    close(
        alloc,
        world,
        schedule.events.as_slice().len() as u32,
        report,
    )?;
    Ok(())
}

/// Ends the report of a run that stops early. If an event was refused, it appends the closing lines, with the state of the world before that event.
fn close_early(alloc: Global, world: &World<AnyService>, end: RunEnd, report: &mut Report) -> RunEnd
    requires { (number : ℕ) (why : EventWhy) → end ≡ BadEvent number why → length world.now.clients.items ≤ 16 }
    ensures stops { (schedule : Written) (old now : Option (List ℕ)) → StopsPlaying schedule (kept world.now) old now report.old.held.items end
        → HoldsAtEnd schedule old now report.new.held.items result }
    ensures faults { (before after : ℕ) → CountsFaults before after (Err end) → CountsFaults before after (Err result) }
{
    match end {
        RunEnd::BadEvent { event, .. } => {
            match close(alloc, world, event.saturating_sub(1), report) {
                Ok(()) => end,
                Err(NoMemory) => RunEnd::NoMemory,
            }
        }
        _ => end,
    }
}

/// Plays the events up to the end, or up to the first that is refused, and then appends the closing lines.
fn play_to_end<O: Sink>(
    alloc: Global,
    schedule: &Schedule,
    world: &mut World<AnyService>,
    report: &mut Report,
    out: &mut O,
) -> Result<(), RunEnd>
    requires reaches { (old : Option (List ℕ)) × Reaches schedule.now schedule.now.events (kept world.old) old (O.taken out.old) report.old.held.items }
    requires few { length schedule.now.events ≤ 100000 }
    ensures done { OnOk result ((old : Option (List ℕ)) → Reaches schedule.now schedule.now.events (kept world.old) old (O.taken out.old) report.old.held.items
        → Holds old (O.taken out.new) report.new.held.items (ReportsAll schedule.now)) }
    ensures stops { IfErr result (λ end. (old : Option (List ℕ))
        → Reaches schedule.now schedule.now.events (kept world.old) old (O.taken out.old) report.old.held.items
        → HoldsAtEnd schedule.now old (O.taken out.new) report.new.held.items end) }
    ensures faults { CountsFaults (O.fault_count out.old) (O.fault_count out.new) result }
{
    match play_events(alloc, schedule, world, report, out) {
        Ok(()) => {
            close_whole(alloc, schedule, world, report)?;
            Ok(())
        }
        Err(end) => Err(close_early(alloc, world, end, report)),
    }
}

/// Plays a schedule. What hasn't been written yet remains in the report.
fn play_whole<O: Sink>(
    alloc: Global,
    schedule: &Schedule,
    report: &mut Report,
    out: &mut O,
) -> Result<(), RunEnd>
    requires playable { IsPlayable schedule.now }
    requires fleeting { schedule.now.lasting ≡ None }
    requires clients { length schedule.now.clients ≤ 16 }
    requires marks { (every : ℕ) → schedule.now.marks ≡ Some every → 0 < every }
    requires events { length schedule.now.events ≤ 100000 }
    requires empty { report.old.held.items ≡ [] }
    ensures done { OnOk result (Holds (O.taken out.old) (O.taken out.new) report.new.held.items (ReportsAll schedule.now)) }
    ensures stops { IfErr result (HoldsAtEnd schedule.now (O.taken out.old) (O.taken out.new) report.new.held.items) }
    ensures faults { CountsFaults (O.fault_count out.old) (O.fault_count out.new) result }
{
    let mut world = start(alloc, schedule, report, out)?;
    play_to_end(alloc, schedule, &mut world, report, out)
}

/// Writes the rest of the report of a run that ends early, unless the sink has failed.
fn write_rest<O: Sink>(end: RunEnd, report: &mut Report, out: &mut O) -> RunEnd
    ensures stops { (schedule : Written) (old : Option (List ℕ)) → HoldsAtEnd schedule old (O.taken out.old) report.old.held.items end
        → Wrote old (O.taken out.new) (EndsPlaying schedule result) }
    ensures faults { (before : ℕ) → CountsFaults before (O.fault_count out.old) (Err end) → CountsFaults before (O.fault_count out.new) (Err result) }
{
    match end {
        RunEnd::WriteFault => end,
        _ => match flush(report, out) {
            Ok(()) => end,
            Err(Failed) => RunEnd::WriteFault,
        },
    }
}

/// Plays a schedule and writes its report. If an event is refused, the report ends after the events before it. However the run ends, the lines of what was
/// played are written, unless the sink fails.
pub(crate) fn play<O: Sink>(alloc: Global, schedule: &Schedule, out: &mut O) -> Result<(), RunEnd>
    requires playable { IsPlayable schedule.now }
    requires fleeting { schedule.now.lasting ≡ None }
    requires clients { length schedule.now.clients ≤ 16 }
    requires marks { (every : ℕ) → schedule.now.marks ≡ Some every → 0 < every }
    requires events { length schedule.now.events ≤ 100000 }
    ensures done { OnOk result (Wrote (O.taken out.old) (O.taken out.new) (ReportsAll schedule.now)) }
    ensures stops { IfErr result (λ end. Wrote (O.taken out.old) (O.taken out.new) (EndsPlaying schedule.now end)) }
    ensures faults { CountsFaults (O.fault_count out.old) (O.fault_count out.new) result }
{
    let mut report = Report::new(alloc);
    match play_whole(alloc, schedule, &mut report, out) {
        Ok(()) => {
            flush(&mut report, out)?;
            Ok(())
        }
        Err(end) => Err(write_rest(end, &mut report, out)),
    }
}
