//! A run of a schedule, from reading its text to the end of its report.

ghost use Rattle.std.specs.Prelude.{◌≡◌, ℕ, ◌<◌, ◌≤◌, length, None, Some, Ok, IfOk, IfErr, OnOk};
ghost use Rattle.ft_io.specs.Source.{ConsumesAtMost};
ghost use Rattle.schedule_text.specs.Fleeting.{read_fleeting};
ghost use Rattle.ft_model.specs.Playable.{IsPlayable};
ghost use Rattle.replay_run.specs.PlayedRun.{ReportsAll};
ghost use Rattle.replay_run.specs.Runs.{Reports, RunStops, StopsReading};
ghost use Rattle.replay_check.specs.Stream.{stream};

use crate::play::play;
use ft_io::{Sink, Source, read_to_limit};
use ft_model::grammar::{accepted_schedules_can_be_played, accepted_schedules_keep_the_limits};
use replay_check::RunEnd;
use schedule_text::fleeting::fleeting_texts_spell_schedules;
use schedule_text::{Schedule, read_fleeting_schedule};
use std::alloc::Global;

/// The largest size of a schedule's text, in bytes.
const TEXT_LIMIT: usize = 8_388_608;

/// Reads the schedule that a text spells. It can be played. One whose server lasts isn't: its line `lasting` is refused.
fn read(alloc: Global, text: &[u8]) -> Result<Schedule, RunEnd>
    ensures spelled { IfOk result (λ s. read_fleeting text.now ≡ Ok s) }
    ensures stops { IfErr result (StopsReading text.now) }
    ensures playable { IfOk result IsPlayable }
    ensures fleeting { IfOk result (λ s. s.lasting ≡ None) }
    ensures clients { IfOk result (λ s. length s.clients ≤ 16) }
    ensures marks { IfOk result (λ s. (every : ℕ) → s.marks ≡ Some every → 0 < every) }
    ensures events { IfOk result (λ s. length s.events ≤ 100000) }
{
    // Theorems for the proof. They do nothing when they are called.
    accepted_schedules_can_be_played();
    accepted_schedules_keep_the_limits();
    fleeting_texts_spell_schedules();
    Ok(read_fleeting_schedule(alloc, text)?)
}

/// Reads a schedule to its end, plays it and writes its report.
pub(crate) fn run<I: Source, O: Sink>(
    alloc: Global,
    input: &mut I,
    out: &mut O,
) -> Result<(), RunEnd>
    ensures done { OnOk result (Reports (stream I.left I.fault_count input.old input.new) (stream O.taken O.fault_count out.old out.new) ReportsAll) }
    ensures stops { IfErr result (RunStops (stream I.left I.fault_count input.old input.new) (stream O.taken O.fault_count out.old out.new)) }
    ensures taken { ConsumesAtMost 8388609 (I.left input.old) (I.left input.new) }
{
    let text = read_to_limit(alloc, input, TEXT_LIMIT)?;
    let schedule = read(alloc, &text)?;
    play(alloc, &schedule, out)
}
