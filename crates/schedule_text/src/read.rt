//! Reading a complete text, line by line.

ghost use Rattle.std.specs.Prelude.{◌≡◌, IfOk, length};
ghost use Rattle.ft_model.specs.Grammar.{with_line, is_comment, is_passed_over, is_full, is_too_much, after_line, schedule_of, read_with, read_text};
ghost use Rattle.schedule_text.specs.Fleeting.{read_fleeting};
ghost use Rattle.schedule_text.specs.ReadResult.{Gives, GivesLine, refusal_of_line, objection_of, with_text};

use crate::end::{LineEnd, ScheduleEnd};
use crate::line::{begins_with_event, read_line};
use crate::words::{next_line, next_word};
use ft_io::NoMemory;
use ft_model::{ClientLines, Draft, Events, Limit, Line, LineWhy, Schedule};
use std::alloc::Global;
use tcp_rules::Profile;

/// The largest size of a text, in bytes.
const TEXT_LIMIT: usize = 8_388_608;

/// The largest number of event lines in a text.
const EVENT_LIMIT: usize = 100_000;

/// Which schedules a reader knows.
#[derive(Clone, Copy)]
pub(crate) enum Known {
    All,
    /// Those whose server doesn't last.
    Fleeting,
}

fn starts_comment(text: &[u8]) -> bool
    ensures { result ≡ is_comment text.now }
{
    match text.split_first() {
        Some((byte, _)) => *byte == b'#',
        None => false,
    }
}

/// Returns whether a line is a comment or blank.
#[tactic(auto, unfolding(ft_model::specs::Grammar::is_passed_over))]
fn is_blank(text: &[u8]) -> bool
    ensures { result ≡ is_passed_over text.now }
{
    if starts_comment(text) {
        return true;
    }
    next_word(text).is_none()
}

/// Returns whether a schedule already has as many events as it may.
fn has_all_events(draft: &Draft) -> bool
    ensures { result ≡ is_full draft.now }
{
    match draft {
        Draft::Begun(schedule) => EVENT_LIMIT <= schedule.events.as_slice().len(),
        _ => false,
    }
}

#[tactic(auto, unfolding(ft_model::specs::Grammar::is_too_much))]
fn passes_limit(draft: &Draft, text: &[u8]) -> bool
    ensures { result ≡ is_too_much draft.now text.now }
{
    if !has_all_events(draft) {
        return false;
    }
    begins_with_event(text)
}

/// Adds a line to those before it.
fn add_line(alloc: Global, draft: Draft, line: Line) -> Result<Draft, NoMemory>
    ensures { IfOk result (λ later. later ≡ with_line draft line) }
{
    match (draft, line) {
        (Draft::Empty, Line::Service(kind)) => Ok(Draft::Named(kind)),
        (Draft::Named(service), Line::Server(server)) => Ok(Draft::Begun(Schedule {
            service,
            server,
            profile: Profile::Plain,
            twin: false,
            marks: None,
            lasting: None,
            clients: ClientLines::new(Vec::new(alloc)),
            events: Events::new(Vec::new(alloc)),
        })),
        (Draft::Begun(mut schedule), Line::Profile(profile)) => {
            schedule.profile = profile;
            Ok(Draft::Begun(schedule))
        }
        (Draft::Begun(mut schedule), Line::Twin) => {
            schedule.twin = true;
            Ok(Draft::Begun(schedule))
        }
        (Draft::Begun(mut schedule), Line::Marks(every)) => {
            schedule.marks = Some(every);
            Ok(Draft::Begun(schedule))
        }
        (Draft::Begun(mut schedule), Line::Lasting(waits)) => {
            schedule.lasting = Some(waits);
            Ok(Draft::Begun(schedule))
        }
        (Draft::Begun(mut schedule), Line::Client(client)) => {
            schedule.clients.push(client)?;
            Ok(Draft::Begun(schedule))
        }
        (Draft::Begun(mut schedule), Line::Event(event)) => {
            schedule.events.push(event)?;
            Ok(Draft::Begun(schedule))
        }
        (draft, _) => Ok(draft),
    }
}

/// Returns why a reader refuses a well-formed line.
fn refusal(known: Known, line: &Line) -> Option<LineWhy>
    ensures { result ≡ refusal_of_line known line.now }
{
    match (known, line) {
        (Known::Fleeting, Line::Lasting(_)) => Some(LineWhy::Word),
        _ => None,
    }
}

/// Reads a line and adds it to those before it.
fn read_more(alloc: Global, known: Known, draft: Draft, text: &[u8]) -> Result<Draft, LineEnd>
    ensures { GivesLine result (with_text known draft text.now) }
{
    let line = read_line(alloc, &draft, text)?;
    if let Some(why) = refusal(known, &line) {
        return Err(LineEnd::Refused(why));
    }
    Ok(add_line(alloc, draft, line)?)
}

/// Reads line `number` of a text, after the lines before it.
#[tactic(auto, unfolding(ft_model::specs::Grammar::after_line))]
fn take_line(
    alloc: Global,
    known: Known,
    number: u32,
    draft: Draft,
    text: &[u8],
) -> Result<Draft, ScheduleEnd>
    ensures { Gives result (after_line (objection_of known) number draft text.now) }
{
    if is_blank(text) {
        return Ok(draft);
    }
    if passes_limit(&draft, text) {
        return Err(ScheduleEnd::TooLong {
            what: Limit::Events,
        });
    }
    match read_more(alloc, known, draft, text) {
        Ok(later) => Ok(later),
        Err(LineEnd::NoMemory) => Err(ScheduleEnd::NoMemory),
        Err(LineEnd::Refused(why)) => Err(ScheduleEnd::BadLine { line: number, why }),
    }
}

/// Returns the schedule at the end of a text whose next line would be `number`.
fn finish(number: u32, draft: Draft) -> Result<Schedule, ScheduleEnd>
    ensures { Gives result (schedule_of number draft) }
{
    match draft {
        Draft::Begun(schedule) => Ok(schedule),
        _ => Err(ScheduleEnd::BadLine {
            line: number,
            why: LineWhy::Place,
        }),
    }
}

/// Reads a text by a reader that knows these schedules.
#[tactic(auto, using(crate::proofs::Cited::read_known_lemmas), unfolding(ft_model::specs::Grammar::read_with))]
fn read_known(alloc: Global, known: Known, text: &[u8]) -> Result<Schedule, ScheduleEnd>
    ensures { Gives result (read_with (objection_of known) text.now) }
{
    if text.len() > TEXT_LIMIT {
        return Err(ScheduleEnd::TooLong { what: Limit::Text });
    }
    let mut draft = Draft::Empty;
    let mut number = 1;
    let mut rest = text;
    while !rest.is_empty() {
        let (line, behind) = next_line(rest);
        draft = take_line(alloc, known, number, draft, line)?;
        number += 1;
        rest = behind;
    }
    finish(number, draft)
}

/// Reads a schedule from its text. Returns the schedule that the text spells. The error is the first line that is refused, with the reason, or the limit
/// that is exceeded, or `NoMemory` where an allocation fails.
pub fn read_schedule(alloc: Global, text: &[u8]) -> Result<Schedule, ScheduleEnd>
    ensures { Gives result (read_text text.now) }
{
    read_known(alloc, Known::All, text)
}

/// Reads a schedule whose server doesn't last from its text, as `read_schedule` does. A well-formed line `lasting` is refused as a line with an unknown word.
pub fn read_fleeting_schedule(alloc: Global, text: &[u8]) -> Result<Schedule, ScheduleEnd>
    ensures { Gives result (read_fleeting text.now) }
{
    read_known(alloc, Known::Fleeting, text)
}
