//! The lines of a report's header.

ghost use Rattle.std.specs.Prelude.{◌≡◌, ◌≤◌, ◌+◌, ◌&&◌, nat_le, length, take, drop, IfOk, MatchOption};
ghost use Rattle.ft_model.specs.Grammar.{is_printable};
ghost use Rattle.ft_model.specs.declared.line.Draft.{Draft};
ghost use Rattle.ft_model.specs.declared.line.Draft.TheVariants.{Empty, Named, Begun};
ghost use Rattle.report_laws.specs.declared.Law.TheVariants as law;
ghost use Rattle.report_laws.specs.Transitions.{HeaderLine};
ghost use Rattle.report_laws.specs.Transitions.Position.{InHeader};
ghost use Rattle.report_laws.specs.Transitions.Step.{Continues, Rejects};
ghost use Rattle.line_check.specs.HeaderText as spelled;

use crate::words::is_text;
use ft_io::NoMemory;
use ft_model::ServiceKind;
use schedule_text::{Schedule, ScheduleEnd, read_schedule, write_header};
use std::alloc::Global;

/// The length of a report's first line, in bytes.
const NAME_BYTES: usize = 11;

/// A report's header up to the service's line has at least this many bytes.
const START_BYTES: usize = 12;

/// Returns the service, if a text is the line of one.
#[tactic(auto, using(crate::proofs::HeaderLines::service_given))]
pub fn read_service_line(line: &[u8]) -> Option<ServiceKind>
    ensures { MatchOption result (HeaderLine Empty line.now (Rejects law.Text)) (λ kind. HeaderLine Empty line.now (Continues (InHeader (Named kind)))) }
{
    service_in(line)
}

fn service_in(line: &[u8]) -> Option<ServiceKind>
    ensures { result ≡ spelled.service_in line.now }
{
    if is_text(line, "service echo\n") {
        Some(ServiceKind::Echo)
    } else if is_text(line, "service line\n") {
        Some(ServiceKind::Line)
    } else if is_text(line, "service transfer\n") {
        Some(ServiceKind::Transfer)
    } else if is_text(line, "service meter\n") {
        Some(ServiceKind::Meter)
    } else {
        None
    }
}

/// Returns whether a text is the header of a schedule with one logger, without marks, whose server doesn't last.
pub(crate) fn is_header_of(
    alloc: Global,
    schedule: &Schedule,
    text: &[u8],
) -> Result<bool, NoMemory>
    ensures { IfOk result (λ same. same ≡ spelled.is_header_of schedule.now text.now) }
{
    if schedule.twin || schedule.marks.is_some() || schedule.lasting.is_some() {
        return Ok(false);
    }
    let mut header = Vec::new(alloc);
    write_header(alloc, schedule, &mut header)?;
    Ok(header.as_slice() == text)
}

/// Returns the schedule, if a text is the header of one.
fn header_in(alloc: Global, text: &[u8]) -> Result<Option<Schedule>, NoMemory>
    requires { 12 ≤ length text.now }
    ensures { IfOk result (λ schedule. schedule ≡ spelled.header_in text.now) }
{
    match read_schedule(alloc, &text[NAME_BYTES..text.len() - 1]) {
        Ok(schedule) => {
            if is_header_of(alloc, &schedule, text)? {
                Ok(Some(schedule))
            } else {
                Ok(None)
            }
        }
        Err(ScheduleEnd::NoMemory) => Err(NoMemory),
        Err(_) => Ok(None),
    }
}

fn is_plain(byte: u8) -> bool
    ensures { result ≡ (nat_le 32 byte && nat_le byte 126) }
{
    32 <= byte && byte <= 126
}

#[tactic(auto, unfolding(ft_model::specs::Grammar::is_printable))]
fn is_plain_text(text: &[u8]) -> bool
    ensures { result ≡ is_printable text.now }
{
    text.iter().all(|byte| is_plain(*byte))
}

/// Reads the line of the server or of a client. It follows the first `start` bytes of a report's text, and is the last line of this text. Returns the
/// schedule of the header with this line, or `None` if no such line may follow.
#[tactic(auto, using(crate::proofs::Cited::read_header_line_lemmas))]
pub fn read_header_line(
    alloc: Global,
    text: &[u8],
    start: usize,
) -> Result<Option<Schedule>, NoMemory>
    requires within { (12 ≤ start) × (start ≤ length text.now) }
    ensures { IfOk result (λ read. (draft : Draft) → spelled.IsHeaderSoFar draft → take start text.now ≡ spelled.header_so_far draft
        → MatchOption read (HeaderLine draft (drop start text.now) (Rejects law.Text))
        (λ schedule. HeaderLine draft (drop start text.now) (Continues (InHeader (Begun schedule))))) }
{
    if text.len() < start + 2 {
        return Ok(None);
    }
    if !is_plain_text(&text[start..text.len() - 1]) {
        return Ok(None);
    }
    header_in(alloc, text)
}
