//! Lines of a report: of packets, for the schedule that a text spells, of events and of a header.

ghost use Rattle.std.specs.Prelude.{◌≡◌, true, IfSome};
ghost use Rattle.ft_model.specs.Readable.{FitsSchedule};
ghost use Rattle.ft_model.specs.Schedule.{clients_of};
ghost use Rattle.ft_model.specs.World.{are_apart};

use ft_io::NoMemory;
use ft_model::grammar::{accepted_schedules_can_be_played, accepted_schedules_fit};
use line_check::{is_packet_line, read_event_line, read_header_line};
use schedule_text::fleeting::fleeting_texts_spell_schedules;
use schedule_text::{Schedule, read_fleeting_schedule};
use std::alloc::Global;

/// The most bytes of a schedule's own text, with its last line feed.
const TEXT_BYTES: usize = 8_388_609;

/// The fewest bytes before a line of a header that comes after the service's.
const HEADER_BYTES: usize = 12;

/// The schedule that a text spells, if its server doesn't last.
fn schedule_in(alloc: Global, text: &[u8]) -> Option<Schedule>
    ensures fits { IfSome result FitsSchedule }
    ensures apart { IfSome result (λ schedule. are_apart schedule.server (clients_of schedule.server schedule.clients) ≡ true) }
{
    accepted_schedules_fit();
    accepted_schedules_can_be_played();
    fleeting_texts_spell_schedules();
    match read_fleeting_schedule(alloc, text) {
        Ok(schedule) => Some(schedule),
        Err(_) => None,
    }
}

/// Whether a line is that of packet `n`, or nothing where the text spells no schedule.
pub(crate) fn is_line_of_packet(alloc: Global, text: &[u8], n: u32, line: &[u8]) -> Option<bool> {
    let schedule = schedule_in(alloc, text)?;
    Some(is_packet_line(&schedule, n, line))
}

/// The size of a schedule's own text with the event whose line this is, after `size` bytes.
pub(crate) fn size_with_event(size: usize, n: u32, line: &[u8]) -> Option<usize> {
    if TEXT_BYTES < size {
        return None;
    }
    match read_event_line(size, n, line) {
        Some((_, size)) => Some(size),
        None => None,
    }
}

/// Whether a text's last line, which begins after `start` bytes, continues the header before it.
pub(crate) fn ends_with_header_line(
    alloc: Global,
    text: &[u8],
    start: usize,
) -> Result<bool, NoMemory> {
    if start < HEADER_BYTES || text.len() < start {
        return Ok(false);
    }
    Ok(read_header_line(alloc, text, start)?.is_some())
}
