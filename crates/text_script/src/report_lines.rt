//! Orders that ask whether a text is a line of a report.

use crate::check_lines::{ends_with_header_line, is_line_of_packet, size_with_event};
use crate::{bytes_of, number_of};
use ft_io::NoMemory;
use line_check::read_service_line;
use std::alloc::Global;
use test_data::Said;

/// Says whether a text is the line of a packet.
pub(crate) fn ask_packet(
    alloc: Global,
    schedule: &[u8],
    rest: &str,
    said: &mut Said,
) -> Result<(), NoMemory> {
    let Some((number, text)) = number_of(rest) else {
        said.line("no number");
        return Ok(());
    };
    let line = bytes_of(alloc, text)?;
    said.line(
        match is_line_of_packet(alloc, schedule, number, line.as_slice()) {
            Some(true) => "a packet",
            Some(false) => "no packet",
            None => "no schedule",
        },
    );
    Ok(())
}

/// Says whether a text is the line of an event.
pub(crate) fn ask_event(alloc: Global, rest: &str, said: &mut Said) -> Result<(), NoMemory> {
    if let Some((number, rest)) = number_of(rest)
        && let Some((size, text)) = number_of(rest)
    {
        let line = bytes_of(alloc, text)?;
        match size_with_event(size as usize, number, line.as_slice()) {
            Some(size) => write!(said, "an event, {size}\n"),
            None => said.line("no event"),
        }
        return Ok(());
    }
    said.line("no number");
    Ok(())
}

/// Says whether a text is the line of a service.
pub(crate) fn ask_service(alloc: Global, text: &str, said: &mut Said) -> Result<(), NoMemory> {
    let line = bytes_of(alloc, text)?;
    said.line(if read_service_line(line.as_slice()).is_some() {
        "a service"
    } else {
        "no service"
    });
    Ok(())
}

/// Says whether a text ends with a line of the header that it begins with.
pub(crate) fn ask_header(alloc: Global, rest: &str, said: &mut Said) -> Result<(), NoMemory> {
    let Some((start, text)) = number_of(rest) else {
        said.line("no number");
        return Ok(());
    };
    let text = bytes_of(alloc, text)?;
    let ends = ends_with_header_line(alloc, text.as_slice(), start as usize)?;
    said.line(if ends {
        "a header line"
    } else {
        "no header line"
    });
    Ok(())
}
