//! What the schedules and packets of a script say, and whether texts are lines of a report. In TEXT, `%XX` stands for a byte. The lines of a script:
//!
//! - `# ..` is printed as it is;
//! - `read TEXT` reads a schedule. Its header and its events are printed as a report has them, or else why it is refused;
//! - `many COUNT LINE` reads a schedule of a service and a server, followed by COUNT copies of this line, each with a line feed; printed is how many events it
//!   has, or why it is refused;
//! - `script WORD` reads a client's script;
//! - `packet WAY HEX` prints the line of packet 7, which says these bytes, or `no packet`, and which test of its grammar a segment or a message fails; WAY is
//!   `up` or `down`, between client 1 and the server, `out` or `in`, between the server and the logger, or `on` or `back`, between a head and a tail;
//! - `schedule TEXT` is the schedule of the packets whose lines follow;
//! - `line N TEXT` asks whether TEXT is the line of packet N;
//! - `event N SIZE TEXT` asks whether TEXT is the line of event N, after a schedule's own text of SIZE bytes, and for the size with it;
//! - `service TEXT` asks whether TEXT is a service's line;
//! - `header START TEXT` asks whether the last line of TEXT, which begins after START bytes, continues the header before it.
#![tactic(auto)]

use ft_io::NoMemory;
use logger_wire::read_msg;
use percent_encoding::percent_decode;
use report_lines::{ask_event, ask_header, ask_packet, ask_service};
use schedule_text::{
    Schedule, ScheduleEnd, Script, Way, is_packet, read_schedule, read_script, write_event,
    write_header, write_packet_line,
};
use segment_codec::read_packet;
use std::alloc::Global;
use test_data::{Said, bytes_of_hex};

mod check_lines;
mod report_lines;

const HEAD: &[u8] = b"service echo\nserver 192.0.2.100:7\n";

/// Plays the lines of a script, and says what they print. The status, which is 0.
pub fn run(alloc: Global, text: &str, said: &mut Said) -> Result<u8, NoMemory> {
    let mut schedule = Vec::new(alloc);
    play_lines(alloc, text, &mut schedule, said)
}

/// Plays the lines of a script, where this is the schedule of the packets whose lines follow. The status, which is 0.
fn play_lines(
    alloc: Global,
    text: &str,
    schedule: &mut Vec<u8>,
    said: &mut Said,
) -> Result<u8, NoMemory> {
    for line in text.lines() {
        play(alloc, line, schedule, said)?;
    }
    Ok(0)
}

/// Plays a line.
fn play(
    alloc: Global,
    line: &str,
    schedule: &mut Vec<u8>,
    said: &mut Said,
) -> Result<(), NoMemory> {
    let (word, rest) = line.split_once(' ').unwrap_or((line, ""));
    match word {
        "#" => {
            said.line(line);
            Ok(())
        }
        "read" => read(alloc, rest, said),
        "many" => read_many(alloc, rest, said),
        "script" => write_script(alloc, rest, said),
        "packet" => write_packet(alloc, rest, said),
        "schedule" => {
            schedule.clear();
            percent_decode(rest.as_bytes()).append_to(schedule)?;
            Ok(())
        }
        "line" => ask_packet(alloc, schedule.as_slice(), rest, said),
        "event" => ask_event(alloc, rest, said),
        "service" => ask_service(alloc, rest, said),
        "header" => ask_header(alloc, rest, said),
        _ => {
            said.line("no such line");
            Ok(())
        }
    }
}

fn bytes_of(alloc: Global, escaped: &str) -> Result<Vec<u8>, NoMemory> {
    let mut text = Vec::new(alloc);
    percent_decode(escaped.as_bytes()).append_to(&mut text)?;
    Ok(text)
}

/// A number and the text after it, or nothing where there is no number.
fn number_of(rest: &str) -> Option<(u32, &str)> {
    let (number, text) = rest.split_once(' ').unwrap_or((rest, ""));
    match number.parse::<u32>() {
        Ok(number) => Some((number, text)),
        Err(_) => None,
    }
}

/// Reads a schedule, and says its header and its events.
fn read(alloc: Global, escaped: &str, said: &mut Said) -> Result<(), NoMemory> {
    let text = bytes_of(alloc, escaped)?;
    match read_schedule(alloc, text.as_slice()) {
        Ok(schedule) => {
            report_schedule(alloc, &schedule, said);
            Ok(())
        }
        Err(end) => write_end(end, said),
    }
}

/// Says a schedule's header and its events.
fn report_schedule(alloc: Global, schedule: &Schedule, said: &mut Said) {
    let mut lines = Vec::new(alloc);
    said.note(write_schedule(alloc, schedule, &mut lines));
    said.add(lines.as_slice());
}

fn write_schedule(alloc: Global, schedule: &Schedule, lines: &mut Vec<u8>) -> Result<(), NoMemory> {
    write_header(alloc, schedule, lines)?;
    for event in schedule.events.as_slice() {
        write_event(alloc, 1, event, lines)?;
    }
    Ok(())
}

/// Says why a text is refused.
fn write_end(end: ScheduleEnd, said: &mut Said) -> Result<(), NoMemory> {
    match end {
        ScheduleEnd::NoMemory => return Err(NoMemory),
        ScheduleEnd::BadLine { line, why } => write!(said, "line {line}: {why:?}\n"),
        ScheduleEnd::TooLong { what } => write!(said, "too long: {what:?}\n"),
    }
    Ok(())
}

/// Writes a schedule's header and copies of a line.
fn write_many(text: &mut Vec<u8>, count: u32, line: &str) -> Result<(), NoMemory> {
    text.extend_from_slice(HEAD)?;
    for _ in 0..count {
        text.extend_from_slice(line.as_bytes())?;
        text.push(b'\n')?;
    }
    Ok(())
}

/// Reads a schedule of a header and many copies of a line, and says how many events it has.
fn read_many(alloc: Global, rest: &str, said: &mut Said) -> Result<(), NoMemory> {
    let Some((count, line)) = number_of(rest) else {
        said.line("no count");
        return Ok(());
    };
    let mut text = Vec::new(alloc);
    said.note(write_many(&mut text, count, line));
    match read_schedule(alloc, text.as_slice()) {
        Ok(schedule) => {
            let count = schedule.events.as_slice().len();
            write!(said, "{count} events\n");
            Ok(())
        }
        Err(end) => write_end(end, said),
    }
}

/// Says what a client has to say.
fn write_script(alloc: Global, word: &str, said: &mut Said) -> Result<(), NoMemory> {
    match read_script(alloc, word.as_bytes())? {
        Some(Script::Bytes(bytes)) => {
            said.digits(bytes.as_slice());
            said.end_line();
        }
        Some(Script::Fill { len }) => write!(said, "{len} letters\n"),
        None => said.line("no script"),
    }
    Ok(())
}

/// Says the line of a packet.
fn write_packet(alloc: Global, rest: &str, said: &mut Said) -> Result<(), NoMemory> {
    let (way, text) = rest.split_once(' ').unwrap_or((rest, ""));
    let way = match way {
        "up" => Way::ClientToServer(1),
        "down" => Way::ServerToClient(1),
        "out" => Way::ServerToLogger,
        "on" => Way::HeadToTail,
        "back" => Way::TailToHead,
        _ => Way::LoggerToServer,
    };
    match bytes_of_hex(alloc, text)? {
        Some(bytes) => write_bytes(alloc, way, bytes.as_slice(), said),
        None => said.line("no bytes"),
    }
    Ok(())
}

/// Says the line of the packet that these bytes are, or why they are none.
fn write_bytes(alloc: Global, way: Way, bytes: &[u8], said: &mut Said) {
    if !is_packet(way, bytes) {
        return write_refusal(way, bytes, said);
    }
    let mut line = Vec::new(alloc);
    said.note(write_packet_line(alloc, 7, way, bytes, &mut line));
    said.add(line.as_slice());
}

/// Says which test of its grammar a segment or a message fails.
fn write_refusal(way: Way, bytes: &[u8], said: &mut Said) {
    said.add(b"no packet");
    match way {
        Way::ClientToServer(_) | Way::ServerToClient(_) => {
            if let Err(bad) = read_packet(bytes) {
                write!(said, ": {bad:?}");
            }
        }
        Way::ServerToLogger | Way::LoggerToServer => {
            if let Err(bad) = read_msg(bytes) {
                write!(said, ": {bad:?}");
            }
        }
        Way::HeadToTail | Way::TailToHead => (),
    }
    said.end_line();
}
