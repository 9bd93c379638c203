//! Schedules that `ftreplay` plays over memory, by the lines of a script: it is said what was written and how that ended. The program passes `ftreplay` as a
//! [`Tool`]. A line that begins with `=` says what is done with the lines after it, up to the next such line:
//!
//! - `= play NAME WORDS READ OUT ERR LAST` plays them as the text of a schedule, with these words, joined by `~`; READ, OUT and ERR number the call of the
//!   source, of the sink of the report and of that of the errors that fails, 0 for none. Printed are the status, what was written to the sink of the errors,
//!   and the report: its last LAST lines, or all of it for 0. Without lines of its own, it plays those of the one before it;
//! - `= checked NAME` plays them by `run`, and then the report by `check`;
//! - `= crash NAME` plays, for each n, the first n of the events in a new world; then the server crashes and restarts, all that is sent from the restart on is
//!   delivered, and client 1 continues. Printed is what it has accepted at the end, and how many bytes and reads the log's first entry has;
//! - `= crash NAME PART` does so, and one of two loggers stops as the server crashes: 1 is the head, 2 the tail;
//! - `= greeted NAME` is `= crash NAME` with the receiver of mail in place of the schedule's service: it speaks first. `|` is a line end;
//! - `= deltas NAME` plays all events, and prints the delta of each connection that the server has live at the end: the client's numbers less the inner TCP's;
//! - `= shell`, which comes last, hands them to `sh` as a script, which can run `ftreplay` as a process ([`shell`]).
//!
//! Among the lines of a schedule, `*COUNT LINE` means this line COUNT times.
#![tactic(auto)]

use ft_io::NoMemory;
use mail_service::Mail;
pub use playing::Tool;
use playing::{play, play_checked};
use sample_servers::AnyService;
pub use shell::is_ftreplay;
use shell::run_script;
use std::alloc::Global;
use std::process::Processes;
use std::rt::Env;
use test_data::Said;
use worlds::{play_crashes, play_deltas};

mod crashes;
mod deltas;
mod playing;
mod shell;
mod worlds;

/// What a script says up to here: what is to be done next, and with which text.
#[derive(Drop)]
struct Script {
    order: String,
    text: Vec<u8>,
    fresh: bool,
}

impl Script {
    /// A line: the next order, or one of the text.
    fn take<T: Tool>(
        &mut self,
        alloc: Global,
        line: &str,
        said: &mut Said,
    ) -> Result<(), NoMemory> {
        if line.starts_with('=') {
            self.follow::<T>(alloc, said)?;
            self.order = String::from_str(alloc, line)?;
            self.fresh = true;
            return Ok(());
        }
        if self.fresh {
            self.text.clear();
            self.fresh = false;
        }
        self.add(line)
    }

    /// A line of the text, or many.
    fn add(&mut self, line: &str) -> Result<(), NoMemory> {
        let Some((count, repeated)) = many(line) else {
            self.text.extend_from_slice(line.as_bytes())?;
            self.text.push(b'\n')?;
            return Ok(());
        };
        for _ in 0..count {
            self.text.extend_from_slice(repeated.as_bytes())?;
            self.text.push(b'\n')?;
        }
        Ok(())
    }

    /// Does what the order says, and says what it prints.
    fn follow<T: Tool>(&self, alloc: Global, said: &mut Said) -> Result<(), NoMemory> {
        let mut words = Vec::new(alloc);
        for word in self.order.split_whitespace() {
            words.push(word)?;
        }
        match words.as_slice() {
            [_, "play", rest @ ..] => play::<T>(alloc, rest, &self.text, said),
            [_, "checked", name] => play_checked::<T>(alloc, name, &self.text, said),
            [_, "deltas", name] => play_deltas(alloc, name, &self.text, said),
            [_, "greeted", name] => play_crashes::<Mail>(alloc, name, None, &self.text, said),
            [_, "crash", name] => play_crashes::<AnyService>(alloc, name, None, &self.text, said),
            [_, "crash", name, part] => play_crashes::<AnyService>(
                alloc,
                name,
                part.parse().ok(),
                &self.text,
                said,
            ),
            _ => Ok(()),
        }
    }
}

/// The repeated line, and how often it is repeated.
fn many(line: &str) -> Option<(u32, &str)> {
    let (count, repeated) = line.strip_prefix('*')?.split_once(' ')?;
    let Ok(count) = count.parse::<u32>() else {
        return None;
    };
    Some((count, repeated))
}

/// Runs these lines as a script for `sh`, and says what it wrote.
fn play_shell<R: AllocGlobal + Env + Processes>(system: &R, lines: &[u8], said: &mut Said) {
    let Ok(script) = str::from_utf8(lines) else {
        return said.line("no text");
    };
    if !run_script(system, script, said).unwrap_or(false) {
        said.line("the script fails");
    }
}

/// Plays a script, and says what it prints. Only the last order may be `= shell`. The status, which is 0.
pub fn run<T: Tool, R: AllocGlobal + Env + Processes>(
    system: &R,
    text: &str,
    said: &mut Said,
) -> Result<u8, NoMemory> {
    let alloc = system.alloc();
    let mut script = Script {
        order: String::new(alloc),
        text: Vec::new(alloc),
        fresh: true,
    };
    for line in text.lines() {
        script.take::<T>(alloc, line, said)?;
    }
    if script.order.as_str() == "= shell" {
        play_shell(system, script.text.as_slice(), said);
    } else {
        script.follow::<T>(alloc, said)?;
    }
    Ok(0)
}
