//! Runs of a process over a link in memory, by the lines of a script: it is said how each run ends. The lines of a script:
//!
//! - `# ..` is printed as it is;
//! - `ask WORDS` prints which role the words ask for, and with which profile, if it isn't the plain one. In words `~` means a space, and `''` an empty word;
//! - `come FROM HEX` adds a datagram to what arrives at the next run, and `nothing` a receive that times out;
//! - `input HEX` is the input of the next run;
//! - `child N` gives the next child of the next run the status N; without this line it is 0;
//! - `fail CALL N` makes the call with number N, from 1, of the next run fail: CALL is `bind`, `send`, `receive`, `read`, `write`, `error` or `child`: the
//!   writes are on out and err, and starts of children and waits for them have one numbering;
//! - `run WORDS` runs a process with the four services, and prints its status, what it wrote to out and to err, and the calls that the link and the spawner
//! recorded; `brief WORDS`   prints of the link's calls only how many were receives and how many sends;
//! - `own WORDS` is the same as `run`, with the service Counter, and `node WORDS` is the same for `node`;
//! - `start WORDS` starts `ftnode` as a process, and prints its exit status and what it wrote to both outputs. Its shell's command is that of a line `shell
//!   TEXT` before it, where `$0` is the program and `$@` are its words. `answer HEX` is what a peer at 127.0.0.1:7461 answers to the datagrams that reach it,
//!   one after another, and `hold FILE` keeps this journal open meanwhile. Before that the peer says what lines `shown ADDRESS HEX` have, each until an answer
//!   comes, which is printed, and once what lines `throw ADDRESS HEX` have.
//!
//! The program that calls `run` is `$0`. With the words of `ftnode` it must be `ftnode`, by `run_ftnode`.
#![tactic(auto)]

use faults::Faults;
use ft_io::{NoMemory, Octets};
use ft_system::Arrival;
use node_link::NodeRole;
use node_process::{Role, Services, TwinRole, read_role};
use process::{Meeting, Question};
use runs::{Setting, Way};
use schedule_text::read_addr;
use std::alloc::Global;
use std::fs::{File, Files};
use std::mem;
use std::net::Net;
use std::process::Processes;
use std::rt::Env;
use std::time::Clock;
use tcp_rules::Profile;
use test_data::{Said, bytes_of_hex};
use twin_log::Part;

mod children;
mod faults;
mod process;
mod runs;

/// Plays the lines of a script, and says what came of each. The status, which is 0.
pub fn run<R: AllocGlobal + Env + Net + Clock + Files<File = File> + Processes>(
    system: &R,
    text: &str,
    said: &mut Said,
) -> Result<u8, NoMemory> {
    let mut script = Script::new(system.alloc());
    for line in text.lines() {
        script.play(system, line)?;
    }
    said.add(script.said.bytes()?);
    Ok(0)
}

/// What arrives at the next run, its input, how its children end, and which of its calls fail; what the next process finds; and what was said so far.
#[derive(Drop)]
struct Script {
    arrivals: Vec<Arrival>,
    input: Vec<u8>,
    statuses: Vec<i32>,
    faults: Faults,
    meeting: Meeting,
    said: Said,
}

impl Script {
    fn new(alloc: Global) -> Script {
        Script {
            arrivals: Vec::new(alloc),
            input: Vec::new(alloc),
            statuses: Vec::new(alloc),
            faults: Faults::new(alloc),
            meeting: Meeting::new(alloc),
            said: Said::new(alloc),
        }
    }

    /// Plays a line.
    fn play<R: AllocGlobal + Env + Net + Clock + Files<File = File> + Processes>(
        &mut self,
        system: &R,
        line: &str,
    ) -> Result<(), NoMemory> {
        let alloc = system.alloc();
        let (word, rest) = line.split_once(' ').unwrap_or((line, ""));
        match word {
            "#" => self.said.line(line),
            "ask" => return ask(alloc, rest, &mut self.said),
            "run" => return self.run(alloc, rest, Way::Node),
            "brief" => return self.run(alloc, rest, Way::Brief),
            "own" => return self.run(alloc, rest, Way::Own),
            "node" => return self.run(alloc, rest, Way::Specified),
            "start" => return self.start(system, rest),
            // What the next run or the next process meets.
            "come" => return self.come(alloc, rest),
            "nothing" => self.arrivals.push(Arrival::Nothing)?,
            "child" => return self.end_child(rest),
            "fail" => return self.faults.add(rest),
            "input" => return self.set_input(alloc, rest),
            "shell" => self.meeting.shell = String::from_str(alloc, rest)?,
            "hold" => self.meeting.held = String::from_str(alloc, rest)?,
            "answer" => return self.answer(alloc, rest),
            "tell" => return self.question(alloc, rest, true),
            "throw" => return self.question(alloc, rest, false),
            _ => self.said.line("no such line"),
        }
        Ok(())
    }

    /// Runs it with these words.
    fn run(&mut self, alloc: Global, rest: &str, way: Way) -> Result<(), NoMemory> {
        let words = words_of(alloc, rest)?;
        let setting = Setting {
            arrivals: mem::replace(&mut self.arrivals, Vec::new(alloc)),
            input: mem::replace(&mut self.input, Vec::new(alloc)),
            statuses: mem::replace(&mut self.statuses, Vec::new(alloc)),
            faults: mem::replace(&mut self.faults, Faults::new(alloc)),
            way,
        };
        runs::run(alloc, words.as_slice(), setting, &mut self.said);
        Ok(())
    }

    /// Starts a process with these words.
    fn start<R: AllocGlobal + Env + Net + Clock + Files<File = File> + Processes>(
        &mut self,
        system: &R,
        rest: &str,
    ) -> Result<(), NoMemory> {
        let words = words_of(system.alloc(), rest)?;
        let meeting = mem::replace(&mut self.meeting, Meeting::new(system.alloc()));
        process::start(system, words.as_slice(), &meeting, &mut self.said);
        Ok(())
    }

    /// Adds an answer of the next process's peer.
    fn answer(&mut self, alloc: Global, text: &str) -> Result<(), NoMemory> {
        match bytes_of_hex(alloc, text)? {
            Some(bytes) => self.meeting.answers.push(bytes)?,
            None => self.said.line("no answer"),
        }
        Ok(())
    }

    /// Adds a question of the next process's peer.
    fn question(&mut self, alloc: Global, rest: &str, wants_answer: bool) -> Result<(), NoMemory> {
        let (to, text) = rest.split_once(' ').unwrap_or((rest, ""));
        match (read_addr(to.as_bytes()), bytes_of_hex(alloc, text)?) {
            (Some(to), Some(bytes)) => self.meeting.questions.push(Question {
                to,
                bytes,
                wants_answer,
            })?,
            _ => self.said.line("no question"),
        }
        Ok(())
    }

    /// Sets the input.
    fn set_input(&mut self, alloc: Global, text: &str) -> Result<(), NoMemory> {
        match bytes_of_hex(alloc, text)? {
            Some(bytes) => self.input = bytes,
            None => self.said.line("no input"),
        }
        Ok(())
    }

    /// Gives the next child a status.
    fn end_child(&mut self, text: &str) -> Result<(), NoMemory> {
        match text.parse::<i32>() {
            Ok(status) => self.statuses.push(status)?,
            Err(_) => self.said.line("no status"),
        }
        Ok(())
    }

    /// Adds a datagram to what comes.
    fn come(&mut self, alloc: Global, rest: &str) -> Result<(), NoMemory> {
        let (from, text) = rest.split_once(' ').unwrap_or((rest, ""));
        match (read_addr(from.as_bytes()), bytes_of_hex(alloc, text)?) {
            (Some(from), Some(bytes)) => {
                let bytes = Octets::new(bytes);
                self.arrivals.push(Arrival::Datagram { from, bytes })?;
            }
            _ => self.said.line("no datagram"),
        }
        Ok(())
    }
}

/// Says which role the words ask for, and with which profile, if it isn't the plain one.
fn ask(alloc: Global, text: &str, said: &mut Said) -> Result<(), NoMemory> {
    let words = words_of(alloc, text)?;
    let Some(role) = read_role(alloc, Services::Named, words.as_slice())? else {
        said.line("none");
        return Ok(());
    };
    said.add(name_of(&role).as_bytes());
    match profile_of(&role) {
        Profile::Plain => said.end_line(),
        Profile::Wan => said.line(" wan"),
    }
    Ok(())
}

/// The name of a role.
fn name_of<'a>(role: &Role) -> &'a str {
    match role {
        Role::Node(NodeRole::Server(_)) => "server",
        Role::Node(NodeRole::Logger(_)) => "logger",
        Role::Node(NodeRole::Client(_)) => "client",
        Role::Node(NodeRole::Pair(_)) => "pair",
        Role::Lasting(_) => "lasting",
        Role::Journal(_) => "journal",
        Role::Twin(TwinRole::Logger(role)) => match role.part {
            Part::Head => "head",
            Part::Tail => "tail",
        },
        Role::Twin(TwinRole::Alone(_)) => "alone",
    }
}

/// The profile of a role. One whose words have no profile is plain.
fn profile_of(role: &Role) -> Profile {
    match role {
        Role::Node(NodeRole::Server(role)) => role.profile,
        Role::Node(NodeRole::Logger(role)) => role.profile,
        Role::Node(NodeRole::Client(role)) => role.profile,
        Role::Lasting(role) => role.server.profile,
        Role::Journal(role) => role.logger.profile,
        Role::Twin(TwinRole::Logger(role)) => role.logger.profile,
        Role::Node(NodeRole::Pair(_)) | Role::Twin(TwinRole::Alone(_)) => Profile::Plain,
    }
}

/// The words of a text, which single spaces separate. An empty text has none.
fn words_of(alloc: Global, text: &str) -> Result<Vec<String>, NoMemory> {
    let mut words = Vec::new(alloc);
    if text.is_empty() {
        return Ok(words);
    }
    for piece in text.split(' ') {
        let piece = if piece == "''" { "" } else { piece };
        words.push(piece.replace(alloc, '~', " ")?)?;
    }
    Ok(words)
}
