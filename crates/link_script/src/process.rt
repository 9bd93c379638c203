//! A run of `ftnode` as a process. The program that plays the script is `ftnode` itself where it has the words of `ftnode`, by the one call that `ftnode`
//! makes. So it starts itself again.

use disk::FileDisk;
use ft_io::{Addr, Link, Receipt};
use ft_system::UdpLink;
use std::alloc::Global;
use std::fs::{File, Files};
use std::net::Net;
use std::process::{Child, Command, Output, Processes, Stdio};
use std::rt::Env;
use std::time::Clock;
use std::{env, io};
use test_data::Said;

/// Where the peer of a process is.
const PEER: Addr = Addr {
    ip: 0x7F00_0001,
    port: 7461,
};

/// How often the peer receives at most. In silence a receive takes at most 20 ms.
const PATIENCE: u32 = 1_000;

/// After how many receives the peer says a question again.
const REPEAT: u32 = 10;

/// What the peer says first.
#[derive(Drop)]
pub struct Question {
    pub to: Addr,
    pub bytes: Vec<u8>,
    /// It is said again until an answer comes that differs from the last one. Otherwise it is said once, and nothing is awaited.
    pub wants_answer: bool,
}

/// What a process meets.
#[derive(Drop)]
pub struct Meeting {
    /// The shell's command that starts it: `$0` is the program, and `$@` are its words. If it is empty, the program is only started.
    pub shell: String,
    /// What the peer answers to the datagrams that it receives, one after another.
    pub answers: Vec<Vec<u8>>,
    /// What the peer says before that, one after another.
    pub questions: Vec<Question>,
    /// A journal that is open meanwhile. None where the name is empty.
    pub held: String,
}

impl Meeting {
    pub fn new(alloc: Global) -> Meeting {
        Meeting {
            shell: String::new(alloc),
            answers: Vec::new(alloc),
            questions: Vec::new(alloc),
            held: String::new(alloc),
        }
    }

    /// The shell's command.
    fn command(&self) -> &str {
        if self.shell.is_empty() {
            return "exec \"$0\" \"$@\"";
        }
        self.shell.as_str()
    }
}

/// Starts it with these words, and says what it answered, its exit status, and what it wrote to both outputs.
pub fn start<R: AllocGlobal + Env + Net + Clock + Files<File = File> + Processes>(
    system: &R,
    words: &[String],
    meeting: &Meeting,
    said: &mut Said,
) {
    let _held = FileDisk::open(system, meeting.held.as_str());
    match run(system, words, meeting, said) {
        Ok(output) => {
            let status = output.status.code().unwrap_or(-1);
            write!(said, "status {status}\n");
            said.add(output.stdout.as_slice());
            said.add(output.stderr.as_slice());
        }
        Err(_) => said.line("not started"),
    }
}

/// Runs it to its end, next to its peer.
fn run<R: AllocGlobal + Env + Net + Clock + Processes>(
    system: &R,
    words: &[String],
    meeting: &Meeting,
    said: &mut Said,
) -> io::Result<Output> {
    let mut peer = UdpLink::new(system);
    run_beside(system, words, meeting, &mut peer, said)
}

fn run_beside<R: AllocGlobal + Env + Processes, L: Link>(
    system: &R,
    words: &[String],
    meeting: &Meeting,
    peer: &mut L,
    said: &mut Said,
) -> io::Result<Output> {
    if peer.bind(PEER).is_err() {
        return Err(io::ErrorKind::AddrInUse.into());
    }
    let child = spawn(system, words, meeting)?;
    ask_all(peer, &meeting.questions, said);
    answer_all(peer, &meeting.answers);
    child.wait_with_output(system.alloc())
}

/// Starts a shell, which starts it.
fn spawn<R: AllocGlobal + Env + Processes>(
    system: &R,
    words: &[String],
    meeting: &Meeting,
) -> io::Result<Child<R::Started>> {
    let mut shell = Command::new(system.alloc(), "/bin/sh")?;
    spawn_by(system, words, meeting, &mut shell)
}

/// Gives the shell its command, the program and its words, and starts it.
fn spawn_by<R: AllocGlobal + Env + Processes>(
    system: &R,
    words: &[String],
    meeting: &Meeting,
    shell: &mut Command,
) -> io::Result<Child<R::Started>> {
    shell.arg("-c")?.arg(meeting.command())?;
    if let Some(program) = env::args(system)?.next() {
        shell.arg(program.as_str())?;
    }
    for word in words {
        shell.arg(word.as_str())?;
    }
    shell
        .stdin(Stdio::null())
        .stdout(Stdio::piped())
        .stderr(Stdio::piped())
        .spawn(system)
}

/// Says each question, and says what is answered.
fn ask_all<L: Link>(peer: &mut L, questions: &[Question], said: &mut Said) {
    let mut last = [0u8; 2048];
    for question in questions {
        if !question.wants_answer {
            // One that isn't sent shows in the answers that follow.
            let _ = peer.send(question.to, question.bytes.as_slice());
            continue;
        }
        match ask(peer, question, &mut last) {
            Some(len) => {
                said.add(b"answer ");
                said.hex(&last[..len.min(2048)]);
                said.end_line();
            }
            None => said.line("no answer"),
        }
    }
}

/// Says a question until an answer comes that differs from the last one, and puts it in that one's place. Its length.
fn ask<L: Link>(peer: &mut L, question: &Question, last: &mut [u8; 2048]) -> Option<usize> {
    for turn in 0..PATIENCE {
        if turn % REPEAT == 0 {
            // One that isn't sent is sent again.
            let _ = peer.send(question.to, question.bytes.as_slice());
        }
        let mut came = [0u8; 2048];
        if let Ok(Receipt::Got { len, .. }) = peer.recv(&mut came)
            && came != *last
        {
            *last = came;
            return Some(len);
        }
    }
    None
}

/// Gives each answer, to what comes next that isn't a repeat. A repeat gets the answer that was given before.
fn answer_all<L: Link>(peer: &mut L, answers: &[Vec<u8>]) {
    let mut last = [0u8; 2048];
    let mut given = 0;
    for _ in 0..PATIENCE {
        if given == answers.len() {
            return;
        }
        let mut came = [0u8; 2048];
        if let Ok(Receipt::Got { from, .. }) = peer.recv(&mut came) {
            if given == 0 || came != last {
                given = given.saturating_add(1);
                last = came;
            }
            if let Some(answer) = answers.get(given.saturating_sub(1)) {
                // One that isn't sent shows in how the process ends.
                let _ = peer.send(from, answer.as_slice());
            }
        }
    }
}
