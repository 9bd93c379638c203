//! `node_cases`: the cases on whole nodes, processes and runs. Without words it reads parts from its standard input: a line `== NAME` begins a part, and the
//! lines up to the next such line are the script of that name. It prints the line `== NAME`, then what the script says, and `status N` where the script's
//! status isn't 0. NAME is `connection`, whose cases are in its code, `link`, `node`, `lasting`, `replay`, `own`, whose lines are a schedule, or `bench`,
//! whose lines are commands and what they read. A line before the first part and a name that no script has end it with status 2.
//!
//! `node_cases NAME` plays its whole standard input as the script of this name, and ends with its status. `node_cases bench WORD..` does what one command asks
//! for, for the scripts of bench/.
//!
//! With any other words it is `ftnode`, since `link` starts `ftnode` as a process; and with `PROGRAM=ftreplay` in its environment it is `ftreplay`, since
//! `replay` starts that.
#![tactic(auto)]

use anyhow::{Result, bail};
use ft_system::{MemSink, MemSource, ReadSource};
use node_process::run_ftnode;
use replay_script::{Tool, is_ftreplay};
use replay_tool::{replay, run_ftreplay};
use std::alloc::Global;
use std::fs::{File, Files};
use std::net::Net;
use std::process::{ExitCode, Processes};
use std::rt::Env;
use std::time::Clock;
use std::{env, mem};
use test_data::{Program, Said, Scripts, lines_of};

const NODE_CASES: Program = Program {
    name: "node_cases",
    seam: "\n== ",
};

fn main(rt: HostRuntime) -> Result<ExitCode> {
    if is_ftreplay(&rt) {
        let status = run_ftreplay(&rt, rt.stdin(), rt.stdout(), rt.stderr())?;
        return Ok(status);
    }
    let words: Vec<String> = env::args(&rt)?.skip(1).collect(rt.alloc())?;
    let words: Vec<&str> = words.iter().map(|word| word.as_str()).collect(rt.alloc())?;
    if let ["bench", command @ ..] = words.as_slice()
        && !command.is_empty()
    {
        let status = node_bench::run(&rt, command, &mut rt.reader())?;
        return Ok(ExitCode::from(status));
    }
    if are_for_ftnode(words.as_slice()) {
        let status = run_ftnode(&rt, rt.stdin(), rt.stdout(), rt.stderr())?;
        return Ok(status);
    }
    let scripts = NodeScripts { system: &rt };
    let name = match words.as_slice() {
        [name] => Some(*name),
        _ => None,
    };
    NODE_CASES.play(&rt, &scripts, name, &mut ReadSource::new(rt.stdin()))
}

/// Whether these words are for `ftnode`: there are some, and they aren't the name of a script.
fn are_for_ftnode(words: &[&str]) -> bool {
    match words {
        [] => false,
        [word] => match *word {
            "connection" | "link" | "node" | "lasting" | "replay" | "bench" | "own" => false,
            _ => true,
        },
        _ => true,
    }
}

/// The scripts on whole nodes, processes and runs.
#[derive(Drop)]
struct NodeScripts<'a, R> {
    system: &'a R,
}

impl<
    'a,
    R: AllocGlobal + Env + Print + Eprint + Net + Clock + Files<File = File> + Processes,
> Scripts for NodeScripts<'a, R> {
    fn play(&self, name: &str, text: &[u8], said: &mut Said) -> Result<Option<u8>> {
        let (system, alloc) = (self.system, self.system.alloc());
        let status = match name {
            "connection" => connection_script::run(alloc, said),
            "link" => link_script::run(system, lines_of(text)?, said),
            "node" => node_script::run(alloc, lines_of(text)?, said),
            "lasting" => lasting_script::run(alloc, lines_of(text)?, said),
            "replay" => replay_script::run::<Ftreplay, _>(system, lines_of(text)?, said),
            "own" => Ok(play_own(alloc, text, said)),
            "bench" => return play_commands(system, lines_of(text)?),
            _ => return Ok(None),
        };
        let Ok(status) = status else {
            bail!("no memory");
        };
        Ok(Some(status))
    }
}

/// `ftreplay`, as `replay_script` plays it over memory.
struct Ftreplay;

impl Tool for Ftreplay {
    fn replay(
        alloc: Global,
        words: &[String],
        input: &mut MemSource,
        report: &mut MemSink,
        err: &mut MemSink,
    ) -> u8 {
        replay(alloc, words, input, report, err).code
    }
}

/// Plays a schedule with the service of `own_service`, and says what is written of it. The status, which is 0.
fn play_own(alloc: Global, schedule: &[u8], said: &mut Said) -> u8 {
    let mut lines = String::new(alloc);
    match own_service::run(alloc, schedule, &mut lines) {
        Ok(()) => said.add(lines.as_bytes()),
        Err(end) => said.line(end.text()),
    }
    0
}

/// Does what each line asks for, until one fails. A line `< TEXT` is a line of what the next command reads. The status of the last command.
fn play_commands<R: AllocGlobal + Print + Eprint>(rt: &R, lines: &str) -> Result<Option<u8>> {
    let alloc = rt.alloc();
    let mut input = String::new(alloc);
    for line in lines.lines() {
        if let Some(text) = line.strip_prefix("< ") {
            input.push_str(text)?;
            input.push_str("\n")?;
            continue;
        }
        let words: Vec<&str> = line.split(' ').collect(alloc)?;
        let given = mem::replace(&mut input, String::new(alloc));
        let status = node_bench::run(rt, words.as_slice(), &mut given.as_bytes())?;
        if status != 0 {
            return Ok(Some(status));
        }
    }
    Ok(Some(0))
}
