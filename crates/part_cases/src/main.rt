//! `part_cases`: the cases on the parts below the node. Without words it reads parts from its standard input: a line `= NAME` begins a part, and the lines up
//! to the next such line are the script of that name. It prints the line `= NAME`, then what the script says, and `status N` where the script's status isn't
//! 0. NAME is `endpoint`, `io`, `log`, `service`, `text`, or `wire`, whose lines are commands. A line before the first part and a name that no script has end
//! it with status 2.
//!
//! `part_cases NAME` plays its whole standard input as the script of this name, and ends with its status. `part_cases wire WORD..` does what one command asks
//! for, for the scripts of bench/.
#![tactic(auto)]

use anyhow::{Result, bail};
use ft_system::ReadSource;
use std::env;
use std::fs::{File, Files};
use std::net::Net;
use std::process::{ExitCode, Processes};
use std::time::Clock;
use test_data::{Program, Said, Scripts, lines_of};

const PART_CASES: Program = Program {
    name: "part_cases",
    seam: "\n= ",
};

fn main(rt: HostRuntime) -> Result<ExitCode> {
    let words: Vec<String> = env::args(&rt)?.skip(1).collect(rt.alloc())?;
    let words: Vec<&str> = words.iter().map(|word| word.as_str()).collect(rt.alloc())?;
    let mut input = ReadSource::new(rt.stdin());
    if let ["wire", command @ ..] = words.as_slice()
        && !command.is_empty()
    {
        wire_bench::run(&rt, command, &mut input)?;
        return Ok(ExitCode::SUCCESS);
    }
    if words.len() > 1 {
        bail!("part_cases [endpoint|io|log|service|text|wire [WORD..]]");
    }
    let scripts = PartScripts { system: &rt };
    let name = match words.as_slice() {
        [name] => Some(*name),
        _ => None,
    };
    PART_CASES.play(&rt, &scripts, name, &mut input)
}

/// The scripts on the parts below the node.
#[derive(Drop)]
struct PartScripts<'a, R> {
    system: &'a R,
}

impl<'a, R: AllocGlobal + Print + Net + Clock + Files<File = File> + Processes> Scripts
    for PartScripts<'a, R> {
    fn play(&self, name: &str, text: &[u8], said: &mut Said) -> Result<Option<u8>> {
        let alloc = self.system.alloc();
        let status = match name {
            "endpoint" => endpoint_script::run(alloc, text, said),
            "io" => io_script::run(self.system, alloc, lines_of(text)?, said),
            "log" => log_script::run(alloc, lines_of(text)?, said),
            "service" => service_script::run(alloc, lines_of(text)?, said),
            "text" => text_script::run(alloc, lines_of(text)?, said),
            "wire" => return play_commands(self.system, lines_of(text)?),
            _ => return Ok(None),
        };
        let Ok(status) = status else {
            bail!("no memory");
        };
        Ok(Some(status))
    }
}

/// Does what each line asks for, until one fails.
fn play_commands<R: AllocGlobal + Print + Net + Clock>(rt: &R, lines: &str) -> Result<Option<u8>> {
    for line in lines.lines() {
        let words: Vec<&str> = line.split(' ').collect(rt.alloc())?;
        wire_bench::run(rt, words.as_slice(), &mut ReadSource::new(b"".as_slice()))?;
    }
    Ok(Some(0))
}
