//! A script for `sh`, in which `$0` is the program that plays the script. With `PROGRAM=ftreplay` in its environment that is `ftreplay`: it does all that the
//! main of `ftreplay` does. So the script runs it as a process, with words, streams and limits of its own, and prints its exit status and what it wrote to
//! both outputs.

use std::process::{Command, Processes, Stdio};
use std::rt::Env;
use std::{env, io};
use test_data::Said;

/// Whether the environment makes this program `ftreplay`.
pub fn is_ftreplay<R: AllocGlobal + Env>(system: &R) -> bool {
    match env::var(system, "PROGRAM") {
        Ok(name) => name.as_str() == "ftreplay",
        Err(_) => false,
    }
}

/// Runs the script, and says what it wrote to its output. True where the exit status of `sh` is 0.
pub(crate) fn run_script<R: AllocGlobal + Env + Processes>(
    system: &R,
    script: &str,
    said: &mut Said,
) -> io::Result<bool> {
    let Some(program) = env::args(system)?.next() else {
        return Ok(false);
    };
    let mut shell = Command::new(system.alloc(), "sh")?;
    shell.arg("-c")?;
    shell.arg(script)?;
    shell.arg(program.as_str())?;
    shell.stdin(Stdio::null());
    shell.stderr(Stdio::inherit());
    let output = shell.output(system)?;
    said.add(output.stdout.as_slice());
    Ok(output.status.success())
}
