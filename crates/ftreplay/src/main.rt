//! `ftreplay`: plays a written schedule and prints every event and packet; generates a schedule from a seed, plays it and prints a summary; or checks a
//! report. `run_ftreplay` does everything. Here it gets the system, the standard input, the standard output and the standard error.
#![tactic(auto)]

use replay_tool::run_ftreplay;
use std::io;
use std::process::ExitCode;

fn main(rt: HostRuntime) -> io::Result<ExitCode> {
    run_ftreplay(&rt, rt.stdin(), rt.stdout(), rt.stderr())
}
