//! `ftnode` runs a server, a logger or a client of FT-TCP as a process over UDP, or a pair of servers with a logger and a client, each a process. A logger may
//! keep its log in a journal file, or two loggers may act as one. `main` passes the system and the standard streams to `run_ftnode`, which does the rest.
#![tactic(auto)]

use node_process::run_ftnode;
use std::io;
use std::process::ExitCode;

fn main(rt: HostRuntime) -> io::Result<ExitCode> {
    run_ftnode(&rt, rt.stdin(), rt.stdout(), rt.stderr())
}
