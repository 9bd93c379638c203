//! A whole program, over a given system.

use crate::process::Process;
use crate::role::Services;
use crate::top::run;
use disk::HostDesk;
use ft_system::{ProcessSpawner, ReadSource, UdpLink, WriteSink};
use sample_servers::AnyService;
use server_trait::Saved;
use std::fs::{File, Files};
use std::io::{Read, Write};
use std::net::Net;
use std::process::{ExitCode, Processes};
use std::rt::Env;
use std::time::Clock;
use std::{env, io};

/// Runs a process with these words, this system's sockets, files and processes, and these streams. Returns its exit status, that of [`run`].
pub fn run_program<
    S: Saved,
    R: AllocGlobal + Net + Clock + Files<File = File> + Processes,
    I: Read + Drop,
    O: Write + Drop,
    E: Write + Drop,
>(system: &R, services: Services, words: &[String], input: I, out: O, err: E) -> ExitCode {
    let mut process = Process {
        link: UdpLink::new(system),
        input: ReadSource::new(input),
        out: WriteSink::new(out),
        err: WriteSink::new(err),
        children: ProcessSpawner::new(system, system.alloc()),
        desk: HostDesk::new(system.alloc(), system),
    };
    let status = run::<S, _, _, _, _, _, _>(system.alloc(), services, words, &mut process);
    ExitCode::from(status.code)
}

/// Runs `ftnode` with this system's arguments, sockets, files and processes, and with these streams. Returns its exit status, that of [`run`], or
/// std's error if the arguments can't be read: one of them isn't UTF-8, or an allocation failed.
pub fn run_ftnode<
    R: Env + AllocGlobal + Net + Clock + Files<File = File> + Processes,
    I: Read + Drop,
    O: Write + Drop,
    E: Write + Drop,
>(system: &R, input: I, out: O, err: E) -> io::Result<ExitCode> {
    let words: Vec<String> = env::args(system)?.skip(1).collect(system.alloc())?;
    Ok(run_program::<AnyService, R, I, O, E>(system, Services::Named, &words, input, out, err))
}
