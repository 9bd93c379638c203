//! The whole program `ftreplay`, for the system that is passed to it.

use crate::top::replay;
use ft_system::{ReadSource, WriteSink};
use std::io::{Read, Write};
use std::process::ExitCode;
use std::rt::Env;
use std::{env, io};

/// Runs `ftreplay` with the arguments of this system and with these three streams. Returns the exit status, which is that of [`replay`]. Returns an error of
/// std if an argument isn't UTF-8, or where an allocation for the arguments fails.
pub fn run_ftreplay<R: Env + AllocGlobal, I: Read + Drop, O: Write + Drop, E: Write + Drop>(
    system: &R,
    input: I,
    out: O,
    err: E,
) -> io::Result<ExitCode> {
    let words: Vec<String> = env::args(system)?.skip(1).collect(system.alloc())?;
    let mut input = ReadSource::new(input);
    let mut out = WriteSink::new(out);
    let mut err = WriteSink::new(err);
    let status = replay(system.alloc(), &words, &mut input, &mut out, &mut err);
    Ok(ExitCode::from(status.code))
}
