//! Calls of each form of the outside, in memory and over the system, by the lines of a script: it is said what the calls returned.
//! docs/FORMATS.md has the lines.
#![tactic(auto)]

use ft_io::NoMemory;
use ft_system::UdpLink;
use std::alloc::Global;
use std::fs::{File, Files};
use std::net::Net;
use std::process::Processes;
use std::time::Clock;
use test_data::Said;

mod files;
mod links;
mod memory;
mod processes;
mod queues;
mod reading;
mod sockets;
mod streams;
mod ticks;
mod watch;

/// Plays the lines of a script, and says what came of each. The status, which is 0.
pub fn run<R: AllocGlobal + Net + Clock + Files<File = File> + Processes>(
    system: &R,
    alloc: Global,
    text: &str,
    said: &mut Said,
) -> Result<u8, NoMemory> {
    for line in text.lines() {
        play(system, alloc, line, said)?;
        said.end_line();
    }
    Ok(0)
}

/// Plays a line, and says what came of it.
fn play<R: AllocGlobal + Net + Clock + Files<File = File> + Processes>(
    system: &R,
    alloc: Global,
    line: &str,
    said: &mut Said,
) -> Result<(), NoMemory> {
    let (word, rest) = line.split_once(' ').unwrap_or((line, ""));
    match word {
        "#" => {
            said.word(line.as_bytes());
            Ok(())
        }
        "source" => memory::read_five(alloc, rest, said),
        "rest" => memory::read_once(alloc, said),
        "sink" => memory::write_three(alloc, rest, said),
        "spawn" => memory::start_two(alloc, rest, said),
        "read" => reading::read_text(alloc, rest, said),
        "chunks" => reading::read_long(alloc, rest, said),
        "write" => reading::write_text(alloc, rest, said),
        "receive" => links::receive_five(alloc, rest, said),
        "send" => links::send_two(alloc, rest, false, said),
        "unbound" => links::send_two(alloc, rest, true, said),
        "bind" => links::bind_three(alloc, rest, said),
        "process" => processes::run_three(system, alloc, said),
        "queues" => queues::echo_thrice(alloc, said),
        "short" => files::change_short_file(alloc, rest, said),
        "clock" => ticks::by_the_list(system, alloc, rest, said),
        _ => {
            play_system(system, line, said);
            Ok(())
        }
    }
}

/// Plays a line of the system, which wants no memory.
fn play_system<R: AllocGlobal + Net + Clock + Files<File = File>>(
    system: &R,
    line: &str,
    said: &mut Said,
) {
    match line {
        "reader" => streams::read_four(said),
        "writer" => streams::write_four(said),
        "datagrams" => sockets::send_to_itself(system, said),
        "apart" => sockets::send_apart(system, said),
        "silence" => ticks::in_silence(system, &mut UdpLink::new(system), said),
        "traffic" => {
            let mut stranger = UdpLink::new(system);
            ticks::in_traffic(system, &mut UdpLink::new(system), &mut stranger, said)
        }
        "exchange" => ticks::in_exchange(system, &mut UdpLink::new(system), said),
        "file" => files::keep_file(system, said),
        "names" => files::open_names(system, said),
        "desks" => files::use_desks(system, said),
        "kept" => files::keep_by_desk(system, said),
        "replaced" => files::replace_by_desk(system, said),
        _ => said.word(b"no such line"),
    }
}

/// The numbers of a text, between single spaces.
fn numbers(alloc: Global, text: &str) -> Result<Vec<u32>, NoMemory> {
    let mut numbers = Vec::new(alloc);
    for piece in text.split(' ') {
        if let Ok(number) = piece.parse::<u32>() {
            numbers.push(number)?;
        }
    }
    Ok(numbers)
}
