//! Std's processes as a spawner.

use ft_io::{NoMemory, Spawner};
use ft_system::ProcessSpawner;
use std::alloc::Global;
use std::process::Processes;
use test_data::Said;

/// The words that run this script by a program.
fn words_of(alloc: Global, program: &str, script: &str) -> Result<Vec<String>, NoMemory> {
    let mut words = Vec::new(alloc);
    for word in [program, "-c", script] {
        words.push(String::from_str(alloc, word)?)?;
    }
    Ok(words)
}

/// Starts without a word and with a program that isn't there, and a start and a wait of one that ends with 7 and of one that is
/// killed: what each returned, and the count of faults.
pub fn run_three<R: Processes>(system: &R, alloc: Global, said: &mut Said) -> Result<(), NoMemory> {
    let missing = words_of(alloc, "/no/such/program", "")?;
    let ends = words_of(alloc, "/bin/sh", "cat; echo seen; exit 7")?;
    let killed = words_of(alloc, "/bin/sh", "kill -9 $$")?;
    let mut spawner = ProcessSpawner::new(system, alloc);
    said.given(spawner.start(&[]));
    said.given(spawner.start(&missing));
    for words in [&ends, &killed] {
        let child = spawner.start(words);
        said.given(child);
        if let Ok(child) = child {
            said.given(spawner.wait(child));
        }
    }
    said.value(spawner.faults());
    Ok(())
}
