//! A source, a sink and a spawner in memory.

use crate::numbers;
use ft_io::{Failed, NoMemory, Sink, Source, Spawner};
use ft_system::{MemSink, MemSource, MemSpawner};
use std::alloc::Global;
use test_data::Said;

/// Five reads of `hello` of at most two bytes: what they gave, `!` for each that failed, and the count of faults.
pub fn read_five(alloc: Global, fails: &str, said: &mut Said) -> Result<(), NoMemory> {
    let mut source = MemSource::new(b"hello".to_vec(alloc)?, numbers(alloc, fails)?);
    said.begin_word();
    for _ in 0..5 {
        let mut buf = [0u8; 2];
        match source.read(&mut buf) {
            Ok(n) => said.add(&buf[..n]),
            Err(Failed) => said.add(b"!"),
        }
    }
    said.value(source.faults());
    Ok(())
}

/// What is left of `hello`, what one read of three bytes gives, and what is left then.
pub fn read_once(alloc: Global, said: &mut Said) -> Result<(), NoMemory> {
    let mut source = MemSource::new(b"hello".to_vec(alloc)?, Vec::new(alloc));
    said.word(source.rest());
    let mut buf = [b'.'; 3];
    let read = source.read(&mut buf);
    said.given(read);
    said.word(&buf);
    said.word(source.rest());
    Ok(())
}

/// Writes of `ab`, `cd` and `ef`: what the sink took, the count of faults, and how many wanted memory.
pub fn write_three(alloc: Global, fails: &str, said: &mut Said) -> Result<(), NoMemory> {
    let mut sink = MemSink::new(alloc, numbers(alloc, fails)?);
    for piece in [b"ab", b"cd", b"ef"] {
        // What fails is counted, and said below.
        let _ = sink.write(piece);
    }
    said.word(sink.written());
    said.value(sink.faults());
    said.value(sink.starved());
    Ok(())
}

/// A start with the word `echo`, one without words, and a wait for each child that was started, the first of which ends with 7: what they returned, the count
/// of faults, and how many calls are recorded.
pub fn start_two(alloc: Global, fails: &str, said: &mut Said) -> Result<(), NoMemory> {
    let words = vec![in alloc; String::from_str(alloc, "echo")?]?;
    let mut spawner = MemSpawner::new(alloc, vec![in alloc; 7]?, numbers(alloc, fails)?);
    let first = spawner.start(&words);
    let second = spawner.start(&[]);
    said.given(first);
    said.given(second);
    if let Ok(child) = first {
        said.given(spawner.wait(child));
    }
    if let Ok(child) = second {
        said.given(spawner.wait(child));
    }
    said.value(spawner.faults());
    said.value(spawner.reported().map_or(0, |calls| calls.len() as u64));
    Ok(())
}
