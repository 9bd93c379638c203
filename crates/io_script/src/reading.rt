//! Reading to a limit, and writing completely.

use crate::numbers;
use ft_io::{Failed, NoMemory, ReadEnd, Sink, read_to_limit, write_all};
use ft_system::{MemSink, MemSource};
use std::alloc::Global;
use test_data::Said;

/// Reads TEXT, `-` for none, under LIMIT; the read with number FAILS fails. Says how many bytes came or why not, and what is left.
pub fn read_text(alloc: Global, words: &str, said: &mut Said) -> Result<(), NoMemory> {
    let (text, rest) = words.split_once(' ').unwrap_or((words, ""));
    let (limit, fails) = rest.split_once(' ').unwrap_or((rest, "0"));
    let text = if text == "-" { "" } else { text };
    let limit = limit.parse::<usize>().unwrap_or(0);
    let fails = fails.parse::<u32>().unwrap_or(0);
    let mut source = MemSource::new(text.as_bytes().to_vec(alloc)?, vec![in alloc; fails]?);
    match read_to_limit(alloc, &mut source, limit) {
        Ok(bytes) => said.value(bytes.len()),
        Err(end) => said.word(name_of(end)),
    }
    said.word(source.rest());
    Ok(())
}

fn name_of(end: ReadEnd) -> &'static [u8] {
    match end {
        ReadEnd::NoMemory => b"no memory",
        ReadEnd::Fault => b"fault",
        ReadEnd::TooLong => b"too long",
    }
}

/// 10,000 bytes that differ from place to place.
fn long_text(alloc: Global) -> Result<Vec<u8>, NoMemory> {
    let mut text = Vec::new(alloc);
    for n in 0..10_000u32 {
        text.push((n % 251) as u8)?;
    }
    Ok(text)
}

/// Reads 10,000 bytes, which takes three reads and one at the end.
pub fn read_long(alloc: Global, fails: &str, said: &mut Said) -> Result<(), NoMemory> {
    let text = long_text(alloc)?;
    let mut source = MemSource::new(long_text(alloc)?, numbers(alloc, fails)?);
    match read_to_limit(alloc, &mut source, 10_000) {
        Ok(bytes) => said.word(if bytes.as_slice() == text.as_slice() {
            b"the same"
        } else {
            b"other bytes"
        }),
        Err(end) => said.word(name_of(end)),
    }
    Ok(())
}

/// Takes at most three bytes in a call.
#[derive(Drop)]
struct Narrow<S> {
    inner: S,
}

impl<S: Sink> Sink for Narrow<S> {
    ghost taken = { λ s. S.taken s.inner };

    ghost fault_count = { λ s. S.fault_count s.inner };

    fn faults(&self) -> u64 {
        self.inner.faults()
    }

    fn write(&mut self, buf: &[u8]) -> Result<usize, Failed> {
        self.inner.write(&buf[..buf.len().min(3)])
    }
}

/// Writes all of `abcdefgh` to a sink that takes three bytes a call: whether that succeeded, and what the sink has.
pub fn write_text(alloc: Global, fails: &str, said: &mut Said) -> Result<(), NoMemory> {
    let inner = MemSink::new(alloc, numbers(alloc, fails)?);
    let mut sink = Narrow { inner };
    said.done(write_all(&mut sink, b"abcdefgh").is_ok());
    said.word(sink.inner.written());
    Ok(())
}
