//! Std's readers and writers as sources and sinks. Their content isn't specified: what a read gave, and how much a failed write took, depends on the system.
//! Contracts know how many calls failed.

ghost use Rattle.std.specs.Prelude.{◌≡◌, ◌≤◌, None, IfOk, length};

use ft_io::{Failed, Sink, Source};
use std::io;
use std::io::{Read, Write};
use std::marker::Model;

/// A reader as a source. Each error of the reader is a fault, including an interrupted call.
#[derive(Drop)]
pub struct ReadSource<R: Read> {
    reader: R,
    faults: u64,
}

impl<R: Read> Model for ReadSource<R> {
    ghost use Rattle.std.specs.Prelude.{ℕ};

    ghost Value = { ℕ };

    ghost view = { λ s. s.faults };
}

impl<R: Read> ReadSource<R> {
    /// Makes a source of what `reader` gives, with no fault yet.
    pub fn new(reader: R) -> ReadSource<R>
        ensures { result ≡ 0 }
    {
        ReadSource { reader, faults: 0 }
    }
}

impl<R: Read> Source for ReadSource<R> {
    ghost left = { λ _. None };

    ghost fault_count = { λ faults. faults };

    fn faults(&self) -> u64 {
        self.faults
    }

    fn read(&mut self, buf: &mut [u8]) -> Result<usize, Failed> {
        match self.reader.read(buf) {
            Ok(n) => Ok(n),
            Err(_) => {
                self.faults = self.faults.saturating_add(1);
                Err(Failed)
            }
        }
    }
}

/// A writer as a sink, flushed after each write. A write that takes nothing, an error of the writer and a failed flush are
/// faults. After a failed flush the writer may hold bytes of that write, or have passed them on.
#[derive(Drop)]
pub struct WriteSink<W: Write> {
    writer: W,
    faults: u64,
}

impl<W: Write> Model for WriteSink<W> {
    ghost use Rattle.std.specs.Prelude.{ℕ};

    ghost Value = { ℕ };

    ghost view = { λ s. s.faults };
}

impl<W: Write> WriteSink<W> {
    /// Makes a sink that hands everything to `writer`, with no fault yet.
    pub fn new(writer: W) -> WriteSink<W>
        ensures { result ≡ 0 }
    {
        WriteSink { writer, faults: 0 }
    }
}

impl<W: Write> Sink for WriteSink<W> {
    ghost taken = { λ _. None };

    ghost fault_count = { λ faults. faults };

    fn faults(&self) -> u64 {
        self.faults
    }

    fn write(&mut self, buf: &[u8]) -> Result<usize, Failed> {
        match write_through(&mut self.writer, buf) {
            Ok(n) if n > 0 || buf.is_empty() => Ok(n),
            _ => {
                self.faults = self.faults.saturating_add(1);
                Err(Failed)
            }
        }
    }
}

/// Makes one write and one flush. Returns how many bytes the write took.
fn write_through<W: Write>(writer: &mut W, buf: &[u8]) -> io::Result<usize>
    ensures { IfOk result (λ n. n ≤ length buf.now) }
{
    let n = writer.write(buf)?;
    writer.flush()?;
    Ok(n)
}
