//! Std's readers and writers as a source and a sink, where the first call of a reader and the first flush of a writer fail.

use ft_io::{Sink, Source};
use ft_system::{ReadSource, WriteSink};
use std::io;
use std::io::{Read, Write};
use test_data::Said;

/// A reader that fails at its first call, and a writer that fails at its first flush.
#[derive(Drop)]
struct FailsOnce<T> {
    inner: T,
    failed: bool,
}

fn failing_once<T>(inner: T) -> FailsOnce<T> {
    FailsOnce {
        inner,
        failed: false,
    }
}

/// Fails the first time.
fn once(failed: &mut bool) -> io::Result<()> {
    if *failed {
        return Ok(());
    }
    *failed = true;
    Err(io::Error::from(io::ErrorKind::BrokenPipe))
}

impl<R: Read> Read for FailsOnce<R> {
    fn read(&mut self, buf: &mut [u8]) -> io::Result<usize> {
        once(&mut self.failed)?;
        self.inner.read(buf)
    }
}

impl<W: Write> Write for FailsOnce<W> {
    fn write(&mut self, buf: &[u8]) -> io::Result<usize> {
        self.inner.write(buf)
    }

    fn flush(&mut self) -> io::Result<()> {
        once(&mut self.failed)?;
        self.inner.flush()
    }
}

/// Four reads of `hello` of at most three bytes: after each what it returned, what the buffer has, and the count of faults.
pub fn read_four(said: &mut Said) {
    let mut source = ReadSource::new(failing_once(b"hello".as_slice()));
    for _ in 0..4 {
        let mut buf = [b'.'; 3];
        let read = source.read(&mut buf);
        said.given(read);
        said.word(&buf);
        said.value(source.faults());
    }
}

/// Four writes into four bytes: after each what it returned and the count of faults; and the bytes in the end.
pub fn write_four(said: &mut Said) {
    let mut room = [b'.'; 4];
    let mut sink = WriteSink::new(failing_once(room.as_mut_slice()));
    for piece in [b"x".as_slice(), b"abcdef", b"def", b""] {
        let written = sink.write(piece);
        said.given(written);
        said.value(sink.faults());
    }
    drop(sink);
    said.word(&room);
}
