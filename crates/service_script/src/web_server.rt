//! Connections to the web server or another service, and what it answers.

use crate::connections::{Parts, draw_connection};
use crate::count_and_seed;
use crate::services::take;
use ft_io::NoMemory;
use md5::{Digest, Md5};
use percent_encoding::percent_decode;
use server_trait::{Next, Service};
use std::alloc::Global;
use test_data::{Draws, Said};
use web_service::Web;

/// Adds a piece to the last part of a request.
pub(crate) fn piece_line(alloc: Global, text: &str, parts: &mut Parts) -> Result<(), NoMemory> {
    let (weight, rest) = text.split_once(' ').unwrap_or((text, ""));
    let (times, escaped) = rest.split_once(' ').unwrap_or((rest, ""));
    let mut piece = Vec::new(alloc);
    for _ in 0..times.parse::<u32>().unwrap_or(0) {
        percent_decode(escaped.as_bytes()).append_to(&mut piece)?;
    }
    parts.add(weight.parse::<u32>().unwrap_or(0), piece.as_slice())
}

/// What came of connections.
#[derive(Drop)]
struct Tally {
    answers: u64,
    bytes: u64,
    closed: u64,
    digest: Md5,
}

impl Tally {
    fn new() -> Tally {
        Tally {
            answers: 0,
            bytes: 0,
            closed: 0,
            digest: Md5::new(),
        }
    }

    /// Counts the answer to the chunk with this number.
    fn count(&mut self, at: u32, answer: &[u8]) {
        self.answers = self.answers.saturating_add(1);
        self.bytes = self.bytes.saturating_add(answer.len() as u64);
        self.digest.update(at.to_be_bytes().as_slice());
        self.digest.update(answer);
    }

    /// Says what was counted.
    fn write_counts(self, said: &mut Said) {
        let Tally {
            answers,
            bytes,
            closed,
            digest,
        } = self;
        write!(said, "{answers} answers, {bytes} bytes, {closed} closed, ");
        said.digits(digest.finalize().as_slice());
    }
}

/// Gives a service a chunk, and counts its answer.
fn feed<S: Service>(
    alloc: Global,
    service: &mut S,
    at: u32,
    chunk: &[u8],
    tally: &mut Tally,
) -> Result<Next, NoMemory> {
    let mut answer = Vec::new(alloc);
    let next = take(service, chunk, &mut answer)?;
    if !answer.is_empty() {
        tally.count(at, answer.as_slice());
    }
    if next == Next::Close {
        tally.closed = tally.closed.saturating_add(1);
    }
    Ok(next)
}

/// Plays one connection with a text as its chunk, and says what came of it.
pub(crate) fn write_line(alloc: Global, escaped: &str, said: &mut Said) -> Result<(), NoMemory> {
    let mut chunk = Vec::new(alloc);
    percent_decode(escaped.as_bytes()).append_to(&mut chunk)?;
    let mut tally = Tally::new();
    feed(
        alloc,
        &mut Web::fresh(alloc, 0),
        0,
        chunk.as_slice(),
        &mut tally,
    )?;
    tally.write_counts(said);
    Ok(())
}

/// Plays the connections that a line asks for, in chunks that are drawn, and says what came of them.
pub(crate) fn connections_line<S: Service>(
    alloc: Global,
    text: &str,
    parts: &Parts,
    said: &mut Said,
) -> Result<(), NoMemory> {
    let Some((count, seed)) = count_and_seed(text) else {
        said.add(b"no such line");
        return Ok(());
    };
    let mut draws = Draws::new(seed);
    let mut tally = Tally::new();
    for _connection in 0..count {
        let drawn = draw_connection(alloc, &mut draws, parts)?;
        let mut service = S::fresh(alloc, 0);
        if !service.greeting().is_empty() {
            tally.count(u32::MAX, service.greeting());
        }
        feed_cut(alloc, &mut service, &mut draws, &drawn, &mut tally)?;
    }
    tally.write_counts(said);
    Ok(())
}

/// The longest chunks of a connection, each drawn as often as it is listed here.
const LONGEST: [u32; 8] = [1, 5, 20, 100, 500, 2_048, 2_048, 2_048];

/// Gives a service a text in chunks that are drawn, in some cases with the end of input.
fn feed_cut<S: Service>(
    alloc: Global,
    service: &mut S,
    draws: &mut Draws,
    text: &Said,
    tally: &mut Tally,
) -> Result<(), NoMemory> {
    let longest = LONGEST[draws.below(8) as usize];
    let ends = draws.below(8) == 0;
    let mut rest = text.bytes()?;
    for at in 0..u32::MAX {
        if rest.is_empty() {
            if ends {
                feed(alloc, service, at, b"", tally)?;
            }
            return Ok(());
        }
        let size = 1 + draws.below(longest.max(1)) as usize;
        let (chunk, more) = rest.split_at(size.min(rest.len()));
        if feed(alloc, service, at, chunk, tally)? == Next::Close {
            return Ok(());
        }
        rest = more;
    }
    Ok(())
}
