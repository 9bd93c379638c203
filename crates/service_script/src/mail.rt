//! Sessions with the receiver of mail.

use crate::services::take;
use ft_io::NoMemory;
use mail_service::Mail;
use percent_encoding::percent_decode;
use server_trait::{CHUNK_LIMIT, Next, Service};
use std::alloc::Global;
use test_data::Said;

/// The most chunks of a session.
const CHUNKS: u32 = 1_000_000;

/// Plays a session, and says all that the service writes, with `|` for each line end, and whether it has closed.
pub(crate) fn mail_line(alloc: Global, words: &str, said: &mut Said) -> Result<(), NoMemory> {
    let input = session_text(alloc, words)?;
    let mut mail = Mail::fresh(alloc, 0);
    let mut out = Vec::new(alloc);
    out.extend_from_slice(mail.greeting())?;
    let next = feed_all(&mut mail, input.as_slice(), &mut out)?;
    said.on_one_line(out.as_slice());
    said.add(match next {
        Next::Go => b"open",
        Next::Close => b"closed",
    });
    Ok(())
}

/// What the client says: of each two words, so many copies of a text.
fn session_text(alloc: Global, words: &str) -> Result<Vec<u8>, NoMemory> {
    let mut input = Vec::new(alloc);
    let mut times = None;
    for word in words.split(' ') {
        times = match times {
            None => Some(word.parse::<u32>().unwrap_or(0)),
            Some(count) => {
                add_copies(alloc, count, word, &mut input)?;
                None
            }
        };
    }
    Ok(input)
}

/// Appends so many copies of a text.
fn add_copies(
    alloc: Global,
    count: u32,
    escaped: &str,
    input: &mut Vec<u8>,
) -> Result<(), NoMemory> {
    let mut piece = Vec::new(alloc);
    percent_decode(escaped.as_bytes()).append_to(&mut piece)?;
    for _ in 0..count {
        input.extend_from_slice(piece.as_slice())?;
    }
    Ok(())
}

/// Gives a service a text in the largest chunks, until it closes.
fn feed_all(mail: &mut Mail, text: &[u8], out: &mut Vec<u8>) -> Result<Next, NoMemory> {
    let mut rest = text;
    for _ in 0..CHUNKS {
        if rest.is_empty() {
            break;
        }
        let (chunk, more) = rest.split_at(rest.len().min(CHUNK_LIMIT));
        if take(mail, chunk, out)? == Next::Close {
            return Ok(Next::Close);
        }
        rest = more;
    }
    Ok(Next::Go)
}
