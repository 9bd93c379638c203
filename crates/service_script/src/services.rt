//! Services that are kept as bytes and read back.

use crate::count_and_seed;
use counter_service::Counter;
use ft_io::NoMemory;
use sample_servers::{AnyService, Line};
use server_trait::{CHUNK_LIMIT, Next, Saved, Service};
use std::alloc::Global;
use test_data::{Draws, Said, bytes_of_word, hashed};

/// The kind of the sample service of a name, and 0 for the counter.
fn kind_of(name: &str) -> Option<u8> {
    match name {
        "counter" => Some(0),
        "echo" => Some(1),
        "line" => Some(2),
        "transfer" => Some(3),
        "meter" => Some(4),
        _ => None,
    }
}

/// Loads the service of a line, and says the form that it then has.
pub(crate) fn load_line(alloc: Global, text: &str, said: &mut Said) -> Result<(), NoMemory> {
    let (name, text) = text.split_once(' ').unwrap_or((text, ""));
    match (kind_of(name), bytes_of_word(alloc, text)?) {
        (Some(0), Some(form)) => load::<Counter>(alloc, name, 0, form.as_slice(), said),
        (Some(kind), Some(form)) => load::<AnyService>(alloc, name, kind, form.as_slice(), said),
        _ => {
            said.add(b"no such line");
            Ok(())
        }
    }
}

/// Loads a service from its form, and says the form that it then has, or `none`.
fn load<S: Saved>(
    alloc: Global,
    name: &str,
    kind: u8,
    form: &[u8],
    said: &mut Said,
) -> Result<(), NoMemory> {
    write!(said, "{name} ");
    match S::load(alloc, kind, form)? {
        Some(service) => {
            let mut form = Vec::new(alloc);
            service.save(&mut form)?;
            said.hex(form.as_slice());
        }
        None => said.add(b"none"),
    }
    Ok(())
}

/// Gives a new service chunks, and says whether it closes and all that it writes.
pub(crate) fn play_line(alloc: Global, text: &str, said: &mut Said) -> Result<(), NoMemory> {
    let (name, words) = text.split_once(' ').unwrap_or((text, ""));
    match kind_of(name) {
        Some(0) => play(alloc, name, Counter::fresh(alloc, 0), words, said),
        Some(kind) => play(alloc, name, AnyService::fresh(alloc, kind), words, said),
        None => {
            said.add(b"no such line");
            Ok(())
        }
    }
}

/// The same for Line that is loaded.
pub(crate) fn resume_line(alloc: Global, text: &str, said: &mut Said) -> Result<(), NoMemory> {
    let (form, words) = text.split_once(' ').unwrap_or((text, ""));
    if let Some(form) = bytes_of_word(alloc, form)?
        && let Some(service) = Line::load(alloc, 2, form.as_slice())?
    {
        return play(alloc, "line", service, words, said);
    }
    said.add(b"line none");
    Ok(())
}

/// Gives a service the chunks that these words say, until it closes: an empty one where a word isn't hexadecimal. Whether it closes.
fn feed<S: Service>(
    alloc: Global,
    service: &mut S,
    words: &str,
    out: &mut Vec<u8>,
) -> Result<Next, NoMemory> {
    for word in words.split(' ') {
        let chunk = bytes_of_word(alloc, word)?.unwrap_or(Vec::new(alloc));
        if take(service, chunk.as_slice(), out)? == Next::Close {
            return Ok(Next::Close);
        }
    }
    Ok(Next::Go)
}

/// Gives a service the chunks that these words say. Says whether it closes, and what it writes, in hexadecimal, or how many bytes that is and their hash.
fn play<S: Service>(
    alloc: Global,
    name: &str,
    mut service: S,
    words: &str,
    said: &mut Said,
) -> Result<(), NoMemory> {
    let mut out = Vec::new(alloc);
    match feed(alloc, &mut service, words, &mut out)? {
        Next::Close => write!(said, "{name} closed "),
        Next::Go => write!(said, "{name} open "),
    }
    if out.is_empty() {
        said.add(b"-");
    } else {
        said.brief(out.as_slice());
    }
    Ok(())
}

/// Gives a service a chunk, of which it is given at most 2,048 bytes, and appends what it writes.
pub(crate) fn take<S: Service>(
    service: &mut S,
    chunk: &[u8],
    out: &mut Vec<u8>,
) -> Result<Next, NoMemory> {
    service.take(&chunk[..chunk.len().min(CHUNK_LIMIT)], out)
}

/// What came of many runs.
#[derive(Clone, Copy)]
struct Tally {
    /// The runs that have closed.
    closed: u32,
    /// The services that were read back, continued alike and have the same form then.
    read_back: u32,
    /// The damaged forms that were refused.
    refused: u32,
    /// What follows from all forms.
    bytes: u32,
}

/// The bytes of a run. The next run uses the same vectors again.
#[derive(Drop)]
struct Bytes {
    /// The chunk that services are given.
    chunk: Said,
    /// The form of a service, and what it writes.
    form: Vec<u8>,
    out: Vec<u8>,
    /// The form of the service that is read back, and what it writes.
    loaded_form: Vec<u8>,
    loaded_out: Vec<u8>,
}

impl Bytes {
    fn new(alloc: Global) -> Bytes {
        Bytes {
            chunk: Said::new(alloc),
            form: Vec::new(alloc),
            out: Vec::new(alloc),
            loaded_form: Vec::new(alloc),
            loaded_out: Vec::new(alloc),
        }
    }
}

/// Plays the runs that a line asks for, and says what came of them.
pub(crate) fn runs_line(alloc: Global, text: &str, said: &mut Said) -> Result<(), NoMemory> {
    let (name, rest) = text.split_once(' ').unwrap_or((text, ""));
    let (Some(kind), Some((count, seed))) = (kind_of(name), count_and_seed(rest)) else {
        said.add(b"no such line");
        return Ok(());
    };
    let Tally {
        closed,
        read_back,
        refused,
        bytes,
    } = if kind == 0 {
        play_all::<Counter>(alloc, kind, count, seed)?
    } else {
        play_all::<AnyService>(alloc, kind, count, seed)?
    };
    write!(
        said,
        "{name} {count}: closed {closed} read back {read_back} refused {refused} bytes {bytes}"
    );
    Ok(())
}

/// Plays this many runs of this service, drawn from a seed.
fn play_all<S: Saved>(alloc: Global, kind: u8, count: u32, seed: u64) -> Result<Tally, NoMemory> {
    let mut bytes = Bytes::new(alloc);
    let mut draws = Draws::new(seed);
    let mut tally = Tally {
        closed: 0,
        read_back: 0,
        refused: 0,
        bytes: 0,
    };
    for _run in 0..count {
        let mut service = S::fresh(alloc, kind);
        play_run(
            alloc,
            kind,
            &mut service,
            &mut draws,
            &mut bytes,
            &mut tally,
        )?;
    }
    Ok(tally)
}

/// Plays the run of a new service: one to five chunks, after which it is checked if it hasn't closed.
fn play_run<S: Saved>(
    alloc: Global,
    kind: u8,
    service: &mut S,
    draws: &mut Draws,
    bytes: &mut Bytes,
    tally: &mut Tally,
) -> Result<(), NoMemory> {
    if feed_some(kind, service, draws, bytes)? == Next::Close {
        tally.closed = tally.closed.wrapping_add(1);
        return Ok(());
    }
    check(alloc, kind, service, draws, bytes, tally)
}

/// Gives a service one to five chunks. Whether it closes. One that has closed is given no more.
fn feed_some<S: Service>(
    kind: u8,
    service: &mut S,
    draws: &mut Draws,
    bytes: &mut Bytes,
) -> Result<Next, NoMemory> {
    let mut next = Next::Go;
    for _chunk in 0..1 + draws.below(5) {
        make_chunk(draws, kind, &mut bytes.chunk);
        if next == Next::Go {
            bytes.out.clear();
            next = take(service, bytes.chunk.bytes()?, &mut bytes.out)?;
        }
    }
    Ok(next)
}

/// Saves a service, reads it back, and loads what is damaged of its form.
fn check<S: Saved>(
    alloc: Global,
    kind: u8,
    service: &mut S,
    draws: &mut Draws,
    bytes: &mut Bytes,
    tally: &mut Tally,
) -> Result<(), NoMemory> {
    bytes.form.clear();
    service.save(&mut bytes.form)?;
    tally.bytes = hashed(tally.bytes, bytes.form.as_slice());
    make_chunk(draws, kind, &mut bytes.chunk);
    if let Some(mut loaded) = S::load(alloc, kind, bytes.form.as_slice())?
        && is_alike(service, &mut loaded, bytes)?
    {
        tally.read_back = tally.read_back.wrapping_add(1);
    }
    damage(draws, &mut bytes.form)?;
    if S::load(alloc, kind, bytes.form.as_slice())?.is_none() {
        tally.refused = tally.refused.wrapping_add(1);
    }
    Ok(())
}

/// Whether what is read back from a service's form has that form, and does with one more chunk what the service itself does.
fn is_alike<S: Saved>(
    service: &mut S,
    loaded: &mut S,
    bytes: &mut Bytes,
) -> Result<bool, NoMemory> {
    let Bytes {
        chunk,
        form,
        out,
        loaded_form,
        loaded_out,
    } = bytes;
    let chunk = chunk.bytes()?;
    loaded_form.clear();
    loaded.save(loaded_form)?;
    out.clear();
    let next = take(service, chunk, out)?;
    loaded_out.clear();
    let loaded_next = take(loaded, chunk, loaded_out)?;
    Ok(
        loaded_form.as_slice() == form.as_slice()
            && next == loaded_next
            && out.as_slice() == loaded_out.as_slice(),
    )
}

/// Changes a byte of a form, drops its last or appends one.
fn damage(draws: &mut Draws, form: &mut Vec<u8>) -> Result<(), NoMemory> {
    let way = draws.below(4);
    let byte = draws.below(256) as u8;
    let place = draws.below(1 + form.len().min(2_000) as u32) as usize;
    if way == 0 {
        form.pop();
    } else if way == 1 || place >= form.len() {
        form.push(byte)?;
    } else {
        form[place] = if way == 2 { b'\n' } else { byte };
    }
    Ok(())
}

/// Makes a chunk of one to four pieces in place of what is there: a line feed, the line `quit`, many bytes of one letter, a request, or a few bytes. Transfer,
/// which gives much for little, is given few of the letters.
fn make_chunk(draws: &mut Draws, kind: u8, chunk: &mut Said) {
    let letters = [b'a'; 500];
    chunk.cut(0);
    for _piece in 0..1 + draws.below(4) {
        match draws.below(6) {
            0 => chunk.add(b"\n"),
            1 => chunk.add(b"quit\n"),
            2 => {
                let len = draws.below(if kind == 3 { 8 } else { 500 }) as usize;
                chunk.add(&letters[..len.min(500)]);
            }
            3 => chunk.add(&draws.below(2_048).to_be_bytes()),
            _ => {
                for _byte in 0..1 + draws.below(5) {
                    chunk.add(&[draws.byte()]);
                }
            }
        }
    }
}
