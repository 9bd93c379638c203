//! Line returns each line of its input with the line's number. A line may extend over any number of chunks.

ghost use Rattle.std.specs.Prelude.{◌≡◌, ℕ, ◌^◌, ◌≤◌, ◌<◌, ◌+◌, ◌-◌, List, [], ◌++◌, length, take, drop, true, codes, bytes_eq, IfOk, OnOk};
ghost use Rattle.server_trait.specs.Service.{next_of};
ghost use Rattle.sample_servers.specs.Stream.{waiting, and_then, each_byte};
ghost use Rattle.sample_servers.specs.Line.{LineState, numbered, line_finished, line_end, line_byte, is_unfinished as unfinished, NoFeed, Splits};

use ft_io::NoMemory;
use itoa::Buffer;
use memchr::memchr;
use server_trait::{Next, Saved, Service};
use std::alloc::Global;
use std::marker::Model;

/// A line ends where it has this many bytes.
const LINE_LIMIT: usize = 1_024;

/// The line service. Its input is split at line feeds, and a line that reaches 1,024 bytes without one ends there. Each line comes back as its number, counted
/// from 1, a space, its bytes and a line feed. At 2^64 - 1 the number stays. A line that is just `quit` is answered by `bye` and closes. The end of input ends
/// a line that isn't empty.
#[derive(Drop)]
pub struct Line {
    // The number of the last line that is finished.
    finished: u64,
    // The bytes of the unfinished line, fewer than 1,024, with no line feed among them.
    held: Vec<u8>,
}

impl Model for Line {
    ghost Value = { LineState };

    ghost view = { λ line. record { finished = line.finished; held = line.held.items } };

    ghost invariant = { λ line. (length line.held.items < 1024) × NoFeed line.held.items };
}

/// What the bytes of a chunk do to the unfinished line.
#[derive(Clone, Copy)]
enum Piece {
    /// The line ends with `len` more bytes, and `used` bytes of the chunk are used up.
    Ends { len: usize, used: usize },
    /// The line doesn't end in them.
    Proceeds,
}

impl Line {
    // Takes bytes line by line, up to the line that closes. The bytes after the last line begin the next one.
    fn take_bytes(&mut self, bytes: &[u8], out: &mut Vec<u8>) -> Result<Next, NoMemory>
        ensures state { IfOk result (λ _. self.new ≡ (each_byte line_byte self.old bytes.now).next) }
        ensures output { IfOk result (λ _. out.new.items ≡ out.old.items ++ (each_byte line_byte self.old bytes.now).output) }
        ensures closed { IfOk result (λ next. next ≡ next_of (each_byte line_byte self.old bytes.now).closed) }
    {
        let mut rest = bytes;
        while let Piece::Ends { len, used } = self.split(rest) {
            if self.finish(&rest[..len], out)? == Next::Close {
                return Ok(Next::Close);
            }
            rest = &rest[used..];
        }
        self.hold(rest)?;
        Ok(Next::Go)
    }

    // Continues the unfinished line.
    #[tactic(auto, using(crate::proofs::Lines::no_feed_joined))]
    fn hold(&mut self, bytes: &[u8]) -> Result<(), NoMemory>
        requires room { length self.old.held + length bytes.now < 1024 }
        requires no_feed { NoFeed bytes.now }
        ensures { OnOk result (self.new ≡ record self.old { held = self.old.held ++ bytes.now }) }
    {
        self.held.extend_from_slice(bytes)?;
        Ok(())
    }

    // Ends the unfinished line, with these bytes added.
    #[tactic(auto, unfolding(crate::specs::Line::line_finished))]
    fn finish(&mut self, piece: &[u8], out: &mut Vec<u8>) -> Result<Next, NoMemory>
        requires { length self.old.held + length piece.now ≤ 1024 }
        ensures state { IfOk result (λ _. self.new ≡ (line_finished self.old.finished (self.old.held ++ piece.now)).next) }
        ensures output { IfOk result (λ _. out.new.items ≡ out.old.items ++ (line_finished self.old.finished (self.old.held ++ piece.now)).output) }
        ensures closed { IfOk result (λ next. next ≡ next_of (line_finished self.old.finished (self.old.held ++ piece.now)).closed) }
    {
        if is_quit(&self.held, piece) {
            out.extend_from_slice(b"bye\n")?;
            self.held.clear();
            return Ok(Next::Close);
        }
        self.finished = self.finished.saturating_add(1);
        write_line(self.finished, &self.held, piece, out)?;
        self.held.clear();
        Ok(Next::Go)
    }

    // Where the unfinished line ends in these bytes.
    fn split(&self, bytes: &[u8]) -> Piece
        ensures { Splits self.now bytes.now result }
    {
        let room = LINE_LIMIT - self.held.len();
        let front = &bytes[..bytes.len().min(room)];
        match memchr(b'\n', front) {
            Some(len) => Piece::Ends { len, used: len + 1 },
            None if front.len() == room => Piece::Ends {
                len: room,
                used: room,
            },
            None => Piece::Proceeds,
        }
    }

    // Ends the input: a line that isn't empty is finished.
    fn end(&mut self, out: &mut Vec<u8>) -> Result<Next, NoMemory>
        ensures state { IfOk result (λ _. self.new ≡ (line_end self.old).next) }
        ensures output { IfOk result (λ _. out.new.items ≡ out.old.items ++ (line_end self.old).output) }
        ensures closed { IfOk result (λ next. next ≡ Next.Close) }
    {
        if !self.held.is_empty() {
            self.finish(b"", out)?;
        }
        Ok(Next::Close)
    }
}

// Whether a line in two parts is `quit`.
fn is_quit(front: &[u8], back: &[u8]) -> bool
    ensures { result ≡ bytes_eq (front.now ++ back.now) (codes "quit") }
{
    match b"quit".strip_prefix(front) {
        Some(rest) => back == rest,
        None => false,
    }
}

// Whether bytes are a line that hasn't ended: they aren't too many, and no line feed is among them.
#[tactic(auto, using(std::proofs::lemmas::List::Folds::list_any_at, crate::proofs::Lines::none_fed))]
fn is_unfinished(line: &[u8]) -> bool
    ensures { result ≡ unfinished line.now }
{
    match memchr(b'\n', line) {
        Some(_) => false,
        None => line.len() < LINE_LIMIT,
    }
}

// Appends a line in two parts, with its number.
#[tactic(auto, using(crate::proofs::Lines::numbered_whole, std::proofs::Common::append_assoc))]
fn write_line(number: u64, front: &[u8], back: &[u8], out: &mut Vec<u8>) -> Result<(), NoMemory>
    requires { length front.now + length back.now ≤ 1024 }
    ensures { OnOk result (out.new.items ≡ out.old.items ++ numbered number (front.now ++ back.now)) }
{
    let mut digits = Buffer::new();
    let digits = digits.format(number).as_bytes();
    out.reserve(digits.len() + front.len() + back.len() + 2)?;
    out.extend_from_slice(digits)?;
    out.push(b' ')?;
    out.extend_from_slice(front)?;
    out.extend_from_slice(back)?;
    out.push(b'\n')?;
    Ok(())
}

impl Service for Line {
    ghost use Rattle.sample_servers.specs.Line.{line_started, line_after};
    ghost use Rattle.sample_servers.specs.Lengths.{length-line_after-le, closed-line_after};
    ghost use Rattle.sample_servers.specs.WrittenBytes.{bytes-line};
    ghost use Rattle.server_trait.specs.Service.{short_greeting};

    ghost started = { λ _. line_started };

    ghost after = { line_after };

    fn greeting(&self) -> &[u8] {
        &[]
    }

    fn fresh(alloc: Global, _kind: u8) -> Line {
        Line {
            finished: 0,
            held: Vec::new(alloc),
        }
    }

    fn take(&mut self, chunk: &[u8], out: &mut Vec<u8>) -> Result<Next, NoMemory> {
        if chunk.is_empty() {
            return self.end(out);
        }
        self.take_bytes(chunk, out)
    }

    ghost closes = { closed-line_after };

    ghost greets_shortly = { short_greeting };

    ghost is_short = { length-line_after-le };

    ghost writes_bytes = { λ _. bytes-line };
}

impl Saved for Line {
    ghost use Rattle.sample_servers.specs.Line.{line_form, line_state_of};
    ghost use Rattle.sample_servers.specs.ReadBack.{line_reads_back, line_one_form};

    ghost is_savable = { true };

    ghost form = { line_form };

    ghost state_of = { λ _. line_state_of };

    fn savable() -> bool {
        true
    }

    fn save(&self, out: &mut Vec<u8>) -> Result<(), NoMemory> {
        out.reserve(8 + self.held.len())?;
        out.extend_from_slice(&self.finished.to_be_bytes())?;
        out.extend_from_slice(&self.held)?;
        Ok(())
    }

    fn load(alloc: Global, _kind: u8, bytes: &[u8]) -> Result<Option<Line>, NoMemory> {
        let [a, b, c, d, e, f, g, h, held @ ..] = bytes else {
            return Ok(None);
        };
        if !is_unfinished(held) {
            return Ok(None);
        }
        Ok(Some(Line {
            finished: u64::from_be_bytes([*a, *b, *c, *d, *e, *f, *g, *h]),
            held: Vec::from_slice(alloc, held)?,
        }))
    }

    ghost reads_back = { λ _ _. line_reads_back };

    ghost one_form = { λ _. line_one_form };
}
