//! Datagrams that look random and follow from a seed: half of them are any bytes, and the others messages whose kind, length and checksum are
//! right.

ghost use Rattle.std.specs.Prelude.{◌≡◌, ◌<◌, ◌≤◌, length};

use crate::{Given, deliver};
use ft_io::NoMemory;
use logger_store::{MsgOut, TrimStore};
use std::alloc::Global;
use test_data::{Draws, Said, hashed, seal};

/// How long a message of each kind is, in bytes, from the first kind on: Part and Lens with one byte or length.
const LENGTHS: [u8; 18] = [
    16, 18, 18, 64, 26, 27, 26, 28, 32, 32, 31, 31, 28, 31, 22, 22, 24, 22,
];

/// What came of many datagrams.
#[derive(Clone, Copy)]
struct Tally {
    refused: u32,
    answered: u32,
    silent: u32,
    /// The hash of all answers.
    answers: u32,
}

impl Tally {
    fn count(&mut self, given: Given, answer: &[u8]) {
        match given {
            Given::Refused => self.refused = self.refused.wrapping_add(1),
            Given::Silent => self.silent = self.silent.wrapping_add(1),
            Given::Answered => self.answered = self.answered.wrapping_add(1),
        }
        if given == Given::Answered {
            self.answers = hashed(self.answers, answer);
        }
    }
}

/// A message of a kind from 1 to 18, most of whose numbers are small, at the beginning of `bytes`; returns its length. A Data has up to 69 bytes.
fn any_message(draws: &mut Draws, boot: u8, bytes: &mut [u8; 128]) -> usize
    ensures { result ≤ 100 }
{
    let kind = draws.below(18) as usize;
    let more = if kind == 10 {
        draws.below(70) as usize
    } else {
        0
    };
    let len = (usize::from(LENGTHS[kind]) + more).min(100);
    let other = draws.below(16);
    for byte in bytes[..len].iter_mut() {
        *byte = if draws.below(4) == 0 { draws.byte() } else { 0 };
    }
    bytes[..16].copy_from_slice(&[
        0x46,
        0x54,
        1,
        kind as u8 + 1,
        0,
        len as u8,
        0,
        0,
        0,
        0,
        0,
        0,
        0,
        0,
        0,
        boot,
    ]);
    if kind != 0 && other == 0 {
        bytes[15] = boot.wrapping_sub(1);
    }
    if kind != 0 && other == 1 {
        bytes[15] = boot.wrapping_add(1);
    }
    seal(&mut bytes[..len]);
    len
}

/// Gives the log as many datagrams as a line says, from its seed, and writes what that prints. The boot number of messages grows by one every 2,000 datagrams.
pub(crate) fn deliver_random(
    alloc: Global,
    log: &mut TrimStore,
    text: &str,
    said: &mut Said,
) -> Result<(), NoMemory> {
    let (count, seed) = text.split_once(' ').unwrap_or((text, ""));
    let (Ok(count), Ok(seed)) = (count.parse::<u32>(), seed.parse::<u64>()) else {
        said.add(b"no such line");
        return Ok(());
    };
    let mut draws = Draws::new(seed);
    let mut tally = Tally {
        refused: 0,
        answered: 0,
        silent: 0,
        answers: 0,
    };
    let mut bytes = [0u8; 128];
    let mut out = MsgOut::new();
    for i in 0..count {
        let boot = (i / 2_000 % 100) as u8 + 1;
        let len = if draws.below(2) == 0 {
            draws.anything(&mut bytes[..])
        } else {
            any_message(&mut draws, boot, &mut bytes)
        };
        let given = deliver(alloc, log, &bytes[..len], &mut out)?;
        tally.count(given, out.bytes());
    }
    let (refused, answered) = (tally.refused, tally.answered);
    let (silent, answers) = (tally.silent, tally.answers);
    write!(
        said,
        "random {count}: refused {refused} answered {answered} silent {silent} answers {answers}"
    );
    Ok(())
}
