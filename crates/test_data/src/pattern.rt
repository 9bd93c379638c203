//! Streams in which a byte at a wrong place is seen.

ghost use Rattle.std.specs.Prelude.{◌≡◌, ◌↔◌, ◌+◌, ◌≤◌, ◌^◌, IsTrue, IfOk, length, min};
ghost use Rattle.test_data.specs.Pattern.{byte_at, IsPart, first_of, period_of};
ghost use Rattle.test_data.specs.declared.pattern.Pattern.TheVariants.{Numbers};

use ft_io::NoMemory;
use std::alloc::Global;

/// The most bytes of a part of a table.
const PART_LIMIT: usize = 1_460;

/// A stream whose bytes count up from a first byte, and begin again after a period. Places are numbers modulo 2^32.
#[derive(Clone, Copy, PartialEq, Eq)]
pub enum Pattern {
    /// From a to z.
    Letters,
    /// From A to Z.
    Capitals,
    /// From 0 to 250.
    Numbers,
}

impl Pattern {
    fn first(self) -> u8
        ensures { result ≡ first_of self }
    {
        match self {
            Pattern::Letters => b'a',
            Pattern::Capitals => b'A',
            Pattern::Numbers => 0,
        }
    }

    fn period(self) -> u32
        ensures { result ≡ period_of self }
    {
        match self {
            Pattern::Letters | Pattern::Capitals => 26,
            Pattern::Numbers => 251,
        }
    }

    /// The byte at a place.
    pub fn byte(self, place: u32) -> u8
        ensures { result ≡ byte_at self place }
    {
        self.first() + (place % self.period()) as u8
    }

    /// Fills a slice with the bytes from a place on.
    pub fn fill(self, place: u32, bytes: &mut [u8])
        ensures { IsPart self place bytes.new }
    {
        let mut next = place;
        for byte in bytes.iter_mut() {
            *byte = self.byte(next);
            next = next.wrapping_add(1);
        }
    }

    /// Whether bytes are those from a place on.
    pub fn is_part(self, place: u32, bytes: &[u8]) -> bool
        ensures { IsTrue result ↔ IsPart self place bytes.now }
    {
        let mut next = place;
        for byte in bytes {
            if *byte != self.byte(next) {
                return false;
            }
            next = next.wrapping_add(1);
        }
        true
    }

    /// So many bytes from a place on.
    pub fn part(self, alloc: Global, place: u32, count: usize) -> Result<Vec<u8>, NoMemory>
        ensures length { IfOk result (λ bytes. length bytes.items ≡ count) }
        ensures bytes { IfOk result (λ bytes. IsPart self place bytes.items) }
    {
        let mut bytes = Vec::with_capacity(alloc, count)?;
        bytes.resize(count, 0)?;
        self.fill(place, bytes.as_mut_slice());
        Ok(bytes)
    }
}

/// The first bytes of `Pattern::Numbers`: a period and 1,460 more, so that each part of at most 1,460 bytes is a slice of them.
#[derive(Drop)]
pub struct PatternTable {
    bytes: [u8; 1_711],
    ghost whole: { IsPart Numbers 0 bytes },
}

impl PatternTable {
    pub fn new() -> PatternTable {
        let mut bytes = [0; 1_711];
        Pattern::Numbers.fill(0, &mut bytes);
        PatternTable { bytes }
    }

    /// So many bytes from a place on, at most 1,460.
    pub fn part(&self, place: u32, count: usize) -> &[u8]
        ensures length { length result.now ≡ min count 1460 }
        ensures bytes { place + 1460 ≤ 2 ^ 32 → IsPart Numbers place result.now }
    {
        let start = (place % Pattern::Numbers.period()) as usize;
        &self.bytes[start..start + count.min(PART_LIMIT)]
    }
}
