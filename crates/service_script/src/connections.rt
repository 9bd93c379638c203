//! Connections to the web server that follow from a seed.

ghost use Rattle.std.specs.Prelude.{◌<◌};

use ft_io::NoMemory;
use std::alloc::Global;
use test_data::{Draws, Said};

/// The pieces of each part of a request.
#[derive(Drop)]
pub(crate) struct Parts {
    alloc: Global,
    parts: Vec<Vec<Vec<u8>>>,
    // The part to which pieces are added.
    last: usize,
}

impl Parts {
    /// No parts yet.
    pub(crate) fn new(alloc: Global) -> Parts {
        Parts {
            alloc,
            parts: Vec::new(alloc),
            last: 0,
        }
    }

    /// Begins a part without pieces.
    pub(crate) fn begin(&mut self, at: u32) -> Result<(), NoMemory> {
        self.last = at as usize;
        match self.parts.get_mut(self.last) {
            Some(part) => part.clear(),
            None => self.parts.push(Vec::new(self.alloc))?,
        }
        Ok(())
    }

    /// Adds a piece to the last part, of this weight.
    pub(crate) fn add(&mut self, weight: u32, piece: &[u8]) -> Result<(), NoMemory> {
        if let Some(part) = self.parts.get_mut(self.last) {
            for _ in 0..weight {
                part.push(piece.to_vec(self.alloc)?)?;
            }
        }
        Ok(())
    }
}

/// Draws what a client says on a connection: one to five requests, each a piece of each part. One text in eight is damaged at one place.
pub(crate) fn draw_connection(
    alloc: Global,
    draws: &mut Draws,
    parts: &Parts,
) -> Result<Said, NoMemory> {
    let mut text = Said::new(alloc);
    for _ in 0..1 + draws.below(5) {
        for part in &parts.parts {
            let count = part.len().min(10_000) as u32;
            if count > 0 {
                if let Some(piece) = part.get(draws.below(count) as usize) {
                    text.add(piece);
                }
            }
        }
    }
    if draws.below(8) == 0 {
        return Ok(damaged(alloc, draws, text.bytes()?));
    }
    Ok(text)
}

/// A text that lacks a byte at some place, or has another there, or one more, or a line end.
fn damaged(alloc: Global, draws: &mut Draws, text: &[u8]) -> Said {
    let at = draws.below(text.len().min(100_000) as u32 + 1) as usize;
    let kind = draws.below(4);
    let byte = draws.byte();
    let (front, back) = text.split_at(at.min(text.len()));
    let mut changed = Said::new(alloc);
    changed.add(front);
    if kind == 3 {
        changed.add(b"\r\n");
    } else if kind > 0 {
        changed.add(&[byte]);
    }
    let skipped = if kind < 2 { 1 } else { 0 };
    changed.add(&back[back.len().min(skipped)..]);
    changed
}
