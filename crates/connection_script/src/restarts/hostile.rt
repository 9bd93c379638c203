//! Messages that answer no question.

use crate::restarts::letters::{LOG, begin_letter, end_letter};
use crate::restarts::logged::{Logged, head_of, lens_of, part_of};
use crate::restarts::play::{BOOT, hand};
use ft_io::{Key, NoMemory};
use pseudorandom::Generator;
use reincarnate::Fetching;
use sample_servers::AnyService;
use std::alloc::Global;

/// One of them: an answer of another boot, of another key, of another place, of another kind, or bytes that are no message.
fn letter(alloc: Global, entry: &Logged<'_>, drawn: u32, place: u32) -> Result<Vec<u8>, NoMemory> {
    let other = Logged {
        key: Key { ip: 9, port: 9 },
        ..*entry
    };
    match drawn % 8 {
        0 => part_of(alloc, 1, entry, 0),
        1 => part_of(alloc, BOOT, &other, 0),
        2 => part_of(alloc, BOOT, entry, 1 + place % 2_000),
        3 => lens_of(alloc, BOOT, entry, 0),
        4 => head_of(alloc, BOOT, (place % 64) as u16, entry),
        5 => head_of(alloc, BOOT, (place % 64) as u16, &other),
        6 => end_letter(alloc, &begin_letter(alloc, LOG, (place % 19) as u8, BOOT)),
        _ => {
            let mut noise = begin_letter(alloc, LOG, (place % 256) as u8, BOOT);
            noise.add(&drawn.to_be_bytes());
            noise.add(&place.to_be_bytes());
            end_letter(alloc, &noise)
        }
    }
}

/// Hands over this many of them while bytes of this entry are asked for, from offset 0 on. Returns how many fit.
pub(crate) fn attack(
    alloc: Global,
    fetching: &mut Fetching<AnyService>,
    entry: &Logged<'_>,
    count: u32,
) -> Result<u32, NoMemory> {
    let mut draws = Generator::new(1);
    let mut fitted = 0u32;
    for _ in 0..count {
        let (drawn, place) = (draws.draw(), draws.draw());
        let bytes = letter(alloc, entry, drawn, place)?;
        if hand(alloc, fetching, &bytes)? {
            fitted = fitted.saturating_add(1);
        }
    }
    Ok(fitted)
}
