//! The bytes of a text, and what is told of bytes and segments.

use crate::script::Text;
use ft_io::NoMemory;
use segment_codec::PacketRef;
use seq_arith::{ACK, CWR, ECE, FIN, PSH, RST, SYN, URG, has};
use std::alloc::Global;
use test_data::{Pattern, Said, bytes_of_hex};

impl Text<'_> {
    /// How many bytes it has.
    pub(crate) fn len(self) -> usize {
        match self {
            Text::Word(word) => word.len(),
            Text::Hex(digits) => digits.len() / 2,
            Text::Fill { count, place: _ } => usize::from(count),
        }
    }

    /// Its bytes.
    pub(crate) fn bytes(self, alloc: Global) -> Result<Vec<u8>, NoMemory> {
        Ok(match self {
            Text::Word(word) => Vec::from_slice(alloc, word.as_bytes())?,
            Text::Hex(digits) => bytes_of_hex(alloc, digits)?.unwrap_or(Vec::new(alloc)),
            Text::Fill { count, place } => {
                Pattern::Numbers.part(alloc, place, usize::from(count))?
            }
        })
    }
}

/// Tells bytes as a script spells them.
pub(crate) fn write_bytes(bytes: &[u8], said: &mut Said) {
    if !bytes.is_empty() {
        said.add(b"hex:");
    }
    said.hex(bytes);
}

const LETTERS: [(u8, &str); 8] = [
    (CWR, "C"),
    (ECE, "E"),
    (URG, "U"),
    (ACK, "A"),
    (PSH, "P"),
    (RST, "R"),
    (SYN, "S"),
    (FIN, "F"),
];

/// Tells a segment as a script spells it.
pub(crate) fn write_segment(p: PacketRef<'_>, said: &mut Said) {
    let (flags, seq, ack, window) = (p.head.flags, p.head.seq.0, p.head.ack.0, p.head.window);
    if flags == 0 {
        said.add(b"-");
    }
    for (flag, letter) in LETTERS {
        if has(flags, flag) {
            said.add(letter.as_bytes());
        }
    }
    write!(said, " seq {seq} ack {ack} win {window}");
    if let Some(mss) = p.head.mss {
        write!(said, " mss {mss}");
    }
    if !p.payload.is_empty() {
        said.add(b" data ");
        write_bytes(p.payload, said);
    }
}
