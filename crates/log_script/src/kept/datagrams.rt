//! Long Data messages, of which a round has room for 256.

use limits::{MESSAGE, SEGMENT};
use test_data::seal;

/// The Data message of the numbered piece of 1,460 bytes of the stream of the client at 192.0.2.1:40000: each byte is its place modulo 251.
pub(crate) fn long_data(boot: u64, piece: u32) -> [u8; MESSAGE] {
    let mut bytes = [0u8; MESSAGE];
    bytes[..4].copy_from_slice(&[70, 84, 1, 11]);
    bytes[8..16].copy_from_slice(&boot.to_be_bytes());
    bytes[16..22].copy_from_slice(&[192, 0, 2, 1, 156, 64]);
    let offset = piece.wrapping_mul(u32::from(SEGMENT));
    bytes[22..26].copy_from_slice(&offset.to_be_bytes());
    for (i, byte) in bytes[31..].iter_mut().enumerate() {
        *byte = (offset.wrapping_add(i as u32) % 251) as u8;
    }
    seal(&mut bytes[..]);
    bytes
}
