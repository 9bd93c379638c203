//! One number for many bytes.

ghost use Rattle.std.specs.Prelude.{◌≡◌};
ghost use Rattle.test_data.specs.Hash.{with_byte, with_bytes};

/// A polynomial hash at 31, modulo 2^32. `hash` is that of the bytes before these, or else any number.
pub fn hashed(hash: u32, bytes: &[u8]) -> u32
    ensures { result ≡ with_bytes hash bytes.now }
{
    let mut so_far = hash;
    for byte in bytes {
        so_far = after_byte(so_far, *byte);
    }
    so_far
}

fn after_byte(hash: u32, byte: u8) -> u32
    ensures { result ≡ with_byte hash byte }
{
    hash.wrapping_mul(31).wrapping_add(u32::from(byte))
}
