//! Damage to a string of bytes.

ghost use Rattle.std.specs.Prelude.{◌≡◌, ◌<◌, ◌*◌, length};
ghost use Rattle.seq_arith.specs.Damage.{flipped};

/// Inverts one bit. Bit 0 is the lowest of the first byte, bit 8 the lowest of the second.
#[tactic(auto, unfolding(crate::specs::Damage::flipped))]
pub fn flip(bytes: &mut [u8], bit: usize)
    requires { bit < 8 * length bytes.old }
    ensures { bytes.new ≡ flipped bit bytes.old }
{
    bytes[bit / 8] ^= 1 << (bit % 8);
}
