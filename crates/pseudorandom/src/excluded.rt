//! Wrong results that the contracts of this crate exclude. Each function calls another one of the crate, and promises of its result what a wrong body would
//! make false. It is proved from the other's contract alone, so it is no longer proved once that contract lets the wrong body pass.

ghost use Rattle.std.specs.Prelude.{◌≡◌};

use crate::Generator;

/// The number drawn is the upper 31 bits of the next state, here of the state after 0: the clauses `steps` and `shows` of `Generator::draw`.
#[tactic(auto, unfolding(crate::specs::Generator::stepped))]
fn the_lower_bits_are_drawn() -> u32
    ensures { result ≡ 167951807 }
{
    let mut generator = Generator::new(0);
    generator.draw()
}
