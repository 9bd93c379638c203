//! Wrong results that the contracts of this crate exclude. Each function calls another one of the crate, and promises of its result what a wrong body would
//! make false. It is proved from the other's contract alone, so it is no longer proved once that contract lets the wrong body pass.

ghost use Rattle.std.specs.Prelude.{◌≡◌, IfOk, codes, string_bytes};

use crate::{Draws, Pattern, hashed, word_of_bytes};
use ft_io::NoMemory;
use std::alloc::Global;

/// A stream of letters has all 26, and the last is `z`: the contract of `Pattern::byte`.
fn byte_after_the_period() -> u8
    ensures { result ≡ 122 }
{
    Pattern::Letters.byte(25)
}

/// The hash tells the order of the bytes, as the earlier one counts 31 times: the contract of `hashed`.
fn hash_loses_the_order() -> u32
    ensures { result ≡ 33 }
{
    hashed(0, &[1, 2])
}

/// A single zero byte has the word `00`, and not that of no bytes: the clause `some` of `word_of_bytes`.
#[tactic(auto, unfolding(hex::specs::Hex::encode_with))]
fn hides_a_zero_byte(alloc: Global) -> Result<String, NoMemory>
    ensures { IfOk result (λ word. string_bytes word ≡ codes "00") }
{
    word_of_bytes(alloc, &[0])
}

/// A byte that is drawn may have any value, 255 as well: the clause `values` of `Draws::fill`.
#[tactic(auto, unfolding(crate::specs::Draws::state_after, pseudorandom::specs::Generator::stepped))]
fn never_draws_255() -> u8
    ensures { result ≡ 255 }
{
    let mut bytes = [0];
    let mut draws = Draws::new(308);
    draws.fill(&mut bytes);
    bytes[0]
}
