//! Lengths of reads, in two bytes each.

ghost use Rattle.std.specs.Prelude.{◌≡◌, ◌<◌, ◌∷◌, [], MatchOption, IfSome, length};
ghost use Rattle.seq_arith.specs.MessageGrammar.{lens_in};

use logger_wire::len_at;

/// Returns the first length and the bytes after it, or `None` if there is none.
#[tactic(auto, using(std::proofs::lemmas::List::take_rest, logger_wire::proofs::Lens::lens_step, logger_wire::proofs::Lens::lens_end))]
pub(crate) fn split_first(lens: &[u8]) -> Option<(u16, &[u8])>
    ensures value { MatchOption result (lens_in lens.now ≡ []) (λ found. lens_in lens.now ≡ found.0 ∷ lens_in found.1.now) }
    ensures shorter { IfSome result (λ found. length found.1.now < length lens.now) }
{
    if lens.len() < 2 {
        return None;
    }
    Some((len_at(lens, 0), &lens[2..]))
}
