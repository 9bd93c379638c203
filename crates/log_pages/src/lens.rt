//! The lengths of reads in one answer.

ghost use Rattle.std.specs.Prelude.{[], ◌≡◌, ◌≤◌, ◌<◌, ◌*◌, ◌%◌, ◌++◌, ◌∷◌, length};
ghost use Rattle.seq_arith.specs.MessageGrammar.{lens_in};

use arrayvec::ArrayVec;
use std::marker::Model;

/// The most lengths in one answer.
pub const LENS: usize = 512;

/// At most 512 lengths, two bytes each.
#[derive(Drop)]
pub struct Lens {
    /// The lengths one after the other, as a message spells them.
    bytes: ArrayVec<u8, 1_024>,
}

impl Model for Lens {
    ghost use Rattle.std.specs.Prelude.{ℕ, ◌≡◌, ◌%◌, List, length};
    ghost use Rattle.seq_arith.specs.MessageGrammar.{lens_in};

    ghost Value = { List ℕ };

    ghost view = { λ l. lens_in l.bytes.items };

    ghost invariant = { λ l. length l.bytes.items % 2 ≡ 0 };
}

impl Lens {
    /// No lengths.
    pub fn new() -> Lens
        ensures { result ≡ [] }
    {
        Lens {
            bytes: ArrayVec::new(),
        }
    }

    /// How many lengths there are, at most 512.
    #[tactic(auto, using(crate::proofs::Lengths::count_of_lens))]
    pub fn len(&self) -> usize
        ensures value { result ≡ length self.now }
        ensures within { result ≤ 512 }
    {
        self.bytes.len() / 2
    }

    /// Appends a length. There must be room for it.
    #[tactic(auto, using(crate::proofs::Lengths::one_length_more, crate::proofs::Lengths::count_of_lens))]
    pub fn push(&mut self, len: u16)
        requires { length self.old < 512 }
        ensures { self.new ≡ self.old ++ len ∷ [] }
    {
        self.bytes
            .try_extend_from_slice(&len.to_be_bytes())
            .unwrap();
    }

    /// The lengths as bytes: two for each, in network byte order.
    #[tactic(auto, using(crate::proofs::Lengths::count_of_lens))]
    pub fn as_bytes(&self) -> &[u8]
        ensures value { lens_in result.now ≡ self.now }
        ensures size { length result.now ≡ 2 * length self.now }
        ensures within { length result.now ≤ 1024 }
    {
        self.bytes.as_slice()
    }
}
