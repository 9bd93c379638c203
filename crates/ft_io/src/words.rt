//! A list of words that a public type owns. Contracts see only the bytes of each, neither capacity nor address.

ghost use Rattle.std.specs.Prelude.{◌≡◌, List, ℕ, map, IfOk, string_bytes};

use crate::NoMemory;
use std::alloc::Global;
use std::marker::Model;

/// Words in order, such as those of a command.
#[derive(Drop)]
pub struct Words {
    words: Vec<String>,
}

impl Model for Words {
    ghost use Rattle.std.specs.Prelude.{List, ℕ, map, string_bytes};

    ghost Value = { List (List ℕ) };

    ghost view = { λ w. map string_bytes w.words.items };
}

impl Words {
    /// Copies these words.
    #[tactic(auto, using(crate::proofs::Copies::same_bytes))]
    pub fn copy(alloc: Global, words: &[String]) -> Result<Words, NoMemory>
        ensures { IfOk result (λ copy. copy ≡ map string_bytes words.now) }
    {
        let words = words.to_vec(alloc)?;
        Ok(Words { words })
    }

    /// Returns the words, in order.
    pub fn as_slice(&self) -> &[String]
        ensures { map string_bytes result.now ≡ self.now }
    {
        self.words.as_slice()
    }
}
