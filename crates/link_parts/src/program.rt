//! The program of a pair's children.

ghost use Rattle.std.specs.Prelude.{◌≡◌, IfOk};
ghost use Rattle.link_parts.specs.Roles.{is_name as is_name_lem, program_of};

use ft_io::NoMemory;
use std::alloc::Global;
use std::marker::Model;

/// The name by which a program is started. It isn't empty and doesn't begin with `-`.
#[derive(Drop)]
pub struct Program {
    word: String,
}

impl Model for Program {
    ghost use Rattle.std.specs.Prelude.{List, ℕ, string_bytes};

    ghost Value = { List ℕ };

    ghost view = { λ p. string_bytes p.word };
}

/// Returns whether a word can name a program or a file: it isn't empty and doesn't begin with `-`.
pub fn is_name(word: &[u8]) -> bool
    ensures { result ≡ is_name_lem word.now }
{
    match word {
        [] => false,
        [first, ..] => *first != b'-',
    }
}

impl Program {
    /// Returns the program of this name, or `None` if the word is empty or begins with `-`.
    pub(crate) fn read(alloc: Global, word: &str) -> Result<Option<Program>, NoMemory>
        ensures { IfOk result (λ program. program ≡ program_of word.now) }
    {
        if !is_name(word.as_bytes()) {
            return Ok(None);
        }
        let word = String::from_str(alloc, word)?;
        Ok(Some(Program { word }))
    }

    /// Returns the name.
    pub fn as_str(&self) -> &str
        ensures { result.now ≡ self.now }
    {
        self.word.as_str()
    }
}
