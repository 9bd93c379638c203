//! Which grammar the messages of a journal have: its first message says it.

ghost use Rattle.std.specs.Prelude.{◌≡◌, ◌⊎◌, ◌≤◌, ◌++◌, ℕ, List, true, false, length, IfOk, []};
ghost use Rattle.kept_log.specs.Startup.{IsOtherwise, BeginsOtherwise};

use crate::block::{Start, start_of};
use crate::body::{first_length, read_any};
use crate::header::{TIME, first_of};
use crate::tip::HEAD;
use logger_wire::Grammar;
use std::alloc::{AllocError, Global};

/// Whether these are two grammars.
fn differ(one: Grammar, other: Grammar) -> bool
    ensures two { result ≡ true → one ≡ other → ⊥ }
    ensures same { result ≡ false → one ≡ other }
{
    match one {
        Grammar::Plain => match other {
            Grammar::Plain => false,
            Grammar::Wide => true,
        },
        Grammar::Wide => match other {
            Grammar::Plain => true,
            Grammar::Wide => false,
        },
    }
}

/// Whether these bytes begin with a message of another grammar.
fn is_otherwise(grammar: Grammar, bytes: &[u8]) -> bool
    ensures some { result ≡ true → IsOtherwise grammar bytes.now }
    ensures none { result ≡ false → IsOtherwise grammar bytes.now → ⊥ }
{
    let Some(n) = first_length(bytes) else {
        return false;
    };
    let Some((found, _m)) = read_any(&bytes[..n]) else {
        return false;
    };
    differ(found, grammar)
}

/// Whether a journal that was made at this time has another grammar. The bytes come after its header.
pub fn has_other_grammar(
    alloc: Global,
    grammar: Grammar,
    made: &[u8; TIME],
    bytes: &[u8],
) -> Result<bool, AllocError>
    ensures some { IfOk result (λ other. other ≡ true → (more : List ℕ) → BeginsOtherwise grammar made.now (bytes.now ++ more)) }
    // Nothing is missing, or more than the longest block is there.
    ensures none { IfOk result (λ other. other ≡ false → (more : List ℕ) → (381740 ≤ length bytes.now) ⊎ (more ≡ [])
        → BeginsOtherwise grammar made.now (bytes.now ++ more) → ⊥) }
{
    let tip = first_of(made);
    match start_of(alloc, &tip, bytes)? {
        Start::Block(len, _digest) => Ok(is_otherwise(grammar, &bytes[HEAD..len + HEAD])),
        Start::Short => Ok(false),
        Start::Other => Ok(false),
    }
}
