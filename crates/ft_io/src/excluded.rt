//! Wrong results that the contracts of this crate exclude. Each function calls another one of the crate, and promises of its result what a wrong body would
//! make false. It is proved from the other's contract alone, so it is no longer proved once that contract lets the wrong body pass.

ghost use Rattle.std.specs.Prelude.{◌≡◌, ◌∷◌, [], true};
ghost use Rattle.std.specs.Io.KnownBytes.{Appends};

use crate::{Sink, Source, read_to_limit, write_all};
use std::alloc::Global;

/// A reading that succeeds met no fault: the clause `no_fault` of `read_to_limit`, by that of `read_more`.
fn reading_swallows_a_fault<I: Source>(alloc: Global, input: &mut I) -> bool
    ensures { result ≡ true → I.fault_count input.new ≡ I.fault_count input.old }
{
    read_to_limit(alloc, input, 1).is_ok()
}

/// A writing that succeeds gave the sink every byte: the clause `whole` of `write_all`.
fn writing_skips_bytes<O: Sink>(out: &mut O) -> bool
    ensures { result ≡ true → Appends (O.taken out.old) (O.taken out.new) (1 ∷ 2 ∷ []) }
{
    write_all(out, &[1, 2]).is_ok()
}
