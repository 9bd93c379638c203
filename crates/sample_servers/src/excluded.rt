//! Wrong results that the contracts of this crate exclude. Each function calls another one of the crate, and promises of its result what a wrong body would
//! make false. It is proved from the other's contract alone, so it is no longer proved once that contract lets the wrong body pass.

ghost use Rattle.std.specs.Prelude.{◌≡◌, ◌-◌, ◌^◌, [], ◌∷◌, ◌++◌, length, IfOk};

use crate::{Line, Meter, Transfer};
use ft_io::NoMemory;
use server_trait::{Next, Service};
use std::alloc::Global;

/// Meter closes at the empty chunk, which is the end of input: the clause `closed` of `Service::take`.
fn empty_chunk_proceeds(out: &mut Vec<u8>) -> Result<Next, NoMemory>
    ensures { IfOk result (λ next. next ≡ Next.Close) }
{
    let mut meter = Meter;
    meter.take(&[], out)
}

/// A line ends with its 1,024th byte, and nothing of it is held: the clause `state` of `Service::take`, and the contract of `Line::split`, on which it stands.
#[tactic(auto, unfolding(crate::specs::Line::line_finished))]
fn line_of_1025_bytes(line: &mut Line, out: &mut Vec<u8>) -> Result<Next, NoMemory>
    requires { length line.old.held ≡ 1023 }
    ensures { IfOk result (λ _. line.new.held ≡ []) }
{
    line.take(b"a", out)
}

/// The number of a line stands still at 2^64 - 1: the clause `state` of `Service::take`, and that of `Line::finish`, on which it stands.
#[tactic(auto, unfolding(crate::specs::Line::line_finished))]
fn number_wraps(line: &mut Line, out: &mut Vec<u8>) -> Result<Next, NoMemory>
    requires { line.old.finished ≡ 2 ^ 64 - 1 }
    ensures { IfOk result (λ _. line.new.finished ≡ 2 ^ 64 - 1) }
{
    line.take(b"\n", out)
}

/// Transfer goes on with the pattern where the chunk before ended: the clauses `state` and `output` of `Service::take`.
#[tactic(auto, using(std::proofs::Common::append_assoc), unfolding(crate::proofs::Unfolded::restarts_the_pattern_words))]
fn restarts_the_pattern(alloc: Global, out: &mut Vec<u8>) -> Result<Next, NoMemory>
    ensures { IfOk result (λ _. out.new.items ≡ out.old.items ++ 0 ∷ 1 ∷ []) }
{
    let mut transfer = Transfer::fresh(alloc, 3);
    transfer.take(&[0, 0, 0, 1], out)?;
    transfer.take(&[0, 0, 0, 1], out)
}
