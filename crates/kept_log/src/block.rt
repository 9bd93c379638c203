//! Where a block ends.

ghost use Rattle.std.specs.Prelude.{◌≡◌, ◌≤◌, ◌+◌, length, drop, true, false, IfOk};
ghost use Rattle.seq_arith.specs.MessageGrammar.{number_in};
ghost use Rattle.kept_log.specs.ReadSteps.{StartsWith};
ghost use Rattle.kept_log.specs.Startup.{IsMark, IsFollowed};

use crate::tip::{DIGEST, HEAD, Tip, head_of, seal_of};
use byteorder::{BigEndian, ByteOrder};
use std::alloc::{AllocError, Global};

/// The longest body of a block, in bytes: 256 of the longest messages.
pub const MOST_BODY: usize = 381_696;

/// Where the length of its body is in a block, in bytes.
const LENGTH_AT: usize = 40;

/// What bytes begin with.
#[derive(Clone, Copy)]
pub enum Start {
    /// The next block, whose body has this many bytes, and its digest.
    Block(usize, [u8; DIGEST]),
    /// A prefix of a block, maybe, or nothing.
    Short,
    /// Not the next block, whatever follows.
    Other,
}

/// The number in four bytes.
#[tactic(auto, using(std::proofs::lemmas::List::take_rest), unfolding(seq_arith::specs::MessageGrammar::number_in))]
fn long_at(bytes: &[u8], at: usize) -> u32
    requires { at + 4 ≤ length bytes.now }
    ensures { result ≡ number_in 4 (drop at bytes.now) }
{
    BigEndian::read_u32(&bytes[at..])
}

/// The number in eight bytes.
#[tactic(auto, using(std::proofs::lemmas::List::take_rest), unfolding(seq_arith::specs::MessageGrammar::number_in))]
fn huge_at(bytes: &[u8], at: usize) -> u64
    requires { at + 8 ≤ length bytes.now }
    ensures { result ≡ number_in 8 (drop at bytes.now) }
{
    BigEndian::read_u64(&bytes[at..])
}

/// Says whether these bytes begin with the next block.
#[tactic(auto, using(crate::proofs::Cited::start_of_lemmas))]
pub fn start_of(alloc: Global, tip: &Tip, bytes: &[u8]) -> Result<Start, AllocError>
    ensures { IfOk result (StartsWith tip.now bytes.now) }
{
    if bytes.len() < HEAD {
        return Ok(Start::Short);
    }
    let len = long_at(bytes, LENGTH_AT);
    if len as usize > MOST_BODY {
        return Ok(Start::Other);
    }
    if bytes.len() - HEAD < len as usize {
        return Ok(Start::Short);
    }
    let digest = seal_of(tip, &bytes[HEAD..HEAD + len as usize]);
    let head = head_of(alloc, tip, &digest, len)?;
    if bytes.starts_with(&head) {
        Ok(Start::Block(len as usize, digest))
    } else {
        Ok(Start::Other)
    }
}

#[tactic(auto, using(crate::proofs::Starts::is_mark, crate::proofs::Starts::mark_long, crate::proofs::Starts::mark_begins, crate::proofs::Starts::mark_later))]
/// Whether a block begins here, by its salt and its number, that is later than the next one; or the next one, if bytes come before.
fn is_later(tip: &Tip, at: usize, bytes: &[u8]) -> bool
    ensures some { result ≡ true → IsMark tip.now at bytes.now }
    ensures none { result ≡ false → IsMark tip.now at bytes.now → ⊥ }
{
    if bytes.len() < DIGEST + 8 || !bytes.starts_with(&tip.salt) {
        return false;
    }
    let number = huge_at(bytes, DIGEST);
    number > tip.number || (number == tip.number && at > 0)
}

#[tactic(auto, using(crate::proofs::Starts::followed_at, crate::proofs::Starts::none_followed, std::proofs::lemmas::List::take_rest))]
/// Whether a block begins in these bytes that no death leaves there.
pub fn is_followed(tip: &Tip, bytes: &[u8]) -> bool
    ensures some { result ≡ true → IsFollowed tip.now bytes.now }
    ensures none { result ≡ false → IsFollowed tip.now bytes.now → ⊥ }
{
    for at in 0..bytes.len() {
        if is_later(tip, at, &bytes[at..]) {
            return true;
        }
    }
    false
}
