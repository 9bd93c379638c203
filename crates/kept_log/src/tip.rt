//! Where the next block of a journal begins, and what it depends on.

ghost use Rattle.std.specs.Prelude.{◌≡◌, ◌≤◌, ◌<◌, ◌^◌, List, ℕ, false, length, IfOk};
ghost use Rattle.sha2.specs.Hashers.{Holds256};
ghost use Rattle.kept_log.specs.Format.{digest, salt_of, seal, head};

use crate::header::MAGIC;
use sha2::{Digest, Sha256};
use std::alloc::{AllocError, Global};

/// A place that no file reaches, and a number that no block has.
pub const BEYOND: u64 = 1 << 62;

/// The length of a digest, in bytes.
pub const DIGEST: usize = 16;

/// How many bytes of a block come before its body: the salt, its number, its digest and the length of its body.
pub const HEAD: usize = 44;

/// Where the next block begins.
#[derive(Clone, Copy, PartialEq, Eq)]
pub struct Tip {
    /// The journal's salt, which is in each of its blocks.
    pub salt: [u8; DIGEST],
    /// The number of the next block. The first one has the number 1.
    pub number: u64,
    /// The digest of the block before it.
    pub previous: [u8; DIGEST],
    /// Its place, in bytes from the file's beginning.
    pub end: u64,
}

impl Tip {
    /// Whether no block follows because its place or its number would be too large.
    pub fn is_beyond(&self) -> bool
        ensures { result ≡ false → (self.now.end ≤ 2 ^ 62) × (self.now.number ≤ 2 ^ 62) }
    {
        self.end > BEYOND || self.number > BEYOND
    }
}

/// The first half of what SHA-256 gives.
#[tactic(auto, unfolding(crate::specs::Format::digest))]
fn half_of(hasher: Sha256) -> [u8; DIGEST]
    ensures { (bytes : List ℕ) → Holds256 hasher bytes → result ≡ digest bytes }
{
    let whole = hasher.finalize();
    let mut half = [0; DIGEST];
    half.copy_from_slice(&whole[..DIGEST]);
    half
}

/// The salt of a journal that was made at this time.
#[tactic(auto, unfolding(crate::specs::Format::salt_of))]
pub fn salt_at(made: &[u8]) -> [u8; DIGEST]
    ensures { result ≡ salt_of made.now }
{
    let mut hasher = Sha256::new();
    hasher.update(MAGIC);
    hasher.update(made);
    half_of(hasher)
}

/// The digest of the next block, if it has this body.
#[tactic(auto, unfolding(crate::specs::Format::seal, seq_arith::specs::MessageGrammar::number_bytes), using(std::proofs::lemmas::List::append_assoc))]
pub fn seal_of(tip: &Tip, body: &[u8]) -> [u8; DIGEST]
    requires { length body.now < 2 ^ 32 }
    ensures { result ≡ seal tip.now body.now }
{
    let number = tip.number.to_be_bytes();
    let len = (body.len() as u32).to_be_bytes();
    let mut hasher = Sha256::new();
    hasher.update(tip.previous.as_slice());
    hasher.update(number.as_slice());
    hasher.update(len.as_slice());
    hasher.update(body);
    half_of(hasher)
}

/// What comes before the body of the next block, which has this digest and a body of this length.
#[tactic(auto, unfolding(crate::specs::Format::head, seq_arith::specs::MessageGrammar::number_bytes), using(std::proofs::lemmas::List::append_assoc))]
pub fn head_of(
    alloc: Global,
    tip: &Tip,
    digest: &[u8; DIGEST],
    len: u32,
) -> Result<Vec<u8>, AllocError>
    ensures { IfOk result (λ bytes. (body : List ℕ) → length body ≡ len → digest.now ≡ seal tip.now body → bytes.items ≡ head tip.now body) }
{
    let mut bytes = Vec::with_capacity(alloc, HEAD)?;
    bytes.extend_from_slice(&tip.salt)?;
    bytes.extend_from_slice(&tip.number.to_be_bytes())?;
    bytes.extend_from_slice(digest)?;
    bytes.extend_from_slice(&len.to_be_bytes())?;
    Ok(bytes)
}
