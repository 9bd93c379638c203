//! What a journal's file begins with.

ghost use Rattle.std.specs.Prelude.{◌≡◌, ◌≤◌, length};
ghost use Rattle.kept_log.specs.Format.{first_tip};
ghost use Rattle.kept_log.specs.ReadSteps.{HasBegin};
ghost use Rattle.kept_log.specs.Startup.{IsOlder};

use crate::tip::{Tip, salt_at};

/// The first eight bytes of a journal's file.
pub const MAGIC: &[u8] = b"ftlog 2\n";

/// The first eight bytes of a file of the first version.
const OLDER: &[u8] = b"ftlog 1\n";

/// The length of the time at which a journal was made, in bytes.
pub const TIME: usize = 8;

/// The length of a header, in bytes: the magic, the time and the salt.
pub const HEADER: usize = 32;

/// What a file begins with, judged by all its bytes, or by at least as many as a header has.
#[derive(Clone, Copy)]
pub enum Begin {
    /// Nothing: the file is empty.
    Empty,
    /// A part of a header, and nothing more.
    Unfinished,
    /// What a file of the first version begins with.
    Older,
    /// A header with this time.
    Whole([u8; TIME]),
    /// Something else.
    Missing,
}

/// Where the first block of a journal begins that was made at this time.
pub fn first_of(made: &[u8]) -> Tip
    ensures { result ≡ first_tip made.now }
{
    let salt = salt_at(made);
    Tip {
        salt,
        number: 1,
        previous: salt,
        end: HEADER as u64,
    }
}

#[tactic(auto, using(crate::proofs::Cited::begin_of_lemmas))]
/// Says what a file begins with.
pub fn begin_of(bytes: &[u8]) -> Begin
    ensures { HasBegin bytes.now result }
{
    if bytes.is_empty() {
        return Begin::Empty;
    }
    if bytes.starts_with(OLDER) {
        return Begin::Older;
    }
    if bytes.len() >= HEADER {
        return time_of(bytes);
    }
    if MAGIC.starts_with(bytes) || bytes.starts_with(MAGIC) {
        Begin::Unfinished
    } else {
        Begin::Missing
    }
}

#[tactic(auto, using(crate::proofs::Headers::has_header, crate::proofs::Headers::missing_long, std::proofs::lemmas::List::take_rest))]
/// Says what at least as many bytes begin with as a header has, if that isn't the first version's.
fn time_of(bytes: &[u8]) -> Begin
    requires long { 32 ≤ length bytes.now }
    requires not_older { IsOlder bytes.now → ⊥ }
    ensures { HasBegin bytes.now result }
{
    let mut made = [0; TIME];
    made.copy_from_slice(&bytes[MAGIC.len()..MAGIC.len() + TIME]);
    let salt = salt_at(&made);
    if bytes.starts_with(MAGIC) && bytes[MAGIC.len() + TIME..].starts_with(&salt) {
        Begin::Whole(made)
    } else {
        Begin::Missing
    }
}
