//! The log of FT-TCP in a journal's file: each change of it is on the disk before it is answered. Messages that change the log wait in a round, and a commit
//! appends the round as one block, so that a round of any number of messages costs one write and one sync. A restarted logger opens the file again, and has all
//! that was ever answered.
//!
//! The file is a *journal*, which is a write-ahead log of blocks. Each has its number, and a digest of its own bytes and of the digest of the block before
//! it: so a block that was dropped, repeated, moved, changed or taken from another journal is noticed. Once an append has returned `Ok`, no death takes its
//! block away.
#![tactic(auto)]

pub use header::MAGIC;
pub use journal::KeepEnd;
pub use kept::KeptLog;
pub use opening::OpenEnd;
pub use tip::Tip;

mod block;
mod body;
mod draft;
mod excluded;
mod grammar;
mod header;
mod journal;
pub mod journal_laws;
mod kept;
pub mod laws;
mod opening;
mod reading;
mod snapshot;
mod tip;
mod window;
