//! The south wrapper, between a client and an unchanged TCP (FT-TCP, INFOCOM 2001: the south side wrapper). It shifts sequence numbers by a delta, so that a
//! restarted TCP continues in the client's numbers, and acknowledges only what is known to be logged. It patches each segment in place, or writes it again with
//! timestamps, makes no new ones, allocates nothing, and withholds only TCP's RSTs and the client's repeated SYNs.
#![tactic(auto)]

pub use answers::{AckOut, CopyPart, Inward};
pub use fetched::Fetched;
pub use south::South;

mod answers;
mod copying;
mod excluded;
mod fetched;
pub mod laws;
mod passing;
mod patching;
mod south;
mod stamping;
