//! What a restart makes of one connection's logged reads: a service that gets them again, and a fresh TCP that forged segments of the client bring to where the
//! log ends.
#![tactic(auto)]

pub use cuts::Cuts;
pub use replay::Replay;
pub use splicing::{has_end, spliced_endpoint};

mod cuts;
mod excluded;
mod held;
mod replay;
mod splicing;
