//! `replay`: the top call of `ftreplay`. It reads a schedule, plays its events in the world and writes the report as it runs; or it generates a schedule
//! from a seed, in which each event is drawn given the state of the world, plays it and writes a summary; or it reads a report and checks whether it is the
//! report of a legal trace.
#![tactic(auto)]

pub use program::run_ftreplay;
pub use replay_check::Status;
pub use replay_seed::{Asked, SeedEnd, seed};
pub use top::replay;

mod excluded;
mod program;
mod seeds;
mod top;
