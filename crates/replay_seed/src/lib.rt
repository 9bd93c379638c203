//! A run that is generated from a seed, for the `seed` command of `ftreplay`: each event is drawn given the state of the world, and played; a summary is
//! written at the end.
#![tactic(auto)]

pub use asked::Asked;
pub use seed_run::{SeedEnd, seed};

mod asked;
mod dice;
mod excluded;
mod seed_progress;
mod seed_run;
mod seed_schedule;
mod seed_summary;
