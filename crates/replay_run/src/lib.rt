//! The `run` command of `ftreplay`: it reads a schedule, plays its events in the world and writes the report as it runs.
#![tactic(auto)]

pub use laws::{reports_determine_schedule_and_trace, schedules_have_one_trace};
pub use schedules::replay_schedule;

mod excluded;
mod laws;
mod lines;
mod play;
mod report;
mod run;
mod schedules;
