//! A log as messages that make it again, one at a time: a journal may begin with them in place of all messages that the log was given.
#![tactic(auto)]

pub use writing_steps::{Step, write_boot, write_step};

mod excluded;
mod writing_steps;
