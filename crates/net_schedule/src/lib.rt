//! The world of a schedule: scripted clients; a network that stores each packet as bytes and delivers the one that the schedule names; one logger,
//! two, or one that keeps marks; and a server that crashes and restarts.
#![tactic(auto)]

pub use schedule_network::{StepEnd, StepOut};
pub use world::World;

mod excluded;
pub mod laws;
mod sending;
mod world;
