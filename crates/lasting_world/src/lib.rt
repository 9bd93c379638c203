//! The world of a schedule whose server lasts: scripted clients that may come to one address one after another; a network that stores each packet as bytes, and
//! loses for good what is under way of a connection when its entry is recycled; a log whose entries may be recycled; and a server that lasts, which crashes and
//! restarts.
#![tactic(auto)]

pub use gone::GoneEntry;
pub use guest::Guest;
pub use surroundings::Surroundings;
pub use world::World;

mod about;
mod gone;
mod guest;
pub mod laws;
mod network;
mod sending;
mod surroundings;
mod world;
