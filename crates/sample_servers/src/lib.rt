//! Four deterministic services, and the enum over them that a program runs. Each stresses a different part of a fault-tolerant server: Echo the simple path,
//! Line state across chunks, Transfer large output, and Meter the lengths of the reads. What each does is defined in `specs/`, and `take` does exactly that.
#![tactic(auto)]

pub use any_service::AnyService;
pub use echo::Echo;
pub use line::Line;
pub use meter::Meter;
pub use transfer::Transfer;

mod any_service;
mod echo;
mod excluded;
pub mod laws;
mod line;
mod meter;
mod transfer;
