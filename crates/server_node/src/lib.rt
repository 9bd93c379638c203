//! The server of one incarnation: it boots, fetches the log, restarts every connection, and serves.
//!
//! Contracts and `specs/` relate it to the model, in the words that `node_serving` explains.
#![tactic(auto)]

pub use input::{Input, TurnEnd};
pub use node::Node;
pub use node_serving::{OutPacket, To};

mod excluded;
mod input;
pub mod laws;
mod marked;
mod marked_reviving;
mod node;
mod places;
mod restarting;
mod reviving;
mod serving_turn;
mod stage;
