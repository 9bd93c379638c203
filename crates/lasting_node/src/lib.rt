//! A server that lasts: a node that keeps what is done in quarantine, has the log recycle it, and forgets it; and that watches its clients, asks a silent one
//! for a sign of life, and lets go of one that is gone. Whatever else arrives it hands on to the node, whose turn stays as it is.
//!
//! The law of its turn is in `lasting_laws`. In names, *stands* means that a value of the code corresponds to one of the law.
#![tactic(auto)]

pub use node::LastingNode;
pub use patience::Patience;

mod arrivals;
mod excluded;
mod node;
mod noting;
mod outside;
mod packets;
mod patience;
mod ticking;
