//! The clients of a connection, over packets as bytes. A scripted client makes the moves that a schedule names. A live one is a TCP of its own that sends a
//! script and takes the server's bytes. Both follow the client machine of the model.
#![tactic(auto)]

pub use client::{Client, Refused};
pub use ft_model::Phase;
pub use live::{ClientEnd, LiveClient};

mod arrival;
mod client;
mod excluded;
mod live;
mod moves;
mod receiving;
mod segment;
mod stamping;
