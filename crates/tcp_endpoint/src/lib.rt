//! A TCP endpoint for one connection (RFC 9293). Segments come in through `on_packet`, time passes through `on_tick`, and `flush` ends a turn and gives the
//! packets to be sent. The user reads and writes through `socket_layer`'s trait. Contracts describe a connection's variables as offsets in its two streams,
//! so they are the same for every pair of initial sequence numbers.
#![tactic(auto)]

pub use endpoint::Endpoint;
pub use outbox::Outbox;
pub use states::{State, StateName};

mod arrival;
mod endpoint;
mod excluded;
mod leaving;
mod outbox;
mod receiver;
mod sender;
mod states;
mod user;
