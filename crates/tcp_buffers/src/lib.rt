//! What a TCP connection stores of its two streams: the bytes received and not read, the bytes written and not acknowledged, and the sender's numbers with the
//! timer (RFC 9293, 3.3.1). In contracts the queues are lists. Numbers are modulo 2^32, and the tests on them are RFC 9293's. Only the queues' `new` allocates.
#![tactic(auto)]

pub use receive_queue::RecvQueue;
pub use send_queue::SendQueue;
pub use send_state::{AckKind, SendState};
pub use timing::Timing;

mod copying;
mod early_runs;
mod excluded;
pub mod laws;
mod overwriting;
mod receive_queue;
mod send_queue;
mod send_state;
mod timing;

/// How many bytes a queue holds: as many as a window without scaling can advertise.
pub const QUEUE_ROOM: usize = limits::BUFFER as usize;
