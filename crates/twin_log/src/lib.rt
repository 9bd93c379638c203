//! Two loggers that act as one. The head takes the server's messages, numbers them and forwards them. The tail applies them in that order and answers the
//! server. Once one of them has stopped and the other is informed of it, the other serves alone. Each does what `twin_laws` defines, datagram for datagram;
//! `logger_wire` has the datagrams between them as bytes. A call that returns `NoMemory` leaves the logger unchanged.
#![tactic(auto)]

pub use twin_laws::{Part, Side};
pub use twin_out::TwinOut;
pub use two_logs::TwinLog;

mod datagram;
mod excluded;
mod twin_out;
mod two_logs;
mod waiting;
