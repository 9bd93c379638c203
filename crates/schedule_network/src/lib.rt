//! What a schedule's world has beside its server: the clients; the network, which stores each packet as bytes; and what keeps the log: one logger, two, or one
//! that keeps marks.
#![tactic(auto)]

pub use clients::{keys_of, new_clients, number_of};
pub use end::StepEnd;
pub use logs::Logs;
pub use marked::MarkedLog;
pub use only::OnlyLogger;
pub use packets::Packets;
pub use pair::LogPair;
pub use step_out::StepOut;

mod answers;
mod clients;
mod end;
mod excluded;
mod logs;
mod marked;
mod only;
mod packets;
mod pair;
mod step_out;
