//! One wrapped connection: an unchanged TCP between the two wrappers (FT-TCP, INFOCOM 2001). Segments of the client reach it through the south wrapper, and its
//! user is the north wrapper. The connection also sends segments of its own, for what TCP doesn't know, and the messages to the logger.
#![tactic(auto)]

pub use conn::{Conn, Opened};
pub use inside::Inside;
pub use quiet::Quiet;
pub use stage::ConnStage;
pub use turn_out::TurnOut;

mod conn;
mod copying;
mod excluded;
mod inside;
pub mod laws;
mod leaving;
mod numbers;
mod quiet;
mod reporting;
mod stage;
mod turn;
mod turn_out;
