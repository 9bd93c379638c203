//! A live connection as plain values: its point, and what its service has made of its reads. A turn notes the news, reads on, settles what is sent and the
//! timer, and sends segments to the client and messages to the logger, each by its law. It shares no code with the server that it judges.
#![tactic(auto)]

pub use connection::PlainConnection;
pub use made_output::{End, Made, ends_are_the_references};
pub use news::News;

mod before;
mod connection;
mod excluded;
pub mod laws;
mod logging;
mod made_output;
mod news;
mod opening;
mod reading;
mod segments;
mod turn;
