//! The world of a schedule as plain values: its clients, the log, the server, and each packet that was sent. An event changes it as the definitions allow,
//! and in no other way. A client makes the moves that its script and its state allow. The server of one incarnation asks the logger for its log, restarts each
//! connection that isn't done, and serves; each turn is the one that the law allows. All this shares no code with the programs that it judges.
#![tactic(auto)]

pub use client::PlainClient;
pub use world::PlainWorld;

mod actors;
mod arrivals;
mod asking;
mod client;
mod clients;
mod excluded;
mod fetching;
mod incarnation;
mod input;
mod log;
mod moves;
mod node;
mod opening;
mod place;
mod receiving;
mod refusal;
mod restoring;
mod server;
mod serving;
mod stage;
mod turns;
mod world;
