//! The log of FT-TCP (INFOCOM 2001: the logger) as a store. It has an entry for each of up to 64 connections, with the client's bytes in pages and the
//! lengths of the reads in runs, and answers a message with at most one message, as bytes. A call that returns `NoMemory` leaves the log unchanged.
#![tactic(auto)]

pub use msg_out::MsgOut;
pub use store::LogStore;
pub use stored_entry::StoredEntry;
pub use trimming::{Trim, TrimStore};

mod excluded;
pub mod laws;
mod msg_out;
mod reporting;
mod store;
mod stored_entry;
mod trimming;
