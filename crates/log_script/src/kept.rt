//! A log that is kept in a journal's file, in memory, and the lines of a script on both.

pub(crate) use bench::Bench;

mod bench;
mod datagrams;
mod text;
