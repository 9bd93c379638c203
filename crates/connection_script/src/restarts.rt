//! Restarts of connections from a log in memory, by messages as bytes: what is asked, how many bytes are fetched and not yet replayed after each answer,
//! and where each connection continues.

pub(crate) use cases::play_all;

mod cases;
mod hostile;
mod letters;
mod logged;
mod marked;
mod play;
mod text;
