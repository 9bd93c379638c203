//! The restart of a server, in steps that are types: it asks the logger what is logged, replays each connection's reads through a fresh service, and brings a
//! fresh TCP to where the log ends. Where an entry has a mark, the restart begins there and fetches nothing below it. Each step consumes the one before it, so
//! none can be skipped. Of a connection's input no more is stored than is still needed. *Held* bytes are here those that are fetched and not replayed.
#![tactic(auto)]

pub use any_msg::AnyMsg;
pub use asked::Asked;
pub use entries::{Entries, Restored};
pub use fetching::Fetching;
pub use lost::{LostIn, Stage};
pub use replayed::Replayed;
pub use spliced::Spliced;

mod any_msg;
mod asked;
mod entries;
mod excluded;
mod fetched_entry;
mod fetching;
mod lack;
mod logged_mark;
mod lost;
mod marks;
mod ranges;
mod replayed;
mod spliced;
