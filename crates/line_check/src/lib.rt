//! The lines of a report: whether a line is that of a packet, of an event or of the header, in its one spelling.
#![tactic(auto)]

pub use event_line::read_event_line;
pub use header_line::{read_header_line, read_service_line};
pub use packet_line::{PACKET_LIMIT, is_packet_line};

mod columns;
mod direction;
mod event_line;
mod event_words;
mod excluded;
mod header_line;
mod message;
mod packet_line;
mod segment;
mod values;
mod words;
