//! The point of a live connection as plain values: everything that one incarnation of the server knows about it (RFC 9293, 3.3.1). The laws of a turn that
//! don't concern the service are methods here. It shares no code with the server that it judges.
#![tactic(auto)]

pub use congestion::Window;
pub use copying::Data;
pub use ending::Timer;
pub use point::PlainPoint;
pub use sending::Sending;
pub use timing::Timing;

mod arriving;
mod congestion;
mod copying;
mod ending;
mod excluded;
mod fields;
mod point;
mod reading;
mod reporting;
mod resumed;
mod segments;
mod sending;
mod settings;
mod timing;
