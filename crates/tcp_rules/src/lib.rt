//! The rules of TCP that a profile chooses, and those of what arrives, over offsets: the tests on a segment (RFC 9293, 3.10.7.4), what it adds to the stream
//! and what is held after a gap, congestion control (RFC 5681 and 6582), and the measured timeout (RFC 6298).
#![tactic(auto)]

pub use arrival::is_acceptable_or_at_edge;
pub use profile::Profile;
pub use text::{below, text_between};
pub use timestamping::Timestamping;

mod arrival;
mod excluded;
pub mod laws;
mod profile;
mod text;
mod timestamping;
