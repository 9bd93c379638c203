//! The packets that a run has sent so far, in order: each as bytes, with its sender and its receiver. In contracts each is the model's wire. A packet is
//! written in its one spelling when it is sent; a packet without a spelling isn't written.
//!
//! A segment in the stream of its sender, and reassembly: where a segment begins and what it acknowledges, whether it is acceptable, which text counts, and the
//! effect of its text and FIN on a stream (RFC 9293, 3.4 and 3.10.7.4). Text after a gap is held place by place until the gap is filled. Each rule is one
//! function. For the plain world, which shares no code with the endpoints that it judges.
#![tactic(auto)]

pub use arrival::{
    accepts, is_acceptable, is_at, is_usable, number_of, offset_of, part, place_of, rest,
};
pub use coming::{Coming, Stream};
pub use held::Held;
pub use packets::PlainPackets;
pub use path::Path;
pub use segment::{ack, counted_text, counts_fin, first, has_ack, has_rst, has_syn, segment_len};
pub use wire::PlainWire;

mod arrival;
mod coming;
mod excluded;
mod held;
pub mod laws;
mod message;
mod number_ranges;
mod packets;
mod path;
mod places;
mod segment;
mod segment_bytes;
mod wire;
