//! A node while it serves: what a packet, a message or a tick does to the connections of its clients, with or without marks, and what is sent then.
//!
//! Contracts and `specs/` relate it to the model. A key's *slot* here is its *place* in the model's node. In names, *stands* means that a value of the
//! code corresponds to one of the model. *By the law* means as the model's lawful turn says, and *alone* means for one key, whatever happens to the others.
#![tactic(auto)]

pub use identity::Identity;
pub use live::start_live;
pub use marked_serving::{
    apart, serve_mark, serve_message_marked, serve_packet_marked, serve_tick_marked,
};
pub use marking::send_new;
pub use opening::STRIDE;
pub use out_packet::{OutPacket, To};
pub use outgoing::Outgoing;
pub use refusal::send_bare;
pub use sent::{ask_mark, fit, send_message};
pub use serving::{Serving, serve_bytes, serve_message, serve_tick};
pub use slot::{Opening, Slot, live_conn};
pub use slots::{add_slot, conn_at, forget_slot, nth_key};
pub use turn::Turn;

mod arrivals;
mod excluded;
mod identity;
mod live;
mod marked_serving;
mod marking;
mod opening;
mod out_packet;
mod outgoing;
mod refusal;
mod sent;
mod serving;
mod slot;
mod slots;
mod turn;
