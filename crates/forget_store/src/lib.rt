//! A log whose entries may be recycled. A server whose connection is done has been waiting until nothing of it is under way any more. Then it sends Forget,
//! and the log drops the entry of this connection, so that it has room for another one. Nothing is allocated for that.
#![tactic(auto)]

pub use forgetting::take_forget;
pub use heeding::{AnyMsg, Heeded, is_changed, read_heeded, take_any};
pub use reply::Reply;
pub use store::{AnswerOut, answer};

mod excluded;
mod forgetting;
mod heeding;
mod reply;
mod store;
