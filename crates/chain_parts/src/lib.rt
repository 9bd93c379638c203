//! The processes of two loggers that act as one, a head and a tail (chain replication): one of the two, and `alone`, which informs one of them that the other
//! has stopped. Each has its words, its turns and its ends. Nothing here needs the server, or a journal.
#![tactic(auto)]

pub use notifier::run_notifier;
pub use pair_role::{AloneRole, PartRole, TwinRole, read_twin_role};
pub use part::run_part;

mod excluded;
mod notifier;
mod pair_role;
mod part;
mod sending;
