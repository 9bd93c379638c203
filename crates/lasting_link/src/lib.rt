//! What `--forget` adds to a process: a server that lasts, over a network of datagrams. It keeps a connection that is done in quarantine, has its log recycle
//! the entry, and forgets it; with `--silence` it asks silent clients for a sign of life, and lets go of those that are gone. So it serves any number of
//! clients, one after another.
#![tactic(auto)]

pub use role::{LastingRole, read_lasting_server, read_own_lasting_server};
pub use server::run_lasting;

mod excluded;
mod role;
mod server;
