//! `node` is `ftnode` without the roles that `node_process` adds. By its arguments it is a server, a logger or a client of FT-TCP (INFOCOM 2001)
//! over a network of datagrams, or it starts a pair of servers with a logger and a client, each as a process.
//! `run_role` runs one of these roles, as a server with any service.
//!
//! *Words* are the arguments of the command line, without the program's name. Bytes are *handed to send* when they are passed to the link's `send`. If it
//! fails, they are lost. An *end* is how a process stops early.
#![tactic(auto)]

pub use link_parts::{
    ClientRole, Counts, DATAGRAM_ROOM, LoggerRole, Loggers, NodeEnd, NodeRole, OptionName,
    PairRole, Program, ServerRole, Status, addr_at, is_name, logger_role, read_options, read_role,
    receive, report_end, write_counts,
};
pub use server::{is_from_logger, send_all};
pub use top::{node, run_role};

mod excluded;
pub mod laws;
mod server;
mod top;
