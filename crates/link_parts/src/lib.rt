//! What `ftnode` has beside its server: the words of each role; a client and a logger of FT-TCP (INFOCOM 2001) over a network of datagrams; a pair of servers
//! with a logger and a client, each a process; the counts of the calls on a link; and how a process ends. Nothing here needs the server.
//!
//! *Words* are the arguments of the command line, without the program's name. Bytes are *handed to send* when they are passed to the link's `send`. If it
//! fails, they are lost. An *end* is how a process stops early.
#![tactic(auto)]

pub use client::run_client;
pub use counts::{Counts, write_counts};
pub use logger::run_logger;
pub use options::{OptionName, read_options};
pub use pair::run_pair;
pub use program::{Program, is_name};
pub use receiving::{DATAGRAM_ROOM, receive};
pub use reporting::report_end;
pub use role::{
    ClientRole, LoggerRole, Loggers, NodeRole, PairRole, ServerRole, addr_at, logger_role,
    number_at, number_or, own_server_role, read_lasting_role, read_own_role, read_role,
    server_role, yes_at,
};
pub use status::{NodeEnd, Status};

mod client;
mod counts;
mod excluded;
mod logger;
mod options;
mod pair;
mod program;
mod receiving;
mod reporting;
mod role;
mod status;
