//! A process of FT-TCP: `run` takes the words and what a process is given (`Process`), chooses the role, and returns the exit status. A role is one of `node`
//! (server, logger, client or pair), a server that lasts, a logger that keeps its log in a journal, one of two loggers that act as one, or `alone`, which
//! informs one of them that the other has stopped. The service is any. `run_program` gives a role what the system has, and `run_ftnode` is the program
//! `ftnode`.
#![tactic(auto)]

pub use chain_parts::{AloneRole, PartRole, TwinRole};
pub use journal_parts::{FileName, JournalRole, ProcessEnd};
pub use lasting_link::LastingRole;
pub use process::Process;
pub use program::{run_ftnode, run_program};
pub use role::{Role, Services, read_role};
pub use top::run;

mod excluded;
mod process;
mod program;
mod role;
mod top;
