//! A logger that keeps its log in a file, so that the log survives the death of its process: its words, its turns and its ends. Nothing here needs the server.
#![tactic(auto)]

pub use keeper::run_keeper;
pub use role::{FileName, JournalRole, read_journal_role};
pub use status::{Lack, ProcessEnd, report_end};

mod answers;
mod excluded;
mod keeper;
mod role;
mod rounds;
mod status;
