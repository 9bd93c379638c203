//! How a command of `ftreplay` ends: its exit status, and the line that it writes to the error sink. And the `check` command, which reads a report and checks
//! whether it is that of a legal trace.
#![tactic(auto)]

pub use reporting::report_end;
pub use reports::check_report;
pub use safe::joint_traces_are_safe;
pub use status::{RunEnd, Status, TooMuch, end_of_step};

mod check;
mod excluded;
mod reporting;
mod reports;
mod safe;
mod status;
