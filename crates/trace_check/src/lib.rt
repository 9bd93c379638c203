//! The checker of reports: it follows the laws of `report_laws` from a report's first line to its end, and plays the report's events in the plain world.
#![tactic(auto)]

pub use check::{Yes, check_trace};
pub use end::CheckEnd;

mod check;
mod closing;
mod end;
mod excluded;
mod header;
mod lines;
mod next;
mod sent;
mod turn;
mod walk;
