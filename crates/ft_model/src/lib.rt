//! The model of FT-TCP: what a schedule asks for, what clients, log, server and network may do, and what a report says of it. The definitions are in
//! `specs/`. This crate has the plain types that they share with the programs, and laws about the definitions.
#![tactic(auto)]

pub use event::{Event, EventWhy};
pub use line::{Draft, Keyword, Line, Verb};
pub use phase::Phase;
pub use report::{
    legal_turns_are_readable, packets_of_lines, reports_determine_their_traces, turns_of_reports,
    values_of_spellings, words_of_a_line, worked_lines,
};
pub use schedule::{
    ClientLine, ClientLines, Events, Lasting, Limit, LineWhy, Schedule, Script, ServiceKind,
};
pub use way::Way;

pub mod clients;
mod event;
mod excluded;
pub mod grammar;
pub mod headline;
pub mod laws;
mod line;
mod phase;
mod report;
mod schedule;
mod way;
pub mod weakened;
pub mod wire;
pub mod worked_runs;
