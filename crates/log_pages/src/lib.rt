//! How a log stores what it keeps of a connection: the client's bytes in pages, and the lengths of the reads in runs of equal lengths.
#![tactic(auto)]

pub use lens::Lens;
pub use page::PAGE;
pub use pages::{PART, Pages};
pub use read_lengths::ReadLengths;

mod excluded;
mod lens;
mod page;
mod pages;
mod read_lengths;
mod runs;
