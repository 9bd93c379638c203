//! The marks of one connection: when its service's state is saved as a mark, and how long the mark is sent again.
#![tactic(auto)]

pub use marking::Marking;
pub use marks::Marks;

mod excluded;
pub mod laws;
mod marking;
mod marks;
