//! The log with marks as a store. A mark keeps a service's state in place of the reads that led to it, as a checkpoint. No answer reports what is below a mark,
//! which is these reads and the bytes that they took. So the store discards their lengths and the complete pages of the bytes.
#![tactic(auto)]

pub use store::MarkStore;

mod excluded;
mod kept_mark;
mod reporting;
mod store;
