//! The datagrams between two loggers as bytes: reading and writing. What a string of bytes says, and which refusal it gets, is defined by their grammar in
//! `seq_arith`. Nothing here allocates.

pub use reading::{read_twin, read_twin_by};
pub use twin_msg::TwinMsg;
pub use writing::write_twin;

mod reading;
pub(crate) mod table;
mod twin_msg;
mod writing;
