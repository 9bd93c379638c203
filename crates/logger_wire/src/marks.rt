//! Marks (checkpoints): the state of a service at a point of a connection, logged in place of the input that led to it. The messages about marks are read and
//! written here. Their grammar in `seq_arith` defines what a string of bytes says, or with which error it is refused. Nothing here allocates.

pub use mark_msg::{Mark, MarkBody, MarkMsg};
pub use reading::read_mark;
pub use writing::write_mark;

mod mark_msg;
mod reading;
mod writing;

/// The length of a header, in bytes.
const HEADER: usize = 16;

/// The first two bytes of every message about marks: "FV". The version follows.
const MAGIC: u16 = 0x4656;

const VERSION: u8 = 1;
