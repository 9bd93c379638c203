//! Reading and writing the messages by which a server has the log recycle the entry of a connection that is done. The grammar in `long_laws` defines what a
//! string of bytes says, or with which error it is refused. Nothing here allocates.
#![tactic(auto)]

pub use message::{ForgetBody, ForgetMsg, Named};
pub use reading::read_forget;
pub use seq_arith::BadMsg;
pub use writing::write_forget;

mod excluded;
mod message;
mod reading;
mod writing;

/// The length of a header, in bytes.
const HEADER: usize = 16;

/// The length of what follows the header: a key and two numbers.
const NAMED: usize = 14;

/// The length of every message about forgetting.
pub const LENGTH: usize = HEADER + NAMED;

/// The first two bytes of every message about forgetting: "FW". The version follows.
const MAGIC: u16 = 0x4657;

const VERSION: u8 = 1;
