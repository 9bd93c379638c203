//! A receiver of mail as a service: SMTP (RFC 5321) over one connection, with the extensions PIPELINING, 8BITMIME and SIZE. It speaks first: its greeting is
//! there before the client's first byte. What it is not: it has no TLS and no AUTH, it accepts mail for one domain, whoever the recipient is, and it delivers
//! nothing. The accepted messages are in the server's log, and with a journal on the disk: `tools/mailbox.py` reads them out of it.
//!
//! A message is accepted exactly once within a connection, since the crash of a server is hidden from the client: the reply that accepts it is sent once the
//! read with its last byte is logged. A definition in `specs/` says what the service does, and `take` does exactly that.
#![tactic(auto)]

pub use command::Command;
pub use mail::Mail;
pub use phase::{Ending, Phase, Step, Text};
pub use reply::{Answer, Reply};

mod command;
mod excluded;
pub mod laws;
mod mail;
mod phase;
mod reply;
