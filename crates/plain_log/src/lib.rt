//! The log as plain values: an entry for each connection, in order, with its bytes and the lengths of its reads in two lists. It answers the same questions
//! as the logger and shares no code with it, so that it can judge the logger's answers. What a booting
//! server fetches from the log is here too: what it requests next, and which answers fit.
#![tactic(auto)]

ghost use Rattle.std.specs.Prelude.{◌≡◌};
ghost use Rattle.seq_arith.specs.Message.{Message};
ghost use Rattle.ft_model.specs.Log.{Log, log_after, answer_to};
ghost use Rattle.plain_log.specs.Reply.{reply};

pub use entry::PlainEntry;
pub use fetched::{EntryParts, PlainFetched};
pub use fetching::PlainFetching;
pub use log::PlainLog;
pub use wanted::{Wanted, question};

mod ending;
mod entry;
mod excluded;
mod fetched;
mod fetching;
mod lengths;
mod log;
mod wanted;

/// The answer to a message is determined by the log after it.
#[tactic(auto, using(crate::proofs::Replies::reply_is_the_answer))]
pub fn the_log_after_determines_the_answer()
    ensures { (log : Log) (message : Message) → answer_to log message ≡ reply (log_after log message) message }
{}
