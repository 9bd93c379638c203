//! A message between a server and its log, of either kind.

use logger_wire::{MarkMsg, Msg};

/// A message to the logger or from it: one about marks, or any other.
#[derive(Clone, Copy)]
pub enum AnyMsg<'a> {
    /// Any other message.
    Log(Msg<'a>),
    /// A message about marks.
    Mark(MarkMsg<'a>),
}
