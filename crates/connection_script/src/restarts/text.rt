//! The lines that are printed.

use logger_wire::{Body, MarkBody, MarkMsg};
use reincarnate::AnyMsg;
use test_data::Said;

/// Says the line of a question of either kind.
pub(crate) fn write_question(question: &AnyMsg<'_>, said: &mut Said) {
    match question {
        AnyMsg::Log(question) => match question.body {
            Body::List { index } => write!(said, "list {index}\n"),
            Body::Bytes { offset, .. } => write!(said, "bytes {offset}\n"),
            Body::Cuts { first, .. } => write!(said, "cuts {first}\n"),
            _ => said.line("another"),
        },
        AnyMsg::Mark(
            MarkMsg {
                body: MarkBody::Ask { .. },
                ..
            },
        ) => said.line("ask"),
        AnyMsg::Mark(_) => said.line("another"),
    }
}
