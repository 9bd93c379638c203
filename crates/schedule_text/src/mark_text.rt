//! The words of a message about marks: its name, its boot number, and then its fields by name, in the order of the message.

ghost use Rattle.std.specs.Prelude.{◌≡◌, ◌++◌, OnOk};
ghost use Rattle.ft_model.specs.Texts.{spaced};
ghost use Rattle.mark_laws.specs.MarkedReport.{fields_of_mark, mark_words, name_of_mark, words_of_mark};
ghost use Rattle.logger_wire.specs.MarkValue.{mark_said, body_of, message_of};

use crate::line_out::LineOut;
use crate::line_text::{put_field, put_hex, put_word};
use crate::message_text::put_key;
use ft_io::{Key, NoMemory};
use logger_wire::{Mark, MarkBody, MarkMsg};

/// Appends a message about marks: its name, its boot number, then the fields of its body.
#[tactic(auto, using(crate::proofs::LineLemmas::line_rules), unfolding(mark_laws::specs::MarkedReport::mark_words))]
pub(crate) fn put_mark_message(msg: &MarkMsg<'_>, line: &mut LineOut) -> Result<(), NoMemory>
    ensures ok { OnOk result (line.new.words ≡ line.old.words ++ spaced (mark_words (message_of msg.now))) }
    ensures before { line.new.before ≡ line.old.before }
{
    put_word(name(&msg.body), line)?;
    put_field(" boot ", msg.boot, line)?;
    put_fields(&msg.body, line)
}

/// Returns the name of a kind of message.
fn name(body: &MarkBody<'_>) -> &'static str
    ensures { result.now ≡ name_of_mark (body_of body.now) }
{
    match body {
        MarkBody::Mark { .. } => "Mark",
        MarkBody::Marked { .. } => "Marked",
        MarkBody::Ask { .. } => "Ask",
        MarkBody::Held { .. } => "Held",
    }
}

/// Appends the fields of a body.
#[tactic(auto, using(crate::proofs::LineLemmas::line_rules))]
fn put_fields(body: &MarkBody<'_>, line: &mut LineOut) -> Result<(), NoMemory>
    ensures ok { OnOk result (line.new.words ≡ line.old.words ++ spaced (fields_of_mark (body_of body.now))) }
    ensures before { line.new.before ≡ line.old.before }
{
    match *body {
        MarkBody::Mark { key, mark } | MarkBody::Held { key, mark } => put_mark(key, &mark, line),
        MarkBody::Marked { key, reads } => {
            put_key(key, line)?;
            put_field(" reads ", u64::from(reads), line)
        }
        MarkBody::Ask { key } => put_key(key, line),
    }
}

/// Appends a mark of a connection: its numbers, and the form of its state.
#[tactic(auto, using(crate::proofs::LineLemmas::line_rules))]
pub(crate) fn put_mark(key: Key, mark: &Mark<'_>, line: &mut LineOut) -> Result<(), NoMemory>
    ensures ok { OnOk result (line.new.words ≡ line.old.words ++ spaced (words_of_mark key (mark_said mark.now))) }
    ensures before { line.new.before ≡ line.old.before }
{
    put_key(key, line)?;
    put_field(" reads ", u64::from(mark.reads), line)?;
    put_field(" length ", u64::from(mark.length), line)?;
    put_field(" made ", u64::from(mark.made), line)?;
    line.append_text(" state")?;
    put_hex(mark.state, line)
}
