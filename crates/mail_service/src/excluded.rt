//! Wrong results that the contracts of this crate exclude. Each function calls another one of the crate, and promises of its result what a wrong body would
//! make false. It is proved from the other's contract alone, so it is no longer proved once that contract lets the wrong body pass.

ghost use Rattle.std.specs.Prelude.{◌≡◌, Some};
ghost use Rattle.mail_service.specs.declared.phase.Ending.TheVariants.{Inside, LineStart};
ghost use Rattle.mail_service.specs.declared.phase.Phase.TheVariants.{Silent};
ghost use Rattle.mail_service.specs.declared.reply.Answer.TheVariants.{WrongPhase, TooMany};

use crate::command::Command;
use crate::phase::{Ending, Phase, Step, Text};

/// A LF that no CR precedes is text, so LF . LF doesn't end a message: the contract of `Text::after`.
fn ended_by_line_feeds(size: u32) -> Option<Ending>
    ensures { result ≡ Some Inside }
{
    let text = Text {
        ending: Ending::Inside,
        size,
    };
    match text.after(b'\n') {
        Some(more) => Some(more.ending),
        None => None,
    }
}

/// The dot that a client has put before a line isn't counted: the contract of `Text::after`.
fn counts_the_clients_dot() -> Option<u32>
    ensures { result ≡ Some 7 }
{
    let text = Text {
        ending: Ending::LineStart,
        size: 7,
    };
    match text.after(b'.') {
        Some(more) => Some(more.size),
        None => None,
    }
}

/// There is no message without a recipient: the contract of `Phase::step`.
#[tactic(auto, unfolding(crate::specs::Phase::step))]
fn message_to_nobody() -> Step
    ensures { result.reply ≡ WrongPhase }
{
    Phase::Sender.step(Command::Data)
}

/// A message has 100 recipients at most: the contract of `Phase::step`.
#[tactic(auto, unfolding(crate::specs::Phase::step))]
fn one_recipient_more() -> Step
    ensures { result.reply ≡ TooMany }
{
    Phase::Recipients(100).step(Command::Rcpt)
}

/// RSET doesn't stand for HELO: the contract of `Phase::step`.
#[tactic(auto, unfolding(crate::specs::Phase::step))]
fn greeted_by_a_reset() -> Step
    ensures { result.next ≡ Silent }
{
    Phase::Silent.step(Command::Rset)
}
