//! The phases of a session, and what a command and a byte of a message do in each (RFC 5321, sections 4.1.4 and 4.5.2).

ghost use Rattle.std.specs.Prelude.{◌≡◌, ℕ, ◌+◌, ◌^◌, min, ◌≤◌, Some, None};
ghost use Rattle.mail_service.specs.Phase.{at_first, larger, in_line, after_return, after_start, after_dot, after_dot_return, text_after};
ghost use Rattle.mail_service.specs.Phase.{one_more, mail_step, recipient_step, data_step, after_reset, step, stays};

use crate::command::{Command, SIZE_LIMIT};
use crate::reply::Answer;

/// The most recipients of a message.
const RECIPIENTS: u8 = 100;

/// What has been received of the sequence that ends a message: CR LF . CR LF.
#[derive(Clone, Copy, PartialEq, Eq)]
pub enum Ending {
    /// Nothing.
    Inside,
    /// CR.
    Return,
    /// CR LF: a line begins.
    LineStart,
    /// CR LF and a dot.
    Dot,
    /// CR LF, a dot and CR.
    DotReturn,
}

/// A message that is being received.
#[derive(Clone, Copy, PartialEq, Eq)]
pub struct Text {
    /// What has been received of the sequence that ends it.
    pub ending: Ending,
    /// How many bytes its text has so far, without the dots that the client put in. It stays at one more than a message may have.
    pub size: u32,
}

/// The phase of a session.
#[derive(Clone, Copy, PartialEq, Eq)]
pub enum Phase {
    /// The client hasn't said HELO or EHLO.
    Silent,
    /// No transaction is under way.
    Ready,
    /// There is a sender and no recipient.
    Sender,
    /// There are so many recipients.
    Recipients(u8),
    /// A message is being received.
    Message(Text),
}

/// What a command does.
#[derive(Clone, Copy, PartialEq, Eq)]
pub struct Step {
    /// The phase after it.
    pub next: Phase,
    /// The reply to it.
    pub reply: Answer,
}

impl Text {
    /// A message of which nothing has been received: a line begins.
    fn new() -> Text
        ensures { result ≡ at_first }
    {
        Text {
            ending: Ending::LineStart,
            size: 0,
        }
    }

    /// The message with one more byte, or `None` where this byte ends it.
    pub(crate) fn after(self, byte: u8) -> Option<Text>
        ensures { result ≡ text_after self.ending self.size byte }
    {
        match self.ending {
            Ending::Inside => Some(self.lengthened(in_line(byte), 1)),
            Ending::Return => Some(self.lengthened(after_return(byte), 1)),
            Ending::LineStart => Some(self.after_start(byte)),
            Ending::Dot => Some(self.after_dot(byte)),
            Ending::DotReturn => self.after_dot_return(byte),
        }
    }

    // So many more bytes of text.
    fn lengthened(self, ending: Ending, more: u32) -> Text
        requires { more ≤ 2 }
        ensures { result ≡ record { ending = ending; size = larger self.size more } }
    {
        Text {
            ending,
            size: self.size.saturating_add(more).min(SIZE_LIMIT + 1),
        }
    }

    // A byte at the start of a line. A dot there is the client's, or begins the end.
    fn after_start(self, byte: u8) -> Text
        ensures { result ≡ after_start self.size byte }
    {
        if byte == b'.' {
            Text {
                ending: Ending::Dot,
                size: self.size,
            }
        } else {
            self.lengthened(in_line(byte), 1)
        }
    }

    // A byte after a dot at the start of a line.
    fn after_dot(self, byte: u8) -> Text
        ensures { result ≡ after_dot self.size byte }
    {
        if byte == b'\r' {
            Text {
                ending: Ending::DotReturn,
                size: self.size,
            }
        } else {
            self.lengthened(in_line(byte), 1)
        }
    }

    // A byte after a dot at the start of a line and CR. Where it isn't LF, the CR was text.
    fn after_dot_return(self, byte: u8) -> Option<Text>
        ensures { result ≡ after_dot_return self.size byte }
    {
        if byte == b'\n' {
            None
        } else {
            Some(self.lengthened(in_line(byte), 2))
        }
    }
}

// A byte within a line.
fn in_line(byte: u8) -> Ending
    ensures { result ≡ in_line byte }
{
    if byte == b'\r' {
        Ending::Return
    } else {
        Ending::Inside
    }
}

// A byte after CR.
fn after_return(byte: u8) -> Ending
    ensures { result ≡ after_return byte }
{
    if byte == b'\n' {
        Ending::LineStart
    } else {
        in_line(byte)
    }
}

impl Phase {
    /// What a command does in this phase.
    #[tactic(auto, unfolding(crate::specs::Phase::step))]
    pub(crate) fn step(self, command: Command) -> Step
        ensures { result ≡ step self command }
    {
        match command {
            Command::Helo => Step {
                next: Phase::Ready,
                reply: Answer::Hello,
            },
            Command::Ehlo => Step {
                next: Phase::Ready,
                reply: Answer::Extended,
            },
            Command::Mail => self.after_mail(),
            Command::Rcpt => self.after_recipient(),
            Command::Data => self.after_data(),
            Command::Rset => Step {
                next: self.after_reset(),
                reply: Answer::Done,
            },
            Command::Noop => self.stays(Answer::Done),
            Command::Vrfy => self.stays(Answer::Unverified),
            Command::Quit => self.stays(Answer::Bye),
            Command::Wrong(reply) => self.stays(reply),
        }
    }

    // A reply that changes nothing.
    fn stays(self, reply: Answer) -> Step
        ensures { result ≡ stays self reply }
    {
        Step { next: self, reply }
    }

    fn after_mail(self) -> Step
        ensures { result ≡ mail_step self }
    {
        match self {
            Phase::Ready => Step {
                next: Phase::Sender,
                reply: Answer::Done,
            },
            _ => self.stays(Answer::WrongPhase),
        }
    }

    fn after_recipient(self) -> Step
        ensures { result ≡ recipient_step self }
    {
        match self {
            Phase::Sender => Step {
                next: Phase::Recipients(1),
                reply: Answer::Done,
            },
            Phase::Recipients(count) => one_more(count),
            _ => self.stays(Answer::WrongPhase),
        }
    }

    fn after_data(self) -> Step
        ensures { result ≡ data_step self }
    {
        match self {
            Phase::Recipients(_) => Step {
                next: Phase::Message(Text::new()),
                reply: Answer::Send,
            },
            _ => self.stays(Answer::WrongPhase),
        }
    }

    fn after_reset(self) -> Phase
        ensures { result ≡ after_reset self }
    {
        match self {
            Phase::Silent => Phase::Silent,
            _ => Phase::Ready,
        }
    }
}

// One more recipient, if there may be one.
fn one_more(count: u8) -> Step
    ensures { result ≡ one_more count }
{
    if count < RECIPIENTS {
        Step {
            next: Phase::Recipients(count + 1),
            reply: Answer::Done,
        }
    } else {
        Step {
            next: Phase::Recipients(count),
            reply: Answer::TooMany,
        }
    }
}
