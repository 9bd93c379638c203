//! The commands, as lines spell them (RFC 5321, section 4.1). A line is cut at its first space. Letters may be in either case.

ghost use Rattle.std.specs.Prelude.{◌≡◌, ℕ, ◌<◌, ◌≤◌, ◌==◌, List, length, drop};
ghost use Rattle.std.specs.List.{list_any};
ghost use Rattle.mail_service.specs.Command.{begins, has_bracket, parameter_of, size_of, is_kind, any_word, mail_by, mail_with, mail_of};
ghost use Rattle.mail_service.specs.Command.{recipient_with, recipient_of, with_argument, alone, command_by, other_command, command_of};

use crate::reply::Answer;
use memchr::memchr;
use web_service::text::{is_number, number, same_word, split_at_byte};

/// The most bytes that the text of a message may have.
pub(crate) const SIZE_LIMIT: u32 = 8_000_000;

/// A command.
#[derive(Clone, Copy, PartialEq, Eq)]
pub enum Command {
    Helo,
    Ehlo,
    Mail,
    Rcpt,
    Data,
    Rset,
    Noop,
    Vrfy,
    Quit,
    /// A line that gets this reply in each phase.
    Wrong(Answer),
}

/// What a parameter of MAIL says.
#[derive(Clone, Copy, PartialEq, Eq)]
pub enum Parameter {
    /// Nothing that matters.
    Fine,
    /// The message will be too large.
    Large,
    /// The parameter isn't known.
    Unknown,
}

// Whether these bytes begin with a word.
fn begins(word: &[u8], bytes: &[u8]) -> bool
    ensures { result ≡ begins word.now bytes.now }
{
    word.len() <= bytes.len() && same_word(&bytes[..word.len()], word)
}

// Whether there is a closing bracket.
fn has_bracket(bytes: &[u8]) -> bool
    ensures { result ≡ has_bracket bytes.now }
{
    bytes.contains(&b'>')
}

// What a parameter says. An empty word is white space at the end of the line.
#[tactic(auto, unfolding(crate::specs::Command::parameter_of))]
fn parameter_of(word: &[u8]) -> Parameter
    ensures { result ≡ parameter_of word.now }
{
    if word.is_empty() || same_word(word, b"BODY=7BIT") || same_word(word, b"BODY=8BITMIME") {
        return Parameter::Fine;
    }
    if !begins(b"SIZE=", word) {
        return Parameter::Unknown;
    }
    size_of(&word[5..])
}

// What the number of a SIZE says.
fn size_of(digits: &[u8]) -> Parameter
    ensures { result ≡ size_of digits.now }
{
    if !is_number(digits) {
        return Parameter::Unknown;
    }
    if number(digits) <= u64::from(SIZE_LIMIT) {
        Parameter::Fine
    } else {
        Parameter::Large
    }
}

// Whether two parameters say the same.
fn is_kind(kind: Parameter, other: Parameter) -> bool
    ensures { result ≡ is_kind kind other }
{
    match (kind, other) {
        (Parameter::Fine, Parameter::Fine) => true,
        (Parameter::Large, Parameter::Large) => true,
        (Parameter::Unknown, Parameter::Unknown) => true,
        _ => false,
    }
}

// Whether one of the words is a parameter that says this.
#[tactic(auto, using(crate::proofs::Words::word_last))]
fn any_word(kind: Parameter, words: &[u8]) -> bool
    ensures { result ≡ any_word kind words.now }
{
    let mut rest = words;
    while let Some(at) = memchr(b' ', rest) {
        if is_kind(kind, parameter_of(&rest[..at])) {
            return true;
        }
        rest = &rest[at + 1..];
    }
    is_kind(kind, parameter_of(rest))
}

// MAIL with these parameters.
fn mail_by(words: &[u8]) -> Command
    ensures { result ≡ mail_by words.now }
{
    if any_word(Parameter::Unknown, words) {
        return Command::Wrong(Answer::BadParameter);
    }
    if any_word(Parameter::Large, words) {
        return Command::Wrong(Answer::TooLarge);
    }
    Command::Mail
}

// MAIL with what follows its path.
fn mail_with(rest: &[u8]) -> Command
    ensures { result ≡ mail_with rest.now }
{
    match rest.split_first() {
        None => Command::Mail,
        Some((byte, words)) => {
            if *byte == b' ' {
                mail_by(words)
            } else {
                Command::Wrong(Answer::BadParameter)
            }
        }
    }
}

// MAIL with this argument.
#[tactic(auto, unfolding(crate::specs::Command::mail_of))]
fn mail_of(argument: &[u8]) -> Command
    ensures { result ≡ mail_of argument.now }
{
    if begins(b"FROM:<", argument) && has_bracket(argument) {
        let (_, rest) = split_at_byte(b'>', argument);
        mail_with(rest)
    } else {
        Command::Wrong(Answer::BadArgument)
    }
}

// RCPT with what follows its path.
fn recipient_with(argument: &[u8]) -> Command
    ensures { result ≡ recipient_with argument.now }
{
    let (_, rest) = split_at_byte(b'>', argument);
    if rest.is_empty() {
        Command::Rcpt
    } else {
        Command::Wrong(Answer::BadParameter)
    }
}

// RCPT with this argument. Its path isn't empty.
#[tactic(auto, unfolding(crate::specs::Command::recipient_of))]
fn recipient_of(argument: &[u8]) -> Command
    ensures { result ≡ recipient_of argument.now }
{
    if begins(b"TO:<", argument) && has_bracket(argument) && !begins(b"TO:<>", argument) {
        recipient_with(argument)
    } else {
        Command::Wrong(Answer::BadArgument)
    }
}

// A command that needs an argument.
fn with_argument(command: Command, argument: &[u8]) -> Command
    ensures { result ≡ with_argument command argument.now }
{
    if argument.is_empty() {
        Command::Wrong(Answer::BadArgument)
    } else {
        command
    }
}

// A command that has none.
fn alone(command: Command, argument: &[u8]) -> Command
    ensures { result ≡ alone command argument.now }
{
    if argument.is_empty() {
        command
    } else {
        Command::Wrong(Answer::BadArgument)
    }
}

// The command of this name.
#[tactic(auto, unfolding(crate::specs::Command::command_by))]
fn command_by(name: &[u8], argument: &[u8]) -> Command
    ensures { result ≡ command_by name.now argument.now }
{
    if same_word(name, b"HELO") {
        with_argument(Command::Helo, argument)
    } else if same_word(name, b"EHLO") {
        with_argument(Command::Ehlo, argument)
    } else if same_word(name, b"MAIL") {
        mail_of(argument)
    } else if same_word(name, b"RCPT") {
        recipient_of(argument)
    } else if same_word(name, b"DATA") {
        alone(Command::Data, argument)
    } else if same_word(name, b"RSET") {
        alone(Command::Rset, argument)
    } else {
        other_command(name, argument)
    }
}

// A command that changes no transaction.
#[tactic(auto, unfolding(crate::specs::Command::other_command))]
fn other_command(name: &[u8], argument: &[u8]) -> Command
    ensures { result ≡ other_command name.now argument.now }
{
    if same_word(name, b"NOOP") {
        Command::Noop
    } else if same_word(name, b"VRFY") {
        with_argument(Command::Vrfy, argument)
    } else if same_word(name, b"QUIT") {
        alone(Command::Quit, argument)
    } else if same_word(name, b"EXPN") || same_word(name, b"HELP") {
        Command::Wrong(Answer::NotImplemented)
    } else {
        Command::Wrong(Answer::Unknown)
    }
}

/// The command that a line spells.
#[tactic(auto, unfolding(crate::specs::Command::command_of))]
pub(crate) fn command_of(line: &[u8]) -> Command
    ensures { result ≡ command_of line.now }
{
    let (name, argument) = split_at_byte(b' ', line);
    command_by(name, argument)
}
