//! The options of a role. `clap` reads them from the words. A definition of this crate says which words are allowed, and `clap` is proved to
//! accept exactly these.

ghost use Rattle.std.specs.Prelude.{◌≡◌, Some, None, false, string_bytes, map, IfOk};
ghost use Rattle.std.specs.List.{list_any};
ghost use Rattle.clap.specs.Simple.{app_of};
ghost use Rattle.clap.specs.Walk.{rule_of};
ghost use Rattle.clap.specs.Matches.{found_of, first_value};
ghost use Rattle.link_parts.specs.Options.{Text, name_of, is_required as is_required_lem, is_stray as is_stray_lem, allowed_uses, value_of, Gives};
ghost use Rattle.link_parts.specs.Commands.{option_rule, options_app};

use clap::error::ErrorKind;
use clap::{Arg, ArgAction, ArgMatches, Command};
use ft_io::NoMemory;
use std::alloc::{AllocError, Global};

/// An option of a role.
#[derive(Clone, Copy, PartialEq, Eq)]
pub enum OptionName {
    Local,
    Logger,
    /// The second of two loggers that act as one. It is spelled `--second`, as `Second` is.
    SecondLogger,
    Server,
    Service,
    Boot,
    Isn,
    Turns,
    /// How many times a server or a logger takes its turns. No role of `node` has this option.
    Times,
    Script,
    Program,
    Base,
    First,
    /// The turns of a pair's second server.
    Second,
    /// The file in which a logger keeps its log. No role of `node` has this option.
    Journal,
    /// Whether a logger makes the file in which it keeps its log. No role of `node` has this option.
    Begin,
    /// The longest file of a logger that isn't replaced by a shorter one, in bytes. No role of `node` has this option.
    Compact,
    /// Which of the two loggers this one is. No role of `node` has this option.
    Part,
    /// The other logger. No role of `node` has this option.
    Other,
    /// The logger that serves alone from now on. No role of `node` has this option.
    To,
    /// What suits the path to a server's clients. Its logger and its clients have the same. No role of `node` has this option.
    Profile,
    /// How long a server keeps a connection that is done; and whether a logger forgets. No role of `node` has this option.
    Forget,
    /// After how long a silence a server asks a client for a sign of life. No role of `node` has this option.
    Silence,
}

impl OptionName {
    /// Returns the option's name, without the hyphens.
    pub fn word<'a>(self) -> &'a str
        ensures { result.now ≡ name_of self }
    {
        match self {
            OptionName::Local => "local",
            OptionName::Logger => "logger",
            OptionName::SecondLogger => "second",
            OptionName::Server => "server",
            OptionName::Service => "service",
            OptionName::Boot => "boot",
            OptionName::Isn => "isn",
            OptionName::Turns => "turns",
            OptionName::Times => "times",
            OptionName::Script => "script",
            OptionName::Program => "program",
            OptionName::Base => "base",
            OptionName::First => "first",
            OptionName::Second => "second",
            OptionName::Journal => "journal",
            OptionName::Begin => "begin",
            OptionName::Compact => "compact",
            OptionName::Part => "part",
            OptionName::Other => "other",
            OptionName::To => "to",
            OptionName::Profile => "profile",
            OptionName::Forget => "forget",
            OptionName::Silence => "silence",
        }
    }

    /// Whether its role requires it.
    fn is_required(self) -> bool
        ensures { result ≡ is_required_lem self }
    {
        !matches!(
            self,
            OptionName::Script
                | OptionName::SecondLogger
                | OptionName::Times
                | OptionName::Begin
                | OptionName::Compact
                | OptionName::Profile
                | OptionName::Forget
                | OptionName::Silence
        )
    }

    fn arg<'a>(self, alloc: Global) -> Arg<'a>
        ensures rule { rule_of result ≡ option_rule self }
        ensures local { result.global ≡ false }
    {
        let word = self.word();
        Arg::new(alloc, word)
            .long(word)
            .required(self.is_required())
            .action(ArgAction::Set)
    }
}

/// Returns a `clap` command with these options.
fn command<'a>(alloc: Global, options: &[OptionName]) -> Result<Command<'a>, AllocError>
    ensures { IfOk result (λ c. app_of c ≡ options_app options.now) }
{
    let mut command = Command::new(alloc, "ftnode")
        .no_binary_name(true)
        .disable_help_flag(true)
        .disable_version_flag(true);
    for option in options {
        command = command.arg(option.arg(alloc))?;
    }
    Ok(command)
}

/// Whether `clap` might read a word as something other than an option or a value: `--`, or a bundle of short flags.
fn is_stray(word: &[u8]) -> bool
    ensures { result ≡ is_stray_lem word.now }
{
    match word {
        [b'-', b'-'] => true,
        [b'-', second, ..] => *second != b'-',
        _ => false,
    }
}

fn has_stray(words: &[String]) -> bool
    ensures { result ≡ list_any (λ word. is_stray_lem (string_bytes word)) words.now }
{
    words.iter().any(|word| is_stray(word.as_bytes()))
}

/// Reads these options from the words, or returns `None` if the words aren't allowed.
pub fn read_options<'a>(
    alloc: Global,
    options: &[OptionName],
    words: &'a [String],
) -> Result<Option<ArgMatches<'a>>, NoMemory>
    ensures { IfOk result (λ matches. Gives (allowed_uses options.now (map string_bytes words.now)) matches) }
{
    if has_stray(words) {
        return Ok(None);
    }
    match command(alloc, options)?.try_get_matches_from(words) {
        Ok(matches) => Ok(Some(matches)),
        Err(error) => match error.kind() {
            ErrorKind::OutOfMemory => Err(NoMemory),
            _ => Ok(None),
        },
    }
}
