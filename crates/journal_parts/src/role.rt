//! The words of a logger with a journal.

ghost use Rattle.std.specs.Prelude.{◌≡◌, ◌≤◌, List, map, string_bytes, IfOk, IfSome};
ghost use Rattle.link_parts.specs.Options.{Use, HasValues};
ghost use Rattle.link_parts.specs.Options.{value_of};
ghost use Rattle.link_parts.specs.declared.options.OptionName.TheVariants as option;
ghost use Rattle.journal_parts.specs.Words.{file_of, compact_by, journal_in, journal_of};
ghost use Rattle.link_parts.specs.Ranges.{most_turns};

use clap::ArgMatches;
use ft_io::NoMemory;
use link_parts::{LoggerRole, OptionName, is_name, logger_role, number_or, read_options, yes_at};
use std::alloc::Global;
use std::marker::Model;

const JOURNAL_OPTIONS: [OptionName; 8] = [
    OptionName::Local,
    OptionName::Turns,
    OptionName::Times,
    OptionName::Journal,
    OptionName::Begin,
    OptionName::Compact,
    OptionName::Profile,
    OptionName::Forget,
];

/// The bounds of what the words may say of a file's length, in bytes, and what holds where they say nothing.
const LEAST_COMPACT: u64 = 4_096;

const MOST_COMPACT: u64 = 1 << 40;

const USUAL_COMPACT: u64 = 64 << 20;

/// The name of a file. It isn't empty and doesn't begin with `-`.
#[derive(Drop)]
pub struct FileName {
    word: String,
}

impl Model for FileName {
    ghost use Rattle.std.specs.Prelude.{List, ℕ, string_bytes};

    ghost Value = { List ℕ };

    ghost view = { λ f. string_bytes f.word };
}

impl FileName {
    /// Returns this word as a file name, or `None` if it is empty or begins with `-`.
    fn read(alloc: Global, word: &str) -> Result<Option<FileName>, NoMemory>
        ensures { IfOk result (λ name. name ≡ file_of word.now) }
    {
        if !is_name(word.as_bytes()) {
            return Ok(None);
        }
        let word = String::from_str(alloc, word)?;
        Ok(Some(FileName { word }))
    }

    /// Returns the name.
    pub(crate) fn as_str(&self) -> &str
        ensures { result.now ≡ self.now }
    {
        self.word.as_str()
    }
}

/// A logger that keeps its log in a journal.
#[derive(Drop)]
pub struct JournalRole {
    /// Its address and turns, and which messages it heeds.
    pub logger: LoggerRole,
    /// Its file.
    pub journal: FileName,
    /// Whether it makes that file.
    pub begins: bool,
    /// The longest file that isn't replaced by a shorter one, in bytes.
    pub compact: u64,
}

/// The longest file that isn't replaced by a shorter one: 4,096 to 2^40 bytes, and 64 MiB without the option. `None` where it has another value.
fn compact_at(matches: &ArgMatches<'_>) -> Option<u64>
    ensures { (uses : List Use) → HasValues uses matches.now → result ≡ compact_by (value_of uses option.Compact) }
{
    number_or(
        matches,
        OptionName::Compact,
        LEAST_COMPACT,
        MOST_COMPACT,
        USUAL_COMPACT,
    )
}

fn journal_role(alloc: Global, matches: &ArgMatches<'_>) -> Result<Option<JournalRole>, NoMemory>
    ensures range { IfOk result (λ role. IfSome role (λ r. r.logger.turns ≤ most_turns)) }
    ensures value { IfOk result (λ role. (uses : List Use) → HasValues uses matches.now → role ≡ journal_in uses) }
{
    let Some(logger) = logger_role(matches) else {
        return Ok(None);
    };
    let Some(word) = matches.get_str(OptionName::Journal.word()) else {
        return Ok(None);
    };
    let Some(begins) = yes_at(matches, OptionName::Begin) else {
        return Ok(None);
    };
    let Some(compact) = compact_at(matches) else {
        return Ok(None);
    };
    match FileName::read(alloc, word)? {
        Some(journal) => Ok(Some(JournalRole {
            logger,
            journal,
            begins,
            compact,
        })),
        None => Ok(None),
    }
}

/// Reads the role of a logger with a journal. Returns `None` where the words ask for no such logger.
#[tactic(auto, unfolding(crate::specs::Words::journal_of))]
pub fn read_journal_role(alloc: Global, words: &[String]) -> Result<Option<JournalRole>, NoMemory>
    ensures role { IfOk result (λ role. role ≡ journal_of (map string_bytes words.now)) }
    ensures range { IfOk result (λ role. IfSome role (λ r. r.logger.turns ≤ most_turns)) }
{
    let Some((name, words)) = words.split_first() else {
        return Ok(None);
    };
    if name.as_str() != "logger" {
        return Ok(None);
    }
    match read_options(alloc, &JOURNAL_OPTIONS, words)? {
        Some(matches) => journal_role(alloc, &matches),
        None => Ok(None),
    }
}
