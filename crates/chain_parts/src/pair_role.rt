//! The words of a logger of a pair, and those of `alone`.

ghost use Rattle.std.specs.Prelude.{◌≡◌, ◌≤◌, List, map, string_bytes, IfOk, IfSome};
ghost use Rattle.link_parts.specs.Options.{Use, HasValues};
ghost use Rattle.chain_parts.specs.PairWords.{part_named, part_at as part_at_lem, part_in, alone_in, part_of, alone_of, twin_of};
ghost use Rattle.chain_parts.specs.PartSteps.{InRange};
ghost use Rattle.link_parts.specs.Ranges.{most_turns};

use clap::ArgMatches;
use ft_io::{Addr, NoMemory};
use link_parts::{LoggerRole, OptionName, addr_at, logger_role, read_options};
use std::alloc::Global;
use twin_log::Part;

const PART_OPTIONS: [OptionName; 6] = [
    OptionName::Local,
    OptionName::Turns,
    OptionName::Times,
    OptionName::Part,
    OptionName::Other,
    OptionName::Profile,
];

const ALONE_OPTIONS: [OptionName; 2] = [OptionName::Local, OptionName::To];

/// One of two loggers, which starts with an empty log.
#[derive(Clone, Copy)]
pub struct PartRole {
    pub logger: LoggerRole,
    pub part: Part,
    /// The other logger.
    pub other: Addr,
}

/// A process that informs a logger that the other has stopped.
#[derive(Clone, Copy)]
pub struct AloneRole {
    pub local: Addr,
    /// The logger that serves alone from now on.
    pub to: Addr,
}

/// The roles that this crate adds: one of two loggers, and the process that informs one of them that it serves alone.
#[derive(Clone, Copy)]
pub enum TwinRole {
    Logger(PartRole),
    Alone(AloneRole),
}

/// Returns the part with this name.
fn read_part(name: &str) -> Option<Part>
    ensures { result ≡ part_named name.now }
{
    match name {
        "head" => Some(Part::Head),
        "tail" => Some(Part::Tail),
        _ => None,
    }
}

fn part_at(matches: &ArgMatches<'_>, option: OptionName) -> Option<Part>
    ensures { (uses : List Use) → HasValues uses matches.now → result ≡ part_at_lem uses option }
{
    read_part(matches.get_str(option.word())?)
}

fn part_role(matches: &ArgMatches<'_>) -> Option<PartRole>
    ensures range { IfSome result (λ role. role.logger.turns ≤ most_turns) }
    ensures value { (uses : List Use) → HasValues uses matches.now → result ≡ part_in uses }
{
    Some(PartRole {
        logger: logger_role(matches)?,
        part: part_at(matches, OptionName::Part)?,
        other: addr_at(matches, OptionName::Other)?,
    })
}

fn alone_role(matches: &ArgMatches<'_>) -> Option<AloneRole>
    ensures { (uses : List Use) → HasValues uses matches.now → result ≡ alone_in uses }
{
    Some(AloneRole {
        local: addr_at(matches, OptionName::Local)?,
        to: addr_at(matches, OptionName::To)?,
    })
}

#[tactic(auto, unfolding(crate::specs::PairWords::part_of))]
fn read_logger(alloc: Global, words: &[String]) -> Result<Option<TwinRole>, NoMemory>
    ensures role { IfOk result (λ role. role ≡ part_of (map string_bytes words.now)) }
    ensures range { IfOk result (λ role. IfSome role InRange) }
{
    match read_options(alloc, &PART_OPTIONS, words)? {
        Some(matches) => Ok(part_role(&matches).map(TwinRole::Logger)),
        None => Ok(None),
    }
}

#[tactic(auto, unfolding(crate::specs::PairWords::alone_of))]
fn read_alone(alloc: Global, words: &[String]) -> Result<Option<TwinRole>, NoMemory>
    ensures role { IfOk result (λ role. role ≡ alone_of (map string_bytes words.now)) }
    ensures range { IfOk result (λ role. IfSome role InRange) }
{
    match read_options(alloc, &ALONE_OPTIONS, words)? {
        Some(matches) => Ok(alone_role(&matches).map(TwinRole::Alone)),
        None => Ok(None),
    }
}

/// Reads a role that this crate adds. Returns `None` where the words ask for no such role.
#[tactic(auto, unfolding(crate::specs::PairWords::twin_of))]
pub fn read_twin_role(alloc: Global, words: &[String]) -> Result<Option<TwinRole>, NoMemory>
    ensures role { IfOk result (λ role. role ≡ twin_of (map string_bytes words.now)) }
    ensures range { IfOk result (λ role. IfSome role InRange) }
{
    let Some((name, words)) = words.split_first() else {
        return Ok(None);
    };
    match name.as_str() {
        "logger" => read_logger(alloc, words),
        "alone" => read_alone(alloc, words),
        _ => Ok(None),
    }
}
