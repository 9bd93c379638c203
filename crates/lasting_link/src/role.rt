//! The words of a server that lasts.

ghost use Rattle.std.specs.Prelude.{◌≡◌, ◌≤◌, List, map, string_bytes, IfOk, IfSome};
ghost use Rattle.link_parts.specs.Options.{Use, HasValues, value_of};
ghost use Rattle.link_parts.specs.Ranges.{ServerInRange};
ghost use Rattle.link_parts.specs.declared.options.OptionName.TheVariants as option;
ghost use Rattle.lasting_link.specs.LastingWords.{silence_in, patience_in, lasting_from, lasting_of, own_lasting_of, IsPatient, LastingInRange};

use clap::ArgMatches;
use ft_io::NoMemory;
use lasting_node::Patience;
use link_parts::{OptionName, ServerRole, number_at, own_server_role, read_options, server_role};
use schedule_text::read_number;
use std::alloc::Global;

const OPTIONS: [OptionName; 10] = [
    OptionName::Local,
    OptionName::Logger,
    OptionName::Service,
    OptionName::Boot,
    OptionName::Isn,
    OptionName::Turns,
    OptionName::Times,
    OptionName::Profile,
    OptionName::Forget,
    OptionName::Silence,
];

const OWN_OPTIONS: [OptionName; 9] = [
    OptionName::Local,
    OptionName::Logger,
    OptionName::Boot,
    OptionName::Isn,
    OptionName::Turns,
    OptionName::Times,
    OptionName::Profile,
    OptionName::Forget,
    OptionName::Silence,
];

/// The longest quarantine, in ticks.
const MOST_WAIT: u64 = 1_000_000;

/// The longest silence, in ticks.
const MOST_SILENCE: u64 = 100_000_000;

/// An incarnation of a server that lasts. It has one logger.
#[derive(Clone, Copy)]
pub struct LastingRole {
    pub server: ServerRole,
    /// How long it waits.
    pub patience: Patience,
}

/// After how long a silence a client is asked, in ticks: 1 to 100,000,000. Without the option it never is: 0.
fn silence_at(matches: &ArgMatches<'_>) -> Option<u64>
    ensures value { (uses : List Use) → HasValues uses matches.now → result ≡ silence_in (value_of uses option.Silence) }
    ensures range { IfSome result (λ n. n ≤ 100000000) }
{
    match matches.get_str(OptionName::Silence.word()) {
        None => Some(0),
        Some(word) => read_number(word.as_bytes(), 1, MOST_SILENCE),
    }
}

fn patience_at(matches: &ArgMatches<'_>) -> Option<Patience>
    ensures value { (uses : List Use) → HasValues uses matches.now → result ≡ patience_in uses }
    ensures range { IfSome result IsPatient }
{
    Some(Patience {
        wait: number_at(matches, OptionName::Forget, 1, MOST_WAIT)? as u32,
        silence: silence_at(matches)? as u32,
    })
}

/// A server of these words that waits so long.
fn lasting(server: Option<ServerRole>, matches: &ArgMatches<'_>) -> Option<LastingRole>
    requires { IfSome server ServerInRange }
    ensures value { (uses : List Use) → HasValues uses matches.now → result ≡ lasting_from server (patience_in uses) }
    ensures range { IfSome result LastingInRange }
{
    Some(LastingRole {
        server: server?,
        patience: patience_at(matches)?,
    })
}

/// Reads the role of a server that lasts. Returns `None` where the words ask for no such server.
#[tactic(auto, unfolding(crate::specs::LastingWords::lasting_of))]
pub fn read_lasting_server(alloc: Global, words: &[String]) -> Result<Option<LastingRole>, NoMemory>
    ensures role { IfOk result (λ role. role ≡ lasting_of (map string_bytes words.now)) }
    ensures range { IfOk result (λ role. IfSome role LastingInRange) }
{
    let Some((name, words)) = words.split_first() else {
        return Ok(None);
    };
    if name.as_str() != "server" {
        return Ok(None);
    }
    match read_options(alloc, &OPTIONS, words)? {
        Some(matches) => Ok(lasting(server_role(&matches), &matches)),
        None => Ok(None),
    }
}

/// Reads such a role in a program with a service of its own: without `--service`.
#[tactic(auto, unfolding(crate::specs::LastingWords::own_lasting_of))]
pub fn read_own_lasting_server(
    alloc: Global,
    words: &[String],
) -> Result<Option<LastingRole>, NoMemory>
    ensures role { IfOk result (λ role. role ≡ own_lasting_of (map string_bytes words.now)) }
    ensures range { IfOk result (λ role. IfSome role LastingInRange) }
{
    let Some((name, words)) = words.split_first() else {
        return Ok(None);
    };
    if name.as_str() != "server" {
        return Ok(None);
    }
    match read_options(alloc, &OWN_OPTIONS, words)? {
        Some(matches) => Ok(lasting(own_server_role(&matches), &matches)),
        None => Ok(None),
    }
}
