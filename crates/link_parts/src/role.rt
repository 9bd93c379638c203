//! What the words ask for: a role, and the values of its options.

ghost use Rattle.std.specs.Prelude.{◌≡◌, ◌≤◌, List, map, string_bytes, option_map, IfOk, IfSome};
ghost use Rattle.link_parts.specs.declared.role.NodeRole.TheVariants as roles;
ghost use Rattle.link_parts.specs.LoggerParts.{heeded_by};
ghost use Rattle.link_parts.specs.Options.{Use, HasValues, value_of};
ghost use Rattle.link_parts.specs.declared.options.OptionName.TheVariants as option;
ghost use Rattle.link_parts.specs.Ranges.{most_turns, ServerInRange, IsShort, ClientInRange, InRange};
ghost use Rattle.link_parts.specs.Roles.{addr_at as addr_lem, number_at as number_lem, number_or as number_or_lem, service_at as service_lem};
ghost use Rattle.link_parts.specs.Roles.{script_at as script_lem};
ghost use Rattle.link_parts.specs.Roles.{program_at as program_lem};
ghost use Rattle.link_parts.specs.Roles.{loggers_in, times_in, all_turns_in, profile_spelled, profile_at as profile_lem, yes_in};
ghost use Rattle.link_parts.specs.Roles.{server_with as server_lem, server_in, own_server_in, logger_in, client_in, pair_in};
ghost use Rattle.link_parts.specs.Roles.{server_of, own_server_of, logger_of, client_of, pair_of, role_of, lasting_role_of, own_role_of};
ghost use Rattle.link_parts.specs.ServiceNumber.{kind_in};

use crate::options::{OptionName, read_options};
use crate::program::Program;
use clap::ArgMatches;
use forget_store::Heeded;
use ft_io::{Addr, NoMemory};
use ft_model::{Script, ServiceKind};
use schedule_text::{read_addr, read_number, read_script, read_service};
use std::alloc::Global;
use tcp_rules::Profile;

const SERVER_OPTIONS: [OptionName; 7] = [
    OptionName::Local,
    OptionName::Logger,
    OptionName::SecondLogger,
    OptionName::Service,
    OptionName::Boot,
    OptionName::Isn,
    OptionName::Turns,
];

const LASTING_SERVER_OPTIONS: [OptionName; 9] = [
    OptionName::Local,
    OptionName::Logger,
    OptionName::SecondLogger,
    OptionName::Service,
    OptionName::Boot,
    OptionName::Isn,
    OptionName::Turns,
    OptionName::Times,
    OptionName::Profile,
];

const OWN_SERVER_OPTIONS: [OptionName; 8] = [
    OptionName::Local,
    OptionName::Logger,
    OptionName::SecondLogger,
    OptionName::Boot,
    OptionName::Isn,
    OptionName::Turns,
    OptionName::Times,
    OptionName::Profile,
];

const LOGGER_OPTIONS: [OptionName; 2] = [OptionName::Local, OptionName::Turns];

const LASTING_LOGGER_OPTIONS: [OptionName; 5] = [
    OptionName::Local,
    OptionName::Turns,
    OptionName::Times,
    OptionName::Profile,
    OptionName::Forget,
];

const CLIENT_OPTIONS: [OptionName; 5] = [
    OptionName::Local,
    OptionName::Server,
    OptionName::Isn,
    OptionName::Turns,
    OptionName::Script,
];

const LASTING_CLIENT_OPTIONS: [OptionName; 6] = [
    OptionName::Local,
    OptionName::Server,
    OptionName::Isn,
    OptionName::Turns,
    OptionName::Script,
    OptionName::Profile,
];

const PAIR_OPTIONS: [OptionName; 5] = [
    OptionName::Program,
    OptionName::Base,
    OptionName::First,
    OptionName::Second,
    OptionName::Turns,
];

/// The last port for a pair's server: the two after it are the logger's and the client's.
const LAST_BASE: u64 = 65_533;

/// The most turns of a role.
const TURN_LIMIT: u64 = 1_000_000;

/// How many times a server or a logger may take its turns: at most 4 * 10^18 in all.
const TIMES_LIMIT: u64 = 4_000_000_000_000;

/// The loggers of a server: one, or two that act as one.
#[derive(Clone, Copy)]
pub struct Loggers {
    /// The one logger, or the first of two.
    pub first: Addr,
    pub second: Option<Addr>,
}

/// An incarnation of the server.
#[derive(Clone, Copy)]
pub struct ServerRole {
    /// Its own address and port.
    pub local: Addr,
    /// The addresses of its logger, or of both.
    pub loggers: Loggers,
    /// The service: one of the four, or None where the program has a service of its own.
    pub service: Option<ServiceKind>,
    /// The boot number, at least 1.
    pub boot: u64,
    /// The number from which its connections' initial sequence numbers are counted.
    pub isn: u32,
    /// How many turns it takes, 1 to 4 * 10^18.
    pub turns: u64,
    /// What suits the path to its clients.
    pub profile: Profile,
}

/// A logger that starts with an empty log.
#[derive(Clone, Copy)]
pub struct LoggerRole {
    /// Its own address and port.
    pub local: Addr,
    /// How many turns it takes, 1 to 4 * 10^18.
    pub turns: u64,
    /// Its server's profile: messages of another one's grammar are no messages.
    pub profile: Profile,
    /// Whether it heeds messages about forgetting.
    pub forgets: bool,
}

impl LoggerRole {
    /// Returns which messages it heeds.
    pub fn heeded(&self) -> Heeded
        ensures { result ≡ heeded_by self.now }
    {
        Heeded {
            grammar: self.profile.grammar(),
            forgets: self.forgets,
        }
    }
}

/// A client that sends a script.
#[derive(Drop)]
pub struct ClientRole {
    /// Its own address and port.
    pub local: Addr,
    /// The server's address and port.
    pub server: Addr,
    /// Its initial sequence number.
    pub isn: u32,
    /// The most turns that it takes, 1 to 1,000,000.
    pub turns: u32,
    /// The bytes that it sends. `None`: it reads them from the input.
    pub script: Option<Script>,
    /// What suits the path to its server.
    pub profile: Profile,
}

/// Two servers, one after the other, with a logger and a client, each a process.
#[derive(Drop)]
pub struct PairRole {
    /// The program of every child.
    pub program: Program,
    /// The server's port, 1 to 65,533. The next one is the logger's, and the one after that the client's.
    pub base: u16,
    /// The turns of the first server, 1 to 1,000,000.
    pub first: u32,
    /// The turns of the second server, 1 to 1,000,000.
    pub second: u32,
    /// The turns of the logger, and of the client, 1 to 1,000,000.
    pub turns: u32,
}

impl ServerRole {
    /// Returns the number of the service's kind, or 0 where the program has a service of its own.
    pub fn kind(&self) -> u8
        ensures { result ≡ kind_in self.now.service }
    {
        match self.service {
            Some(service) => service.number(),
            None => 0,
        }
    }
}

/// The role of a process.
#[derive(Drop)]
pub enum NodeRole {
    Server(ServerRole),
    Logger(LoggerRole),
    Client(ClientRole),
    Pair(PairRole),
}

/// Returns the address that an option gives, or `None` where the option is missing or its value spells no address.
pub fn addr_at(matches: &ArgMatches<'_>, option: OptionName) -> Option<Addr>
    ensures { (uses : List Use) → HasValues uses matches.now → result ≡ addr_lem uses option }
{
    read_addr(matches.get_str(option.word())?.as_bytes())
}

/// Returns the number that an option gives, or `None` where the option is missing or its value spells no number from `least` to `most`.
pub fn number_at(matches: &ArgMatches<'_>, option: OptionName, least: u64, most: u64) -> Option<u64>
    ensures value { (uses : List Use) → HasValues uses matches.now → result ≡ number_lem least most uses option }
    ensures range { IfSome result (λ n. (least ≤ n) × (n ≤ most)) }
{
    read_number(matches.get_str(option.word())?.as_bytes(), least, most)
}

/// Returns the number that an option gives, and the usual one where the option is left out. `None` where its value spells no number from `least` to `most`.
pub fn number_or(
    matches: &ArgMatches<'_>,
    option: OptionName,
    least: u64,
    most: u64,
    usual: u64,
) -> Option<u64>
    ensures { (uses : List Use) → HasValues uses matches.now → result ≡ number_or_lem least most usual (value_of uses option) }
{
    match matches.get_str(option.word()) {
        None => Some(usual),
        Some(word) => read_number(word.as_bytes(), least, most),
    }
}

/// Returns how many times the turns are taken.
fn times_at(matches: &ArgMatches<'_>) -> Option<u64>
    ensures value { (uses : List Use) → HasValues uses matches.now → result ≡ times_in (value_of uses option.Times) }
    ensures range { IfSome result (λ n. n ≤ 4000000000000) }
{
    match matches.get_str(OptionName::Times.word()) {
        None => Some(1),
        Some(word) => read_number(word.as_bytes(), 1, TIMES_LIMIT),
    }
}

/// Returns how many turns a server or a logger takes in all.
pub(crate) fn all_turns_at(matches: &ArgMatches<'_>) -> Option<u64>
    ensures value { (uses : List Use) → HasValues uses matches.now → result ≡ all_turns_in uses }
    ensures range { IfSome result (λ n. n ≤ most_turns) }
{
    let turns = number_at(matches, OptionName::Turns, 1, TURN_LIMIT)?;
    let times = times_at(matches)?;
    Some(turns * times)
}

fn service_at(matches: &ArgMatches<'_>, option: OptionName) -> Option<ServiceKind>
    ensures { (uses : List Use) → HasValues uses matches.now → result ≡ service_lem uses option }
{
    read_service(matches.get_str(option.word())?.as_bytes())
}

/// Returns the script, if one is given. The outer `None`: the word spells no script.
fn script_at(
    alloc: Global,
    matches: &ArgMatches<'_>,
    option: OptionName,
) -> Result<Option<Option<Script>>, NoMemory>
    ensures short { IfOk result (λ given. IfSome given (λ script. IfSome script IsShort)) }
    ensures value { IfOk result (λ script. (uses : List Use) → HasValues uses matches.now → script ≡ script_lem uses option) }
{
    let Some(word) = matches.get_str(option.word()) else {
        return Ok(Some(None));
    };
    match read_script(alloc, word.as_bytes())? {
        Some(script) => Ok(Some(Some(script))),
        None => Ok(None),
    }
}

/// Returns the program, or `None` where no word names one.
fn program_at(
    alloc: Global,
    matches: &ArgMatches<'_>,
    option: OptionName,
) -> Result<Option<Program>, NoMemory>
    ensures { IfOk result (λ program. (uses : List Use) → HasValues uses matches.now → program ≡ program_lem uses option) }
{
    match matches.get_str(option.word()) {
        Some(word) => Program::read(alloc, word),
        None => Ok(None),
    }
}

/// Returns the loggers, or `None` where the first is missing or a word spells no address.
fn loggers_at(matches: &ArgMatches<'_>) -> Option<Loggers>
    ensures { (uses : List Use) → HasValues uses matches.now → result ≡ loggers_in uses }
{
    let first = addr_at(matches, OptionName::Logger)?;
    match matches.get_str(OptionName::SecondLogger.word()) {
        None => Some(Loggers {
            first,
            second: None,
        }),
        Some(word) => Some(Loggers {
            first,
            second: Some(read_addr(word.as_bytes())?),
        }),
    }
}

fn read_profile(word: &[u8]) -> Option<Profile>
    ensures { result ≡ profile_spelled word.now }
{
    match word {
        b"plain" => Some(Profile::Plain),
        b"wan" => Some(Profile::Wan),
        _ => None,
    }
}

/// Returns the profile, or `None` where the word names none. Without a word it is the plain one.
fn profile_at(matches: &ArgMatches<'_>) -> Option<Profile>
    ensures { (uses : List Use) → HasValues uses matches.now → result ≡ profile_lem uses }
{
    match matches.get_str(OptionName::Profile.word()) {
        None => Some(Profile::Plain),
        Some(word) => read_profile(word.as_bytes()),
    }
}

/// Whether an option says `yes`. Without it, it says no; `None` where it has another value.
pub fn yes_at(matches: &ArgMatches<'_>, option: OptionName) -> Option<bool>
    ensures { (uses : List Use) → HasValues uses matches.now → result ≡ yes_in (value_of uses option) }
{
    match matches.get_str(option.word()) {
        None => Some(false),
        Some(word) if word == "yes" => Some(true),
        Some(_) => None,
    }
}

fn server_with(matches: &ArgMatches<'_>, service: Option<ServiceKind>) -> Option<ServerRole>
    ensures range { IfSome result (λ role. ServerInRange role) }
    ensures value { (uses : List Use) → HasValues uses matches.now → result ≡ server_lem uses service }
{
    Some(ServerRole {
        local: addr_at(matches, OptionName::Local)?,
        loggers: loggers_at(matches)?,
        service,
        boot: number_at(matches, OptionName::Boot, 1, u64::MAX)?,
        isn: number_at(matches, OptionName::Isn, 0, u64::from(u32::MAX))? as u32,
        turns: all_turns_at(matches)?,
        profile: profile_at(matches)?,
    })
}

/// Returns the role of a server with these values of its options, or `None` where a value is missing or isn't allowed.
pub fn server_role(matches: &ArgMatches<'_>) -> Option<ServerRole>
    ensures range { IfSome result (λ role. ServerInRange role) }
    ensures value { (uses : List Use) → HasValues uses matches.now → result ≡ server_in uses }
{
    let service = service_at(matches, OptionName::Service)?;
    server_with(matches, Some(service))
}

/// Returns the role of a server with a service of its own: without `--service`.
pub fn own_server_role(matches: &ArgMatches<'_>) -> Option<ServerRole>
    ensures range { IfSome result (λ role. ServerInRange role) }
    ensures value { (uses : List Use) → HasValues uses matches.now → result ≡ own_server_in uses }
{
    server_with(matches, None)
}

/// Returns the role of a logger with these values of its options, or `None` where a value is missing or isn't allowed.
pub fn logger_role(matches: &ArgMatches<'_>) -> Option<LoggerRole>
    ensures range { IfSome result (λ role. role.turns ≤ most_turns) }
    ensures value { (uses : List Use) → HasValues uses matches.now → result ≡ logger_in uses }
{
    Some(LoggerRole {
        local: addr_at(matches, OptionName::Local)?,
        turns: all_turns_at(matches)?,
        profile: profile_at(matches)?,
        forgets: yes_at(matches, OptionName::Forget)?,
    })
}

fn client_role(alloc: Global, matches: &ArgMatches<'_>) -> Result<Option<ClientRole>, NoMemory>
    ensures range { IfOk result (λ role. IfSome role (λ r. ClientInRange r)) }
    ensures value { IfOk result (λ role. (uses : List Use) → HasValues uses matches.now → role ≡ client_in uses) }
{
    let script = script_at(alloc, matches, OptionName::Script)?;
    Ok(client_with(matches, script))
}

fn client_with(matches: &ArgMatches<'_>, script: Option<Option<Script>>) -> Option<ClientRole>
    requires { IfSome script (λ given. IfSome given IsShort) }
    ensures range { IfSome result (λ role. ClientInRange role) }
    ensures value { (uses : List Use) → HasValues uses matches.now → script ≡ script_lem uses OptionName.Script → result ≡ client_in uses }
{
    Some(ClientRole {
        local: addr_at(matches, OptionName::Local)?,
        server: addr_at(matches, OptionName::Server)?,
        isn: number_at(matches, OptionName::Isn, 0, u64::from(u32::MAX))? as u32,
        turns: number_at(matches, OptionName::Turns, 1, TURN_LIMIT)? as u32,
        script: script?,
        profile: profile_at(matches)?,
    })
}

fn pair_role(alloc: Global, matches: &ArgMatches<'_>) -> Result<Option<PairRole>, NoMemory>
    ensures range { IfOk result (λ role. IfSome role (λ r. r.base ≤ 65533)) }
    ensures value { IfOk result (λ role. (uses : List Use) → HasValues uses matches.now → role ≡ pair_in uses) }
{
    let program = program_at(alloc, matches, OptionName::Program)?;
    Ok(pair_with(matches, program))
}

fn pair_with(matches: &ArgMatches<'_>, program: Option<Program>) -> Option<PairRole>
    ensures range { IfSome result (λ role. role.base ≤ 65533) }
    ensures value { (uses : List Use) → HasValues uses matches.now → program ≡ program_lem uses OptionName.Program → result ≡ pair_in uses }
{
    Some(PairRole {
        program: program?,
        base: number_at(matches, OptionName::Base, 1, LAST_BASE)? as u16,
        first: number_at(matches, OptionName::First, 1, TURN_LIMIT)? as u32,
        second: number_at(matches, OptionName::Second, 1, TURN_LIMIT)? as u32,
        turns: number_at(matches, OptionName::Turns, 1, TURN_LIMIT)? as u32,
    })
}

#[tactic(auto, unfolding(crate::specs::Roles::server_of))]
fn read_server(
    alloc: Global,
    options: &[OptionName],
    words: &[String],
) -> Result<Option<NodeRole>, NoMemory>
    ensures role { IfOk result (λ role. role ≡ server_of options.now (map string_bytes words.now)) }
    ensures range { IfOk result (λ role. IfSome role InRange) }
{
    let Some(matches) = read_options(alloc, options, words)? else {
        return Ok(None);
    };
    Ok(server_role(&matches).map(NodeRole::Server))
}

#[tactic(auto, unfolding(crate::specs::Roles::own_server_of))]
fn read_own_server(alloc: Global, words: &[String]) -> Result<Option<NodeRole>, NoMemory>
    ensures role { IfOk result (λ role. role ≡ own_server_of (map string_bytes words.now)) }
    ensures range { IfOk result (λ role. IfSome role InRange) }
{
    let Some(matches) = read_options(alloc, &OWN_SERVER_OPTIONS, words)? else {
        return Ok(None);
    };
    Ok(own_server_role(&matches).map(NodeRole::Server))
}

#[tactic(auto, unfolding(crate::specs::Roles::logger_of))]
fn read_logger(
    alloc: Global,
    options: &[OptionName],
    words: &[String],
) -> Result<Option<NodeRole>, NoMemory>
    ensures role { IfOk result (λ role. role ≡ logger_of options.now (map string_bytes words.now)) }
    ensures range { IfOk result (λ role. IfSome role InRange) }
{
    let Some(matches) = read_options(alloc, options, words)? else {
        return Ok(None);
    };
    Ok(logger_role(&matches).map(NodeRole::Logger))
}

#[tactic(auto, unfolding(crate::specs::Roles::client_of))]
fn read_client(
    alloc: Global,
    options: &[OptionName],
    words: &[String],
) -> Result<Option<NodeRole>, NoMemory>
    ensures role { IfOk result (λ role. role ≡ client_of options.now (map string_bytes words.now)) }
    ensures range { IfOk result (λ role. IfSome role InRange) }
{
    let Some(matches) = read_options(alloc, options, words)? else {
        return Ok(None);
    };
    match client_role(alloc, &matches)? {
        Some(role) => Ok(Some(NodeRole::Client(role))),
        None => Ok(None),
    }
}

#[tactic(auto, unfolding(crate::specs::Roles::pair_of))]
fn read_pair(alloc: Global, words: &[String]) -> Result<Option<NodeRole>, NoMemory>
    ensures role { IfOk result (λ role. role ≡ pair_of (map string_bytes words.now)) }
    ensures range { IfOk result (λ role. IfSome role InRange) }
{
    let Some(matches) = read_options(alloc, &PAIR_OPTIONS, words)? else {
        return Ok(None);
    };
    match pair_role(alloc, &matches)? {
        Some(role) => Ok(Some(NodeRole::Pair(role))),
        None => Ok(None),
    }
}

/// Reads a role of `node` from the words: its name, then its options in any order, each as `--NAME VALUE` or `--NAME=VALUE`. Returns `None` where the words
/// aren't allowed.
#[tactic(auto, unfolding(crate::specs::Roles::role_of))]
pub fn read_role(alloc: Global, words: &[String]) -> Result<Option<NodeRole>, NoMemory>
    ensures role { IfOk result (λ role. role ≡ role_of (map string_bytes words.now)) }
    ensures range { IfOk result (λ role. IfSome role InRange) }
{
    let Some((name, words)) = words.split_first() else {
        return Ok(None);
    };
    match name.as_str() {
        "server" => read_server(alloc, &SERVER_OPTIONS, words),
        "logger" => read_logger(alloc, &LOGGER_OPTIONS, words),
        "client" => read_client(alloc, &CLIENT_OPTIONS, words),
        "pair" => read_pair(alloc, words),
        _ => Ok(None),
    }
}

/// Reads a role as [`read_role`] does. The words of a server and of a logger may have `--times` too, those of each role `--profile`, and those of a logger
/// `--forget`.
#[tactic(auto, unfolding(crate::specs::Roles::lasting_role_of))]
pub fn read_lasting_role(alloc: Global, words: &[String]) -> Result<Option<NodeRole>, NoMemory>
    ensures role { IfOk result (λ role. role ≡ lasting_role_of (map string_bytes words.now)) }
    ensures range { IfOk result (λ role. IfSome role InRange) }
{
    let Some((name, words)) = words.split_first() else {
        return Ok(None);
    };
    match name.as_str() {
        "server" => read_server(alloc, &LASTING_SERVER_OPTIONS, words),
        "logger" => read_logger(alloc, &LASTING_LOGGER_OPTIONS, words),
        "client" => read_client(alloc, &LASTING_CLIENT_OPTIONS, words),
        "pair" => read_pair(alloc, words),
        _ => Ok(None),
    }
}

/// Reads the role of a program with a service of its own: a server, without `--service`, or a logger. Both may have `--times` and
/// `--profile`, and a logger `--forget`.
#[tactic(auto, unfolding(crate::specs::Roles::own_role_of))]
pub fn read_own_role(alloc: Global, words: &[String]) -> Result<Option<NodeRole>, NoMemory>
    ensures role { IfOk result (λ role. role ≡ own_role_of (map string_bytes words.now)) }
    ensures range { IfOk result (λ role. IfSome role InRange) }
{
    let Some((name, words)) = words.split_first() else {
        return Ok(None);
    };
    match name.as_str() {
        "server" => read_own_server(alloc, words),
        "logger" => read_logger(alloc, &LASTING_LOGGER_OPTIONS, words),
        _ => Ok(None),
    }
}
