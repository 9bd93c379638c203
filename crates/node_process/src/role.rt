//! The role that the words of a process ask for.

ghost use Rattle.std.specs.Prelude.{◌≡◌, List, map, string_bytes, IfOk, IfSome};
ghost use Rattle.link_parts.specs.Ranges as node;
ghost use Rattle.lasting_link.specs.LastingWords.{LastingInRange};
ghost use Rattle.node_process.specs.Asked.{InRange, asked_of, node_role_of, lasting_server_of};

use chain_parts::{TwinRole, read_twin_role};
use ft_io::NoMemory;
use journal_parts::{JournalRole, read_journal_role};
use lasting_link::{LastingRole, read_lasting_server, read_own_lasting_server};
use link_parts::{NodeRole, read_lasting_role, read_own_role};
use std::alloc::Global;

/// Which services a program has.
#[derive(Clone, Copy)]
pub enum Services {
    /// The four services of `sample_servers`. The option `--service` of a server names one.
    Named,
    /// A service of its own. A server has no option `--service`.
    Own,
}

/// The role of a process.
#[derive(Drop)]
pub enum Role {
    /// A role of `node`: a server, a logger, a client or a pair.
    Node(NodeRole),
    /// A server that lasts.
    Lasting(LastingRole),
    /// A logger that keeps its log in a journal.
    Journal(JournalRole),
    /// The head or the tail of two loggers that act as one, or `alone`.
    Twin(TwinRole),
}

fn read_node_role(
    alloc: Global,
    services: Services,
    words: &[String],
) -> Result<Option<NodeRole>, NoMemory>
    ensures role { IfOk result (λ role. role ≡ node_role_of services (map string_bytes words.now)) }
    ensures range { IfOk result (λ role. IfSome role node.InRange) }
{
    match services {
        Services::Named => read_lasting_role(alloc, words),
        Services::Own => read_own_role(alloc, words),
    }
}

fn read_lasting(
    alloc: Global,
    services: Services,
    words: &[String],
) -> Result<Option<LastingRole>, NoMemory>
    ensures role { IfOk result (λ role. role ≡ lasting_server_of services (map string_bytes words.now)) }
    ensures range { IfOk result (λ role. IfSome role LastingInRange) }
{
    match services {
        Services::Named => read_lasting_server(alloc, words),
        Services::Own => read_own_lasting_server(alloc, words),
    }
}

/// Reads a role from the words: its name, then its options in any order, each as `--NAME VALUE` or `--NAME=VALUE`. Returns `None` where the words
/// aren't allowed.
#[tactic(auto, unfolding(crate::specs::Asked::asked_of))]
pub fn read_role(
    alloc: Global,
    services: Services,
    words: &[String],
) -> Result<Option<Role>, NoMemory>
    ensures role { IfOk result (λ role. role ≡ asked_of services (map string_bytes words.now)) }
    ensures range { IfOk result (λ role. IfSome role InRange) }
{
    if let Some(role) = read_twin_role(alloc, words)? {
        return Ok(Some(Role::Twin(role)));
    }
    if let Some(role) = read_journal_role(alloc, words)? {
        return Ok(Some(Role::Journal(role)));
    }
    if let Some(role) = read_lasting(alloc, services, words)? {
        return Ok(Some(Role::Lasting(role)));
    }
    Ok(read_node_role(alloc, services, words)?.map(Role::Node))
}
