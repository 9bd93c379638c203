//! Wrong results that the contracts of this crate exclude. Each function calls another one of the crate, and promises of its result what a wrong body would
//! make false. It is proved from the other's contract alone, so it is no longer proved once that contract lets the wrong body pass.

ghost use Rattle.std.specs.Prelude.{◌≡◌, Some, map, string_bytes};
ghost use Rattle.journal_parts.specs.declared.role.JournalRole.{JournalRole};
ghost use Rattle.chain_parts.specs.declared.pair_role.TwinRole.{TwinRole};
ghost use Rattle.node_process.specs.Asked.{asked_of};
ghost use Rattle.node_process.specs.declared.role.Role.TheVariants as roles;

use crate::process::Process;
use crate::role::Services;
use crate::top::run;
use disk::Desk;
use ft_io::{Link, Sink, Source, Spawner};
use link_parts::Status;
use server_trait::Saved;
use std::alloc::Global;

/// The words of a logger with a journal start one, whatever the service: it uses its desk and leaves the link as it is, on which a logger without a journal
/// would bind: the clause `same_link` of `run`.
fn keeps_no_journal<S: Saved, L: Link, I: Source, O: Sink, E: Sink, P: Spawner, K: Desk>(
    alloc: Global,
    services: Services,
    words: &[String],
    process: &mut Process<L, I, O, E, P, K>,
) -> Status
    ensures { (role : JournalRole) → asked_of services (map string_bytes words.now) ≡ Some (roles.Journal role) → process.new.link ≡ process.old.link }
{
    run::<S, L, I, O, E, P, K>(alloc, services, words, process)
}

/// One of two loggers keeps no journal: the clause `same_desk` of `run`.
fn keeps_a_journal_of_two<S: Saved, L: Link, I: Source, O: Sink, E: Sink, P: Spawner, K: Desk>(
    alloc: Global,
    services: Services,
    words: &[String],
    process: &mut Process<L, I, O, E, P, K>,
) -> Status
    ensures { (role : TwinRole) → asked_of services (map string_bytes words.now) ≡ Some (roles.Twin role) → process.new.desk ≡ process.old.desk }
{
    run::<S, L, I, O, E, P, K>(alloc, services, words, process)
}
