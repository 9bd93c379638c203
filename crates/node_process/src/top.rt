//! The entry point: `run`.

ghost use Rattle.std.specs.Prelude.{◌≡◌, ◌≤◌, ◌⊎◌, List, map, string_bytes, Some, Err, true, false};
ghost use Rattle.ft_io.specs.Faults.{Rose};
ghost use Rattle.ft_io.specs.Source.{ConsumesAtMost};
ghost use Rattle.ft_model.specs.Legal.{machines};
ghost use Rattle.journal_parts.specs.Ends.{UnlessFault};
ghost use Rattle.node_process.specs.Asked.{asked_of, InRange, uses_link, uses_input, uses_children, uses_desk};
ghost use Rattle.link_parts.specs.Ends.{is_fault_status};
ghost use Rattle.node_process.specs.Causes.{HasCause, NothingFails, MayEnd, binds_of};
ghost use Rattle.node_process.specs.Run.{RunsAs, Runs, HasRun};

use crate::process::Process;
use crate::role::{Role, Services, read_role};
use chain_parts::{TwinRole, run_notifier, run_part};
use disk::Desk;
use ft_io::{Link, Sink, Source, Spawner};
use journal_parts::{ProcessEnd, report_end, run_keeper};
use lasting_link::run_lasting;
use link_parts::{NodeEnd, Status};
use node_link::run_role;
use server_trait::Saved;
use std::alloc::Global;

/// Runs a role, with the service `S` where it is a server.
fn run_as<S: Saved, L: Link, I: Source, O: Sink, E: Sink, P: Spawner, K: Desk>(
    alloc: Global,
    role: &Role,
    process: &mut Process<L, I, O, E, P, K>,
) -> Result<(), ProcessEnd>
    requires { InRange role.now }
    ensures runs { RunsAs (machines S.started S.after S.greeting) role.now result
        (record {
          given = record {
            left = I.left process.old.input;
            calls = L.reported process.old.link;
            started = P.started process.old.children;
            spawned = P.reported process.old.children;
            out = O.taken process.old.out;
          };
          desk = K.reported process.old.desk;
          files = K.file_of process.old.desk;
          err = E.taken process.old.err;
        })
        (record {
          given = record {
            left = I.left process.new.input;
            calls = L.reported process.new.link;
            started = P.started process.new.children;
            spawned = P.reported process.new.children;
            out = O.taken process.new.out;
          };
          desk = K.reported process.new.desk;
          files = K.file_of process.new.desk;
          err = E.taken process.new.err;
        }) }
    ensures taken { ConsumesAtMost 16777217 (I.left process.old.input) (I.left process.new.input) }
    ensures same_link { uses_link (Some role.now) ≡ false → process.new.link ≡ process.old.link }
    ensures same_input { uses_input (Some role.now) ≡ false → process.new.input ≡ process.old.input }
    ensures same_children { uses_children (Some role.now) ≡ false → process.new.children ≡ process.old.children }
    ensures same_desk { uses_desk (Some role.now) ≡ false → process.new.desk ≡ process.old.desk }
    ensures read_cause { result ≡ Err (ProcessEnd.Node NodeEnd.ReadFault) → Rose (I.fault_count process.old.input) (I.fault_count process.new.input) }
    ensures bind_cause { result ≡ Err (ProcessEnd.Node NodeEnd.LinkFault) → uses_link (Some role.now) ≡ true
        → Rose (L.bind_fault_count process.old.link) (L.bind_fault_count process.new.link) }
    ensures desk_bind_cause { result ≡ Err (ProcessEnd.Node NodeEnd.LinkFault) → uses_desk (Some role.now) ≡ true
        → Rose (K.beside process.old.desk).bind_faults (K.beside process.new.desk).bind_faults }
    ensures write_cause { result ≡ Err (ProcessEnd.Node NodeEnd.WriteFault) → Rose (O.fault_count process.old.out) (O.fault_count process.new.out)
        ⊎ Rose (E.fault_count process.old.err) (E.fault_count process.new.err) }
    ensures child_cause { result ≡ Err (ProcessEnd.Node NodeEnd.ChildFault) → Rose (P.fault_count process.old.children) (P.fault_count process.new.children) }
    ensures journal_cause { result ≡ Err ProcessEnd.JournalFault → Rose (K.fault_count process.old.desk) (K.fault_count process.new.desk) }
    ensures in_use { result ≡ Err ProcessEnd.InUse → Rose (K.beside process.old.desk).refusals (K.beside process.new.desk).refusals }
    ensures no_read_fault { UnlessFault result (I.fault_count process.new.input ≡ I.fault_count process.old.input) }
    ensures no_bind_fault { UnlessFault result (L.bind_fault_count process.new.link ≡ L.bind_fault_count process.old.link) }
    ensures no_desk_bind_fault { UnlessFault result ((K.beside process.new.desk).bind_faults ≡ (K.beside process.old.desk).bind_faults) }
    ensures no_write_fault { UnlessFault result (O.fault_count process.new.out ≡ O.fault_count process.old.out) }
    ensures no_child_fault { UnlessFault result (P.fault_count process.new.children ≡ P.fault_count process.old.children) }
    ensures no_error { UnlessFault result (E.fault_count process.new.err ≡ E.fault_count process.old.err) }
    ensures errors_never_fall { E.fault_count process.old.err ≤ E.fault_count process.new.err }
    ensures same_err { uses_desk (Some role.now) ≡ false → process.new.err ≡ process.old.err }
{
    let Process {
        link,
        input,
        out,
        err,
        children,
        desk,
    } = process;
    match role {
        Role::Node(role) => Ok(run_role::<S, L, I, O, P>(alloc, role, link, input, out, children)?),
        Role::Lasting(role) => Ok(run_lasting::<S, L, O>(alloc, role, link, out)?),
        Role::Journal(role) => run_keeper(alloc, role, desk, out, err),
        Role::Twin(TwinRole::Logger(role)) => Ok(run_part(alloc, role, link, out)?),
        Role::Twin(TwinRole::Alone(role)) => Ok(run_notifier(role, link, out)?),
    }
}

/// Runs the role that the words ask for.
fn run_words<S: Saved, L: Link, I: Source, O: Sink, E: Sink, P: Spawner, K: Desk>(
    alloc: Global,
    services: Services,
    words: &[String],
    process: &mut Process<L, I, O, E, P, K>,
) -> Result<(), ProcessEnd>
    ensures runs { Runs (machines S.started S.after S.greeting) (asked_of services (map string_bytes words.now)) result
        (record {
          given = record {
            left = I.left process.old.input;
            calls = L.reported process.old.link;
            started = P.started process.old.children;
            spawned = P.reported process.old.children;
            out = O.taken process.old.out;
          };
          desk = K.reported process.old.desk;
          files = K.file_of process.old.desk;
          err = E.taken process.old.err;
        })
        (record {
          given = record {
            left = I.left process.new.input;
            calls = L.reported process.new.link;
            started = P.started process.new.children;
            spawned = P.reported process.new.children;
            out = O.taken process.new.out;
          };
          desk = K.reported process.new.desk;
          files = K.file_of process.new.desk;
          err = E.taken process.new.err;
        }) }
    ensures taken { ConsumesAtMost 16777217 (I.left process.old.input) (I.left process.new.input) }
    ensures same_link { uses_link (asked_of services (map string_bytes words.now)) ≡ false → process.new.link ≡ process.old.link }
    ensures same_input { uses_input (asked_of services (map string_bytes words.now)) ≡ false → process.new.input ≡ process.old.input }
    ensures same_children { uses_children (asked_of services (map string_bytes words.now)) ≡ false → process.new.children ≡ process.old.children }
    ensures same_desk { uses_desk (asked_of services (map string_bytes words.now)) ≡ false → process.new.desk ≡ process.old.desk }
    ensures read_cause { result ≡ Err (ProcessEnd.Node NodeEnd.ReadFault) → Rose (I.fault_count process.old.input) (I.fault_count process.new.input) }
    ensures bind_cause { result ≡ Err (ProcessEnd.Node NodeEnd.LinkFault) → uses_link (asked_of services (map string_bytes words.now)) ≡ true
        → Rose (L.bind_fault_count process.old.link) (L.bind_fault_count process.new.link) }
    ensures desk_bind_cause { result ≡ Err (ProcessEnd.Node NodeEnd.LinkFault) → uses_desk (asked_of services (map string_bytes words.now)) ≡ true
        → Rose (K.beside process.old.desk).bind_faults (K.beside process.new.desk).bind_faults }
    ensures write_cause { result ≡ Err (ProcessEnd.Node NodeEnd.WriteFault) → Rose (O.fault_count process.old.out) (O.fault_count process.new.out)
        ⊎ Rose (E.fault_count process.old.err) (E.fault_count process.new.err) }
    ensures child_cause { result ≡ Err (ProcessEnd.Node NodeEnd.ChildFault) → Rose (P.fault_count process.old.children) (P.fault_count process.new.children) }
    ensures journal_cause { result ≡ Err ProcessEnd.JournalFault → Rose (K.fault_count process.old.desk) (K.fault_count process.new.desk) }
    ensures in_use { result ≡ Err ProcessEnd.InUse → Rose (K.beside process.old.desk).refusals (K.beside process.new.desk).refusals }
    ensures no_read_fault { UnlessFault result (I.fault_count process.new.input ≡ I.fault_count process.old.input) }
    ensures no_bind_fault { UnlessFault result (L.bind_fault_count process.new.link ≡ L.bind_fault_count process.old.link) }
    ensures no_desk_bind_fault { UnlessFault result ((K.beside process.new.desk).bind_faults ≡ (K.beside process.old.desk).bind_faults) }
    ensures no_write_fault { UnlessFault result (O.fault_count process.new.out ≡ O.fault_count process.old.out) }
    ensures no_child_fault { UnlessFault result (P.fault_count process.new.children ≡ P.fault_count process.old.children) }
    ensures no_error { UnlessFault result (E.fault_count process.new.err ≡ E.fault_count process.old.err) }
    ensures errors_never_fall { E.fault_count process.old.err ≤ E.fault_count process.new.err }
    ensures same_err { uses_desk (asked_of services (map string_bytes words.now)) ≡ false → process.new.err ≡ process.old.err }
{
    match read_role(alloc, services, words)? {
        None => Err(ProcessEnd::Node(NodeEnd::Usage)),
        Some(role) => run_as::<S, L, I, O, E, P, K>(alloc, &role, process),
    }
}

/// Runs a process, and writes the line of its end if it ends early.
#[tactic(auto, using(crate::proofs::Reported::write_failed, crate::proofs::Reported::rose_by_then, crate::proofs::Reported::rose_before))]
fn run_and_report<S: Saved, L: Link, I: Source, O: Sink, E: Sink, P: Spawner, K: Desk>(
    alloc: Global,
    services: Services,
    words: &[String],
    process: &mut Process<L, I, O, E, P, K>,
) -> Status
    // By its role: how it ended, the calls that it made, and what it wrote.
    ensures did { HasRun (machines S.started S.after S.greeting) (asked_of services (map string_bytes words.now))
        (record {
          given = record {
            left = I.left process.old.input;
            calls = L.reported process.old.link;
            started = P.started process.old.children;
            spawned = P.reported process.old.children;
            out = O.taken process.old.out;
          };
          desk = K.reported process.old.desk;
          files = K.file_of process.old.desk;
          err = E.taken process.old.err;
        })
        (record {
          given = record {
            left = I.left process.new.input;
            calls = L.reported process.new.link;
            started = P.started process.new.children;
            spawned = P.reported process.new.children;
            out = O.taken process.new.out;
          };
          desk = K.reported process.new.desk;
          files = K.file_of process.new.desk;
          err = E.taken process.new.err;
        }) result.code }
    // What its role doesn't use stays as it is. A client reads at most one byte past the limit of a script.
    ensures same_link { uses_link (asked_of services (map string_bytes words.now)) ≡ false → process.new.link ≡ process.old.link }
    ensures same_input { uses_input (asked_of services (map string_bytes words.now)) ≡ false → process.new.input ≡ process.old.input }
    ensures same_children { uses_children (asked_of services (map string_bytes words.now)) ≡ false → process.new.children ≡ process.old.children }
    ensures same_desk { uses_desk (asked_of services (map string_bytes words.now)) ≡ false → process.new.desk ≡ process.old.desk }
    ensures taken { ConsumesAtMost 16777217 (I.left process.old.input) (I.left process.new.input) }
    // A logger with a journal may say how many bytes it has cut off.
    ensures silent { result.code ≡ 0 → uses_desk (asked_of services (map string_bytes words.now)) ≡ false → process.new.err ≡ process.old.err }
    // Which calls have failed.
    ensures bind { result.code ≡ 4 → Rose (binds_of (asked_of services (map string_bytes words.now))
        (record {
          reads = I.fault_count process.old.input;
          binds = L.bind_fault_count process.old.link;
          writes = O.fault_count process.old.out;
          errors = E.fault_count process.old.err;
          children = P.fault_count process.old.children;
          journal = K.fault_count process.old.desk;
          desk_binds = (K.beside process.old.desk).bind_faults;
          refusals = (K.beside process.old.desk).refusals;
        })) (binds_of (asked_of services (map string_bytes words.now))
        (record {
          reads = I.fault_count process.new.input;
          binds = L.bind_fault_count process.new.link;
          writes = O.fault_count process.new.out;
          errors = E.fault_count process.new.err;
          children = P.fault_count process.new.children;
          journal = K.fault_count process.new.desk;
          desk_binds = (K.beside process.new.desk).bind_faults;
          refusals = (K.beside process.new.desk).refusals;
        })) }
    ensures write { result.code ≡ 5 → Rose (O.fault_count process.old.out) (O.fault_count process.new.out)
        ⊎ Rose (E.fault_count process.old.err) (E.fault_count process.new.err) }
    ensures read { result.code ≡ 9 → Rose (I.fault_count process.old.input) (I.fault_count process.new.input) }
    ensures child { result.code ≡ 10 → Rose (P.fault_count process.old.children) (P.fault_count process.new.children) }
    ensures journal { result.code ≡ 11 → Rose (K.fault_count process.old.desk) (K.fault_count process.new.desk) }
    ensures in_use { result.code ≡ 13 → Rose (K.beside process.old.desk).refusals (K.beside process.new.desk).refusals }
    ensures no_bind { is_fault_status result.code ≡ false → L.bind_fault_count process.new.link ≡ L.bind_fault_count process.old.link }
    ensures no_desk_bind { is_fault_status result.code ≡ false → (K.beside process.new.desk).bind_faults ≡ (K.beside process.old.desk).bind_faults }
    ensures no_write { is_fault_status result.code ≡ false → O.fault_count process.new.out ≡ O.fault_count process.old.out }
    ensures no_error { is_fault_status result.code ≡ false → E.fault_count process.new.err ≡ E.fault_count process.old.err }
    ensures no_read { is_fault_status result.code ≡ false → I.fault_count process.new.input ≡ I.fault_count process.old.input }
    ensures no_child { is_fault_status result.code ≡ false → P.fault_count process.new.children ≡ P.fault_count process.old.children }
    // How a role ends where its words are allowed and none of its calls fails.
    ensures early { (role : Role) → asked_of services (map string_bytes words.now) ≡ Some role → NothingFails role (I.left process.old.input)
        (record {
          reads = I.fault_count process.old.input;
          binds = L.bind_fault_count process.old.link;
          writes = O.fault_count process.old.out;
          errors = E.fault_count process.old.err;
          children = P.fault_count process.old.children;
          journal = K.fault_count process.old.desk;
          desk_binds = (K.beside process.old.desk).bind_faults;
          refusals = (K.beside process.old.desk).refusals;
        })
        (record {
          reads = I.fault_count process.new.input;
          binds = L.bind_fault_count process.new.link;
          writes = O.fault_count process.new.out;
          errors = E.fault_count process.new.err;
          children = P.fault_count process.new.children;
          journal = K.fault_count process.new.desk;
          desk_binds = (K.beside process.new.desk).bind_faults;
          refusals = (K.beside process.new.desk).refusals;
        }) → MayEnd role result.code }
{
    match run_words::<S, L, I, O, E, P, K>(alloc, services, words, process) {
        Ok(()) => Status { code: 0 },
        Err(end) => report_end(&mut process.err, end),
    }
}

/// Runs a process with these words: as a server, a logger or a client of FT-TCP, or as a pair, which starts these as processes, all as
/// [`node`](node_link::node) does; as a server that lasts, by `--forget`; as a logger that keeps its log in the file of `--journal`; as one of two loggers that
/// act as one, by `--part` and `--other`; or as `alone`, which informs one of them that the other has stopped. A server's service is `S`. If a role stops
/// early, the reason is written to standard error, unless a write failed.
///
/// The status is 0 if all was done, 2 if the words aren't allowed or the input is longer than 2^24 bytes, 3 if an allocation failed, 4 if the bind failed, 5 if
/// a write failed, 6 if a newer server fenced this one, 7 if the client's connection was reset, 8 if the client's turns ended before its connection, 9 if a
/// read failed, 10 if a start of a pair's child or a wait for one failed, 11 if a call on the journal's file failed, 12 if the file is no journal or is
/// damaged, or is missing and wasn't to be made, or is there and was, and 13 if another process has it open.
pub fn run<S: Saved, L: Link, I: Source, O: Sink, E: Sink, P: Spawner, K: Desk>(
    alloc: Global,
    services: Services,
    words: &[String],
    process: &mut Process<L, I, O, E, P, K>,
) -> Status
    // By its role: how it ended, the calls that it made, and what it wrote.
    ensures did { HasRun (machines S.started S.after S.greeting) (asked_of services (map string_bytes words.now))
        (record {
          given = record {
            left = I.left process.old.input;
            calls = L.reported process.old.link;
            started = P.started process.old.children;
            spawned = P.reported process.old.children;
            out = O.taken process.old.out;
          };
          desk = K.reported process.old.desk;
          files = K.file_of process.old.desk;
          err = E.taken process.old.err;
        })
        (record {
          given = record {
            left = I.left process.new.input;
            calls = L.reported process.new.link;
            started = P.started process.new.children;
            spawned = P.reported process.new.children;
            out = O.taken process.new.out;
          };
          desk = K.reported process.new.desk;
          files = K.file_of process.new.desk;
          err = E.taken process.new.err;
        }) result.code }
    // What its role doesn't use stays as it is. A client reads at most one byte past the limit of a script.
    ensures same_link { uses_link (asked_of services (map string_bytes words.now)) ≡ false → process.new.link ≡ process.old.link }
    ensures same_input { uses_input (asked_of services (map string_bytes words.now)) ≡ false → process.new.input ≡ process.old.input }
    ensures same_children { uses_children (asked_of services (map string_bytes words.now)) ≡ false → process.new.children ≡ process.old.children }
    ensures same_desk { uses_desk (asked_of services (map string_bytes words.now)) ≡ false → process.new.desk ≡ process.old.desk }
    ensures taken { ConsumesAtMost 16777217 (I.left process.old.input) (I.left process.new.input) }
    // A logger with a journal may say how many bytes it has cut off.
    ensures silent { result.code ≡ 0 → uses_desk (asked_of services (map string_bytes words.now)) ≡ false → process.new.err ≡ process.old.err }
    // Which calls have failed.
    ensures caused { HasCause (asked_of services (map string_bytes words.now))
        (record {
          reads = I.fault_count process.old.input;
          binds = L.bind_fault_count process.old.link;
          writes = O.fault_count process.old.out;
          errors = E.fault_count process.old.err;
          children = P.fault_count process.old.children;
          journal = K.fault_count process.old.desk;
          desk_binds = (K.beside process.old.desk).bind_faults;
          refusals = (K.beside process.old.desk).refusals;
        })
        (record {
          reads = I.fault_count process.new.input;
          binds = L.bind_fault_count process.new.link;
          writes = O.fault_count process.new.out;
          errors = E.fault_count process.new.err;
          children = P.fault_count process.new.children;
          journal = K.fault_count process.new.desk;
          desk_binds = (K.beside process.new.desk).bind_faults;
          refusals = (K.beside process.new.desk).refusals;
        }) result.code }
    // How a role ends where its words are allowed and none of its calls fails.
    ensures early { (role : Role) → asked_of services (map string_bytes words.now) ≡ Some role → NothingFails role (I.left process.old.input)
        (record {
          reads = I.fault_count process.old.input;
          binds = L.bind_fault_count process.old.link;
          writes = O.fault_count process.old.out;
          errors = E.fault_count process.old.err;
          children = P.fault_count process.old.children;
          journal = K.fault_count process.old.desk;
          desk_binds = (K.beside process.old.desk).bind_faults;
          refusals = (K.beside process.old.desk).refusals;
        })
        (record {
          reads = I.fault_count process.new.input;
          binds = L.bind_fault_count process.new.link;
          writes = O.fault_count process.new.out;
          errors = E.fault_count process.new.err;
          children = P.fault_count process.new.children;
          journal = K.fault_count process.new.desk;
          desk_binds = (K.beside process.new.desk).bind_faults;
          refusals = (K.beside process.new.desk).refusals;
        }) → MayEnd role result.code }
{
    run_and_report::<S, L, I, O, E, P, K>(alloc, services, words, process)
}
