//! The entry point `node`, and the roles that it runs, with any service.

ghost use Rattle.std.specs.Prelude.{◌≡◌, ◌≤◌, ◌^◌, ◌⊎◌, ℕ, List, length, map, string_bytes, None, Some, Ok, Err, OnOk, IfErr, IsErrOf, true, false};
ghost use Rattle.ft_io.specs.Faults.{Rose};
ghost use Rattle.ft_io.specs.Source.{ConsumesAtMost};
ghost use Rattle.link_parts.specs.declared.role.ServerRole.{ServerRole};
ghost use Rattle.link_parts.specs.declared.role.ClientRole.{ClientRole};
ghost use Rattle.link_parts.specs.declared.role.LoggerRole.{LoggerRole};
ghost use Rattle.link_parts.specs.declared.role.PairRole.{PairRole};
ghost use Rattle.link_parts.specs.declared.role.NodeRole.TheVariants as roles;
ghost use Rattle.ft_model.specs.Legal.{machines};
ghost use Rattle.server_trait.specs.Service.{no_greeting};
ghost use Rattle.sample_servers.specs.AnyService.{any_started, any_after};
ghost use Rattle.link_parts.specs.Ends.{is_fault_status, UnlessFault};
ghost use Rattle.node_link.specs.Outcome.{Lives, LivesAs, HasEnded, IsStill, HasScript};
ghost use Rattle.link_parts.specs.Ranges.{InRange};
ghost use Rattle.link_parts.specs.Roles.{role_of, is_pair, reads_input};

use crate::server::run_server;
use ft_io::{Link, Sink, Source, Spawner};
use link_parts::{
    NodeEnd, NodeRole, Status, read_role, report_end, run_client, run_logger, run_pair,
};
use sample_servers::AnyService;
use server_trait::Saved;
use std::alloc::Global;

/// Runs a role, with the service `S` where it is a server.
pub fn run_role<S: Saved, L: Link, I: Source, O: Sink, P: Spawner>(
    alloc: Global,
    role: &NodeRole,
    link: &mut L,
    input: &mut I,
    out: &mut O,
    kids: &mut P,
) -> Result<(), NodeEnd>
    requires { InRange role.now }
    ensures lives { LivesAs (machines S.started S.after S.greeting) role.now result
        (record { left = I.left input.old; calls = L.reported link.old; started = P.started kids.old; spawned = P.reported kids.old; out = O.taken out.old })
        (record { left = I.left input.new; calls = L.reported link.new; started = P.started kids.new; spawned = P.reported kids.new; out = O.taken out.new }) }
    ensures same_kids { is_pair (Some role.now) ≡ false → kids.new ≡ kids.old }
    ensures unread { reads_input (Some role.now) ≡ false → input.new ≡ input.old }
    ensures same_link { is_pair (Some role.now) ≡ true → link.new ≡ link.old }
    ensures taken { ConsumesAtMost 16777217 (I.left input.old) (I.left input.new) }
    ensures read_cause { IsErrOf result NodeEnd.ReadFault → Rose (I.fault_count input.old) (I.fault_count input.new) }
    ensures bind_cause { IsErrOf result NodeEnd.LinkFault → Rose (L.bind_fault_count link.old) (L.bind_fault_count link.new) }
    ensures write_cause { IsErrOf result NodeEnd.WriteFault → Rose (O.fault_count out.old) (O.fault_count out.new) }
    ensures child_cause { IsErrOf result NodeEnd.ChildFault → Rose (P.fault_count kids.old) (P.fault_count kids.new) }
    ensures no_read_fault { UnlessFault result (I.fault_count input.new ≡ I.fault_count input.old) }
    ensures no_bind_fault { UnlessFault result (L.bind_fault_count link.new ≡ L.bind_fault_count link.old) }
    ensures no_write_fault { UnlessFault result (O.fault_count out.new ≡ O.fault_count out.old) }
    ensures no_child_fault { UnlessFault result (P.fault_count kids.new ≡ P.fault_count kids.old) }
{
    match role {
        NodeRole::Server(role) => run_server::<S, L, O>(alloc, role, link, out),
        NodeRole::Logger(role) => run_logger(alloc, role, link, out),
        NodeRole::Client(role) => run_client(alloc, role, link, input, out),
        NodeRole::Pair(role) => run_pair(alloc, role, kids, out),
    }
}

/// Runs the role that the words ask for.
fn run<L: Link, I: Source, O: Sink, P: Spawner>(
    alloc: Global,
    words: &[String],
    link: &mut L,
    input: &mut I,
    out: &mut O,
    kids: &mut P,
) -> Result<(), NodeEnd>
    ensures lives { Lives (machines any_started any_after no_greeting) (role_of (map string_bytes words.now)) result
        (record { left = I.left input.old; calls = L.reported link.old; started = P.started kids.old; spawned = P.reported kids.old; out = O.taken out.old })
        (record { left = I.left input.new; calls = L.reported link.new; started = P.started kids.new; spawned = P.reported kids.new; out = O.taken out.new }) }
    ensures same_kids { is_pair (role_of (map string_bytes words.now)) ≡ false → kids.new ≡ kids.old }
    ensures unread { reads_input (role_of (map string_bytes words.now)) ≡ false → input.new ≡ input.old }
    ensures taken { ConsumesAtMost 16777217 (I.left input.old) (I.left input.new) }
    ensures read_cause { IsErrOf result NodeEnd.ReadFault → Rose (I.fault_count input.old) (I.fault_count input.new) }
    ensures bind_cause { IsErrOf result NodeEnd.LinkFault → Rose (L.bind_fault_count link.old) (L.bind_fault_count link.new) }
    ensures write_cause { IsErrOf result NodeEnd.WriteFault → Rose (O.fault_count out.old) (O.fault_count out.new) }
    ensures child_cause { IsErrOf result NodeEnd.ChildFault → Rose (P.fault_count kids.old) (P.fault_count kids.new) }
    ensures no_read_fault { UnlessFault result (I.fault_count input.new ≡ I.fault_count input.old) }
    ensures no_bind_fault { UnlessFault result (L.bind_fault_count link.new ≡ L.bind_fault_count link.old) }
    ensures no_write_fault { UnlessFault result (O.fault_count out.new ≡ O.fault_count out.old) }
    ensures no_child_fault { UnlessFault result (P.fault_count kids.new ≡ P.fault_count kids.old) }
{
    match read_role(alloc, words)? {
        None => Err(NodeEnd::Usage),
        Some(role) => { run_role::<AnyService, L, I, O, P>(alloc, &role, link, input, out, kids) }
    }
}

/// Runs `ftnode` with these words: as a server, a logger or a client of FT-TCP over the link, or as a pair, which starts these as processes. If it stops early,
/// it writes the reason to `err`, unless a write failed. The status is 0 if a server or a logger took all its turns, a client's connection is closed in both
/// directions, or a pair's children have ended; 2 if the words aren't allowed or the client's input is longer than 2^24 bytes, 3 if an allocation failed, 4
/// if the bind failed, 5 if a write failed, 6 if a newer server fenced this one, 7 if the client's connection was reset, 8 if the client's turns ended before
/// its connection, 9 if a read failed, and 10 if a start or a wait of a pair failed.
pub fn node<L: Link, I: Source, O: Sink, E: Sink, P: Spawner>(
    alloc: Global,
    words: &[String],
    link: &mut L,
    input: &mut I,
    out: &mut O,
    err: &mut E,
    kids: &mut P,
) -> Status
    // The role decides what is read, which calls are made on the link and on kids, and what is written to out; the end decides what is written to err.
    ensures ended { HasEnded (role_of (map string_bytes words.now))
        (record { left = I.left input.old; calls = L.reported link.old; started = P.started kids.old; spawned = P.reported kids.old; out = O.taken out.old })
        (record { left = I.left input.new; calls = L.reported link.new; started = P.started kids.new; spawned = P.reported kids.new; out = O.taken out.new })
        (E.taken err.old) (E.taken err.new) result.code }
    // Only a client without a script in its words reads the input, at most one byte past the limit of a script. Only a pair starts children.
    ensures unread { reads_input (role_of (map string_bytes words.now)) ≡ false → input.new ≡ input.old }
    ensures taken { ConsumesAtMost 16777217 (I.left input.old) (I.left input.new) }
    ensures same_kids { is_pair (role_of (map string_bytes words.now)) ≡ false → kids.new ≡ kids.old }
    ensures silent { result.code ≡ 0 → err.new ≡ err.old }

    ensures read_fault { result.code ≡ 9 → Rose (I.fault_count input.old) (I.fault_count input.new) }
    ensures link_fault { result.code ≡ 4 → Rose (L.bind_fault_count link.old) (L.bind_fault_count link.new) }
    ensures write_fault { result.code ≡ 5 → Rose (O.fault_count out.old) (O.fault_count out.new) ⊎ Rose (E.fault_count err.old) (E.fault_count err.new) }
    ensures child_fault { result.code ≡ 10 → Rose (P.fault_count kids.old) (P.fault_count kids.new) }
    // At every other status no read, bind, write, start or wait has failed, not even one that was tried again.
    ensures no_read_fault { is_fault_status result.code ≡ false → I.fault_count input.new ≡ I.fault_count input.old }
    ensures no_bind_fault { is_fault_status result.code ≡ false → L.bind_fault_count link.new ≡ L.bind_fault_count link.old }
    ensures no_write_fault { is_fault_status result.code ≡ false → O.fault_count out.new ≡ O.fault_count out.old }
    ensures no_err_fault { is_fault_status result.code ≡ false → E.fault_count err.new ≡ E.fault_count err.old }
    ensures no_child_fault { is_fault_status result.code ≡ false → P.fault_count kids.new ≡ P.fault_count kids.old }

    // Where the words are allowed, a client has its script, the bind succeeded and no sink failed, a role ends early only if an allocation failed, a newer
    // server fenced it, or it is a client whose connection was reset or whose turns ended.
    ensures server { (role : ServerRole) → role_of (map string_bytes words.now) ≡ Some (roles.Server role)
        → IsStill (L.bind_fault_count link.old) (L.bind_fault_count link.new) → IsStill (O.fault_count out.old) (O.fault_count out.new)
        → IsStill (E.fault_count err.old) (E.fault_count err.new) → (result.code ≡ 0) ⊎ ((result.code ≡ 6) ⊎ (result.code ≡ 3)) }
    ensures logger { (role : LoggerRole) → role_of (map string_bytes words.now) ≡ Some (roles.Logger role)
        → IsStill (L.bind_fault_count link.old) (L.bind_fault_count link.new) → IsStill (O.fault_count out.old) (O.fault_count out.new)
        → IsStill (E.fault_count err.old) (E.fault_count err.new) → (result.code ≡ 0) ⊎ (result.code ≡ 3) }
    ensures client { (role : ClientRole) → role_of (map string_bytes words.now) ≡ Some (roles.Client role)
        → HasScript role.script (I.left input.old) (I.fault_count input.old) (I.fault_count input.new)
        → IsStill (L.bind_fault_count link.old) (L.bind_fault_count link.new)
        → IsStill (O.fault_count out.old) (O.fault_count out.new)
        → IsStill (E.fault_count err.old) (E.fault_count err.new) → (result.code ≡ 0) ⊎ ((result.code ≡ 7) ⊎ ((result.code ≡ 8) ⊎ (result.code ≡ 3))) }

    // Where the words are allowed and no start, wait or write failed, only a failed allocation ends a pair early.
    ensures pair { (role : PairRole) → role_of (map string_bytes words.now) ≡ Some (roles.Pair role)
        → IsStill (P.fault_count kids.old) (P.fault_count kids.new) → IsStill (O.fault_count out.old) (O.fault_count out.new)
        → IsStill (E.fault_count err.old) (E.fault_count err.new) → (result.code ≡ 0) ⊎ (result.code ≡ 3) }
{
    match run(alloc, words, link, input, out, kids) {
        Ok(()) => Status { code: 0 },
        Err(end) => report_end(err, end),
    }
}
