//! A server that lasts, over a link. In each turn it receives once, and hands to send all packets with which it reacts, before the next receive.

ghost use Rattle.std.specs.Prelude.{List, ◌≡◌, ◌≤◌, ◌^◌, [], ◌∷◌, take, length, IfSome, IfOk, IfErr, OnOk, OnErr, IsErrOf, MatchOption};
ghost use Rattle.std.specs.Io.KnownBytes.{Appends};
ghost use Rattle.std.specs.declared.option.Option.{Option};
ghost use Rattle.ft_io.specs.Faults.{Rose};
ghost use Rattle.ft_io.specs.Reported.{Reports};
ghost use Rattle.ft_io.specs.declared.link_call.LinkCall.{LinkCall};
ghost use Rattle.ft_io.specs.declared.link_call.LinkCall.TheVariants.{Bound};
ghost use Rattle.seq_arith.specs.declared.kinds.Grammar.{Grammar};
ghost use Rattle.ft_model.specs.Legal.{machines};
ghost use Rattle.lasting_node.specs.Turns.{lasting_input_of};
ghost use Rattle.link_parts.specs.Counts.{HasRoom};
ghost use Rattle.link_parts.specs.Ends.{UnlessFault};
ghost use Rattle.link_parts.specs.Receipt.{Received, datagram, IsQuiet};
ghost use Rattle.lasting_link.specs.LastingWords.{LastingInRange};
ghost use Rattle.lasting_link.specs.LastingLife.{lasting_input, IsLasting, LastingStops};
ghost use Rattle.lasting_link.specs.LastingParts.{HasBootedToLast, HasTurnedLasting, EndsLasting, HasServedLasting, ServingLastingStops};

use crate::role::LastingRole;
use ft_io::{Addr, Failed, Link, NoMemory, Sink};
use lasting_node::LastingNode;
use link_parts::{Counts, DATAGRAM_ROOM, Loggers, NodeEnd, receive, write_counts};
use node_link::{is_from_logger, send_all};
use node_serving::Identity;
use server_node::{Input, TurnEnd};
use server_trait::Saved;
use std::alloc::Global;

/// Returns what came as the server's input: a datagram from its logger's address is a message, any other a packet, and `None` a tick.
pub(crate) fn input_of<'a>(
    loggers: Loggers,
    came: Option<(usize, Addr)>,
    buffer: &'a [u8],
) -> Input<'a>
    requires { IfSome came (λ g. g.0 ≤ length buffer.now) }
    ensures { (grammar : Grammar) (r : Received) → MatchOption came (IsQuiet r) (λ g. r ≡ datagram g.1 (take g.0 buffer.now))
        → lasting_input_of grammar result ≡ lasting_input grammar loggers r }
{
    let Some((len, from)) = came else {
        return Input::Tick;
    };
    let bytes = &buffer[..len];
    if is_from_logger(loggers, from) {
        Input::Message(bytes)
    } else {
        Input::Packet(bytes)
    }
}

/// Takes one turn: receives once, and sends all packets with which the server reacts.
pub(crate) fn take_turn<S: Saved, L: Link>(
    alloc: Global,
    loggers: Loggers,
    node: &mut LastingNode<S>,
    link: &mut L,
    counts: &mut Counts,
) -> Result<(), TurnEnd>
    requires { HasRoom (2 ^ 65) counts.old }
    ensures turned { OnOk result (HasTurnedLasting loggers node.old node.new (L.reported link.old) (L.reported link.new) counts.old counts.new) }
    ensures stops { IfErr result (EndsLasting loggers node.old (L.reported link.old) (L.reported link.new)) }
    ensures no_bind_fault { L.bind_fault_count link.new ≡ L.bind_fault_count link.old }
{
    let mut buffer = [0; DATAGRAM_ROOM];
    let came = receive(link, &mut buffer, counts);
    node.turn(alloc, input_of(loggers, came, &buffer))?;
    send_all(link, loggers, node.sent(), counts);
    Ok(())
}

/// Boots a server, and sends the packets of its boot.
pub(crate) fn boot<S: Saved, L: Link>(
    alloc: Global,
    role: &LastingRole,
    link: &mut L,
    counts: &mut Counts,
) -> Result<LastingNode<S>, NoMemory>
    requires range { LastingInRange role.now }
    requires room { HasRoom (2 ^ 65) counts.old }
    ensures booted { IfOk result (λ node. HasBootedToLast role.now node (L.reported link.old) (L.reported link.new) counts.old counts.new) }
    ensures lost { OnErr result (L.reported link.new ≡ L.reported link.old) }
    ensures no_bind_fault { L.bind_fault_count link.new ≡ L.bind_fault_count link.old }
{
    let who = Identity {
        boot: role.server.boot,
        isn: role.server.isn,
        kind: role.server.kind(),
        local: role.server.local,
        profile: role.server.profile,
    };
    let node = LastingNode::boot(alloc, who, role.patience)?;
    send_all(link, role.server.loggers, node.sent(), counts);
    Ok(node)
}

/// Boots, takes all turns, and returns the counts of their calls.
fn serve<S: Saved, L: Link>(
    alloc: Global,
    role: &LastingRole,
    link: &mut L,
) -> Result<Counts, TurnEnd>
    requires { LastingInRange role.now }
    ensures served { IfOk result (λ counts.
        HasServedLasting (machines S.started S.after S.greeting) role.now (L.reported link.old) (L.reported link.new) counts) }
    ensures stops { IfErr result (ServingLastingStops (machines S.started S.after S.greeting) role.now (L.reported link.old) (L.reported link.new)) }
    ensures no_bind_fault { L.bind_fault_count link.new ≡ L.bind_fault_count link.old }
{
    let mut counts = Counts::new();
    let mut node = boot::<S, L>(alloc, role, link, &mut counts)?;
    for _turn in 0..role.server.turns {
        take_turn(alloc, role.server.loggers, &mut node, link, &mut counts)?;
    }
    Ok(counts)
}

/// Runs a server after its bind: boots, takes its turns, and writes the line of the counts.
fn serve_and_report<S: Saved, L: Link, O: Sink>(
    alloc: Global,
    role: &LastingRole,
    link: &mut L,
    out: &mut O,
) -> Result<(), NodeEnd>
    requires { LastingInRange role.now }
    ensures done { OnOk result ((before : Option (List LinkCall)) → Reports before (L.reported link.old) (Bound role.now.server.local ∷ [])
        → IsLasting (machines S.started S.after S.greeting) role.now before (L.reported link.new) (Appends (O.taken out.old) (O.taken out.new))) }
    ensures stops { IfErr result (λ end. (before : Option (List LinkCall)) → Reports before (L.reported link.old) (Bound role.now.server.local ∷ [])
        → LastingStops (machines S.started S.after S.greeting) role.now before (L.reported link.new) (O.taken out.old) (O.taken out.new) end) }
    ensures write_cause { IsErrOf result NodeEnd.WriteFault → Rose (O.fault_count out.old) (O.fault_count out.new) }
    ensures bound { IsErrOf result NodeEnd.LinkFault → ⊥ }
    ensures no_bind_fault { L.bind_fault_count link.new ≡ L.bind_fault_count link.old }
    ensures no_write_fault { UnlessFault result (O.fault_count out.new ≡ O.fault_count out.old) }
{
    match serve::<S, L>(alloc, role, link) {
        Err(TurnEnd::NoMemory) => Err(NodeEnd::NoMemory),
        Err(TurnEnd::Fenced { newer }) => Err(NodeEnd::Fenced { newer }),
        Ok(counts) => write_counts(alloc, &counts, out),
    }
}

/// Runs a server that lasts: binds, boots, takes its turns, and writes the counts of their calls.
pub fn run_lasting<S: Saved, L: Link, O: Sink>(
    alloc: Global,
    role: &LastingRole,
    link: &mut L,
    out: &mut O,
) -> Result<(), NodeEnd>
    requires { LastingInRange role.now }
    ensures done { OnOk result (IsLasting (machines S.started S.after S.greeting) role.now (L.reported link.old) (L.reported link.new)
        (Appends (O.taken out.old) (O.taken out.new))) }
    ensures stops { IfErr result (LastingStops (machines S.started S.after S.greeting) role.now (L.reported link.old) (L.reported link.new) (O.taken out.old)
        (O.taken out.new)) }
    ensures bind_cause { IsErrOf result NodeEnd.LinkFault → Rose (L.bind_fault_count link.old) (L.bind_fault_count link.new) }
    ensures write_cause { IsErrOf result NodeEnd.WriteFault → Rose (O.fault_count out.old) (O.fault_count out.new) }
    ensures no_bind_fault { UnlessFault result (L.bind_fault_count link.new ≡ L.bind_fault_count link.old) }
    ensures no_write_fault { UnlessFault result (O.fault_count out.new ≡ O.fault_count out.old) }
{
    match link.bind(role.server.local) {
        Err(Failed) => Err(NodeEnd::LinkFault),
        Ok(()) => serve_and_report::<S, L, O>(alloc, role, link, out),
    }
}
