//! One of two loggers over a link. In each turn it receives once, and hands to send all datagrams with which it reacts, before the next receive.

ghost use Rattle.std.specs.Prelude.{◌≡◌, ◌≤◌, ◌^◌, [], ◌∷◌, List, OnOk, OnErr, IfOk, IfErr, IsErrOf};
ghost use Rattle.std.specs.Io.KnownBytes.{Appends};
ghost use Rattle.std.specs.declared.option.Option.{Option};
ghost use Rattle.ft_io.specs.Faults.{Rose};
ghost use Rattle.ft_io.specs.Reported.{Reports};
ghost use Rattle.ft_io.specs.declared.link_call.LinkCall.{LinkCall};
ghost use Rattle.ft_io.specs.declared.link_call.LinkCall.TheVariants.{Bound};
ghost use Rattle.link_parts.specs.Counts.{HasRoom};
ghost use Rattle.link_parts.specs.Ends.{UnlessFault};
ghost use Rattle.link_parts.specs.LoggerParts.{IsCutOff};
ghost use Rattle.twin_laws.specs.StoredState.{left_alone};
ghost use Rattle.chain_parts.specs.PartTurns.{says_alone as says_alone_lem, side_of as side_of_lem, server_after, at_start, receipt};
ghost use Rattle.chain_parts.specs.PartLife.{IsPart, PartStops};
ghost use Rattle.chain_parts.specs.PartSteps.{standing_of, HasTurned, HasServed, IsCutServing};
ghost use Rattle.link_parts.specs.Ranges.{most_turns};

use crate::pair_role::PartRole;
use crate::sending::send_all;
use ft_io::{Addr, Failed, Link, NoMemory, Sink};
use link_parts::{Counts, DATAGRAM_ROOM, NodeEnd, receive, write_counts};
use logger_wire::{Grammar, TwinMsg, read_twin};
use std::alloc::Global;
use twin_log::{Part, Side, TwinLog, TwinOut};

/// A logger of a pair, with what it sends in a turn.
#[derive(Drop)]
pub(crate) struct Twin {
    log: TwinLog,
    /// The server's address: the last one, apart from the other logger's, that sent a datagram which isn't an Alone. None before the first.
    server: Option<Addr>,
    out: TwinOut,
}

/// Whether the bytes are an Alone, by which a logger learns that the other has stopped. It is the same whatever grammar the loggers' messages have.
fn is_stop_notice(bytes: &[u8]) -> bool
    ensures { result ≡ says_alone_lem bytes.now }
{
    matches!(read_twin(bytes), Ok(TwinMsg::Alone))
}

/// Serves alone from now on, since the other logger has stopped. If it does already, nothing changes.
fn serve_alone(log: &mut TwinLog)
    ensures { log.new ≡ left_alone log.old }
{
    if !log.is_alone() {
        log.alone();
    }
}

/// Returns the side that sends from this address.
fn side_of(other: Addr, from: Addr) -> Side
    ensures { result ≡ side_of_lem other from }
{
    if from.ip == other.ip && from.port == other.port {
        Side::Other
    } else {
        Side::Server
    }
}

fn server_after_side(side: Side, from: Addr, server: Option<Addr>) -> Option<Addr>
    ensures { result ≡ server_after side from server }
{
    match side {
        Side::Server => Some(from),
        Side::Other => server,
    }
}

/// Takes a datagram. What is then to be sent is in the logger's `out`.
pub(crate) fn take(
    alloc: Global,
    other: Addr,
    twin: &mut Twin,
    from: Addr,
    bytes: &[u8],
) -> Result<(), NoMemory>
    ensures next { OnOk result (standing_of twin.new ≡ (receipt other from bytes.now (standing_of twin.old)).next) }
    ensures sent { OnOk result (twin.new.out ≡ (receipt other from bytes.now (standing_of twin.old)).sent) }
{
    if is_stop_notice(bytes) {
        serve_alone(&mut twin.log);
        twin.out.clear();
        return Ok(());
    }
    let side = side_of(other, from);
    twin.server = server_after_side(side, from, twin.server);
    twin.log.deliver(alloc, side, bytes, &mut twin.out)
}

/// Takes one turn: receives once, and sends all datagrams with which the logger reacts.
fn take_turn<L: Link>(
    alloc: Global,
    other: Addr,
    link: &mut L,
    twin: &mut Twin,
    counts: &mut Counts,
) -> Result<(), NoMemory>
    requires { HasRoom (2 ^ 64) counts.old }
    ensures turned { OnOk result (HasTurned other (standing_of twin.old) (standing_of twin.new) (L.reported link.old)
        (L.reported link.new) counts.old counts.new) }
    ensures cut_off { OnErr result ((calls : List LinkCall) × IsCutOff calls × Reports (L.reported link.old) (L.reported link.new) calls) }
    ensures no_bind_fault { L.bind_fault_count link.new ≡ L.bind_fault_count link.old }
{
    let mut buffer = [0; DATAGRAM_ROOM];
    let Some((len, from)) = receive(link, &mut buffer, counts) else {
        return Ok(());
    };
    take(alloc, other, twin, from, &buffer[..len])?;
    send_all(link, twin.server, other, &twin.out, counts);
    Ok(())
}

/// A new logger of a pair, of a server whose messages have this grammar.
fn new_twin(alloc: Global, grammar: Grammar, part: Part) -> Result<Twin, NoMemory>
    ensures { IfOk result (λ twin. standing_of twin ≡ at_start grammar part) }
{
    Ok(Twin {
        log: TwinLog::new_by(alloc, grammar, part)?,
        server: None,
        out: TwinOut::new(alloc)?,
    })
}

/// Takes all turns of a new logger, and returns the counts of their calls.
fn serve<L: Link>(alloc: Global, role: &PartRole, link: &mut L) -> Result<Counts, NoMemory>
    requires { role.now.logger.turns ≤ most_turns }
    ensures served { IfOk result (λ counts. HasServed role.now (L.reported link.old) (L.reported link.new) counts) }
    ensures cut_off { OnErr result (IsCutServing role.now (L.reported link.old) (L.reported link.new)) }
    ensures no_bind_fault { L.bind_fault_count link.new ≡ L.bind_fault_count link.old }
{
    let mut twin = new_twin(alloc, role.logger.profile.grammar(), role.part)?;
    let mut counts = Counts::new();
    for _turn in 0..role.logger.turns {
        take_turn(alloc, role.other, link, &mut twin, &mut counts)?;
    }
    Ok(counts)
}

/// Runs a logger of a pair after its bind: takes its turns, and writes the line of the counts.
fn serve_and_report<L: Link, O: Sink>(
    alloc: Global,
    role: &PartRole,
    link: &mut L,
    out: &mut O,
) -> Result<(), NodeEnd>
    requires { role.now.logger.turns ≤ most_turns }
    ensures done { OnOk result ((before : Option (List LinkCall)) → Reports before (L.reported link.old) (Bound role.now.logger.local ∷ [])
        → IsPart role.now before (L.reported link.new) (Appends (O.taken out.old) (O.taken out.new))) }
    ensures stops { IfErr result (λ end. (before : Option (List LinkCall)) → Reports before (L.reported link.old) (Bound role.now.logger.local ∷ [])
        → PartStops role.now before (L.reported link.new) (O.taken out.old) (O.taken out.new) end) }
    ensures write_cause { IsErrOf result NodeEnd.WriteFault → Rose (O.fault_count out.old) (O.fault_count out.new) }
    ensures bound { IsErrOf result NodeEnd.LinkFault → ⊥ }
    ensures no_bind_fault { L.bind_fault_count link.new ≡ L.bind_fault_count link.old }
    ensures no_write_fault { UnlessFault result (O.fault_count out.new ≡ O.fault_count out.old) }
{
    match serve(alloc, role, link) {
        Err(NoMemory) => Err(NodeEnd::NoMemory),
        Ok(counts) => write_counts(alloc, &counts, out),
    }
}

/// Runs a logger of a pair: binds, takes its turns, and writes the counts of their calls.
pub fn run_part<L: Link, O: Sink>(
    alloc: Global,
    role: &PartRole,
    link: &mut L,
    out: &mut O,
) -> Result<(), NodeEnd>
    requires { role.now.logger.turns ≤ most_turns }
    ensures done { OnOk result (IsPart role.now (L.reported link.old) (L.reported link.new) (Appends (O.taken out.old) (O.taken out.new))) }
    ensures stops { IfErr result (PartStops role.now (L.reported link.old) (L.reported link.new) (O.taken out.old) (O.taken out.new)) }
    ensures bind_cause { IsErrOf result NodeEnd.LinkFault → Rose (L.bind_fault_count link.old) (L.bind_fault_count link.new) }
    ensures write_cause { IsErrOf result NodeEnd.WriteFault → Rose (O.fault_count out.old) (O.fault_count out.new) }
    ensures no_bind_fault { UnlessFault result (L.bind_fault_count link.new ≡ L.bind_fault_count link.old) }
    ensures no_write_fault { UnlessFault result (O.fault_count out.new ≡ O.fault_count out.old) }
{
    match link.bind(role.logger.local) {
        Err(Failed) => Err(NodeEnd::LinkFault),
        Ok(()) => serve_and_report(alloc, role, link, out),
    }
}
