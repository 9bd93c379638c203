//! The server: a node over a link. In each turn it receives once, and hands to send all packets with which the node reacts, before the next
//! receive.

ghost use Rattle.std.specs.Prelude.{List, ◌≡◌, ◌<◌, ◌≤◌, ◌*◌, ◌^◌, [], ◌∷◌, take, length, IfSome, IfOk, IfErr, OnOk, OnErr, IsErrOf, MatchOption};
ghost use Rattle.std.specs.Io.KnownBytes.{Appends};
ghost use Rattle.std.specs.declared.option.Option.{Option};
ghost use Rattle.ft_io.specs.Faults.{Rose};
ghost use Rattle.ft_io.specs.Reported.{Reports};
ghost use Rattle.ft_io.specs.declared.link_call.LinkCall.{LinkCall};
ghost use Rattle.ft_io.specs.declared.link_call.LinkCall.TheVariants.{Bound};
ghost use Rattle.seq_arith.specs.declared.kinds.Grammar.{Grammar};
ghost use Rattle.ft_model.specs.Legal.{machines};
ghost use Rattle.server_node.specs.Inputs.{input_of as input_lem};
ghost use Rattle.node_serving.specs.SentBytes.{party_of};
ghost use Rattle.link_parts.specs.Counts.{HasRoom};
ghost use Rattle.link_parts.specs.Ends.{UnlessFault};
ghost use Rattle.link_parts.specs.Receipt.{is_from as is_from_lem, Received, datagram, IsQuiet};
ghost use Rattle.link_parts.specs.Ranges.{ServerInRange};
ghost use Rattle.node_link.specs.ServerTurns.{address_of as address_lem, second_for as second_lem, is_from_logger as is_from_logger_lem, input_from};
ghost use Rattle.node_link.specs.ServerLife.{IsServer, ServerStops};
ghost use Rattle.node_link.specs.ServerParts.{standing_of, HasHanded, HasSent, HasBooted, HasTurned, TurnStops, HasServed, ServeStops};

use ft_io::{Addr, Failed, Link, NoMemory, Sink};
use link_parts::{Counts, DATAGRAM_ROOM, Loggers, NodeEnd, ServerRole, receive, write_counts};
use server_node::{Input, Node, OutPacket, To, TurnEnd};
use server_trait::Saved;
use std::alloc::Global;

/// Returns the address to which a packet is sent: its client's, or the logger's. Of two loggers it is the first one's.
fn address_of(logger: Addr, to: To) -> Addr
    ensures { result ≡ address_lem logger (party_of to) }
{
    match to {
        To::Client(key) => Addr {
            ip: key.ip,
            port: key.port,
        },
        To::Logger => logger,
    }
}

/// Returns the second logger's address, if there is a second logger and the packet is a message.
fn second_for(loggers: Loggers, to: To) -> Option<Addr>
    ensures { result ≡ second_lem loggers (party_of to) }
{
    match to {
        To::Client(_) => None,
        To::Logger => loggers.second,
    }
}

/// Hands bytes to send.
fn hand<L: Link>(link: &mut L, to: Addr, bytes: &[u8], counts: &mut Counts)
    requires { HasRoom 1 counts.old }
    ensures handed { HasHanded to bytes.now (L.reported link.old) (L.reported link.new) counts.old counts.new }
    ensures no_bind_fault { L.bind_fault_count link.new ≡ L.bind_fault_count link.old }
{
    let sent = link.send(to, bytes);
    counts.note_sent(&sent);
}

/// Hands a packet to send: a message to the first logger, and then to the second, if there is one.
pub(crate) fn send_one<L: Link>(
    link: &mut L,
    loggers: Loggers,
    packet: &OutPacket,
    counts: &mut Counts,
)
    requires { HasRoom 2 counts.old }
    ensures sent { HasSent loggers (packet.now ∷ []) (L.reported link.old) (L.reported link.new) counts.old counts.new }
    ensures no_bind_fault { L.bind_fault_count link.new ≡ L.bind_fault_count link.old }
{
    hand(
        link,
        address_of(loggers.first, packet.to()),
        packet.bytes(),
        counts,
    );
    if let Some(second) = second_for(loggers, packet.to()) {
        hand(link, second, packet.bytes(), counts);
    }
}

/// Hands packets to send, in order.
pub fn send_all<L: Link>(link: &mut L, loggers: Loggers, packets: &[OutPacket], counts: &mut Counts)
    requires { HasRoom (2 * length packets.now) counts.old }
    ensures sent { HasSent loggers packets.now (L.reported link.old) (L.reported link.new) counts.old counts.new }
    ensures short { length packets.now < 2 ^ 64 }
    ensures no_bind_fault { L.bind_fault_count link.new ≡ L.bind_fault_count link.old }
{
    for packet in packets {
        send_one(link, loggers, packet, counts);
    }
}

fn is_from(at: Addr, from: Addr) -> bool
    ensures { result ≡ is_from_lem at from }
{
    from.ip == at.ip && from.port == at.port
}

/// Whether a datagram has come from a logger's address.
pub fn is_from_logger(loggers: Loggers, from: Addr) -> bool
    ensures { result ≡ is_from_logger_lem loggers from }
{
    match loggers.second {
        None => is_from(loggers.first, from),
        Some(second) => is_from(loggers.first, from) || is_from(second, from),
    }
}

/// Returns what came as the node's input: a datagram from a logger's address is a message, any other a packet, and `None` a tick.
fn input_of<'a>(loggers: Loggers, came: Option<(usize, Addr)>, buffer: &'a [u8]) -> Input<'a>
    requires { IfSome came (λ g. g.0 ≤ length buffer.now) }
    ensures { (grammar : Grammar) (r : Received) → MatchOption came (IsQuiet r) (λ g. r ≡ datagram g.1 (take g.0 buffer.now))
        → input_lem grammar result ≡ input_from grammar loggers r }
{
    match came {
        None => Input::Tick,
        Some((len, from)) => {
            let bytes = &buffer[..len];
            if is_from_logger(loggers, from) {
                Input::Message(bytes)
            } else {
                Input::Packet(bytes)
            }
        }
    }
}

/// Takes one turn: receives once, and sends all packets with which the node reacts.
pub(crate) fn take_turn<S: Saved, L: Link>(
    alloc: Global,
    loggers: Loggers,
    node: &mut Node<S>,
    link: &mut L,
    counts: &mut Counts,
) -> Result<(), TurnEnd>
    requires { HasRoom (2 ^ 65) counts.old }
    ensures turned { OnOk result (HasTurned (machines S.started S.after S.greeting) loggers (standing_of node.old) (standing_of node.new) (L.reported link.old)
        (L.reported link.new) counts.old counts.new) }
    ensures stops { IfErr result (TurnStops loggers (standing_of node.old) (L.reported link.old) (L.reported link.new)) }
    ensures no_bind_fault { L.bind_fault_count link.new ≡ L.bind_fault_count link.old }
{
    let mut buffer = [0; DATAGRAM_ROOM];
    let came = receive(link, &mut buffer, counts);
    let packets = node.turn(alloc, input_of(loggers, came, &buffer))?;
    send_all(link, loggers, packets, counts);
    Ok(())
}

/// Boots a node without marks, and sends the packets of its boot.
pub(crate) fn boot<S: Saved, L: Link>(
    alloc: Global,
    role: &ServerRole,
    link: &mut L,
    counts: &mut Counts,
) -> Result<Node<S>, NoMemory>
    requires range { ServerInRange role.now }
    requires room { HasRoom (2 ^ 65) counts.old }
    ensures booted { IfOk result (λ node. HasBooted (machines S.started S.after S.greeting) role.now (standing_of node) (L.reported link.old)
        (L.reported link.new) counts.old counts.new) }
    ensures lost { OnErr result (L.reported link.new ≡ L.reported link.old) }
    ensures no_bind_fault { L.bind_fault_count link.new ≡ L.bind_fault_count link.old }
{
    let node = Node::boot_in(
        alloc,
        role.profile,
        role.boot,
        role.isn,
        role.kind(),
        role.local,
        0,
    )?;
    send_all(link, role.loggers, node.sent(), counts);
    Ok(node)
}

/// Boots, takes all turns, and returns the counts of their calls.
fn serve<S: Saved, L: Link>(
    alloc: Global,
    role: &ServerRole,
    link: &mut L,
) -> Result<Counts, TurnEnd>
    requires { ServerInRange role.now }
    ensures served { IfOk result (λ counts. HasServed (machines S.started S.after S.greeting) role.now (L.reported link.old) (L.reported link.new) counts) }
    ensures stops { IfErr result (ServeStops (machines S.started S.after S.greeting) role.now (L.reported link.old) (L.reported link.new)) }
    ensures no_bind_fault { L.bind_fault_count link.new ≡ L.bind_fault_count link.old }
{
    let mut counts = Counts::new();
    let mut node = boot::<S, L>(alloc, role, link, &mut counts)?;
    for _turn in 0..role.turns {
        take_turn(alloc, role.loggers, &mut node, link, &mut counts)?;
    }
    Ok(counts)
}

/// Runs a server after its bind: boots, takes its turns, and writes the line of the counts.
fn serve_and_report<S: Saved, L: Link, O: Sink>(
    alloc: Global,
    role: &ServerRole,
    link: &mut L,
    out: &mut O,
) -> Result<(), NodeEnd>
    requires { ServerInRange role.now }
    ensures done { OnOk result ((before : Option (List LinkCall)) → Reports before (L.reported link.old) (Bound role.now.local ∷ [])
        → IsServer (machines S.started S.after S.greeting) role.now before (L.reported link.new) (Appends (O.taken out.old) (O.taken out.new))) }
    ensures stops { IfErr result (λ end. (before : Option (List LinkCall)) → Reports before (L.reported link.old) (Bound role.now.local ∷ [])
        → ServerStops (machines S.started S.after S.greeting) role.now before (L.reported link.new) (O.taken out.old) (O.taken out.new) end) }
    ensures write_cause { IsErrOf result NodeEnd.WriteFault → Rose (O.fault_count out.old) (O.fault_count out.new) }
    ensures bound { IsErrOf result NodeEnd.LinkFault → ⊥ }
    ensures no_bind_fault { L.bind_fault_count link.new ≡ L.bind_fault_count link.old }
    ensures no_write_fault { UnlessFault result (O.fault_count out.new ≡ O.fault_count out.old) }
{
    match serve::<S, L>(alloc, role, link) {
        Err(TurnEnd::NoMemory) => Err(NodeEnd::NoMemory),
        Err(TurnEnd::Fenced { newer }) => Err(NodeEnd::Fenced { newer }),
        Ok(counts) => write_counts(alloc, &counts, out),
    }
}

/// Runs a server: binds, boots, takes its turns, and writes the counts of their calls.
pub(crate) fn run_server<S: Saved, L: Link, O: Sink>(
    alloc: Global,
    role: &ServerRole,
    link: &mut L,
    out: &mut O,
) -> Result<(), NodeEnd>
    requires { ServerInRange role.now }
    ensures done { OnOk result (IsServer (machines S.started S.after S.greeting) role.now (L.reported link.old) (L.reported link.new)
        (Appends (O.taken out.old) (O.taken out.new))) }
    ensures stops { IfErr result (ServerStops (machines S.started S.after S.greeting) role.now (L.reported link.old) (L.reported link.new) (O.taken out.old)
        (O.taken out.new)) }
    ensures bind_cause { IsErrOf result NodeEnd.LinkFault → Rose (L.bind_fault_count link.old) (L.bind_fault_count link.new) }
    ensures write_cause { IsErrOf result NodeEnd.WriteFault → Rose (O.fault_count out.old) (O.fault_count out.new) }
    ensures no_bind_fault { UnlessFault result (L.bind_fault_count link.new ≡ L.bind_fault_count link.old) }
    ensures no_write_fault { UnlessFault result (O.fault_count out.new ≡ O.fault_count out.old) }
{
    match link.bind(role.local) {
        Err(Failed) => Err(NodeEnd::LinkFault),
        Ok(()) => serve_and_report::<S, L, O>(alloc, role, link, out),
    }
}
