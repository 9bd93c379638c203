//! The client: a live client over a link. It sends a script, and writes the server's bytes as it accepts them.

ghost use Rattle.limits.specs.Limits.{longest_stream};
ghost use Rattle.std.specs.Prelude.{◌≡◌, ℕ, ◌+◌, ◌%◌, ◌^◌, ◌≤◌, List, [], ◌∷◌, ◌++◌, length, vec_len, None, is_none, false, IfSome, IfOk, IfErr};
ghost use Rattle.std.specs.Prelude.{OnOk, OnErr, IsErrOf};
ghost use Rattle.std.specs.Io.KnownBytes.{Appends};
ghost use Rattle.ft_io.specs.Faults.{Rose};
ghost use Rattle.ft_io.specs.Sink.{AppendsFront};
ghost use Rattle.ft_io.specs.Source.{ConsumesAtMost};
ghost use Rattle.ft_io.specs.declared.link_call.LinkCall.{LinkCall};
ghost use Rattle.ft_model.specs.Client.{Client};
ghost use Rattle.ft_model.specs.Schedule.{bytes_of as bytes_lem};
ghost use Rattle.tcp_endpoint.specs.Output.{packets as packets_lem};
ghost use Rattle.tcp_endpoint.specs.SendHalf.{IsShort};
ghost use Rattle.peer_client.specs.Live.{sent_by, turned};
ghost use Rattle.link_parts.specs.ClientParts.{AreHanded, HasReceived, HasTurned, IsLimited, IsFresh, BeginsBeside, RunStops};
ghost use Rattle.link_parts.specs.Ends.{UnlessFault};
ghost use Rattle.link_parts.specs.ClientRuns.{Runs, IsEndedBy, IsClient, IsScript, RunsScript, ScriptStops, ScriptRunStops, ClientStops};

use crate::receiving::DATAGRAM_ROOM;
use crate::role::ClientRole;
use crate::status::NodeEnd;
use ft_io::{
    Addr, Failed, Link, NoMemory, ReadEnd, Receipt, Sink, Source, read_to_limit, write_all,
};
use ft_model::Script;
use peer_client::{ClientEnd, LiveClient};
use std::alloc::Global;
use tcp_endpoint::Outbox;

/// The most bytes of a script.
const SCRIPT_LIMIT: usize = limits::STREAM as usize;

/// A client's receive buffer, in bytes.
const ACCEPT_ROOM: usize = limits::BUFFER as usize;

/// Reads the whole input as a script. It takes at most one byte more than a script may have.
fn read_script<I: Source>(alloc: Global, input: &mut I) -> Result<Vec<u8>, NodeEnd>
    ensures script { IfOk result (λ script. IsScript None (I.left input.old) (I.left input.new) script.items) }
    ensures stops { IfErr result (ScriptStops None (I.left input.old)) }
    ensures taken { ConsumesAtMost 16777217 (I.left input.old) (I.left input.new) }
    ensures cause { IsErrOf result NodeEnd.ReadFault → Rose (I.fault_count input.old) (I.fault_count input.new) }
    ensures no_read_fault { UnlessFault result (I.fault_count input.new ≡ I.fault_count input.old) }
    ensures no_bind { IsErrOf result NodeEnd.LinkFault → ⊥ }
    ensures no_write { IsErrOf result NodeEnd.WriteFault → ⊥ }
{
    match read_to_limit(alloc, input, SCRIPT_LIMIT) {
        Ok(bytes) => Ok(bytes),
        Err(ReadEnd::NoMemory) => Err(NodeEnd::NoMemory),
        Err(ReadEnd::Fault) => Err(NodeEnd::ReadFault),
        Err(ReadEnd::TooLong) => Err(NodeEnd::Usage),
    }
}

/// Returns the script that the words give, or else the input.
fn script_of<I: Source>(
    alloc: Global,
    script: &Option<Script>,
    input: &mut I,
) -> Result<Vec<u8>, NodeEnd>
    ensures script { IfOk result (λ text. IsScript script.now (I.left input.old) (I.left input.new) text.items) }
    ensures stops { IfErr result (ScriptStops script.now (I.left input.old)) }
    ensures unread { is_none script.now ≡ false → input.new ≡ input.old }
    ensures taken { ConsumesAtMost 16777217 (I.left input.old) (I.left input.new) }
    ensures cause { IsErrOf result NodeEnd.ReadFault → Rose (I.fault_count input.old) (I.fault_count input.new) }
    ensures no_read_fault { UnlessFault result (I.fault_count input.new ≡ I.fault_count input.old) }
    ensures no_bind { IsErrOf result NodeEnd.LinkFault → ⊥ }
    ensures no_write { IsErrOf result NodeEnd.WriteFault → ⊥ }
{
    match script {
        Some(script) => Ok(script.bytes(alloc)?),
        None => read_script(alloc, input),
    }
}

/// Allocates a buffer that has room for all bytes of a client's receive buffer.
fn accept_room(alloc: Global) -> Result<Vec<u8>, NoMemory>
    ensures { IfOk result (λ room. vec_len room ≡ ACCEPT_ROOM) }
{
    Ok(vec![in alloc; 0; ACCEPT_ROOM]?)
}

/// Hands each packet to send, in order. One whose send fails is lost.
fn send_all<L: Link>(link: &mut L, to: Addr, outbox: &Outbox)
    ensures handed { AreHanded to outbox.now (L.reported link.old) (L.reported link.new) }
    ensures no_bind_fault { L.bind_fault_count link.new ≡ L.bind_fault_count link.old }
{
    for i in 0..outbox.len() {
        let _ = link.send(to, outbox.packet(i));
    }
}

/// Ends a turn of the client by a flush, whose packets are handed to send.
fn flush<L: Link>(link: &mut L, to: Addr, client: &mut LiveClient, outbox: &mut Outbox)
    ensures sent { AreHanded to (packets_lem (sent_by client.old)) (L.reported link.old) (L.reported link.new) }
    ensures state { client.new ≡ turned client.old }
    ensures no_bind_fault { L.bind_fault_count link.new ≡ L.bind_fault_count link.old }
{
    outbox.clear();
    client.flush(outbox);
    send_all(link, to, outbox);
}

/// Receives once, and passes the datagram, or else a tick, to the client.
fn receive<L: Link>(link: &mut L, client: &mut LiveClient)
    requires { IsShort client.old.tcb.sending }
    ensures received { HasReceived client.old client.new (L.reported link.old) (L.reported link.new) }
    ensures no_bind_fault { L.bind_fault_count link.new ≡ L.bind_fault_count link.old }
{
    let mut buffer = [0; DATAGRAM_ROOM];
    match link.recv(&mut buffer) {
        Ok(Receipt::Got { len, .. }) => client.on_packet(&buffer[..len]),
        Ok(Receipt::Nothing) | Err(Failed) => client.on_tick(),
    }
}

/// Takes one turn: receives, sends, and writes what was accepted.
fn take_turn<L: Link, O: Sink>(
    link: &mut L,
    role: &ClientRole,
    client: &mut LiveClient,
    outbox: &mut Outbox,
    room: &mut [u8],
    out: &mut O,
) -> Result<(), Failed>
    requires limited { IsLimited role.now.isn client.old }
    requires room { ACCEPT_ROOM ≤ length room.old }
    ensures turned { OnOk result (HasTurned role.now.server client.old client.new (L.reported link.old) (L.reported link.new)
        (Appends (O.taken out.old) (O.taken out.new))) }
    ensures cut_short { OnErr result
        (HasTurned role.now.server client.old client.new (L.reported link.old) (L.reported link.new) (AppendsFront (O.taken out.old) (O.taken out.new))) }
    ensures cause { OnErr result (Rose (O.fault_count out.old) (O.fault_count out.new)) }
    ensures never_falls { O.fault_count out.old ≤ O.fault_count out.new }
    ensures no_write_fault { OnOk result (O.fault_count out.new ≡ O.fault_count out.old) }
    ensures no_bind_fault { L.bind_fault_count link.new ≡ L.bind_fault_count link.old }
{
    receive(link, client);
    let count = client.accept(room);
    flush(link, role.server, client, outbox);
    write_all(out, &room[..count])
}

/// Flushes once, and then takes turns until the connection has an outcome or no turn is left.
fn take_turns<L: Link, O: Sink>(
    link: &mut L,
    role: &ClientRole,
    client: &mut LiveClient,
    outbox: &mut Outbox,
    room: &mut [u8],
    out: &mut O,
) -> Result<(), NodeEnd>
    requires fresh { IsFresh role.now client.old }
    requires room { ACCEPT_ROOM ≤ length room.old }
    ensures done { OnOk result ((machine : Client) → BeginsBeside client.old machine
        → Runs client.old machine role.now.turns [] (L.reported link.old) (L.reported link.new) (Appends (O.taken out.old) (O.taken out.new))
        (IsEndedBy ClientEnd.Closed)) }
    ensures stops { IfErr result (λ end. (machine : Client) → BeginsBeside client.old machine
        → RunStops client.old machine role.now.turns [] (L.reported link.old) (L.reported link.new) (O.taken out.old) (O.taken out.new) end) }
    ensures cause { IsErrOf result NodeEnd.WriteFault → Rose (O.fault_count out.old) (O.fault_count out.new) }
    ensures no_bind { IsErrOf result NodeEnd.LinkFault → ⊥ }
    ensures no_read { IsErrOf result NodeEnd.ReadFault → ⊥ }
    ensures no_bind_fault { L.bind_fault_count link.new ≡ L.bind_fault_count link.old }
    ensures no_write_fault { UnlessFault result (O.fault_count out.new ≡ O.fault_count out.old) }
{
    flush(link, role.server, client, outbox);
    for _turn in 0..role.turns {
        match take_turn(link, role, client, outbox, room, out) {
            Err(Failed) => return Err(NodeEnd::WriteFault),
            Ok(()) => match client.outcome() {
                Some(ClientEnd::Closed) => return Ok(()),
                Some(ClientEnd::Reset) => return Err(NodeEnd::Reset),
                None => (),
            },
        }
    }
    Err(NodeEnd::Spent)
}

/// Runs a client with this script. It allocates all its memory before the bind.
fn run_script<L: Link, O: Sink>(
    alloc: Global,
    role: &ClientRole,
    script: Vec<u8>,
    link: &mut L,
    out: &mut O,
) -> Result<(), NodeEnd>
    requires { length script.items ≤ longest_stream }
    ensures done { OnOk result (IsClient role.now script.items (L.reported link.old) (L.reported link.new) (Appends (O.taken out.old) (O.taken out.new))
        (IsEndedBy ClientEnd.Closed)) }
    ensures stops { IfErr result (ScriptRunStops role.now script.items (L.reported link.old) (L.reported link.new) (O.taken out.old) (O.taken out.new)) }
    ensures bind_cause { IsErrOf result NodeEnd.LinkFault → Rose (L.bind_fault_count link.old) (L.bind_fault_count link.new) }
    ensures write_cause { IsErrOf result NodeEnd.WriteFault → Rose (O.fault_count out.old) (O.fault_count out.new) }
    ensures no_read { IsErrOf result NodeEnd.ReadFault → ⊥ }
    ensures no_bind_fault { UnlessFault result (L.bind_fault_count link.new ≡ L.bind_fault_count link.old) }
    ensures no_write_fault { UnlessFault result (O.fault_count out.new ≡ O.fault_count out.old) }
{
    let mut client = LiveClient::new_in(
        role.profile,
        alloc,
        role.local,
        role.server,
        role.isn,
        script,
    )?;
    let mut outbox = Outbox::new(alloc)?;
    let mut room = accept_room(alloc)?;
    match link.bind(role.local) {
        Err(Failed) => Err(NodeEnd::LinkFault),
        Ok(()) => take_turns(
            link,
            role,
            &mut client,
            &mut outbox,
            room.as_mut_slice(),
            out,
        ),
    }
}

/// Runs a client: reads its script, binds, and takes turns until its connection is closed or reset, or no turn is left.
pub fn run_client<L: Link, I: Source, O: Sink>(
    alloc: Global,
    role: &ClientRole,
    link: &mut L,
    input: &mut I,
    out: &mut O,
) -> Result<(), NodeEnd>
    requires { IfSome role.now.script (λ script. length (bytes_lem script) ≤ longest_stream) }
    ensures done { OnOk result (RunsScript role.now (I.left input.old) (I.left input.new) (L.reported link.old) (L.reported link.new)
        (Appends (O.taken out.old) (O.taken out.new)) (IsEndedBy ClientEnd.Closed)) }
    ensures stops { IfErr result (ClientStops role.now (I.left input.old) (I.left input.new) (L.reported link.old) (L.reported link.new) (O.taken out.old)
        (O.taken out.new)) }
    ensures read_cause { IsErrOf result NodeEnd.ReadFault → Rose (I.fault_count input.old) (I.fault_count input.new) }
    ensures bind_cause { IsErrOf result NodeEnd.LinkFault → Rose (L.bind_fault_count link.old) (L.bind_fault_count link.new) }
    ensures write_cause { IsErrOf result NodeEnd.WriteFault → Rose (O.fault_count out.old) (O.fault_count out.new) }
    ensures unread { is_none role.now.script ≡ false → input.new ≡ input.old }
    ensures taken { ConsumesAtMost 16777217 (I.left input.old) (I.left input.new) }
    ensures no_read_fault { UnlessFault result (I.fault_count input.new ≡ I.fault_count input.old) }
    ensures no_bind_fault { UnlessFault result (L.bind_fault_count link.new ≡ L.bind_fault_count link.old) }
    ensures no_write_fault { UnlessFault result (O.fault_count out.new ≡ O.fault_count out.old) }
{
    match script_of(alloc, &role.script, input) {
        Ok(script) => run_script(alloc, role, script, link, out),
        Err(end) => Err(end),
    }
}
