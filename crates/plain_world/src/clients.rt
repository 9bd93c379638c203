//! The clients: their creation from a schedule, what they receive, and the moves that they make.

ghost use Rattle.limits.specs.Limits.{longest_stream};
ghost use Rattle.std.specs.Prelude.{◌≡◌, ◌≤◌, ◌^◌, length, All, IfOk, OnOk, option_copied, if◌then◌else◌};
ghost use Rattle.ft_io.specs.Key.{key_eq};
ghost use Rattle.segment_codec.specs.Value.{segment_of};
ghost use Rattle.ft_model.specs.Client.{received};
ghost use Rattle.ft_model.specs.Schedule.{bytes_of, client_of, clients_of};
ghost use Rattle.ft_model.specs.World.{client_at, with_client};
ghost use Rattle.plain_world.specs.Turns.{MakesMove, MovesOne};

use crate::client::PlainClient;
use crate::moves::move_of;
use ft_io::{Addr, Key, NoMemory};
use ft_model::{ClientLine, Event};
use plain_packets::PlainPackets;
use segment_codec::PacketRef;
use std::alloc::Global;

/// Creates a client of a schedule, before anything is sent.
fn new_client(alloc: Global, server: Addr, line: &ClientLine) -> Result<PlainClient, NoMemory>
    requires { length (bytes_of line.now.script) ≤ longest_stream }
    ensures { IfOk result (λ client. client ≡ client_of server line.now) }
{
    let script = line.script.bytes(alloc)?;
    Ok(PlainClient::new(alloc, line.key, server, line.isn, script))
}

/// Creates the clients of a schedule, before anything is sent.
pub(crate) fn new_clients(
    alloc: Global,
    server: Addr,
    lines: &[ClientLine],
) -> Result<Vec<PlainClient>, NoMemory>
    requires { All (λ line. length (bytes_of line.script) ≤ longest_stream) lines.now }
    ensures { IfOk result (λ clients. clients.items ≡ clients_of server lines.now) }
{
    let mut clients = Vec::new(alloc);
    for line in lines {
        clients.push(new_client(alloc, server, line)?)?;
    }
    Ok(clients)
}

/// Returns the client with this number, counted from 1.
pub(crate) fn numbered(clients: &[PlainClient], number: u8) -> Option<&PlainClient>
    ensures { option_copied result ≡ client_at clients.now number }
{
    if number == 0 {
        return None;
    }
    clients.get(usize::from(number) - 1)
}

/// Delivers a segment to a client, if it has this key. After `NoMemory` the client may only be dropped.
fn receive_one(client: &mut PlainClient, key: Key, segment: &PacketRef<'_>) -> Result<(), NoMemory>
    ensures { OnOk result (client.new ≡ (if key_eq client.old.key key then received client.old (segment_of segment.now) else client.old)) }
{
    if client.key() == key {
        return client.receive(segment);
    }
    Ok(())
}

/// Delivers a segment to the client of a key. After `NoMemory` the clients may only be dropped.
fn receive_among(
    clients: &mut [PlainClient],
    key: Key,
    segment: &PacketRef<'_>,
) -> Result<(), NoMemory>
    ensures { OnOk result (clients.new ≡ with_client key (λ c. received c (segment_of segment.now)) clients.old) }
{
    for client in clients.iter_mut() {
        receive_one(client, key, segment)?;
    }
    Ok(())
}

/// Delivers a segment to the client of a key. After `NoMemory` the clients may only be dropped.
pub(crate) fn receive(
    clients: &mut Vec<PlainClient>,
    key: Key,
    segment: &PacketRef<'_>,
) -> Result<(), NoMemory>
    ensures { OnOk result (clients.new.items ≡ with_client key (λ c. received c (segment_of segment.now)) clients.old.items) }
{
    receive_among(clients, key, segment)
}

/// Makes the move that an event asks for, if the client's state allows it. After `NoMemory` the packets may only be dropped.
fn make_one(
    client: &mut PlainClient,
    alloc: Global,
    event: &Event,
    sent: &mut PlainPackets,
) -> Result<(), NoMemory>
    ensures { OnOk result (MakesMove event.now client.old client.new sent.old sent.new) }
{
    let Some(made) = move_of(event) else {
        return Ok(());
    };
    if client.refusal(made).is_some() {
        return Ok(());
    }
    let window = client.window(event);
    sent.send_to_server(alloc, &client.segment(made, window))?;
    client.make(made, window);
    Ok(())
}

/// Makes the move that an event asks for, by the client with this number, if there is one. After `NoMemory` the clients and the packets may only be dropped.
pub(crate) fn make(
    clients: &mut Vec<PlainClient>,
    alloc: Global,
    number: u8,
    event: &Event,
    sent: &mut PlainPackets,
) -> Result<(), NoMemory>
    ensures { OnOk result (MovesOne number event.now clients.old.items clients.new.items sent.old sent.new) }
{
    let place = usize::from(number);
    if place == 0 || place > clients.len() {
        return Ok(());
    }
    make_one(&mut clients[place - 1], alloc, event, sent)
}
