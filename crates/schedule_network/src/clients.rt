//! The clients of a schedule before anything is sent, and how to find them by key.

ghost use Rattle.limits.specs.Limits.{longest_stream};
ghost use Rattle.std.specs.Prelude.{◌≡◌, ◌≤◌, ◌+◌, ◌%◌, ◌^◌, map, length, All, IfOk, IfSome, position};
ghost use Rattle.ft_io.specs.Key.{key_eq};
ghost use Rattle.ft_model.specs.Schedule.{bytes_of as bytes_lem, client_of as client_lem, clients_of};
ghost use Rattle.schedule_network.specs.StoredPackets.{number_in as number_lem};

use ft_io::{Addr, Key, NoMemory};
use ft_model::ClientLine;
use peer_client::Client;
use std::alloc::Global;

/// Creates a client of a schedule, before anything is sent.
fn new_client(alloc: Global, server: Addr, line: &ClientLine) -> Result<Client, NoMemory>
    requires { length (bytes_lem line.now.script) ≤ longest_stream }
    ensures { IfOk result (λ client. client ≡ client_lem server line.now) }
{
    let script = line.script.bytes(alloc)?;
    Ok(Client::new(alloc, line.key, server, line.isn, script))
}

/// Creates the clients of a schedule, before anything is sent.
pub fn new_clients(
    alloc: Global,
    server: Addr,
    lines: &[ClientLine],
) -> Result<Vec<Client>, NoMemory>
    requires { All (λ line. length (bytes_lem line.script) ≤ longest_stream) lines.now }
    ensures { IfOk result (λ clients. clients.items ≡ clients_of server lines.now) }
{
    let mut clients = Vec::new(alloc);
    for line in lines {
        clients.push(new_client(alloc, server, line)?)?;
    }
    Ok(clients)
}

/// Returns the keys of a schedule's clients.
pub fn keys_of(alloc: Global, lines: &[ClientLine]) -> Result<Vec<Key>, NoMemory>
    ensures { IfOk result (λ keys. keys.items ≡ map (λ line. line.key) lines.now) }
{
    let mut keys = Vec::new(alloc);
    for line in lines {
        keys.push(line.key)?;
    }
    Ok(keys)
}

/// Returns the index of a key among these.
fn place_of(keys: &[Key], key: Key) -> Option<usize>
    ensures place { result ≡ position (λ k. key_eq k key) keys.now }
    ensures within { IfSome result (λ place. place + 1 ≤ length keys.now) }
{
    keys.iter().position(|other| *other == key)
}

/// Returns the number of the client with this key, counted from 1, or 0 if there is none.
pub fn number_of(keys: &[Key], key: Key) -> u8
    requires { length keys.now ≤ 16 }
    ensures { result ≡ number_lem keys.now key }
{
    match place_of(keys, key) {
        Some(place) => (place + 1) as u8,
        None => 0,
    }
}
