//! The clients of a schedule. Those of one address come one after another.

ghost use Rattle.limits.specs.Limits.{longest_stream};
ghost use Rattle.std.specs.Prelude.{◌≡◌, ◌≤◌, ◌<◌, ◌&&◌, not, All, IfOk, IfSome, length, map, if◌then◌else◌};
ghost use Rattle.std.specs.List.{list_any};
ghost use Rattle.ft_io.specs.Key.{key_eq};
ghost use Rattle.ft_model.specs.Schedule.{bytes_of};
ghost use Rattle.lasting_world.specs.Guests.{new_guest as new_guest_lem, guest_has_come, guest_is_there, last_come, index_there, is_off as is_off_lem};

use ft_io::{Addr, Key, NoMemory};
use ft_model::{ClientLine, Phase};
use peer_client::Client;
use std::alloc::Global;

/// A client of the schedule.
#[derive(Drop)]
pub struct Guest {
    pub key: Key,
    pub client: Client,
    /// Whether its entry was recycled.
    pub gone: bool,
}

impl Guest {
    /// Whether it has come to its address, with its first move.
    pub fn has_come(&self) -> bool
        ensures { result ≡ guest_has_come self.now }
    {
        !matches!(self.client.phase(), Phase::New)
    }

    /// Whether it is the client that is at this address.
    pub fn is_there(&self, key: Key) -> bool
        ensures { result ≡ guest_is_there key self.now }
    {
        self.key == key && self.has_come() && !self.gone
    }
}

/// A client of a schedule before anything is sent.
fn new_guest(alloc: Global, server: Addr, line: &ClientLine) -> Result<Guest, NoMemory>
    requires { length (bytes_of line.now.script) ≤ longest_stream }
    ensures { IfOk result (λ guest. guest ≡ new_guest_lem server line.now) }
{
    let script = line.script.bytes(alloc)?;
    Ok(Guest {
        key: line.key,
        client: Client::new(alloc, line.key, server, line.isn, script),
        gone: false,
    })
}

/// The clients of a schedule before anything is sent.
pub(crate) fn new_guests(
    alloc: Global,
    server: Addr,
    lines: &[ClientLine],
) -> Result<Vec<Guest>, NoMemory>
    requires { All (λ line. length (bytes_of line.script) ≤ longest_stream) lines.now }
    ensures { IfOk result (λ guests. guests.items ≡ map (new_guest_lem server) lines.now) }
{
    let mut guests = Vec::new(alloc);
    for line in lines {
        guests.push(new_guest(alloc, server, line)?)?;
    }
    Ok(guests)
}

/// The number of the client that came last to an address, if this one may be it.
fn last_of(guest: &Guest, key: Key, number: u8, found: u8) -> u8
    ensures { result ≡ (if key_eq guest.now.key key && guest_has_come guest.now then number else found) }
{
    if guest.key == key && guest.has_come() {
        return number;
    }
    found
}

/// The number of the client that came last to an address, counted from 1; 0 for none.
pub(crate) fn number_of(guests: &[Guest], key: Key) -> u8
    requires { length guests.now ≤ 16 }
    ensures { result ≡ last_come 1 key 0 guests.now }
{
    let mut found = 0;
    for i in 0..guests.len() {
        found = last_of(&guests[i], key, i as u8 + 1, found);
    }
    found
}

/// The index of the client that is at an address.
pub(crate) fn place_of(guests: &[Guest], key: Key) -> Option<usize>
    ensures place { result ≡ index_there key guests.now }
    ensures within { IfSome result (λ place. place < length guests.now) }
{
    guests.iter().position(|guest| guest.is_there(key))
}

/// Whether one of these clients has this address and isn't gone.
fn is_any_left(guests: &[Guest], key: Key) -> bool
    ensures { result ≡ list_any (λ g. key_eq g.key key && not g.gone) guests.now }
{
    guests.iter().any(|guest| guest.key == key && !guest.gone)
}

/// Whether the client at this index is gone, or one before it at its address isn't.
pub(crate) fn is_off(guests: &[Guest], place: usize) -> bool
    requires { place < length guests.now }
    ensures { result ≡ is_off_lem guests.now place }
{
    if guests[place].gone {
        return true;
    }
    is_any_left(&guests[..place], guests[place].key)
}
