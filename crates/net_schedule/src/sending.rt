//! What the server sends, as the network stores it.

ghost use Rattle.std.specs.Prelude.{◌≡◌, ◌≤◌, length, OnOk};
ghost use Rattle.node_serving.specs.SentBytes.{party_of};
ghost use Rattle.schedule_network.specs.StoredPackets.{way_to as way_lem, with_wires};

use ft_io::{Key, NoMemory};
use ft_model::Way;
use schedule_network::{Packets, number_of};
use server_node::{OutPacket, To};

/// Returns the direction of a packet from the server.
fn way_to(keys: &[Key], to: To) -> Way
    requires { length keys.now ≤ 16 }
    ensures { result ≡ way_lem keys.now (party_of to) }
{
    match to {
        To::Client(key) => Way::ServerToClient(number_of(keys, key)),
        To::Logger => Way::ServerToLogger,
    }
}

/// Stores what the server sent in a turn.
pub fn keep_sent(keys: &[Key], sent: &[OutPacket], packets: &mut Packets) -> Result<(), NoMemory>
    requires { length keys.now ≤ 16 }
    ensures { OnOk result (packets.new ≡ with_wires keys.now packets.old sent.now) }
{
    for packet in sent {
        packets.push(way_to(keys, packet.to()), packet.bytes())?;
    }
    Ok(())
}
