//! What the server sends, as the network stores it.

ghost use Rattle.std.specs.Prelude.{◌≡◌, ◌∷◌, [], OnOk};
ghost use Rattle.lasting_world.specs.Around.{kept_around};
ghost use Rattle.lasting_world.specs.Sending.{StoresWires};

use crate::surroundings::Surroundings;
use ft_io::NoMemory;
use ft_model::Way;
use node_serving::{OutPacket, To};

/// Stores a packet of the server.
fn store(around: &mut Surroundings, packet: &OutPacket) -> Result<(), NoMemory>
    ensures { OnOk result (StoresWires (packet.now ∷ []) (kept_around around.old) (kept_around around.new)) }
{
    // A fact for the proof. It does nothing when it is called.
    packet.sent_by_server();
    match packet.to() {
        To::Client(key) => around.send_to_client(key, packet.bytes()),
        To::Logger => around.send_message(Way::ServerToLogger, packet.bytes()),
    }
}

/// Stores what the server sent in a turn.
pub(crate) fn store_sent(around: &mut Surroundings, sent: &[OutPacket]) -> Result<(), NoMemory>
    ensures { OnOk result (StoresWires sent.now (kept_around around.old) (kept_around around.new)) }
{
    for packet in sent {
        store(around, packet)?;
    }
    Ok(())
}
