//! What the loggers send, as the network stores it.

ghost use Rattle.std.specs.Prelude.{◌≡◌, OnOk};
ghost use Rattle.schedule_network.specs.StoredPackets.{with_answer};
ghost use Rattle.schedule_network.specs.Loggers.{way_out as way_out_lem, with_datagrams};

use crate::packets::Packets;
use ft_io::NoMemory;
use ft_model::Way;
use logger_store::MsgOut;
use twin_log::{Part, Side, TwinOut};

/// Stores the answer of the logger, if it gave one.
pub fn keep_answer(answer: &MsgOut, packets: &mut Packets) -> Result<(), NoMemory>
    ensures { OnOk result (packets.new ≡ with_answer packets.old answer.now) }
{
    let bytes = answer.bytes();
    if bytes.is_empty() {
        return Ok(());
    }
    packets.push(Way::LoggerToServer, bytes)
}

/// Returns the direction of what one of two loggers sends.
fn way_out(part: Part, to: Side) -> Way
    ensures { result ≡ way_out_lem part to }
{
    match (to, part) {
        (Side::Server, _) => Way::LoggerToServer,
        (Side::Other, Part::Head) => Way::HeadToTail,
        (Side::Other, Part::Tail) => Way::TailToHead,
    }
}

/// Stores what one of two loggers sent in a turn.
pub fn keep_datagrams(part: Part, sent: &TwinOut, packets: &mut Packets) -> Result<(), NoMemory>
    ensures { OnOk result (packets.new ≡ with_datagrams part packets.old sent.now) }
{
    for i in 0..sent.len() {
        packets.push(way_out(part, sent.to(i)), sent.bytes(i))?;
    }
    Ok(())
}
