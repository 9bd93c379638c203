//! What the node has for a key.

ghost use Rattle.std.specs.Prelude.{◌≡◌, Ok, Some, OnOk, true, option_copied};
ghost use Rattle.seq_arith.specs.PacketGrammar.{reading};
ghost use Rattle.segment_codec.specs.Value.{segment_of};
ghost use Rattle.ft_model.specs.Network.{source_of};
ghost use Rattle.ft_model.specs.Node.{is_for};
ghost use Rattle.ft_model.specs.Node.Input.{Packet_comes, Tick_comes};
ghost use Rattle.node_serving.specs.Clients.{known_as};
ghost use Rattle.node_serving.specs.Loan.{conn_in};
ghost use Rattle.node_serving.specs.Slots.{IsSoundSlot};
ghost use Rattle.node_serving.specs.Turns.{SendsFor, SlotTurns};

use crate::identity::Identity;
use crate::live::{serve_live, tick_live};
use crate::refusal::refuse_closed;
use crate::turn::Turn;
use ft_io::{Key, NoMemory};
use segment_codec::PacketRef;
use seq_arith::Seq;
use server_trait::Service;
use tcp_rules::Timestamping;
use wrapped_conn::Conn;

/// A pending opening: the numbers that the log is asked to keep.
#[derive(Clone, Copy)]
pub struct Opening {
    /// The client's initial sequence number.
    pub cisn: Seq,
    /// The server's initial sequence number.
    pub sisn: Seq,
    /// The segment size, 64 to 1,460 bytes.
    pub mss: u16,
    /// The timestamps that the client's SYN asked for. The log isn't asked to keep them.
    pub timestamping: Timestamping,
}

/// What the node has for a key that it knows.
#[derive(Drop)]
pub enum Slot<S: Service> {
    Pending(Opening),
    Live(Conn<S>),
    /// The connection has ended.
    Done,
}

/// Passes a tick to one slot.
pub(crate) fn tick_slot<S: Service>(
    who: Identity,
    key: Key,
    slot: &mut Slot<S>,
    turn: &mut Turn,
) -> Result<(), NoMemory>
    requires { IsSoundSlot who key slot.old }
    ensures turn { OnOk result (SlotTurns S.Service who Tick_comes key slot.old slot.new turn.old turn.new) }
    ensures alone { OnOk result (SendsFor who key turn.old turn.new) }
    ensures known { OnOk result (known_as slot.new ≡ known_as slot.old) }
    ensures sound { OnOk result (IsSoundSlot who key slot.new) }
{
    match slot {
        Slot::Live(conn) => tick_live(who, key, conn, turn),
        Slot::Pending(_) | Slot::Done => Ok(()),
    }
}

/// Gives a segment to the slot of its client. `packet` has the segment's bytes.
pub(crate) fn serve_slot<S: Service>(
    who: Identity,
    segment: &PacketRef<'_>,
    slot: &mut Slot<S>,
    packet: &mut [u8],
    turn: &mut Turn,
) -> Result<(), NoMemory>
    requires sound { IsSoundSlot who (source_of (segment_of segment.now)) slot.old }
    requires read { reading packet.old ≡ Ok (segment_of segment.now) }
    ensures turn { OnOk result (is_for who.local (segment_of segment.now) ≡ true → SlotTurns S.Service who (Packet_comes (segment_of segment.now))
        (source_of (segment_of segment.now)) slot.old slot.new turn.old turn.new) }
    ensures alone { OnOk result (SendsFor who (source_of (segment_of segment.now)) turn.old turn.new) }
    ensures known { OnOk result (known_as slot.new ≡ known_as slot.old) }
    ensures sound { OnOk result (IsSoundSlot who (source_of (segment_of segment.now)) slot.new) }
{
    match slot {
        Slot::Live(conn) => serve_live(who, segment.head.sender(), conn, packet, turn),
        Slot::Pending(_) => Ok(()),
        Slot::Done => refuse_closed(who, segment, turn),
    }
}

/// The connection of a slot, while it is live.
pub fn live_conn<S: Service>(slot: &Slot<S>) -> Option<&Conn<S>>
    ensures { option_copied result ≡ conn_in (Some slot.now) }
{
    match slot {
        Slot::Live(conn) => Some(conn),
        Slot::Pending(_) | Slot::Done => None,
    }
}
