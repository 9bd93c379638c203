//! The slots of a node that serves, in one map, in the order of the log and then of the SYNs.

ghost use Rattle.std.specs.Prelude.{◌≡◌, ◌<◌, ◌∷◌, ◌++◌, [], List, Ok, Some, None, IfSome, OnOk, true, length, slice_get, option_copied, option_map};
ghost use Rattle.std.specs.Map.{lookup, remove_entry};
ghost use Rattle.ft_io.specs.Key.{key_eq};
ghost use Rattle.server_trait.specs.Service.{Machine};
ghost use Rattle.seq_arith.specs.PacketGrammar.{reading};
ghost use Rattle.segment_codec.specs.Value.{segment_of};
ghost use Rattle.ft_model.specs.Node.{Node, Place, is_for, place_at};
ghost use Rattle.ft_model.specs.Node.Input.{Packet_comes, Tick_comes};
ghost use Rattle.node_serving.specs.Clients.{known_in};
ghost use Rattle.node_serving.specs.Conn.{IsSound};
ghost use Rattle.node_serving.specs.declared.identity.Identity.{Identity as Incarnation};
ghost use Rattle.node_serving.specs.Loan.{IsConnAt};
ghost use Rattle.node_serving.specs.Slots.{AllStand, AllSound, IsSoundSlot};
ghost use Rattle.node_serving.specs.Turns.{SlotsTurn, SlotsTurnAlone};

use crate::identity::Identity;
use crate::slot::{Slot, live_conn, serve_slot, tick_slot};
use crate::turn::Turn;
use ft_io::{Key, NoMemory};
use indexmap::IndexMap;
use segment_codec::PacketRef;
use server_trait::Service;
use wrapped_conn::Conn;

/// The key at a place of the map.
pub(crate) fn key_at<S: Service>(slots: &IndexMap<Key, Slot<S>>, i: usize) -> Key
    requires { i < length slots.now.entries }
    ensures { option_map (λ e. e.0) (slice_get slots.now.entries i) ≡ Some result }
{
    let (key, _) = slots.get_index(i).unwrap();
    *key
}

/// The key at a place of the map, if there is such a place.
pub fn nth_key<S: Service>(slots: &IndexMap<Key, Slot<S>>, i: usize) -> Option<Key>
    ensures { result ≡ option_map (λ e. e.0) (slice_get slots.now.entries i) }
{
    let (key, _slot) = slots.get_index(i)?;
    Some(*key)
}

/// Removes the slot of a key. The others keep their order.
pub fn forget_slot<S: Service>(slots: &mut IndexMap<Key, Slot<S>>, key: Key)
    ensures slots { slots.new.entries ≡ remove_entry (key_eq key) slots.old.entries }
    ensures sound { (who : Incarnation) → AllSound who slots.old.entries → AllSound who slots.new.entries }
{
    drop(slots.shift_remove(&key));
}

/// Passes a tick to each slot, in order.
pub(crate) fn tick_all<S: Service>(
    who: Identity,
    slots: &mut IndexMap<Key, Slot<S>>,
    turn: &mut Turn,
) -> Result<(), NoMemory>
    requires { AllSound who slots.old.entries }
    ensures turn { OnOk result (SlotsTurn S.Service who Tick_comes slots.old.entries slots.new.entries turn.old turn.new) }
    ensures alone { OnOk result (SlotsTurnAlone S.Service who Tick_comes slots.old.entries slots.new.entries turn.old turn.new) }
    ensures known { OnOk result (known_in slots.new.entries ≡ known_in slots.old.entries) }
    ensures sound { OnOk result (AllSound who slots.new.entries) }
{
    for i in 0..slots.len() {
        let key = key_at(slots, i);
        tick_slot(who, key, &mut slots[i], turn)?;
    }
    Ok(())
}

/// Gives a segment to the slot of its client, if there is one. `packet` has the segment's bytes.
pub(crate) fn serve_known<S: Service>(
    who: Identity,
    segment: &PacketRef<'_>,
    slots: &mut IndexMap<Key, Slot<S>>,
    packet: &mut [u8],
    turn: &mut Turn,
) -> Result<(), NoMemory>
    requires sound { AllSound who slots.old.entries }
    requires read { reading packet.old ≡ Ok (segment_of segment.now) }
    ensures turn { OnOk result (is_for who.local (segment_of segment.now) ≡ true → SlotsTurn S.Service who (Packet_comes (segment_of segment.now))
        slots.old.entries slots.new.entries turn.old turn.new) }
    ensures alone { OnOk result (is_for who.local (segment_of segment.now) ≡ true → SlotsTurnAlone S.Service who (Packet_comes (segment_of segment.now))
        slots.old.entries slots.new.entries turn.old turn.new) }
    ensures known { OnOk result (known_in slots.new.entries ≡ known_in slots.old.entries) }
    ensures sound { OnOk result (AllSound who slots.new.entries) }
{
    if let Some(slot) = slots.get_mut(&segment.head.sender()) {
        serve_slot(who, segment, slot, packet, turn)?;
    }
    Ok(())
}

/// The connection of a key, while it is live.
pub fn conn_at<S: Service>(slots: &IndexMap<Key, Slot<S>>, key: Key) -> Option<&Conn<S>>
    ensures stands { (service : Machine S) (node : Node) (places : List Place) → AllStand service node slots.now.entries places
        → IsConnAt service node (option_copied result) (place_at key places) }
    ensures sound { (who : Incarnation) → AllSound who slots.now.entries → IfSome result (λ c. IsSound c.now) }
{
    live_conn(slots.get(&key)?)
}

/// Adds a slot at the end. The callers' keys have none yet; a key that had one would have it replaced.
pub fn add_slot<S: Service>(
    slots: &mut IndexMap<Key, Slot<S>>,
    key: Key,
    slot: Slot<S>,
) -> Result<(), NoMemory>
    ensures added { OnOk result (lookup (key_eq key) slots.old.entries ≡ None → slots.new.entries ≡ slots.old.entries ++ (key, slot) ∷ []) }
    ensures sound { OnOk result ((who : Incarnation) → AllSound who slots.old.entries → IsSoundSlot who key slot → AllSound who slots.new.entries) }
{
    drop(slots.insert(key, slot)?);
    Ok(())
}
