//! What a message of the logger does at the slot of the key that it names.

ghost use Rattle.limits.specs.Limits.{largest_segment};
ghost use Rattle.std.specs.Prelude.{◌≡◌, ◌<◌, ◌≤◌, List, Some, OnOk, IfSome, length, option_map, position, remove};
ghost use Rattle.std.specs.Map.{lookup, keys_of};
ghost use Rattle.indexmap.specs.IndexMap.{set_value_at};
ghost use Rattle.std.specs.List.{IsDistinct};
ghost use Rattle.ft_io.specs.Key.{key_eq};
ghost use Rattle.seq_arith.specs.Message.{Kept, Message};
ghost use Rattle.seq_arith.specs.Message.Body.{OpenedMsg, EndedMsg, FullMsg};
ghost use Rattle.server_trait.specs.Service.{Machine};
ghost use Rattle.logger_wire.specs.Value.{body_of, message_of, IsSendableBy};
ghost use Rattle.ft_model.specs.Node.{Node, Place};
ghost use Rattle.ft_model.specs.Node.Input.{Message_comes};
ghost use Rattle.ft_model.specs.Wire.{Wire};
ghost use Rattle.node_serving.specs.Alone.{SlotsAlone};
ghost use Rattle.node_serving.specs.Clients.{known_after, known_as, known_in};
ghost use Rattle.node_serving.specs.Identity.{grammar_in};
ghost use Rattle.node_serving.specs.LogMessages.{IsLogged, opening_in, ended as ended_lem};
ghost use Rattle.node_serving.specs.declared.identity.Identity.{Identity as Incarnation};
ghost use Rattle.node_serving.specs.Slots.{numbers_of, IsSoundSlot, AllStand, AllSlotsGo, AllSound};
ghost use Rattle.node_serving.specs.Turns.{SendsFor, SlotTurns, SlotsTurn, SlotsTurnAlone};

use crate::identity::Identity;
use crate::live::{begin_live, receive_live};
use crate::refusal::refuse_full;
use crate::slot::{Opening, Slot};
use crate::turn::Turn;
use ft_io::{Key, NoMemory};
use indexmap::IndexMap;
use logger_wire::{Body, Msg};
use seq_arith::Seq;
use server_trait::Service;
use std::mem;
use tcp_rules::Timestamping;

fn receive_in_slot<S: Service>(
    who: Identity,
    key: Key,
    slot: &mut Slot<S>,
    m: &Msg<'_>,
    turn: &mut Turn,
) -> Result<(), NoMemory>
    requires sound { IsSoundSlot who key slot.old }
    requires sendable { IsSendableBy (grammar_in who) m.now }
    ensures turn { OnOk result ((kept : Kept) → IsLogged who.boot (message_of m.now) key kept
        → SlotTurns S.Service who (Message_comes (message_of m.now)) key slot.old slot.new turn.old turn.new) }
    ensures alone { OnOk result (SendsFor who key turn.old turn.new) }
    ensures known { OnOk result (known_as slot.new ≡ known_as slot.old) }
    ensures sound { OnOk result (IsSoundSlot who key slot.new) }
{
    match slot {
        Slot::Live(conn) => receive_live(who, key, conn, m, turn),
        Slot::Pending(_) | Slot::Done => Ok(()),
    }
}

/// Handles a message that says how much of a connection is logged.
pub(crate) fn receive_known<S: Service>(
    who: Identity,
    key: Key,
    slots: &mut IndexMap<Key, Slot<S>>,
    m: &Msg<'_>,
    turn: &mut Turn,
) -> Result<(), NoMemory>
    requires sound { AllSound who slots.old.entries }
    requires sendable { IsSendableBy (grammar_in who) m.now }
    ensures turn { OnOk result ((kept : Kept) → IsLogged who.boot (message_of m.now) key kept
        → SlotsTurn S.Service who (Message_comes (message_of m.now)) slots.old.entries slots.new.entries turn.old turn.new) }
    ensures alone { OnOk result ((kept : Kept) → IsLogged who.boot (message_of m.now) key kept
        → SlotsTurnAlone S.Service who (Message_comes (message_of m.now)) slots.old.entries slots.new.entries turn.old turn.new) }
    ensures known { OnOk result (known_in slots.new.entries ≡ known_in slots.old.entries) }
    ensures sound { OnOk result (AllSound who slots.new.entries) }
{
    if let Some(slot) = slots.get_mut(&key) {
        receive_in_slot(who, key, slot, m, turn)?;
    }
    Ok(())
}

fn end_slot<S: Service>(slot: &mut Slot<S>)
    ensures { slot.new ≡ ended_lem slot.old }
{
    match slot {
        Slot::Live(_) => drop(mem::replace(slot, Slot::Done)),
        Slot::Pending(_) | Slot::Done => {}
    }
}

/// Handles the message that the end of a connection is logged.
pub(crate) fn end_known<S: Service>(key: Key, slots: &mut IndexMap<Key, Slot<S>>)
    ensures turn { (service : Machine S) (node : Node) (places : List Place) (message : Message) (reported : List Wire)
        → message ≡ record { boot = node.boot; body = EndedMsg key }
        → AllStand service node slots.old.entries places → AllSlotsGo service node (Message_comes message) places slots.new.entries reported reported }
    ensures alone { (service : Machine S) (node : Node) (message : Message) (reported : List Wire) → message ≡ record { boot = node.boot; body = EndedMsg key }
        → SlotsAlone service node (Message_comes message) slots.old.entries slots.new.entries reported reported }
    ensures known { known_in slots.new.entries ≡ known_in slots.old.entries }
    ensures sound { (who : Incarnation) → AllSound who slots.old.entries → AllSound who slots.new.entries }
{
    if let Some(slot) = slots.get_mut(&key) {
        end_slot(slot);
    }
}

/// A pending opening, and the place of its slot.
#[derive(Clone, Copy)]
struct PendingAt {
    place: usize,
    opening: Opening,
}

/// The opening that is pending for a key, with the place of the key's slot.
fn pending_at<S: Service>(key: Key, slots: &IndexMap<Key, Slot<S>>) -> Option<PendingAt>
    ensures found { option_map (λ at. at.opening) result ≡ opening_in (lookup (key_eq key) slots.now.entries) }
    ensures place { IfSome result (λ at. position (key_eq key) (keys_of slots.now.entries) ≡ Some at.place) }
    ensures within { IfSome result (λ at. at.place < length slots.now.entries) }
    ensures unique { IsDistinct key_eq (keys_of slots.now.entries) }
{
    let place = slots.get_index_of(&key)?;
    let opening = opening_of(&slots[place])?;
    Some(PendingAt { place, opening })
}

/// The opening that is pending for a key.
pub(crate) fn opening_at<S: Service>(key: Key, slots: &IndexMap<Key, Slot<S>>) -> Option<Opening>
    ensures found { result ≡ opening_in (lookup (key_eq key) slots.now.entries) }
    ensures unique { IsDistinct key_eq (keys_of slots.now.entries) }
{
    let place = slots.get_index_of(&key)?;
    opening_of(&slots[place])
}

fn opening_of<S: Service>(slot: &Slot<S>) -> Option<Opening>
    ensures { result ≡ opening_in (Some slot.now) }
{
    match slot {
        Slot::Pending(opening) => Some(*opening),
        Slot::Live(_) | Slot::Done => None,
    }
}

/// Replaces the slot at a place.
fn put_slot<S: Service>(place: usize, slots: &mut IndexMap<Key, Slot<S>>, slot: Slot<S>)
    requires { place < length slots.old.entries }
    ensures { slots.new.entries ≡ set_value_at slots.old.entries place slot }
{
    drop(mem::replace(&mut slots[place], slot));
}

/// Removes the slot at a place. The others keep their order.
fn drop_slot<S: Service>(place: usize, slots: &mut IndexMap<Key, Slot<S>>)
    ensures { slots.new.entries ≡ remove slots.old.entries place }
{
    drop(slots.shift_remove_index(place));
}

/// Handles the message that the log has an entry for a key, with these numbers: a pending opening with the same initial sequence number of the client becomes
/// a connection, and one with another is removed.
pub(crate) fn open_known<S: Service>(
    who: Identity,
    key: Key,
    numbers: Opening,
    slots: &mut IndexMap<Key, Slot<S>>,
    turn: &mut Turn,
) -> Result<(), NoMemory>
    requires boot { 1 ≤ who.boot }
    requires least { 64 ≤ numbers.mss }
    requires most { numbers.mss ≤ largest_segment }
    requires sound { AllSound who slots.old.entries }
    ensures turn { OnOk result ((message : Message) → message ≡ record { boot = who.boot; body = OpenedMsg (numbers_of key numbers) }
        → SlotsTurn S.Service who (Message_comes message) slots.old.entries slots.new.entries turn.old turn.new) }
    ensures alone { OnOk result ((message : Message) → message ≡ record { boot = who.boot; body = OpenedMsg (numbers_of key numbers) }
        → SlotsTurnAlone S.Service who (Message_comes message) slots.old.entries slots.new.entries turn.old turn.new) }
    ensures known { OnOk result (known_in slots.new.entries ≡ known_after (OpenedMsg (numbers_of key numbers)) (known_in slots.old.entries)) }
    ensures sound { OnOk result (AllSound who slots.new.entries) }
{
    let Some(pending) = pending_at(key, slots) else {
        return Ok(());
    };
    let opening = pending.opening;
    if opening.cisn.0 != numbers.cisn.0 {
        drop_slot(pending.place, slots);
        return Ok(());
    }
    let kept = Opening {
        timestamping: opening.timestamping,
        ..numbers
    };
    let conn = begin_live(who, key, kept, turn)?;
    put_slot(pending.place, slots, Slot::Live(conn));
    Ok(())
}

/// Handles the message that the log is full: refuses the SYN of a pending opening, and removes the opening.
pub(crate) fn refuse_known<S: Service>(
    who: Identity,
    key: Key,
    slots: &mut IndexMap<Key, Slot<S>>,
    turn: &mut Turn,
) -> Result<(), NoMemory>
    requires sound { AllSound who slots.old.entries }
    ensures turn { OnOk result ((message : Message) → message ≡ record { boot = who.boot; body = FullMsg key }
        → SlotsTurn S.Service who (Message_comes message) slots.old.entries slots.new.entries turn.old turn.new) }
    ensures alone { OnOk result ((message : Message) → message ≡ record { boot = who.boot; body = FullMsg key }
        → SlotsTurnAlone S.Service who (Message_comes message) slots.old.entries slots.new.entries turn.old turn.new) }
    ensures known { OnOk result (known_in slots.new.entries ≡ known_after (FullMsg key) (known_in slots.old.entries)) }
    ensures sound { OnOk result (AllSound who slots.new.entries) }
{
    let Some(pending) = pending_at(key, slots) else {
        return Ok(());
    };
    refuse_full(who, key, pending.opening, turn)?;
    drop_slot(pending.place, slots);
    Ok(())
}

/// Handles a message of this boot.
pub(crate) fn receive<S: Service>(
    who: Identity,
    m: &Msg<'_>,
    slots: &mut IndexMap<Key, Slot<S>>,
    turn: &mut Turn,
) -> Result<(), NoMemory>
    requires boot { 1 ≤ who.boot }
    requires sendable { IsSendableBy (grammar_in who) m.now }
    requires sound { AllSound who slots.old.entries }
    ensures turn { OnOk result (m.now.boot ≡ who.boot
        → SlotsTurn S.Service who (Message_comes (message_of m.now)) slots.old.entries slots.new.entries turn.old turn.new) }
    ensures alone { OnOk result (m.now.boot ≡ who.boot
        → SlotsTurnAlone S.Service who (Message_comes (message_of m.now)) slots.old.entries slots.new.entries turn.old turn.new) }
    ensures known { OnOk result (known_in slots.new.entries ≡ known_after (body_of m.now.body) (known_in slots.old.entries)) }
    ensures sound { OnOk result (AllSound who slots.new.entries) }
{
    match m.body {
        Body::Stable(kept) => receive_known(who, kept.key, slots, m, turn),
        Body::Reads(kept) => receive_known(who, kept.key, slots, m, turn),
        Body::Ended { key } => {
            end_known(key, slots);
            Ok(())
        }
        Body::Opened(numbers) => {
            let opening = Opening {
                cisn: Seq(numbers.cisn),
                sisn: Seq(numbers.sisn),
                mss: numbers.mss,
                timestamping: Timestamping::Off,
            };
            open_known(who, numbers.key, opening, slots, turn)
        }
        Body::Full { key } => refuse_known(who, key, slots, turn),
        _ => Ok(()),
    }
}
