//! A node that marks, while it serves: its turns are those of a node without marks, and the marks of the connections that the input concerns are sent in
//! them.

ghost use Rattle.std.specs.Prelude.{◌≡◌, ◌≤◌, ℕ, [], Ok, Some, OnOk, MatchOption, false};
ghost use Rattle.std.specs.List.{IsDistinct};
ghost use Rattle.std.specs.Map.{keys_of};
ghost use Rattle.ft_io.specs.declared.Key.{Key as Client};
ghost use Rattle.ft_io.specs.Key.{key_eq};
ghost use Rattle.seq_arith.specs.PacketGrammar.{reading};
ghost use Rattle.seq_arith.specs.Mark.MarkBody.{MarkedMsg};
ghost use Rattle.segment_codec.specs.Value.{segment_of};
ghost use Rattle.logger_wire.specs.Value.{body_of, message_of, IsSendableBy};
ghost use Rattle.logger_wire.specs.MarkValue.{message_of as mark_message_of};
ghost use Rattle.ft_model.specs.Node.{is_for};
ghost use Rattle.ft_model.specs.Node.Input.{Packet_comes, Message_comes, Tick_comes};
ghost use Rattle.ft_model.specs.ServingTurn.{names};
ghost use Rattle.mark_laws.specs.MarkedNode.MarkedInput.{Plain_comes, Mark_comes};
ghost use Rattle.node_serving.specs.Identity.{grammar_in};
ghost use Rattle.node_serving.specs.Markers.{saving};
ghost use Rattle.node_serving.specs.MarkedAlone.{MarksOnly, SlotTickBeside, SlotsTickBeside, ServingTurnsBeside};
ghost use Rattle.node_serving.specs.MarkedServing.{SlotTicksMarked, AllTickMarked, KeyMarked, ServingTurnsMarked, ServingReceives};
ghost use Rattle.node_serving.specs.Openings.{IsCounted};
ghost use Rattle.node_serving.specs.Slots.{AllSound, IsSoundSlot};

use crate::identity::Identity;
use crate::marking::{send_new, send_outstanding};
use crate::opening::ask_all;
use crate::sent::fit;
use crate::serving::{Serving, is_for, serve_bytes, serve_message};
use crate::slot::{Slot, live_conn, tick_slot};
use crate::slots::{conn_at, key_at};
use crate::turn::Turn;
use conn_marks::Marks;
use ft_io::{Key, NoMemory};
use indexmap::IndexMap;
use logger_wire::{Body, MarkBody, MarkMsg, Msg};
use segment_codec::PacketRef;
use server_trait::Saved;

/// Passes a tick to one slot, and sends the outstanding mark of its connection again.
fn tick_marked<S: Saved>(
    who: Identity,
    key: Key,
    slot: &mut Slot<S>,
    marks: &Marks,
    turn: &mut Turn,
) -> Result<(), NoMemory>
    requires boot { 1 ≤ who.boot }
    requires sound { IsSoundSlot who key slot.old }
    ensures turn { OnOk result (SlotTicksMarked S.Service (saving S.form S.state_of S.is_savable) who marks.now key slot.old slot.new turn.old turn.new) }
    ensures alone { OnOk result (SlotTickBeside S.Service who key slot.old slot.new turn.old turn.new) }
    ensures sound { OnOk result (IsSoundSlot who key slot.new) }
{
    let from = turn.sent.len();
    tick_slot(who, key, slot, turn)?;
    match live_conn(slot) {
        Some(_) => send_outstanding(who, key, marks, from, turn),
        None => Ok(()),
    }
}

/// Passes a tick to each slot, in order.
fn tick_all_marked<S: Saved>(
    who: Identity,
    slots: &mut IndexMap<Key, Slot<S>>,
    marks: &Marks,
    turn: &mut Turn,
) -> Result<(), NoMemory>
    requires boot { 1 ≤ who.boot }
    requires sound { AllSound who slots.old.entries }
    ensures turn { OnOk result (AllTickMarked S.Service
        (saving S.form S.state_of S.is_savable) who marks.now slots.old.entries slots.new.entries turn.old turn.new) }
    ensures alone { OnOk result (SlotsTickBeside S.Service who slots.old.entries slots.new.entries turn.old turn.new) }
    ensures sound { OnOk result (AllSound who slots.new.entries) }
{
    for i in 0..slots.len() {
        let key = key_at(slots, i);
        tick_marked(who, key, &mut slots[i], marks, turn)?;
    }
    Ok(())
}

/// Passes a tick to all connections, and asks again for each pending opening.
pub fn serve_tick_marked<S: Saved>(
    who: Identity,
    serving: &mut Serving<S>,
    marks: &Marks,
    turn: &mut Turn,
) -> Result<(), NoMemory>
    requires boot { 1 ≤ who.boot }
    requires sound { AllSound who serving.old.slots.entries }
    requires counted { IsCounted who.isn serving.old.next.0 }
    ensures turn { OnOk result (ServingTurnsMarked S.Service
        (saving S.form S.state_of S.is_savable) who Tick_comes serving.old serving.new marks.now marks.now turn.old turn.new) }
    ensures alone { OnOk result (ServingTurnsBeside S.Service who (Plain_comes Tick_comes) serving.old serving.new marks.now marks.now turn.old turn.new) }
    ensures sound { OnOk result (AllSound who serving.new.slots.entries) }
    ensures counted { OnOk result (IsCounted who.isn serving.new.next.0) }
{
    tick_all_marked(who, &mut serving.slots, marks, turn)?;
    ask_all(who, &serving.slots, turn)
}

/// Sends the mark of a key's connection, if it is live and a mark is due, after a turn other than a tick that concerned the key.
pub(crate) fn mark_key<S: Saved>(
    who: Identity,
    key: Key,
    slots: &IndexMap<Key, Slot<S>>,
    marks: &mut Marks,
    turn: &mut Turn,
) -> Result<(), NoMemory>
    requires boot { 1 ≤ who.boot }
    requires sound { AllSound who slots.now.entries }
    ensures turn { OnOk result (KeyMarked S.Service (saving S.form S.state_of S.is_savable) who key slots.now.entries marks.old marks.new turn.old turn.new) }
    ensures alone { OnOk result (MarksOnly who.boot key marks.old marks.new turn.old.sent.items turn.new.sent.items) }
{
    match conn_at(slots, key) {
        Some(conn) => send_new(who, key, conn, marks, 0, turn),
        None => Ok(()),
    }
}

/// A fact for proofs: no key has two slots.
pub fn apart<S: Saved>(slots: &IndexMap<Key, Slot<S>>)
    ensures { IsDistinct key_eq (keys_of slots.now.entries) }
{
    let _count = slots.len();
}

/// Handles a packet that the codec has read. `packet` has its bytes. One for another server changes nothing.
pub fn serve_packet_marked<S: Saved>(
    who: Identity,
    segment: &PacketRef<'_>,
    packet: &[u8],
    serving: &mut Serving<S>,
    marks: &mut Marks,
    turn: &mut Turn,
) -> Result<(), NoMemory>
    requires boot { 1 ≤ who.boot }
    requires read { reading packet.now ≡ Ok (segment_of segment.now) }
    requires sound { AllSound who serving.old.slots.entries }
    requires counted { IsCounted who.isn serving.old.next.0 }
    requires empty { turn.old.sent.items ≡ [] }
    ensures turn { OnOk result (ServingTurnsMarked S.Service (saving S.form S.state_of S.is_savable) who
        (Packet_comes (segment_of segment.now)) serving.old serving.new marks.old marks.new turn.old turn.new) }
    ensures alone { OnOk result (ServingTurnsBeside S.Service who
        (Plain_comes (Packet_comes (segment_of segment.now))) serving.old serving.new marks.old marks.new turn.old turn.new) }
    ensures untouched { OnOk result (is_for who.local (segment_of segment.now) ≡ false
        → (serving.new ≡ serving.old) × (marks.new ≡ marks.old) × (turn.new.sent.items ≡ turn.old.sent.items)) }
    ensures sound { OnOk result (AllSound who serving.new.slots.entries) }
    ensures counted { OnOk result (IsCounted who.isn serving.new.next.0) }
{
    fit(packet);
    apart(&serving.slots);
    serve_bytes(who, segment, packet, serving, turn)?;
    if !is_for(who.local, segment) {
        return Ok(());
    }
    mark_key(who, segment.head.sender(), &serving.slots, marks, turn)
}

/// The key of the connection that a message names.
fn key_named(body: &Body<'_>) -> Option<Key>
    ensures { MatchOption result ((key : Client) → names (body_of body.now) key ≡ false) (λ named. (key : Client)
        → names (body_of body.now) key ≡ key_eq named key) }
{
    match *body {
        Body::Opened(numbers) => Some(numbers.key),
        Body::Stable(kept) => Some(kept.key),
        Body::Reads(kept) => Some(kept.key),
        Body::Ended { key } => Some(key),
        Body::Full { key } => Some(key),
        _ => None,
    }
}

/// Handles a message of this boot that isn't about marks.
pub fn serve_message_marked<S: Saved>(
    who: Identity,
    m: &Msg<'_>,
    serving: &mut Serving<S>,
    marks: &mut Marks,
    turn: &mut Turn,
) -> Result<(), NoMemory>
    requires boot { 1 ≤ who.boot }
    requires sendable { IsSendableBy (grammar_in who) m.now }
    requires sound { AllSound who serving.old.slots.entries }
    requires counted { IsCounted who.isn serving.old.next.0 }
    requires empty { turn.old.sent.items ≡ [] }
    ensures turn { OnOk result (m.now.boot ≡ who.boot
        → ServingTurnsMarked S.Service (saving S.form S.state_of S.is_savable) who
        (Message_comes (message_of m.now)) serving.old serving.new marks.old marks.new turn.old turn.new) }
    ensures alone { OnOk result (m.now.boot ≡ who.boot
        → ServingTurnsBeside S.Service who (Plain_comes (Message_comes (message_of m.now))) serving.old serving.new marks.old marks.new turn.old turn.new) }
    ensures sound { OnOk result (AllSound who serving.new.slots.entries) }
    ensures counted { OnOk result (IsCounted who.isn serving.new.next.0) }
{
    apart(&serving.slots);
    serve_message(who, m, serving, turn)?;
    match key_named(&m.body) {
        Some(key) => mark_key(who, key, &serving.slots, marks, turn),
        None => Ok(()),
    }
}

/// Handles a message of this boot about marks. One that is no answer to a mark changes nothing.
pub fn serve_mark<S: Saved>(
    who: Identity,
    m: &MarkMsg<'_>,
    serving: &Serving<S>,
    marks: &mut Marks,
    turn: &mut Turn,
) -> Result<(), NoMemory>
    requires boot { 1 ≤ who.boot }
    requires sound { AllSound who serving.now.slots.entries }
    requires counted { IsCounted who.isn serving.now.next.0 }
    requires empty { turn.old.sent.items ≡ [] }
    ensures turn { OnOk result (m.now.boot ≡ who.boot
        → ServingReceives S.Service (saving S.form S.state_of S.is_savable) who (mark_message_of m.now) serving.now marks.old marks.new turn.old turn.new) }
    ensures alone { OnOk result (m.now.boot ≡ who.boot
        → ServingTurnsBeside S.Service who (Mark_comes (mark_message_of m.now)) serving.now serving.now marks.old marks.new turn.old turn.new) }
{
    match m.body {
        MarkBody::Marked { key, reads } => receive_marked(who, key, reads, serving, marks, turn),
        MarkBody::Mark { .. } => Ok(()),
        MarkBody::Ask { .. } => Ok(()),
        MarkBody::Held { .. } => Ok(()),
    }
}

/// Handles the answer to a mark of `reads` reads, if its connection is live. The next mark is then sent if it is due.
fn receive_marked<S: Saved>(
    who: Identity,
    key: Key,
    reads: u32,
    serving: &Serving<S>,
    marks: &mut Marks,
    turn: &mut Turn,
) -> Result<(), NoMemory>
    requires boot { 1 ≤ who.boot }
    requires sound { AllSound who serving.now.slots.entries }
    requires empty { turn.old.sent.items ≡ [] }
    ensures alone { OnOk result (MarksOnly who.boot key marks.old marks.new turn.old.sent.items turn.new.sent.items) }
    ensures turn { OnOk result ((boot : ℕ) → ServingReceives S.Service (saving S.form S.state_of S.is_savable) who (record {
      boot = boot;
      body = MarkedMsg key reads;
    })
        serving.now marks.old marks.new turn.old turn.new) }
{
    apart(&serving.slots);
    let Some(conn) = conn_at(&serving.slots, key) else {
        return Ok(());
    };
    marks.receive(key, reads);
    send_new(who, key, conn, marks, 0, turn)
}
