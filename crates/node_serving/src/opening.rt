//! Openings: at a SYN of an unknown client the node asks the log for an entry, and asks again until the log answers.

ghost use Rattle.limits.specs.Limits.{largest_segment};
ghost use Rattle.std.specs.Prelude.{◌==◌, ◌&&◌, ◌≡◌, ◌≤◌, ◌∷◌, [], None, OnOk, true, nat_lt};
ghost use Rattle.std.specs.Map.{lookup, keys_of};
ghost use Rattle.std.specs.List.{IsDistinct};
ghost use Rattle.ft_io.specs.Key.{key_eq};
ghost use Rattle.seq_arith.specs.Packet.{Segment};
ghost use Rattle.seq_arith.specs.Message.Body.{OpenMsg};
ghost use Rattle.seq_arith.specs.Value.{said};
ghost use Rattle.segment_codec.specs.Value.{segment_of};
ghost use Rattle.ft_model.specs.Connection.{reported_by};
ghost use Rattle.ft_model.specs.Network.{source_of};
ghost use Rattle.ft_model.specs.Node.{Stage, is_for};
ghost use Rattle.ft_model.specs.Node.Input.{Packet_comes, Tick_comes};
ghost use Rattle.ft_model.specs.Opening.{is_syn as is_syn_lem};
ghost use Rattle.node_serving.specs.Identity.{node_of, grammar_in};
ghost use Rattle.node_serving.specs.Openings.{slot_opens, is_pending_slot, pending_slots, IsCounted};
ghost use Rattle.node_serving.specs.Slots.{numbers_of, AllSound, IsSoundSlot};
ghost use Rattle.node_serving.specs.Turns.{Sends, SendsOpens, TurnAdmits, TurnAdmitsAlone};

use crate::arrivals::opening_at;
use crate::identity::Identity;
use crate::sent::send_message;
use crate::slot::{Opening, Slot};
use crate::slots::{add_slot, key_at};
use crate::turn::Turn;
use ft_io::{Key, NoMemory};
use indexmap::IndexMap;
use limits::PENDING;
use logger_wire::{Body, Msg, Numbers};
use segment_codec::{Head, PacketRef};
use seq_arith::{ACK, RST, SYN, Seq, has, text_size};
use server_trait::Service;
use tcp_rules::Timestamping;

/// The distance from one connection's initial sequence number to the next one's.
pub const STRIDE: u32 = 65_536;

/// Asks the log to keep the numbers of an opening.
fn ask(who: Identity, key: Key, opening: Opening, turn: &mut Turn) -> Result<(), NoMemory>
    requires boot { 1 ≤ who.boot }
    requires least { 64 ≤ opening.mss }
    requires most { opening.mss ≤ largest_segment }
    ensures { OnOk result (Sends (grammar_in who) (reported_by who.boot (OpenMsg (numbers_of key opening)) ∷ []) turn.old turn.new) }
{
    let message = Msg {
        boot: who.boot,
        body: Body::Open(Numbers {
            key,
            cisn: opening.cisn.0,
            sisn: opening.sisn.0,
            mss: opening.mss,
        }),
    };
    send_message(who, &message, turn)
}

fn ask_slot<S: Service>(
    who: Identity,
    key: Key,
    slot: &Slot<S>,
    turn: &mut Turn,
) -> Result<(), NoMemory>
    requires boot { 1 ≤ who.boot }
    requires sound { IsSoundSlot who key slot.now }
    ensures { OnOk result ((stage : Stage) → Sends (grammar_in who) (slot_opens (node_of who stage) Tick_comes key slot.now) turn.old turn.new) }
{
    match slot {
        Slot::Pending(opening) => ask(who, key, *opening, turn),
        Slot::Live(_) | Slot::Done => Ok(()),
    }
}

/// Asks again for each pending opening, in order, at a tick.
pub(crate) fn ask_all<S: Service>(
    who: Identity,
    slots: &IndexMap<Key, Slot<S>>,
    turn: &mut Turn,
) -> Result<(), NoMemory>
    requires boot { 1 ≤ who.boot }
    requires sound { AllSound who slots.now.entries }
    ensures unique { IsDistinct key_eq (keys_of slots.now.entries) }
    ensures asked { OnOk result (SendsOpens who Tick_comes slots.now.entries turn.old turn.new) }
{
    for i in 0..slots.len() {
        ask_slot(who, key_at(slots, i), &slots[i], turn)?;
    }
    Ok(())
}

/// Whether a segment is a SYN without ACK and RST.
fn is_syn(head: &Head) -> bool
    ensures { (segment : Segment) → segment.head ≡ said head.now → result ≡ is_syn_lem segment }
{
    has(head.flags, SYN) && !has(head.flags, ACK) && !has(head.flags, RST)
}

/// Whether a segment is the SYN of an opening.
fn repeats(opening: Opening, head: &Head) -> bool
    ensures { (segment : Segment) → segment.head ≡ said head.now → result ≡ (is_syn_lem segment && segment.head.seq == opening.cisn.0) }
{
    is_syn(head) && head.seq.0 == opening.cisn.0
}

/// Asks again for the client's pending opening, if the segment repeats its SYN.
pub(crate) fn ask_again<S: Service>(
    who: Identity,
    segment: &PacketRef<'_>,
    slots: &IndexMap<Key, Slot<S>>,
    turn: &mut Turn,
) -> Result<(), NoMemory>
    requires boot { 1 ≤ who.boot }
    requires sound { AllSound who slots.now.entries }
    ensures unique { IsDistinct key_eq (keys_of slots.now.entries) }
    ensures asked { OnOk result (is_for who.local (segment_of segment.now) ≡ true
        → SendsOpens who (Packet_comes (segment_of segment.now)) slots.now.entries turn.old turn.new) }
{
    let key = segment.head.sender();
    let Some(opening) = opening_at(key, slots) else {
        return Ok(());
    };
    if !repeats(opening, &segment.head) {
        return Ok(());
    }
    ask(who, key, opening, turn)
}

fn is_pending<S: Service>(slot: &Slot<S>) -> bool
    ensures { result ≡ is_pending_slot slot.now }
{
    matches!(slot, Slot::Pending(_))
}

/// How many openings are pending.
fn pending_count<S: Service>(slots: &IndexMap<Key, Slot<S>>) -> usize
    ensures { result ≡ pending_slots slots.now.entries }
{
    let mut count = 0;
    for i in 0..slots.len() {
        count += usize::from(is_pending(&slots[i]));
    }
    count
}

/// Whether a segment of an unknown client begins an opening: a SYN does, while fewer than 64 openings are pending.
fn may_open<S: Service>(head: &Head, slots: &IndexMap<Key, Slot<S>>) -> bool
    ensures { (segment : Segment) → segment.head ≡ said head.now → result ≡ (is_syn_lem segment && nat_lt (pending_slots slots.now.entries) 64) }
{
    is_syn(head) && pending_count(slots) < PENDING
}

/// Handles a segment of an unknown client: a SYN makes a pending opening with the next initial sequence number, while fewer than 64 are pending.
pub(crate) fn admit<S: Service>(
    who: Identity,
    segment: &PacketRef<'_>,
    next: &mut Seq,
    slots: &mut IndexMap<Key, Slot<S>>,
    turn: &mut Turn,
) -> Result<(), NoMemory>
    requires boot { 1 ≤ who.boot }
    requires sound { AllSound who slots.old.entries }
    requires strange { lookup (key_eq (source_of (segment_of segment.now))) slots.old.entries ≡ None }
    ensures turn { OnOk result (is_for who.local (segment_of segment.now) ≡ true → TurnAdmits S.Service who (segment_of segment.now)
        next.old.0 next.new.0 slots.old.entries slots.new.entries turn.old turn.new) }
    ensures alone { OnOk result (TurnAdmitsAlone who (segment_of segment.now) next.old.0 next.new.0 slots.old.entries slots.new.entries turn.old turn.new) }
    ensures counted { OnOk result (IsCounted who.isn next.old.0 → IsCounted who.isn next.new.0) }
    ensures sound { OnOk result (AllSound who slots.new.entries) }
{
    if !may_open(&segment.head, slots) {
        return Ok(());
    }
    let key = segment.head.sender();
    let timestamping = Timestamping::asked(who.profile.timestamps(), segment.head.timestamps);
    let opening = Opening {
        cisn: segment.head.seq,
        sisn: *next,
        mss: text_size(segment.head.mss, timestamping.sent()),
        timestamping,
    };
    ask(who, key, opening, turn)?;
    add_slot(slots, key, Slot::Pending(opening))?;
    *next = next.add(STRIDE);
    Ok(())
}
