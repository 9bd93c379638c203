//! The turn that ends the restart of a node that marks: it restores the log as a node without marks does, and sends the mark of each connection if one is
//! due.

ghost use Rattle.std.specs.Prelude.{◌≤◌, length, IfOk, OnOk};
ghost use Rattle.node_serving.specs.Markers.{saving};
ghost use Rattle.server_node.specs.MarkedRestart.{LogRevivesMarked, EntryRevivesMarked, SlotRevivesMarked, SlotMarked};
ghost use Rattle.server_node.specs.RestartTurns.{IsNumberedFrom};
ghost use Rattle.node_serving.specs.Openings.{IsCounted};
ghost use Rattle.node_serving.specs.Slots.{AllSound, IsSoundSlot};

use crate::reviving::revive;
use conn_marks::Marks;
use ft_io::{Key, NoMemory};
use indexmap::IndexMap;
use node_serving::{Identity, STRIDE, Serving, Slot, Turn, add_slot, live_conn, send_new};
use reincarnate::{Entries, Replayed, Restored};
use seq_arith::Seq;
use server_trait::Saved;

/// Restores the whole log.
pub(crate) fn restore_all_marked<S: Saved>(
    who: Identity,
    mut entries: Entries<S>,
    marks: &mut Marks,
    turn: &mut Turn,
) -> Result<Serving<S>, NoMemory>
    requires { 1 ≤ who.boot }
    ensures turn { IfOk result (λ serving. LogRevivesMarked S.Service
        (saving S.form S.state_of S.is_savable) who entries serving marks.old marks.new turn.old turn.new) }
    ensures sound { IfOk result (λ serving. AllSound who serving.slots.entries) }
    ensures counted { IfOk result (λ serving. IsCounted who.isn serving.next.0) }
{
    let mut serving = Serving {
        next: Seq(who.isn),
        slots: IndexMap::new(turn.alloc),
    };
    while let Some(entry) = entries.advance() {
        restore_marked(who, entry, &mut serving, marks, turn)?;
    }
    Ok(serving)
}

/// Gives an entry its slot. An entry whose connection hasn't ended uses up an initial sequence number.
pub(crate) fn restore_marked<S: Saved>(
    who: Identity,
    entry: Restored<S>,
    serving: &mut Serving<S>,
    marks: &mut Marks,
    turn: &mut Turn,
) -> Result<(), NoMemory>
    requires boot { 1 ≤ who.boot }
    requires sound { AllSound who serving.old.slots.entries }
    ensures turn { OnOk result (EntryRevivesMarked S.Service
        (saving S.form S.state_of S.is_savable) who entry serving.old serving.new marks.old marks.new turn.old turn.new) }
    ensures sound { OnOk result (AllSound who serving.new.slots.entries) }
    ensures counted { OnOk result (IsCounted who.isn serving.old.next.0 → IsCounted who.isn serving.new.next.0) }
{
    match entry {
        Restored::Ended(key) => add_slot(&mut serving.slots, key, Slot::Done),
        Restored::Live(replayed) => {
            let key = replayed.head().key;
            let slot = revive_marked(who, serving.next, replayed, marks, turn)?;
            serving.next = serving.next.add(STRIDE);
            add_slot(&mut serving.slots, key, slot)
        }
    }
}

/// Makes the slot of an entry whose reads are replayed, and sends its mark if one is due. Its inner TCP has the initial sequence number `isn`.
fn revive_marked<S: Saved>(
    who: Identity,
    isn: Seq,
    replayed: Replayed<S>,
    marks: &mut Marks,
    turn: &mut Turn,
) -> Result<Slot<S>, NoMemory>
    requires { 1 ≤ who.boot }
    ensures turn { IfOk result (λ slot. SlotRevivesMarked S.Service
        (saving S.form S.state_of S.is_savable) who replayed slot marks.old marks.new turn.old turn.new) }
    ensures number { IfOk result (λ slot. IsNumberedFrom S.Service who replayed isn.0 slot) }
    ensures sound { IfOk result (λ slot. IsSoundSlot who replayed.head.key slot) }
{
    let key = replayed.head().key;
    let from = turn.sent.len();
    let slot = revive(who, isn, replayed, turn)?;
    mark_slot(who, key, &slot, marks, from, turn)?;
    Ok(slot)
}

/// Sends the mark of a slot whose connection has become live, if one is due.
fn mark_slot<S: Saved>(
    who: Identity,
    key: Key,
    slot: &Slot<S>,
    marks: &mut Marks,
    from: usize,
    turn: &mut Turn,
) -> Result<(), NoMemory>
    requires boot { 1 ≤ who.boot }
    requires sound { IsSoundSlot who key slot.now }
    requires from { from ≤ length turn.old.sent.items }
    ensures { OnOk result (SlotMarked S.Service (saving S.form S.state_of S.is_savable) who key from slot.now marks.old marks.new turn.old turn.new) }
{
    match live_conn(slot) {
        Some(conn) => send_new(who, key, conn, marks, from, turn),
        None => Ok(()),
    }
}
