//! The turn that ends a restart: every entry of the log gets its slot, in the log's order, and those that aren't done become live.

ghost use Rattle.std.specs.Prelude.{◌≡◌, ◌≤◌, IfOk, OnOk};
ghost use Rattle.node_serving.specs.Clients.{known_as};
ghost use Rattle.node_serving.specs.Clients.Known.{Is_connected};
ghost use Rattle.node_serving.specs.Openings.{IsCounted};
ghost use Rattle.server_node.specs.RestartTurns.{LogRevives, LogRevivesAlone, EntryRevives, EntryRevivesAlone, SlotRevivesFrom, IsNumberedFrom};
ghost use Rattle.node_serving.specs.Slots.{AllSound, IsSoundSlot};
ghost use Rattle.node_serving.specs.Turns.{SendsFor};

use ft_io::NoMemory;
use indexmap::IndexMap;
use node_serving::{Identity, STRIDE, Serving, Slot, Turn, add_slot, start_live};
use reincarnate::{Entries, Replayed, Restored};
use seq_arith::Seq;
use server_trait::Service;

/// Restores the whole log.
pub(crate) fn restore_all<S: Service>(
    who: Identity,
    mut entries: Entries<S>,
    turn: &mut Turn,
) -> Result<Serving<S>, NoMemory>
    requires { 1 ≤ who.boot }
    ensures turn { IfOk result (λ serving. LogRevives S.Service who entries serving turn.old turn.new) }
    ensures alone { IfOk result (λ serving. LogRevivesAlone S.Service who entries serving turn.old turn.new) }
    ensures sound { IfOk result (λ serving. AllSound who serving.slots.entries) }
    ensures counted { IfOk result (λ serving. IsCounted who.isn serving.next.0) }
{
    let mut serving = Serving {
        next: Seq(who.isn),
        slots: IndexMap::new(turn.alloc),
    };
    while let Some(entry) = entries.advance() {
        restore(who, entry, &mut serving, turn)?;
    }
    Ok(serving)
}

/// Gives an entry its slot. An entry whose connection hasn't ended uses up an initial sequence number.
pub(crate) fn restore<S: Service>(
    who: Identity,
    entry: Restored<S>,
    serving: &mut Serving<S>,
    turn: &mut Turn,
) -> Result<(), NoMemory>
    requires boot { 1 ≤ who.boot }
    requires sound { AllSound who serving.old.slots.entries }
    ensures turn { OnOk result (EntryRevives S.Service who entry serving.old serving.new turn.old turn.new) }
    ensures alone { OnOk result (EntryRevivesAlone S.Service who entry serving.old serving.new turn.old turn.new) }
    ensures sound { OnOk result (AllSound who serving.new.slots.entries) }
    ensures counted { OnOk result (IsCounted who.isn serving.old.next.0 → IsCounted who.isn serving.new.next.0) }
{
    match entry {
        Restored::Ended(key) => add_slot(&mut serving.slots, key, Slot::Done),
        Restored::Live(replayed) => {
            let key = replayed.head().key;
            let slot = revive(who, serving.next, replayed, turn)?;
            serving.next = serving.next.add(STRIDE);
            add_slot(&mut serving.slots, key, slot)
        }
    }
}

/// Makes the slot of an entry whose reads are replayed: its connection becomes live, and its inner TCP has the initial sequence number `isn`.
pub(crate) fn revive<S: Service>(
    who: Identity,
    isn: Seq,
    replayed: Replayed<S>,
    turn: &mut Turn,
) -> Result<Slot<S>, NoMemory>
    requires boot { 1 ≤ who.boot }
    ensures turn { IfOk result (λ slot. SlotRevivesFrom S.Service who replayed slot turn.old turn.new) }
    ensures number { IfOk result (λ slot. IsNumberedFrom S.Service who replayed isn.0 slot) }
    ensures alone { OnOk result (SendsFor who replayed.head.key turn.old turn.new) }
    ensures known { IfOk result (λ slot. known_as slot ≡ Is_connected) }
    ensures sound { IfOk result (λ slot. IsSoundSlot who replayed.head.key slot) }
{
    let key = replayed.head().key;
    let Ok(spliced) = replayed.splice_in(who.profile, turn.alloc, who.boot, who.local, isn) else {
        return Err(NoMemory);
    };
    let mut conn = spliced.hand_on();
    start_live(who, key, &mut conn, turn)?;
    Ok(Slot::Live(conn))
}
