//! The end of a restart: the fetched entries become places, and those that aren't done become live.

ghost use Rattle.std.specs.Prelude.{◌≡◌, ◌<◌, ◌≤◌, ◌+◌, ◌∷◌, [], ◌^◌, true, IfOk, OnOk, length};
ghost use Rattle.server_trait.specs.Service.{machine};
ghost use Rattle.tcp_rules.specs.Profiles.{profile_of};
ghost use Rattle.ft_model.specs.Lawful.{Revives, restored, restored_count};
ghost use Rattle.ft_model.specs.Node as law;
ghost use Rattle.ft_model.specs.Restart.{is_whole};
ghost use Rattle.plain_world.specs.Restored.{AreRestored, IsRestored};
ghost use Rattle.plain_world.specs.Served.{AreServed, AreWhole, IsServedPlace};
ghost use Rattle.plain_world.specs.NodeTurns.{SendsBy};
ghost use Rattle.plain_world.specs.Values.{place_in, node_of};

use crate::incarnation::Incarnation;
use crate::place::{PlainPlace, turn_live};
use crate::serving::Serving;
use ft_io::NoMemory;
use plain_connection::{News, PlainConnection};
use plain_log::{PlainFetched, PlainFetching};
use plain_packets::PlainPackets;
use server_trait::Service;
use std::alloc::Global;

/// Returns the place of a fetched entry. Unless the entry is done, it is a live connection, after its first turn from the entry's point. After `NoMemory`
/// the packets may only be dropped.
fn restored_place<S: Service>(
    alloc: Global,
    who: Incarnation,
    entry: PlainFetched,
    sent: &mut PlainPackets,
) -> Result<PlainPlace<S>, NoMemory>
    requires { is_whole entry ≡ true }
    ensures turn { IfOk result (λ place. (stage : law.Stage) → SendsBy (Revives (machine (S.started who.kind) S.after S.greeting) (node_of who stage)
        (restored (machine (S.started who.kind) S.after S.greeting) (profile_of who.profile) entry) (place_in place ∷ [])) sent.old sent.new) }
    ensures served { IfOk result (λ place. IsServedPlace who.kind (machine (S.started who.kind) S.after S.greeting) place) }
{
    let head = entry.head();
    if head.done {
        return Ok(PlainPlace::Ended(head.key));
    }
    let mut connection = PlainConnection::resumed(alloc, who.profile, who.kind, entry)?;
    turn_live(alloc, who, &mut connection, &News::Begins, sent)?;
    Ok(PlainPlace::Lives(connection))
}

impl<S: Service> Serving<S> {
    /// Makes the next entry the last place. Unless it is done, it uses up an initial sequence number. After `NoMemory` `self` may only be dropped.
    fn restore(
        &mut self,
        alloc: Global,
        who: Incarnation,
        entry: PlainFetched,
        sent: &mut PlainPackets,
    ) -> Result<(), NoMemory>
        requires whole { is_whole entry ≡ true }
        requires few { self.old.opened < 2 ^ 32 }
        ensures opened { OnOk result (self.new.opened ≡ self.old.opened + restored_count (entry ∷ [])) }
        ensures turn { OnOk result ((stage : law.Stage) → IsRestored (machine (S.started who.kind) S.after S.greeting) (node_of who stage) entry
            self.old.places.items self.new.places.items sent.old sent.new) }
        ensures served { OnOk result (AreServed who.kind (machine (S.started who.kind) S.after S.greeting) self.old.places.items
            → AreServed who.kind (machine (S.started who.kind) S.after S.greeting) self.new.places.items) }
    {
        self.opened += u64::from(!entry.head().done);
        let place = restored_place(alloc, who, entry, sent)?;
        self.places.push(place)?;
        Ok(())
    }
}

/// Returns the places of all fetched entries, in the log's order, each after its first turn. After `NoMemory` the entries and the packets may only be
/// dropped.
pub(crate) fn restore_all<S: Service>(
    alloc: Global,
    who: Incarnation,
    fetched: &mut PlainFetching,
    sent: &mut PlainPackets,
) -> Result<Serving<S>, NoMemory>
    requires whole { AreWhole fetched.old }
    requires few { length fetched.old ≤ 65535 }
    ensures turn { IfOk result (λ serving. (stage : law.Stage)
        → AreRestored (machine (S.started who.kind) S.after S.greeting) (node_of who stage) fetched.old serving sent.old sent.new) }
    ensures few { IfOk result (λ serving. serving.opened ≤ 65535) }
    ensures served { IfOk result (λ serving. AreServed who.kind (machine (S.started who.kind) S.after S.greeting) serving.places.items) }
{
    let mut serving = Serving {
        opened: 0,
        places: Vec::new(alloc),
    };
    while let Some(entry) = fetched.pop() {
        serving.restore(alloc, who, entry, sent)?;
    }
    Ok(serving)
}
