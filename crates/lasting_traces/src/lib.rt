//! Laws of the traces of schedules whose server lasts: such a schedule has at most one legal trace and at most one outcome. Nothing here runs.
#![tactic(auto)]

ghost use Rattle.std.specs.Prelude.{◌≡◌, List};
ghost use Rattle.ft_model.specs.Legal.{machines};
ghost use Rattle.ft_model.specs.declared.schedule.Lasting.{Lasting};
ghost use Rattle.ft_model.specs.declared.schedule.Schedule.{Schedule};
ghost use Rattle.lasting_laws.specs.LastingLegal.{LastingLegal, IsLastingWhole, IsLastingRefused, IsLastingPastPackets};
ghost use Rattle.lasting_laws.specs.LastingWorld.{LastingMoment};

use server_trait::Service;

/// A schedule whose server lasts has at most one legal trace: its events and the definitions of clients, network, log and server leave nothing open, not even
/// when an entry is recycled, and what is then lost.
pub fn legal_lasting_traces_are_determined<S: Service>()
    ensures { (waits : Lasting) (schedule : Schedule) (trace other : List LastingMoment)
        → LastingLegal (machines S.started S.after S.greeting) waits schedule trace
        → LastingLegal (machines S.started S.after S.greeting) waits schedule other → trace ≡ other }
{}

/// It has only one outcome: no two of the three hold of it, and the event that is refused or exceeds the limit is determined, and so is the cause.
pub fn lasting_schedules_have_one_outcome<S: Service>()
    ensures whole_or_refused { (waits : Lasting) (schedule : Schedule) → IsLastingWhole (machines S.started S.after S.greeting) waits schedule
        → IsLastingRefused (machines S.started S.after S.greeting) waits schedule → ⊥ }
    ensures whole_or_past { (waits : Lasting) (schedule : Schedule) → IsLastingWhole (machines S.started S.after S.greeting) waits schedule
        → IsLastingPastPackets (machines S.started S.after S.greeting) waits schedule → ⊥ }
    ensures refused_or_past { (waits : Lasting) (schedule : Schedule) → IsLastingRefused (machines S.started S.after S.greeting) waits schedule
        → IsLastingPastPackets (machines S.started S.after S.greeting) waits schedule → ⊥ }
    ensures refused_once { (waits : Lasting) (schedule : Schedule) (a b : IsLastingRefused (machines S.started S.after S.greeting) waits schedule)
        → (a.played ≡ b.played) × (a.event ≡ b.event) × (a.why ≡ b.why) }
    ensures past_once { (waits : Lasting) (schedule : Schedule) (a b : IsLastingPastPackets (machines S.started S.after S.greeting) waits schedule)
        → (a.played ≡ b.played) × (a.event ≡ b.event) }
{}
