//! Laws of the world. Each is the contract of a function that does nothing.

ghost use Rattle.std.specs.Prelude.{◌≡◌, ℕ, true, Some, List, map};
ghost use Rattle.ft_model.specs.Client.{Client};
ghost use Rattle.ft_model.specs.Legal.{machines};
ghost use Rattle.ft_model.specs.Network.{Packet};
ghost use Rattle.ft_model.specs.Report.{packet_lines};
ghost use Rattle.ft_model.specs.World.{Moment};
ghost use Rattle.ft_model.specs.declared.event.Event.{Event};
ghost use Rattle.ft_model.specs.declared.schedule.Schedule.{Schedule};
ghost use Rattle.ft_model.specs.declared.way.Way.{Way};
ghost use Rattle.mark_laws.specs.MarkedLegal.{markers};
ghost use Rattle.mark_laws.specs.MarkedWorld.{MarkedWorld, MarkedMoment, MarkedJoint, marked_after};
ghost use Rattle.schedule_network.specs.AtNumber.{at_number};
ghost use Rattle.schedule_network.specs.FullLog.{HasDistinctKeys};
ghost use Rattle.net_schedule.specs.MarkedStep.{MarkedStandsAfter};
ghost use Rattle.net_schedule.specs.SentPackets.{KeepsAllSent, WasSentAs, KeepsAllParcels, ParcelSentAs, KeepsAllMarked, MarkedSentAs};
ghost use Rattle.net_schedule.specs.Refinement.{Kept};
ghost use Rattle.net_schedule.specs.Step.{StandsAfter};
ghost use Rattle.net_schedule.specs.TwinStep.{TwinStandsAfter};
ghost use Rattle.twin_laws.specs.TwinWorld.{TwinMoment};

use ft_model::wire::packets_have_wires;
use mark_laws::marking::marks_that_go_out_are_true;
use mark_laws::{marked_parcels_are_written, marks_stay_true};
use server_trait::{Saved, Service};
use twin_laws::{flat_traces_show_all, legal_traces_are_masked, parcels_are_written};

/// The lines of packets depend only on the clients' keys.
#[tactic(auto, using(crate::proofs::Keys::same_lines))]
pub fn lines_depend_on_keys()
    ensures { (cs ds : List Client) (n : ℕ) (ps : List Packet) → map (λ c. c.key) cs ≡ map (λ c. c.key) ds
        → packet_lines cs n ps ≡ packet_lines ds n ps }
{}

/// The world's keys are those of the schedule's clients, in order, whatever was done.
pub fn keys_are_the_schedules<S: Service>()
    ensures one { (schedule : Schedule) (events : List Event) (trace : List Moment) (w : Kept S)
        → StandsAfter (machines S.started S.after S.greeting) schedule events trace w → w.keys ≡ map (λ line. line.key) schedule.clients }
    ensures two { (schedule : Schedule) (events : List Event) (trace : List TwinMoment) (w : Kept S)
        → TwinStandsAfter (machines S.started S.after S.greeting) schedule events trace w → w.keys ≡ map (λ line. line.key) schedule.clients }
{
    legal_traces_are_masked::<S>();
    flat_traces_show_all::<S>();
    parcels_are_written::<S>();
}

/// The world stores the packets of its trace, each in its one spelling and with the direction that the report names.
pub fn worlds_keep_what_was_sent<S: Service>()
    ensures all { (schedule : Schedule) (events : List Event) (trace : List Moment) (w : Kept S)
        → StandsAfter (machines S.started S.after S.greeting) schedule events trace w → KeepsAllSent schedule trace w.packets }
    ensures each { (schedule : Schedule) (events : List Event) (trace : List Moment) (w : Kept S) (number : ℕ) (way : Way)
        (bytes : List ℕ) → StandsAfter (machines S.started S.after S.greeting) schedule events trace w → at_number w.packets.ways number ≡ Some way
        → at_number w.packets.bytes number ≡ Some bytes → WasSentAs schedule trace number way bytes }
    ensures twin_all { (schedule : Schedule) (events : List Event) (trace : List TwinMoment) (w : Kept S)
        → TwinStandsAfter (machines S.started S.after S.greeting) schedule events trace w → KeepsAllParcels schedule trace w.packets }
    ensures twin_each { (schedule : Schedule) (events : List Event) (trace : List TwinMoment) (w : Kept S) (number : ℕ) (way : Way)
        (bytes : List ℕ) → TwinStandsAfter (machines S.started S.after S.greeting) schedule events trace w → at_number w.packets.ways number ≡ Some way
        → at_number w.packets.bytes number ≡ Some bytes → ParcelSentAs schedule trace number way bytes }
{
    packets_have_wires::<S>();
    legal_traces_are_masked::<S>();
    flat_traces_show_all::<S>();
    parcels_are_written::<S>();
}

/// In a trace with marks, no two entries of the log have the same key.
pub fn marked_logs_have_distinct_keys<S: Saved>()
    ensures { (kind every : ℕ) (start : MarkedWorld) (trace : List MarkedMoment)
        → MarkedJoint (markers (machines S.started S.after S.greeting) S.form S.state_of every kind) start trace
        → HasDistinctKeys (marked_after start trace).log }
{
    marks_stay_true::<S>();
    marks_that_go_out_are_true::<S>();
}

/// With marks, too, the world's keys are those of the schedule's clients, and the world stores the parcels of its trace (packets, and messages about
/// marks), each in its one spelling and with its direction. The service is one that can be saved: with any other, no schedule is played with marks.
pub fn marked_worlds_keep_what_was_sent<S: Saved>()
    ensures keys { (every : ℕ) (schedule : Schedule) (events : List Event) (trace : List MarkedMoment) (w : Kept S)
        → MarkedStandsAfter (markers (machines S.started S.after S.greeting) S.form S.state_of every) schedule events trace w
        → w.keys ≡ map (λ line. line.key) schedule.clients }
    ensures all { S.is_savable ≡ true → (every : ℕ) (schedule : Schedule) (events : List Event) (trace : List MarkedMoment) (w : Kept S)
        → MarkedStandsAfter (markers (machines S.started S.after S.greeting) S.form S.state_of every) schedule events trace w
        → KeepsAllMarked schedule trace w.packets }
    ensures each { S.is_savable ≡ true → (every : ℕ) (schedule : Schedule) (events : List Event) (trace : List MarkedMoment) (w : Kept S) (number : ℕ)
        (way : Way) (bytes : List ℕ) → MarkedStandsAfter (markers (machines S.started S.after S.greeting) S.form S.state_of every) schedule events trace w
        → at_number w.packets.ways number ≡ Some way → at_number w.packets.bytes number ≡ Some bytes → MarkedSentAs schedule trace number way bytes }
{
    marked_parcels_are_written::<S>();
}
