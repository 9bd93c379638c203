//! Two loggers seen as one: what a head and a tail do, as definitions, and the laws that they act as one log. Nothing here runs; each
//! function is a theorem.
#![tactic(auto)]

ghost use Rattle.std.specs.Prelude.{ℕ, List, [], ◌∷◌, Some, ◌≡◌, ◌<◌, ◌≤◌, ◌*◌, ◌^◌, true, false, length, Ok};
ghost use Rattle.std.specs.List.{AllByRecursion};
ghost use Rattle.seq_arith.specs.Damage.{flipped};
ghost use Rattle.seq_arith.specs.Message.{is_answer};
ghost use Rattle.seq_arith.specs.declared.kinds.Grammar.{Grammar};
ghost use Rattle.seq_arith.specs.MessageGrammar.{reading_by as message_reading};
ghost use Rattle.seq_arith.specs.TwinDatagram.{TwinDatagram};
ghost use Rattle.seq_arith.specs.TwinGrammar.{reading_by};
ghost use Rattle.tcp_rules.specs.Profile.{grammar_of};
ghost use Rattle.server_trait.specs.Service.{machine};
ghost use Rattle.server_trait.specs.Service.{no_greeting};
ghost use Rattle.ft_model.specs.Legal.{machines, start_of, IsLegalFor};
ghost use Rattle.ft_model.specs.Masked.{Masked};
ghost use Rattle.ft_model.specs.Network.{Packet};
ghost use Rattle.ft_model.specs.Readable.{FitsSchedule};
ghost use Rattle.ft_model.specs.Schedule.{kind_of};
ghost use Rattle.ft_model.specs.World.{Joint, WasSent, events_of, world_after};
ghost use Rattle.ft_model.specs.WorkedRuns.FirstPath;
ghost use Rattle.ft_model.specs.declared.event.Event.{Event};
ghost use Rattle.ft_model.specs.declared.event.Event.TheVariants.{Deliver};
ghost use Rattle.ft_model.specs.declared.schedule.Schedule.{Schedule};
ghost use Rattle.twin_laws.specs.Flat.{flat};
ghost use Rattle.twin_laws.specs.Pair.{Delivery, ActsAsOne, IsPaired, pair_over, new_pair, tail_over};
ghost use Rattle.twin_laws.specs.StoredState.{kept_head, kept_tail, kept_does, comes_from, in_bytes};
ghost use Rattle.twin_laws.specs.declared.part.Part.{Part};
ghost use Rattle.twin_laws.specs.Twin.{Comes, Request, Head, Tail, head_does, tail_does, has_room, waiting, waits, from_other_logger, bytes_of};
ghost use Rattle.twin_laws.specs.Twin.Between.{Forward, Got};
ghost use Rattle.twin_laws.specs.Twin.Comes.{Asks, Reports, Is_noise};
ghost use Rattle.twin_laws.specs.TwinLegal.{IsTwinLegalFor, TwinLegal, twin_start};
ghost use Rattle.twin_laws.specs.TwinOutcome.{IsTwinWhole, IsTwinRefused, IsTwinPastPackets};
ghost use Rattle.twin_laws.specs.TwinReport.{twin_report};
ghost use Rattle.twin_laws.specs.TwinWorld.{TwinWorld, TwinMoment, TwinJoint, TwinHappens, seen, parcel_at, twin_after};
ghost use Rattle.twin_laws.specs.TwinWorld.Parcel.{Outside};
ghost use Rattle.twin_laws.specs.TwinWorld.TwinEvent.{Usual, Stop};
ghost use Rattle.twin_laws.specs.SentBytes.{IsWritten};
ghost use Rattle.twin_laws.specs.WorkedPair.{at_first, worked, events_in, flat_events};
ghost use Rattle.twin_laws.specs.WorkedStop;

use ft_model::wire::packets_have_wires;
pub use part::{Part, Side};
use server_trait::Service;

mod part;

/// A head and a tail act as one log, whatever is delivered, lost, repeated and reordered, and whichever of them stops. This is a safety property only: a head
/// that forwards nothing would satisfy it too. The definitions say what each of them does, and the code follows them.
pub fn two_loggers_act_as_one()
    ensures { (deliveries : List Delivery) → ActsAsOne (pair_over new_pair deliveries) }
{}

/// A lost Forward isn't lost for good: all that is unconfirmed brings the tail up to date once it arrives in order, whatever was lost before. The head forwards
/// it where the server repeats an unconfirmed message, and where there is no room for a further one. `two_loggers_act_as_one` has the premises on numbers.
pub fn what_waits_is_forwarded_again()
    ensures arrives { (head : Head) (tail : Tail) → tail.alone ≡ false → head.confirmed ≤ tail.applied → tail.applied ≤ length head.taken
        → (tail_over tail (waiting head)).applied ≡ length head.taken }
    ensures repeated { (request : Request) (head : Head) → head.alone ≡ false → is_answer request.message.body ≡ false → waits request head ≡ true
        → (head_does (Asks request) head).to_other ≡ waiting (head_does (Asks request) head).next }
    ensures full { (request : Request) (head : Head) → head.alone ≡ false → is_answer request.message.body ≡ false → has_room head ≡ false
        → (head_does (Asks request) head).to_other ≡ waiting (head_does (Asks request) head).next }
{}

/// A joint trace with two loggers, made flat, is a joint trace with one log. So its clients see one server that never crashed.
pub fn flat_traces_are_masked<S: Service>()
    ensures joint { (kind : ℕ) (start : TwinWorld) (trace : List TwinMoment) → TwinJoint (machine (S.started kind) S.after S.greeting) start trace
        → Joint (machine (S.started kind) S.after S.greeting) (seen start []) (flat start trace).trace }
    ensures masked { (kind : ℕ) (start : TwinWorld) (trace : List TwinMoment) → TwinJoint (machine (S.started kind) S.after S.greeting) start trace
        → Masked (machine (S.started kind) S.after S.greeting) (seen start []) (flat start trace).trace }
{}

/// A legal trace of a schedule with two loggers, made flat, is a legal trace with one log, for the events of the flat trace. So its clients see one server
/// that never crashed.
pub fn legal_traces_are_masked<S: Service>()
    ensures legal { (schedule : Schedule) (events : List Event) (trace : List TwinMoment)
        → IsTwinLegalFor (machines S.started S.after S.greeting) schedule events trace
        → IsLegalFor (machines S.started S.after S.greeting) schedule (events_of (flat (twin_start schedule) trace).trace)
        (flat (twin_start schedule) trace).trace }
    ensures masked { (schedule : Schedule) (events : List Event) (trace : List TwinMoment)
        → IsTwinLegalFor (machines S.started S.after S.greeting) schedule events trace
        → Masked (machines S.started S.after S.greeting (kind_of schedule.service)) (start_of schedule) (flat (twin_start schedule) trace).trace }
{}

/// All that was sent in a joint trace can be written as bytes, and the datagrams between the loggers are read back as they were sent.
pub fn parcels_are_written<S: Service>()
    ensures { (kind : ℕ) (start : TwinWorld) (trace : List TwinMoment) → TwinJoint (machine (S.started kind) S.after S.greeting) start trace
        → AllByRecursion (IsWritten (grammar_of start.profile)) (twin_after start trace).parcels }
{
    packets_have_wires::<S>();
}

/// The flat trace ends in the world that the server and the clients see, and everything that was sent to them was sent in it too. A logger serves alone
/// exactly if the other has stopped, and the head counts no more requests as confirmed than it took.
pub fn flat_traces_show_all<S: Service>()
    ensures world { (kind : ℕ) (start : TwinWorld) (trace : List TwinMoment) → TwinJoint (machine (S.started kind) S.after S.greeting) start trace
        → world_after (seen start []) (flat start trace).trace ≡ seen (twin_after start trace) (flat start trace).packets }
    ensures sent { (kind number : ℕ) (start : TwinWorld) (trace : List TwinMoment) (packet : Packet)
        → TwinJoint (machine (S.started kind) S.after S.greeting) start trace
        → parcel_at (twin_after start trace).parcels number ≡ Some (Outside packet)
        → WasSent (seen (twin_after start trace) (flat start trace).packets) packet }
    ensures pair { (kind : ℕ) (start : TwinWorld) (trace : List TwinMoment) → TwinJoint (machine (S.started kind) S.after S.greeting) start trace
        → IsPaired (twin_after start trace).pair }
{}

/// A datagram between the loggers with one bit changed is noise where it arrives.
pub fn flipped_datagrams_are_noise()
    ensures { (grammar : Grammar) (bit : ℕ) (bytes : List ℕ) (datagram : TwinDatagram) → reading_by grammar bytes ≡ Ok datagram → bit < 8 * length bytes
        → from_other_logger grammar (reading_by grammar (flipped bit bytes)) ≡ Is_noise }
{}

/// From its stored state, a head or a tail does with any bytes from either side what its definition does. The premise: a head counts no more requests as
/// confirmed than it took.
pub fn kept_loggers_do_as_defined()
    ensures head { (grammar : Grammar) (side : Side) (bytes : List ℕ) (head : Head) → head.confirmed ≤ length head.taken
        → kept_does side bytes (kept_head grammar head) ≡ in_bytes (kept_head grammar) (head_does (comes_from grammar side bytes) head) }
    ensures tail { (grammar : Grammar) (side : Side) (bytes : List ℕ) (tail : Tail)
        → kept_does side bytes (kept_tail grammar tail) ≡ in_bytes (kept_tail grammar) (tail_does (comes_from grammar side bytes) tail) }
{}

/// What one logger sends to the other is read as it was sent.
pub fn what_is_sent_is_read()
    ensures forward { (grammar : Grammar) (number : ℕ) (request : Request) → message_reading grammar request.bytes ≡ Ok request.message
        → is_answer request.message.body ≡ false → 1 ≤ number → number < 2 ^ 64
        → from_other_logger grammar (reading_by grammar (bytes_of (Forward number request))) ≡ Reports (Forward number request) }
    ensures got { (grammar : Grammar) (number : ℕ) → 1 ≤ number → number < 2 ^ 64
        → from_other_logger grammar (reading_by grammar (bytes_of (Got number))) ≡ Reports (Got number) }
{}

/// A worked run: the head forwards the server's Hello and the tail answers it. Made flat, it is the boot and one delivery.
pub fn worked_pair_is_joint<S: Service>()
    ensures joint { (kind : ℕ) → TwinJoint (machine (S.started kind) S.after S.greeting) at_first worked }
    ensures flat { events_in (flat at_first worked).trace ≡ flat_events }
{}

/// A worked run with a stop: the head has taken a client's Open and forwarded it, and the tail stops before it applies it. At the next tick the server asks
/// again, and the head, which serves alone, answers. The trace is legal, whatever the service, if it has no greeting. It ends with a connection whose entry is
/// in the head's log, which is the one that serves, and not in that of the tail. Made flat, the stop is the delivery of that Open.
pub fn worked_stop_is_legal<S: Service>()
    ensures legal { TwinLegal (machines S.started S.after no_greeting) WorkedStop.schedule WorkedStop.trace }
    ensures serving { (seen (twin_after (twin_start WorkedStop.schedule) WorkedStop.trace) []).log ≡ FirstPath.log_with (FirstPath.opened_entry ∷ []) }
    ensures stopped { (twin_after (twin_start WorkedStop.schedule) WorkedStop.trace).pair.tail.log ≡ FirstPath.log_with [] }
    ensures node { (twin_after (twin_start WorkedStop.schedule) WorkedStop.trace).node ≡ Some (FirstPath.node_live FirstPath.begun_point) }
    ensures flat { events_in (flat (twin_start WorkedStop.schedule) WorkedStop.trace).trace ≡ WorkedStop.flat_events }
{}

/// A head that is paired answers nothing to the server: no turn of the worked run is one in which it answers the Open that it forwards. After the tail has
/// stopped, neither logger stops any more.
pub fn wrong_loggers_are_refused<S: Service>()
    ensures paired { (head : Head) (comes : Comes) → head.alone ≡ false → (head_does comes head).to_server ≡ [] }
    ensures answers { (kind : ℕ) (after : TwinWorld)
        → TwinHappens (machine (S.started kind) S.after S.greeting) WorkedStop.moment_7.world (Usual (Deliver 6)) WorkedStop.answers_itself after → ⊥ }
    ensures second_stop { (kind : ℕ) (part : Part) (after : TwinWorld)
        → TwinHappens (machine (S.started kind) S.after S.greeting) WorkedStop.moment_9.world (Stop part) [] after → ⊥ }
{}

/// A schedule with two loggers has only one outcome: no two of the three hold of it, and the event that is refused or exceeds the limit is determined, and so
/// is the cause.
pub fn twin_schedules_have_one_outcome<S: Service>()
    ensures whole_or_refused { (schedule : Schedule)
        → IsTwinWhole (machines S.started S.after S.greeting) schedule → IsTwinRefused (machines S.started S.after S.greeting) schedule → ⊥ }
    ensures whole_or_past { (schedule : Schedule)
        → IsTwinWhole (machines S.started S.after S.greeting) schedule → IsTwinPastPackets (machines S.started S.after S.greeting) schedule → ⊥ }
    ensures refused_or_past { (schedule : Schedule)
        → IsTwinRefused (machines S.started S.after S.greeting) schedule → IsTwinPastPackets (machines S.started S.after S.greeting) schedule → ⊥ }
    ensures refused_once { (schedule : Schedule) (a b : IsTwinRefused (machines S.started S.after S.greeting) schedule)
        → (a.played ≡ b.played) × (a.event ≡ b.event) × (a.why ≡ b.why) }
    ensures past_once { (schedule : Schedule) (a b : IsTwinPastPackets (machines S.started S.after S.greeting) schedule)
        → (a.played ≡ b.played) × (a.event ≡ b.event) }
{}

/// A schedule with two loggers has at most one legal trace: its events, the scripted clients and the definitions of server and loggers leave nothing open.
pub fn legal_twin_traces_are_determined<S: Service>()
    ensures { (schedule : Schedule) (trace other : List TwinMoment)
        → TwinLegal (machines S.started S.after S.greeting) schedule trace → TwinLegal (machines S.started S.after S.greeting) schedule other → trace ≡ other }
{}

/// A report with two loggers determines its schedule and its trace: two legal traces have the same report only where their schedules are the same, and the
/// traces too.
pub fn twin_reports_determine_their_traces<S: Service>()
    ensures { (schedule other : Schedule) (trace also : List TwinMoment) → FitsSchedule schedule → FitsSchedule other
        → TwinLegal (machines S.started S.after S.greeting) schedule trace → TwinLegal (machines S.started S.after S.greeting) other also
        → twin_report schedule trace ≡ twin_report other also → (schedule ≡ other) × (trace ≡ also) }
{}
