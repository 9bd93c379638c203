//! Traces of schedules whose server lasts. Each is a trace of a world with a quarantine, so crashes, restarts and forgetting can't be seen from outside.
//! Nothing here runs; each function is a theorem.
#![tactic(auto)]

ghost use Rattle.std.specs.Prelude.{◌≡◌, List, Some, None};
ghost use Rattle.std.specs.List.{AllByRecursion};
ghost use Rattle.ft_io.specs.declared.Key.{Key};
ghost use Rattle.tcp_rules.specs.Profile.{grammar_of};
ghost use Rattle.tcp_rules.specs.Profiles.{profile_of};
ghost use Rattle.ft_model.specs.Lawful.{IsNearInput, IsSoundInput, fence};
ghost use Rattle.ft_model.specs.Legal.{machines};
ghost use Rattle.ft_model.specs.Node.{Input, place_at};
ghost use Rattle.ft_model.specs.Node.Input.{Packet_comes};
ghost use Rattle.ft_model.specs.Node.Place.{Lives};
ghost use Rattle.ft_model.specs.Playable.{IsPlayable};
ghost use Rattle.ft_model.specs.Point.{Point};
ghost use Rattle.ft_model.specs.Readable.{FitsEvent};
ghost use Rattle.ft_model.specs.Schedule.{kind_of};
ghost use Rattle.ft_model.specs.declared.event.Event.{Event};
ghost use Rattle.ft_model.specs.declared.schedule.Lasting.{Lasting};
ghost use Rattle.ft_model.specs.declared.schedule.Schedule.{Schedule};
ghost use Rattle.trace_laws.specs.Premises.{HasSoundFronts};
ghost use Rattle.long_laws.specs.LongTrace.{places_at, last_rst};
ghost use Rattle.lasting_laws.specs.LastingLegal.{IsLastingLegalFor, lasting_start};
ghost use Rattle.lasting_laws.specs.LastingTurn.{LastingNode};
ghost use Rattle.lasting_laws.specs.LastingUnseen.{AreUnseen};
ghost use Rattle.lasting_laws.specs.LastingWorld.{LastingMoment, lasting_after};
ghost use Rattle.lasting_unseen.specs.Mirror.{MayStillCome};
ghost use Rattle.lasting_unseen.specs.Written.{IsWritten};

use server_trait::Service;

/// Every legal trace of a schedule whose server lasts is unseen: after each event the four facts of the headline hold of the clients that are there, and each
/// that is gone had accepted a prefix of the uncrashed server's output over the reads that its entry had. The premise is that the schedule can be
/// played.
pub fn legal_lasting_traces_are_unseen<S: Service>()
    ensures { (waits : Lasting) (schedule : Schedule) (events : List Event) (trace : List LastingMoment)
        → IsPlayable schedule → AllByRecursion FitsEvent events
        → IsLastingLegalFor (machines S.started S.after S.greeting) waits schedule events trace
        → AreUnseen (machines S.started S.after S.greeting (kind_of schedule.service)) (lasting_start waits schedule) trace }
{}

/// The premises of the turns of a server that lasts hold in each such trace, for whatever may come next. A packet is near, and so is the RST by which the
/// server lets go of a client. What is fetched is sound, and so is the entry of which it is a front. Nothing fences the server.
pub fn lasting_premises_hold<S: Service>()
    ensures near { (waits : Lasting) (schedule : Schedule) (events : List Event) (trace : List LastingMoment) (n : LastingNode) (input : Input)
        → IsPlayable schedule → AllByRecursion FitsEvent events
        → IsLastingLegalFor (machines S.started S.after S.greeting) waits schedule events trace
        → (lasting_after (lasting_start waits schedule) trace).node ≡ Some n
        → MayStillCome (lasting_after (lasting_start waits schedule) trace) input → IsNearInput n.node.server input n.node.stage }
    ensures let_go { (waits : Lasting) (schedule : Schedule) (events : List Event) (trace : List LastingMoment) (n : LastingNode) (key : Key) (p : Point)
        → IsPlayable schedule → AllByRecursion FitsEvent events
        → IsLastingLegalFor (machines S.started S.after S.greeting) waits schedule events trace
        → (lasting_after (lasting_start waits schedule) trace).node ≡ Some n
        → place_at key (places_at n.node.stage) ≡ Some (Lives p) → IsNearInput n.node.server (Packet_comes (last_rst n.node.server p)) n.node.stage }
    ensures sound { (waits : Lasting) (schedule : Schedule) (events : List Event) (trace : List LastingMoment) (n : LastingNode) (input : Input)
        → IsPlayable schedule → AllByRecursion FitsEvent events
        → IsLastingLegalFor (machines S.started S.after S.greeting) waits schedule events trace
        → (lasting_after (lasting_start waits schedule) trace).node ≡ Some n
        → MayStillCome (lasting_after (lasting_start waits schedule) trace) input
        → IsSoundInput (machines S.started S.after S.greeting (kind_of schedule.service)) n.node input n.node.stage }
    ensures fronts { (waits : Lasting) (schedule : Schedule) (events : List Event) (trace : List LastingMoment) (n : LastingNode) (input : Input)
        → IsPlayable schedule → AllByRecursion FitsEvent events
        → IsLastingLegalFor (machines S.started S.after S.greeting) waits schedule events trace
        → (lasting_after (lasting_start waits schedule) trace).node ≡ Some n
        → MayStillCome (lasting_after (lasting_start waits schedule) trace) input
        → HasSoundFronts (machines S.started S.after S.greeting (kind_of schedule.service)) n.node input n.node.stage }
    ensures unfenced { (waits : Lasting) (schedule : Schedule) (events : List Event) (trace : List LastingMoment) (n : LastingNode) (input : Input)
        → IsPlayable schedule → AllByRecursion FitsEvent events
        → IsLastingLegalFor (machines S.started S.after S.greeting) waits schedule events trace
        → (lasting_after (lasting_start waits schedule) trace).node ≡ Some n
        → MayStillCome (lasting_after (lasting_start waits schedule) trace) input → fence n.node input ≡ None }
{}

/// Whatever is sent in such a trace can be written, so that its reader reads it back: what each event sends, and so whatever was ever sent, lost or not.
pub fn lasting_parcels_are_written<S: Service>()
    ensures sent { (waits : Lasting) (schedule : Schedule) (events : List Event) (trace : List LastingMoment)
        → IsPlayable schedule → AllByRecursion FitsEvent events
        → IsLastingLegalFor (machines S.started S.after S.greeting) waits schedule events trace
        → AllByRecursion (λ moment. AllByRecursion (IsWritten (grammar_of (profile_of schedule.profile))) moment.parcels) trace }
    ensures kept { (waits : Lasting) (schedule : Schedule) (events : List Event) (trace : List LastingMoment)
        → IsPlayable schedule → AllByRecursion FitsEvent events
        → IsLastingLegalFor (machines S.started S.after S.greeting) waits schedule events trace
        → AllByRecursion (λ s. IsWritten (grammar_of (profile_of schedule.profile)) s.parcel) (lasting_after (lasting_start waits schedule) trace).sent }
{}
