//! A server with a quarantine, by messages: its traces are long traces.

ghost use Rattle.std.specs.Prelude.{◌≡◌, ℕ, ◌<◌, ◌≤◌, ◌+◌, ◌&&◌, true, map, Some, List, [], slice_get};
ghost use Rattle.std.specs.List.{AllByRecursion, list_any};
ghost use Rattle.ft_io.specs.declared.Key.{Key};
ghost use Rattle.ft_io.specs.Key.{key_eq};
ghost use Rattle.seq_arith.specs.Packet.{Segment};
ghost use Rattle.server_trait.specs.Service.{machine};
ghost use Rattle.ft_model.specs.Keys.{AreDistinct};
ghost use Rattle.ft_model.specs.Log.{Entry, entry_of};
ghost use Rattle.ft_model.specs.Masked.{is_restarting};
ghost use Rattle.ft_model.specs.Network.{Packet, packet_at, source_of};
ghost use Rattle.ft_model.specs.Network.Packet.{To_server};
ghost use Rattle.ft_model.specs.Node.{Node, Stage, Input, is_for};
ghost use Rattle.ft_model.specs.World.{World};
ghost use Rattle.ft_model.specs.declared.event.Event.TheVariants.{Deliver};
ghost use Rattle.long_laws.specs.Forgetting.{Named, ForgetMessage};
ghost use Rattle.long_laws.specs.LongTrace.{MayForget};
ghost use Rattle.long_laws.specs.LongTrace.LongStep.{Joint_event};
ghost use Rattle.long_laws.specs.Quarantine.{Quarantined, is_leaving, quarantine_after, forgets, taken_away, HasWaited, ProceedsOrBegins};
ghost use Rattle.long_laws.specs.QuarantineWorld.{QuarantineWorld, QuarantineMoment, QuarantineJoint, MayQuarantine, AreLongSteps, AreMaskedMoments};
ghost use Rattle.long_laws.specs.QuarantineWorld.{IsRecycling, after_moments, with_one, IsForgotten, AllAreHeld};
ghost use Rattle.long_laws.specs.QuarantineWorld.QuarantineStep.{Usual};

use server_trait::Service;

/// A server keeps what is done in quarantine for `wait` ticks, and then has the log recycle it by messages, which may be lost, come again and overtake one
/// another. Each moment of such a trace is a step of a long trace, or nothing happens in it, or it is a step without its RSTs: a full log drops an opening
/// silently. The premises are in the definition of the trace: what is under way of a connection is lost when its entry is recycled, and no opening takes the
/// numbers that a message about forgetting of the server's own boot under way names.
pub fn quarantined_traces_are_long_traces<S: Service>()
    ensures { (kind wait : ℕ) (start : World) (trace : List QuarantineMoment) → QuarantineJoint (machine (S.started kind) S.after S.greeting) wait start trace
        → AreLongSteps (machine (S.started kind) S.after S.greeting) start trace }
{}

/// So such a trace is masked: after every moment the four facts of the headline hold, and each client whose entry was recycled has seen no failure.
pub fn quarantined_traces_are_masked<S: Service>()
    ensures { (kind wait : ℕ) (start : World) (trace : List QuarantineMoment) → QuarantineJoint (machine (S.started kind) S.after S.greeting) wait start trace
        → AreMaskedMoments (machine (S.started kind) S.after S.greeting) start trace }
{}

/// Whichever message about forgetting reaches the log next, it changes nothing there, or it is the step `Recycles`: its entry is done, the server has
/// no connection of its key, and no restart has asked this log.
pub fn forgets_that_come_recycle<S: Service>()
    ensures { (kind wait : ℕ) (start : World) (trace : List QuarantineMoment) (number : ℕ) (message : ForgetMessage)
        → QuarantineJoint (machine (S.started kind) S.after S.greeting) wait start trace → slice_get (after_moments start trace).notes number ≡ Some message
        → IsRecycling (after_moments start trace).now message }
{}

/// Where Forgotten takes a place away, it is the step `Forgets`: the log has no entry of the key, and nothing about it is under way to the log.
pub fn forgotten_keys_may_go<S: Service>()
    ensures { (kind wait : ℕ) (start : World) (trace : List QuarantineMoment) (number : ℕ) (message : ForgetMessage) (key : Key)
        → QuarantineJoint (machine (S.started kind) S.after S.greeting) wait start trace → slice_get (after_moments start trace).notes number ≡ Some message
        → taken_away (after_moments start trace).now.node message (after_moments start trace).quarantine ≡ Some key
        → MayForget key (after_moments start trace).now }
{}

/// While a server restarts, each message about forgetting that is under way is of an older boot. So a log that heeds it has heard no Hello of that server.
pub fn restarts_are_newer_than_forgets<S: Service>()
    ensures { (kind wait : ℕ) (start : World) (trace : List QuarantineMoment) (number : ℕ) (message : ForgetMessage) (node : Node)
        → QuarantineJoint (machine (S.started kind) S.after S.greeting) wait start trace → slice_get (after_moments start trace).notes number ≡ Some message
        → (after_moments start trace).now.node ≡ Some node → is_restarting node.stage ≡ true → message.boot < node.boot }
{}

/// Quarantines end. A server has a connection in quarantine whose entry is done, and the next tick is at least the `wait`th. Then Forget goes out at this
/// tick, the log recycles the entry and answers Forgotten, and the server forgets the key.
pub fn quarantines_end<S: Service>()
    ensures { (kind wait isn opened age : ℕ) (w : World) (n : Named) (e : Entry) → wait ≤ age + 1 → AreDistinct (map (λ x. x.key) w.log.entries)
        → entry_of n.key w.log ≡ Some e → e.cisn ≡ n.cisn → e.sisn ≡ n.sisn → e.done ≡ true
        → IsForgotten (machine (S.started kind) S.after S.greeting) wait (with_one w isn opened age n) n }
{}

/// A Forget goes out at ticks alone, and only for a connection that is in quarantine for at least `wait` ticks: its age is 0 in the turn that begins the
/// quarantine, and each later tick raises it by one.
pub fn quarantines_last()
    ensures forgets { (wait boot : ℕ) (input : Input) (qs : List Quarantined) → AllByRecursion (HasWaited wait boot input) (forgets wait boot input qs) }
    ensures ages { (node : Node) (input : Input) (later : Stage) (qs : List Quarantined)
        → AllByRecursion (ProceedsOrBegins input qs) (quarantine_after node input later qs) }
{}

/// A segment of a connection that is leaving is dropped: nothing is sent, and nothing changes. So no RST answers a new client's SYN.
pub fn leaving_connections_drop_segments<S: Service>()
    ensures { (kind wait : ℕ) (before after : QuarantineWorld) (node : Node) (number : ℕ) (segment : Segment) (sent : List Packet)
        → before.now.node ≡ Some node → packet_at before.now.packets number ≡ Some (To_server segment) → is_for node.server segment ≡ true
        → list_any (λ q. key_eq q.named.key (source_of segment) && is_leaving wait q) before.quarantine ≡ true
        → MayQuarantine (machine (S.started kind) S.after S.greeting) wait before (Usual (Joint_event (Deliver number))) sent after
        → (sent ≡ []) × (after ≡ before) }
{}

/// Whatever is done at the server is in quarantine, so once it has been there for `wait` ticks a Forget goes out for it. A restart begins each quarantine anew.
pub fn what_is_done_is_in_quarantine<S: Service>()
    ensures { (kind wait : ℕ) (start : World) (trace : List QuarantineMoment) → QuarantineJoint (machine (S.started kind) S.after S.greeting) wait start trace
        → AllAreHeld (after_moments start trace) }
{}
