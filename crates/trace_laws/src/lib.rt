//! Laws of every joint trace on which a server's contract depends: what arrives at it is near, what it has fetched is sound, and nothing fences it. Besides,
//! laws of worlds whose logger may die at any moment and restarts with what its file has. To clients and server every trace of such a world looks like a
//! joint trace, whose logger keeps running. In the joint trace, a message that the file has but that wasn't answered was delivered, and its answer was lost.
//! Nothing here runs; each function is a theorem.
#![tactic(auto)]

ghost use Rattle.limits.specs.Limits.{longest_stream};
ghost use Rattle.std.specs.Prelude.{◌≡◌, ℕ, ◌≤◌, ◌^◌, false, min, Some, None, List, [], ◌∷◌, ◌++◌, length, sum};
ghost use Rattle.std.specs.List.{AllByRecursion};
ghost use Rattle.ft_io.specs.declared.Addr.{Addr};
ghost use Rattle.seq_arith.specs.Packet.{Segment, has_rst};
ghost use Rattle.server_trait.specs.Service.{machine, reference};
ghost use Rattle.ft_model.specs.Connection.{LiveTurn};
ghost use Rattle.ft_model.specs.Growth.{IsPrefix, LogGrows};
ghost use Rattle.ft_model.specs.Network.{Packet};
ghost use Rattle.ft_model.specs.Network.Packet.{To_server};
ghost use Rattle.ft_model.specs.News.{News};
ghost use Rattle.ft_model.specs.Point.{Point, target, answered_run, whole_run};
ghost use Rattle.ft_model.specs.Restart.{Fetched, IsSoundEntry};
ghost use Rattle.ft_model.specs.Sending.{send_edge};
ghost use Rattle.ft_model.specs.Node.{Node, Stage, Input, is_for};
ghost use Rattle.ft_model.specs.Lawful.{AreNear, IsNearInput, IsSoundInput, fence};
ghost use Rattle.ft_model.specs.Legal.{Legal, machines, start_of};
ghost use Rattle.ft_model.specs.Schedule.{kind_of};
ghost use Rattle.ft_model.specs.World.{World, Moment, WasSent, MayCome, Moves, Joint, world_after};
ghost use Rattle.ft_model.specs.declared.schedule.Schedule.{Schedule};
ghost use Rattle.ft_model.specs.WeakerLaw.{IsWrongOnce};
ghost use Rattle.ft_model.specs.WorkedRuns.Common.{echo};
ghost use Rattle.ft_model.specs.WorkedRuns.FirstPath;
ghost use Rattle.trace_laws.specs.FarPacket;
ghost use Rattle.trace_laws.specs.LateFin;
ghost use Rattle.trace_laws.specs.Premises.{IsSoundFront, HasSoundFronts, is_refusal};
ghost use Rattle.seq_arith.specs.Message.{Message};
ghost use Rattle.ft_model.specs.Log.{Log, log_after, answer_to};
ghost use Rattle.trace_laws.specs.NeededMessages.{log_after_all, IsKeptOf};
ghost use Rattle.trace_laws.specs.Deaths.{MortalMoment, mortal_after, MortalJoint, IsShown, Unseen};

use server_trait::Service;

/// Every entry of the log is sound: the run over its reads has at most 2^24 bytes of output, and a FIN comes after fewer than 2^24 bytes.
pub fn logged_entries_are_sound<S: Service>()
    ensures { (kind : ℕ) (start : World) (trace : List Moment) → Joint (machine (S.started kind) S.after S.greeting) start trace
        → AllByRecursion (IsSoundEntry (machine (S.started kind) S.after S.greeting)) (world_after start trace).log.entries }
{}

/// Whatever arrives at a fetching server, each entry that it then has completely, and will restore, is sound. What it has of any entry is a prefix of a sound
/// one.
pub fn fetched_entries_are_sound<S: Service>()
    ensures whole { (kind : ℕ) (start : World) (trace : List Moment) (node : Node) (input : Input)
        → Joint (machine (S.started kind) S.after S.greeting) start trace
        → (world_after start trace).node ≡ Some node → MayCome (world_after start trace) input
        → IsSoundInput (machine (S.started kind) S.after S.greeting) node input node.stage }
    ensures front { (kind : ℕ) (start : World) (trace : List Moment) (node : Node) (input : Input)
        → Joint (machine (S.started kind) S.after S.greeting) start trace
        → (world_after start trace).node ≡ Some node → MayCome (world_after start trace) input
        → HasSoundFronts (machine (S.started kind) S.after S.greeting) node input node.stage }
{}

/// A run over the prefix of a sound entry is short, in whichever order bytes and lengths come: the reads whose bytes are there make at most 2^24 bytes of
/// output.
pub fn fronts_run_short<S: Service>()
    ensures { (kind : ℕ) (f : Fetched) (lengths : List ℕ) → IsSoundFront (machine (S.started kind) S.after S.greeting) f → IsPrefix lengths f.lengths
        → sum lengths ≤ length f.bytes
        → length (reference (machine (S.started kind) S.after S.greeting) f.bytes lengths).output ≤ longest_stream }
{}

/// Every packet without RST that a client ever sent to the server is near to the client's connection, if that is live.
pub fn packets_are_near<S: Service>()
    ensures { (kind : ℕ) (start : World) (trace : List Moment) (node : Node) (segment : Segment)
        → Joint (machine (S.started kind) S.after S.greeting) start trace → (world_after start trace).node ≡ Some node
        → WasSent (world_after start trace) (To_server segment) → has_rst segment ≡ false → AreNear node.server segment node.stage }
{}

/// The packet of every move, RST or not, is near at each moment from then on, except a live client's refusal of a wrong acknowledgement, which has the number
/// that it refuses.
pub fn moves_are_near<S: Service>()
    ensures { (kind number : ℕ) (start : World) (later earlier : List Moment) (moment : Moment) (node : Node)
        → Joint (machine (S.started kind) S.after S.greeting) start (later ++ moment ∷ earlier)
        → (moves : Moves (world_after start earlier) number moment.sent moment.world) → is_refusal moves.move.move ≡ false
        → (world_after start (later ++ moment ∷ earlier)).node ≡ Some node → AreNear node.server moves.segment node.stage }
{}

/// A packet for another address is near in any case, so what others send elsewhere breaks no premise.
pub fn packets_for_others_are_near()
    ensures { (server : Addr) (segment : Segment) (stage : Stage) → is_for server segment ≡ false → AreNear server segment stage }
{}

/// The premises of a server's contract hold in every legal trace, for whatever may come next: a packet is near, what is fetched is sound, and nothing fences
/// the server.
pub fn premises_hold<S: Service>()
    ensures near { (schedule : Schedule) (trace : List Moment) (node : Node) (input : Input) → Legal (machines S.started S.after S.greeting) schedule trace
        → (world_after (start_of schedule) trace).node ≡ Some node → MayCome (world_after (start_of schedule) trace) input
        → IsNearInput node.server input node.stage }
    ensures sound { (schedule : Schedule) (trace : List Moment) (node : Node) (input : Input) → Legal (machines S.started S.after S.greeting) schedule trace
        → (world_after (start_of schedule) trace).node ≡ Some node → MayCome (world_after (start_of schedule) trace) input
        → IsSoundInput (machines S.started S.after S.greeting (kind_of schedule.service)) node input node.stage }
    ensures unfenced { (schedule : Schedule) (trace : List Moment) (node : Node) (input : Input) → Legal (machines S.started S.after S.greeting) schedule trace
        → (world_after (start_of schedule) trace).node ≡ Some node → MayCome (world_after (start_of schedule) trace) input → fence node input ≡ None }
{}

/// The output that may be sent, that of the answered reads, is a prefix of the output of all reads.
pub fn answered_output_is_a_front<S: Service>()
    ensures { (kind : ℕ) (p : Point)
        → IsPrefix (answered_run (machine (S.started kind) S.after S.greeting) p).output (whole_run (machine (S.started kind) S.after S.greeting) p).output }
{}

/// A turn of a connection that its client hasn't reset sends all output that may be sent, up to the client's right edge and the end of the congestion window.
pub fn turns_send_what_may_leave<S: Service>()
    ensures { (kind boot : ℕ) (server : Addr) (news : News) (before after : Point) (sent : List Packet)
        → LiveTurn (machine (S.started kind) S.after S.greeting) server boot news before after sent
        → min (target (machine (S.started kind) S.after S.greeting) after) (send_edge after) ≤ after.sent }
{}

/// Clients must send only moves: in a trace with one moment in which a client sends something else, a packet is in flight that isn't near to a live connection.
pub fn far_packets_are_refused()
    ensures wrong_once { IsWrongOnce echo FirstPath.start [] FarPacket.wrong FirstPath.opening_trace }
    ensures up { FarPacket.wrong.world.node ≡ Some (FirstPath.node_live FirstPath.open_point) }
    ensures sent { WasSent FarPacket.wrong.world (To_server FarPacket.far) }
    ensures not_near { AreNear (FirstPath.node_live FirstPath.open_point).server FarPacket.far (FirstPath.node_live FirstPath.open_point).stage → ⊥ }
{}

/// The log must keep its limits: in a trace with one moment in which it keeps a FIN after 2^24 bytes, an entry isn't sound.
pub fn late_fins_are_refused()
    ensures wrong_once { (bytes : List ℕ) → length bytes ≡ longest_stream → IsWrongOnce echo FirstPath.start [] (LateFin.wrong bytes) FirstPath.opening_trace }
    ensures not_sound { (bytes : List ℕ) → length bytes ≡ longest_stream → AllByRecursion (IsSoundEntry echo) (LateFin.wrong bytes).world.log.entries → ⊥ }
{}

/// Each world that such a trace leads to is the world after a joint trace from the same start, except that the latter may have further answers of the logger.
pub fn mortal_traces_refine_joint_traces<S: Service>()
    ensures { (kind : ℕ) (start : World) (trace : List MortalMoment) → MortalJoint (machine (S.started kind) S.after S.greeting) start trace
        → IsShown (machine (S.started kind) S.after S.greeting) start (mortal_after start trace) }
{}

/// The headline of `ft_model` without the premise that the logger keeps running: the four facts of `IsUnseen` hold after every moment.
pub fn every_mortal_trace_is_masked<S: Service>()
    ensures { (kind : ℕ) (start : World) (trace : List MortalMoment) → MortalJoint (machine (S.started kind) S.after S.greeting) start trace
        → Unseen (machine (S.started kind) S.after S.greeting) start trace }
{}

/// Whatever the log has, and so whatever an answer has reported, it has after every death too.
pub fn the_log_outlives_its_logger<S: Service>()
    ensures { (kind : ℕ) (start : World) (later earlier : List MortalMoment)
        → MortalJoint (machine (S.started kind) S.after S.greeting) start (later ++ earlier)
        → LogGrows (mortal_after start earlier).log (mortal_after start (later ++ earlier)).log }
{}

/// A repeated message changes nothing more, and gets the same answer. So if a file has a message whose logger died before it answered, the next logger answers
/// it in the same way, once its sender retransmits it.
pub fn a_repeated_message_is_answered_alike()
    ensures same { (log : Log) (message : Message) → log_after (log_after log message) message ≡ log_after log message }
    ensures answer { (log : Log) (message : Message) → answer_to (log_after log message) message ≡ answer_to log message }
{}

/// If each message that changes the log is kept, the kept messages give the same log as all of them.
pub fn what_is_kept_is_the_log()
    ensures { (log : Log) (messages kept : List Message) → IsKeptOf log messages kept → log_after_all log kept ≡ log_after_all log messages }
{}
