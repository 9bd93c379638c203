//! What a death leaves of a logger that keeps its log in a journal, at every moment of its run: the law that joins the contract of the process
//! (`journal_parts`), the laws of its file (`journal`) and those of a world whose logger may die (`trace_laws`). Nothing here runs; each function is a
//! theorem.
#![tactic(auto)]

ghost use Rattle.std.specs.Prelude.{◌≡◌, ℕ, Bool, true, Some, List, [], ◌∷◌, ◌++◌, map};
ghost use Rattle.std.specs.Option.{option_to_list, option_map};
ghost use Rattle.ft_io.specs.declared.Addr.{Addr};
ghost use Rattle.ft_io.specs.declared.link_call.LinkCall.TheVariants.{Bound};
ghost use Rattle.seq_arith.specs.Message.{Message};
ghost use Rattle.forget_store.specs.declared.heeding.Heeded.{Heeded};
ghost use Rattle.forget_store.specs.AnyMessage.{log_after_each};
ghost use Rattle.server_trait.specs.Service.{machine};
ghost use Rattle.ft_model.specs.Log.{Log, log_after, answer_to};
ghost use Rattle.ft_model.specs.Network.{packet_at};
ghost use Rattle.ft_model.specs.Network.Packet.{To_logger, From_logger};
ghost use Rattle.ft_model.specs.World.{World};
ghost use Rattle.ft_model.specs.declared.event.Event.TheVariants.{Deliver};
ghost use Rattle.trace_laws.specs.Deaths.{MayHappen};
ghost use Rattle.trace_laws.specs.Deaths.Step.{Calm, Dies};
ghost use Rattle.disk.specs.Remains.{IsFrontOf, LeftBy};
ghost use Rattle.disk.specs.CallRecord.{on_disk, disk_calls};
ghost use Rattle.disk.specs.declared.calls.DiskCall.{DiskCall};
ghost use Rattle.disk.specs.declared.calls.DeskCall.{DeskCall};
ghost use Rattle.disk.specs.declared.calls.DeskCall.TheVariants.{OnLink};
ghost use Rattle.kept_log.specs.JournaledLog.{HasLog};
ghost use Rattle.kept_log.specs.Format.{BringsNone, BringsNoneBy, seen_by};
ghost use Rattle.kept_log.specs.Startup.{IsWhole};
ghost use Rattle.kept_log.specs.declared.tip.Tip.{Tip};
ghost use Rattle.link_parts.specs.Receipt.{Received};
ghost use Rattle.journal_parts.specs.Rounds.{Place, Step, AreSteps, place_after, calls_of};
ghost use Rattle.journal_parts.specs.LoggerLife.{Starts, IsUnanswered, IsUnreplaced};
ghost use Rattle.journal_laws.specs.Moments.{IsFront, ComesBack, Outlives, AreUnderWay};

use server_trait::Service;

/// Once a logger's file is open, or was made in an empty one, a death at any moment leaves a file that has all that was ever answered: the received messages up
/// to the last answer, and maybe more, in their order. So it is while a new file takes the old one's place, too. The premise on the death is that no whole
/// block is in the file that wasn't written.
pub fn what_was_answered_is_there()
    ensures { (heeded : Heeded) (begins : Bool) (file : List ℕ) (opening : List DiskCall) (torn : ℕ) (start : Place) (local : Addr) (rounds : List Step)
        (done : List DeskCall) (left : List ℕ)
        → Starts heeded begins (Some file) opening torn start → (begins ≡ true → file ≡ []) → AreSteps start rounds
        → IsFront (OnLink (Bound local) ∷ calls_of start rounds) done → LeftBy file (λ c. c ≡ file) (disk_calls (on_disk opening ++ done)) left
        → BringsNoneBy file (disk_calls (on_disk opening ++ done)) left → Outlives heeded start.log done left }
{}

/// A logger that stopped in a round, or after its last one, or while a new file was to take its file's place, has made the calls of some moment of a run. So
/// the law before this one holds however it stops.
pub fn an_unanswered_round_is_a_moment()
    ensures unanswered { (start : Place) (local : Addr) (rounds : List Step) (received : List Received) (cut : List DeskCall) → AreSteps start rounds
        → IsUnanswered (place_after start rounds) received cut
        → (whole : List Step) × AreSteps start whole
        × IsFront (OnLink (Bound local) ∷ calls_of start whole) (OnLink (Bound local) ∷ (calls_of start rounds ++ cut)) }
    ensures unreplaced { (start : Place) (local : Addr) (rounds : List Step) (cut : List DeskCall) → AreSteps start rounds
        → IsUnreplaced (place_after start rounds) cut
        → (whole : List Step) × AreSteps start whole
        × IsFront (OnLink (Bound local) ∷ calls_of start whole) (OnLink (Bound local) ∷ (calls_of start rounds ++ cut)) }
{}

/// A death while a journal is opened leaves the log that the journal had.
pub fn an_opening_takes_nothing()
    ensures { (heeded : Heeded) (file made : List ℕ) (bodies : List (List ℕ)) (opening done : List DiskCall) (tip : Tip) (log : Log) (left : List ℕ)
        → IsWhole file made bodies opening
        → HasLog made bodies tip log → IsFrontOf opening done → LeftBy file (λ c. c ≡ file) done left → BringsNone (seen_by file done) left
        → Outlives heeded log (on_disk done) left }
{}

/// In every world, receiving a message that was sent to the logger, and sending the log's answer to it, is the delivery of a packet.
pub fn an_answer_is_a_delivery<S: Service>()
    ensures { (kind number : ℕ) (world : World) (message : Message) → packet_at world.packets number ≡ Some (To_logger message)
        → MayHappen (machine (S.started kind) S.after S.greeting) world (Calm (Deliver number))
        (option_to_list (option_map From_logger (answer_to world.log message)))
        (record world { log = log_after world.log message; packets = world.packets ++ option_to_list (option_map From_logger (answer_to world.log message)) }) }
{}

/// A process has died, and after the restart its log may have messages that it hadn't answered. In a world without messages about forgetting this is a death of
/// the logger, which then has this log.
pub fn a_death_is_a_step<S: Service>()
    ensures { (heeded : Heeded) (kind : ℕ) (world : World) (numbers : List ℕ) (before after : Log) (calls : List DeskCall)
        (back : ComesBack heeded before after calls)
        → world.log ≡ log_after_each before back.answered → AreUnderWay world.packets numbers back.kept
        → MayHappen (machine (S.started kind) S.after S.greeting) world (Dies numbers) [] (record world { log = after }) }
{}
