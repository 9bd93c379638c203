//! Marks: the log with marks, traces with marks and their reports, as definitions, and laws on them. They say when a mark is true, that it stays true while
//! the log grows, and what a restart that begins at one may assume. In every trace of a server that makes marks all marks are true, and the trace without its
//! marks is masked; all that is sent in it can be written as bytes. Nothing here runs; each function is a theorem.
#![tactic(auto)]

ghost use Rattle.std.specs.Prelude.{◌≡◌, ℕ, Bool, true, false, ◌≤◌, List, [], ◌∷◌, Some, None, IfSome, length, sum, slice_get, ◌<◌, codes};
ghost use Rattle.tcp_rules.specs.Profile.{Profile};
ghost use Rattle.server_trait.specs.Service.{machine, reference, AreBytes, CanCut};
ghost use Rattle.server_trait.specs.Saved.{Writing, ReadsBack, writing};
ghost use Rattle.seq_arith.specs.Mark.{Mark, MarkMessage};
ghost use Rattle.ft_model.specs.Log.{Entry};
ghost use Rattle.ft_model.specs.Growth.{EntryGrows, IsPrefix};
ghost use Rattle.ft_model.specs.Point.{Point};
ghost use Rattle.mark_laws.specs.MarkedLog.{MarkedLog, AnyMessage, has_closing, after_mark, answer_to_mark, answer_above};
ghost use Rattle.mark_laws.specs.Runs.{IsRunOf};
ghost use Rattle.mark_laws.specs.Quiet.{IsQuiet, mark_of};
ghost use Rattle.mark_laws.specs.Front.{IsBelow, bytes_below, lengths_below};
ghost use Rattle.ft_model.specs.Restart.{Fetched, wanted, point_of};
ghost use Rattle.ft_model.specs.Lawful.{all_restored, IsNearInput, IsSoundInput, fence, is_fenced};
ghost use Rattle.ft_model.specs.Node.Place.{Lives};
ghost use Rattle.mark_laws.specs.Restart.{FetchedSoFar, Leads, next_question, fetched_on, mark_reported};
ghost use Rattle.mark_laws.specs.WorkedRestart.{plain, entry_message, nothing_fetched, entry_fetched, mark, holding, mark_fetched, question_for_mark};
ghost use Rattle.mark_laws.specs.Answers.{answer_of, IsQuestion, HasTrueMarks};
ghost use Rattle.ft_model.specs.FetchedFronts.{AreFetched};
ghost use Rattle.mark_laws.specs.WorkedLog.{client, before, kept, marking, two_are_marked, asking, held, bytes_from, lengths_from, last_part, last_length};
ghost use Rattle.ft_io.specs.declared.Key.{Key};
ghost use Rattle.ft_model.specs.Legal.{machines, start_of};
ghost use Rattle.ft_model.specs.Masked.{Masked};
ghost use Rattle.ft_model.specs.Resets.{ResetsNoLogged};
ghost use Rattle.ft_model.specs.News.{News};
ghost use Rattle.ft_model.specs.Node.{Input, Place};
ghost use Rattle.ft_model.specs.Readable.{FitsSchedule};
ghost use Rattle.ft_model.specs.Schedule.{kind_of};
ghost use Rattle.ft_model.specs.ServingTurn.{LivesOn, ServingTurn};
ghost use Rattle.ft_model.specs.Timer.{is_tick};
ghost use Rattle.ft_model.specs.World.{MayCome};
ghost use Rattle.ft_model.specs.declared.event.Event.{Event};
ghost use Rattle.ft_model.specs.declared.schedule.Schedule.{Schedule};
ghost use Rattle.trace_laws.specs.Premises.{HasSoundFronts};
ghost use Rattle.mark_laws.specs.Marking.{Marking, MarkingTurn, Outgoing, with_new, without_marks};
ghost use Rattle.mark_laws.specs.MarkedNode.{GoesMarked, MarkedNode, ServesMarked, marks_at};
ghost use Rattle.mark_laws.specs.MarkedLegal.{markers, marked_start, IsMarkedLegalFor, MarkedLegal};
ghost use Rattle.mark_laws.specs.MarkedOutcome.{IsMarkedWhole, IsMarkedRefused, IsMarkedPastPackets};
ghost use Rattle.tcp_rules.specs.Profile.{grammar_of};
ghost use Rattle.mark_laws.specs.MarkedWorld.{MarkedWorld, MarkedMoment, MarkedJoint, seen, usual, parcel_at, marked_after, plain_trace, CanBeRead};
ghost use Rattle.mark_laws.specs.MarkedWorld.Parcel.{Mark_answered};
ghost use Rattle.mark_laws.specs.Premises.{IsSoundMark};
ghost use Rattle.mark_laws.specs.TrueMarks.{MarksAreTrue};
ghost use Rattle.mark_laws.specs.WorkedTrace.{marker, schedule, start, trace};
ghost use Rattle.mark_laws.specs.WrongMarks;
ghost use Rattle.mark_laws.specs.WrongMarks.{IsTurn, IsUnlawful};
ghost use Rattle.std.specs.List.{AllByRecursion};
ghost use Rattle.mark_laws.specs.MarkedReport.{marked_report};

use crate::marking::marks_that_go_out_are_true;
use server_trait::{Saved, Service};

pub mod marking;

/// If the service hasn't closed after some reads, no closing read is among them: a closing read closes it, and it stays closed.
pub fn running_services_read_on<S: Service>()
    ensures { (fresh : S) (bytes lengths : List ℕ) → (reference (machine fresh S.after S.greeting) bytes lengths).closed ≡ false → has_closing lengths ≡ false }
{}

/// What a mark says stays true while the log grows.
pub fn marks_stay_true<S: Service>()
    ensures { (kind : ℕ) (writing : Writing S) (before after : Entry) (mark : Mark) → EntryGrows before after
        → IsRunOf (machine (S.started kind) S.after S.greeting) writing before mark → IsRunOf (machine (S.started kind) S.after S.greeting) writing after mark }
{}

/// The mark of a quiet point is true of the log's entry. The premises: point and entry have bytes of one client, the entry's reads are a prefix of the
/// point's, and the reads that are known to be logged are in the entry. So at a quiet point the entry has exactly the point's reads.
pub fn quiet_points_mark_the_log<S: Service>()
    ensures { (kind : ℕ) (writing : Writing S) (script : List ℕ) (p : Point) (e : Entry) → IsPrefix p.taken script → sum p.lengths ≤ length p.taken
        → IsPrefix e.bytes script → sum e.lengths ≤ length e.bytes → IsPrefix e.lengths p.lengths → p.reads_answered ≤ length e.lengths
        → IsQuiet (machine (S.started kind) S.after S.greeting) p
        → IsRunOf (machine (S.started kind) S.after S.greeting) writing e (mark_of (machine (S.started kind) S.after S.greeting) writing p) }
{}

/// The state that is read back from a true mark is the service's state after the reads below the mark.
pub fn true_marks_are_read_back<S: Service>()
    ensures { (kind : ℕ) (writing : Writing S) (e : Entry) (mark : Mark) → ReadsBack (machine (S.started kind) S.after S.greeting) writing → AreBytes e.bytes
        → IsRunOf (machine (S.started kind) S.after S.greeting) writing e mark
        → IsBelow (machine (S.started kind) S.after S.greeting) writing mark (bytes_below mark e) (lengths_below mark e) }
{}

/// If a restart has fetched prefixes of the entries of a log whose marks are true, each answer of that log to a question leads it to prefixes of them again.
/// What is below a mark is then the beginning of its entry.
pub fn answers_fetch_the_log<S: Service>()
    ensures { (kind : ℕ) (writing : Writing S) (l : MarkedLog) (marks : Bool) (boot count : ℕ) (asked answer : AnyMessage) (before : FetchedSoFar)
        → ReadsBack (machine (S.started kind) S.after S.greeting) writing → HasTrueMarks (machine (S.started kind) S.after S.greeting) writing l
        → AreFetched l.log.entries before.entries → IsQuestion l asked → answer_of l asked ≡ Some answer
        → (after : FetchedSoFar) × Leads (machine (S.started kind) S.after S.greeting) writing marks boot count answer before after
        × AreFetched l.log.entries after.entries }
{}

/// When a restart has fetched such prefixes and nothing is missing any more, each entry that isn't done continues at the point of the whole entry.
pub fn restarts_end_at_the_points<S: Service>()
    ensures { (kind : ℕ) (profile : Profile) (entries : List Entry) (fetched : List Fetched) → AreFetched entries fetched
        → wanted (length entries) fetched ≡ None → (i : ℕ) (e : Entry) → slice_get entries i ≡ Some e → e.done ≡ false
        → slice_get (all_restored (machine (S.started kind) S.after S.greeting) profile fetched) i
        ≡ Some (Lives (point_of (machine (S.started kind) S.after S.greeting) profile e)) }
{}

/// A mark of two reads is kept. A mark of fewer reads and one whose length isn't the sum of its reads get the same answer, and change nothing. A mark of
/// more reads than are logged changes nothing either.
pub fn worked_marks_are_kept()
    ensures kept { after_mark before (marking 2 4096 10) ≡ kept }
    ensures answer { answer_to_mark before (marking 2 4096 10) ≡ Some two_are_marked }
    ensures fewer { after_mark kept (marking 1 2048 10) ≡ kept }
    ensures fewer_answer { answer_to_mark kept (marking 1 2048 10) ≡ Some two_are_marked }
    ensures other_sum { after_mark kept (marking 3 4999 10) ≡ kept }
    ensures other_answer { answer_to_mark kept (marking 3 4999 10) ≡ Some two_are_marked }
    ensures beyond { after_mark kept (marking 4 5000 10) ≡ kept }
    ensures held { answer_to_mark kept asking ≡ Some held }
{}

/// Questions below the mark get no answer; those from it on are answered as without a mark.
pub fn worked_questions_are_answered_above()
    ensures bytes_below { answer_above kept (bytes_from 4095) ≡ None }
    ensures bytes { answer_above kept (bytes_from 4096) ≡ Some last_part }
    ensures lengths_below { answer_above kept (lengths_from 1) ≡ None }
    ensures lengths { answer_above kept (lengths_from 2) ≡ Some last_length }
{}

/// A restart with marks asks for an entry's mark directly after the entry. If all of the entry is below the mark, nothing more is asked once the mark has
/// come.
pub fn worked_restarts_ask_for_the_mark()
    ensures entry { fetched_on true 2 1 entry_message nothing_fetched ≡ Some entry_fetched }
    ensures question { next_question 2 1 entry_fetched ≡ Some question_for_mark }
    ensures waits { fetched_on true 2 1 entry_message entry_fetched ≡ None }
    ensures answer { mark_reported plain 2 (holding client mark) entry_fetched ≡ Some mark }
    ensures end { next_question 2 1 mark_fetched ≡ None }
    ensures without { fetched_on false 2 1 entry_message nothing_fetched ≡ Some (record entry_fetched { awaits_mark = false }) }
{}

/// These marks aren't answers: one of another key or another boot, one of more reads, bytes or output than its entry has, one of more reads than bytes, and
/// one whose state can't be read back.
pub fn worked_marks_that_do_not_fit()
    ensures key { mark_reported plain 2 (holding (record client { port = 40001 }) mark) entry_fetched ≡ None }
    ensures boot { mark_reported plain 3 (holding client mark) entry_fetched ≡ None }
    ensures reads { mark_reported plain 2 (holding client (record mark { reads = 2 })) entry_fetched ≡ None }
    ensures length { mark_reported plain 2 (holding client (record mark { length = 6 })) entry_fetched ≡ None }
    ensures made { mark_reported plain 2 (holding client (record mark { made = 6 })) entry_fetched ≡ None }
    ensures empty { mark_reported plain 2 (holding client (record mark { length = 0 })) entry_fetched ≡ None }
    ensures state { mark_reported plain 2 (holding client (record mark { state = 0 ∷ [] })) entry_fetched ≡ None }
{}

/// A turn of a server that serves and marks, without its marks, is a turn of a server that serves.
pub fn serving_turns_without_marks_are_lawful<S: Saved>()
    ensures { (kind every opened : ℕ) (node : MarkedNode) (input : Input) (before after : List Place) (marking : Key → Marking) (sent : List Outgoing)
        → ServesMarked (markers (machines S.started S.after S.greeting) S.form S.state_of every kind) node input opened before after marking sent
        → ServingTurn (machine (S.started kind) S.after S.greeting) node.plain input opened before after (without_marks sent) }
{}

/// A live connection takes its turn by the law of marks: its marks are those of the law, and only its Done is sent after them.
pub fn live_connections_follow_the_law_of_marks<S: Saved>()
    ensures { (kind every : ℕ) (node : MarkedNode) (news : News) (p : Point) (now : List Place) (sent : List Outgoing)
        → GoesMarked (λ place. LivesOn (machine (S.started kind) S.after S.greeting) node.plain news p)
        (marks_at (markers (machines S.started S.after S.greeting) S.form S.state_of every kind) node.plain.boot (is_tick news) node.marking) (Lives p) now sent
        → (q : Point) × (now ≡ Lives q ∷ [])
        × MarkingTurn (machine (S.started kind) S.after S.greeting) (writing S.form (S.state_of kind)) every node.plain.server node.plain.boot news p q
        (node.marking q.key) (with_new (machine (S.started kind) S.after S.greeting) (writing S.form (S.state_of kind)) every q (node.marking q.key)) sent }
{}

/// In every trace with marks each mark is true of its entry in the log: the marks that were sent to the log, those that the log has, those in its answers,
/// and those that a server has outstanding.
pub fn marks_are_true<S: Saved>()
    ensures { (kind every : ℕ) (start : MarkedWorld) (trace : List MarkedMoment)
        → MarkedJoint (markers (machines S.started S.after S.greeting) S.form S.state_of every kind) start trace
        → MarksAreTrue (markers (machines S.started S.after S.greeting) S.form S.state_of every kind) (marked_after start trace) }
{
    marks_stay_true::<S>();
    marks_that_go_out_are_true::<S>();
}

/// A trace with marks is masked: its clients see one server that never crashed, nothing is acknowledged before it is logged, and a restart ends at the point of
/// the whole entry, whether or not it began at a mark. The log is that without the marks, with all bytes and lengths.
pub fn marked_traces_are_masked<S: Saved>()
    ensures { (kind every : ℕ) (start : MarkedWorld) (trace : List MarkedMoment)
        → MarkedJoint (markers (machines S.started S.after S.greeting) S.form S.state_of every kind) start trace
        → Masked (machine (S.started kind) S.after S.greeting) (seen start) (plain_trace trace) }
{
    marks_stay_true::<S>();
    marks_that_go_out_are_true::<S>();
}

/// In every trace with marks the sum of the lengths of an entry's logged reads is at most the number of its logged bytes, and only the last length may be 0,
/// that of the closing read. So the server that never crashed, with which `marked_traces_are_masked` compares the trace, reads only bytes that its client sent.
pub fn marked_traces_cut_the_bytes<S: Saved>()
    ensures { (kind every : ℕ) (start : MarkedWorld) (trace : List MarkedMoment)
        → MarkedJoint (markers (machines S.started S.after S.greeting) S.form S.state_of every kind) start trace
        → AllByRecursion (λ e. CanCut e.bytes e.lengths) (marked_after start trace).log.log.entries }
{
    marks_stay_true::<S>();
    marks_that_go_out_are_true::<S>();
}

/// No false reset: of all RSTs that were sent so far in a trace with marks, none was sent to a client whose entry is now in the log and not done.
pub fn marked_traces_reset_no_logged_connection<S: Saved>()
    ensures { (kind every : ℕ) (start : MarkedWorld) (trace : List MarkedMoment)
        → MarkedJoint (markers (machines S.started S.after S.greeting) S.form S.state_of every kind) start trace
        → AllByRecursion (ResetsNoLogged (marked_after start trace).log.log) (usual (marked_after start trace).parcels) }
{
    marks_stay_true::<S>();
    marks_that_go_out_are_true::<S>();
}

/// No server of a trace with marks is ever fenced, and nothing that may arrive next fences it.
pub fn marked_traces_fence_no_server<S: Saved>()
    ensures stage { (kind every : ℕ) (start : MarkedWorld) (trace : List MarkedMoment)
        → MarkedJoint (markers (machines S.started S.after S.greeting) S.form S.state_of every kind) start trace
        → IfSome (marked_after start trace).node (λ node. is_fenced node.plain.stage ≡ false) }
    ensures input { (kind every : ℕ) (start : MarkedWorld) (trace : List MarkedMoment) (node : MarkedNode) (input : Input)
        → MarkedJoint (markers (machines S.started S.after S.greeting) S.form S.state_of every kind) start trace
        → (marked_after start trace).node ≡ Some node → MayCome (seen (marked_after start trace)) input → fence node.plain input ≡ None }
{
    marks_stay_true::<S>();
    marks_that_go_out_are_true::<S>();
}

/// A legal trace of a schedule with marks is masked.
pub fn marked_schedules_are_masked<S: Saved>()
    ensures { (every : ℕ) (schedule : Schedule) (events : List Event) (trace : List MarkedMoment)
        → IsMarkedLegalFor (markers (machines S.started S.after S.greeting) S.form S.state_of every) schedule events trace
        → Masked (machines S.started S.after S.greeting (kind_of schedule.service)) (start_of schedule) (plain_trace trace) }
{
    marked_traces_are_masked::<S>();
}

/// The premises of a server's turn hold in every legal trace of a schedule with marks, for whatever may come next. As without marks, a packet is near, what
/// is fetched is sound, and nothing fences the server. If the service is savable, there are bytes and lengths below a mark that comes, and what is then
/// fetched is sound.
pub fn marked_premises_hold<S: Saved>()
    ensures near { (every : ℕ) (schedule : Schedule) (events : List Event) (trace : List MarkedMoment) (node : MarkedNode) (input : Input)
        → IsMarkedLegalFor (markers (machines S.started S.after S.greeting) S.form S.state_of every) schedule events trace
        → (marked_after (marked_start schedule) trace).node ≡ Some node → MayCome (seen (marked_after (marked_start schedule) trace)) input
        → IsNearInput node.plain.server input node.plain.stage }
    ensures sound { (every : ℕ) (schedule : Schedule) (events : List Event) (trace : List MarkedMoment) (node : MarkedNode) (input : Input)
        → IsMarkedLegalFor (markers (machines S.started S.after S.greeting) S.form S.state_of every) schedule events trace
        → (marked_after (marked_start schedule) trace).node ≡ Some node → MayCome (seen (marked_after (marked_start schedule) trace)) input
        → IsSoundInput (machines S.started S.after S.greeting (kind_of schedule.service)) node.plain input node.plain.stage }
    ensures fronts { (every : ℕ) (schedule : Schedule) (events : List Event) (trace : List MarkedMoment) (node : MarkedNode) (input : Input)
        → IsMarkedLegalFor (markers (machines S.started S.after S.greeting) S.form S.state_of every) schedule events trace
        → (marked_after (marked_start schedule) trace).node ≡ Some node → MayCome (seen (marked_after (marked_start schedule) trace)) input
        → HasSoundFronts (machines S.started S.after S.greeting (kind_of schedule.service)) node.plain input node.plain.stage }
    ensures unfenced { (every : ℕ) (schedule : Schedule) (events : List Event) (trace : List MarkedMoment) (node : MarkedNode) (input : Input)
        → IsMarkedLegalFor (markers (machines S.started S.after S.greeting) S.form S.state_of every) schedule events trace
        → (marked_after (marked_start schedule) trace).node ≡ Some node → MayCome (seen (marked_after (marked_start schedule) trace)) input
        → fence node.plain input ≡ None }
    ensures marks { S.is_savable ≡ true → (every number : ℕ) (schedule : Schedule) (events : List Event) (trace : List MarkedMoment) (node : MarkedNode)
        (message : MarkMessage) → IsMarkedLegalFor (markers (machines S.started S.after S.greeting) S.form S.state_of every) schedule events trace
        → (marked_after (marked_start schedule) trace).node ≡ Some node
        → parcel_at (marked_after (marked_start schedule) trace).parcels number ≡ Some (Mark_answered message)
        → IsSoundMark (markers (machines S.started S.after S.greeting) S.form S.state_of every (kind_of schedule.service))
        (marked_after (marked_start schedule) trace).log.log
        node message node.plain.stage }
{
    marks_stay_true::<S>();
    marks_that_go_out_are_true::<S>();
    true_marks_are_read_back::<S>();
}

/// A schedule with marks has only one outcome: no two of the three hold of it, and the event that is refused or exceeds the limit is determined, and so is the
/// cause.
pub fn marked_schedules_have_one_outcome<S: Saved>()
    ensures whole_or_refused { (every : ℕ) (schedule : Schedule)
        → IsMarkedWhole (markers (machines S.started S.after S.greeting) S.form S.state_of every) schedule
        → IsMarkedRefused (markers (machines S.started S.after S.greeting) S.form S.state_of every) schedule → ⊥ }
    ensures whole_or_past { (every : ℕ) (schedule : Schedule) → IsMarkedWhole (markers (machines S.started S.after S.greeting) S.form S.state_of every) schedule
        → IsMarkedPastPackets (markers (machines S.started S.after S.greeting) S.form S.state_of every) schedule → ⊥ }
    ensures refused_or_past { (every : ℕ) (schedule : Schedule)
        → IsMarkedRefused (markers (machines S.started S.after S.greeting) S.form S.state_of every) schedule
        → IsMarkedPastPackets (markers (machines S.started S.after S.greeting) S.form S.state_of every) schedule → ⊥ }
    ensures refused_once { (every : ℕ) (schedule : Schedule)
        (a b : IsMarkedRefused (markers (machines S.started S.after S.greeting) S.form S.state_of every) schedule)
        → (a.played ≡ b.played) × (a.event ≡ b.event) × (a.why ≡ b.why) }
    ensures past_once { (every : ℕ) (schedule : Schedule)
        (a b : IsMarkedPastPackets (markers (machines S.started S.after S.greeting) S.form S.state_of every) schedule)
        → (a.played ≡ b.played) × (a.event ≡ b.event) }
{}

/// A schedule with marks has at most one legal trace: its events, the scripted clients and the definitions of server and log leave nothing open, not even which
/// marks are made.
pub fn legal_marked_traces_are_determined<S: Saved>()
    ensures { (every : ℕ) (schedule : Schedule) (trace other : List MarkedMoment)
        → MarkedLegal (markers (machines S.started S.after S.greeting) S.form S.state_of every) schedule trace
        → MarkedLegal (markers (machines S.started S.after S.greeting) S.form S.state_of every) schedule other → trace ≡ other }
{}

/// A worked run: an echo service with a mark after every read crashes once its mark is kept, and the next incarnation begins at the mark. It asks for one
/// entry and its mark, and continues the connection, though the Data that reported the acknowledgement was lost.
pub fn worked_restart_from_a_mark()
    ensures joint { MarkedJoint marker start trace }
    ensures legal { MarkedLegal (λ kind. marker) schedule trace }
{}

/// In turns of the worked run wrong marks are refused. When the read is known to be logged, its mark may not go out with the echo, which isn't acknowledged
/// yet. While that mark is outstanding, no second one may go out, even if both echoes are acknowledged. Once the first mark is answered, the second goes out.
pub fn wrong_marks_are_refused()
    ensures unacknowledged { IsUnlawful WrongMarks.unmarked_node WrongMarks.read_is_logged WrongMarks.unacknowledged }
    ensures second { IsUnlawful (WrongMarks.node_with (Some mark)) WrongMarks.second_ack_comes WrongMarks.marking_again }
    ensures once_answered { (after : MarkedNode) × IsTurn (WrongMarks.node_with None) WrongMarks.second_ack_comes WrongMarks.marking_again after }
{}

/// All that was sent in a trace with marks can be written as bytes, and the messages about marks are read back as they were sent. The premise: a server that
/// marks has a savable service.
pub fn marked_parcels_are_written<S: Saved>()
    ensures { (kind every : ℕ) (start : MarkedWorld) (trace : List MarkedMoment) → (0 < every → S.is_savable ≡ true)
        → MarkedJoint (markers (machines S.started S.after S.greeting) S.form S.state_of every kind) start trace
        → AllByRecursion (CanBeRead (grammar_of start.profile)) (marked_after start trace).parcels }
{
    marks_stay_true::<S>();
    marks_that_go_out_are_true::<S>();
}

/// The report of the worked run, in which an echo service restarts from a mark.
pub fn worked_restart_is_reported()
    ensures { marked_report schedule trace
        ≡ codes "ftreplay 1\nservice echo\nserver 192.0.2.100:7\nmarks 1\nclient 1 192.0.2.1:40000 1000 hex:68656c6c6f\nevent 1 boot 1 5000\npacket 1 S>L Hello boot 1\nevent 2 deliver 1\npacket 2 L>S Summary boot 1 count 0\nevent 3 deliver 2\nevent 4 open 1 65535\npacket 3 1>S S seq 1000 ack 0 window 65535 mss - data -\nevent 5 deliver 3\npacket 4 S>L Open boot 1 key 192.0.2.1:40000 cisn 1000 sisn 5000 mss 536\nevent 6 deliver 4\npacket 5 L>S Opened boot 1 key 192.0.2.1:40000 cisn 1000 sisn 5000 mss 536\nevent 7 deliver 5\npacket 6 S>1 AS seq 5000 ack 1001 window 65535 mss 1460 data -\nevent 8 deliver 6\nevent 9 ack 1 65535\npacket 7 1>S A seq 1001 ack 5001 window 65535 mss - data -\nevent 10 deliver 7\nevent 11 send 1 0 5\npacket 8 1>S A seq 1001 ack 5001 window 65535 mss - data 68656c6c6f\nevent 12 deliver 8\npacket 9 S>1 A seq 5001 ack 1001 window 65535 mss - data -\npacket 10 S>L Data boot 1 key 192.0.2.1:40000 offset 0 acked 0 fin 0 bytes 68656c6c6f\npacket 11 S>L Read boot 1 key 192.0.2.1:40000 index 0 length 5\nevent 13 deliver 10\npacket 12 L>S Stable boot 1 key 192.0.2.1:40000 length 5 fin 0 reads 0\nevent 14 deliver 12\npacket 13 S>1 A seq 5001 ack 1006 window 65535 mss - data -\nevent 15 deliver 11\npacket 14 L>S Reads boot 1 key 192.0.2.1:40000 length 5 fin 0 reads 1\nevent 16 deliver 14\npacket 15 S>1 A seq 5001 ack 1006 window 65535 mss - data 68656c6c6f\nevent 17 deliver 15\nevent 18 ack 1 65535\npacket 16 1>S A seq 1006 ack 5006 window 65535 mss - data -\nevent 19 deliver 16\npacket 17 S>L Data boot 1 key 192.0.2.1:40000 offset 5 acked 5 fin 0 bytes -\npacket 18 S>L Mark boot 1 key 192.0.2.1:40000 reads 1 length 5 made 5 state -\nevent 20 deliver 18\npacket 19 L>S Marked boot 1 key 192.0.2.1:40000 reads 1\nevent 21 crash\nevent 22 boot 2 900000\npacket 20 S>L Hello boot 2\nevent 23 deliver 20\npacket 21 L>S Summary boot 2 count 1\nevent 24 deliver 21\npacket 22 S>L List boot 2 index 0\nevent 25 deliver 22\npacket 23 L>S Entry boot 2 index 0 key 192.0.2.1:40000 cisn 1000 sisn 5000 mss 536 length 5 fin 0 done 0 reads 1 acked 5\nevent 26 deliver 23\npacket 24 S>L Ask boot 2 key 192.0.2.1:40000\nevent 27 deliver 24\npacket 25 L>S Held boot 2 key 192.0.2.1:40000 reads 1 length 5 made 5 state -\nevent 28 deliver 25\npacket 26 S>1 A seq 5006 ack 1006 window 65535 mss - data -\nclient 1 open accepted 5 68656c6c6f\nlog 192.0.2.1:40000 length 5 fin 0 acked 5 done 0 reads 5\nend 28\n" }
{}

/// A report with marks determines its schedule and its trace: two legal traces have the same report only where their schedules are the same, and the traces
/// too. A schedule says after how many reads its server marks.
pub fn marked_reports_determine_their_traces<S: Saved>()
    ensures { (every often : ℕ) (schedule other : Schedule) (trace also : List MarkedMoment) → FitsSchedule schedule → FitsSchedule other
        → schedule.marks ≡ Some every → other.marks ≡ Some often
        → MarkedLegal (markers (machines S.started S.after S.greeting) S.form S.state_of every) schedule trace
        → MarkedLegal (markers (machines S.started S.after S.greeting) S.form S.state_of often) other also
        → marked_report schedule trace ≡ marked_report other also → (schedule ≡ other) × (trace ≡ also) }
{}
