//! Laws of the marks that a node sends: when a mark is sent, at which place of a turn, and that each is true.

ghost use Rattle.std.specs.Prelude.{◌≡◌, ℕ, ◌≤◌, ◌++◌, ◌↔◌, true, None, Some, List, [], length, map, sum};
ghost use Rattle.std.specs.List.{AllByRecursion};
ghost use Rattle.ft_io.specs.declared.Addr.{Addr};
ghost use Rattle.seq_arith.specs.Mark.{Mark};
ghost use Rattle.server_trait.specs.Service.{machine};
ghost use Rattle.server_trait.specs.Saved.{Writing};
ghost use Rattle.ft_model.specs.Connection.{ConnectionTurn, sent_by, reported_by};
ghost use Rattle.ft_model.specs.Copy.{copies};
ghost use Rattle.ft_model.specs.ResetAndEnd.{dones};
ghost use Rattle.ft_model.specs.Growth.{IsPrefix};
ghost use Rattle.ft_model.specs.Log.{Entry};
ghost use Rattle.ft_model.specs.Network.Packet.{To_client};
ghost use Rattle.ft_model.specs.News.{News};
ghost use Rattle.ft_model.specs.News.News.{Ticks};
ghost use Rattle.ft_model.specs.Point.{Point};
ghost use Rattle.ft_model.specs.Reads.{reads_reported};
ghost use Rattle.ft_model.specs.Segments.{segments_of};
ghost use Rattle.mark_laws.specs.Quiet.{IsQuiet, is_quiet};
ghost use Rattle.mark_laws.specs.Marking.{Marking, new_marks, outstanding_in, Outgoing, with_marks, without_marks, MarkingTurn, MarkedTurn};
ghost use Rattle.mark_laws.specs.Marking.{IsSettled, MarksNothing, OnlyRepeats};
ghost use Rattle.mark_laws.specs.Marking.{AreTrue, ReportsTruth};
ghost use Rattle.mark_laws.specs.Marking.Outgoing.{Plain};

use server_trait::Service;

/// `is_quiet` is true of exactly the quiet points.
pub fn quiet_points_are_found<S: Service>()
    ensures { (fresh : S) (p : Point) → (is_quiet (machine fresh S.after S.greeting) p ≡ true) ↔ IsQuiet (machine fresh S.after S.greeting) p }
{}

/// A turn with marks, without its marks, is a turn that the laws of a connection without marks allow.
pub fn turns_without_their_marks_are_lawful<S: Service>()
    ensures { (fresh : S) (writing : Writing S) (every : ℕ) (server : Addr) (boot : ℕ) (news : News) (p q : Point) (m n : Marking) (sent : List Outgoing)
        → MarkingTurn (machine fresh S.after S.greeting) writing every server boot news p q m n sent
        → ConnectionTurn (machine fresh S.after S.greeting) server boot news p q (without_marks sent) }
{}

/// A node with 0 for `every` and without an outstanding mark sends what it sends without marks.
pub fn nodes_may_mark_nothing<S: Service>()
    ensures { (fresh : S) (writing : Writing S) (server : Addr) (boot : ℕ) (news : News) (p q : Point) (m n : Marking) (sent : List Outgoing)
        → m.outstanding ≡ None → (turn : MarkingTurn (machine fresh S.after S.greeting) writing 0 server boot news p q m n sent)
        → MarksNothing turn.packets m n sent }
{}

/// Marks are sent after the Reads of their turn, and before its Done.
pub fn marks_stand_before_done<S: Service>()
    ensures { (fresh : S) (server : Addr) (boot : ℕ) (news : News) (p q : Point) (marks : List Outgoing)
        → with_marks (length (dones news p q)) marks (sent_by (machine fresh S.after S.greeting) server boot news p q)
        ≡ map Plain (map To_client (segments_of (machine fresh S.after S.greeting) server news p q) ++ map (reported_by boot)
        (copies news p q ++ reads_reported news p q))
        ++ (marks ++ map Plain (map (reported_by boot) (dones news p q))) }
{}

/// After a turn no mark is due, since one that was due has been sent, and a connection that its client hasn't reset has no read to make.
pub fn turns_leave_no_mark_due<S: Service>()
    ensures turn { (fresh : S) (writing : Writing S) (every : ℕ) (server : Addr) (boot : ℕ) (news : News) (p q : Point) (m n : Marking) (sent : List Outgoing)
        → MarkingTurn (machine fresh S.after S.greeting) writing every server boot news p q m n sent → IsSettled (machine fresh S.after S.greeting) every n q }
    ensures answer { (fresh : S) (writing : Writing S) (every boot reads : ℕ) (p : Point) (m n : Marking) (sent : List Outgoing)
        → IsSettled (machine fresh S.after S.greeting) every m p
        → MarkedTurn (machine fresh S.after S.greeting) writing every boot reads p m n sent → IsSettled (machine fresh S.after S.greeting) every n p }
{}

/// A new mark counts exactly the output that the client has acknowledged and the reads that are known to be logged. While a mark is outstanding, no new one is
/// made.
pub fn new_marks_wait_for_answers<S: Service>()
    ensures acknowledged { (fresh : S) (writing : Writing S) (every : ℕ) (m : Marking) (p : Point)
        → AllByRecursion (λ mark. (mark.made ≡ p.una) × (mark.reads ≡ p.reads_answered)) (new_marks (machine fresh S.after S.greeting) writing every m p) }
    ensures outstanding { (fresh : S) (writing : Writing S) (every : ℕ) (m : Marking) (p : Point) (mark : Mark) → m.outstanding ≡ Some mark
        → new_marks (machine fresh S.after S.greeting) writing every m p ≡ [] }
{}

/// At a tick no new mark is made: only the mark that isn't answered is sent again.
pub fn ticks_make_no_new_mark<S: Service>()
    ensures { (fresh : S) (writing : Writing S) (every : ℕ) (server : Addr) (boot : ℕ) (p q : Point) (m n : Marking) (sent : List Outgoing)
        → IsSettled (machine fresh S.after S.greeting) every m p
        → (turn : MarkingTurn (machine fresh S.after S.greeting) writing every server boot Ticks p q m n sent)
        → OnlyRepeats (length (dones Ticks p q)) boot q turn.packets m n sent }
{}

/// The marks sent in a turn, and the one outstanding after it, are true of the log's entry, if the one outstanding before it was. The other premises are
/// those of `quiet_points_mark_the_log`, for the point after the turn.
pub fn marks_that_go_out_are_true<S: Service>()
    ensures { (fresh : S) (writing : Writing S) (every : ℕ) (news : News) (script : List ℕ) (m : Marking) (q : Point) (e : Entry) → IsPrefix q.taken script
        → sum q.lengths ≤ length q.taken → IsPrefix e.bytes script → sum e.lengths ≤ length e.bytes → IsPrefix e.lengths q.lengths
        → q.reads_answered ≤ length e.lengths → AreTrue (machine fresh S.after S.greeting) writing e (outstanding_in m)
        → ReportsTruth (machine fresh S.after S.greeting) writing every news m q e }
{}
