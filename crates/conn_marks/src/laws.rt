//! A connection whose marks are sent as `Marking` says takes its turns by the law of marks.

ghost use Rattle.std.specs.Prelude.{◌≡◌, ℕ, false, List, length};
ghost use Rattle.ft_io.specs.declared.Addr.{Addr};
ghost use Rattle.server_trait.specs.Service.{machine};
ghost use Rattle.server_trait.specs.Saved.{Writing};
ghost use Rattle.ft_model.specs.Connection.{ConnectionTurn};
ghost use Rattle.ft_model.specs.Network.{Packet};
ghost use Rattle.ft_model.specs.News.{News};
ghost use Rattle.ft_model.specs.News.News.{Ticks};
ghost use Rattle.ft_model.specs.Point.{Point};
ghost use Rattle.ft_model.specs.ResetAndEnd.{dones};
ghost use Rattle.ft_model.specs.Timer.{is_tick};
ghost use Rattle.mark_laws.specs.Marking.{Marking, MarkingTurn, IsSettled, with_new, new_marks, outstanding_in, with_marks, marks_out};

use server_trait::Service;

/// In a turn other than a tick's, the mark that the turn makes is sent, and no other.
pub fn new_marks_go_out<S: Service>()
    ensures { (fresh : S) (writing : Writing S) (every : ℕ) (server : Addr) (boot : ℕ) (news : News) (p q : Point) (m : Marking) (packets : List Packet)
        → is_tick news ≡ false → ConnectionTurn (machine fresh S.after S.greeting) server boot news p q packets
        → MarkingTurn (machine fresh S.after S.greeting) writing every server boot news p q m (with_new (machine fresh S.after S.greeting) writing every q m)
        (with_marks (length (dones news p q)) (marks_out boot q (new_marks (machine fresh S.after S.greeting) writing every m q)) packets) }
{}

/// In a tick's turn the outstanding mark is sent again. No new one is due, since none was before the tick.
pub fn outstanding_marks_go_out_again<S: Service>()
    ensures { (fresh : S) (writing : Writing S) (every : ℕ) (server : Addr) (boot : ℕ) (p q : Point) (m : Marking) (packets : List Packet)
        → IsSettled (machine fresh S.after S.greeting) every m p → ConnectionTurn (machine fresh S.after S.greeting) server boot Ticks p q packets
        → MarkingTurn (machine fresh S.after S.greeting) writing every server boot Ticks p q m m
        (with_marks (length (dones Ticks p q)) (marks_out boot q (outstanding_in m)) packets) }
{}
