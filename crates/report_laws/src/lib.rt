//! The verdict on a text that may be the report of a legal trace, and its laws. `specs/Transitions` defines the verdict as a relation on lines. Nothing here
//! runs: each function is a theorem, and its body is empty.
#![tactic(auto)]

ghost use Rattle.std.specs.Prelude.{◌≡◌, ℕ, ◌-◌, Ok, Option, List, length, take};
ghost use Rattle.ft_model.specs.Grammar.{read_text};
ghost use Rattle.ft_model.specs.Legal.{machines};
ghost use Rattle.ft_model.specs.declared.line.Draft.TheVariants.{Begun};
ghost use Rattle.ft_model.specs.declared.schedule.Schedule.{Schedule};
ghost use Rattle.report_laws.specs.declared.Law.{Law};
ghost use Rattle.report_laws.specs.Canonical.{IsWithinLimits, schedule_bytes};
ghost use Rattle.report_laws.specs.Lines.{lines_in};
ghost use Rattle.report_laws.specs.Transitions.{Position, Step, LineGives, IsReport};
ghost use Rattle.report_laws.specs.Transitions.Position.{AtStart};
ghost use Rattle.report_laws.specs.Verdict.{AcceptedFrom, IsRejected, SameLines};

use server_trait::Service;

/// Why a line is rejected.
#[derive(Clone, Copy, Debug, PartialEq, Eq)]
pub enum Law {
    /// The packets of a client's turn.
    Client,
    /// The packets of the logger's turn.
    Log,
    /// The packets of the server's turn.
    Server,
    /// A packet line after a complete turn.
    Packet,
    /// A line of the header or of an event that isn't in its one spelling.
    Text,
    /// An event that isn't allowed, or the 100,001st.
    Event,
    /// The lines that close the report.
    End,
}

/// At a position, a line has at most one outcome.
pub fn a_line_has_one_outcome<S: Service>()
    ensures { (position : Position) (text : Option (List ℕ)) (one other : Step)
        → LineGives (machines S.started S.after S.greeting) position text one → LineGives (machines S.started S.after S.greeting) position text other
        → one ≡ other }
{}

/// A text is rejected at one line at most, and by one law.
pub fn a_rejection_is_unique<S: Service>()
    ensures { (text : List ℕ) (line other : ℕ) (law also : Law)
        → IsRejected (machines S.started S.after S.greeting) text line law → IsRejected (machines S.started S.after S.greeting) text other also
        → (line ≡ other) × (law ≡ also) }
{}

/// No report begins with the lines of a rejected text up to the rejected one. The end of a text counts as a line.
pub fn no_report_has_a_rejected_prefix<S: Service>()
    ensures { (text other : List ℕ) (line : ℕ) (law : Law) → IsRejected (machines S.started S.after S.greeting) text line law
        → SameLines line (lines_in text) (lines_in other) → IsReport (machines S.started S.after S.greeting) other → ⊥ }
{}

/// A text is accepted if and only if it is the report of a legal trace.
pub fn accepted_texts_are_reports<S: Service>()
    ensures reports { (text : List ℕ) → AcceptedFrom (machines S.started S.after S.greeting) AtStart (lines_in text)
        → IsReport (machines S.started S.after S.greeting) text }
    ensures accepted { (text : List ℕ) → IsReport (machines S.started S.after S.greeting) text
        → AcceptedFrom (machines S.started S.after S.greeting) AtStart (lines_in text) }
{}

/// The text of a schedule within the limits, without its last line feed, spells that schedule.
pub fn schedules_within_limits_are_read()
    ensures { (schedule : Schedule) → IsWithinLimits schedule
        → read_text (take (length (schedule_bytes (Begun schedule)) - 1) (schedule_bytes (Begun schedule))) ≡ Ok schedule }
{}
