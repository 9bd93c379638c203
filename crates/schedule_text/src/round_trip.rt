//! A schedule's event can be read back from its line in a report. Nothing here runs; each function is a theorem.

ghost use Rattle.std.specs.Prelude.{◌≡◌, ℕ, ◌++◌, ◌∷◌, [], codes, decimal, Ok};
ghost use Rattle.ft_model.specs.Grammar.{line_of};
ghost use Rattle.ft_model.specs.Report.{event_line};
ghost use Rattle.ft_model.specs.declared.event.Event.{Event};
ghost use Rattle.ft_model.specs.declared.line.Draft.TheVariants.{Begun};
ghost use Rattle.ft_model.specs.declared.line.Line.TheVariants as line;
ghost use Rattle.ft_model.specs.declared.schedule.Schedule.{Schedule};
ghost use Rattle.schedule_text.specs.EventLines.{IsAskable, asked_line};

/// In a report, the line of an event consists of its number and then the line by which a schedule asks for the event.
pub fn event_lines_hold_what_was_asked()
    ensures { (n : ℕ) (e : Event) → event_line n e ≡ codes "event " ++ (decimal n ++ 32 ∷ (asked_line e ++ 10 ∷ [])) }
{}

/// That line is read as the event, after any beginning of a schedule and any events before it.
pub fn events_are_read_back()
    ensures { (schedule : Schedule) (e : Event) → IsAskable e → line_of (Begun schedule) (asked_line e) ≡ Ok (line.Event e) }
{}
