//! Schedules whose server doesn't last. Nothing here runs.

ghost use Rattle.std.specs.Prelude.{◌≡◌, ℕ, List, Ok, None};
ghost use Rattle.ft_model.specs.Grammar.{read_text};
ghost use Rattle.ft_model.specs.declared.schedule.Schedule.{Schedule};
ghost use Rattle.schedule_text.specs.Fleeting.{read_fleeting};

/// What a reader that knows no others reads is the schedule that the text spells, and its server doesn't last.
pub fn fleeting_texts_spell_schedules()
    ensures spelled { (text : List ℕ) (schedule : Schedule) → read_fleeting text ≡ Ok schedule → read_text text ≡ Ok schedule }
    ensures fleeting { (text : List ℕ) (schedule : Schedule) → read_fleeting text ≡ Ok schedule → schedule.lasting ≡ None }
{}
