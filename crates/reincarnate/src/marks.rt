//! What a restart does about marks.

ghost use Rattle.std.specs.Prelude.{◌≡◌, true, if◌then◌else◌};
ghost use Rattle.mark_laws.specs.Restart.{awaits_after};
ghost use Rattle.logger_wire.specs.Value.{body_of};
ghost use Rattle.reincarnate.specs.Marking.{used_if, awaits, marks_after};

use logger_wire::Body;

/// Whether a restart asks for marks, and whether it awaits one.
#[derive(Clone, Copy)]
pub(crate) enum Marks {
    /// It asks for none.
    Unused,
    /// It asks for the mark of each entry that may have one, directly after the entry.
    Used,
    /// It asks for the mark of the newest entry.
    Awaited,
}

impl Marks {
    /// The value at the beginning of a restart that uses marks or doesn't.
    pub(crate) fn used_if(used: bool) -> Marks
        ensures { result ≡ used_if used }
    {
        if used { Marks::Used } else { Marks::Unused }
    }

    /// Whether the mark of the newest entry is awaited.
    pub(crate) fn are_awaited(self) -> bool
        ensures { result ≡ awaits self }
    {
        match self {
            Marks::Awaited => true,
            Marks::Unused | Marks::Used => false,
        }
    }

    /// The value after an answer that isn't about marks. The mark of an entry is awaited if its connection continues and has reads.
    pub(crate) fn after(self, body: &Body<'_>) -> Marks
        ensures { result ≡ marks_after self (body_of body.now) }
    {
        match self {
            Marks::Unused => Marks::Unused,
            Marks::Used | Marks::Awaited => Marks::after_answer(body),
        }
    }

    /// The same where marks are asked for.
    fn after_answer(body: &Body<'_>) -> Marks
        ensures { result ≡ (if awaits_after true (body_of body.now) then Marks.Awaited else Marks.Used) }
    {
        match *body {
            Body::Entry { head, .. } if !head.done && head.reads > 0 => Marks::Awaited,
            _ => Marks::Used,
        }
    }
}
