//! Why a schedule isn't read.

ghost use Rattle.std.specs.Prelude.{◌≡◌};
ghost use Rattle.schedule_text.specs.declared.end.LineEnd.TheVariants.{NoMemory, Refused};

use ft_io::NoMemory;
use ft_model::{Limit, LineWhy};
use thiserror::Error;

/// Why a text isn't read as a schedule.
#[derive(Clone, Copy, Debug, Error)]
pub enum ScheduleEnd {
    /// An allocation failed.
    #[error("no memory")]
    NoMemory,
    /// The first line that is refused, counted from 1, and the reason.
    #[error("line {line} is refused")]
    BadLine { line: u32, why: LineWhy },
    /// The text exceeds a limit.
    #[error("too long")]
    TooLong { what: Limit },
}

/// Why a line isn't read.
#[derive(Clone, Copy)]
pub(crate) enum LineEnd {
    NoMemory,
    Refused(LineWhy),
}

impl From<NoMemory> for LineEnd {
    ghost from_gives = { λ _ e. e ≡ NoMemory };

    fn from(_error: NoMemory) -> LineEnd {
        LineEnd::NoMemory
    }
}

impl From<LineWhy> for LineEnd {
    ghost from_gives = { λ why e. e ≡ Refused why };

    fn from(why: LineWhy) -> LineEnd {
        LineEnd::Refused(why)
    }
}
