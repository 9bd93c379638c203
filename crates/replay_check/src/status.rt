//! How a run or a check ends.

ghost use Rattle.std.specs.Prelude.{◌≡◌};
ghost use Rattle.replay_check.specs.declared.status.RunEnd.TheVariants as ends;
ghost use Rattle.replay_check.specs.Ends.{end_of_step as end_lem};

use ft_io::{Failed, NoMemory, ReadEnd};
use ft_model::{EventWhy, Limit, LineWhy};
use report_laws::Law;
use schedule_network::StepEnd;
use schedule_text::ScheduleEnd;
use std::alloc::AllocError;
use trace_check::CheckEnd;

/// The exit status of the program.
#[derive(Clone, Copy, PartialEq, Eq)]
pub struct Status {
    /// 0 if everything was done, otherwise the number of the reason.
    pub code: u8,
}

/// The limit that was exceeded.
#[derive(Clone, Copy, PartialEq, Eq)]
pub enum TooMuch {
    Text,
    Events,
    Packets,
}

/// Why a run or a check ends early.
#[derive(Clone, Copy)]
pub enum RunEnd {
    Usage,
    NoMemory,
    ReadFault,
    WriteFault,
    BadLine { line: u32, why: LineWhy },
    BadEvent { event: u32, why: EventWhy },
    TooLong(TooMuch),
    Rejected { line: u32, law: Law },
}

impl From<NoMemory> for RunEnd {
    ghost from_gives = { λ _ e. e ≡ ends.NoMemory };

    fn from(_error: NoMemory) -> RunEnd {
        RunEnd::NoMemory
    }
}

impl From<AllocError> for RunEnd {
    ghost from_gives = { λ _ e. e ≡ ends.NoMemory };

    fn from(_error: AllocError) -> RunEnd {
        RunEnd::NoMemory
    }
}

impl From<ReadEnd> for RunEnd {
    ghost use Rattle.std.specs.Prelude.{◌≡◌};
    ghost use Rattle.replay_check.specs.Ends.{end_of_read};

    ghost from_gives = { λ end e. e ≡ end_of_read end };

    fn from(end: ReadEnd) -> RunEnd {
        match end {
            ReadEnd::NoMemory => RunEnd::NoMemory,
            ReadEnd::Fault => RunEnd::ReadFault,
            ReadEnd::TooLong => RunEnd::TooLong(TooMuch::Text),
        }
    }
}

impl From<ScheduleEnd> for RunEnd {
    ghost use Rattle.std.specs.Prelude.{◌≡◌};
    ghost use Rattle.replay_check.specs.Ends.{end_of_schedule};

    ghost from_gives = { λ end e. e ≡ end_of_schedule end };

    fn from(end: ScheduleEnd) -> RunEnd {
        match end {
            ScheduleEnd::NoMemory => RunEnd::NoMemory,
            ScheduleEnd::BadLine { line, why } => RunEnd::BadLine { line, why },
            ScheduleEnd::TooLong { what: Limit::Text } => RunEnd::TooLong(TooMuch::Text),
            ScheduleEnd::TooLong {
                what: Limit::Events,
            } => RunEnd::TooLong(TooMuch::Events),
        }
    }
}

impl From<CheckEnd> for RunEnd {
    ghost use Rattle.std.specs.Prelude.{◌≡◌};
    ghost use Rattle.replay_check.specs.Ends.{end_of_check};

    ghost from_gives = { λ end e. e ≡ end_of_check end };

    fn from(end: CheckEnd) -> RunEnd {
        match end {
            CheckEnd::NoMemory => RunEnd::NoMemory,
            CheckEnd::Reject { line, law } => RunEnd::Rejected { line, law },
        }
    }
}

impl From<Failed> for RunEnd {
    ghost from_gives = { λ _ e. e ≡ ends.WriteFault };

    fn from(_failed: Failed) -> RunEnd {
        RunEnd::WriteFault
    }
}

/// Returns the end of a run whose step at event number `event` failed.
pub fn end_of_step(end: StepEnd, event: u32) -> RunEnd
    ensures { result ≡ end_lem end event }
{
    match end {
        StepEnd::NoMemory => RunEnd::NoMemory,
        StepEnd::BadEvent(why) => RunEnd::BadEvent { event, why },
        StepEnd::PacketLimit => RunEnd::TooLong(TooMuch::Packets),
    }
}
