//! Why a step of the world isn't done.

ghost use Rattle.std.specs.Prelude.{◌≡◌};
ghost use Rattle.schedule_network.specs.declared.end.StepEnd.TheVariants.{NoMemory, BadEvent};

use ft_io::NoMemory;
use ft_model::EventWhy;
use peer_client::Refused;
use std::alloc::{AllocError, AllocFailed};
use thiserror::Error;

/// Why an event was not done.
#[derive(Clone, Copy, Debug, Error)]
pub enum StepEnd {
    /// An allocation failed. The world may only be dropped.
    #[error("no memory")]
    NoMemory,
    /// The event isn't allowed. The world is unchanged.
    #[error("the event is not allowed")]
    BadEvent(EventWhy),
    /// The packets would exceed their limit. The world may only be dropped.
    #[error("too many packets")]
    PacketLimit,
}

impl From<NoMemory> for StepEnd {
    ghost from_gives = { λ _ e. e ≡ NoMemory };

    fn from(_error: NoMemory) -> StepEnd {
        StepEnd::NoMemory
    }
}

impl From<AllocError> for StepEnd {
    ghost from_gives = { λ _ e. e ≡ NoMemory };

    fn from(_error: AllocError) -> StepEnd {
        StepEnd::NoMemory
    }
}

impl<T: Drop> From<AllocFailed<T>> for StepEnd {
    ghost from_gives = { λ _ e. e ≡ NoMemory };

    fn from(_error: AllocFailed<T>) -> StepEnd {
        StepEnd::NoMemory
    }
}

impl From<Refused> for StepEnd {
    ghost from_gives = { λ refused e. e ≡ BadEvent refused.why };

    fn from(refused: Refused) -> StepEnd {
        StepEnd::BadEvent(refused.why)
    }
}
