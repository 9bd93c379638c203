//! What each function of a turn is given.

ghost use Rattle.std.specs.Prelude.{◌≡◌, [], IfOk};

use crate::outgoing::Outgoing;
use ft_io::NoMemory;
use std::alloc::Global;
use wrapped_conn::TurnOut;

/// What each function of a turn is given. The memory of `out` and `sent` is reused from turn to turn.
#[derive(Drop)]
pub struct Turn {
    /// The allocator.
    pub alloc: Global,
    /// What the current connection sends.
    pub out: TurnOut,
    /// What the turn sends, in order.
    pub sent: Outgoing,
}

impl Turn {
    /// A turn in which nothing is sent yet.
    pub fn new(alloc: Global) -> Result<Turn, NoMemory>
        ensures { IfOk result (λ turn. turn.sent.items ≡ []) }
    {
        Ok(Turn {
            alloc,
            out: TurnOut::new(alloc)?,
            sent: Outgoing::new(alloc),
        })
    }
}
