//! The inputs of a node, and why a turn ends it.

ghost use Rattle.std.specs.Prelude.{◌≡◌};
ghost use Rattle.server_node.specs.declared.input.TurnEnd.TheVariants.{NoMemory};

use ft_io::NoMemory;
use thiserror::Error;

/// One turn's input.
#[derive(Clone, Copy, Drop)]
pub enum Input<'a> {
    /// A datagram from the clients' side.
    Packet(&'a [u8]),
    /// A datagram from the logger's side.
    Message(&'a [u8]),
    Tick,
}

/// Why a turn ended the node. It may only be dropped then.
#[derive(Clone, Copy, Debug, Error)]
pub enum TurnEnd {
    #[error("out of memory")]
    NoMemory,
    /// A server with this larger boot number has sent Hello to the logger.
    #[error("fenced by boot {newer}")]
    Fenced { newer: u64 },
}

impl From<NoMemory> for TurnEnd {
    ghost from_gives = { λ _ e. e ≡ NoMemory };

    fn from(_error: NoMemory) -> TurnEnd {
        TurnEnd::NoMemory
    }
}
