//! The moves of a scripted client.

ghost use Rattle.std.specs.Prelude.{◌≡◌, option_map};
ghost use Rattle.plain_world.specs.Moves.{move_value};
ghost use Rattle.ft_model.specs.Client.{move_of, flags_of};

use ft_model::Event;
use seq_arith::{ACK, FIN, RST, SYN};

/// A move of a scripted client. Text has an offset in the script and a length, in bytes.
#[derive(Clone, Copy)]
pub enum Move {
    /// The SYN.
    Syn,
    /// A part of the script.
    Text { from: u32, len: u32 },
    /// The FIN.
    Fin,
    /// A pure ACK.
    Acknowledge,
    /// A RST.
    Rst,
}

/// Returns the move that an event asks for, or `None` if it asks for none.
pub fn move_of(event: &Event) -> Option<Move>
    ensures { option_map move_value result ≡ move_of event.now }
{
    match *event {
        Event::Begin { .. } => Some(Move::Syn),
        Event::Send { from, len, .. } => Some(Move::Text { from, len }),
        Event::Fin { .. } => Some(Move::Fin),
        Event::Ack { .. } => Some(Move::Acknowledge),
        Event::Reset { .. } => Some(Move::Rst),
        Event::Boot { .. }
        | Event::Crash
        | Event::Tick
        | Event::Deliver { .. }
        | Event::Flip { .. }
        | Event::Stop { .. } => None,
    }
}

/// Returns the flags of a move.
pub(crate) fn flags(made: Move) -> u8
    ensures { result ≡ flags_of (move_value made) }
{
    match made {
        Move::Syn => SYN,
        Move::Text { .. } | Move::Acknowledge => ACK,
        Move::Fin => FIN | ACK,
        Move::Rst => RST,
    }
}
