//! What a scripted client may send.

ghost use Rattle.std.specs.Prelude.{◌≡◌, option_map};
ghost use Rattle.peer_client.specs.Moves.{move_value};
ghost use Rattle.ft_model.specs.Client.{move_of, flags_of};

use ft_model::Event;
use seq_arith::{ACK, FIN, RST, SYN};

/// A move of a scripted client. Text has an offset in the script and a length, in bytes.
#[derive(Clone, Copy)]
pub enum Move {
    Syn,
    Text { from: u32, len: u32 },
    Fin,
    Acknowledge,
    Rst,
}

/// The move that an event asks for.
pub fn of_event(event: &Event) -> Option<Move>
    ensures { option_map move_value result ≡ move_of event.now }
{
    match *event {
        Event::Begin { .. } => Some(Move::Syn),
        Event::Send { from, len, .. } => Some(Move::Text { from, len }),
        Event::Fin { .. } => Some(Move::Fin),
        Event::Ack { .. } => Some(Move::Acknowledge),
        Event::Reset { .. } => Some(Move::Rst),
        Event::Boot { .. }
        | Event::Crash
        | Event::Tick
        | Event::Deliver { .. }
        | Event::Flip { .. }
        | Event::Stop { .. } => None,
    }
}

/// The flags of a move.
pub fn flags(made: Move) -> u8
    ensures { result ≡ flags_of (move_value made) }
{
    match made {
        Move::Syn => SYN,
        Move::Text { .. } | Move::Acknowledge => ACK,
        Move::Fin => FIN | ACK,
        Move::Rst => RST,
    }
}
