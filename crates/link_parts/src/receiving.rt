//! One receive of a turn.

ghost use Rattle.std.specs.Prelude.{◌≡◌, ◌≤◌, [], ◌∷◌, take, length, MatchOption};
ghost use Rattle.ft_io.specs.Reported.{Reports};
ghost use Rattle.link_parts.specs.Counts.{with_calls, HasRoom};
ghost use Rattle.link_parts.specs.Receipt.{Received, datagram, received_as, IsQuiet};

use crate::counts::Counts;
use ft_io::{Addr, Link, Receipt};

/// The length of the buffer for a datagram, in bytes: no packet and no message is longer.
pub const DATAGRAM_ROOM: usize = 2_048;

/// Receives once. Returns the datagram's length and sender; `None` is a tick.
pub fn receive<L: Link>(
    link: &mut L,
    buffer: &mut [u8],
    counts: &mut Counts,
) -> Option<(usize, Addr)>
    requires room { 2048 ≤ length buffer.old }
    requires counts { HasRoom 1 counts.old }
    ensures received { (r : Received) × Reports (L.reported link.old) (L.reported link.new) (received_as r ∷ [])
        × (counts.new ≡ with_calls counts.old (received_as r ∷ []))
        × MatchOption result (IsQuiet r) (λ g. (g.0 ≤ length buffer.new) × (r ≡ datagram g.1 (take g.0 buffer.new))) }
    ensures no_bind_fault { L.bind_fault_count link.new ≡ L.bind_fault_count link.old }
{
    let receipt = link.recv(buffer);
    counts.note_received(&receipt);
    match receipt {
        Ok(Receipt::Got { len, from }) => Some((len, from)),
        _ => None,
    }
}
