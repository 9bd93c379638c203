//! What a logger of a pair sends, as datagrams to the addresses of the server and of the other logger.

ghost use Rattle.std.specs.Prelude.{◌≡◌, ◌<◌, ◌-◌, ◌^◌, length};
ghost use Rattle.link_parts.specs.Counts.{HasRoom};
ghost use Rattle.chain_parts.specs.PartTurns.{address_for as address_for_lem, addressed_to, addressed};
ghost use Rattle.chain_parts.specs.PartSteps.{HasSent};

use ft_io::{Addr, Link};
use link_parts::Counts;
use twin_log::{Side, TwinOut};

/// Returns the address of a side, or `None` for the server while its address isn't known.
pub(crate) fn address_for(server: Option<Addr>, other: Addr, side: Side) -> Option<Addr>
    ensures { result ≡ address_for_lem server other side }
{
    match side {
        Side::Server => server,
        Side::Other => Some(other),
    }
}

/// Hands a datagram to send, unless its address isn't known.
fn hand<L: Link>(link: &mut L, to: Option<Addr>, bytes: &[u8], counts: &mut Counts)
    requires { HasRoom 1 counts.old }
    ensures sent { HasSent (addressed_to to bytes.now) (L.reported link.old) (L.reported link.new) counts.old counts.new }
    ensures no_bind_fault { L.bind_fault_count link.new ≡ L.bind_fault_count link.old }
{
    if let Some(to) = to {
        let sent = link.send(to, bytes);
        counts.note_sent(&sent);
    }
}

/// Hands the datagrams to send, in order. Those for a server whose address isn't known yet aren't sent.
pub(crate) fn send_all<L: Link>(
    link: &mut L,
    server: Option<Addr>,
    other: Addr,
    out: &TwinOut,
    counts: &mut Counts,
)
    requires { HasRoom (2 ^ 64 - 1) counts.old }
    ensures sent { HasSent (addressed server other out.now) (L.reported link.old) (L.reported link.new) counts.old counts.new }
    ensures short { length out.now < 2 ^ 64 }
    ensures no_bind_fault { L.bind_fault_count link.new ≡ L.bind_fault_count link.old }
{
    for i in 0..out.len() {
        hand(
            link,
            address_for(server, other, out.to(i)),
            out.bytes(i),
            counts,
        );
    }
}
