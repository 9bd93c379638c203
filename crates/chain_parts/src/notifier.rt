//! `alone`: informs a logger that the other has stopped.

ghost use Rattle.std.specs.Prelude.{◌≡◌, OnOk, IfErr, IsErrOf};
ghost use Rattle.std.specs.Io.KnownBytes.{Appends};
ghost use Rattle.ft_io.specs.Faults.{Rose};
ghost use Rattle.ft_io.specs.Link.{send_reported};
ghost use Rattle.ft_io.specs.Reported.{Reports};
ghost use Rattle.seq_arith.specs.TwinDatagram.{TwinDatagram as datagrams};
ghost use Rattle.seq_arith.specs.TwinGrammar.{spelling};
ghost use Rattle.link_parts.specs.Ends.{UnlessFault};
ghost use Rattle.chain_parts.specs.StopNotice.{IsNotifier, NotifierStops, line_of as line_of_lem};

use crate::pair_role::AloneRole;
use ft_io::{Addr, Failed, Link, Sink, write_all};
use link_parts::NodeEnd;
use logger_wire::{TwinMsg, write_twin};

/// The length of the buffer for a datagram between two loggers.
const ROOM: usize = 2_048;

/// Hands one Alone to send.
fn send_alone<L: Link>(link: &mut L, to: Addr) -> Result<(), Failed>
    ensures sent { Reports (L.reported link.old) (L.reported link.new) (send_reported to (spelling datagrams.Alone) result) }
    ensures no_bind_fault { L.bind_fault_count link.new ≡ L.bind_fault_count link.old }
{
    let mut buffer = [0; ROOM];
    let len = write_twin(&TwinMsg::Alone, &mut buffer);
    link.send(to, &buffer[..len])
}

/// The line that reports whether the send failed.
fn line_of<'a>(sent: &Result<(), Failed>) -> &'a [u8]
    ensures { result.now ≡ line_of_lem sent.now }
{
    match sent {
        Ok(()) => b"sent 1 lost 0\n",
        Err(Failed) => b"sent 0 lost 1\n",
    }
}

/// Binds, hands one Alone to send, and writes whether that send failed.
pub fn run_notifier<L: Link, O: Sink>(
    role: &AloneRole,
    link: &mut L,
    out: &mut O,
) -> Result<(), NodeEnd>
    ensures done { OnOk result (IsNotifier role.now (L.reported link.old) (L.reported link.new) (Appends (O.taken out.old) (O.taken out.new))) }
    ensures stops { IfErr result (NotifierStops role.now (L.reported link.old) (L.reported link.new) (O.taken out.old) (O.taken out.new)) }
    ensures bind_cause { IsErrOf result NodeEnd.LinkFault → Rose (L.bind_fault_count link.old) (L.bind_fault_count link.new) }
    ensures write_cause { IsErrOf result NodeEnd.WriteFault → Rose (O.fault_count out.old) (O.fault_count out.new) }
    ensures no_bind_fault { UnlessFault result (L.bind_fault_count link.new ≡ L.bind_fault_count link.old) }
    ensures no_write_fault { UnlessFault result (O.fault_count out.new ≡ O.fault_count out.old) }
{
    if link.bind(role.local).is_err() {
        return Err(NodeEnd::LinkFault);
    }
    let sent = send_alone(link, role.to);
    match write_all(out, line_of(&sent)) {
        Ok(()) => Ok(()),
        Err(Failed) => Err(NodeEnd::WriteFault),
    }
}
