//! The situations in which a connection meets hostile datagrams.

ghost use Rattle.std.specs.Prelude.{OnOk};
ghost use Rattle.wrapped_conn.specs.Sound.{IsSound};

use crate::peers::{Answer, all_of, next_segment, receive, start};
use ft_io::NoMemory;
use sample_servers::AnyService;
use seq_arith::{ACK, FIN, RST};
use std::alloc::Global;
use wrapped_conn::{Conn, TurnOut};

/// How far a connection has come.
#[derive(Clone, Copy, Debug, PartialEq, Eq)]
pub(crate) enum Situation {
    /// Its SYN-ACK is sent.
    Started,
    /// Five bytes are taken, and none is logged.
    Unlogged,
    /// The client's FIN is taken after them.
    FinTaken,
    /// Both FINs are through, and the server's was first.
    ServerFirst,
    /// Both FINs are through, and the client's was first.
    ClientFirst,
    /// The client has reset it.
    Reset,
    /// Four ticks have passed since both FINs were through.
    Ending,
}

pub(crate) const SITUATIONS: [Situation; 7] = [
    Situation::Started,
    Situation::Unlogged,
    Situation::FinTaken,
    Situation::ServerFirst,
    Situation::ClientFirst,
    Situation::Reset,
    Situation::Ending,
];

impl Situation {
    /// The kind of the service: Line where the server closes first, and else Echo.
    pub(crate) fn kind(self) -> u8 {
        if self == Situation::ServerFirst { 2 } else { 1 }
    }
}

/// The logger has all that is taken and read.
pub(crate) fn log_all(
    alloc: Global,
    conn: &mut Conn<AnyService>,
    out: &mut TurnOut,
) -> Result<(), NoMemory>
    requires { IsSound conn.old }
    ensures { OnOk result (IsSound conn.new) }
{
    receive(alloc, conn, Answer::Reads, all_of(conn), out)
}

/// The client has sent five bytes to Echo, and closes if asked to.
fn unlogged(
    alloc: Global,
    conn: &mut Conn<AnyService>,
    closes: bool,
    out: &mut TurnOut,
) -> Result<(), NoMemory>
    requires { IsSound conn.old }
    ensures { OnOk result (IsSound conn.new) }
{
    next_segment(alloc, conn, ACK, b"abcde", out)?;
    if closes {
        next_segment(alloc, conn, FIN | ACK, b"", out)?;
    }
    Ok(())
}

/// The client closes first, the server after its echo: it reads the end once the echo is written.
fn client_first(
    alloc: Global,
    conn: &mut Conn<AnyService>,
    out: &mut TurnOut,
) -> Result<(), NoMemory>
    requires { IsSound conn.old }
    ensures { OnOk result (IsSound conn.new) }
{
    unlogged(alloc, conn, true, out)?;
    log_all(alloc, conn, out)?;
    log_all(alloc, conn, out)?;
    next_segment(alloc, conn, ACK, b"", out)
}

/// Four ticks pass after both FINs.
fn ending(alloc: Global, conn: &mut Conn<AnyService>, out: &mut TurnOut) -> Result<(), NoMemory>
    requires { IsSound conn.old }
    ensures { OnOk result (IsSound conn.new) }
{
    client_first(alloc, conn, out)?;
    for _ in 0..4u32 {
        out.clear();
        conn.on_tick(out);
    }
    Ok(())
}

/// Brings a connection, whose SYN has come, so far.
pub(crate) fn arrange(
    alloc: Global,
    conn: &mut Conn<AnyService>,
    situation: Situation,
    out: &mut TurnOut,
) -> Result<(), NoMemory>
    requires { IsSound conn.old }
    ensures { OnOk result (IsSound conn.new) }
{
    start(alloc, conn, out)?;
    match situation {
        Situation::Started => Ok(()),
        Situation::Unlogged => unlogged(alloc, conn, false, out),
        Situation::FinTaken => unlogged(alloc, conn, true, out),
        // The server closes first, since it is asked to.
        Situation::ServerFirst => {
            next_segment(alloc, conn, ACK, b"quit\n", out)?;
            log_all(alloc, conn, out)?;
            next_segment(alloc, conn, FIN | ACK, b"", out)
        }
        Situation::ClientFirst => client_first(alloc, conn, out),
        Situation::Reset => {
            unlogged(alloc, conn, false, out)?;
            next_segment(alloc, conn, RST, b"", out)
        }
        Situation::Ending => ending(alloc, conn, out),
    }
}
