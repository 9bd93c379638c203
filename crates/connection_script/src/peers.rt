//! A connection, with the client and the logger that it talks to.

ghost use Rattle.std.specs.Prelude.{◌≤◌, length, IfOk, OnOk};
ghost use Rattle.wrapped_conn.specs.Sound.{IsSound};

use ft_io::{Addr, Key, NoMemory};
use logger_wire::read_msg;
use sample_servers::AnyService;
use segment_codec::{Head, read_packet, write_packet};
use seq_arith::Seq;
use std::alloc::Global;
use tcp_endpoint::StateName;
use tcp_rules::{Profile, Timestamping};
use test_data::seal;
use wrapped_conn::{Conn, Opened, TurnOut};

pub(crate) const SERVER: Addr = Addr {
    ip: 0xC000_0264,
    port: 7,
};

pub(crate) const CLIENT: Key = Key {
    ip: 0xC000_0201,
    port: 40_000,
};

/// The initial sequence numbers of the client and of the server.
pub(crate) const CISN: Seq = Seq(1_000);

pub(crate) const SISN: Seq = Seq(5_000);

/// What of a connection is logged: the client's bytes, whether its FIN is, and how many reads.
#[derive(Clone, Copy)]
pub(crate) struct Logged {
    pub(crate) length: u32,
    pub(crate) fin: bool,
    pub(crate) reads: u32,
}

/// The kinds of the logger's answers to a Data and to a Read.
#[derive(Clone, Copy, PartialEq, Eq)]
pub(crate) enum Answer {
    Stable,
    Reads,
}

/// A connection with a service of this kind, whose client has sent its SYN, of a server with this profile.
pub(crate) fn connection(
    alloc: Global,
    profile: Profile,
    kind: u8,
) -> Result<Conn<AnyService>, NoMemory>
    ensures { IfOk result (λ c. IsSound c) }
{
    let opened = Opened {
        key: CLIENT,
        cisn: CISN,
        sisn: SISN,
        mss: 536,
        timestamping: Timestamping::Off,
    };
    Conn::open_in(profile, alloc, 1, SERVER, opened, kind)
}

/// The first turn of a connection, which sends its SYN-ACK.
pub(crate) fn start(
    alloc: Global,
    conn: &mut Conn<AnyService>,
    out: &mut TurnOut,
) -> Result<(), NoMemory>
    requires { IsSound conn.old }
    ensures { OnOk result (IsSound conn.new) }
{
    out.clear();
    conn.start(alloc, out)
}

/// A datagram comes from the client. Nothing is done where it is no packet.
pub(crate) fn take_packet(
    alloc: Global,
    conn: &mut Conn<AnyService>,
    packet: &mut [u8],
    out: &mut TurnOut,
) -> Result<(), NoMemory>
    requires { IsSound conn.old }
    ensures { OnOk result (IsSound conn.new) }
{
    out.clear();
    if read_packet(packet).is_err() {
        return Ok(());
    }
    conn.on_packet(alloc, packet, out)
}

/// The client's next segment: it begins after all that is taken, and acknowledges all that is sent.
pub(crate) fn next_segment(
    alloc: Global,
    conn: &mut Conn<AnyService>,
    flags: u8,
    text: &[u8],
    out: &mut TurnOut,
) -> Result<(), NoMemory>
    requires sound { IsSound conn.old }
    requires short { length text.now ≤ 1460 }
    ensures { OnOk result (IsSound conn.new) }
{
    let sent = conn.inside().sent;
    next_acknowledging(alloc, conn, flags, text, sent, out)
}

/// .. or only this many units.
pub(crate) fn next_acknowledging(
    alloc: Global,
    conn: &mut Conn<AnyService>,
    flags: u8,
    text: &[u8],
    acked: u32,
    out: &mut TurnOut,
) -> Result<(), NoMemory>
    requires sound { IsSound conn.old }
    requires short { length text.now ≤ 1460 }
    ensures { OnOk result (IsSound conn.new) }
{
    let head = Head {
        src: CLIENT.ip,
        dst: SERVER.ip,
        sport: CLIENT.port,
        dport: SERVER.port,
        seq: CISN.add(1).add(conn.inside().taken),
        ack: SISN.add(1).add(acked),
        flags,
        window: 65_535,
        mss: None,
        timestamps: None,
    };
    let mut packet = [0u8; limits::PACKET];
    let len = write_packet(&head, text, &mut packet);
    take_packet(alloc, conn, &mut packet[..len], out)
}

/// A message that reports what is logged.
fn message(answer: Answer, logged: Logged) -> [u8; 31] {
    let kind = if answer == Answer::Stable { 12 } else { 14 };
    let mut bytes = [0u8; 31];
    bytes[..16].copy_from_slice(&[0x46, 0x54, 1, kind, 0, 31, 0, 0, 0, 0, 0, 0, 0, 0, 0, 1]);
    bytes[16..20].copy_from_slice(&CLIENT.ip.to_be_bytes());
    bytes[20..22].copy_from_slice(&CLIENT.port.to_be_bytes());
    bytes[22..26].copy_from_slice(&logged.length.to_be_bytes());
    bytes[26] = u8::from(logged.fin);
    bytes[27..31].copy_from_slice(&logged.reads.to_be_bytes());
    seal(&mut bytes[..]);
    bytes
}

/// The logger reports what is logged.
pub(crate) fn receive(
    alloc: Global,
    conn: &mut Conn<AnyService>,
    answer: Answer,
    logged: Logged,
    out: &mut TurnOut,
) -> Result<(), NoMemory>
    requires { IsSound conn.old }
    ensures { OnOk result (IsSound conn.new) }
{
    out.clear();
    let bytes = message(answer, logged);
    match read_msg(&bytes[..]) {
        Ok(m) => conn.on_msg(alloc, &m, out),
        Err(_) => Ok(()),
    }
}

/// All that a connection has taken and read.
pub(crate) fn all_of(conn: &Conn<AnyService>) -> Logged
    requires { IsSound conn.now }
{
    let fin = matches!(
        conn.endpoint().state().name,
        StateName::CloseWait
            | StateName::Closing
            | StateName::LastAck
            | StateName::TimeWait
            | StateName::Closed
    );
    let inside = conn.inside();
    Logged {
        length: inside.taken.saturating_sub(u32::from(fin)),
        fin,
        reads: inside.reads,
    }
}
