//! The limits of what a service makes: its output that isn't acknowledged, and all output of a stream. The service is Transfer, which answers four bytes with
//! as many bytes as they say.

ghost use Rattle.std.specs.Prelude.{◌≤◌, length, OnOk};
ghost use Rattle.wrapped_conn.specs.Sound.{IsSound};

use crate::peers::{Answer, all_of, connection, next_acknowledging, next_segment, receive, start};
use ft_io::NoMemory;
use sample_servers::AnyService;
use seq_arith::ACK;
use std::alloc::Global;
use tcp_rules::Profile;
use wrapped_conn::{Conn, TurnOut};

/// The number of Transfer.
const TRANSFER: u8 = 3;

/// The requests of a segment, and how many segments of them come close to the limit of a stream's output.
const REQUESTS: usize = 365;

const SEGMENTS: u32 = 21;

/// More turns than it takes until a client has acknowledged the output of one read.
const ACKNOWLEDGEMENTS: u32 = 100;

/// A segment of requests for `size` bytes each.
fn requests(size: u16) -> [u8; limits::TEXT] {
    let mut text = [0u8; limits::TEXT];
    for i in 0..REQUESTS {
        text[4 * i + 2..4 * i + 4].copy_from_slice(&size.to_be_bytes());
    }
    text
}

/// The client sends a text and acknowledges this many units, and the logger logs everything. Returns how many reads there are then.
fn turn(
    alloc: Global,
    conn: &mut Conn<AnyService>,
    text: &[u8],
    acked: u32,
    out: &mut TurnOut,
) -> Result<u32, NoMemory>
    requires sound { IsSound conn.old }
    requires short { length text.now ≤ 1460 }
    ensures { OnOk result (IsSound conn.new) }
{
    next_acknowledging(alloc, conn, ACK, text, acked, out)?;
    let logged = all_of(conn);
    receive(alloc, conn, Answer::Stable, logged, out)?;
    let logged = all_of(conn);
    receive(alloc, conn, Answer::Reads, logged, out)?;
    Ok(conn.inside().reads)
}

/// The client acknowledges all that comes.
fn acknowledge_all(
    alloc: Global,
    conn: &mut Conn<AnyService>,
    out: &mut TurnOut,
) -> Result<(), NoMemory>
    requires { IsSound conn.old }
    ensures { OnOk result (IsSound conn.new) }
{
    for _ in 0..ACKNOWLEDGEMENTS {
        next_segment(alloc, conn, ACK, b"", out)?;
        let inside = conn.inside();
        if inside.una == inside.sent {
            return Ok(());
        }
    }
    Ok(())
}

/// A turn, and then the client acknowledges all that comes.
fn turn_acknowledged(
    alloc: Global,
    conn: &mut Conn<AnyService>,
    text: &[u8],
    out: &mut TurnOut,
) -> Result<u32, NoMemory>
    requires sound { IsSound conn.old }
    requires short { length text.now ≤ 1460 }
    ensures { OnOk result (IsSound conn.new) }
{
    let sent = conn.inside().sent;
    let reads = turn(alloc, conn, text, sent, out)?;
    acknowledge_all(alloc, conn, out)?;
    Ok(reads)
}

/// The same, this many times.
fn turns_acknowledged(
    alloc: Global,
    conn: &mut Conn<AnyService>,
    text: &[u8],
    count: u32,
    out: &mut TurnOut,
) -> Result<(), NoMemory>
    requires sound { IsSound conn.old }
    requires short { length text.now ≤ 1460 }
    ensures { OnOk result (IsSound conn.new) }
{
    for _ in 0..count {
        let _reads = turn_acknowledged(alloc, conn, text, out)?;
    }
    Ok(())
}

/// Many turns, in which the client acknowledges nothing. How many reads there are then.
fn turns_unacknowledged(
    alloc: Global,
    conn: &mut Conn<AnyService>,
    text: &[u8],
    count: u32,
    out: &mut TurnOut,
) -> Result<u32, NoMemory>
    requires sound { IsSound conn.old }
    requires short { length text.now ≤ 1460 }
    ensures { OnOk result (IsSound conn.new) }
{
    for _ in 0..count {
        let _reads = turn(alloc, conn, text, 0, out)?;
    }
    Ok(conn.inside().reads)
}

/// The client acknowledges nothing: how many reads there are when 65,504 bytes are made, 65,535, 65,536, and a request more has come; and when it has
/// acknowledged one byte.
pub(crate) fn make_unacknowledged(alloc: Global, out: &mut TurnOut) -> Result<[u32; 5], NoMemory> {
    let mut conn = connection(alloc, Profile::Plain, TRANSFER)?;
    unacknowledged(alloc, &mut conn, out)
}

fn unacknowledged(
    alloc: Global,
    conn: &mut Conn<AnyService>,
    out: &mut TurnOut,
) -> Result<[u32; 5], NoMemory>
    requires { IsSound conn.old }
{
    start(alloc, conn, out)?;
    Ok([
        turns_unacknowledged(alloc, conn, b"\x00\x00\x07\xff", 32, out)?,
        turn(alloc, conn, b"\x00\x00\x00\x1f", 0, out)?,
        turn(alloc, conn, b"\x00\x00\x00\x01", 0, out)?,
        turn(alloc, conn, b"\x00\x00\x00\x01", 0, out)?,
        turn(alloc, conn, b"", 1, out)?,
    ])
}

/// The client acknowledges everything: how many reads there are when 15,728,640 bytes are made, one more, and a request more has come.
pub(crate) fn make_all(alloc: Global, out: &mut TurnOut) -> Result<[u32; 3], NoMemory> {
    let mut conn = connection(alloc, Profile::Plain, TRANSFER)?;
    acknowledged(alloc, &mut conn, out)
}

fn acknowledged(
    alloc: Global,
    conn: &mut Conn<AnyService>,
    out: &mut TurnOut,
) -> Result<[u32; 3], NoMemory>
    requires { IsSound conn.old }
{
    let many = requests(2_047);
    start(alloc, conn, out)?;
    turns_acknowledged(alloc, conn, &many[..], SEGMENTS, out)?;
    turns_acknowledged(alloc, conn, b"\x00\x00\x07\xff", 18, out)?;
    Ok([
        turn_acknowledged(alloc, conn, b"\x00\x00\x06\x03", out)?,
        turn_acknowledged(alloc, conn, b"\x00\x00\x00\x01", out)?,
        turn_acknowledged(alloc, conn, b"\x00\x00\x00\x01", out)?,
    ])
}
