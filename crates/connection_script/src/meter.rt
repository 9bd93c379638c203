//! A client fills its stream: 2^24 bytes in segments of 1,460, of which each is logged as it comes.

ghost use Rattle.std.specs.Prelude.{◌≤◌, length, OnOk};
ghost use Rattle.wrapped_conn.specs.Sound.{IsSound};

use crate::peers::{Answer, Logged, connection, next_segment, receive, start};
use ft_io::NoMemory;
use sample_servers::AnyService;
use segment_codec::{Head, read_packet};
use seq_arith::ACK;
use std::alloc::Global;
use tcp_rules::Profile;
use wrapped_conn::{Conn, Inside, TurnOut};

/// How many full segments there are, and how many bytes the last one has.
const SEGMENTS: u32 = 11_491;

const LAST: usize = 356;

/// The state at the end: the numbers, and the last segments of the turn in which all is logged and of the turn of one byte more.
#[derive(Clone, Copy)]
pub(crate) struct Filled {
    pub(crate) inside: Inside,
    pub(crate) full: Option<Head>,
    pub(crate) beyond: Option<Head>,
}

/// The head of a turn's first segment.
fn first_segment(out: &TurnOut) -> Option<Head> {
    if out.segments().is_empty() {
        return None;
    }
    Some(read_packet(out.segments().packet(0)).ok()?.head)
}

/// The segment with this number, counted from 0, and what is logged then. Returns the header of the segment that acknowledges it.
fn fill(
    alloc: Global,
    conn: &mut Conn<AnyService>,
    number: u32,
    text: &[u8],
    out: &mut TurnOut,
) -> Result<Option<Head>, NoMemory>
    requires sound { IsSound conn.old }
    requires short { length text.now ≤ 1460 }
    ensures { OnOk result (IsSound conn.new) }
{
    next_segment(alloc, conn, ACK, text, out)?;
    let length = conn.inside().taken;
    let logged = Logged {
        length,
        fin: false,
        reads: number,
    };
    receive(alloc, conn, Answer::Stable, logged, out)?;
    let acknowledged = first_segment(out);
    let read = Logged {
        length,
        fin: false,
        reads: number.wrapping_add(1),
    };
    receive(alloc, conn, Answer::Reads, read, out)?;
    Ok(acknowledged)
}

/// The complete stream arrives, and one byte more.
fn fill_stream(
    alloc: Global,
    conn: &mut Conn<AnyService>,
    out: &mut TurnOut,
) -> Result<Filled, NoMemory>
    requires { IsSound conn.old }
{
    let text = [120u8; limits::TEXT];
    start(alloc, conn, out)?;
    for number in 0..SEGMENTS {
        let _acknowledged = fill(alloc, conn, number, &text[..], out)?;
    }
    let full = fill(alloc, conn, SEGMENTS, &text[..LAST], out)?;
    next_segment(alloc, conn, ACK, b"x", out)?;
    Ok(Filled {
        inside: conn.inside(),
        full,
        beyond: first_segment(out),
    })
}

/// A connection whose client fills its stream.
pub(crate) fn fill_all(alloc: Global, out: &mut TurnOut) -> Result<Filled, NoMemory> {
    let mut conn = connection(alloc, Profile::Plain, 4)?;
    fill_stream(alloc, &mut conn, out)
}
