//! What a process that ends early writes to the error sink, and its status.

ghost use Rattle.std.specs.Prelude.{◌≡◌, false, OnOk, OnErr};
ghost use Rattle.std.specs.Io.KnownBytes.{Appends};
ghost use Rattle.ft_io.specs.Faults.{Rose};
ghost use Rattle.ft_io.specs.Sink.{AppendsFront};
ghost use Rattle.link_parts.specs.Ends.{code_of, text_of, fence_text, ReportsEnd, is_fault, is_fault_status};

use crate::status::{NodeEnd, Status};
use ft_io::{Failed, Sink, write_all};
use itoa::Buffer;

/// Writes the line of a server that a newer one fenced.
fn write_fence<E: Sink>(err: &mut E, newer: u64) -> Result<(), Failed>
    ensures whole { OnOk result (Appends (E.taken err.old) (E.taken err.new) (fence_text newer)) }
    ensures front { OnErr result (AppendsFront (E.taken err.old) (E.taken err.new) (fence_text newer)) }
    ensures cause { OnErr result (Rose (E.fault_count err.old) (E.fault_count err.new)) }
    ensures no_fault { OnOk result (E.fault_count err.new ≡ E.fault_count err.old) }
{
    let mut number = Buffer::new();
    write_all(err, b"ftnode: fenced by boot ")?;
    write_all(err, number.format(newer).as_bytes())?;
    write_all(err, b"\n")
}

/// Writes the line of an end, or nothing where a write has failed.
fn write_end<E: Sink>(err: &mut E, end: NodeEnd) -> Result<(), Failed>
    ensures whole { OnOk result (Appends (E.taken err.old) (E.taken err.new) (text_of end)) }
    ensures front { OnErr result (AppendsFront (E.taken err.old) (E.taken err.new) (text_of end)) }
    ensures cause { OnErr result (Rose (E.fault_count err.old) (E.fault_count err.new)) }
    ensures no_fault { OnOk result (E.fault_count err.new ≡ E.fault_count err.old) }
{
    match end {
        NodeEnd::Usage => write_all(err, b"ftnode: usage\n"),
        NodeEnd::NoMemory => write_all(err, b"ftnode: no memory\n"),
        NodeEnd::LinkFault => write_all(err, b"ftnode: link fault\n"),
        NodeEnd::WriteFault => Ok(()),
        NodeEnd::Fenced { newer } => write_fence(err, newer),
        NodeEnd::Reset => write_all(err, b"ftnode: reset\n"),
        NodeEnd::Spent => write_all(err, b"ftnode: spent\n"),
        NodeEnd::ReadFault => write_all(err, b"ftnode: read fault\n"),
        NodeEnd::ChildFault => write_all(err, b"ftnode: child fault\n"),
    }
}

fn code(end: NodeEnd) -> u8
    ensures value { result ≡ code_of end }
    ensures early { result ≡ 0 → ⊥ }
    ensures fault { is_fault_status result ≡ is_fault end }
{
    match end {
        NodeEnd::Usage => 2,
        NodeEnd::NoMemory => 3,
        NodeEnd::LinkFault => 4,
        NodeEnd::WriteFault => 5,
        NodeEnd::Fenced { .. } => 6,
        NodeEnd::Reset => 7,
        NodeEnd::Spent => 8,
        NodeEnd::ReadFault => 9,
        NodeEnd::ChildFault => 10,
    }
}

/// Writes the line of an end and returns its status, or 5 where that write failed.
pub fn report_end<E: Sink>(err: &mut E, end: NodeEnd) -> Status
    ensures reported { ReportsEnd end (E.taken err.old) (E.taken err.new) (E.fault_count err.old) (E.fault_count err.new) result.code }
    ensures early { result.code ≡ 0 → ⊥ }
    ensures fault { is_fault_status result.code ≡ false → is_fault end ≡ false }
    ensures no_fault { is_fault_status result.code ≡ false → E.fault_count err.new ≡ E.fault_count err.old }
{
    match write_end(err, end) {
        Ok(()) => Status { code: code(end) },
        Err(Failed) => Status { code: 5 },
    }
}
