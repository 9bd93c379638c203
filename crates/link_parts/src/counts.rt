//! Counts of the calls in a role's turns, and the line that reports them.

ghost use Rattle.std.specs.Prelude.{ℕ, List, ◌≡◌, ◌++◌, ◌<◌, ◌^◌, [], IfOk, IfErr, OnOk, IsErrOf, decimal};
ghost use Rattle.std.specs.Io.KnownBytes.{Appends};
ghost use Rattle.ft_io.specs.Faults.{Rose};
ghost use Rattle.ft_io.specs.declared.Addr.{Addr};
ghost use Rattle.ft_io.specs.Link.{recv_reported, send_reported};
ghost use Rattle.link_parts.specs.Counts.{no_calls, with_calls, HasRoom, count_line};
ghost use Rattle.link_parts.specs.Ends.{UnlessFault};
ghost use Rattle.link_parts.specs.LineOutput.{ReportStops};

use crate::status::NodeEnd;
use ft_io::{Failed, NoMemory, Receipt, Sink, write_all};
use itoa::Buffer;
use std::alloc::Global;

/// How many calls there were on a link, by their results.
#[derive(Clone, Copy, PartialEq, Eq)]
pub struct Counts {
    /// The receives: one in each turn.
    pub turns: u128,
    /// The receives that gave a datagram.
    pub datagrams: u128,
    /// The sends that succeeded.
    pub sent: u128,
    /// The sends that failed.
    pub lost: u128,
    /// The receives that failed.
    pub failed: u128,
}

impl Counts {
    /// Returns the counts of no calls.
    pub fn new() -> Counts
        ensures { result ≡ no_calls }
    {
        Counts {
            turns: 0,
            datagrams: 0,
            sent: 0,
            lost: 0,
            failed: 0,
        }
    }

    /// Counts a receive.
    pub fn note_received(&mut self, receipt: &Result<Receipt, Failed>)
        requires { HasRoom 1 self.old }
        ensures { (buffer : List ℕ) → self.new ≡ with_calls self.old (recv_reported receipt.now buffer) }
    {
        self.turns += 1;
        match receipt {
            Ok(Receipt::Got { .. }) => self.datagrams += 1,
            Ok(Receipt::Nothing) => (),
            Err(Failed) => self.failed += 1,
        }
    }

    /// Counts a send.
    pub fn note_sent(&mut self, sent: &Result<(), Failed>)
        requires { HasRoom 1 self.old }
        ensures { (to : Addr) (bytes : List ℕ) → self.new ≡ with_calls self.old (send_reported to bytes sent.now) }
    {
        match sent {
            Ok(()) => self.sent += 1,
            Err(Failed) => self.lost += 1,
        }
    }
}

/// Appends a name and a number.
fn put_count(name: &[u8], n: u128, line: &mut Vec<u8>) -> Result<(), NoMemory>
    ensures { OnOk result (line.new.items ≡ line.old.items ++ (name.now ++ decimal n)) }
{
    let mut buffer = Buffer::new();
    line.extend_from_slice(name)?;
    line.extend_from_slice(buffer.format(n).as_bytes())?;
    Ok(())
}

/// The line of these counts.
#[tactic(auto, using(std::proofs::Common::append_assoc))]
fn line_of(alloc: Global, counts: &Counts) -> Result<Vec<u8>, NoMemory>
    ensures { IfOk result (λ line. line.items ≡ count_line counts.now) }
{
    let mut line = Vec::new(alloc);
    put_count(b"turns ", counts.turns, &mut line)?;
    put_count(b" datagrams ", counts.datagrams, &mut line)?;
    put_count(b" sent ", counts.sent, &mut line)?;
    put_count(b" lost ", counts.lost, &mut line)?;
    put_count(b" failed ", counts.failed, &mut line)?;
    line.push(b'\n')?;
    Ok(line)
}

/// Writes the line of the counts.
pub fn write_counts<O: Sink>(alloc: Global, counts: &Counts, out: &mut O) -> Result<(), NodeEnd>
    ensures written { OnOk result (Appends (O.taken out.old) (O.taken out.new) (count_line counts.now)) }
    ensures stops { IfErr result (ReportStops (count_line counts.now) (O.taken out.old) (O.taken out.new)) }
    ensures cause { IsErrOf result NodeEnd.WriteFault → Rose (O.fault_count out.old) (O.fault_count out.new) }
    ensures no_fault { UnlessFault result (O.fault_count out.new ≡ O.fault_count out.old) }
{
    match line_of(alloc, counts) {
        Err(NoMemory) => Err(NodeEnd::NoMemory),
        Ok(line) => match write_all(out, &line) {
            Err(Failed) => Err(NodeEnd::WriteFault),
            Ok(()) => Ok(()),
        },
    }
}
