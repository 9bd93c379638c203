//! The last lines of a report: the state of the clients and of the log, and the number of events.

ghost use Rattle.std.specs.Prelude.{◌≡◌, ◌++◌, ◌∷◌, [], codes, decimal, OnOk, OnErr};
ghost use Rattle.ft_model.specs.Texts.{line as line_of, spaced, key_text, bit_text, list_text, phase_text};
ghost use Rattle.ft_model.specs.Report.{phase_line, entry_line, end_line};

use crate::line_out::LineOut;
use crate::line_text::{put_address, put_bit, put_field, put_hex, put_list, put_number, put_word};
use ft_io::{Key, NoMemory};
use ft_model::Phase;
use std::alloc::Global;

/// What a report says of a connection in the log.
#[derive(Clone, Copy)]
pub struct LogLine<'a> {
    /// The client's address and port.
    pub key: Key,
    /// How many of the client's bytes are logged.
    pub length: u32,
    /// Whether the client's FIN is logged.
    pub fin: bool,
    /// The units of output that the log has as acknowledged: bytes, and one more for the server's FIN.
    pub acked: u32,
    /// Whether the log has a Done of the connection.
    pub done: bool,
    /// The lengths of the server's reads, in order.
    pub reads: &'a [u16],
}

/// Writes the state of client `n`: its phase, and what it has accepted from the server. After `NoMemory` `out` is unchanged.
pub fn write_client_line(
    alloc: Global,
    n: u32,
    phase: Phase,
    accepted: &[u8],
    out: &mut Vec<u8>,
) -> Result<(), NoMemory>
    ensures ok { OnOk result (out.new.items ≡ out.old.items ++ phase_line n phase accepted.now) }
    ensures err { OnErr result (out.new.items ≡ out.old.items) }
{
    let mut line = LineOut::open(alloc, out);
    let written = put_client(n, phase, accepted, &mut line);
    line.close(out, written)
}

#[tactic(auto, using(crate::proofs::LineLemmas::line_rules), unfolding(ft_model::specs::Report::phase_line))]
fn put_client(n: u32, phase: Phase, accepted: &[u8], line: &mut LineOut) -> Result<(), NoMemory>
    ensures ok { OnOk result (line.new.words ≡ line.old.words ++ phase_line n phase accepted.now) }
    ensures before { line.new.before ≡ line.old.before }
{
    line.append_text("client")?;
    put_number(u64::from(n), line)?;
    put_word(phase_word(phase), line)?;
    put_field(" accepted ", accepted.len() as u64, line)?;
    put_hex(accepted, line)?;
    line.push(b'\n')
}

/// Returns the word for a phase.
#[tactic(auto, unfolding(ft_model::specs::Texts::phase_text))]
pub fn phase_word(phase: Phase) -> &'static str
    ensures { result.now ≡ phase_text phase }
{
    match phase {
        Phase::New => "new",
        Phase::Opening => "opening",
        Phase::Established => "open",
        Phase::Ended => "ended",
        Phase::Reset => "reset",
    }
}

/// Writes the state of a connection in the log. After `NoMemory` `out` is unchanged.
pub fn write_log_line(alloc: Global, entry: &LogLine<'_>, out: &mut Vec<u8>) -> Result<(), NoMemory>
    ensures ok { OnOk result (out.new.items
        ≡ out.old.items ++ entry_line entry.now.key entry.now.length entry.now.fin entry.now.acked entry.now.done entry.now.reads.now) }
    ensures err { OnErr result (out.new.items ≡ out.old.items) }
{
    let mut line = LineOut::open(alloc, out);
    let written = put_log(entry, &mut line);
    line.close(out, written)
}

#[tactic(auto, using(crate::proofs::LineLemmas::line_rules), unfolding(ft_model::specs::Report::entry_line))]
fn put_log(entry: &LogLine<'_>, line: &mut LineOut) -> Result<(), NoMemory>
    ensures ok { OnOk result (line.new.words
        ≡ line.old.words ++ entry_line entry.now.key entry.now.length entry.now.fin entry.now.acked entry.now.done entry.now.reads.now) }
    ensures before { line.new.before ≡ line.old.before }
{
    line.append_text("log")?;
    put_address(entry.key.ip, entry.key.port, line)?;
    put_counts(entry, line)?;
    put_standing(entry, line)?;
    line.push(b'\n')
}

/// Writes the state of a recycled entry. After `NoMemory` `out` is unchanged.
pub fn write_gone_line(
    alloc: Global,
    entry: &LogLine<'_>,
    out: &mut Vec<u8>,
) -> Result<(), NoMemory>
    ensures ok { OnOk result (out.new.items ≡ out.old.items
        ++ line_of (codes "gone") (key_text entry.now.key ∷ codes "length" ∷ decimal entry.now.length ∷ codes "fin" ∷ bit_text entry.now.fin
        ∷ codes "acked" ∷ decimal entry.now.acked ∷ codes "done" ∷ bit_text entry.now.done ∷ codes "reads" ∷ list_text entry.now.reads.now ∷ [])) }
    ensures err { OnErr result (out.new.items ≡ out.old.items) }
{
    let mut line = LineOut::open(alloc, out);
    let written = put_gone(entry, &mut line);
    line.close(out, written)
}

#[tactic(auto, using(crate::proofs::LineLemmas::line_rules))]
fn put_gone(entry: &LogLine<'_>, line: &mut LineOut) -> Result<(), NoMemory>
    ensures ok { OnOk result (line.new.words ≡ line.old.words
        ++ line_of (codes "gone") (key_text entry.now.key ∷ codes "length" ∷ decimal entry.now.length ∷ codes "fin" ∷ bit_text entry.now.fin
        ∷ codes "acked" ∷ decimal entry.now.acked ∷ codes "done" ∷ bit_text entry.now.done ∷ codes "reads" ∷ list_text entry.now.reads.now ∷ [])) }
    ensures before { line.new.before ≡ line.old.before }
{
    line.append_text("gone")?;
    put_address(entry.key.ip, entry.key.port, line)?;
    put_counts(entry, line)?;
    put_standing(entry, line)?;
    line.push(b'\n')
}

/// Appends whether a connection is done, and the lengths of its reads.
#[tactic(auto, using(crate::proofs::LineLemmas::line_rules))]
fn put_standing(entry: &LogLine<'_>, line: &mut LineOut) -> Result<(), NoMemory>
    ensures ok { OnOk result (line.new.words
        ≡ line.old.words ++ spaced (codes "done" ∷ bit_text entry.now.done ∷ codes "reads" ∷ list_text entry.now.reads.now ∷ [])) }
    ensures before { line.new.before ≡ line.old.before }
{
    put_bit(" done ", entry.done, line)?;
    line.append_text(" reads")?;
    put_list(entry.reads, line)
}

/// Appends how much of a connection is logged, and how much of its output is acknowledged.
#[tactic(auto, using(crate::proofs::LineLemmas::line_rules))]
fn put_counts(entry: &LogLine<'_>, line: &mut LineOut) -> Result<(), NoMemory>
    ensures ok { OnOk result (line.new.words
        ≡ line.old.words ++ spaced (codes "length" ∷ decimal entry.now.length ∷ codes "fin" ∷ bit_text entry.now.fin ∷ codes "acked" ∷ decimal entry.now.acked
        ∷ [])) }
    ensures before { line.new.before ≡ line.old.before }
{
    put_field(" length ", u64::from(entry.length), line)?;
    put_bit(" fin ", entry.fin, line)?;
    put_field(" acked ", u64::from(entry.acked), line)
}

/// Writes the last line, with the number of events. After `NoMemory` `out` is unchanged.
pub fn write_end(alloc: Global, n: u32, out: &mut Vec<u8>) -> Result<(), NoMemory>
    ensures ok { OnOk result (out.new.items ≡ out.old.items ++ end_line n) }
    ensures err { OnErr result (out.new.items ≡ out.old.items) }
{
    let mut line = LineOut::open(alloc, out);
    let written = put_end(n, &mut line);
    line.close(out, written)
}

#[tactic(auto, using(crate::proofs::LineLemmas::line_rules), unfolding(ft_model::specs::Report::end_line))]
fn put_end(n: u32, line: &mut LineOut) -> Result<(), NoMemory>
    ensures ok { OnOk result (line.new.words ≡ line.old.words ++ end_line n) }
    ensures before { line.new.before ≡ line.old.before }
{
    line.append_text("end")?;
    put_number(u64::from(n), line)?;
    line.push(b'\n')
}
