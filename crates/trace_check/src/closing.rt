//! The lines that close a report.

ghost use Rattle.std.specs.Prelude.{◌≡◌, ◌<◌, ◌≤◌, ◌^◌, ◌++◌, drop, length, IfErr, IfOk, OnOk};
ghost use Rattle.std.specs.List.{flat_map};
ghost use Rattle.std.specs.Str.{bytes_eq};
ghost use Rattle.ft_model.specs.Legal.{machines};
ghost use Rattle.ft_model.specs.Report.{client_line, client_lines, end_line, log_line};
ghost use Rattle.report_laws.specs.Lines.{lines_in};
ghost use Rattle.report_laws.specs.Transitions.Position.{InClosing};
ghost use Rattle.trace_check.specs.Leads.{IsRejection, Leads};

use crate::end::CheckEnd;
use crate::lines::{between, line_end, line_length};
use ft_io::NoMemory;
use plain_log::PlainEntry;
use plain_world::{PlainClient, PlainWorld};
use report_laws::Law;
use schedule_text::{LogLine, write_client_line, write_end, write_log_line};
use server_trait::Service;
use std::alloc::Global;

/// Writes the line of client `n`.
fn write_client(
    alloc: Global,
    n: u32,
    client: &PlainClient,
    lines: &mut Vec<u8>,
) -> Result<(), NoMemory>
    ensures { OnOk result (lines.new.items ≡ lines.old.items ++ client_line n client.now) }
{
    write_client_line(alloc, n, client.phase(), client.accepted(), lines)
}

/// Writes the lines of clients, numbered from 1.
fn write_clients(
    alloc: Global,
    clients: &[PlainClient],
    lines: &mut Vec<u8>,
) -> Result<(), NoMemory>
    requires { length clients.now ≤ 16 }
    ensures { OnOk result (lines.new.items ≡ lines.old.items ++ client_lines 1 clients.now) }
{
    for i in 0..clients.len() {
        write_client(alloc, i as u32 + 1, &clients[i], lines)?;
    }
    Ok(())
}

/// Writes the line of a connection in the log.
fn write_entry(alloc: Global, entry: &PlainEntry, lines: &mut Vec<u8>) -> Result<(), NoMemory>
    ensures { OnOk result (lines.new.items ≡ lines.old.items ++ log_line entry.now) }
{
    let line = LogLine {
        key: entry.key(),
        length: entry.length(),
        fin: entry.fin(),
        acked: entry.acked(),
        done: entry.is_done(),
        reads: entry.lengths(),
    };
    write_log_line(alloc, &line, lines)
}

/// Writes the lines of the log, in order.
fn write_entries(alloc: Global, entries: &[PlainEntry], lines: &mut Vec<u8>) -> Result<(), NoMemory>
    ensures { OnOk result (lines.new.items ≡ lines.old.items ++ flat_map log_line entries.now) }
{
    for i in 0..entries.len() {
        write_entry(alloc, &entries[i], lines)?;
    }
    Ok(())
}

/// Writes the lines that close the report of the events that a world has played.
pub(crate) fn write_closing<S: Service>(
    alloc: Global,
    world: &PlainWorld<S>,
    lines: &mut Vec<u8>,
) -> Result<(), NoMemory>
    requires { length world.now.clients ≤ 16 }
    ensures { OnOk result (lines.new.items
        ≡ lines.old.items ++ (client_lines 1 world.now.clients ++ (flat_map log_line world.now.log.entries ++ end_line world.now.turns))) }
{
    write_clients(alloc, world.clients(), lines)?;
    write_entries(alloc, world.log().entries(), lines)?;
    write_end(alloc, world.turns(), lines)
}

pub(crate) fn is_same(line: &[u8], due: &[u8]) -> bool
    ensures { result ≡ bytes_eq line.now due.now }
{
    line == due
}

/// Compares the text after its first `at` bytes, which are `lines` lines, with the closing lines that are due there. The text is rejected at the first line
/// that differs.
#[tactic(auto, using(crate::proofs::Cited::check_closing_lemmas))]
pub fn check_closing<S: Service>(
    text: &[u8],
    at: usize,
    lines: u32,
    due: &[u8],
) -> Result<(), CheckEnd>
    requires within { (at ≤ length text.now) × (length text.now ≤ 2 ^ 28) × (lines ≤ at) }
    requires leads { Leads (machines S.started S.after S.greeting) text.now (InClosing (lines_in due.now)) (drop at text.now) lines }
    ensures same { IfOk result (λ _. drop at text.now ≡ due.now) }
    ensures rejected { IfErr result (IsRejection (machines S.started S.after S.greeting) text.now) }
{
    let mut at = at;
    let mut lines = lines;
    let mut left = due;
    while at < text.len() {
        let end = line_end(text, at);
        if left.is_empty() {
            return Err(CheckEnd::Reject {
                line: lines + 1,
                law: Law::End,
            });
        }
        let len = line_length(left);
        if !is_same(between(text, at, end), &left[..len]) {
            return Err(CheckEnd::Reject {
                line: lines + 1,
                law: Law::End,
            });
        }
        at = end;
        left = &left[len..];
        lines += 1;
    }
    if left.is_empty() {
        Ok(())
    } else {
        Err(CheckEnd::Reject {
            line: lines + 1,
            law: Law::End,
        })
    }
}
