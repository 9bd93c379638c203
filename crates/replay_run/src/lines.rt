//! The lines of a report, appended to a text: those of an event and its packets, and the closing lines on the clients and the log.

ghost use Rattle.std.specs.Prelude.{◌≡◌, ◌+◌, ◌<◌, ◌≤◌, ◌^◌, Some, None, ◌++◌, length, slice_get, IfOk, OnOk};
ghost use Rattle.std.specs.List.{flat_map};
ghost use Rattle.tcp_rules.specs.Profile.{grammar_of};
ghost use Rattle.tcp_rules.specs.Profiles.{profile_of};
ghost use Rattle.ft_model.specs.Client.{Client as Seen};
ghost use Rattle.ft_model.specs.Log.{Entry};
ghost use Rattle.ft_model.specs.Report.{client_line, client_lines, log_line, end_line, event_line};
ghost use Rattle.logger_store.specs.StoreState.{lengths_of};
ghost use Rattle.net_schedule.specs.WorldView.{kept};
ghost use Rattle.replay_run.specs.TraceEnd.{IsStanding};
ghost use Rattle.replay_run.specs.PacketLines.{stored_line, stored_lines};

use ft_io::NoMemory;
use ft_model::Event;
use logger_store::LogStore;
use net_schedule::laws::{marked_worlds_keep_what_was_sent, worlds_keep_what_was_sent};
use net_schedule::{StepOut, World};
use peer_client::Client;
use sample_servers::AnyService;
use schedule_text::{
    LogLine, write_client_line, write_end, write_event, write_log_line, write_packet_line_by,
};
use std::alloc::Global;

/// The largest number of clients in a schedule.
const CLIENT_LIMIT: u8 = 16;

/// Appends the line of packet `n`.
fn write_packet(
    alloc: Global,
    world: &World<AnyService>,
    n: u32,
    lines: &mut Vec<u8>,
) -> Result<(), NoMemory>
    requires { IsStanding (kept world.now) }
    ensures { OnOk result (lines.new.items ≡ lines.old.items ++ stored_line (grammar_of (profile_of world.now.profile)) world.now.packets n) }
{
    // Theorems for the proof. They do nothing when they are called.
    worlds_keep_what_was_sent::<AnyService>();
    marked_worlds_keep_what_was_sent::<AnyService>();
    let Some(way) = world.way(n) else {
        return Ok(());
    };
    let Some(bytes) = world.packet(n) else {
        return Ok(());
    };
    write_packet_line_by(alloc, world.grammar(), n, way, bytes, lines)
}

/// Appends the lines of `count` packets, starting with number `first`.
fn write_packets(
    alloc: Global,
    world: &World<AnyService>,
    first: u32,
    count: u32,
    lines: &mut Vec<u8>,
) -> Result<(), NoMemory>
    requires stands { IsStanding (kept world.now) }
    requires numbers { first + count < 2 ^ 32 }
    ensures { OnOk result (lines.new.items ≡ lines.old.items ++ stored_lines (grammar_of (profile_of world.now.profile)) world.now.packets first count) }
{
    for k in 0..count {
        write_packet(alloc, world, first + k, lines)?;
    }
    Ok(())
}

/// Appends the lines of event number `n`, which was just played: its own, and those of the packets that it sent.
pub(crate) fn write_played(
    alloc: Global,
    n: u32,
    event: &Event,
    world: &World<AnyService>,
    answer: StepOut,
    lines: &mut Vec<u8>,
) -> Result<(), NoMemory>
    requires stands { IsStanding (kept world.now) }
    requires numbers { answer.first + answer.count < 2 ^ 32 }
    ensures { OnOk result (lines.new.items
        ≡ lines.old.items ++ (event_line n event.now
        ++ stored_lines (grammar_of (profile_of world.now.profile)) world.now.packets answer.first answer.count)) }
{
    write_event(alloc, n, event, lines)?;
    write_packets(alloc, world, answer.first, answer.count, lines)
}

/// Appends the line of client `n`.
fn write_client(alloc: Global, n: u32, client: &Client, lines: &mut Vec<u8>) -> Result<(), NoMemory>
    ensures { OnOk result (lines.new.items ≡ lines.old.items ++ client_line n client.now) }
{
    write_client_line(alloc, n, client.phase(), client.accepted(), lines)
}

/// Appends the line of the client at index `i`, if there is one.
fn write_client_at(
    alloc: Global,
    world: &World<AnyService>,
    i: u8,
    lines: &mut Vec<u8>,
) -> Result<(), NoMemory>
    requires { i < 16 }
    ensures one { OnOk result ((c : Seen) → slice_get world.now.clients.items i ≡ Some c → lines.new.items ≡ lines.old.items ++ client_line (i + 1) c) }
    ensures none { OnOk result (slice_get world.now.clients.items i ≡ None → lines.new.items ≡ lines.old.items) }
{
    match world.client(i + 1) {
        Some(client) => write_client(alloc, u32::from(i) + 1, client, lines),
        None => Ok(()),
    }
}

/// Appends the lines of the clients, numbered from 1.
fn write_clients(
    alloc: Global,
    world: &World<AnyService>,
    lines: &mut Vec<u8>,
) -> Result<(), NoMemory>
    requires { length world.now.clients.items ≤ 16 }
    ensures { OnOk result (lines.new.items ≡ lines.old.items ++ client_lines 1 world.now.clients.items) }
{
    for i in 0..CLIENT_LIMIT {
        write_client_at(alloc, world, i, lines)?;
    }
    Ok(())
}

/// Returns the lengths, in order, of the `count` reads of the log's entry at index `i`.
fn read_lengths(alloc: Global, log: &LogStore, i: u16, count: u32) -> Result<Vec<u16>, NoMemory>
    requires { count ≡ length (lengths_of (slice_get log.now.entries i)) }
    ensures { IfOk result (λ lengths. lengths.items ≡ lengths_of (slice_get log.now.entries i)) }
{
    let mut lengths = Vec::new(alloc);
    for at in 0..count {
        lengths.push(log.length(i, at))?;
    }
    Ok(lengths)
}

/// Appends the line of the log's entry at index `i`.
fn write_entry(alloc: Global, log: &LogStore, i: u16, lines: &mut Vec<u8>) -> Result<(), NoMemory>
    ensures { OnOk result ((e : Entry) → slice_get log.now.entries i ≡ Some e → lines.new.items ≡ lines.old.items ++ log_line e) }
{
    let Some(head) = log.entry(i) else {
        return Ok(());
    };
    let reads = read_lengths(alloc, log, i, head.reads)?;
    let line = LogLine {
        key: head.key,
        length: head.length,
        fin: head.fin,
        acked: head.acked,
        done: head.done,
        reads: reads.as_slice(),
    };
    write_log_line(alloc, &line, lines)
}

/// Appends the lines of the log's entries, in order.
fn write_entries(alloc: Global, log: &LogStore, lines: &mut Vec<u8>) -> Result<(), NoMemory>
    ensures { OnOk result (lines.new.items ≡ lines.old.items ++ flat_map log_line log.now.entries) }
{
    for i in 0..log.count() {
        write_entry(alloc, log, i, lines)?;
    }
    Ok(())
}

/// Appends the closing lines of a report: the state of the clients and the log after `n` events, and the last line.
pub(crate) fn write_closing(
    alloc: Global,
    world: &World<AnyService>,
    n: u32,
    lines: &mut Vec<u8>,
) -> Result<(), NoMemory>
    requires { length world.now.clients.items ≤ 16 }
    ensures { OnOk result (lines.new.items ≡ lines.old.items ++ (client_lines 1 world.now.clients.items ++ (flat_map log_line (kept world.now).log.entries
        ++ end_line n))) }
{
    write_clients(alloc, world, lines)?;
    write_entries(alloc, world.log(), lines)?;
    write_end(alloc, n, lines)
}
