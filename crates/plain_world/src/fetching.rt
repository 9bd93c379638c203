//! A server that fetches the log: one request after another, until nothing is missing.

ghost use Rattle.std.specs.Prelude.{◌≡◌, [], IfOk, OnOk};
ghost use Rattle.seq_arith.specs.Value.{said};
ghost use Rattle.segment_codec.specs.Value.{segment_of};
ghost use Rattle.server_trait.specs.Service.{machine};
ghost use Rattle.seq_arith.specs.declared.kinds.Grammar.TheVariants.{Wide};
ghost use Rattle.logger_wire.specs.Value.{message_of, IsSendableBy};
ghost use Rattle.ft_model.specs.Lawful.{Fetches, StageTurn, asked, held};
ghost use Rattle.ft_model.specs.Node as law;
ghost use Rattle.ft_model.specs.Restart.{holding_segment, wanted as wanted_lem};
ghost use Rattle.logger_wire.specs.Records.{head_said};
ghost use Rattle.plain_packets.specs.Sent.{Appends};
ghost use Rattle.plain_world.specs.Restored.{stage_then, IsServedThen};
ghost use Rattle.plain_world.specs.Served.{IsFetchedOf};
ghost use Rattle.plain_world.specs.NodeTurns.{SendsBy};
ghost use Rattle.plain_world.specs.Values.{input_in, IsReadInput, node_of};

use crate::asking::ask;
use crate::incarnation::Incarnation;
use crate::input::Input;
use crate::place::is_for;
use crate::refusal::send_bare;
use crate::restoring::restore_all;
use crate::serving::Serving;
use ft_io::{Addr, NoMemory};
use logger_wire::{EntryHead, Msg};
use plain_log::PlainFetching;
use plain_packets::{PlainPackets, has_rst, number_of};
use segment_codec::{Head, PacketRef};
use seq_arith::{ACK, Seq};
use server_trait::Service;
use std::alloc::Global;

/// Returns the answer to a client whose entry has arrived: it acknowledges the logged length and FIN, with window 0.
fn holding_head(server: Addr, head: &EntryHead) -> Head
    ensures { record { head = said result; payload = [] } ≡ holding_segment server (head_said head.now) }
{
    let logged = u64::from(head.length) + u64::from(head.fin);
    Head {
        src: server.ip,
        dst: head.key.ip,
        sport: server.port,
        dport: head.key.port,
        seq: Seq(number_of(head.sisn, u64::from(head.acked))),
        ack: Seq(number_of(head.cisn, logged)),
        flags: ACK,
        window: 0,
        mss: None,
        timestamps: None,
    }
}

/// Answers a client while the server fetches. It sends nothing before the client's entry has arrived, nothing if that is done, and nothing in answer to a
/// RST. After `NoMemory` the packets may only be dropped.
fn hold(
    alloc: Global,
    who: Incarnation,
    fetched: &PlainFetching,
    segment: &PacketRef<'_>,
    sent: &mut PlainPackets,
) -> Result<(), NoMemory>
    ensures { OnOk result ((stage : law.Stage) → Appends sent.old sent.new (held (node_of who stage) fetched.now (segment_of segment.now))) }
{
    if !is_for(who.server, segment) || has_rst(segment) {
        return Ok(());
    }
    match fetched.live_entry(segment.head.sender()) {
        Some(entry) => send_bare(alloc, holding_head(who.server, &entry.head()), sent),
        None => Ok(()),
    }
}

/// Requests what is wanted, if anything is. After `NoMemory` the packets may only be dropped.
fn ask_again(
    alloc: Global,
    who: Incarnation,
    count: u16,
    fetched: &PlainFetching,
    sent: &mut PlainPackets,
) -> Result<(), NoMemory>
    ensures { OnOk result ((stage : law.Stage) → Appends sent.old sent.new (asked (node_of who stage) (wanted_lem count fetched.now))) }
{
    match fetched.wanted(count) {
        Some(wanted) => ask(alloc, who.boot, wanted, sent),
        None => Ok(()),
    }
}

/// Requests what is wanted now. If nothing is, the restart has ended, and all entries become places. After `NoMemory` the entries and the packets may only
/// be dropped.
pub(crate) fn proceed<S: Service>(
    alloc: Global,
    who: Incarnation,
    count: u16,
    fetched: &mut PlainFetching,
    sent: &mut PlainPackets,
) -> Result<Option<Serving<S>>, NoMemory>
    requires { IsFetchedOf count fetched.old }
    ensures turn { IfOk result (λ serving. (stage : law.Stage)
        → SendsBy (Fetches (machine (S.started who.kind) S.after S.greeting) (node_of who stage) count fetched.old
        (stage_then serving count fetched.new)) sent.old sent.new) }
    ensures served { IfOk result (λ serving. IsServedThen who.kind (machine (S.started who.kind) S.after S.greeting) serving count fetched.new) }
{
    if let Some(wanted) = fetched.wanted(count) {
        ask(alloc, who.boot, wanted, sent)?;
        return Ok(None);
    }
    let serving = restore_all(alloc, who, fetched, sent)?;
    Ok(Some(serving))
}

/// Takes a message. Returns the places if the restart has ended. After `NoMemory` the entries and the packets may only be dropped.
fn take_answer<S: Service>(
    alloc: Global,
    who: Incarnation,
    count: u16,
    fetched: &mut PlainFetching,
    msg: &Msg<'_>,
    sent: &mut PlainPackets,
) -> Result<Option<Serving<S>>, NoMemory>
    requires fetched { IsFetchedOf count fetched.old }
    requires read { IsSendableBy Wide msg.now }
    ensures turn { IfOk result (λ serving. (stage : law.Stage) → SendsBy (StageTurn (machine (S.started who.kind) S.after S.greeting) (node_of who stage)
        (law.Stage.Fetching count fetched.old) (law.Input.Message_comes (message_of msg.now)) (stage_then serving count fetched.new)) sent.old sent.new) }
    ensures served { IfOk result (λ serving. IsServedThen who.kind (machine (S.started who.kind) S.after S.greeting) serving count fetched.new) }
{
    if msg.boot != who.boot {
        return Ok(None);
    }
    if !fetched.take(alloc, count, &msg.body)? {
        return Ok(None);
    }
    proceed(alloc, who, count, fetched, sent)
}

/// Takes the turn of a server that fetches. Returns the places if the restart has ended. After `NoMemory` the entries and the packets may only be dropped.
pub(crate) fn turn_fetching<S: Service>(
    alloc: Global,
    who: Incarnation,
    count: u16,
    fetched: &mut PlainFetching,
    input: &Input<'_>,
    sent: &mut PlainPackets,
) -> Result<Option<Serving<S>>, NoMemory>
    requires fetched { IsFetchedOf count fetched.old }
    requires read { IsReadInput input.now }
    ensures turn { IfOk result (λ serving. (stage : law.Stage) → SendsBy (StageTurn (machine (S.started who.kind) S.after S.greeting) (node_of who stage)
        (law.Stage.Fetching count fetched.old) (input_in input.now) (stage_then serving count fetched.new)) sent.old sent.new) }
    ensures served { IfOk result (λ serving. IsServedThen who.kind (machine (S.started who.kind) S.after S.greeting) serving count fetched.new) }
{
    match input {
        Input::Packet(segment) => {
            hold(alloc, who, fetched, segment, sent)?;
            Ok(None)
        }
        Input::Message(msg) => take_answer(alloc, who, count, fetched, msg, sent),
        Input::Noise => Ok(None),
        Input::Tick => {
            ask_again(alloc, who, count, fetched, sent)?;
            Ok(None)
        }
    }
}
