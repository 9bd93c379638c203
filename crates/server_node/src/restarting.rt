//! The stage of a node that fetches the log: one question after another, until nothing is missing.

ghost use Rattle.std.specs.Prelude.{◌≡◌, ◌≤◌, ◌&&◌, not, ℕ, List, [], is_some, option_map, MatchOption, Some, true, false, IfOk, IfSome, OnOk};
ghost use Rattle.server_trait.specs.Service.{machine};
ghost use Rattle.seq_arith.specs.declared.kinds.Grammar.{Grammar};
ghost use Rattle.seq_arith.specs.Packet.{has_rst};
ghost use Rattle.seq_arith.specs.Value.{said};
ghost use Rattle.segment_codec.specs.Value.{segment_of};
ghost use Rattle.logger_wire.specs.Value.{message_of, IsSendableBy};
ghost use Rattle.logger_wire.specs.Records.{head_said};
ghost use Rattle.reincarnate.specs.Questions.{asked as asked_of, after_answer};
ghost use Rattle.reincarnate.specs.Marking.{any_of, IsAnySendable, IsRead};
ghost use Rattle.reincarnate.specs.Refinement.{StandsFetching, AnswerLeads, fetched_then};
ghost use Rattle.ft_model.specs.Restart.{Fetched, wanted, question, live_entry, holding_segment};
ghost use Rattle.ft_model.specs.Network.{source_of};
ghost use Rattle.ft_model.specs.Node.{is_for};
ghost use Rattle.node_serving.specs.Identity.{service_of, grammar_in};
ghost use Rattle.server_node.specs.FetchStage.{FetchingStands, IsOwn, UsesNone, of_log};
ghost use Rattle.server_node.specs.RestartTurns.{FetchingBegins, FetchingBeginsAlone, FetchingTurns, FetchingTurnsAlone, AnswerTurns};
ghost use Rattle.server_node.specs.RestartTurns.{AnswerTurnsAlone, SendsWanted, SendsHeld};
ghost use Rattle.server_node.specs.Stages.{IsSoundStage};
ghost use Rattle.node_serving.specs.Turns.{SendsFor};

use crate::reviving::restore_all;
use crate::stage::Stage;
use ft_io::{Key, NoMemory};
use logger_wire::{EntryHead, Msg};
use node_serving::{Identity, Turn, send_bare, send_message};
use reincarnate::{AnyMsg, Asked, Fetching};
use segment_codec::{Head, PacketRef};
use seq_arith::{ACK, RST, Seq, has};
use server_trait::{Saved, Service};
use std::alloc::Global;

/// Begins to fetch a log of `count` entries: asks for the first. If there is none, the node serves at once.
pub(crate) fn begin_fetching<S: Saved>(
    who: Identity,
    count: u16,
    turn: &mut Turn,
) -> Result<Stage<S>, NoMemory>
    requires boot { 1 ≤ who.boot }
    requires few { count ≤ 64 }
    ensures turn { IfOk result (λ after. FetchingBegins S.Service who count after turn.old turn.new) }
    ensures alone { IfOk result (λ after. FetchingBeginsAlone S.Service who count after turn.old turn.new) }
    ensures sound { IfOk result (λ after. IsSoundStage who after) }
{
    let Ok(fetching) = Asked::new(who.boot).on_summary(turn.alloc, who.kind, count, false) else {
        return Err(NoMemory);
    };
    proceed(who, fetching, turn)
}

/// Handles a message that may be an answer. If it fits the question, takes it and asks for what is missing then.
pub(crate) fn take_answer<S: Saved>(
    who: Identity,
    mut fetching: Fetching<S>,
    m: &Msg<'_>,
    turn: &mut Turn,
) -> Result<Stage<S>, NoMemory>
    requires boot { 1 ≤ who.boot }
    requires sendable { IsSendableBy (grammar_in who) m.now }
    requires own { IsOwn who fetching }
    ensures turn { IfOk result (λ after. AnswerTurns S.Service who (message_of m.now) fetching after turn.old turn.new) }
    ensures alone { IfOk result (λ after. AnswerTurnsAlone S.Service who (message_of m.now) fetching after turn.old turn.new) }
    ensures sound { IfOk result (λ after. IsSoundStage who after) }
{
    if !receive_answer(turn.alloc, &mut fetching, m)? {
        return Ok(Stage::Fetching(fetching));
    }
    proceed(who, fetching, turn)
}

/// Takes a message in a restart without marks, and returns whether it answers the question. A message that doesn't changes nothing.
fn receive_answer<S: Saved>(
    alloc: Global,
    fetching: &mut Fetching<S>,
    m: &Msg<'_>,
) -> Result<bool, NoMemory>
    requires sendable { IsRead m.now }
    requires unmarked { UsesNone fetching.old.marks }
    ensures value { IfOk result (λ fits. MatchOption (after_answer S.started S.after S.greeting (message_of m.now) fetching.old)
        ((fits ≡ false) × (fetching.new ≡ fetching.old)) (λ s. (fits ≡ true) × (fetching.new ≡ s))) }
    ensures law { IfOk result (λ fits. (fetched : List Fetched) → StandsFetching (machine (S.started fetching.old.kind) S.after S.greeting) fetched fetching.old
        → AnswerLeads (machine (S.started fetching.old.kind) S.after S.greeting)
        (fetched_then fetching.old.boot fetching.old.count (message_of m.now) fetched) fits fetching.old fetching.new) }
{
    fetching.on_answer(alloc, &AnyMsg::Log(*m))
}

/// The question that the restart asks now, if anything is missing. It isn't about marks.
fn question_of<S: Service>(fetching: &Fetching<S>) -> Option<Msg<'_>>
    requires { UsesNone fetching.now.marks }
    ensures value { option_map message_of result ≡ option_map (λ body. record { boot = fetching.now.boot; body = body }) (asked_of fetching.now) }
    ensures law { (fetched : List Fetched) → StandsFetching (machine (S.started fetching.now.kind) S.after S.greeting) fetched fetching.now
        → option_map message_of result
        ≡ option_map (λ body. record { boot = fetching.now.boot; body = body }) (option_map question (wanted fetching.now.count fetched)) }
    ensures sendable { IfSome result (λ m. (grammar : Grammar) → IsSendableBy grammar m) }
{
    match fetching.question() {
        Some(question) => log_message(question),
        None => None,
    }
}

/// The message, if it isn't about marks.
fn log_message(m: AnyMsg<'_>) -> Option<Msg<'_>>
    ensures value { option_map message_of result ≡ of_log (Some (any_of m.entry)) }
    ensures sendable { IsAnySendable m.entry → IfSome result (λ m. (grammar : Grammar) → IsSendableBy grammar m) }
{
    match m {
        AnyMsg::Log(m) => Some(m),
        AnyMsg::Mark(_) => None,
    }
}

/// Asks for what is missing. Once nothing is, restores the whole log.
fn proceed<S: Service>(
    who: Identity,
    fetching: Fetching<S>,
    turn: &mut Turn,
) -> Result<Stage<S>, NoMemory>
    requires boot { 1 ≤ who.boot }
    requires own { IsOwn who fetching }
    ensures turn { IfOk result (λ after. FetchingTurns S.Service who fetching after turn.old turn.new) }
    ensures alone { IfOk result (λ after. FetchingTurnsAlone S.Service who fetching after turn.old turn.new) }
    ensures sound { IfOk result (λ after. IsSoundStage who after) }
{
    if ask(who, &fetching, turn)? {
        return Ok(Stage::Fetching(fetching));
    }
    let serving = restore_all(who, fetching.finish(), turn)?;
    Ok(Stage::Serving(serving))
}

/// Asks for what is missing, and returns whether anything is.
pub(crate) fn ask<S: Service>(
    who: Identity,
    fetching: &Fetching<S>,
    turn: &mut Turn,
) -> Result<bool, NoMemory>
    requires { IsOwn who fetching.now }
    ensures turn { OnOk result (SendsWanted S.Service who fetching.now turn.old turn.new) }
    ensures missing { IfOk result (λ asks. (count : ℕ) (fetched : List Fetched)
        → FetchingStands (service_of S.Service who) count fetched fetching.now
        → asks ≡ is_some (wanted count fetched)) }
    ensures asks { IfOk result (λ asks. asks ≡ is_some (asked_of fetching.now)) }
{
    let Some(question) = question_of(fetching) else {
        return Ok(false);
    };
    send_message(who, &question, turn)?;
    Ok(true)
}

/// The answer to a client whose entry has come: it acknowledges the logged bytes and FIN, with window 0.
fn holding(who: Identity, entry: &EntryHead) -> Head
    ensures { record { head = said result; payload = [] } ≡ holding_segment who.local (head_said entry.now) }
{
    let fin = u32::from(entry.fin);
    Head {
        src: who.local.ip,
        dst: entry.key.ip,
        sport: who.local.port,
        dport: entry.key.port,
        seq: Seq(entry.sisn).add(1).add(entry.acked),
        ack: Seq(entry.cisn).add(1).add(entry.length).add(fin),
        flags: ACK,
        window: 0,
        mss: None,
        timestamps: None,
    }
}

/// Whether a segment is for this server and has no RST.
fn may_be_held(who: Identity, segment: &PacketRef<'_>) -> bool
    ensures { result ≡ (is_for who.local (segment_of segment.now) && not (has_rst (segment_of segment.now))) }
{
    let head = &segment.head;
    head.dst == who.local.ip && head.dport == who.local.port && !has(head.flags, RST)
}

/// The head of a key's entry, unless its connection has ended.
fn live_head<S: Service>(fetching: &Fetching<S>, key: Key) -> Option<EntryHead>
    ensures law { (count : ℕ) (fetched : List Fetched) → FetchingStands (machine (S.started fetching.now.kind) S.after S.greeting) count fetched fetching.now
        → option_map head_said result ≡ option_map (λ f. f.head) (live_entry key fetched) }
    ensures keyed { IfSome result (λ entry. entry.key ≡ key) }
{
    let Some(entry) = fetching.known(key) else {
        return None;
    };
    if entry.done {
        return None;
    }
    Some(entry)
}

/// Answers a packet while the log is fetched. A client gets no answer until its entry has come, nor if its connection has ended, nor to a RST.
pub(crate) fn hold<S: Service>(
    who: Identity,
    fetching: &Fetching<S>,
    segment: &PacketRef<'_>,
    turn: &mut Turn,
) -> Result<(), NoMemory>
    requires { fetching.now.kind ≡ who.kind }
    ensures held { OnOk result (SendsHeld S.Service who (segment_of segment.now) fetching.now turn.old turn.new) }
    ensures alone { OnOk result (SendsFor who (source_of (segment_of segment.now)) turn.old turn.new) }
    ensures silent { OnOk result (is_for who.local (segment_of segment.now) ≡ false → turn.new.sent.items ≡ turn.old.sent.items) }
{
    if !may_be_held(who, segment) {
        return Ok(());
    }
    match live_head(fetching, segment.head.sender()) {
        Some(entry) => send_bare(holding(who, &entry), turn),
        None => Ok(()),
    }
}
