//! The stage of a node, and what an input does to it.

ghost use Rattle.std.specs.Prelude.{◌≡◌, ◌≤◌, ◌∷◌, [], Ok, None, Some, IfSome, OnOk, IfOk, IfErr, IsErrOf, option_copied, false};
ghost use Rattle.seq_arith.specs.PacketGrammar.{reading};
ghost use Rattle.seq_arith.specs.Message.Body.{HelloMsg};
ghost use Rattle.seq_arith.specs.MessageGrammar.{reading_by};
ghost use Rattle.segment_codec.specs.Value.{segment_of};
ghost use Rattle.server_trait.specs.Service.{Machine};
ghost use Rattle.logger_wire.specs.Value.{body_of, message_of, seen, IsSendableBy};
ghost use Rattle.ft_model.specs.Connection.{reported_by};
ghost use Rattle.ft_model.specs.Node.{Node, Stage as Standing};
ghost use Rattle.ft_model.specs.Node.Input.{Packet_comes, Message_comes, Tick_comes};
ghost use Rattle.ft_model.specs.Lawful.{fence, newer_than, summary_count};
ghost use Rattle.server_node.specs.Apart.{TurnsApart};
ghost use Rattle.node_serving.specs.Conn.{IsSound};
ghost use Rattle.node_serving.specs.declared.identity.Identity.{Identity as Incarnation};
ghost use Rattle.node_serving.specs.Identity.{node_of, service_of, grammar_in};
ghost use Rattle.server_node.specs.Inputs.{input_of};
ghost use Rattle.node_serving.specs.Loan.{IsConnAt, place_in};
ghost use Rattle.server_node.specs.Stages.{StageStands, IsSoundStage, IsFence, is_marked};
ghost use Rattle.seq_arith.specs.MarkGrammar.{reading as mark_reading};
ghost use Rattle.conn_marks.specs.KeyMarks.{every_for};
ghost use Rattle.mark_laws.specs.MarkedNode.{Marker, MarkedNode};
ghost use Rattle.mark_laws.specs.MarkedNode.MarkedInput.{Plain_comes};
ghost use Rattle.node_serving.specs.Markers.{saving};
ghost use Rattle.server_node.specs.MarkedTurns.{IsTurnMarked, NodeStandsAt, HasSlotsApart, marked_input_of, received_of};
ghost use Rattle.server_node.specs.RestartTurns.{SummaryRestarts};
ghost use Rattle.node_serving.specs.Turns.{Sends};
ghost use Rattle.server_node.specs.StageTurns.{StageTurns, IsUnfenced, IsFenceOf};

use crate::input::{Input, TurnEnd};
use crate::marked::{self, Marked, MarkedStage, apart_in};
use crate::restarting::{ask, begin_fetching, hold, take_answer};
use conn_marks::Marks;
use ft_io::{Key, NoMemory};
use logger_wire::{BadMsg, Body, Msg, read_msg_by};
use node_serving::{
    Identity, Serving, Turn, conn_at, send_message, serve_bytes, serve_message, serve_tick,
};
use reincarnate::Fetching;
use segment_codec::{PacketRef, read_packet};
use server_trait::{Saved, Service};
use std::alloc::Global;
use wrapped_conn::Conn;

/// The stage of a node.
#[derive(Drop)]
pub(crate) enum Stage<S: Service> {
    /// The logger was asked how many entries it has.
    Asking,
    /// The log's entries are asked for.
    Fetching(Fetching<S>),
    Serving(Serving<S>),
    /// A node that marks, with its own stages.
    Marked(Marked<S>),
    /// A turn has failed.
    Lost,
}

impl<S: Saved> Stage<S> {
    /// The stage at the boot. The node marks after every `every` reads, and makes no marks if that is 0.
    pub(crate) fn begun(alloc: Global, every: u32) -> Stage<S>
        ensures plain { every ≡ 0 → result ≡ Stage.Asking }
        ensures marked { 1 ≤ every → result ≡ Stage.Marked (record {
          stage = MarkedStage.Asking;
          marks = record { every = every_for S.is_savable every; of = [] };
        }) }
        ensures sound { (who : Incarnation) → IsSoundStage who result }
    {
        if every == 0 {
            return Stage::Asking;
        }
        Stage::Marked(Marked {
            stage: MarkedStage::Asking,
            marks: Marks::new::<S>(alloc, every),
        })
    }
}

/// Asks the logger how many entries it has.
pub(crate) fn send_hello(who: Identity, turn: &mut Turn) -> Result<(), NoMemory>
    requires { 1 ≤ who.boot }
    ensures { OnOk result (Sends (grammar_in who) (reported_by who.boot HelloMsg ∷ []) turn.old turn.new) }
{
    let message = Msg {
        boot: who.boot,
        body: Body::Hello,
    };
    send_message(who, &message, turn)
}

fn on_tick<S: Saved>(who: Identity, stage: Stage<S>, turn: &mut Turn) -> Result<Stage<S>, NoMemory>
    requires boot { 1 ≤ who.boot }
    requires sound { IsSoundStage who stage }
    requires empty { turn.old.sent.items ≡ [] }
    ensures turn { IfOk result (λ after. StageTurns S.Service who Tick_comes stage after turn.new.sent.items) }
    ensures apart { IfOk result (λ after. TurnsApart (service_of S.Service who) who Tick_comes stage after turn.new.sent.items) }
    ensures marked { IfOk result (λ after. IsTurnMarked S.Service (saving S.form S.state_of S.is_savable) who
        (Plain_comes Tick_comes) stage after turn.new.sent.items) }
    ensures sound { IfOk result (λ after. IsSoundStage who after) }
{
    match stage {
        Stage::Asking => {
            send_hello(who, turn)?;
            Ok(Stage::Asking)
        }
        Stage::Fetching(fetching) => {
            ask(who, &fetching, turn)?;
            Ok(Stage::Fetching(fetching))
        }
        Stage::Serving(mut serving) => {
            serve_tick(who, &mut serving, turn)?;
            Ok(Stage::Serving(serving))
        }
        Stage::Marked(node) => Ok(Stage::Marked(marked::tick(who, node, turn)?)),
        Stage::Lost => Err(NoMemory),
    }
}

/// Handles a message of this boot that doesn't fence the node.
fn on_message<S: Saved>(
    who: Identity,
    stage: Stage<S>,
    m: &Msg<'_>,
    turn: &mut Turn,
) -> Result<Stage<S>, NoMemory>
    requires boot { 1 ≤ who.boot }
    requires sendable { IsSendableBy (grammar_in who) m.now }
    requires sound { IsSoundStage who stage }
    requires empty { turn.old.sent.items ≡ [] }
    ensures turn { IfOk result (λ after. m.now.boot ≡ who.boot → IsUnfenced who (Message_comes (message_of m.now))
        → StageTurns S.Service who (Message_comes (message_of m.now)) stage after turn.new.sent.items) }
    ensures apart { IfOk result (λ after. m.now.boot ≡ who.boot
        → TurnsApart (service_of S.Service who) who (Message_comes (message_of m.now)) stage after turn.new.sent.items) }
    ensures marked { IfOk result (λ after. m.now.boot ≡ who.boot → IsUnfenced who (Message_comes (message_of m.now))
        → IsTurnMarked S.Service (saving S.form S.state_of S.is_savable) who (Plain_comes (Message_comes (message_of m.now))) stage after turn.new.sent.items) }
    ensures sound { IfOk result (λ after. IsSoundStage who after) }
{
    match stage {
        Stage::Asking => on_summary(who, m, turn),
        Stage::Fetching(fetching) => take_answer(who, fetching, m, turn),
        Stage::Serving(mut serving) => {
            serve_message(who, m, &mut serving, turn)?;
            Ok(Stage::Serving(serving))
        }
        Stage::Marked(node) => Ok(Stage::Marked(marked::receive(who, node, m, turn)?)),
        Stage::Lost => Err(NoMemory),
    }
}

/// How many entries the log has, if a message is a Summary.
pub(crate) fn count_in(body: &Body<'_>) -> Option<u16>
    ensures { result ≡ summary_count (body_of body.now) }
{
    match body {
        Body::Summary { count } => Some(*count),
        _ => None,
    }
}

/// Handles a message of this boot that doesn't fence the node, while the logger is asked how many entries it has.
fn on_summary<S: Saved>(who: Identity, m: &Msg<'_>, turn: &mut Turn) -> Result<Stage<S>, NoMemory>
    requires boot { 1 ≤ who.boot }
    requires sendable { IsSendableBy (grammar_in who) m.now }
    requires empty { turn.old.sent.items ≡ [] }
    ensures turn { IfOk result (λ after. m.now.boot ≡ who.boot → IsUnfenced who (Message_comes (message_of m.now))
        → StageTurns S.Service who (Message_comes (message_of m.now)) Stage.Asking after turn.new.sent.items) }
    ensures restarts { IfOk result (λ after. m.now.boot ≡ who.boot → SummaryRestarts S.Service who (message_of m.now) after turn.new.sent.items) }
    ensures sound { IfOk result (λ after. IsSoundStage who after) }
{
    let Some(count) = count_in(&m.body) else {
        return Ok(Stage::Asking);
    };
    begin_fetching(who, count, turn)
}

/// The boot number that a Stale names, if it is larger than `boot`.
pub(crate) fn newer_than(boot: u64, body: &Body<'_>) -> Option<u64>
    ensures { result ≡ newer_than boot (body_of body.now) }
{
    match body {
        Body::Stale { newer } => (boot < *newer).then_some(*newer),
        _ => None,
    }
}

/// The larger boot number by which a message fences the node, if it does.
pub(crate) fn newer_in(who: Identity, m: &Msg<'_>) -> Option<u64>
    ensures { (standing : Standing) → result ≡ fence (node_of who standing) (Message_comes (message_of m.now)) }
{
    if m.boot != who.boot {
        return None;
    }
    newer_than(who.boot, &m.body)
}

/// Handles a message that the codec has read. A Stale of this boot that names a larger boot number ends the node.
pub(crate) fn receive<S: Saved>(
    who: Identity,
    stage: Stage<S>,
    m: &Msg<'_>,
    turn: &mut Turn,
) -> Result<Stage<S>, TurnEnd>
    requires boot { 1 ≤ who.boot }
    requires sendable { IsSendableBy (grammar_in who) m.now }
    requires sound { IsSoundStage who stage }
    requires empty { turn.old.sent.items ≡ [] }
    ensures turn { IfOk result (λ after. StageTurns S.Service who (Message_comes (message_of m.now)) stage after turn.new.sent.items) }
    ensures apart { IfOk result (λ after. TurnsApart (service_of S.Service who) who (Message_comes (message_of m.now)) stage after turn.new.sent.items) }
    ensures marked { IfOk result (λ after. IsTurnMarked S.Service (saving S.form S.state_of S.is_savable) who
        (Plain_comes (Message_comes (message_of m.now))) stage after turn.new.sent.items) }
    ensures unfenced { IfOk result (λ after. IsUnfenced who (Message_comes (message_of m.now))) }
    ensures fenced { IfErr result (IsFenceOf who (Message_comes (message_of m.now))) }
    ensures memory { IsErrOf result TurnEnd.NoMemory → IsUnfenced who (Message_comes (message_of m.now)) }
    ensures sound { IfOk result (λ after. IsSoundStage who after) }
{
    if let Some(newer) = newer_in(who, m) {
        return Err(TurnEnd::Fenced { newer });
    }
    if m.boot != who.boot {
        fit_slots(&stage);
        return Ok(stage);
    }
    Ok(on_message(who, stage, m, turn)?)
}

/// A fact for proofs: no key of a node that marks has two slots.
fn fit_slots<S: Saved>(stage: &Stage<S>)
    ensures { HasSlotsApart stage.now }
{
    match stage {
        Stage::Marked(node) => apart_in(&node.stage),
        _ => (),
    }
}

/// Handles bytes that may be a message about marks. Only a node that marks reads them.
fn receive_about_mark<S: Saved>(
    who: Identity,
    stage: Stage<S>,
    bytes: &[u8],
    turn: &mut Turn,
) -> Result<Stage<S>, NoMemory>
    requires boot { 1 ≤ who.boot }
    requires sound { IsSoundStage who stage }
    requires empty { turn.old.sent.items ≡ [] }
    ensures plain { IfOk result (λ after. is_marked stage ≡ false → (after ≡ stage) × (turn.new.sent.items ≡ turn.old.sent.items)) }
    ensures marked { IfOk result (λ after. IsTurnMarked S.Service (saving S.form S.state_of S.is_savable) who
        (received_of (mark_reading bytes.now)) stage after turn.new.sent.items) }
    ensures sound { IfOk result (λ after. IsSoundStage who after) }
{
    match stage {
        Stage::Marked(node) => Ok(Stage::Marked(marked::receive_bytes(who, node, bytes, turn)?)),
        stage => Ok(stage),
    }
}

/// Handles a segment; `packet` has its bytes. Until the logger has said how many entries it has, clients get no answer.
pub(crate) fn on_packet<S: Saved>(
    who: Identity,
    stage: Stage<S>,
    segment: &PacketRef<'_>,
    packet: &[u8],
    turn: &mut Turn,
) -> Result<Stage<S>, NoMemory>
    requires boot { 1 ≤ who.boot }
    requires read { reading packet.now ≡ Ok (segment_of segment.now) }
    requires sound { IsSoundStage who stage }
    requires empty { turn.old.sent.items ≡ [] }
    ensures turn { IfOk result (λ after. StageTurns S.Service who (Packet_comes (segment_of segment.now)) stage after turn.new.sent.items) }
    ensures apart { IfOk result (λ after. TurnsApart (service_of S.Service who) who (Packet_comes (segment_of segment.now)) stage after turn.new.sent.items) }
    ensures marked { IfOk result (λ after. IsTurnMarked S.Service (saving S.form S.state_of S.is_savable) who
        (Plain_comes (Packet_comes (segment_of segment.now))) stage after turn.new.sent.items) }
    ensures sound { IfOk result (λ after. IsSoundStage who after) }
{
    match stage {
        Stage::Asking => Ok(Stage::Asking),
        Stage::Fetching(fetching) => {
            hold(who, &fetching, segment, turn)?;
            Ok(Stage::Fetching(fetching))
        }
        Stage::Serving(mut serving) => {
            serve_bytes(who, segment, packet, &mut serving, turn)?;
            Ok(Stage::Serving(serving))
        }
        Stage::Marked(node) => Ok(Stage::Marked(marked::serve_segment(
            who, node, segment, packet, turn,
        )?)),
        Stage::Lost => Err(NoMemory),
    }
}

/// The connection of a key, while it is live.
pub(crate) fn conn_in<S: Service>(stage: &Stage<S>, key: Key) -> Option<&Conn<S>>
    ensures stands { (service : Machine S) (node : Node) → StageStands service node stage.now
        → IsConnAt service node (option_copied result) (place_in key node.stage) }
    ensures marked { (by : Marker S) (law : MarkedNode) → NodeStandsAt by law stage.now
        → IsConnAt by.service law.plain (option_copied result) (place_in key law.plain.stage) }
    ensures sound { (who : Incarnation) → IsSoundStage who stage.now → IfSome result (λ c. IsSound c.now) }
{
    match stage {
        Stage::Serving(serving) => conn_at(&serving.slots, key),
        Stage::Marked(node) => marked::lend(node, key),
        Stage::Asking | Stage::Fetching(_) | Stage::Lost => None,
    }
}

/// Reads a message in the incarnation's grammar.
pub(crate) fn read_message(who: Identity, bytes: &[u8]) -> Result<Msg<'_>, BadMsg>
    ensures value { seen result ≡ reading_by (grammar_in who) bytes.now }
    ensures sendable { IfOk result (λ m. IsSendableBy (grammar_in who) m) }
{
    read_msg_by(who.profile.grammar(), bytes)
}

/// Takes a node's turn on an input, and returns its next stage. After an error the node may only be dropped.
pub(crate) fn go<S: Saved>(
    who: Identity,
    stage: Stage<S>,
    input: Input<'_>,
    turn: &mut Turn,
) -> Result<Stage<S>, TurnEnd>
    requires boot { 1 ≤ who.boot }
    requires sound { IsSoundStage who stage }
    requires empty { turn.old.sent.items ≡ [] }
    ensures turn { IfOk result (λ after. StageTurns S.Service who (input_of (grammar_in who) input.entry) stage after turn.new.sent.items) }
    ensures apart { IfOk result (λ after. TurnsApart (service_of S.Service who) who (input_of (grammar_in who) input.entry) stage after turn.new.sent.items) }
    ensures marked { IfOk result (λ after. IsTurnMarked S.Service (saving S.form S.state_of S.is_savable) who
        (marked_input_of (grammar_in who) input.entry) stage after turn.new.sent.items) }
    ensures unfenced { IfOk result (λ after. IsUnfenced who (input_of (grammar_in who) input.entry)) }
    ensures fenced { IfErr result (IsFenceOf who (input_of (grammar_in who) input.entry)) }
    ensures memory { IsErrOf result TurnEnd.NoMemory → IsUnfenced who (input_of (grammar_in who) input.entry) }
    ensures sound { IfOk result (λ after. IsSoundStage who after) }
{
    match input {
        Input::Tick => Ok(on_tick(who, stage, turn)?),
        Input::Packet(bytes) => match read_packet(bytes) {
            Ok(segment) => Ok(on_packet(who, stage, &segment, bytes, turn)?),
            Err(_) => {
                fit_slots(&stage);
                Ok(stage)
            }
        },
        Input::Message(bytes) => match read_message(who, bytes) {
            Ok(m) => receive(who, stage, &m, turn),
            Err(_) => Ok(receive_about_mark(who, stage, bytes, turn)?),
        },
    }
}
