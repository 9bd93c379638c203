//! A node that marks: its stage, and what an input does to it. Its turns are those of a node without marks, with its messages about marks between the
//! packets. In a restart it asks for the marks of the entries too, and begins each entry at its mark.

ghost use Rattle.std.specs.Prelude.{◌≡◌, ◌≤◌, ◌∷◌, ℕ, [], false, Ok, None, IfOk, IfSome, OnOk, option_copied};
ghost use Rattle.seq_arith.specs.PacketGrammar.{reading};
ghost use Rattle.seq_arith.specs.MarkGrammar.{IsSpellable, reading as mark_reading};
ghost use Rattle.segment_codec.specs.Value.{segment_of};
ghost use Rattle.logger_wire.specs.Value.{message_of, IsSendableBy};
ghost use Rattle.logger_wire.specs.MarkValue.{message_of as mark_message_of};
ghost use Rattle.ft_model.specs.Node.Input.{Packet_comes, Message_comes, Tick_comes};
ghost use Rattle.mark_laws.specs.MarkedNode.MarkedInput.{Plain_comes, Mark_comes};
ghost use Rattle.reincarnate.specs.Marking.{any_of, IsAnyRead, IsAnySendable};
ghost use Rattle.server_trait.specs.Service.{machine};
ghost use Rattle.mark_laws.specs.Restart.{FetchedSoFar, next_question};
ghost use Rattle.reincarnate.specs.Refinement.{StandsSoFar};
ghost use Rattle.reincarnate.specs.Questions.{asked, any_asked};
ghost use Rattle.node_serving.specs.Conn.{IsSound};
ghost use Rattle.node_serving.specs.Identity.{grammar_in};
ghost use Rattle.node_serving.specs.declared.identity.Identity.{Identity as Incarnation};
ghost use Rattle.server_node.specs.FetchStage.{IsOf};
ghost use Rattle.node_serving.specs.Loan.{IsConnAt, place_in};
ghost use Rattle.server_node.specs.Marked.{IsSoundMarked, IsBareQuestion, AreApart};
ghost use Rattle.mark_laws.specs.MarkedNode.{Marker, MarkedNode, outgoing};
ghost use Rattle.node_serving.specs.Markers.{saving};
ghost use Rattle.conn_marks.specs.MarkSends.{AreOut};
ghost use Rattle.server_node.specs.MarkedApart.{MarkedTurnsApart};
ghost use Rattle.server_node.specs.MarkedTurns.{received_of, MarkedTurns, MarkedStands, BytesTurnMarked, FetchesOnMarked, Notes, SendsQuestion};
ghost use Rattle.server_node.specs.MarkedTurns.{IsPartBytes, input_of_any};
ghost use Rattle.server_node.specs.StageTurns.{IsUnfenced};

use crate::marked_reviving::restore_all_marked;
use crate::restarting::hold;
use crate::stage::{count_in, send_hello};
use conn_marks::Marks;
use ft_io::{Key, NoMemory};
use logger_wire::{Body, MarkBody, MarkMsg, Msg, read_mark};
use node_serving::{
    Identity, Serving, Turn, apart, ask_mark, conn_at, fit, send_message, serve_mark,
    serve_message_marked, serve_packet_marked, serve_tick_marked,
};
use reincarnate::{AnyMsg, Asked, Fetching};
use segment_codec::PacketRef;
use server_trait::{Saved, Service};
use std::alloc::Global;
use wrapped_conn::Conn;

/// The stage of a node that marks.
#[derive(Drop)]
pub(crate) enum MarkedStage<S: Service> {
    /// The logger was asked how many entries it has.
    Asking,
    /// The log's entries and their marks are asked for.
    Fetching(Fetching<S>),
    Serving(Serving<S>),
}

/// A node that marks.
#[derive(Drop)]
pub(crate) struct Marked<S: Service> {
    /// Its stage.
    pub stage: MarkedStage<S>,
    /// What is stored of its connections' marks.
    pub marks: Marks,
}

/// Takes the turn at a tick.
pub(crate) fn tick<S: Saved>(
    who: Identity,
    node: Marked<S>,
    turn: &mut Turn,
) -> Result<Marked<S>, NoMemory>
    requires boot { 1 ≤ who.boot }
    requires sound { IsSoundMarked who node }
    requires empty { turn.old.sent.items ≡ [] }
    ensures turn { IfOk result (λ after. MarkedTurns S.Service (saving S.form S.state_of S.is_savable) who
        (Plain_comes Tick_comes) node after turn.new.sent.items) }
    ensures apart { IfOk result (λ after. MarkedTurnsApart S.Service who (Plain_comes Tick_comes) node after turn.new.sent.items) }
    ensures sound { IfOk result (λ after. IsSoundMarked who after) }
{
    let Marked { stage, marks } = node;
    match stage {
        MarkedStage::Asking => {
            send_hello(who, turn)?;
            Ok(asking(marks))
        }
        MarkedStage::Fetching(fetching) => {
            ask(who, &fetching, turn)?;
            Ok(fetching_on(fetching, marks))
        }
        MarkedStage::Serving(mut serving) => {
            serve_tick_marked(who, &mut serving, &marks, turn)?;
            Ok(serving_on(serving, marks))
        }
    }
}

fn asking<S: Service>(marks: Marks) -> Marked<S>
    ensures { result ≡ record { stage = MarkedStage.Asking; marks = marks } }
{
    Marked {
        stage: MarkedStage::Asking,
        marks,
    }
}

fn fetching_on<S: Service>(fetching: Fetching<S>, marks: Marks) -> Marked<S>
    ensures { result ≡ record { stage = MarkedStage.Fetching fetching; marks = marks } }
{
    Marked {
        stage: MarkedStage::Fetching(fetching),
        marks,
    }
}

fn serving_on<S: Service>(serving: Serving<S>, marks: Marks) -> Marked<S>
    ensures { result ≡ record { stage = MarkedStage.Serving serving; marks = marks } }
{
    Marked {
        stage: MarkedStage::Serving(serving),
        marks,
    }
}

/// Takes the turn on a segment; `packet` has its bytes. Until the logger has said how many entries it has, clients get no answer.
pub(crate) fn serve_segment<S: Saved>(
    who: Identity,
    node: Marked<S>,
    segment: &PacketRef<'_>,
    packet: &[u8],
    turn: &mut Turn,
) -> Result<Marked<S>, NoMemory>
    requires boot { 1 ≤ who.boot }
    requires read { reading packet.now ≡ Ok (segment_of segment.now) }
    requires sound { IsSoundMarked who node }
    requires empty { turn.old.sent.items ≡ [] }
    ensures turn { IfOk result (λ after. MarkedTurns S.Service (saving S.form S.state_of S.is_savable) who
        (Plain_comes (Packet_comes (segment_of segment.now))) node after turn.new.sent.items) }
    ensures apart { IfOk result (λ after. MarkedTurnsApart S.Service who (Plain_comes (Packet_comes (segment_of segment.now))) node after turn.new.sent.items) }
    ensures sound { IfOk result (λ after. IsSoundMarked who after) }
{
    let Marked { stage, mut marks } = node;
    match stage {
        MarkedStage::Asking => Ok(asking(marks)),
        MarkedStage::Fetching(fetching) => {
            hold(who, &fetching, segment, turn)?;
            Ok(fetching_on(fetching, marks))
        }
        MarkedStage::Serving(mut serving) => {
            serve_packet_marked(who, segment, packet, &mut serving, &mut marks, turn)?;
            Ok(serving_on(serving, marks))
        }
    }
}

/// Takes the turn on a message of this boot that isn't about marks and doesn't fence the node.
pub(crate) fn receive<S: Saved>(
    who: Identity,
    node: Marked<S>,
    m: &Msg<'_>,
    turn: &mut Turn,
) -> Result<Marked<S>, NoMemory>
    requires boot { 1 ≤ who.boot }
    requires sendable { IsSendableBy (grammar_in who) m.now }
    requires sound { IsSoundMarked who node }
    requires empty { turn.old.sent.items ≡ [] }
    ensures turn { IfOk result (λ after. m.now.boot ≡ who.boot → IsUnfenced who (Message_comes (message_of m.now))
        → MarkedTurns S.Service (saving S.form S.state_of S.is_savable) who (Plain_comes (Message_comes (message_of m.now))) node after turn.new.sent.items) }
    ensures apart { IfOk result (λ after. m.now.boot ≡ who.boot
        → MarkedTurnsApart S.Service who (Plain_comes (Message_comes (message_of m.now))) node after turn.new.sent.items) }
    ensures sound { IfOk result (λ after. IsSoundMarked who after) }
{
    let Marked { stage, mut marks } = node;
    match stage {
        MarkedStage::Asking => begin(who, m, marks, turn),
        MarkedStage::Fetching(fetching) => {
            take_answer(who, fetching, &AnyMsg::Log(*m), marks, turn)
        }
        MarkedStage::Serving(mut serving) => {
            serve_message_marked(who, m, &mut serving, &mut marks, turn)?;
            Ok(serving_on(serving, marks))
        }
    }
}

/// Takes the turn on bytes that may be a message about marks. A message of another boot changes nothing.
pub(crate) fn receive_bytes<S: Saved>(
    who: Identity,
    node: Marked<S>,
    bytes: &[u8],
    turn: &mut Turn,
) -> Result<Marked<S>, NoMemory>
    requires boot { 1 ≤ who.boot }
    requires sound { IsSoundMarked who node }
    requires empty { turn.old.sent.items ≡ [] }
    ensures turn { IfOk result (λ after. BytesTurnMarked S.Service (saving S.form S.state_of S.is_savable) who
        (mark_reading bytes.now) node after turn.new.sent.items) }
    ensures apart { IfOk result (λ after. MarkedTurnsApart S.Service who (received_of (mark_reading bytes.now)) node after turn.new.sent.items) }
    ensures sound { IfOk result (λ after. IsSoundMarked who after) }
{
    apart_in(&node.stage);
    let Ok(m) = read_mark(bytes) else {
        return Ok(node);
    };
    if m.boot != who.boot {
        return Ok(node);
    }
    receive_mark(who, node, &m, turn)
}

/// A fact for proofs: no key has two slots.
pub(crate) fn apart_in<S: Saved>(stage: &MarkedStage<S>)
    ensures { AreApart stage.now }
{
    match stage {
        MarkedStage::Serving(serving) => apart(&serving.slots),
        _ => (),
    }
}

/// Takes the turn on a message of this boot about marks.
fn receive_mark<S: Saved>(
    who: Identity,
    node: Marked<S>,
    m: &MarkMsg<'_>,
    turn: &mut Turn,
) -> Result<Marked<S>, NoMemory>
    requires boot { 1 ≤ who.boot }
    requires sendable { IsSpellable (mark_message_of m.now) }
    requires sound { IsSoundMarked who node }
    requires empty { turn.old.sent.items ≡ [] }
    ensures turn { IfOk result (λ after. m.now.boot ≡ who.boot
        → MarkedTurns S.Service (saving S.form S.state_of S.is_savable) who (Mark_comes (mark_message_of m.now)) node after turn.new.sent.items) }
    ensures apart { IfOk result (λ after. m.now.boot ≡ who.boot
        → MarkedTurnsApart S.Service who (Mark_comes (mark_message_of m.now)) node after turn.new.sent.items) }
    ensures sound { IfOk result (λ after. IsSoundMarked who after) }
{
    let Marked { stage, mut marks } = node;
    match stage {
        MarkedStage::Asking => Ok(asking(marks)),
        MarkedStage::Fetching(fetching) => {
            take_answer(who, fetching, &AnyMsg::Mark(*m), marks, turn)
        }
        MarkedStage::Serving(serving) => {
            serve_mark(who, m, &serving, &mut marks, turn)?;
            Ok(serving_on(serving, marks))
        }
    }
}

/// The connection of a key, while it is live.
pub(crate) fn lend<S: Service>(node: &Marked<S>, key: Key) -> Option<&Conn<S>>
    ensures marked { (by : Marker S) (law : MarkedNode) → MarkedStands by law node.now
        → IsConnAt by.service law.plain (option_copied result) (place_in key law.plain.stage) }
    ensures sound { (who : Incarnation) → IsSoundMarked who node.now → IfSome result (λ c. IsSound c.now) }
{
    match &node.stage {
        MarkedStage::Serving(serving) => conn_at(&serving.slots, key),
        MarkedStage::Asking | MarkedStage::Fetching(_) => None,
    }
}

/// Takes the turn on a message while the logger is asked how many entries it has. If the message says how many, the first entry is asked for.
fn begin<S: Saved>(
    who: Identity,
    m: &Msg<'_>,
    marks: Marks,
    turn: &mut Turn,
) -> Result<Marked<S>, NoMemory>
    requires boot { 1 ≤ who.boot }
    requires sendable { IsSendableBy (grammar_in who) m.now }
    requires empty { turn.old.sent.items ≡ [] }
    ensures turn { IfOk result (λ after. m.now.boot ≡ who.boot → IsUnfenced who (Message_comes (message_of m.now))
        → MarkedTurns S.Service (saving S.form S.state_of S.is_savable) who (Plain_comes (Message_comes (message_of m.now)))
        (record { stage = MarkedStage.Asking; marks = marks }) after turn.new.sent.items) }
    ensures sound { IfOk result (λ after. IsSoundMarked who after) }
{
    let Some(count) = count_in(&m.body) else {
        return Ok(asking(marks));
    };
    let asked = Asked::new(who.boot);
    let Ok(fetching) = asked.on_summary(turn.alloc, who.kind, count, marks.are_made()) else {
        return Err(NoMemory);
    };
    proceed(who, fetching, marks, turn)
}

/// Handles a message that may be an answer. If it fits the question, takes it and asks for what is missing then.
fn take_answer<S: Saved>(
    who: Identity,
    mut fetching: Fetching<S>,
    m: &AnyMsg<'_>,
    mut marks: Marks,
    turn: &mut Turn,
) -> Result<Marked<S>, NoMemory>
    requires boot { 1 ≤ who.boot }
    requires sendable { IsAnyRead m.now }
    requires own { IsOf who fetching }
    requires empty { turn.old.sent.items ≡ [] }
    ensures turn { IfOk result (λ after. MarkedTurns S.Service (saving S.form S.state_of S.is_savable) who (input_of_any (any_of m.now))
        (record { stage = MarkedStage.Fetching fetching; marks = marks }) after turn.new.sent.items) }
    ensures sound { IfOk result (λ after. IsSoundMarked who after) }
{
    fit_part(m);
    if !fetching.on_answer(turn.alloc, m)? {
        return Ok(fetching_on(fetching, marks));
    }
    note_last(turn.alloc, m, &mut marks)?;
    proceed(who, fetching, marks, turn)
}

/// A fact for proofs: the bytes that a Part has fit their type.
fn fit_part(m: &AnyMsg<'_>)
    ensures { IsPartBytes (any_of m.now) }
{
    match m {
        AnyMsg::Log(
            Msg {
                body: Body::Part { bytes, .. },
                ..
            },
        ) => fit(bytes),
        _ => (),
    }
}

/// Notes the fetched mark as the last mark of its entry.
fn note_last(alloc: Global, m: &AnyMsg<'_>, marks: &mut Marks) -> Result<(), NoMemory>
    ensures { OnOk result (Notes (any_of m.now) marks.old marks.new) }
{
    match m {
        AnyMsg::Mark(
            MarkMsg {
                body: MarkBody::Held { key, mark },
                ..
            },
        ) => marks.begin(alloc, *key, mark.reads),
        _ => Ok(()),
    }
}

/// Asks for what is missing. Once nothing is, restores the whole log.
fn proceed<S: Saved>(
    who: Identity,
    fetching: Fetching<S>,
    mut marks: Marks,
    turn: &mut Turn,
) -> Result<Marked<S>, NoMemory>
    requires boot { 1 ≤ who.boot }
    requires own { IsOf who fetching }
    requires empty { turn.old.sent.items ≡ [] }
    ensures turn { IfOk result (λ after. FetchesOnMarked S.Service (saving S.form S.state_of S.is_savable) who fetching marks after turn.new.sent.items) }
    ensures sound { IfOk result (λ after. IsSoundMarked who after) }
{
    if ask(who, &fetching, turn)? {
        return Ok(fetching_on(fetching, marks));
    }
    let serving = restore_all_marked(who, fetching.finish(), &mut marks, turn)?;
    Ok(serving_on(serving, marks))
}

/// Asks for what is missing, and returns whether anything is.
fn ask<S: Saved>(who: Identity, fetching: &Fetching<S>, turn: &mut Turn) -> Result<bool, NoMemory>
    ensures sent { IfOk result (λ asks. SendsQuestion (grammar_in who) (any_asked fetching.now) asks turn.old.sent.items turn.new.sent.items) }
    ensures missing { IfOk result (λ asks. asks ≡ false → asked fetching.now ≡ None) }
    ensures law { (so_far : FetchedSoFar) → StandsSoFar (machine (S.started fetching.now.kind) S.after S.greeting) so_far fetching.now
        → any_asked fetching.now ≡ next_question fetching.now.boot fetching.now.count so_far }
{
    let Some(question) = fetching.question() else {
        return Ok(false);
    };
    send_question(who, &question, turn)?;
    Ok(true)
}

/// Sends the logger a question of either kind.
fn send_question(who: Identity, question: &AnyMsg<'_>, turn: &mut Turn) -> Result<(), NoMemory>
    requires sendable { IsAnySendable question.now }
    requires bare { IsBareQuestion (any_of question.now) }
    ensures { OnOk result (AreOut (grammar_in who) (outgoing (any_of question.now) ∷ []) turn.old.sent.items turn.new.sent.items) }
{
    match question {
        AnyMsg::Log(m) => send_message(who, m, turn),
        AnyMsg::Mark(m) => ask_mark(m, turn),
    }
}
