//! The turn of a node in place. A stage is large, so that of a node that serves and makes no marks isn't moved.

ghost use Rattle.std.specs.Prelude.{◌≡◌, ◌≤◌, [], OnOk, IfErr, IsErrOf};
ghost use Rattle.logger_wire.specs.Value.{message_of, IsSendableBy};
ghost use Rattle.ft_model.specs.Node.Input.{Message_comes};
ghost use Rattle.node_serving.specs.Identity.{service_of, grammar_in};
ghost use Rattle.node_serving.specs.Markers.{saving};
ghost use Rattle.server_node.specs.MarkedTurns.{IsTurnMarked, marked_input_of};
ghost use Rattle.server_node.specs.Apart.{TurnsApart};
ghost use Rattle.server_node.specs.Inputs.{input_of};
ghost use Rattle.server_node.specs.Stages.{IsSoundStage};
ghost use Rattle.server_node.specs.StageTurns.{StageTurns, IsUnfenced, IsFenceOf};

use crate::input::{Input, TurnEnd};
use crate::stage::{Stage, go, newer_in, read_message};
use logger_wire::Msg;
use node_serving::{Identity, Serving, Turn, serve_bytes, serve_message, serve_tick};
use segment_codec::read_packet;
use server_trait::Saved;
use std::mem;

/// Handles a message that the codec has read. A Stale of this boot that names a larger boot number ends the node.
fn receive<S: Saved>(
    who: Identity,
    serving: &mut Serving<S>,
    m: &Msg<'_>,
    turn: &mut Turn,
) -> Result<(), TurnEnd>
    requires boot { 1 ≤ who.boot }
    requires sendable { IsSendableBy (grammar_in who) m.now }
    requires sound { IsSoundStage who (Stage.Serving serving.old) }
    requires empty { turn.old.sent.items ≡ [] }
    ensures turn { OnOk result (StageTurns S.Service who (Message_comes (message_of m.now))
        (Stage.Serving serving.old) (Stage.Serving serving.new) turn.new.sent.items) }
    ensures apart { OnOk result (TurnsApart (service_of S.Service who) who (Message_comes (message_of m.now))
        (Stage.Serving serving.old) (Stage.Serving serving.new) turn.new.sent.items) }
    ensures unfenced { OnOk result (IsUnfenced who (Message_comes (message_of m.now))) }
    ensures fenced { IfErr result (IsFenceOf who (Message_comes (message_of m.now))) }
    ensures memory { IsErrOf result TurnEnd.NoMemory → IsUnfenced who (Message_comes (message_of m.now)) }
    ensures sound { OnOk result (IsSoundStage who (Stage.Serving serving.new)) }
{
    if let Some(newer) = newer_in(who, m) {
        return Err(TurnEnd::Fenced { newer });
    }
    if m.boot != who.boot {
        return Ok(());
    }
    serve_message(who, m, serving, turn)?;
    Ok(())
}

/// Takes the turn of a node that serves and makes no marks. After an error the node may only be dropped.
fn serve<S: Saved>(
    who: Identity,
    serving: &mut Serving<S>,
    input: Input<'_>,
    turn: &mut Turn,
) -> Result<(), TurnEnd>
    requires boot { 1 ≤ who.boot }
    requires sound { IsSoundStage who (Stage.Serving serving.old) }
    requires empty { turn.old.sent.items ≡ [] }
    ensures turn { OnOk result (StageTurns S.Service who (input_of (grammar_in who) input.entry)
        (Stage.Serving serving.old) (Stage.Serving serving.new) turn.new.sent.items) }
    ensures apart { OnOk result (TurnsApart (service_of S.Service who) who (input_of (grammar_in who) input.entry)
        (Stage.Serving serving.old) (Stage.Serving serving.new) turn.new.sent.items) }
    ensures unfenced { OnOk result (IsUnfenced who (input_of (grammar_in who) input.entry)) }
    ensures fenced { IfErr result (IsFenceOf who (input_of (grammar_in who) input.entry)) }
    ensures memory { IsErrOf result TurnEnd.NoMemory → IsUnfenced who (input_of (grammar_in who) input.entry) }
    ensures sound { OnOk result (IsSoundStage who (Stage.Serving serving.new)) }
{
    match input {
        Input::Tick => {
            serve_tick(who, serving, turn)?;
            Ok(())
        }
        Input::Packet(bytes) => match read_packet(bytes) {
            Ok(segment) => {
                serve_bytes(who, &segment, bytes, serving, turn)?;
                Ok(())
            }
            Err(_) => Ok(()),
        },
        Input::Message(bytes) => match read_message(who, bytes) {
            Ok(m) => receive(who, serving, &m, turn),
            Err(_) => Ok(()),
        },
    }
}

/// Takes a node's turn on an input. After an error the node may only be dropped.
pub(crate) fn go_in_place<S: Saved>(
    who: Identity,
    stage: &mut Stage<S>,
    input: Input<'_>,
    turn: &mut Turn,
) -> Result<(), TurnEnd>
    requires boot { 1 ≤ who.boot }
    requires sound { IsSoundStage who stage.old }
    requires empty { turn.old.sent.items ≡ [] }
    ensures turn { OnOk result (StageTurns S.Service who (input_of (grammar_in who) input.entry) stage.old stage.new turn.new.sent.items) }
    ensures apart { OnOk result (TurnsApart (service_of S.Service who) who (input_of (grammar_in who) input.entry)
        stage.old stage.new turn.new.sent.items) }
    ensures marked { OnOk result (IsTurnMarked S.Service (saving S.form S.state_of S.is_savable) who
        (marked_input_of (grammar_in who) input.entry) stage.old stage.new turn.new.sent.items) }
    ensures unfenced { OnOk result (IsUnfenced who (input_of (grammar_in who) input.entry)) }
    ensures fenced { IfErr result (IsFenceOf who (input_of (grammar_in who) input.entry)) }
    ensures memory { IsErrOf result TurnEnd.NoMemory → IsUnfenced who (input_of (grammar_in who) input.entry) }
    ensures sound { OnOk result (IsSoundStage who stage.new) }
{
    if let Stage::Serving(serving) = stage {
        return serve(who, serving, input, turn);
    }
    let was = mem::replace(stage, Stage::Lost);
    *stage = go(who, was, input, turn)?;
    Ok(())
}
