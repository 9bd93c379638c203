//! What the node sends in a turn.

ghost use Rattle.std.specs.Prelude.{◌≡◌, ◌++◌, ◌∷◌, [], map, OnOk};
ghost use Rattle.std.specs.List.{AllByRecursion};
ghost use Rattle.ft_model.specs.Network.Packet.{To_logger};
ghost use Rattle.logger_wire.specs.Value.{body_of, message_of, IsSendableBy};
ghost use Rattle.server_trait.specs.Service.{AreBytes};
ghost use Rattle.seq_arith.specs.MessageGrammar.{behind_of};
ghost use Rattle.seq_arith.specs.declared.kinds.Grammar.{Grammar};
ghost use Rattle.seq_arith.specs.MarkGrammar.{IsSpellable};
ghost use Rattle.logger_wire.specs.MarkValue.{message_of as mark_message_of};
ghost use Rattle.mark_laws.specs.Marking.Outgoing.{Mark_to_logger};
ghost use Rattle.conn_marks.specs.MarkSends.{AreOut};
ghost use Rattle.node_serving.specs.Identity.{grammar_in};
ghost use Rattle.node_serving.specs.SentBytes.{wires_of, segment_to, message_to_logger};
ghost use Rattle.node_serving.specs.Turns.{Sends};

use crate::identity::Identity;
use crate::out_packet::To;
use crate::outgoing::Outgoing;
use crate::turn::Turn;
use ft_io::{Key, NoMemory};
use logger_wire::{MarkMsg, Msg, put_msg_by, write_mark};
use std::alloc::Global;
use wrapped_conn::TurnOut;

/// Sends the logger a message without bytes after its fields, in the incarnation's grammar.
pub fn send_message(who: Identity, message: &Msg<'_>, turn: &mut Turn) -> Result<(), NoMemory>
    requires sendable { IsSendableBy (grammar_in who) message.now }
    requires bare { behind_of (body_of message.now.body) ≡ [] }
    ensures { OnOk result (Sends (grammar_in who) (To_logger (message_of message.now) ∷ []) turn.old turn.new) }
{
    let mut text = [0; 64];
    let len = put_msg_by(who.profile.grammar(), message, &mut text);
    turn.sent.send(turn.alloc, To::Logger, &text[..len])
}

/// Asks the logger for a mark.
pub fn ask_mark(question: &MarkMsg<'_>, turn: &mut Turn) -> Result<(), NoMemory>
    requires { IsSpellable (mark_message_of question.now) }
    ensures { OnOk result ((grammar : Grammar) → AreOut grammar (Mark_to_logger (mark_message_of question.now) ∷ []) turn.old.sent.items turn.new.sent.items) }
{
    let mut text = [0; 2_048];
    let len = write_mark(question, &mut text);
    turn.sent.send(turn.alloc, To::Logger, &text[..len])
}

/// A fact for proofs: each byte fits its type.
pub fn fit(bytes: &[u8])
    ensures { AreBytes bytes.now }
{
    let _first = bytes.first();
}

fn send_segments(
    alloc: Global,
    key: Key,
    out: &TurnOut,
    sent: &mut Outgoing,
) -> Result<(), NoMemory>
    ensures sent { OnOk result (sent.new.items ≡ sent.old.items ++ map (segment_to key) out.now.segments) }
    ensures bytes { OnOk result (AllByRecursion AreBytes out.now.segments) }
{
    let segments = out.segments();
    for i in 0..segments.len() {
        let packet = segments.packet(i);
        fit(packet);
        sent.send(alloc, To::Client(key), packet)?;
    }
    Ok(())
}

fn send_messages(alloc: Global, out: &TurnOut, sent: &mut Outgoing) -> Result<(), NoMemory>
    ensures sent { OnOk result (sent.new.items ≡ sent.old.items ++ map message_to_logger out.now.messages) }
    ensures bytes { OnOk result (AllByRecursion AreBytes out.now.messages) }
{
    for i in 0..out.messages() {
        let message = out.message(i);
        fit(message);
        sent.send(alloc, To::Logger, message)?;
    }
    Ok(())
}

/// Sends what a connection's turn has put into `out`: its segments, then its messages.
#[tactic(auto, using(std::proofs::Common::append_assoc))]
pub(crate) fn send_all(key: Key, turn: &mut Turn) -> Result<(), NoMemory>
    ensures sent { OnOk result (turn.new.sent.items ≡ turn.old.sent.items ++ wires_of key turn.old.out.segments turn.old.out.messages) }
    ensures segments { OnOk result (AllByRecursion AreBytes turn.old.out.segments) }
    ensures messages { OnOk result (AllByRecursion AreBytes turn.old.out.messages) }
{
    send_segments(turn.alloc, key, &turn.out, &mut turn.sent)?;
    send_messages(turn.alloc, &turn.out, &mut turn.sent)
}
