//! A turn of a server that lasts on a datagram from the logger's side.

ghost use Rattle.std.specs.Prelude.{◌≡◌, IfErr, IsErrOf, OnOk};
ghost use Rattle.logger_wire.specs.Value.{body_of as log_body_of};
ghost use Rattle.long_laws.specs.LongResets.{says_full};

use crate::node::LastingNode;
use crate::outside::outside_of;
use forget_wire::{ForgetBody, ForgetMsg, read_forget};
use lasting_lives::Resting;
use logger_wire::{Body, Msg, read_msg_by};
use server_node::{Input, TurnEnd};
use server_trait::Saved;
use std::alloc::Global;

impl<S: Saved> LastingNode<S> {
    ghost use Rattle.node_serving.specs.Identity.{service_of, grammar_in};
    ghost use Rattle.std.specs.Prelude.{false, Ok};
    ghost use Rattle.seq_arith.specs.MessageGrammar.{reading_by};
    ghost use Rattle.logger_wire.specs.Value.{message_of as log_message_of};
    ghost use Rattle.forget_wire.specs.Value.{message_of};
    ghost use Rattle.ft_model.specs.Node.Input.{Message_comes};
    ghost use Rattle.lasting_laws.specs.LastingTurn.{LastingNode as Law};
    ghost use Rattle.lasting_laws.specs.LastingTurn.LastingInput.{Usual_comes, Forget_comes};
    ghost use Rattle.server_node.specs.StageTurns.{IsUnfenced, IsFenceOf};
    ghost use Rattle.lasting_lives.specs.Known.{EndsBy};
    ghost use Rattle.lasting_node.specs.Notes.{OnReceipt};
    ghost use Rattle.lasting_node.specs.Turns.{LastingStands, LastingTurns, message_said, sent_by, IsUnfencedLasting, IsFenceOfLasting};

    /// Takes the turn on a datagram from the logger's side.
    pub(crate) fn take_message(&mut self, alloc: Global, bytes: &[u8]) -> Result<(), TurnEnd>
        requires { self.old.is_own ≡ false }
        ensures turn { OnOk result (LastingTurns (message_said (grammar_in self.old.node.who) bytes.now) self.old self.new (sent_by self.new)) }
        ensures unfenced { OnOk result (IsUnfencedLasting self.old.node.who (message_said (grammar_in self.old.node.who) bytes.now)) }
        ensures fenced { IfErr result (IsFenceOfLasting self.old.node.who (message_said (grammar_in self.old.node.who) bytes.now)) }
        ensures memory { IsErrOf result TurnEnd.NoMemory → IsUnfencedLasting self.old.node.who (message_said (grammar_in self.old.node.who) bytes.now) }
        ensures same { (self.new.node.who ≡ self.old.node.who) × (self.new.patience ≡ self.old.patience) }
    {
        if let Ok(m) = read_forget(bytes) {
            self.receive_forget(&m);
            return Ok(());
        }
        match read_msg_by(self.node.who().profile.grammar(), bytes) {
            Ok(m) => self.take_log_message(alloc, &m, bytes),
            Err(_) => self.go(alloc, Input::Message(bytes)),
        }
    }

    /// Takes the turn on a message about forgetting: Forgotten with this boot number and the numbers of a connection that is done takes its place away.
    pub(crate) fn receive_forget(&mut self, m: &ForgetMsg)
        ensures turn { LastingTurns (Forget_comes (message_of m.now)) self.old self.new (sent_by self.new) }
        ensures same { (self.new.node.who ≡ self.old.node.who) × (self.new.patience ≡ self.old.patience) }
    {
        self.send_nothing();
        let ForgetBody::Forgotten(named) = m.body else {
            return;
        };
        if m.boot != self.node.who().boot {
            return;
        }
        if !self.node.is_serving() {
            return;
        }
        let Some(resting) = self.lives.resting(named.key) else {
            return;
        };
        if !resting.is_named(&named) {
            return;
        }
        self.node.apart();
        self.lives.forget(named.key);
        self.node.forget(named.key);
    }

    /// Takes the turn on a message of the log. Full drops the opening that it names, and nothing is sent: the log will have room again.
    fn take_log_message(&mut self, alloc: Global, m: &Msg<'_>, bytes: &[u8]) -> Result<(), TurnEnd>
        requires own { self.old.is_own ≡ false }
        requires read { reading_by (grammar_in self.old.node.who) bytes.now ≡ Ok (log_message_of m.now) }
        ensures turn { OnOk result (LastingTurns (Usual_comes (Message_comes (log_message_of m.now))) self.old self.new (sent_by self.new)) }
        ensures unfenced { OnOk result (IsUnfenced self.old.node.who (Message_comes (log_message_of m.now))) }
        ensures fenced { IfErr result (IsFenceOf self.old.node.who (Message_comes (log_message_of m.now))) }
        ensures memory { IsErrOf result TurnEnd.NoMemory → IsUnfenced self.old.node.who (Message_comes (log_message_of m.now)) }
        ensures same { (self.new.node.who ≡ self.old.node.who) × (self.new.patience ≡ self.old.patience) }
    {
        self.receive(alloc, m, bytes)?;
        if !is_full(&m.body) {
            return Ok(());
        }
        self.send_nothing();
        Ok(())
    }

    /// Lets the node take the turn on a message of the log, and notes what it has changed.
    fn receive(&mut self, alloc: Global, m: &Msg<'_>, bytes: &[u8]) -> Result<(), TurnEnd>
        requires { reading_by (grammar_in self.old.node.who) bytes.now ≡ Ok (log_message_of m.now) }
        ensures receipt { OnOk result (OnReceipt (log_message_of m.now) self.old self.new) }
        ensures unfenced { OnOk result (IsUnfenced self.old.node.who (Message_comes (log_message_of m.now))) }
        ensures fenced { IfErr result (IsFenceOf self.old.node.who (Message_comes (log_message_of m.now))) }
        ensures memory { IsErrOf result TurnEnd.NoMemory → IsUnfenced self.old.node.who (Message_comes (log_message_of m.now)) }
        ensures same { (self.new.node.who ≡ self.old.node.who) × (self.new.patience ≡ self.old.patience) × (self.new.is_own ≡ self.old.is_own) }
    {
        let ends = self.ended_by(m);
        let restarts = !self.node.is_serving();
        self.go(alloc, Input::Message(bytes))?;
        if m.boot != self.node.who().boot {
            return Ok(());
        }
        self.note(m, ends, restarts)?;
        Ok(())
    }

    /// The live connection that a message ends, with a quarantine that begins.
    fn ended_by(&self, m: &Msg<'_>) -> Option<Resting>
        ensures { (n : Law) → LastingStands (service_of S.Service self.now.node.who) n self.now → EndsBy n.node.stage (log_body_of m.now.body) result }
    {
        let Body::Ended { key } = m.body else {
            return None;
        };
        let conn = self.node.conn(key)?;
        Some(outside_of(key, conn).resting())
    }
}

/// Whether a body is Full.
pub(crate) fn is_full(body: &Body<'_>) -> bool
    ensures { result ≡ says_full (log_body_of body.now) }
{
    match body {
        Body::Full { .. } => true,
        _ => false,
    }
}
