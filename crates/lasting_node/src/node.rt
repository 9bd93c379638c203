//! A server that lasts, and its turn.

ghost use Rattle.std.specs.Prelude.{◌≡◌, ◌≤◌, map, IfErr, IfOk, IfSome, IsErrOf, OnOk, option_copied};
ghost use Rattle.tcp_rules.specs.Profiles.{profile_of};
ghost use Rattle.ft_model.specs.Lawful.{hello};
ghost use Rattle.ft_model.specs.Node.{booted};
ghost use Rattle.ft_model.specs.Wire.{wire_by};
ghost use Rattle.lasting_laws.specs.LastingTurn.{booted_to_last};

use crate::patience::Patience;
use forget_wire::{ForgetBody, ForgetMsg, Named, write_forget};
use ft_io::{Key, NoMemory};
use lasting_lives::Lives;
use node_serving::{Identity, OutPacket, To, Turn};
use server_node::{Input, Node, TurnEnd};
use server_trait::{Saved, Service};
use std::alloc::Global;
use wrapped_conn::Conn;

/// A server that lasts.
#[derive(Drop)]
pub struct LastingNode<S: Service> {
    pub(crate) node: Node<S>,
    pub(crate) patience: Patience,
    pub(crate) lives: Lives,
    /// What the last turn sent, if that isn't what its node sent.
    pub(crate) own: Turn,
    /// Whether the last turn's packets are in `own`.
    pub(crate) is_own: bool,
    ghost waits: { 1 ≤ patience.wait },
    ghost counts: { patience.wait ≤ 4294967295 },
    ghost bounded: { patience.silence ≤ 100000000 },
}

impl<S: Saved> LastingNode<S> {
    ghost use Rattle.node_serving.specs.Identity.{service_of, grammar_in};
    ghost use Rattle.node_serving.specs.Loan.{IsConnAt, place_in};
    ghost use Rattle.std.specs.Prelude.{◌∷◌, ◌++◌, [], true};
    ghost use Rattle.long_laws.specs.Forgetting.{forget};
    ghost use Rattle.forget_wire.specs.Value.{named_said};
    ghost use Rattle.lasting_laws.specs.LastingTurn.{LastingNode as Law};
    ghost use Rattle.lasting_node.specs.Tending.{SendsOnly};
    ghost use Rattle.lasting_node.specs.Turns.{LastingStands, LastingTurns, lasting_input_of, sent_by, forget_wire, NodeProceeds, GoesAlone};
    ghost use Rattle.lasting_node.specs.Turns.{IsUnfencedLasting, IsFenceOfLasting};
    ghost use Rattle.server_node.specs.Inputs.{input_of};
    ghost use Rattle.server_node.specs.StageTurns.{IsUnfenced, IsFenceOf};
    ghost use Rattle.wrapped_conn.specs.Sound.{IsSound};

    /// Boots a server, without marks. It has then sent Hello.
    pub fn boot(
        alloc: Global,
        who: Identity,
        patience: Patience,
    ) -> Result<LastingNode<S>, NoMemory>
        requires boot { 1 ≤ who.boot }
        requires wait { 1 ≤ patience.wait }
        requires silence { patience.silence ≤ 100000000 }
        ensures stands { IfOk result (λ n. LastingStands (service_of S.Service who) (booted_to_last who.local (profile_of who.profile) who.boot who.isn) n) }
        ensures hello { IfOk result (λ n. sent_by n ≡ map (wire_by (grammar_in who)) (hello (booted who.local (profile_of who.profile) who.boot who.isn))) }
        ensures same { IfOk result (λ n. (n.patience ≡ patience) × (n.node.who ≡ who)) }
    {
        let node = Node::boot_in(
            alloc,
            who.profile,
            who.boot,
            who.isn,
            who.kind,
            who.local,
            0,
        )?;
        Ok(LastingNode {
            node,
            patience,
            lives: Lives::new(alloc),
            own: Turn::new(alloc)?,
            is_own: false,
        })
    }

    /// What never changes in this incarnation.
    pub fn who(&self) -> Identity
        ensures { result ≡ self.now.node.who }
    {
        self.node.who()
    }

    /// The connection of a key, while it is live. It is at the point that the law has for the key, and each of its calls may be made.
    pub fn conn(&self, key: Key) -> Option<&Conn<S>>
        ensures stands { (n : Law) → LastingStands (service_of S.Service self.now.node.who) n self.now
            → IsConnAt (service_of S.Service self.now.node.who) n.node (option_copied result) (place_in key n.node.stage) }
        ensures sound { IfSome result (λ c. IsSound c.now) }
    {
        self.node.conn(key)
    }

    /// What the boot or the last turn sent.
    pub fn sent(&self) -> &[OutPacket]
        ensures { result.now ≡ sent_by self.now }
    {
        if self.is_own {
            return self.own.sent.as_slice();
        }
        self.node.sent()
    }

    /// Takes one turn. It is one of a server that lasts by the law, if, where its node takes a turn, a packet to a live connection is near and a fetched entry
    /// is sound. After an error the server may only be dropped: a Stale of its boot that names a larger boot number ends it by `Fenced`, and nothing else does.
    pub fn turn(&mut self, alloc: Global, input: Input<'_>) -> Result<(), TurnEnd>
        ensures turn { OnOk result (LastingTurns (lasting_input_of (grammar_in self.old.node.who) input.entry) self.old self.new (sent_by self.new)) }
        ensures unfenced { OnOk result (IsUnfencedLasting self.old.node.who (lasting_input_of (grammar_in self.old.node.who) input.entry)) }
        ensures fenced { IfErr result (IsFenceOfLasting self.old.node.who (lasting_input_of (grammar_in self.old.node.who) input.entry)) }
        ensures memory { IsErrOf result TurnEnd.NoMemory → IsUnfencedLasting self.old.node.who (lasting_input_of (grammar_in self.old.node.who) input.entry) }
        ensures same { (self.new.node.who ≡ self.old.node.who) × (self.new.patience ≡ self.old.patience) }
    {
        self.is_own = false;
        match input {
            Input::Packet(bytes) => self.take_packet(alloc, bytes),
            Input::Message(bytes) => self.take_message(alloc, bytes),
            Input::Tick => self.tick(alloc),
        }
    }

    /// Lets the node take its turn.
    pub(crate) fn go(&mut self, alloc: Global, input: Input<'_>) -> Result<(), TurnEnd>
        ensures turn { OnOk result (NodeProceeds (input_of (grammar_in self.old.node.who) input.entry) self.old self.new) }
        ensures unfenced { OnOk result (IsUnfenced self.old.node.who (input_of (grammar_in self.old.node.who) input.entry)) }
        ensures fenced { IfErr result (IsFenceOf self.old.node.who (input_of (grammar_in self.old.node.who) input.entry)) }
        ensures memory { IsErrOf result TurnEnd.NoMemory → IsUnfenced self.old.node.who (input_of (grammar_in self.old.node.who) input.entry) }
        ensures alone { GoesAlone self.old self.new }
    {
        self.node.apart();
        self.node.advance(alloc, input)?;
        self.node.apart();
        Ok(())
    }

    /// Replaces what the turn sends by nothing.
    pub(crate) fn send_nothing(&mut self)
        ensures same { SendsOnly self.old self.new }
        ensures nothing { self.new.own.sent.items ≡ [] }
        ensures own { self.new.is_own ≡ true }
    {
        self.own.sent.clear();
        self.is_own = true;
    }

    /// Appends Forget to what the turn sends.
    pub(crate) fn send_forget(&mut self, alloc: Global, named: Named) -> Result<(), NoMemory>
        ensures same { SendsOnly self.old self.new }
        ensures sent { OnOk result (self.new.own.sent.items ≡ self.old.own.sent.items ++ forget_wire (forget self.old.node.who.boot (named_said named)) ∷ []) }
        ensures own { self.new.is_own ≡ self.old.is_own }
    {
        let boot = self.node.who().boot;
        let body = ForgetBody::Forget(named);
        self.own.sent.send(alloc, To::Logger, &write_forget(&ForgetMsg { boot, body }))
    }
}
