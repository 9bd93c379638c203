//! The node: one incarnation of the server.

ghost use Rattle.std.specs.Prelude.{◌≡◌, ◌≤◌, ◌+◌, ◌^◌, max, None, OnOk};
ghost use Rattle.server_trait.specs.Service.{machine};
ghost use Rattle.tcp_rules.specs.Profiles.{profile_of};
ghost use Rattle.ft_model.specs.Lawful.{hello, fence};
ghost use Rattle.ft_model.specs.Node as law;
ghost use Rattle.plain_packets.specs.Sent.{Appends};
ghost use Rattle.plain_world.specs.Served.{IsServedNode};
ghost use Rattle.plain_world.specs.NodeTurns.{TakesNodeTurn};
ghost use Rattle.plain_world.specs.Values.{input_in, IsReadInput, node_in, opened_in};

use crate::asking;
use crate::incarnation::Incarnation;
use crate::input::Input;
use crate::stage::PlainStage;
use ft_io::{Addr, NoMemory};
use plain_packets::PlainPackets;
use server_trait::Service;
use std::alloc::Global;
use std::marker::Model;
use tcp_rules::Profile;

/// One incarnation of the server, from its boot to its crash.
#[derive(Drop)]
pub struct PlainNode<S: Service> {
    who: Incarnation,
    stage: PlainStage<S>,
}

impl<S: Service> Model for PlainNode<S> {
    ghost use Rattle.tcp_rules.specs.Profiles.{profile_of};
    ghost use Rattle.plain_world.specs.Values.{NodeState};

    ghost Value = { NodeState S };

    ghost view = { λ n. record {
      kind = n.who.kind;
      server = n.who.server;
      profile = profile_of n.who.profile;
      boot = n.who.boot;
      isn = n.who.isn;
      stage = n.stage;
    } };
}

impl<S: Service> PlainNode<S> {
    /// Creates an incarnation at its boot. Allocates nothing.
    pub fn booted(kind: u8, server: Addr, profile: Profile, boot: u64, isn: u32) -> PlainNode<S>
        ensures node { node_in result ≡ law.booted server (profile_of profile) boot isn }
        ensures kind { result.kind ≡ kind }
        ensures served { IsServedNode (machine (S.started kind) S.after S.greeting) result }
        ensures few { opened_in result ≡ 0 }
    {
        PlainNode {
            who: Incarnation {
                kind,
                server,
                profile,
                boot,
                isn,
            },
            stage: PlainStage::Asking,
        }
    }

    /// Returns its boot number.
    pub fn boot(&self) -> u64
        ensures { result ≡ (node_in self.now).boot }
    {
        self.who.boot
    }

    /// Sends its Hello. After `NoMemory` the packets may only be dropped.
    pub fn send_hello(&self, alloc: Global, sent: &mut PlainPackets) -> Result<(), NoMemory>
        ensures { OnOk result (Appends sent.old sent.new (hello (node_in self.now))) }
    {
        asking::send_hello(alloc, self.who.boot, sent)
    }

    /// Takes one turn, on an input that doesn't fence it. After `NoMemory` the node may only be dropped.
    pub fn turn(
        &mut self,
        alloc: Global,
        input: &Input<'_>,
        sent: &mut PlainPackets,
    ) -> Result<(), NoMemory>
        requires served { IsServedNode (machine (S.started self.old.kind) S.after S.greeting) self.old }
        requires read { IsReadInput input.now }
        requires free { fence (node_in self.old) (input_in input.now) ≡ None }
        requires few { opened_in self.old ≤ 2 ^ 32 }
        ensures kind { self.new.kind ≡ self.old.kind }
        ensures served { OnOk result (IsServedNode (machine (S.started self.old.kind) S.after S.greeting) self.new) }
        ensures few { OnOk result (opened_in self.new ≤ max 65535 (opened_in self.old + 1)) }
        ensures turn { OnOk result (TakesNodeTurn (machine (S.started self.old.kind) S.after S.greeting) (node_in self.old) (input_in input.now)
            (node_in self.new) sent.old sent.new) }
    {
        self.stage.turn(alloc, self.who, input, sent)
    }
}
