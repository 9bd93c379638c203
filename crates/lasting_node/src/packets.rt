//! A turn of a server that lasts on a datagram from the clients' side.

ghost use Rattle.std.specs.Prelude.{◌≡◌, IfErr, OnOk};
ghost use Rattle.seq_arith.specs.PacketGrammar.{reading};
ghost use Rattle.segment_codec.specs.Value.{segment_of};
ghost use Rattle.ft_model.specs.Node.{is_for as is_for_lem};

use crate::node::LastingNode;
use ft_io::Addr;
use segment_codec::{PacketRef, read_packet};
use server_node::{Input, TurnEnd};
use server_trait::Saved;
use std::alloc::Global;

impl<S: Saved> LastingNode<S> {
    ghost use Rattle.std.specs.Prelude.{true, false, Ok};
    ghost use Rattle.ft_model.specs.Node.Input.{Packet_comes};
    ghost use Rattle.ft_model.specs.World.{segment_or_noise};
    ghost use Rattle.lasting_laws.specs.LastingTurn.LastingInput.{Usual_comes};
    ghost use Rattle.server_node.specs.Places.{is_serving};
    ghost use Rattle.lasting_node.specs.Turns.{LastingTurns, sent_by};

    /// Takes the turn on a datagram from the clients' side.
    pub(crate) fn take_packet(&mut self, alloc: Global, bytes: &[u8]) -> Result<(), TurnEnd>
        requires { self.old.is_own ≡ false }
        ensures turn { OnOk result (LastingTurns (Usual_comes (segment_or_noise (reading bytes.now))) self.old self.new (sent_by self.new)) }
        ensures fenced { IfErr result (λ end. end ≡ TurnEnd.NoMemory) }
        ensures same { (self.new.node.who ≡ self.old.node.who) × (self.new.patience ≡ self.old.patience) }
    {
        let Ok(segment) = read_packet(bytes) else {
            return self.go(alloc, Input::Packet(bytes));
        };
        if !is_for(self.node.who().local, &segment) {
            return self.go(alloc, Input::Packet(bytes));
        }
        if !self.node.is_serving() {
            return self.go(alloc, Input::Packet(bytes));
        }
        self.take_segment(alloc, &segment, bytes)
    }

    /// Takes the turn on a segment for this server. One of a connection that is leaving is dropped, and so is the SYN of a new connection, which ends the
    /// quarantine of the old one.
    pub(crate) fn take_segment(
        &mut self,
        alloc: Global,
        segment: &PacketRef<'_>,
        bytes: &[u8],
    ) -> Result<(), TurnEnd>
        requires own { self.old.is_own ≡ false }
        requires read { reading bytes.now ≡ Ok (segment_of segment.now) }
        requires ours { is_for_lem self.old.node.who.local (segment_of segment.now) ≡ true }
        requires serving { is_serving self.old.node.stage ≡ true }
        ensures turn { OnOk result (LastingTurns (Usual_comes (Packet_comes (segment_of segment.now))) self.old self.new (sent_by self.new)) }
        ensures fenced { IfErr result (λ end. end ≡ TurnEnd.NoMemory) }
        ensures same { (self.new.node.who ≡ self.old.node.who) × (self.new.patience ≡ self.old.patience) }
    {
        let key = segment.head.sender();
        let Some(resting) = self.lives.resting(key) else {
            self.lives.receive(key);
            return self.go(alloc, Input::Packet(bytes));
        };
        if resting.is_leaving(self.patience.wait) {
            self.send_nothing();
            return Ok(());
        }
        if resting.is_before(&segment.head) {
            self.lives.leave(key, self.patience.wait);
            self.send_nothing();
            return Ok(self.send_forget(alloc, resting.named)?);
        }
        self.go(alloc, Input::Packet(bytes))
    }
}

/// Whether a segment is for this server.
fn is_for(local: Addr, segment: &PacketRef<'_>) -> bool
    ensures { result ≡ is_for_lem local (segment_of segment.now) }
{
    let head = &segment.head;
    head.dst == local.ip && head.dport == local.port
}
