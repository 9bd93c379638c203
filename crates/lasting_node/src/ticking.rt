//! A tick of a server that lasts: the node's own turn, then what is let go of and asked, place by place, and at last the Forgets.

ghost use Rattle.std.specs.Prelude.{◌≡◌, ◌++◌, [], IfErr, OnOk};

use crate::node::LastingNode;
use crate::outside::outside_of;
use ft_io::{Key, NoMemory};
use lasting_lives::Due;
use limits::PACKET;
use node_serving::{OutPacket, Turn, send_bare};
use segment_codec::{Head, write_packet};
use server_node::{Input, TurnEnd};
use server_trait::Saved;
use std::alloc::Global;

/// Appends packets.
fn append(packets: &[OutPacket], own: &mut Turn) -> Result<(), NoMemory>
    ensures { OnOk result (own.new.sent.items ≡ own.old.sent.items ++ packets.now) }
{
    for packet in packets {
        packet.sent_by_server();
        own.sent.send(own.alloc, packet.to(), packet.bytes())?;
    }
    Ok(())
}

impl<S: Saved> LastingNode<S> {
    ghost use Rattle.limits.specs.Limits.{most_units};
    ghost use Rattle.std.specs.Prelude.{◌≤◌, true, false, Some};
    ghost use Rattle.std.specs.Map.{keys_of};
    ghost use Rattle.seq_arith.specs.Value.{said};
    ghost use Rattle.ft_model.specs.Node.{Place, place_at};
    ghost use Rattle.ft_model.specs.Node.Input.{Tick_comes};
    ghost use Rattle.ft_model.specs.Node.Place.{Lives};
    ghost use Rattle.ft_model.specs.Point.{Point, taken_units};
    ghost use Rattle.long_laws.specs.LongTrace.{places_at, last_rst};
    ghost use Rattle.lasting_laws.specs.LastingTurn.{LastingNode as Law};
    ghost use Rattle.lasting_laws.specs.LastingTurn.LastingInput.{Usual_comes};
    ghost use Rattle.lasting_laws.specs.Watching.{is_let_go};
    ghost use Rattle.node_serving.specs.Identity.{service_of};
    ghost use Rattle.server_node.specs.Places.{slots_at, is_serving};
    ghost use Rattle.lasting_node.specs.Turns.{LastingStands, LastingTurns, known_of, sent_by};
    ghost use Rattle.lasting_node.specs.Tending.{TendsOne, TendsEach, SendsOnly, forget_due, forgets_due};

    /// Takes the turn at a tick.
    pub(crate) fn tick(&mut self, alloc: Global) -> Result<(), TurnEnd>
        requires { self.old.is_own ≡ false }
        ensures turn { OnOk result (LastingTurns (Usual_comes Tick_comes) self.old self.new (sent_by self.new)) }
        ensures fenced { IfErr result (λ end. end ≡ TurnEnd.NoMemory) }
        ensures same { (self.new.node.who ≡ self.old.node.who) × (self.new.patience ≡ self.old.patience) }
    {
        self.go(alloc, Input::Tick)?;
        if !self.node.is_serving() {
            return Ok(());
        }
        self.send_nothing();
        append(self.node.sent(), &mut self.own)?;
        self.lives.tick();
        self.tend_all(alloc)?;
        Ok(self.forget_all(alloc)?)
    }

    /// Lets go of the clients that are gone, and asks those that are silent, place by place.
    fn tend_all(&mut self, alloc: Global) -> Result<(), TurnEnd>
        requires { is_serving self.old.node.stage ≡ true }
        ensures turn { OnOk result ((n : Law) → LastingStands (service_of S.Service self.old.node.who) n self.old → TendsEach n self.old self.new) }
        ensures fenced { IfErr result (λ end. end ≡ TurnEnd.NoMemory) }
        ensures same { (self.new.node.who ≡ self.old.node.who) × (self.new.patience ≡ self.old.patience) × (self.new.is_own ≡ self.old.is_own) }
    {
        self.node.apart();
        for i in 0..self.node.places() {
            let Some(key) = self.node.key_at(i) else {
                return Ok(());
            };
            self.tend(alloc, key)?;
        }
        Ok(())
    }

    /// Lets go of a key's client, or asks it, if that is due.
    fn tend(&mut self, alloc: Global, key: Key) -> Result<(), TurnEnd>
        ensures turn { OnOk result ((n : Law) (place : Place) → LastingStands (service_of S.Service self.old.node.who) n self.old
            → place_at key (places_at n.node.stage) ≡ Some place → TendsOne n place self.old self.new) }
        ensures fenced { IfErr result (λ end. end ≡ TurnEnd.NoMemory) }
        ensures same { (self.new.node.who ≡ self.old.node.who) × (self.new.patience ≡ self.old.patience) × (self.new.is_own ≡ self.old.is_own) }
    {
        let Some(watch) = self.lives.watch(key) else {
            return Ok(());
        };
        let Some(conn) = self.node.conn(key) else {
            return Ok(());
        };
        let conn = outside_of(key, conn);
        let local = self.node.who().local;
        match watch.due(self.patience.silence, &conn) {
            Due::Nothing => Ok(()),
            Due::KeepAlive => Ok(send_bare(conn.keep_alive(local), &mut self.own)?),
            Due::LetGo => self.let_go(alloc, conn.last_rst(local)),
        }
    }

    /// Takes the node's turn on a RST that nobody sent: the last one of a live connection's client.
    #[tactic(auto, using(seq_arith::proofs::Units::options_short))]
    fn let_go(&mut self, alloc: Global, rst: Head) -> Result<(), TurnEnd>
        ensures turn { OnOk result ((n : Law) (p : Point) → LastingStands (service_of S.Service self.old.node.who) n self.old
            → place_at p.key (places_at n.node.stage) ≡ Some (Lives p) → taken_units p ≤ most_units
            → is_let_go self.old.patience.silence (n.watches p.key) p ≡ true
            → record { head = said rst; payload = [] } ≡ last_rst n.node.server p → TendsOne n (Lives p) self.old self.new) }
        ensures fenced { IfErr result (λ end. end ≡ TurnEnd.NoMemory) }
        ensures same { (self.new.node.who ≡ self.old.node.who) × (self.new.patience ≡ self.old.patience) × (self.new.is_own ≡ self.old.is_own) }
    {
        let mut text = [0; PACKET];
        let len = write_packet(&rst, &[], &mut text);
        self.node.apart();
        self.go(alloc, Input::Packet(&text[..len]))?;
        Ok(append(self.node.sent(), &mut self.own)?)
    }

    /// Sends Forget for each connection whose quarantine is over, place by place.
    fn forget_all(&mut self, alloc: Global) -> Result<(), NoMemory>
        ensures sent { OnOk result (self.new.own.sent.items
            ≡ self.old.own.sent.items ++ forgets_due self.old (keys_of (slots_at self.old.node.stage))) }
        ensures only { SendsOnly self.old self.new }
        ensures own { self.new.is_own ≡ self.old.is_own }
    {
        for i in 0..self.node.places() {
            let Some(key) = self.node.key_at(i) else {
                return Ok(());
            };
            self.forget_one(alloc, key)?;
        }
        Ok(())
    }

    /// Sends Forget for a key's connection, if its quarantine is over.
    fn forget_one(&mut self, alloc: Global, key: Key) -> Result<(), NoMemory>
        ensures sent { OnOk result (self.new.own.sent.items ≡ self.old.own.sent.items ++ forget_due self.old (known_of self.old key)) }
        ensures only { SendsOnly self.old self.new }
        ensures own { self.new.is_own ≡ self.old.is_own }
    {
        let Some(resting) = self.lives.resting(key) else {
            return Ok(());
        };
        if !resting.is_leaving(self.patience.wait) {
            return Ok(());
        }
        self.send_forget(alloc, resting.named)
    }
}
