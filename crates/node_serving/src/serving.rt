//! The stage of a node that serves.

ghost use Rattle.std.specs.Prelude.{◌≡◌, ◌≤◌, Ok, None, IsSome, OnOk, true, false, length};
ghost use Rattle.std.specs.Map.{lookup};
ghost use Rattle.ft_io.specs.Key.{key_eq};
ghost use Rattle.seq_arith.specs.PacketGrammar.{reading};
ghost use Rattle.segment_codec.specs.Value.{segment_of};
ghost use Rattle.logger_wire.specs.Value.{message_of, IsSendableBy};
ghost use Rattle.ft_model.specs.Network.{source_of};
ghost use Rattle.ft_model.specs.Node.{Stage as Standing, is_for};
ghost use Rattle.ft_model.specs.Node.Input.{Packet_comes, Message_comes, Tick_comes};
ghost use Rattle.node_serving.specs.Clients.{KnowsOn};
ghost use Rattle.node_serving.specs.Identity.{node_of, grammar_in};
ghost use Rattle.node_serving.specs.Openings.{IsCounted};
ghost use Rattle.node_serving.specs.Slots.{AllSound};
ghost use Rattle.node_serving.specs.Turns.{ServingTurns, ServingTurnsAlone};

use crate::arrivals::receive;
use crate::identity::Identity;
use crate::opening::{admit, ask_again, ask_all};
use crate::refusal::refuse_unknown;
use crate::slot::Slot;
use crate::slots::{serve_known, tick_all};
use crate::turn::Turn;
use ft_io::{Addr, Key, NoMemory};
use indexmap::IndexMap;
use logger_wire::Msg;
use segment_codec::PacketRef;
use seq_arith::Seq;
use server_trait::Service;

/// The most bytes of a short packet.
const SHORT_PACKET: usize = 128;

/// A node that serves: what it has for each key that it knows, in the order of the log and then of the SYNs.
#[derive(Drop)]
pub struct Serving<S: Service> {
    /// The initial sequence number of the next connection.
    pub next: Seq,
    pub slots: IndexMap<Key, Slot<S>>,
}

/// Passes a tick to all connections, and asks again for each pending opening.
pub fn serve_tick<S: Service>(
    who: Identity,
    serving: &mut Serving<S>,
    turn: &mut Turn,
) -> Result<(), NoMemory>
    requires boot { 1 ≤ who.boot }
    requires sound { AllSound who serving.old.slots.entries }
    requires counted { IsCounted who.isn serving.old.next.0 }
    ensures turn { OnOk result (ServingTurns S.Service who Tick_comes serving.old serving.new turn.old turn.new) }
    ensures alone { OnOk result (ServingTurnsAlone S.Service who Tick_comes serving.old serving.new turn.old turn.new) }
    ensures known { OnOk result ((standing : Standing) → KnowsOn (node_of who standing) Tick_comes serving.old serving.new) }
    ensures sound { OnOk result (AllSound who serving.new.slots.entries) }
    ensures counted { OnOk result (IsCounted who.isn serving.new.next.0) }
{
    tick_all(who, &mut serving.slots, turn)?;
    ask_all(who, &serving.slots, turn)
}

/// Handles a message of this boot.
pub fn serve_message<S: Service>(
    who: Identity,
    m: &Msg<'_>,
    serving: &mut Serving<S>,
    turn: &mut Turn,
) -> Result<(), NoMemory>
    requires boot { 1 ≤ who.boot }
    requires sendable { IsSendableBy (grammar_in who) m.now }
    requires sound { AllSound who serving.old.slots.entries }
    requires counted { IsCounted who.isn serving.old.next.0 }
    ensures turn { OnOk result (m.now.boot ≡ who.boot
        → ServingTurns S.Service who (Message_comes (message_of m.now)) serving.old serving.new turn.old turn.new) }
    ensures alone { OnOk result (m.now.boot ≡ who.boot
        → ServingTurnsAlone S.Service who (Message_comes (message_of m.now)) serving.old serving.new turn.old turn.new) }
    ensures known { OnOk result (m.now.boot ≡ who.boot
        → (standing : Standing) → KnowsOn (node_of who standing) (Message_comes (message_of m.now)) serving.old serving.new) }
    ensures sound { OnOk result (AllSound who serving.new.slots.entries) }
    ensures counted { OnOk result (IsCounted who.isn serving.new.next.0) }
{
    receive(who, m, &mut serving.slots, turn)
}

/// Whether a segment is for this server.
pub(crate) fn is_for(local: Addr, segment: &PacketRef<'_>) -> bool
    ensures { result ≡ is_for local (segment_of segment.now) }
{
    let head = &segment.head;
    head.dst == local.ip && head.dport == local.port
}

/// Handles a packet as `serve_packet` does, on a copy, whose numbers the connection changes in place. A short packet is copied into a short buffer, which takes
/// less time to clear.
#[tactic(auto, using(crate::proofs::Came::packet_fits))]
pub fn serve_bytes<S: Service>(
    who: Identity,
    segment: &PacketRef<'_>,
    packet: &[u8],
    serving: &mut Serving<S>,
    turn: &mut Turn,
) -> Result<(), NoMemory>
    requires boot { 1 ≤ who.boot }
    requires read { reading packet.now ≡ Ok (segment_of segment.now) }
    requires sound { AllSound who serving.old.slots.entries }
    requires counted { IsCounted who.isn serving.old.next.0 }
    ensures turn { OnOk result (ServingTurns S.Service who (Packet_comes (segment_of segment.now)) serving.old serving.new turn.old turn.new) }
    ensures alone { OnOk result (ServingTurnsAlone S.Service who (Packet_comes (segment_of segment.now)) serving.old serving.new turn.old turn.new) }
    ensures known { OnOk result ((standing : Standing) → KnowsOn (node_of who standing) (Packet_comes (segment_of segment.now)) serving.old serving.new) }
    ensures untouched { OnOk result (is_for who.local (segment_of segment.now) ≡ false
        → (serving.new ≡ serving.old) × (turn.new.sent.items ≡ turn.old.sent.items)) }
    ensures sound { OnOk result (AllSound who serving.new.slots.entries) }
    ensures counted { OnOk result (IsCounted who.isn serving.new.next.0) }
{
    if packet.len() <= SHORT_PACKET {
        return serve_packet(who, segment, copied(packet, &mut [0; 128]), serving, turn);
    }
    serve_packet(
        who,
        segment,
        copied(packet, &mut [0; limits::PACKET]),
        serving,
        turn,
    )
}

/// Copies a packet to the beginning of this buffer, and returns the copy.
fn copied<'a>(packet: &[u8], room: &'a mut [u8]) -> &'a mut [u8]
    requires { length packet.now ≤ length room.old }
    ensures { result.now ≡ packet.now }
{
    let text = &mut room[..packet.len()];
    text.copy_from_slice(packet);
    text
}

/// Handles a packet that the codec has read. `packet` has its bytes, which the connection changes in place.
pub(crate) fn serve_packet<S: Service>(
    who: Identity,
    segment: &PacketRef<'_>,
    packet: &mut [u8],
    serving: &mut Serving<S>,
    turn: &mut Turn,
) -> Result<(), NoMemory>
    requires boot { 1 ≤ who.boot }
    requires read { reading packet.old ≡ Ok (segment_of segment.now) }
    requires sound { AllSound who serving.old.slots.entries }
    requires counted { IsCounted who.isn serving.old.next.0 }
    ensures turn { OnOk result (ServingTurns S.Service who (Packet_comes (segment_of segment.now)) serving.old serving.new turn.old turn.new) }
    ensures alone { OnOk result (ServingTurnsAlone S.Service who (Packet_comes (segment_of segment.now)) serving.old serving.new turn.old turn.new) }
    ensures known { OnOk result ((standing : Standing) → KnowsOn (node_of who standing) (Packet_comes (segment_of segment.now)) serving.old serving.new) }
    ensures untouched { OnOk result (is_for who.local (segment_of segment.now) ≡ false
        → (serving.new ≡ serving.old) × (turn.new.sent.items ≡ turn.old.sent.items)) }
    ensures sound { OnOk result (AllSound who serving.new.slots.entries) }
    ensures counted { OnOk result (IsCounted who.isn serving.new.next.0) }
{
    if !is_for(who.local, segment) {
        return Ok(());
    }
    if serving.slots.contains_key(&segment.head.sender()) {
        serve_known_client(who, segment, packet, serving, turn)
    } else {
        serve_strange(who, segment, serving, turn)
    }
}

/// Handles a packet of a known client.
fn serve_known_client<S: Service>(
    who: Identity,
    segment: &PacketRef<'_>,
    packet: &mut [u8],
    serving: &mut Serving<S>,
    turn: &mut Turn,
) -> Result<(), NoMemory>
    requires boot { 1 ≤ who.boot }
    requires read { reading packet.old ≡ Ok (segment_of segment.now) }
    requires sound { AllSound who serving.old.slots.entries }
    requires counted { IsCounted who.isn serving.old.next.0 }
    requires known { IsSome (lookup (key_eq (source_of (segment_of segment.now))) serving.old.slots.entries) }
    ensures turn { OnOk result (is_for who.local (segment_of segment.now) ≡ true
        → ServingTurns S.Service who (Packet_comes (segment_of segment.now)) serving.old serving.new turn.old turn.new) }
    ensures alone { OnOk result (is_for who.local (segment_of segment.now) ≡ true
        → ServingTurnsAlone S.Service who (Packet_comes (segment_of segment.now)) serving.old serving.new turn.old turn.new) }
    ensures known { OnOk result (is_for who.local (segment_of segment.now) ≡ true
        → (standing : Standing) → KnowsOn (node_of who standing) (Packet_comes (segment_of segment.now)) serving.old serving.new) }
    ensures sound { OnOk result (AllSound who serving.new.slots.entries) }
    ensures counted { OnOk result (IsCounted who.isn serving.new.next.0) }
{
    serve_known(who, segment, &mut serving.slots, packet, turn)?;
    ask_again(who, segment, &serving.slots, turn)
}

/// Handles a packet of an unknown client: it may get a RST, and a SYN may open a connection.
fn serve_strange<S: Service>(
    who: Identity,
    segment: &PacketRef<'_>,
    serving: &mut Serving<S>,
    turn: &mut Turn,
) -> Result<(), NoMemory>
    requires boot { 1 ≤ who.boot }
    requires sound { AllSound who serving.old.slots.entries }
    requires counted { IsCounted who.isn serving.old.next.0 }
    requires strange { lookup (key_eq (source_of (segment_of segment.now))) serving.old.slots.entries ≡ None }
    ensures turn { OnOk result (is_for who.local (segment_of segment.now) ≡ true
        → ServingTurns S.Service who (Packet_comes (segment_of segment.now)) serving.old serving.new turn.old turn.new) }
    ensures alone { OnOk result (is_for who.local (segment_of segment.now) ≡ true
        → ServingTurnsAlone S.Service who (Packet_comes (segment_of segment.now)) serving.old serving.new turn.old turn.new) }
    ensures known { OnOk result (is_for who.local (segment_of segment.now) ≡ true
        → (standing : Standing) → KnowsOn (node_of who standing) (Packet_comes (segment_of segment.now)) serving.old serving.new) }
    ensures sound { OnOk result (AllSound who serving.new.slots.entries) }
    ensures counted { OnOk result (IsCounted who.isn serving.new.next.0) }
{
    refuse_unknown(who, segment, turn)?;
    admit(who, segment, &mut serving.next, &mut serving.slots, turn)
}
