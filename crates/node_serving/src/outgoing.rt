//! What the node sends in a turn, in buffers that are reused from turn to turn.

ghost use Rattle.std.specs.Prelude.{◌≡◌, ◌+◌, ◌≤◌, ◌++◌, ◌∷◌, [], length, take, drop, filter, OnOk};
ghost use Rattle.node_serving.specs.SentBytes.{sent_to};
ghost use Rattle.conn_marks.specs.MarkSends.{is_done_wire, put_before};

use crate::out_packet::{OutPacket, To};
use ft_io::NoMemory;
use logger_wire::Grammar;
use std::alloc::Global;
use std::marker::Model;

/// The packets of a turn, in order. After them in the list are packets of earlier turns, whose buffers are reused. Contracts see only this turn's packets.
#[derive(Drop)]
pub struct Outgoing {
    packets: Vec<OutPacket>,
    /// How many are this turn's.
    count: usize,
}

impl Model for Outgoing {
    ghost use Rattle.std.specs.Prelude.{◌≤◌, length, take};
    ghost use Rattle.node_serving.specs.TurnPackets.{Packets};

    ghost Value = { Packets };

    ghost view = { λ o. record { items = take o.count o.packets.items } };

    ghost invariant = { λ o. o.count ≤ length o.packets.items };
}

impl Outgoing {
    /// No packets. Nothing is allocated.
    pub fn new(alloc: Global) -> Outgoing
        ensures { result.items ≡ [] }
    {
        Outgoing {
            packets: Vec::new(alloc),
            count: 0,
        }
    }

    /// Removes all packets, and keeps their buffers.
    pub fn clear(&mut self)
        ensures { self.new.items ≡ [] }
    {
        self.count = 0;
    }

    /// Appends a packet.
    pub fn send(&mut self, alloc: Global, to: To, bytes: &[u8]) -> Result<(), NoMemory>
        ensures { OnOk result (self.new.items ≡ self.old.items ++ sent_to to bytes.now ∷ []) }
    {
        put(alloc, &mut self.packets, self.count, to, bytes)?;
        self.count += 1;
        Ok(())
    }

    /// How many packets there are.
    pub fn len(&self) -> usize
        ensures { result ≡ length self.now.items }
    {
        self.count
    }

    /// How many of the packets after the first `from` say that a connection is done, where messages are in this grammar.
    pub(crate) fn dones_from(&self, grammar: Grammar, from: usize) -> usize
        requires { from ≤ length self.now.items }
        ensures value { result ≡ length (filter (is_done_wire grammar) (drop from self.now.items)) }
        ensures few { result ≤ length self.now.items }
    {
        count_dones(grammar, &self.as_slice()[from..])
    }

    /// Inserts a packet before the last `behind` packets.
    pub(crate) fn put(
        &mut self,
        alloc: Global,
        behind: usize,
        to: To,
        bytes: &[u8],
    ) -> Result<(), NoMemory>
        requires { behind ≤ length self.old.items }
        ensures { OnOk result (self.new.items ≡ put_before behind (sent_to to bytes.now ∷ []) self.old.items) }
    {
        let packet = OutPacket::new(alloc, to, bytes)?;
        self.packets.insert(self.count - behind, packet)?;
        self.count += 1;
        Ok(())
    }

    pub fn as_slice(&self) -> &[OutPacket]
        ensures { result.now ≡ self.now.items }
    {
        &self.packets[..self.count]
    }
}

/// Puts a packet after the first `count`: into the buffer there, if there is one.
#[tactic(auto, using(std::proofs::lemmas::List::take_more_set))]
fn put(
    alloc: Global,
    packets: &mut Vec<OutPacket>,
    count: usize,
    to: To,
    bytes: &[u8],
) -> Result<(), NoMemory>
    requires { count ≤ length packets.old.items }
    ensures sent { OnOk result (take (count + 1) packets.new.items ≡ take count packets.old.items ++ sent_to to bytes.now ∷ []) }
    ensures rooms { OnOk result (count + 1 ≤ length packets.new.items) }
    ensures kept { count ≤ length packets.new.items }
{
    if count < packets.len() {
        return packets[count].refill(to, bytes);
    }
    packets.push(OutPacket::new(alloc, to, bytes)?)?;
    Ok(())
}

/// How many of these packets say that a connection is done, where messages are in this grammar.
fn count_dones(grammar: Grammar, packets: &[OutPacket]) -> usize
    ensures value { result ≡ length (filter (is_done_wire grammar) packets.now) }
    ensures few { result ≤ length packets.now }
{
    let mut count = 0;
    for packet in packets {
        count += usize::from(packet.is_done(grammar));
    }
    count
}
