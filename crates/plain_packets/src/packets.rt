//! All packets that were sent, in order.

ghost use Rattle.std.specs.Prelude.{◌≡◌, [], ◌∷◌, ◌++◌, length, option_copied, OnOk};
ghost use Rattle.ft_model.specs.Network.Packet.{To_server, To_client, To_logger, From_logger};
ghost use Rattle.seq_arith.specs.declared.kinds.Grammar.TheVariants.{Wide};
ghost use Rattle.logger_wire.specs.Value.{message_of};
ghost use Rattle.segment_codec.specs.Value.{segment_of};
ghost use Rattle.seq_arith.specs.MessageGrammar as messages;
ghost use Rattle.seq_arith.specs.PacketGrammar as segments;
ghost use Rattle.plain_packets.specs.Parties.{from_of, to_of};
ghost use Rattle.plain_packets.specs.Sent.{Appends, wire_at};

use crate::message::spelled;
use crate::path::Path;
use crate::segment_bytes::{fits_packet, segment_bytes};
use crate::wire::PlainWire;
use ft_io::{Key, NoMemory};
use logger_wire::Msg;
use segment_codec::PacketRef;
use std::alloc::Global;
use std::marker::Model;

/// Packets in the order in which they were sent, numbered from 1.
#[derive(Drop)]
pub struct PlainPackets {
    wires: Vec<PlainWire>,
}

impl Model for PlainPackets {
    ghost use Rattle.std.specs.Prelude.{List};
    ghost use Rattle.ft_model.specs.Wire.{Wire};

    ghost Value = { List Wire };

    ghost view = { λ p. p.wires.items };
}

impl PlainPackets {
    /// Creates an empty list of packets. Allocates nothing.
    pub fn new(alloc: Global) -> PlainPackets
        ensures { result ≡ [] }
    {
        PlainPackets {
            wires: Vec::new(alloc),
        }
    }

    /// Returns how many packets there are.
    pub fn len(&self) -> usize
        ensures { result ≡ length self.now }
    {
        self.wires.len()
    }

    /// Returns packet `n`, counted from 1, or `None` if no such packet was sent.
    pub fn get(&self, n: u32) -> Option<&PlainWire>
        ensures { option_copied result ≡ wire_at self.now n }
    {
        if n == 0 {
            return None;
        }
        self.wires.get(n as usize - 1)
    }

    /// Returns the packets, in order.
    pub fn as_slice(&self) -> &[PlainWire]
        ensures { result.now ≡ self.now }
    {
        self.wires.as_slice()
    }

    /// Appends these packets. After `NoMemory` the list may only be dropped.
    pub fn append(&mut self, more: PlainPackets) -> Result<(), NoMemory>
        ensures { OnOk result (self.new ≡ self.old ++ more) }
    {
        let mut more = more;
        self.wires.append(&mut more.wires)?;
        Ok(())
    }

    /// Appends one packet.
    fn push(&mut self, path: Path, bytes: Vec<u8>) -> Result<(), NoMemory>
        ensures { OnOk result (self.new ≡ self.old ++ record { from = from_of path; to = to_of path; bytes = bytes.items } ∷ []) }
    {
        self.wires.push(PlainWire::new(path, bytes))?;
        Ok(())
    }

    /// Appends a segment in its spelling, if it fits a packet.
    fn push_segment(
        &mut self,
        alloc: Global,
        path: Path,
        segment: &PacketRef<'_>,
    ) -> Result<(), NoMemory>
        ensures { OnOk result (segments.IsSpellable (segment_of segment.now)
            → self.new ≡ self.old ++ record { from = from_of path; to = to_of path; bytes = segments.spelling (segment_of segment.now) } ∷ []) }
    {
        if !fits_packet(segment) {
            return Ok(());
        }
        let bytes = segment_bytes(alloc, segment)?;
        self.push(path, bytes)
    }

    /// Appends a message in its spelling, if it has one.
    fn push_message(&mut self, alloc: Global, path: Path, msg: &Msg<'_>) -> Result<(), NoMemory>
        ensures { OnOk result (messages.IsSpellableBy Wide (message_of msg.now)
            → self.new ≡ self.old ++ record { from = from_of path; to = to_of path; bytes = messages.spelling_by Wide (message_of msg.now) } ∷ []) }
    {
        match spelled(alloc, msg)? {
            Some(bytes) => self.push(path, bytes),
            None => Ok(()),
        }
    }

    /// Sends a segment from the server to the client at its destination. After `NoMemory` the list may only be dropped.
    #[tactic(auto, using(crate::proofs::Sent::one_follows))]
    pub fn send_to_client(&mut self, alloc: Global, segment: &PacketRef<'_>) -> Result<(), NoMemory>
        ensures { OnOk result (Appends self.old self.new (To_client (segment_of segment.now) ∷ [])) }
    {
        let key = Key {
            ip: segment.head.dst,
            port: segment.head.dport,
        };
        self.push_segment(alloc, Path::ToClient(key), segment)
    }

    /// Sends a segment from the client at its source to the server. After `NoMemory` the list may only be dropped.
    #[tactic(auto, using(crate::proofs::Sent::one_follows))]
    pub fn send_to_server(&mut self, alloc: Global, segment: &PacketRef<'_>) -> Result<(), NoMemory>
        ensures { OnOk result (Appends self.old self.new (To_server (segment_of segment.now) ∷ [])) }
    {
        let key = Key {
            ip: segment.head.src,
            port: segment.head.sport,
        };
        self.push_segment(alloc, Path::ToServer(key), segment)
    }

    /// Sends a message from the server to the logger. After `NoMemory` the list may only be dropped.
    #[tactic(auto, using(crate::proofs::Sent::one_follows))]
    pub fn send_to_logger(&mut self, alloc: Global, msg: &Msg<'_>) -> Result<(), NoMemory>
        ensures { OnOk result (Appends self.old self.new (To_logger (message_of msg.now) ∷ [])) }
    {
        self.push_message(alloc, Path::ToLogger, msg)
    }

    /// Sends a message from the logger to the server. After `NoMemory` the list may only be dropped.
    #[tactic(auto, using(crate::proofs::Sent::one_follows))]
    pub fn send_from_logger(&mut self, alloc: Global, msg: &Msg<'_>) -> Result<(), NoMemory>
        ensures { OnOk result (Appends self.old self.new (From_logger (message_of msg.now) ∷ [])) }
    {
        self.push_message(alloc, Path::FromLogger, msg)
    }
}
