//! All packets that were ever sent, one after another in one region.

ghost use Rattle.std.specs.Prelude.{◌≡◌, ◌<◌, [], ◌∷◌, length, slice_index, option_copied, OnOk};
ghost use Rattle.schedule_network.specs.AtNumber.{at_number};
ghost use Rattle.schedule_network.specs.StoredPackets.{with_packet, no_packets};

use ft_io::NoMemory;
use ft_model::Way;
use std::alloc::Global;
use std::marker::Model;

/// The packets in the order in which they were sent, numbered from 1: their bytes, where each of them ends, and their directions.
#[derive(Drop)]
pub struct Packets {
    bytes: Vec<u8>,
    ends: Vec<usize>,
    ways: Vec<Way>,
}

impl Model for Packets {
    ghost use Rattle.std.specs.Prelude.{◌≡◌, length};
    ghost use Rattle.tcp_endpoint.specs.Packets.{pieces, ClimbsTo};
    ghost use Rattle.schedule_network.specs.StoredPackets.{Carried};

    ghost Value = { Carried };

    ghost view = { λ p. record { ways = p.ways.items; bytes = pieces 0 p.ends.items p.bytes.items } };

    ghost invariant = { λ p. ClimbsTo 0 p.ends.items (length p.bytes.items) × (length p.ways.items ≡ length p.ends.items) };
}

impl Packets {
    /// Creates a store without packets. Allocates nothing.
    pub fn new(alloc: Global) -> Packets
        ensures { result ≡ no_packets }
    {
        Packets {
            bytes: Vec::new(alloc),
            ends: Vec::new(alloc),
            ways: Vec::new(alloc),
        }
    }

    /// Returns how many packets there are.
    #[tactic(auto, using(tcp_endpoint::proofs::Pieces::length_pieces))]
    pub fn len(&self) -> usize
        ensures { result ≡ length self.now.bytes }
    {
        self.ends.len()
    }

    /// Returns the bytes of packet `n`, counted from 1, or `None` if no such packet was sent.
    #[tactic(auto, using(tcp_endpoint::proofs::Pieces::length_pieces, tcp_endpoint::proofs::Pieces::bounds_at, tcp_endpoint::proofs::Pieces::piece_at))]
    pub fn bytes(&self, n: u32) -> Option<&[u8]>
        ensures { option_copied result ≡ at_number self.now.bytes n }
    {
        if n == 0 {
            return None;
        }
        let count = self.ends.len();
        if n as usize > count {
            return None;
        }
        let (start, end) = bounds(&self.ends, n as usize - 1);
        Some(&self.bytes[start..end])
    }

    /// Returns the direction of packet `n`, counted from 1, or `None` if no such packet was sent.
    pub fn way(&self, n: u32) -> Option<Way>
        ensures { result ≡ at_number self.now.ways n }
    {
        if n == 0 {
            return None;
        }
        self.ways.get(n as usize - 1).copied()
    }

    /// Appends a packet.
    #[tactic(auto, using(tcp_endpoint::proofs::Pieces::climbs_push, tcp_endpoint::proofs::Pieces::pieces_push))]
    pub fn push(&mut self, way: Way, bytes: &[u8]) -> Result<(), NoMemory>
        ensures { OnOk result (self.new ≡ with_packet self.old way bytes.now) }
    {
        self.ends.reserve(1)?;
        self.ways.reserve(1)?;
        self.bytes.extend_from_slice(bytes)?;
        self.ends.push(self.bytes.len()).unwrap();
        self.ways.push(way).unwrap();
        Ok(())
    }
}

/// Returns where packet `i`, counted from 0, begins and ends.
fn bounds(ends: &[usize], i: usize) -> (usize, usize)
    requires { i < length ends.now }
    ensures start { result.0 ≡ slice_index (0 ∷ ends.now) i }
    ensures end { result.1 ≡ slice_index ends.now i }
{
    let start = if i == 0 { 0 } else { ends[i - 1] };
    (start, ends[i])
}
