//! The network: all packets that were ever sent, and which of them are lost for good.

ghost use Rattle.std.specs.Prelude.{◌≡◌, [], OnOk, option_copied};
ghost use Rattle.schedule_network.specs.AtNumber.{at_number};
ghost use Rattle.schedule_network.specs.StoredPackets.{no_packets};
ghost use Rattle.lasting_world.specs.NetworkView.{AddsPacket, LosesAll, about_at, is_lost_at as is_lost_lem};

use ft_io::{Key, NoMemory};
use ft_model::Way;
use indexmap::IndexMap;
use schedule_network::Packets;
use std::alloc::Global;

/// The packets, in the order in which they were sent.
#[derive(Drop)]
pub struct Network {
    pub packets: Packets,
    /// The key that each packet concerns, if it concerns one.
    pub about: Vec<Option<Key>>,
    /// Up to which number the packets of a key are lost.
    pub lost: IndexMap<Key, usize>,
}

impl Network {
    /// Nothing was sent. Nothing is allocated.
    pub fn new(alloc: Global) -> Network
        ensures { (result.packets ≡ no_packets) × (result.about.items ≡ []) × (result.lost.entries ≡ []) }
    {
        Network {
            packets: Packets::new(alloc),
            about: Vec::new(alloc),
            lost: IndexMap::new(alloc),
        }
    }

    /// Returns the bytes of packet `n`, counted from 1, or `None` if no such packet was sent.
    pub fn bytes(&self, n: u32) -> Option<&[u8]>
        ensures { option_copied result ≡ at_number self.now.packets.bytes n }
    {
        self.packets.bytes(n)
    }

    /// Returns the direction of packet `n`, counted from 1, or `None` if no such packet was sent.
    pub fn way(&self, n: u32) -> Option<Way>
        ensures { result ≡ at_number self.now.packets.ways n }
    {
        self.packets.way(n)
    }

    /// Returns the key that packet `n`, counted from 1, concerns, if it concerns one.
    pub fn about(&self, n: u32) -> Option<Key>
        ensures { result ≡ about_at n self.now }
    {
        if n == 0 {
            return None;
        }
        match self.about.get(n as usize - 1) {
            Some(about) => *about,
            None => None,
        }
    }

    /// Appends a packet about the connection of a key, or about none.
    pub fn push(&mut self, way: Way, about: Option<Key>, bytes: &[u8]) -> Result<(), NoMemory>
        ensures { OnOk result (AddsPacket way about bytes.now self.old self.new) }
    {
        self.about.push(about)?;
        self.packets.push(way, bytes)
    }

    /// All packets so far that concern a key are lost.
    pub fn lose(&mut self, key: Key) -> Result<(), NoMemory>
        ensures { OnOk result (LosesAll key self.old self.new) }
    {
        let count = self.about.len();
        drop(self.lost.insert(key, count)?);
        Ok(())
    }

    /// Whether packet `n`, counted from 1, is lost.
    pub fn is_lost(&self, n: u32) -> bool
        ensures { result ≡ is_lost_lem n self.now }
    {
        let Some(key) = self.about(n) else {
            return false;
        };
        match self.lost.get(&key) {
            Some(upto) => n as usize <= *upto,
            None => false,
        }
    }
}
