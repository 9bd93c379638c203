//! A live client and an endpoint of `listen`, joined by ways that lose, repeat and reorder. Each sends a text to the other.

ghost use Rattle.std.specs.Prelude.{◌≤◌, length};

use crate::clients::rules::SERVERS;
use crate::joined::{CLIENT, SERVER};
use ft_io::NoMemory;
use limits::STREAM;
use peer_client::{ClientEnd, LiveClient};
use segment_codec::read_packet;
use seq_arith::Seq;
use socket_layer::Socket;
use std::alloc::Global;
use tcp_endpoint::{Endpoint, Outbox};
use test_data::{Draws, Pattern};

/// How many bytes each sends.
const LENGTH: u32 = 100_000;

/// The client's text.
const CLIENTS: Pattern = Pattern::Numbers;

/// The most turns that each of the two takes.
const TURNS: u32 = 1_000_000;

/// A way that loses, repeats and reorders: the packets that may still arrive.
#[derive(Drop)]
struct Way {
    packets: Vec<Vec<u8>>,
}

impl Way {
    fn new(alloc: Global) -> Way {
        Way {
            packets: Vec::new(alloc),
        }
    }

    /// Puts what was sent on the way. One packet in six is lost.
    fn carry(&mut self, alloc: Global, out: &Outbox, draws: &mut Draws) -> Result<(), NoMemory> {
        for i in 0..out.len() {
            if draws.below(6) > 0 {
                self.packets.push(out.packet(i).to_vec(alloc)?)?;
            }
        }
        Ok(())
    }

    /// One of the first three packets arrives. One in six stays and may arrive again.
    fn arrival(&mut self, alloc: Global, draws: &mut Draws) -> Result<Option<Vec<u8>>, NoMemory> {
        let place = draws.below(3) as usize;
        if place >= self.packets.len() {
            return Ok(None);
        }
        if draws.below(6) == 0 {
            return Ok(Some(self.packets[place].to_vec(alloc)?));
        }
        Ok(Some(self.packets.remove(place)))
    }
}

/// What came of a text so far: how many bytes, and whether they are those that were written.
#[derive(Clone, Copy)]
struct Came {
    count: u32,
    same: bool,
}

impl Came {
    fn nothing() -> Came {
        Came {
            count: 0,
            same: true,
        }
    }

    /// The next bytes of this text come.
    fn take(&mut self, text: Pattern, bytes: &[u8])
        requires { length bytes.now ≤ 3000 }
    {
        self.same = self.same && text.is_part(self.count, bytes);
        self.count = self.count.saturating_add(bytes.len() as u32);
    }

    /// Whether the whole text came as it was written.
    fn is_whole(self) -> bool {
        self.same && self.count == LENGTH
    }
}

/// How an exchange ended.
#[derive(Clone, Copy)]
pub(crate) struct Joined {
    pub(crate) accepted: u32,
    pub(crate) read: u32,
    /// Whether both texts came as they were written.
    pub(crate) same: bool,
    pub(crate) outcome: Option<ClientEnd>,
}

/// Both ends and the ways to them. The server is an endpoint whose user writes a text, and closes after it.
#[derive(Drop)]
struct Exchange {
    client: LiveClient,
    /// What the client accepted of the server's text.
    accepted: Came,
    server: Endpoint,
    /// How many bytes of its text the server has written.
    written: u32,
    /// What the server read of the client's text.
    receipt: Came,
    to_client: Way,
    to_server: Way,
    draws: Draws,
}

impl Exchange {
    fn new(alloc: Global, seed: u64) -> Result<Exchange, NoMemory> {
        let script = CLIENTS.part(alloc, 0, LENGTH as usize)?;
        let client = LiveClient::new(alloc, CLIENT, SERVER, 1_000, script)?;
        let server = Endpoint::listen(alloc, SERVER, Seq(5_000), STREAM)?;
        Ok(Exchange {
            client,
            accepted: Came::nothing(),
            server,
            written: 0,
            receipt: Came::nothing(),
            to_client: Way::new(alloc),
            to_server: Way::new(alloc),
            draws: Draws::new(seed),
        })
    }

    /// The client gets a tick, or a packet where one arrives, and its user accepts some bytes.
    fn client_turn(&mut self, alloc: Global, out: &mut Outbox) -> Result<(), NoMemory> {
        if self.draws.below(3) == 0 {
            self.client.on_tick();
        } else if let Some(packet) = self.to_client.arrival(alloc, &mut self.draws)? {
            self.client.on_packet(packet.as_slice());
        }
        let mut buf = [0u8; 3_000];
        let most = self.draws.below(3_001) as usize;
        let count = self.client.accept(&mut buf[..most]).min(most);
        self.accepted.take(SERVERS, &buf[..count]);
        self.flush_client(alloc, out)
    }

    fn flush_client(&mut self, alloc: Global, out: &mut Outbox) -> Result<(), NoMemory> {
        out.clear();
        self.client.flush(out);
        self.to_server.carry(alloc, out, &mut self.draws)
    }

    /// The server gets a tick, or a packet where one arrives. Its user reads, and writes more of its text, or closes.
    fn server_turn(&mut self, alloc: Global, out: &mut Outbox) -> Result<(), NoMemory> {
        if self.draws.below(3) == 0 {
            self.server.on_tick();
        } else if let Some(packet) = self.to_server.arrival(alloc, &mut self.draws)? {
            if let Ok(p) = read_packet(packet.as_slice()) {
                self.server.on_packet(p);
            }
        }
        let mut buf = [0u8; 7_000];
        let count = self.server.read(&mut buf[..3_000]).min(3_000);
        self.receipt.take(CLIENTS, &buf[..count]);
        let rest = LENGTH.saturating_sub(self.written).min(7_000) as usize;
        if rest == 0 {
            self.server.close();
        }
        SERVERS.fill(self.written, &mut buf[..rest]);
        let count = self.server.write(&buf[..rest]).min(rest);
        self.written = self.written.saturating_add(count as u32);
        out.clear();
        self.server.flush(out);
        self.to_client.carry(alloc, out, &mut self.draws)
    }

    /// Both take turns until the client has an outcome, and the rest of what it accepted was handed out.
    fn run(&mut self, alloc: Global, out: &mut Outbox) -> Result<Joined, NoMemory> {
        self.flush_client(alloc, out)?;
        for _ in 0..TURNS {
            if self.client.outcome().is_some() && self.accepted.count >= LENGTH {
                break;
            }
            self.client_turn(alloc, out)?;
            self.server_turn(alloc, out)?;
        }
        Ok(Joined {
            accepted: self.accepted.count,
            read: self.receipt.count,
            same: self.accepted.is_whole() && self.receipt.is_whole(),
            outcome: self.client.outcome(),
        })
    }
}

/// An exchange from a seed.
pub(crate) fn join(alloc: Global, seed: u64, out: &mut Outbox) -> Result<Joined, NoMemory> {
    let mut exchange = Exchange::new(alloc, seed)?;
    exchange.run(alloc, out)
}
