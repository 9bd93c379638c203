//! Two endpoints that hand their packets to one another, over ways that lose, repeat and reorder.

use crate::scene::{Met, Scene, differs};
use crate::script::{Join, Opening};
use ft_io::{Addr, NoMemory};
use limits::STREAM;
use segment_codec::read_packet;
use socket_layer::Socket;
use std::alloc::{AllocError, Global};
use tcp_endpoint::StateName;
use test_data::{Draws, Pattern};

pub(crate) const CLIENT: Addr = Addr {
    ip: 0xC000_0201,
    port: 40_000,
};

pub(crate) const SERVER: Addr = Addr {
    ip: 0xC000_0264,
    port: 7,
};

/// What both users write is part of this stream. The client's text begins at place 0, the server's at `SERVER_PLACE`.
const TEXT: Pattern = Pattern::Numbers;

const SERVER_PLACE: u32 = 100;

/// One of the two: an endpoint, its user, who writes a text and closes after it, and the way on which packets reach it.
#[derive(Drop)]
struct Side {
    scene: Scene,
    /// Where the user's text begins in the stream, how many bytes it has, and how many of them are written.
    place: u32,
    bytes: u32,
    written: u32,
    /// How many bytes the user has read, and whether they are those that the peer's user wrote.
    read: u32,
    is_true: bool,
    /// The packets that may still arrive.
    way: Vec<Vec<u8>>,
}

impl Side {
    fn new(alloc: Global, opening: Opening, bytes: u16, place: u32) -> Result<Side, NoMemory> {
        Ok(Side {
            scene: Scene::new(alloc, opening)?,
            place,
            bytes: u32::from(bytes),
            written: 0,
            read: 0,
            is_true: true,
            way: Vec::new(alloc),
        })
    }

    /// The turn ends. One packet in four is lost.
    fn carry(
        &mut self,
        alloc: Global,
        peer: &mut Side,
        draws: &mut Draws,
    ) -> Result<(), AllocError> {
        self.scene.send();
        let out = &self.scene.out;
        for i in 0..out.len() {
            if draws.below(4) > 0 && i < out.len() {
                peer.way.push(out.packet(i).to_vec(alloc)?)?;
            }
        }
        Ok(())
    }

    /// One of the last six packets arrives. One in four stays and may arrive again.
    fn deliver(&mut self, draws: &mut Draws) {
        let back = draws.below(6) as usize + 1;
        let place = self.way.len().saturating_sub(back);
        if place >= self.way.len() {
            return;
        }
        if let Ok(p) = read_packet(&self.way[place]) {
            self.scene.endpoint.on_packet(p);
        }
        if draws.below(4) > 0 {
            let _gone = self.way.remove(place);
        }
    }

    /// A turn: a tick, or a packet of those that are on the way. Then the user reads what came, which must be the next of the peer's text, and writes the next
    /// bytes, or closes where none is left.
    fn turn(
        &mut self,
        alloc: Global,
        peer: &mut Side,
        draws: &mut Draws,
    ) -> Result<(), AllocError> {
        if draws.below(3) == 0 {
            self.scene.endpoint.on_tick();
        } else {
            self.deliver(draws);
        }
        let name = self.scene.endpoint.state().name;
        if name != StateName::SynSent && name != StateName::Listen {
            let mut buf = [0u8; 700];
            let count = self.scene.endpoint.read(&mut buf[..300]).min(300);
            let is_next = TEXT.is_part(peer.place.wrapping_add(self.read), &buf[..count]);
            self.is_true = self.is_true && is_next;
            self.read = self.read.wrapping_add(count as u32);
            let next = self.bytes.saturating_sub(self.written).min(700) as usize;
            if next == 0 {
                self.scene.endpoint.close();
            }
            TEXT.fill(self.place.wrapping_add(self.written), &mut buf);
            let count = self.scene.endpoint.write(&buf[..next]).min(next);
            self.written = self.written.wrapping_add(count as u32);
        }
        self.carry(alloc, peer, draws)
    }

    /// All of the peer's text must have come, and nothing else, and the endpoint must be CLOSED without a reset.
    fn meets(&self, who: &str, peer: &Side) -> Met {
        let (some, all, state) = (self.read, peer.bytes, self.scene.endpoint.state());
        let is_closed = state.name == StateName::Closed && !state.reset;
        if self.is_true && some == all && is_closed {
            return Ok(());
        }
        let name = state.name;
        let seen = format_args!("the {who} heard {some} bytes of {all}, {name:?}");
        differs(self.scene.alloc, seen)
    }
}

/// Plays all turns. Each user must read all that the other writes.
fn play(alloc: Global, join: Join, client: &mut Side, server: &mut Side) -> Met {
    let mut draws = Draws::new(join.seed);
    client.carry(alloc, server, &mut draws)?;
    for _ in 0..join.turns {
        client.turn(alloc, server, &mut draws)?;
        server.turn(alloc, client, &mut draws)?;
    }
    client.meets("client", server)?;
    server.meets("server", client)
}

/// Joins a server to a client.
fn join_server(alloc: Global, join: Join, client: &mut Side) -> Met {
    let opening = Opening {
        local: SERVER,
        remote: None,
        isn: join.server.isn,
        limit: STREAM,
        measures: join.measures,
    };
    let mut server = Side::new(alloc, opening, join.server.bytes, SERVER_PLACE)?;
    play(alloc, join, client, &mut server)
}

/// Joins two endpoints.
pub(crate) fn join(alloc: Global, join: Join) -> Met {
    let opening = Opening {
        local: CLIENT,
        remote: Some(SERVER),
        isn: join.client.isn,
        limit: STREAM,
        measures: join.measures,
    };
    let mut client = Side::new(alloc, opening, join.client.bytes, 0)?;
    join_server(alloc, join, &mut client)
}
