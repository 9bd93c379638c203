//! Hostile datagrams from a seed: numbers near the endpoint's own, all flags, and half of them damaged on the way.

ghost use Rattle.std.specs.Prelude.{◌≤◌};

use crate::rules::{
    Kept, Known, OWN, Rule, Seen, check_leaving, check_numbers, check_taken, is_behind_fin, resets,
};
use crate::scene::{Met, Scene, differs};
use crate::script::{Counted, Hostile};
use segment_codec::{Head, PacketRef, read_packet, write_packet};
use seq_arith::{ACK, FIN, Seq};
use socket_layer::Socket;
use tcp_endpoint::StateName;
use test_data::{Draws, Pattern, require, require_all};

/// What came of all datagrams.
#[derive(Clone, Copy)]
pub(crate) struct Tally {
    /// How many were handed over, for each state, and in all.
    met: [u32; 11],
    handed: u32,
    refused: u32,
    resets: u32,
    read: u32,
    acked: u32,
}

impl Tally {
    pub(crate) fn new() -> Tally {
        Tally {
            met: [0; 11],
            handed: 0,
            refused: 0,
            resets: 0,
            read: 0,
            acked: 0,
        }
    }

    pub(crate) fn count(&self, counted: Counted) -> u32 {
        match counted {
            Counted::Met(name) => self.met.get(name as usize).copied().unwrap_or(0),
            Counted::Handed => self.handed,
            Counted::Refused => self.refused,
            Counted::Resets => self.resets,
            Counted::Read => self.read,
            Counted::Acked => self.acked,
        }
    }
}

/// The peer's stream.
const PEERS: Pattern = Pattern::Letters;

/// The most datagrams that come to one endpoint. Another replaces it earlier if it is CLOSED after more than `MOST_CLOSED` of them.
const MOST: u32 = 41;

const MOST_CLOSED: u32 = 3;

/// Hostile datagrams, which come to one endpoint after another.
#[derive(Drop)]
pub(crate) struct Attack {
    draws: Draws,
    /// How many came, and how many come in all.
    pub(crate) number: u32,
    pub(crate) count: u32,
    /// How many bytes the user of the endpoint has read and written.
    read: u32,
    written: u32,
    pub(crate) tally: Tally,
}

/// What is seen of an endpoint.
fn seen(scene: &Scene) -> Seen {
    let endpoint = &scene.endpoint;
    let state = endpoint.state();
    Seen {
        state: state.name,
        reset: state.reset,
        sent: endpoint.sent(),
        acked: endpoint.acked(),
        readable: endpoint.readable(),
        room: endpoint.room(),
    }
}

/// What is left of the 65,535 bytes from the first unread one on.
fn window(scene: &Scene) -> u16 {
    65_535 - (scene.endpoint.readable() % 65_536) as u16
}

/// The flags of a packet.
pub(crate) fn flags(draws: &mut Draws) -> u8 {
    match draws.below(6) {
        0 | 1 => draws.byte(),
        2 => FIN | ACK,
        _ => ACK,
    }
}

impl Attack {
    /// None came yet. They are counted in addition to those of a tally.
    pub(crate) fn new(hostile: Hostile, tally: Tally) -> Attack {
        Attack {
            draws: Draws::new(hostile.seed),
            number: 0,
            count: hostile.count,
            read: 0,
            written: 0,
            tally,
        }
    }

    /// The peer's next number: after all bytes taken, and after its FIN in the states that follow it.
    fn next(&self, scene: &Scene) -> Seq {
        let fin = is_behind_fin(scene.endpoint.state().name);
        let taken = scene.peer_isn.add(1).add(self.read);
        taken
            .add((scene.endpoint.readable() % 65_536) as u32)
            .add(u32::from(fin))
    }

    fn head(&mut self, scene: &Scene) -> Head {
        let sides = if self.draws.below(2) == 0 { 20 } else { 65_536 };
        let (from, to) = (scene.peer, scene.local);
        let (next, seen) = (self.next(scene), seen(scene));
        let seq = match self.draws.below(8) {
            0 => self.draws.number(),
            1..=3 => next,
            4 | 5 => self.draws.near(next, 3),
            6 => self.draws.near(next, 120),
            _ => self.draws.near(next.add(u32::from(window(scene))), 3),
        };
        let ack = match self.draws.below(8) {
            0 => self.draws.number(),
            1..=3 => seen.sent,
            4 => seen.acked,
            5 => self.draws.near(seen.acked, 3),
            6 => self.draws.near(seen.sent, 40),
            _ => self.draws.near(seen.sent, 2),
        };
        Head {
            src: from.ip,
            dst: to.ip,
            sport: from.port,
            dport: to.port,
            seq,
            ack,
            flags: flags(&mut self.draws),
            window: self.draws.below(sides) as u16,
            mss: if self.draws.below(2) == 0 {
                Some(self.draws.below(65_536) as u16)
            } else {
                None
            },
            timestamps: None,
        }
    }

    /// Writes a datagram whose text is that of the peer's stream at its number, and returns its length.
    #[tactic(auto, using(seq_arith::proofs::Units::options_short))]
    fn write(&mut self, scene: &Scene, out: &mut [u8; limits::PACKET]) -> usize
        ensures { result ≤ 1500 }
    {
        let head = self.head(scene);
        let mut text = [0u8; 100];
        PEERS.fill(head.seq.minus(scene.peer_isn.add(1)), &mut text);
        let len = self.draws.below(101) as usize;
        let len = if self.draws.below(3) == 0 { 0 } else { len };
        write_packet(&head, &text[..len], out)
    }

    /// The user reads, writes a little, or closes, at some of the turns. What is read is, in place, what some datagram carried.
    fn user_acts(&mut self, scene: &mut Scene) -> Kept {
        match self.draws.below(40) {
            0..=11 => {
                let mut read = [0u8; 150];
                let size = self.draws.below(151) as usize;
                let count = scene.endpoint.read(&mut read[..size]);
                let read = &read[..count.min(size)];
                let is_next = PEERS.is_part(self.read, read);
                self.read = self.read.wrapping_add(read.len() as u32);
                require_all(&[(count <= size, Rule::Counts), (is_next, Rule::ReadText)])
            }
            12..=19 => {
                let mut text = [0u8; 40];
                OWN.fill(self.written, &mut text);
                let size = self.draws.below(41) as usize;
                let count = scene.endpoint.write(&text[..size]);
                self.written = self.written.wrapping_add(count as u32);
                require(count <= size, Rule::Counts)
            }
            20 => {
                scene.endpoint.close();
                Ok(())
            }
            _ => Ok(()),
        }
    }

    /// Ends the turn. What leaves keeps the rules.
    fn end_turn(&self, scene: &mut Scene) -> Kept {
        scene.send();
        let known = Known {
            name: scene.endpoint.state().name,
            sent: scene.endpoint.sent(),
            isn: scene.isn,
            next: self.next(scene),
            window: window(scene),
            written: self.written,
            count: scene.out.len(),
        };
        for i in 0..scene.out.len() {
            if i < scene.out.len() {
                let Ok(p) = read_packet(scene.out.packet(i)) else {
                    return Err(Rule::Packet);
                };
                check_leaving(known, p)?;
            }
        }
        Ok(())
    }

    /// A datagram is handed over, the user acts, and the turn ends.
    fn take_in(&mut self, scene: &mut Scene, p: PacketRef<'_>) -> Kept {
        let before = seen(scene);
        let resets = resets(before, scene.isn.add(1), self.next(scene), p.head);
        scene.endpoint.on_packet(p);
        let after = seen(scene);
        let begins = matches!(before.state, StateName::Listen | StateName::SynSent);
        if begins && after.state != before.state {
            scene.peer_isn = p.head.seq;
        }
        check_taken(before, after, resets, p.head.flags)?;
        self.user_acts(scene)?;
        self.end_turn(scene)?;
        check_numbers(before, seen(scene), p.head.ack)
    }

    /// One datagram, damaged in one byte or not, comes to an endpoint. One that is damaged is refused and isn't handed over: nothing changes, and nothing
    /// leaves. A tick passes after some of them.
    fn meet_one(&mut self, scene: &mut Scene) -> Kept {
        let mut packet = [0u8; limits::PACKET];
        let len = self.write(scene, &mut packet);
        let is_damaged = self.draws.below(2) == 0;
        if is_damaged {
            let place = self.draws.below(limits::PACKET as u32) as usize % len.max(1);
            if place < len {
                packet[place] = packet[place].wrapping_add(1 + self.draws.below(255) as u8);
            }
        }
        match read_packet(&packet[..len]) {
            Ok(p) if !is_damaged => {
                if let Some(count) = self.tally.met.get_mut(scene.endpoint.state().name as usize) {
                    *count = count.wrapping_add(1);
                }
                self.tally.handed = self.tally.handed.wrapping_add(1);
                self.take_in(scene, p)?;
            }
            Err(_) if is_damaged => {
                self.tally.refused = self.tally.refused.wrapping_add(1);
                let before = seen(scene);
                scene.send();
                let is_same = scene.out.is_empty() && seen(scene) == before;
                require(is_same, Rule::Silence)?;
            }
            _ => return Err(Rule::Damage),
        }
        if self.draws.below(20) > 0 {
            return Ok(());
        }
        scene.endpoint.on_tick();
        self.end_turn(scene)
    }

    /// The next datagrams come to a new endpoint, until another has to replace it. Counts what came of it.
    pub(crate) fn meet(&mut self, scene: &mut Scene) -> Met {
        self.read = 0;
        self.written = 0;
        let mut closed = 0u32;
        for _ in 0..MOST {
            if self.number == self.count {
                return Ok(());
            }
            if let Err(rule) = self.meet_one(scene) {
                let (number, rule) = (self.number, rule.text());
                let seen = format_args!("datagram {number} breaks a rule: {rule}");
                return differs(scene.alloc, seen);
            }
            self.number = self.number.saturating_add(1);
            if scene.endpoint.state().name == StateName::Closed {
                closed = closed.saturating_add(1);
            }
            if closed > MOST_CLOSED {
                break;
            }
        }
        let seen = seen(scene);
        let tally = &mut self.tally;
        tally.resets = tally.resets.wrapping_add(u32::from(seen.reset));
        tally.read = tally.read.wrapping_add(self.read);
        tally.acked = tally.acked.wrapping_add(seen.acked.minus(scene.isn));
        Ok(())
    }
}
