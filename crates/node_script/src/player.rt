//! A server, and what a line of the script makes of it.

use crate::attack::attack;
use crate::strike::{Strikes, strike};
use ft_io::{Addr, Key, NoMemory};
use sample_servers::AnyService;
use seq_arith::Seq;
use server_node::{Input, Node, OutPacket, To, TurnEnd};
use std::alloc::Global;
use tcp_rules::Profile;
use test_data::{Said, bytes_of_hex};

/// The server's address.
pub(crate) const LOCAL: Addr = Addr {
    ip: 0xC000_0264,
    port: 7,
};

/// A server, and what the lines said so far.
#[derive(Drop)]
pub(crate) struct Player {
    node: Node<AnyService>,
    /// Whether no other has fenced it.
    up: bool,
    said: Said,
}

impl Player {
    /// A server of Echo in its first boot, until the script boots another.
    pub(crate) fn new(alloc: Global) -> Result<Player, NoMemory> {
        Ok(Player {
            node: Node::boot(alloc, 1, 0, 1, LOCAL)?,
            up: true,
            said: Said::new(alloc),
        })
    }

    /// What the lines said, unless memory was refused.
    pub(crate) fn said(&self) -> Result<&[u8], NoMemory> {
        self.said.bytes()
    }

    /// Plays a line.
    pub(crate) fn play(&mut self, alloc: Global, line: &str) -> Result<(), NoMemory> {
        let Some((word, rest)) = line.split_once(' ') else {
            return self.turn(alloc, Input::Tick);
        };
        match word {
            "boot" => self.boot(alloc, Profile::Plain, numbers(rest)),
            "boot-wan" => self.boot(alloc, Profile::Wan, numbers(rest)),
            "conn" => {
                self.write_connection(numbers(rest));
                Ok(())
            }
            "attack" => self.attack(alloc, numbers(rest)),
            "strike" => self.strike(alloc, false, numbers(rest)),
            "strike-stamped" => self.strike(alloc, true, numbers(rest)),
            "packet" => self.deliver(alloc, rest, true),
            "message" => self.deliver(alloc, rest, false),
            _ => {
                self.said.line(line);
                Ok(())
            }
        }
    }

    /// Boots a server of this profile, kind and boot number, which counts its initial sequence numbers from `isn` and marks a connection after `every` reads.
    fn boot(
        &mut self,
        alloc: Global,
        profile: Profile,
        [kind, boot, isn, every, ..]: [u64; 5],
    ) -> Result<(), NoMemory> {
        let kind = (kind % 256) as u8;
        let isn = (isn % 4_294_967_296) as u32;
        let every = (every % 4_294_967_296) as u32;
        self.node = Node::boot_in(alloc, profile, boot.max(1), isn, kind, LOCAL, every)?;
        self.up = true;
        write_sent(self.node.sent(), &mut self.said);
        Ok(())
    }

    /// A datagram from a client or from the logger.
    fn deliver(&mut self, alloc: Global, digits: &str, is_packet: bool) -> Result<(), NoMemory> {
        match bytes_of_hex(alloc, digits)? {
            Some(bytes) if is_packet => self.turn(alloc, Input::Packet(&bytes)),
            Some(bytes) => self.turn(alloc, Input::Message(&bytes)),
            None => {
                self.said.line("no digits");
                Ok(())
            }
        }
    }

    fn turn(&mut self, alloc: Global, input: Input<'_>) -> Result<(), NoMemory> {
        if !self.up {
            self.said.line("no server");
            return Ok(());
        }
        match self.node.turn(alloc, input) {
            Ok(sent) => write_sent(sent, &mut self.said),
            Err(TurnEnd::Fenced { newer }) => {
                self.up = false;
                write!(&mut self.said, "fenced by {newer}\n");
            }
            Err(TurnEnd::NoMemory) => return Err(NoMemory),
        }
        Ok(())
    }

    /// The numbers of a client's connection.
    fn write_connection(&mut self, [ip, port, ..]: [u64; 5]) {
        let key = Key {
            ip: (ip % 4_294_967_296) as u32,
            port: (port % 65_536) as u16,
        };
        let Some(conn) = self.node.conn(key) else {
            return self.said.line("none");
        };
        let now = conn.inside();
        write!(
            &mut self.said,
            "delta {} taken {} answered {} ",
            now.delta, now.taken, now.answered
        );
        write!(
            &mut self.said,
            "read {} reads {} una {} sent {}\n",
            now.read, now.reads, now.una, now.sent
        );
    }

    fn attack(&mut self, alloc: Global, [count, seed, ..]: [u64; 5]) -> Result<(), NoMemory> {
        let tally = attack(alloc, &mut self.node, count, seed)?;
        if tally.sent == 0 {
            self.said.line("silent");
        } else {
            write!(&mut self.said, "wrong {}\n", tally.wrong);
        }
        Ok(())
    }

    fn strike(
        &mut self,
        alloc: Global,
        stamped: bool,
        [times, seed, kinds, seq, ack]: [u64; 5],
    ) -> Result<(), NoMemory> {
        let strikes = Strikes {
            times,
            seed,
            kinds: (kinds % 7) as u32,
            stamped,
            seq: Seq((seq % 4_294_967_296) as u32),
            ack: Seq((ack % 4_294_967_296) as u32),
        };
        let digest = strike(alloc, &mut self.node, strikes)?;
        write!(
            &mut self.said,
            "sent {} digest {}\n",
            digest.sent, digest.sum
        );
        Ok(())
    }
}

/// The numbers of a line, up to five; 0 for each that isn't there.
fn numbers(rest: &str) -> [u64; 5] {
    let mut all = [0; 5];
    let mut at = 0;
    for word in rest.split(' ') {
        if at < 5 {
            all[at] = word.parse().unwrap_or(0);
            at += 1;
        }
    }
    all
}

/// Says what is sent, a line a packet: to whom, and its bytes.
fn write_sent(sent: &[OutPacket], said: &mut Said) {
    if sent.is_empty() {
        said.line("-");
    }
    for packet in sent {
        match packet.to() {
            To::Client(Key { ip, port }) => write!(said, "client {ip} {port} "),
            To::Logger => said.add(b"logger "),
        }
        said.digits(packet.bytes());
        said.end_line();
    }
}
