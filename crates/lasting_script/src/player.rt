//! A server that lasts, a log, and what a line of the script makes of them.

ghost use Rattle.std.specs.Prelude.{◌≤◌};

use forget_store::{AnswerOut, answer};
use ft_io::{Addr, Key, NoMemory};
use lasting_node::{LastingNode, Patience};
use logger_store::LogStore;
use node_serving::{Identity, OutPacket, To};
use sample_servers::AnyService;
use server_node::{Input, TurnEnd};
use std::alloc::Global;
use tcp_rules::Profile;
use test_data::{Said, bytes_of_hex};

/// The server's address.
const LOCAL: Addr = Addr {
    ip: 0xC000_0264,
    port: 7,
};

/// The longest silence that a line can name.
const SILENCE_LIMIT: u64 = 100_000_000;

/// A server and a log, and what the lines said so far.
#[derive(Drop)]
pub(crate) struct Player {
    node: LastingNode<AnyService>,
    /// Whether no other has fenced it.
    up: bool,
    log: LogStore,
    out: AnswerOut,
    said: Said,
}

impl Player {
    /// A server of Echo in its first boot, until the script boots another, and an empty log.
    pub(crate) fn new(alloc: Global) -> Result<Player, NoMemory> {
        let patience = Patience {
            wait: 1,
            silence: 0,
        };
        Ok(Player {
            node: LastingNode::boot(alloc, incarnation(1, 0, 1), patience)?,
            up: true,
            log: LogStore::new(alloc),
            out: AnswerOut::new(),
            said: Said::new(alloc),
        })
    }

    /// What the lines said, unless memory was refused.
    pub(crate) fn said(&self) -> Result<&[u8], NoMemory> {
        self.said.bytes()
    }

    /// Plays a line.
    pub(crate) fn play(&mut self, alloc: Global, line: &str) -> Result<(), NoMemory> {
        let Some((word, rest)) = line.split_once(' ') else {
            return self.play_word(alloc, line);
        };
        match word {
            "boot" => self.boot(alloc, numbers(rest)),
            "packet" => self.deliver(alloc, rest, true),
            "message" => self.deliver(alloc, rest, false),
            "ticks" => self.ticks(alloc, numbers(rest)),
            "log" => self.receive(alloc, rest),
            _ => {
                self.said.line(line);
                Ok(())
            }
        }
    }

    /// Plays a line of one word.
    fn play_word(&mut self, alloc: Global, word: &str) -> Result<(), NoMemory> {
        if word == "empty" {
            self.log = LogStore::new(alloc);
            return Ok(());
        }
        self.turn(alloc, Input::Tick)
    }

    /// Boots a server of this kind and boot number, which counts its initial sequence numbers from `isn` and waits so long.
    fn boot(
        &mut self,
        alloc: Global,
        [kind, boot, isn, wait, silence]: [u64; 5],
    ) -> Result<(), NoMemory> {
        let patience = Patience {
            wait: wait.clamp(1, 4_294_967_295) as u32,
            silence: silence.min(SILENCE_LIMIT) as u32,
        };
        self.node = LastingNode::boot(alloc, incarnation(boot, isn, kind), patience)?;
        self.up = true;
        write_sent(self.node.sent(), &mut self.said);
        Ok(())
    }

    /// A datagram from a client or from the logger.
    fn deliver(&mut self, alloc: Global, digits: &str, is_packet: bool) -> Result<(), NoMemory> {
        match bytes_of_hex(alloc, digits)? {
            Some(bytes) if is_packet => self.turn(alloc, Input::Packet(&bytes)),
            Some(bytes) => self.turn(alloc, Input::Message(&bytes)),
            None => {
                self.said.line("no digits");
                Ok(())
            }
        }
    }

    /// A datagram for the log.
    fn receive(&mut self, alloc: Global, digits: &str) -> Result<(), NoMemory> {
        let Some(bytes) = bytes_of_hex(alloc, digits)? else {
            self.said.line("no digits");
            return Ok(());
        };
        let grammar = self.node.who().profile.grammar();
        answer(&mut self.log, alloc, grammar, &bytes, &mut self.out)?;
        if self.out.bytes().is_empty() {
            self.said.line("-");
            return Ok(());
        }
        self.said.add(b"answer ");
        self.said.digits(self.out.bytes());
        self.said.end_line();
        Ok(())
    }

    fn turn(&mut self, alloc: Global, input: Input<'_>) -> Result<(), NoMemory> {
        if self.take(alloc, input)? {
            write_sent(self.node.sent(), &mut self.said);
        }
        Ok(())
    }

    /// So many ticks.
    fn ticks(&mut self, alloc: Global, [count, ..]: [u64; 5]) -> Result<(), NoMemory> {
        let mut silent = true;
        for tick in 0..count {
            if self.take(alloc, Input::Tick)? && !self.node.sent().is_empty() {
                silent = false;
                let after = tick + 1;
                write!(&mut self.said, "after {after}\n");
                write_sent(self.node.sent(), &mut self.said);
            }
        }
        if silent {
            self.said.line("-");
        }
        Ok(())
    }

    /// Takes a turn. Whether there is a server that has taken it.
    fn take(&mut self, alloc: Global, input: Input<'_>) -> Result<bool, NoMemory> {
        if !self.up {
            self.said.line("no server");
            return Ok(false);
        }
        match self.node.turn(alloc, input) {
            Ok(()) => Ok(true),
            Err(TurnEnd::Fenced { newer }) => {
                self.up = false;
                write!(&mut self.said, "fenced by {newer}\n");
                Ok(false)
            }
            Err(TurnEnd::NoMemory) => Err(NoMemory),
        }
    }
}

/// An incarnation of a plain server with this service.
fn incarnation(boot: u64, isn: u64, kind: u64) -> Identity
    ensures { 1 ≤ result.boot }
{
    Identity {
        boot: boot.max(1),
        isn: (isn % 4_294_967_296) as u32,
        kind: (kind % 256) as u8,
        local: LOCAL,
        profile: Profile::Plain,
    }
}

/// The numbers of a line, up to five; 0 for each that isn't there.
fn numbers(rest: &str) -> [u64; 5] {
    let mut all = [0; 5];
    let mut at = 0;
    for word in rest.split(' ') {
        if at < 5 {
            all[at] = word.parse().unwrap_or(0);
            at += 1;
        }
    }
    all
}

/// Says what is sent, a line a packet: to whom, and its bytes.
fn write_sent(sent: &[OutPacket], said: &mut Said) {
    if sent.is_empty() {
        said.line("-");
    }
    for packet in sent {
        match packet.to() {
            To::Client(Key { ip, port }) => write!(said, "client {ip} {port} "),
            To::Logger => said.add(b"logger "),
        }
        said.digits(packet.bytes());
        said.end_line();
    }
}
