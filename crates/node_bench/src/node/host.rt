//! The server, its log, and what passes between them.

ghost use Rattle.std.specs.Prelude.{◌≡◌, ◌≤◌, None};

use crate::{CLIENT, SERVER};
use ft_io::NoMemory;
use limits::SEGMENT;
use logger_store::{LogStore, MsgOut};
use logger_wire::read_msg;
use sample_servers::AnyService;
use segment_codec::{Head, write_packet};
use seq_arith::{ACK, SYN, Seq};
use server_node::{Input, Node, OutPacket, To};
use std::alloc::Global;
use tcp_endpoint::Outbox;
use wrapped_conn::Inside;

/// The clients' initial sequence number, and that from which the server's are counted.
const CLIENT_ISN: Seq = Seq(1_000);

const SERVER_ISN: u32 = 5_000;

/// By how much each of the server's initial sequence numbers is above the one before.
const STRIDE: u32 = 65_536;

/// The kind of Echo, whose clients acknowledge what comes back.
const ECHO: u8 = 1;

/// The bytes of a packet's headers.
const HEADERS: usize = 40;

/// No input leads to more messages to the log than this.
const LETTERS: usize = 1_100;

/// What the server did.
#[derive(Clone, Copy, Debug)]
pub(crate) struct Counts {
    pub turns: u64,
    /// To clients, and the bytes of text in them.
    pub packets: u64,
    pub text: u64,
    pub messages: u64,
}

impl Counts {
    const NONE: Counts = Counts {
        turns: 0,
        packets: 0,
        text: 0,
        messages: 0,
    };
}

/// A segment that a client sends.
#[derive(Clone, Copy)]
struct Sent {
    /// How far it begins after the client's initial sequence number.
    place: u32,
    /// How far it acknowledges after the server's.
    acked: u32,
    flags: u8,
    /// The bytes of its text.
    size: u16,
}

impl Sent {
    fn bare(place: u32, acked: u32, flags: u8) -> Sent
        ensures { result.size ≡ 0 }
    {
        Sent {
            place,
            acked,
            flags,
            size: 0,
        }
    }
}

/// A server and its log.
#[derive(Drop)]
pub(crate) struct Host {
    kind: u8,
    node: Node<AnyService>,
    log: LogStore,
    answer: MsgOut,
    /// The messages to the log that follow from an input.
    letters: Outbox,
    pub(crate) counts: Counts,
}

impl Host {
    /// A server of this kind, which has sent its Hello, with an empty log.
    pub(crate) fn new(alloc: Global, kind: u8) -> Result<Host, NoMemory> {
        Ok(Host {
            kind,
            letters: Outbox::new(alloc)?,
            node: Node::boot(alloc, 1, SERVER_ISN, kind, SERVER)?,
            log: LogStore::new(alloc),
            answer: MsgOut::new(),
            counts: Counts::NONE,
        })
    }

    /// The log takes what it is sent, and the server its answers, until nothing is under way.
    fn exchange_with_log(&mut self, alloc: Global) -> Result<(), NoMemory> {
        for i in 0..LETTERS {
            if i >= self.letters.len() {
                break;
            }
            let Ok(message) = read_msg(self.letters.packet(i)) else {
                continue;
            };
            self.log.answer(alloc, &message, &mut self.answer)?;
            if self.answer.bytes().is_empty() {
                continue;
            }
            let input = Input::Message(self.answer.bytes());
            turn(
                alloc,
                &mut self.node,
                input,
                &mut self.letters,
                &mut self.counts,
            )?;
        }
        self.letters.clear();
        Ok(())
    }

    /// So many ticks pass.
    pub(crate) fn tick(&mut self, alloc: Global, ticks: u32) -> Result<(), NoMemory> {
        for _ in 0..ticks {
            turn(
                alloc,
                &mut self.node,
                Input::Tick,
                &mut self.letters,
                &mut self.counts,
            )?;
            self.exchange_with_log(alloc)?;
        }
        Ok(())
    }

    /// The ith client sends a segment.
    fn send(&mut self, alloc: Global, i: u16, segment: Sent) -> Result<(), NoMemory>
        requires { segment.size ≤ 1460 }
    {
        let Sent {
            place,
            acked,
            flags,
            size,
        } = segment;
        let mut packet = [0u8; limits::PACKET];
        let head = head_of(i, place, acked, flags);
        let len = write_packet(
            &head,
            &[b'a'; limits::TEXT][..usize::from(size)],
            &mut packet,
        )
        .min(limits::PACKET);
        turn(
            alloc,
            &mut self.node,
            Input::Packet(&packet[..len]),
            &mut self.letters,
            &mut self.counts,
        )?;
        self.exchange_with_log(alloc)
    }

    /// The Hello arrives, and this many clients open their connections. Nothing of that is counted.
    pub(crate) fn open(&mut self, alloc: Global, clients: u16) -> Result<(), NoMemory> {
        count_and_queue(self.node.sent(), &mut self.letters, &mut self.counts);
        self.exchange_with_log(alloc)?;
        for i in 0..clients {
            self.send(alloc, i, Sent::bare(0, 0, SYN))?;
            self.send(alloc, i, Sent::bare(1, 1, ACK))?;
        }
        self.counts = Counts::NONE;
        Ok(())
    }

    /// The numbers of the first client's connection.
    pub(crate) fn first(&self) -> Option<Inside> {
        match self.node.conn(CLIENT) {
            Some(conn) => Some(conn.inside()),
            None => None,
        }
    }

    /// So many rounds, in each of which every client sends a segment.
    pub(crate) fn play(
        &mut self,
        alloc: Global,
        clients: u16,
        size: u16,
        rounds: u32,
    ) -> Result<(), NoMemory>
        requires { size ≤ 1460 }
    {
        for round in 0..rounds {
            let sent = round.wrapping_mul(u32::from(size));
            let place = if size == 0 { 0 } else { sent.wrapping_add(1) };
            let back = if self.kind == ECHO { sent } else { 0 };
            for i in 0..clients {
                let segment = Sent {
                    place,
                    acked: back.wrapping_add(1),
                    flags: ACK,
                    size,
                };
                self.send(alloc, i, segment)?;
            }
        }
        Ok(())
    }
}

/// Counts what is sent, and keeps the messages to the log.
fn count_and_queue(sent: &[OutPacket], letters: &mut Outbox, counts: &mut Counts) {
    for packet in sent {
        if matches!(packet.to(), To::Logger) {
            letters.push(packet.bytes());
            counts.messages = counts.messages.saturating_add(1);
        } else {
            let text = packet.bytes().len().saturating_sub(HEADERS) as u64;
            counts.packets = counts.packets.saturating_add(1);
            counts.text = counts.text.saturating_add(text);
        }
    }
}

/// One turn of the server.
fn turn(
    alloc: Global,
    node: &mut Node<AnyService>,
    input: Input<'_>,
    letters: &mut Outbox,
    counts: &mut Counts,
) -> Result<(), NoMemory> {
    let Ok(sent) = node.turn(alloc, input) else {
        return Err(NoMemory);
    };
    counts.turns = counts.turns.saturating_add(1);
    count_and_queue(sent, letters, counts);
    Ok(())
}

fn head_of(i: u16, place: u32, acked: u32, flags: u8) -> Head
    ensures mss { result.mss ≡ None }
    ensures timestamps { result.timestamps ≡ None }
{
    Head {
        src: CLIENT.ip,
        dst: SERVER.ip,
        sport: CLIENT.port.saturating_add(i),
        dport: SERVER.port,
        seq: CLIENT_ISN.add(place),
        ack: Seq(SERVER_ISN)
            .add(STRIDE.wrapping_mul(u32::from(i)))
            .add(acked),
        flags,
        window: 65_535,
        mss: None,
        timestamps: None,
    }
}
