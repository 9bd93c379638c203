//! Hostile datagrams from a seed, to scripted and to live clients: half of them are any bytes, and half are packets whose numbers lie near the client's own.

ghost use Rattle.std.specs.Prelude.{◌≤◌, ◌^◌, length, IfOk};

use crate::clients::rules::{Kept, Rule, SERVERS, may_follow};
use crate::hostile::flags;
use crate::joined::{CLIENT, SERVER};
use ft_io::{Key, NoMemory};
use ft_model::Event;
use peer_client::{Client, LiveClient, Phase};
use segment_codec::{Head, read_packet, write_packet};
use seq_arith::{ACK, RST, SYN, Seq, has};
use std::alloc::Global;
use tcp_endpoint::Outbox;
use test_data::{Draws, require, require_all};

const SEED: u64 = 1;

const DATAGRAMS: u32 = 10_000;

/// A client gets at most this many datagrams before another replaces it.
const AGE: u32 = 60;

const ISN: u32 = 1_000;

const SERVER_ISN: u32 = 5_000;

const SCRIPT: &[u8] = b"what the client says";

/// The window that a scripted client advertises with its SYN.
const WINDOW: u16 = 400;

/// What came of all datagrams.
#[derive(Clone, Copy)]
pub(crate) struct Tally {
    pub(crate) datagrams: u32,
    pub(crate) packets: u32,
    pub(crate) broken: Option<Rule>,
}

impl Tally {
    fn new() -> Tally {
        Tally {
            datagrams: 0,
            packets: 0,
            broken: None,
        }
    }

    fn note(&mut self, is_packet: bool, kept: Kept) {
        self.datagrams = self.datagrams.saturating_add(1);
        self.packets = self.packets.saturating_add(u32::from(is_packet));
        if let Err(rule) = kept {
            self.broken = self.broken.or(Some(rule));
        }
    }

    /// Whether all datagrams have come.
    fn is_complete(&self) -> bool {
        self.datagrams >= DATAGRAMS
    }
}

/// What the server knows of a connection: its initial sequence number there, and the numbers that the client expects next and has sent.
#[derive(Clone, Copy)]
struct Known {
    base: Seq,
    next: Seq,
    sent: Seq,
}

/// Writes a packet to the client, whose text is the server's at its place, and returns its length.
fn packet(draws: &mut Draws, known: Known, out: &mut [u8; limits::PACKET]) -> usize
    ensures { result ≤ 1500 }
{
    let head = Head {
        src: SERVER.ip,
        dst: CLIENT.ip,
        sport: SERVER.port,
        dport: CLIENT.port,
        seq: draws.perturbed(known.next),
        ack: draws.perturbed(known.sent),
        flags: flags(draws),
        window: draws.below(65_536) as u16,
        mss: None,
        timestamps: None,
    };
    let mut text = [0u8; 60];
    SERVERS.fill(head.seq.minus(known.base.add(1)), &mut text);
    let len = draws.below(61) as usize;
    write_packet(&head, &text[..len], out)
}

/// The server's SYN-ACK.
fn syn_ack(out: &mut [u8; limits::PACKET]) -> usize
    ensures { result ≤ 1500 }
{
    let head = Head {
        src: SERVER.ip,
        dst: CLIENT.ip,
        sport: SERVER.port,
        dport: CLIENT.port,
        seq: Seq(SERVER_ISN),
        ack: Seq(ISN).add(1),
        flags: SYN | ACK,
        window: 10,
        mss: None,
        timestamps: None,
    };
    write_packet(&head, b"", out)
}

/// Every second datagram is a packet.
fn datagram(draws: &mut Draws, number: u32, known: Known, out: &mut [u8; limits::PACKET]) -> usize {
    if number % 2 == 0 {
        draws.anything(&mut out[..])
    } else {
        packet(draws, known, out)
    }
}

/// The server's initial sequence number where a packet answers the SYN (RFC 9293, 3.10.7.3).
fn opening(bytes: &[u8]) -> Option<Seq> {
    let head = read_packet(bytes).ok()?.head;
    let answers = has(head.flags, SYN) && has(head.flags, ACK) && !has(head.flags, RST);
    (answers && head.ack == Seq(ISN).add(1)).then_some(head.seq)
}

/// The script, as a client takes it.
fn script(alloc: Global) -> Result<Vec<u8>, NoMemory>
    ensures { IfOk result (λ script. length script.items ≤ 2 ^ 24) }
{
    Ok(SCRIPT.to_vec(alloc)?)
}

/// A scripted client sends its SYN and, where it is open, gets the server's and sends some of its script.
fn begin(alloc: Global, client: &mut Client, is_open: bool) -> Result<(), NoMemory> {
    let mut out = [0u8; limits::PACKET];
    let _syn = client.step(
        &Event::Begin {
            client: 1,
            window: WINDOW,
        },
        &mut out,
    );
    if is_open {
        let len = syn_ack(&mut out);
        client.deliver(alloc, &out[..len])?;
        let _text = client.step(
            &Event::Send {
                client: 1,
                from: 0,
                len: 7,
            },
            &mut out,
        );
    }
    Ok(())
}

/// A scripted client's state, as its methods report it.
#[derive(Clone, Copy, PartialEq, Eq)]
struct Reported {
    phase: Phase,
    sent: u32,
    acked: u32,
    accepted: usize,
}

fn readers_of(client: &Client) -> Reported {
    Reported {
        phase: client.phase(),
        sent: client.sent(),
        acked: client.acked(),
        accepted: client.accepted().len(),
    }
}

/// The rules on a delivery to a scripted client.
fn check_scripted(before: Reported, client: &Client, is_packet: bool) -> Kept {
    let after = readers_of(client);
    let is_sent = after.sent == before.sent && before.acked <= after.acked;
    require_all(&[
        (is_packet || after == before, Rule::Silence),
        (before.accepted <= after.accepted, Rule::Text),
        (SERVERS.is_part(0, client.accepted()), Rule::Text),
        (after.accepted <= usize::from(WINDOW), Rule::Window),
        (is_sent, Rule::Numbers),
        (after.acked <= after.sent, Rule::Numbers),
        (may_follow(before.phase, after.phase), Rule::End),
    ])
}

/// A scripted client begins, and meets datagrams until it is reset or has got as many as one gets.
fn meet_all(
    alloc: Global,
    client: &mut Client,
    is_open: bool,
    draws: &mut Draws,
    tally: &mut Tally,
) -> Result<(), NoMemory> {
    begin(alloc, client, is_open)?;
    let mut base = is_open.then_some(Seq(SERVER_ISN));
    let mut out = [0u8; limits::PACKET];
    for _ in 0..AGE {
        let before = readers_of(client);
        let from = base.unwrap_or(Seq(SERVER_ISN));
        let known = Known {
            base: from,
            next: from.add(1).add((before.accepted % 65_536) as u32),
            sent: Seq(ISN).add(1).add(before.sent),
        };
        let len = datagram(draws, tally.datagrams, known, &mut out);
        let bytes = &out[..len.min(limits::PACKET)];
        client.deliver(alloc, bytes)?;
        base = base.or(opening(bytes));
        let is_packet = read_packet(bytes).is_ok();
        tally.note(is_packet, check_scripted(before, client, is_packet));
        if tally.is_complete() || client.phase() == Phase::Reset {
            break;
        }
    }
    Ok(())
}

/// Hands datagrams to a new scripted client.
fn attack_one_scripted(
    alloc: Global,
    is_open: bool,
    draws: &mut Draws,
    tally: &mut Tally,
) -> Result<(), NoMemory> {
    let key = Key {
        ip: CLIENT.ip,
        port: CLIENT.port,
    };
    let mut client = Client::new(alloc, key, SERVER, ISN, script(alloc)?);
    meet_all(alloc, &mut client, is_open, draws, tally)
}

/// Hands all datagrams to scripted clients, one after another. The first is open, and each later one in three of four cases.
pub(crate) fn attack_scripted(alloc: Global) -> Result<Tally, NoMemory> {
    let mut draws = Draws::new(SEED);
    let mut tally = Tally::new();
    let mut is_open = true;
    for _client in 0..DATAGRAMS {
        attack_one_scripted(alloc, is_open, &mut draws, &mut tally)?;
        if tally.is_complete() {
            break;
        }
        is_open = draws.below(4) > 0;
    }
    Ok(tally)
}

/// A live client under attack, and how many bytes it handed out.
#[derive(Drop)]
struct Target {
    client: LiveClient,
    /// The server's initial sequence number, once it is known.
    base: Option<Seq>,
    handed: u32,
}

impl Target {
    fn new(alloc: Global) -> Result<Target, NoMemory> {
        let client = LiveClient::new(alloc, CLIENT, SERVER, ISN, script(alloc)?)?;
        Ok(Target {
            client,
            base: None,
            handed: 0,
        })
    }

    fn flush(&mut self, out: &mut Outbox) {
        out.clear();
        self.client.flush(out);
    }

    /// A datagram comes, some bytes are accepted, which must be those that the server sends at that place, and the turn ends.
    fn meet(&mut self, bytes: &[u8], is_packet: bool, draws: &mut Draws, out: &mut Outbox) -> Kept {
        let before = self.client.outcome();
        self.client.on_packet(bytes);
        self.base = self.base.or(opening(bytes));
        let is_same = self.client.outcome() == before;
        require_all(&[
            (before.is_none() || is_same, Rule::End),
            (is_packet || is_same, Rule::Silence),
        ])?;
        let mut buf = [0u8; 50];
        let most = draws.below(51) as usize;
        let count = self.client.accept(&mut buf[..most]).min(most);
        require(SERVERS.is_part(self.handed, &buf[..count]), Rule::Text)?;
        self.handed = self.handed.saturating_add(count as u32);
        self.flush(out);
        require(is_packet || count > 0 || out.is_empty(), Rule::Silence)?;
        if before.is_none() {
            check_leaving(out)?;
        }
        if draws.below(20) == 0 {
            self.client.on_tick();
            self.flush(out);
        }
        Ok(())
    }

    /// The client sends its SYN, gets the server's in three of four cases, and meets as many datagrams as one gets.
    fn meet_all(&mut self, draws: &mut Draws, out: &mut Outbox, tally: &mut Tally) {
        self.flush(out);
        let mut packet = [0u8; limits::PACKET];
        if draws.below(4) > 0 {
            let len = syn_ack(&mut packet);
            self.client.on_packet(&packet[..len]);
            self.flush(out);
            self.base = Some(Seq(SERVER_ISN));
        }
        for _ in 0..AGE {
            let base = self.base.unwrap_or(Seq(SERVER_ISN));
            let known = Known {
                base,
                next: base.add(1).add(self.handed),
                sent: Seq(ISN).add(1).add(draws.below(22)),
            };
            let len = datagram(draws, tally.datagrams, known, &mut packet);
            let bytes = &packet[..len.min(limits::PACKET)];
            let is_packet = read_packet(bytes).is_ok();
            tally.note(is_packet, self.meet(bytes, is_packet, draws, out));
            if tally.is_complete() {
                break;
            }
        }
    }
}

/// The rules on a packet that leaves.
fn check_packet(bytes: &[u8]) -> Kept {
    let Ok(sent) = read_packet(bytes) else {
        return Err(Rule::Packet);
    };
    let (head, text) = (sent.head, sent.payload);
    let first = head.seq.minus(Seq(ISN).add(1)) as usize;
    let rest = SCRIPT.get(first..).unwrap_or(b"");
    require_all(&[
        (
            head.src == CLIENT.ip && head.dst == SERVER.ip && head.dport == SERVER.port,
            Rule::Packet,
        ),
        (rest.starts_with(text), Rule::Script),
    ])
}

/// The rules on what leaves.
fn check_leaving(out: &Outbox) -> Kept {
    for i in 0..out.len() {
        check_packet(out.packet(i))?;
    }
    Ok(())
}

/// Hands all datagrams to live clients, one after another.
pub(crate) fn attack_live(alloc: Global, out: &mut Outbox) -> Result<Tally, NoMemory> {
    let mut draws = Draws::new(SEED);
    let mut tally = Tally::new();
    for _client in 0..DATAGRAMS {
        let mut target = Target::new(alloc)?;
        target.meet_all(&mut draws, out, &mut tally);
        if tally.is_complete() {
            break;
        }
    }
    Ok(tally)
}
