//! Hostile datagrams from a seed: half of them are any bytes, and the others packets with right sums, half of which lie near the connection's
//! numbers.

ghost use Rattle.std.specs.Prelude.{◌≤◌};
ghost use Rattle.wrapped_conn.specs.Sound.{IsSound};

use crate::peers::{CISN, CLIENT, SERVER, SISN, connection, take_packet};
use crate::rules::{CLIENTS, Kept, Rule, check};
use crate::situations::{Situation, arrange, log_all};
use ft_io::NoMemory;
use sample_servers::AnyService;
use segment_codec::{Head, read_packet, write_packet};
use seq_arith::{ACK, FIN, RST, Seq, has};
use std::alloc::Global;
use tcp_endpoint::StateName;
use tcp_rules::Profile;
use test_data::Draws;
use wrapped_conn::{Conn, ConnStage, Inside, TurnOut};

const SEED: u64 = 1;

/// How many connections there are, and how many datagrams each gets.
const CONNECTIONS: u32 = 200;

const DATAGRAMS: u32 = 50;

/// In which situation connections were, and what came of all datagrams.
#[derive(Clone, Copy)]
pub(crate) struct Tally {
    /// The state of TCP and the stage in which the last connection met its first datagram.
    pub(crate) begun: Option<(StateName, ConnStage)>,
    pub(crate) datagrams: u32,
    pub(crate) packets: u32,
    /// Whether any segment left.
    pub(crate) answers: bool,
    pub(crate) broken: Option<Rule>,
}

impl Tally {
    fn note(&mut self, kept: Kept, out: &TurnOut) {
        self.answers = self.answers || !out.segments().is_empty();
        if let Err(rule) = kept {
            self.broken = self.broken.or(Some(rule));
        }
    }
}

fn flags(draws: &mut Draws) -> u8 {
    match draws.below(6) {
        0 | 1 => draws.byte(),
        2 => FIN | ACK,
        3 => RST,
        _ => ACK,
    }
}

/// Writes a packet of the client with these numbers, whose text is the client's at its place, and answers its length.
fn packet(draws: &mut Draws, seq: Seq, ack: Seq, out: &mut [u8; limits::PACKET]) -> usize
    ensures { result ≤ 1500 }
{
    let head = Head {
        src: CLIENT.ip,
        dst: SERVER.ip,
        sport: CLIENT.port,
        dport: SERVER.port,
        seq,
        ack,
        flags: flags(draws),
        window: draws.below(65_536) as u16,
        mss: None,
        timestamps: None,
    };
    let mut text = [0u8; 60];
    CLIENTS.fill(seq.minus(CISN.add(1)), &mut text);
    let len = draws.below(61) as usize;
    write_packet(&head, &text[..len], out)
}

/// Every second datagram is a packet, and every second of these is near to the connection's numbers.
fn datagram(draws: &mut Draws, number: u32, inside: Inside, out: &mut [u8; limits::PACKET]) -> usize
    ensures { result ≤ 1500 }
{
    match number % 4 {
        1 => {
            let (seq, ack) = (draws.number(), draws.number());
            packet(draws, seq, ack, out)
        }
        3 => {
            let seq = draws.perturbed(CISN.add(1).add(inside.taken));
            let ack = draws.perturbed(SISN.add(1).add(inside.sent));
            packet(draws, seq, ack, out)
        }
        _ => draws.anything(&mut out[..]),
    }
}

/// Whether a datagram is a packet, and one that resets a connection with these numbers (RFC 5961, 3.2).
fn kind_of(bytes: &[u8], inside: Inside) -> (bool, bool) {
    match read_packet(bytes) {
        Ok(packet) => {
            let next = CISN.add(1).add(inside.taken);
            (true, has(packet.head.flags, RST) && packet.head.seq == next)
        }
        Err(_) => (false, false),
    }
}

/// One connection of a server with this profile meets its datagrams. At every fifth, all that it has taken and read is logged then.
fn meet(
    alloc: Global,
    conn: &mut Conn<AnyService>,
    profile: Profile,
    situation: Situation,
    draws: &mut Draws,
    out: &mut TurnOut,
    tally: &mut Tally,
) -> Result<(), NoMemory>
    requires { IsSound conn.old }
{
    arrange(alloc, conn, situation, out)?;
    tally.begun = Some((conn.endpoint().state().name, conn.stage()));
    let mut is_reset = situation == Situation::Reset;
    let mut bytes = [0u8; limits::PACKET];
    for i in 0..DATAGRAMS {
        let before = conn.inside();
        let len = datagram(draws, i, before, &mut bytes);
        let (is_packet, resets) = kind_of(&bytes[..len], before);
        is_reset = is_reset || resets;
        take_packet(alloc, conn, &mut bytes[..len], out)?;
        tally.datagrams = tally.datagrams.saturating_add(1);
        tally.packets = tally.packets.saturating_add(u32::from(is_packet));
        tally.note(
            check(before, is_reset, is_packet, profile.grammar(), conn, out),
            out,
        );
        if i % 5 == 4 {
            let before = conn.inside();
            log_all(alloc, conn, out)?;
            tally.note(
                check(before, is_reset, true, profile.grammar(), conn, out),
                out,
            );
        }
    }
    Ok(())
}

/// One connection is brought into the situation and meets its datagrams.
fn attack_one(
    alloc: Global,
    profile: Profile,
    situation: Situation,
    draws: &mut Draws,
    out: &mut TurnOut,
    tally: &mut Tally,
) -> Result<(), NoMemory> {
    let mut conn = connection(alloc, profile, situation.kind())?;
    meet(alloc, &mut conn, profile, situation, draws, out, tally)
}

/// Hands all datagrams to connections of a server with this profile in this situation, one after another.
pub(crate) fn attack(
    alloc: Global,
    profile: Profile,
    situation: Situation,
    out: &mut TurnOut,
) -> Result<Tally, NoMemory> {
    let mut draws = Draws::new(SEED);
    let mut tally = Tally {
        begun: None,
        datagrams: 0,
        packets: 0,
        answers: false,
        broken: None,
    };
    for _ in 0..CONNECTIONS {
        attack_one(alloc, profile, situation, &mut draws, out, &mut tally)?;
    }
    Ok(tally)
}
