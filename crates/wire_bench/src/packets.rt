//! Packets, read many times: `packets BYTES ROUNDS` writes 64 packets of BYTES bytes, reads each of them ROUNDS times, and gives what their
//! sequence numbers and payloads add up to. With a third word `set` it sets the sequence number, the acknowledgement and the window of each of
//! them ROUNDS times, reads each once, and adds what their checksums add up to.

ghost use Rattle.std.specs.Prelude.{◌<◌, ◌≤◌, ◌≡◌, length};

use anyhow::{Context, Result, bail, ensure};
use segment_codec::{Head, read_packet, set_ack, set_seq, set_window, write_packet};
use seq_arith::{ACK, Seq};
use std::alloc::{AllocError, Global};

const PACKETS: u32 = 64;

/// What the packets of these words add up to.
pub(crate) fn total(alloc: Global, words: &[&str]) -> Result<u64> {
    let (bytes, rounds, sets) = match words {
        [bytes, rounds] => (bytes, rounds, false),
        [bytes, rounds, "set"] => (bytes, rounds, true),
        _ => bail!("packets BYTES ROUNDS [set]"),
    };
    let bytes: usize = bytes.parse().context("BYTES")?;
    let rounds: u32 = rounds.parse().context("ROUNDS")?;
    ensure!(
        40 <= bytes && bytes <= limits::PACKET,
        "BYTES is 40 to 1500"
    );
    let mut packets = Vec::new(alloc);
    push_packets(bytes, &mut packets)?;
    if !sets {
        return Ok(read_all(&packets, bytes, rounds));
    }
    set_all(packets.as_mut_slice(), bytes, rounds);
    Ok(read_all(&packets, bytes, 1).wrapping_add(checks(&packets, bytes)))
}

/// Packets of this length, one after the other. The ith has the sequence number i.
fn push_packets(bytes: usize, packets: &mut Vec<u8>) -> Result<(), AllocError>
    requires long { 40 ≤ bytes }
    requires short { bytes ≤ 1500 }
{
    let text = [b'a'; limits::TEXT];
    let mut out = [0u8; limits::PACKET];
    for i in 0..PACKETS {
        let head = Head {
            src: 0xC000_0201,
            dst: 0xC000_0264,
            sport: 40_000,
            dport: 7,
            seq: Seq(i),
            ack: Seq(1),
            flags: ACK,
            window: 65_535,
            mss: None,
            timestamps: None,
        };
        let len = write_packet(&head, &text[..bytes - 40], &mut out);
        packets.extend_from_slice(&out[..len])?;
    }
    Ok(())
}

fn read_all(packets: &[u8], bytes: usize, rounds: u32) -> u64
    requires { 0 < bytes }
{
    let mut total = 0u64;
    for _ in 0..rounds {
        for packet in packets.chunks_exact(bytes) {
            if let Ok(packet) = read_packet(packet) {
                total = total
                    .wrapping_add(u64::from(packet.head.seq.0))
                    .wrapping_add(packet.payload.len() as u64);
            }
        }
    }
    total
}

fn set_all(packets: &mut [u8], bytes: usize, rounds: u32)
    requires { 0 < bytes }
{
    for round in 0..rounds {
        for packet in packets.chunks_exact_mut(bytes) {
            if packet.len() >= 40 {
                set_three(&mut packet[..40], round);
            }
        }
    }
}

fn set_three(head: &mut [u8], round: u32)
    requires { length head.old ≡ 40 }
{
    set_seq(head, Seq(round.wrapping_mul(77_777)));
    set_ack(head, Seq(round.wrapping_mul(55_555)));
    set_window(head, (round % 65_536) as u16);
}

/// What the TCP checksums add up to.
fn checks(packets: &[u8], bytes: usize) -> u64
    requires { 0 < bytes }
{
    let mut total = 0u64;
    for packet in packets.chunks_exact(bytes) {
        if let [high, low] = packet.get(36..38).unwrap_or(&[]) {
            total = total.wrapping_add(u64::from(*high) * 256 + u64::from(*low));
        }
    }
    total
}
