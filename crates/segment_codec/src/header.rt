//! The headers of a packet in its one spelling: no options but the segment size and the timestamps, "don't fragment", a time to live of 64, and zero for the
//! rest. The checksums are computed with zero in their places.

ghost use Rattle.limits.specs.Limits.{longest_packet};
ghost use Rattle.std.specs.Prelude.{◌≡◌, ◌<◌, ◌≤◌, ◌+◌, ◌/◌, ◌^◌, IfSome, length, drop, Ok};
ghost use Rattle.seq_arith.specs.PacketGrammar.{mss_option, timestamps_option, options_of, reading, spelling};
ghost use Rattle.segment_codec.specs.Change.{put};
ghost use Rattle.segment_codec.specs.Value.{said};
ghost use Rattle.segment_codec.specs.Spelling.{PlacesFit, NumbersFit, segment_with, ip_start, places, numbers, with_checksums};

use crate::Head;
use crate::fields::{ip_checksum, put_long, put_word, seal};
use seq_arith::Timestamps;

/// Writes the headers before a payload that is already in its place: from where `payload_start` says to the end of `packet`.
/// The packet is then what `write_packet` writes.
pub fn write_header(head: &Head, packet: &mut [u8])
    requires room { 40 + length (options_of (said head.now)) ≤ length packet.old }
    requires fits { length packet.old ≤ longest_packet }
    ensures bytes { packet.new ≡ spelling (segment_with head.now (drop (40 + length (options_of (said head.now))) packet.old)) }
    // What was written is read back.
    ensures read { reading packet.new ≡ Ok (segment_with head.now (drop (40 + length (options_of (said head.now))) packet.old)) }
{
    put_ip_start(packet, packet.len() as u16);
    put_places(packet, head);
    put_numbers(packet, head);
    put_options(packet, head);
    seal_both(packet);
}

/// Where the payload is in a packet that is written: after the headers, in bytes from the packet's beginning.
pub fn payload_start(head: &Head) -> usize
    ensures place { result ≡ 40 + length (options_of (said head.now)) }
    ensures bound { result ≤ 56 }
{
    mss_end(head.mss) + timestamps_length(head.timestamps)
}

/// Where the option of the segment size ends.
fn mss_end(mss: Option<u16>) -> usize
    ensures place { result ≡ 40 + length (mss_option mss) }
    ensures bound { result ≤ 44 }
{
    match mss {
        Some(_) => 44,
        None => 40,
    }
}

/// How many bytes the timestamps take.
#[tactic(auto, unfolding(seq_arith::specs::Bytes::four))]
fn timestamps_length(timestamps: Option<Timestamps>) -> usize
    ensures length { result ≡ length (timestamps_option timestamps) }
    ensures bound { result ≤ 12 }
{
    match timestamps {
        Some(_) => 12,
        None => 0,
    }
}

/// How many words of four bytes the TCP header has.
fn header_words(head: &Head) -> u16
    ensures words { result ≡ 5 + length (options_of (said head.now)) / 4 }
    ensures bound { result ≤ 9 }
{
    (payload_start(head) / 4 - 5) as u16
}

/// Version 4, a header of five words, the total length, "don't fragment", a time to live of 64, TCP.
fn put_ip_start(out: &mut [u8], len: u16)
    requires { 40 ≤ length out.old }
    ensures { out.new ≡ put 0 (ip_start len) out.old }
{
    put_word(out, 0, 0x4500);
    put_word(out, 2, len);
    put_long(out, 4, 0x4000);
    put_long(out, 8, 0x4006_0000);
}

fn put_places(out: &mut [u8], head: &Head)
    requires { 40 ≤ length out.old }
    ensures bytes { out.new ≡ put 12 (places (said head.now)) out.old }
    ensures fits { PlacesFit (said head.now) }
{
    put_long(out, 12, head.src);
    put_long(out, 16, head.dst);
    put_word(out, 20, head.sport);
    put_word(out, 22, head.dport);
}

/// The sequence and acknowledgement numbers, the header's length, the flags and the window, and zero for the rest.
fn put_numbers(out: &mut [u8], head: &Head)
    requires { 40 ≤ length out.old }
    ensures bytes { out.new ≡ put 24 (numbers (said head.now)) out.old }
    ensures fits { NumbersFit (said head.now) }
{
    put_long(out, 24, head.seq.0);
    put_long(out, 28, head.ack.0);
    put_word(out, 32, header_words(head) * 4096 + u16::from(head.flags));
    put_word(out, 34, head.window);
    put_long(out, 36, 0);
}

/// The segment size, then the timestamps.
fn put_options(out: &mut [u8], head: &Head)
    requires { 40 + length (options_of (said head.now)) ≤ length out.old }
    ensures bytes { out.new ≡ put 40 (options_of (said head.now)) out.old }
    ensures mss { IfSome head.now.mss (λ mss. mss < 2 ^ 16) }
    ensures timestamps { IfSome head.now.timestamps (λ t. (t.value < 2 ^ 32) × (t.echo < 2 ^ 32)) }
{
    put_mss(out, head.mss);
    put_timestamps(out, mss_end(head.mss), head.timestamps);
}

fn put_mss(out: &mut [u8], mss: Option<u16>)
    requires { 40 + length (mss_option mss) ≤ length out.old }
    ensures bytes { out.new ≡ put 40 (mss_option mss) out.old }
    ensures fits { IfSome mss (λ mss. mss < 2 ^ 16) }
{
    match mss {
        Some(mss) => {
            put_word(out, 40, 0x0204);
            put_word(out, 42, mss);
        }
        None => {}
    }
}

/// Two NOPs, kind 8, length 10, and both numbers (RFC 7323, appendix A).
#[tactic(auto, unfolding(seq_arith::specs::Bytes::four))]
fn put_timestamps(out: &mut [u8], at: usize, timestamps: Option<Timestamps>)
    requires { at + length (timestamps_option timestamps) ≤ length out.old }
    ensures bytes { out.new ≡ put at (timestamps_option timestamps) out.old }
    ensures fits { IfSome timestamps (λ t. (t.value < 2 ^ 32) × (t.echo < 2 ^ 32)) }
{
    match timestamps {
        Some(timestamps) => {
            put_long(out, at, 0x0101_080A);
            put_long(out, at + 4, timestamps.value);
            put_long(out, at + 8, timestamps.echo);
        }
        None => {}
    }
}

/// Computes both checksums.
#[tactic(auto, unfolding(crate::specs::Spelling::with_checksums))]
fn seal_both(packet: &mut [u8])
    requires long { 40 ≤ length packet.old }
    requires short { length packet.old ≤ longest_packet }
    ensures { packet.new ≡ with_checksums packet.old }
{
    let check = ip_checksum(packet);
    put_word(packet, 10, check);
    seal(packet);
}
