//! Numbers at places of a packet, and the two checksums over it.

ghost use Rattle.std.specs.Prelude.{◌≡◌, ◌≤◌, ◌<◌, ◌+◌, ◌^◌, length, take};
ghost use Rattle.seq_arith.specs.Bytes.{two, four, word_at, long_at};
ghost use Rattle.seq_arith.specs.Checksum.{checksum};
ghost use Rattle.seq_arith.specs.PacketGrammar.{tcp_text};
ghost use Rattle.segment_codec.specs.Change.{put, sealed};

use crate::summing::{check_of, words_of};
use byteorder::{BigEndian, ByteOrder};
use seq_arith::Sum16;

#[tactic(auto, using(std::proofs::lemmas::List::take_rest), unfolding(seq_arith::specs::Bytes::word_at))]
pub(crate) fn read_word(bytes: &[u8], at: usize) -> u16
    requires { at + 2 ≤ length bytes.now }
    ensures { result ≡ word_at bytes.now at }
{
    BigEndian::read_u16(&bytes[at..])
}

#[tactic(auto, using(std::proofs::lemmas::List::take_rest), unfolding(seq_arith::specs::Bytes::long_at))]
pub(crate) fn read_long(bytes: &[u8], at: usize) -> u32
    requires { at + 4 ≤ length bytes.now }
    ensures { result ≡ long_at bytes.now at }
{
    BigEndian::read_u32(&bytes[at..])
}

#[tactic(auto, unfolding(seq_arith::specs::Bytes::two, crate::specs::Change::put))]
pub(crate) fn put_word(bytes: &mut [u8], at: usize, n: u16)
    requires { at + 2 ≤ length bytes.old }
    ensures { bytes.new ≡ put at (two n) bytes.old }
{
    BigEndian::write_u16(&mut bytes[at..], n);
}

#[tactic(auto, unfolding(seq_arith::specs::Bytes::four, crate::specs::Change::put))]
pub(crate) fn put_long(bytes: &mut [u8], at: usize, n: u32)
    requires { at + 4 ≤ length bytes.old }
    ensures { bytes.new ≡ put at (four n) bytes.old }
{
    BigEndian::write_u32(&mut bytes[at..], n);
}

pub(crate) fn put_bytes(bytes: &mut [u8], at: usize, new: &[u8])
    requires { at + length new.now ≤ length bytes.old }
    ensures { bytes.new ≡ put at new.now bytes.old }
{
    bytes[at..at + new.len()].copy_from_slice(new);
}

/// The checksum of the IP header, computed over whatever is in the checksum's place.
pub(crate) fn ip_checksum(bytes: &[u8]) -> u16
    requires { 20 ≤ length bytes.now }
    ensures { result ≡ checksum (take 20 bytes.now) }
{
    let mut sum = Sum16::new();
    sum.take(&bytes[..20]);
    sum.check()
}

/// The TCP checksum of a packet, computed over whatever is in the checksum's place. It sums the protocol and the length too, and the addresses, which stand in
/// front of the TCP header. The headers are summed by themselves: their number of bytes is known, so nothing of them that was just written is read again.
#[inline(always)]
pub(crate) fn tcp_checksum(bytes: &[u8]) -> u16
    requires long { 40 ≤ length bytes.now }
    requires short { length bytes.now < 2 ^ 16 }
    ensures { result ≡ checksum (tcp_text bytes.now) }
{
    let len = (bytes.len() - 20) as u64;
    check_of(words_of(&bytes[12..40]) + words_of(&bytes[40..]) + 6 + len)
}

/// Computes the TCP checksum again, and writes it into its place.
#[tactic(auto, unfolding(crate::specs::Change::sealed))]
pub(crate) fn seal(bytes: &mut [u8])
    requires long { 40 ≤ length bytes.old }
    requires short { length bytes.old < 2 ^ 16 }
    ensures { bytes.new ≡ sealed bytes.old }
{
    put_word(bytes, 36, 0);
    let check = tcp_checksum(bytes);
    put_word(bytes, 36, check);
}
