//! Reading a packet in place: the tests in the grammar's order, each field at its place, and the payload as a part of the bytes.

ghost use Rattle.std.specs.Prelude.{◌≡◌, ◌≤◌, ◌<◌, ◌+◌, ◌-◌, ◌*◌, ◌^◌, ◌≢◌, true, false, length, drop, slice_index, ◌∷◌, IfNone, IfSome};
ghost use Rattle.std.specs.Option.{option_or};
ghost use Rattle.seq_arith.specs.PacketGrammar.{ip_tests, tcp_tests, first_that_holds, segment_in, head_in, unless, reading, payload_at, options_in};
ghost use Rattle.seq_arith.specs.PacketGrammar.{has_bad_option, mss_in, timestamps_in};
ghost use Rattle.segment_codec.specs.Options.{option_rest};
ghost use Rattle.segment_codec.specs.Value.{said, seen};

use crate::fields::{ip_checksum, read_long, read_word, tcp_checksum};
use crate::{Head, PacketRef};
use limits::PACKET;
use seq_arith::{BadPacket, Seq, Timestamps};

/// The options of a header that this project uses.
#[derive(Clone, Copy)]
pub(crate) struct Options {
    /// The segment size that is offered.
    pub mss: Option<u16>,
    /// The timestamps.
    pub timestamps: Option<Timestamps>,
}

/// Reads a packet, or returns the first test of the grammar that refuses it. It reads the payload once and copies none of it.
#[tactic(auto, using(crate::proofs::Refusals::by_parts))]
pub fn read_packet(bytes: &[u8]) -> Result<PacketRef<'_>, BadPacket>
    ensures { seen result ≡ reading bytes.now }
{
    match ip_refusal(bytes) {
        Some(bad) => Err(bad),
        None => read_tcp(bytes),
    }
}

/// The first test of the IP header that refuses the packet, if one does.
#[tactic(auto, unfolding(seq_arith::specs::PacketGrammar::ip_tests))]
pub(crate) fn ip_refusal(bytes: &[u8]) -> Option<BadPacket>
    ensures first { result ≡ first_that_holds (ip_tests bytes.now) }
    ensures long { IfNone result (40 ≤ length bytes.now) }
    ensures short { IfNone result (length bytes.now < 2 ^ 16) }
{
    if bytes.len() < 40 {
        return Some(BadPacket::Short);
    }
    if bytes[0] / 16 != 4 {
        return Some(BadPacket::Version);
    }
    if bytes[0] % 16 != 5 {
        return Some(BadPacket::HeaderLength);
    }
    if usize::from(read_word(bytes, 2)) != bytes.len() {
        return Some(BadPacket::TotalLength);
    }
    if read_word(bytes, 6) % 16384 != 0 {
        return Some(BadPacket::Fragment);
    }
    if bytes[9] != 6 {
        return Some(BadPacket::Protocol);
    }
    if ip_checksum(bytes) != 0 {
        return Some(BadPacket::IpChecksum);
    }
    None
}

/// Reads what follows an IP header that passed its tests.
#[tactic(auto, unfolding(seq_arith::specs::PacketGrammar::tcp_tests, seq_arith::specs::PacketGrammar::segment_in, seq_arith::specs::PacketGrammar::options_in))]
pub(crate) fn read_tcp(bytes: &[u8]) -> Result<PacketRef<'_>, BadPacket>
    requires long { 40 ≤ length bytes.now }
    requires short { length bytes.now < 2 ^ 16 }
    ensures { seen result ≡ unless (first_that_holds (tcp_tests bytes.now)) (segment_in bytes.now) }
{
    let start = payload_start(bytes);
    if start < 40 || bytes.len() < start {
        return Err(BadPacket::DataOffset);
    }
    let Some(options) = read_options(&bytes[40..start]) else {
        return Err(BadPacket::OptionLength);
    };
    if tcp_checksum(bytes) != 0 {
        return Err(BadPacket::TcpChecksum);
    }
    if bytes.len() > PACKET {
        return Err(BadPacket::TooLong);
    }
    Ok(PacketRef {
        head: read_head(bytes, options),
        payload: &bytes[start..],
    })
}

#[tactic(auto, unfolding(seq_arith::specs::PacketGrammar::payload_at))]
pub(crate) fn payload_start(bytes: &[u8]) -> usize
    requires { 40 ≤ length bytes.now }
    ensures { result ≡ payload_at bytes.now }
{
    20 + 4 * usize::from(bytes[32] / 16)
}

#[tactic(auto, unfolding(seq_arith::specs::PacketGrammar::head_in))]
pub(crate) fn read_head(bytes: &[u8], options: Options) -> Head
    requires long { 40 ≤ length bytes.now }
    requires mss { options.mss ≡ mss_in 0 (options_in bytes.now) }
    requires timestamps { options.timestamps ≡ timestamps_in 0 (options_in bytes.now) }
    ensures { said result ≡ head_in bytes.now }
{
    Head {
        src: read_long(bytes, 12),
        dst: read_long(bytes, 16),
        sport: read_word(bytes, 20),
        dport: read_word(bytes, 22),
        seq: Seq(read_long(bytes, 24)),
        ack: Seq(read_long(bytes, 28)),
        flags: bytes[33],
        window: read_word(bytes, 34),
        mss: options.mss,
        timestamps: options.timestamps,
    }
}

/// What the options say: of each kind the first. `None` where an option's length is wrong.
pub(crate) fn read_options(options: &[u8]) -> Option<Options>
    ensures good { IfSome result (λ _. has_bad_option 0 options.now ≡ false) }
    ensures mss { IfSome result (λ o. o.mss ≡ mss_in 0 options.now) }
    ensures timestamps { IfSome result (λ o. o.timestamps ≡ timestamps_in 0 options.now) }
    ensures bad { IfNone result (has_bad_option 0 options.now ≡ true) }
{
    let mut rest = options;
    let mut mss = None;
    let mut timestamps = None;
    while let Some((kind, behind)) = rest.split_first() {
        if *kind == 0 {
            return Some(Options { mss, timestamps });
        }
        let passed = bytes_behind(*kind, behind)?;
        mss = mss_after(mss, *kind, behind, passed);
        timestamps = timestamps_after(timestamps, *kind, behind, passed);
        rest = &behind[passed..];
    }
    Some(Options { mss, timestamps })
}

/// How many bytes of an option follow its kind, which isn't 0. `None` where its length is wrong.
#[tactic(auto, using(crate::proofs::Options::short_length, crate::proofs::Options::far_length, crate::proofs::Options::good_length))]
fn bytes_behind(kind: u8, behind: &[u8]) -> Option<usize>
    requires { kind ≢ 0 }
    ensures within { IfSome result (λ n. n ≤ length behind.now) }
    ensures counted { IfSome result (λ n. n ≡ option_rest kind behind.now) }
    ensures good { IfSome result (λ n. has_bad_option 0 (kind ∷ behind.now) ≡ has_bad_option 0 (drop n behind.now)) }
    ensures bad { IfNone result (has_bad_option 0 (kind ∷ behind.now) ≡ true) }
{
    if kind == 1 {
        return Some(0);
    }
    let len = option_length(behind);
    if len < 2 {
        return None;
    }
    if behind.len() < len - 1 {
        return None;
    }
    Some(len - 1)
}

/// The length byte after an option's kind, or 0 where there is none.
fn option_length(behind: &[u8]) -> usize
    ensures { result ≡ slice_index behind.now 0 }
{
    match behind.first() {
        Some(len) => usize::from(*len),
        None => 0,
    }
}

/// The segment size found so far, or the one that this option gives.
#[tactic(auto, using(crate::proofs::Options::mss_found, crate::proofs::Options::mss_passed))]
fn mss_after(found: Option<u16>, kind: u8, behind: &[u8], passed: usize) -> Option<u16>
    requires proceeds { kind ≢ 0 }
    requires within { passed ≤ length behind.now }
    requires counted { passed ≡ option_rest kind behind.now }
    ensures { option_or result (mss_in 0 (drop passed behind.now)) ≡ option_or found (mss_in 0 (kind ∷ behind.now)) }
{
    if found.is_none() && kind == 2 && passed == 3 {
        return Some(read_word(behind, 1));
    }
    found
}

/// The timestamps found so far, or those that this option gives.
#[tactic(auto, using(crate::proofs::Options::timestamps_found, crate::proofs::Options::timestamps_passed))]
fn timestamps_after(
    found: Option<Timestamps>,
    kind: u8,
    behind: &[u8],
    passed: usize,
) -> Option<Timestamps>
    requires proceeds { kind ≢ 0 }
    requires within { passed ≤ length behind.now }
    requires counted { passed ≡ option_rest kind behind.now }
    ensures { option_or result (timestamps_in 0 (drop passed behind.now)) ≡ option_or found (timestamps_in 0 (kind ∷ behind.now)) }
{
    if found.is_none() && kind == 8 && passed == 9 {
        return Some(Timestamps {
            value: read_long(behind, 1),
            echo: read_long(behind, 5),
        });
    }
    found
}
