//! A packet that is known to be accepted is read without the tests, and so without computing a checksum.

ghost use Rattle.limits.specs.Limits.{largest_segment, longest_packet};
ghost use Rattle.std.specs.Prelude.{◌≡◌, ◌≤◌, ◌-◌, Ok, IsOk, length, drop};
ghost use Rattle.seq_arith.specs.PacketGrammar.{reading, payload_at, options_in, mss_in, timestamps_in};
ghost use Rattle.segment_codec.specs.Value.{segment_of};

use crate::PacketRef;
use crate::reading::{Options, payload_start, read_head, read_options};

/// Reads a packet that `read_packet` accepts. It looks only at the headers.
#[tactic(auto, using(crate::proofs::Cited::read_accepted_lemmas), unfolding(seq_arith::specs::PacketGrammar::segment_in))]
pub fn read_accepted(bytes: &[u8]) -> PacketRef<'_>
    requires { IsOk (reading bytes.now) }
    ensures read { reading bytes.now ≡ Ok (segment_of result) }
    // The payload is the end of the bytes.
    ensures place { result.payload.now ≡ drop (length bytes.now - length result.payload.now) bytes.now }
    ensures within { length result.payload.now ≤ length bytes.now }
    ensures most { length result.payload.now ≤ largest_segment }
    ensures short { length bytes.now ≤ longest_packet }
{
    let start = accepted_start(bytes);
    PacketRef {
        head: read_head(bytes, accepted_options(bytes, start)),
        payload: &bytes[start..],
    }
}

/// Where the payload begins.
#[tactic(auto, using(crate::proofs::Accepting::header_is_long, crate::proofs::Accepting::start_is_there))]
fn accepted_start(bytes: &[u8]) -> usize
    requires { IsOk (reading bytes.now) }
    ensures value { result ≡ payload_at bytes.now }
    ensures behind { 40 ≤ result }
    ensures within { result ≤ length bytes.now }
{
    payload_start(bytes)
}

/// What the options say.
#[tactic(auto, using(crate::proofs::Accepting::options_are_good), unfolding(seq_arith::specs::PacketGrammar::options_in))]
fn accepted_options(bytes: &[u8], start: usize) -> Options
    requires accepted { IsOk (reading bytes.now) }
    requires start { start ≡ payload_at bytes.now }
    requires behind { 40 ≤ start }
    requires within { start ≤ length bytes.now }
    ensures mss { result.mss ≡ mss_in 0 (options_in bytes.now) }
    ensures timestamps { result.timestamps ≡ timestamps_in 0 (options_in bytes.now) }
{
    read_options(&bytes[40..start]).unwrap_or(Options {
        mss: None,
        timestamps: None,
    })
}
