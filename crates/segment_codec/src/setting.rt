//! Changing one field of a packet in place. Only its first 40 bytes are at hand: the TCP checksum is patched once for each word that is replaced (RFC 1624), so
//! the payload is not summed again.

ghost use Rattle.std.specs.Prelude.{◌≡◌, ◌≤◌, ◌<◌, ◌+◌, ◌/◌, ◌%◌, ◌^◌, ℕ, List, ◌++◌, length, slice_index, IsOk};
ghost use Rattle.seq_arith.specs.Bytes.{two, four};
ghost use Rattle.seq_arith.specs.Packet.{Segment, with_seq, with_ack, with_window};
ghost use Rattle.seq_arith.specs.PacketGrammar.{reading, spelling};
ghost use Rattle.segment_codec.specs.Change.{put, sealed, patched_at, changed};

use crate::fields::{put_word, read_word};
use seq_arith::{Seq, patch16};

/// Replaces a word of the TCP header and patches the TCP checksum for it.
#[tactic(auto, unfolding(crate::specs::Change::patched_at))]
pub(crate) fn patch_word(head: &mut [u8], at: usize, word: u16)
    requires long { 40 ≤ length head.old }
    requires within { at + 2 ≤ 40 }
    ensures bytes { head.new ≡ patched_at at word head.old }
    ensures octets { (k : ℕ) → slice_index head.old k < 256 }
{
    let check = read_word(head, 36);
    let old = read_word(head, at);
    put_word(head, at, word);
    put_word(head, 36, patch16(check, old, word));
}

/// Sets a packet's sequence number. `head` is the packet's first 40 bytes. All that follows them stays.
pub fn set_seq(head: &mut [u8], seq: Seq)
    requires { length head.old ≡ 40 }
    // Whatever follows the head, if the packet was accepted with it: the packet is read as before, with that field changed.
    ensures read { (rest : List ℕ) → IsOk (reading (head.old ++ rest)) → reading (head.new ++ rest) ≡ changed (with_seq seq.0) (reading (head.old ++ rest)) }
    // If the TCP checksum was the one that is computed from the packet, it is so again.
    ensures summed { (rest : List ℕ) → sealed (head.old ++ rest) ≡ head.old ++ rest → head.new ++ rest ≡ sealed (put 24 (four seq.0) (head.old ++ rest)) }
    // The spelling of a segment becomes the spelling of the changed one.
    ensures canonical { (segment : Segment) (rest : List ℕ) → head.old ++ rest ≡ spelling segment → head.new ++ rest ≡ spelling (with_seq seq.0 segment) }
    ensures bytes { head.new ≡ patched_at 26 (seq.0 % 65536) (patched_at 24 (seq.0 / 65536) head.old) }
{
    patch_word(head, 24, (seq.0 / 65536) as u16);
    patch_word(head, 26, (seq.0 % 65536) as u16);
}

/// Sets a packet's acknowledgement number, as `set_seq` sets its sequence number.
pub fn set_ack(head: &mut [u8], ack: Seq)
    requires { length head.old ≡ 40 }
    ensures read { (rest : List ℕ) → IsOk (reading (head.old ++ rest)) → reading (head.new ++ rest) ≡ changed (with_ack ack.0) (reading (head.old ++ rest)) }
    ensures summed { (rest : List ℕ) → sealed (head.old ++ rest) ≡ head.old ++ rest → head.new ++ rest ≡ sealed (put 28 (four ack.0) (head.old ++ rest)) }
    ensures canonical { (segment : Segment) (rest : List ℕ) → head.old ++ rest ≡ spelling segment → head.new ++ rest ≡ spelling (with_ack ack.0 segment) }
    ensures bytes { head.new ≡ patched_at 30 (ack.0 % 65536) (patched_at 28 (ack.0 / 65536) head.old) }
{
    patch_word(head, 28, (ack.0 / 65536) as u16);
    patch_word(head, 30, (ack.0 % 65536) as u16);
}

/// Sets a packet's window, in bytes, as `set_seq` sets its sequence number.
pub fn set_window(head: &mut [u8], window: u16)
    requires { length head.old ≡ 40 }
    ensures read { (rest : List ℕ) → IsOk (reading (head.old ++ rest))
        → reading (head.new ++ rest) ≡ changed (with_window window) (reading (head.old ++ rest)) }
    ensures summed { (rest : List ℕ) → sealed (head.old ++ rest) ≡ head.old ++ rest → head.new ++ rest ≡ sealed (put 34 (two window) (head.old ++ rest)) }
    ensures canonical { (segment : Segment) (rest : List ℕ) → head.old ++ rest ≡ spelling segment → head.new ++ rest ≡ spelling (with_window window segment) }
    ensures bytes { head.new ≡ patched_at 34 window head.old }
{
    patch_word(head, 34, window);
}
