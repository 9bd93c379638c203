//! Wrong results that the contracts of this crate exclude. Each function calls another one of the crate, and promises of its result what a wrong body would
//! make false. It is proved from the other's contract alone, so it is no longer proved once that contract lets the wrong body pass.

ghost use Rattle.std.specs.Prelude.{◌≡◌, Some};
ghost use Rattle.seq_arith.specs.declared.BadPacket.TheVariants.{TotalLength, TcpChecksum};

use crate::BadPacket;
use crate::fields::{read_word, seal};
use crate::reading::{ip_refusal, read_tcp};
use crate::setting::patch_word;

/// A packet of 41 bytes whose total length is 40 is refused: the clause `first` of `ip_refusal`.
#[tactic(auto, unfolding(seq_arith::specs::PacketGrammar::ip_tests, seq_arith::specs::Bytes::word_at))]
fn accepts_a_byte_too_many() -> Option<BadPacket>
    ensures { result ≡ Some TotalLength }
{
    let mut bytes = [0; 41];
    bytes[0] = 0x45;
    bytes[3] = 40;
    ip_refusal(&bytes)
}

/// The TCP checksum of 40 zero bytes is computed, and isn't zero: the contract of `seal`.
#[tactic(auto, unfolding(crate::proofs::Unfolded::forgets_checksum_words))]
fn forgets_checksum() -> u16
    ensures { result ≡ 65509 }
{
    let mut bytes = [0; 40];
    seal(&mut bytes);
    read_word(&bytes, 36)
}

/// A checksum is patched in one's complement, with the carries added back in: the clause `bytes` of `patch_word`.
#[tactic(auto, unfolding(crate::proofs::Unfolded::forgets_the_carry_of_a_word_words))]
fn forgets_the_carry_of_a_word() -> u16
    ensures { result ≡ 65534 }
{
    let mut head = [0; 40];
    patch_word(&mut head, 34, 1);
    read_word(&head, 36)
}

/// A packet of 40 bytes that doesn't sum to its TCP checksum is refused: the contract of `read_tcp`.
#[tactic(auto, unfolding(crate::proofs::Unfolded::ignores_tcp_checksum_words))]
fn ignores_tcp_checksum() -> Option<BadPacket>
    ensures { result ≡ Some TcpChecksum }
{
    let mut bytes = [0; 40];
    bytes[32] = 0x50;
    read_tcp(&bytes).err()
}
