//! Wrong results that the contracts of this crate exclude. Each function calls another one of the crate, and promises of its result what a wrong body would
//! make false. It is proved from the other's contract alone, so it is no longer proved once that contract lets the wrong body pass.

ghost use Rattle.std.specs.Prelude.{◌≡◌, ◌≤◌, true, false, length, take, Ok, Err};
ghost use Rattle.seq_arith.specs.Message.Body.{HelloMsg};
ghost use Rattle.seq_arith.specs.MessageGrammar.{reading};

use crate::fields::offset;
use crate::reading::{open_within, read_msg};
use crate::twin::table::is_asking;
use crate::{Body, Msg, put_msg};
use seq_arith::{BadMsg, Grammar};

/// A message is written with its own boot number: the clause `read` of `put_msg`.
#[tactic(auto, unfolding(seq_arith::specs::MessageGrammar::is_sound_by, seq_arith::specs::MessageGrammar::has_length))]
fn answers_with_boot_1(out: &mut [u8])
    requires { 16 ≤ length out.old }
    ensures { reading (take 16 out.new) ≡ Ok (record { boot = 2; body = HelloMsg }) }
{
    put_msg(
        &Msg {
            boot: 2,
            body: Body::Hello,
        },
        out,
    );
}

/// A logger's answer isn't what a Forward may hold: the contract of `is_asking`.
#[tactic(auto, unfolding(crate::proofs::Unfolded::forwards_an_answer_words))]
fn forwards_an_answer(out: &mut [u8]) -> bool
    requires { 18 ≤ length out.old }
    ensures { result ≡ false }
{
    let len = put_msg(
        &Msg {
            boot: 1,
            body: Body::Summary { count: 0 },
        },
        out,
    );
    is_asking(Grammar::Plain, &out[..len])
}

/// A short message of the right length, whose checksum is wrong, is refused for its checksum: the clause `value` of `open_within`.
#[tactic(auto, unfolding(crate::proofs::Unfolded::ignores_sum_words))]
fn ignores_sum() -> Result<u64, BadMsg>
    ensures { result ≡ Err BadMsg.Sum }
{
    open_within(&[70, 84, 1, 1, 0, 16, 0, 0, 0, 0, 0, 0, 0, 0, 0, 1], 16, 16)
}

/// A byte at the offset 2^24 would be past the longest stream, although the offset isn't: the contract of `offset`.
#[tactic(auto, unfolding(crate::specs::Places::number_at, seq_arith::specs::MessageGrammar::number_in))]
fn part_past_the_stream() -> Result<u32, BadMsg>
    ensures { result ≡ Err BadMsg.Field }
{
    offset(&[1, 0, 0, 0, 7], 0, 4)
}

/// A message of the wide grammar isn't read as a plain one, whatever it has after its version: the clause `value` of `read_msg`.
#[tactic(auto, unfolding(seq_arith::specs::MessageGrammar::reading_by, seq_arith::specs::Bytes::word_at))]
fn takes_a_wide_message() -> bool
    ensures { result ≡ false }
{
    match read_msg(&[70, 84, 2, 1, 0, 16, 183, 153, 0, 0, 0, 0, 0, 0, 0, 1]) {
        Ok(_) => true,
        Err(_) => false,
    }
}
