//! A message as its bytes, in the wide grammar.

ghost use Rattle.limits.specs.Limits.{largest_segment, least_segment, longest_stream};
ghost use Rattle.std.specs.Prelude.{◌≡◌, ◌≤◌, ◌<◌, ◌+◌, ◌^◌, ◌%◌, ◌&&◌, true, IfOk, if◌then◌else◌, IfSome, IfNone, length, nat_le};
ghost use Rattle.std.specs.List.{list_all};
ghost use Rattle.seq_arith.specs.declared.kinds.Grammar.TheVariants.{Wide};
ghost use Rattle.seq_arith.specs.declared.kinds.Kind.TheVariants as kinds;
ghost use Rattle.seq_arith.specs.Message.Body.{EntryMsg};
ghost use Rattle.seq_arith.specs.MessageGrammar.{kind_of, behind_at, behind_of, message_length, has_length, fields_of, numbers_of, flag};
ghost use Rattle.seq_arith.specs.MessageGrammar.{all_in_range_by, is_sound_by, lens_of, lens_in, spelling_by, IsSpellableBy};
ghost use Rattle.logger_wire.specs.Records.{head_said};
ghost use Rattle.logger_wire.specs.Value.{body_of, message_of, left_over, IsSendableBy};

use crate::number_ranges::fit_numbers;
use ft_io::NoMemory;
use limits::{ENTRIES, LAST_INDEX, SEGMENT, SHORTEST_SEGMENT, STREAM, TEXT, UNITS};
use logger_wire::{Body, EntryHead, Grammar, Msg, len_at, put_msg_by};
use std::alloc::Global;

/// Returns lengths of two bytes each, without a last byte that is left over.
#[tactic(auto, using(crate::proofs::Lengths::left_out))]
fn whole(lens: &[u8]) -> &[u8]
    ensures same { lens_in result.now ≡ lens_in lens.now }
    ensures whole { length result.now % 2 ≡ 0 }
{
    &lens[..lens.len() - lens.len() % 2]
}

/// Returns the same body with two bytes for each length.
fn plain(body: Body<'_>) -> Body<'_>
    ensures same { body_of result ≡ body_of body.entry }
    ensures lens { left_over result ≡ 0 }
{
    match body {
        Body::Lens { key, first, lens } => Body::Lens {
            key,
            first,
            lens: whole(lens),
        },
        _ => body,
    }
}

/// Returns the same message with two bytes for each length.
fn plain_message<'a>(msg: &Msg<'a>) -> Msg<'a>
    ensures same { message_of result ≡ message_of msg.now }
    ensures lens { left_over result.body ≡ 0 }
{
    Msg {
        boot: msg.boot,
        body: plain(msg.body),
    }
}

/// Returns where a message's fields end.
fn fields_end(body: &Body<'_>) -> usize
    ensures value { result ≡ behind_at (kind_of (body_of body.now)) }
    ensures most { result ≤ 48 }
{
    match *body {
        Body::Hello => 16,
        Body::Summary { .. } | Body::List { .. } => 18,
        Body::Done { .. } | Body::Ended { .. } | Body::Full { .. } => 22,
        Body::Stale { .. } => 24,
        Body::Bytes { .. } | Body::Part { .. } | Body::Cuts { .. } | Body::Lens { .. } => 26,
        Body::Read { .. } => 28,
        Body::Data(_) | Body::Stable(_) | Body::Reads(_) => 31,
        Body::Open(_) | Body::Opened(_) => 32,
        Body::Entry { .. } => 48,
    }
}

/// Returns the number of bytes.
fn count(bytes: &[u8]) -> usize
    ensures value { result ≡ length bytes.now }
    ensures most { result < 2 ^ 63 }
{
    bytes.len()
}

/// Returns how many bytes follow a message's fields.
#[tactic(auto, using(logger_wire::proofs::Sendable::lens_length))]
fn behind(body: &Body<'_>) -> usize
    requires { left_over body.now ≡ 0 }
    ensures value { result ≡ length (behind_of (body_of body.now)) }
    ensures most { result < 2 ^ 63 }
{
    match *body {
        Body::Part { bytes, .. } => count(bytes),
        Body::Data(part) => count(part.bytes),
        Body::Lens { lens, .. } => count(lens),
        _ => 0,
    }
}

/// Returns whether the lengths of a message may have so many bytes.
#[tactic(auto, unfolding(seq_arith::specs::MessageGrammar::has_length))]
fn lens_length_fits(behind: usize) -> bool
    ensures { result ≡ has_length kinds.Lens (behind_at kinds.Lens + behind) }
{
    2 <= behind && behind <= 1_024 && behind % 2 == 0
}

/// Returns whether so many bytes may follow a message's fields.
#[tactic(auto, unfolding(seq_arith::specs::MessageGrammar::has_length))]
fn length_fits(body: &Body<'_>, behind: usize) -> bool
    requires { behind ≡ length (behind_of (body_of body.now)) }
    ensures { result ≡ has_length (kind_of (body_of body.now)) (message_length (body_of body.now)) }
{
    match *body {
        Body::Part { .. } => 1 <= behind && behind <= 1_024,
        Body::Lens { .. } => lens_length_fits(behind),
        Body::Data(_) => behind <= TEXT,
        _ => true,
    }
}

/// Returns whether a segment size is in its range.
fn mss_fits(mss: u16) -> bool
    ensures { result ≡ (nat_le least_segment mss && nat_le mss largest_segment) }
{
    SHORTEST_SEGMENT <= mss && mss <= SEGMENT
}

/// Returns whether an offset and the bytes after it are within a stream.
fn offset_fits(offset: u32, behind: usize) -> bool
    requires { behind < 2 ^ 63 }
    ensures { result ≡ nat_le (offset + behind) longest_stream }
{
    offset as usize + behind <= STREAM as usize
}

/// Returns whether a part ends in one way: no FIN follows it where a later part does.
#[tactic(auto, using(crate::proofs::Ranges::ending_fits))]
fn ending_fits(fin: bool, more: bool) -> bool
    ensures { result ≡ nat_le (flag fin + (if more then 2 else 0)) 2 }
{
    !(fin && more)
}

/// Returns whether each number of an Entry is in its field's range.
#[tactic(auto, using(crate::proofs::Ranges::flag_fits))]
fn head_fits(index: u16, head: &EntryHead) -> bool
    ensures { result ≡ all_in_range_by Wide 0 0 (fields_of kinds.Entry) (numbers_of (EntryMsg index (head_said head.now))) }
{
    index <= LAST_INDEX
        && mss_fits(head.mss)
        && head.length <= STREAM
        && head.reads <= UNITS
        && head.acked <= UNITS
}

/// Returns whether each number of a message is in its field's range.
#[tactic(auto, using(crate::proofs::Ranges::flag_fits))]
fn numbers_fit(boot: u64, body: &Body<'_>, behind: usize) -> bool
    requires { behind < 2 ^ 63 }
    ensures { result ≡ all_in_range_by Wide boot behind (fields_of (kind_of (body_of body.now))) (numbers_of (body_of body.now)) }
{
    match *body {
        Body::Summary { count } => count <= ENTRIES,
        Body::List { index } => index <= LAST_INDEX,
        Body::Entry { index, head } => head_fits(index, &head),
        Body::Bytes { offset, .. } | Body::Part { offset, .. } => offset_fits(offset, behind),
        Body::Cuts { first, .. } | Body::Lens { first, .. } => first <= UNITS,
        Body::Open(numbers) | Body::Opened(numbers) => mss_fits(numbers.mss),
        Body::Data(part) => {
            offset_fits(part.offset, behind)
                && part.acked <= UNITS
                && ending_fits(part.fin, part.more)
        }
        Body::Stable(kept) | Body::Reads(kept) => { kept.length <= STREAM && kept.reads <= UNITS }
        Body::Read { index, length, .. } => index <= UNITS && length <= 2_048,
        Body::Stale { newer } => boot < newer,
        Body::Hello | Body::Done { .. } | Body::Ended { .. } | Body::Full { .. } => { true }
    }
}

/// Returns whether each length is at most that of the longest read.
#[tactic(auto, using(std::proofs::lemmas::List::take_rest, crate::proofs::Lengths::first_length, logger_wire::proofs::Lens::lens_end))]
fn are_reads(lens: &[u8]) -> bool
    ensures { result ≡ list_all (λ len. nat_le len 2048) (lens_in lens.now) }
{
    let mut rest = lens;
    while rest.len() >= 2 {
        if len_at(rest, 0) > 2_048 {
            return false;
        }
        rest = &rest[2..];
    }
    true
}

/// Returns whether each length in a message is at most that of the longest read.
fn lens_fit(body: &Body<'_>) -> bool
    ensures { result ≡ list_all (λ len. nat_le len 2048) (lens_of (body_of body.now)) }
{
    match *body {
        Body::Lens { lens, .. } => are_reads(lens),
        _ => true,
    }
}

/// Returns whether a message has a spelling: each number is in its field's range, and the message has one of its kind's lengths.
#[tactic(auto, unfolding(seq_arith::specs::MessageGrammar::is_sound_by))]
fn is_spellable(msg: &Msg<'_>) -> bool
    requires { left_over msg.now.body ≡ 0 }
    ensures { result ≡ (is_sound_by Wide (kind_of (body_of msg.now.body)) msg.now.boot (length (behind_of (body_of msg.now.body)))
        (numbers_of (body_of msg.now.body)) (lens_of (body_of msg.now.body))
        && has_length (kind_of (body_of msg.now.body)) (message_length (body_of msg.now.body))) }
{
    let behind = behind(&msg.body);
    1 <= msg.boot
        && numbers_fit(msg.boot, &msg.body, behind)
        && lens_fit(&msg.body)
        && length_fits(&msg.body, behind)
}

/// Returns the bytes of a message.
#[tactic(auto, using(crate::proofs::Lengths::none_left))]
fn message_bytes(alloc: Global, msg: &Msg<'_>) -> Result<Vec<u8>, NoMemory>
    requires { IsSendableBy Wide msg.now }
    ensures { IfOk result (λ bytes. bytes.items ≡ spelling_by Wide (message_of msg.now)) }
{
    let len = fields_end(&msg.body) + behind(&msg.body);
    let mut bytes = Vec::with_capacity(alloc, len)?;
    bytes.resize(len, 0)?;
    put_msg_by(Grammar::Wide, msg, &mut bytes);
    Ok(bytes)
}

/// Returns the bytes of a message, or `None` if it has no spelling.
pub(crate) fn spelled(alloc: Global, msg: &Msg<'_>) -> Result<Option<Vec<u8>>, NoMemory>
    ensures some { IfOk result (λ bytes. IfSome bytes (λ b. b.items ≡ spelling_by Wide (message_of msg.now))) }
    ensures none { IfOk result (λ bytes. IfNone bytes (¬ (IsSpellableBy Wide (message_of msg.now)))) }
{
    let msg = plain_message(msg);
    if !is_spellable(&msg) {
        return Ok(None);
    }
    fit_numbers(&msg.body);
    let bytes = message_bytes(alloc, &msg)?;
    Ok(Some(bytes))
}
