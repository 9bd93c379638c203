//! The words of a message: its name, its boot number, and then its fields by name, in the order of the message.

ghost use Rattle.std.specs.Prelude.{◌≡◌, ◌+◌, ◌*◌, ◌++◌, ◌∷◌, [], codes, decimal, map, OnOk};
ghost use Rattle.std.specs.List.{join_with_byte};
ghost use Rattle.seq_arith.specs.MessageGrammar.{lens_in};
ghost use Rattle.ft_model.specs.Texts.{spaced, key_text, bit_text, ending_text, hex_text, list_text, behind_commas};
ghost use Rattle.ft_model.specs.Report.{key_words, numbers_words, kept_words, entry_words, part_words, read_words, field_words, name_of, message_words};
ghost use Rattle.logger_wire.specs.Records.{numbers_said, kept_said, head_said, part_said};
ghost use Rattle.logger_wire.specs.Value.{body_of, message_of};

use crate::line_out::LineOut;
use crate::line_text::{put_address, put_bit, put_dash, put_digits, put_field, put_hex, put_word};
use ft_io::{Key, NoMemory};
use logger_wire::{Body, EntryHead, Kept, Msg, Numbers, Part};

/// Appends a message: its name, its boot number, then the fields of its body.
#[tactic(auto, using(crate::proofs::LineLemmas::line_rules), unfolding(ft_model::specs::Report::message_words))]
pub(crate) fn put_message(msg: &Msg<'_>, line: &mut LineOut) -> Result<(), NoMemory>
    ensures ok { OnOk result (line.new.words ≡ line.old.words ++ spaced (message_words (message_of msg.now))) }
    ensures before { line.new.before ≡ line.old.before }
{
    put_word(name(&msg.body), line)?;
    put_field(" boot ", msg.boot, line)?;
    put_fields(&msg.body, line)
}

/// Returns the name of a kind of message.
fn name(body: &Body<'_>) -> &'static str
    ensures { result.now ≡ name_of (body_of body.now) }
{
    match body {
        Body::Hello => "Hello",
        Body::Summary { .. } => "Summary",
        Body::List { .. } => "List",
        Body::Entry { .. } => "Entry",
        Body::Bytes { .. } => "Bytes",
        Body::Part { .. } => "Part",
        Body::Cuts { .. } => "Cuts",
        Body::Lens { .. } => "Lens",
        Body::Open(_) => "Open",
        Body::Opened(_) => "Opened",
        Body::Data(_) => "Data",
        Body::Stable(_) => "Stable",
        Body::Read { .. } => "Read",
        Body::Reads(_) => "Reads",
        Body::Done { .. } => "Done",
        Body::Ended { .. } => "Ended",
        Body::Stale { .. } => "Stale",
        Body::Full { .. } => "Full",
    }
}

/// Appends the fields of a body.
#[tactic(auto, using(crate::proofs::LineLemmas::line_rules))]
fn put_fields(body: &Body<'_>, line: &mut LineOut) -> Result<(), NoMemory>
    ensures ok { OnOk result (line.new.words ≡ line.old.words ++ spaced (field_words (body_of body.now))) }
    ensures before { line.new.before ≡ line.old.before }
{
    match *body {
        Body::Hello => Ok(()),
        Body::Summary { count } => put_field(" count ", u64::from(count), line),
        Body::List { index } => put_field(" index ", u64::from(index), line),
        Body::Entry { index, head } => {
            put_field(" index ", u64::from(index), line)?;
            put_head(&head, line)
        }
        Body::Bytes { key, offset } => put_place(key, " offset ", offset, line),
        Body::Part { key, offset, bytes } => put_part(key, offset, bytes, line),
        Body::Cuts { key, first } => put_place(key, " first ", first, line),
        Body::Lens { key, first, lens } => put_lens(key, first, lens, line),
        Body::Open(numbers) | Body::Opened(numbers) => put_numbers(&numbers, line),
        Body::Data(part) => put_data(&part, line),
        Body::Stable(kept) | Body::Reads(kept) => put_kept(&kept, line),
        Body::Read { key, index, length } => put_read(key, index, length, line),
        Body::Done { key } | Body::Ended { key } | Body::Full { key } => put_key(key, line),
        Body::Stale { newer } => put_field(" newer ", newer, line),
    }
}

/// Appends a connection's key.
#[tactic(auto, using(crate::proofs::LineLemmas::line_rules))]
pub(crate) fn put_key(key: Key, line: &mut LineOut) -> Result<(), NoMemory>
    ensures ok { OnOk result (line.new.words ≡ line.old.words ++ spaced (key_words key)) }
    ensures before { line.new.before ≡ line.old.before }
{
    line.append_text(" key")?;
    put_address(key.ip, key.port, line)
}

/// Appends a key, and a place in what is logged of its connection.
#[tactic(auto, using(crate::proofs::LineLemmas::line_rules))]
fn put_place(key: Key, name: &str, place: u32, line: &mut LineOut) -> Result<(), NoMemory>
    ensures ok { OnOk result (line.new.words ≡ line.old.words ++ (spaced (key_words key) ++ (name.now ++ decimal place))) }
    ensures before { line.new.before ≡ line.old.before }
{
    put_key(key, line)?;
    put_field(name, u64::from(place), line)
}

/// Appends the numbers of a connection: its key, both initial sequence numbers and its MSS.
#[tactic(auto, using(crate::proofs::LineLemmas::line_rules))]
fn put_numbers(numbers: &Numbers, line: &mut LineOut) -> Result<(), NoMemory>
    ensures ok { OnOk result (line.new.words ≡ line.old.words ++ spaced (numbers_words (numbers_said numbers.now))) }
    ensures before { line.new.before ≡ line.old.before }
{
    put_key(numbers.key, line)?;
    put_field(" cisn ", u64::from(numbers.cisn), line)?;
    put_field(" sisn ", u64::from(numbers.sisn), line)?;
    put_field(" mss ", u64::from(numbers.mss), line)
}

/// Appends how much of a connection is logged.
#[tactic(auto, using(crate::proofs::LineLemmas::line_rules))]
fn put_kept(kept: &Kept, line: &mut LineOut) -> Result<(), NoMemory>
    ensures ok { OnOk result (line.new.words ≡ line.old.words ++ spaced (kept_words (kept_said kept.now))) }
    ensures before { line.new.before ≡ line.old.before }
{
    put_key(kept.key, line)?;
    put_field(" length ", u64::from(kept.length), line)?;
    put_bit(" fin ", kept.fin, line)?;
    put_field(" reads ", u64::from(kept.reads), line)
}

/// Appends an entry without its bytes and lengths: its numbers, the number of its bytes, and its state.
#[tactic(auto, using(crate::proofs::LineLemmas::line_rules))]
fn put_head(head: &EntryHead, line: &mut LineOut) -> Result<(), NoMemory>
    ensures ok { OnOk result (line.new.words ≡ line.old.words ++ spaced (entry_words (head_said head.now))) }
    ensures before { line.new.before ≡ line.old.before }
{
    put_key(head.key, line)?;
    put_field(" cisn ", u64::from(head.cisn), line)?;
    put_field(" sisn ", u64::from(head.sisn), line)?;
    put_field(" mss ", u64::from(head.mss), line)?;
    put_field(" length ", u64::from(head.length), line)?;
    put_standing(head, line)
}

/// Appends the state of a logged connection, which follows the number of its bytes.
#[tactic(auto, using(crate::proofs::LineLemmas::line_rules))]
fn put_standing(head: &EntryHead, line: &mut LineOut) -> Result<(), NoMemory>
    ensures ok { OnOk result (line.new.words
        ≡ line.old.words ++ spaced (codes "fin" ∷ bit_text head.now.fin ∷ codes "done" ∷ bit_text head.now.done ∷ codes "reads" ∷ decimal head.now.reads
        ∷ codes "acked" ∷ decimal head.now.acked ∷ [])) }
    ensures before { line.new.before ≡ line.old.before }
{
    put_bit(" fin ", head.fin, line)?;
    put_bit(" done ", head.done, line)?;
    put_field(" reads ", u64::from(head.reads), line)?;
    put_field(" acked ", u64::from(head.acked), line)
}

/// Appends logged bytes.
#[tactic(auto, using(crate::proofs::LineLemmas::line_rules))]
fn put_part(key: Key, offset: u32, bytes: &[u8], line: &mut LineOut) -> Result<(), NoMemory>
    ensures ok { OnOk result (line.new.words
        ≡ line.old.words ++ spaced (codes "key" ∷ key_text key ∷ codes "offset" ∷ decimal offset ∷ codes "bytes" ∷ hex_text bytes.now ∷ [])) }
    ensures before { line.new.before ≡ line.old.before }
{
    put_place(key, " offset ", offset, line)?;
    line.append_text(" bytes")?;
    put_hex(bytes, line)
}

/// Appends what follows the bytes of a Data: nothing, the FIN, or another Data of the same turn.
#[tactic(auto, unfolding(ft_model::specs::Texts::ending_text))]
fn put_ending(fin: bool, more: bool, line: &mut LineOut) -> Result<(), NoMemory>
    ensures ok { OnOk result (line.new.words ≡ line.old.words ++ (codes " fin " ++ ending_text fin more)) }
    ensures before { line.new.before ≡ line.old.before }
{
    if !more {
        return put_bit(" fin ", fin, line);
    }
    line.append_text(" fin ")?;
    line.push(if fin { b'3' } else { b'2' })
}

/// Appends bytes to be logged.
#[tactic(auto, using(crate::proofs::LineLemmas::line_rules))]
fn put_data(part: &Part<'_>, line: &mut LineOut) -> Result<(), NoMemory>
    ensures ok { OnOk result (line.new.words ≡ line.old.words ++ spaced (part_words (part_said part.now))) }
    ensures before { line.new.before ≡ line.old.before }
{
    put_place(part.key, " offset ", part.offset, line)?;
    put_field(" acked ", u64::from(part.acked), line)?;
    put_ending(part.fin, part.more, line)?;
    line.append_text(" bytes")?;
    put_hex(part.bytes, line)
}

/// Appends the length of a read.
#[tactic(auto, using(crate::proofs::LineLemmas::line_rules))]
fn put_read(key: Key, index: u32, length: u16, line: &mut LineOut) -> Result<(), NoMemory>
    ensures ok { OnOk result (line.new.words ≡ line.old.words ++ spaced (read_words key index length)) }
    ensures before { line.new.before ≡ line.old.before }
{
    put_place(key, " index ", index, line)?;
    put_field(" length ", u64::from(length), line)
}

/// Appends the logged lengths of reads.
#[tactic(auto, using(crate::proofs::LineLemmas::line_rules))]
fn put_lens(key: Key, first: u32, lens: &[u8], line: &mut LineOut) -> Result<(), NoMemory>
    ensures ok { OnOk result (line.new.words
        ≡ line.old.words ++ spaced (codes "key" ∷ key_text key ∷ codes "first" ∷ decimal first ∷ codes "lens" ∷ list_text (lens_in lens.now) ∷ [])) }
    ensures before { line.new.before ≡ line.old.before }
{
    put_place(key, " first ", first, line)?;
    line.append_text(" lens")?;
    put_lengths(lens, line)
}

/// Appends a space, and lengths of two bytes each, joined by commas.
#[tactic(auto, using(crate::proofs::Dashes::seams), unfolding(ft_model::specs::Texts::list_text))]
fn put_lengths(lens: &[u8], line: &mut LineOut) -> Result<(), NoMemory>
    ensures ok { OnOk result (line.new.words ≡ line.old.words ++ 32 ∷ list_text (lens_in lens.now)) }
    ensures before { line.new.before ≡ line.old.before }
{
    line.push(b' ')?;
    let start = line.len();
    put_joined(lens, line)?;
    put_dash(start, line)
}

/// Appends lengths of two bytes each, joined by commas, with nothing before them.
#[tactic(auto, using(crate::proofs::Lengths::nothing_joined, ft_model::proofs::ReportParts::joined_behind, std::proofs::Common::append_assoc))]
fn put_joined(lens: &[u8], line: &mut LineOut) -> Result<(), NoMemory>
    ensures ok { OnOk result (line.new.words ≡ line.old.words ++ join_with_byte 44 (map decimal (lens_in lens.now))) }
    ensures before { line.new.before ≡ line.old.before }
{
    let [high, low, others @ ..] = lens else {
        return Ok(());
    };
    put_digits(length_of(*high, *low), line)?;
    put_others(others, line)
}

/// Appends lengths of two bytes each, each after a comma.
#[tactic(auto, using(std::proofs::Common::append_assoc))]
fn put_others(lens: &[u8], line: &mut LineOut) -> Result<(), NoMemory>
    ensures ok { OnOk result (line.new.words ≡ line.old.words ++ behind_commas (lens_in lens.now)) }
    ensures before { line.new.before ≡ line.old.before }
{
    let mut rest = lens;
    while let [high, low, behind @ ..] = rest {
        line.push(b',')?;
        put_digits(length_of(*high, *low), line)?;
        rest = behind;
    }
    Ok(())
}

/// Returns a length from its two bytes.
fn length_of(high: u8, low: u8) -> u64
    ensures { result ≡ 256 * high + low }
{
    256 * u64::from(high) + u64::from(low)
}
