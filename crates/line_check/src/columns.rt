//! Fields by name, one after another: numbers in their ranges, and keys.

ghost use Rattle.std.specs.Prelude.{◌≡◌, ◌≤◌, ◌^◌, [], ◌∷◌, codes, drop};
ghost use Rattle.seq_arith.specs.MessageGrammar.{is_in_range_by, most_ending as most_ending_lem};
ghost use Rattle.seq_arith.specs.declared.kinds.Field.TheVariants as fields;
ghost use Rattle.line_check.specs.Left.{words_left};
ghost use Rattle.line_check.specs.Words as spelled;
ghost use Rattle.line_check.specs.Words.Column.{KeyColumn, NumberColumn};

use crate::values::{is_address, number_word};
use crate::words::{Words, named};
use limits::{ENTRIES, LAST_INDEX, SEGMENT, SHORTEST_SEGMENT};
use seq_arith::{Field, Grammar};

/// The largest size of a stream, in bytes.
const STREAM_LIMIT: u64 = limits::STREAM as u64;

/// What the range of a field depends on: the grammar and the boot number of its message, and how many bytes follow the message's fields.
#[derive(Clone, Copy)]
pub(crate) struct Limits {
    pub(crate) grammar: Grammar,
    pub(crate) boot: u64,
    pub(crate) behind: u64,
}

/// Returns the largest number that fits a field's bytes.
fn most_of(field: Field) -> u64
    ensures { result ≡ spelled.most_of field }
{
    match field {
        Field::Flag | Field::Ending => 0xFF,
        Field::Count | Field::Place | Field::Port | Field::Mss | Field::ReadLength => 0xFFFF,
        Field::Newer => u64::MAX,
        _ => 0xFFFF_FFFF,
    }
}

/// Returns whether an offset and the bytes after it are within a stream.
fn is_offset(limits: Limits, n: u64) -> bool
    ensures { result ≡ is_in_range_by limits.grammar limits.boot limits.behind fields.Offset n }
{
    if STREAM_LIMIT < n {
        return false;
    }
    limits.behind <= STREAM_LIMIT - n
}

/// Returns the largest number that says how a Data ends.
fn most_ending(grammar: Grammar) -> u64
    ensures { result ≡ most_ending_lem grammar }
{
    match grammar {
        Grammar::Plain => 1,
        Grammar::Wide => 2,
    }
}

/// Returns whether a number is in the range of its field.
pub(crate) fn in_range(limits: Limits, field: Field, n: u64) -> bool
    ensures { result ≡ is_in_range_by limits.grammar limits.boot limits.behind field n }
{
    match field {
        Field::Count => n <= u64::from(ENTRIES),
        Field::Place => n <= u64::from(LAST_INDEX),
        Field::Mss => u64::from(SHORTEST_SEGMENT) <= n && n <= u64::from(SEGMENT),
        Field::Length => n <= STREAM_LIMIT,
        Field::Offset => is_offset(limits, n),
        Field::Units => n <= STREAM_LIMIT + 1,
        Field::ReadLength => n <= 2_048,
        Field::Flag => n <= 1,
        Field::Ending => n <= most_ending(limits.grammar),
        Field::Newer => limits.boot < n,
        _ => true,
    }
}

/// Takes a number by its name. Returns whether it fits its field.
pub(crate) fn number_fits(limits: Limits, field: Field, name: &str, words: &mut Words<'_>) -> bool
    ensures value { result ≡ spelled.column_fits limits.grammar limits.boot limits.behind (NumberColumn name.now field) (words_left words.old.rest) }
    ensures rest { words_left words.new.rest ≡ drop 2 (words_left words.old.rest) }
{
    let Some(word) = named(name, words) else {
        return false;
    };
    match number_word(most_of(field), word) {
        Some(n) => in_range(limits, field, n),
        None => false,
    }
}

/// Takes a key by its name. Returns whether it is spelled as a key.
pub(crate) fn key_fits(words: &mut Words<'_>) -> bool
    ensures value { result ≡ spelled.key_fits (spelled.named (codes "key") (words_left words.old.rest)) }
    ensures rest { words_left words.new.rest ≡ drop 2 (words_left words.old.rest) }
{
    match named("key", words) {
        Some(word) => is_address(word),
        None => false,
    }
}
