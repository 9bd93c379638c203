//! The words of a message between server and logger: its kind, its boot number, its fields, and what follows the fields.

ghost use Rattle.limits.specs.Limits.{largest_segment};
ghost use Rattle.std.specs.Prelude.{◌≡◌, ◌+◌, ◌*◌, ◌≤◌, ◌<◌, ◌^◌, Some, [], ◌∷◌, codes, drop, length, IfSome};
ghost use Rattle.seq_arith.specs.declared.kinds.Kind.TheVariants as kinds;
ghost use Rattle.seq_arith.specs.MessageGrammar.{behind_at, fewest_behind, has_length, is_lens, most_behind};
ghost use Rattle.line_check.specs.Left.{words_left};
ghost use Rattle.line_check.specs.Words as spelled;
ghost use Rattle.line_check.specs.Words.Column.{KeyColumn, NumberColumn};

use crate::columns::{Limits, key_fits, number_fits};
use crate::values::{byte_count, lens_count, number_word};
use crate::words::{Words, is_text, last_named, next_word, skip};
use limits::TEXT;
use seq_arith::{Field, Grammar, Kind};

/// Returns the kind that a word names.
#[tactic(auto, unfolding(crate::specs::Words::kind_named))]
fn kind_named(word: &[u8]) -> Option<Kind>
    ensures { result ≡ spelled.kind_named word.now }
{
    if is_text(word, "Hello") {
        Some(Kind::Hello)
    } else if is_text(word, "Summary") {
        Some(Kind::Summary)
    } else if is_text(word, "List") {
        Some(Kind::List)
    } else if is_text(word, "Entry") {
        Some(Kind::Entry)
    } else if is_text(word, "Bytes") {
        Some(Kind::Bytes)
    } else if is_text(word, "Part") {
        Some(Kind::Part)
    } else if is_text(word, "Cuts") {
        Some(Kind::Cuts)
    } else if is_text(word, "Lens") {
        Some(Kind::Lens)
    } else if is_text(word, "Open") {
        Some(Kind::Open)
    } else if is_text(word, "Opened") {
        Some(Kind::Opened)
    } else if is_text(word, "Data") {
        Some(Kind::Data)
    } else if is_text(word, "Stable") {
        Some(Kind::Stable)
    } else if is_text(word, "Read") {
        Some(Kind::Read)
    } else if is_text(word, "Reads") {
        Some(Kind::Reads)
    } else if is_text(word, "Done") {
        Some(Kind::Done)
    } else if is_text(word, "Ended") {
        Some(Kind::Ended)
    } else if is_text(word, "Stale") {
        Some(Kind::Stale)
    } else if is_text(word, "Full") {
        Some(Kind::Full)
    } else {
        None
    }
}

/// Returns how many fields the line of a kind names.
fn column_count(kind: Kind) -> usize
    ensures value { result ≡ length (spelled.columns_of kind) }
    ensures most { result ≤ 10 }
{
    match kind {
        Kind::Hello => 0,
        Kind::Summary | Kind::List | Kind::Done | Kind::Ended | Kind::Stale | Kind::Full => 1,
        Kind::Bytes | Kind::Part | Kind::Cuts | Kind::Lens => 2,
        Kind::Read => 3,
        Kind::Open | Kind::Opened | Kind::Data | Kind::Stable | Kind::Reads => 4,
        Kind::Entry => 10,
    }
}

/// Returns where the fields of a kind end in a message.
fn fields_end(kind: Kind) -> usize
    ensures value { result ≡ behind_at kind }
    ensures most { result ≤ 48 }
{
    match kind {
        Kind::Hello => 16,
        Kind::Summary | Kind::List => 18,
        Kind::Done | Kind::Ended | Kind::Full => 22,
        Kind::Stale => 24,
        Kind::Bytes | Kind::Part | Kind::Cuts | Kind::Lens => 26,
        Kind::Read => 28,
        Kind::Data | Kind::Stable | Kind::Reads => 31,
        Kind::Open | Kind::Opened => 32,
        Kind::Entry => 48,
    }
}

/// Returns the smallest and the largest number of bytes that may follow a kind's fields.
fn behind_bounds(kind: Kind) -> (usize, usize)
    ensures value { (result.0 ≡ fewest_behind kind) × (result.1 ≡ most_behind kind) }
    ensures most { (result.0 ≤ 2) × (result.1 ≤ largest_segment) }
{
    match kind {
        Kind::Part => (1, 1_024),
        Kind::Lens => (2, 1_024),
        Kind::Data => (0, TEXT),
        _ => (0, 0),
    }
}

fn is_of_lens(kind: Kind) -> bool
    ensures { result ≡ is_lens kind }
{
    match kind {
        Kind::Lens => true,
        _ => false,
    }
}

/// Returns whether so many bytes may follow a kind's fields.
#[tactic(auto, unfolding(seq_arith::specs::MessageGrammar::has_length))]
fn length_fits(kind: Kind, behind: usize) -> bool
    requires { behind < 2 ^ 63 }
    ensures { result ≡ has_length kind (behind_at kind + behind) }
{
    let (fewest, most) = behind_bounds(kind);
    let start = fields_end(kind);
    let len = start + behind;
    if len < start + fewest {
        return false;
    }
    if start + most < len {
        return false;
    }
    !is_of_lens(kind) || len % 2 == 0
}

/// Returns how many bytes follow a kind's fields, according to the words after them.
fn behind_in(kind: Kind, words: Words<'_>) -> Option<usize>
    ensures value { result ≡ spelled.behind_in kind (words_left words.entry.rest) }
    ensures most { IfSome result (λ n. n < 2 ^ 63) }
{
    match kind {
        Kind::Part | Kind::Data => byte_count(last_named("bytes", words)?),
        Kind::Lens => Some(2 * lens_count(last_named("lens", words)?)?),
        _ => nothing_more(words),
    }
}

/// Returns zero if there are no more words.
fn nothing_more(words: Words<'_>) -> Option<usize>
    ensures value { result ≡ spelled.nothing_more (words_left words.entry.rest) }
    ensures most { IfSome result (λ n. n ≤ 0) }
{
    let mut words = words;
    match next_word(&mut words) {
        Some(_) => None,
        None => Some(0),
    }
}

/// Returns whether the words begin with this name and a number that fits its field.
#[tactic(auto, using(ft_io::proofs::Booleans::and_true))]
fn one_fits(limits: Limits, field: Field, name: &str, words: Words<'_>) -> bool
    ensures { result ≡ spelled.columns_fit limits.grammar limits.boot limits.behind (NumberColumn name.now field ∷ []) (words_left words.entry.rest) }
{
    let mut words = words;
    number_fits(limits, field, name, &mut words)
}

/// Returns whether the words begin with a key.
#[tactic(auto, using(ft_io::proofs::Booleans::and_true))]
fn key_alone_fits(limits: Limits, words: Words<'_>) -> bool
    ensures { result ≡ spelled.columns_fit limits.grammar limits.boot limits.behind (KeyColumn ∷ []) (words_left words.entry.rest) }
{
    let mut words = words;
    key_fits(&mut words)
}

/// Returns whether the words begin with a key, and then this name and a number that fits its field.
#[tactic(auto, using(ft_io::proofs::Booleans::and_true))]
fn key_and_one_fit(limits: Limits, field: Field, name: &str, words: Words<'_>) -> bool
    ensures { result ≡ spelled.columns_fit limits.grammar limits.boot limits.behind (KeyColumn ∷ NumberColumn name.now field ∷ [])
        (words_left words.entry.rest) }
{
    let mut words = words;
    key_fits(&mut words) && number_fits(limits, field, name, &mut words)
}

/// Returns whether the words begin with the numbers of a connection.
#[tactic(auto, using(ft_io::proofs::Booleans::and_true))]
fn opening_fits(limits: Limits, words: Words<'_>) -> bool
    ensures { result ≡ spelled.columns_fit limits.grammar limits.boot limits.behind (spelled.opening_columns []) (words_left words.entry.rest) }
{
    let mut words = words;
    key_fits(&mut words)
        && number_fits(limits, Field::Initial, "cisn", &mut words)
        && number_fits(limits, Field::Initial, "sisn", &mut words)
        && number_fits(limits, Field::Mss, "mss", &mut words)
}

/// Returns whether the words begin with how much of a connection is logged.
#[tactic(auto, using(ft_io::proofs::Booleans::and_true))]
fn kept_fits(limits: Limits, words: Words<'_>) -> bool
    ensures { result ≡ spelled.columns_fit limits.grammar limits.boot limits.behind spelled.kept_columns (words_left words.entry.rest) }
{
    let mut words = words;
    key_fits(&mut words)
        && number_fits(limits, Field::Length, "length", &mut words)
        && number_fits(limits, Field::Flag, "fin", &mut words)
        && number_fits(limits, Field::Units, "reads", &mut words)
}

/// Returns whether the words begin with the fields of a read.
#[tactic(auto, using(ft_io::proofs::Booleans::and_true))]
fn read_fits(limits: Limits, words: Words<'_>) -> bool
    ensures { result ≡ spelled.columns_fit limits.grammar limits.boot limits.behind (spelled.columns_of kinds.Read) (words_left words.entry.rest) }
{
    let mut words = words;
    key_fits(&mut words)
        && number_fits(limits, Field::Units, "index", &mut words)
        && number_fits(limits, Field::ReadLength, "length", &mut words)
}

/// Returns whether the words begin with the fields of a Data.
#[tactic(auto, using(ft_io::proofs::Booleans::and_true))]
fn data_fits(limits: Limits, words: Words<'_>) -> bool
    ensures { result ≡ spelled.columns_fit limits.grammar limits.boot limits.behind (spelled.columns_of kinds.Data) (words_left words.entry.rest) }
{
    let mut words = words;
    key_fits(&mut words)
        && number_fits(limits, Field::Offset, "offset", &mut words)
        && number_fits(limits, Field::Units, "acked", &mut words)
        && number_fits(limits, Field::Ending, "fin", &mut words)
}

/// Returns whether the words begin with the fields of an entry after the numbers of its connection.
#[tactic(auto, using(ft_io::proofs::Booleans::and_true))]
fn state_fits(limits: Limits, words: Words<'_>) -> bool
    ensures { result ≡ spelled.columns_fit limits.grammar limits.boot limits.behind spelled.state_columns (words_left words.entry.rest) }
{
    let mut words = words;
    number_fits(limits, Field::Length, "length", &mut words)
        && number_fits(limits, Field::Flag, "fin", &mut words)
        && number_fits(limits, Field::Flag, "done", &mut words)
        && number_fits(limits, Field::Units, "reads", &mut words)
        && number_fits(limits, Field::Units, "acked", &mut words)
}

/// Returns whether the words begin with the fields of an entry of the log.
fn entry_fits(limits: Limits, words: Words<'_>) -> bool
    ensures { result ≡ spelled.columns_fit limits.grammar limits.boot limits.behind (spelled.columns_of kinds.Entry) (words_left words.entry.rest) }
{
    let mut words = words;
    number_fits(limits, Field::Place, "index", &mut words)
        && key_fits(&mut words)
        && number_fits(limits, Field::Initial, "cisn", &mut words)
        && number_fits(limits, Field::Initial, "sisn", &mut words)
        && number_fits(limits, Field::Mss, "mss", &mut words)
        && state_fits(limits, words)
}

/// Returns whether these words begin with the fields of a kind.
fn columns_fit(kind: Kind, limits: Limits, words: Words<'_>) -> bool
    ensures { result ≡ spelled.columns_fit limits.grammar limits.boot limits.behind (spelled.columns_of kind) (words_left words.entry.rest) }
{
    match kind {
        Kind::Hello => true,
        Kind::Summary => one_fits(limits, Field::Count, "count", words),
        Kind::List => one_fits(limits, Field::Place, "index", words),
        Kind::Entry => entry_fits(limits, words),
        Kind::Bytes | Kind::Part => key_and_one_fit(limits, Field::Offset, "offset", words),
        Kind::Cuts | Kind::Lens => key_and_one_fit(limits, Field::Units, "first", words),
        Kind::Open | Kind::Opened => opening_fits(limits, words),
        Kind::Data => data_fits(limits, words),
        Kind::Stable | Kind::Reads => kept_fits(limits, words),
        Kind::Read => read_fits(limits, words),
        Kind::Done | Kind::Ended | Kind::Full => key_alone_fits(limits, words),
        Kind::Stale => one_fits(limits, Field::Newer, "newer", words),
    }
}

/// Returns whether these are the fields of a kind and what follows them, for this boot number.
fn rest_fits(grammar: Grammar, kind: Kind, boot: u64, words: Words<'_>) -> bool
    ensures { result ≡ spelled.rest_fits grammar kind boot (spelled.behind_in kind (drop (2 * length (spelled.columns_of kind)) (words_left words.entry.rest)))
        (words_left words.entry.rest) }
{
    let Some(behind) = behind_in(kind, skip(2 * column_count(kind), words)) else {
        return false;
    };
    if !length_fits(kind, behind) {
        return false;
    }
    let limits = Limits {
        grammar,
        boot,
        behind: behind as u64,
    };
    columns_fit(kind, limits, words)
}

/// Returns whether these are a boot number and the rest of a message of this kind.
fn body_fits(grammar: Grammar, kind: Kind, boot: u64, words: Words<'_>) -> bool
    ensures { result ≡ spelled.body_fits grammar (Some kind) (Some boot) (words_left words.entry.rest) }
{
    1 <= boot && rest_fits(grammar, kind, boot, words)
}

/// Returns whether these are the words of a message of a grammar.
#[tactic(auto, unfolding(crate::specs::Words::is_message))]
pub(crate) fn is_message(grammar: Grammar, words: Words<'_>) -> bool
    ensures { result ≡ spelled.is_message grammar (words_left words.entry.rest) }
{
    let mut words = words;
    let Some(name) = next_word(&mut words) else {
        return false;
    };
    let Some(label) = next_word(&mut words) else {
        return false;
    };
    let Some(number) = next_word(&mut words) else {
        return false;
    };
    if !is_text(label, "boot") {
        return false;
    }
    let Some(kind) = kind_named(name) else {
        return false;
    };
    match number_word(u64::MAX, number) {
        Some(boot) => body_fits(grammar, kind, boot, words),
        None => false,
    }
}
