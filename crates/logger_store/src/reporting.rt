//! The answers of the log, each written as a message into the room for one answer.

ghost use Rattle.std.specs.Prelude.{[], ◌≡◌, ◌≤◌, ◌<◌, Some, option_copied};
ghost use Rattle.seq_arith.specs.Message.Body.{SummaryMsg, EntryMsg, OpenedMsg, StableMsg, ReadsMsg, EndedMsg, StaleMsg};
ghost use Rattle.ft_model.specs.Log.{head_of, kept_of, part_of, lens_of, on_entry, opened_answer};
ghost use Rattle.logger_store.specs.StoreState.{answer_bytes_by, with_boot};

use crate::msg_out::MsgOut;
use crate::stored_entry::StoredEntry;
use arrayvec::ArrayVec;
use ft_io::Key;
use log_pages::Lens;
use logger_wire::{Body, Grammar, Msg};

/// Writes how many entries there are into `out`.
#[tactic(auto, unfolding(seq_arith::specs::MessageGrammar::has_length, seq_arith::specs::MessageGrammar::is_sound_by))]
pub fn answer_count(grammar: Grammar, count: u16, boot: u64, out: &mut MsgOut)
    requires boot { 1 ≤ boot }
    requires count { count ≤ 64 }
    ensures { out.new ≡ answer_bytes_by grammar (with_boot boot (Some (SummaryMsg count))) }
{
    let body = Body::Summary { count };
    out.put_by(grammar, &Msg { boot, body });
}

/// Writes the entry at place `index`, without its bytes and lengths, into `out`. Writes nothing if there is no entry.
#[tactic(auto, unfolding(seq_arith::specs::MessageGrammar::has_length, seq_arith::specs::MessageGrammar::is_sound_by))]
pub fn answer_head(
    grammar: Grammar,
    stored: Option<&StoredEntry>,
    boot: u64,
    index: u16,
    out: &mut MsgOut,
)
    requires boot { 1 ≤ boot }
    requires index { index ≤ 63 }
    requires empty { out.old ≡ [] }
    ensures { out.new ≡ answer_bytes_by grammar (with_boot boot (on_entry (λ e. Some (EntryMsg index (head_of e))) (option_copied stored.entry))) }
{
    let Some(entry) = stored else {
        return;
    };
    let body = Body::Entry {
        index,
        head: entry.head(),
    };
    out.put_by(grammar, &Msg { boot, body });
}

/// Writes the entry's bytes from `offset` on, at most 1,024, into `out`. Writes nothing if there are none, or no entry.
#[tactic(auto, unfolding(seq_arith::specs::MessageGrammar::has_length, seq_arith::specs::MessageGrammar::is_sound_by))]
pub fn answer_part(
    grammar: Grammar,
    stored: Option<&StoredEntry>,
    boot: u64,
    offset: u32,
    out: &mut MsgOut,
)
    requires boot { 1 ≤ boot }
    requires empty { out.old ≡ [] }
    ensures { out.new ≡ answer_bytes_by grammar (with_boot boot (on_entry (λ e. part_of e offset) (option_copied stored.entry))) }
{
    let Some(entry) = stored else {
        return;
    };
    let head = entry.head();
    if offset >= head.length {
        return;
    }
    let mut part = ArrayVec::new();
    entry.copy_bytes(offset, &mut part);
    let body = Body::Part {
        key: head.key,
        offset,
        bytes: part.as_slice(),
    };
    out.put_by(grammar, &Msg { boot, body });
}

/// Writes the lengths of the entry's reads from index `first` on, at most 512, into `out`. Writes nothing if there are none, or no entry.
#[tactic(auto, unfolding(seq_arith::specs::MessageGrammar::has_length, seq_arith::specs::MessageGrammar::is_sound_by))]
pub fn answer_lengths(
    grammar: Grammar,
    stored: Option<&StoredEntry>,
    boot: u64,
    first: u32,
    out: &mut MsgOut,
)
    requires boot { 1 ≤ boot }
    requires empty { out.old ≡ [] }
    ensures { out.new ≡ answer_bytes_by grammar (with_boot boot (on_entry (λ e. lens_of e first) (option_copied stored.entry))) }
{
    let Some(entry) = stored else {
        return;
    };
    let head = entry.head();
    if first >= head.reads {
        return;
    }
    let mut lens = Lens::new();
    entry.copy_lengths(first, &mut lens);
    let body = Body::Lens {
        key: head.key,
        first,
        lens: lens.as_bytes(),
    };
    out.put_by(grammar, &Msg { boot, body });
}

/// Writes into `out` the numbers with which a key was opened, or, if it has no entry, that the log is full.
#[tactic(auto, unfolding(seq_arith::specs::MessageGrammar::has_length, seq_arith::specs::MessageGrammar::is_sound_by))]
pub fn answer_opened(
    grammar: Grammar,
    stored: Option<&StoredEntry>,
    boot: u64,
    key: Key,
    out: &mut MsgOut,
)
    requires { 1 ≤ boot }
    ensures { out.new ≡ answer_bytes_by grammar (with_boot boot (opened_answer key (option_copied stored.entry))) }
{
    let Some(entry) = stored else {
        let body = Body::Full { key };
        out.put_by(grammar, &Msg { boot, body });
        return;
    };
    let body = Body::Opened(entry.numbers());
    out.put_by(grammar, &Msg { boot, body });
}

/// Writes how much of the entry is logged into `out`, as the answer to Data. Writes nothing if there is no entry.
#[tactic(auto, unfolding(seq_arith::specs::MessageGrammar::has_length, seq_arith::specs::MessageGrammar::is_sound_by))]
pub fn answer_stable(grammar: Grammar, stored: Option<&StoredEntry>, boot: u64, out: &mut MsgOut)
    requires boot { 1 ≤ boot }
    requires empty { out.old ≡ [] }
    ensures { out.new ≡ answer_bytes_by grammar (with_boot boot (on_entry (λ e. Some (StableMsg (kept_of e))) (option_copied stored.entry))) }
{
    let Some(entry) = stored else {
        return;
    };
    let body = Body::Stable(entry.kept());
    out.put_by(grammar, &Msg { boot, body });
}

/// Writes how much of the entry is logged into `out`, as the answer to Read. Writes nothing if there is no entry.
#[tactic(auto, unfolding(seq_arith::specs::MessageGrammar::has_length, seq_arith::specs::MessageGrammar::is_sound_by))]
pub fn answer_reads(grammar: Grammar, stored: Option<&StoredEntry>, boot: u64, out: &mut MsgOut)
    requires boot { 1 ≤ boot }
    requires empty { out.old ≡ [] }
    ensures { out.new ≡ answer_bytes_by grammar (with_boot boot (on_entry (λ e. Some (ReadsMsg (kept_of e))) (option_copied stored.entry))) }
{
    let Some(entry) = stored else {
        return;
    };
    let body = Body::Reads(entry.kept());
    out.put_by(grammar, &Msg { boot, body });
}

/// Writes into `out` that the connection's end is logged. Writes nothing if there is no entry.
#[tactic(auto, unfolding(seq_arith::specs::MessageGrammar::has_length, seq_arith::specs::MessageGrammar::is_sound_by))]
pub fn answer_ended(
    grammar: Grammar,
    stored: Option<&StoredEntry>,
    boot: u64,
    key: Key,
    out: &mut MsgOut,
)
    requires boot { 1 ≤ boot }
    requires empty { out.old ≡ [] }
    ensures { out.new ≡ answer_bytes_by grammar (with_boot boot (on_entry (λ e. Some (EndedMsg key)) (option_copied stored.entry))) }
{
    if stored.is_some() {
        let body = Body::Ended { key };
        out.put_by(grammar, &Msg { boot, body });
    }
}

/// Writes Stale into `out`, the answer to a message of boot `boot`: a server with the larger boot number `newer` has started.
#[tactic(auto, unfolding(seq_arith::specs::MessageGrammar::has_length, seq_arith::specs::MessageGrammar::is_sound_by))]
pub fn answer_stale(grammar: Grammar, boot: u64, newer: u64, out: &mut MsgOut)
    requires boot { 1 ≤ boot }
    requires newer { boot < newer }
    ensures { out.new ≡ answer_bytes_by grammar (with_boot boot (Some (StaleMsg newer))) }
{
    let body = Body::Stale { newer };
    out.put_by(grammar, &Msg { boot, body });
}
