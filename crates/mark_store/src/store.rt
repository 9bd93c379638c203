//! The log with marks.

ghost use Rattle.limits.specs.Limits.{longest_stream, most_units};
ghost use Rattle.std.specs.Prelude.{[], ◌≡◌, ◌≤◌, ◌<◌, ◌+◌, ◌^◌, ◌==◌, ◌&&◌, not, nat_lt, ℕ, true, false, Some, None, OnOk, OnErr, option_map};
ghost use Rattle.std.specs.Prelude.{length, max, slice_get, if◌then◌else◌};
ghost use Rattle.std.specs.Option.{option_map_or};
ghost use Rattle.seq_arith.specs.Mark.MarkBody.{MarkMsg as Marking, AskMsg};
ghost use Rattle.seq_arith.specs.MarkGrammar.{IsSpellable};
ghost use Rattle.logger_wire.specs.MarkValue.{mark_said, body_of, message_of};
ghost use Rattle.ft_model.specs.Log.{head_of};
ghost use Rattle.logger_wire.specs.Records.{head_said};
ghost use Rattle.logger_store.specs.StoreState.{bytes_of};
ghost use Rattle.logger_store.specs.Trim.{trim_at, MayTrim};
ghost use Rattle.mark_laws.specs.MarkedLog.{MarkedLog, after_mark, answer_to_mark, is_mark_answer, may_follow, no_mark, nothing_logged, reported_of_mark};
ghost use Rattle.mark_laws.specs.MarkedLog.{with_mark_body};
ghost use Rattle.seq_arith.specs.Message.Body.{StaleMsg};
ghost use Rattle.mark_laws.specs.MarkedLog.{about_mark};
ghost use Rattle.mark_laws.specs.MarkedLog.AnyMessage.{Of_log};
ghost use Rattle.mark_store.specs.Bytes.{after_bytes, after_bytes_by, kept_at, reply_bytes, reply_bytes_by, reply_to, reply_to_by};
ghost use Rattle.mark_store.specs.Refinement.{IsLeftOfMarked, mark_at};

use crate::kept_mark::KeptMark;
use crate::reporting::{answer_held, answer_marked, answer_stale};
use ft_io::{Key, NoMemory};
use logger_store::{MsgOut, TrimStore};
use logger_wire::{EntryHead, Grammar, Mark, MarkBody, MarkMsg, read_mark, read_msg_by};
use std::alloc::Global;
use std::marker::Model;

/// The bytes of a page: only complete pages are discarded.
const PAGE: u32 = 4_096;

/// The log with marks: a log, and for each of its entries at most one mark. It answers as if it discarded nothing, since no answer reports what is below a
/// mark. But of an entry it stores only the lengths of the reads after its mark, and the bytes from the beginning of the page in which the mark lies.
#[derive(Drop)]
pub struct MarkStore {
    /// The log, trimmed at the marks.
    log: TrimStore,
    /// The marks of the first entries, in their order. The entries after these have none.
    marks: Vec<KeptMark>,
}

impl Model for MarkStore {
    ghost use Rattle.mark_store.specs.Refinement.{TrimmedAtMarks};

    ghost Value = { TrimmedAtMarks };

    ghost view = { λ s. record { trimmed = s.log; marks = s.marks.items } };
}

/// Whether only the logger sends such a body.
fn is_answer(body: &MarkBody<'_>) -> bool
    ensures { result ≡ is_mark_answer (body_of body.now) }
{
    match body {
        MarkBody::Marked { .. } | MarkBody::Held { .. } => true,
        _ => false,
    }
}

/// Writes Stale into `out`, the answer to a message of an older boot, unless the message is of a kind that only the logger sends. Writes nothing otherwise.
fn answer_newer(grammar: Grammar, newer: u64, m: &MarkMsg<'_>, out: &mut MsgOut)
    requires boot { 1 ≤ m.now.boot }
    requires empty { out.old ≡ [] }
    ensures { out.new ≡ reply_bytes_by grammar (if nat_lt m.now.boot newer
        && not (is_mark_answer (body_of m.now.body)) then Some (Of_log (record { boot = m.now.boot; body = StaleMsg newer })) else None) }
{
    if m.boot < newer && !is_answer(&m.body) {
        answer_stale(grammar, m.boot, newer, out);
    }
}

/// Puts a mark at a place, which may be past the last one. The places between then get none.
#[tactic(auto, using(crate::proofs::Marks::mark_put))]
fn put_at(
    alloc: Global,
    marks: &mut Vec<KeptMark>,
    place: u16,
    mark: KeptMark,
) -> Result<(), NoMemory>
    ensures ok { OnOk result ((i : ℕ) → mark_at marks.new.items i ≡ (if i == place then mark else mark_at marks.old.items i)) }
    ensures few { OnOk result (length marks.new.items ≤ max (length marks.old.items) (place + 1)) }
    ensures err { OnErr result (marks.new.items ≡ marks.old.items) }
{
    let at = usize::from(place);
    let missing = (at + 1).saturating_sub(marks.len());
    marks.reserve(missing)?;
    for _more in 0..missing {
        marks.push_reserved(KeptMark::none(alloc));
    }
    marks[at] = mark;
    Ok(())
}

impl MarkStore {
    /// A log of boot 0 without entries and marks. Nothing is allocated yet.
    pub fn new(alloc: Global) -> MarkStore
        ensures { IsLeftOfMarked result nothing_logged }
    {
        MarkStore {
            log: TrimStore::new(alloc),
            marks: Vec::new(alloc),
        }
    }

    /// The boot number of the newest server that has sent Hello; 0 before the first.
    pub fn boot(&self) -> u64
        ensures { result ≡ self.now.trimmed.log.boot }
    {
        self.log.boot()
    }

    /// How many entries there are, at most 64.
    pub fn count(&self) -> u16
        ensures value { result ≡ length self.now.trimmed.log.entries }
        ensures within { result ≤ 64 }
    {
        self.log.count()
    }

    /// The entry at place `i`, counted from 0, without its bytes and lengths; `None` exactly if there is no such entry.
    pub fn entry(&self, i: u16) -> Option<EntryHead>
        ensures value { (l : MarkedLog) → IsLeftOfMarked self.now l → option_map head_said result ≡ option_map head_of (slice_get l.log.entries i) }
    {
        self.log.entry(i)
    }

    /// Whether a mark may replace that of the entry at this place: it lies after more reads, these are logged and took its `length` bytes, and no closing
    /// read is among them.
    pub(crate) fn follows(&self, place: u16, mark: &Mark<'_>) -> bool
        ensures value { result ≡ option_map_or (may_follow (record no_mark { reads = (trim_at self.now.trimmed.trims place).reads }) (mark_said mark.now))
            (slice_get self.now.trimmed.log.entries place) false }
        ensures trims { result ≡ true → MayTrim place mark.now.length mark.now.reads self.now.trimmed }
        ensures within { result ≡ true → mark.now.length ≤ length (bytes_of (slice_get self.now.trimmed.log.entries place)) }
    {
        let Some(entry) = self.log.entry(place) else {
            return false;
        };
        if self.log.trim_at(place).reads >= mark.reads || mark.reads > entry.reads {
            return false;
        }
        match self.log.took(place, mark.reads) {
            Some(length) => mark.length == length,
            None => false,
        }
    }

    /// Keeps a mark, if it may replace the one before it, and discards what is below it. The output that it counts is then acknowledged.
    pub(crate) fn take_mark(
        &mut self,
        alloc: Global,
        key: Key,
        mark: &Mark<'_>,
    ) -> Result<(), NoMemory>
        requires reads { mark.now.reads ≤ most_units }
        requires length { mark.now.length ≤ longest_stream }
        requires made { mark.now.made ≤ longest_stream }
        requires state { length mark.now.state.now ≤ 1100 }
        ensures ok { OnOk result ((l : MarkedLog) → IsLeftOfMarked self.old l → IsLeftOfMarked self.new (with_mark_body (Marking key (mark_said mark.now)) l)) }
        ensures err { OnErr result (self.new ≡ self.old) }
    {
        let Some(place) = self.log.place_of(key) else {
            return Ok(());
        };
        if !self.follows(place, mark) {
            return Ok(());
        }
        let kept = KeptMark::new(alloc, mark)?;
        put_at(alloc, &mut self.marks, place, kept)?;
        self.log.trim(place, mark.length, mark.reads);
        self.log.acknowledge(key, mark.made);
        Ok(())
    }

    /// Takes a message about marks that has the log's boot number, and keeps what it says.
    fn take(&mut self, alloc: Global, m: &MarkMsg<'_>) -> Result<(), NoMemory>
        requires { IsSpellable (message_of m.now) }
        ensures ok { OnOk result ((l : MarkedLog) → IsLeftOfMarked self.old l → IsLeftOfMarked self.new (with_mark_body (body_of m.now.body) l)) }
        ensures err { OnErr result (self.new ≡ self.old) }
    {
        match m.body {
            MarkBody::Mark { key, mark } => self.take_mark(alloc, key, &mark),
            _ => Ok(()),
        }
    }

    /// The mark of the entry at this place.
    fn mark_at(&self, place: u16) -> Mark<'_>
        ensures value { mark_said result ≡ mark_at self.now.marks place }
        ensures reads { result.reads ≤ most_units }
        ensures length { result.length ≤ longest_stream }
        ensures made { result.made ≤ longest_stream }
        ensures state { length result.state.now ≤ 1100 }
    {
        match self.marks.get(usize::from(place)) {
            Some(mark) => mark.mark(),
            None => Mark {
                reads: 0,
                length: 0,
                made: 0,
                state: &[],
            },
        }
    }

    /// Writes into `out` after how many reads a key's mark lies. Writes nothing if the key has no entry.
    fn answer_marked(&self, boot: u64, key: Key, out: &mut MsgOut)
        requires boot { 1 ≤ boot }
        requires empty { out.old ≡ [] }
        ensures { (l : MarkedLog) → IsLeftOfMarked self.now l
            → out.new ≡ reply_bytes (option_map (about_mark boot) (reported_of_mark (Marking key no_mark) l)) }
    {
        if let Some(place) = self.log.place_of(key) {
            answer_marked(boot, key, self.mark_at(place).reads, out);
        }
    }

    /// Writes a key's mark into `out`. Writes nothing if the key has no entry.
    fn answer_held(&self, boot: u64, key: Key, out: &mut MsgOut)
        requires boot { 1 ≤ boot }
        requires empty { out.old ≡ [] }
        ensures { (l : MarkedLog) → IsLeftOfMarked self.now l → out.new ≡ reply_bytes (option_map (about_mark boot) (reported_of_mark (AskMsg key) l)) }
    {
        if let Some(place) = self.log.place_of(key) {
            answer_held(boot, key, &self.mark_at(place), out);
        }
    }

    /// Writes into the empty `out` the answer to a message about marks that has the log's boot number, after the log has taken the message.
    fn write_answer(&self, m: &MarkMsg<'_>, out: &mut MsgOut)
        requires spellable { IsSpellable (message_of m.now) }
        requires empty { out.old ≡ [] }
        ensures { (l : MarkedLog) → IsLeftOfMarked self.now l
            → out.new ≡ reply_bytes (option_map (about_mark m.now.boot) (reported_of_mark (body_of m.now.body) l)) }
    {
        match m.body {
            MarkBody::Mark { key, .. } => self.answer_marked(m.boot, key, out),
            MarkBody::Ask { key } => self.answer_held(m.boot, key, out),
            _ => (),
        }
    }

    /// Takes a message about marks, and writes the answer to it, or nothing, into the empty `out`.
    fn answer_mark(
        &mut self,
        alloc: Global,
        grammar: Grammar,
        m: &MarkMsg<'_>,
        out: &mut MsgOut,
    ) -> Result<(), NoMemory>
        requires spellable { IsSpellable (message_of m.now) }
        requires empty { out.old ≡ [] }
        ensures next { OnOk result ((l : MarkedLog) → IsLeftOfMarked self.old l → IsLeftOfMarked self.new (after_mark l (message_of m.now))) }
        ensures answer { OnOk result ((l : MarkedLog) → IsLeftOfMarked self.old l → out.new ≡ reply_bytes_by grammar (answer_to_mark l (message_of m.now))) }
        ensures refused { OnErr result (self.new ≡ self.old) }
        ensures empty { OnErr result (out.new ≡ []) }
    {
        let boot = self.boot();
        if m.boot == boot {
            self.take(alloc, m)?;
            self.write_answer(m, out);
            return Ok(());
        }
        answer_newer(grammar, boot, m, out);
        Ok(())
    }

    /// Takes bytes, which may be a message of the log, one about marks, or neither, and replaces the content of `out` by the answer, or by nothing. After
    /// `NoMemory` the log with its marks is unchanged, `out` empty.
    pub fn answer(&mut self, alloc: Global, bytes: &[u8], out: &mut MsgOut) -> Result<(), NoMemory>
        ensures next { OnOk result ((l : MarkedLog) → IsLeftOfMarked self.old l → IsLeftOfMarked self.new (after_bytes bytes.now l)) }
        ensures answer { OnOk result ((l : MarkedLog) → IsLeftOfMarked self.old l → out.new ≡ reply_to bytes.now l) }
        ensures refused { OnErr result (self.new ≡ self.old) }
        ensures empty { OnErr result (out.new ≡ []) }
    {
        self.answer_by(alloc, Grammar::Plain, bytes, out)
    }

    /// Takes bytes, which may be a message of the log in a grammar, one about marks, or neither, and replaces the content of `out` by the answer, or by
    /// nothing.
    pub fn answer_by(
        &mut self,
        alloc: Global,
        grammar: Grammar,
        bytes: &[u8],
        out: &mut MsgOut,
    ) -> Result<(), NoMemory>
        ensures next { OnOk result ((l : MarkedLog) → IsLeftOfMarked self.old l → IsLeftOfMarked self.new (after_bytes_by grammar bytes.now l)) }
        ensures answer { OnOk result ((l : MarkedLog) → IsLeftOfMarked self.old l → out.new ≡ reply_to_by grammar bytes.now l) }
        ensures refused { OnErr result (self.new ≡ self.old) }
        ensures empty { OnErr result (out.new ≡ []) }
    {
        if let Ok(m) = read_msg_by(grammar, bytes) {
            return self.log.answer_by(alloc, grammar, &m, out);
        }
        out.clear();
        match read_mark(bytes) {
            Ok(m) => self.answer_mark(alloc, grammar, &m, out),
            Err(_) => Ok(()),
        }
    }

    /// How many bytes of the entry at place `i` are stored: those past the complete pages below its mark; 0 if there is no such entry.
    pub fn kept(&self, i: u16) -> u32
        ensures { (l : MarkedLog) → IsLeftOfMarked self.now l → result ≡ kept_at i l }
    {
        let Some(entry) = self.log.entry(i) else {
            return 0;
        };
        let below = self.log.trim_of(entry.key).bytes;
        entry.length.saturating_sub(below - below % PAGE)
    }
}
