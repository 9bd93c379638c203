//! The restart while it asks for the log's entries.

ghost use Rattle.limits.specs.Limits.{longest_stream};
ghost use Rattle.std.specs.Prelude.{◌≡◌, ◌⊎◌, ◌<◌, ◌≤◌, ◌^◌, true, false, length, option_map, find, OnOk, IfOk, IfNone, IfSome, MatchOption, None};
ghost use Rattle.std.specs.Prelude.{[], List, ◌++◌};
ghost use Rattle.std.specs.Prelude.{reverse, if◌then◌else◌};
ghost use Rattle.std.specs.List.{AllByRecursion};
ghost use Rattle.std.specs.Option.{option_to_list};
ghost use Rattle.seq_arith.specs.declared.kinds.Grammar.{Grammar};
ghost use Rattle.seq_arith.specs.MessageGrammar.{lens_in};
ghost use Rattle.server_trait.specs.Service.{machine};
ghost use Rattle.ft_io.specs.Key.{key_eq};
ghost use Rattle.ft_model.specs.Restart.{Fetched};
ghost use Rattle.server_trait.specs.Saved.{writing};
ghost use Rattle.seq_arith.specs.Mark.MarkBody.{AskMsg, HeldMsg};
ghost use Rattle.seq_arith.specs.MarkGrammar.{IsSpellable};
ghost use Rattle.logger_wire.specs.MarkValue.{mark_said, message_of as mark_message_of};
ghost use Rattle.mark_laws.specs.MarkedLog.AnyMessage.{About_mark};
ghost use Rattle.mark_laws.specs.Restart.{FetchedSoFar, next_question};
ghost use Rattle.reincarnate.specs.Marking.{any_of, IsAnyRead, IsAnySendable, IsRead, awaits, marks_after, marked_on};
ghost use Rattle.logger_wire.specs.Value.{body_of, message_of, IsSendableBy};
ghost use Rattle.logger_wire.specs.Records.{head_said};
ghost use Rattle.reincarnate.specs.Progress.{AreReady};
ghost use Rattle.log_replay.specs.LoggedHead.{IsSegmentSize};
ghost use Rattle.reincarnate.specs.Questions.{any_asked, any_received, log_received, noted, held_received, mark_received, mark_asked};
ghost use Rattle.reincarnate.specs.Questions.{IsAskable, entries_of, asked_of, asked_entry, asked, entry_known, head_fits, with_head, with_newest};
ghost use Rattle.reincarnate.specs.Questions.{part_on, lens_on, answered, after_answer};
ghost use Rattle.reincarnate.specs.Refinement.{StandsFetching, StandsSoFar, StandsWhole, AnyLeads, held_of};

use crate::any_msg::AnyMsg;
use crate::entries::Entries;
use crate::fetched_entry::FetchedEntry;
use crate::marks::Marks;
use crate::ranges::{fit_boot, fit_key};
use ft_io::{Key, NoMemory};
use logger_wire::{Body, EntryHead, Mark, MarkBody, MarkMsg, Msg};
use server_trait::{Saved, Service};
use std::alloc::Global;
use std::marker::Model;
use std::mem;

/// A restart that asks for the log's entries, one after another, and replays the reads of each as soon as they are complete. In contracts it has, of each
/// entry, the head, the counts of what is fetched, and the service with what it still holds.
#[derive(Drop)]
pub struct Fetching<S: Service> {
    /// The server's boot number.
    boot: u64,
    /// The kind of its service.
    kind: u8,
    /// How many entries the log has.
    count: u16,
    /// Whether marks are asked for.
    marks: Marks,
    /// The entry that was fetched last, or is being fetched.
    newest: Option<FetchedEntry<S>>,
    /// Those before it, the newest first.
    earlier: Vec<FetchedEntry<S>>,
}

impl<S: Service> Model for Fetching<S> {
    ghost use Rattle.std.specs.Prelude.{◌≡◌, ◌≤◌};
    ghost use Rattle.std.specs.List.{AllByRecursion};
    ghost use Rattle.reincarnate.specs.Questions.{FetchingState};
    ghost use Rattle.reincarnate.specs.Progress.{AreReady};

    ghost Value = { FetchingState S };

    ghost view = { λ f. record { boot = f.boot; kind = f.kind; count = f.count; marks = f.marks; newest = f.newest; earlier = f.earlier.items } };

    ghost invariant = { λ f. (1 ≤ f.boot) × (f.count ≤ 64) × AreReady f.earlier.items };
}

impl<S: Service> Fetching<S> {
    pub(crate) fn begin(alloc: Global, boot: u64, kind: u8, count: u16, marks: Marks) -> Fetching<S>
        requires boot { 1 ≤ boot }
        requires count { count ≤ 64 }
        ensures { result ≡ record { boot = boot; kind = kind; count = count; marks = marks; newest = None; earlier = [] } }
    {
        Fetching {
            boot,
            kind,
            count,
            marks,
            newest: None,
            earlier: Vec::new(alloc),
        }
    }

    /// What is asked of the newest entry.
    fn question_of_newest(&self) -> Option<Body<'_>>
        ensures value { option_map body_of result ≡ asked_of self.now.newest }
        ensures sendable { IfSome result (λ body. IsAskable body) }
    {
        match &self.newest {
            Some(entry) => entry.question(),
            None => None,
        }
    }

    /// How many entries are fetched, including the one that is being fetched.
    fn fetched(&self) -> usize
        ensures { result ≡ length (entries_of self.now) }
    {
        self.earlier.len() + usize::from(self.newest.is_some())
    }

    fn question_for_next(&self) -> Option<Body<'_>>
        ensures value { option_map body_of result ≡ asked_entry self.now }
        ensures sendable { IfSome result (λ body. IsAskable body) }
    {
        let index = self.fetched();
        if index < usize::from(self.count) {
            return Some(Body::List {
                index: index as u16,
            });
        }
        None
    }

    fn asked(&self) -> Option<Body<'_>>
        ensures value { option_map body_of result ≡ asked self.now }
        ensures sendable { IfSome result (λ body. IsAskable body) }
    {
        match self.question_of_newest() {
            Some(body) => Some(body),
            None => self.question_for_next(),
        }
    }

    /// Returns the next question to the logger, or None if nothing is missing.
    pub fn question(&self) -> Option<AnyMsg<'_>>
        ensures value { option_map any_of result ≡ any_asked self.now }
        ensures law { (so_far : FetchedSoFar) → StandsSoFar (machine (S.started self.now.kind) S.after S.greeting) so_far self.now
            → option_map any_of result ≡ next_question self.now.boot self.now.count so_far }
        ensures end { IfNone result (asked self.now ≡ None) }
        ensures sendable { IfSome result (λ m. IsAnySendable m) }
    {
        self.ask()
    }

    fn ask(&self) -> Option<AnyMsg<'_>>
        ensures value { option_map any_of result ≡ any_asked self.now }
        ensures end { IfNone result (asked self.now ≡ None) }
        ensures sendable { IfSome result (λ m. IsAnySendable m) }
    {
        if let Some(mark) = self.ask_mark() {
            return Some(AnyMsg::Mark(mark));
        }
        match self.ask_log() {
            Some(m) => Some(AnyMsg::Log(m)),
            None => None,
        }
    }

    /// The question for the mark of the newest entry, where it is awaited.
    fn ask_mark(&self) -> Option<MarkMsg<'_>>
        ensures value { option_map (λ m. About_mark (mark_message_of m)) result
            ≡ (if awaits self.now.marks then mark_asked self.now.boot self.now.newest else None) }
        ensures sendable { IfSome result (λ m. IsSpellable (mark_message_of m)) }
    {
        if !self.marks.are_awaited() {
            return None;
        }
        match &self.newest {
            Some(entry) => Some(mark_question(self.boot, entry.head().key)),
            None => None,
        }
    }

    fn ask_log(&self) -> Option<Msg<'_>>
        ensures sendable { IfSome result (λ m. (grammar : Grammar) → IsSendableBy grammar m) }
        ensures end { IfNone result (asked self.now ≡ None) }
        ensures value { option_map message_of result ≡ option_map (λ body. record { boot = self.now.boot; body = body }) (asked self.now) }
    {
        fit_boot(self.boot);
        match self.asked() {
            Some(body) => Some(Msg {
                boot: self.boot,
                body,
            }),
            None => None,
        }
    }

    /// Returns the head of this key's entry, or None if no such entry is fetched yet.
    pub fn known(&self, key: Key) -> Option<EntryHead>
        ensures value { option_map head_said result ≡ option_map (λ e. e.head) (entry_known key self.now) }
        ensures law { (fetched : List Fetched) → StandsFetching (machine (S.started self.now.kind) S.after S.greeting) fetched self.now
            → option_map head_said result ≡ option_map (λ f. f.head) (find (λ f. key_eq f.head.key key) fetched) }
    {
        self.head_of(key)
    }

    fn head_of(&self, key: Key) -> Option<EntryHead>
        ensures { option_map head_said result ≡ option_map (λ e. e.head) (entry_known key self.now) }
    {
        match &self.newest {
            Some(entry) if entry.has_key(key) => Some(entry.head()),
            _ => head_among(&self.earlier, key),
        }
    }

    /// Returns how many bytes of the newest entry are fetched and not replayed: at most 3,071 while one of its reads isn't replayed or the length of one is
    /// missing.
    pub fn held(&self) -> usize
        ensures value { result ≡ held_of self.now.newest }
        ensures few { IfSome self.now.newest (λ e. (0 < length e.waiting) ⊎ (e.cuts.count < e.head.reads) → result ≤ 3071) }
    {
        match &self.newest {
            Some(entry) => entry.held(),
            None => 0,
        }
    }

    /// Takes a message that isn't about marks. It is no answer while a mark is awaited.
    fn receive_log(&mut self, alloc: Global, m: &Msg<'_>) -> Result<bool, NoMemory>
        requires { IsRead m.now }
        ensures value { IfOk result (λ fits. MatchOption (log_received S.started S.after S.greeting (message_of m.now) self.old)
            ((fits ≡ false) × (self.new ≡ self.old)) (λ s. (fits ≡ true) × (self.new ≡ s))) }
    {
        if self.marks.are_awaited() {
            return Ok(false);
        }
        self.take_answer(alloc, m)
    }

    /// The same where no mark is awaited. After an entry's head its mark may be awaited.
    fn take_answer(&mut self, alloc: Global, m: &Msg<'_>) -> Result<bool, NoMemory>
        requires { IsRead m.now }
        ensures value { IfOk result (λ fits. MatchOption
            (option_map (noted (marks_after self.old.marks (body_of m.now.body))) (after_answer S.started S.after S.greeting (message_of m.now) self.old))
            ((fits ≡ false) × (self.new ≡ self.old)) (λ s. (fits ≡ true) × (self.new ≡ s))) }
    {
        let marks = self.marks.after(&m.body);
        if !self.receive(alloc, m)? {
            return Ok(false);
        }
        self.marks = marks;
        Ok(true)
    }

    /// The same, apart from whether a mark is awaited afterwards.
    fn receive(&mut self, alloc: Global, m: &Msg<'_>) -> Result<bool, NoMemory>
        requires { IsRead m.now }
        ensures value { IfOk result (λ fits. MatchOption (after_answer S.started S.after S.greeting (message_of m.now) self.old)
            ((fits ≡ false) × (self.new ≡ self.old)) (λ s. (fits ≡ true) × (self.new ≡ s))) }
    {
        if m.boot != self.boot {
            return Ok(false);
        }
        self.on_body(alloc, m)
    }

    fn on_body(&mut self, alloc: Global, m: &Msg<'_>) -> Result<bool, NoMemory>
        requires sendable { IsRead m.now }
        ensures value { IfOk result (λ fits. MatchOption (answered S.started S.after S.greeting self.old (body_of m.now.body))
            ((fits ≡ false) × (self.new ≡ self.old)) (λ s. (fits ≡ true) × (self.new ≡ s))) }
    {
        match m.body {
            Body::Entry { index, head } => self.on_head(alloc, index, head),
            Body::Part { key, offset, bytes } => self.on_part(key, offset, bytes),
            Body::Lens { key, first, lens } => self.on_lens(key, first, lens),
            _ => Ok(false),
        }
    }

    /// Takes the head of an entry, if it is an answer.
    #[tactic(auto, using(crate::proofs::Ready::fits_asked))]
    fn on_head(&mut self, alloc: Global, index: u16, head: EntryHead) -> Result<bool, NoMemory>
        requires stream { head.length ≤ longest_stream }
        requires segments { IsSegmentSize head.mss }
        ensures fits { IfOk result (λ fits. fits ≡ head_fits index head.key self.old) }
        ensures state { IfOk result (λ fits. self.new ≡ (if fits then with_head (S.started self.old.kind)
            (S.greeting (S.started self.old.kind)) (head_said head) self.old else self.old)) }
    {
        if !self.head_fits(index, head.key) {
            return Ok(false);
        }
        set_aside(&mut self.newest, &mut self.earlier)?;
        let entry = FetchedEntry::begin(alloc, self.kind, head)?;
        drop(self.newest.replace(entry));
        Ok(true)
    }

    fn head_fits(&self, index: u16, key: Key) -> bool
        ensures { result ≡ head_fits index key self.now }
    {
        self.question_of_newest().is_none()
            && index < self.count
            && usize::from(index) == self.fetched()
            && self.head_of(key).is_none()
    }

    /// Takes bytes of the newest entry, if they are an answer.
    fn on_part(&mut self, key: Key, offset: u32, bytes: &[u8]) -> Result<bool, NoMemory>
        requires { length bytes.now ≤ 1024 }
        ensures { IfOk result (λ fits. MatchOption (part_on S.after key offset bytes.now self.old.newest)
            ((fits ≡ false) × (self.new ≡ self.old)) (λ e. (fits ≡ true) × (self.new ≡ with_newest self.old e))) }
    {
        match self.newest.take() {
            Some(entry) if entry.part_fits(key, offset, bytes.len()) => {
                drop(self.newest.replace(entry.with_bytes(bytes)?));
                Ok(true)
            }
            kept => {
                drop(mem::replace(&mut self.newest, kept));
                Ok(false)
            }
        }
    }

    /// Takes lengths of the newest entry's reads, of two bytes each, if they are an answer.
    fn on_lens(&mut self, key: Key, first: u32, lens: &[u8]) -> Result<bool, NoMemory>
        requires { AllByRecursion (λ n. n ≤ 2048) (lens_in lens.now) }
        ensures { IfOk result (λ fits. MatchOption (lens_on S.after key first (lens_in lens.now) self.old.newest)
            ((fits ≡ false) × (self.new ≡ self.old)) (λ e. (fits ≡ true) × (self.new ≡ with_newest self.old e))) }
    {
        let Some(entry) = self.newest.take() else {
            return Ok(false);
        };
        match entry.cuts_with(key, first, lens) {
            Some(cuts) => {
                drop(self.newest.replace(entry.with_lengths(cuts, lens)?));
                Ok(true)
            }
            None => {
                drop(self.newest.replace(entry));
                Ok(false)
            }
        }
    }

    /// Returns all entries, in the log's order, once nothing is missing.
    pub fn finish(self) -> Entries<S>
        requires { asked self ≡ None }
        ensures value { result ≡ reverse self.earlier ++ option_to_list self.newest }
        ensures law { (fetched : List Fetched) → StandsFetching (machine (S.started self.kind) S.after S.greeting) fetched self
            → StandsWhole (machine (S.started self.kind) S.after S.greeting) (reverse fetched) result }
    {
        let Fetching {
            boot: _,
            kind: _,
            count: _,
            marks: _,
            newest,
            earlier,
        } = self;
        Entries::begin(newest, earlier)
    }
}

impl<S: Saved> Fetching<S> {
    /// Takes an answer, if it fits the question, and returns whether it does. After `NoMemory` this value may only be dropped.
    pub fn on_answer(&mut self, alloc: Global, m: &AnyMsg<'_>) -> Result<bool, NoMemory>
        requires { IsAnyRead m.now }
        ensures value { IfOk result (λ fits. MatchOption (any_received S.started S.after S.greeting S.state_of (any_of m.now) self.old)
            ((fits ≡ false) × (self.new ≡ self.old)) (λ s. (fits ≡ true) × (self.new ≡ s))) }
        ensures law { IfOk result (λ fits. (so_far : FetchedSoFar) → StandsSoFar (machine (S.started self.old.kind) S.after S.greeting) so_far self.old
            → AnyLeads (machine (S.started self.old.kind) S.after S.greeting) (writing S.form (S.state_of self.old.kind)) so_far
            (any_of m.now) fits self.old self.new) }
    {
        self.receive_any(alloc, m)
    }

    fn receive_any(&mut self, alloc: Global, m: &AnyMsg<'_>) -> Result<bool, NoMemory>
        requires { IsAnyRead m.now }
        ensures value { IfOk result (λ fits. MatchOption (any_received S.started S.after S.greeting S.state_of (any_of m.now) self.old)
            ((fits ≡ false) × (self.new ≡ self.old)) (λ s. (fits ≡ true) × (self.new ≡ s))) }
    {
        match m {
            AnyMsg::Log(m) => self.receive_log(alloc, m),
            AnyMsg::Mark(m) => self.receive_mark(alloc, m),
        }
    }

    /// Takes a message about marks.
    #[tactic(auto, using(crate::proofs::Sendable::held_in_range))]
    fn receive_mark(&mut self, alloc: Global, m: &MarkMsg<'_>) -> Result<bool, NoMemory>
        requires { IsSpellable (mark_message_of m.now) }
        ensures value { IfOk result (λ fits. MatchOption (mark_received S.started S.greeting S.state_of (mark_message_of m.now) self.old)
            ((fits ≡ false) × (self.new ≡ self.old)) (λ s. (fits ≡ true) × (self.new ≡ s))) }
    {
        if m.boot != self.boot || !self.marks.are_awaited() {
            return Ok(false);
        }
        match m.body {
            MarkBody::Held { key, mark } => self.on_held(alloc, key, &mark),
            _ => Ok(false),
        }
    }

    /// Takes the mark of the newest entry: if it is an answer, the entry begins there.
    fn on_held(&mut self, alloc: Global, key: Key, mark: &Mark<'_>) -> Result<bool, NoMemory>
        requires { mark.now.made ≤ longest_stream }
        ensures value { IfOk result (λ fits. MatchOption (held_received S.started S.greeting S.state_of (HeldMsg key (mark_said mark.now)) self.old)
            ((fits ≡ false) × (self.new ≡ self.old)) (λ s. (fits ≡ true) × (self.new ≡ s))) }
    {
        let Some(entry) = self.begun_from(alloc, key, mark)? else {
            return Ok(false);
        };
        drop(self.newest.replace(entry));
        self.marks = Marks::Used;
        Ok(true)
    }

    /// The newest entry from its mark on, if the mark is of its key and an answer.
    fn begun_from(
        &self,
        alloc: Global,
        key: Key,
        mark: &Mark<'_>,
    ) -> Result<Option<FetchedEntry<S>>, NoMemory>
        requires { mark.now.made ≤ longest_stream }
        ensures { IfOk result (λ begun. begun ≡ marked_on (S.started self.now.kind)
            (S.greeting (S.started self.now.kind)) (S.state_of self.now.kind) key (mark_said mark.now) self.now.newest) }
    {
        match &self.newest {
            Some(entry) if entry.has_key(key) => entry.from_mark(alloc, self.kind, mark),
            _ => Ok(None),
        }
    }
}

/// The question for the mark of a connection.
#[tactic(auto, using(crate::proofs::Questions::ask_spellable))]
fn mark_question<'a>(boot: u64, key: Key) -> MarkMsg<'a>
    requires { 1 ≤ boot }
    ensures value { mark_message_of result ≡ record { boot = boot; body = AskMsg key } }
    ensures sendable { IsSpellable (mark_message_of result) }
{
    fit_boot(boot);
    fit_key(key);
    MarkMsg {
        boot,
        body: MarkBody::Ask { key },
    }
}

/// Moves the newest entry, of which nothing is missing, to the earlier ones.
#[tactic(auto, using(crate::proofs::Ready::newest_is_ready))]
fn set_aside<S: Service>(
    newest: &mut Option<FetchedEntry<S>>,
    earlier: &mut Vec<FetchedEntry<S>>,
) -> Result<(), NoMemory>
    requires asked { asked_of newest.old ≡ None }
    requires ready { AreReady earlier.old.items }
    ensures items { OnOk result (earlier.new.items ≡ option_to_list newest.old ++ earlier.old.items) }
    ensures ready { AreReady earlier.new.items }
{
    let Some(entry) = newest.take() else {
        return Ok(());
    };
    earlier.insert(0, entry)?;
    Ok(())
}

/// The head of the first of these entries that has this key.
#[tactic(auto, using(crate::proofs::Finding::found_here, crate::proofs::Finding::passed_here, crate::proofs::Finding::none_here))]
fn head_among<S: Service>(entries: &[FetchedEntry<S>], key: Key) -> Option<EntryHead>
    ensures { option_map head_said result ≡ option_map (λ e. e.head) (find (λ e. key_eq e.head.key key) entries.now) }
{
    for entry in entries {
        if entry.has_key(key) {
            return Some(entry.head());
        }
    }
    None
}
