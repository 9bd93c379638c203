//! An entry of the log as far as it is fetched.

ghost use Rattle.limits.specs.Limits.{longest_stream};
ghost use Rattle.std.specs.Prelude.{◌≡◌, ◌⊎◌, ◌<◌, ◌≤◌, ◌+◌, ◌^◌, ◌++◌, true, false, length, sum, option_map, OnOk, IfOk, IfSome};
ghost use Rattle.std.specs.List.{AllByRecursion};
ghost use Rattle.seq_arith.specs.MessageGrammar.{lens_in};
ghost use Rattle.logger_wire.specs.MarkValue.{mark_said};
ghost use Rattle.logger_wire.specs.Value.{body_of};
ghost use Rattle.ft_io.specs.Key.{key_eq};
ghost use Rattle.log_replay.specs.ReadLengths.{HaveBytes};
ghost use Rattle.logger_wire.specs.Records.{head_said};
ghost use Rattle.mark_laws.specs.Restart.{lies_within};
ghost use Rattle.reincarnate.specs.Questions.{IsAskable};
ghost use Rattle.reincarnate.specs.Marking.{begun_at, begun_from};
ghost use Rattle.reincarnate.specs.Progress.{begun_entry, lacks, asked_for, asks_bytes, asks_lengths, part_fits, lengths_fit, with_bytes, cuts_with};
ghost use Rattle.reincarnate.specs.Progress.{with_lengths, first_whole, replayed_from, replayed_state};
ghost use Rattle.log_replay.specs.LoggedHead.{IsSegmentSize};

use crate::lack::Lack;
use crate::logged_mark::lies_within;
use crate::ranges::fit_key;
use crate::replayed::Replayed;
use ft_io::{Key, NoMemory};
use log_replay::{Cuts, Replay};
use logger_wire::{Body, EntryHead, Mark, len_at};
use server_trait::{Saved, Service};
use std::alloc::Global;
use std::collections::VecDeque;
use std::marker::Model;

/// An entry as far as it is fetched, with a service that has replayed its reads as far as they are complete.
#[derive(Drop)]
pub(crate) struct FetchedEntry<S: Service> {
    /// The entry without its bytes and lengths.
    head: EntryHead,
    /// How many of its bytes are fetched.
    bytes: u32,
    /// What is known of the reads whose lengths are fetched.
    cuts: Cuts,
    /// The lengths of those that aren't replayed, in bytes.
    waiting: VecDeque<u16>,
    /// The service, with what it still holds.
    replay: Replay<S>,
}

impl<S: Service> Model for FetchedEntry<S> {
    ghost use Rattle.logger_wire.specs.Records.{head_said};
    ghost use Rattle.reincarnate.specs.Progress.{EntryState, IsSized};

    ghost Value = { EntryState S };

    ghost view = { λ e. record { head = head_said e.head; bytes = e.bytes; cuts = e.cuts; waiting = e.waiting.items; replay = e.replay } };

    ghost invariant = { λ e. IsSized {S = S} (record {
      head = head_said e.head;
      bytes = e.bytes;
      cuts = e.cuts;
      waiting = e.waiting.items;
      replay = e.replay;
    }) };
}

impl<S: Service> FetchedEntry<S> {
    /// An entry of which only the head is fetched.
    pub(crate) fn begin(
        alloc: Global,
        kind: u8,
        head: EntryHead,
    ) -> Result<FetchedEntry<S>, NoMemory>
        requires stream { head.length ≤ longest_stream }
        requires segments { IsSegmentSize head.mss }
        ensures { IfOk result (λ e. e ≡ begun_entry (S.started kind) (S.greeting (S.started kind)) (head_said head)) }
    {
        Ok(FetchedEntry {
            head,
            bytes: 0,
            cuts: Cuts::NONE,
            waiting: VecDeque::new(alloc),
            replay: Replay::new(alloc, kind, head.acked)?,
        })
    }

    /// An entry that begins at a mark.
    #[tactic(auto, using(crate::proofs::Sized::marked_sized))]
    pub(crate) fn begin_at(
        alloc: Global,
        head: EntryHead,
        mark: &Mark<'_>,
        service: S,
    ) -> FetchedEntry<S>
        requires stream { head.length ≤ longest_stream }
        requires segments { IsSegmentSize head.mss }
        requires made { mark.now.made ≤ longest_stream }
        requires within { lies_within (head_said head) (mark_said mark.now) ≡ true }
        ensures { result ≡ begun_at (head_said head) (mark_said mark.now) service }
    {
        FetchedEntry {
            head,
            bytes: mark.length,
            cuts: Cuts::below(mark.reads, mark.length),
            waiting: VecDeque::new(alloc),
            replay: Replay::resumed(alloc, service, mark.made, head.acked),
        }
    }

    pub(crate) fn head(&self) -> EntryHead
        ensures { head_said result ≡ self.now.head }
    {
        self.head
    }

    pub(crate) fn has_key(&self, key: Key) -> bool
        ensures { result ≡ key_eq self.now.head.key key }
    {
        self.head.key == key
    }

    /// What is asked for next of the entry.
    pub(crate) fn lacks(&self) -> Lack
        ensures { result ≡ lacks self.now }
    {
        if self.head.done {
            return Lack::Nothing;
        }
        if self.bytes < self.cuts.sum {
            return Lack::Bytes;
        }
        if self.cuts.count < self.head.reads {
            return Lack::Lengths;
        }
        if self.bytes < self.head.length {
            return Lack::Bytes;
        }
        Lack::Nothing
    }

    /// The question for it, if anything is missing.
    pub(crate) fn question(&self) -> Option<Body<'_>>
        ensures value { option_map body_of result ≡ asked_for (lacks self.now) self.now }
        ensures sendable { IfSome result (λ body. IsAskable body) }
    {
        fit_key(self.head.key);
        match self.lacks() {
            Lack::Bytes => Some(Body::Bytes {
                key: self.head.key,
                offset: self.bytes,
            }),
            Lack::Lengths => Some(Body::Cuts {
                key: self.head.key,
                first: self.cuts.count,
            }),
            Lack::Nothing => None,
        }
    }

    /// How many fetched bytes aren't replayed.
    pub(crate) fn held(&self) -> usize
        ensures value { result ≡ length self.now.replay.held }
        ensures few { (0 < length self.now.waiting) ⊎ (self.now.cuts.count < self.now.head.reads) → result ≤ 2047 }
    {
        let _cuts = self.cuts;
        self.replay.held()
    }

    /// Whether `count` bytes of this key, from this offset on, answer what is asked for.
    pub(crate) fn part_fits(&self, key: Key, offset: u32, count: usize) -> bool
        ensures { result ≡ part_fits key offset count self.now }
    {
        self.lacks() == Lack::Bytes
            && key == self.head.key
            && offset == self.bytes
            && count <= (self.head.length - self.bytes) as usize
    }

    /// The entry with these bytes, which answer what was asked for.
    pub(crate) fn with_bytes(self, bytes: &[u8]) -> Result<FetchedEntry<S>, NoMemory>
        requires asked { asks_bytes (lacks self) ≡ true }
        requires within { self.bytes + length bytes.now ≤ self.head.length }
        requires few { length bytes.now ≤ 1024 }
        ensures { IfOk result (λ e. e ≡ with_bytes S.after bytes.now self) }
    {
        let FetchedEntry {
            head,
            bytes: fetched,
            cuts,
            mut waiting,
            mut replay,
        } = self;
        replay.hold(bytes)?;
        replay_whole(&mut waiting, &mut replay)?;
        Ok(FetchedEntry {
            head,
            bytes: fetched + bytes.len() as u32,
            cuts,
            waiting,
            replay,
        })
    }

    /// Whether `count` lengths of this key, from read `first` on, answer what is asked for.
    fn lengths_fit(&self, key: Key, first: u32, count: usize) -> bool
        ensures { result ≡ lengths_fit key first count self.now }
    {
        self.lacks() == Lack::Lengths
            && key == self.head.key
            && first == self.cuts.count
            && count <= (self.head.reads - self.cuts.count) as usize
    }

    /// The reads with those of the lengths `lens`, two bytes for each length, if these answer what is asked for and may follow.
    #[tactic(auto, using(crate::proofs::Sized::cuts_fit, crate::proofs::Sized::cuts_refused, crate::proofs::Sized::lengths_asked))]
    pub(crate) fn cuts_with(&self, key: Key, first: u32, lens: &[u8]) -> Option<Cuts>
        ensures value { result ≡ cuts_with key first (lens_in lens.now) self.now }
        ensures asked { IfSome result (λ _. asks_lengths (lacks self.now) ≡ true) }
        ensures sum { IfSome result (λ cuts. cuts.sum ≡ self.now.cuts.sum + sum (lens_in lens.now)) }
        ensures have { IfSome result (λ cuts. HaveBytes cuts) }
        ensures within { IfSome result (λ cuts. cuts.sum ≤ self.now.head.length) }
    {
        if !self.lengths_fit(key, first, lens.len() / 2) {
            return None;
        }
        self.cuts.through(lens, self.head.length, self.head.fin)
    }

    /// The entry with these lengths, after which the reads are `cuts`.
    pub(crate) fn with_lengths(self, cuts: Cuts, lens: &[u8]) -> Result<FetchedEntry<S>, NoMemory>
        requires asked { asks_lengths (lacks self) ≡ true }
        requires sum { cuts.sum ≡ self.cuts.sum + sum (lens_in lens.now) }
        requires have { HaveBytes cuts }
        requires within { cuts.sum ≤ self.head.length }
        requires most { AllByRecursion (λ n. n ≤ 2048) (lens_in lens.now) }
        ensures { IfOk result (λ e. e ≡ with_lengths S.after cuts (lens_in lens.now) self) }
    {
        let FetchedEntry {
            head,
            bytes,
            cuts: _,
            mut waiting,
            mut replay,
        } = self;
        push_lengths(&mut waiting, lens)?;
        replay_whole(&mut waiting, &mut replay)?;
        Ok(FetchedEntry {
            head,
            bytes,
            cuts,
            waiting,
            replay,
        })
    }

    /// Whether the connection has ended.
    pub(crate) fn is_done(&self) -> bool
        ensures { result ≡ self.now.head.done }
    {
        self.head.done
    }

    /// The restored entry, where nothing is missing.
    #[tactic(auto, using(crate::proofs::Sized::whole_rest))]
    pub(crate) fn into_replayed(self) -> Replayed<S>
        requires whole { lacks self ≡ Lack.Nothing }
        requires live { self.head.done ≡ false }
        ensures { result ≡ replayed_state self }
    {
        let FetchedEntry {
            head,
            bytes: _,
            cuts,
            waiting: _,
            replay,
        } = self;
        Replayed::new(head, cuts, replay)
    }
}

impl<S: Saved> FetchedEntry<S> {
    /// The entry from its mark on, if it can have the mark and the service's state is read back. Where there is no mark it begins at its start.
    pub(crate) fn from_mark(
        &self,
        alloc: Global,
        kind: u8,
        mark: &Mark<'_>,
    ) -> Result<Option<FetchedEntry<S>>, NoMemory>
        requires { mark.now.made ≤ longest_stream }
        ensures { IfOk result (λ begun. begun
            ≡ begun_from (S.started kind) (S.greeting (S.started kind)) (S.state_of kind) (mark_said mark.now) self.now.head) }
    {
        if !lies_within(mark, &self.head) {
            return Ok(None);
        }
        if mark.reads == 0 {
            return Ok(Some(FetchedEntry::begin(alloc, kind, self.head)?));
        }
        match S::load(alloc, kind, mark.state)? {
            Some(service) => Ok(Some(FetchedEntry::begin_at(alloc, self.head, mark, service))),
            None => Ok(None),
        }
    }
}

/// Appends the lengths `lens`, two bytes for each length, to those that wait.
#[tactic(auto, using(seq_arith::proofs::Texts::lens_in_length, log_replay::proofs::Lengths::one_pushed, log_replay::proofs::Lengths::all_pushed))]
fn push_lengths(waiting: &mut VecDeque<u16>, lens: &[u8]) -> Result<(), NoMemory>
    ensures { OnOk result (waiting.new.items ≡ waiting.old.items ++ lens_in lens.now) }
{
    for i in 0..lens.len() / 2 {
        waiting.push_back(len_at(lens, i))?;
    }
    Ok(())
}

/// The length of the first waiting read, if its bytes are held.
fn next_whole<S: Service>(waiting: &VecDeque<u16>, replay: &Replay<S>) -> Option<usize>
    ensures { result ≡ first_whole waiting.now.items (length replay.now.held) }
{
    let size = usize::from(*waiting.front()?);
    if size <= replay.held() {
        Some(size)
    } else {
        None
    }
}

/// Replays the reads that are complete.
#[tactic(auto, using(crate::proofs::Cited::replay_whole_lemmas))]
fn replay_whole<S: Service>(
    waiting: &mut VecDeque<u16>,
    replay: &mut Replay<S>,
) -> Result<(), NoMemory>
    requires { AllByRecursion (λ n. n ≤ 2048) waiting.old.items }
    ensures { OnOk result (replayed_from S.after waiting.old.items replay.old ≡ record { lengths = waiting.new.items; replay = replay.new }) }
{
    while let Some(size) = next_whole(waiting, replay) {
        waiting.pop_front();
        replay.feed(size)?;
    }
    Ok(())
}
