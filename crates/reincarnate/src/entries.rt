//! The entries of the log, all of which are fetched.

ghost use Rattle.std.specs.Prelude.{◌≡◌, ◌++◌, ◌+◌, [], List, length, IfSome, IfNone, None, drop, reverse};
ghost use Rattle.std.specs.Option.{option_to_list};
ghost use Rattle.reincarnate.specs.declared.lack.Lack.TheVariants as lack;
ghost use Rattle.reincarnate.specs.Progress.{lacks, next_live, behind_next, AreReady};
ghost use Rattle.reincarnate.specs.Questions.{asked_of};
ghost use Rattle.reincarnate.specs.Refinement.{StandsWhole, NextIs, live_from, first_restored, FirstIs};
ghost use Rattle.server_trait.specs.Service.{machine};
ghost use Rattle.ft_model.specs.Restart.{Fetched};

use crate::fetched_entry::FetchedEntry;
use crate::replayed::Replayed;
use ft_io::Key;
use server_trait::Service;
use std::marker::Model;

/// An entry of the log at the end of a restart.
#[derive(Drop)]
pub enum Restored<S: Service> {
    /// Its connection has ended. This is the connection's key.
    Ended(Key),
    /// Its connection's reads are replayed.
    Live(Replayed<S>),
}

/// The entries that are still to be restored. In contracts they are a list in the log's order.
#[derive(Drop)]
pub struct Entries<S: Service> {
    /// The entry that was opened last.
    newest: Option<FetchedEntry<S>>,
    /// Those before it, the newest first.
    earlier: Vec<FetchedEntry<S>>,
}

impl<S: Service> Model for Entries<S> {
    ghost use Rattle.std.specs.Prelude.{◌≡◌, ◌++◌, List, None, reverse};
    ghost use Rattle.std.specs.Option.{option_to_list};
    ghost use Rattle.reincarnate.specs.Progress.{EntryState, AreReady};
    ghost use Rattle.reincarnate.specs.Questions.{asked_of};

    ghost Value = { List (EntryState S) };

    ghost view = { λ e. reverse e.earlier.items ++ option_to_list e.newest };

    ghost invariant = { λ e. AreReady e.earlier.items × (asked_of e.newest ≡ None) };
}

impl<S: Service> Entries<S> {
    pub(crate) fn begin(
        newest: Option<FetchedEntry<S>>,
        earlier: Vec<FetchedEntry<S>>,
    ) -> Entries<S>
        requires earlier { AreReady earlier.items }
        requires newest { asked_of newest ≡ None }
        ensures { result ≡ reverse earlier.items ++ option_to_list newest }
    {
        Entries { newest, earlier }
    }

    /// Removes and returns the next entry in the log's order.
    #[tactic(auto, using(crate::proofs::Cited::pop_lemmas))]
    fn pop(&mut self) -> Option<FetchedEntry<S>>
        ensures order { self.old ≡ option_to_list result ++ self.new }
        ensures end { IfNone result (self.old ≡ []) }
        ensures ready { IfSome result (λ e. lacks e ≡ lack.Nothing) }
    {
        match self.earlier.pop() {
            Some(entry) => Some(entry),
            None => self.newest.take(),
        }
    }

    /// Removes and returns the next entry in the log's order, or returns None at the end.
    pub fn advance(&mut self) -> Option<Restored<S>>
        ensures value { result ≡ first_restored self.old }
        ensures rest { self.new ≡ drop 1 self.old }
        ensures end { IfNone result (self.old ≡ []) }
        ensures shorter { IfSome result (λ _. length self.old ≡ length self.new + 1) }
        ensures law { (fresh : S) (fetched : List Fetched) → StandsWhole (machine fresh S.after S.greeting) fetched self.old
            → FirstIs (machine fresh S.after S.greeting) fetched result self.new }
    {
        self.take_first()
    }

    fn take_first(&mut self) -> Option<Restored<S>>
        ensures value { result ≡ first_restored self.old }
        ensures rest { self.new ≡ drop 1 self.old }
        ensures end { IfNone result (self.old ≡ []) }
        ensures shorter { IfSome result (λ _. length self.old ≡ length self.new + 1) }
    {
        let entry = self.pop()?;
        if entry.is_done() {
            return Some(Restored::Ended(entry.head().key));
        }
        Some(Restored::Live(entry.into_replayed()))
    }

    /// Removes and returns the next entry whose connection hasn't ended, in the log's order, or returns None at the end. Entries before it are removed too.
    pub fn next(&mut self) -> Option<Replayed<S>>
        ensures value { result ≡ next_live self.old }
        ensures rest { self.new ≡ behind_next self.old }
        ensures law { (fresh : S) (fetched : List Fetched) → StandsWhole (machine fresh S.after S.greeting) fetched self.old
            → NextIs (machine fresh S.after S.greeting) (live_from fetched) result self.new }
    {
        self.take_next()
    }

    fn take_next(&mut self) -> Option<Replayed<S>>
        ensures value { result ≡ next_live self.old }
        ensures rest { self.new ≡ behind_next self.old }
    {
        while let Some(entry) = self.pop() {
            if !entry.is_done() {
                return Some(entry.into_replayed());
            }
        }
        None
    }
}
