//! What a server that lasts notes of its keys once its node has taken the turn on a message.

ghost use Rattle.std.specs.Prelude.{◌≡◌, if◌then◌else◌, OnOk};
ghost use Rattle.logger_wire.specs.Value.{body_of};
ghost use Rattle.lasting_lives.specs.Noted.{opened_in as opened_in_lem};
ghost use Rattle.ft_model.specs.Point.{Point};
ghost use Rattle.lasting_laws.specs.Watching.{is_empty};
ghost use Rattle.lasting_lives.specs.Watches.{ShowsPoint};
ghost use Rattle.node_serving.specs.Loan.{place_in};

use crate::node::LastingNode;
use crate::outside::outside_of;
use ft_io::{Key, NoMemory};
use lasting_lives::{Life, Origin, Outside, Resting, Watch};
use logger_wire::{Body, EntryHead, Msg};
use server_trait::Saved;

impl<S: Saved> LastingNode<S> {
    ghost use Rattle.std.specs.Prelude.{true, None};
    ghost use Rattle.logger_wire.specs.Records.{head_said};
    ghost use Rattle.ft_model.specs.Node.{Stage as Standing};
    ghost use Rattle.ft_io.specs.declared.Key.{Key as key_type};
    ghost use Rattle.lasting_laws.specs.Watching.{is_live};
    ghost use Rattle.lasting_node.specs.Turns.{known_of};
    ghost use Rattle.lasting_node.specs.Notes.{IsAtStage, Notes};
    ghost use Rattle.lasting_lives.specs.Known.{restored_life};
    ghost use Rattle.lasting_lives.specs.Noted.{ChangesAt, NotesEntry, NotesFetched, NotesRestart, RestsAtHead, watched_from};
    ghost use Rattle.lasting_node.specs.Tending.{NotesOnly};

    /// Notes what a message of this boot has changed: a connection that is done or open now, an entry that was fetched as done, or all at the end of a restart.
    /// `ends` is the live connection that it has ended, and `restarts` whether the node was restarting.
    pub(crate) fn note(
        &mut self,
        m: &Msg<'_>,
        ends: Option<Resting>,
        restarts: bool,
    ) -> Result<(), NoMemory>
        ensures notes { OnOk result (Notes (body_of m.now.body) ends restarts self.old self.new) }
        ensures only { NotesOnly self.old self.new }
    {
        if restarts {
            return self.note_restart(m);
        }
        if let Some(resting) = ends {
            return self.lives.put(resting.named.key, Life::Resting(resting));
        }
        match opened_in(&m.body) {
            Some(key) => self.watch_new(key),
            None => Ok(()),
        }
    }

    /// Begins the watch of a key's connection that this incarnation has opened, if it is live and isn't watched yet.
    fn watch_new(&mut self, key: Key) -> Result<(), NoMemory>
        ensures watch { OnOk result ((at : Standing) → IsAtStage at self.old
            → ChangesAt key (watched_from Origin.Opened (is_live (place_in key at))) (known_of self.old) (known_of self.new)) }
        ensures only { NotesOnly self.old self.new }
    {
        if self.lives.watch(key).is_some() {
            return Ok(());
        }
        if self.node.conn(key).is_none() {
            return Ok(());
        }
        self.lives
            .put(key, Life::Watched(Watch::begin(Origin::Opened)))
    }

    /// Notes an entry that was fetched as done, while the node restarts, and all others once it serves.
    fn note_restart(&mut self, m: &Msg<'_>) -> Result<(), NoMemory>
        ensures notes { OnOk result ((at : Standing) → IsAtStage at self.old
            → NotesRestart (body_of m.now.body) at (known_of self.old) (known_of self.new)) }
        ensures only { NotesOnly self.old self.new }
    {
        self.note_entry(m)?;
        if !self.node.is_serving() {
            return Ok(());
        }
        self.watch_restored()
    }

    /// Notes an entry that has come as done.
    fn note_entry(&mut self, m: &Msg<'_>) -> Result<(), NoMemory>
        ensures notes { OnOk result ((at : Standing) → IsAtStage at self.old
            → NotesEntry (body_of m.now.body) at (known_of self.old) (known_of self.new)) }
        ensures only { NotesOnly self.old self.new }
    {
        match &m.body {
            Body::Entry { head, .. } => self.note_fetched(head),
            _ => Ok(()),
        }
    }

    /// Notes an entry that was fetched as done. The node has its head, or, if it was the last one, its place.
    fn note_fetched(&mut self, head: &EntryHead) -> Result<(), NoMemory>
        ensures notes { OnOk result ((at : Standing) → IsAtStage at self.old
            → NotesFetched (head_said head.now) at (known_of self.old) (known_of self.new)) }
        ensures only { NotesOnly self.old self.new }
    {
        if self.lives.resting(head.key).is_some() {
            return Ok(());
        }
        if self.node.is_done(head.key) {
            return self.rest(head);
        }
        let Some(kept) = self.node.fetched(head.key) else {
            return Ok(());
        };
        if !kept.done {
            return Ok(());
        }
        self.rest(&kept)
    }

    /// Begins the quarantine of a connection by the head of its entry.
    fn rest(&mut self, head: &EntryHead) -> Result<(), NoMemory>
        ensures rests { OnOk result (RestsAtHead (head_said head.now) (known_of self.old) (known_of self.new)) }
        ensures only { NotesOnly self.old self.new }
    {
        self.lives
            .put(head.key, Life::Resting(Resting::fetched(head)))
    }

    /// Begins the watches of all restored connections.
    fn watch_restored(&mut self) -> Result<(), NoMemory>
        ensures watches { OnOk result ((at : Standing) → IsAtStage at self.old
            → (key : key_type) → known_of self.new key ≡ restored_life (place_in key at) (known_of self.old key)) }
        ensures only { NotesOnly self.old self.new }
    {
        for i in 0..self.node.places() {
            let Some(key) = self.node.key_at(i) else {
                return Ok(());
            };
            self.watch_one_restored(key)?;
        }
        Ok(())
    }

    fn watch_one_restored(&mut self, key: Key) -> Result<(), NoMemory>
        ensures watch { OnOk result ((at : Standing) → IsAtStage at self.old
            → ChangesAt key (restored_life (place_in key at)) (known_of self.old) (known_of self.new)) }
        ensures only { NotesOnly self.old self.new }
    {
        let Some(conn) = self.node.conn(key) else {
            return Ok(());
        };
        let origin = origin_of(&outside_of(key, conn));
        self.lives.put(key, Life::Watched(Watch::begin(origin)))
    }
}

/// How a restored connection begins.
fn origin_of(conn: &Outside) -> Origin
    ensures { (p : Point) → ShowsPoint conn.now p → result ≡ (if is_empty p then Origin.RestoredEmpty else Origin.Restored) }
{
    if conn.is_empty() {
        Origin::RestoredEmpty
    } else {
        Origin::Restored
    }
}

/// The key whose connection a message says is open.
fn opened_in(body: &Body<'_>) -> Option<Key>
    ensures { result ≡ opened_in_lem (body_of body.now) }
{
    match body {
        Body::Opened(numbers) => Some(numbers.key),
        _ => None,
    }
}
