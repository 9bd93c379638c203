//! What is stored of the marks of all connections of a node.

ghost use Rattle.std.specs.Prelude.{◌≡◌, ◌<◌, ◌≤◌, ℕ, true, None, [], nat_lt, option_map, OnOk, IfSome};
ghost use Rattle.seq_arith.specs.Mark.MarkBody.{MarkMsg as Reported};
ghost use Rattle.seq_arith.specs.MarkGrammar.{IsSpellable};
ghost use Rattle.server_trait.specs.Service.{machine, AreBytes};
ghost use Rattle.server_trait.specs.Saved.{writing};
ghost use Rattle.ft_model.specs.Point.{Point};
ghost use Rattle.logger_wire.specs.MarkValue.{message_of};
ghost use Rattle.mark_laws.specs.Marking.{with_new, marking_answered};
ghost use Rattle.wrapped_conn.specs.Sound.{IsSound};
ghost use Rattle.wrapped_conn.specs.Refinement.{Stands};
ghost use Rattle.conn_marks.specs.KeyMarks.{marking_in, every_for, KeepsOthers, Changes};

use crate::marking::Marking;
use ft_io::{Key, NoMemory};
use indexmap::IndexMap;
use logger_wire::MarkMsg;
use server_trait::Saved;
use std::alloc::Global;
use std::marker::Model;
use wrapped_conn::Conn;

/// What is stored of the marks of all connections of a node.
#[derive(Drop)]
pub struct Marks {
    /// After how many reads of a connection a mark is due; 0 if no marks are made.
    every: u32,
    of: IndexMap<Key, Marking>,
}

impl Model for Marks {
    ghost use Rattle.conn_marks.specs.KeyMarks.{KeyMarks};

    ghost Value = { KeyMarks };

    ghost view = { λ m. record { every = m.every; of = m.of.entries } };
}

impl Marks {
    /// Returns what is stored before any connection has a mark. If the service's states can't be saved, no marks are made.
    pub fn new<S: Saved>(alloc: Global, every: u32) -> Marks
        ensures { result ≡ record { every = every_for S.is_savable every; of = [] } }
    {
        Marks {
            every: if S::savable() { every } else { 0 },
            of: IndexMap::new(alloc),
        }
    }

    /// Whether marks are made, and asked for in a restart.
    pub fn are_made(&self) -> bool
        ensures { result ≡ nat_lt 0 self.now.every }
    {
        self.every > 0
    }

    /// Notes that a connection's last mark has this many reads, and that none is outstanding.
    pub fn begin(&mut self, alloc: Global, key: Key, last: u32) -> Result<(), NoMemory>
        ensures { OnOk result (Changes key (record { last = last; outstanding = None }) self.old self.new) }
    {
        self.of.insert(key, Marking::new(alloc, last))?;
        Ok(())
    }

    /// Makes a connection's mark after its turn, other than a tick, if one is due. What is stored of other connections stays.
    pub fn advance<S: Saved>(
        &mut self,
        alloc: Global,
        key: Key,
        conn: &Conn<S>,
    ) -> Result<(), NoMemory>
        requires { IsSound conn.now }
        ensures others { OnOk result (KeepsOthers key self.old self.new) }
        ensures law { OnOk result ((0 < self.old.every → S.is_savable ≡ true) → (kind : ℕ) (p : Point)
            → Stands (machine (S.started kind) S.after S.greeting) conn.now p → AreBytes p.taken
            → Changes key (with_new (machine (S.started kind) S.after S.greeting) (writing S.form (S.state_of kind)) self.old.every p
            (marking_in self.old key)) self.old self.new) }
    {
        if let Some(marking) = self.of.get_mut(&key) {
            marking.advance(self.every, conn)?;
            return Ok(());
        }
        let mut marking = Marking::new(alloc, 0);
        marking.advance(self.every, conn)?;
        self.of.insert(key, marking)?;
        Ok(())
    }

    /// Takes a Marked of this incarnation, about this connection and with this many reads.
    pub fn receive(&mut self, key: Key, reads: u32)
        ensures { Changes key (marking_answered reads (marking_in self.old key)) self.old self.new }
    {
        if let Some(marking) = self.of.get_mut(&key) {
            marking.receive(reads);
        }
    }

    /// Returns the message with a connection's outstanding mark, if there is one.
    pub fn message(&self, boot: u64, key: Key) -> Option<MarkMsg<'_>>
        requires { 1 ≤ boot }
        ensures value { option_map message_of result
            ≡ option_map (λ mark. record { boot = boot; body = Reported key mark }) (marking_in self.now key).outstanding }
        ensures sendable { IfSome result (λ m. IsSpellable (message_of m)) }
    {
        match self.of.get(&key) {
            Some(marking) => marking.message(boot, key),
            None => None,
        }
    }
}
