//! What is stored of a connection's marks.

ghost use Rattle.std.specs.Prelude.{◌≡◌, ◌<◌, ◌≤◌, ◌^◌, ℕ, true, None, OnErr, IfOk, IfSome, option_map};
ghost use Rattle.seq_arith.specs.Mark.MarkBody.{MarkMsg as Marks};
ghost use Rattle.seq_arith.specs.MarkGrammar.{IsSpellable};
ghost use Rattle.server_trait.specs.Service.{machine, AreBytes};
ghost use Rattle.server_trait.specs.Saved.{writing};
ghost use Rattle.ft_model.specs.Point.{Point};
ghost use Rattle.logger_wire.specs.MarkValue.{message_of};
ghost use Rattle.mark_laws.specs.Marking.{is_due, with_new, marking_answered};
ghost use Rattle.wrapped_conn.specs.Sound.{IsSound};
ghost use Rattle.wrapped_conn.specs.Refinement.{Stands};
ghost use Rattle.wrapped_conn.proofs.Sendable.{FitsKey};
ghost use Rattle.conn_marks.specs.Marks.{due_in, is_made, with_due, mark_with, IsWritableMark};

use ft_io::{Key, NoMemory};
use logger_wire::{Mark, MarkBody, MarkMsg};
use server_trait::{Saved, Service};
use std::alloc::Global;
use std::marker::Model;
use wrapped_conn::{Conn, Quiet};

/// The most bytes of a saved state that a message can hold.
const STATE: usize = 1_100;

/// What is stored of a connection's marks: the reads of the last one, and the one that isn't answered yet.
#[derive(Drop)]
pub struct Marking {
    /// The reads of the last mark, sent in this incarnation or fetched; 0 without one.
    last: u32,
    /// The numbers of the mark that was sent and isn't answered yet.
    outstanding: Option<Quiet>,
    /// The form of its state, in a buffer that is reused from mark to mark.
    state: Vec<u8>,
}

impl Model for Marking {
    ghost use Rattle.std.specs.Prelude.{option_map, IfSome};
    ghost use Rattle.mark_laws.specs.Marking.{Marking as Stored};
    ghost use Rattle.conn_marks.specs.Marks.{mark_with, IsWritableMark};

    ghost Value = { Stored };

    ghost view = { λ m. record { last = m.last; outstanding = option_map (λ quiet. mark_with quiet m.state.items) m.outstanding } };

    ghost invariant = { λ m. IfSome m.outstanding (λ quiet. IsWritableMark (mark_with quiet m.state.items)) };
}

impl Marking {
    /// Returns what is stored where no mark is outstanding, and the last one has `last` reads.
    pub fn new(alloc: Global, last: u32) -> Marking
        ensures { result ≡ record { last = last; outstanding = None } }
    {
        Marking {
            last,
            outstanding: None,
            state: Vec::new(alloc),
        }
    }

    /// Makes a mark after a turn other than a tick, if one is due: none is outstanding, at least `every` reads were made after the last one, and the connection
    /// is quiet. Returns whether it makes one: never with `every` 0, nor if the form of the service's state is longer than 1,100 bytes.
    pub fn advance<S: Saved>(&mut self, every: u32, conn: &Conn<S>) -> Result<bool, NoMemory>
        requires { IsSound conn.now }
        ensures state { IfOk result (λ made. self.new ≡ with_due (due_in every self.old conn.now) (S.form conn.now.north.run.service) self.old) }
        ensures made { IfOk result (λ made. made ≡ is_made (due_in every self.old conn.now) (S.form conn.now.north.run.service)) }
        ensures err { OnErr result (self.new ≡ self.old) }
        // At a point of the model, these are the mark and the time of the law.
        ensures law { IfOk result (λ made. (0 < every → S.is_savable ≡ true) → (kind : ℕ) (p : Point)
            → Stands (machine (S.started kind) S.after S.greeting) conn.now p → AreBytes p.taken
            → self.new ≡ with_new (machine (S.started kind) S.after S.greeting) (writing S.form (S.state_of kind)) every p self.old) }
    {
        self.make(every, conn)
    }

    /// The same, without the law.
    fn make<S: Saved>(&mut self, every: u32, conn: &Conn<S>) -> Result<bool, NoMemory>
        requires { IsSound conn.now }
        ensures state { IfOk result (λ made. self.new ≡ with_due (due_in every self.old conn.now) (S.form conn.now.north.run.service) self.old) }
        ensures made { IfOk result (λ made. made ≡ is_made (due_in every self.old conn.now) (S.form conn.now.north.run.service)) }
        ensures err { OnErr result (self.new ≡ self.old) }
    {
        let Some(quiet) = self.due(every, conn) else {
            return Ok(false);
        };
        self.state.clear();
        conn.service().save(&mut self.state)?;
        if self.state.len() > STATE {
            return Ok(false);
        }
        self.last = quiet.reads;
        self.outstanding = Some(quiet);
        Ok(true)
    }

    /// The numbers of the mark that is due, if one is.
    pub(crate) fn due<S: Service>(&self, every: u32, conn: &Conn<S>) -> Option<Quiet>
        ensures { result ≡ due_in every self.now conn.now }
    {
        let reads = conn.north().count();
        if every == 0 || self.outstanding.is_some() || reads.saturating_sub(self.last) < every {
            return None;
        }
        conn.quiet()
    }

    /// Takes a Marked of this incarnation with this many reads. It answers the outstanding mark, if that has no more reads.
    pub fn receive(&mut self, reads: u32)
        ensures { self.new ≡ marking_answered reads self.old }
    {
        if let Some(quiet) = self.outstanding
            && quiet.reads <= reads
        {
            self.outstanding = None;
        }
    }

    /// Returns the message with the outstanding mark, if there is one.
    pub fn message(&self, boot: u64, key: Key) -> Option<MarkMsg<'_>>
        requires { 1 ≤ boot }
        ensures value { option_map message_of result ≡ option_map (λ mark. record { boot = boot; body = Marks key mark }) self.now.outstanding }
        ensures sendable { IfSome result (λ m. IsSpellable (message_of m)) }
    {
        let quiet = self.outstanding?;
        Some(mark_message(boot, key, quiet, &self.state))
    }
}

/// The message with a mark.
fn mark_message<'a>(boot: u64, key: Key, quiet: Quiet, state: &'a [u8]) -> MarkMsg<'a>
    requires boot { 1 ≤ boot }
    requires writable { IsWritableMark (mark_with quiet state.now) }
    ensures value { message_of result ≡ record { boot = boot; body = Marks key (mark_with quiet state.now) } }
    ensures sendable { IsSpellable (message_of result) }
{
    fit(boot, key);
    MarkMsg {
        boot,
        body: MarkBody::Mark {
            key,
            mark: Mark {
                reads: quiet.reads,
                length: quiet.length,
                made: quiet.made,
                state,
            },
        },
    }
}

/// Facts for proofs: a boot number and a key fit their types.
fn fit(boot: u64, key: Key)
    ensures boot { boot < 2 ^ 64 }
    ensures key { FitsKey key }
{
    let _boot = boot;
    let (_ip, _port) = (key.ip, key.port);
}
