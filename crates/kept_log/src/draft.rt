//! A new file of a journal, while it is written.

ghost use Rattle.std.specs.Prelude.{[], ◌≡◌, ◌≤◌, ◌+◌, Option, length, IfOk, OnOk};
ghost use Rattle.std.specs.Option.{option_to_list};
ghost use Rattle.ft_io.specs.Reported.{Reports};
ghost use Rattle.seq_arith.specs.Message.{Message};
ghost use Rattle.seq_arith.specs.declared.kinds.Grammar.{Grammar};
ghost use Rattle.log_snapshot.specs.Steps.{IsSaid};
ghost use Rattle.kept_log.specs.Draft.{IsDraft, IsWritten};

use crate::block::MOST_BODY;
use crate::header::{TIME, first_of};
use crate::journal::{KeepEnd, block_of};
use crate::opening::header_of;
use crate::tip::{Tip, seal_of};
use disk::Desk;
use std::alloc::Global;
use std::marker::Model;

/// A new file that has some blocks, and the body of the next one.
#[derive(Drop)]
pub struct Draft {
    /// Where the next block begins in it.
    tip: Tip,
    /// The messages that aren't in a block yet.
    body: Vec<u8>,
}

impl Model for Draft {
    ghost use Rattle.std.specs.Prelude.{◌≤◌, length};
    ghost use Rattle.kept_log.specs.Draft.{DraftState};

    ghost Value = { DraftState };

    ghost view = { λ d. record { tip = d.tip; body = d.body.items } };

    ghost invariant = { λ d. length d.body.items ≤ 381696 };
}

impl Draft {
    /// Where the next block begins in it.
    pub fn tip(&self) -> Tip
        ensures { result ≡ self.now.tip }
    {
        self.tip
    }

    #[tactic(auto, using(crate::proofs::Files::quiet_on, ft_io::proofs::Recordings::none_reported))]
    /// Begins a new file with the header of a journal that is made at this time.
    pub fn begin<K: Desk>(alloc: Global, desk: &mut K, made: &[u8; TIME]) -> Result<Draft, KeepEnd>
        requires time { length made.now ≡ 8 }
        ensures begun { IfOk result (λ d. IsDraft made.now (K.aside desk.new) d []) }
        ensures reported { Reports (K.reported desk.old) (K.reported desk.new) [] }
        ensures never_falls { K.fault_count desk.old ≤ K.fault_count desk.new }
        ensures beside { K.beside desk.new ≡ K.beside desk.old }
    {
        let tip = first_of(made);
        let header = header_of(alloc, made, &tip)?;
        let body = Vec::with_capacity(alloc, MOST_BODY)?;
        desk.begin_aside()?;
        desk.append_aside(&header)?;
        Ok(Draft { tip, body })
    }

    #[tactic(auto, using(crate::proofs::Drafts::flushed, crate::proofs::Files::quiet_on, ft_io::proofs::Recordings::none_reported))]
    /// Writes the body as a block.
    pub fn flush<K: Desk>(&mut self, alloc: Global, desk: &mut K) -> Result<(), KeepEnd>
        ensures written { OnOk result (IsWritten (K.aside desk.old) self.old (K.aside desk.new) self.new []) }
        ensures empty { OnOk result (self.new.body ≡ []) }
        ensures reported { Reports (K.reported desk.old) (K.reported desk.new) [] }
        ensures never_falls { K.fault_count desk.old ≤ K.fault_count desk.new }
        ensures beside { K.beside desk.new ≡ K.beside desk.old }
    {
        if self.tip.is_beyond() {
            return Err(KeepEnd::NoMemory);
        }
        let digest = seal_of(&self.tip, &self.body);
        let block = block_of(alloc, &self.tip, &digest, &self.body)?;
        desk.append_aside(&block)?;
        self.tip.pass(self.body.len(), digest);
        self.body.clear();
        Ok(())
    }

    #[tactic(auto, using(crate::proofs::Drafts::written_none, ft_io::proofs::Recordings::none_reported))]
    /// Writes the body as a block if it has no room for this many bytes more.
    fn make_room<K: Desk>(
        &mut self,
        alloc: Global,
        desk: &mut K,
        count: usize,
    ) -> Result<(), KeepEnd>
        requires { count ≤ 2048 }
        ensures written { OnOk result (IsWritten (K.aside desk.old) self.old (K.aside desk.new) self.new []) }
        ensures room { OnOk result (length self.new.body + count ≤ 381696) }
        ensures reported { Reports (K.reported desk.old) (K.reported desk.new) [] }
        ensures never_falls { K.fault_count desk.old ≤ K.fault_count desk.new }
        ensures beside { K.beside desk.new ≡ K.beside desk.old }
    {
        if count <= MOST_BODY - self.body.len() {
            return Ok(());
        }
        self.flush(alloc, desk)
    }

    #[tactic(auto, using(crate::proofs::Cited::take_lemmas))]
    /// Takes the bytes of one message, or none.
    pub fn take<K: Desk>(
        &mut self,
        alloc: Global,
        desk: &mut K,
        bytes: &[u8],
    ) -> Result<(), KeepEnd>
        requires { length bytes.now ≤ 2048 }
        ensures taken { OnOk result ((grammar : Grammar) (message : Option Message) → IsSaid grammar message bytes.now
            → IsWritten (K.aside desk.old) self.old (K.aside desk.new) self.new (option_to_list message)) }
        ensures reported { Reports (K.reported desk.old) (K.reported desk.new) [] }
        ensures never_falls { K.fault_count desk.old ≤ K.fault_count desk.new }
        ensures beside { K.beside desk.new ≡ K.beside desk.old }
    {
        self.make_room(alloc, desk, bytes.len())?;
        self.body.extend_from_slice(bytes)?;
        Ok(())
    }
}
