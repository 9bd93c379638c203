//! An entry's mark, as the store has it.

ghost use Rattle.limits.specs.Limits.{longest_stream, most_units};
ghost use Rattle.std.specs.Prelude.{◌≡◌, ◌≤◌, ◌+◌, ◌^◌, IfOk, length};
ghost use Rattle.mark_laws.specs.MarkedLog.{no_mark};
ghost use Rattle.logger_wire.specs.MarkValue.{mark_said};

use ft_io::NoMemory;
use logger_wire::Mark;
use std::alloc::Global;
use std::marker::Model;

/// A stored mark, or none: then its numbers are 0, and it has no state.
#[derive(Drop)]
pub(crate) struct KeptMark {
    reads: u32,
    /// How many bytes of input the reads took.
    taken: u32,
    made: u32,
    state: Vec<u8>,
}

impl Model for KeptMark {
    ghost use Rattle.limits.specs.Limits.{longest_stream, most_units};
    ghost use Rattle.std.specs.Prelude.{◌≤◌, ◌+◌, ◌^◌, length};
    ghost use Rattle.seq_arith.specs.Mark.{Mark};

    ghost Value = { Mark };

    ghost view = { λ m. record { reads = m.reads; length = m.taken; made = m.made; state = m.state.items } };

    ghost invariant = { λ m. (m.reads ≤ most_units) × (m.taken ≤ longest_stream) × (m.made ≤ longest_stream) × (length m.state.items ≤ 1100) };
}

impl KeptMark {
    /// No mark. Nothing is allocated yet.
    pub fn none(alloc: Global) -> KeptMark
        ensures { result ≡ no_mark }
    {
        KeptMark {
            reads: 0,
            taken: 0,
            made: 0,
            state: Vec::new(alloc),
        }
    }

    /// A copy of a mark.
    pub fn new(alloc: Global, mark: &Mark<'_>) -> Result<KeptMark, NoMemory>
        requires reads { mark.now.reads ≤ most_units }
        requires length { mark.now.length ≤ longest_stream }
        requires made { mark.now.made ≤ longest_stream }
        requires state { length mark.now.state.now ≤ 1100 }
        ensures { IfOk result (λ kept. kept ≡ mark_said mark.now) }
    {
        let mut state = Vec::new(alloc);
        state.extend_from_slice(mark.state)?;
        Ok(KeptMark {
            reads: mark.reads,
            taken: mark.length,
            made: mark.made,
            state,
        })
    }

    /// The mark, as a message carries it.
    pub fn mark(&self) -> Mark<'_>
        ensures value { mark_said result ≡ self.now }
        ensures reads { result.reads ≤ most_units }
        ensures length { result.length ≤ longest_stream }
        ensures made { result.made ≤ longest_stream }
        ensures state { length result.state.now ≤ 1100 }
    {
        Mark {
            reads: self.reads,
            length: self.taken,
            made: self.made,
            state: self.state.as_slice(),
        }
    }
}
