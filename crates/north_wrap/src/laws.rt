//! Laws about a north wrapper at a point, for the connection above it.

ghost use Rattle.std.specs.Prelude.{◌≡◌, ℕ, List};
ghost use Rattle.server_trait.specs.Service.{machine};
ghost use Rattle.ft_model.specs.Point.{Point};
ghost use Rattle.ft_model.specs.Reads.{read_messages};
ghost use Rattle.ft_io.specs.declared.Key.{Key};
ghost use Rattle.north_wrap.specs.declared.read_record.ReadRecord.{ReadRecord};
ghost use Rattle.north_wrap.specs.NorthState.{NorthState, lengths_of};
ghost use Rattle.north_wrap.specs.Refinement.{NorthStands, HasReplayed, IsNumbered, messages_of, with_taken, HoldsUpTo, HoldingLaws};

use server_trait::Service;

/// A wrapper whose service was replayed is at its connection's point: a new one, whose service has read nothing, and one at the end of a restart.
pub fn it_begins_where_it_was_replayed<S: Service>()
    ensures { (fresh : S) (p : Point) (given : ℕ) (n : NorthState S) → HasReplayed (machine fresh S.after S.greeting) p given n
        → NorthStands (machine fresh S.after S.greeting) p given n }
{}

/// The records of a connection's reads, sent one after another, are the messages that the law of reads names.
pub fn records_report_the_reads()
    ensures { (key : Key) (first : ℕ) (reads : List ReadRecord) → IsNumbered first reads → messages_of key reads ≡ read_messages key first (lengths_of reads) }
{}

/// A wrapper stays at its connection's point when TCP takes more bytes.
pub fn taking_leaves_it<S: Service>()
    ensures { (fresh : S) (p : Point) (given : ℕ) (n : NorthState S) (more : List ℕ) → NorthStands (machine fresh S.after S.greeting) p given n
        → NorthStands (machine fresh S.after S.greeting) (with_taken more p) given n }
{}

/// A send buffer that the wrapper's turns fill, and acknowledgements empty, holds the output from what is acknowledged up to what is given.
pub fn a_buffer_holds_output()
    ensures { (output : List ℕ) (una given : ℕ) (held : List ℕ) → HoldsUpTo output una given held → HoldingLaws output una given held }
{}
