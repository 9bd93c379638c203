//! Wrong results that the contracts of this crate exclude. Each function calls another one of the crate, and promises of its result what a wrong body would
//! make false. It is proved from the other's contract alone, so it is no longer proved once that contract lets the wrong body pass.

ghost use Rattle.std.specs.Prelude.{◌≡◌, ◌≤◌, ◌++◌, ℕ, [], List, Option, Ok};
ghost use Rattle.std.specs.Option.{option_to_list};
ghost use Rattle.seq_arith.specs.Message.{Part, Message};
ghost use Rattle.seq_arith.specs.Message.Body.{DataMsg};
ghost use Rattle.seq_arith.specs.MessageGrammar.{reading_by};
ghost use Rattle.long_laws.specs.Snapshot.{said, joined, messages_of};
ghost use Rattle.log_snapshot.specs.Steps.{IsSaid, IsRest};

use crate::writing_steps::{Step, write_state, write_step};
use logger_store::{MsgOut, StoredEntry};
use logger_wire::Grammar;

/// A snapshot says what is acknowledged: the contract of `write_state`.
fn a_snapshot_without_what_is_acknowledged(
    entry: &StoredEntry,
    grammar: Grammar,
    boot: u64,
    out: &mut MsgOut,
)
    requires { 1 ≤ boot }
    ensures { (part : Part) × (part.acked ≡ entry.now.acknowledged) × (reading_by grammar out.new ≡ Ok (said boot (DataMsg part))) }
{
    write_state(entry, grammar, boot, out);
}

/// Whatever a snapshot says of an entry after its opening, all its bytes come first: the clause `says` of `write_step`.
fn reads_before_their_bytes(
    entry: &StoredEntry,
    grammar: Grammar,
    boot: u64,
    out: &mut MsgOut,
) -> Option<Step>
    requires boot { 1 ≤ boot }
    requires empty { out.old ≡ [] }
    ensures { (message : Option Message) × IsSaid grammar message out.new × ((rest : List Message) → IsRest boot entry.now result rest
        → (pieces : List (List ℕ)) × (joined pieces ≡ entry.now.bytes) × (option_to_list message ++ rest ≡ messages_of boot entry.now pieces)) }
{
    write_step(entry, grammar, boot, Step::Open, out)
}
