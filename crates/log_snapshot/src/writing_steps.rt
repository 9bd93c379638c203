//! What a snapshot says of an entry: its opening, its bytes in parts, its FIN and what is acknowledged, its reads, and that it is done.

ghost use Rattle.std.specs.Prelude.{◌≡◌, ◌≤◌, ◌<◌, ◌+◌, ◌++◌, [], List, Option, Some, Ok, length};
ghost use Rattle.std.specs.Option.{option_to_list};
ghost use Rattle.seq_arith.specs.Message.{Message};
ghost use Rattle.seq_arith.specs.Message.Body.{HelloMsg, OpenMsg, DataMsg, DoneMsg};
ghost use Rattle.seq_arith.specs.MessageGrammar.{reading_by};
ghost use Rattle.ft_model.specs.Log.{numbers_of_entry};
ghost use Rattle.logger_wire.specs.Value.{message_of, IsSendableBy};
ghost use Rattle.long_laws.specs.Snapshot.{said, last_data};
ghost use Rattle.log_snapshot.specs.Steps.{IsSaid, IsRest, steps_left, part_at, read_at, done_at};
ghost use Rattle.log_snapshot.specs.declared.writing_steps.Step.TheVariants as steps;

use arrayvec::ArrayVec;
use logger_store::{MsgOut, StoredEntry};
use logger_wire::{Body, Grammar, Msg, Part};

/// What a snapshot says next of an entry.
#[derive(Clone, Copy)]
pub enum Step {
    /// Its opening.
    Open,
    /// Its bytes, from this offset on.
    Bytes(u32),
    /// Its FIN, and what is acknowledged.
    State,
    /// Its reads, from this index on.
    Reads(u32),
    /// That it is done, if it is.
    Done,
}

/// Writes a message of this grammar.
fn write(grammar: Grammar, m: &Msg<'_>, out: &mut MsgOut)
    requires { IsSendableBy grammar m.now }
    ensures { reading_by grammar out.new ≡ Ok (message_of m.now) }
{
    out.put_by(grammar, m);
}

/// Says that a server of this boot has started.
#[tactic(auto, unfolding(seq_arith::specs::MessageGrammar::has_length, seq_arith::specs::MessageGrammar::is_sound_by))]
pub fn write_boot(grammar: Grammar, boot: u64, out: &mut MsgOut)
    requires { 1 ≤ boot }
    ensures { reading_by grammar out.new ≡ Ok (said boot HelloMsg) }
{
    let body = Body::Hello;
    write(grammar, &Msg { boot, body }, out);
}

/// Says an entry's opening.
#[tactic(auto, unfolding(seq_arith::specs::MessageGrammar::has_length, seq_arith::specs::MessageGrammar::is_sound_by))]
fn write_opening(entry: &StoredEntry, grammar: Grammar, boot: u64, out: &mut MsgOut)
    requires { 1 ≤ boot }
    ensures { reading_by grammar out.new ≡ Ok (said boot (OpenMsg (numbers_of_entry entry.now))) }
{
    let body = Body::Open(entry.numbers());
    write(grammar, &Msg { boot, body }, out);
}

/// Says at most 1,024 of its bytes, from this offset on, and returns how many.
#[tactic(auto, unfolding(seq_arith::specs::MessageGrammar::has_length, seq_arith::specs::MessageGrammar::is_sound_by))]
fn write_part(
    entry: &StoredEntry,
    grammar: Grammar,
    boot: u64,
    offset: u32,
    out: &mut MsgOut,
) -> u32
    requires boot { 1 ≤ boot }
    requires there { offset < length entry.now.bytes }
    ensures says { reading_by grammar out.new ≡ Ok (said boot (DataMsg (part_at entry.now offset))) }
    ensures count { result ≡ length (part_at entry.now offset).bytes }
    ensures some { 1 ≤ result }
    ensures within { offset + result ≤ length entry.now.bytes }
{
    let head = entry.head();
    let mut bytes = ArrayVec::new();
    entry.copy_bytes(offset, &mut bytes);
    let body = Body::Data(Part {
        key: head.key,
        offset,
        acked: 0,
        fin: false,
        more: false,
        bytes: bytes.as_slice(),
    });
    write(grammar, &Msg { boot, body }, out);
    bytes.len() as u32
}

/// Says whether its FIN is logged, and what is acknowledged.
#[tactic(auto, unfolding(seq_arith::specs::MessageGrammar::has_length, seq_arith::specs::MessageGrammar::is_sound_by))]
pub(crate) fn write_state(entry: &StoredEntry, grammar: Grammar, boot: u64, out: &mut MsgOut)
    requires { 1 ≤ boot }
    ensures { reading_by grammar out.new ≡ Ok (said boot (DataMsg (last_data entry.now))) }
{
    let head = entry.head();
    let body = Body::Data(Part {
        key: head.key,
        offset: head.length,
        acked: head.acked,
        fin: head.fin,
        more: false,
        bytes: &[],
    });
    write(grammar, &Msg { boot, body }, out);
}

/// Says its read with this index.
#[tactic(auto, unfolding(seq_arith::specs::MessageGrammar::has_length, seq_arith::specs::MessageGrammar::is_sound_by))]
fn write_read(entry: &StoredEntry, grammar: Grammar, boot: u64, index: u32, out: &mut MsgOut)
    requires boot { 1 ≤ boot }
    requires there { index < length entry.now.lengths }
    ensures { reading_by grammar out.new ≡ Ok (said boot (read_at entry.now index)) }
{
    let head = entry.head();
    let body = Body::Read {
        key: head.key,
        index,
        length: entry.read_length(index),
    };
    write(grammar, &Msg { boot, body }, out);
}

/// Says that it is done.
#[tactic(auto, unfolding(seq_arith::specs::MessageGrammar::has_length, seq_arith::specs::MessageGrammar::is_sound_by))]
fn write_done(entry: &StoredEntry, grammar: Grammar, boot: u64, out: &mut MsgOut)
    requires { 1 ≤ boot }
    ensures { reading_by grammar out.new ≡ Ok (said boot (DoneMsg entry.now.key)) }
{
    let body = Body::Done {
        key: entry.head().key,
    };
    write(grammar, &Msg { boot, body }, out);
}

/// Says some of an entry's bytes from this offset on, if there are any. Returns the step after that.
fn write_bytes(
    entry: &StoredEntry,
    grammar: Grammar,
    boot: u64,
    offset: u32,
    out: &mut MsgOut,
) -> Step
    requires boot { 1 ≤ boot }
    requires empty { out.old ≡ [] }
    ensures says { (message : Option Message) × IsSaid grammar message out.new
        × ((rest : List Message) → IsRest boot entry.now (Some result) rest
        → IsRest boot entry.now (Some (steps.Bytes offset)) (option_to_list message ++ rest)) }
    ensures on { steps_left entry.now (Some result) < steps_left entry.now (Some (steps.Bytes offset)) }
{
    if offset >= entry.head().length {
        return Step::State;
    }
    let count = write_part(entry, grammar, boot, offset, out);
    Step::Bytes(offset + count)
}

/// Says the read with this index, if there is one. Returns the step after that.
fn write_reads(
    entry: &StoredEntry,
    grammar: Grammar,
    boot: u64,
    index: u32,
    out: &mut MsgOut,
) -> Step
    requires boot { 1 ≤ boot }
    requires empty { out.old ≡ [] }
    ensures says { (message : Option Message) × IsSaid grammar message out.new
        × ((rest : List Message) → IsRest boot entry.now (Some result) rest
        → IsRest boot entry.now (Some (steps.Reads index)) (option_to_list message ++ rest)) }
    ensures on { steps_left entry.now (Some result) < steps_left entry.now (Some (steps.Reads index)) }
{
    if index >= entry.head().reads {
        return Step::Done;
    }
    write_read(entry, grammar, boot, index, out);
    Step::Reads(index + 1)
}

/// Says that an entry is done, if it is.
fn write_end(entry: &StoredEntry, grammar: Grammar, boot: u64, out: &mut MsgOut)
    requires boot { 1 ≤ boot }
    requires empty { out.old ≡ [] }
    ensures { IsSaid grammar (done_at boot entry.now) out.new }
{
    if entry.head().done {
        write_done(entry, grammar, boot, out);
    }
}

/// Says what comes next of an entry, which is one message or none. Returns the step after it; `None` once all is said.
pub fn write_step(
    entry: &StoredEntry,
    grammar: Grammar,
    boot: u64,
    step: Step,
    out: &mut MsgOut,
) -> Option<Step>
    requires boot { 1 ≤ boot }
    requires empty { out.old ≡ [] }
    ensures says { (message : Option Message) × IsSaid grammar message out.new
        × ((rest : List Message) → IsRest boot entry.now result rest → IsRest boot entry.now (Some step) (option_to_list message ++ rest)) }
    ensures on { steps_left entry.now result < steps_left entry.now (Some step) }
{
    match step {
        Step::Open => {
            write_opening(entry, grammar, boot, out);
            Some(Step::Bytes(0))
        }
        Step::Bytes(offset) => Some(write_bytes(entry, grammar, boot, offset, out)),
        Step::State => {
            write_state(entry, grammar, boot, out);
            Some(Step::Reads(0))
        }
        Step::Reads(index) => Some(write_reads(entry, grammar, boot, index, out)),
        Step::Done => {
            write_end(entry, grammar, boot, out);
            None
        }
    }
}
