//! Wrong results that the contracts of this crate exclude. Each function calls another one of the crate, and promises of its result what a wrong body would
//! make false. It is proved from the other's contract alone, so it is no longer proved once that contract lets the wrong body pass.

ghost use Rattle.std.specs.Prelude.{[], ◌∷◌, ◌++◌, ◌≡◌, ◌≤◌, ◌<◌, ◌+◌, ◌-◌, ◌^◌, true, false, Ok, OnOk, OnErr};
ghost use Rattle.seq_arith.specs.Message.{Message};
ghost use Rattle.seq_arith.specs.MessageGrammar.{reading_by};
ghost use Rattle.seq_arith.specs.declared.kinds.Grammar.TheVariants as grammars;
ghost use Rattle.logger_wire.specs.Value.{message_of, IsSendableBy};
ghost use Rattle.twin_laws.specs.StoredState.{forwards_sent, sent_to_other, has_kept_room};
ghost use Rattle.twin_laws.specs.Twin.{is_among};
ghost use Rattle.twin_laws.specs.Twin.Between.{Got};
ghost use Rattle.twin_laws.specs.declared.part.Part.TheVariants as parts;
ghost use Rattle.twin_log.specs.Outbox.{is_asking_message};

use crate::twin_out::TwinOut;
use crate::two_logs::TwinLog;
use ft_io::NoMemory;
use logger_wire::Msg;
use std::alloc::Global;
use twin_laws::Side;

/// A message that the tail has applied is only confirmed once more: the clauses `next` and `sent` of `TwinLog::apply`.
fn answers_a_repeat(
    tail: &mut TwinLog,
    alloc: Global,
    number: u64,
    msg: &Msg<'_>,
    out: &mut TwinOut,
) -> Result<(), NoMemory>
    requires sendable { IsSendableBy tail.old.grammar msg.now }
    requires repeat { (1 ≤ number) × (number ≤ tail.old.number) }
    requires empty { out.old ≡ [] }
    ensures next { OnOk result (tail.new ≡ tail.old) }
    ensures sent { OnOk result (out.new ≡ sent_to_other (Got tail.old.number ∷ [])) }
{
    tail.apply(alloc, number, msg, out)
}

/// A message after a gap changes nothing, and nothing is sent: the clauses `next` and `sent` of `TwinLog::apply`.
fn applies_out_of_order(
    tail: &mut TwinLog,
    alloc: Global,
    number: u64,
    msg: &Msg<'_>,
    out: &mut TwinOut,
) -> Result<(), NoMemory>
    requires sendable { IsSendableBy tail.old.grammar msg.now }
    requires gap { tail.old.number + 1 < number }
    requires empty { out.old ≡ [] }
    ensures next { OnOk result (tail.new ≡ tail.old) }
    ensures sent { OnOk result (out.new ≡ []) }
{
    tail.apply(alloc, number, msg, out)
}

/// The head of a pair takes what the server asks, and only forwards it: the clauses `next` and `sent` of `TwinLog::on_server`.
#[tactic(auto, unfolding(twin_laws::specs::StoredState::kept_does))]
fn head_answers_while_paired(
    head: &mut TwinLog,
    alloc: Global,
    bytes: &[u8],
    out: &mut TwinOut,
) -> Result<(), NoMemory>
    requires paired { (head.old.part ≡ parts.Head) × (head.old.alone ≡ false) }
    requires room { (head.old.waiting ≡ []) × (head.old.number < 2 ^ 64 - 1) }
    requires empty { out.old ≡ [] }
    ensures next { (m : Message) → reading_by head.old.grammar bytes.now ≡ Ok m → is_asking_message m ≡ true → OnOk result (head.new.waiting ≡ bytes.now ∷ []) }
    ensures sent { (m : Message) → reading_by head.old.grammar bytes.now ≡ Ok m → is_asking_message m ≡ true
        → OnOk result (out.new ≡ forwards_sent head.old.number (bytes.now ∷ [])) }
{
    head.on_server(alloc, bytes, out)
}

/// To loggers whose server's messages are plain, a wide one is noise, whatever it says: the clauses `next` and `sent` of `TwinLog::on_server`.
fn a_plain_pair_takes_a_wide_message(
    log: &mut TwinLog,
    alloc: Global,
    out: &mut TwinOut,
) -> Result<(), NoMemory>
    requires plain { log.old.grammar ≡ grammars.Plain }
    requires empty { out.old ≡ [] }
    ensures next { OnOk result (log.new ≡ log.old) }
    ensures sent { OnOk result (out.new ≡ []) }
{
    let hello = [70, 84, 2, 1, 0, 16, 183, 153, 0, 0, 0, 0, 0, 0, 0, 1];
    log.on_server(alloc, &hello, out)
}

/// Where there is no memory, no message is taken and the number stays: the clause `refused` of `TwinLog::deliver`, and of `TwinLog::add` below it.
fn takes_before_there_is_memory(
    log: &mut TwinLog,
    alloc: Global,
    from: Side,
    bytes: &[u8],
    out: &mut TwinOut,
) -> Result<(), NoMemory>
    ensures { OnErr result (log.new.number ≡ log.old.number) }
{
    log.deliver(alloc, from, bytes, out)
}

/// A message that was forwarded waits until the tail confirms it: the clause `next` of `TwinLog::take_new`.
fn drops_what_it_forwarded(
    head: &mut TwinLog,
    alloc: Global,
    msg: &Msg<'_>,
    bytes: &[u8],
    out: &mut TwinOut,
) -> Result<(), NoMemory>
    requires sendable { IsSendableBy head.old.grammar msg.now }
    requires read { reading_by head.old.grammar bytes.now ≡ Ok (message_of msg.now) }
    requires room { has_kept_room head.old ≡ true }
    requires empty { out.old ≡ [] }
    ensures { OnOk result (head.new.waiting ≡ head.old.waiting ++ bytes.now ∷ []) }
{
    head.take_new(alloc, msg, bytes, out)
}

/// A new wide message is forwarded once, and nothing that waits goes with it: the clause `sent` of `TwinLog::take_new`.
fn forwards_all_each_time(
    head: &mut TwinLog,
    alloc: Global,
    msg: &Msg<'_>,
    bytes: &[u8],
    out: &mut TwinOut,
) -> Result<(), NoMemory>
    requires sendable { IsSendableBy head.old.grammar msg.now }
    requires read { reading_by head.old.grammar bytes.now ≡ Ok (message_of msg.now) }
    requires wide { head.old.grammar ≡ grammars.Wide }
    requires new { is_among bytes.now head.old.waiting ≡ false }
    requires room { has_kept_room head.old ≡ true }
    requires empty { out.old ≡ [] }
    ensures { OnOk result (out.new ≡ forwards_sent head.old.number (bytes.now ∷ [])) }
{
    head.take_new(alloc, msg, bytes, out)
}
