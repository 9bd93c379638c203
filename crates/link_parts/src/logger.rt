//! The logger: a log that answers over a link. Each turn is one receive and the answer to what came, which is handed to send before the next receive. Its words
//! say once which messages it heeds: others are no messages.

ghost use Rattle.std.specs.Prelude.{List, ◌≡◌, ◌≤◌, [], ◌∷◌, true, OnOk, OnErr, IfOk, IfErr, IsErrOf};
ghost use Rattle.std.specs.Io.KnownBytes.{Appends};
ghost use Rattle.ft_io.specs.Faults.{Rose};
ghost use Rattle.ft_io.specs.Reported.{Reports};
ghost use Rattle.ft_io.specs.declared.link_call.LinkCall.{LinkCall};
ghost use Rattle.ft_io.specs.declared.link_call.LinkCall.TheVariants.{Bound};
ghost use Rattle.std.specs.declared.option.Option.{Option};
ghost use Rattle.forget_store.specs.AnyMessage.{heeded_in};
ghost use Rattle.forget_store.specs.Replies.{reply_bytes};
ghost use Rattle.link_parts.specs.Counts.{HasRoom};
ghost use Rattle.link_parts.specs.Ends.{UnlessFault};
ghost use Rattle.link_parts.specs.LoggerTurns.{log_with, answer_for, wants_in};
ghost use Rattle.link_parts.specs.LoggerParts.{HasTurned, IsStarved, Replies, HasCounted, IsCutServing, IsLogger, LoggerStops};
ghost use Rattle.link_parts.specs.Ranges.{most_turns};

use crate::counts::{Counts, write_counts};
use crate::receiving::{DATAGRAM_ROOM, receive};
use crate::role::LoggerRole;
use crate::status::NodeEnd;
use forget_store::{AnswerOut, Heeded, read_heeded, take_any};
use ft_io::{Addr, Failed, Link, NoMemory, Sink};
use logger_store::LogStore;
use std::alloc::Global;

/// Applies to the log the message that the bytes spell, and returns the answer. Returns no bytes if there is no answer or the bytes are no message that is
/// heeded.
pub(crate) fn answer(
    alloc: Global,
    heeded: Heeded,
    store: &mut LogStore,
    bytes: &[u8],
) -> Result<AnswerOut, NoMemory>
    ensures next { OnOk result (store.new ≡ log_with store.old (heeded_in heeded bytes.now)) }
    ensures answer { IfOk result (λ out. out ≡ reply_bytes heeded.grammar (answer_for store.old (heeded_in heeded bytes.now))) }
    ensures memory { OnErr result (wants_in store.old (heeded_in heeded bytes.now) ≡ true) }
{
    let mut out = AnswerOut::new();
    if let Some(any) = read_heeded(heeded, bytes) {
        take_any(store, alloc, heeded.grammar, &any, &mut out)?;
    }
    Ok(out)
}

/// Hands an answer to send, if it has bytes.
fn reply<L: Link>(link: &mut L, to: Addr, answer: &AnswerOut, counts: &mut Counts)
    requires { HasRoom 1 counts.old }
    ensures replies { Replies to answer.now (L.reported link.old) (L.reported link.new) counts.old counts.new }
    ensures no_bind_fault { L.bind_fault_count link.new ≡ L.bind_fault_count link.old }
{
    let bytes = answer.bytes();
    if bytes.is_empty() {
        return;
    }
    let sent = link.send(to, bytes);
    counts.note_sent(&sent);
}

/// Takes one turn: receives once, and sends the answer to what came.
fn take_turn<L: Link>(
    alloc: Global,
    heeded: Heeded,
    link: &mut L,
    store: &mut LogStore,
    counts: &mut Counts,
) -> Result<(), NoMemory>
    requires { HasRoom 2 counts.old }
    ensures turned { OnOk result (HasTurned heeded store.old store.new (L.reported link.old) (L.reported link.new) counts.old counts.new) }
    ensures cut_off { OnErr result ((calls : List LinkCall) × IsStarved heeded store.old calls × Reports (L.reported link.old) (L.reported link.new) calls) }
    ensures no_bind_fault { L.bind_fault_count link.new ≡ L.bind_fault_count link.old }
{
    let mut buffer = [0; DATAGRAM_ROOM];
    let Some((len, from)) = receive(link, &mut buffer, counts) else {
        return Ok(());
    };
    let answer = answer(alloc, heeded, store, &buffer[..len])?;
    reply(link, from, &answer, counts);
    Ok(())
}

/// Takes this many turns, beginning with an empty log, and returns the counts of their calls.
fn serve<L: Link>(
    alloc: Global,
    heeded: Heeded,
    link: &mut L,
    turns: u64,
) -> Result<Counts, NoMemory>
    requires { turns ≤ most_turns }
    ensures served { IfOk result (λ counts. HasCounted heeded turns (L.reported link.old) (L.reported link.new) counts) }
    ensures cut_off { OnErr result (IsCutServing heeded turns (L.reported link.old) (L.reported link.new)) }
    ensures no_bind_fault { L.bind_fault_count link.new ≡ L.bind_fault_count link.old }
{
    let mut store = LogStore::new(alloc);
    let mut counts = Counts::new();
    for _turn in 0..turns {
        take_turn(alloc, heeded, link, &mut store, &mut counts)?;
    }
    Ok(counts)
}

/// Runs a logger after its bind: takes its turns, and writes the line of the counts.
fn serve_and_report<L: Link, O: Sink>(
    alloc: Global,
    role: &LoggerRole,
    link: &mut L,
    out: &mut O,
) -> Result<(), NodeEnd>
    requires { role.now.turns ≤ most_turns }
    ensures done { OnOk result ((before : Option (List LinkCall)) → Reports before (L.reported link.old) (Bound role.now.local ∷ [])
        → IsLogger role.now before (L.reported link.new) (Appends (O.taken out.old) (O.taken out.new))) }
    ensures stops { IfErr result (λ end. (before : Option (List LinkCall)) → Reports before (L.reported link.old) (Bound role.now.local ∷ [])
        → LoggerStops role.now before (L.reported link.new) (O.taken out.old) (O.taken out.new) end) }
    ensures write_cause { IsErrOf result NodeEnd.WriteFault → Rose (O.fault_count out.old) (O.fault_count out.new) }
    ensures bound { IsErrOf result NodeEnd.LinkFault → ⊥ }
    ensures no_bind_fault { L.bind_fault_count link.new ≡ L.bind_fault_count link.old }
    ensures no_write_fault { UnlessFault result (O.fault_count out.new ≡ O.fault_count out.old) }
{
    match serve(alloc, role.heeded(), link, role.turns) {
        Err(NoMemory) => Err(NodeEnd::NoMemory),
        Ok(counts) => write_counts(alloc, &counts, out),
    }
}

/// Runs a logger: binds, takes its turns, and writes the counts of their calls.
pub fn run_logger<L: Link, O: Sink>(
    alloc: Global,
    role: &LoggerRole,
    link: &mut L,
    out: &mut O,
) -> Result<(), NodeEnd>
    requires { role.now.turns ≤ most_turns }
    ensures done { OnOk result (IsLogger role.now (L.reported link.old) (L.reported link.new) (Appends (O.taken out.old) (O.taken out.new))) }
    ensures stops { IfErr result (LoggerStops role.now (L.reported link.old) (L.reported link.new) (O.taken out.old) (O.taken out.new)) }
    ensures bind_cause { IsErrOf result NodeEnd.LinkFault → Rose (L.bind_fault_count link.old) (L.bind_fault_count link.new) }
    ensures write_cause { IsErrOf result NodeEnd.WriteFault → Rose (O.fault_count out.old) (O.fault_count out.new) }
    ensures no_bind_fault { UnlessFault result (L.bind_fault_count link.new ≡ L.bind_fault_count link.old) }
    ensures no_write_fault { UnlessFault result (O.fault_count out.new ≡ O.fault_count out.old) }
{
    match link.bind(role.local) {
        Err(Failed) => Err(NodeEnd::LinkFault),
        Ok(()) => serve_and_report(alloc, role, link, out),
    }
}
