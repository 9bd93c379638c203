//! Wrong results that the contracts of this crate exclude. Each function calls another one of the crate, and promises of its result what a wrong body would
//! make false. It is proved from the other's contract alone, so it is no longer proved once that contract lets the wrong body pass.

ghost use Rattle.std.specs.Prelude.{◌≡◌, ◌<◌, ◌≤◌, ◌-◌, ◌^◌, [], ◌∷◌, Some, Err, slice_get, List, IfOk, IsOk, OnOk, IsErrOf};
ghost use Rattle.seq_arith.specs.MessageGrammar.{reading};
ghost use Rattle.seq_arith.specs.declared.kinds.BadMsg.{BadMsg};
ghost use Rattle.seq_arith.specs.declared.kinds.Grammar.TheVariants as grammars;
ghost use Rattle.tcp_rules.specs.declared.profile.Profile.TheVariants as profiles;
ghost use Rattle.ft_io.specs.declared.link_call.LinkCall.TheVariants.{Bound};
ghost use Rattle.ft_io.specs.Reported.{Reports};
ghost use Rattle.link_parts.specs.LoggerTurns.{LoggerTurn, calls_of};
ghost use Rattle.link_parts.specs.Options.{Use, HasValues, value_of};
ghost use Rattle.link_parts.specs.Roles.{turns_in, times_in};
ghost use Rattle.link_parts.specs.declared.options.OptionName.TheVariants as option;
ghost use Rattle.link_parts.specs.declared.pair.ChildName.TheVariants as children;
ghost use Rattle.link_parts.specs.declared.pair.PairStep.TheVariants as steps;
ghost use Rattle.link_parts.specs.Ranges.{most_turns};

use crate::logger::{answer, run_logger};
use crate::pair::{PairStep, steps};
use crate::role::{LoggerRole, PairRole, all_turns_at};
use crate::status::NodeEnd;
use clap::ArgMatches;
use forget_store::{AnswerOut, Heeded};
use ft_io::{Link, NoMemory, Sink};
use logger_store::LogStore;
use logger_wire::Grammar;
use std::alloc::Global;

/// What a logger without words heeds.
const PLAIN: Heeded = Heeded {
    grammar: Grammar::Plain,
    forgets: false,
};

/// A logger ends with a link fault only where its bind has failed, and then it has made no call: the clauses `bind_cause` and `stops` of `run_logger`.
fn always_faults_at_the_bind<L: Link, O: Sink>(
    alloc: Global,
    role: &LoggerRole,
    link: &mut L,
    out: &mut O,
) -> Result<(), NodeEnd>
    requires turns { role.now.turns ≤ most_turns }
    requires countable { L.bind_fault_count link.old < 2 ^ 64 - 1 }
    ensures failed { IsErrOf result NodeEnd.LinkFault → L.bind_fault_count link.old < L.bind_fault_count link.new }
    ensures unreported { IsErrOf result NodeEnd.LinkFault → Reports (L.reported link.old) (L.reported link.new) [] }
{
    run_logger(alloc, role, link, out)
}

/// Bytes that are no message end no logger for want of memory: the clause `memory` of `answer`.
fn no_message_wants_memory(
    alloc: Global,
    store: &mut LogStore,
    bytes: &[u8],
) -> Result<AnswerOut, NoMemory>
    requires { (bad : BadMsg) × (reading bytes.now ≡ Err bad) }
    ensures { IsOk result }
{
    answer(alloc, PLAIN, store, bytes)
}

/// A logger whose words don't say so heeds no message about forgetting: the clause `next` of `answer`.
fn forgets_without_the_word(
    alloc: Global,
    store: &mut LogStore,
    bytes: &[u8],
) -> Result<AnswerOut, NoMemory>
    requires { (bad : BadMsg) × (reading bytes.now ≡ Err bad) }
    ensures unchanged { OnOk result (store.new ≡ store.old) }
    ensures unanswered { IfOk result (λ out. out ≡ []) }
{
    answer(alloc, PLAIN, store, bytes)
}

/// To a plain logger a wide message is none, whatever it says: the clauses `next` and `answer` of `answer`.
#[tactic(auto, unfolding(seq_arith::specs::MessageGrammar::reading_by, seq_arith::specs::Bytes::word_at))]
fn a_plain_logger_takes_a_wide_message(
    alloc: Global,
    store: &mut LogStore,
) -> Result<AnswerOut, NoMemory>
    ensures unchanged { OnOk result (store.new ≡ store.old) }
    ensures unanswered { IfOk result (λ out. out ≡ []) }
{
    answer(
        alloc,
        PLAIN,
        store,
        &[70, 84, 2, 1, 0, 16, 183, 153, 0, 0, 0, 0, 0, 0, 0, 1],
    )
}

/// A logger whose words say `wan` takes wide messages, and answers in their grammar: the clause `done` of `run_logger`.
fn a_logger_ignores_the_profile<L: Link, O: Sink>(
    alloc: Global,
    role: &LoggerRole,
    link: &mut L,
    out: &mut O,
) -> Result<(), NodeEnd>
    requires turns { role.now.turns ≤ most_turns }
    requires chosen { role.now.profile ≡ profiles.Wan }
    ensures { OnOk result ((turns : List LoggerTurn)
        × Reports (L.reported link.old) (L.reported link.new)
        (Bound role.now.local ∷ calls_of (record { grammar = grammars.Wide; forgets = role.now.forgets }) turns)) }
{
    run_logger(alloc, role, link, out)
}

/// The fourth step of a pair is the wait for the first server, and the second one starts only after it: the contract of `steps`.
fn starts_the_second_server_beside_the_first(
    alloc: Global,
    role: &PairRole,
) -> Result<[PairStep; 8], NoMemory>
    requires { role.now.base ≤ 65533 }
    ensures { IfOk result (λ taken. slice_get taken 3 ≡ Some (steps.Wait 2 children.Server)) }
{
    steps(alloc, role)
}

/// Three turns, twice, are six: the clause `value` of `all_turns_at`.
fn takes_its_turns_once(matches: &ArgMatches<'_>) -> Option<u64>
    ensures { (uses : List Use) → HasValues uses matches.now → turns_in uses ≡ Some 3 → times_in (value_of uses option.Times) ≡ Some 2 → result ≡ Some 6 }
{
    all_turns_at(matches)
}
