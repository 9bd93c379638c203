//! Wrong results that the contracts of this crate exclude. Each function calls another one of the crate, and promises of its result what a wrong body would
//! make false. It is proved from the other's contract alone, so it is no longer proved once that contract lets the wrong body pass.

ghost use Rattle.std.specs.Prelude.{◌≡◌, ◌≢◌, ◌≤◌, [], List, Ok, None, Some, false, IfOk, IfSome, IsErr, IsOk, OnOk, ℕ};
ghost use Rattle.std.specs.List.{AllByRecursion};
ghost use Rattle.std.specs.Map.{lookup};
ghost use Rattle.ft_io.specs.Key.{key_eq};
ghost use Rattle.seq_arith.specs.MessageGrammar.{reading_by};
ghost use Rattle.seq_arith.specs.PacketGrammar.{reading};
ghost use Rattle.segment_codec.specs.Value.{segment_of};
ghost use Rattle.ft_io.specs.declared.Key.{Key as Client};
ghost use Rattle.server_trait.specs.Service.{AreBytes};
ghost use Rattle.mark_laws.specs.Marking.{Marking};
ghost use Rattle.node_serving.specs.Markers.{saving, marker_of};
ghost use Rattle.server_node.specs.MarkedRestart.{AreRestoredMarked};
ghost use Rattle.logger_wire.specs.Value.{IsSendableBy};
ghost use Rattle.reincarnate.specs.Questions.{asked};
ghost use Rattle.reincarnate.specs.Refinement.{IsReplayed, RestoredIs};
ghost use Rattle.tcp_rules.specs.Profiles.{profile_of};
ghost use Rattle.ft_model.specs.Log.{Entry};
ghost use Rattle.ft_model.specs.Lawful.{restored_count};
ghost use Rattle.ft_model.specs.Network.{source_of};
ghost use Rattle.ft_model.specs.Node.{Stage as Standing};
ghost use Rattle.ft_model.specs.Opening.{initial_number};
ghost use Rattle.ft_model.specs.Restart.{Fetched, IsSoundEntry, entry_in, is_fetched};
ghost use Rattle.ft_model.specs.Wire.{Wire};
ghost use Rattle.server_node.specs.FetchStage.{IsOwn};
ghost use Rattle.node_serving.specs.Identity.{node_of, service_of, grammar_in};
ghost use Rattle.node_serving.specs.Loan.{conn_in};
ghost use Rattle.server_node.specs.RestartEnd.{AreRestored};
ghost use Rattle.server_node.specs.RestartNumbers.{IsNumbered};
ghost use Rattle.node_serving.specs.Ownership.{IsFor};
ghost use Rattle.node_serving.specs.Slots.{AllSound};
ghost use Rattle.server_node.specs.Stages.{IsSoundStage};

use crate::input::TurnEnd;
use crate::marked_reviving::restore_marked;
use crate::restarting::ask;
use crate::reviving::{restore, revive};
use crate::stage::{Stage, newer_than, on_packet, read_message, receive};
use conn_marks::Marks;
use ft_io::NoMemory;
use logger_wire::{BadMsg, Body, Grammar, Msg};
use node_serving::{Identity, Serving, Slot, Turn};
use reincarnate::{Fetching, Replayed, Restored};
use segment_codec::PacketRef;
use seq_arith::Seq;
use server_trait::{Saved, Service};
use tcp_rules::Profile;

/// A Stale that names a smaller boot number fences no server: the contract of `newer_than`.
fn fenced_by_an_older_boot() -> Option<u64>
    ensures { result ≡ None }
{
    newer_than(2, &Body::Stale { newer: 1 })
}

/// A restored connection has inside the initial sequence number that follows those of the connections restored before it: the clause `turn` of `restore`.
fn restarts_under_one_number<S: Service>(
    who: Identity,
    entry: Restored<S>,
    serving: &mut Serving<S>,
    turn: &mut Turn,
) -> Result<(), NoMemory>
    requires boot { 1 ≤ who.boot }
    requires sound { AllSound who serving.old.slots.entries }
    ensures { OnOk result ((standing : Standing) (f : Fetched) (earlier : List Fetched) (first : List Wire) → let service = service_of S.Service who in
        RestoredIs service f entry → f.head.done ≡ false → IsSoundEntry service (entry_in f) → is_fetched f.head.key earlier ≡ false
        → AreRestored service (node_of who standing) earlier serving.old first turn.old.sent.items
        → IsNumbered service (entry_in f) (initial_number who.isn (restored_count earlier)) (conn_in (lookup (key_eq f.head.key) serving.new.slots.entries))) }
{
    restore(who, entry, serving, turn)
}

/// A restart that misses nothing asks for nothing: the clauses `missing` and `asks` of `ask`.
fn stays_restarting<S: Service>(
    who: Identity,
    fetching: &Fetching<S>,
    turn: &mut Turn,
) -> Result<bool, NoMemory>
    requires own { IsOwn who fetching.now }
    requires whole { asked fetching.now ≡ None }
    ensures { IfOk result (λ asks. asks ≡ false) }
{
    ask(who, fetching, turn)
}

/// A message of another boot changes nothing, and nothing is sent: the clause `apart` of `receive`.
fn uses_a_message_of_another_boot<S: Saved>(
    who: Identity,
    m: &Msg<'_>,
    turn: &mut Turn,
) -> Result<Stage<S>, TurnEnd>
    requires boot { 1 ≤ who.boot }
    requires sendable { IsSendableBy (grammar_in who) m.now }
    requires other { m.now.boot ≢ who.boot }
    requires empty { turn.old.sent.items ≡ [] }
    ensures { IfOk result (λ after. (after ≡ Stage.Asking) × (turn.new.sent.items ≡ [])) }
{
    receive(who, Stage::Asking, m, turn)
}

/// While a node serves, a packet of one client makes it send nothing to another client, and nothing about another to the logger: the clause `apart` of
/// `on_packet`.
fn sends_another_clients_segment<S: Saved>(
    who: Identity,
    serving: Serving<S>,
    segment: &PacketRef<'_>,
    packet: &[u8],
    turn: &mut Turn,
) -> Result<Stage<S>, NoMemory>
    requires boot { 1 ≤ who.boot }
    requires read { reading packet.now ≡ Ok (segment_of segment.now) }
    requires sound { IsSoundStage who (Stage.Serving serving) }
    requires empty { turn.old.sent.items ≡ [] }
    ensures { IfOk result (λ after. AllByRecursion (IsFor (grammar_in who) (source_of (segment_of segment.now))) turn.new.sent.items) }
{
    on_packet(who, Stage::Serving(serving), segment, packet, turn)
}

/// Of a node that marks too, a restored connection has inside the initial sequence number that follows those of the connections restored before it: the clause
/// `turn` of `restore_marked`.
fn restarts_from_marks_under_one_number<S: Saved>(
    who: Identity,
    entry: Restored<S>,
    serving: &mut Serving<S>,
    marks: &mut Marks,
    turn: &mut Turn,
) -> Result<(), NoMemory>
    requires boot { 1 ≤ who.boot }
    requires sound { AllSound who serving.old.slots.entries }
    ensures { OnOk result ((every : ℕ) (standing : Standing) (marking : Client → Marking) (f : Fetched) (earlier : List Fetched) (first : List Wire)
        → let by = marker_of S.Service (saving S.form S.state_of S.is_savable) who every in
        RestoredIs by.service f entry → f.head.done ≡ false → IsSoundEntry by.service (entry_in f) → AreBytes f.bytes → is_fetched f.head.key earlier ≡ false
        → AreRestoredMarked by (node_of who standing) marking earlier serving.old marks.old first turn.old.sent.items
        → IsNumbered by.service (entry_in f) (initial_number who.isn (restored_count earlier))
        (conn_in (lookup (key_eq f.head.key) serving.new.slots.entries))) }
{
    restore_marked(who, entry, serving, marks, turn)
}

/// The ACKs of a restarted connection wait for the log exactly if the profile of its server says so: the clause `turn` of `revive`.
fn restarts_with_the_plain_profile<S: Service>(
    who: Identity,
    isn: Seq,
    replayed: Replayed<S>,
    turn: &mut Turn,
) -> Result<Slot<S>, NoMemory>
    requires { 1 ≤ who.boot }
    ensures { IfOk result (λ slot. (e : Entry) → let service = service_of S.Service who in IsReplayed service e replayed → IsSoundEntry service e
        → IfSome (conn_in (Some slot)) (λ c. c.delays ≡ (profile_of who.profile).delays)) }
{
    revive(who, isn, replayed, turn)
}

/// A server with the profile wan takes no message of the plain grammar: the contract of `read_message`.
fn takes_a_plain_message(who: Identity, bytes: &[u8]) -> Result<Msg<'_>, BadMsg>
    requires profile { who.profile ≡ Profile.Wan }
    requires plain { IsOk (reading_by Grammar.Plain bytes.now) }
    ensures { IsErr result }
{
    read_message(who, bytes)
}

/// A server with the plain profile takes no message of the wide grammar: the contract of `read_message`.
fn takes_a_wide_message(who: Identity, bytes: &[u8]) -> Result<Msg<'_>, BadMsg>
    requires profile { who.profile ≡ Profile.Plain }
    requires wide { IsOk (reading_by Grammar.Wide bytes.now) }
    ensures { IsErr result }
{
    read_message(who, bytes)
}
