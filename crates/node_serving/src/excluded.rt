//! Wrong results that the contracts of this crate exclude. Each function calls another one of the crate, and promises of its result what a wrong body would
//! make false. It is proved from the other's contract alone, so it is no longer proved once that contract lets the wrong body pass.

ghost use Rattle.std.specs.Prelude.{◌≡◌, ◌≤◌, ◌++◌, ◌∷◌, [], map, Ok, None, true, false, OnOk};
ghost use Rattle.std.specs.Map.{lookup};
ghost use Rattle.ft_io.specs.Key.{key_eq};
ghost use Rattle.seq_arith.specs.MessageGrammar.{behind_of, spelling_by};
ghost use Rattle.seq_arith.specs.PacketGrammar.{reading};
ghost use Rattle.logger_wire.specs.Value.{body_of, message_of, IsSendableBy};
ghost use Rattle.segment_codec.specs.Value.{segment_of};
ghost use Rattle.ft_model.specs.Network.{source_of};
ghost use Rattle.ft_model.specs.Network.Packet.{To_client};
ghost use Rattle.ft_model.specs.Node.{is_for};
ghost use Rattle.ft_model.specs.Opening.{is_syn};
ghost use Rattle.ft_model.specs.Refusal.{as_listen};
ghost use Rattle.ft_model.specs.Wire.{wire_by};
ghost use Rattle.node_serving.specs.Identity.{grammar_in};
ghost use Rattle.node_serving.specs.Openings.{IsCounted, pending_slots};
ghost use Rattle.node_serving.specs.Ownership.{of_key};
ghost use Rattle.node_serving.specs.SentBytes.{message_to_logger};
ghost use Rattle.node_serving.specs.Slots.{AllSound};
ghost use Rattle.conn_marks.specs.KeyMarks.{marking_in};

use crate::identity::Identity;
use crate::marked_serving::{mark_key, serve_packet_marked};
use crate::sent::send_message;
use crate::serving::{Serving, is_for, serve_packet};
use crate::slot::Slot;
use crate::slots::serve_known;
use crate::turn::Turn;
use conn_marks::Marks;
use ft_io::{Addr, Key, NoMemory};
use indexmap::IndexMap;
use logger_wire::{Grammar, Msg};
use segment_codec::{Head, PacketRef};
use seq_arith::{ACK, Seq};
use server_trait::{Saved, Service};
use tcp_rules::Profile;

/// A segment leaves the connections of all other clients as they are, whatever it acknowledges: the clause `alone` of `serve_known`.
fn a_far_acknowledgement_moves_another_edge<S: Service>(
    who: Identity,
    segment: &PacketRef<'_>,
    other: Key,
    slots: &mut IndexMap<Key, Slot<S>>,
    packet: &mut [u8],
    turn: &mut Turn,
) -> Result<(), NoMemory>
    requires sound { AllSound who slots.old.entries }
    requires read { reading packet.old ≡ Ok (segment_of segment.now) }
    requires mine { is_for who.local (segment_of segment.now) ≡ true }
    requires other { key_eq (source_of (segment_of segment.now)) other ≡ false }
    ensures { OnOk result (lookup (key_eq other) slots.new.entries ≡ lookup (key_eq other) slots.old.entries) }
{
    serve_known(who, segment, slots, packet, turn)
}

/// A packet for another port of the server's address isn't for the server: the contract of `is_for`.
fn a_stray_packet_counts() -> bool
    ensures { result ≡ false }
{
    let head = Head {
        src: 2,
        dst: 1,
        sport: 40_000,
        dport: 8,
        seq: Seq(0),
        ack: Seq(0),
        flags: ACK,
        window: 0,
        mss: None,
        timestamps: None,
    };
    is_for(Addr { ip: 1, port: 7 }, &PacketRef { head, payload: &[] })
}

/// A segment of an unknown client that is no SYN is answered as the law says, an acknowledgement by a RST, also while 64 openings are pending: the clause
/// `alone` of `serve_packet`.
fn ignores_an_acknowledgement_while_openings_are_pending<S: Service>(
    who: Identity,
    segment: &PacketRef<'_>,
    packet: &mut [u8],
    serving: &mut Serving<S>,
    turn: &mut Turn,
) -> Result<(), NoMemory>
    requires boot { 1 ≤ who.boot }
    requires read { reading packet.old ≡ Ok (segment_of segment.now) }
    requires sound { AllSound who serving.old.slots.entries }
    requires counted { IsCounted who.isn serving.old.next.0 }
    requires mine { is_for who.local (segment_of segment.now) ≡ true }
    requires strange { lookup (key_eq (source_of (segment_of segment.now))) serving.old.slots.entries ≡ None }
    requires full { 64 ≤ pending_slots serving.old.slots.entries }
    requires other { is_syn (segment_of segment.now) ≡ false }
    requires empty { turn.old.sent.items ≡ [] }
    ensures { OnOk result (of_key (grammar_in who) (source_of (segment_of segment.now)) turn.new.sent.items
        ≡ map (wire_by (grammar_in who)) (map To_client (as_listen who.local (segment_of segment.now)))) }
{
    serve_packet(who, segment, packet, serving, turn)
}

/// A packet for another server leads to no mark, even if its sender has a connection here of which one is due: the clause `untouched` of
/// `serve_packet_marked`.
fn marks_at_a_stray_packet<S: Saved>(
    who: Identity,
    segment: &PacketRef<'_>,
    packet: &[u8],
    serving: &mut Serving<S>,
    marks: &mut Marks,
    turn: &mut Turn,
) -> Result<(), NoMemory>
    requires boot { 1 ≤ who.boot }
    requires read { reading packet.now ≡ Ok (segment_of segment.now) }
    requires sound { AllSound who serving.old.slots.entries }
    requires counted { IsCounted who.isn serving.old.next.0 }
    requires empty { turn.old.sent.items ≡ [] }
    requires stray { is_for who.local (segment_of segment.now) ≡ false }
    ensures { OnOk result ((marks.new ≡ marks.old) × (turn.new.sent.items ≡ [])) }
{
    serve_packet_marked(who, segment, packet, serving, marks, turn)
}

/// After a turn of one client another client's marks are as before, even if one is due: the clause `alone` of `mark_key`.
fn marks_the_next_key<S: Saved>(
    who: Identity,
    key: Key,
    other: Key,
    slots: &IndexMap<Key, Slot<S>>,
    marks: &mut Marks,
    turn: &mut Turn,
) -> Result<(), NoMemory>
    requires boot { 1 ≤ who.boot }
    requires sound { AllSound who slots.now.entries }
    requires other { key_eq other key ≡ false }
    ensures { OnOk result (marking_in marks.new other ≡ marking_in marks.old other) }
{
    mark_key(who, key, slots, marks, turn)
}

/// A server with the profile wan writes its messages in the wide grammar: the contract of `send_message`.
fn writes_a_plain_message(who: Identity, message: &Msg<'_>, turn: &mut Turn) -> Result<(), NoMemory>
    requires sendable { IsSendableBy (grammar_in who) message.now }
    requires bare { behind_of (body_of message.now.body) ≡ [] }
    requires profile { who.profile ≡ Profile.Wan }
    ensures { OnOk result (turn.new.sent.items
        ≡ turn.old.sent.items ++ message_to_logger (spelling_by Grammar.Wide (message_of message.now)) ∷ []) }
{
    send_message(who, message, turn)
}
