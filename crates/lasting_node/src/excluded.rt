//! Wrong results that the contracts of this crate exclude. Each function calls another one of the crate, and promises of its result what a wrong body would
//! make false. It is proved from the other's contract alone, so it is no longer proved once that contract lets the wrong body pass.

ghost use Rattle.std.specs.Prelude.{◌≡◌, [], Ok, None, Some, OnOk, true, false};
ghost use Rattle.seq_arith.specs.PacketGrammar.{reading};
ghost use Rattle.segment_codec.specs.Value.{segment_of};
ghost use Rattle.forget_wire.specs.Value.{message_of};
ghost use Rattle.ft_model.specs.Node.{is_for};
ghost use Rattle.ft_model.specs.Node.Input.{Packet_comes};
ghost use Rattle.long_laws.specs.Quarantine.{is_dropped, taken_away};
ghost use Rattle.lasting_laws.specs.LastingTurn.{LastingNode as Law};
ghost use Rattle.node_serving.specs.Identity.{service_of};
ghost use Rattle.server_node.specs.Places.{is_serving};
ghost use Rattle.lasting_node.specs.Turns.{LastingStands, sent_by};

use crate::arrivals::is_full;
use crate::node::LastingNode;
use forget_wire::ForgetMsg;
use ft_io::Key;
use logger_wire::Body;
use segment_codec::PacketRef;
use server_node::TurnEnd;
use server_trait::Saved;
use std::alloc::Global;

/// A segment of a connection that is leaving isn't answered: the clause `turn` of `take_segment`.
fn a_leaving_connection_answers<S: Saved>(
    server: &mut LastingNode<S>,
    alloc: Global,
    segment: &PacketRef<'_>,
    bytes: &[u8],
) -> Result<(), TurnEnd>
    requires own { server.old.is_own ≡ false }
    requires read { reading bytes.now ≡ Ok (segment_of segment.now) }
    requires ours { is_for server.old.node.who.local (segment_of segment.now) ≡ true }
    requires serving { is_serving server.old.node.stage ≡ true }
    requires leaving { (n : Law) × LastingStands (service_of S.Service server.old.node.who) n server.old
        × (is_dropped server.old.patience.wait n.node.server (Packet_comes (segment_of segment.now)) n.quarantine ≡ true) }
    ensures { OnOk result (sent_by server.new ≡ []) }
{
    server.take_segment(alloc, segment, bytes)
}

/// Forgotten with the numbers of another connection of its key changes nothing: the clause `turn` of `receive_forget`.
fn forgets_by_key_alone<S: Saved>(server: &mut LastingNode<S>, m: &ForgetMsg)
    ensures { (n : Law) → LastingStands (service_of S.Service server.old.node.who) n server.old
        → taken_away (Some n.node) (message_of m.now) n.quarantine ≡ None → LastingStands (service_of S.Service server.old.node.who) n server.new }
{
    server.receive_forget(m);
}

/// Full is seen: the contract of `is_full`.
fn full_still_resets(key: Key) -> bool
    ensures { result ≡ true }
{
    is_full(&Body::Full { key })
}
