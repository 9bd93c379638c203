//! Laws of the packets sent. Nothing here runs; each function is a theorem.

ghost use Rattle.std.specs.Prelude.{◌≡◌, ℕ, List, [], ◌++◌, length, map, option_map};
ghost use Rattle.ft_model.specs.Network.{Packet, packet_at};
ghost use Rattle.ft_model.specs.Wire.{Wire, wire_by, HasWireBy};
ghost use Rattle.seq_arith.specs.declared.kinds.Grammar.{Grammar};
ghost use Rattle.plain_packets.specs.Sent.{Appends, wire_at, kept_wire, CanBeKept};

/// Sending nothing changes nothing; and what is sent in two steps can be sent in one.
#[tactic(auto, using(crate::proofs::Sent::appends_none, crate::proofs::Sent::appends_both))]
pub fn packets_follow_one_another()
    ensures none { (wires : List Wire) → Appends wires wires [] }
    ensures both { (before middle after : List Wire) (first more : List Packet) → Appends before middle first → Appends middle after more
        → Appends before after (first ++ more) }
{}

/// The wire of a packet has the same number as the packet.
#[tactic(auto, using(crate::proofs::Sent::wire_numbered))]
pub fn wires_have_the_packets_numbers()
    ensures { (packets : List Packet) (n : ℕ) → wire_at (map kept_wire packets) n ≡ option_map kept_wire (packet_at packets n) }
{}

/// A packet that has a wire in either grammar can be kept.
#[tactic(auto, using(crate::proofs::Kept::can_be_kept))]
pub fn written_packets_can_be_kept()
    ensures { (grammar : Grammar) (packet : Packet) → HasWireBy grammar packet → CanBeKept packet }
{}

/// The kept wire of a packet is as long as its wire in either grammar.
#[tactic(auto, using(crate::proofs::Kept::kept_length))]
pub fn kept_wires_have_the_wires_lengths()
    ensures { (grammar : Grammar) (packet : Packet) → length (wire_by grammar packet).bytes ≡ length (kept_wire packet).bytes }
{}
