//! Laws of a server over its link, each the contract of a function with an empty body.

ghost use Rattle.std.specs.Prelude.{◌≡◌, ◌<◌, ◌∷◌, [], map, List, Option, Some, None, true};
ghost use Rattle.ft_io.specs.declared.Key.{Key};
ghost use Rattle.seq_arith.specs.Packet.{Segment};
ghost use Rattle.seq_arith.specs.Message.Body.{OpenMsg};
ghost use Rattle.tcp_rules.specs.Profile.{grammar_of};
ghost use Rattle.server_trait.specs.Service.{Machine};
ghost use Rattle.ft_model.specs.Connection.{reported_by};
ghost use Rattle.ft_model.specs.Node.{Node, Place};
ghost use Rattle.ft_model.specs.Node.Place.{Opens};
ghost use Rattle.ft_model.specs.Node.Input.{Packet_comes};
ghost use Rattle.ft_model.specs.Opening.{numbers_for, timestamping_for};
ghost use Rattle.ft_model.specs.Wire.{Wire, wire_by};
ghost use Rattle.node_serving.specs.Alone.{is_syn_of};
ghost use Rattle.node_serving.specs.Clients.{Clients, pending_of};
ghost use Rattle.node_serving.specs.Ownership.{of_key};
ghost use Rattle.node_link.specs.KeyLife.{ServesKey};

use server_trait::Service;

/// New clients are served, whatever others have sent. While fewer than 64 openings are pending, the SYN of a client for which the server has nothing makes a
/// pending opening with the next initial sequence number, and the server sends the log its Open, and nothing else to or about that client.
pub fn new_clients_are_served<S: Service>()
    ensures { (service : Machine S) (node : Node) (key : Key) (clients : Clients) (segment : Segment) (after : Option Place) (sent : List Wire)
        → is_syn_of node key (Packet_comes segment) ≡ true → pending_of clients.known < 64
        → ServesKey service node key clients None (Packet_comes segment) after sent
        → (after ≡ Some (Opens (numbers_for node.profile node.isn clients.opened segment) (timestamping_for node.profile segment)))
        × (of_key (grammar_of node.profile) key sent
        ≡ map (wire_by (grammar_of node.profile)) (reported_by node.boot (OpenMsg (numbers_for node.profile node.isn clients.opened segment)) ∷ [])) }
{}
