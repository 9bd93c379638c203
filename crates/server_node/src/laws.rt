//! Laws of a node that corresponds to the model's, each the contract of a function with an empty body.

ghost use Rattle.std.specs.Prelude.{ℕ, List, Option};
ghost use Rattle.ft_io.specs.declared.Addr.{Addr};
ghost use Rattle.ft_io.specs.declared.Key.{Key};
ghost use Rattle.server_trait.specs.Service.{Machine, machine};
ghost use Rattle.ft_model.specs.Node.{Node, Place};
ghost use Rattle.ft_model.specs.Point.{Point};
ghost use Rattle.wrapped_conn.specs.ConnState.{ConnState};
ghost use Rattle.wrapped_conn.specs.Sound.{IsSound};
ghost use Rattle.node_serving.specs.declared.serving.Serving.{Serving};
ghost use Rattle.server_node.specs.declared.stage.Stage.{Stage};
ghost use Rattle.node_serving.specs.Alone.{slot_of, StandsFor};
ghost use Rattle.server_node.specs.StageAlone.{slot_in};
ghost use Rattle.node_serving.specs.Conn.{IsOursAt};
ghost use Rattle.node_serving.specs.Loan.{place_in};
ghost use Rattle.node_serving.specs.LentConn.{ReportsItsPoint};
ghost use Rattle.server_node.specs.Runs.{Turned, AreTurns, AreNearFor, RunsAlone};
ghost use Rattle.server_node.specs.Stages.{StageStands};

use server_trait::Service;

/// The connection that `Node::conn` returns shows its point. `inside` returns the point's numbers, and the south wrapper's delta and stable number and the
/// north wrapper's counts agree with it. Until the connection is over or reset, its TCP is neither CLOSED nor reset, and its SND.NXT and SND.UNA are the
/// point's, each minus delta.
pub fn lent_connections_show_their_point<S: Service>()
    ensures { (fresh : S) (server : Addr) (boot : ℕ) (p : Point) (c : ConnState S) → IsSound c → IsOursAt (machine fresh S.after S.greeting) server boot c p
        → ReportsItsPoint (machine fresh S.after S.greeting) p c }
{}

/// If a node corresponds to the model's, so does each key: its slot corresponds to its place there, or it has neither slot nor place.
pub fn standing_nodes_stand_for_each_key<S: Service>()
    ensures { (service : Machine S) (node : Node) (at : Stage S) (key : Key) → StageStands service node at
        → StandsFor service node key (slot_in key at) (place_in key node.stage) }
{}

/// No client can affect another's connection, over any run of turns of a node that serves. Take a key whose slot corresponds to its place, or that isn't
/// known yet, and whose own client's packets were all near: it has had a lawful turn in each of them, as in a server that serves only this key, and its slot
/// corresponds to its place after the last. Nothing is assumed of what other clients sent, nor of any other connection.
pub fn keys_run_alone<S: Service>()
    ensures { (service : Machine S) (node : Node) (key : Key) (first : Serving S) (turns : List (Turned S)) (start : Option Place)
        → AreTurns service node first turns → StandsFor service node key (slot_of key first) start → AreNearFor service node key first turns
        → RunsAlone service node key first turns start }
{}
