//! What the contract of a server requires of its inputs is true in every long trace.

ghost use Rattle.std.specs.Prelude.{◌≡◌, ℕ, List, Some, None, false};
ghost use Rattle.std.specs.List.{AllByRecursion};
ghost use Rattle.ft_io.specs.declared.Key.{Key};
ghost use Rattle.trace_laws.specs.Premises.{HasSoundFronts};
ghost use Rattle.server_trait.specs.Service.{machine};
ghost use Rattle.ft_model.specs.World.{World, MayCome};
ghost use Rattle.long_laws.specs.LongTrace.{LongMoment, LongJoint, long_after, places_at, last_rst};
ghost use Rattle.ft_model.specs.Lawful.{IsNearInput, IsSoundInput, fence};
ghost use Rattle.ft_model.specs.Node.{Node, Input, place_at};
ghost use Rattle.ft_model.specs.Node.Input.{Packet_comes};
ghost use Rattle.ft_model.specs.Node.Place.{Lives};
ghost use Rattle.ft_model.specs.Point.{Point};
ghost use Rattle.ft_model.specs.Client.ClientKind.{Scripted};
ghost use Rattle.long_laws.specs.Refusals.{may_refuse};

use server_trait::Service;

/// The premises of a server's contract hold in every long trace, for whatever may come next. A packet is near, unless it is a RST from a live client, which may
/// be its refusal of a wrong acknowledgement. So where all clients are scripted, every packet is near. What is fetched is sound, and so is the entry of which
/// it is a front. Nothing fences the server. And the RST by which the server lets go of a client, which nobody sends, is near.
pub fn long_premises_hold<S: Service>()
    ensures near { (kind : ℕ) (start : World) (trace : List LongMoment) (node : Node) (input : Input)
        → LongJoint (machine (S.started kind) S.after S.greeting) start trace
        → (long_after start trace).now.node ≡ Some node → MayCome (long_after start trace).now input
        → may_refuse (long_after start trace).now.clients input ≡ false → IsNearInput node.server input node.stage }
    ensures scripted { (kind : ℕ) (start : World) (trace : List LongMoment) (node : Node) (input : Input)
        → LongJoint (machine (S.started kind) S.after S.greeting) start trace
        → (long_after start trace).now.node ≡ Some node → MayCome (long_after start trace).now input
        → AllByRecursion (λ c. c.kind ≡ Scripted) (long_after start trace).now.clients → IsNearInput node.server input node.stage }
    ensures let_go { (kind : ℕ) (start : World) (trace : List LongMoment) (node : Node) (key : Key) (point : Point)
        → LongJoint (machine (S.started kind) S.after S.greeting) start trace → (long_after start trace).now.node ≡ Some node
        → place_at key (places_at node.stage) ≡ Some (Lives point) → IsNearInput node.server (Packet_comes (last_rst node.server point)) node.stage }
    ensures sound { (kind : ℕ) (start : World) (trace : List LongMoment) (node : Node) (input : Input)
        → LongJoint (machine (S.started kind) S.after S.greeting) start trace
        → (long_after start trace).now.node ≡ Some node → MayCome (long_after start trace).now input
        → IsSoundInput (machine (S.started kind) S.after S.greeting) node input node.stage }
    ensures fronts { (kind : ℕ) (start : World) (trace : List LongMoment) (node : Node) (input : Input)
        → LongJoint (machine (S.started kind) S.after S.greeting) start trace
        → (long_after start trace).now.node ≡ Some node → MayCome (long_after start trace).now input
        → HasSoundFronts (machine (S.started kind) S.after S.greeting) node input node.stage }
    ensures unfenced { (kind : ℕ) (start : World) (trace : List LongMoment) (node : Node) (input : Input)
        → LongJoint (machine (S.started kind) S.after S.greeting) start trace
        → (long_after start trace).now.node ≡ Some node → MayCome (long_after start trace).now input → fence node input ≡ None }
{}
