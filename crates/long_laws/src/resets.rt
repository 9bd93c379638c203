//! No false reset: a RST ends a connection for good, so none may be sent to a client whose connection the log keeps.

ghost use Rattle.std.specs.Prelude.{◌≡◌, ℕ, List, [], ◌∷◌, ◌++◌, map, Some, false};
ghost use Rattle.seq_arith.specs.Message.{Numbers};
ghost use Rattle.seq_arith.specs.Message.Body.{FullMsg};
ghost use Rattle.server_trait.specs.Service.{machine, silent};
ghost use Rattle.tcp_rules.specs.declared.timestamping.Timestamping.{Timestamping};
ghost use Rattle.ft_model.specs.World.{World, Happens};
ghost use Rattle.long_laws.specs.LongTrace.{LongMoment, LongJoint, long_after};
ghost use Rattle.ft_model.specs.Network.{packet_at};
ghost use Rattle.ft_model.specs.Network.Packet.{To_client, From_logger};
ghost use Rattle.ft_model.specs.Node.{Node};
ghost use Rattle.ft_model.specs.Node.Place.{Opens};
ghost use Rattle.ft_model.specs.Node.Stage.{Serving};
ghost use Rattle.ft_model.specs.Refusal.{full_rst};
ghost use Rattle.ft_model.specs.declared.event.Event.TheVariants.{Deliver};
ghost use Rattle.long_laws.specs.LongResets.{receives_full, HasRoom, AreDiscreet};
ghost use Rattle.ft_model.specs.Resets.{ResetsNoLogged};
ghost use Rattle.std.specs.List.{AllByRecursion};
ghost use Rattle.ft_model.specs.declared.phase.Phase.TheVariants.{Established, Reset};
ghost use Rattle.ft_model.specs.WorkedRuns.FirstPath;
ghost use Rattle.long_laws.specs.EarlyReturn;
ghost use Rattle.long_laws.specs.LateReturn;

use server_trait::Service;

/// No false reset is sent in a long trace, in any moment in which the server doesn't hear that the log is full: none of the RSTs that it sends is for a
/// client whose entry is in the log and not done. This includes clients that were let go, and those that have themselves sent a reset.
pub fn no_logged_connection_is_sent_a_reset<S: Service>()
    ensures { (kind : ℕ) (start : World) (moment : LongMoment) (earlier : List LongMoment)
        → LongJoint (machine (S.started kind) S.after S.greeting) start (moment ∷ earlier)
        → receives_full (long_after start earlier).now moment.step ≡ false → AllByRecursion (ResetsNoLogged moment.world.now.log) moment.sent }
{}

/// While the log has room, the server never hears that it is full. So if the log had room after all earlier moments of a long trace, no RST is sent to a client
/// whose entry is in the log and not done.
pub fn logs_with_room_send_no_false_reset<S: Service>()
    ensures { (kind : ℕ) (start : World) (moment : LongMoment) (earlier : List LongMoment)
        → LongJoint (machine (S.started kind) S.after S.greeting) start (moment ∷ earlier)
        → HasRoom earlier → AllByRecursion (ResetsNoLogged moment.world.now.log) moment.sent }
{}

/// No false reset is under way in a long trace, if the server is discreet: when it hears that the log is full it sends no RST, and it resets no client that
/// has no entry. Then of all RSTs that are under way, none is for a client whose entry is in the log and not done. So none that is delivered ends a
/// connection that the log keeps.
pub fn discreet_servers_reset_no_logged_connection<S: Service>()
    ensures { (kind : ℕ) (start : World) (trace : List LongMoment) → LongJoint (machine (S.started kind) S.after S.greeting) start trace
        → AreDiscreet start trace
        → AllByRecursion (ResetsNoLogged (long_after start trace).now.log) (long_after start trace).now.packets }
{}

/// Why the server must not reset a client that has no entry. One that comes back before the server has forgotten its key, though the log has recycled the
/// entry, gets CLOSED's RST. This RST arrives when the client's new connection is in the log, and resets it. The service is any, without a greeting.
pub fn early_returns_are_reset<S: Service>()
    ensures happens { (kind : ℕ) → LongJoint (silent (S.started kind) S.after) FirstPath.start EarlyReturn.trace }
    ensures logged { AllByRecursion (ResetsNoLogged EarlyReturn.moment_21.world.now.log) EarlyReturn.moment_21.world.now.packets → ⊥ }
    ensures reset { map (λ client. client.phase) EarlyReturn.moment_22.world.now.clients ≡ Reset ∷ [] }
{}

/// Why the server must not answer Full with a RST. The Full resets the client of the opening, whatever the log has by then. It may come late, when an entry
/// has been recycled and a repeated Open has been heard: then the client has an entry.
pub fn late_fulls_reset<S: Service>()
    ensures { (kind : ℕ) (w : World) (node : Node) (opened : ℕ) (numbers : Numbers) (timestamping : Timestamping) (number : ℕ) → w.node ≡ Some node
        → node.stage ≡ Serving opened (Opens numbers timestamping ∷ [])
        → packet_at w.packets number ≡ Some (From_logger (record { boot = node.boot; body = FullMsg numbers.key }))
        → Happens (machine (S.started kind) S.after S.greeting) w (Deliver number) (To_client (full_rst node.server numbers) ∷ [])
        (record w { node = Some (record node { stage = Serving opened [] }); packets = w.packets ++ To_client (full_rst node.server numbers) ∷ [] }) }
{}

/// The premise can be met where keys are used again: a client that comes back once the server has forgotten its key gets a connection, and the server is
/// discreet in every moment. The service is any, without a greeting.
pub fn late_returns_are_served<S: Service>()
    ensures happens { (kind : ℕ) → LongJoint (silent (S.started kind) S.after) FirstPath.start LateReturn.trace }
    ensures discreet { AreDiscreet FirstPath.start LateReturn.trace }
    ensures served { map (λ client. client.phase) LateReturn.moment_22.world.now.clients ≡ Established ∷ [] }
{}
