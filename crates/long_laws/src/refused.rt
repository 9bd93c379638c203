//! Which steps of a long trace are refused, in general and for the worked run.

ghost use Rattle.std.specs.Prelude.{◌≡◌, ◌≤◌, Some, true, false};
ghost use Rattle.ft_io.specs.declared.Key.{Key};
ghost use Rattle.ft_model.specs.Client.{Client};
ghost use Rattle.ft_model.specs.Log.{Entry, entry_of};
ghost use Rattle.ft_model.specs.Masked.{is_restarting};
ghost use Rattle.ft_model.specs.Network.{Packet};
ghost use Rattle.ft_model.specs.Node.{Node, Place, place_at};
ghost use Rattle.ft_model.specs.World.{World, WasSent};
ghost use Rattle.ft_model.specs.WorkedRuns.Common as common;
ghost use Rattle.long_laws.specs.LongTrace.{MayRecycle, MayForget, MayArrive, IsEnded, concerns, places_at};
ghost use Rattle.long_laws.specs.WorkedTrace as run;

/// An entry that isn't done isn't recycled. In the worked run: not even while the server is down, after Done was sent and before it has reached the log.
pub fn entries_that_are_not_done_are_not_recycled()
    ensures always { (key : Key) (w : World) (e : Entry) → entry_of key w.log ≡ Some e → e.done ≡ false → MayRecycle key w → ⊥ }
    ensures worked { MayRecycle common.key run.not_done → ⊥ }
{}

/// Nothing is recycled of a key whose connection is live or pending at the server: the log has applied the Done, and the server doesn't know it yet.
pub fn connections_of_the_server_are_not_recycled()
    ensures { (key : Key) (w : World) (node : Node) (place : Place) → w.node ≡ Some node → place_at key (places_at node.stage) ≡ Some place
        → (IsEnded place → ⊥)
        → MayRecycle key w → ⊥ }
{}

/// Nothing is recycled while a server that restarts asks the log: once its Hello has arrived, the entries that it was told of stay until it serves.
pub fn nothing_is_recycled_during_a_restart()
    ensures { (key : Key) (w : World) (node : Node) → w.node ≡ Some node → is_restarting node.stage ≡ true → node.boot ≤ w.log.boot → MayRecycle key w → ⊥ }
{}

/// A key isn't forgotten while the log has an entry of it. In the worked run: not even when the entry is done, and nothing is under way.
pub fn keys_in_the_log_are_not_forgotten()
    ensures always { (key : Key) (w : World) (e : Entry) → entry_of key w.log ≡ Some e → MayForget key w → ⊥ }
    ensures worked { MayForget common.key run.still_logged → ⊥ }
{}

/// No new client arrives while a packet of an earlier connection of its address and port is under way. In the worked run: the first client's last ACK alone
/// keeps the second client from arriving.
pub fn no_client_arrives_while_an_old_packet_is_under_way()
    ensures always { (c : Client) (w : World) (packet : Packet) → WasSent w packet → concerns c.key packet ≡ true → MayArrive c w → ⊥ }
    ensures worked { MayArrive run.second_client run.still_under_way → ⊥ }
{}
