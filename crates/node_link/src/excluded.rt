//! Wrong results that the contracts of this crate exclude. Each function calls another one of the crate, and promises of its result what a wrong body would
//! make false. It is proved from the other's contract alone, so it is no longer proved once that contract lets the wrong body pass.

ghost use Rattle.std.specs.Prelude.{◌≡◌, ◌^◌, Bool, Some, [], ◌∷◌, List, map, IfOk, IsErrOf, OnOk};
ghost use Rattle.ft_io.specs.declared.Addr.{Addr};
ghost use Rattle.ft_io.specs.Reported.{Reports};
ghost use Rattle.ft_io.specs.declared.link_call.LinkCall.{LinkCall};
ghost use Rattle.ft_io.specs.declared.link_call.LinkCall.TheVariants.{Bound, Handed};
ghost use Rattle.tcp_rules.specs.Profile.{wan};
ghost use Rattle.tcp_rules.specs.declared.profile.Profile.TheVariants as profiles;
ghost use Rattle.ft_model.specs.Lawful.{hello};
ghost use Rattle.ft_model.specs.Node.{Stage};
ghost use Rattle.ft_model.specs.Node.Input.{Tick_comes};
ghost use Rattle.ft_model.specs.Wire.{wire_by};
ghost use Rattle.node_serving.specs.Identity.{node_of, grammar_in};
ghost use Rattle.server_node.specs.declared.stage.Stage.TheVariants as stages;
ghost use Rattle.link_parts.specs.Counts.{HasRoom};
ghost use Rattle.link_parts.specs.Ranges.{ServerInRange};
ghost use Rattle.node_link.specs.ServerParts.{standing_of};
ghost use Rattle.node_link.specs.ServerTurns.{ServerTurn, address_of, input_from, second_for, turn_calls, wires_in};

use crate::server::{boot, run_server, send_one, take_turn};
use ft_io::{Link, NoMemory, Sink};
use link_parts::{Counts, Loggers, NodeEnd, ServerRole};
use server_node::{Node, OutPacket, TurnEnd};
use server_trait::Saved;
use std::alloc::Global;

/// A server's first call is its bind, and it makes none where that fails: the clauses `done` and `stops` of `run_server`.
fn sends_before_its_bind<S: Saved, L: Link, O: Sink>(
    alloc: Global,
    role: &ServerRole,
    link: &mut L,
    out: &mut O,
) -> Result<(), NodeEnd>
    requires { ServerInRange role.now }
    ensures bound { OnOk result ((later : List LinkCall) × Reports (L.reported link.old) (L.reported link.new) (Bound role.now.local ∷ later)) }
    ensures unreported { IsErrOf result NodeEnd.LinkFault → Reports (L.reported link.old) (L.reported link.new) [] }
{
    run_server::<S, L, O>(alloc, role, link, out)
}

/// A node that asks for the log hands Hello to send in a turn in which nothing has come: the clause `turned` of `take_turn`.
fn sends_nothing_of_a_turn<S: Saved, L: Link>(
    alloc: Global,
    loggers: Loggers,
    node: &mut Node<S>,
    link: &mut L,
    counts: &mut Counts,
) -> Result<(), TurnEnd>
    requires room { HasRoom (2 ^ 65) counts.old }
    requires asks { (standing_of node.old).stage ≡ stages.Asking }
    ensures { let who = (standing_of node.old).who
        in OnOk result ((turn : ServerTurn) × Reports (L.reported link.old) (L.reported link.new) (turn_calls loggers turn)
        × (input_from (grammar_in who) loggers turn.received ≡ Tick_comes
        → wires_in turn.sent ≡ map (wire_by (grammar_in who)) (hello (node_of who Stage.Asking)))) }
{
    take_turn(alloc, loggers, node, link, counts)
}

/// A message is handed to send to the first logger and to the second: the clause `sent` of `send_one`.
fn sends_to_one_logger_alone<L: Link>(
    link: &mut L,
    loggers: Loggers,
    packet: &OutPacket,
    counts: &mut Counts,
)
    requires { HasRoom 2 counts.old }
    ensures { (second : Addr) → second_for loggers packet.now.to ≡ Some second → (is_lost : Bool) × (is_second_lost : Bool)
        × Reports (L.reported link.old) (L.reported link.new)
        (Handed (address_of loggers.first packet.now.to) packet.now.bytes is_lost ∷ Handed second packet.now.bytes is_second_lost ∷ []) }
{
    send_one(link, loggers, packet, counts);
}

/// A server whose words say `wan` boots a node with that profile: the clause `booted` of `boot`.
fn ignores_the_profile<S: Saved, L: Link>(
    alloc: Global,
    role: &ServerRole,
    link: &mut L,
    counts: &mut Counts,
) -> Result<Node<S>, NoMemory>
    requires range { ServerInRange role.now }
    requires room { HasRoom (2 ^ 65) counts.old }
    requires chosen { role.now.profile ≡ profiles.Wan }
    ensures { IfOk result (λ node. (standing : Stage) → (node_of (standing_of node).who standing).profile ≡ wan) }
{
    boot::<S, L>(alloc, role, link, counts)
}
