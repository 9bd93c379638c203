//! Wrong results that the contracts of this crate exclude. Each function calls another one of the crate, and promises of its result what a wrong body would
//! make false. It is proved from the other's contract alone, so it is no longer proved once that contract lets the wrong body pass.

ghost use Rattle.std.specs.Prelude.{◌≡◌, ◌≤◌, ◌^◌, List, map, take, length, IfOk, OnOk};
ghost use Rattle.ft_io.specs.Reported.{Reports};
ghost use Rattle.seq_arith.specs.declared.kinds.Grammar.{Grammar};
ghost use Rattle.ft_model.specs.Lawful.{hello};
ghost use Rattle.ft_model.specs.Wire.{wire_by};
ghost use Rattle.node_serving.specs.Identity.{grammar_in};
ghost use Rattle.lasting_node.specs.Turns.{lasting_input_of, message_said, LastingTurns, IsUnfencedLasting};
ghost use Rattle.link_parts.specs.Counts.{HasRoom};
ghost use Rattle.node_link.specs.ServerTurns.{Sent, ServerTurn, sending, turn_calls, wires_in};
ghost use Rattle.lasting_link.specs.LastingLife.{lasting_first, lasting_grammar, lasting_input};
ghost use Rattle.lasting_link.specs.LastingWords.{LastingInRange};

use crate::role::LastingRole;
use crate::server::{boot, input_of, take_turn};
use ft_io::{Link, NoMemory};
use lasting_node::LastingNode;
use link_parts::{Counts, Loggers};
use server_node::{Input, TurnEnd};
use server_trait::Saved;
use std::alloc::Global;

/// What comes from the logger's address is a message: the clause of `input_of`.
fn takes_a_message_for_a_packet<'a>(loggers: Loggers, len: usize, buffer: &'a [u8]) -> Input<'a>
    requires { len ≤ length buffer.now }
    ensures { (grammar : Grammar) → lasting_input_of grammar result ≡ message_said grammar (take len buffer.now) }
{
    input_of(loggers, Some((len, loggers.first)), buffer)
}

/// All that its node sends in a turn is handed to send: the clause `turned` of `take_turn`.
fn sends_nothing_of_a_turn<S: Saved, L: Link>(
    alloc: Global,
    loggers: Loggers,
    node: &mut LastingNode<S>,
    link: &mut L,
    counts: &mut Counts,
) -> Result<(), TurnEnd>
    requires { HasRoom (2 ^ 65) counts.old }
    ensures { OnOk result ((turn : ServerTurn) × Reports (L.reported link.old) (L.reported link.new) (turn_calls loggers turn)
        × LastingTurns (lasting_input (grammar_in node.old.node.who) loggers turn.received) node.old node.new (wires_in turn.sent)) }
{
    take_turn(alloc, loggers, node, link, counts)
}

/// A server whose turn is done wasn't fenced by what it received in it: the clause `turned` of `take_turn`.
fn passes_over_a_fence<S: Saved, L: Link>(
    alloc: Global,
    loggers: Loggers,
    node: &mut LastingNode<S>,
    link: &mut L,
    counts: &mut Counts,
) -> Result<(), TurnEnd>
    requires { HasRoom (2 ^ 65) counts.old }
    ensures { OnOk result ((turn : ServerTurn) × Reports (L.reported link.old) (L.reported link.new) (turn_calls loggers turn)
        × IsUnfencedLasting node.old.node.who (lasting_input (grammar_in node.old.node.who) loggers turn.received)) }
{
    take_turn(alloc, loggers, node, link, counts)
}

/// A server that boots says Hello, in its grammar: the clause `booted` of `boot`.
fn boots_without_hello<S: Saved, L: Link>(
    alloc: Global,
    role: &LastingRole,
    link: &mut L,
    counts: &mut Counts,
) -> Result<LastingNode<S>, NoMemory>
    requires range { LastingInRange role.now }
    requires room { HasRoom (2 ^ 65) counts.old }
    ensures { IfOk result (λ node. (at_boot : List Sent) × (wires_in at_boot ≡ map (wire_by (lasting_grammar role.now)) (hello (lasting_first role.now).node))
        × Reports (L.reported link.old) (L.reported link.new) (sending role.now.server.loggers at_boot)) }
{
    boot::<S, L>(alloc, role, link, counts)
}
