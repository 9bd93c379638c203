//! Wrong results that the contracts of this crate exclude. Each function calls another one of the crate, and promises of its result what a wrong body would
//! make false. It is proved from the other's contract alone, so it is no longer proved once that contract lets the wrong body pass.

ghost use Rattle.std.specs.Prelude.{◌≡◌, ◌∷◌, true, None, OnOk};
ghost use Rattle.seq_arith.specs.declared.kinds.Grammar.TheVariants as grammars;
ghost use Rattle.tcp_rules.specs.declared.profile.Profile.TheVariants as profiles;
ghost use Rattle.ft_io.specs.Reported.{Reports};
ghost use Rattle.ft_io.specs.declared.link_call.LinkCall.TheVariants.{Bound};
ghost use Rattle.chain_parts.specs.PartSteps.{standing_of};
ghost use Rattle.chain_parts.specs.PartTurns.{PartTurn, at_start, datagrams_in, says_alone, sends, turn_calls};

use crate::pair_role::PartRole;
use crate::part::{Twin, run_part, take};
use crate::sending::address_for;
use ft_io::{Addr, Link, NoMemory, Sink};
use link_parts::NodeEnd;
use std::alloc::Global;
use twin_log::Side;

/// As long as the server's address isn't known, nothing is sent to the server: the contract of `address_for`.
fn sends_to_the_other_what_has_no_server(other: Addr) -> Option<Addr>
    ensures { result ≡ None }
{
    address_for(None, other, Side::Server)
}

/// An Alone says nothing of where the server is: the clause `next` of `take`.
fn takes_an_alone_for_the_servers(
    alloc: Global,
    other: Addr,
    twin: &mut Twin,
    from: Addr,
    bytes: &[u8],
) -> Result<(), NoMemory>
    requires { says_alone bytes.now ≡ true }
    ensures { OnOk result ((standing_of twin.new).server ≡ (standing_of twin.old).server) }
{
    take(alloc, other, twin, from, bytes)
}

/// One of two loggers whose words say `wan` takes wide messages: the clause `done` of `run_part`.
fn a_pair_ignores_the_profile<L: Link, O: Sink>(
    alloc: Global,
    role: &PartRole,
    link: &mut L,
    out: &mut O,
) -> Result<(), NodeEnd>
    requires once { role.now.logger.turns ≡ 1 }
    requires chosen { role.now.logger.profile ≡ profiles.Wan }
    ensures { OnOk result ((turn : PartTurn) × Reports (L.reported link.old) (L.reported link.new) (Bound role.now.logger.local ∷ turn_calls turn)
        × (datagrams_in turn.sent ≡ sends role.now.other turn.received (at_start grammars.Wide role.now.part))) }
{
    run_part(alloc, role, link, out)
}
