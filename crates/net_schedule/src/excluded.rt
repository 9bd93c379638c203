//! Wrong results that the contracts of this crate exclude. Each function calls another one of the crate, and promises of its result what a wrong body would
//! make false. It is proved from the other's contract alone, so it is no longer proved once that contract lets the wrong body pass.

ghost use Rattle.std.specs.Prelude.{◌≡◌, [], ◌∷◌, Some, OnOk};
ghost use Rattle.seq_arith.specs.Packet.{Segment};
ghost use Rattle.ft_model.specs.Client.{received};
ghost use Rattle.ft_model.specs.Network.{destination_of, packet_at};
ghost use Rattle.ft_model.specs.Network.Packet.{To_client};
ghost use Rattle.ft_model.specs.World.{World as Seen, with_client};
ghost use Rattle.net_schedule.specs.Premises.{Premises};
ghost use Rattle.net_schedule.specs.Refinement.{WorldStands};
ghost use Rattle.net_schedule.specs.WorldView.{kept, service_of};

use crate::world::{World, refill_flipped};
use ft_io::NoMemory;
use ft_model::Event;
use schedule_network::StepEnd;
use server_trait::Saved;
use std::alloc::Global;

/// Among the first eight bits, too, the one with the number `bit` is changed: the contract of `refill_flipped`.
#[tactic(auto, unfolding(seq_arith::specs::Damage::flipped))]
fn delivers_a_flip_unharmed(buffer: &mut Vec<u8>) -> Result<(), NoMemory>
    ensures { OnOk result (buffer.new.items ≡ 1 ∷ []) }
{
    refill_flipped(buffer, &[0], 0)
}

/// A client's packet reaches that client when an event delivers the packet's number: the clause `done` of `World::act`.
fn delivers_another_packet<S: Saved>(
    world: &mut World<S>,
    alloc: Global,
    packet: u32,
) -> Result<(), StepEnd>
    ensures { OnOk result ((v : Seen) (segment : Segment) → WorldStands (service_of world.old) (kept world.old) v → Premises (service_of world.old) v
        → packet_at v.packets packet ≡ Some (To_client segment)
        → world.new.clients.items ≡ with_client (destination_of segment) (λ c. received c segment) v.clients) }
{
    world.act(alloc, &Event::Deliver { packet })
}
