//! What a node without marks has for its keys, one by one. `lasting_node` looks at these between two turns.

ghost use Rattle.std.specs.Prelude.{◌≡◌, ℕ, List, option_map, option_copied, slice_get, length};
ghost use Rattle.std.specs.List.{IsDistinct};
ghost use Rattle.std.specs.Map.{lookup, keys_of};
ghost use Rattle.ft_io.specs.Key.{key_eq};
ghost use Rattle.logger_wire.specs.Records.{head_said};
ghost use Rattle.ft_model.specs.Restart.{Fetched};
ghost use Rattle.node_serving.specs.Slots.{AllSound};
ghost use Rattle.node_serving.specs.declared.identity.Identity.{Identity as Incarnation};
ghost use Rattle.server_node.specs.Places.{slots_at, is_serving as is_serving_lem, is_done as is_done_lem, HasFetched, Forgets, ForgetsSlot};
ghost use Rattle.server_node.specs.Stages.{IsSoundStage};

use crate::stage::Stage;
use ft_io::Key;
use logger_wire::EntryHead;
use node_serving::{Serving, Slot, apart as apart_in, forget_slot, nth_key};
use server_trait::{Saved, Service};

/// Whether a node without marks serves.
pub(crate) fn is_serving<S: Service>(stage: &Stage<S>) -> bool
    ensures { result ≡ is_serving_lem stage.now }
{
    matches!(stage, Stage::Serving(_))
}

/// How many places a node without marks has while it serves.
pub(crate) fn count<S: Service>(stage: &Stage<S>) -> usize
    ensures { result ≡ length (slots_at stage.now) }
{
    match stage {
        Stage::Serving(serving) => serving.slots.len(),
        _ => 0,
    }
}

/// The key at place `i`, counted from 0.
pub(crate) fn key_at<S: Service>(stage: &Stage<S>, i: usize) -> Option<Key>
    ensures { result ≡ option_map (λ e. e.0) (slice_get (slots_at stage.now) i) }
{
    match stage {
        Stage::Serving(serving) => nth_key(&serving.slots, i),
        _ => None,
    }
}

/// Whether the connection of a key has ended.
pub(crate) fn is_done<S: Service>(stage: &Stage<S>, key: Key) -> bool
    ensures { result ≡ is_done_lem (lookup (key_eq key) (slots_at stage.now)) }
{
    match stage {
        Stage::Serving(serving) => has_ended(serving.slots.get(&key)),
        _ => false,
    }
}

/// Whether a slot is that of a connection that has ended.
fn has_ended<S: Service>(slot: Option<&Slot<S>>) -> bool
    ensures { result ≡ is_done_lem (option_copied slot.entry) }
{
    let Some(slot) = slot else {
        return false;
    };
    match slot {
        Slot::Done => true,
        Slot::Live(_) => false,
        Slot::Pending(_) => false,
    }
}

/// The head of a key's entry, if it has come and the log is still fetched.
pub(crate) fn fetched<S: Service>(stage: &Stage<S>, key: Key) -> Option<EntryHead>
    ensures { (kind : ℕ) (fetched : List Fetched) → HasFetched S.Service kind fetched stage.now key (option_map head_said result) }
{
    match stage {
        Stage::Fetching(fetching) => fetching.known(key),
        _ => None,
    }
}

/// Removes the slot of a key. The others keep their order.
pub(crate) fn forget<S: Service>(stage: &mut Stage<S>, key: Key)
    ensures stage { Forgets key stage.old stage.new }
    ensures sound { (who : Incarnation) → IsSoundStage who stage.old → IsSoundStage who stage.new }
{
    let Stage::Serving(serving) = stage else {
        return;
    };
    forget_in(serving, key);
}

/// Removes the slot of a key of a node that serves.
fn forget_in<S: Service>(serving: &mut Serving<S>, key: Key)
    ensures slots { ForgetsSlot key serving.old serving.new }
    ensures sound { (who : Incarnation) → AllSound who serving.old.slots.entries → AllSound who serving.new.slots.entries }
{
    forget_slot(&mut serving.slots, key);
}

/// A fact for proofs: no key of a node without marks has two slots.
pub(crate) fn apart<S: Saved>(stage: &Stage<S>)
    ensures { IsDistinct key_eq (keys_of (slots_at stage.now)) }
{
    let Stage::Serving(serving) = stage else {
        return;
    };
    apart_in(&serving.slots);
}
