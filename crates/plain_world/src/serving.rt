//! A server that serves: its places, and their turns in order.

ghost use Rattle.std.specs.Prelude.{◌≡◌, ℕ, ◌<◌, ◌≤◌, ◌+◌, ◌^◌, ◌++◌, [], IfOk, OnOk, length, map, vec_len};
ghost use Rattle.std.specs.Option.{option_to_list};
ghost use Rattle.std.specs.List.{flat_map};
ghost use Rattle.seq_arith.specs.Value.{said};
ghost use Rattle.server_trait.specs.Service.{Machine, machine};
ghost use Rattle.ft_model.specs.Network.Packet.{To_client};
ghost use Rattle.ft_model.specs.Node as law;
ghost use Rattle.ft_model.specs.Node.Place.{Opens};
ghost use Rattle.ft_model.specs.ServingTurn.{PlaceTurn, AllGo, ServingTurn, newcomers, opens_at};
ghost use Rattle.plain_packets.specs.Sent.{Appends};
ghost use Rattle.logger_wire.specs.Records.{numbers_said};
ghost use Rattle.plain_world.specs.Served.{AreServed};
ghost use Rattle.plain_world.specs.NodeTurns.{SendsBy, OneGoes};
ghost use Rattle.plain_world.specs.Values.{input_in, places_in, node_of};

use crate::incarnation::Incarnation;
use crate::input::Input;
use crate::opening::{newcomer, refusal};
use crate::place::{Opening, PlainPlace};
use crate::refusal::send_bare;
use ft_io::NoMemory;
use plain_packets::PlainPackets;
use segment_codec::Head;
use server_trait::Service;
use std::alloc::Global;

/// The places of a server that serves.
#[derive(Drop)]
pub(crate) struct Serving<S: Service> {
    /// How many initial sequence numbers are used up.
    pub(crate) opened: u64,
    /// In the log's order, and then in the order of the SYNs.
    pub(crate) places: Vec<PlainPlace<S>>,
}

/// Takes the turn of the place at an index, and removes the place if it is gone. Returns the index of the next one. After `NoMemory` the places may only be
/// dropped.
fn go_at<S: Service>(
    alloc: Global,
    who: Incarnation,
    places: &mut Vec<PlainPlace<S>>,
    at: usize,
    input: &Input<'_>,
    sent: &mut PlainPackets,
) -> Result<usize, NoMemory>
    requires at { at < vec_len places.old }
    requires served { AreServed who.kind (machine (S.started who.kind) S.after S.greeting) places.old.items }
    ensures turn { IfOk result (λ next. (stage : law.Stage) → OneGoes (machine (S.started who.kind) S.after S.greeting) (node_of who stage) (input_in input.now)
        at next places.old.items places.new.items sent.old sent.new) }
    ensures served { OnOk result (AreServed who.kind (machine (S.started who.kind) S.after S.greeting) places.new.items) }
{
    if places[at].turn(alloc, who, input, sent)? {
        return Ok(at + 1);
    }
    places.remove(at);
    Ok(at)
}

/// Takes the turns of all places, in order. After `NoMemory` the places may only be dropped.
fn go_all<S: Service>(
    alloc: Global,
    who: Incarnation,
    places: &mut Vec<PlainPlace<S>>,
    input: &Input<'_>,
    sent: &mut PlainPackets,
) -> Result<(), NoMemory>
    requires { AreServed who.kind (machine (S.started who.kind) S.after S.greeting) places.old.items }
    ensures turn { OnOk result ((stage : law.Stage)
        → SendsBy (AllGo (PlaceTurn (machine (S.started who.kind) S.after S.greeting) (node_of who stage) (input_in input.now))
        (places_in places.old.items) (places_in places.new.items)) sent.old sent.new) }
    ensures served { OnOk result (AreServed who.kind (machine (S.started who.kind) S.after S.greeting) places.new.items) }
{
    let mut at = 0;
    while at < places.len() {
        at = go_at(alloc, who, places, at, input, sent)?;
    }
    Ok(())
}

/// Sends the log an Open for each pending opening that the input calls for, in order. After `NoMemory` the packets may only be dropped.
fn ask_all<S: Service>(
    alloc: Global,
    who: Incarnation,
    places: &[PlainPlace<S>],
    input: &Input<'_>,
    sent: &mut PlainPackets,
) -> Result<(), NoMemory>
    ensures { OnOk result ((stage : law.Stage)
        → Appends sent.old sent.new (flat_map (opens_at (node_of who stage) (input_in input.now)) (places_in places.now))) }
{
    for place in places {
        place.ask(alloc, who, input, sent)?;
    }
    Ok(())
}

/// Sends the RST of a refusal, if there is one. After `NoMemory` the packets may only be dropped.
fn refuse(alloc: Global, head: Option<Head>, sent: &mut PlainPackets) -> Result<(), NoMemory>
    ensures { OnOk result (Appends sent.old sent.new (map (λ head. To_client (record { head = said head; payload = [] })) (option_to_list head))) }
{
    match head {
        Some(head) => send_bare(alloc, head, sent),
        None => Ok(()),
    }
}

impl<S: Service> Serving<S> {
    /// Adds a pending opening, if there is one. After `NoMemory` it may only be dropped.
    fn open(&mut self, newcomer: Option<Opening>) -> Result<(), NoMemory>
        requires { self.old.opened ≤ 2 ^ 32 }
        ensures opened { OnOk result (self.new.opened ≡ self.old.opened + length (option_to_list newcomer)) }
        ensures few { OnOk result (self.new.opened ≤ self.old.opened + 1) }
        ensures places { OnOk result (places_in self.new.places.items
            ≡ places_in self.old.places.items ++ map (λ n. Opens (numbers_said n.numbers) n.timestamping) (option_to_list newcomer)) }
        ensures served { OnOk result ((kind : ℕ) (service : Machine S) → AreServed kind service self.old.places.items
            → AreServed kind service self.new.places.items) }
    {
        if let Some(opening) = newcomer {
            self.places.push(PlainPlace::Opens(opening))?;
            self.opened += 1;
        }
        Ok(())
    }

    /// Takes its turn. After `NoMemory` it may only be dropped.
    pub(crate) fn turn(
        &mut self,
        alloc: Global,
        who: Incarnation,
        input: &Input<'_>,
        sent: &mut PlainPackets,
    ) -> Result<(), NoMemory>
        requires served { AreServed who.kind (machine (S.started who.kind) S.after S.greeting) self.old.places.items }
        requires few { self.old.opened ≤ 2 ^ 32 }
        ensures turn { OnOk result ((stage : law.Stage)
            → SendsBy (ServingTurn (machine (S.started who.kind) S.after S.greeting) (node_of who stage) (input_in input.now)
            self.old.opened (places_in self.old.places.items) (places_in self.new.places.items)) sent.old sent.new) }
        ensures opened { OnOk result ((stage : law.Stage) → self.new.opened
            ≡ self.old.opened + length (newcomers (node_of who stage) (input_in input.now) self.old.opened (places_in self.old.places.items))) }
        ensures few { OnOk result (self.new.opened ≤ self.old.opened + 1) }
        ensures served { OnOk result (AreServed who.kind (machine (S.started who.kind) S.after S.greeting) self.new.places.items) }
    {
        let newcomer = newcomer(who, input, self.opened, self.places.as_slice());
        let refusal = refusal(who, input, self.places.as_slice());
        go_all(alloc, who, &mut self.places, input, sent)?;
        self.open(newcomer)?;
        refuse(alloc, refusal, sent)?;
        ask_all(alloc, who, self.places.as_slice(), input, sent)
    }
}
