//! What the server has for a key that it knows, and its turn.

ghost use Rattle.std.specs.Prelude.{◌≡◌, ◌∷◌, [], true, IfOk, OnOk};
ghost use Rattle.segment_codec.specs.Value.{segment_of};
ghost use Rattle.server_trait.specs.Service.{machine};
ghost use Rattle.logger_wire.specs.Value.{body_of};
ghost use Rattle.ft_model.specs.Node as law;
ghost use Rattle.ft_model.specs.Node.Input.{Packet_comes, Tick_comes};
ghost use Rattle.ft_model.specs.Node.Place.{Lives};
ghost use Rattle.ft_model.specs.ServingTurn.{names as names_lem, concerns as concerns_lem, LivesOn, Meets, PlaceTurn};
ghost use Rattle.plain_connection.specs.News.{news_in};
ghost use Rattle.plain_world.specs.Served.{IsServedLive, IsServedPlace};
ghost use Rattle.plain_world.specs.NodeTurns.{SendsBy};
ghost use Rattle.plain_world.specs.Values.{input_in, place_in, left_in, node_of};

use crate::incarnation::Incarnation;
use crate::input::Input;
use crate::refusal::refuse_closed;
use ft_io::{Addr, Key, NoMemory};
use logger_wire::{Body, Numbers};
use plain_connection::{News, PlainConnection};
use plain_packets::PlainPackets;
use segment_codec::PacketRef;
use server_trait::Service;
use std::alloc::Global;
use tcp_rules::Timestamping;

/// A pending opening.
#[derive(Clone, Copy)]
pub(crate) struct Opening {
    /// The numbers that the log is asked to keep.
    pub numbers: Numbers,
    /// The timestamps that the SYN asked for.
    pub timestamping: Timestamping,
}

/// What the server has for a key that it knows.
#[derive(Drop)]
pub(crate) enum PlainPlace<S: Service> {
    /// Its opening is pending.
    Opens(Opening),
    /// Its connection is live.
    Lives(PlainConnection<S>),
    /// It is done.
    Ended(Key),
}

/// Returns whether a segment is for this server.
pub(crate) fn is_for(server: Addr, segment: &PacketRef<'_>) -> bool
    ensures { result ≡ law.is_for server (segment_of segment.now) }
{
    segment.head.dst == server.ip && segment.head.dport == server.port
}

/// Returns whether a message to a known connection names this key.
fn names(body: &Body<'_>, key: Key) -> bool
    ensures { result ≡ names_lem (body_of body.now) key }
{
    match *body {
        Body::Opened(numbers) => numbers.key == key,
        Body::Stable(kept) | Body::Reads(kept) => kept.key == key,
        Body::Ended { key: named } | Body::Full { key: named } => named == key,
        _ => false,
    }
}

/// Returns whether an input concerns this key: a packet from its client, a message of this boot that names it, or a tick.
fn concerns(who: Incarnation, input: &Input<'_>, key: Key) -> bool
    ensures { (stage : law.Stage) → result ≡ concerns_lem (node_of who stage) (input_in input.now) key }
{
    match input {
        Input::Packet(segment) => is_for(who.server, segment) && segment.head.sender() == key,
        Input::Message(msg) => msg.boot == who.boot && names(&msg.body, key),
        Input::Noise => false,
        Input::Tick => true,
    }
}

/// Takes the turn of a live connection. After `NoMemory` it may only be dropped.
pub(crate) fn turn_live<S: Service>(
    alloc: Global,
    who: Incarnation,
    connection: &mut PlainConnection<S>,
    news: &News<'_>,
    sent: &mut PlainPackets,
) -> Result<(), NoMemory>
    requires { IsServedLive who.kind (machine (S.started who.kind) S.after S.greeting) connection.old }
    ensures turn { OnOk result ((stage : law.Stage) → SendsBy (LivesOn (machine (S.started who.kind) S.after S.greeting) (node_of who stage) (news_in news.now)
        connection.old.point (Lives connection.new.point ∷ [])) sent.old sent.new) }
    ensures served { OnOk result (IsServedLive who.kind (machine (S.started who.kind) S.after S.greeting) connection.new) }
{
    connection.turn(alloc, who.server, who.boot, news, sent)
}

impl<S: Service> PlainPlace<S> {
    /// Returns its key.
    pub(crate) fn key(&self) -> Key
        ensures { result ≡ law.key_of (place_in self.now) }
    {
        match self {
            PlainPlace::Opens(opening) => opening.numbers.key,
            PlainPlace::Lives(connection) => connection.point().key(),
            PlainPlace::Ended(key) => *key,
        }
    }

    /// Returns whether its opening is pending.
    pub(crate) fn is_pending(&self) -> bool
        ensures { result ≡ law.is_pending (place_in self.now) }
    {
        matches!(self, PlainPlace::Opens(_))
    }

    /// Takes a segment of its client. After `NoMemory` the place may only be dropped.
    fn take_segment(
        &mut self,
        alloc: Global,
        who: Incarnation,
        segment: &PacketRef<'_>,
        sent: &mut PlainPackets,
    ) -> Result<(), NoMemory>
        requires { IsServedPlace who.kind (machine (S.started who.kind) S.after S.greeting) self.old }
        ensures turn { OnOk result ((stage : law.Stage) → SendsBy (Meets (machine (S.started who.kind) S.after S.greeting) (node_of who stage)
            (Packet_comes (segment_of segment.now)) (place_in self.old) (place_in self.new ∷ [])) sent.old sent.new) }
        ensures served { OnOk result (IsServedPlace who.kind (machine (S.started who.kind) S.after S.greeting) self.new) }
    {
        match self {
            PlainPlace::Opens(_) => Ok(()),
            PlainPlace::Lives(connection) => {
                turn_live(alloc, who, connection, &News::Segment(*segment), sent)
            }
            PlainPlace::Ended(_) => refuse_closed(alloc, who.server, segment, sent),
        }
    }

    /// Takes a tick. After `NoMemory` the place may only be dropped.
    fn tick(
        &mut self,
        alloc: Global,
        who: Incarnation,
        sent: &mut PlainPackets,
    ) -> Result<(), NoMemory>
        requires { IsServedPlace who.kind (machine (S.started who.kind) S.after S.greeting) self.old }
        ensures turn { OnOk result ((stage : law.Stage) → SendsBy (Meets (machine (S.started who.kind) S.after S.greeting) (node_of who stage)
            Tick_comes (place_in self.old) (place_in self.new ∷ [])) sent.old sent.new) }
        ensures served { OnOk result (IsServedPlace who.kind (machine (S.started who.kind) S.after S.greeting) self.new) }
    {
        match self {
            PlainPlace::Lives(connection) => turn_live(alloc, who, connection, &News::Tick, sent),
            PlainPlace::Opens(_) | PlainPlace::Ended(_) => Ok(()),
        }
    }

    /// Takes an input that concerns it. Returns whether the place remains. After `NoMemory` the place may only be dropped.
    fn meet(
        &mut self,
        alloc: Global,
        who: Incarnation,
        input: &Input<'_>,
        sent: &mut PlainPackets,
    ) -> Result<bool, NoMemory>
        requires { IsServedPlace who.kind (machine (S.started who.kind) S.after S.greeting) self.old }
        ensures turn { IfOk result (λ stays. (stage : law.Stage) → SendsBy (Meets (machine (S.started who.kind) S.after S.greeting) (node_of who stage)
            (input_in input.now) (place_in self.old) (left_in stays self.new)) sent.old sent.new) }
        ensures served { OnOk result (IsServedPlace who.kind (machine (S.started who.kind) S.after S.greeting) self.new) }
    {
        match input {
            Input::Packet(segment) => self.take_segment(alloc, who, segment, sent)?,
            Input::Message(msg) => return self.receive(alloc, who, &msg.body, sent),
            Input::Noise => {}
            Input::Tick => self.tick(alloc, who, sent)?,
        }
        Ok(true)
    }

    /// Takes its turn on any input. Returns whether the place remains. After `NoMemory` the place may only be dropped.
    pub(crate) fn turn(
        &mut self,
        alloc: Global,
        who: Incarnation,
        input: &Input<'_>,
        sent: &mut PlainPackets,
    ) -> Result<bool, NoMemory>
        requires { IsServedPlace who.kind (machine (S.started who.kind) S.after S.greeting) self.old }
        ensures turn { IfOk result (λ stays. (stage : law.Stage) → SendsBy (PlaceTurn (machine (S.started who.kind) S.after S.greeting) (node_of who stage)
            (input_in input.now) (place_in self.old) (left_in stays self.new)) sent.old sent.new) }
        ensures served { OnOk result (IsServedPlace who.kind (machine (S.started who.kind) S.after S.greeting) self.new) }
    {
        if !concerns(who, input, self.key()) {
            return Ok(true);
        }
        self.meet(alloc, who, input, sent)
    }
}
