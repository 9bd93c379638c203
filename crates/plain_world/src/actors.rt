//! The clients, the log and the server. A packet is delivered to one of them.

ghost use Rattle.std.specs.Prelude.{◌≡◌, ◌≤◌, ◌^◌, OnOk};
ghost use Rattle.ft_model.specs.Legal.{machines};
ghost use Rattle.ft_model.specs.Node.Input.{Tick_comes};
ghost use Rattle.plain_world.specs.Turns.{Serves, MovesClient, Brings, BringsFlipped};
ghost use Rattle.plain_world.specs.WorldState.{IsServedUp, opened_of};

use crate::client::PlainClient;
use crate::clients::{make, receive};
use crate::input::Input;
use crate::log::deliver_to_log;
use crate::node::PlainNode;
use crate::server::serve;
use ft_io::NoMemory;
use ft_model::Event;
use logger_wire::read_wide_msg;
use plain_log::PlainLog;
use plain_packets::{Path, PlainPackets, PlainWire};
use segment_codec::read_packet;
use server_trait::Service;
use std::alloc::Global;
use std::marker::Model;

/// The clients, the log, and the server, if it is up.
#[derive(Drop)]
pub(crate) struct Actors<S: Service> {
    pub(crate) clients: Vec<PlainClient>,
    pub(crate) log: PlainLog,
    pub(crate) node: Option<PlainNode<S>>,
}

impl<S: Service> Model for Actors<S> {
    ghost use Rattle.plain_world.specs.WorldState.{ActorsState};

    ghost Value = { ActorsState S };

    ghost view = { λ a. record { clients = a.clients.items; log = a.log; node = a.node } };
}

impl<S: Service> Actors<S> {
    /// Makes the server's clock tick. After `NoMemory` the actors and the packets may only be dropped.
    pub(crate) fn tick(&mut self, alloc: Global, sent: &mut PlainPackets) -> Result<(), NoMemory>
        requires served { IsServedUp (machines S.started S.after S.greeting) self.old.node }
        requires few { opened_of self.old.node ≤ 2 ^ 32 }
        ensures serves { OnOk result (Serves (machines S.started S.after S.greeting) Tick_comes self.old.node self.new.node sent.old sent.new) }
        ensures clients { self.new.clients ≡ self.old.clients }
        ensures log { self.new.log ≡ self.old.log }
    {
        serve(&mut self.node, alloc, &Input::Tick, sent)
    }

    /// Makes the move that an event asks for, by the client with this number. After `NoMemory` the actors and the packets may only be dropped.
    pub(crate) fn make(
        &mut self,
        alloc: Global,
        number: u8,
        event: &Event,
        sent: &mut PlainPackets,
    ) -> Result<(), NoMemory>
        ensures { OnOk result (MovesClient number event.now self.old self.new sent.old sent.new) }
    {
        make(&mut self.clients, alloc, number, event, sent)
    }

    /// Delivers a packet to its addressee. After `NoMemory` the actors and the packets may only be dropped.
    pub(crate) fn bring(
        &mut self,
        alloc: Global,
        wire: &PlainWire,
        sent: &mut PlainPackets,
    ) -> Result<(), NoMemory>
        requires served { IsServedUp (machines S.started S.after S.greeting) self.old.node }
        requires few { opened_of self.old.node ≤ 2 ^ 32 }
        ensures { OnOk result (Brings (machines S.started S.after S.greeting) wire.now self.old self.new sent.old sent.new) }
    {
        let bytes = wire.bytes();
        match wire.path() {
            Path::ToServer(_) => match read_packet(bytes) {
                Ok(segment) => serve(&mut self.node, alloc, &Input::Packet(segment), sent),
                Err(_) => Ok(()),
            },
            Path::ToClient(key) => match read_packet(bytes) {
                Ok(segment) => receive(&mut self.clients, key, &segment),
                Err(_) => Ok(()),
            },
            Path::ToLogger => match read_wide_msg(bytes) {
                Ok(msg) => deliver_to_log(&mut self.log, alloc, &msg, sent),
                Err(_) => Ok(()),
            },
            Path::FromLogger => match read_wide_msg(bytes) {
                Ok(msg) => serve(&mut self.node, alloc, &Input::Message(msg), sent),
                Err(_) => Ok(()),
            },
        }
    }

    /// Delivers a packet with a changed bit, which can't be read: the server takes a turn on noise; a client or the log ignores it. After `NoMemory`
    /// the actors and the packets may only be dropped.
    pub(crate) fn bring_flipped(
        &mut self,
        alloc: Global,
        wire: &PlainWire,
        sent: &mut PlainPackets,
    ) -> Result<(), NoMemory>
        requires served { IsServedUp (machines S.started S.after S.greeting) self.old.node }
        requires few { opened_of self.old.node ≤ 2 ^ 32 }
        ensures { OnOk result (BringsFlipped (machines S.started S.after S.greeting) wire.now self.old self.new sent.old sent.new) }
    {
        match wire.path() {
            Path::ToServer(_) => serve(&mut self.node, alloc, &Input::Noise, sent),
            Path::FromLogger => serve(&mut self.node, alloc, &Input::Noise, sent),
            Path::ToClient(_) => Ok(()),
            Path::ToLogger => Ok(()),
        }
    }
}
