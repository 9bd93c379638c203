//! The world, and the effect of an event on it.

ghost use Rattle.std.specs.Prelude.{◌≡◌, Some, None, IfOk, List, [], map};
ghost use Rattle.ft_model.specs.Client.{mover_of, move_asked};
ghost use Rattle.ft_model.specs.Legal.{machines, start_of, refusal as refusal_lem, refusal_of_asked};
ghost use Rattle.ft_model.specs.Network.{Packet};
ghost use Rattle.ft_model.specs.Playable.{IsPlayable};
ghost use Rattle.plain_packets.specs.Sent.{kept_wire};
ghost use Rattle.ft_model.specs.World.{Moment, world_after};
ghost use Rattle.ft_model.specs.declared.event.Event.{Event as Asked};
ghost use Rattle.ft_model.specs.declared.event.Event.TheVariants.{Flip};
ghost use Rattle.ft_model.specs.declared.schedule.Schedule.{Schedule as Written};
ghost use Rattle.plain_world.specs.WorldState.{IsAt, world_of};

use crate::actors::Actors;
use crate::client::PlainClient;
use crate::clients::{new_clients, numbered};
use crate::moves::move_of;
use ft_io::{Addr, NoMemory};
use ft_model::grammar::playable_schedules_start;
use ft_model::{Event, EventWhy, Schedule};
use plain_log::PlainLog;
use plain_packets::PlainPackets;
use server_trait::Service;
use std::alloc::Global;
use std::marker::Model;
use tcp_rules::Profile;

/// The world of a schedule's run.
#[derive(Drop)]
pub struct PlainWorld<S: Service> {
    /// The number of the service's kind.
    pub(crate) kind: u8,
    /// The server's address and port.
    pub(crate) server: Addr,
    /// The server's profile.
    pub(crate) profile: Profile,
    pub(crate) actors: Actors<S>,
    /// All packets that were sent.
    pub(crate) packets: PlainPackets,
    /// The largest boot number so far.
    pub(crate) boot: u64,
    /// How many events happened.
    pub(crate) turns: u32,
}

impl<S: Service> Model for PlainWorld<S> {
    ghost use Rattle.tcp_rules.specs.Profiles.{profile_of};
    ghost use Rattle.plain_world.specs.WorldState.{WorldState};

    ghost Value = { WorldState S };

    ghost view = { λ w. record {
      kind = w.kind;
      server = w.server;
      profile = profile_of w.profile;
      clients = w.actors.clients;
      log = w.actors.log;
      packets = w.packets;
      boot = w.boot;
      node = w.actors.node;
      turns = w.turns;
    } };
}

impl<S: Service> PlainWorld<S> {
    /// Creates the world before the first event of a schedule whose server doesn't last.
    pub fn new(alloc: Global, schedule: &Schedule) -> Result<PlainWorld<S>, NoMemory>
        requires playable { IsPlayable schedule.now }
        requires fleeting { schedule.now.lasting ≡ None }
        ensures { (events : List Asked) → IfOk result (λ w. IsAt (machines S.started S.after S.greeting) (record schedule.now { events = events }) [] w) }
    {
        // A theorem for the proof. It does nothing when it is called.
        playable_schedules_start();
        let clients = new_clients(alloc, schedule.server, schedule.clients.as_slice())?;
        Ok(PlainWorld {
            kind: schedule.service.number(),
            server: schedule.server,
            profile: schedule.profile,
            actors: Actors {
                clients,
                log: PlainLog::new(alloc),
                node: None,
            },
            packets: PlainPackets::new(alloc),
            boot: 0,
            turns: 0,
        })
    }

    /// Returns all packets that were sent.
    pub fn packets(&self) -> &PlainPackets
        ensures { result.now ≡ self.now.packets }
    {
        &self.packets
    }

    /// Returns the clients.
    pub fn clients(&self) -> &[PlainClient]
        ensures { result.now ≡ self.now.clients }
    {
        self.actors.clients.as_slice()
    }

    /// Returns the log.
    pub fn log(&self) -> &PlainLog
        ensures { result.now ≡ self.now.log }
    {
        &self.actors.log
    }

    /// Returns how many events happened.
    pub fn turns(&self) -> u32
        ensures { result ≡ self.now.turns }
    {
        self.turns
    }

    /// Returns why a client may not make the move that an event asks for, or `None` if it may.
    fn move_refusal(&self, number: u8, event: &Event) -> Option<EventWhy>
        requires { mover_of event.now ≡ Some number }
        ensures { result ≡ refusal_of_asked self.now.clients (move_asked event.now) }
    {
        let Some(client) = numbered(self.clients(), number) else {
            return Some(EventWhy::Client);
        };
        client.refusal(move_of(event)?)
    }

    /// Returns why a bit of a packet may not be changed, or `None` if it may.
    #[tactic(auto, using(plain_packets::proofs::Kept::kept_length))]
    fn flip_refusal(&self, number: u32, bit: u32) -> Option<EventWhy>
        ensures { (packets : List Packet) → self.now.packets ≡ map kept_wire packets → result ≡ refusal_lem (world_of self.now packets) (Flip number bit) }
    {
        let Some(wire) = self.packets.get(number) else {
            return Some(EventWhy::Packet);
        };
        if bit as usize / 8 >= wire.bytes().len() {
            return Some(EventWhy::Bit);
        }
        None
    }

    /// Returns why an event may not happen, given the packets whose wires are stored.
    fn refusal_now(&self, event: &Event) -> Option<EventWhy>
        ensures { (packets : List Packet) → self.now.packets ≡ map kept_wire packets → result ≡ refusal_lem (world_of self.now packets) event.now }
    {
        match *event {
            Event::Boot { .. } if self.actors.node.is_some() => Some(EventWhy::Up),
            Event::Boot { boot, .. } if boot <= self.boot => Some(EventWhy::Boot),
            Event::Boot { .. } => None,
            Event::Crash | Event::Tick if self.actors.node.is_none() => Some(EventWhy::Down),
            Event::Crash | Event::Tick => None,
            Event::Deliver { packet } if self.packets.get(packet).is_none() => {
                Some(EventWhy::Packet)
            }
            Event::Deliver { .. } => None,
            Event::Flip { packet, bit } => self.flip_refusal(packet, bit),
            Event::Begin { client, .. }
            | Event::Send { client, .. }
            | Event::Fin { client }
            | Event::Ack { client, .. }
            | Event::Reset { client } => self.move_refusal(client, event),
            Event::Stop { .. } => Some(EventWhy::Stop),
        }
    }

    /// Returns why an event may not happen, or `None` if it may.
    pub fn refusal(&self, event: &Event) -> Option<EventWhy>
        ensures { (schedule : Written) (trace : List Moment) → IsAt (machines S.started S.after S.greeting) schedule trace self.now
            → result ≡ refusal_lem (world_after (start_of schedule) trace) event.now }
    {
        self.refusal_now(event)
    }
}
