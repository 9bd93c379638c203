//! The effect of each event on the world.

ghost use Rattle.std.specs.Prelude.{◌≡◌, ◌<◌, ◌≤◌, ◌^◌, ℕ, None, Some, OnOk, List};
ghost use Rattle.ft_model.specs.Client.{mover_of};
ghost use Rattle.ft_model.specs.Legal.{machines, start_of, refusal as refusal_lem};
ghost use Rattle.ft_model.specs.Readable.{FitsEvent, FitsSchedule};
ghost use Rattle.ft_model.specs.World.{Moment, world_after};
ghost use Rattle.ft_model.specs.declared.event.Event.TheVariants.{Boot, Crash, Tick, Deliver, Flip};
ghost use Rattle.ft_model.specs.declared.schedule.Schedule.{Schedule as Written};
ghost use Rattle.plain_world.specs.Turns.{Does};
ghost use Rattle.plain_world.specs.WorldState.{IsAt, IsReady, Steps, IsServedUp, opened_of};

use crate::node::PlainNode;
use crate::world::PlainWorld;
use ft_io::NoMemory;
use ft_model::Event;
use plain_packets::PlainPackets;
use server_trait::Service;
use std::alloc::Global;

impl<S: Service> PlainWorld<S> {
    /// Starts the server.
    fn start(&mut self, alloc: Global, boot: u64, isn: u32) -> Result<(), NoMemory>
        ensures { OnOk result (Does (machines S.started S.after S.greeting) (Boot boot isn) self.old self.new) }
    {
        let node = PlainNode::booted(self.kind, self.server, self.profile, boot, isn);
        node.send_hello(alloc, &mut self.packets)?;
        self.boot = boot;
        self.actors.node = Some(node);
        Ok(())
    }

    /// Crashes the server. Its whole state is lost.
    fn crash(&mut self)
        ensures { Does (machines S.started S.after S.greeting) Crash self.old self.new }
    {
        self.actors.node = None;
    }

    /// Makes the server's clock tick.
    fn tick(&mut self, alloc: Global) -> Result<(), NoMemory>
        requires served { IsServedUp (machines S.started S.after S.greeting) self.old.node }
        requires few { opened_of self.old.node ≤ 2 ^ 32 }
        ensures { OnOk result (Does (machines S.started S.after S.greeting) Tick self.old self.new) }
    {
        self.actors.tick(alloc, &mut self.packets)
    }

    /// Delivers a packet to its addressee.
    fn deliver(&mut self, alloc: Global, number: u32) -> Result<(), NoMemory>
        requires served { IsServedUp (machines S.started S.after S.greeting) self.old.node }
        requires few { opened_of self.old.node ≤ 2 ^ 32 }
        ensures { OnOk result (Does (machines S.started S.after S.greeting) (Deliver number) self.old self.new) }
    {
        let mut sent = PlainPackets::new(alloc);
        let Some(wire) = self.packets.get(number) else {
            return Ok(());
        };
        self.actors.bring(alloc, wire, &mut sent)?;
        self.packets.append(sent)
    }

    /// Delivers a packet to its addressee, with one bit changed.
    fn flip(&mut self, alloc: Global, number: u32) -> Result<(), NoMemory>
        requires served { IsServedUp (machines S.started S.after S.greeting) self.old.node }
        requires few { opened_of self.old.node ≤ 2 ^ 32 }
        ensures { OnOk result ((bit : ℕ) → Does (machines S.started S.after S.greeting) (Flip number bit) self.old self.new) }
    {
        let mut sent = PlainPackets::new(alloc);
        let Some(wire) = self.packets.get(number) else {
            return Ok(());
        };
        self.actors.bring_flipped(alloc, wire, &mut sent)?;
        self.packets.append(sent)
    }

    /// Makes the move that an event asks for, by the client with this number.
    fn move_client(&mut self, alloc: Global, number: u8, event: &Event) -> Result<(), NoMemory>
        requires mover { mover_of event.now ≡ Some number }
        requires served { IsServedUp (machines S.started S.after S.greeting) self.old.node }
        ensures { OnOk result (Does (machines S.started S.after S.greeting) event.now self.old self.new) }
    {
        self.actors.make(alloc, number, event, &mut self.packets)
    }

    /// Performs an event that is allowed.
    fn act(&mut self, alloc: Global, event: &Event) -> Result<(), NoMemory>
        requires served { IsServedUp (machines S.started S.after S.greeting) self.old.node }
        requires few { opened_of self.old.node ≤ 2 ^ 32 }
        ensures { OnOk result (Does (machines S.started S.after S.greeting) event.now self.old self.new) }
    {
        match *event {
            Event::Boot { boot, isn } => self.start(alloc, boot, isn),
            Event::Crash => {
                self.crash();
                Ok(())
            }
            Event::Tick => self.tick(alloc),
            Event::Deliver { packet } => self.deliver(alloc, packet),
            Event::Flip { packet, .. } => self.flip(alloc, packet),
            Event::Begin { client, .. }
            | Event::Send { client, .. }
            | Event::Fin { client }
            | Event::Ack { client, .. }
            | Event::Reset { client } => self.move_client(alloc, client, event),
            Event::Stop { .. } => Ok(()),
        }
    }

    /// Performs an event that `refusal` allows. After `NoMemory` the world may only be dropped.
    pub fn step(&mut self, alloc: Global, event: &Event) -> Result<(), NoMemory>
        requires room { self.old.turns < 2 ^ 31 }
        requires ready { IsReady (machines S.started S.after S.greeting) self.old }
        ensures { OnOk result ((schedule : Written) (trace : List Moment) → IsAt (machines S.started S.after S.greeting) schedule trace self.old
            → FitsSchedule schedule → FitsEvent event.now
            → refusal_lem (world_after (start_of schedule) trace) event.now ≡ None
            → Steps (machines S.started S.after S.greeting) schedule trace event.now self.old self.new) }
    {
        self.act(alloc, event)?;
        self.turns += 1;
        Ok(())
    }
}
