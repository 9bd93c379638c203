//! The world of a schedule whose server lasts. A step is one event of the schedule.

ghost use Rattle.std.specs.Prelude.{◌≡◌, ◌≤◌, ◌<◌, ◌*◌, length, OnOk};
ghost use Rattle.ft_model.specs.Readable.{FitsEvent};
ghost use Rattle.seq_arith.specs.Damage.{flipped};

use crate::gone::GoneEntry;
use crate::guest::Guest;
use crate::sending::store_sent;
use crate::surroundings::Surroundings;
use ft_io::{Addr, Key, NoMemory};
use ft_model::{Event, EventWhy, Lasting, Schedule, Way};
use lasting_node::{LastingNode, Patience};
use lasting_unseen::{lasting_parcels_are_written, lasting_premises_hold};
use limits::PACKET;
use logger_store::LogStore;
use node_serving::Identity;
use schedule_network::{StepEnd, StepOut};
use seq_arith::{Grammar, flip};
use server_node::{Input, TurnEnd};
use server_trait::{Saved, Service};
use std::alloc::Global;
use std::mem;

/// The largest number of packets in a run.
const PACKET_LIMIT: usize = 200_000;

/// Replaces the contents of a buffer by these bytes.
fn refill(buffer: &mut Vec<u8>, bytes: &[u8]) -> Result<(), NoMemory>
    ensures { OnOk result (buffer.new.items ≡ bytes.now) }
{
    buffer.clear();
    buffer.extend_from_slice(bytes)?;
    Ok(())
}

/// Replaces the contents of a buffer by these bytes with one bit changed.
fn refill_flipped(buffer: &mut Vec<u8>, bytes: &[u8], bit: u32) -> Result<(), NoMemory>
    requires { bit < 8 * length bytes.now }
    ensures { OnOk result (buffer.new.items ≡ flipped bit bytes.now) }
{
    refill(buffer, bytes)?;
    flip(buffer, bit as usize);
    Ok(())
}

/// A fact for proofs: an event's numbers fit their types. Each is read, since the range of what is read is known.
fn numbers_fit(event: &Event)
    ensures { FitsEvent event.now }
{
    match *event {
        Event::Boot { boot, isn } => {
            let (_boot, _isn) = (boot, isn);
        }
        Event::Crash => {}
        Event::Tick => {}
        Event::Deliver { packet } => {
            let _packet = packet;
        }
        Event::Flip { packet, bit } => {
            let (_packet, _bit) = (packet, bit);
        }
        Event::Begin { client, window } => {
            let (_client, _window) = (client, window);
        }
        Event::Send { client, from, len } => {
            let (_client, _from, _len) = (client, from, len);
        }
        Event::Fin { client } => {
            let _client = client;
        }
        Event::Ack { client, window } => {
            let (_client, _window) = (client, window);
        }
        Event::Reset { client } => {
            let _client = client;
        }
        Event::Stop { part } => {
            let _part = part;
        }
    }
}

/// The world of a schedule whose server lasts.
#[derive(Drop)]
pub struct World<S: Service> {
    /// Of the service.
    kind: u8,
    server: Addr,
    patience: Patience,
    around: Surroundings,
    /// The largest boot number so far.
    boot: u64,
    node: Option<LastingNode<S>>,
    /// A packet under way.
    copy: Vec<u8>,
    /// A client's packet.
    room: [u8; PACKET],
    ghost waits: { 1 ≤ patience.wait },
    ghost counts: { patience.wait ≤ 4294967295 },
    ghost bounded: { patience.silence ≤ 100000000 },
}

impl<S: Saved> World<S> {
    ghost use Rattle.std.specs.Prelude.{◌+◌, ◌-◌, [], true, Some, IfOk, IfErr, option_copied, slice_get};
    ghost use Rattle.ft_model.specs.Client.{mover_of};
    ghost use Rattle.ft_model.specs.Playable.{IsPlayable};
    ghost use Rattle.ft_model.specs.declared.event.Event.TheVariants.{Boot, Crash, Tick, Deliver, Flip};
    ghost use Rattle.lasting_node.specs.Turns.{lasting_input_of};
    ghost use Rattle.schedule_network.specs.AtNumber.{at_number};
    ghost use Rattle.tcp_rules.specs.Profile.{grammar_of};
    ghost use Rattle.tcp_rules.specs.Profiles.{profile_of};
    ghost use Rattle.lasting_world.specs.Along.{StandsAfter, StepsAlong, EndsAlong};
    ghost use Rattle.lasting_world.specs.Steps.{Serves, Brings, Does, Declines, KeepsSent, wires_kept, KeepsAtRefusal};
    ghost use Rattle.lasting_world.specs.WorldView.{kept, service_of, services_of};

    /// Creates the world in which a schedule starts: nothing was sent, nothing is logged, and the server is down.
    pub fn new(alloc: Global, schedule: &Schedule, waits: Lasting) -> Result<World<S>, NoMemory>
        requires playable { IsPlayable schedule.now }
        requires few { length schedule.now.clients ≤ 16 }
        requires wait { 1 ≤ waits.wait }
        requires silence { waits.silence ≤ 100000 }
        ensures { IfOk result (λ w. StandsAfter (services_of w) waits schedule.now [] [] (kept w)) }
    {
        Ok(World {
            kind: schedule.service.number(),
            server: schedule.server,
            patience: Patience {
                wait: waits.wait,
                silence: waits.silence,
            },
            around: Surroundings::new(alloc, schedule)?,
            boot: 0,
            node: None,
            copy: Vec::new(alloc),
            room: [0; PACKET],
        })
    }

    /// Returns the bytes of packet `n`, counted from 1, or `None` if no such packet was sent.
    pub fn packet(&self, n: u32) -> Option<&[u8]>
        ensures { option_copied result ≡ at_number self.now.around.network.packets.bytes n }
    {
        self.around.network.bytes(n)
    }

    /// Returns the direction of packet `n`, counted from 1, or `None` if no such packet was sent.
    pub fn way(&self, n: u32) -> Option<Way>
        ensures { result ≡ at_number self.now.around.network.packets.ways n }
    {
        self.around.network.way(n)
    }

    /// Returns the grammar of the messages between server and logger.
    pub fn grammar(&self) -> Grammar
        ensures { result ≡ grammar_of (profile_of self.now.around.profile) }
    {
        self.around.grammar()
    }

    /// Returns the client at place `i`, counted from 0, or `None` if the schedule has no such client.
    pub fn guest(&self, i: u8) -> Option<&Guest>
        ensures { option_copied result ≡ slice_get self.now.around.guests.items i }
    {
        self.around.guests.get(usize::from(i))
    }

    /// Returns the recycled entries, in this order.
    pub fn gone(&self) -> &[GoneEntry]
        ensures { result.now ≡ self.now.around.gone.items }
    {
        self.around.gone.as_slice()
    }

    /// Returns the log.
    pub fn log(&self) -> &LogStore
        ensures { result.now ≡ self.now.around.log }
    {
        &self.around.log
    }

    /// Starts the server, with its profile.
    fn boot(&mut self, alloc: Global, boot: u64, isn: u32) -> Result<(), StepEnd>
        ensures done { OnOk result (Does (service_of self.old) (Boot boot isn) (kept self.old) (kept self.new)) }
        ensures ends { IfErr result (Declines (service_of self.old) (Boot boot isn) (kept self.old) (kept self.new)) }
    {
        if self.node.is_some() {
            return Err(StepEnd::BadEvent(EventWhy::Up));
        }
        if boot <= self.boot {
            return Err(StepEnd::BadEvent(EventWhy::Boot));
        }
        let who = Identity {
            boot,
            isn,
            kind: self.kind,
            local: self.server,
            profile: self.around.profile,
        };
        drop(
            self.node
                .replace(LastingNode::boot(alloc, who, self.patience)?),
        );
        self.boot = boot;
        Ok(self.keep_sent()?)
    }

    /// Crashes the server. Its whole state is lost.
    fn crash(&mut self) -> Result<(), StepEnd>
        ensures done { OnOk result (Does (service_of self.old) Crash (kept self.old) (kept self.new)) }
        ensures ends { IfErr result (Declines (service_of self.old) Crash (kept self.old) (kept self.new)) }
    {
        if self.node.is_none() {
            return Err(StepEnd::BadEvent(EventWhy::Down));
        }
        drop(self.node.take());
        Ok(())
    }

    /// Stores what the server sent in its last turn.
    fn keep_sent(&mut self) -> Result<(), NoMemory>
        ensures { OnOk result (KeepsSent (wires_kept self.old.node) (kept self.old) (kept self.new)) }
    {
        let Some(node) = &self.node else {
            return Ok(());
        };
        store_sent(&mut self.around, node.sent())
    }

    /// Gives the server its turn on an input, if it is up. A fenced server stops; no server of a legal trace is fenced.
    fn serve(&mut self, alloc: Global, input: Input<'_>) -> Result<(), NoMemory>
        ensures { OnOk result (Serves (service_of self.old) (lasting_input_of (grammar_of (profile_of self.old.around.profile)) input.entry)
            (kept self.old) (kept self.new)) }
    {
        let Some(node) = &mut self.node else {
            return Ok(());
        };
        match node.turn(alloc, input) {
            Ok(()) => self.keep_sent(),
            Err(TurnEnd::NoMemory) => Err(NoMemory),
            Err(TurnEnd::Fenced { .. }) => {
                drop(self.node.take());
                Ok(())
            }
        }
    }

    /// Makes the server's clock tick.
    fn tick(&mut self, alloc: Global) -> Result<(), StepEnd>
        ensures done { OnOk result (Does (service_of self.old) Tick (kept self.old) (kept self.new)) }
        ensures ends { IfErr result (Declines (service_of self.old) Tick (kept self.old) (kept self.new)) }
    {
        if self.node.is_none() {
            return Err(StepEnd::BadEvent(EventWhy::Down));
        }
        Ok(self.serve(alloc, Input::Tick)?)
    }

    /// Passes bytes to the addressee of a packet with this direction, which concerns this connection.
    fn bring(
        &mut self,
        alloc: Global,
        way: Way,
        about: Option<Key>,
        bytes: &[u8],
    ) -> Result<(), NoMemory>
        ensures { OnOk result (Brings (service_of self.old) way about bytes.now (kept self.old) (kept self.new)) }
    {
        match way {
            Way::ServerToClient(_) => match about {
                Some(key) => self.around.deliver_to_client(alloc, key, bytes),
                None => Ok(()),
            },
            Way::ClientToServer(_) => self.serve(alloc, Input::Packet(bytes)),
            Way::LoggerToServer => self.serve(alloc, Input::Message(bytes)),
            Way::ServerToLogger => self.around.deliver_to_log(alloc, bytes),
            Way::HeadToTail => Ok(()),
            Way::TailToHead => Ok(()),
        }
    }

    /// Delivers a packet to its addressee, unless it is lost. A server that is down receives nothing.
    fn deliver(&mut self, alloc: Global, number: u32) -> Result<(), StepEnd>
        ensures done { OnOk result (Does (service_of self.old) (Deliver number) (kept self.old) (kept self.new)) }
        ensures ends { IfErr result (Declines (service_of self.old) (Deliver number) (kept self.old) (kept self.new)) }
    {
        let Some(way) = self.around.network.way(number) else {
            return Err(StepEnd::BadEvent(EventWhy::Packet));
        };
        if self.around.network.is_lost(number) {
            return Ok(());
        }
        let about = self.around.network.about(number);
        let mut copy = mem::replace(&mut self.copy, Vec::new(alloc));
        let Some(bytes) = self.around.network.bytes(number) else {
            return Err(StepEnd::BadEvent(EventWhy::Packet));
        };
        refill(&mut copy, bytes)?;
        self.bring(alloc, way, about, copy.as_slice())?;
        self.copy = copy;
        Ok(())
    }

    /// Delivers a packet to its addressee, with one bit changed, unless it is lost.
    fn flip(&mut self, alloc: Global, number: u32, bit: u32) -> Result<(), StepEnd>
        ensures done { OnOk result (Does (service_of self.old) (Flip number bit) (kept self.old) (kept self.new)) }
        ensures ends { IfErr result (Declines (service_of self.old) (Flip number bit) (kept self.old) (kept self.new)) }
    {
        let around = &self.around;
        let Some(way) = around.network.way(number) else {
            return Err(StepEnd::BadEvent(EventWhy::Packet));
        };
        let Some(bytes) = around.network.bytes(number) else {
            return Err(StepEnd::BadEvent(EventWhy::Packet));
        };
        if bit as usize / 8 >= bytes.len() {
            return Err(StepEnd::BadEvent(EventWhy::Bit));
        }
        if around.network.is_lost(number) {
            return Ok(());
        }
        let about = around.network.about(number);
        let mut copy = mem::replace(&mut self.copy, Vec::new(alloc));
        refill_flipped(&mut copy, bytes, bit)?;
        self.bring(alloc, way, about, copy.as_slice())?;
        self.copy = copy;
        Ok(())
    }

    /// Makes the client's move that an event asks for.
    fn make(&mut self, number: u8, event: &Event) -> Result<(), StepEnd>
        requires { mover_of event.now ≡ Some number }
        ensures done { OnOk result (Does (service_of self.old) event.now (kept self.old) (kept self.new)) }
        ensures ends { IfErr result (Declines (service_of self.old) event.now (kept self.old) (kept self.new)) }
    {
        self.around.make(number, event, &mut self.room)
    }

    /// Does one event, however many packets were sent. After `BadEvent` the world is unchanged. After another error it may only be dropped.
    fn act(&mut self, alloc: Global, event: &Event) -> Result<(), StepEnd>
        ensures done { OnOk result (Does (service_of self.old) event.now (kept self.old) (kept self.new)) }
        ensures ends { IfErr result (Declines (service_of self.old) event.now (kept self.old) (kept self.new)) }
    {
        match *event {
            Event::Boot { boot, isn } => self.boot(alloc, boot, isn),
            Event::Crash => self.crash(),
            Event::Tick => self.tick(alloc),
            Event::Deliver { packet } => self.deliver(alloc, packet),
            Event::Flip { packet, bit } => self.flip(alloc, packet, bit),
            Event::Begin { client, .. }
            | Event::Send { client, .. }
            | Event::Fin { client }
            | Event::Ack { client, .. }
            | Event::Reset { client } => self.make(client, event),
            Event::Stop { .. } => Err(StepEnd::BadEvent(EventWhy::Stop)),
        }
    }

    /// Returns the result of a step that began with `before` packets. Those that it sent are the last ones.
    fn counted(&self, before: usize) -> Result<StepOut, StepEnd>
        ensures last { IfOk result (λ out. out.first + out.count ≡ length self.now.around.network.packets.bytes + 1) }
        ensures count { IfOk result (λ out. out.count ≡ length self.now.around.network.packets.bytes - before) }
        ensures within { OnOk result (length self.now.around.network.packets.bytes ≤ 200000) }
        ensures over { IfErr result (λ end. (end ≡ StepEnd.PacketLimit) × (200000 < length self.now.around.network.packets.bytes)) }
    {
        let after = self.around.network.packets.len();
        if after > PACKET_LIMIT {
            return Err(StepEnd::PacketLimit);
        }
        let count = after.saturating_sub(before);
        Ok(StepOut {
            first: (after - count) as u32 + 1,
            count: count as u32,
        })
    }

    /// Does one event, which extends a legal trace. After `BadEvent` the world is unchanged. After another error it may only be dropped.
    pub fn step(&mut self, alloc: Global, event: &Event) -> Result<StepOut, StepEnd>
        ensures numbered { IfOk result (λ answer. answer.first + answer.count ≤ 200001) }
        ensures done { IfOk result (λ answer. StepsAlong (services_of self.old) event.now answer (kept self.old) (kept self.new)) }
        ensures ends { IfErr result (λ end. EndsAlong (services_of self.old) event.now end (kept self.old) (kept self.new)) }
        ensures keeps { IfErr result (KeepsAtRefusal (kept self.old) (kept self.new)) }
    {
        // Theorems for the proof. They do nothing when they are called.
        lasting_premises_hold::<S>();
        lasting_parcels_are_written::<S>();
        numbers_fit(event);
        let before = self.around.network.packets.len();
        match self.act(alloc, event) {
            Ok(()) => self.counted(before),
            Err(end) => Err(end),
        }
    }
}
