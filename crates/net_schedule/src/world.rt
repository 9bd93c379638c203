//! The world of a schedule: its clients, the network, the logger or loggers, and the server. A step is one event of the schedule. The world stores every
//! packet ever sent, as bytes.

ghost use Rattle.std.specs.Prelude.{◌≡◌, ◌≤◌, ◌<◌, ◌*◌, length, OnOk};
ghost use Rattle.seq_arith.specs.Damage.{flipped};
ghost use Rattle.schedule_network.specs.Loggers.{part_numbered};
ghost use Rattle.net_schedule.specs.Every.{every_in};

use crate::sending::keep_sent;
use ft_io::{Addr, Key, NoMemory};
use ft_model::{Event, EventWhy, Schedule, Way};
use limits::PACKET;
use logger_store::LogStore;
use peer_client::Client;
use schedule_network::{Logs, Packets, StepEnd, StepOut, keys_of, new_clients};
use seq_arith::{Grammar, flip};
use server_node::{Input, Node, TurnEnd};
use server_trait::{Saved, Service};
use std::alloc::Global;
use std::mem;
use tcp_rules::Profile;
use twin_log::Part;

/// The largest number of packets in a run.
const PACKET_LIMIT: usize = 200_000;

/// Replaces the contents of a buffer by these bytes.
fn refill(buffer: &mut Vec<u8>, bytes: &[u8]) -> Result<(), NoMemory>
    ensures { OnOk result (buffer.new.items ≡ bytes.now) }
{
    buffer.clear();
    buffer.extend_from_slice(bytes)?;
    Ok(())
}

/// Replaces the contents of a buffer by these bytes with one bit changed.
pub(crate) fn refill_flipped(buffer: &mut Vec<u8>, bytes: &[u8], bit: u32) -> Result<(), NoMemory>
    requires { bit < 8 * length bytes.now }
    ensures { OnOk result (buffer.new.items ≡ flipped bit bytes.now) }
{
    refill(buffer, bytes)?;
    flip(buffer, bit as usize);
    Ok(())
}

/// Returns the logger that a schedule means by a number, or `None` if it means none.
fn part_of(number: u8) -> Option<Part>
    ensures { result ≡ part_numbered number }
{
    match number {
        1 => Some(Part::Head),
        2 => Some(Part::Tail),
        _ => None,
    }
}

/// Returns after how many reads the server of a schedule makes a mark; 0 if it makes none, or if its service can't be saved.
fn every_of<S: Saved>(schedule: &Schedule) -> u32
    ensures { result ≡ every_in S.is_savable schedule.now }
{
    if schedule.twin || !S::savable() {
        return 0;
    }
    schedule.marks.unwrap_or(0)
}

/// The world of a schedule's run.
#[derive(Drop)]
pub struct World<S: Service> {
    kind: u8,
    server: Addr,
    profile: Profile,
    keys: Vec<Key>,
    clients: Vec<Client>,
    logs: Logs,
    packets: Packets,
    /// After how many reads the server makes a mark; 0 if it makes none.
    every: u32,
    boot: u64,
    node: Option<Node<S>>,
    /// A copy of the packet that is being delivered.
    copy: Vec<u8>,
    /// The buffer for the packet that a client sends.
    room: [u8; PACKET],
    ghost few: { length keys.items ≤ 16 },
}

impl<S: Saved> World<S> {
    ghost use Rattle.std.specs.Prelude.{◌≡◌, ℕ, ◌≤◌, ◌<◌, ◌+◌, ◌-◌, true, false, [], option_copied, length, Some, None, IfOk, IfErr, OnOk};
    ghost use Rattle.net_schedule.specs.Along.{StepsAlong, EndsAlong, TwinStepsAlong, TwinEndsAlong, MarkedStepsAlong, MarkedEndsAlong};
    ghost use Rattle.schedule_network.specs.AtNumber.{at_number};
    ghost use Rattle.net_schedule.specs.WorldView.{kept, services_of};
    ghost use Rattle.ft_model.specs.Client.{mover_of};
    ghost use Rattle.ft_model.specs.Playable.{IsPlayable};
    ghost use Rattle.ft_model.specs.World.{client_at};
    ghost use Rattle.ft_model.specs.declared.event.Event.TheVariants.{Boot, Crash, Tick, Deliver, Flip, Stop};
    ghost use Rattle.server_node.specs.Inputs.{input_of};
    ghost use Rattle.tcp_rules.specs.Profile.{grammar_of};
    ghost use Rattle.tcp_rules.specs.Profiles.{profile_of};
    ghost use Rattle.net_schedule.specs.Delivery.{delivered_to};
    ghost use Rattle.net_schedule.specs.Refinement.{KeepsAtRefusal};
    ghost use Rattle.net_schedule.specs.Step.{StandsAfter};
    ghost use Rattle.net_schedule.specs.Turns.{Serves, ActorsDo, ActorsDecline, ReportsLogger, Brings, Does, Declines};
    ghost use Rattle.net_schedule.specs.TwinStep.{TwinStandsAfter};
    ghost use Rattle.net_schedule.specs.MarkedRefinement.{marker_for};
    ghost use Rattle.node_serving.specs.Markers.{saving};
    ghost use Rattle.net_schedule.specs.MarkedStep.{MarkedStandsAfter};
    ghost use Rattle.server_node.specs.MarkedTurns.{marked_input_of};

    /// Creates the world in which a schedule starts whose server doesn't last: nothing was sent, nothing is logged, and the server is down. Each of its boots
    /// has the schedule's profile.
    pub fn new(alloc: Global, schedule: &Schedule) -> Result<World<S>, NoMemory>
        requires playable { IsPlayable schedule.now }
        requires fleeting { schedule.now.lasting ≡ None }
        requires few { length schedule.now.clients ≤ 16 }
        ensures one { IfOk result (λ w. schedule.now.twin ≡ false → schedule.now.marks ≡ None → StandsAfter (services_of w) schedule.now [] [] (kept w)) }
        ensures unmarked { IfOk result (λ w. schedule.now.twin ≡ false → every_in S.is_savable schedule.now ≡ 0
            → StandsAfter (services_of w) schedule.now [] [] (kept w)) }
        ensures two { IfOk result (λ w. schedule.now.twin ≡ true → TwinStandsAfter (services_of w) schedule.now [] [] (kept w)) }
        ensures marked { IfOk result (λ w. (every : ℕ) → S.is_savable ≡ true → schedule.now.twin ≡ false → schedule.now.marks ≡ Some every → 0 < every
            → MarkedStandsAfter (marker_for (saving S.form S.state_of S.is_savable) (services_of w) every) schedule.now [] [] (kept w)) }
    {
        let lines = schedule.clients.as_slice();
        let every = every_of::<S>(schedule);
        Ok(World {
            kind: schedule.service.number(),
            server: schedule.server,
            profile: schedule.profile,
            keys: keys_of(alloc, lines)?,
            clients: new_clients(alloc, schedule.server, lines)?,
            logs: Logs::new(alloc, schedule.profile.grammar(), schedule.twin, every > 0)?,
            packets: Packets::new(alloc),
            every,
            boot: 0,
            node: None,
            copy: Vec::new(alloc),
            room: [0; PACKET],
        })
    }

    /// Returns the bytes of packet `n`, counted from 1, or `None` if no such packet was sent.
    pub fn packet(&self, n: u32) -> Option<&[u8]>
        ensures { option_copied result ≡ at_number self.now.packets.bytes n }
    {
        self.packets.bytes(n)
    }

    /// Returns the direction of packet `n`, counted from 1, or `None` if no such packet was sent.
    pub fn way(&self, n: u32) -> Option<Way>
        ensures { result ≡ at_number self.now.packets.ways n }
    {
        self.packets.way(n)
    }

    /// Returns client `n`, counted from 1, or `None` if the schedule has no such client.
    pub fn client(&self, n: u8) -> Option<&Client>
        ensures { option_copied result ≡ client_at self.now.clients.items n }
    {
        if n == 0 {
            return None;
        }
        self.clients.get(usize::from(n) - 1)
    }

    /// Returns the log that serves; with marks, the full log.
    pub fn log(&self) -> &LogStore
        ensures { result.now ≡ (kept self.now).log }
    {
        self.logs.log()
    }

    /// Returns how the messages between server and log are written.
    pub fn grammar(&self) -> Grammar
        ensures { result ≡ grammar_of (profile_of self.now.profile) }
    {
        self.profile.grammar()
    }

    /// Returns the server, or `None` while it is down.
    pub fn node(&self) -> Option<&Node<S>>
        ensures { option_copied result ≡ self.now.node }
    {
        self.node.as_ref()
    }

    /// Starts the server, with its profile.
    fn boot(&mut self, alloc: Global, boot: u64, isn: u32) -> Result<(), StepEnd>
        ensures done { OnOk result (ActorsDo (saving S.form S.state_of S.is_savable) (Boot boot isn) self.old self.new) }
        ensures ends { IfErr result (ActorsDecline (saving S.form S.state_of S.is_savable) (Boot boot isn) self.old self.new) }
    {
        if self.node.is_some() {
            return Err(StepEnd::BadEvent(EventWhy::Up));
        }
        if boot <= self.boot {
            return Err(StepEnd::BadEvent(EventWhy::Boot));
        }
        let node = Node::boot_in(
            alloc,
            self.profile,
            boot,
            isn,
            self.kind,
            self.server,
            self.every,
        )?;
        if let Err(NoMemory) = keep_sent(&self.keys, node.sent(), &mut self.packets) {
            drop(node);
            return Err(StepEnd::NoMemory);
        }
        self.boot = boot;
        drop(self.node.replace(node));
        Ok(())
    }

    /// Crashes the server. Its whole state is lost.
    fn crash(&mut self) -> Result<(), StepEnd>
        ensures done { OnOk result (ActorsDo (saving S.form S.state_of S.is_savable) Crash self.old self.new) }
        ensures ends { IfErr result (ActorsDecline (saving S.form S.state_of S.is_savable) Crash self.old self.new) }
        ensures same { self.new.packets ≡ self.old.packets }
    {
        if self.node.is_none() {
            return Err(StepEnd::BadEvent(EventWhy::Down));
        }
        drop(self.node.take());
        Ok(())
    }

    /// Gives the server its turn on an input, if it is up. A fenced server stops; no server of a legal trace is fenced.
    fn serve(&mut self, alloc: Global, input: Input<'_>) -> Result<(), NoMemory>
        ensures { OnOk result (Serves (saving S.form S.state_of S.is_savable) (input_of (grammar_of (profile_of self.old.profile)) input.entry)
            (marked_input_of (grammar_of (profile_of self.old.profile)) input.entry) self.old self.new) }
    {
        let Some(node) = &mut self.node else {
            return Ok(());
        };
        match node.turn(alloc, input) {
            Ok(sent) => keep_sent(&self.keys, sent, &mut self.packets),
            Err(TurnEnd::NoMemory) => Err(NoMemory),
            Err(TurnEnd::Fenced { .. }) => {
                drop(self.node.take());
                Ok(())
            }
        }
    }

    /// Makes the server's clock tick.
    fn tick(&mut self, alloc: Global) -> Result<(), StepEnd>
        ensures done { OnOk result (ActorsDo (saving S.form S.state_of S.is_savable) Tick self.old self.new) }
        ensures ends { IfErr result (ActorsDecline (saving S.form S.state_of S.is_savable) Tick self.old self.new) }
    {
        if self.node.is_none() {
            return Err(StepEnd::BadEvent(EventWhy::Down));
        }
        self.serve(alloc, Input::Tick)?;
        Ok(())
    }

    /// Delivers bytes to the client with this number, if there is one.
    fn deliver_to_client(&mut self, alloc: Global, number: u8, bytes: &[u8]) -> Result<(), NoMemory>
        ensures { OnOk result (kept self.new ≡ record (kept self.old) { clients = delivered_to number bytes.now self.old.clients.items }) }
    {
        if number == 0 {
            return Ok(());
        }
        let place = usize::from(number);
        let count = self.clients.len();
        if place > count {
            return Ok(());
        }
        self.clients[place - 1].deliver(alloc, bytes)
    }

    /// Passes bytes of this direction to a logger, and stores what it sends.
    fn deliver_to_logger(&mut self, alloc: Global, way: Way, bytes: &[u8]) -> Result<(), NoMemory>
        ensures { OnOk result (ReportsLogger way bytes.now self.old self.new) }
    {
        self.logs.receive(alloc, self.profile.grammar(), way, bytes, &mut self.packets)
    }

    /// Passes bytes to the addressee of a packet with this direction.
    fn bring(&mut self, alloc: Global, way: Way, bytes: &[u8]) -> Result<(), NoMemory>
        ensures { OnOk result (Brings (saving S.form S.state_of S.is_savable) way bytes.now self.old self.new) }
    {
        match way {
            Way::ServerToClient(number) => self.deliver_to_client(alloc, number, bytes),
            Way::ClientToServer(_) => self.serve(alloc, Input::Packet(bytes)),
            Way::LoggerToServer => self.serve(alloc, Input::Message(bytes)),
            Way::ServerToLogger => self.deliver_to_logger(alloc, Way::ServerToLogger, bytes),
            Way::HeadToTail => self.deliver_to_logger(alloc, Way::HeadToTail, bytes),
            Way::TailToHead => self.deliver_to_logger(alloc, Way::TailToHead, bytes),
        }
    }

    /// Delivers a packet to its addressee. A server that is down receives nothing.
    fn deliver(&mut self, alloc: Global, number: u32) -> Result<(), StepEnd>
        ensures done { OnOk result (Does (saving S.form S.state_of S.is_savable) (Deliver number) self.old self.new) }
        ensures ends { IfErr result (Declines (saving S.form S.state_of S.is_savable) (Deliver number) self.old self.new) }
    {
        let Some(way) = self.packets.way(number) else {
            return Err(StepEnd::BadEvent(EventWhy::Packet));
        };
        let Some(bytes) = self.packets.bytes(number) else {
            return Err(StepEnd::BadEvent(EventWhy::Packet));
        };
        let mut copy = mem::replace(&mut self.copy, Vec::new(alloc));
        refill(&mut copy, bytes)?;
        self.bring(alloc, way, copy.as_slice())?;
        self.copy = copy;
        Ok(())
    }

    /// Delivers a packet to its addressee, with one bit changed.
    fn flip(&mut self, alloc: Global, number: u32, bit: u32) -> Result<(), StepEnd>
        ensures done { OnOk result (Does (saving S.form S.state_of S.is_savable) (Flip number bit) self.old self.new) }
        ensures ends { IfErr result (Declines (saving S.form S.state_of S.is_savable) (Flip number bit) self.old self.new) }
    {
        let Some(way) = self.packets.way(number) else {
            return Err(StepEnd::BadEvent(EventWhy::Packet));
        };
        let Some(bytes) = self.packets.bytes(number) else {
            return Err(StepEnd::BadEvent(EventWhy::Packet));
        };
        if bit as usize / 8 >= bytes.len() {
            return Err(StepEnd::BadEvent(EventWhy::Bit));
        }
        let mut copy = mem::replace(&mut self.copy, Vec::new(alloc));
        refill_flipped(&mut copy, bytes, bit)?;
        self.bring(alloc, way, copy.as_slice())?;
        self.copy = copy;
        Ok(())
    }

    /// Makes the client's move that an event asks for.
    fn make(&mut self, number: u8, event: &Event) -> Result<(), StepEnd>
        requires { mover_of event.now ≡ Some number }
        ensures done { OnOk result (ActorsDo (saving S.form S.state_of S.is_savable) event.now self.old self.new) }
        ensures ends { IfErr result (ActorsDecline (saving S.form S.state_of S.is_savable) event.now self.old self.new) }
    {
        if number == 0 {
            return Err(StepEnd::BadEvent(EventWhy::Client));
        }
        let place = usize::from(number);
        let count = self.clients.len();
        if place > count {
            return Err(StepEnd::BadEvent(EventWhy::Client));
        }
        let len = self.clients[place - 1].step(event, &mut self.room)?;
        self.packets
            .push(Way::ClientToServer(number), &self.room[..len.min(PACKET)])?;
        Ok(())
    }

    /// Stops one of two loggers. The other serves alone from now on.
    fn stop(&mut self, part: u8) -> Result<(), StepEnd>
        ensures done { OnOk result (Does (saving S.form S.state_of S.is_savable) (Stop part) self.old self.new) }
        ensures ends { IfErr result (Declines (saving S.form S.state_of S.is_savable) (Stop part) self.old self.new) }
        ensures same { self.new.packets ≡ self.old.packets }
    {
        let Some(part) = part_of(part) else {
            return Err(StepEnd::BadEvent(EventWhy::Stop));
        };
        let Logs::Two(pair) = &mut self.logs else {
            return Err(StepEnd::BadEvent(EventWhy::Stop));
        };
        if pair.has_stopped() {
            return Err(StepEnd::BadEvent(EventWhy::Stop));
        }
        pair.stop(part);
        Ok(())
    }

    /// Does one event, however many packets were sent. After `BadEvent` the world is unchanged. After another error it may only be dropped.
    pub(crate) fn act(&mut self, alloc: Global, event: &Event) -> Result<(), StepEnd>
        ensures done { OnOk result (Does (saving S.form S.state_of S.is_savable) event.now self.old self.new) }
        ensures ends { IfErr result (Declines (saving S.form S.state_of S.is_savable) event.now self.old self.new) }
    {
        match *event {
            Event::Boot { boot, isn } => self.boot(alloc, boot, isn),
            Event::Crash => self.crash(),
            Event::Tick => self.tick(alloc),
            Event::Deliver { packet } => self.deliver(alloc, packet),
            Event::Flip { packet, bit } => self.flip(alloc, packet, bit),
            Event::Begin { client, .. }
            | Event::Send { client, .. }
            | Event::Fin { client }
            | Event::Ack { client, .. }
            | Event::Reset { client } => self.make(client, event),
            Event::Stop { part } => self.stop(part),
        }
    }

    /// Returns the result of a step that began with `before` packets.
    fn counted(&self, before: usize) -> Result<StepOut, StepEnd>
        requires { before ≤ length self.now.packets.bytes }
        ensures first { IfOk result (λ out. out.first ≡ before + 1) }
        ensures count { IfOk result (λ out. out.count ≡ length self.now.packets.bytes - before) }
        ensures within { OnOk result (length self.now.packets.bytes ≤ 200000) }
        ensures over { IfErr result (λ end. (end ≡ StepEnd.PacketLimit) × (200000 < length self.now.packets.bytes)) }
    {
        let after = self.packets.len();
        if after > PACKET_LIMIT {
            return Err(StepEnd::PacketLimit);
        }
        Ok(StepOut {
            first: before as u32 + 1,
            count: (after - before) as u32,
        })
    }

    /// Does one event, which extends a legal trace. After `BadEvent` the world is unchanged. After another error it may only be dropped.
    pub fn step(&mut self, alloc: Global, event: &Event) -> Result<StepOut, StepEnd>
        ensures numbered { IfOk result (λ answer. answer.first + answer.count ≤ 200001) }
        ensures done { IfOk result (λ answer. StepsAlong event.now answer self.old self.new) }
        ensures ends { IfErr result (λ end. EndsAlong event.now end self.old self.new) }
        ensures twin_done { IfOk result (λ answer. TwinStepsAlong event.now answer self.old self.new) }
        ensures twin_ends { IfErr result (λ end. TwinEndsAlong event.now end self.old self.new) }
        ensures marked_done { IfOk result (λ answer. MarkedStepsAlong (saving S.form S.state_of S.is_savable) event.now answer self.old self.new) }
        ensures marked_ends { IfErr result (λ end. MarkedEndsAlong (saving S.form S.state_of S.is_savable) event.now end self.old self.new) }
        ensures keeps { IfErr result (KeepsAtRefusal (kept self.old) (kept self.new)) }
    {
        let before = self.packets.len();
        match self.act(alloc, event) {
            Ok(()) => self.counted(before),
            Err(end) => Err(end),
        }
    }
}
