//! A line of the crash table: the first events of a schedule, then a crash, with the stop of a logger or without, and a restart, after which the client
//! continues as long as it must.

use ft_io::NoMemory;
use ft_model::{Event, Phase};
use net_schedule::{StepEnd, World};
use server_trait::Saved;
use std::alloc::Global;
use test_data::Said;

/// The most packets of a run.
const PACKET_LIMIT: u32 = 200_000;

/// The number of the client whose accepted bytes are printed.
const CLIENT: u8 = 1;

/// The window that the client advertises, in bytes.
const WINDOW: u16 = 65_535;

/// A world, and how many of its packets were delivered.
#[derive(Drop)]
struct Driven<'a, S: Saved> {
    world: &'a mut World<S>,
    delivered: u32,
    /// Which of two loggers stops as the server crashes.
    stops: Option<u8>,
}

impl<S: Saved> Driven<'_, S> {
    /// Delivers each packet that wasn't, in order, until none is left.
    fn drain(&mut self, alloc: Global) -> Result<(), StepEnd> {
        for number in 1..PACKET_LIMIT {
            if number <= self.delivered {
                continue;
            }
            if self.world.packet(number).is_none() {
                return Ok(());
            }
            self.world.step(alloc, &Event::Deliver { packet: number })?;
            self.delivered = number;
        }
        Ok(())
    }

    /// An event, and all that it leads to.
    fn proceed(&mut self, alloc: Global, event: &Event) -> Result<(), StepEnd> {
        self.world.step(alloc, event)?;
        self.drain(alloc)
    }

    /// How many packets were sent.
    fn sent(&self) -> u32 {
        for number in 1..PACKET_LIMIT {
            if self.world.packet(number).is_none() {
                return number - 1;
            }
        }
        PACKET_LIMIT
    }

    /// The phase of the client, and how much the server has acknowledged of it.
    fn client(&self) -> (Phase, u32) {
        match self.world.client(CLIENT) {
            Some(client) => (client.phase(), client.acked()),
            None => (Phase::Reset, 0),
        }
    }

    /// The server crashes and restarts, and what it asks is answered.
    fn restart(&mut self, alloc: Global) -> Result<(), StepEnd> {
        self.delivered = self.sent();
        self.world.step(alloc, &Event::Crash)?;
        if let Some(part) = self.stops {
            self.world.step(alloc, &Event::Stop { part })?;
        }
        let boot = Event::Boot {
            boot: 2,
            isn: 900_000,
        };
        self.proceed(alloc, &boot)
    }

    /// The client opens, where it hasn't.
    fn reopen(&mut self, alloc: Global) -> Result<(), StepEnd> {
        if !matches!(self.client().0, Phase::New | Phase::Opening) {
            return Ok(());
        }
        let open = Event::Begin {
            client: CLIENT,
            window: WINDOW,
        };
        self.proceed(alloc, &open)
    }

    /// The client sends its five bytes, where none of them is acknowledged.
    fn send_again(&mut self, alloc: Global) -> Result<(), StepEnd> {
        if self.client().1 != 0 {
            return Ok(());
        }
        let send = Event::Send {
            client: CLIENT,
            from: 0,
            len: 5,
        };
        self.proceed(alloc, &send)
    }

    /// The client acknowledges what it has.
    fn acknowledge(&mut self, alloc: Global) -> Result<(), StepEnd> {
        let ack = Event::Ack {
            client: CLIENT,
            window: WINDOW,
        };
        self.proceed(alloc, &ack)
    }

    /// The server crashes and restarts, and the client continues as far as it must.
    fn crash(&mut self, alloc: Global) -> Result<(), StepEnd> {
        self.restart(alloc)?;
        self.reopen(alloc)?;
        self.acknowledge(alloc)?;
        self.send_again(alloc)?;
        self.acknowledge(alloc)
    }

    /// The first events of a schedule, and then a crash.
    fn play(&mut self, alloc: Global, events: &[Event]) -> Result<(), StepEnd> {
        for event in events {
            self.world.step(alloc, event)?;
        }
        self.crash(alloc)
    }

    /// What the client has accepted, with `|` for each line end, and the lengths of the reads of the log's first entry.
    fn write_outcome(&self, said: &mut Said) {
        if let Some(client) = self.world.client(CLIENT) {
            said.on_one_line(client.accepted());
        }
        said.add(b" in reads of");
        let log = self.world.log();
        if let Some(head) = log.entry(0) {
            write!(said, " {} bytes, {} reads\n", head.length, head.reads);
        }
    }
}

/// Plays the first events of a schedule in its world, then a crash, with the stop of a logger if one is named. Says what the client has at the end, or why an
/// event was refused.
pub(crate) fn play_crash<S: Saved>(
    alloc: Global,
    world: &mut World<S>,
    events: &[Event],
    stops: Option<u8>,
    said: &mut Said,
) -> Result<(), NoMemory> {
    let mut driven = Driven {
        world,
        delivered: 0,
        stops,
    };
    match driven.play(alloc, events) {
        Ok(()) => driven.write_outcome(said),
        Err(StepEnd::NoMemory) => return Err(NoMemory),
        Err(end) => write!(said, "{end:?}\n"),
    }
    Ok(())
}
