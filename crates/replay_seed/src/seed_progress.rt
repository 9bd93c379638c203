//! Playing drawn events: the progress of a run, and one event after another.

ghost use Rattle.std.specs.Prelude.{◌≡◌, ℕ, ◌+◌, ◌*◌, ◌<◌, ◌≤◌, ◌^◌, Some, is_some, length, OnOk, IsErrOf};
ghost use Rattle.ft_model.specs.Client.{Client as Seen};
ghost use Rattle.ft_model.specs.World.{client_at};
ghost use Rattle.net_schedule.specs.WorldView.{kept};
ghost use Rattle.seq_arith.specs.Offset.{one_if};

use crate::asked::Asked;
use crate::dice::{Dice, ServerNow};
use crate::seed_run::SeedEnd;
use ft_model::Event;
use net_schedule::{StepEnd, StepOut, World};
use sample_servers::AnyService;
use std::alloc::Global;

/// The progress of a run: the dice, and the counts over the events that were played.
#[derive(Clone, Copy)]
pub(crate) struct Progress {
    pub dice: Dice,
    /// Packets sent.
    pub packets: u32,
    /// Boots of the server, and crashes.
    pub boots: u64,
    pub crashes: u64,
}

impl Progress {
    ghost use Rattle.replay_seed.specs.SeedSummaries.{StandsBehind, IsPastLimit};
    ghost use Rattle.replay_seed.specs.SummaryText.{is_boot, is_crash};
    ghost use Rattle.replay_seed.specs.SeedEvents.{next_event as next_lem};

    pub fn new(dice: Dice) -> Progress
        ensures { result ≡ record { dice = dice; packets = 0; boots = 0; crashes = 0 } }
    {
        Progress {
            dice,
            packets: 0,
            boots: 0,
            crashes: 0,
        }
    }

    /// Draws the next event.
    fn next_event(&mut self, world: &World<AnyService>, clients: u8) -> Event
        requires clients { (clients ≡ length world.now.clients.items) × (0 < clients) }
        requires totals { (n : ℕ) (c : Seen) → client_at world.now.clients.items n ≡ Some c → length c.script ≡ 1000 * n }
        requires boots { self.old.boots < 2 ^ 32 }
        ensures drawn { record { event = result; state = self.new.dice.draws.state }
            ≡ next_lem self.old.dice.draws.state self.old.packets world.now.clients.items (record { is_up = is_some world.now.node; boots = self.old.boots }) }
        ensures counts { self.new ≡ record self.old { dice = self.new.dice } }
    {
        let server = ServerNow {
            is_up: world.node().is_some(),
            boots: self.boots,
        };
        self.dice.next_event(world, self.packets, clients, server)
    }

    /// Counts an event that was played.
    fn count(&mut self, event: &Event, answer: StepOut)
        requires packets { self.old.packets + answer.count < 2 ^ 32 }
        requires events { (self.old.boots < 2 ^ 32) × (self.old.crashes < 2 ^ 32) }
        ensures { self.new ≡ record self.old {
          packets = self.old.packets + answer.count;
          boots = self.old.boots + one_if (is_boot event.now);
          crashes = self.old.crashes + one_if (is_crash event.now);
        } }
    {
        self.packets += answer.count;
        match event {
            Event::Boot { .. } => self.boots += 1,
            Event::Crash => self.crashes += 1,
            _ => {}
        }
    }

    /// Plays event number `n`, counted from 0. The event is never refused.
    pub(crate) fn play_event(
        &mut self,
        alloc: Global,
        asked: Asked,
        n: u32,
        world: &mut World<AnyService>,
    ) -> Result<(), SeedEnd>
        requires stands { StandsBehind asked n (kept world.old) self.old }
        requires few { n < asked.events }
        requires limits { (0 < asked.clients) × (asked.clients ≤ 16) × (asked.events ≤ 20000) }
        ensures done { OnOk result (StandsBehind asked (n + 1) (kept world.new) self.new) }
        ensures past { IsErrOf result SeedEnd.PacketLimit → IsPastLimit asked }
        ensures no_usage { IsErrOf result SeedEnd.Usage → ⊥ }
        ensures no_fault { IsErrOf result SeedEnd.WriteFault → ⊥ }
    {
        let event = self.next_event(world, asked.clients);
        match world.step(alloc, &event) {
            Ok(answer) => {
                self.count(&event, answer);
                Ok(())
            }
            Err(StepEnd::NoMemory) => Err(SeedEnd::NoMemory),
            Err(StepEnd::PacketLimit) => Err(SeedEnd::PacketLimit),
            Err(StepEnd::BadEvent(_)) => unreachable!(),
        }
    }

    /// Plays all events, in the world in which the schedule starts.
    pub fn play(
        &mut self,
        alloc: Global,
        asked: Asked,
        world: &mut World<AnyService>,
    ) -> Result<(), SeedEnd>
        requires stands { StandsBehind asked 0 (kept world.old) self.old }
        requires limits { (0 < asked.clients) × (asked.clients ≤ 16) × (asked.events ≤ 20000) }
        ensures done { OnOk result (StandsBehind asked asked.events (kept world.new) self.new) }
        ensures past { IsErrOf result SeedEnd.PacketLimit → IsPastLimit asked }
        ensures no_usage { IsErrOf result SeedEnd.Usage → ⊥ }
        ensures no_fault { IsErrOf result SeedEnd.WriteFault → ⊥ }
    {
        for n in 0..asked.events {
            self.play_event(alloc, asked, n, world)?;
        }
        Ok(())
    }
}
