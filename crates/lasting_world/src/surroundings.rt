//! What the world has beside its server: the clients, the log and the network.

ghost use Rattle.std.specs.Prelude.{◌≤◌, length};

use crate::about::key_of_message;
use crate::gone::{GoneEntry, entry_to_go};
use crate::guest::{Guest, is_off, new_guests, number_of, place_of};
use crate::network::Network;
use forget_store::{AnswerOut, answer};
use ft_io::{Key, NoMemory};
use ft_model::{Event, EventWhy, Schedule, Way};
use limits::PACKET;
use logger_store::LogStore;
use schedule_network::StepEnd;
use seq_arith::Grammar;
use std::alloc::Global;
use tcp_rules::Profile;

/// The clients, the log and the network.
#[derive(Drop)]
pub struct Surroundings {
    pub profile: Profile,
    pub guests: Vec<Guest>,
    pub log: LogStore,
    /// The log's answer in a turn.
    out: AnswerOut,
    /// What was recycled, in this order.
    pub gone: Vec<GoneEntry>,
    pub network: Network,
    ghost few: { length guests.items ≤ 16 },
}

impl Surroundings {
    ghost use Rattle.std.specs.Prelude.{◌≡◌, Some, IfErr, IfOk, OnOk};
    ghost use Rattle.ft_model.specs.declared.schedule.Lasting.{Lasting as Waits};
    ghost use Rattle.ft_model.specs.Client.{mover_of};
    ghost use Rattle.ft_model.specs.Log.{entry_of};
    ghost use Rattle.ft_model.specs.Playable.{IsPlayable};
    ghost use Rattle.ft_model.specs.declared.way.Way.TheVariants.{ServerToClient};
    ghost use Rattle.tcp_rules.specs.Profile.{grammar_of};
    ghost use Rattle.tcp_rules.specs.Profiles.{profile_of};
    ghost use Rattle.lasting_laws.specs.LastingLegal.{lasting_start};
    ghost use Rattle.lasting_world.specs.Around.{AroundStands, Adds, AddsMessage, ReportsClient, ReportsLog, MakesMove, DeclinesMove, kept_around};
    ghost use Rattle.lasting_world.specs.LogTurns.{Parts, Recycles, RecyclesUnless, TakesAbout, LogTakes, StoresAnswer, answer_of, log_then, with_log};
    ghost use Rattle.lasting_world.specs.Guests.{last_come};

    /// Those in which a schedule starts: no client has come, nothing is logged, and nothing was sent.
    pub(crate) fn new(alloc: Global, schedule: &Schedule) -> Result<Surroundings, NoMemory>
        requires playable { IsPlayable schedule.now }
        requires few { length schedule.now.clients ≤ 16 }
        ensures stands { IfOk result (λ around. (waits : Waits) → AroundStands (lasting_start waits schedule.now) (kept_around around)) }
        ensures profile { IfOk result (λ around. around.profile ≡ schedule.now.profile) }
    {
        Ok(Surroundings {
            profile: schedule.profile,
            guests: new_guests(alloc, schedule.server, schedule.clients.as_slice())?,
            log: LogStore::new(alloc),
            out: AnswerOut::new(),
            gone: Vec::new(alloc),
            network: Network::new(alloc),
        })
    }

    /// Returns the grammar of the messages between server and logger.
    pub(crate) fn grammar(&self) -> Grammar
        ensures { result ≡ grammar_of (profile_of self.now.profile) }
    {
        self.profile.grammar()
    }

    /// Stores a segment to the client at an address.
    pub(crate) fn send_to_client(&mut self, key: Key, bytes: &[u8]) -> Result<(), NoMemory>
        ensures { OnOk result (Adds (ServerToClient (last_come 1 key 0 self.old.guests.items)) (Some key) bytes.now
            (kept_around self.old) (kept_around self.new)) }
    {
        let way = Way::ServerToClient(number_of(&self.guests, key));
        self.network.push(way, Some(key), bytes)
    }

    /// Stores a message to the log, or from it.
    pub(crate) fn send_message(&mut self, way: Way, bytes: &[u8]) -> Result<(), NoMemory>
        ensures { OnOk result (AddsMessage way bytes.now (kept_around self.old) (kept_around self.new)) }
    {
        let about = key_of_message(self.profile.grammar(), bytes);
        self.network.push(way, about, bytes)
    }

    /// Delivers bytes to the client that is at an address, if there is one.
    pub(crate) fn deliver_to_client(
        &mut self,
        alloc: Global,
        key: Key,
        bytes: &[u8],
    ) -> Result<(), NoMemory>
        ensures { OnOk result (ReportsClient key bytes.now (kept_around self.old) (kept_around self.new)) }
    {
        match place_of(&self.guests, key) {
            Some(place) => self.guests[place].client.deliver(alloc, bytes),
            None => Ok(()),
        }
    }

    /// Passes bytes to the log, and stores what it answers. If that has an entry recycled, its client is gone, and what is under way of its connection is lost.
    pub(crate) fn deliver_to_log(&mut self, alloc: Global, bytes: &[u8]) -> Result<(), NoMemory>
        ensures { OnOk result (ReportsLog bytes.now (kept_around self.old) (kept_around self.new)) }
    {
        self.take(alloc, bytes)?;
        self.keep_answer()
    }

    /// Lets the log take bytes. An entry that they have recycled is told.
    fn take(&mut self, alloc: Global, bytes: &[u8]) -> Result<(), NoMemory>
        ensures taken { OnOk result (LogTakes bytes.now (kept_around self.old) (kept_around self.new)) }
        ensures answer { OnOk result (self.new.out ≡ answer_of bytes.now (kept_around self.old)) }
    {
        match key_of_message(self.profile.grammar(), bytes) {
            Some(key) => self.change_log(alloc, key, bytes),
            None => self.answer(alloc, bytes),
        }
    }

    /// Lets the log take bytes, and answer them.
    fn answer(&mut self, alloc: Global, bytes: &[u8]) -> Result<(), NoMemory>
        ensures log { OnOk result (kept_around self.new ≡ with_log (log_then bytes.now (kept_around self.old)) (kept_around self.old)) }
        ensures answer { OnOk result (self.new.out ≡ answer_of bytes.now (kept_around self.old)) }
    {
        let grammar = self.profile.grammar();
        answer(&mut self.log, alloc, grammar, bytes, &mut self.out)
    }

    /// Lets the log take bytes about the connection of a key, which may have its entry recycled.
    fn change_log(&mut self, alloc: Global, key: Key, bytes: &[u8]) -> Result<(), NoMemory>
        ensures log { OnOk result (TakesAbout (Some key) (log_then bytes.now (kept_around self.old)) (kept_around self.old) (kept_around self.new)) }
        ensures answer { OnOk result (self.new.out ≡ answer_of bytes.now (kept_around self.old)) }
    {
        match entry_to_go(alloc, &self.log, key)? {
            Some(entry) => {
                self.answer(alloc, bytes)?;
                self.recycle_if_gone(key, entry)
            }
            None => self.answer(alloc, bytes),
        }
    }

    /// Stores what the log answers, if it does.
    fn keep_answer(&mut self) -> Result<(), NoMemory>
        ensures { OnOk result (StoresAnswer self.old.out (kept_around self.old) (kept_around self.new)) }
    {
        let said = self.out.bytes();
        if said.is_empty() {
            return Ok(());
        }
        let about = key_of_message(self.profile.grammar(), said);
        self.network.push(Way::LoggerToServer, about, said)
    }

    /// The log had this entry of a key. If it has none any more, it was recycled.
    fn recycle_if_gone(&mut self, key: Key, entry: GoneEntry) -> Result<(), NoMemory>
        ensures recycled { OnOk result (RecyclesUnless (entry_of key self.old.log) key entry (kept_around self.old) (kept_around self.new)) }
        ensures answer { OnOk result (self.new.out ≡ self.old.out) }
    {
        if self.log.head_of(key).is_some() {
            return Ok(());
        }
        self.recycle(key, entry)
    }

    /// The entry of a key was recycled: the client that is there is gone, and what is under way of its connection is lost.
    fn recycle(&mut self, key: Key, entry: GoneEntry) -> Result<(), NoMemory>
        ensures recycled { OnOk result (Recycles key entry (kept_around self.old) (kept_around self.new)) }
        ensures answer { OnOk result (self.new.out ≡ self.old.out) }
    {
        self.gone.push(entry)?;
        self.part(key);
        self.network.lose(key)
    }

    /// The client that is at an address is gone.
    fn part(&mut self, key: Key)
        ensures parts { Parts key (kept_around self.old) (kept_around self.new) }
        ensures answer { self.new.out ≡ self.old.out }
    {
        match place_of(&self.guests, key) {
            Some(place) => self.guests[place].gone = true,
            None => {}
        }
    }

    /// Makes the client's move that an event asks for. A client that is gone, or whose turn at its address hasn't come, makes none.
    pub(crate) fn make(
        &mut self,
        number: u8,
        event: &Event,
        room: &mut [u8; PACKET],
    ) -> Result<(), StepEnd>
        requires { mover_of event.now ≡ Some number }
        ensures done { OnOk result (MakesMove event.now (kept_around self.old) (kept_around self.new)) }
        ensures ends { IfErr result (DeclinesMove event.now (kept_around self.old) (kept_around self.new)) }
    {
        if number == 0 {
            return Err(StepEnd::BadEvent(EventWhy::Client));
        }
        let place = usize::from(number);
        let count = self.guests.len();
        if place > count {
            return Err(StepEnd::BadEvent(EventWhy::Client));
        }
        if is_off(&self.guests, place - 1) {
            return Err(StepEnd::BadEvent(EventWhy::State));
        }
        let key = self.guests[place - 1].key;
        let len = self.guests[place - 1].client.step(event, room)?;
        self.network.push(
            Way::ClientToServer(number),
            Some(key),
            &room[..len.min(PACKET)],
        )?;
        Ok(())
    }
}
