//! The only logger of a world.

ghost use Rattle.std.specs.Prelude.{◌≡◌, Ok, OnOk};
ghost use Rattle.seq_arith.specs.MessageGrammar.{reading_by};
ghost use Rattle.ft_model.specs.Log.{empty_log};
ghost use Rattle.logger_wire.specs.Value.{message_of, IsSendableBy};
ghost use Rattle.schedule_network.specs.Logs.{log_reads, log_receives};

use crate::answers::keep_answer;
use crate::packets::Packets;
use ft_io::NoMemory;
use ft_model::Way;
use logger_store::{LogStore, MsgOut};
use logger_wire::{Grammar, Msg, read_msg_by};
use std::alloc::Global;
use std::marker::Model;

/// A logger that serves alone from the start. In contracts it is its log.
#[derive(Drop)]
pub struct OnlyLogger {
    log: LogStore,
    /// Its answer in a turn.
    answer: MsgOut,
}

impl Model for OnlyLogger {
    ghost use Rattle.ft_model.specs.Log.{Log};

    ghost Value = { Log };

    ghost view = { λ l. l.log };
}

impl OnlyLogger {
    /// Creates a logger with an empty log. Allocates nothing.
    pub fn new(alloc: Global) -> OnlyLogger
        ensures { result ≡ empty_log }
    {
        OnlyLogger {
            log: LogStore::new(alloc),
            answer: MsgOut::new(),
        }
    }

    /// Returns its log.
    pub fn log(&self) -> &LogStore
        ensures { result.now ≡ self.now }
    {
        &self.log
    }

    /// Takes a message that arrives, and stores the answer.
    fn take(
        &mut self,
        alloc: Global,
        grammar: Grammar,
        message: &Msg<'_>,
        packets: &mut Packets,
    ) -> Result<(), NoMemory>
        requires { IsSendableBy grammar message.now }
        ensures { OnOk result ((self.new, packets.new) ≡ log_reads grammar (Ok (message_of message.now)) (self.old, packets.old)) }
    {
        self.log
            .answer_by(alloc, grammar, message, &mut self.answer)?;
        keep_answer(&self.answer, packets)
    }

    /// Reads bytes that arrive. Bytes that are no message change nothing.
    fn read(
        &mut self,
        alloc: Global,
        grammar: Grammar,
        bytes: &[u8],
        packets: &mut Packets,
    ) -> Result<(), NoMemory>
        ensures { OnOk result ((self.new, packets.new) ≡ log_reads grammar (reading_by grammar bytes.now) (self.old, packets.old)) }
    {
        match read_msg_by(grammar, bytes) {
            Ok(message) => self.take(alloc, grammar, &message, packets),
            Err(_) => Ok(()),
        }
    }

    /// Reads bytes of this direction, if it leads to the logger, in this grammar.
    pub fn receive(
        &mut self,
        alloc: Global,
        grammar: Grammar,
        way: Way,
        bytes: &[u8],
        packets: &mut Packets,
    ) -> Result<(), NoMemory>
        ensures { OnOk result ((self.new, packets.new) ≡ log_receives grammar way bytes.now (self.old, packets.old)) }
    {
        if matches!(way, Way::ServerToLogger) {
            return self.read(alloc, grammar, bytes, packets);
        }
        Ok(())
    }
}
