//! The logger or the two loggers that keep the log of a world.

ghost use Rattle.std.specs.Prelude.{◌≡◌, true, false, OnOk, IfOk};
ghost use Rattle.ft_model.specs.Log.{empty_log};
ghost use Rattle.schedule_network.specs.Loggers.{new_loggers};
ghost use Rattle.schedule_network.specs.Logs.{IsNewMarked, log_in, ReceivesIn};
ghost use Rattle.schedule_network.specs.declared.logs.Logs.TheVariants.{One as OneLog, Two as TwoLogs};

use crate::marked::MarkedLog;
use crate::only::OnlyLogger;
use crate::packets::Packets;
use crate::pair::LogPair;
use ft_io::NoMemory;
use ft_model::Way;
use logger_store::LogStore;
use logger_wire::Grammar;
use std::alloc::Global;

/// The logger or the two loggers that keep the log of a world.
#[derive(Drop)]
pub enum Logs {
    /// One logger.
    One(OnlyLogger),
    /// A head and a tail.
    Two(LogPair),
    /// One logger that keeps marks.
    Marked(MarkedLog),
}

impl Logs {
    /// Creates two loggers, or one that keeps marks or doesn't, with empty logs and messages of this grammar.
    pub fn new(alloc: Global, grammar: Grammar, twin: bool, marks: bool) -> Result<Logs, NoMemory>
        ensures one { twin ≡ false → marks ≡ false → IfOk result (λ logs. logs ≡ OneLog empty_log) }
        ensures two { twin ≡ true → IfOk result (λ logs. logs ≡ TwoLogs (new_loggers grammar)) }
        ensures marked { twin ≡ false → marks ≡ true → IfOk result (λ logs. IsNewMarked logs) }
    {
        if twin {
            return Ok(Logs::Two(LogPair::new(alloc, grammar)?));
        }
        if marks {
            return Ok(Logs::Marked(MarkedLog::new(alloc)));
        }
        Ok(Logs::One(OnlyLogger::new(alloc)))
    }

    /// Returns the log that serves; with marks, the full log.
    pub fn log(&self) -> &LogStore
        ensures { result.now ≡ log_in self.now }
    {
        match self {
            Logs::One(only) => only.log(),
            Logs::Two(pair) => pair.log(),
            Logs::Marked(marked) => marked.log(),
        }
    }

    /// Passes bytes of this direction to a logger, and stores what it sends. A single logger takes messages of this grammar; two know theirs.
    pub fn receive(
        &mut self,
        alloc: Global,
        grammar: Grammar,
        way: Way,
        bytes: &[u8],
        packets: &mut Packets,
    ) -> Result<(), NoMemory>
        ensures { OnOk result (ReceivesIn grammar self.old way bytes.now packets.old self.new packets.new) }
    {
        match self {
            Logs::One(only) => only.receive(alloc, grammar, way, bytes, packets),
            Logs::Two(pair) => pair.receive(alloc, way, bytes, packets),
            Logs::Marked(marked) => marked.receive(alloc, grammar, way, bytes, packets),
        }
    }
}
