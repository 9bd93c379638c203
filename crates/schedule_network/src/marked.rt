//! The logger of a world with marks.

ghost use Rattle.limits.specs.Limits.{longest_stream};
ghost use Rattle.std.specs.Prelude.{◌≡◌, ◌≤◌, ◌<◌, ◌+◌, ◌^◌, Ok, OnOk, option_map};
ghost use Rattle.seq_arith.specs.Message.Body.{DataMsg};
ghost use Rattle.ft_model.specs.Log.{entry_of, log_after};
ghost use Rattle.logger_wire.specs.Value.{message_of, IsSendable};
ghost use Rattle.mark_laws.specs.MarkedLog.{MarkedLog as LogWithMarks, nothing_logged};
ghost use Rattle.mark_store.specs.Refinement.{IsLeftOfMarked};
ghost use Rattle.seq_arith.specs.MarkGrammar.{IsSpellable};
ghost use Rattle.logger_wire.specs.MarkValue.{message_of as mark_message_of};
ghost use Rattle.ft_model.specs.declared.way.Way.TheVariants.{ServerToLogger};
ghost use Rattle.mark_laws.specs.MarkedLog.{after_mark};
ghost use Rattle.mark_store.specs.Bytes.{after_bytes_by};
ghost use Rattle.schedule_network.specs.FullLog.{AreAt, MarksReceive, Notes, no_bytes};

use crate::answers::keep_answer;
use crate::packets::Packets;
use ft_io::{Key, NoMemory};
use ft_model::Way;
use logger_store::{LogStore, MsgOut};
use logger_wire::{Body, Grammar, MarkBody, MarkMsg, Msg, Part, read_mark, read_msg_by};
use mark_store::MarkStore;
use std::alloc::Global;
use std::marker::Model;

/// Returns how many units of a key's output are acknowledged according to a store, or `None` if it doesn't know the key.
fn acknowledged(store: &MarkStore, key: Key) -> Option<u32>
    ensures { (l : LogWithMarks) → IsLeftOfMarked store.now l → result ≡ option_map (λ e. e.acknowledged) (entry_of key l.log) }
{
    for i in 0..store.count() {
        let Some(head) = store.entry(i) else {
            return None;
        };
        if head.key == key {
            return Some(head.acked);
        }
    }
    None
}

/// A logger that keeps marks. Its store drops what lies below a mark, so it also has a full log: the log with all bytes and lengths. In contracts it is both.
#[derive(Drop)]
pub struct MarkedLog {
    store: MarkStore,
    /// The full log. It gets each log message that the store gets; and for each mark that the store keeps, a Data without bytes that acknowledges the output
    /// made.
    full_log: LogStore,
    /// Its answer in a turn.
    answer: MsgOut,
}

impl Model for MarkedLog {
    ghost use Rattle.schedule_network.specs.FullLog.{StoreAndLog};

    ghost Value = { StoreAndLog };

    ghost view = { λ l. record { store = l.store; full_log = l.full_log } };
}

impl MarkedLog {
    /// Creates a logger with nothing logged. Allocates nothing.
    pub fn new(alloc: Global) -> MarkedLog
        ensures { AreAt result nothing_logged }
    {
        MarkedLog {
            store: MarkStore::new(alloc),
            full_log: LogStore::new(alloc),
            answer: MsgOut::new(),
        }
    }

    /// Returns the full log.
    pub fn log(&self) -> &LogStore
        ensures { result.now ≡ self.now.full_log }
    {
        &self.full_log
    }

    /// Enters in the full log that this much output of a key is acknowledged.
    #[tactic(auto, unfolding(seq_arith::specs::MessageGrammar::has_length, seq_arith::specs::MessageGrammar::is_sound_by))]
    fn acknowledge(
        &mut self,
        alloc: Global,
        boot: u64,
        key: Key,
        length: u32,
        made: u32,
    ) -> Result<(), NoMemory>
        requires boot { 1 ≤ boot }
        requires length { length ≤ longest_stream }
        requires made { made ≤ longest_stream }
        ensures { OnOk result (self.new ≡ record self.old {
          full_log = log_after self.old.full_log (record {
            boot = boot;
            body = DataMsg (no_bytes key length made);
          });
        }) }
    {
        let body = Body::Data(Part {
            key,
            offset: length,
            acked: made,
            fin: false,
            more: false,
            bytes: &[],
        });
        self.full_log
            .answer(alloc, &Msg { boot, body }, &mut self.answer)
    }

    /// Enters in the full log the mark of a message that the store has read, if the store's acknowledged output of its key is at least the output made.
    pub(crate) fn enter(&mut self, alloc: Global, message: &MarkMsg<'_>) -> Result<(), NoMemory>
        requires { IsSpellable (mark_message_of message.now) }
        ensures { OnOk result (Notes (λ l. after_mark l (mark_message_of message.now)) self.old self.new) }
    {
        let MarkBody::Mark { key, mark } = message.body else {
            return Ok(());
        };
        match acknowledged(&self.store, key) {
            Some(units) if units >= mark.made => {
                self.acknowledge(alloc, message.boot, key, mark.length, mark.made)
            }
            _ => Ok(()),
        }
    }

    /// Enters in the full log the message in these bytes, which the store has read.
    fn note(&mut self, alloc: Global, grammar: Grammar, bytes: &[u8]) -> Result<(), NoMemory>
        ensures { OnOk result (Notes (after_bytes_by grammar bytes.now) self.old self.new) }
    {
        if let Ok(message) = read_msg_by(grammar, bytes) {
            return self
                .full_log
                .answer_by(alloc, grammar, &message, &mut self.answer);
        }
        match read_mark(bytes) {
            Ok(message) => self.enter(alloc, &message),
            Err(_) => Ok(()),
        }
    }

    /// Reads bytes that arrive, and stores the answer. Bytes that are no message change nothing.
    fn read(
        &mut self,
        alloc: Global,
        grammar: Grammar,
        bytes: &[u8],
        packets: &mut Packets,
    ) -> Result<(), NoMemory>
        ensures { OnOk result (MarksReceive grammar ServerToLogger bytes.now (self.old, packets.old) (self.new, packets.new)) }
    {
        self.store
            .answer_by(alloc, grammar, bytes, &mut self.answer)?;
        keep_answer(&self.answer, packets)?;
        self.note(alloc, grammar, bytes)
    }

    /// Reads bytes of this direction, if it leads to the logger, in this grammar.
    pub fn receive(
        &mut self,
        alloc: Global,
        grammar: Grammar,
        way: Way,
        bytes: &[u8],
        packets: &mut Packets,
    ) -> Result<(), NoMemory>
        ensures { OnOk result (MarksReceive grammar way bytes.now (self.old, packets.old) (self.new, packets.new)) }
    {
        if matches!(way, Way::ServerToLogger) {
            return self.read(alloc, grammar, bytes, packets);
        }
        Ok(())
    }
}
