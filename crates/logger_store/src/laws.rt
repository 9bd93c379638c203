//! Laws of the log store: fencing and trimming.

ghost use Rattle.ft_io.specs.declared.Key.{Key};
ghost use Rattle.std.specs.Prelude.{ℕ, ◌≡◌, ◌≤◌, ◌<◌, ◌==◌, ◌&&◌, true, false, List, Option, Some, None, if◌then◌else◌, length, slice_get};
ghost use Rattle.logger_store.specs.StoreState.{IsAnswer, IsReply, acknowledging, answer_bytes, bytes_of};
ghost use Rattle.seq_arith.specs.Message.{Message, is_answer};
ghost use Rattle.seq_arith.specs.Message.Body.{StaleMsg};
ghost use Rattle.ft_model.specs.Log.{Log, log_after, answer_to, empty_log, is_hello, with_entry};
ghost use Rattle.ft_model.specs.Growth.{LogGrows};
ghost use Rattle.logger_store.specs.Trim.{TrimmedLog, IsLeftOf, MayTrim, answer_left, is_trimmed, untrimmed, with_trim};

/// After a Hello, a message with a smaller boot number changes nothing, however far the log has grown since. It gets Stale, unless it is of a kind that only
/// the logger sends.
pub fn older_boots_get_stale()
    ensures unchanged { (log later : Log) (hello message : Message) → is_hello hello.body ≡ true → LogGrows (log_after log hello) later
        → message.boot < hello.boot
        → log_after later message ≡ later }
    ensures stale { (log later : Log) (hello message : Message) → is_hello hello.body ≡ true → LogGrows (log_after log hello) later → message.boot < hello.boot
        → is_answer message.body ≡ false → answer_to later message ≡ Some (record { boot = message.boot; body = StaleMsg later.boot }) }
{}

/// A log's answer that can be read, as a message of the log or as one about marks, can be read as a message of the log. The absence of an answer is written as
/// no bytes.
pub fn answers_are_messages()
    ensures { (answer : Option Message) (bytes : List ℕ) → bytes ≡ answer_bytes answer → IsReply bytes → IsAnswer bytes }
{}

/// An empty store represents the empty log; a trimmed store still represents its log after both take a message or acknowledge output.
pub fn trimmed_logs_follow()
    ensures first { IsLeftOf untrimmed empty_log }
    ensures acknowledged { (t : TrimmedLog) (log : Log) (key : Key) (units : ℕ) → IsLeftOf t log
        → IsLeftOf (record t { log = with_entry key (acknowledging units) t.log }) (with_entry key (acknowledging units) log) }
    ensures next { (t : TrimmedLog) (log : Log) (message : Message) → IsLeftOf t log
        → IsLeftOf (record t { log = log_after t.log message }) (log_after log message) }
{}

/// A trimmed store answers as the log that it represents does, except to questions with the log's boot number about what is trimmed. It doesn't answer these.
pub fn trimmed_logs_answer_alike()
    ensures { (t : TrimmedLog) (log : Log) (message : Message) → IsLeftOf t log
        → answer_left t message ≡ (if message.boot == log.boot && is_trimmed t message.body then None else answer_to log message) }
{}

/// A trimmed store that is trimmed further still represents the same log.
pub fn trimming_leaves_the_log()
    ensures { (t : TrimmedLog) (log : Log) (i bytes reads : ℕ) → IsLeftOf t log → i < length t.trims → MayTrim i bytes reads t
        → bytes ≤ length (bytes_of (slice_get t.log.entries i)) → IsLeftOf (with_trim i bytes reads t) log }
{}
