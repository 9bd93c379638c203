//! The messages by which a server has the log recycle the entries of connections that are done, and what both do with them.

ghost use Rattle.std.specs.Prelude.{◌≡◌, ◌⊎◌, ℕ, ◌<◌, ◌*◌, false, map, Some, None, List, Ok, IsErr, length, ◌==◌, ◌&&◌, true};
ghost use Rattle.seq_arith.specs.Damage.{flipped};
ghost use Rattle.seq_arith.specs.MessageGrammar.{reading_by as message_reading};
ghost use Rattle.seq_arith.specs.declared.kinds.Grammar.{Grammar};
ghost use Rattle.seq_arith.specs.MarkGrammar.{reading as mark_reading};
ghost use Rattle.seq_arith.specs.TwinGrammar.{reading_by as twin_reading};
ghost use Rattle.seq_arith.specs.Message.Body.{StaleMsg};
ghost use Rattle.ft_model.specs.Keys.{AreDistinct};
ghost use Rattle.ft_model.specs.Log.{Log, Entry, entry_of};
ghost use Rattle.long_laws.specs.Forgetting.{Named, ForgetMessage, forget, forgotten_message, after_forget, IsRecycled, IsGone, answer_to_forget};
ghost use Rattle.long_laws.specs.Forgetting.ForgetAnswer.{About_forgetting, Of_log};
ghost use Rattle.long_laws.specs.ForgetGrammar.{IsSpellable, reading, spelling};

/// The spelling of a message about forgetting is read back as that message.
pub fn forget_is_read()
    ensures { (message : ForgetMessage) → IsSpellable message → reading (spelling message) ≡ Ok message }
{}

/// No two messages about forgetting have the same spelling.
pub fn forgets_are_spelled_apart()
    ensures { (one other : ForgetMessage) → IsSpellable one → IsSpellable other → spelling one ≡ spelling other → one ≡ other }
{}

/// Bytes that are a message about forgetting are no other message: none between server and logger, none about marks, and no datagram between two loggers.
pub fn forgets_have_one_reading()
    ensures message { (grammar : Grammar) (bytes : List ℕ) (message : ForgetMessage) → reading bytes ≡ Ok message → IsErr (message_reading grammar bytes) }
    ensures mark { (bytes : List ℕ) (message : ForgetMessage) → reading bytes ≡ Ok message → IsErr (mark_reading bytes) }
    ensures twin { (grammar : Grammar) (bytes : List ℕ) (message : ForgetMessage) → reading bytes ≡ Ok message → IsErr (twin_reading grammar bytes) }
{}

/// A message about forgetting has 30 bytes. So one that lost bytes at its end is refused, and so is one with further bytes after it.
pub fn forgets_have_30_bytes()
    ensures { (bytes : List ℕ) (message : ForgetMessage) → reading bytes ≡ Ok message → length bytes ≡ 30 }
{}

/// A message about forgetting with one bit inverted is refused.
pub fn flipped_forget_is_refused()
    ensures { (bit : ℕ) (bytes : List ℕ) (message : ForgetMessage) → reading bytes ≡ Ok message → bit < 8 * length bytes → IsErr (reading (flipped bit bytes)) }
{}

/// A message about forgetting changes nothing in the log, or it is a Forget of the log's own boot, the entry of its key has its numbers and is done, and this
/// entry is taken out. So a Forget changes nothing if the entry isn't done, nor if it comes late, after the key is used again with other numbers. The premise:
/// no two entries have the same key.
pub fn forgets_recycle_what_is_done()
    ensures taken { (log : Log) (message : ForgetMessage) → AreDistinct (map (λ e. e.key) log.entries)
        → (after_forget log message ≡ log) ⊎ IsRecycled log message }
    ensures kept { (log : Log) (boot : ℕ) (n : Named) (e : Entry) → AreDistinct (map (λ e. e.key) log.entries) → entry_of n.key log ≡ Some e
        → (e.cisn == n.cisn && e.sisn == n.sisn && e.done) ≡ false → after_forget log (forget boot n) ≡ log }
{}

/// Forgotten is answered exactly to a Forget of the log's boot for whose key and numbers the log has no entry then. So there is no Forgotten for an
/// entry that isn't done, and none of another boot.
pub fn forgotten_means_gone()
    ensures only { (log : Log) (message answer : ForgetMessage) → answer_to_forget log message ≡ Some (About_forgetting answer)
        → (n : Named) × (message ≡ forget log.boot n) × (answer ≡ forgotten_message log.boot n) × IsGone n (after_forget log message) }
    ensures always { (log : Log) (n : Named) → IsGone n (after_forget log (forget log.boot n))
        → answer_to_forget log (forget log.boot n) ≡ Some (About_forgetting (forgotten_message log.boot n)) }
    ensures not_done { (log : Log) (n : Named) (e : Entry) → entry_of n.key log ≡ Some e → e.cisn ≡ n.cisn → e.sisn ≡ n.sisn → e.done ≡ false
        → answer_to_forget log (forget log.boot n) ≡ None }
    ensures older { (log : Log) (boot : ℕ) (n : Named) → boot < log.boot
        → answer_to_forget log (forget boot n) ≡ Some (Of_log (record { boot = boot; body = StaleMsg log.boot })) }
    ensures newer { (log : Log) (message : ForgetMessage) → log.boot < message.boot → answer_to_forget log message ≡ None }
    ensures answers { (log : Log) (boot : ℕ) (n : Named) → answer_to_forget log (forgotten_message boot n) ≡ None }
{}

/// A Forget that comes again changes nothing more, and gets the same answer.
pub fn forgets_may_come_again()
    ensures log { (log : Log) (message : ForgetMessage) → after_forget (after_forget log message) message ≡ after_forget log message }
    ensures answer { (log : Log) (message : ForgetMessage) → answer_to_forget (after_forget log message) message ≡ answer_to_forget log message }
{}
