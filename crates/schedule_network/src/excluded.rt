//! Wrong results that the contracts of this crate exclude. Each function calls another one of the crate, and promises of its result what a wrong body would
//! make false. It is proved from the other's contract alone, so it is no longer proved once that contract lets the wrong body pass.

ghost use Rattle.std.specs.Prelude.{◌≡◌, true, false, OnOk};
ghost use Rattle.ft_io.specs.declared.Key.{Key};
ghost use Rattle.seq_arith.specs.Mark.{Mark};
ghost use Rattle.seq_arith.specs.Mark.MarkBody.{MarkMsg as Marks};
ghost use Rattle.seq_arith.specs.MarkGrammar.{IsSpellable};
ghost use Rattle.logger_wire.specs.MarkValue.{message_of};
ghost use Rattle.ft_model.specs.Log.{with_entry};
ghost use Rattle.mark_laws.specs.MarkedLog.{MarkedLog as LogWithMarks, acknowledging, after_mark, keeps};
ghost use Rattle.mark_store.specs.Refinement.{IsLeftOfMarked};
ghost use Rattle.schedule_network.specs.FullLog.{HasDistinctKeys};

use crate::marked::MarkedLog;
use crate::pair::LogPair;
use ft_io::NoMemory;
use logger_wire::MarkMsg;
use std::alloc::Global;
use twin_log::Part;

/// For a mark that the log keeps, the full log acknowledges the output that was made by then: the contract of `MarkedLog::enter`.
#[tactic(auto, unfolding(mark_laws::specs::MarkedLog::after_mark))]
fn a_kept_mark_stays_out_of_the_log(
    log: &mut MarkedLog,
    alloc: Global,
    message: &MarkMsg<'_>,
) -> Result<(), NoMemory>
    requires { IsSpellable (message_of message.now) }
    ensures { OnOk result ((l : LogWithMarks) (key : Key) (mark : Mark) → message_of message.now ≡ record { boot = l.log.boot; body = Marks key mark }
        → keeps key mark l ≡ true → IsLeftOfMarked log.old.store (after_mark l (message_of message.now)) → log.old.full_log ≡ l.log → HasDistinctKeys l
        → log.new.full_log ≡ with_entry key (acknowledging mark.made) l.log) }
{
    log.enter(alloc, message)
}

/// The tail serves alone once the head has stopped: the contract of `LogPair::stop`.
fn a_stop_is_sent_to_nobody(pair: &mut LogPair)
    requires head { pair.old.head.alone ≡ false }
    requires tail { pair.old.tail.alone ≡ false }
    ensures { pair.new.tail.alone ≡ true }
{
    pair.stop(Part::Head);
}
