//! Laws of a service that lives for years. A long trace is a joint trace in which besides the log recycles the entries of connections that are done, new
//! clients arrive at addresses and ports that were used before, and silent clients are sent keep-alives or let go. Every long trace is masked. Nothing here
//! runs; each function is a theorem.
#![tactic(auto)]

ghost use Rattle.std.specs.Prelude.{◌≡◌, ◌==◌, ◌&&◌, ℕ, List, map, Some, None, true, false};
ghost use Rattle.seq_arith.specs.Message.{Message};
ghost use Rattle.ft_model.specs.Log.{Log, Entry, empty_log, entry_of};
ghost use Rattle.trace_laws.specs.NeededMessages.{log_after_all};
ghost use Rattle.long_laws.specs.Snapshot.{IsOrdered, IsSnapshotOf};
ghost use Rattle.server_trait.specs.Service.{machine};
ghost use Rattle.ft_model.specs.World.{World, Moment, Joint, IsNewClient};
ghost use Rattle.ft_model.specs.Client.{Client};
ghost use Rattle.long_laws.specs.LongTrace.{LongMoment, LongJoint, AreMasked, recycled, MayRecycle, MayArrive, as_long};

use server_trait::Service;

pub mod done;
pub mod premises;
pub mod quarantine;
pub mod recycling;
pub mod refused;
pub mod resets;
pub mod worked;

/// The headline for long traces. After every moment each client that is present has accepted a prefix of the uncrashed server's output over its logged reads,
/// nothing is acknowledged that isn't logged, a restart resumes every logged connection that isn't done, and each live client was last told what is taken and
/// logged. Each client whose entry was recycled has accepted a prefix of the output over the reads that its entry had then.
pub fn every_long_trace_is_masked<S: Service>()
    ensures { (kind : ℕ) (start : World) (trace : List LongMoment) → LongJoint (machine (S.started kind) S.after S.greeting) start trace
        → AreMasked (machine (S.started kind) S.after S.greeting) start trace }
{}

/// Joint traces are long traces, and a long trace without the five steps is a joint trace. So nothing changes for a service that takes none of them.
pub fn joint_traces_are_the_long_traces_without_the_steps<S: Service>()
    ensures long { (kind : ℕ) (start : World) (trace : List Moment) → Joint (machine (S.started kind) S.after S.greeting) start trace
        → LongJoint (machine (S.started kind) S.after S.greeting) start (map as_long trace) }
    ensures joint { (kind : ℕ) (start : World) (trace : List Moment) → LongJoint (machine (S.started kind) S.after S.greeting) start (map as_long trace)
        → Joint (machine (S.started kind) S.after S.greeting) start trace }
{}

/// The messages of a log's snapshot make this log from an empty one. So a journal that begins with a snapshot has the same log as one with all messages.
pub fn a_snapshot_is_the_log()
    ensures { (log : Log) (messages : List Message) → IsOrdered log → IsSnapshotOf log messages → log_after_all empty_log messages ≡ log }
{}

/// Every log that messages make is in order, so the premise of `a_snapshot_is_the_log` holds of it.
pub fn logs_are_ordered()
    ensures { (messages : List Message) → IsOrdered (log_after_all empty_log messages) }
{}

/// While the server is down, the entry of a connection that is done may be recycled, and a new client may then arrive at its address and port at once. So these
/// steps do occur. The premises: the client is a new one, and its address isn't the server's.
pub fn done_keys_come_again()
    ensures { (w : World) (c : Client) → w.node ≡ None → ((e : Entry) → entry_of c.key w.log ≡ Some e → e.done ≡ true) → IsNewClient w.server c
        → (c.key.ip == w.server.ip && c.key.port == w.server.port) ≡ false → MayRecycle c.key w × MayArrive c (recycled c.key w) }
{}
