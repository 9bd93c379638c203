//! The headline: crashes and restarts of the server can't be seen from outside. Nothing here runs; each function is a theorem.

ghost use Rattle.std.specs.Prelude.{◌≡◌, ℕ, ◌+◌, ◌<◌, ◌≤◌, true, false, None, Some, IfSome, List, ◌∷◌, ◌++◌, length};
ghost use Rattle.server_trait.specs.Service.{CanCut, machine};
ghost use Rattle.seq_arith.specs.Message.{Message};
ghost use Rattle.ft_model.specs.Offset.{one_if};
ghost use Rattle.ft_model.specs.Restart.{run_of, point_of};
ghost use Rattle.ft_model.specs.Log.{Log, is_hello, log_after};
ghost use Rattle.ft_model.specs.Growth.{IsPrefix, LogGrows};
ghost use Rattle.ft_model.specs.Masked.{SeesFront, AcknowledgesLogged, RestartIsExact, AllAreReported, Masked};
ghost use Rattle.ft_model.specs.Made.{AcknowledgesMade, AcknowledgesSent};
ghost use Rattle.ft_model.specs.Resets.{ResetsNoLogged};
ghost use Rattle.std.specs.List.{AllByRecursion};
ghost use Rattle.ft_io.specs.Key.{key_eq};
ghost use Rattle.ft_model.specs.World.{World, Moment, MayCome, Joint, world_after};
ghost use Rattle.ft_model.specs.Network.{Packet};
ghost use Rattle.ft_model.specs.Node.{Node, Input};
ghost use Rattle.ft_model.specs.Lawful.{LawfulTurn, fence, is_fenced};

use server_trait::Service;

/// The headline: every joint trace is masked, whatever is delivered, lost, repeated, reordered or damaged, and whenever the server crashes and restarts.
pub fn every_joint_trace_is_masked<S: Service>()
    ensures { (kind : ℕ) (start : World) (trace : List Moment) → Joint (machine (S.started kind) S.after S.greeting) start trace
        → Masked (machine (S.started kind) S.after S.greeting) start trace }
{}

/// What each client has accepted is a prefix of the uncrashed server's output on its script, cut into the logged reads, and all of it where the server's FIN
/// has ended the stream.
pub fn clients_see_an_unfailing_server<S: Service>()
    ensures { (kind : ℕ) (start : World) (trace : List Moment) → Joint (machine (S.started kind) S.after S.greeting) start trace
        → AllByRecursion (SeesFront (machine (S.started kind) S.after S.greeting) (world_after start trace).log) (world_after start trace).clients }
{}

/// The log only grows over a trace: entries keep their places and numbers. Bytes, FIN, reads, acknowledgement and Done are never taken back,
/// and the boot number never falls.
pub fn the_log_only_grows<S: Service>()
    ensures { (kind : ℕ) (start : World) (later earlier : List Moment) → Joint (machine (S.started kind) S.after S.greeting) start (later ++ earlier)
        → LogGrows (world_after start earlier).log (world_after start (later ++ earlier)).log }
{}

/// What is logged of a client is a prefix of its script, and all of it where its FIN is logged.
pub fn logged_bytes_are_the_clients<S: Service>()
    ensures { (kind : ℕ) (start : World) (trace : List Moment) → Joint (machine (S.started kind) S.after S.greeting) start trace
        → AllByRecursion (λ c. AllByRecursion
        (λ e. key_eq e.key c.key ≡ true → IsPrefix e.bytes c.script × (e.fin ≡ true → e.bytes ≡ c.script))
        (world_after start trace).log.entries) (world_after start trace).clients }
{}

/// The sum of the lengths of an entry's logged reads is at most the number of its logged bytes, and only the last length may be 0, that of the closing read.
/// So the unfailing server reads only bytes that its client sent.
pub fn logged_reads_cut_the_bytes<S: Service>()
    ensures { (kind : ℕ) (start : World) (trace : List Moment) → Joint (machine (S.started kind) S.after S.greeting) start trace
        → AllByRecursion (λ e. CanCut e.bytes e.lengths) (world_after start trace).log.entries }
{}

/// No byte of a client is acknowledged before it is logged: each segment with ACK and without RST that a server sends acknowledges at most
/// the units that the client's entry has at that moment.
pub fn no_byte_is_acknowledged_before_it_is_logged<S: Service>()
    ensures { (kind : ℕ) (start : World) (moment : Moment) (earlier : List Moment)
        → Joint (machine (S.started kind) S.after S.greeting) start (moment ∷ earlier)
        → AllByRecursion (AcknowledgesLogged moment.world.log moment.world.clients) moment.sent }
{}

/// Fence: after a Hello no message of an older boot changes the log, however much the log has grown since.
pub fn older_boots_are_fenced()
    ensures { (log later : Log) (hello message : Message) → is_hello hello.body ≡ true → LogGrows (log_after log hello) later → message.boot < hello.boot
        → log_after later message ≡ later }
{}

/// In the turn that ends a restart, every entry of the log that isn't done has its connection again. The connection begins at the entry's point, with all
/// that is logged taken and read as before, and its first turn follows the law of every turn.
pub fn restarts_are_exact<S: Service>()
    ensures { (kind : ℕ) (start : World) (moment : Moment) (earlier : List Moment)
        → Joint (machine (S.started kind) S.after S.greeting) start (moment ∷ earlier)
        → RestartIsExact (machine (S.started kind) S.after S.greeting) moment.world.log (world_after start earlier).node moment.world.node }
{}

/// After each moment, the last acknowledgement sent to the client of each live connection that it hasn't reset is the smaller of what is taken
/// and what is known to be logged.
pub fn what_is_acknowledged_is_logged<S: Service>()
    ensures { (kind : ℕ) (start : World) (trace : List Moment) → Joint (machine (S.started kind) S.after S.greeting) start trace
        → AllAreReported (world_after start trace).packets (world_after start trace).node }
{}

/// The output that a client has acknowledged, as an entry of the log records it, is at most the uncrashed server's output over the logged reads, plus one unit
/// where that run has closed.
pub fn acknowledged_output_was_made<S: Service>()
    ensures { (kind : ℕ) (start : World) (trace : List Moment) → Joint (machine (S.started kind) S.after S.greeting) start trace
        → AllByRecursion (λ e.
        e.acknowledged ≤ length (run_of (machine (S.started kind) S.after S.greeting) e).output + one_if
        (run_of (machine (S.started kind) S.after S.greeting) e).closed)
        (world_after start trace).log.entries }
{}

/// No client acknowledges more than was made: each segment with ACK that was sent to a server acknowledges at most the uncrashed server's output over the
/// logged reads of its client's entry, plus one unit where that run has closed.
pub fn acknowledgements_are_at_most<S: Service>()
    ensures { (kind : ℕ) (start : World) (trace : List Moment) → Joint (machine (S.started kind) S.after S.greeting) start trace
        → AllByRecursion (AcknowledgesMade (machine (S.started kind) S.after S.greeting) (world_after start trace).log) (world_after start trace).packets }
{}

/// A restart knows what its clients may acknowledge: whenever the server restarts, at no entry's point does a segment of its client acknowledge what was never
/// sent.
pub fn restarts_know_what_was_sent<S: Service>()
    ensures { (kind : ℕ) (start : World) (trace : List Moment) → Joint (machine (S.started kind) S.after S.greeting) start trace
        → AllByRecursion (λ e. AllByRecursion (AcknowledgesSent (point_of (machine (S.started kind) S.after S.greeting) start.profile e))
        (world_after start trace).packets)
        (world_after start trace).log.entries }
{}

/// No false reset: of all RSTs that were sent so far, none was sent to a client whose entry is now in the log and not done. So whenever one of them is
/// delivered, it ends no connection that the log keeps. A client that has reset its connection itself is no exception.
pub fn no_logged_connection_is_reset<S: Service>()
    ensures { (kind : ℕ) (start : World) (trace : List Moment) → Joint (machine (S.started kind) S.after S.greeting) start trace
        → AllByRecursion (ResetsNoLogged (world_after start trace).log) (world_after start trace).packets }
{}

/// No server of a joint trace is ever fenced, and nothing that may arrive next fences it: no Stale on the network names a boot later than the newest
/// incarnation's.
pub fn no_server_is_fenced<S: Service>()
    ensures stage { (kind : ℕ) (start : World) (trace : List Moment) → Joint (machine (S.started kind) S.after S.greeting) start trace
        → IfSome (world_after start trace).node (λ node. is_fenced node.stage ≡ false) }
    ensures input { (kind : ℕ) (start : World) (trace : List Moment) (node : Node) (input : Input)
        → Joint (machine (S.started kind) S.after S.greeting) start trace
        → (world_after start trace).node ≡ Some node → MayCome (world_after start trace) input → fence node input ≡ None }
{}

/// A server of a joint trace never gets stuck: it has a lawful turn for every input.
pub fn servers_have_turns<S: Service>()
    ensures { (kind : ℕ) (start : World) (trace : List Moment) (node : Node) (input : Input) → Joint (machine (S.started kind) S.after S.greeting) start trace
        → (world_after start trace).node ≡ Some node
        → (after : Node) × (sent : List Packet) × LawfulTurn (machine (S.started kind) S.after S.greeting) node input sent after }
{}
