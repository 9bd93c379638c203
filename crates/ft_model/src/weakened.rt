//! What some of the laws are needed for: traces in which one moment follows a weaker law, and what becomes of the client. Nothing here runs; each function is a
//! theorem.

ghost use Rattle.std.specs.Prelude.{◌≡◌, ℕ, false, List, [], ◌∷◌, ◌++◌, map};
ghost use Rattle.std.specs.List.{AllByRecursion};
ghost use Rattle.ft_model.specs.Client.{may_move};
ghost use Rattle.ft_model.specs.Client.Move.{Text};
ghost use Rattle.ft_model.specs.Growth.{IsPrefix, logged_units};
ghost use Rattle.ft_model.specs.Log.{log_after};
ghost use Rattle.ft_model.specs.Masked.{SeesFront, Masked};
ghost use Rattle.ft_model.specs.Resets.{ResetsNoLogged};
ghost use Rattle.ft_model.specs.WeakerLaw.{IsWrongOnce};
ghost use Rattle.ft_model.specs.declared.phase.Phase.TheVariants.{Reset};
ghost use Rattle.ft_model.specs.WorkedRuns.Common.{echo, hello_text, key};
ghost use Rattle.ft_model.specs.WorkedRuns.ChangedBit;
ghost use Rattle.ft_model.specs.WorkedRuns.FirstPath;
ghost use Rattle.ft_model.specs.WorkedRuns.EarlyAcknowledgement;
ghost use Rattle.ft_model.specs.WorkedRuns.ResetWhileRestarting;
ghost use Rattle.ft_model.specs.WorkedRuns.UnloggedRead;
ghost use Rattle.ft_model.specs.WorkedRuns.UnloggedRead.{meter};

/// Where TCP's own acknowledgement is passed on, a crash loses bytes: the log has none of them, the Data that carries them is from an older boot and changes
/// nothing, and the client may not send them again. The law Acknowledgement refuses the turn.
pub fn passed_acknowledgements_lose_bytes()
    ensures wrong_once { IsWrongOnce echo FirstPath.start EarlyAcknowledgement.later EarlyAcknowledgement.wrong EarlyAcknowledgement.earlier }
    ensures not_masked { Masked echo FirstPath.start (EarlyAcknowledgement.later ++ EarlyAcknowledgement.wrong ∷ EarlyAcknowledgement.earlier) → ⊥ }
    ensures not_logged { logged_units key EarlyAcknowledgement.moment_16.world.log ≡ 0 }
    ensures fenced { log_after EarlyAcknowledgement.moment_16.world.log EarlyAcknowledgement.data_message ≡ EarlyAcknowledgement.moment_16.world.log }
    ensures not_sent_again { AllByRecursion (λ client. (len : ℕ) → may_move client (Text 0 len) ≡ false) EarlyAcknowledgement.moment_16.world.clients }
{}

/// Where a server answers as CLOSED while it fetches the log, a client loses its connection, although the log has it. The law Restart refuses the turn.
pub fn resets_while_restarting_lose_connections()
    ensures wrong_once { IsWrongOnce echo FirstPath.start ResetWhileRestarting.later ResetWhileRestarting.wrong ResetWhileRestarting.earlier }
    ensures logged { AllByRecursion (ResetsNoLogged ResetWhileRestarting.wrong.world.log) ResetWhileRestarting.wrong.sent → ⊥ }
    ensures reset { map (λ client. client.phase) ResetWhileRestarting.moment_24.world.clients ≡ Reset ∷ [] }
{}

/// Where output is sent before its read is logged, and a crash loses that read, the client accepts bytes that aren't the output of the logged reads, which
/// cut the client's bytes differently. This can be seen at the end of the trace, when the later read is logged. The law Output refuses the turn.
pub fn early_output_depends_on_lost_reads()
    ensures wrong_once { IsWrongOnce meter FirstPath.start UnloggedRead.after_early (UnloggedRead.moment_12 UnloggedRead.early) UnloggedRead.sent_trace }
    ensures seen { AllByRecursion (SeesFront meter UnloggedRead.early_23.world.log) UnloggedRead.early_23.world.clients → ⊥ }
    ensures not_masked { Masked meter FirstPath.start (UnloggedRead.after_early ++ UnloggedRead.moment_12 UnloggedRead.early ∷ UnloggedRead.sent_trace) → ⊥ }
{}

/// Where the log keeps a read of an older boot, the newer server assumes that its own read is logged, and sends output that isn't the output of the logged
/// reads. The log's fence refuses the message: its boot is smaller than the log's.
pub fn unfenced_reads_show_through()
    ensures wrong_once { IsWrongOnce meter FirstPath.start UnloggedRead.after_unfenced UnloggedRead.unfenced UnloggedRead.before_unfenced }
    ensures seen { AllByRecursion (SeesFront meter UnloggedRead.unfenced_25.world.log) UnloggedRead.unfenced_25.world.clients → ⊥ }
    ensures not_masked { Masked meter FirstPath.start (UnloggedRead.after_unfenced ++ UnloggedRead.unfenced ∷ UnloggedRead.before_unfenced) → ⊥ }
{}

/// Where the log accepts a Data with a changed bit as its server's, it keeps a byte that no client sent. The law on damage refuses the moment: the changed
/// bytes are no message, and the log ignores them.
pub fn changed_bits_reach_no_log()
    ensures wrong_once { IsWrongOnce echo FirstPath.start [] ChangedBit.wrong ChangedBit.earlier }
    ensures not_the_clients { AllByRecursion (λ e. IsPrefix e.bytes hello_text) ChangedBit.wrong.world.log.entries → ⊥ }
{}
