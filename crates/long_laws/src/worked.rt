//! A worked run of a long trace: two clients, one after the other, at one address and port.

ghost use Rattle.std.specs.Prelude.{◌≡◌, Some, None, [], ◌∷◌};
ghost use Rattle.ft_model.specs.Log.{log_after};
ghost use Rattle.ft_model.specs.Network.{packet_at};
ghost use Rattle.ft_model.specs.Network.Packet.{To_logger};
ghost use Rattle.ft_model.specs.World.{Joint};
ghost use Rattle.ft_model.specs.WorkedRuns.Common.{echo};
ghost use Rattle.long_laws.specs.Forgetting.{after_forget, answer_to_forget};
ghost use Rattle.long_laws.specs.Forgetting.ForgetAnswer.{About_forgetting};
ghost use Rattle.long_laws.specs.LongTrace.{LongJoint, long_after};
ghost use Rattle.long_laws.specs.WorkedTrace as run;

/// The first client's connection is opened and closed, its entry is done, and two ticks of quarantine pass. This part of the run is a joint trace.
pub fn worked_first_life_is_joint()
    ensures { Joint echo run.start run.first_life }
{}

/// The whole run up to the second connection is a long trace: the entry is recycled, the second client arrives at the same address and port and sends its SYN,
/// and once the server has forgotten the key this SYN opens a connection with other initial sequence numbers. At its end the second client is opening, the
/// first one is gone with the reads that its entry had, and the log has only the second client's entry.
pub fn worked_address_is_used_again()
    ensures joint { LongJoint echo run.start run.trace }
    ensures clients { (long_after run.start run.trace).now.clients ≡ run.second_opening ∷ [] }
    ensures past { (long_after run.start run.trace).past ≡ run.first_gone ∷ [] }
    ensures log { (long_after run.start run.trace).now.log.entries ≡ run.second_entry ∷ [] }
{}

/// The second client doesn't answer. The server sends it a keep-alive and lets go of it: the connection is reset and reported as done, and nothing more is sent
/// to the client. With this the run has each of the five steps.
pub fn worked_silent_client_is_let_go()
    ensures joint { LongJoint echo run.start run.silent_trace }
    ensures clients { (long_after run.start run.silent_trace).now.clients ≡ run.second_opening ∷ [] }
    ensures past { (long_after run.start run.silent_trace).past ≡ run.first_gone ∷ [] }
{}

/// What the log does with a Forget in this run. A Forget of the first connection is answered by Forgotten and leaves the log as the step `Recycles` does.
/// Before the entry is done it changes nothing and gets no answer; a late one doesn't touch the second client's entry, and gets Forgotten again.
pub fn worked_forgets_recycle_once()
    ensures recycles { after_forget run.moment_29.world.log run.first_forget ≡ run.moment_30.world.now.log }
    ensures answer { answer_to_forget run.moment_29.world.log run.first_forget ≡ Some (About_forgetting run.first_forgotten) }
    ensures early { after_forget run.moment_25.world.log run.first_forget ≡ run.moment_25.world.log }
    ensures early_answer { answer_to_forget run.moment_25.world.log run.first_forget ≡ None }
    ensures late { after_forget run.moment_36.world.now.log run.first_forget ≡ run.moment_36.world.now.log }
    ensures late_answer { answer_to_forget run.moment_36.world.now.log run.first_forget ≡ Some (About_forgetting run.first_forgotten) }
{}

/// What the premise is needed for. If the Data with the first client's FIN weren't lost at the recycling and came at the end of this run, the log would take
/// it for one of the second connection: its entry would have a FIN, and its client has sent only its SYN.
pub fn worked_late_data_would_count()
    ensures was_sent { packet_at run.moment_29.world.packets 10 ≡ Some (To_logger run.late_data) }
    ensures counts { (log_after run.moment_36.world.now.log run.late_data).entries ≡ run.spoilt_entry ∷ [] }
    ensures unsent { run.second_opening.sent ≡ 0 }
{}
