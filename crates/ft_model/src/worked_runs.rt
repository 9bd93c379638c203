//! Worked runs: traces and turns written out packet by packet, with the laws that they follow or that a wrong turn in them breaks. Nothing here runs; each
//! function is a theorem.

ghost use Rattle.std.specs.Prelude.{◌≡◌, [], ◌∷◌};
ghost use Rattle.std.specs.List.{concat};
ghost use Rattle.tcp_rules.specs.Profile.{plain};
ghost use Rattle.ft_model.specs.Node.{booted};
ghost use Rattle.ft_model.specs.Node.Input.{Tick_comes};
ghost use Rattle.ft_model.specs.Node.Stage.{Serving};
ghost use Rattle.ft_model.specs.Lawful.{Lawful, hello};
ghost use Rattle.ft_model.specs.World.{Joint};
ghost use Rattle.ft_model.specs.Legal.{Legal};
ghost use Rattle.ft_model.specs.Report.{report};
ghost use Rattle.ft_model.specs.WorkedRuns.Common.{echo, server, IsUnlawful};
ghost use Rattle.ft_model.specs.WorkedRuns.FirstPath;
ghost use Rattle.ft_model.specs.WorkedRuns.CrashAfterLogged;
ghost use Rattle.ft_model.specs.WorkedRuns.Closing;
ghost use Rattle.ft_model.specs.WorkedRuns.ZeroWindow;
ghost use Rattle.ft_model.specs.WorkedRuns.ZeroWindowTrace;
ghost use Rattle.ft_model.specs.WorkedRuns.RightEdge;
ghost use Rattle.ft_model.specs.WorkedRuns.BeyondNext;
ghost use Rattle.ft_model.specs.WorkedRuns.HeldSegments;
ghost use Rattle.ft_model.specs.WorkedRuns.CongestionWindow;
ghost use Rattle.ft_model.specs.WorkedRuns.DelayedAck;
ghost use Rattle.ft_model.specs.WorkedRuns.Batch;
ghost use Rattle.ft_model.specs.WorkedRuns.MeasuredRecovery;
ghost use Rattle.ft_model.specs.WorkedRuns.CrashBeforeSynAck;
ghost use Rattle.ft_model.specs.WorkedRuns.ClientKnowsMore;
ghost use Rattle.ft_model.specs.WorkedRuns.SegmentWhileRestarting;
ghost use Rattle.ft_model.specs.WorkedRuns.RestartInTurns;

/// The complete first path is a joint trace.
pub fn first_path_is_joint()
    ensures { Joint echo FirstPath.start FirstPath.trace }
{}

/// After a crash with the text and its read logged, the second incarnation is lawful, from its boot to the output that it sends.
pub fn crash_after_logged_is_lawful()
    ensures { Lawful echo server plain 2 900000 (hello (booted server plain 2 900000)) CrashAfterLogged.restart_turns }
{}

/// Both sides close: the turns with the FINs are lawful, before a crash and after it, up to Done.
pub fn closing_is_lawful()
    ensures before { Lawful echo server plain 1 5000 (hello (booted server plain 1 5000)) Closing.first_turns }
    ensures after { Lawful echo server plain 2 900000 (hello (booted server plain 2 900000)) Closing.second_turns }
{}

/// A client without room is probed, and what it doesn't acknowledge is retransmitted.
pub fn zero_window_is_lawful()
    ensures { Lawful echo server plain 1 5000 (hello (booted server plain 1 5000)) ZeroWindow.probe_turns }
{}

/// The acknowledgement and the window of a pure ACK at the right edge are used, and it gets no answer. A RST there gets a challenge ACK. Past the edge
/// nothing is used, and an ACK is sent.
pub fn right_edge_is_lawful()
    ensures at_it { Lawful echo server plain 1 5000 (hello (booted server plain 1 5000)) RightEdge.edge_turns }
    ensures past_it { Lawful echo server plain 1 5000 (hello (booted server plain 1 5000)) RightEdge.beyond_turns }
{}

/// The acknowledgement and the window of a pure ACK past the next number are used, and it may not be answered.
pub fn acknowledgements_beyond_next_are_not_answered()
    ensures lawful { Lawful echo server plain 1 5000 (hello (booted server plain 1 5000)) BeyondNext.turns }
    ensures answered { IsUnlawful BeyondNext.turn_3.node BeyondNext.turn_4.input BeyondNext.answered }
{}

/// Out-of-order text is held. Once the gap before it is filled, it is taken and sent to the log. The complete run is a legal trace of its schedule, and its
/// report has these lines.
pub fn held_segments_are_legal()
    ensures legal { Legal (λ kind. echo) HeldSegments.schedule HeldSegments.trace }
    ensures reported { report HeldSegments.schedule HeldSegments.trace ≡ concat HeldSegments.report_lines }
{}

/// In the turn in which the gap is filled, the text that was held may not be left out of what is sent to the log, be sent before the segment's own part, or
/// be in one Data with it.
pub fn wrong_copies_of_held_text_are_refused()
    ensures left_out { IsUnlawful (FirstPath.node_live HeldSegments.held_point) HeldSegments.gap_filled HeldSegments.without_held }
    ensures held_first { IsUnlawful (FirstPath.node_live HeldSegments.held_point) HeldSegments.gap_filled HeldSegments.held_first }
    ensures as_one { IsUnlawful (FirstPath.node_live HeldSegments.held_point) HeldSegments.gap_filled HeldSegments.as_one }
{}

/// Of the 4,094 bytes that a client asks for, four segments are sent at once, two more when the first is acknowledged, and none at two duplicates of that. At
/// the third the missing one is retransmitted, and as much more is sent as the window has room for. The complete run is a legal trace of its schedule, and its
/// report has these lines.
pub fn congestion_window_is_legal()
    ensures legal { Legal (λ kind. CongestionWindow.transfer) CongestionWindow.schedule CongestionWindow.trace }
    ensures reported { report CongestionWindow.schedule CongestionWindow.trace ≡ concat CongestionWindow.report_lines }
{}

/// No fifth segment may be sent at once. The missing one may not be retransmitted at the second duplicate, and must be at the third.
pub fn wrong_windows_are_refused()
    ensures past_it { CongestionWindow.IsUnlawful
        (FirstPath.node_live CongestionWindow.logged_point) CongestionWindow.read_is_logged CongestionWindow.past_the_window }
    ensures early { CongestionWindow.IsUnlawful
        (FirstPath.node_live (CongestionWindow.repeated 1)) CongestionWindow.acknowledgement_comes CongestionWindow.one_too_early }
    ensures never { CongestionWindow.IsUnlawful
        (FirstPath.node_live (CongestionWindow.repeated 2)) CongestionWindow.acknowledgement_comes CongestionWindow.never_again }
{}

/// The first path with the profile for wide-area networks: the text gets no ACK until the log has answered. The complete run is a legal trace of its schedule,
/// and its report has these lines.
pub fn delayed_acks_are_legal()
    ensures legal { Legal (λ kind. echo) DelayedAck.schedule DelayedAck.trace }
    ensures reported { report DelayedAck.schedule DelayedAck.trace ≡ concat DelayedAck.report_lines }
{}

/// With that profile the Data of a turn are a batch: each but the last says that another follows, and the log answers only the last. The complete run, in which
/// two texts are copied in one turn, is a legal trace of its schedule, and its report has these lines.
pub fn batches_are_legal()
    ensures legal { Legal (λ kind. echo) Batch.schedule Batch.trace }
    ensures reported { report Batch.schedule Batch.trace ≡ concat Batch.report_lines }
{}

/// With that profile, neither may all Data of a turn leave it out that another follows, nor may the last or only one say so.
pub fn wrong_batches_are_refused()
    ensures none { IsUnlawful (DelayedAck.node_live Batch.held_point) HeldSegments.gap_filled Batch.none_follows }
    ensures last { IsUnlawful (DelayedAck.node_live Batch.held_point) HeldSegments.gap_filled Batch.another_follows }
    ensures only { IsUnlawful (DelayedAck.node_live DelayedAck.open_point) FirstPath.text_comes Batch.single_of_more }
{}

/// With that profile the timer follows the measured round trip, and each partial acknowledgement retransmits the next missing segment, after an expiry too. The
/// complete run, with a restart that measures anew, is a legal trace of its schedule, and its report has these lines.
pub fn measured_recoveries_are_legal()
    ensures legal { Legal (λ kind. CongestionWindow.transfer) MeasuredRecovery.schedule MeasuredRecovery.trace }
    ensures reported { report MeasuredRecovery.schedule MeasuredRecovery.trace ≡ concat MeasuredRecovery.report_lines }
{}

/// With that profile, text that isn't logged yet may not get an ACK of its own, the timer may not expire one tick early, and a partial acknowledgement may not
/// retransmit nothing, neither before an expiry nor after one.
pub fn wrong_turns_over_a_wide_area_are_refused()
    ensures at_once { IsUnlawful (DelayedAck.node_live DelayedAck.open_point) FirstPath.text_comes DelayedAck.acked_at_once }
    ensures early { CongestionWindow.IsUnlawful (DelayedAck.node_live (MeasuredRecovery.waiting 2)) Tick_comes MeasuredRecovery.one_too_early }
    ensures never { CongestionWindow.IsUnlawful (DelayedAck.node_live MeasuredRecovery.losing_point) (MeasuredRecovery.acknowledged 1072)
        MeasuredRecovery.never_recovered }
    ensures never_later { CongestionWindow.IsUnlawful (DelayedAck.node_live MeasuredRecovery.expired_point) (MeasuredRecovery.acknowledged 1608)
        MeasuredRecovery.never_recovered_later }
{}

/// A segment that arrives during a restart is answered with window 0, and taken afterwards.
pub fn segment_while_restarting_is_lawful()
    ensures { Lawful echo server plain 2 900000 (hello (booted server plain 2 900000)) SegmentWhileRestarting.restart_turns }
{}

/// A restart whose answers are short asks for lengths and bytes alternately.
pub fn restart_in_turns_is_lawful()
    ensures { Lawful echo server plain 2 900000 (hello (booted server plain 2 900000)) RestartInTurns.turns }
{}

/// An acknowledgement of more than this incarnation sent, and of no more than an earlier one may have sent, counts as one of all that this one sent.
pub fn client_knows_more_is_lawful()
    ensures { Lawful echo server plain 2 900000 (hello (booted server plain 2 900000)) ClientKnowsMore.restart_turns }
{}

/// A restarted connection answers its client's SYN with the SYN-ACK that has the logged numbers.
pub fn crash_before_syn_ack_is_lawful()
    ensures { Lawful echo server plain 2 900000 (hello (booted server plain 2 900000)) CrashBeforeSynAck.restart_turns }
{}

/// In the turn in which the text arrives, the Data may not be left out, nor may its Read be sent first or have another index.
pub fn wrong_copies_are_refused()
    ensures left_out { IsUnlawful (FirstPath.node_live FirstPath.open_point) FirstPath.text_comes FirstPath.without_copy }
    ensures read_first { IsUnlawful (FirstPath.node_live FirstPath.open_point) FirstPath.text_comes FirstPath.read_first }
    ensures index_off { IsUnlawful (FirstPath.node_live FirstPath.open_point) FirstPath.text_comes FirstPath.one_index_off }
{}

/// Nothing may be acknowledged that isn't logged, not even one unit. When the log's answer arrives, what is logged must be acknowledged.
pub fn wrong_acknowledgements_are_refused()
    ensures one_too_high { IsUnlawful (FirstPath.node_live FirstPath.open_point) FirstPath.text_comes FirstPath.one_too_high }
    ensures passed_on { IsUnlawful (FirstPath.node_live FirstPath.open_point) FirstPath.text_comes FirstPath.passed_on }
    ensures silent { IsUnlawful (FirstPath.node_live FirstPath.taken_point) FirstPath.stable_comes [] }
{}

/// Nothing is sent before the log has what it depends on: no output before its read, and no SYN-ACK before Opened.
pub fn early_packets_are_refused()
    ensures output { IsUnlawful (FirstPath.node_live FirstPath.open_point) FirstPath.text_comes FirstPath.released_early }
    ensures syn_ack { IsUnlawful (FirstPath.node_at (Serving 0 [])) FirstPath.syn_comes (FirstPath.packet_6 ∷ []) }
{}

/// The server's FIN isn't sent before the closing read is logged: not in the turn of that read, nor when the client's FIN is logged and the read isn't.
pub fn early_fins_are_refused()
    ensures with_the_read { IsUnlawful Closing.first_4.node Closing.first_5.input Closing.fin_with_read }
    ensures before_its_answer { IsUnlawful Closing.first_5.node Closing.first_6.input Closing.fin_before_reads }
{}

/// A client without room is probed with the FIN where no byte is waiting before it.
pub fn fin_probe_is_lawful()
    ensures { Lawful echo server plain 1 5000 (hello (booted server plain 1 5000)) ZeroWindow.fin_turns }
{}

/// A tick retransmits the unanswered Reads in the order of their indices, and in no other.
pub fn turned_reads_are_refused()
    ensures { IsUnlawful (FirstPath.node_live FirstPath.twice_read_point) Tick_comes FirstPath.reads_turned }
{}

/// A client without room gets no output past its edge except the probe, of one byte, when the timer expires and not earlier. The probe may not be left out.
pub fn wrong_probes_are_refused()
    ensures past_the_edge { IsUnlawful ZeroWindow.probe_6.node ZeroWindow.probe_7.input ZeroWindow.past_the_edge }
    ensures none { IsUnlawful ZeroWindow.probe_7.node Tick_comes [] }
    ensures wide { IsUnlawful ZeroWindow.probe_7.node Tick_comes ZeroWindow.wide_probe }
    ensures early { IsUnlawful ZeroWindow.probe_8.node Tick_comes ZeroWindow.probe_8.sent }
{}

/// A restart asks for no bytes before their read's length is fetched, and for no further lengths while the bytes of a fetched read are missing.
pub fn wrong_questions_are_refused()
    ensures bytes_first { IsUnlawful RestartInTurns.turn_1.node RestartInTurns.turn_2.input RestartInTurns.bytes_first }
    ensures lengths_ahead { IsUnlawful RestartInTurns.turn_2.node RestartInTurns.turn_3.input RestartInTurns.lengths_ahead }
{}

/// While a server fetches, a client whose entry is fetched is neither reset nor left without an answer. In the turn of the last answer it gets a segment that
/// shows that the server serves again.
pub fn wrong_restarts_are_refused()
    ensures reset { IsUnlawful SegmentWhileRestarting.restart_2.node SegmentWhileRestarting.restart_3.input SegmentWhileRestarting.reset_meanwhile }
    ensures silent { IsUnlawful SegmentWhileRestarting.restart_2.node SegmentWhileRestarting.restart_3.input [] }
    ensures restarting { IsUnlawful SegmentWhileRestarting.restart_4.node SegmentWhileRestarting.restart_5.input [] }
{}

/// The complete run with a client without room is a legal trace of its schedule, and its report has these lines.
pub fn zero_window_is_legal()
    ensures legal { Legal (λ kind. echo) ZeroWindowTrace.schedule ZeroWindowTrace.trace }
    ensures reported { report ZeroWindowTrace.schedule ZeroWindowTrace.trace ≡ concat ZeroWindowTrace.report_lines }
{}
