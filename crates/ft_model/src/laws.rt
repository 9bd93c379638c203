//! Laws about the definitions. Nothing here runs; each function is a theorem.

ghost use Rattle.std.specs.Prelude.{◌≡◌, ℕ, ◌<◌, ◌+◌, pos, int_le, true, false, Some, None, List, [], ◌∷◌, if◌then◌else◌};
ghost use Rattle.std.specs.List.{AllByRecursion, list_any};
ghost use Rattle.ft_io.specs.declared.Addr.{Addr};
ghost use Rattle.server_trait.specs.Service.{machine};
ghost use Rattle.ft_model.specs.Network.{Packet};
ghost use Rattle.ft_model.specs.News.{News};
ghost use Rattle.ft_model.specs.News.News.{Comes, Begins};
ghost use Rattle.ft_model.specs.Reads.{next_read};
ghost use Rattle.ft_model.specs.Segments.{fin_segment, sends_fin, new_fin};
ghost use Rattle.ft_model.specs.Acknowledgement.{is_segment, IsReported};
ghost use Rattle.ft_model.specs.Point.{Point, taken_units, acknowledgement, most, HoldsBehind, room};
ghost use Rattle.ft_model.specs.Offset.{first_of, ack_of, length_of};
ghost use Rattle.ft_model.specs.Taken.{accepts, uses, acknowledges_unsent, counts, taken_after, early_after, fin_after};
ghost use Rattle.ft_model.specs.Sending.{syn_acked_after, acknowledged_after, edge_after, wl1_after, wl2_after, congestion_after};
ghost use Rattle.ft_model.specs.PendingAck.{needs_ack, is_ack_due, is_ack_pending};
ghost use Rattle.seq_arith.specs.Packet.{Segment, has_syn, has_rst, has_ack};
ghost use Rattle.seq_arith.specs.Message.{Numbers};
ghost use Rattle.tcp_rules.specs.Profile.{Profile, plain};
ghost use Rattle.tcp_rules.specs.declared.timestamping.Timestamping.TheVariants.{Off};
ghost use Rattle.tcp_rules.specs.Timestamping.{timestamps_sent};
ghost use Rattle.tcp_rules.specs.Timing.{initial_timing};
ghost use Rattle.ft_model.specs.Log.{Entry};
ghost use Rattle.ft_model.specs.Profiled.{HasProfile};
ghost use Rattle.ft_model.specs.Opening.{point_opened, timestamping_for};
ghost use Rattle.ft_model.specs.Timestamps.{timestamping_after};
ghost use Rattle.ft_model.specs.Restart.{point_of};
ghost use Rattle.ft_model.specs.Connection.{LiveTurn, ConnectionTurn};
ghost use Rattle.ft_model.specs.Node.{Node, Input, AllCount, points_at};
ghost use Rattle.ft_model.specs.Lawful.{LawfulTurn, is_fenced};
ghost use Rattle.ft_model.specs.World.{World, Moment, Happens, Joint, IsStart, world_after};
ghost use Rattle.ft_model.specs.Legal.{Legal, start_of, machines};
ghost use Rattle.ft_model.specs.declared.event.Event.TheVariants.{Flip};
ghost use Rattle.ft_model.specs.Outcome.{IsWhole, IsRefused, IsPastPackets, HasOutcome};
ghost use Rattle.ft_model.specs.Readable.{FitsEvent};
ghost use Rattle.ft_model.specs.declared.schedule.Schedule.{Schedule};

use server_trait::Service;

/// A turn is determined by the server's state and its input: two lawful turns from the same state with the same input send the same packets in order, and lead
/// to the same state.
pub fn turns_are_determined<S: Service>()
    ensures { (kind : ℕ) (before after other : Node) (input : Input) (sent also : List Packet)
        → LawfulTurn (machine (S.started kind) S.after S.greeting) before input sent after
        → LawfulTurn (machine (S.started kind) S.after S.greeting) before input also other
        → (after ≡ other) × (sent ≡ also) }
{}

/// Each turn can be made: from each state in which no more reads are known to be logged than were made, each input has a lawful turn, and it leads to such a
/// state again. Only a fenced server has no turn any more. So the laws never contradict one another.
pub fn turns_exist<S: Service>()
    ensures { (kind : ℕ) (before : Node) (input : Input) → is_fenced before.stage ≡ false → AllCount before.stage
        → (after : Node) × (sent : List Packet) × LawfulTurn (machine (S.started kind) S.after S.greeting) before input sent after × AllCount after.stage }
{}

/// After each turn the last report to the client is of what is taken and answered: every segment acknowledges that and advertises the window, and a turn
/// without a segment changes neither.
pub fn turns_report_to_the_client<S: Service>()
    ensures { (kind boot : ℕ) (server : Addr) (news : News) (before after : Point) (sent : List Packet)
        → LiveTurn (machine (S.started kind) S.after S.greeting) server boot news before after sent → IsReported before after sent }
{}

/// The turn in which a connection becomes live sends a segment to its client.
pub fn live_connections_begin_with_a_segment<S: Service>()
    ensures { (kind boot : ℕ) (server : Addr) (before after : Point) (sent : List Packet)
        → LiveTurn (machine (S.started kind) S.after S.greeting) server boot Begins before after sent → list_any is_segment sent ≡ true }
{}

/// After a turn no read is left that may be made.
pub fn turns_leave_no_read<S: Service>()
    ensures { (kind boot : ℕ) (server : Addr) (news : News) (before after : Point) (sent : List Packet)
        → LiveTurn (machine (S.started kind) S.after S.greeting) server boot news before after sent
        → next_read (machine (S.started kind) S.after S.greeting) after ≡ None }
{}

/// Where the unit after all output is sent for the first time, an answered read has closed the service. So for a new FIN the law on output follows from the
/// laws of sending.
pub fn new_fins_are_closed<S: Service>()
    ensures { (kind : ℕ) (server : Addr) (before after : Point)
        → new_fin (machine (S.started kind) S.after S.greeting) server before after
        ≡ (if sends_fin (machine (S.started kind) S.after S.greeting) before after then fin_segment
        (machine (S.started kind) S.after S.greeting) server after ∷ [] else []) }
{}

/// At a zero receive window the acknowledgement of a segment at the next number is used, whatever the segment carries. Nothing of it is taken where what is
/// held is after a gap (`HoldsBehind`), and it is answered if its length isn't 0 and it has no RST. Without this rule neither side of a connection whose
/// windows are both zero could continue.
pub fn shut_windows_pass_acknowledgements()
    ensures used { (p : Point) (segment : Segment) → room p ≡ 0 → first_of p.cisn segment ≡ pos (taken_units p) → uses p segment ≡ true }
    ensures not_taken { (p : Point) (segment : Segment) → HoldsBehind p → room p ≡ 0 → (taken_after (Comes segment) p ≡ p.taken)
        × (fin_after (Comes segment) p ≡ p.fin) }
    ensures ack_pending { (p : Point) (segment : Segment) → room p ≡ 0 → 0 < length_of segment → has_rst segment ≡ false → needs_ack p segment ≡ true }
{}

/// A segment that acknowledges what was never sent changes nothing of its connection: neither its text nor its FIN is taken or held, and neither its
/// acknowledgement nor its window is used. An established connection answers it with an ACK.
/// While the SYN is unacknowledged, it is dropped if it is acceptable.
pub fn unsent_acknowledgements_change_nothing()
    ensures not_taken { (p : Point) (segment : Segment) → acknowledges_unsent p segment ≡ true
        → (taken_after (Comes segment) p ≡ p.taken) × (early_after (Comes segment) p ≡ p.early) × (fin_after (Comes segment) p ≡ p.fin) }
    ensures syn_stays { (p : Point) (segment : Segment) → acknowledges_unsent p segment ≡ true → syn_acked_after (Comes segment) p ≡ p.syn_acked }
    ensures not_used { (p : Point) (segment : Segment) → acknowledges_unsent p segment ≡ true → acknowledged_after (Comes segment) p ≡ p.una }
    ensures window_stays { (p : Point) (segment : Segment) → acknowledges_unsent p segment ≡ true
        → (edge_after (Comes segment) p ≡ p.edge) × (wl1_after (Comes segment) p ≡ p.wl1) × (wl2_after (Comes segment) p ≡ p.wl2) }
    ensures congestion_stays { (p : Point) (segment : Segment) → acknowledges_unsent p segment ≡ true → congestion_after (Comes segment) p ≡ p.congestion }
    ensures answered { (p : Point) (segment : Segment) → p.syn_acked ≡ true → has_ack segment ≡ true → has_rst segment ≡ false
        → acknowledges_unsent p segment ≡ true → needs_ack p segment ≡ true }
    ensures dropped { (p : Point) (segment : Segment) → p.syn_acked ≡ false → accepts p segment ≡ true → has_ack segment ≡ true → has_syn segment ≡ false
        → has_rst segment ≡ false → acknowledges_unsent p segment ≡ true → needs_ack p segment ≡ false }
{}

/// A handshake can't be guessed: in a new connection, which has sent nothing but its SYN, the first segment that counts acknowledges exactly the SYN.
pub fn handshakes_acknowledge_the_syn()
    ensures { (p : Point) (segment : Segment) → p.syn_acked ≡ false → most p ≡ 0 → counts p segment ≡ true → ack_of p.sisn segment ≡ pos 0 }
{}

/// In every joint trace the data that a live connection holds is after a gap and below the right edge of the receive window, and nothing is held once the FIN
/// is taken.
pub fn held_text_stands_behind<S: Service>()
    ensures { (kind : ℕ) (start : World) (trace : List Moment) (node : Node) → Joint (machine (S.started kind) S.after S.greeting) start trace
        → (world_after start trace).node ≡ Some node → AllByRecursion HoldsBehind (points_at node.stage) }
{}

/// Every connection has its server's profile, from its first point on and after every turn, and a trace's servers have the profile with which it starts.
pub fn profiles_stay<S: Service>()
    ensures opened { (profile : Profile) (syn : Segment) (numbers : Numbers)
        → HasProfile profile (point_opened profile (timestamping_for profile syn) numbers) }
    ensures restored { (kind : ℕ) (profile : Profile) (entry : Entry)
        → HasProfile profile (point_of (machine (S.started kind) S.after S.greeting) profile entry) }
    ensures turn { (kind boot : ℕ) (profile : Profile) (server : Addr) (news : News) (before after : Point) (sent : List Packet)
        → ConnectionTurn (machine (S.started kind) S.after S.greeting) server boot news before after sent → HasProfile profile before
        → HasProfile profile after }
    ensures trace { (kind : ℕ) (start : World) (trace : List Moment) (node : Node) → Joint (machine (S.started kind) S.after S.greeting) start trace
        → (world_after start trace).node ≡ Some node
        → (node.profile ≡ start.profile) × AllByRecursion (HasProfile start.profile) (points_at node.stage) }
{}

/// A plain connection's timing never changes, so its timer always starts with one tick; its segments carry no timestamps; and an ACK that is due is pending.
pub fn plain_stays<S: Service>()
    ensures timing { (kind : ℕ) (start : World) (trace : List Moment) (node : Node) → Joint (machine (S.started kind) S.after S.greeting) start trace
        → (world_after start trace).node ≡ Some node → start.profile ≡ plain
        → AllByRecursion (λ p. p.timing ≡ initial_timing false) (points_at node.stage) }
    ensures timestamps { (kind : ℕ) (start : World) (trace : List Moment) (node : Node) → Joint (machine (S.started kind) S.after S.greeting) start trace
        → (world_after start trace).node ≡ Some node → start.profile ≡ plain → AllByRecursion (λ p. p.timestamping ≡ Off) (points_at node.stage) }
    ensures base { (p : Point) → p.timing ≡ initial_timing false → p.timing.base ≡ 1 }
    ensures ack { (kind : ℕ) (news : News) (before after : Point) → before.delays ≡ false
        → is_ack_pending (machine (S.started kind) S.after S.greeting) news before after
        ≡ is_ack_due (machine (S.started kind) S.after S.greeting) news before after }
{}

/// Timestamps echo only what the client has sent in time: after a restart none is echoed until a segment brings one, and a segment that begins past the last
/// acknowledgement changes nothing (RFC 7323, 4.3).
pub fn echoes_are_in_time<S: Service>()
    ensures restored { (kind : ℕ) (profile : Profile) (entry : Entry)
        → timestamps_sent (point_of (machine (S.started kind) S.after S.greeting) profile entry).timestamping ≡ None }
    ensures late { (p : Point) (segment : Segment) → int_le (first_of p.cisn segment) (pos (acknowledgement p)) ≡ false
        → timestamping_after (Comes segment) p ≡ p.timestamping }
{}

/// At the right edge of an open window a segment of length 0 is acceptable.
pub fn right_edges_accept()
    ensures { (p : Point) (segment : Segment) → 0 < room p → length_of segment ≡ 0 → first_of p.cisn segment ≡ pos (taken_units p + room p)
        → accepts p segment ≡ true }
{}

/// A schedule has at most one legal trace: its events, the scripted clients and the laws of the server leave nothing open.
pub fn legal_traces_are_determined<S: Service>()
    ensures { (schedule : Schedule) (trace other : List Moment)
        → Legal (machines S.started S.after S.greeting) schedule trace → Legal (machines S.started S.after S.greeting) schedule other → trace ≡ other }
{}

/// A schedule has an outcome: all its events are done, one is refused, or the packets exceed their limit. Its premises: the schedule can start, and its
/// events' numbers fit their types, as in every schedule that a text spells.
pub fn schedules_have_an_outcome<S: Service>()
    ensures { (schedule : Schedule) → IsStart (start_of schedule) → AllByRecursion FitsEvent schedule.events
        → HasOutcome (machines S.started S.after S.greeting) schedule }
{}

/// A schedule has only one outcome: no two of the three hold of it, and the event that is refused or exceeds the limit is determined, and so is the cause.
pub fn schedules_have_one_outcome<S: Service>()
    ensures whole_or_refused { (schedule : Schedule)
        → IsWhole (machines S.started S.after S.greeting) schedule → IsRefused (machines S.started S.after S.greeting) schedule → ⊥ }
    ensures whole_or_past { (schedule : Schedule)
        → IsWhole (machines S.started S.after S.greeting) schedule → IsPastPackets (machines S.started S.after S.greeting) schedule → ⊥ }
    ensures refused_or_past { (schedule : Schedule)
        → IsRefused (machines S.started S.after S.greeting) schedule → IsPastPackets (machines S.started S.after S.greeting) schedule → ⊥ }
    ensures refused_once { (schedule : Schedule) (a b : IsRefused (machines S.started S.after S.greeting) schedule)
        → (a.played ≡ b.played) × (a.event ≡ b.event) × (a.why ≡ b.why) }
    ensures past_once { (schedule : Schedule) (a b : IsPastPackets (machines S.started S.after S.greeting) schedule)
        → (a.played ≡ b.played) × (a.event ≡ b.event) }
{}

/// A packet that is delivered with a changed bit changes nothing at a client or the log.
pub fn changed_bits_are_noise<S: Service>()
    ensures { (kind number bit : ℕ) (before after : World) (sent : List Packet)
        → Happens (machine (S.started kind) S.after S.greeting) before (Flip number bit) sent after
        → (after.clients ≡ before.clients) × (after.log ≡ before.log) }
{}
