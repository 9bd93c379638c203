//! The laws that an endpoint satisfies, each the contract of a function with an empty body, for the crates above to cite. They don't use the functions that the
//! code's contracts name, but the terms of `ft_model`'s laws.

ghost use Rattle.limits.specs.Limits.{longest_stream};
ghost use Rattle.std.specs.Prelude.{◌≡◌, ℕ, ◌+◌, ◌%◌, ◌<◌, ◌≤◌, ◌^◌, Bool, true, false, List, length};
ghost use Rattle.seq_arith.specs.Packet.{Segment};
ghost use Rattle.tcp_rules.specs.Timing.{first_base};
ghost use Rattle.tcp_endpoint.specs.States.{has_begun};
ghost use Rattle.tcp_endpoint.specs.Tcb.{Tcb, listening, listening_measuring, connecting, connecting_measuring};
ghost use Rattle.tcp_endpoint.specs.Arrival.{received};
ghost use Rattle.endpoint_laws.specs.Laws.{IsBounded, IsUsual, taken_by, IsSentBy, ProbesRightly, sent_by_law, is_refused, needs_ack, starts};
ghost use Rattle.endpoint_laws.specs.Laws.{interval_by, rest_by};
ghost use Rattle.endpoint_laws.specs.Laws.{shows_loss, congestion_ticked, timing_ticked, timing_at_end, ticked_interval, ticked_rest, IsTimedBy};
ghost use Rattle.endpoint_laws.specs.Laws.{last_advertised, asks, IsShut};
ghost use Rattle.tcp_endpoint.specs.SendHalf.{IsShort};
ghost use Rattle.tcp_endpoint.specs.ReceiveHalf.{next, advertised_edge};
ghost use Rattle.tcp_endpoint.specs.Output.{or_bare, bare_segment, full_out, leaving, after_full, is_timed, flushed};
ghost use Rattle.tcp_endpoint.specs.UserCalls.{after_tick, after_read, after_write, closing};
ghost use Rattle.tcp_endpoint.specs.declared.states.StateName.TheVariants.{Listen, SynSent};
ghost use Rattle.ft_io.specs.declared.Addr.{Addr};
ghost use Rattle.server_trait.specs.Service.{Machine, machine};
ghost use Rattle.ft_model.specs.News.{News};
ghost use Rattle.ft_model.specs.News.News.{Comes};
ghost use Rattle.ft_model.specs.Opening.{is_syn};
ghost use Rattle.ft_model.specs.Point.{Point};
ghost use Rattle.endpoint_laws.specs.Turn.{Call, Events, MayUse, IsUsualNews, IsBetweenTurns, arrived, before_flush, turned};
ghost use Rattle.endpoint_laws.specs.PassiveOpen.{IsListening, brings_syn};
ghost use Rattle.endpoint_laws.specs.Refinement.{StandsAt, MeetsLaws, IsUsedAt, LeadsTo, EndsAt, BeginsAt, Step, RunsByLaws, numbers_with, point_begun};
ghost use Rattle.std.specs.Prelude.{◌⊎◌, ◌||◌, [], None};
ghost use Rattle.std.specs.List.{AllByRecursion};
ghost use Rattle.tcp_endpoint.specs.declared.states.StateName.TheVariants.{Closed};
ghost use Rattle.endpoint_laws.specs.Turn.{sent_in};
ghost use Rattle.endpoint_laws.specs.ConnectionEnd.{IsNamedRightly, has_taken_fin, resets, is_over};
ghost use Rattle.endpoint_laws.specs.Advertisement.{Advertises, is_reported, ReadsOnlyTaken, AcknowledgesAll};
ghost use Rattle.std.specs.Prelude.{◌∷◌};
ghost use Rattle.endpoint_laws.specs.Unconnected.{syn_of};
ghost use Rattle.endpoint_laws.specs.Turn.{used};
ghost use Rattle.endpoint_laws.specs.ActiveOpen.{IsConnecting, FieldsFit};

use server_trait::Service;

/// The law Taken: which bytes of a segment are taken, which are held, and when its FIN is taken.
#[tactic(auto, using(crate::proofs::TakenLaw::taken_law))]
pub fn segments_are_taken_by_law()
    ensures { (e : Tcb) (p : Segment) → has_begun e.name ≡ true → IsBounded e → IsUsual e p → (received e p).receiving ≡ taken_by e p }
{}

/// The law Sending: what an acknowledgement and a window do. Nothing is sent when a segment arrives: the flush does that.
#[tactic(auto, using(crate::proofs::SendingLaw::sending_law))]
pub fn segments_are_acknowledged_by_law()
    ensures { (e : Tcb) (p : Segment) → has_begun e.name ≡ true → IsBounded e → IsUsual e p → IsSentBy e p (received e p).sending }
{}

/// A segment makes the first unacknowledged segment due for retransmission exactly if it is the third duplicate acknowledgement in a row, or acknowledges
/// only a part of what was in flight when a loss was noticed.
#[tactic(auto, using(crate::proofs::SendingLaw::retransmission_law))]
pub fn losses_send_again()
    ensures { (e : Tcb) (p : Segment) → has_begun e.name ≡ true → IsBounded e → IsUsual e p
        → (received e p).retransmission_due ≡ (e.retransmission_due || shows_loss e p) }
{}

/// The law Sending, at a tick: where the timer expires, what is in flight counts as lost if the peer's right edge is past SND.UNA.
#[tactic(auto, using(crate::proofs::SendingLaw::ticked_law))]
pub fn ticks_lose_by_law()
    ensures { (e : Tcb) → IsBounded e → (after_tick e).sending.congestion ≡ congestion_ticked e.sending }
{}

/// A tick counts for the estimate of the round-trip time, and an expiry backs the interval off, ..
#[tactic(auto, using(crate::proofs::SendingLaw::ticked_timing))]
pub fn ticks_are_measured_by_law()
    ensures { (e : Tcb) → (after_tick e).sending.timing ≡ timing_ticked e.sending }
{}

/// .. and at the end of a turn the first unit that is sent for the first time is timed.
#[tactic(auto, using(crate::proofs::TurnEnd::timing_law))]
pub fn turns_time_what_they_send()
    ensures { (e : Tcb) → has_begun e.name ≡ true → IsBounded e → ProbesRightly e → (flushed e).sending.timing ≡ timing_at_end e }
{}

/// A passive open with a limit of at most 2^24 bytes is within the bounds (`IsBounded`) ..
#[tactic(auto, using(crate::proofs::Bounding::bounded_at_listen, crate::proofs::Bounding::bounded_at_listen_measuring))]
pub fn passive_opens_are_bounded()
    ensures plain { (local : Addr) (iss limit : ℕ) → limit ≤ longest_stream → IsBounded (listening local iss limit) }
    ensures measuring { (measures : Bool) (local : Addr) (iss limit : ℕ) → limit ≤ longest_stream → IsBounded (listening_measuring measures local iss limit) }
{}

/// .. and so is an active one.
#[tactic(auto, using(crate::proofs::Bounding::bounded_at_connect, crate::proofs::Bounding::bounded_at_connect_measuring))]
pub fn active_opens_are_bounded()
    ensures plain { (local remote : Addr) (iss limit : ℕ) → limit ≤ longest_stream → IsBounded (connecting local remote iss limit) }
    ensures measuring { (measures : Bool) (local remote : Addr) (iss limit : ℕ) → limit ≤ longest_stream
        → IsBounded (connecting_measuring measures local remote iss limit) }
{}

/// An endpoint stays within the bounds when a segment arrives in LISTEN, ..
#[tactic(auto, using(crate::proofs::Bounding::bounded_in_listen))]
pub fn listening_stays_bounded()
    ensures { (e : Tcb) (p : Segment) → e.name ≡ Listen → e.sending.syn_acked ≡ false → IsBounded e → IsBounded (received e p) }
{}

/// .. and in SYN-SENT, ..
#[tactic(auto, using(crate::proofs::Bounding::bounded_in_syn_sent))]
pub fn answers_keep_the_bounds()
    ensures { (e : Tcb) (p : Segment) → e.name ≡ SynSent → e.sending.syn_acked ≡ false → IsBounded e → p.head.seq < 2 ^ 32 → p.head.window ≤ 65535
        → IsBounded (received e p) }
{}

/// .. in a connection that has begun, ..
#[tactic(auto, using(crate::proofs::Bounding::bounded_by_segment))]
pub fn segments_keep_the_bounds()
    ensures { (e : Tcb) (p : Segment) → has_begun e.name ≡ true → IsBounded e → IsUsual e p → IsBounded (received e p) }
{}

/// .. when a turn ends, ..
#[tactic(auto, using(crate::proofs::Bounding::bounded_by_flush))]
pub fn flushes_keep_the_bounds()
    ensures { (e : Tcb) → IsBounded e → IsBounded (flushed e) }
{}

/// .. when a tick passes, ..
#[tactic(auto, using(crate::proofs::Bounding::bounded_by_tick))]
pub fn ticks_keep_the_bounds()
    ensures { (e : Tcb) → IsBounded e → IsBounded (after_tick e) }
{}

/// .. when the user reads, ..
#[tactic(auto, using(crate::proofs::Bounding::bounded_by_read))]
pub fn reads_keep_the_bounds()
    ensures { (e : Tcb) (n : ℕ) → n ≤ length e.receiving.unread → IsBounded e → IsBounded (after_read e n) }
{}

/// .. when the user writes and has written no more than 2^24 bytes, ..
#[tactic(auto, using(crate::proofs::Bounding::bounded_by_write))]
pub fn writes_keep_the_bounds()
    ensures { (e : Tcb) (bytes : List ℕ) → e.sending.una + length e.sending.held + length bytes ≤ longest_stream → IsBounded e
        → IsBounded (after_write e bytes) }
{}

/// .. and when the user closes.
pub fn closing_keeps_the_bounds()
    ensures { (e : Tcb) → IsBounded e → IsBounded (closing e) }
{}

/// Within the bounds numbers show the order of offsets, as `on_packet` requires.
#[tactic(auto, using(crate::proofs::Bounding::bounded_is_short))]
pub fn bounds_are_enough()
    ensures { (e : Tcb) → IsBounded e → IsShort e.sending }
{}

/// The law Sending, at the end of a turn: all that may be sent is sent at once, up to the right edge and the end of the congestion window, and one unit more at
/// a probe.
#[tactic(auto, using(crate::proofs::TurnLaw::sent_law))]
pub fn turns_send_up_to_the_edge()
    ensures { (e : Tcb) → has_begun e.name ≡ true → IsBounded e → ProbesRightly e → (flushed e).sending.sent ≡ sent_by_law e }
{}

/// The law on pending ACKs: which segments require an ACK. A pure ACK is sent if no other segment is.
#[tactic(auto, using(crate::proofs::OwedLaw::ack_pending_law))]
pub fn segments_are_owed_answers_by_law()
    ensures { (e : Tcb) (p : Segment) → has_begun e.name ≡ true → IsBounded e → IsUsual e p → e.ack_pending ≡ false → is_refused e p ≡ false
        → (received e p).ack_pending ≡ needs_ack e p }
{}

/// The law of the timer, at the end of a turn with a segment, whatever the user does in between.
pub fn segments_time_by_law()
    ensures { (e u : Tcb) (p : Segment) → has_begun e.name ≡ true → IsBounded e → IsUsual e p
        → u.sending.timing ≡ (received e p).sending.timing → u.sending.interval ≡ (received e p).sending.interval
        → u.sending.rest ≡ (received e p).sending.rest
        → IsTimedBy (flushed u).sending
        (interval_by (is_timed (after_full u)) (starts e.sending (received e p).sending) u.sending.timing.base e.sending)
        (rest_by (is_timed (after_full u)) (starts e.sending (received e p).sending) u.sending.timing.base e.sending) }
{}

/// The law of the timer, at the end of a turn with a tick.
pub fn ticks_time_by_law()
    ensures { (e u : Tcb) → 1 ≤ e.sending.interval → u.sending.timing ≡ (after_tick e).sending.timing
        → u.sending.interval ≡ (after_tick e).sending.interval → u.sending.rest ≡ (after_tick e).sending.rest
        → IsTimedBy (flushed u).sending (ticked_interval (is_timed (after_full u)) u.sending.timing.base e.sending)
        (ticked_rest (is_timed (after_full u)) u.sending.timing.base e.sending) }
{}

/// A passive open listens: nothing is received or sent yet, and nothing is due.
#[tactic(auto, using(crate::proofs::Listening::listens_at_listen, crate::proofs::Listening::listens_at_listen_measuring))]
pub fn passive_opens_listen()
    ensures plain { (local : Addr) (iss limit : ℕ) → IsListening iss limit (listening local iss limit) }
    ensures measuring { (measures : Bool) (local : Addr) (iss limit : ℕ) → IsListening iss limit (listening_measuring measures local iss limit) }
{}

/// A listening endpoint still listens, at the same address, after each turn in which no SYN arrives that opens a connection and the user doesn't close:
/// nothing is received, the timer doesn't run, and what the user writes waits.
pub fn listening_proceeds()
    ensures { (iss limit : ℕ) (news : News) (calls : List Call) (e : Tcb) → IsListening iss limit e → brings_syn news ≡ false
        → MayUse calls (arrived news e) → (before_flush news calls e).name ≡ Listen
        → IsListening iss limit (turned news calls e) × ((turned news calls e).local ≡ e.local) }
{}

/// A SYN takes a listening endpoint to a point of `ft_model`, whatever arrived and was written before: the new connection's point. Only the SYN-ACK is sent.
/// The point counts as fetched as many bytes as the endpoint's limit is below 2^24: none if the limit is 2^24.
pub fn syns_lead_to_points()
    ensures { (e : Tcb) (iss limit cisn : ℕ) (fetched : List ℕ) (syn : Segment) (calls : List Call)
        → IsListening iss limit e → limit + length fetched ≡ longest_stream → is_syn syn ≡ true → syn.head.seq ≡ (cisn + length fetched) % 2 ^ 32
        → MayUse calls (received e syn)
        → BeginsAt (point_begun e.sending.timing.measures fetched (numbers_with cisn iss syn)) e syn calls }
{}

/// From then on each turn after which the endpoint isn't CLOSED leads from its point to the next: the point that the laws Taken and Sending of `ft_model`,
/// with its law of the timer, determine for a service that reads and writes as the endpoint's user does. The segments sent are those that these laws require.
pub fn turns_lead_from_point_to_point<S: Service>()
    ensures { (kind : ℕ) (news : News) (calls : List Call) (before after : Point) (e : Tcb)
        → has_begun e.name ≡ true → IsBetweenTurns e → StandsAt before e → IsUsualNews news e → MayUse calls (arrived news e)
        → has_begun (before_flush news calls e).name ≡ true
        → MeetsLaws (machine (S.started kind) S.after S.greeting) news before after
        → IsUsedAt (machine (S.started kind) S.after S.greeting) after (before_flush news calls e)
        → LeadsTo (machine (S.started kind) S.after S.greeting) news before after e calls }
{}

/// There always is a next point: whatever arrives and whatever the user does, some service reads and writes as the user does.
pub fn turns_have_points()
    ensures { (news : News) (calls : List Call) (before : Point) (e : Tcb)
        → has_begun e.name ≡ true → IsBetweenTurns e → StandsAt before e → IsUsualNews news e → MayUse calls (arrived news e)
        → has_begun (before_flush news calls e).name ≡ true
        → (service : Machine ℕ) × (after : Point) × MeetsLaws service news before after × IsUsedAt service after (before_flush news calls e) }
{}

/// The same over a complete run: from its SYN on an endpoint of `listen` follows the laws Taken and Sending of `ft_model`, with the law of the timer, turn by
/// turn, until a RST at exactly the next number arrives, or until the peer's FIN is taken, its own is acknowledged and it is CLOSED. This holds for every
/// initial sequence number of both sides, every limit up to 2^24, and every user.
pub fn endpoints_run_by_the_laws()
    ensures { (e : Tcb) (iss limit cisn : ℕ) (fetched : List ℕ) (syn : Segment) (calls : List Call) (steps : List Step)
        → IsListening iss limit e → limit + length fetched ≡ longest_stream → is_syn syn ≡ true → syn.head.seq ≡ (cisn + length fetched) % 2 ^ 32
        → MayUse calls (received e syn)
        → BeginsAt (point_begun e.sending.timing.measures fetched (numbers_with cisn iss syn)) e syn calls
        × RunsByLaws (point_begun e.sending.timing.measures fetched (numbers_with cisn iss syn)) (turned (Comes syn) calls e) steps }
{}

/// In the turn that ends a connection without a RST, the endpoint becomes CLOSED and sends nothing. Its two halves are then at the point after that turn.
pub fn connections_end_at_points<S: Service>()
    ensures { (kind : ℕ) (news : News) (calls : List Call) (before after : Point) (e : Tcb)
        → has_begun e.name ≡ true → IsBetweenTurns e → IsNamedRightly e → StandsAt before e → IsUsualNews news e → MayUse calls (arrived news e)
        → resets news e ≡ false → has_begun (before_flush news calls e).name ≡ false
        → MeetsLaws (machine (S.started kind) S.after S.greeting) news before after
        → IsUsedAt (machine (S.started kind) S.after S.greeting) after (before_flush news calls e)
        → EndsAt after (before_flush news calls e) }
{}

/// The state of a connection that has begun shows whether the peer's FIN is taken.
pub fn states_show_the_peers_fin()
    ensures { (e : Tcb) → has_begun e.name ≡ true → IsNamedRightly e → e.receiving.fin ≡ has_taken_fin e.name }
{}

/// The law on pure ACKs, at the end of a turn with a segment: one is sent exactly where an ACK is pending and no other segment is sent.
pub fn bare_segments_go_out_where_owed()
    ensures { (e u : Tcb) (p : Segment) → has_begun e.name ≡ true → has_begun u.name ≡ true → IsBounded e → IsUsual e p → e.ack_pending ≡ false
        → is_refused e p ≡ false → u.ack_pending ≡ (received e p).ack_pending
        → leaving u ≡ or_bare (asks (needs_ack e p) u) (bare_segment (after_full u)) (full_out u) }
{}

/// The same, at the end of a turn in which no segment arrived: an ACK is pending where the acknowledgement or the right edge has changed.
pub fn bare_segments_report_changes()
    ensures { (u : Tcb) → has_begun u.name ≡ true → u.ack_pending ≡ false
        → leaving u ≡ or_bare (asks false u) (bare_segment (after_full u)) (full_out u) }
{}

/// Once a turn has ended, the acknowledgement and the right edge last advertised are RCV.NXT and the right edge of the window ..
#[tactic(auto, using(crate::proofs::ReportedLaw::reported_by_flush))]
pub fn turns_advertise()
    ensures { (e : Tcb) → has_begun e.name ≡ true → last_advertised (flushed e) ≡ (next e.receiving, advertised_edge e.receiving) }
{}

/// .. and a segment doesn't change what was last advertised.
#[tactic(auto, using(crate::proofs::ReportedLaw::reported_by_segment))]
pub fn segments_advertise_nothing()
    ensures { (e : Tcb) (p : Segment) → has_begun e.name ≡ true → last_advertised (received e p) ≡ last_advertised e }
{}

/// A tick makes a probe due only where one may be sent (`ProbesRightly`), ..
#[tactic(auto, using(crate::proofs::ReportedLaw::probed_by_tick))]
pub fn ticks_probe_rightly()
    ensures { (e : Tcb) → e.probe ≡ false → IsBounded e → IsShut e.sending → ProbesRightly (after_tick e) }
{}

/// .. since at the end of a turn, if the timer runs with nothing in flight, something is waiting that has no room below the right edge, ..
#[tactic(auto, using(crate::proofs::ReportedLaw::shut_by_flush))]
pub fn turns_end_shut()
    ensures { (e : Tcb) → has_begun e.name ≡ true → IsBounded e → ProbesRightly e → IsShut (flushed e).sending }
{}

/// .. and what the user writes only adds to what is waiting.
#[tactic(auto, using(crate::proofs::ReportedLaw::shut_by_write))]
pub fn writes_leave_shut()
    ensures { (e : Tcb) (bytes : List ℕ) → IsShut e.sending → IsShut (after_write e bytes).sending }
{}

/// After the turn of its SYN an endpoint of `listen` is in the state that its halves imply: by whether its SYN is acknowledged, its user has closed, the
/// peer's FIN is taken, and its FIN is acknowledged.
pub fn syns_name_rightly()
    ensures { (e : Tcb) (iss limit : ℕ) (syn : Segment) (calls : List Call) → IsListening iss limit e → is_syn syn ≡ true
        → IsNamedRightly (turned (Comes syn) calls e) }
{}

/// Each turn leaves a connection that has begun in the state that its halves imply, whatever arrives and whatever the user does.
pub fn turns_name_rightly()
    ensures { (news : News) (calls : List Call) (e : Tcb) → has_begun e.name ≡ true → IsBetweenTurns e → IsNamedRightly e
        → IsNamedRightly (turned news calls e) }
{}

/// So a connection that has begun ends only when a RST arrives at exactly the next number, or when the peer's FIN is taken and the endpoint's own is
/// acknowledged.
pub fn connections_end_by_resets_or_fins()
    ensures { (news : News) (calls : List Call) (e : Tcb) → has_begun e.name ≡ true → IsBetweenTurns e → IsNamedRightly e
        → has_begun (before_flush news calls e).name ≡ false → (resets news e ≡ true) ⊎ (is_over (before_flush news calls e) ≡ true) }
{}

/// A connection that has begun is reset in exactly the turns in which a RST arrives at exactly the next number, ..
pub fn connections_are_reset_at_the_next_number()
    ensures { (news : News) (calls : List Call) (e : Tcb) → has_begun e.name ≡ true
        → (before_flush news calls e).reset ≡ (e.reset || resets news e) }
{}

/// .. and then it is CLOSED, and nothing is sent.
pub fn resets_close_in_silence()
    ensures { (news : News) (calls : List Call) (e : Tcb) → has_begun e.name ≡ true → IsBetweenTurns e → resets news e ≡ true
        → ((before_flush news calls e).name ≡ Closed) × (sent_in news calls e ≡ []) }
{}

/// What the laws require of a connection that has begun, passive or active, holds again after each turn, until it is CLOSED.
pub fn turns_keep_what_laws_ask()
    ensures { (news : News) (calls : List Call) (e : Tcb) → e.receiving.irs < 2 ^ 32 → has_begun e.name ≡ true → IsBetweenTurns e → IsUsualNews news e
        → MayUse calls (arrived news e) → has_begun (before_flush news calls e).name ≡ true → IsBetweenTurns (turned news calls e) }
{}

/// Every endpoint acknowledges all that it took: each segment that a connection sends once it has begun, except a RST, has ACK, acknowledges exactly what is
/// taken, and advertises the window.
pub fn segments_acknowledge_all_that_is_taken()
    ensures { (news : News) (calls : List Call) (e : Tcb) → e.reset_reply ≡ None → ReadsOnlyTaken calls (arrived news e)
        → has_begun (before_flush news calls e).name ≡ true → AllByRecursion (Advertises (before_flush news calls e)) (sent_in news calls e) }
{}

/// All that is taken is acknowledged at once: if more is taken in a turn, a segment is sent that isn't a RST, and so acknowledges it. The same holds if the
/// right edge moves, unless a RST is sent in reply.
pub fn what_is_taken_is_reported()
    ensures { (news : News) (calls : List Call) (e : Tcb) → has_begun e.name ≡ true → e.reset_reply ≡ None
        → last_advertised e ≡ (next e.receiving, advertised_edge e.receiving) → ReadsOnlyTaken calls (arrived news e)
        → has_begun (before_flush news calls e).name ≡ true
        → (next (before_flush news calls e).receiving ≡ next e.receiving → ⊥)
        ⊎ (((before_flush news calls e).reset_reply ≡ None) × (advertised_edge (before_flush news calls e).receiving ≡ advertised_edge e.receiving → ⊥))
        → is_reported (sent_in news calls e) ≡ true }
{}

/// The same over a complete run of every endpoint, passive or active: for every limit, whatever arrives and however much is written.
pub fn endpoints_acknowledge_all_that_they_took()
    ensures { (measures : Bool) (local remote : Addr) (iss limit : ℕ) (turns : List Events)
        → AcknowledgesAll (listening_measuring measures local iss limit) turns × AcknowledgesAll (connecting_measuring measures local remote iss limit) turns }
{}

/// An active open connects: whatever its user writes before the first flush, only the SYN is sent. Its timer runs from then on, with one tick left, or ten if
/// it measures round trips, and nothing else is due.
pub fn active_opens_connect()
    ensures { (measures : Bool) (local remote : Addr) (iss limit : ℕ) (calls : List Call) → MayUse calls (connecting_measuring measures local remote iss limit)
        → (used calls (connecting_measuring measures local remote iss limit)).name ≡ SynSent
        → IsConnecting iss limit (flushed (used calls (connecting_measuring measures local remote iss limit)))
        × (leaving (used calls (connecting_measuring measures local remote iss limit)) ≡ syn_of local remote iss limit ∷ [])
        × IsTimedBy (flushed (used calls (connecting_measuring measures local remote iss limit))).sending (first_base measures) (first_base measures) }
{}

/// A connecting endpoint still connects, between the same addresses, after each turn after which it is in SYN-SENT: nothing is received, and no unit of its
/// stream counts as sent or acknowledged.
pub fn connecting_proceeds()
    ensures { (iss limit : ℕ) (news : News) (calls : List Call) (e : Tcb) → IsConnecting iss limit e → MayUse calls (arrived news e)
        → (before_flush news calls e).name ≡ SynSent
        → IsConnecting iss limit (turned news calls e) × ((turned news calls e).local ≡ e.local) × ((turned news calls e).remote ≡ e.remote) }
{}

/// After the turn in which its SYN is acknowledged, an active open satisfies all that the laws on connections that have begun require: it is as such a
/// connection must be between two turns, and in the state that its halves imply.
pub fn answers_begin()
    ensures { (iss limit : ℕ) (news : News) (calls : List Call) (e : Tcb) → IsConnecting iss limit e → limit ≤ longest_stream → FieldsFit news
        → MayUse calls (arrived news e) → has_begun (before_flush news calls e).name ≡ true
        → IsBetweenTurns (turned news calls e) × IsNamedRightly (turned news calls e) × (has_begun (turned news calls e).name ≡ true) }
{}

/// In that turn at least one segment is sent that isn't a RST, and each such segment has ACK, acknowledges exactly what is taken, and advertises the window.
pub fn answers_are_acknowledged()
    ensures { (iss limit : ℕ) (news : News) (calls : List Call) (e : Tcb) → IsConnecting iss limit e → ReadsOnlyTaken calls (arrived news e)
        → has_begun (before_flush news calls e).name ≡ true
        → AllByRecursion (Advertises (before_flush news calls e)) (sent_in news calls e) × (is_reported (sent_in news calls e) ≡ true) }
{}
