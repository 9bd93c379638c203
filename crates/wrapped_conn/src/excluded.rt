//! Wrong results that the contracts of this crate exclude. Each function calls another one of the crate, and promises of its result what a wrong body would
//! make false. It is proved from the other's contract alone, so it is no longer proved once that contract lets the wrong body pass.

ghost use Rattle.limits.specs.Limits.{largest_segment, longest_stream};
ghost use Rattle.std.specs.Prelude.{◌≡◌, ◌<◌, ◌≤◌, ◌+◌, ◌-◌, ◌==◌, ◌∷◌, [], min, true, false, length, IsOk, IfOk};
ghost use Rattle.seq_arith.specs.Message.{Part};
ghost use Rattle.seq_arith.specs.Message.Body.{DataMsg};
ghost use Rattle.seq_arith.specs.Offset.{one_if};
ghost use Rattle.seq_arith.specs.Packet.{has_rst};
ghost use Rattle.seq_arith.specs.PacketGrammar.{reading};
ghost use Rattle.segment_codec.specs.Value.{segment_of};
ghost use Rattle.wrapped_conn.specs.LoggerMessages.{spelled, own_data, further_data};
ghost use Rattle.wrapped_conn.specs.Numbers.{units_taken, logged_units, una_units, is_unsent_ack, acknowledgeable, advertised};
ghost use Rattle.wrapped_conn.specs.Sound.{IsSound};

use crate::conn::Conn;
use crate::stage::Before;
use segment_codec::PacketRef;
use server_trait::Service;
use tcp_endpoint::Outbox;

/// A tick isn't an end tick while more of the client's units are taken than are known to be logged: the clause `state` of `Conn::count_end_tick`.
fn counts_ticks_before_all_is_logged<S: Service>(conn: &mut Conn<S>)
    requires sound { IsSound conn.old }
    requires unlogged { logged_units conn.old < units_taken conn.old }
    ensures { conn.new.end_ticks ≡ conn.old.end_ticks }
{
    conn.count_end_tick();
}

/// A connection isn't quiet while the client has acknowledged less output than is made: the contract of `Conn::is_quiet`.
fn quiet_with_output_unacknowledged<S: Service>(conn: &Conn<S>) -> bool
    requires { una_units conn.now < conn.now.north.run.made }
    ensures { result ≡ false }
{
    conn.is_quiet()
}

/// An ACK for a reason that TCP doesn't know is pending in every state of TCP, not only in CLOSED: the contract of `Conn::is_ack_pending`.
fn waits_to_acknowledge<S: Service>(conn: &Conn<S>, before: Before) -> bool
    requires sound { IsSound conn.now }
    requires asks { before.asks ≡ true }
    ensures { result ≡ true }
{
    conn.is_ack_pending(before)
}

/// An acceptable segment that acknowledges something that was never sent makes an ACK pending, whatever its length: the contract of
/// `Conn::needs_ack_if_acceptable`.
fn drops_an_unsent_acknowledgement_silently<S: Service>(
    conn: &Conn<S>,
    segment: &PacketRef<'_>,
) -> bool
    requires sound { IsSound conn.now }
    requires short { length segment.now.payload.now ≤ largest_segment }
    requires no_reset { has_rst (segment_of segment.now) ≡ false }
    requires unsent { is_unsent_ack conn.now (segment_of segment.now) ≡ true }
    ensures { result ≡ true }
{
    conn.needs_ack_if_acceptable(segment)
}

/// The ACK doesn't wait where the window isn't the one that was last sent: the contract of `Conn::is_delayed`.
fn delays_where_the_window_changes<S: Service>(conn: &Conn<S>, before: Before) -> bool
    requires sound { IsSound conn.now }
    requires changed { (min 65535 (before.edge - before.acknowledgeable) == min 65535 (advertised conn.now - acknowledgeable conn.now)) ≡ false }
    ensures { result ≡ false }
{
    conn.is_delayed(before)
}

/// The ACK doesn't wait where text is held after a gap: the contract of `Conn::is_delayed`.
fn delays_where_text_is_held<S: Service>(conn: &Conn<S>, before: Before) -> bool
    requires sound { IsSound conn.now }
    requires held { (length conn.now.endpoint.receiving.early.text == 0) ≡ false }
    ensures { result ≡ false }
{
    conn.is_delayed(before)
}

/// The ACK doesn't wait where nothing is taken, as of a segment that is repeated since its Data was lost: the contract of `Conn::is_delayed`.
fn delays_where_nothing_is_taken<S: Service>(conn: &Conn<S>, before: Before) -> bool
    requires sound { IsSound conn.now }
    requires same { before.taken + one_if before.fin ≡ units_taken conn.now }
    ensures { result ≡ false }
{
    conn.is_delayed(before)
}

/// The ACK doesn't wait at an answer of the log: the contract of `Conn::is_delayed`.
fn delays_at_an_answer<S: Service>(conn: &Conn<S>, before: Before) -> bool
    requires sound { IsSound conn.now }
    requires answer { before.segment ≡ false }
    ensures { result ≡ false }
{
    conn.is_delayed(before)
}

/// No ACK waits where the profile doesn't say so: the contract of `Conn::is_delayed`.
fn delays_in_every_profile<S: Service>(conn: &Conn<S>, before: Before) -> bool
    requires sound { IsSound conn.now }
    requires plainly { conn.now.delays ≡ false }
    ensures { result ≡ false }
{
    conn.is_delayed(before)
}

/// Of two Data of one turn the first says that another follows, and the last doesn't: the clause `reported` of `Conn::send_copy`.
fn says_so_in_none_or_in_the_last<S: Service>(
    conn: &Conn<S>,
    packet: &[u8],
    before: Before,
    out: &mut Outbox,
)
    requires sound { IsSound conn.now }
    requires accepted { IsOk (reading packet.now) }
    requires before { before.taken ≤ longest_stream }
    requires empty { out.old ≡ [] }
    requires batches { conn.now.batches ≡ true }
    ensures { IfOk (reading packet.now) (λ segment. (first last : Part) → own_data segment conn.now ≡ DataMsg first ∷ []
        → further_data before segment conn.now ≡ DataMsg last ∷ []
        → out.new ≡ spelled true conn.now.boot (DataMsg (record first { fin = false; more = true }) ∷ DataMsg last ∷ [])) }
{
    conn.send_copy(packet, before, out);
}

/// The only Data of a turn doesn't say that another follows: the clause `reported` of `Conn::send_copy`.
fn says_so_in_the_only_one<S: Service>(
    conn: &Conn<S>,
    packet: &[u8],
    before: Before,
    out: &mut Outbox,
)
    requires sound { IsSound conn.now }
    requires accepted { IsOk (reading packet.now) }
    requires before { before.taken ≤ longest_stream }
    requires empty { out.old ≡ [] }
    ensures { IfOk (reading packet.now) (λ segment. (only : Part) → own_data segment conn.now ≡ DataMsg only ∷ [] → further_data before segment conn.now ≡ []
        → out.new ≡ spelled conn.now.batches conn.now.boot (DataMsg only ∷ [])) }
{
    conn.send_copy(packet, before, out);
}
