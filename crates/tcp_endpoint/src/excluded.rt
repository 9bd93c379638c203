//! Wrong results that the contracts of this crate exclude. Each function calls another one of the crate, and promises of its result what a wrong body would
//! make false. It is proved from the other's contract alone, so it is no longer proved once that contract lets the wrong body pass.

ghost use Rattle.std.specs.Prelude.{◌≡◌, ◌≤◌, pos, true, false, length};
ghost use Rattle.tcp_rules.specs.Arrival.{int_eq};
ghost use Rattle.seq_arith.specs.Number.{offset_of};
ghost use Rattle.seq_arith.specs.Packet.{has_rst};
ghost use Rattle.segment_codec.specs.Value.{segment_of};
ghost use Rattle.tcp_buffers.specs.Near.{is_ahead, IsNearFirst};
ghost use Rattle.tcp_endpoint.specs.Arrival.{first, ack_at, is_bare};
ghost use Rattle.tcp_endpoint.specs.ReceiveHalf.{next, window};
ghost use Rattle.tcp_endpoint.specs.SendHalf.{IsShort, is_third_duplicate, is_partial_ack};
ghost use Rattle.tcp_endpoint.specs.declared.sender.AckUse.TheVariants.{ShowsLoss};

use crate::endpoint::Endpoint;
use crate::receiver::Receiver;
use crate::sender::{AckUse, Sender};
use segment_codec::PacketRef;
use seq_arith::Seq;

/// A RST elsewhere in the window than at RCV.NXT makes a challenge ACK due, and doesn't reset the connection: the contract of `Endpoint::check_rst`.
#[tactic(auto, unfolding(crate::specs::Arrival::check_rst))]
fn any_rst_in_the_window_resets(endpoint: &mut Endpoint, p: PacketRef<'_>)
    requires short { length p.payload.now ≤ 65535 }
    requires near { IsNearFirst (first endpoint.old (segment_of p)) }
    requires offsets { IsShort endpoint.old.sending }
    requires rst { has_rst (segment_of p) ≡ true }
    requires elsewhere { int_eq (first endpoint.old (segment_of p)) (pos (next endpoint.old.receiving)) ≡ false }
    ensures { endpoint.new ≡ record endpoint.old { ack_pending = true } }
{
    endpoint.check_rst(p);
}

/// Nothing new is sent beyond the congestion window, however much room the peer has: the contract of `Sender::send_room`.
fn sends_past_the_congestion_window(sender: &Sender) -> u32
    ensures { result ≤ sender.now.congestion.cwnd }
{
    sender.send_room()
}

/// No more text is taken or held than the receive window has room for: the contract of `Receiver::new_part`.
#[tactic(auto, unfolding(tcp_rules::specs::Coming::new_text))]
fn takes_outside_window<'a>(receiver: &Receiver, seq: Seq, text: &'a [u8]) -> &'a [u8]
    requires { IsNearFirst (offset_of receiver.now.irs seq.0) }
    ensures { receiver.now.early.fin ≡ None → length result.now ≤ window receiver.now }
{
    receiver.new_part(seq, receiver.gap(seq), text)
}

/// At the third duplicate acknowledgement in a row the first unacknowledged segment is due for retransmission: the clause `state` of `Endpoint::note_ack`.
#[tactic(auto, unfolding(crate::specs::Arrival::with_ack_used, crate::specs::SendHalf::shows_loss))]
fn third_duplicate_sends_nothing_again(endpoint: &mut Endpoint, p: PacketRef<'_>) -> bool
    requires offsets { IsShort endpoint.old.sending }
    requires sent { is_ahead endpoint.old.sending.sent (ack_at endpoint.old (segment_of p)) ≡ false }
    requires third { is_third_duplicate endpoint.old.sending (is_bare (segment_of p)) (ack_at endpoint.old (segment_of p)) p.head.window ≡ true }
    ensures { endpoint.new.retransmission_due ≡ true }
{
    endpoint.note_ack(p)
}

/// A partial acknowledgement shows a loss, after a timeout too: the clause `used` of `Sender::on_ack`.
#[tactic(auto, unfolding(crate::specs::SendHalf::shows_loss))]
fn partial_acknowledgement_shows_no_loss(
    sender: &mut Sender,
    seq: Seq,
    ack: Seq,
    window: u16,
) -> AckUse
    requires offsets { IsShort sender.old }
    requires sent { is_ahead sender.old.sent (offset_of sender.old.iss ack.0) ≡ false }
    requires part { is_partial_ack sender.old (offset_of sender.old.iss ack.0) ≡ true }
    ensures { result ≡ ShowsLoss }
{
    sender.on_ack(seq, ack, window, true)
}

/// A unit is timed only once it is sent: the contract of `Sender::time_unit`.
fn times_a_unit_that_is_not_sent(sender: &mut Sender)
    ensures { sender.new.timing ≡ sender.old.timing }
{
    let place = sender.in_flight();
    sender.time_unit(place);
}

/// The timer starts with the interval of the estimate: the contract of `Sender::set_timer`.
fn timer_starts_with_one_tick(sender: &mut Sender)
    requires { sender.old.rest ≡ 0 }
    ensures { sender.new.rest ≡ sender.old.timing.base }
{
    sender.set_timer(true);
}

/// A delayed ACK keeps no retransmission back: the clause `state` of `Endpoint::delay_ack`.
#[tactic(auto, unfolding(crate::specs::Output::with_ack_delayed))]
fn delays_a_retransmission(endpoint: &mut Endpoint)
    ensures { endpoint.new.retransmission_due ≡ endpoint.old.retransmission_due }
{
    endpoint.delay_ack();
}
