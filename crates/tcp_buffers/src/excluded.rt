//! Wrong results that the contracts of this crate exclude. Each function calls another one of the crate, and promises of its result what a wrong body would
//! make false. It is proved from the other's contract alone, so it is no longer proved once that contract lets the wrong body pass.

ghost use Rattle.std.specs.Prelude.{◌≡◌, [], false};
ghost use Rattle.tcp_buffers.specs.SendNumbers.{edge_of};

use crate::{RecvQueue, SendState, Timing};
use seq_arith::Seq;

/// Nothing in flight counts as lost while the window is closed, with the right edge at SND.UNA: the contract of `SendState::is_lost`.
fn a_closed_window_loses(state: &SendState) -> bool
    ensures { result ≡ false }
{
    let state = SendState {
        una: Seq(0),
        nxt: Seq(1),
        wnd: 0,
        ..*state
    };
    state.is_lost()
}

/// The right edge is where the segment puts it, counted from what it acknowledges: the clause `used` of `SendState::on_ack`.
fn edge_slides_with_una(state: &SendState) -> SendState
    ensures { edge_of result ≡ 110 }
{
    let mut state = SendState {
        una: Seq(0),
        nxt: Seq(10),
        wnd: 0,
        wl1: Seq(0),
        wl2: Seq(0),
        ..*state
    };
    state.on_ack(Seq(0), Seq(10), 100);
    state
}

/// Only text in order is read, whatever is held after a gap: the clause `count` of `RecvQueue::read`.
fn reads_what_came_early(queue: &mut RecvQueue, buf: &mut [u8]) -> usize
    requires { queue.old.unread ≡ [] }
    ensures { result ≡ 0 }
{
    queue.read(buf)
}

/// The second duplicate in a row isn't yet the third, at which fast recovery begins: the clause `third` of `SendState::on_duplicate`.
#[tactic(auto, unfolding(tcp_rules::specs::Congestion::is_third))]
fn third_duplicate_comes_early(state: &SendState) -> bool
    ensures { result ≡ false }
{
    let mut state = SendState { dups: 1, ..*state };
    state.on_duplicate()
}

/// Slow start adds at most a segment for an acknowledgement, here 100 bytes of 150: the clause `count` of `SendState::growth`.
fn window_grows_by_all_units(state: &SendState) -> u64
    ensures { result ≡ 100 }
{
    let state = SendState {
        mss: 100,
        cwnd: 1_000,
        ssthresh: 2_000,
        ..*state
    };
    state.growth(150)
}

/// One unit at a time is timed, so its round trip is measured though a later unit was sent: the contract of `Timing::on_send`.
#[tactic(auto, unfolding(crate::proofs::Unfolded::a_later_unit_is_timed_words))]
fn a_later_unit_is_timed() -> u8
    ensures { result ≡ 3 }
{
    let mut timing = Timing::new(true);
    timing.on_send(1);
    timing.on_tick();
    timing.on_send(2);
    timing.on_ack(1);
    timing.base()
}

/// A round trip is measured when the timed unit is acknowledged: the contract of `Timing::on_ack`.
#[tactic(auto, unfolding(crate::proofs::Unfolded::a_later_unit_is_timed_words))]
fn round_trip_ends_a_unit_late() -> u8
    ensures { result ≡ 3 }
{
    let mut timing = Timing::new(true);
    timing.on_send(5);
    timing.on_tick();
    timing.on_ack(5);
    timing.base()
}

/// Where nothing is measured the timer starts with one tick, also after an expiry: the contract of `Timing::on_expiry`.
#[tactic(auto, unfolding(tcp_rules::specs::Timing::with_backoff))]
fn measures_where_it_must_not() -> u8
    ensures { result ≡ 1 }
{
    let mut timing = Timing::new(false);
    timing.on_expiry(2);
    timing.base()
}

/// An interval that has doubled stays until a round trip is measured, whatever is acknowledged: the contract of `Timing::on_ack`.
#[tactic(auto, unfolding(tcp_rules::specs::Timing::with_backoff, tcp_rules::specs::Timing::with_acknowledged, tcp_rules::specs::Timing::with_sample))]
fn any_acknowledgement_ends_a_backoff() -> u8
    ensures { result ≡ 20 }
{
    let mut timing = Timing::new(true);
    timing.on_expiry(20);
    timing.on_ack(1);
    timing.base()
}

/// While what was in flight at an earlier loss is recovered, no duplicate counts as the third: the clause `third` of `SendState::on_duplicate`.
#[tactic(auto, unfolding(tcp_rules::specs::Congestion::is_third))]
fn third_duplicate_counts_in_a_recovery(state: &SendState) -> bool
    ensures { result ≡ false }
{
    let mut state = SendState {
        dups: 2,
        recovers: true,
        lost: 5,
        ..*state
    };
    state.on_duplicate()
}
