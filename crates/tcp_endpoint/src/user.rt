//! A tick, and the calls of the connection's user.

ghost use Rattle.std.specs.Prelude.{◌≡◌, ◌-◌, ◌==◌, ◌&&◌, not, is_none, ℕ, List, length, min, take, drop, ◌++◌};
ghost use Rattle.tcp_endpoint.specs.UserCalls.{timer_ticked, waited, after_tick};

use crate::endpoint::Endpoint;
use crate::states::StateName;
use socket_layer::Socket;

impl Endpoint {
    /// Counts a tick of the timer and of TIME-WAIT.
    #[tactic(auto, unfolding(crate::specs::UserCalls::after_tick))]
    pub fn on_tick(&mut self)
        ensures { self.new ≡ after_tick self.old }
    {
        self.tick_timer();
        self.tick_wait();
    }

    /// Counts a tick of the timer. Where it expires, the first unacknowledged segment becomes due for retransmission, or a probe does if nothing is
    /// unacknowledged (RFC 9293, 3.8.1 and 3.8.6.1).
    #[tactic(auto, unfolding(crate::specs::UserCalls::timer_ticked))]
    fn tick_timer(&mut self)
        ensures { self.new ≡ timer_ticked self.old }
    {
        let is_outstanding = self.sender.is_unacknowledged();
        let expires = self.sender.tick();
        self.retransmission_due = self.retransmission_due || (expires && is_outstanding);
        self.probe = self.probe || (expires && !is_outstanding);
    }

    /// Counts a tick of TIME-WAIT, if that is the state. The last tick leads to CLOSED.
    #[tactic(auto, unfolding(crate::specs::UserCalls::waited))]
    fn tick_wait(&mut self)
        ensures { self.new ≡ waited self.old }
    {
        if !self.name.is_time_wait() {
            return;
        }
        if self.wait < 2 {
            self.name = StateName::Closed;
        }
        self.wait = self.wait.saturating_sub(1);
    }

    /// Copies unread bytes, from place `from` on, to the beginning of `out`, as many as there are and fit, and returns how many. None is consumed: `read` still
    /// returns them all. The rest of `out` stays.
    pub fn peek(&self, from: usize, out: &mut [u8]) -> usize
        ensures count { result ≡ min (length self.now.receiving.unread - from) (length out.old) }
        ensures bytes { out.new ≡ take result (drop from self.now.receiving.unread) ++ drop result out.old }
    {
        self.receiver.peek(from, out)
    }

    /// Whether text or the peer's FIN is held until the gap before it is filled.
    pub fn holds_early(&self) -> bool
        ensures { result ≡ not (length self.now.receiving.early.text == 0 && is_none self.now.receiving.early.fin) }
    {
        self.receiver.holds_early()
    }
}

impl Socket for Endpoint {
    ghost use Rattle.std.specs.Prelude.{ℕ, List, Bool};
    ghost use Rattle.tcp_endpoint.specs.UserCalls.{after_read, after_write, closing, write_room, is_ended};
    ghost use Rattle.std.specs.Prelude.{refl};
    ghost use Rattle.std.proofs.Common.{arith, rules, length-append};

    ghost unread = { λ e. e.receiving.unread };

    ghost has_end = { λ e. e.receiving.fin };

    ghost write_room = { write_room };

    ghost is_closed = { is_ended };

    ghost after_read = { after_read };

    ghost after_write = { after_write };

    ghost after_close = { closing };

    fn readable(&self) -> usize {
        self.receiver.readable()
    }

    fn read(&mut self, buf: &mut [u8]) -> usize {
        self.receiver.read(buf)
    }

    fn room(&self) -> usize {
        if self.sender.is_closed() || self.reset {
            0
        } else {
            self.sender.write_room()
        }
    }

    fn write(&mut self, bytes: &[u8]) -> usize {
        let count = self.room().min(bytes.len());
        self.sender.write(&bytes[..count])
    }

    fn close(&mut self) {
        self.name = self.name.after_close();
        self.sender.close();
    }

    fn ended(&self) -> bool {
        self.receiver.has_fin() && self.receiver.readable() == 0
    }

    ghost closed_has_no_room = { λ e h. Prim.rw h refl };

    ghost read_takes_the_front = { λ e n. refl };

    ghost read_keeps_the_end = { λ e n. refl };

    ghost read_keeps_the_room = { λ e n. refl };

    ghost read_keeps_open = { λ e n. refl };

    ghost write_fills_the_room = { λ e bytes. Prim.grind (arith, length-append) };

    ghost write_keeps_the_unread = { λ e bytes. refl };

    ghost write_keeps_the_end = { λ e bytes. refl };

    ghost write_keeps_open = { λ e bytes. refl };

    ghost close_closes = { λ e. refl };

    ghost close_keeps_the_unread = { λ e. refl };

    ghost close_keeps_the_end = { λ e. refl };
}
