//! Read access to the point's fields.

ghost use Rattle.std.specs.Prelude.{◌≡◌, ◌≤◌, ◌==◌, ◌^◌, is_none, length};

use crate::point::PlainPoint;
use ft_io::Key;

impl PlainPoint {
    ghost use Rattle.ft_model.specs.News.News.{Ticks};
    ghost use Rattle.ft_model.specs.Timer.{expires, probes};

    /// Returns the client's address and port.
    pub fn key(&self) -> Key
        ensures { result ≡ self.now.key }
    {
        self.numbers.key
    }

    /// Returns the segment size, in bytes.
    pub fn mss(&self) -> u16
        ensures { result ≡ self.now.mss }
    {
        self.numbers.mss
    }

    /// Returns how many of the client's bytes are taken.
    pub fn taken(&self) -> u64
        ensures value { result ≡ length self.now.taken }
        ensures within { result ≤ 2 ^ 63 }
    {
        self.taken.len() as u64
    }

    /// Returns whether the client's FIN is taken.
    pub fn fin(&self) -> bool
        ensures { result ≡ self.now.fin }
    {
        self.fin
    }

    /// Returns how many of the client's units are known to be logged.
    pub fn answered(&self) -> u64
        ensures { result ≡ self.now.answered }
    {
        self.answered
    }

    /// Returns how many reads were made.
    pub fn reads(&self) -> usize
        ensures { result ≡ length self.now.lengths }
    {
        self.lengths.len()
    }

    /// Returns SND.UNA.
    pub fn una(&self) -> u64
        ensures { result ≡ self.now.una }
    {
        self.una
    }

    /// Returns SND.NXT.
    pub fn sent(&self) -> u64
        ensures { result ≡ self.now.sent }
    {
        self.sent
    }

    /// Returns the right edge of the client's window.
    pub fn edge(&self) -> u64
        ensures { result ≡ self.now.edge }
    {
        self.edge
    }

    /// Returns whether the SYN is acknowledged.
    pub fn syn_acked(&self) -> bool
        ensures { result ≡ self.now.syn_acked }
    {
        self.syn_acked
    }

    /// Returns whether the ACK of text that isn't logged yet waits for the log.
    pub fn delays(&self) -> bool
        ensures { result ≡ self.now.delays }
    {
        self.delays
    }

    /// Returns whether the log answers only the last of the Data that a turn sends.
    pub fn batches(&self) -> bool
        ensures { result ≡ self.now.batches }
    {
        self.batches
    }

    /// Returns whether no text is held after a gap.
    pub fn holds_no_text(&self) -> bool
        ensures { result ≡ (length self.now.early.text == 0) }
    {
        self.held.has_no_text()
    }

    /// Returns whether no FIN is held after a gap.
    pub fn holds_no_fin(&self) -> bool
        ensures { result ≡ is_none self.now.early.fin }
    {
        self.held.has_no_fin()
    }

    /// Returns the number of end ticks so far, up to four.
    pub fn end_ticks(&self) -> u64
        ensures { result ≡ self.now.end_ticks }
    {
        self.end_ticks
    }

    /// Returns whether the client reset the connection.
    pub fn is_reset(&self) -> bool
        ensures { result ≡ self.now.reset }
    {
        self.reset
    }

    /// Returns whether the timer expires at the next tick.
    pub fn expires_at_tick(&self) -> bool
        ensures { result ≡ expires Ticks self.now }
    {
        self.rest == 1
    }

    /// Returns whether the next tick sends a probe past the edge: the timer expires, and nothing is unacknowledged.
    pub fn probes_at_tick(&self) -> bool
        ensures { result ≡ probes Ticks self.now }
    {
        self.expires_at_tick() && self.syn_acked && self.una >= self.sent
    }
}
