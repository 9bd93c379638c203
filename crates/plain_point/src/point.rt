//! The point: its fields, and what is computed from them.

ghost use Rattle.limits.specs.Limits.{longest_stream, most_units};
ghost use Rattle.std.specs.Prelude.{◌≡◌, ◌≤◌, ◌+◌, ◌^◌, length};
ghost use Rattle.logger_wire.specs.Records.{numbers_said};

use crate::congestion::Window;
use crate::timing::Timing;
use limits::{BUFFER, STREAM};
use logger_wire::Numbers;
use plain_packets::Held;
use std::alloc::Global;
use std::marker::Model;
use tcp_rules::{Profile, Timestamping};

/// The point of a live connection. Counts are of bytes or units from the beginning of a stream.
#[derive(Drop)]
pub struct PlainPoint {
    pub(crate) numbers: Numbers,
    /// How many of the client's bytes a restart fetched.
    pub(crate) fetched: u64,
    /// How many units of output the reads make that a restart fetched.
    pub(crate) fetched_output: u64,
    /// The client's bytes that are taken.
    pub(crate) taken: Vec<u8>,
    /// Whether the client's FIN is taken.
    pub(crate) fin: bool,
    /// The client's text after the bytes taken, and its FIN, that are held.
    pub(crate) held: Held,
    /// How many of the client's units are known to be logged.
    pub(crate) answered: u64,
    /// The lengths of all reads.
    pub(crate) lengths: Vec<u16>,
    /// How many of these reads are known to be logged.
    pub(crate) reads_answered: usize,
    /// SND.UNA.
    pub(crate) una: u64,
    /// SND.NXT.
    pub(crate) sent: u64,
    /// The right edge of the client's window.
    pub(crate) edge: u64,
    /// SND.WL1.
    pub(crate) wl1: i64,
    /// SND.WL2.
    pub(crate) wl2: u64,
    /// Congestion control.
    pub(crate) congestion: Window,
    /// Whether the SYN is acknowledged.
    pub(crate) syn_acked: bool,
    /// The estimate of the round-trip time.
    pub(crate) timing: Timing,
    /// Whether segments carry timestamps, and which value of the client they echo.
    pub(crate) timestamping: Timestamping,
    /// Whether the ACK of text that isn't logged yet waits for the log.
    pub(crate) delays: bool,
    /// Whether the log answers only the last of the Data that a turn sends.
    pub(crate) batches: bool,
    /// The timer's interval, in ticks.
    pub(crate) interval: u64,
    /// The ticks until the timer expires; 0 while it doesn't run.
    pub(crate) rest: u64,
    /// The number of end ticks so far, up to four.
    pub(crate) end_ticks: u64,
    /// Whether the client reset the connection.
    pub(crate) reset: bool,
    /// The sum of the lengths.
    pub(crate) read: u64,
    /// Whether a read of length 0 was made.
    pub(crate) closed: bool,
}

impl Model for PlainPoint {
    ghost use Rattle.std.specs.Prelude.{◌≡◌, ◌≤◌, ◌==◌, ◌^◌, length, sum};
    ghost use Rattle.std.specs.List.{list_any};
    ghost use Rattle.ft_model.specs.Point.{Point};
    ghost use Rattle.plain_point.specs.Values.{congestion_in, timing_in};

    ghost Value = { Point };

    ghost view = { λ p. record {
      key = p.numbers.key;
      cisn = p.numbers.cisn;
      sisn = p.numbers.sisn;
      mss = p.numbers.mss;
      fetched = p.fetched;
      fetched_output = p.fetched_output;
      taken = p.taken.items;
      fin = p.fin;
      early = p.held;
      answered = p.answered;
      lengths = p.lengths.items;
      reads_answered = p.reads_answered;
      una = p.una;
      sent = p.sent;
      edge = p.edge;
      wl1 = p.wl1;
      wl2 = p.wl2;
      congestion = congestion_in p.congestion;
      syn_acked = p.syn_acked;
      timing = timing_in p.timing;
      timestamping = p.timestamping;
      delays = p.delays;
      batches = p.batches;
      interval = p.interval;
      rest = p.rest;
      end_ticks = p.end_ticks;
      reset = p.reset;
    } };

    ghost invariant = { λ p. (p.read ≡ sum p.lengths.items) × (p.closed ≡ list_any (λ n. n == 0) p.lengths.items) × (p.reads_answered ≤ length p.lengths.items)
        × (p.answered ≤ 2 ^ 62) };
}

impl PlainPoint {
    ghost use Rattle.ft_model.specs.Point.{taken_units as units_lem, acknowledgement as acknowledgement_lem, receive_edge as edge_lem};
    ghost use Rattle.ft_model.specs.Point.{advertised_edge as advertised_lem, room as room_lem, window as window_lem};
    ghost use Rattle.ft_model.specs.Opening.{point_opened};
    ghost use Rattle.tcp_rules.specs.Profiles.{profile_of};

    /// Creates the point of a new connection: nothing is taken, and nothing may be sent yet. `asked` says which timestamps its SYN asked for. Nothing is
    /// allocated.
    pub fn opened(
        alloc: Global,
        profile: Profile,
        asked: Timestamping,
        numbers: &Numbers,
    ) -> PlainPoint
        ensures { result ≡ point_opened (profile_of profile) asked (numbers_said numbers.now) }
    {
        let timing = Timing::initial(profile.measures());
        PlainPoint {
            numbers: *numbers,
            fetched: 0,
            fetched_output: 0,
            taken: Vec::new(alloc),
            fin: false,
            held: Held::new(alloc),
            answered: 0,
            lengths: Vec::new(alloc),
            reads_answered: 0,
            una: 0,
            sent: 0,
            edge: 0,
            wl1: 0,
            wl2: 0,
            congestion: Window::initial(profile.measures(), numbers.mss),
            syn_acked: false,
            timing,
            timestamping: asked.fitting(numbers.mss),
            delays: profile.delays(),
            batches: profile.batches(),
            interval: timing.base,
            rest: 0,
            end_ticks: 0,
            reset: false,
            read: 0,
            closed: false,
        }
    }

    /// Returns RCV.NXT as a number of units: those taken.
    pub fn taken_units(&self) -> u64
        ensures value { result ≡ units_lem self.now }
        ensures within { result ≤ 2 ^ 63 }
    {
        self.taken.len() as u64 + u64::from(self.fin)
    }

    /// Returns how many units may be acknowledged: those that are taken and known to be logged.
    pub fn acknowledgement(&self) -> u64
        ensures value { result ≡ acknowledgement_lem self.now }
        ensures within { result ≤ 2 ^ 62 }
    {
        self.taken_units().min(self.answered)
    }

    /// Returns the right edge of the receive window: no byte from here on is taken.
    pub fn receive_edge(&self) -> u64
        ensures value { result ≡ edge_lem self.now }
        ensures within { result ≤ longest_stream }
    {
        self.fetched
            .max(self.read)
            .saturating_add(u64::from(BUFFER))
            .min(u64::from(STREAM))
    }

    /// Returns the right edge that TCP advertises: a FIN that is taken has used up one number.
    pub fn advertised_edge(&self) -> u64
        ensures value { result ≡ advertised_lem self.now }
        ensures within { result ≤ most_units }
    {
        self.receive_edge() + u64::from(self.fin)
    }

    /// Returns RCV.WND.
    pub fn room(&self) -> u64
        ensures value { result ≡ room_lem self.now }
        ensures within { result ≤ most_units }
    {
        self.advertised_edge().saturating_sub(self.taken_units())
    }

    /// Returns the window that a segment advertises: from what is acknowledged up to the advertised right edge, but at most 65,535.
    pub fn window(&self) -> u16
        ensures { result ≡ window_lem self.now }
    {
        self.advertised_edge()
            .saturating_sub(self.acknowledgement())
            .min(65_535) as u16
    }
}
