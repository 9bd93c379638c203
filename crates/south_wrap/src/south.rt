//! What the wrapper knows of its connection.

ghost use Rattle.limits.specs.Limits.{longest_stream, most_units};
ghost use Rattle.std.specs.Prelude.{◌≡◌, ◌≤◌, ◌<◌, ◌+◌, ◌^◌, ◌&&◌, ℕ, List, pos, nat_abs, is_some, ◌-◌, nat_le, IfNone, IfSome};
ghost use Rattle.tcp_rules.specs.Arrival.{int_eq};
ghost use Rattle.tcp_rules.specs.Timestamping.{echo_after};
ghost use Rattle.segment_codec.specs.Value.{said};
ghost use Rattle.seq_arith.specs.Number.{number_at, offset_of};
ghost use Rattle.seq_arith.specs.Offset.{one_if};
ghost use Rattle.south_wrap.specs.SouthState.{acknowledged, receive_edge, window, room, taken_units, first_south, resumed_south, with_stable};
ghost use Rattle.south_wrap.specs.SouthState.{most, acknowledges_unsent, is_high, inner_ack, inner_window};
ghost use Rattle.south_wrap.specs.Translation.{repeats_syn};

use crate::answers::AckOut;
use crate::fetched::Fetched;
use limits::{BUFFER, STREAM};
use segment_codec::Head;
use seq_arith::{ACK, RST, SYN, Seq, Timestamps, has};
use std::marker::Model;
use tcp_rules::Timestamping;

/// The south wrapper of one connection. Lengths are in bytes; units are bytes and one more for a FIN.
#[derive(Drop)]
pub struct South {
    /// The client's initial sequence number.
    cisn: Seq,
    /// The server's initial sequence number, as the client knows it.
    sisn: Seq,
    /// The client's sequence number for output less TCP's, modulo 2^32.
    delta: u32,
    /// The client's bytes that a restart fetched; else 0.
    fetched: u32,
    /// The units of output of the reads that a restart fetched, which an earlier incarnation may have sent; else 0.
    fetched_output: u32,
    /// The client's bytes that are taken.
    taken: u32,
    /// Whether the client's FIN is taken.
    fin: bool,
    /// The client's units that are known to be logged.
    answered: u32,
    /// The bytes that the service has read.
    read: u32,
    /// The units of output that the client acknowledged.
    una: u32,
    /// Where this TCP's sent output ends, in units from the connection's start.
    sent: u32,
    /// Whether segments to the client carry timestamps, and which value they echo.
    timestamping: Timestamping,
}

impl Model for South {
    ghost use Rattle.limits.specs.Limits.{longest_stream, most_units};
    ghost use Rattle.std.specs.Prelude.{◌≤◌, ◌+◌, ◌^◌};
    ghost use Rattle.seq_arith.specs.Offset.{one_if};
    ghost use Rattle.south_wrap.specs.SouthState.{SouthState, receive_edge};

    ghost Value = { SouthState };

    ghost view = { λ s. record {
      cisn = s.cisn.0;
      sisn = s.sisn.0;
      delta = s.delta;
      fetched = s.fetched;
      fetched_output = s.fetched_output;
      taken = s.taken;
      fin = s.fin;
      answered = s.answered;
      read = s.read;
      una = s.una;
      sent = s.sent;
      timestamping = s.timestamping;
    } };

    ghost invariant = { λ s. (s.fetched ≤ longest_stream) × (s.fetched_output ≤ most_units) × (s.taken ≤ longest_stream) × (s.answered ≤ most_units)
        × (s.read ≤ longest_stream) × (s.una ≤ most_units) × (s.sent ≤ 2 ^ 25 + 1) };
}

impl South {
    /// The wrapper of a connection that this incarnation opens, with the client's and the server's initial sequence numbers.
    pub fn new(cisn: Seq, sisn: Seq) -> South
        ensures { result ≡ first_south cisn.0 sisn.0 }
    {
        South {
            cisn,
            sisn,
            delta: 0,
            fetched: 0,
            fetched_output: 0,
            taken: 0,
            fin: false,
            answered: 0,
            read: 0,
            una: 0,
            sent: 0,
            timestamping: Timestamping::Off,
        }
    }

    /// The wrapper of a connection at the end of a restart. The log has `length` bytes of the client, and its FIN if `fin`. Its reads make `fetched_output`
    /// units of output, all of which an earlier incarnation may have sent. The client had acknowledged `acked` units. The new TCP has the initial sequence
    /// number `inner`, from which it counts the output after these. `after_fetch` takes what was fetched as one record.
    pub fn resumed(
        cisn: Seq,
        sisn: Seq,
        length: u32,
        fetched_output: u32,
        fin: bool,
        acked: u32,
        inner: Seq,
    ) -> South
        requires length { length ≤ longest_stream }
        requires fetched_output { fetched_output ≤ most_units }
        requires acked { acked ≤ longest_stream }
        ensures { result ≡ resumed_south cisn.0 sisn.0 length fetched_output fin acked inner.0 }
    {
        let fetched = Fetched {
            cisn,
            sisn,
            length,
            fin,
            output: fetched_output,
            acked,
        };
        South::after_fetch(fetched, inner)
    }

    /// The wrapper of a connection at the end of a restart, which goes on after what was fetched. The new TCP has the initial sequence number `inner`, from
    /// which it counts the output after what the client had acknowledged.
    pub fn after_fetch(fetched: Fetched, inner: Seq) -> South
        requires length { fetched.length ≤ longest_stream }
        requires output { fetched.output ≤ most_units }
        requires acked { fetched.acked ≤ longest_stream }
        ensures { result ≡ resumed_south fetched.cisn.0 fetched.sisn.0 fetched.length fetched.output fetched.fin fetched.acked inner.0 }
    {
        let Fetched {
            cisn,
            sisn,
            length,
            fin,
            output,
            acked,
        } = fetched;
        South {
            cisn,
            sisn,
            delta: sisn.add(acked).minus(inner),
            fetched: length,
            fetched_output: output,
            taken: length,
            fin,
            answered: length + u32::from(fin),
            read: 0,
            una: acked,
            sent: acked,
            timestamping: Timestamping::Off,
        }
    }

    /// The same wrapper, of a connection with these timestamps.
    pub fn with_timestamps(self, timestamping: Timestamping) -> South
        ensures { result ≡ record self { timestamping = timestamping } }
    {
        South {
            timestamping,
            ..self
        }
    }

    /// Notes how many bytes TCP has taken, and whether it has taken the client's FIN.
    pub fn taken(&mut self, bytes: u32, fin: bool)
        requires edge { bytes ≤ receive_edge self.old }
        requires rises { self.old.taken ≤ bytes }
        ensures { self.new ≡ record self.old { taken = bytes; fin = fin } }
    {
        self.taken = bytes;
        self.fin = fin;
    }

    /// Notes how many units of output the client has acknowledged.
    pub fn acked(&mut self, units: u32)
        requires { units ≤ most_units }
        ensures { self.new ≡ record self.old { una = units } }
    {
        self.una = units;
    }

    /// Notes where this TCP's sent output ends, in units from the connection's start.
    pub fn sent(&mut self, units: u32)
        requires most { units ≤ 2 ^ 25 + 1 }
        requires rises { self.old.sent ≤ units }
        ensures { self.new ≡ record self.old { sent = units } }
    {
        self.sent = units;
    }

    /// Notes how many bytes the service has read.
    pub fn read_to(&mut self, bytes: u32)
        requires most { bytes ≤ longest_stream }
        requires rises { self.old.read ≤ bytes }
        ensures { self.new ≡ record self.old { read = bytes } }
    {
        self.read = bytes;
    }

    /// Notes the logger's answer that it has `length` bytes of the client, and its FIN if `fin`. Returns what to acknowledge to the client now, if more is
    /// known to be logged.
    pub fn on_stable(&mut self, length: u32, fin: bool) -> Option<AckOut>
        requires { length ≤ longest_stream }
        ensures state { self.new ≡ with_stable (length + one_if fin) self.old }
        ensures none { IfNone result (length + one_if fin ≤ self.old.answered) }
        ensures some { IfSome result (λ reported. self.old.answered < length + one_if fin) }
        ensures ack { IfSome result (λ reported. reported.ack.0 ≡ number_at self.new.cisn (acknowledged self.new)) }
        ensures window { IfSome result (λ reported. reported.window ≡ window self.new) }
    {
        let units = length + u32::from(fin);
        if units <= self.answered {
            return None;
        }
        self.answered = units;
        Some(self.ack_now())
    }

    /// Returns what to acknowledge to the client now: what is both taken and known to be logged, and the window from there.
    pub fn ack_now(&self) -> AckOut
        ensures ack { result.ack.0 ≡ number_at self.now.cisn (acknowledged self.now) }
        ensures window { result.window ≡ window self.now }
    {
        AckOut {
            ack: offset_number(self.cisn, self.acknowledged()),
            window: self.window(),
        }
    }

    /// The units that may be acknowledged.
    pub(crate) fn acknowledged(&self) -> u32
        ensures value { result ≡ acknowledged self.now }
        ensures most { result ≤ most_units }
    {
        (self.taken + u32::from(self.fin)).min(self.answered)
    }

    /// The window from what may be acknowledged.
    fn window(&self) -> u16
        ensures { result ≡ window self.now }
    {
        let edge = (self.fetched.max(self.read) + BUFFER).min(STREAM) + u32::from(self.fin);
        edge.saturating_sub(self.acknowledged()).min(BUFFER) as u16
    }

    /// Whether segments to the client carry timestamps, and which value they echo.
    pub fn timestamping(&self) -> Timestamping
        ensures { result ≡ self.now.timestamping }
    {
        self.timestamping
    }

    /// Notes a value of the client, if it is in time.
    pub(crate) fn echo(&mut self, timely: bool, timestamps: Option<Timestamps>)
        ensures { self.new ≡ record self.old { timestamping = echo_after self.old.timestamping timely timestamps } }
    {
        self.timestamping = self.timestamping.after(timely, timestamps);
    }

    /// The units taken.
    pub(crate) fn taken_units(&self) -> u32
        ensures { result ≡ taken_units self.now }
    {
        self.taken + u32::from(self.fin)
    }

    /// TCP's room.
    pub(crate) fn room(&self) -> u32
        ensures { result ≡ room self.now }
    {
        let edge = (self.fetched.max(self.read) + BUFFER).min(STREAM) + u32::from(self.fin);
        edge.saturating_sub(self.taken_units())
    }

    /// The client's sequence number for output less TCP's, modulo 2^32.
    pub fn delta(&self) -> u32
        ensures { result ≡ self.now.delta }
    {
        self.delta
    }

    /// The stable number: the first of the client's stream that isn't known to be logged.
    pub fn stable(&self) -> Seq
        ensures { result.0 ≡ number_at self.now.cisn self.now.answered }
    {
        offset_number(self.cisn, self.answered)
    }

    /// The client's initial sequence number.
    pub fn cisn(&self) -> Seq
        ensures { result.0 ≡ self.now.cisn }
    {
        self.cisn
    }

    /// The server's initial sequence number, as the client knows it.
    pub fn sisn(&self) -> Seq
        ensures { result.0 ≡ self.now.sisn }
    {
        self.sisn
    }

    pub(crate) fn answered(&self) -> u32
        ensures value { result ≡ self.now.answered }
        ensures most { result ≤ most_units }
    {
        self.answered
    }

    pub(crate) fn bytes_taken(&self) -> u32
        ensures { result ≡ self.now.taken }
    {
        self.taken
    }

    /// The offset in the client's stream that a number names.
    #[tactic(auto, unfolding(seq_arith::specs::Number::offset_of))]
    pub(crate) fn offset_of(&self, number: Seq) -> i64
        ensures value { result ≡ offset_of self.now.cisn number.0 }
        ensures within { nat_abs result ≤ 2 ^ 31 }
    {
        number.signed_gap(self.cisn.add(1))
    }

    /// Whether the client's FIN is taken at this offset, and isn't known to be logged.
    pub(crate) fn is_end(&self, offset: i64) -> bool
        ensures { result ≡ (self.now.fin && int_eq offset (pos self.now.taken) && nat_le self.now.answered self.now.taken) }
    {
        self.fin && is_at(offset, self.taken) && self.answered <= self.taken
    }

    /// Whether this repeats the client's SYN, while nothing of its stream is taken and nothing of the output acknowledged.
    pub(crate) fn repeats_syn(&self, head: &Head) -> bool
        ensures { (payload : List ℕ) → result ≡ repeats_syn self.now (record { head = said head.now; payload = payload }) }
    {
        has(head.flags, SYN)
            && !has(head.flags, ACK)
            && !has(head.flags, RST)
            && head.seq == self.cisn
            && self.taken + u32::from(self.fin) == 0
            && self.una == 0
    }

    /// The offset up to which the client acknowledges the output.
    #[tactic(auto, unfolding(seq_arith::specs::Number::offset_of))]
    fn offset_acknowledged(&self, ack: Seq) -> i64
        ensures value { result ≡ offset_of self.now.sisn ack.0 }
        ensures within { nat_abs result ≤ 2 ^ 31 }
    {
        ack.signed_gap(self.sisn.add(1))
    }

    /// All that the client can have been sent, by this incarnation or by an earlier one.
    fn most(&self) -> u32
        ensures { result ≡ most self.now }
    {
        self.sent.max(self.fetched_output)
    }

    /// Whether this acknowledges something that was never sent, neither by this incarnation nor by an earlier one (RFC 9293, 3.10.7.4, fifth check).
    pub fn acknowledges_unsent(&self, ack: Seq) -> bool
        ensures { result ≡ acknowledges_unsent self.now ack.0 }
    {
        i64::from(self.most()) < self.offset_acknowledged(ack)
    }

    /// How much more the client acknowledges than this incarnation has sent, where an earlier one may have sent it.
    fn excess(&self, ack: Seq) -> Option<u64>
        ensures some { IfSome result (λ n. n ≡ nat_abs (offset_of self.now.sisn ack.0) - self.now.sent) }
        ensures high { is_some result ≡ is_high self.now ack.0 }
        ensures most { IfSome result (λ n. n < 2 ^ 32) }
    {
        let offset = self.offset_acknowledged(ack);
        if offset < 0 {
            return None;
        }
        let units = offset as u64;
        if units <= u64::from(self.sent) || u64::from(self.most()) < units {
            return None;
        }
        Some(units - u64::from(self.sent))
    }

    /// The acknowledgement that TCP sees for one of the client's.
    pub(crate) fn inner_ack(&self, ack: Seq) -> Seq
        ensures { result.0 ≡ inner_ack self.now ack.0 }
    {
        let known = match self.excess(ack) {
            Some(_) => offset_number(self.sisn, self.sent),
            None => ack,
        };
        Seq(known.minus(Seq(self.delta)))
    }

    /// The window that TCP sees, given the client's acknowledgement and window.
    pub(crate) fn inner_window(&self, ack: Seq, window: u16) -> u16
        ensures { result ≡ inner_window self.now ack.0 window }
    {
        match self.excess(ack) {
            Some(excess) => (u64::from(window) + excess).min(65_535) as u16,
            None => window,
        }
    }
}

/// The sequence number of an offset in the stream with this initial sequence number.
pub(crate) fn offset_number(isn: Seq, offset: u32) -> Seq
    ensures { result.0 ≡ number_at isn.0 offset }
{
    isn.add(1).add(offset)
}

/// Whether an offset is this one.
fn is_at(offset: i64, place: u32) -> bool
    ensures { result ≡ int_eq offset (pos place) }
{
    0 <= offset && offset as u64 == u64::from(place)
}
