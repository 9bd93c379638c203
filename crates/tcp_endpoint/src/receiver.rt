//! The receiving half of a connection. It compares the peer's numbers, modulo 2^32; only SEG.SEQ and SND.WL1 are compared elsewhere, by `SendState`. Contracts
//! speak of offsets in the peer's stream, whatever its initial sequence number.

ghost use Rattle.limits.specs.Limits.{buffer_size, longest_stream};
ghost use Rattle.std.specs.Prelude.{◌≡◌, ℕ, ◌+◌, ◌-◌, ◌^◌, ◌<◌, ◌≤◌, ◌==◌, ◌&&◌, ◌||◌, not, is_none, pos, negsuc, ◌+ℤ◌, int_lt, Bool, false, true};
ghost use Rattle.std.specs.Prelude.{List, [], ◌++◌, length, min, take, drop, if◌then◌else◌};
ghost use Rattle.std.specs.Bool.{OnTrue};
ghost use Rattle.seq_arith.specs.Number.{number_at, offset_of};
ghost use Rattle.tcp_rules.specs.Arrival.{int_eq, lies_in, is_acceptable, is_at_right_edge, is_acceptable_or_at_edge, is_allowed_at_zero, below};
ghost use Rattle.tcp_rules.specs.Coming.{StandsBehind, nothing_came, ahead, text_edge, new_text, holds_fin, stands_at};
ghost use Rattle.tcp_buffers.specs.Near.{IsNearFirst};
ghost use Rattle.tcp_buffers.specs.Queue.{empty_queue, pushed};
ghost use Rattle.tcp_rules.specs.Early.{held_with};
ghost use Rattle.tcp_endpoint.specs.ReceiveHalf.{taken, next, receive_edge, advertised_edge, window, receiving_up_to, with_segment, read_out};
ghost use Rattle.tcp_endpoint.specs.Tcb.{kept_limit};

use limits::BUFFER;
use seq_arith::Seq;
use std::marker::Model;
use tcp_buffers::RecvQueue;

/// The largest right edge, as an offset. Offsets stay so small that numbers modulo 2^32 show the order of any two of them.
const MOST: u32 = 1 << 30;

/// What is known of the peer's stream.
#[derive(Drop)]
pub(crate) struct Receiver {
    /// IRS: the peer's initial sequence number.
    irs: Seq,
    /// How many bytes of the peer's stream the user has read.
    read: u32,
    /// The bytes taken and not read, and the out-of-order text that is held after them.
    queue: RecvQueue,
    /// Whether the peer's FIN is taken. RCV.NXT counts it as one more unit.
    fin: bool,
    /// The offset in the peer's stream of a FIN that is held until the text before it is taken.
    held_fin: Option<u32>,
    /// The right edge of the window never passes this offset of the peer's stream.
    limit: u32,
}

impl Model for Receiver {
    ghost use Rattle.tcp_endpoint.specs.ReceiveHalf.{Receiving, ReceiverInvariant};

    ghost Value = { Receiving };

    ghost view = { λ r. record {
      irs = r.irs.0;
      read = r.read;
      unread = r.queue.unread;
      fin = r.fin;
      early = record { text = r.queue.early; fin = r.held_fin };
      limit = r.limit;
    } };

    ghost invariant = { λ r. ReceiverInvariant r.read r.queue r.fin r.held_fin r.limit };
}

impl Receiver {
    /// Creates a receiver that has received nothing.
    pub(crate) fn new(queue: RecvQueue, limit: u32) -> Receiver
        requires { queue ≡ empty_queue }
        ensures { result ≡ receiving_up_to (kept_limit limit) }
    {
        Receiver {
            irs: Seq(0),
            read: 0,
            queue,
            fin: false,
            held_fin: None,
            limit: limit.min(MOST),
        }
    }

    /// Notes the peer's initial sequence number.
    pub(crate) fn begin(&mut self, irs: Seq)
        ensures { self.new ≡ record self.old { irs = irs.0 } }
    {
        self.irs = irs;
    }

    /// How many bytes are taken.
    fn taken(&self) -> u32
        ensures count { result ≡ taken self.now }
        ensures most { result ≤ 2 ^ 30 }
    {
        self.read + self.queue.len() as u32
    }

    /// Facts for proofs: a number's range, the order and the bounds of the offsets, and the invariant of the data that is held.
    fn ranges(&self, number: Seq)
        ensures number { number.0 < 2 ^ 32 }
        ensures next { next self.now ≤ 2 ^ 30 + 1 }
        ensures within { taken self.now ≤ receive_edge self.now }
        ensures edge { next self.now + window self.now ≡ advertised_edge self.now }
        ensures far { advertised_edge self.now ≤ 2 ^ 30 + 1 }
        ensures room { window self.now ≤ 65535 }
        ensures behind { StandsBehind (taken self.now) (receive_edge self.now) self.now.fin self.now.early }
    {
        let _number = number.0;
        let _read = self.read;
        let _fin = self.fin;
    }

    /// RCV.NXT, as an offset.
    pub(crate) fn next(&self) -> u32
        ensures { result ≡ next self.now }
    {
        self.taken() + u32::from(self.fin)
    }

    /// RCV.NXT.
    pub(crate) fn next_number(&self) -> Seq
        ensures { result.0 ≡ number_at self.now.irs (next self.now) }
    {
        self.irs.add(1).add(self.next())
    }

    /// The right edge of the window, as an offset: bytes are taken up to it.
    fn receive_edge(&self) -> u32
        ensures { result ≡ receive_edge self.now }
    {
        (self.read + BUFFER).min(self.limit)
    }

    /// The right edge that is advertised, as an offset: RCV.NXT + RCV.WND.
    pub(crate) fn advertised_edge(&self) -> u32
        ensures { result ≡ advertised_edge self.now }
    {
        self.receive_edge() + u32::from(self.fin)
    }

    /// RCV.WND.
    pub(crate) fn window(&self) -> u16
        ensures { result ≡ window self.now }
    {
        self.ranges(self.irs);
        (self.receive_edge() - self.taken()) as u16
    }

    /// Whether a number lies in the window.
    #[tactic(auto, using(crate::proofs::Places::lies_in_window))]
    fn has(&self, number: Seq) -> bool
        ensures { result ≡ lies_in (next self.now) (window self.now) (offset_of self.now.irs number.0) }
    {
        self.ranges(number);
        number.in_window(self.next_number(), u32::from(self.window()))
    }

    /// Whether the last number of a segment lies in the window.
    #[tactic(auto, using(crate::proofs::Places::last_lies_in))]
    fn has_last(&self, seq: Seq, len: u32) -> bool
        requires some { 0 < len }
        requires most { len ≤ 2 ^ 16 }
        ensures { result ≡ lies_in (next self.now) (window self.now) (offset_of self.now.irs seq.0 +ℤ pos (len - 1)) }
    {
        self.ranges(seq);
        self.has(seq.add(len - 1))
    }

    /// Whether this is RCV.NXT.
    #[tactic(auto, using(crate::proofs::Places::is_next))]
    pub(crate) fn is_next(&self, seq: Seq) -> bool
        ensures { result ≡ int_eq (offset_of self.now.irs seq.0) (pos (next self.now)) }
    {
        self.ranges(seq);
        seq == self.next_number()
    }

    /// Whether a segment is acceptable by the four cases (RFC 9293, 3.10.7.4, first check, table 6).
    #[tactic(auto, using(crate::proofs::Places::near_of_acceptable))]
    fn is_acceptable(&self, seq: Seq, len: u32) -> bool
        requires { len ≤ 2 ^ 16 }
        ensures acceptable { result ≡ is_acceptable (next self.now) (window self.now) (offset_of self.now.irs seq.0) len }
        ensures near { OnTrue result (IsNearFirst (offset_of self.now.irs seq.0)) }
    {
        self.ranges(seq);
        if len == 0 {
            if self.window() == 0 {
                self.is_next(seq)
            } else {
                self.has(seq)
            }
        } else if self.window() == 0 {
            false
        } else {
            self.has(seq) || self.has_last(seq, len)
        }
    }

    /// The number of the advertised edge.
    fn edge_number(&self) -> Seq
        ensures { result.0 ≡ number_at self.now.irs (advertised_edge self.now) }
    {
        self.irs.add(1).add(self.advertised_edge())
    }

    /// Whether this is the number of the advertised edge.
    #[tactic(auto, using(crate::proofs::Places::is_next))]
    fn is_edge(&self, seq: Seq) -> bool
        ensures { result ≡ int_eq (offset_of self.now.irs seq.0) (pos (advertised_edge self.now)) }
    {
        self.ranges(seq);
        seq == self.edge_number()
    }

    /// Whether a segment of length 0 is at exactly the right edge of an open window. After a sender has filled the window and a segment was lost, its
    /// acknowledgements have this number.
    #[tactic(auto, using(crate::proofs::Places::near_of_place), unfolding(tcp_rules::specs::Arrival::is_at_right_edge))]
    fn is_at_right_edge(&self, seq: Seq, len: u32) -> bool
        ensures edge { result ≡ is_at_right_edge (next self.now) (window self.now) (offset_of self.now.irs seq.0) len }
        ensures near { OnTrue result (IsNearFirst (offset_of self.now.irs seq.0)) }
    {
        self.ranges(seq);
        len == 0 && self.window() > 0 && self.is_edge(seq)
    }

    /// Whether a segment is acceptable, or of length 0 at the right edge.
    pub(crate) fn accepts(&self, seq: Seq, len: u32) -> bool
        requires { len ≤ 2 ^ 16 }
        ensures acceptable { result ≡ is_acceptable_or_at_edge (next self.now) (window self.now) (offset_of self.now.irs seq.0) len }
        // Such a segment begins where numbers show the order of offsets.
        ensures near { OnTrue result (IsNearFirst (offset_of self.now.irs seq.0)) }
    {
        self.is_acceptable(seq, len) || self.is_at_right_edge(seq, len)
    }

    /// Whether this is RCV.NXT while the window is zero. The acknowledgement and the window of such a segment are used, whatever its length (RFC 9293,
    /// 3.10.7.4, first check, special allowance).
    #[tactic(auto, using(crate::proofs::Places::near_of_place), unfolding(tcp_rules::specs::Arrival::is_allowed_at_zero))]
    pub(crate) fn allows(&self, seq: Seq) -> bool
        ensures allowed { result ≡ is_allowed_at_zero (next self.now) (window self.now) (offset_of self.now.irs seq.0) }
        // Such a segment begins where numbers show the order of offsets.
        ensures near { OnTrue result (IsNearFirst (offset_of self.now.irs seq.0)) }
    {
        self.ranges(seq);
        self.window() == 0 && self.is_next(seq)
    }

    /// The number after the bytes taken.
    fn taken_number(&self) -> Seq
        ensures { result.0 ≡ number_at self.now.irs (taken self.now) }
    {
        self.irs.add(1).add(self.taken())
    }

    /// Whether a text of this length ends where the bytes taken end.
    #[tactic(auto, using(crate::proofs::Places::ends_there))]
    pub(crate) fn ends(&self, seq: Seq, len: u32) -> bool
        requires { len ≤ 2 ^ 16 }
        ensures { result ≡ int_eq (offset_of self.now.irs seq.0 +ℤ pos len) (pos (taken self.now)) }
    {
        self.ranges(seq);
        seq.add(len) == self.taken_number()
    }

    /// Whether a text that begins at `seq` leaves a gap after the bytes taken.
    #[tactic(auto, using(crate::proofs::Places::is_later))]
    fn is_past(&self, seq: Seq) -> bool
        requires { IsNearFirst (offset_of self.now.irs seq.0) }
        ensures { result ≡ int_lt (pos (taken self.now)) (offset_of self.now.irs seq.0) }
    {
        self.ranges(seq);
        self.taken_number().lt(seq)
    }

    /// The length of the gap that a text leaves after the bytes taken; 0 if it leaves none.
    #[tactic(auto, using(crate::proofs::Places::not_past, crate::proofs::Places::past))]
    pub(crate) fn gap(&self, seq: Seq) -> u32
        requires { IsNearFirst (offset_of self.now.irs seq.0) }
        ensures count { result ≡ ahead (taken self.now) (offset_of self.now.irs seq.0) }
        ensures most { result ≤ 2 ^ 30 + longest_stream }
    {
        self.ranges(seq);
        if self.is_past(seq) {
            return seq.minus(self.taken_number());
        }
        0
    }

    /// How many bytes of a text were taken before.
    #[tactic(auto, using(crate::proofs::Places::skipped, crate::proofs::Places::none_skipped))]
    fn known(&self, seq: Seq, gap: u32) -> u32
        requires near { IsNearFirst (offset_of self.now.irs seq.0) }
        requires gap { gap ≡ ahead (taken self.now) (offset_of self.now.irs seq.0) }
        ensures { result ≡ below (taken self.now) (offset_of self.now.irs seq.0) }
    {
        self.ranges(seq);
        if gap > 0 {
            return 0;
        }
        self.taken_number().minus(seq)
    }

    /// The offset up to which text counts: a FIN that is taken or held bounds it too.
    fn text_edge(&self) -> u32
        ensures { result ≡ text_edge (taken self.now) (receive_edge self.now) self.now.fin self.now.early }
    {
        if self.fin {
            return self.taken();
        }
        match self.held_fin {
            Some(place) => place.min(self.receive_edge()),
            None => self.receive_edge(),
        }
    }

    /// Returns the new part of a text. The text leaves a gap of `gap` bytes after the bytes taken, or none where `gap` is 0.
    #[tactic(auto, unfolding(tcp_rules::specs::Coming::new_text))]
    pub(crate) fn new_part<'a>(&self, seq: Seq, gap: u32, text: &'a [u8]) -> &'a [u8]
        requires near { IsNearFirst (offset_of self.now.irs seq.0) }
        requires gap { gap ≡ ahead (taken self.now) (offset_of self.now.irs seq.0) }
        requires most { gap ≤ 2 ^ 30 + longest_stream }
        ensures { result.now ≡ new_text (taken self.now) (receive_edge self.now) self.now.fin self.now.early (offset_of self.now.irs seq.0) text.now }
    {
        let known = self.known(seq, gap);
        let room = self.text_edge().saturating_sub(self.taken() + gap);
        part(text, known as usize, room as usize)
    }

    /// Takes the text and the FIN of a segment whose acknowledgement is used, or holds them (RFC 9293, 3.10.7.4, seventh and eighth check).
    pub(crate) fn take(&mut self, seq: Seq, text: &[u8], fin: bool)
        requires near { IsNearFirst (offset_of self.old.irs seq.0) }
        requires short { length text.now ≤ 2 ^ 16 }
        ensures { self.new ≡ with_segment self.old (offset_of self.old.irs seq.0) text.now fin }
    {
        self.ranges(seq);
        self.take_text(seq, text);
        self.take_fin(seq, text.len() as u32, fin);
    }

    /// Takes the new part of a text, with the held bytes that continue it, and a FIN that is held at their end. A new part that leaves a gap after the bytes
    /// taken is held instead.
    fn take_text(&mut self, seq: Seq, text: &[u8])
        requires { IsNearFirst (offset_of self.old.irs seq.0) }
        ensures { self.new ≡ with_segment self.old (offset_of self.old.irs seq.0) text.now false }
    {
        let gap = self.gap(seq);
        let part = self.new_part(seq, gap, text);
        put(&mut self.queue, gap as usize, part);
        let end = self.read + self.queue.len() as u32;
        if stands_at(end, self.held_fin) {
            self.held_fin = None;
            self.fin = true;
        }
    }

    /// Where a text of this length ends, as an offset in the peer's stream. If that is before the stream's beginning, the result is no smaller than the right
    /// edge.
    fn end(&self, seq: Seq, len: u32) -> u32
        requires near { IsNearFirst (offset_of self.now.irs seq.0) }
        requires short { len ≤ 2 ^ 16 }
        ensures place { (k : ℕ) → offset_of self.now.irs seq.0 +ℤ pos len ≡ pos k → result ≡ k }
        ensures past { (k : ℕ) → offset_of self.now.irs seq.0 +ℤ pos len ≡ negsuc k → receive_edge self.now ≤ result }
    {
        self.ranges(seq);
        seq.add(len).minus(self.irs.add(1))
    }

    /// Whether text or a FIN is held until the gap before it is filled.
    pub(crate) fn holds_early(&self) -> bool
        ensures { result ≡ not (length self.now.early.text == 0 && is_none self.now.early.fin) }
    {
        !(self.queue.held_to() == 0 && self.held_fin.is_none())
    }

    /// Whether a FIN at this place is held, or taken at once: the place is below the right edge and not below the bytes taken, no text at it or past it is
    /// held, and no FIN is held or taken.
    fn holds_fin(&self, place: u32) -> bool
        ensures { result ≡ holds_fin (taken self.now) (receive_edge self.now) (pos place) (nothing_came self.now.early self.now.fin) }
    {
        if place >= self.receive_edge() || place < self.taken() {
            return false;
        }
        self.queue.held_to() <= (place - self.taken()) as usize
            && self.held_fin.is_none()
            && !self.fin
    }

    /// Holds a FIN after a text of this length, or takes it where the bytes taken end there.
    fn take_fin(&mut self, seq: Seq, len: u32, fin: bool)
        requires near { IsNearFirst (offset_of self.old.irs seq.0) }
        requires short { len ≤ 2 ^ 16 }
        ensures { self.new ≡ with_segment self.old (offset_of self.old.irs seq.0 +ℤ pos len) [] fin }
    {
        let place = self.end(seq, len);
        if !fin || !self.holds_fin(place) {
            return;
        }
        if place == self.taken() {
            self.fin = true;
        } else {
            self.held_fin = Some(place);
        }
    }

    /// How many bytes are taken and not read.
    pub(crate) fn readable(&self) -> usize
        ensures { result ≡ length self.now.unread }
    {
        self.queue.len()
    }

    pub(crate) fn has_fin(&self) -> bool
        ensures { result ≡ self.now.fin }
    {
        self.fin
    }

    /// Moves the first unread bytes into `buf`, as many as fit.
    pub(crate) fn read(&mut self, buf: &mut [u8]) -> usize
        ensures count { result ≡ min (length self.old.unread) (length buf.old) }
        ensures bytes { buf.new ≡ take result self.old.unread ++ drop result buf.old }
        ensures state { self.new ≡ read_out self.old result }
    {
        let count = self.queue.read(buf);
        self.read += count as u32;
        count
    }

    /// Copies unread bytes, from place `from` on, to the beginning of `out`. All of them stay unread.
    pub(crate) fn peek(&self, from: usize, out: &mut [u8]) -> usize
        ensures count { result ≡ min (length self.now.unread - from) (length out.old) }
        ensures bytes { out.new ≡ take result (drop from self.now.unread) ++ drop result out.old }
    {
        self.queue.peek(from, out)
    }
}

/// The part of a text after its first `known` bytes, at most `room` bytes.
#[tactic(auto, using(std::proofs::lemmas::List::take_rest, std::proofs::lemmas::List::drop_min, std::proofs::lemmas::List::take_min))]
fn part(text: &[u8], known: usize, room: usize) -> &[u8]
    ensures { result.now ≡ take room (drop known text.now) }
{
    let rest = &text[known.min(text.len())..];
    &rest[..room.min(rest.len())]
}

/// Appends bytes to those in order, with the held bytes that continue them, or holds them where they begin after a gap.
#[tactic(auto, using(crate::proofs::Steps::none_held))]
fn put(queue: &mut RecvQueue, gap: usize, bytes: &[u8])
    requires fits { 0 < length bytes.now → length queue.old.unread + gap + length bytes.now ≤ buffer_size }
    ensures { queue.new ≡ (if gap == 0 then pushed bytes.now queue.old else record queue.old { early = held_with gap bytes.now queue.old.early }) }
{
    if gap == 0 {
        let _grown = queue.push(bytes);
        return;
    }
    if !bytes.is_empty() {
        let _is_held = queue.hold(gap, bytes);
    }
}

/// Whether a FIN is held at this offset.
fn stands_at(end: u32, held_fin: Option<u32>) -> bool
    ensures { result ≡ stands_at end held_fin }
{
    match held_fin {
        Some(place) => place == end,
        None => false,
    }
}
