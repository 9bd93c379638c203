//! What part of the client's stream a connection sends to the logger when a segment arrives.

ghost use Rattle.limits.specs.Limits.{largest_segment, longest_stream};
ghost use Rattle.std.specs.Prelude.{◌≡◌, ◌≤◌, ◌+◌, ◌-◌, ◌*◌, ◌^◌, ◌∷◌, ◌++◌, [], true, false, Bool, List, min, length};
ghost use Rattle.std.specs.Prelude.{◌&&◌, take, drop, map, is_some, IsOk, IfOk, IfSome};
ghost use Rattle.seq_arith.specs.PacketGrammar.{reading};
ghost use Rattle.seq_arith.specs.Message.{Body as Reported};
ghost use Rattle.seq_arith.specs.Message.Body.{DataMsg};
ghost use Rattle.south_wrap.specs.Translation.{copied, is_some_copied, IsPart};
ghost use Rattle.tcp_endpoint.specs.Packets.{byte_count};
ghost use Rattle.wrapped_conn.specs.Numbers.{fetched_or_read, una_units, logged_units, bytes_taken};
ghost use Rattle.wrapped_conn.specs.LoggerMessages.{spelled, copies, own_data, further_start as further_start_lem, takes_held_fin as takes_held_fin_lem};
ghost use Rattle.wrapped_conn.specs.LoggerMessages.{unread_from, datas_of, or_una, in_batch, followed, follows as follows_lem, most_text, AreShort};
ghost use Rattle.wrapped_conn.specs.Sound.{IsSound};

use crate::conn::Conn;
use crate::stage::Before;
use segment_codec::read_accepted;
use server_trait::Service;
use south_wrap::CopyPart;
use tcp_endpoint::Outbox;

/// The most bytes of a Data.
const DATA: u32 = limits::SEGMENT as u32;

impl<S: Service> Conn<S> {
    /// Sends the copied part of a segment, and after it the text and the FIN that were held and are taken now. If there is nothing to send, reports to the
    /// logger that the client has acknowledged more, if it has.
    pub(crate) fn send_copy(&self, packet: &[u8], before: Before, out: &mut Outbox)
        requires sound { IsSound self.now }
        requires accepted { IsOk (reading packet.now) }
        requires before { before.taken ≤ longest_stream }
        requires empty { out.old ≡ [] }
        ensures reported { IfOk (reading packet.now) (λ segment. out.new ≡ spelled self.now.batches self.now.boot (copies before segment self.now)) }
        ensures few { length out.new ≤ 46 }
        ensures short { AreShort out.new }
    {
        let own = self.south.copy_of(packet);
        let start = self.further_start(packet, before);
        let fin = self.takes_held_fin(before, self.copies_fin(packet, own));
        let more = self.has_more(start, fin);
        self.send_own(packet, own, more, out);
        self.send_further(start, fin, out);
        self.send_una(before.una, out);
    }

    /// Sends the copied part of a segment, if there is one. `more` says that another Data of the same turn follows.
    fn send_own(&self, packet: &[u8], own: Option<CopyPart>, more: bool, out: &mut Outbox)
        requires sound { IsSound self.now }
        requires accepted { IsOk (reading packet.now) }
        requires empty { out.old ≡ [] }
        requires which { IfOk (reading packet.now) (λ segment. is_some own ≡ is_some_copied (copied self.now.south segment)) }
        requires part { IfSome own (λ part. IfOk (reading packet.now) (λ segment. IsPart packet.now part (copied self.now.south segment))) }
        requires wide { more ≡ true → self.now.batches ≡ true }
        ensures reported { IfOk (reading packet.now) (λ segment. out.new
            ≡ spelled self.now.batches self.now.boot (map (followed more) (own_data segment self.now))) }
        ensures few { length out.new ≤ 1 }
        ensures short { byte_count out.new ≤ 64 * length out.new + largest_segment }
    {
        match own {
            Some(part) => {
                let bytes = &packet[part.from..part.to];
                if more {
                    self.send_data(part.offset, self.una(), false, true, bytes, out);
                } else {
                    self.send_data(part.offset, self.una(), part.fin, false, bytes, out);
                }
            }
            None => (),
        }
    }

    /// Whether the client's FIN is in the copied part of a segment.
    fn copies_fin(&self, packet: &[u8], own: Option<CopyPart>) -> bool
        requires accepted { IsOk (reading packet.now) }
        requires which { IfOk (reading packet.now) (λ segment. is_some own ≡ is_some_copied (copied self.now.south segment)) }
        requires part { IfSome own (λ part. IfOk (reading packet.now) (λ segment. IsPart packet.now part (copied self.now.south segment))) }
        ensures { IfOk (reading packet.now) (λ segment. result ≡ (copied self.now.south segment).fin) }
    {
        match own {
            Some(part) => part.fin,
            None => false,
        }
    }

    /// Whether the first Data of a turn says that another follows: the turn's Data are a batch, and text or a FIN that was held is sent now.
    fn has_more(&self, start: u32, fin: bool) -> bool
        requires { IsSound self.now }
        ensures value { result ≡ (self.now.batches && follows_lem start fin self.now) }
        ensures wide { result ≡ true → self.now.batches ≡ true }
    {
        self.batches && self.follows(start, fin)
    }

    /// Whether text or a FIN that was held is sent now.
    fn follows(&self, start: u32, fin: bool) -> bool
        requires { IsSound self.now }
        ensures { result ≡ follows_lem start fin self.now }
    {
        self.unread() > start.saturating_sub(self.fetched_or_read()) || fin
    }

    /// Where the text begins that was held and is taken now, and isn't known to be logged.
    fn further_start(&self, packet: &[u8], before: Before) -> u32
        requires sound { IsSound self.now }
        requires accepted { IsOk (reading packet.now) }
        ensures { IfOk (reading packet.now) (λ segment. result ≡ further_start_lem before segment self.now) }
    {
        let own_end = self.text_end(&read_accepted(packet)).min(self.taken());
        self.logged().max(before.taken.max(own_end))
    }

    /// Whether a FIN that was held is taken now, and isn't known to be logged.
    fn takes_held_fin(&self, before: Before, own: bool) -> bool
        requires { IsSound self.now }
        ensures { result ≡ takes_held_fin_lem before own self.now }
    {
        self.has_fin() && !before.fin && !own && self.logged() <= self.taken()
    }

    /// Sends the unread text from this offset on, in Data of 1,460 bytes each except the last, which has the FIN if `fin`.
    fn send_further(&self, start: u32, fin: bool, out: &mut Outbox)
        requires sound { IsSound self.now }
        requires start { fin ≡ true → start ≤ longest_stream }
        requires few { length out.old ≤ 1 }
        requires short { byte_count out.old ≤ 64 * length out.old + largest_segment }
        ensures reported { out.new ≡ out.old
            ++ spelled self.now.batches self.now.boot (in_batch self.now.batches (datas_of self.now start (unread_from self.now start) fin)) }
        ensures few { length out.new ≤ length out.old + 45 }
        ensures short { AreShort out.new }
    {
        let from = start.saturating_sub(self.fetched_or_read());
        let count = self.unread().saturating_sub(from);
        let reported = self.send_full(start, from, count, out);
        if reported < count || fin {
            self.send_piece(start + reported, from + reported, fin, false, out);
        }
    }

    /// Sends the `count` unread bytes from place `from` on, except the last 1,460 at most, in Data of 1,460 bytes each. Returns how many bytes it has sent.
    fn send_full(&self, start: u32, from: u32, count: u32, out: &mut Outbox) -> u32
        requires sound { IsSound self.now }
        requires start { start ≤ fetched_or_read self.now + from }
        requires count { count ≡ length self.now.endpoint.receiving.unread - from }
        requires few { length out.old ≤ 1 }
        requires short { byte_count out.old ≤ 64 * length out.old + largest_segment }
        ensures reported { (fin : Bool)
            → out.new ++ spelled self.now.batches self.now.boot
            (in_batch self.now.batches (datas_of self.now (start + result) (drop (from + result) self.now.endpoint.receiving.unread) fin))
            ≡ out.old ++ spelled self.now.batches self.now.boot
            (in_batch self.now.batches (datas_of self.now start (drop from self.now.endpoint.receiving.unread) fin)) }
        ensures within { result ≤ count }
        ensures rest { count ≤ result + largest_segment }
        ensures few { largest_segment * length out.new ≡ largest_segment * length out.old + result }
        ensures short { byte_count out.new + 64 * length out.old ≤ byte_count out.old + 64 * length out.new + result }
    {
        let mut reported = 0;
        while reported + DATA < count {
            self.send_piece(start + reported, from + reported, false, self.batches, out);
            reported += DATA;
        }
        reported
    }

    /// Sends the unread text from a place on as one Data, at most 1,460 bytes of it. `more` says that another Data of the same turn follows.
    fn send_piece(&self, offset: u32, from: u32, fin: bool, more: bool, out: &mut Outbox)
        requires boot { 1 ≤ self.now.boot }
        requires one { fin ≡ true → more ≡ false }
        requires wide { more ≡ true → self.now.batches ≡ true }
        requires within { offset + min (length self.now.endpoint.receiving.unread - from) largest_segment ≤ longest_stream }
        requires few { length out.old ≤ 80 }
        requires short { byte_count out.old + min (length self.now.endpoint.receiving.unread - from) largest_segment ≤ 64 * length out.old + most_text }
        ensures reported { out.new ≡ out.old ++ spelled self.now.batches self.now.boot (DataMsg (record {
          key = self.now.key;
          offset = offset;
          acked = una_units self.now;
          fin = fin;
          more = more;
          bytes = take largest_segment (drop from self.now.endpoint.receiving.unread);
        }) ∷ []) }
        ensures few { length out.new ≡ length out.old + 1 }
        ensures short { byte_count out.new ≤ byte_count out.old + 64 + min (length self.now.endpoint.receiving.unread - from) largest_segment }
    {
        let mut bytes = [0u8; DATA as usize];
        let count = self.endpoint.peek(from as usize, &mut bytes);
        self.send_data(offset, self.una(), fin, more, &bytes[..count], out);
    }

    /// If no Data has been sent, reports to the logger that the client has acknowledged more, if that is so.
    #[tactic(auto, using(crate::proofs::Copied::una_reported, crate::proofs::Copied::una_silent))]
    fn send_una(&self, una_before: u32, out: &mut Outbox)
        requires sound { IsSound self.now }
        requires few { length out.old ≤ 46 }
        requires short { AreShort out.old }
        ensures reported { (bodies : List Reported) → out.old ≡ spelled self.now.batches self.now.boot (in_batch self.now.batches bodies)
            → out.new ≡ spelled self.now.batches self.now.boot (in_batch self.now.batches (or_una una_before self.now bodies)) }
        ensures few { length out.new ≤ 46 }
        ensures short { AreShort out.new }
    {
        let acked = self.una();
        if out.is_empty() && una_before < acked {
            self.send_data(self.logged_bytes(), acked, false, false, &[], out);
        }
    }

    /// How many bytes of the client are known to be logged.
    fn logged_bytes(&self) -> u32
        requires { IsSound self.now }
        ensures value { result ≡ min (logged_units self.now) (bytes_taken self.now) }
        ensures most { result ≤ longest_stream }
    {
        self.logged().min(self.taken())
    }
}
