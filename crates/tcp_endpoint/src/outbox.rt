//! The packets that a turn sends, in order. Their room is allocated once.

ghost use Rattle.limits.specs.Limits.{longest_packet};
ghost use Rattle.std.specs.Prelude.{◌≡◌, ℕ, ◌+◌, ◌-◌, ◌<◌, ◌≤◌, ◌==◌, ◌&&◌, ◌↔◌, List, [], ◌∷◌, ◌++◌, Some, length, nat_lt, nat_le, IfOk, IsTrue, slice_get};
ghost use Rattle.std.specs.Prelude.{slice_index, slice_set, take, drop, replicate, vec_capacity};
ghost use Rattle.std.specs.Borrow.{sem};
ghost use Rattle.std.specs.Bool.{OnTrue, OnFalse};
ghost use Rattle.seq_arith.specs.PacketGrammar.{mss_option, timestamps_option, options_of, packet_length, spelling};
ghost use Rattle.segment_codec.specs.Value.{said};
ghost use Rattle.segment_codec.specs.Spelling.{segment_with};
ghost use Rattle.tcp_endpoint.specs.Packets.{byte_count, with_bytes_at, IsReadable};
ghost use Rattle.tcp_endpoint.specs.Loan.{LendsPacket};

use ft_io::NoMemory;
use segment_codec::{Head, write_header};
use seq_arith::Timestamps;
use std::alloc::Global;
use std::marker::Model;

/// The most packets that an outbox holds.
const PACKET_ROOM: usize = 1_100;

/// The most bytes that these packets have in all.
const BYTE_ROOM: usize = 120_000;

/// The same where timestamps make the packets longer.
const LONG_ROOM: usize = 124_000;

/// The packets that a turn sends: at most 1,100, of at most 120,000 bytes in all, or 124,000 with timestamps. In contracts an outbox is the list of its
/// packets.
#[derive(Drop)]
pub struct Outbox {
    /// The bytes of all packets, one packet after another.
    bytes: Vec<u8>,
    /// Where each packet ends in these bytes.
    ends: Vec<usize>,
}

impl Model for Outbox {
    ghost use Rattle.std.specs.Prelude.{ℕ, List, vec_capacity};
    ghost use Rattle.tcp_endpoint.specs.Packets.{pieces, Stores};

    ghost Value = { List (List ℕ) };

    ghost view = { λ o. pieces 0 o.ends.items o.bytes.items };

    ghost invariant = { λ o. Stores o.bytes.items o.ends.items (vec_capacity o.bytes) (vec_capacity o.ends) };
}

impl Outbox {
    /// Creates an outbox without packets, and allocates all its room. Fails where an allocation fails.
    pub fn new(alloc: Global) -> Result<Outbox, NoMemory>
        ensures { IfOk result (λ out. out ≡ []) }
    {
        let bytes = Vec::with_capacity(alloc, LONG_ROOM)?;
        let ends = Vec::with_capacity(alloc, PACKET_ROOM)?;
        Ok(Outbox { bytes, ends })
    }

    /// Returns the number of packets.
    #[tactic(auto, using(crate::proofs::Pieces::length_pieces))]
    pub fn len(&self) -> usize
        ensures { result ≡ length self.now }
    {
        self.ends.len()
    }

    /// Returns whether there is no packet.
    #[tactic(auto, using(crate::proofs::Pieces::length_pieces))]
    pub fn is_empty(&self) -> bool
        ensures { result ≡ (length self.now == 0) }
    {
        self.ends.is_empty()
    }

    /// Returns the bytes of packet `i`, counted from 0.
    #[tactic(auto, using(crate::proofs::Pieces::length_pieces, crate::proofs::Pieces::bounds_at, crate::proofs::Pieces::piece_at))]
    pub fn packet(&self, i: usize) -> &[u8]
        requires { i < length self.now }
        ensures { slice_get self.now i ≡ Some result.now }
    {
        let (start, end) = bounds(&self.ends, i);
        &self.bytes[start..end]
    }

    /// Lends the bytes of packet `i`, counted from 0, for writing.
    #[tactic(auto, using(crate::proofs::Pieces::length_pieces, crate::proofs::Pieces::bounds_at, crate::proofs::Pieces::piece_at))]
    pub fn packet_mut(&mut self, i: usize) -> &mut [u8]
        requires { i < length self.old }
        ensures* writes_back { sem 𝓛 (LendsPacket self.entry i result) }
        ensures value { slice_get self.old i ≡ Some result.now }
        // Bytes of the packet's length replace it, and the other packets stay.
        ensures same_length { (bytes : List ℕ) → length bytes ≡ length result.now → with_bytes_at self.old i bytes ≡ slice_set self.old i bytes }
    {
        let (start, end) = bounds(&self.ends, i);
        self.bytes.slice_mut(start..end)
    }

    /// Appends a packet. Returns false, and changes nothing, where there would be more than 1,100 packets or more than 120,000 bytes.
    #[tactic(auto, using(crate::proofs::Pieces::length_pieces, crate::proofs::Pieces::byte_count_pieces))]
    pub fn push(&mut self, packet: &[u8]) -> bool
        ensures fits { IsTrue result ↔ (length self.old < PACKET_ROOM) × (byte_count self.old + length packet.now ≤ BYTE_ROOM) }
        ensures pushed { OnTrue result (self.new ≡ self.old ++ packet.now ∷ []) }
        ensures refused { OnFalse result (self.new ≡ self.old) }
    {
        if BYTE_ROOM < self.bytes.len() || packet.len() > BYTE_ROOM - self.bytes.len() {
            return false;
        }
        self.push_longer(packet)
    }

    /// Does the same for a packet with timestamps: at most 124,000 bytes in all.
    #[tactic(auto, using(crate::proofs::Cited::push_longer_lemmas))]
    pub fn push_longer(&mut self, packet: &[u8]) -> bool
        ensures fits { IsTrue result ↔ (length self.old < PACKET_ROOM) × (byte_count self.old + length packet.now ≤ LONG_ROOM) }
        ensures pushed { OnTrue result (self.new ≡ self.old ++ packet.now ∷ []) }
        ensures refused { OnFalse result (self.new ≡ self.old) }
    {
        if self.ends.len() == PACKET_ROOM || packet.len() > LONG_ROOM - self.bytes.len() {
            return false;
        }
        self.bytes.extend_from_slice(packet).unwrap();
        self.ends.push(self.bytes.len()).unwrap();
        true
    }

    /// Appends a segment. Its text is given in two pieces. It is written once, in its final place.
    #[tactic(auto, using(crate::proofs::Pieces::length_pieces, crate::proofs::Pieces::byte_count_pieces))]
    pub(crate) fn push_segment(&mut self, head: &Head, front: &[u8], back: &[u8])
        requires size { packet_length (segment_with head.now (front.now ++ back.now)) ≤ longest_packet }
        requires count { length self.old < PACKET_ROOM }
        requires bytes { byte_count self.old ≤ 118000 }
        ensures sent { self.new ≡ self.old ++ spelling (segment_with head.now (front.now ++ back.now)) ∷ [] }
        ensures count { length self.new ≡ length self.old + 1 }
        ensures bytes { byte_count self.new ≡ byte_count self.old + packet_length (segment_with head.now (front.now ++ back.now)) }
        ensures readable { IsReadable (segment_with head.now (front.now ++ back.now)) }
    {
        append_segment(head, front, back, &mut self.bytes);
        note_end(self.bytes.len(), &mut self.ends);
    }

    /// Removes all packets.
    pub fn clear(&mut self)
        ensures { self.new ≡ [] }
    {
        self.bytes.clear();
        self.ends.clear();
    }
}

/// Where packet `i` begins and ends.
fn bounds(ends: &[usize], i: usize) -> (usize, usize)
    requires { i < length ends.now }
    ensures start { result.0 ≡ slice_index (0 ∷ ends.now) i }
    ensures end { result.1 ≡ slice_index ends.now i }
{
    let start = if i == 0 { 0 } else { ends[i - 1] };
    (start, ends[i])
}

/// Notes where a packet ends.
fn note_end(end: usize, ends: &mut Vec<usize>)
    requires { length ends.old.items < vec_capacity ends.old }
    ensures items { ends.new.items ≡ ends.old.items ++ end ∷ [] }
    ensures capacity { vec_capacity ends.old ≤ vec_capacity ends.new }
{
    ends.push(end).unwrap();
}

/// Appends a segment to bytes that have room for it.
fn append_segment(head: &Head, front: &[u8], back: &[u8], bytes: &mut Vec<u8>)
    requires size { packet_length (segment_with head.now (front.now ++ back.now)) ≤ longest_packet }
    requires room { length bytes.old.items + longest_packet ≤ vec_capacity bytes.old }
    ensures bytes { bytes.new.items ≡ bytes.old.items ++ spelling (segment_with head.now (front.now ++ back.now)) }
    ensures capacity { vec_capacity bytes.old ≤ vec_capacity bytes.new }
    ensures readable { IsReadable (segment_with head.now (front.now ++ back.now)) }
{
    let start = bytes.len();
    append_text(head, front, back, bytes);
    write_header(head, &mut bytes[start..]);
}

/// Appends room for headers, and a text after it.
fn append_text(head: &Head, front: &[u8], back: &[u8], bytes: &mut Vec<u8>)
    requires room { length bytes.old.items + (40 + length (options_of (said head.now))) + length (front.now ++ back.now) ≤ vec_capacity bytes.old }
    ensures begins { take (length bytes.old.items) bytes.new.items ≡ bytes.old.items }
    ensures text { drop (length bytes.old.items + (40 + length (options_of (said head.now)))) bytes.new.items ≡ front.now ++ back.now }
    ensures length { length bytes.new.items ≡ length bytes.old.items + (40 + length (options_of (said head.now))) + length (front.now ++ back.now) }
    ensures capacity { vec_capacity bytes.old ≤ vec_capacity bytes.new }
{
    append_blank(head, bytes);
    bytes.extend_from_slice(front).unwrap();
    append_some(back, bytes);
}

/// Appends room for headers.
fn append_blank(head: &Head, bytes: &mut Vec<u8>)
    requires { length bytes.old.items + (40 + length (options_of (said head.now))) ≤ vec_capacity bytes.old }
    ensures items { bytes.new.items ≡ bytes.old.items ++ replicate (40 + length (options_of (said head.now))) 0 }
    ensures capacity { vec_capacity bytes.old ≤ vec_capacity bytes.new }
{
    append_blank_to_size(head.mss, bytes);
    append_blank_timestamps(head.timestamps, bytes);
}

/// Appends room for headers up to the segment size, with it.
fn append_blank_to_size(mss: Option<u16>, bytes: &mut Vec<u8>)
    requires { length bytes.old.items + (40 + length (mss_option mss)) ≤ vec_capacity bytes.old }
    ensures items { bytes.new.items ≡ bytes.old.items ++ replicate (40 + length (mss_option mss)) 0 }
    ensures capacity { vec_capacity bytes.old ≤ vec_capacity bytes.new }
{
    match mss {
        Some(_) => bytes.extend_from_slice(&[0; 44]).unwrap(),
        None => bytes.extend_from_slice(&[0; 40]).unwrap(),
    }
}

/// Appends room for timestamps.
#[tactic(auto, unfolding(seq_arith::specs::Bytes::four))]
fn append_blank_timestamps(timestamps: Option<Timestamps>, bytes: &mut Vec<u8>)
    requires { length bytes.old.items + length (timestamps_option timestamps) ≤ vec_capacity bytes.old }
    ensures items { bytes.new.items ≡ bytes.old.items ++ replicate (length (timestamps_option timestamps)) 0 }
    ensures capacity { vec_capacity bytes.old ≤ vec_capacity bytes.new }
{
    match timestamps {
        Some(_) => bytes.extend_from_slice(&[0; 12]).unwrap(),
        None => {}
    }
}

/// Appends a part of a text. It is usually empty.
fn append_some(part: &[u8], bytes: &mut Vec<u8>)
    requires { length bytes.old.items + length part.now ≤ vec_capacity bytes.old }
    ensures items { bytes.new.items ≡ bytes.old.items ++ part.now }
    ensures capacity { vec_capacity bytes.old ≤ vec_capacity bytes.new }
{
    if !part.is_empty() {
        bytes.extend_from_slice(part).unwrap();
    }
}
