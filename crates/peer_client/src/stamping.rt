//! The timestamps of a live client's segments (RFC 7323, 3.2 and 4.3). TCP knows nothing of them: they are noted from what comes, and added to what it sends.

ghost use Rattle.std.specs.Prelude.{◌≡◌, ◌≤◌, ◌^◌, List, [], ◌∷◌, ◌++◌, Ok, Some, IfOk, ◌||◌, nat_abs, length, map};
ghost use Rattle.seq_arith.specs.Number.{gap};
ghost use Rattle.seq_arith.specs.Packet.{Segment, has_rst};
ghost use Rattle.seq_arith.specs.PacketGrammar.{spelling};
ghost use Rattle.segment_codec.specs.Value.{said, segment_of};
ghost use Rattle.tcp_endpoint.specs.Output.{packets};
ghost use Rattle.tcp_endpoint.specs.Packets.{AreReadable, IsReadable, byte_count};
ghost use Rattle.tcp_rules.specs.Timestamping.{timestamps_sent};
ghost use Rattle.peer_client.specs.Stamping.{first_stamps, size_read, as_read, is_timely, noted, stamps_after, stamped, all_stamped, after_last};
ghost use Rattle.peer_client.specs.Stamping.{after_sending, EchoFits};

use crate::segment::{has_ack, has_rst, segment_len};
use ft_io::NoMemory;
use limits::PACKET;
use segment_codec::{Head, PacketRef, payload_start, read_accepted, write_packet};
use seq_arith::{Seq, Timestamps, text_size};
use std::alloc::Global;
use std::marker::Model;
use std::mem;
use tcp_endpoint::Outbox;
use tcp_rules::{Timestamping, is_acceptable_or_at_edge};

/// Whether a client's segments carry timestamps, and what it has acknowledged last.
#[derive(Drop)]
pub struct Stamping {
    /// Whether they carry them, and which value they echo.
    timestamping: Timestamping,
    /// Last.ACK.sent: the acknowledgement of the last segment sent.
    acknowledgement: Seq,
    /// Its window.
    window: u16,
    /// Where segments are written anew that get longer. What it holds between turns has no meaning.
    spare: Outbox,
}

impl Model for Stamping {
    ghost use Rattle.peer_client.specs.Stamping.{StampState};

    ghost Value = { StampState };

    ghost view = { λ s. record { timestamping = s.timestamping; acknowledgement = s.acknowledgement.0; window = s.window } };
}

impl Stamping {
    /// Creates that of a client before its SYN, which has timestamps if its profile uses them. Fails where an allocation fails.
    pub fn new(alloc: Global, uses: bool) -> Result<Stamping, NoMemory>
        ensures { IfOk result (λ stamping. stamping ≡ first_stamps uses) }
    {
        let timestamping = if uses {
            Timestamping::Echoes(0)
        } else {
            Timestamping::Off
        };
        Ok(Stamping {
            timestamping,
            acknowledgement: Seq(0),
            window: 0,
            spare: Outbox::new(alloc)?,
        })
    }

    /// Returns the server's segment as TCP reads it: its segment size leaves room for the timestamps that both sides' segments carry.
    pub fn as_read<'a>(&self, p: PacketRef<'a>) -> PacketRef<'a>
        ensures segment { segment_of result ≡ as_read self.now (segment_of p.entry) }
        ensures payload { result.payload.now ≡ p.entry.payload.now }
    {
        PacketRef {
            head: Head {
                mss: self.size_read(&p.head),
                ..p.head
            },
            payload: p.payload,
        }
    }

    /// The segment size that TCP reads in a header.
    fn size_read(&self, head: &Head) -> Option<u16>
        ensures { result ≡ size_read self.now.timestamping (said head.now) }
    {
        match self.timestamping {
            Timestamping::Off | Timestamping::Awaited => head.mss,
            Timestamping::Echoes(_) => Some(text_size(head.mss, head.timestamps)),
        }
    }

    /// Notes the timestamps of the server's segment, which came before the connection had begun (`opening`), and with which it has begun or not.
    pub fn note(&mut self, opening: bool, begun: bool, p: PacketRef<'_>)
        requires { length p.payload.now ≤ 65535 }
        ensures { self.new ≡ stamps_after opening begun (segment_of p.entry) self.old }
    {
        if !opening {
            let timely = self.is_timely(&p);
            self.timestamping = self.timestamping.after(timely, p.head.timestamps);
        } else if begun {
            let asked = self.timestamping.sent().is_some();
            self.timestamping = Timestamping::asked(asked, p.head.timestamps);
        }
    }

    /// Whether the segment's value counts.
    pub(crate) fn is_timely(&self, p: &PacketRef<'_>) -> bool
        requires { length p.now.payload.now ≤ 65535 }
        ensures { result ≡ is_timely self.now (segment_of p.now) }
    {
        let place = place_of(p.head.seq, self.acknowledgement);
        let len = segment_len(p) as u32;
        is_acceptable_or_at_edge(0, u32::from(self.window), place, len) && !has_rst(p) && place <= 0
    }

    /// A fact for proofs: the value that is echoed fits its type.
    pub fn echo_fits(&self)
        ensures { EchoFits self.now.timestamping }
    {
        match self.timestamping {
            Timestamping::Off | Timestamping::Awaited => {}
            Timestamping::Echoes(recent) => {
                let _value = recent;
            }
        }
    }

    /// Adds the timestamps to TCP's segments of a turn, and notes what the last of them acknowledges.
    pub fn stamp(&mut self, out: &mut Outbox)
        requires spelled { (segments : List Segment) × (out.old ≡ packets segments) × AreReadable segments }
        requires count { length out.old ≤ 1030 }
        requires bytes { byte_count out.old ≤ 110000 }
        ensures state { (segments : List Segment) → out.old ≡ packets segments → AreReadable segments → self.new ≡ after_sending segments self.old }
        ensures sent { (segments : List Segment) → out.old ≡ packets segments → AreReadable segments
            → out.new ≡ packets (all_stamped (timestamps_sent self.old.timestamping) segments) }
        ensures readable { (segments : List Segment) → out.old ≡ packets segments → AreReadable segments
            → AreReadable (all_stamped (timestamps_sent self.old.timestamping) segments) }
    {
        let timestamps = self.timestamping.sent();
        self.note_sent(out);
        if let Some(timestamps) = timestamps {
            self.spare.clear();
            append_all(timestamps, out, &mut self.spare);
            mem::swap(out, &mut self.spare);
        }
    }

    /// Notes what the last of these segments acknowledges.
    fn note_sent(&mut self, out: &Outbox)
        requires spelled { (segments : List Segment) × (out.now ≡ packets segments) × AreReadable segments }
        ensures { (segments : List Segment) → out.now ≡ packets segments → AreReadable segments → self.new ≡ after_sending segments self.old }
    {
        if out.is_empty() {
            return;
        }
        let last = read_accepted(out.packet(out.len() - 1));
        self.note_last(&last);
    }

    /// Notes what a segment acknowledges, and its window.
    fn note_last(&mut self, p: &PacketRef<'_>)
        ensures { self.new ≡ after_last (segment_of p.now) self.old }
    {
        if has_ack(p) && !has_rst(p) {
            self.acknowledgement = p.head.ack;
            self.window = p.head.window;
        }
    }
}

/// Where a segment begins, counted from the last acknowledgement sent.
fn place_of(number: Seq, acknowledgement: Seq) -> i64
    ensures value { result ≡ gap number.0 acknowledgement.0 }
    ensures within { nat_abs result ≤ 2 ^ 31 }
{
    number.signed_gap(acknowledgement)
}

/// Appends all of TCP's segments with these timestamps.
fn append_all(timestamps: Timestamps, segments: &Outbox, out: &mut Outbox)
    requires spelled { (own : List Segment) × (segments.now ≡ packets own) × AreReadable own }
    requires empty { out.old ≡ [] }
    requires count { length segments.now ≤ 1030 }
    requires bytes { byte_count segments.now ≤ 110000 }
    ensures { (own : List Segment) → segments.now ≡ packets own → AreReadable own
        → (out.new ≡ packets (map (stamped timestamps) own)) × AreReadable (map (stamped timestamps) own) }
{
    for i in 0..segments.len() {
        append_stamped(timestamps, segments.packet(i), out);
    }
}

/// Appends a segment of TCP with these timestamps.
fn append_stamped(timestamps: Timestamps, packet: &[u8], out: &mut Outbox)
    requires spelled { (segment : Segment) × (packet.now ≡ spelling segment) × IsReadable segment }
    requires count { length out.old ≤ 1030 }
    requires bytes { byte_count out.old ≤ 122500 }
    ensures { (segment : Segment) → packet.now ≡ spelling segment → IsReadable segment
        → (out.new ≡ out.old ++ spelling (stamped timestamps segment) ∷ []) × IsReadable (stamped timestamps segment) }
{
    let segment = read_accepted(packet);
    let head = Head {
        timestamps: Some(timestamps),
        ..segment.head
    };
    if has_rst(&segment) || payload_start(&head) + segment.payload.len() > PACKET {
        out.push_longer(packet);
        return;
    }
    let mut bytes = [0u8; PACKET];
    let len = write_packet(&head, segment.payload, &mut bytes);
    out.push_longer(&bytes[..len]);
}
