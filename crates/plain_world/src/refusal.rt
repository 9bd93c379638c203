//! The law Reset and end: the RSTs to clients that have no connection (RFC 9293, 3.10.7.1 and 3.10.7.2).

ghost use Rattle.std.specs.Prelude.{◌≡◌, ◌∷◌, [], OnOk, map};
ghost use Rattle.std.specs.Option.{option_to_list};
ghost use Rattle.seq_arith.specs.Value.{said};
ghost use Rattle.segment_codec.specs.Value.{segment_of};
ghost use Rattle.ft_model.specs.Network.Packet.{To_client};
ghost use Rattle.ft_model.specs.Refusal.{as_listen, as_closed, full_rst, rst_behind as behind_lem};
ghost use Rattle.plain_packets.specs.Sent.{Appends};
ghost use Rattle.logger_wire.specs.Records.{numbers_said};

use ft_io::{Addr, NoMemory};
use logger_wire::Numbers;
use plain_packets::{PlainPackets, has_ack, has_rst, number_of, segment_len};
use segment_codec::{Head, PacketRef};
use seq_arith::{ACK, RST, Seq};
use std::alloc::Global;

/// Sends a client a segment without text. After `NoMemory` the packets may only be dropped.
pub(crate) fn send_bare(alloc: Global, head: Head, sent: &mut PlainPackets) -> Result<(), NoMemory>
    ensures { OnOk result (Appends sent.old sent.new (To_client (record { head = said head; payload = [] }) ∷ [])) }
{
    sent.send_to_client(alloc, &PacketRef { head, payload: &[] })
}

/// Returns the answer in state LISTEN, if there is one: a RST to an acknowledgement, nothing to a RST.
pub(crate) fn as_listen(server: Addr, segment: &PacketRef<'_>) -> Option<Head>
    ensures { map (λ head. To_client (record { head = said head; payload = [] })) (option_to_list result)
        ≡ map To_client (as_listen server (segment_of segment.now)) }
{
    if has_ack(segment) && !has_rst(segment) {
        Some(segment.head.reset_at_ack(server))
    } else {
        None
    }
}

/// Returns the RST that acknowledges a segment.
fn rst_behind(server: Addr, segment: &PacketRef<'_>) -> Head
    ensures { record { head = said result; payload = [] } ≡ behind_lem server (segment_of segment.now) }
{
    let len = segment_len(segment) % (1 << 32);
    segment.head.reset_behind(server, len as u32)
}

/// Sends the answer in state CLOSED: a RST to anything but a RST. After `NoMemory` the packets may only be dropped.
pub(crate) fn refuse_closed(
    alloc: Global,
    server: Addr,
    segment: &PacketRef<'_>,
    sent: &mut PlainPackets,
) -> Result<(), NoMemory>
    ensures { OnOk result (Appends sent.old sent.new (map To_client (as_closed server (segment_of segment.now)))) }
{
    if has_rst(segment) {
        return Ok(());
    }
    if has_ack(segment) {
        return send_bare(alloc, segment.head.reset_at_ack(server), sent);
    }
    send_bare(alloc, rst_behind(server, segment), sent)
}

/// Refuses the SYN of an opening because the log is full. After `NoMemory` the packets may only be dropped.
pub(crate) fn refuse_full(
    alloc: Global,
    server: Addr,
    numbers: &Numbers,
    sent: &mut PlainPackets,
) -> Result<(), NoMemory>
    ensures { OnOk result (Appends sent.old sent.new (To_client (full_rst server (numbers_said numbers.now)) ∷ [])) }
{
    let ack = Seq(number_of(numbers.cisn, 0));
    send_bare(
        alloc,
        Head::reset(server, numbers.key, Seq(0), ack, RST | ACK),
        sent,
    )
}
