//! Forged segments of the client bring a fresh TCP to where the log ends. What it answers is discarded.

ghost use Rattle.limits.specs.Limits.{longest_stream};
ghost use Rattle.std.specs.Prelude.{◌≡◌, ◌≤◌, ◌-◌, ◌+◌, ◌^◌, [], Some, None, IfOk};
ghost use Rattle.seq_arith.specs.Number.{number_at};
ghost use Rattle.segment_codec.specs.Value.{said};
ghost use Rattle.ft_model.specs.News.News.{Comes};
ghost use Rattle.logger_wire.specs.Records.{head_said};
ghost use Rattle.tcp_endpoint.specs.SendHalf.{IsShort};
ghost use Rattle.endpoint_laws.specs.Turn.{turned};
ghost use Rattle.connection_laws.specs.Splice.{forged as forged_lem, forged_syn, forged_ack, forged_fin, connected_measuring, spliced_measuring};
ghost use Rattle.log_replay.specs.LoggedHead.{IsSegmentSize, has_end};

use ft_io::{Addr, Key, NoMemory};
use limits::STREAM;
use logger_wire::EntryHead;
use segment_codec::{Head, PacketRef};
use seq_arith::{ACK, FIN, SYN, Seq};
use std::alloc::Global;
use tcp_endpoint::{Endpoint, Outbox};

/// Whether a FIN is logged for which the stream has room.
pub fn has_end(head: &EntryHead) -> bool
    ensures { result ≡ has_end (head_said head.now) }
{
    head.fin && head.length < STREAM
}

/// The header of a segment of the client, with window 0.
fn forged(key: Key, local: Addr, seq: Seq, ack: Seq, flags: u8, mss: Option<u16>) -> Head
    ensures { record { head = said result; payload = [] } ≡ forged_lem key local seq.0 ack.0 flags mss }
{
    Head {
        src: key.ip,
        dst: local.ip,
        sport: key.port,
        dport: local.port,
        seq,
        ack,
        flags,
        window: 0,
        mss,
        timestamps: None,
    }
}

/// The sequence number of an offset in the stream with this initial sequence number.
fn number_of(isn: Seq, offset: u32) -> Seq
    ensures { result.0 ≡ number_at isn.0 offset }
{
    isn.add(1).add(offset)
}

/// Gives the endpoint a segment without text, in a turn of its own, and discards what it answers.
fn forge(endpoint: &mut Endpoint, head: Head, out: &mut Outbox)
    requires { out.old ≡ [] }
    ensures state { IsShort endpoint.old.sending → endpoint.new ≡ turned (Comes (record { head = said head; payload = [] })) [] endpoint.old }
    ensures out { out.new ≡ [] }
{
    endpoint.on_packet(PacketRef { head, payload: &[] });
    endpoint.flush(out);
    out.clear();
}

/// An endpoint that is connected at the end of the entry's bytes: the forged SYN has the client's initial sequence number plus their count.
#[tactic(auto, using(crate::proofs::Forging::listen_short, crate::proofs::Forging::syn_short), unfolding(connection_laws::specs::Splice::connected_measuring))]
fn connected(
    alloc: Global,
    head: &EntryHead,
    local: Addr,
    isn: Seq,
    measures: bool,
    out: &mut Outbox,
) -> Result<Endpoint, NoMemory>
    requires stream { head.now.length ≤ longest_stream }
    requires out { out.old ≡ [] }
    ensures state { IfOk result (λ e. e ≡ connected_measuring measures head.now.key local head.now.cisn head.now.length head.now.mss isn.0) }
    ensures out { out.new ≡ [] }
{
    let cisn = Seq(head.cisn);
    let limit = STREAM - head.length;
    let mut endpoint = Endpoint::listen_measuring(alloc, local, isn, limit, measures)?;
    let syn = forged(
        head.key,
        local,
        cisn.add(head.length),
        Seq(0),
        SYN,
        Some(head.mss),
    );
    forge(&mut endpoint, syn, out);
    let ack = forged(
        head.key,
        local,
        number_of(cisn, head.length),
        number_of(isn, 0),
        ACK,
        None,
    );
    forge(&mut endpoint, ack, out);
    Ok(endpoint)
}

/// An endpoint at the end of the entry, including the FIN where one is logged. `measures` says whether it measures round trips.
#[tactic(auto, using(crate::proofs::Forging::connected_short))]
pub fn spliced_endpoint(
    alloc: Global,
    head: &EntryHead,
    local: Addr,
    isn: Seq,
    measures: bool,
) -> Result<Endpoint, NoMemory>
    requires stream { head.now.length ≤ longest_stream }
    requires segments { IsSegmentSize head.now.mss }
    ensures { IfOk result (λ e. e ≡ spliced_measuring measures head.now.key local head.now.cisn head.now.length head.now.mss isn.0
        (has_end (head_said head.now))) }
{
    let mut out = Outbox::new(alloc)?;
    let mut endpoint = connected(alloc, head, local, isn, measures, &mut out)?;
    if !has_end(head) {
        return Ok(endpoint);
    }
    let fin = forged(
        head.key,
        local,
        number_of(Seq(head.cisn), head.length),
        number_of(isn, 0),
        FIN | ACK,
        None,
    );
    forge(&mut endpoint, fin, &mut out);
    Ok(endpoint)
}
