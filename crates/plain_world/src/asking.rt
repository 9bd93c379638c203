//! What a booting server asks the log (the law Restart).

ghost use Rattle.std.specs.Prelude.{◌≡◌, ◌∷◌, [], Some, OnOk};
ghost use Rattle.seq_arith.specs.Message.Body.{HelloMsg};
ghost use Rattle.ft_model.specs.Connection.{reported_by};
ghost use Rattle.ft_model.specs.Lawful.{summary_count as count_lem};
ghost use Rattle.ft_model.specs.Restart.{question as question_lem};
ghost use Rattle.logger_wire.specs.Value.{body_of};
ghost use Rattle.plain_log.specs.Values.{wanted_in};
ghost use Rattle.plain_packets.specs.Sent.{Appends};

use ft_io::NoMemory;
use logger_wire::{Body, Msg};
use plain_log::{Wanted, question};
use plain_packets::PlainPackets;
use std::alloc::Global;

/// Sends Hello to the log. After `NoMemory` the packets may only be dropped.
pub(crate) fn send_hello(alloc: Global, boot: u64, sent: &mut PlainPackets) -> Result<(), NoMemory>
    ensures { OnOk result (Appends sent.old sent.new (reported_by boot HelloMsg ∷ [])) }
{
    sent.send_to_logger(
        alloc,
        &Msg {
            boot,
            body: Body::Hello,
        },
    )
}

/// Asks the log for what is wanted. After `NoMemory` the packets may only be dropped.
pub(crate) fn ask(
    alloc: Global,
    boot: u64,
    wanted: Wanted,
    sent: &mut PlainPackets,
) -> Result<(), NoMemory>
    ensures { OnOk result (Appends sent.old sent.new (reported_by boot (question_lem (wanted_in wanted)) ∷ [])) }
{
    let body = question(wanted);
    sent.send_to_logger(alloc, &Msg { boot, body })
}

/// Returns the count that a Summary reports.
pub(crate) fn summary_count(body: &Body<'_>) -> Option<u16>
    ensures { result ≡ count_lem (body_of body.now) }
{
    match *body {
        Body::Summary { count } => Some(count),
        _ => None,
    }
}
