//! The log, as it takes a message and answers.

ghost use Rattle.std.specs.Prelude.{◌≡◌, OnOk, option_map};
ghost use Rattle.std.specs.Option.{option_to_list};
ghost use Rattle.seq_arith.specs.declared.kinds.Grammar.TheVariants.{Wide};
ghost use Rattle.logger_wire.specs.Value.{message_of, IsSendableBy};
ghost use Rattle.ft_model.specs.Log.{log_after, answer_to};
ghost use Rattle.ft_model.specs.Network.Packet.{From_logger};
ghost use Rattle.plain_packets.specs.Sent.{Appends};

use ft_io::NoMemory;
use logger_wire::Msg;
use plain_log::PlainLog;
use plain_packets::PlainPackets;
use std::alloc::Global;

/// Delivers a message to the log, and sends the answer. After `NoMemory` the log and the packets may only be dropped.
#[tactic(auto, using(plain_packets::proofs::Sent::appends_none))]
pub(crate) fn deliver_to_log(
    log: &mut PlainLog,
    alloc: Global,
    msg: &Msg<'_>,
    sent: &mut PlainPackets,
) -> Result<(), NoMemory>
    requires { IsSendableBy Wide msg.now }
    ensures log { OnOk result (log.new ≡ log_after log.old (message_of msg.now)) }
    ensures answer { OnOk result (Appends sent.old sent.new (option_to_list (option_map From_logger (answer_to log.old (message_of msg.now))))) }
{
    log.take(alloc, msg)?;
    let mut lens = Vec::new(alloc);
    log.spell_lengths(msg, &mut lens)?;
    match log.answer(msg, &lens) {
        Some(answer) => sent.send_from_logger(alloc, &answer),
        None => Ok(()),
    }
}
