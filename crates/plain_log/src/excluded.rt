//! Wrong results that the contracts of this crate exclude. Each function calls another one of the crate, and promises of its result what a wrong body would
//! make false. It is proved from the other's contract alone, so it is no longer proved once that contract lets the wrong body pass.

ghost use Rattle.std.specs.Prelude.{◌≡◌, ◌<◌, IfOk, OnOk, Some, length, option_map, true, false};
ghost use Rattle.ft_model.specs.Restart.{lacks_read_bytes, lacks_lengths};
ghost use Rattle.ft_model.specs.Restart.Wanted.{Its_lengths};
ghost use Rattle.seq_arith.specs.declared.kinds.Grammar.TheVariants.{Wide};
ghost use Rattle.logger_wire.specs.Value.{IsSendableBy};
ghost use Rattle.plain_log.specs.Values.{wanted_in};

use crate::fetched::PlainFetched;
use crate::fetching::PlainFetching;
use crate::log::PlainLog;
use crate::wanted::Wanted;
use ft_io::{Key, NoMemory};
use logger_wire::{Body, Msg};
use std::alloc::Global;

/// While lengths are missing, and no bytes of the reads before them are, the lengths are requested first: the contract of `PlainFetched::wanted`.
fn asks_for_all_bytes_first(fetched: &PlainFetched) -> Option<Wanted>
    requires bytes { lacks_read_bytes fetched.now ≡ false }
    requires lengths { lacks_lengths fetched.now ≡ true }
    ensures { option_map wanted_in result ≡ Some (Its_lengths fetched.now.head.key (length fetched.now.lengths)) }
{
    fetched.wanted()
}

/// Bytes from another offset than the one requested don't fit: the contract of `PlainFetching::take_bytes`.
fn bytes_of_another_place(
    fetching: &mut PlainFetching,
    key: Key,
    bytes: &[u8],
) -> Result<bool, NoMemory>
    ensures { IfOk result (λ fits. fits ≡ false) }
{
    let body = Body::Part {
        key,
        offset: 1,
        bytes,
    };
    fetching.take_bytes(key, 2, &body)
}

/// A message of an older boot changes nothing: the contract of `PlainLog::take`.
#[tactic(auto, unfolding(ft_model::specs::Log::log_after))]
fn keeps_an_older_boots_message(
    log: &mut PlainLog,
    alloc: Global,
    msg: &Msg<'_>,
) -> Result<(), NoMemory>
    requires sendable { IsSendableBy Wide msg.now }
    requires older { msg.now.boot < log.old.boot }
    ensures { OnOk result (log.new ≡ log.old) }
{
    log.take(alloc, msg)
}

/// A log with 64 entries refuses every further one: the contract of `PlainLog::turns_away`.
fn one_more_entry(log: &PlainLog, key: Key) -> bool
    requires { length log.now.entries ≡ 64 }
    ensures { result ≡ true }
{
    log.turns_away(key)
}
