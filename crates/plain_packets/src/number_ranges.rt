//! Facts for proofs: the ranges of numbers, by their types. Nothing here does anything when it runs.

ghost use Rattle.std.specs.Prelude.{[], ◌∷◌, ◌<◌, ◌^◌, length};
ghost use Rattle.seq_arith.specs.declared.kinds.Kind.TheVariants as kinds;
ghost use Rattle.seq_arith.specs.Message.Body.{EntryMsg};
ghost use Rattle.seq_arith.specs.MessageGrammar.{kind_of, fields_of, numbers_of, with_key, key_and, opening, AllFit};
ghost use Rattle.logger_wire.specs.Records.{head_said};
ghost use Rattle.logger_wire.specs.Value.{body_of};

use ft_io::Key;
use logger_wire::{Body, EntryHead};

/// A number of two bytes is in range by its type.
fn fit_word(n: u16)
    ensures { n < 2 ^ 16 }
{
    let _n = n;
}

/// A number of eight bytes is in range by its type.
fn fit_huge(n: u64)
    ensures { n < 2 ^ 64 }
{
    let _n = n;
}

/// The numbers of a key are in range by their types.
fn fit_key(key: Key)
    ensures { AllFit (with_key []) (key_and key []) }
{
    let (_ip, _port) = (key.ip, key.port);
}

/// The numbers of a key and of a place in a stream are in range by their types.
fn fit_place(key: Key, place: u32)
    ensures { AllFit (fields_of kinds.Bytes) (key_and key (place ∷ [])) }
{
    let (_ip, _port, _place) = (key.ip, key.port, place);
}

/// The numbers of a connection are in range by their types.
fn fit_opening(key: Key, cisn: u32, sisn: u32, mss: u16)
    ensures { AllFit opening (key_and key (cisn ∷ sisn ∷ mss ∷ [])) }
{
    let (_ip, _port, _numbers) = (key.ip, key.port, (cisn, sisn, mss));
}

/// The numbers of a key and two counts are in range by their types.
fn fit_counts(key: Key, count: u32, other: u32)
    ensures { AllFit (fields_of kinds.Data) (key_and key (count ∷ other ∷ 0 ∷ [])) }
{
    let (_ip, _port, _counts) = (key.ip, key.port, (count, other));
}

/// The numbers of a read are in range by their types.
fn fit_read(key: Key, index: u32, length: u16)
    ensures { AllFit (fields_of kinds.Read) (key_and key (index ∷ length ∷ [])) }
{
    let (_ip, _port, _read) = (key.ip, key.port, (index, length));
}

/// The numbers of an Entry are in range by their types.
#[tactic(auto, using(crate::proofs::Ranges::flag_small))]
fn fit_head(index: u16, head: &EntryHead)
    ensures { AllFit (fields_of kinds.Entry) (numbers_of (EntryMsg index (head_said head.now))) }
{
    fit_word(index);
    fit_opening(head.key, head.cisn, head.sisn, head.mss);
    fit_counts(head.key, head.length, 0);
    fit_counts(head.key, head.reads, head.acked);
}

/// Each number of a message is in range by its type.
#[tactic(auto, using(crate::proofs::Ranges::flag_small, crate::proofs::Ranges::ending_small))]
pub(crate) fn fit_numbers(body: &Body<'_>)
    ensures { AllFit (fields_of (kind_of (body_of body.now))) (numbers_of (body_of body.now)) }
{
    match *body {
        Body::Hello => {}
        Body::Summary { count } => fit_word(count),
        Body::List { index } => fit_word(index),
        Body::Entry { index, head } => fit_head(index, &head),
        Body::Bytes { key, offset } | Body::Part { key, offset, .. } => fit_place(key, offset),
        Body::Cuts { key, first } | Body::Lens { key, first, .. } => fit_place(key, first),
        Body::Open(numbers) | Body::Opened(numbers) => {
            fit_opening(numbers.key, numbers.cisn, numbers.sisn, numbers.mss);
        }
        Body::Data(part) => fit_counts(part.key, part.offset, part.acked),
        Body::Stable(kept) | Body::Reads(kept) => fit_counts(kept.key, kept.length, kept.reads),
        Body::Read { key, index, length } => fit_read(key, index, length),
        Body::Done { key } | Body::Ended { key } | Body::Full { key } => fit_key(key),
        Body::Stale { newer } => fit_huge(newer),
    }
}
