//! Wrong results that the contracts of this crate exclude. Each function calls another one of the crate, and promises of its result what a wrong body would
//! make false. It is proved from the other's contract alone, so it is no longer proved once that contract lets the wrong body pass.

ghost use Rattle.std.specs.Prelude.{◌≡◌, [], ◌∷◌, false, Some, OnOk};
ghost use Rattle.seq_arith.specs.Message.Body.{DataMsg, StaleMsg};
ghost use Rattle.ft_model.specs.Log.{log_after};
ghost use Rattle.logger_store.specs.StoreState.{answer_bytes};

use crate::msg_out::MsgOut;
use crate::store::LogStore;
use crate::stored_entry::StoredEntry;
use ft_io::{Key, NoMemory};
use logger_wire::{Body, Grammar, Msg, Part};
use std::alloc::Global;

/// What an older boot sends changes nothing and gets Stale: the clauses `next` and `answer` of `LogStore::answer`.
#[tactic(auto, unfolding(crate::proofs::Unfolded::keeps_old_boot_words))]
fn keeps_old_boot(store: &mut LogStore, alloc: Global, out: &mut MsgOut) -> Result<(), NoMemory>
    requires { store.old.boot ≡ 2 }
    ensures unchanged { OnOk result (store.new ≡ store.old) }
    ensures stale { OnOk result (out.new ≡ answer_bytes (Some (record { boot = 1; body = StaleMsg 2 }))) }
{
    let done = Body::Done {
        key: Key { ip: 0, port: 0 },
    };
    store.answer(
        alloc,
        &Msg {
            boot: 1,
            body: done,
        },
        out,
    )
}

/// A part that begins behind the kept bytes adds none: the clause `ok` of `StoredEntry::take_bytes`.
fn leaves_a_gap(entry: &mut StoredEntry, alloc: Global, key: Key) -> Result<(), NoMemory>
    requires { entry.old.bytes ≡ [] }
    ensures { OnOk result (entry.new.bytes ≡ []) }
{
    entry.take_bytes(
        alloc,
        &Part {
            key,
            offset: 9,
            acked: 0,
            fin: false,
            more: false,
            bytes: &[7],
        },
    )
}

/// A Data that another of its turn follows has no answer: the clause `answer` of `LogStore::answer_by`.
#[tactic(auto, unfolding(crate::proofs::Unfolded::keeps_old_boot_words))]
fn answers_each_data(store: &mut LogStore, alloc: Global, out: &mut MsgOut) -> Result<(), NoMemory>
    requires { store.old.boot ≡ 1 }
    ensures { OnOk result (out.new ≡ []) }
{
    store.answer_by(
        alloc,
        Grammar::Wide,
        &Msg {
            boot: 1,
            body: Body::Data(Part {
                key: Key { ip: 0, port: 0 },
                offset: 0,
                acked: 0,
                fin: false,
                more: true,
                bytes: &[7],
            }),
        },
        out,
    )
}

/// It changes the log as one that none follows: the clause `next` of `LogStore::answer_by`.
#[tactic(auto, unfolding(seq_arith::specs::MessageGrammar::is_sound_by, seq_arith::specs::MessageGrammar::has_length, ft_model::specs::Log::log_after))]
fn passes_over_a_data_that_another_follows(
    store: &mut LogStore,
    alloc: Global,
    out: &mut MsgOut,
) -> Result<(), NoMemory>
    ensures { OnOk result (store.new ≡ log_after store.old (record {
      boot = 1;
      body = DataMsg (record { key = record { ip = 0; port = 0 }; offset = 0; acked = 0; fin = false; more = false; bytes = 7 ∷ [] });
    })) }
{
    store.answer_by(
        alloc,
        Grammar::Wide,
        &Msg {
            boot: 1,
            body: Body::Data(Part {
                key: Key { ip: 0, port: 0 },
                offset: 0,
                acked: 0,
                fin: false,
                more: true,
                bytes: &[7],
            }),
        },
        out,
    )
}
