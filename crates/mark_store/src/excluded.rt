//! Wrong results that the contracts of this crate exclude. Each function calls another one of the crate, and promises of its result what a wrong body would
//! make false. It is proved from the other's contract alone, so it is no longer proved once that contract lets the wrong body pass.

ghost use Rattle.limits.specs.Limits.{longest_stream, most_units};
ghost use Rattle.std.specs.Prelude.{ℕ, ◌≡◌, ◌≤◌, ◌+◌, ◌^◌, true, false, Some, OnOk, length, slice_get, take};
ghost use Rattle.ft_model.specs.Log.{Entry, with_entry};
ghost use Rattle.logger_store.specs.Trim.{IsLeftOf, trim_at};
ghost use Rattle.mark_laws.specs.MarkedLog.{MarkedLog, acknowledging, has_closing, keeps};
ghost use Rattle.logger_wire.specs.MarkValue.{mark_said};
ghost use Rattle.mark_store.specs.Refinement.{IsLeftOfMarked, mark_at};

use crate::store::MarkStore;
use ft_io::{Key, NoMemory};
use logger_wire::Mark;
use std::alloc::Global;

/// A mark with a closing read among its reads isn't kept: the contract of `MarkStore::follows`.
fn across_an_end_kept(store: &MarkStore, place: u16, mark: &Mark<'_>) -> bool
    ensures { (e : Entry) → slice_get store.now.trimmed.log.entries place ≡ Some e → has_closing (take mark.now.reads e.lengths) ≡ true → result ≡ false }
{
    store.follows(place, mark)
}

/// When a mark is taken, each entry is trimmed at its mark: the clause `ok` of `MarkStore::take_mark`.
fn never_trims(
    store: &mut MarkStore,
    alloc: Global,
    key: Key,
    mark: &Mark<'_>,
) -> Result<(), NoMemory>
    requires numbers { (mark.now.reads ≤ most_units) × (mark.now.length ≤ longest_stream) × (mark.now.made ≤ longest_stream) }
    requires state { length mark.now.state.now ≤ 1100 }
    ensures { OnOk result ((l : MarkedLog) → IsLeftOfMarked store.old l → (i : ℕ)
        → (trim_at store.new.trimmed.trims i).reads ≡ (mark_at store.new.marks i).reads) }
{
    store.take_mark(alloc, key, mark)
}

/// A mark after as many reads as the kept one, or after fewer, isn't kept: the contract of `MarkStore::follows`.
fn older_mark_kept(store: &MarkStore, place: u16, mark: &Mark<'_>) -> bool
    requires { mark.now.reads ≤ (trim_at store.now.trimmed.trims place).reads }
    ensures { result ≡ false }
{
    store.follows(place, mark)
}

/// The output that a mark counts is acknowledged in the log once the mark is kept: the clause `ok` of `MarkStore::take_mark`.
fn output_not_acknowledged(
    store: &mut MarkStore,
    alloc: Global,
    key: Key,
    mark: &Mark<'_>,
) -> Result<(), NoMemory>
    requires numbers { (mark.now.reads ≤ most_units) × (mark.now.length ≤ longest_stream) × (mark.now.made ≤ longest_stream) }
    requires state { length mark.now.state.now ≤ 1100 }
    ensures { OnOk result ((l : MarkedLog) → IsLeftOfMarked store.old l → keeps key (mark_said mark.now) l ≡ true
        → IsLeftOf store.new.trimmed (with_entry key (acknowledging mark.now.made) l.log)) }
{
    store.take_mark(alloc, key, mark)
}
