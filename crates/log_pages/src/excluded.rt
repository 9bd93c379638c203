//! Wrong results that the contracts of this crate exclude. Each function calls another one of the crate, and promises of its result what a wrong body would
//! make false. It is proved from the other's contract alone, so it is no longer proved once that contract lets the wrong body pass.

ghost use Rattle.std.specs.Prelude.{◌≡◌, ◌≤◌, ◌+◌, ◌*◌, length, OnOk};

use crate::pages::Pages;
use ft_io::NoMemory;
use std::alloc::Global;

/// All bytes are added, also those that don't fit the page of the last byte: the clause `ok` of `Pages::add`.
fn drops_the_tail_at_a_border(
    pages: &mut Pages,
    alloc: Global,
    bytes: &[u8],
) -> Result<(), NoMemory>
    requires { length bytes.now ≤ 4096 }
    ensures { OnOk result (length pages.new.bytes ≡ length pages.old.bytes + length bytes.now) }
{
    pages.add(alloc, bytes)
}

/// Pages that are discarded aren't stored any more: the clause `dropped` of `Pages::discard`.
fn keeps_its_pages_zeroed(pages: &mut Pages, count: usize)
    requires { 4096 * count ≤ length pages.old.bytes }
    ensures { count ≤ pages.new.dropped }
{
    pages.discard(count);
}
