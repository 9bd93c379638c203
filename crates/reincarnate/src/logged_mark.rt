//! The logged mark of a connection.

ghost use Rattle.std.specs.Prelude.{◌≡◌};
ghost use Rattle.logger_wire.specs.Records.{head_said};
ghost use Rattle.mark_laws.specs.Restart.{lies_within};
ghost use Rattle.logger_wire.specs.MarkValue.{mark_said};

use logger_wire::{EntryHead, Mark};

/// Whether an entry can have the mark: all that is below it is logged, with at most as many reads as bytes, and the output made by then is acknowledged.
pub(crate) fn lies_within(mark: &Mark<'_>, head: &EntryHead) -> bool
    ensures { result ≡ lies_within (head_said head.now) (mark_said mark.now) }
{
    mark.reads <= head.reads
        && mark.length <= head.length
        && mark.made <= head.acked
        && mark.reads <= mark.length
}
