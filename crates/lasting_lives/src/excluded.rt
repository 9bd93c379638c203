//! Wrong results that the contracts of this crate exclude. Each function calls another one of the crate, and promises of its result what a wrong body would
//! make false. It is proved from the other's contract alone, so it is no longer proved once that contract lets the wrong body pass.

ghost use Rattle.std.specs.Prelude.{◌≡◌, ◌<◌, ◌≤◌, false, true};
ghost use Rattle.ft_model.specs.Point.{Point};
ghost use Rattle.lasting_laws.specs.Watching as law;
ghost use Rattle.lasting_laws.specs.Watching.{is_half_open};
ghost use Rattle.lasting_lives.specs.Watches.{WatchStands, ShowsPoint};

use crate::outside::Outside;
use crate::watch::{Due, Watch};

/// A half-open connection is let go of at the 250th tick and not before: the contract of `Watch::due`.
fn lets_go_early(watch: &Watch, silence: u32, conn: &Outside) -> Due
    requires silence { silence ≤ 100000000 }
    requires half_open { (w : law.Watch) × (p : Point) × WatchStands watch.now w × ShowsPoint conn.now p × (is_half_open w p ≡ true) × (w.age < 250) }
    ensures { result ≡ Due.Nothing }
{
    watch.due(silence, conn)
}
