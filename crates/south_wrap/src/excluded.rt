//! Wrong results that the contracts of this crate exclude. Each function calls another one of the crate, and promises of its result what a wrong body would
//! make false. It is proved from the other's contract alone, so it is no longer proved once that contract lets the wrong body pass.

ghost use Rattle.limits.specs.Limits.{longest_stream, most_units};
ghost use Rattle.std.specs.Prelude.{◌≡◌, ◌≤◌, ◌+◌, ◌^◌, true};
ghost use Rattle.south_wrap.specs.SouthState.{acknowledges_unsent, lowered};

use crate::fetched::Fetched;
use crate::south::South;
use seq_arith::Seq;

/// An acknowledgement of what was never sent is lowered by delta alone, and not to what is sent: the contract of `South::inner_ack`.
fn lowers_without_a_bound(south: &South, ack: Seq) -> Seq
    requires { acknowledges_unsent south.now ack.0 ≡ true }
    ensures { result.0 ≡ lowered south.now ack.0 }
{
    south.inner_ack(ack)
}

/// The wrapper at the end of a restart knows how much output an earlier incarnation may have sent: the contract of `South::after_fetch`.
fn forgets_the_fetched_output(fetched_output: u32, acked: u32) -> South
    requires most { fetched_output ≤ most_units }
    requires acked { acked ≤ longest_stream }
    ensures { result.fetched_output ≡ fetched_output }
{
    let fetched = Fetched {
        cisn: Seq(0),
        sisn: Seq(0),
        length: 0,
        fin: false,
        output: fetched_output,
        acked,
    };
    South::after_fetch(fetched, Seq(0))
}
