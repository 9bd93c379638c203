//! Wrong results that the contracts of this crate exclude. Each function calls another one of the crate, and promises of its result what a wrong body would
//! make false. It is proved from the other's contract alone, so it is no longer proved once that contract lets the wrong body pass.

ghost use Rattle.std.specs.Prelude.{◌≡◌, OnOk, true, false};
ghost use Rattle.tcp_rules.specs.Early.{laid, run_count};

use crate::arrival::{is_allowed_at_zero, is_at_right_edge};
use crate::held::Held;
use ft_io::NoMemory;

/// Text that would make a seventeenth run isn't held: the contract of `Held::hold`.
#[tactic(auto, unfolding(tcp_rules::specs::Early::held_with))]
fn a_seventeenth_run(held: &mut Held, at: usize, bytes: &[u8]) -> Result<(), NoMemory>
    requires { run_count (laid at bytes.now held.old.text) ≡ 17 }
    ensures { OnOk result (held.new ≡ held.old) }
{
    held.hold(at, bytes)
}

/// A byte at exactly the right edge isn't accepted; only a segment of length 0 is: the contract of `is_at_right_edge`.
#[tactic(auto, unfolding(tcp_rules::specs::Arrival::is_at_right_edge))]
fn accepts_a_byte_at_the_right_edge() -> bool
    ensures { result ≡ false }
{
    is_at_right_edge(0, 1, 1, 1)
}

/// Once the FIN is taken, no text past the bytes taken counts: the contract of `Held::text_edge`.
fn text_behind_the_fin(held: &Held) -> u64
    ensures { result ≡ 0 }
{
    held.text_edge(0, 1, true)
}

/// While the window is zero, a segment past the next number isn't used: the contract of `is_allowed_at_zero`.
#[tactic(auto, unfolding(tcp_rules::specs::Arrival::is_allowed_at_zero))]
fn zero_window_uses_any_number() -> bool
    ensures { result ≡ false }
{
    is_allowed_at_zero(0, 0, 1)
}
