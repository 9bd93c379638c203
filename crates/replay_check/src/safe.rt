//! What the laws of joint traces prove of every trace that is played or checked. Nothing here runs.

ghost use Rattle.std.specs.Prelude.{ℕ, List};
ghost use Rattle.ft_model.specs.World.{Joint, Moment, World};
ghost use Rattle.sample_servers.specs.AnyService.{any_machine};
ghost use Rattle.replay_check.specs.Safe.{IsSafe};

use ft_model::headline::{
    every_joint_trace_is_masked, logged_reads_cut_the_bytes, no_logged_connection_is_reset,
    no_server_is_fenced,
};
use sample_servers::AnyService;

/// In every joint trace, crashes can't be seen from outside, no RST is sent to a client whose entry isn't done, no server is fenced, and the lengths of the
/// logged reads cut the logged bytes.
pub fn joint_traces_are_safe()
    ensures { (kind : ℕ) (start : World) (trace : List Moment) → Joint (any_machine kind) start trace → IsSafe (any_machine kind) start trace }
{
    // Theorems for the proof. They do nothing when they are called.
    every_joint_trace_is_masked::<AnyService>();
    no_logged_connection_is_reset::<AnyService>();
    no_server_is_fenced::<AnyService>();
    logged_reads_cut_the_bytes::<AnyService>();
}
