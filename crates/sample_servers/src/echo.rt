//! Echo returns each chunk as it came.

ghost use Rattle.std.specs.Prelude.{◌≡◌, ℕ, ◌^◌, ◌≤◌, List, [], length, true};

use ft_io::NoMemory;
use server_trait::{Next, Saved, Service};
use std::alloc::Global;

/// The echo service. The output of a chunk is the chunk. It has no state.
#[derive(Clone, Copy, PartialEq, Eq)]
pub struct Echo;

impl Service for Echo {
    ghost use Rattle.std.proofs.Common.{rules};
    ghost use Rattle.sample_servers.specs.Echo.{echo_started, echo_after};
    ghost use Rattle.sample_servers.specs.WrittenBytes.{bytes-echo};
    ghost use Rattle.server_trait.specs.Service.{short_greeting};

    ghost started = { λ _. echo_started };

    ghost after = { echo_after };

    fn greeting(&self) -> &[u8] {
        &[]
    }

    fn fresh(_alloc: Global, _kind: u8) -> Echo {
        Echo
    }

    fn take(&mut self, chunk: &[u8], out: &mut Vec<u8>) -> Result<Next, NoMemory> {
        out.extend_from_slice(chunk)?;
        Ok(if chunk.is_empty() {
            Next::Close
        } else {
            Next::Go
        })
    }

    ghost closes = { λ _. Prim.search rules };

    ghost greets_shortly = { short_greeting };

    ghost is_short = { λ _ _ short. Prim.search rules };

    ghost writes_bytes = { λ _. bytes-echo };
}

impl Saved for Echo {
    ghost use Rattle.sample_servers.specs.OneState.{empty_form, only_state};
    ghost use Rattle.sample_servers.specs.Echo.{echo_started};
    ghost use Rattle.sample_servers.specs.ReadBack.{only_one_form, echo_reads_back};

    ghost is_savable = { true };

    ghost form = { empty_form };

    ghost state_of = { λ _. only_state echo_started };

    fn savable() -> bool {
        true
    }

    fn save(&self, _out: &mut Vec<u8>) -> Result<(), NoMemory> {
        Ok(())
    }

    fn load(_alloc: Global, _kind: u8, bytes: &[u8]) -> Result<Option<Echo>, NoMemory> {
        Ok(bytes.is_empty().then_some(Echo))
    }

    ghost reads_back = { λ _ _. echo_reads_back };

    ghost one_form = { λ _. only_one_form echo_started };
}
