//! Meter gives the length of each chunk, so its output shows how the input was cut.

ghost use Rattle.std.specs.Prelude.{◌≡◌, ℕ, ◌^◌, ◌≤◌, List, [], length, true};

use ft_io::NoMemory;
use itoa::Buffer;
use server_trait::{Next, Saved, Service};
use std::alloc::Global;

/// The service that measures its reads. A chunk that isn't empty gives its length, in decimal, and a line feed. It has no state.
#[derive(Clone, Copy, PartialEq, Eq)]
pub struct Meter;

impl Service for Meter {
    ghost use Rattle.std.proofs.Common.{arith, rules};
    ghost use Rattle.sample_servers.specs.Meter.{meter_started, meter_after};
    ghost use Rattle.sample_servers.specs.Lengths.{length-length_line-le};
    ghost use Rattle.sample_servers.specs.WrittenBytes.{bytes-meter};
    ghost use Rattle.server_trait.specs.Service.{short_greeting};

    ghost started = { λ _. meter_started };

    ghost after = { meter_after };

    fn greeting(&self) -> &[u8] {
        &[]
    }

    fn fresh(_alloc: Global, _kind: u8) -> Meter {
        Meter
    }

    fn take(&mut self, chunk: &[u8], out: &mut Vec<u8>) -> Result<Next, NoMemory> {
        if chunk.is_empty() {
            return Ok(Next::Close);
        }
        let mut digits = Buffer::new();
        out.extend_from_slice(digits.format(chunk.len()).as_bytes())?;
        out.push(b'\n')?;
        Ok(Next::Go)
    }

    ghost closes = { λ _. Prim.search rules };

    ghost greets_shortly = { short_greeting };

    ghost is_short = { λ _ chunk short. Prim.omega (arith, length-length_line-le chunk short) };

    ghost writes_bytes = { λ _. bytes-meter };
}

impl Saved for Meter {
    ghost use Rattle.sample_servers.specs.OneState.{empty_form, only_state};
    ghost use Rattle.sample_servers.specs.Meter.{meter_started};
    ghost use Rattle.sample_servers.specs.ReadBack.{only_one_form, meter_reads_back};

    ghost is_savable = { true };

    ghost form = { empty_form };

    ghost state_of = { λ _. only_state meter_started };

    fn savable() -> bool {
        true
    }

    fn save(&self, _out: &mut Vec<u8>) -> Result<(), NoMemory> {
        Ok(())
    }

    fn load(_alloc: Global, _kind: u8, bytes: &[u8]) -> Result<Option<Meter>, NoMemory> {
        Ok(bytes.is_empty().then_some(Meter))
    }

    ghost reads_back = { λ _ _. meter_reads_back };

    ghost one_form = { λ _. only_one_form meter_started };
}
