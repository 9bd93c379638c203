//! One of the four services, chosen by a number.

ghost use Rattle.std.specs.Prelude.{◌≡◌, ℕ, ◌^◌, ◌≤◌, List, [], length, true};

use crate::{Echo, Line, Meter, Transfer};
use ft_io::NoMemory;
use server_trait::{Next, Saved, Service};
use std::alloc::Global;

/// One of the four services. `fresh` takes kind 1 as Echo, 2 as Line, 3 as Transfer, 4 as Meter, and any other kind as Echo.
#[derive(Drop)]
pub enum AnyService {
    Echo(Echo),
    Line(Line),
    Transfer(Transfer),
    Meter(Meter),
}

impl Service for AnyService {
    ghost use Rattle.sample_servers.specs.AnyService.{any_started, any_after};
    ghost use Rattle.sample_servers.specs.Lengths.{closed-any_after, length-any_after-le};
    ghost use Rattle.sample_servers.specs.WrittenBytes.{bytes-any};
    ghost use Rattle.server_trait.specs.Service.{short_greeting};

    ghost started = { any_started };

    ghost after = { any_after };

    fn greeting(&self) -> &[u8] {
        &[]
    }

    fn fresh(alloc: Global, kind: u8) -> AnyService {
        match kind {
            2 => AnyService::Line(Line::fresh(alloc, kind)),
            3 => AnyService::Transfer(Transfer::fresh(alloc, kind)),
            4 => AnyService::Meter(Meter::fresh(alloc, kind)),
            _ => AnyService::Echo(Echo::fresh(alloc, kind)),
        }
    }

    fn take(&mut self, chunk: &[u8], out: &mut Vec<u8>) -> Result<Next, NoMemory> {
        match self {
            AnyService::Echo(echo) => echo.take(chunk, out),
            AnyService::Line(line) => line.take(chunk, out),
            AnyService::Transfer(transfer) => transfer.take(chunk, out),
            AnyService::Meter(meter) => meter.take(chunk, out),
        }
    }

    ghost closes = { closed-any_after };

    ghost greets_shortly = { short_greeting };

    ghost is_short = { length-any_after-le };

    ghost writes_bytes = { bytes-any };
}

impl Saved for AnyService {
    ghost use Rattle.sample_servers.specs.AnyService.{any_form, any_state_of};
    ghost use Rattle.sample_servers.specs.ReadBack.{any_reads_back, any_one_form};

    ghost is_savable = { true };

    ghost form = { any_form };

    ghost state_of = { any_state_of };

    fn savable() -> bool {
        true
    }

    fn save(&self, out: &mut Vec<u8>) -> Result<(), NoMemory> {
        match self {
            AnyService::Echo(echo) => echo.save(out),
            AnyService::Line(line) => line.save(out),
            AnyService::Transfer(transfer) => transfer.save(out),
            AnyService::Meter(meter) => meter.save(out),
        }
    }

    fn load(alloc: Global, kind: u8, bytes: &[u8]) -> Result<Option<AnyService>, NoMemory> {
        let service = match kind {
            2 => Line::load(alloc, kind, bytes)?.map(AnyService::Line),
            3 => Transfer::load(alloc, kind, bytes)?.map(AnyService::Transfer),
            4 => Meter::load(alloc, kind, bytes)?.map(AnyService::Meter),
            _ => Echo::load(alloc, kind, bytes)?.map(AnyService::Echo),
        };
        Ok(service)
    }

    ghost reads_back = { λ _. any_reads_back };

    ghost one_form = { any_one_form };
}
