//! Counter, an example of a service of your own. Its state is a number, which a crash loses and the log restores.

ghost use Rattle.std.specs.Prelude.{◌≡◌, ℕ, ◌^◌, ◌≤◌, List, [], ◌++◌, length, true, OnOk};
ghost use Rattle.counter_service.specs.Counter.{counted, answer};

use ft_io::NoMemory;
use itoa::Buffer;
use server_trait::{Next, Saved, Service};
use std::alloc::Global;

/// The service that counts the bytes of its input. It answers each line feed with the count up to and including it, in decimal, and a line feed. The count
/// stays at 2^64 - 1. The end of input closes.
#[derive(Clone, Copy, PartialEq, Eq)]
pub struct Counter {
    count: u64,
}

impl Counter {
    // Counts one byte, and answers it.
    fn take_byte(&mut self, byte: u8, out: &mut Vec<u8>) -> Result<(), NoMemory>
        ensures state { OnOk result (self.new.count ≡ counted self.old.count) }
        ensures output { OnOk result (out.new.items ≡ out.old.items ++ answer (counted self.old.count) byte) }
    {
        self.count = self.count.saturating_add(1);
        if byte == b'\n' {
            let mut digits = Buffer::new();
            out.extend_from_slice(digits.format(self.count).as_bytes())?;
            out.push(b'\n')?;
        }
        Ok(())
    }
}

impl Service for Counter {
    ghost use Rattle.std.proofs.Common.{rules};
    ghost use Rattle.server_trait.specs.Service.{short_greeting};
    ghost use Rattle.counter_service.specs.Counter.{counter_started, counter_after};
    ghost use Rattle.counter_service.specs.Laws.{length-counter_after-le, bytes-counter};

    ghost started = { λ _. counter_started };

    ghost after = { counter_after };

    fn greeting(&self) -> &[u8] {
        &[]
    }

    fn fresh(_alloc: Global, _kind: u8) -> Counter {
        Counter { count: 0 }
    }

    fn take(&mut self, chunk: &[u8], out: &mut Vec<u8>) -> Result<Next, NoMemory> {
        if chunk.is_empty() {
            return Ok(Next::Close);
        }
        for byte in chunk {
            self.take_byte(*byte, out)?;
        }
        Ok(Next::Go)
    }

    ghost closes = { λ _. Prim.search rules };

    ghost greets_shortly = { short_greeting };

    ghost is_short = { length-counter_after-le };

    ghost writes_bytes = { λ _. bytes-counter };
}

impl Saved for Counter {
    ghost use Rattle.counter_service.specs.Counter.{counter_form, counter_of};
    ghost use Rattle.counter_service.specs.Laws.{counter_reads_back, counter_one_form};

    ghost is_savable = { true };

    ghost form = { counter_form };

    ghost state_of = { λ _. counter_of };

    fn savable() -> bool {
        true
    }

    fn save(&self, out: &mut Vec<u8>) -> Result<(), NoMemory> {
        out.extend_from_slice(&self.count.to_be_bytes())?;
        Ok(())
    }

    fn load(_alloc: Global, _kind: u8, bytes: &[u8]) -> Result<Option<Counter>, NoMemory> {
        let [a, b, c, d, e, f, g, h] = *bytes else {
            return Ok(None);
        };
        Ok(Some(Counter {
            count: u64::from_be_bytes([a, b, c, d, e, f, g, h]),
        }))
    }

    ghost reads_back = { λ _ _. counter_reads_back };

    ghost one_form = { λ _. counter_one_form };
}
