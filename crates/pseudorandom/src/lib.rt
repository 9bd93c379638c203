//! Pseudorandom numbers from a seed, for generated schedules and tests.
#![tactic(auto)]

ghost use Rattle.std.specs.Prelude.{◌≡◌, ◌<◌, ◌^◌};
ghost use Rattle.pseudorandom.specs.Generator.{stepped, drawn};

mod excluded;

/// The linear congruential generator of Knuth's MMIX. A seed is a first state.
#[derive(Clone, Copy)]
pub struct Generator {
    /// Any 64 bits.
    pub state: u64,
}

impl Generator {
    /// Creates a generator whose first state is `seed`.
    pub fn new(seed: u64) -> Generator
        ensures { result.state ≡ seed }
    {
        Generator { state: seed }
    }

    /// Returns the next number, which is below 2^31.
    pub fn draw(&mut self) -> u32
        ensures steps { self.new.state ≡ stepped self.old.state }
        ensures shows { result ≡ drawn self.new.state }
        ensures bound { result < 2 ^ 31 }
    {
        self.state = step(self.state);
        (self.state >> 33) as u32
    }
}

#[tactic(auto, unfolding(crate::specs::Generator::stepped))]
fn step(state: u64) -> u64
    ensures { result ≡ stepped state }
{
    state
        .wrapping_mul(6_364_136_223_846_793_005)
        .wrapping_add(1_442_695_040_888_963_407)
}
