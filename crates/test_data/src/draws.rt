//! Numbers that follow from a seed.

ghost use Rattle.std.specs.Prelude.{◌≡◌, ◌+◌, ◌-◌, ◌*◌, ◌<◌, ◌≤◌, ◌%◌, ◌^◌, EachIndex, length, slice_index};
ghost use Rattle.pseudorandom.specs.Generator.{stepped, drawn};
ghost use Rattle.test_data.specs.Draws.{state_after};

use pseudorandom::Generator;
use seq_arith::Seq;
use std::marker::Model;

/// Numbers that are drawn from a seed, one after another. The same calls from the same seed give the same numbers.
#[derive(Drop)]
pub struct Draws {
    generator: Generator,
}

impl Model for Draws {
    ghost use Rattle.std.specs.Prelude.{ℕ};
    ghost use Rattle.std.specs.Coded.{coded_ℕ};

    ghost Value = { ℕ };

    ghost coded = { coded_ℕ };

    ghost view = { λ d. d.generator.state };
}

impl Draws {
    /// Nothing is drawn yet.
    pub fn new(seed: u64) -> Draws
        ensures { result ≡ seed }
    {
        Draws {
            generator: Generator::new(seed),
        }
    }

    /// The generator's next number, which is below 2^31.
    pub fn draw(&mut self) -> u32
        ensures steps { self.new ≡ stepped self.old }
        ensures value { result ≡ drawn self.new }
        ensures bound { result < 2 ^ 31 }
    {
        self.generator.draw()
    }

    /// The generator's next number modulo `bound`.
    pub fn below(&mut self, bound: u32) -> u32
        requires { 0 < bound }
        ensures steps { self.new ≡ stepped self.old }
        ensures value { result ≡ drawn self.new % bound }
        ensures bound { result < bound }
    {
        self.draw() % bound
    }

    /// The generator's next number modulo 256.
    pub fn byte(&mut self) -> u8
        ensures steps { self.new ≡ stepped self.old }
        ensures value { result ≡ drawn self.new % 256 }
    {
        self.below(256) as u8
    }

    /// Fills a slice with bytes, each drawn in its turn.
    #[tactic(auto, unfolding(crate::specs::Draws::state_after))]
    pub fn fill(&mut self, bytes: &mut [u8])
        ensures steps { self.new ≡ state_after (length bytes.old) self.old }
        ensures values { EachIndex bytes.new (λ k. slice_index bytes.new k ≡ drawn (state_after (k + 1) self.old) % 256) }
    {
        for byte in bytes.iter_mut() {
            *byte = self.byte();
        }
    }

    /// Fills the beginning of a slice with at most 100 bytes, each drawn in its turn, and returns how many they are.
    pub fn anything(&mut self, bytes: &mut [u8]) -> usize
        requires { 100 ≤ length bytes.old }
        ensures { result ≤ 100 }
    {
        let len = self.below(101) as usize;
        self.fill(&mut bytes[..len]);
        len
    }

    /// Any sequence number: its upper half is drawn, and then its lower half.
    pub fn number(&mut self) -> Seq
        ensures steps { self.new ≡ stepped (stepped self.old) }
        ensures value { result.0 ≡ drawn (stepped self.old) % 65536 * 65536 + drawn self.new % 65536 }
    {
        let upper = self.below(65_536);
        Seq(upper * 65_536).add(self.below(65_536))
    }

    /// A sequence number that is at most `most` before or after this one.
    pub fn near(&mut self, number: Seq, most: u8) -> Seq
        ensures steps { self.new ≡ stepped self.old }
        ensures value { result.0 ≡ (number.0 + 2 ^ 32 - most + drawn self.new % (2 * most + 1)) % 2 ^ 32 }
    {
        let most = u32::from(most);
        Seq(number.0.wrapping_sub(most)).add(self.below(2 * most + 1))
    }

    /// In two cases of four this sequence number, in one a number at most 3 before or after it, and in one any number.
    pub fn perturbed(&mut self, number: Seq) -> Seq
        ensures any { drawn (stepped self.old) % 4 ≡ 0 → result.0 ≡ drawn (stepped (stepped self.old)) % 65536 * 65536 + drawn self.new % 65536 }
        ensures close { drawn (stepped self.old) % 4 ≡ 1 → result.0 ≡ (number.0 + 2 ^ 32 - 3 + drawn self.new % 7) % 2 ^ 32 }
        ensures same { 2 ≤ drawn (stepped self.old) % 4 → result ≡ number }
    {
        match self.below(4) {
            0 => self.number(),
            1 => self.near(number, 3),
            _ => number,
        }
    }
}
