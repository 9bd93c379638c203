//! Calls numbered from 1, some of which fail because a list names them: so the forms in memory fail on purpose.

ghost use Rattle.std.specs.Prelude.{◌≡◌, ◌↔◌, IsTrue, Contains};
ghost use Rattle.ft_system.specs.NumberedCalls.{no_call, after_call, IsNextListed};

use std::marker::Model;

/// How many calls were made, and the numbers of those that fail.
#[derive(Drop)]
pub struct NumberedCalls {
    fails: Vec<u32>,
    made: u64,
}

impl Model for NumberedCalls {
    ghost use Rattle.ft_system.specs.NumberedCalls.{Calls};

    ghost Value = { Calls };

    ghost view = { λ c. record { fails = c.fails.items; made = c.made } };
}

impl NumberedCalls {
    /// Makes the numbering before the first call. `fails` has the numbers, counted from 1, of those that fail.
    pub fn new(fails: Vec<u32>) -> NumberedCalls
        ensures { result ≡ no_call fails.items }
    {
        NumberedCalls { fails, made: 0 }
    }

    /// Counts a call, and returns whether it fails.
    pub fn next_fails(&mut self) -> bool
        ensures listed { IsTrue result ↔ IsNextListed self.old }
        ensures counted { self.new ≡ after_call self.old }
    {
        self.made = self.made.saturating_add(1);
        is_listed(self.fails.as_slice(), self.made)
    }
}

fn is_listed(fails: &[u32], call: u64) -> bool
    ensures { IsTrue result ↔ Contains fails.now call }
{
    fails.iter().any(|number| u64::from(*number) == call)
}
