//! A linear congruential generator of decimal digits: each state is 75 times the one before, plus 74, modulo the prime
//! 65,537, and each draw is the last digit of the new state.

ghost use Rattle.std.specs.Prelude.{◌≡◌, ◌≤◌};
ghost use Rattle.cfn_gen.specs.Generator.{digit, next};

use std::marker::Model;

/// The state of the generator, 0 to 65,536.
#[derive(Drop)]
pub struct Draws {
    state: u32,
}

impl Model for Draws {
    ghost use Rattle.std.specs.Prelude.{ℕ, ◌<◌};

    ghost Value = { ℕ };

    ghost view = { λ draws. draws.state };

    ghost invariant = { λ draws. draws.state < 65537 };
}

impl Draws {
    /// The generator that begins at a seed.
    pub fn new(seed: u32) -> Draws
        requires { seed ≤ 65536 }
        ensures { result ≡ seed }
    {
        Draws { state: seed }
    }

    /// The next draw, 0 to 9.
    pub fn take(&mut self) -> u64
        ensures draw { result ≡ digit (next self.old) }
        ensures state { self.new ≡ next self.old }
        ensures small { result ≤ 9 }
    {
        self.state = (75 * self.state + 74) % 65_537;
        u64::from(self.state % 10)
    }
}
