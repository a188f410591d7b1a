//! The unary costs of one variable's values.
//!
//! What the values were given, and what was lifted from the variable, is looked up once, so that a loop over the values
//! reads a word for each of them and subtracts, and nothing else.

ghost use Rattle.std.specs.Prelude.{◌≡◌, ℕ, List, pos, IsTrue};
ghost use Rattle.cfn_model.specs.declared.step.Event.{Event};
ghost use Rattle.cfn_model.specs.Network.{Network};
ghost use Rattle.cfn_model.specs.Sums.{unary, is_live};
ghost use Rattle.cfn_model.specs.Steps.{IsValue};
ghost use Rattle.cfn_scan.specs.Unaries.{AreUnaries};

/// The unary costs of a variable's values.
#[derive(Drop)]
pub struct Unaries<'a> {
    /// What each value was given by projects, less what it lost by extends.
    pub given: &'a [u64],
    /// What was lifted from the variable.
    pub lifted: u64,
}

impl Unaries<'_> {
    /// The unary cost of a value; of one that is not live it is modulo 2^64.
    pub fn of(&self, value: u32) -> u64
        requires { (P : Network) × (history : List Event) × (x : ℕ) × AreUnaries P history x self.now × IsValue P x value }
        ensures { (P : Network) (history : List Event) (x : ℕ) → AreUnaries P history x self.now → IsValue P x value
            → IsTrue (is_live history x value) → pos result ≡ unary P history x value }
    {
        self.given[value as usize].wrapping_sub(self.lifted)
    }
}
