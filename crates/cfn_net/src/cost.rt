//! `Cost`: one number with the top that it is capped at. The top stands for "forbidden": a sum that reaches it stays
//! at it (Cooper et al. 2010, "Soft arc consistency revisited").
ghost use Rattle.std.specs.Prelude.{◌≡◌, ◌+◌, ◌<◌, ◌≤◌, ◌↔◌, min, IsTrue};

use std::marker::Model;

/// A cost in the units of a network: a value from 0 to a top, which is at most 9,223,372,036,854,775,807.
#[derive(Clone, Copy, PartialEq, Eq)]
pub struct Cost {
    value: u64,
    top: u64,
}

impl Model for Cost {
    ghost use Rattle.std.specs.Prelude.{◌≤◌, ◌<◌, ◌^◌};
    ghost use Rattle.cfn_net.specs.Capped.{Capped};

    ghost Value = { Capped };

    ghost view = { λ c. record { value = c.value; top = c.top } };

    ghost invariant = { λ c. (c.value ≤ c.top) × (c.top < 2 ^ 63) };

    ghost inverse = { λ c. record { value = c.value; top = c.top } };
}

impl Cost {
    /// The cost `value` in units whose top is `top`.
    pub fn of(value: u64, top: u64) -> Cost
        requires capped { value ≤ top }
        requires top_fits { top ≤ 9223372036854775807 }
        ensures value { result.value ≡ value }
        ensures top { result.top ≡ top }
    {
        Cost { value, top }
    }

    /// Both costs together: their sum, or the top where that is less (Cooper et al. 2010).
    pub fn plus(self, other: Cost) -> Cost
        requires { self.top ≡ other.top }
        ensures value { result.value ≡ min self.top (self.value + other.value) }
        ensures top { result.top ≡ self.top }
    {
        Cost {
            value: (self.value + other.value).min(self.top),
            top: self.top,
        }
    }

    /// The value, from 0 to the top.
    pub fn value(&self) -> u64
        ensures value { result ≡ self.now.value }
        ensures capped { result ≤ self.now.top }
    {
        self.value
    }

    /// The top, at most 9,223,372,036,854,775,807.
    pub fn top(&self) -> u64
        ensures top { result ≡ self.now.top }
        ensures fits { result ≤ 9223372036854775807 }
    {
        self.top
    }
}
