ghost use Rattle.std.specs.Prelude.{◌≡◌, ◌<◌, ◌≤◌, ◌^◌, MatchResult};

use std::marker::Model;
use thiserror::Error;

/// A whole number from 0 to 9,007,199,254,740,991: the numbers that every JSON reader keeps exact.
#[derive(Clone, Copy, Debug, PartialEq, Eq, PartialOrd, Ord)]
pub struct Num {
    number: u64,
}

impl Model for Num {
    ghost use Rattle.std.specs.Prelude.{ℕ, ◌<◌, ◌^◌};

    ghost Value = { ℕ };

    ghost view = { λ a. a.number };

    ghost invariant = { λ a. a.number < 2 ^ 53 };

    ghost inverse = { λ n. record { number = n } };
}

/// The number is above 9,007,199,254,740,991.
#[derive(Clone, Copy, Debug, PartialEq, Eq, Error)]
#[error("the number is too big: {0}")]
pub struct TooBig(pub u64);

impl Num {
    /// The greatest.
    pub const MAX: u64 = 9_007_199_254_740_991;

    /// The number, where it is not above the greatest.
    pub fn new(number: u64) -> Result<Num, TooBig>
        ensures { MatchResult result (λ n. (n ≡ number) × (number < 2 ^ 53)) (λ e. (e.0 ≡ number) × (2 ^ 53 ≤ number)) }
    {
        if number > Num::MAX {
            return Err(TooBig(number));
        }
        Ok(Num { number })
    }

    /// The number, which is not above the greatest.
    pub fn from_u64(number: u64) -> Num
        requires { number < 2 ^ 53 }
        ensures { result ≡ number }
    {
        Num { number }
    }

    /// The number itself.
    pub fn get(self) -> u64
        ensures value { result ≡ self }
        ensures bound { self < 2 ^ 53 }
    {
        self.number
    }

    /// The number is below 2^53: its type has it so. It does nothing.
    pub fn fits(self)
        ensures { self < 2 ^ 53 }
    {
        let _number = self.number;
    }
}
