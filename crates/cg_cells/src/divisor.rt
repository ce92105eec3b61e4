//! Remainders by one number, with no division each time.
ghost use Rattle.std.specs.Prelude.{◌≡◌, ◌+◌, ◌*◌, ◌%◌, ◌<◌, ◌≤◌};

use std::marker::Model;

/// A number of at least 1 and its reciprocal, so that a remainder takes two products in place of a division. Contracts
/// see the number.
#[derive(Drop)]
pub struct Divisor {
    number: u64,
    reciprocal: u64,
}

impl Model for Divisor {
    ghost use Rattle.std.specs.Prelude.{◌≡◌, ℕ, ◌-◌, ◌^◌, ◌/◌, ◌≤◌};

    ghost Value = { ℕ };

    ghost view = { λ d. d.number };

    ghost invariant = { λ d. (1 ≤ d.number) × (d.reciprocal ≡ (2 ^ 64 - 1) / d.number) };
}

impl Divisor {
    /// The divisor that is this number.
    pub fn new(number: u64) -> Divisor
        requires { 1 ≤ number }
        ensures { result ≡ number }
    {
        Divisor {
            number,
            reciprocal: u64::MAX / number,
        }
    }

    /// The number that it divides by.
    pub fn number(&self) -> u64
        ensures value { result ≡ self.now }
        ensures positive { 1 ≤ self.now }
    {
        self.number
    }

    // The quotient, or one less.
    fn times_in(&self, number: u64) -> u64
        ensures low { result * self.now ≤ number }
        ensures high { number < result * self.now + self.now + self.now }
    {
        ((number as u128 * self.reciprocal as u128) >> 64) as u64
    }

    /// The remainder of a number.
    pub fn remainder(&self, number: u64) -> u64
        ensures value { result ≡ number % self.now }
        ensures below { result < self.now }
    {
        let rest = number - self.times_in(number) * self.number;
        if rest < self.number {
            rest
        } else {
            rest - self.number
        }
    }
}
