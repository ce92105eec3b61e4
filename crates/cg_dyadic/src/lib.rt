//! Dyadic numbers: exact arithmetic, the order, and the simplest number between two.
//!
//! A number is `num / 2^exp` in lowest terms: `num` is odd, or `exp` is 0. Contracts see a `Dyadic` as such a number,
//! of which there is exactly one for each value, so equal numbers are the same number. In range are the numbers with
//! `|num| < 2^64` and `exp <= 40`. If an exact result is out of range, the call answers a [`RangeFault`] that holds it.
//! No call rounds, and only `text` allocates.
#![tactic(auto)]

ghost use Rattle.std.specs.Prelude.{◌≡◌};
ghost use Rattle.cg_dyadic.specs.Number.{num_of, exp_of, is_long, InRange};

mod arithmetic;
pub mod cut;
mod fault;
pub mod laws;
mod options;
mod order;
pub mod search;
mod text;
mod wide;

pub use fault::RangeFault;
use std::marker::Model;
pub use wide::Wide;

/// A number `num / 2^exp` in lowest terms, with `|num| < 2^64` and `exp <= 40`.
#[derive(Clone, Copy, Debug, PartialEq, Eq)]
pub struct Dyadic {
    num: i128,
    exp: u8,
}

impl Model for Dyadic {
    ghost use Rattle.cg_dyadic.specs.Held.{InLowest};
    ghost use Rattle.cg_dyadic.specs.Number.{Number, num_of, exp_of, ratio};

    ghost Value = { Number };

    ghost view = { λ a. ratio a.num a.exp };

    ghost inverse = { λ x. record { num = num_of x; exp = exp_of x } };

    ghost invariant = { λ a. InLowest a.num a.exp };

    ghost inverse_ok = { λ a h i. record { num = h.num_is i; exp = h.exp_is i } };
}

impl Dyadic {
    /// The numerator: odd, or the exponent is 0.
    pub fn num(&self) -> i128
        ensures value { result ≡ num_of self.now }
        ensures in_range { InRange self.now }
    {
        self.num
    }

    /// The exponent of the denominator, from 0 to 40.
    pub fn exp(&self) -> u8
        ensures value { result ≡ exp_of self.now }
        ensures in_range { InRange self.now }
    {
        self.exp
    }

    /// Whether the numerator is 2^52 or more in size, or the exponent 32 or more.
    pub fn is_long(&self) -> bool
        ensures value { result ≡ is_long self.now }
        ensures in_range { InRange self.now }
    {
        !(self.num.unsigned_abs() < 1 << 52 && self.exp < 32)
    }
}
