//! Wall values: numbers of at most 60 binary places.
ghost use Rattle.std.specs.Prelude.{◌≡◌, ℕ, ◌^◌, ◌<◌, ◌≤◌, ◌↔◌, pos, unsigned_abs, IfOk, IsTrue, string_bytes};
ghost use Rattle.cg_dyadic.specs.Number.{InRange, half, number_cmp, ratio};
ghost use Rattle.cg_dyadic.specs.Exact.{IsNegative, number_text};
ghost use Rattle.cg_dyadic.specs.Units.{units};
ghost use Rattle.cg_dyadic.specs.Wide.{InWide, IsWideHalf, IsWideSum, places, terms_text};

use crate::Dyadic;
use crate::arithmetic::{lowest, signed};
use std::alloc::{AllocError, Global};
use std::cmp::Ordering;
use std::marker::Model;

/// A number with at most 60 binary places and a size below 2^66, held in units of 1/2^60. Contracts see the number.
#[derive(Clone, Copy, Debug, PartialEq, Eq)]
pub struct Wide {
    word: i128,
}

impl Model for Wide {
    ghost use Rattle.cg_dyadic.specs.Held.{IsWideWord};
    ghost use Rattle.cg_dyadic.specs.Number.{Number, ratio};
    ghost use Rattle.cg_dyadic.specs.Units.{units};
    ghost use Rattle.cg_dyadic.specs.Wide.{places};

    ghost Value = { Number };

    ghost view = { λ a. ratio a.word places };

    ghost inverse = { λ x. record { word = units places x } };

    ghost invariant = { λ a. IsWideWord a.word };

    ghost inverse_ok = { λ a h i. record { word = h.round i } };
}

fn power(exp: u8) -> i128
    requires { exp ≤ 60 }
    ensures { result ≡ pos (2 ^ exp) }
{
    1i128 << exp
}

fn units_of(x: Dyadic) -> i128
    ensures value { result ≡ units places x }
    ensures small { unsigned_abs result < 2 ^ 126 }
    ensures in_range { InRange x }
{
    x.num() * power(60 - x.exp())
}

fn half_down(n: i128) -> i128
    ensures { result ≡ half n }
{
    n >> 1
}

fn same(a: i128, b: i128) -> bool
    ensures { IsTrue result ↔ (a ≡ b) }
{
    a == b
}

// `num`, or `num/2^exp` with the denominator written out.
fn text_of(alloc: Global, num: i128, exp: u8) -> Result<String, AllocError>
    requires { exp ≤ 60 }
    ensures { IfOk result (λ text. string_bytes text ≡ terms_text num exp) }
{
    if exp == 0 {
        num.to_string(alloc)
    } else {
        let denominator = 1u64 << exp;
        format!(in alloc; "{num}/{denominator}")
    }
}

impl Wide {
    /// The same number.
    pub fn of(x: Dyadic) -> Wide
        ensures same { result ≡ x }
        ensures in_range { InRange x }
    {
        Wide::of_units(units_of(x))
    }

    /// The number with this many units of 1/2^60, below 2^126 in size.
    pub fn of_units(units: i128) -> Wide
        requires { unsigned_abs units < 2 ^ 126 }
        ensures { result ≡ ratio units places }
    {
        Wide { word: units }
    }

    /// How many units of 1/2^60 it has.
    pub fn units(&self) -> i128
        ensures value { result ≡ units places self.now }
        ensures number { ratio result places ≡ self.now }
        ensures small { unsigned_abs result < 2 ^ 126 }
        ensures in_range { InWide self.now }
    {
        self.word
    }

    /// The negative, which is always a wall value.
    pub fn negate(self) -> Wide
        ensures { IsNegative self result }
    {
        Wide::of_units(-self.units())
    }

    /// The order of the two numbers; `Equal` only for the same number.
    pub fn compare(self, other: Wide) -> Ordering
        ensures order { result ≡ number_cmp self other }
        ensures same { (result ≡ Ordering.Equal) ↔ (self ≡ other) }
    {
        self.units().cmp(&other.units())
    }

    /// The sum, or None if it is no wall value.
    pub fn plus(self, other: Wide) -> Option<Wide>
        ensures { IsWideSum self other result }
    {
        let sum = self.units() + other.units();
        if sum.unsigned_abs() < 1 << 126 {
            Some(Wide::of_units(sum))
        } else {
            None
        }
    }

    /// Half of the number, or None if that is no wall value.
    pub fn halved(self) -> Option<Wide>
        ensures { IsWideHalf self result }
    {
        let units = self.units();
        let half = half_down(units);
        if same(half + half, units) {
            Some(Wide::of_units(half))
        } else {
            None
        }
    }

    /// As [`Dyadic::text`].
    pub fn text(self, alloc: Global) -> Result<String, AllocError>
        ensures { IfOk result (λ text. string_bytes text ≡ number_text self) }
    {
        let units = self.units();
        let (size, exp) = lowest(units.unsigned_abs(), 60);
        text_of(alloc, signed(units < 0, size), exp)
    }
}
