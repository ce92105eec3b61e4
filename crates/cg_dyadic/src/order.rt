//! Comparison by cross multiplication, or by numerators alone where the denominators are the same.
ghost use Rattle.std.specs.Prelude.{◌≡◌, ◌↔◌, ◌≤◌, ◌^◌, ◌*ℤ◌, ◌<◌, ◌-◌, pos, neg_ℤ, unsigned_abs};
ghost use Rattle.cg_dyadic.specs.Number.{number_le, number_cmp, num_of, exp_of, InRange, whole};

use crate::Dyadic;
use std::cmp::Ordering;

fn power(exp: u8) -> i128
    requires { exp ≤ 41 }
    ensures { result ≡ pos (2 ^ exp) }
{
    1i128 << exp
}

/// The numerator over a denominator that is `2^exp` times as large.
pub(crate) fn scaled(number: Dyadic, exp: u8) -> i128
    requires { exp ≤ 41 }
    ensures value { result ≡ num_of number *ℤ pos (2 ^ exp) }
    ensures size { unsigned_abs result < 2 ^ 105 }
    ensures in_range { InRange number }
{
    number.num * power(exp)
}

impl Dyadic {
    /// Whether this number is at most the other.
    pub fn le(self, other: Dyadic) -> bool
        ensures value { result ≡ number_le self other }
        ensures in_range { InRange self × InRange other }
    {
        if self.exp == other.exp {
            return self.num <= other.num;
        }
        scaled(self, other.exp) <= scaled(other, self.exp)
    }

    /// The order of the two numbers; `Equal` only for the same number.
    pub fn compare(self, other: Dyadic) -> Ordering
        ensures order { result ≡ number_cmp self other }
        ensures same { (result ≡ Ordering.Equal) ↔ (self ≡ other) }
    {
        let left = scaled(self, other.exp);
        let right = scaled(other, self.exp);
        left.cmp(&right)
    }

    /// The least number in range, -(2^64 - 1).
    pub fn least() -> Dyadic
        ensures value { result ≡ whole (neg_ℤ (pos (2 ^ 64 - 1))) }
    {
        Dyadic {
            num: -18_446_744_073_709_551_615,
            exp: 0,
        }
    }

    /// The greatest number in range, 2^64 - 1.
    pub fn greatest() -> Dyadic
        ensures value { result ≡ whole (pos (2 ^ 64 - 1)) }
    {
        Dyadic {
            num: 18_446_744_073_709_551_615,
            exp: 0,
        }
    }
}
