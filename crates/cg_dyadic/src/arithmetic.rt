//! Sums, halves and negatives. Each is exact; if it is out of range, the fault holds the exact result in lowest terms.
ghost use Rattle.std.specs.Prelude.{◌≡◌, ◌+◌, ◌*◌, ◌^◌, ◌<◌, ◌≤◌, ◌+ℤ◌, ◌*ℤ◌, pos, neg_ℤ};
ghost use Rattle.std.specs.Prelude.{if◌then◌else◌, unsigned_abs, IfSome, IsNone};
ghost use Rattle.cg_dyadic.specs.Number.{num_of, exp_of, ratio, InRange};
ghost use Rattle.cg_dyadic.specs.Exact.{IsExact, IsLowest, IsNegative, signed_of, sum_num};

use crate::order::scaled;
use crate::{Dyadic, RangeFault};

impl Dyadic {
    /// `num/2^exp`.
    pub fn make(num: i128, exp: u8) -> Result<Dyadic, RangeFault>
        ensures { IsExact num exp result }
    {
        let is_negative = num < 0;
        let (size, exp) = lowest(num.unsigned_abs(), exp);
        match in_range(is_negative, size, exp) {
            Some(number) => Ok(number),
            None => Err(RangeFault {
                num: signed(is_negative, size),
                exp,
            }),
        }
    }

    /// The number with this numerator and exponent, unchecked.
    pub fn of_lowest(num: i128, exp: u8) -> Dyadic
        requires lowest { IsLowest (unsigned_abs num) exp }
        requires small { unsigned_abs num < 2 ^ 64 }
        requires short { exp ≤ 40 }
        ensures { result ≡ ratio num exp }
    {
        Dyadic { num, exp }
    }

    /// The sum.
    pub fn add(self, other: Dyadic) -> Result<Dyadic, RangeFault>
        ensures { IsExact (sum_num self other) (exp_of self + exp_of other) result }
    {
        Dyadic::make(sum_numerator(self, other), self.exp() + other.exp())
    }

    /// Half the sum.
    pub fn half_sum(self, other: Dyadic) -> Result<Dyadic, RangeFault>
        ensures { IsExact (sum_num self other) (exp_of self + exp_of other + 1) result }
    {
        Dyadic::make(sum_numerator(self, other), self.exp() + other.exp() + 1)
    }

    /// The negative, which is always in range.
    pub fn negate(self) -> Dyadic
        ensures { IsNegative self result }
    {
        Dyadic {
            num: -self.num,
            exp: self.exp,
        }
    }
}

/// The numerator of the sum over the product of the denominators.
fn sum_numerator(a: Dyadic, b: Dyadic) -> i128
    ensures { result ≡ sum_num a b }
{
    scaled(a, b.exp()) + scaled(b, a.exp())
}

pub(crate) fn in_range(is_negative: bool, size: u128, exp: u8) -> Option<Dyadic>
    requires { IsLowest size exp }
    ensures num { IfSome result (λ x. num_of x ≡ signed_of is_negative size) }
    ensures exp { IfSome result (λ x. exp_of x ≡ exp) }
    ensures found { IfSome result (λ x. InRange x) }
    ensures none { IsNone result → ¬ ((size < 2 ^ 64) × (exp ≤ 40)) }
{
    if exp <= 40 && size < 1 << 64 {
        Some(Dyadic {
            num: signed(is_negative, size),
            exp,
        })
    } else {
        None
    }
}

pub(crate) fn signed(is_negative: bool, size: u128) -> i128
    requires { size + (if is_negative then 0 else 1) ≤ 2 ^ 127 }
    ensures { result ≡ signed_of is_negative size }
{
    if is_negative && size > 0 {
        -1 - ((size - 1) as i128)
    } else {
        size as i128
    }
}

/// `size/2^exp` in lowest terms.
#[tactic(auto, using(crate::proofs::Powers::halve))]
pub(crate) fn lowest(size: u128, exp: u8) -> (u128, u8)
    ensures same { result.0 * 2 ^ exp ≡ size * 2 ^ result.1 }
    ensures lowest { IsLowest result.0 result.1 }
    ensures smaller { result.0 ≤ size }
{
    let mut size = size;
    let mut exp = exp;
    while exp > 0 && size % 2 == 0 {
        size /= 2;
        exp -= 1;
    }
    (size, exp)
}
