//! Numbers from digits, and as text.
ghost use Rattle.std.specs.Prelude.{◌≡◌, ◌^◌, ◌<◌, ℕ, IfOk, IfSome, MatchOption, string_bytes};
ghost use Rattle.cg_dyadic.specs.Exact.{IsFromDigits, number_text};

use crate::Dyadic;
use crate::arithmetic::{in_range, lowest};
use std::alloc::{AllocError, Global};

impl Dyadic {
    /// `num/den` with this sign. None if `den` isn't a power of two or the number is out of range.
    pub fn from_digits(negative: bool, num: u128, den: u128) -> Option<Dyadic>
        ensures { IsFromDigits negative num den result }
    {
        let exp = power_of(den)?;
        let (size, exp) = lowest(num, exp);
        in_range(negative, size, exp)
    }

    /// `n` or `n/d` in lowest terms, with `d` a power of two, and a leading `-` if the number is negative.
    pub fn text(self, alloc: Global) -> Result<String, AllocError>
        ensures { IfOk result (λ text. string_bytes text ≡ number_text self) }
    {
        let num = self.num();
        let exp = self.exp();
        if exp == 0 {
            num.to_string(alloc)
        } else {
            let denominator = 1u64 << exp;
            format!(in alloc; "{num}/{denominator}")
        }
    }
}

fn power_of(den: u128) -> Option<u8>
    ensures power { MatchOption result ((k : ℕ) → den ≡ 2 ^ k → ⊥) (λ k. den ≡ 2 ^ k) }
    ensures bound { IfSome result (λ k. k < 128) }
{
    let exp = den.checked_ilog2()?;
    if den == 1 << exp {
        Some(exp as u8)
    } else {
        None
    }
}
