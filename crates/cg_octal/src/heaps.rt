//! The values of the heaps of an octal game.
ghost use Rattle.std.specs.Prelude.{◌≡◌, ◌+◌, ◌≤◌, IfOk, length};
ghost use Rattle.cg_form.specs.Order.{Equal};
ghost use Rattle.cg_nimbers.specs.Nimbers.{nimber_form};
ghost use Rattle.cg_octal.specs.Heaps.{AreValues, heap};

use crate::list::Values;
use crate::missing::least_missing;
use crate::octal::Octal;
use crate::options::with_options;
use std::alloc::{AllocError, Global};

/// The value of the next heap, from those of all smaller heaps.
fn next_value(alloc: Global, digits: &[u8], values: &[u64]) -> Result<u64, AllocError>
    requires { AreValues digits.now values.now }
    ensures value { IfOk result (λ k. Equal (heap digits.now (length values.now)) (nimber_form k)) }
    ensures within { IfOk result (λ k. k ≤ length values.now) }
{
    let found = with_options(digits, values, digits, values.len(), Vec::new(alloc))?;
    least_missing(alloc, &found)
}

/// The values of the heaps of 0 tokens up to the game's own: the n-th is the k with `heap n = *k`. Time is quadratic in
/// the tokens, memory linear. (Siegel, Combinatorial Game Theory (2013), IV.2.)
pub fn values(alloc: Global, octal: &Octal) -> Result<Values, AllocError>
    ensures count { IfOk result (λ all. length all ≡ octal.now.heap + 1) }
    ensures values { IfOk result (λ all. AreValues octal.now.digits all) }
{
    let digits = octal.digits();
    let mut items = Vec::new(alloc);
    for _ in 0..octal.heap() + 1 {
        let value = next_value(alloc, digits, &items)?;
        items.push(value)?;
    }
    Ok(Values::of(items))
}
