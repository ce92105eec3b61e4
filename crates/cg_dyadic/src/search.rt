//! The simplest number between two cuts.
//!
//! The ends of the gap are taken in units of 1/2^41, which is finer than any number in range. The scales are tried from
//! whole numbers on, each twice as fine as the one before, until some unit lies between the ends: at the scale of whole
//! numbers the integer nearest 0 is the simplest, and at any other scale the ends meet at one odd number of units.
ghost use Rattle.std.specs.Prelude.{◌≡◌, ◌≤◌, ◌^◌, ◌<◌, ◌+ℤ◌, ◌≤ℤ◌, ℤ, Bool, pos, negsuc, unsigned_abs};
ghost use Rattle.std.specs.Prelude.{false, ◌-ℤ◌, IsTrue, ◌↔◌, IfOk, IfErr, IfSome, IsNone};
ghost use Rattle.cg_dyadic.specs.Number.{Number, half, exp_of};
ghost use Rattle.cg_dyadic.specs.Units.{units};
ghost use Rattle.cg_dyadic.specs.Simplest.{Apart, SimplestFor, strictly_between, SimplestIsOutside};
ghost use Rattle.cg_dyadic.specs.Cut.{in_gap, FoundIs, SimplestBetween, NoneBetween};
ghost use Rattle.cg_dyadic.specs.Search.{AtLeast, AtMost, AtScale, FoundAt, first_unit, last_unit};
ghost use Rattle.cg_dyadic.specs.Search.{ShortCut, SmallAround, Small, SmallEnd, low_at, high_at};
ghost use Rattle.cg_dyadic.specs.Search.{Coarsest, crossed, nearest, closed_cut};

use crate::cut::{Cut, Found};
use crate::order::scaled;
use crate::{Dyadic, RangeFault};

/// The finest scale of a search: one binary place more than a number in range has.
const FINEST: u8 = 41;

/// The least number of units of the scale at or above the low end, which is in units of the finest scale.
fn low_at(end: Option<i128>, scale: u8) -> Option<i128>
    requires small { SmallEnd end }
    requires scale { scale ≤ 41 }
    ensures { result ≡ low_at scale end }
{
    match end {
        None => None,
        Some(n) => Some(((n - 1) >> (FINEST - scale)) + 1),
    }
}

/// The greatest number of units of the scale at or below the high end, which is in units of the finest scale.
fn high_at(end: Option<i128>, scale: u8) -> Option<i128>
    requires small { SmallEnd end }
    requires scale { scale ≤ 41 }
    ensures { result ≡ high_at scale end }
{
    match end {
        None => None,
        Some(n) => Some(n >> (FINEST - scale)),
    }
}

fn crossed(low: Option<i128>, high: Option<i128>) -> bool
    ensures { result ≡ crossed low high }
{
    match low {
        None => false,
        Some(a) => match high {
            None => false,
            Some(b) => b < a,
        },
    }
}

/// The integer of least size between the ends.
fn nearest(low: Option<i128>, high: Option<i128>) -> i128
    ensures { result ≡ nearest low high }
{
    if let Some(a) = low {
        if 0 < a {
            return a;
        }
    }
    if let Some(b) = high {
        if b < 0 {
            return b;
        }
    }
    0
}

/// The coarsest scale at which a unit lies between the ends, which are in units of the finest scale.
fn coarsest(low: Option<i128>, high: Option<i128>) -> u8
    requires small_low { SmallEnd low }
    requires small_high { SmallEnd high }
    requires some { crossed low high ≡ false }
    ensures { Coarsest low high result }
{
    let mut scale = 0;
    while crossed(low_at(low, scale), high_at(high, scale)) {
        scale += 1;
    }
    scale
}

fn simplest_of(low: Option<i128>, high: Option<i128>) -> RangeFault
    requires small_low { SmallEnd low }
    requires small_high { SmallEnd high }
    requires some { crossed low high ≡ false }
    ensures { (test : Number → Bool) → AtScale 41 low high test → FoundAt test result.num result.exp }
{
    let scale = coarsest(low, high);
    RangeFault {
        num: nearest(low_at(low, scale), high_at(high, scale)),
        exp: scale,
    }
}

fn units(x: Dyadic) -> i128
    ensures is { result ≡ units 41 x }
    ensures small { SmallAround result }
    ensures short { exp_of x ≤ 40 }
{
    scaled(x, FINEST - x.exp)
}

fn first_unit(cut: Option<Cut>) -> Option<i128>
    ensures is { result ≡ first_unit cut }
    ensures small { SmallEnd result }
    ensures short { ShortCut cut }
{
    match cut {
        None => None,
        Some(c) => {
            let at = units(c.at);
            if c.closed { Some(at + 1) } else { Some(at) }
        }
    }
}

fn last_unit(cut: Option<Cut>) -> Option<i128>
    ensures is { result ≡ last_unit cut }
    ensures small { SmallEnd result }
    ensures short { ShortCut cut }
{
    match cut {
        None => None,
        Some(c) => {
            let at = units(c.at);
            if c.closed { Some(at - 1) } else { Some(at) }
        }
    }
}

pub(crate) fn is_in_range(f: RangeFault) -> bool
    ensures { IsTrue result ↔ (unsigned_abs f.num < 2 ^ 64) × (f.exp ≤ 40) }
{
    -18_446_744_073_709_551_616 < f.num && f.num < 18_446_744_073_709_551_616 && f.exp <= 40
}

/// The simplest number above the low cut and below the high one, in range or not (`laws::simplest`). A cut that is None
/// bounds nothing.
pub fn simplest_in(low: Option<Cut>, high: Option<Cut>) -> Found
    ensures { FoundIs (in_gap low high) result }
{
    let first = first_unit(low);
    let last = last_unit(high);
    if crossed(first, last) {
        return Found::Nothing;
    }
    let best = simplest_of(first, last);
    if is_in_range(best) {
        return Found::Number(Dyadic {
            num: best.num,
            exp: best.exp,
        });
    }
    Found::Outside(best)
}

/// The simplest number between the two cuts (`laws::simplest`), or None if no number in range lies between them.
pub fn simplest(low: &Cut, high: &Cut) -> Option<Dyadic>
    ensures found { IfSome result (λ x. SimplestBetween low.now.at low.now.closed high.now.at high.now.closed x) }
    ensures none { IsNone result → NoneBetween low.now.at low.now.closed high.now.at high.now.closed }
{
    match simplest_in(Some(*low), Some(*high)) {
        Found::Number(x) => Some(x),
        Found::Outside(_) => None,
        Found::Nothing => None,
    }
}

fn closed_cut(x: Option<Dyadic>) -> Option<Cut>
    ensures { result ≡ closed_cut x }
{
    match x {
        None => None,
        Some(at) => Some(Cut { at, closed: true }),
    }
}

impl Dyadic {
    /// The simplest number strictly between the bounds that are given: the integer of least size if there is one,
    /// otherwise the number with the least exponent. (The Simplicity Theorem: Siegel, Combinatorial Game Theory (2013),
    /// II.3.)
    pub fn simplest_between(low: Option<Dyadic>, high: Option<Dyadic>) -> Result<Dyadic, RangeFault>
        requires { Apart low high }
        ensures found { IfOk result (λ x. SimplestFor (strictly_between low high) x) }
        ensures range { IfErr result (λ f. SimplestIsOutside (strictly_between low high) f) }
    {
        let below = closed_cut(low);
        let above = closed_cut(high);
        match simplest_in(below, above) {
            Found::Number(x) => Ok(x),
            Found::Outside(f) => Err(f),
            Found::Nothing => unreachable!(),
        }
    }
}
