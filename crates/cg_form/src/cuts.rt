//! Cuts of the numbers, for either player.
ghost use Rattle.std.specs.Prelude.{◌≡◌, [], Some};
ghost use Rattle.cg_dyadic.specs.Cut.{in_cut};
ghost use Rattle.cg_dyadic.specs.Number.{InRange};
ghost use Rattle.cg_form.specs.Cut.{covers, other_cut, Joined, Turned, CutOf};

use crate::player::number_at_most;
use cg_dyadic::Dyadic;
use cg_dyadic::cut::Cut;

/// Whether x is in the cut.
pub fn in_cut(left: bool, cut: &Cut, x: Dyadic) -> bool
    ensures value { result ≡ in_cut left cut.now x }
    ensures in_range { InRange x }
{
    if cut.closed {
        return number_at_most(left, x, cut.at);
    }
    !number_at_most(left, cut.at, x)
}

fn covers(left: bool, a: &Cut, b: &Cut) -> bool
    ensures { result ≡ covers left a.now b.now }
{
    if b.closed {
        return in_cut(left, a, b.at);
    }
    number_at_most(left, b.at, a.at)
}

/// The union of the cuts: the second alone if there is no first.
pub fn joined(left: bool, cut: &Option<Cut>, next: &Cut) -> Cut
    ensures { Joined left cut.now next.now result }
{
    match cut {
        None => *next,
        Some(c) => {
            let covered = covers(left, c, next);
            if covered { *c } else { *next }
        }
    }
}

/// The other player's cut, turned: at the same number, open if that one is closed.
pub fn turned(left: bool, low: &Cut, high: &Cut) -> Cut
    ensures { Turned (other_cut left low.now high.now) result }
{
    if left {
        return Cut {
            at: high.at,
            closed: !high.closed,
        };
    }
    Cut {
        at: low.at,
        closed: !low.closed,
    }
}

/// A cut that contains no number in range.
pub fn smallest(left: bool) -> Cut
    ensures { CutOf InRange left (Some result) [] }
{
    if left {
        return Cut {
            at: Dyadic::least(),
            closed: false,
        };
    }
    Cut {
        at: Dyadic::greatest(),
        closed: false,
    }
}
