//! Where the cuts of a game lie among the numbers, as whole numbers.
//!
//! A number has twice its units as a key, and the place just behind it one more. So two cuts are compared by one
//! comparison of their keys, whether they are closed or open.
ghost use Rattle.std.specs.Prelude.{◌≡◌};
ghost use Rattle.cg_dyadic.specs.Number.{InRange};
ghost use Rattle.cg_arena.specs.Keys.{AreKeys, key_of};

use crate::summary::Summary;
use cg_dyadic::{Dyadic, Wide};

/// Where the two cuts of a game lie.
#[derive(Clone, Copy)]
pub(crate) struct Keys {
    /// Where the numbers that are at most the game end: behind the last of them.
    pub low: i128,
    /// Where the numbers that are at least the game begin: at the first of them, or behind the last one that isn't.
    pub high: i128,
}

/// The key of the number, or of the place just behind it.
fn key_of(x: Dyadic, behind: bool) -> i128
    ensures value { result ≡ key_of x behind }
    ensures in_range { InRange x }
{
    let units = Wide::of(x).units();
    let twice = units + units;
    if behind { twice + 1 } else { twice }
}

impl Keys {
    /// Those of the cuts of the summary.
    pub(crate) fn of(summary: &Summary) -> Keys
        ensures { AreKeys summary.now result }
    {
        Keys {
            low: key_of(summary.low.at, summary.low.closed),
            high: key_of(summary.high.at, !summary.high.closed),
        }
    }
}
