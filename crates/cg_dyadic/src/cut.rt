ghost use Rattle.std.specs.Prelude.{◌≡◌, true};
ghost use Rattle.cg_dyadic.specs.Number.{InRange};

use crate::{Dyadic, RangeFault};

/// The numbers on one side of `at`, with `at` itself if the cut is closed.
#[derive(Clone, Copy, Debug, PartialEq, Eq)]
pub struct Cut {
    pub at: Dyadic,
    pub closed: bool,
}

impl Cut {
    /// The closed cut at a number.
    pub fn closed(at: Dyadic) -> Cut
        ensures at { result.at ≡ at }
        ensures closed { result.closed ≡ true }
        ensures in_range { InRange at }
    {
        Cut { at, closed: true }
    }
}

/// What lies between two cuts.
#[derive(Clone, Copy, Debug, PartialEq, Eq)]
pub enum Found {
    /// The simplest number, in range.
    Number(Dyadic),
    /// The simplest number, out of range.
    Outside(RangeFault),
    Nothing,
}
