//! Words for numbers.
ghost use Rattle.std.specs.Prelude.{◌≡◌, true, false, not};
ghost use Rattle.cg_dyadic.specs.Exact.{number_negative};
ghost use Rattle.cg_dyadic.specs.Number.{number_le};
ghost use Rattle.cg_names.specs.Named.{zero_number};

use cg_canon::zero;
use cg_dyadic::Dyadic;

/// Whether the two are one number.
pub(crate) fn is_same(x: Dyadic, y: Dyadic) -> bool
    ensures same { result ≡ true → x ≡ y }
    ensures other { result ≡ false → ¬ (x ≡ y) }
{
    x == y
}

/// The number of the other sign.
pub(crate) fn opposite(x: Dyadic) -> Dyadic
    ensures { result ≡ number_negative x }
{
    x.negate()
}

/// Whether the number is above 0.
pub(crate) fn is_positive(x: Dyadic) -> bool
    ensures { result ≡ not (number_le x zero_number) }
{
    !x.le(zero())
}
