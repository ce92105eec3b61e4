//! Helpers for either player: with `left`, Left's options and order, otherwise Right's options and the reverse order.
//! `at_most` means: no better for the player.
ghost use Rattle.std.specs.Prelude.{◌≡◌};
ghost use Rattle.cg_dyadic.specs.Cut.{number_at_most};
ghost use Rattle.cg_dyadic.specs.Number.{InRange};
ghost use Rattle.cg_form.specs.Forms.{game_of};
ghost use Rattle.cg_form.specs.Side.{at_most, chosen};

use crate::form::{Form, Options};
use crate::slow::le_slow;
use cg_dyadic::Dyadic;

/// Whether x is no better for the player than y.
pub fn number_at_most(left: bool, x: Dyadic, y: Dyadic) -> bool
    ensures value { result ≡ number_at_most left x y }
    ensures in_range { InRange x × InRange y }
{
    if left { x.le(y) } else { y.le(x) }
}

/// Whether a is no better for the player than b.
pub fn at_most(left: bool, a: &Form, b: &Form) -> bool
    ensures { result ≡ at_most left (game_of a.now) (game_of b.now) }
{
    if left { le_slow(a, b) } else { le_slow(b, a) }
}

/// The player's own options.
pub fn chosen<'a>(left: bool, lefts: &'a Options, rights: &'a Options) -> &'a Options
    ensures { result.now ≡ chosen left lefts.now rights.now }
{
    if left { lefts } else { rights }
}
