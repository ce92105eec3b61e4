//! What the numbers tell of the order of two games.
//!
//! A game cuts the numbers into those that are at most it, those that are at least it, and the others. Where some
//! number is at least the first game and at most the second, the first is at most the second. Where some number is at
//! most the first and not at most the second, or at least the second and not at least the first, it isn't.
ghost use Rattle.std.specs.Prelude.{◌≡◌, IfSome};
ghost use Rattle.cg_form.specs.Game.{Game};
ghost use Rattle.cg_form.specs.Order.{le};
ghost use Rattle.cg_form.specs.Side.{at_most};
ghost use Rattle.cg_arena.specs.Keys.{HasKeys};

use crate::keys::Keys;

/// Whether the first game is at most the second, where the numbers tell.
#[inline]
fn decided_by_cuts(a: &Keys, b: &Keys) -> Option<bool>
    ensures { (g h : Game) → HasKeys g a.now → HasKeys h b.now → IfSome result (λ answer. answer ≡ le g h) }
{
    if a.low > b.low {
        return Some(false);
    }
    if a.high > b.high {
        return Some(false);
    }
    if a.high < b.low {
        return Some(true);
    }
    None
}

/// Whether the first game is no better for the player than the second, where the numbers tell; with `left` the player
/// is Left, and else Right.
#[inline]
pub(crate) fn decided_for(left: bool, a: &Keys, b: &Keys) -> Option<bool>
    ensures { (g h : Game) → HasKeys g a.now → HasKeys h b.now → IfSome result (λ answer. answer ≡ at_most left g h) }
{
    if left {
        return decided_by_cuts(a, b);
    }
    decided_by_cuts(b, a)
}
