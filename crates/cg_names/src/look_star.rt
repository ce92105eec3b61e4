//! Numbers and nimbers by the shape of their options.
ghost use Rattle.std.specs.Prelude.{◌≡◌, List, true, false, length, [], ◌∷◌, ◌++◌};
ghost use Rattle.cg_form.specs.Game as tree;
ghost use Rattle.cg_form.specs.Game.{node, number as number_form};
ghost use Rattle.cg_arena.specs.Arena.{AreIndexes, games_of};
ghost use Rattle.cg_canon.specs.Walking.{AreApart};
ghost use Rattle.cg_names.specs.Readings.{AreStars, IsStarBase};
ghost use Rattle.cg_names.specs.Shapes.{named_form_of};

use crate::named_form::NamedForm;
use cg_canon::{Arena, Game};
use cg_dyadic::Dyadic;

/// A number and a nimber.
#[derive(Clone, Copy, Debug)]
pub(crate) struct StarFound {
    pub(crate) base: Dyadic,
    pub(crate) count: u64,
}

/// Whether the same games stand in the two lists.
pub(crate) fn are_same(some: &[Game], others: &[Game]) -> bool
    ensures same { result ≡ true → some.now ≡ others.now }
    ensures other { result ≡ false → ¬ (some.now ≡ others.now) }
{
    some == others
}

/// The number x where the games are x, x + *, x + *2 and so on, of which the last one, at this place, is a number.
pub(crate) fn one_star(x: Dyadic, place: usize) -> Option<Dyadic>
    ensures { (gs : List tree.Game) → length gs ≡ place → AreStars (gs ++ (number_form x ∷ [])) result }
{
    if place == 0 { Some(x) } else { None }
}

/// The number x of the named form of `x + *n`.
fn star_base(named_form: &Option<NamedForm>) -> Option<Dyadic>
    ensures { IsStarBase named_form.now result }
{
    match named_form {
        Some(NamedForm::Star(base, _)) => Some(*base),
        _ => None,
    }
}

/// The number x where the games are x, x + *, x + *2 and so on, of which the last one has this named form and these
/// Left options.
pub(crate) fn star_on(
    arena: &Arena,
    lefts: &[Game],
    named_form: &Option<NamedForm>,
    others: &[Game],
) -> Option<Dyadic>
    requires apart { AreApart arena.now }
    requires lefts { AreIndexes arena.now lefts.now }
    requires others { AreIndexes arena.now others.now }
    ensures { (rs : List tree.Game) → named_form.now ≡ named_form_of (node (games_of arena.now lefts.now) rs)
        → AreStars (games_of arena.now others.now ++ (node (games_of arena.now lefts.now) rs ∷ [])) result }
{
    match star_base(named_form) {
        None => None,
        Some(base) => {
            if are_same(lefts, others) {
                Some(base)
            } else {
                None
            }
        }
    }
}
