//! Switches, tinies and minies by the shape of their options.
ghost use Rattle.std.specs.Prelude.{◌≡◌, ◌↔◌, cond, IsTrue, Some, None, [], ◌∷◌};
ghost use Rattle.cg_form.specs.Game.{node, number as number_form};
ghost use Rattle.cg_arena.specs.Arena.{AreIndexes, games_of};
ghost use Rattle.cg_dyadic.specs.Exact.{number_negative};
ghost use Rattle.cg_names.specs.Memos.{arrow_count};
ghost use Rattle.cg_names.specs.Named.{mirrored_if, pair_form, zero_number};
ghost use Rattle.cg_names.specs.Readings.{IsStar, IsTiny};
ghost use Rattle.cg_names.specs.Shapes.{named_form_of};
ghost use Rattle.cg_names.specs.NamedForms.{IsPositive};

use crate::named_form::NamedForm;
use crate::numbers::{is_positive, is_same, opposite};
use crate::shape::{Numbers, numbers_of};
use cg_canon::{Arena, Game, zero};
use cg_dyadic::Dyadic;

/// The named form of `{x|y}`, which has none with a nimber.
pub(crate) fn named_switch(x: Dyadic, y: Dyadic) -> Option<NamedForm>
    ensures named_form { IsStar (pair_form x y) None → result ≡ named_form_of (pair_form x y) }
    ensures few { arrow_count result ≡ 0 }
{
    if is_positive(x) && is_same(y, opposite(x)) {
        Some(NamedForm::Switch(x))
    } else {
        None
    }
}

/// The number of Tiny that x and the game of these lists make, or of Miny.
pub(crate) fn tiny(
    arena: &Arena,
    miny: bool,
    x: Dyadic,
    lefts: &[Game],
    rights: &[Game],
) -> Option<Dyadic>
    requires lefts { AreIndexes arena.now lefts.now }
    requires rights { AreIndexes arena.now rights.now }
    ensures { IsTiny miny (mirrored_if miny (number_form x ∷ [])
        (node (games_of arena.now lefts.now) (games_of arena.now rights.now) ∷ [])) result }
{
    match numbers_of(arena, lefts, rights) {
        None => None,
        Some(pair) => tiny_size(miny, x, &pair),
    }
}

/// The number of Tiny that x and the game of this pair make, or of Miny.
fn tiny_size(miny: bool, x: Dyadic, pair: &Numbers) -> Option<Dyadic>
    ensures { IsTiny miny (mirrored_if miny (number_form x ∷ []) (pair_form pair.now.left pair.now.right ∷ [])) result }
{
    let size = size_in(miny, pair);
    let rest = rest_in(miny, pair);
    if are_tiny(x, rest, size) {
        Some(size)
    } else {
        None
    }
}

/// The number of which the pair makes Tiny, or Miny.
fn size_in(miny: bool, pair: &Numbers) -> Dyadic
    ensures { result ≡ cond miny pair.now.left (number_negative pair.now.right) }
{
    if miny {
        pair.left
    } else {
        opposite(pair.right)
    }
}

/// The number of the pair that is 0 in Tiny, or Miny.
fn rest_in(miny: bool, pair: &Numbers) -> Dyadic
    ensures { result ≡ cond miny pair.now.right pair.now.left }
{
    if miny { pair.right } else { pair.left }
}

/// Whether the first two are 0 and the third is above 0.
fn are_tiny(x: Dyadic, y: Dyadic, size: Dyadic) -> bool
    ensures { IsTrue result ↔ (x ≡ zero_number) × (y ≡ zero_number) × IsPositive size }
{
    is_same(x, zero()) && is_same(y, zero()) && is_positive(size)
}
