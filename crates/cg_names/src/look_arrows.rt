//! Numbers and ups or downs by the shape of their options.
ghost use Rattle.std.specs.Prelude.{◌≡◌, ◌+◌, ◌<◌, ◌≤◌, ◌^◌, Bool, IfSome, None, Some, true, false, [], ◌∷◌};
ghost use Rattle.cg_dyadic.specs.Number.{Number};
ghost use Rattle.cg_form.specs.Game as tree;
ghost use Rattle.cg_form.specs.Game.{number as number_form};
ghost use Rattle.cg_arena.specs.Arena.{AreIndexes, IsIndex, game_of, games_of};
ghost use Rattle.cg_nodes.specs.Games.{IsNode};
ghost use Rattle.cg_names.specs.Memos.{arrow_count};
ghost use Rattle.cg_names.specs.Named.{mirrored_if, pair_form};
ghost use Rattle.cg_names.specs.Readings.{IsArrows, IsMore, IsStar, IsUpStar};
ghost use Rattle.cg_names.specs.Shapes.{named_form_of};

use crate::named_form::NamedForm;
use crate::numbers::is_same;
use crate::shape::{numbers_at, numbers_of};
use cg_canon::{Arena, Game, Read};
use cg_dyadic::Dyadic;

/// A number and so many ups or downs, and `*` where it is starred.
#[derive(Clone, Copy, Debug)]
struct ArrowsFound {
    base: Dyadic,
    starred: bool,
    count: u64,
}

/// The named form of `{x|g}`, or of `{g|x}` where it is `down`, where g has this named form: one up more than g, or one
/// down.
pub(crate) fn one_more(down: bool, x: Dyadic, named_form: &Option<NamedForm>) -> Option<NamedForm>
    requires { arrow_count named_form.now < 2 ^ 63 }
    ensures more { (g : tree.Game) → IsNode g → named_form.now ≡ named_form_of g → IsMore down x g result }
    ensures few { arrow_count result ≤ arrow_count named_form.now + 1 }
{
    match arrows_in(down, named_form) {
        None => None,
        Some(found) => one_more_than(down, x, &found),
    }
}

/// One up more than these, or one down.
fn one_more_than(down: bool, x: Dyadic, found: &ArrowsFound) -> Option<NamedForm>
    requires { found.now.count < 2 ^ 63 }
    ensures more { (g : tree.Game) → IsNode g → IsArrows down g (Some found.now) → IsMore down x g result }
    ensures few { arrow_count result ≤ found.now.count + 1 }
{
    if is_same(x, found.base) {
        Some(NamedForm::Arrows {
            down,
            starred: !found.starred,
            base: x,
            count: found.count + 1,
        })
    } else {
        None
    }
}

/// The ups, or the downs, that a game with this named form is, if it has one; `x + *` is none of them, starred.
fn arrows_in(down: bool, named_form: &Option<NamedForm>) -> Option<ArrowsFound>
    ensures arrows { (g : tree.Game) → IsNode g → named_form.now ≡ named_form_of g → IsArrows down g result }
    ensures few { IfSome result (λ a. a.count ≤ arrow_count named_form.now) }
{
    match named_form {
        None => None,
        Some(found) => arrows_of(down, found),
    }
}

/// The ups, or the downs, that a game with this named form is.
fn arrows_of(down: bool, named_form: &NamedForm) -> Option<ArrowsFound>
    ensures arrows { (g : tree.Game) → IsNode g → Some named_form.now ≡ named_form_of g → IsArrows down g result }
    ensures few { IfSome result (λ a. a.count ≤ arrow_count (Some named_form.now)) }
{
    match named_form {
        NamedForm::Star(base, count) => level_at(*base, *count),
        NamedForm::Arrows {
            down: turned,
            starred,
            base,
            count,
        } => {
            if *turned == down {
                Some(ArrowsFound {
                    base: *base,
                    starred: *starred,
                    count: *count,
                })
            } else {
                None
            }
        }
        NamedForm::Switch(_) => None,
        NamedForm::Tiny(_, _) => None,
    }
}

/// The `x + *` that `x + *n` is where n is 1.
fn level_at(x: Dyadic, count: u64) -> Option<ArrowsFound>
    ensures arrows { (down : Bool) (g : tree.Game) → IsNode g → Some (NamedForm.Star x count) ≡ named_form_of g → IsArrows down g result }
    ensures few { IfSome result (λ a. a.count ≡ 0) }
{
    if count == 1 {
        Some(ArrowsFound {
            base: x,
            starred: true,
            count: 0,
        })
    } else {
        None
    }
}

/// The named form of `{own|last}` where own has another number of options than one, or of its mirror image where it is
/// `down`: of these only `{x,x + *|x}` has one, which is `x + ^*`.
pub(crate) fn starred_arrow(
    arena: &Arena,
    down: bool,
    own: &[Game],
    last: Game,
) -> Option<NamedForm>
    requires own { AreIndexes arena.now own.now }
    requires last { IsIndex arena.now last }
    requires more { (a : tree.Game) → ¬ (games_of arena.now own.now ≡ a ∷ []) }
    requires no_star { IsStar (mirrored_if down (games_of arena.now own.now) (game_of arena.now last ∷ [])) None }
    ensures named_form { result ≡ named_form_of
        (mirrored_if down (games_of arena.now own.now) (game_of arena.now last ∷ [])) }
    ensures few { arrow_count result ≤ 1 }
{
    match up_star(arena, own, last) {
        None => None,
        Some(base) => Some(NamedForm::Arrows {
            down,
            starred: true,
            base,
            count: 1,
        }),
    }
}

/// The number x where the options are x and x + *, and the last game is x.
fn up_star(arena: &Arena, own: &[Game], last: Game) -> Option<Dyadic>
    requires own { AreIndexes arena.now own.now }
    requires last { IsIndex arena.now last }
    ensures { IsUpStar (games_of arena.now own.now) (game_of arena.now last) result }
{
    match own {
        [first, second] => match numbers_at(arena, *first, last) {
            None => None,
            Some(ends) => {
                if is_same(ends.left, ends.right) && is_pair(arena, *second, ends.left) {
                    Some(ends.left)
                } else {
                    None
                }
            }
        },
        _ => None,
    }
}

/// Whether the game is `{x|x}`.
fn is_pair(arena: &Arena, game: Game, x: Dyadic) -> bool
    requires { IsIndex arena.now game }
    ensures same { result ≡ true → game_of arena.now game ≡ pair_form x x }
    ensures other { result ≡ false → ¬ (game_of arena.now game ≡ pair_form x x) }
{
    match arena.read(game) {
        Read::Number(_) => false,
        Read::Options(lefts, rights) => match numbers_of(arena, lefts, rights) {
            None => false,
            Some(pair) => is_same(pair.left, x) && is_same(pair.right, x),
        },
    }
}
