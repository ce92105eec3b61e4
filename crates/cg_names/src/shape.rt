//! Shapes of lists of options.
ghost use Rattle.std.specs.Prelude.{◌≡◌, MatchOption};
ghost use Rattle.cg_form.specs.Game.{node, number as number_form};
ghost use Rattle.cg_dyadic.specs.Number.{Number};
ghost use Rattle.cg_arena.specs.Arena.{AreIndexes, IsIndex, game_of, games_of};
ghost use Rattle.cg_names.specs.Named.{pair_form};
ghost use Rattle.cg_names.specs.Readings.{AreNumbers, IsOnly};

use cg_canon::{Arena, Game, Read};
use cg_dyadic::Dyadic;

/// The option of a list that has one. The arena is there for the contract alone.
pub(crate) fn only(arena: &Arena, list: &[Game]) -> Option<Game>
    requires { AreIndexes arena.now list.now }
    ensures { IsOnly arena.now result (games_of arena.now list.now) }
{
    match list {
        [only] => Some(*only),
        _ => None,
    }
}

/// The number that the game is, if it is one.
pub(crate) fn number_at(arena: &Arena, game: Game) -> Option<Dyadic>
    requires { IsIndex arena.now game }
    ensures { MatchOption result ((x : Number) → ¬ (game_of arena.now game ≡ number_form x))
        (λ x. game_of arena.now game ≡ number_form x) }
{
    match arena.read(game) {
        Read::Number(x) => Some(x),
        Read::Options(_, _) => None,
    }
}

/// Two numbers.
#[derive(Clone, Copy, Debug)]
pub(crate) struct Numbers {
    pub(crate) left: Dyadic,
    pub(crate) right: Dyadic,
}

/// The numbers of a game `{x|y}`.
pub(crate) fn numbers_of(arena: &Arena, lefts: &[Game], rights: &[Game]) -> Option<Numbers>
    requires lefts { AreIndexes arena.now lefts.now }
    requires rights { AreIndexes arena.now rights.now }
    ensures { MatchOption result
        ((x y : Number) → ¬ (node (games_of arena.now lefts.now) (games_of arena.now rights.now) ≡ pair_form x y))
        (λ p. node (games_of arena.now lefts.now) (games_of arena.now rights.now) ≡ pair_form p.left p.right) }
{
    match only(arena, lefts) {
        None => None,
        Some(first) => match only(arena, rights) {
            None => None,
            Some(second) => numbers_at(arena, first, second),
        },
    }
}

/// The numbers that the two games are.
pub(crate) fn numbers_at(arena: &Arena, first: Game, second: Game) -> Option<Numbers>
    requires first { IsIndex arena.now first }
    requires second { IsIndex arena.now second }
    ensures { AreNumbers (game_of arena.now first) (game_of arena.now second) result }
{
    match number_at(arena, first) {
        None => None,
        Some(left) => match number_at(arena, second) {
            None => None,
            Some(right) => Some(Numbers { left, right }),
        },
    }
}
