//! The structural order of the games at two indexes.
//!
//! Numbers come before other games, and by value; other games by their lists of Left options, then by their lists of
//! Right options. Lists are compared entry by entry, and a proper prefix comes first.
ghost use Rattle.std.specs.Prelude.{◌≡◌};
ghost use Rattle.cg_form.specs.Structure.{game_cmp, order_of_lists};
ghost use Rattle.cg_arena.specs.Arena.{AreIndexes, IsIndex, game_of, games_of};

use crate::arena::{Arena, Read};
use crate::game::Game;
use std::cmp::Ordering;

/// The structural order of two lists.
#[cycle(compare)]
fn compare_lists(arena: &Arena, a: &[Game], b: &[Game]) -> Ordering
    requires a { AreIndexes arena.now a.now }
    requires b { AreIndexes arena.now b.now }
    ensures { result ≡ order_of_lists (games_of arena.now a.now) (games_of arena.now b.now) }
{
    for i in 0..a.len() {
        if i >= b.len() {
            return Ordering::Greater;
        }
        let order = compare(arena, a[i], b[i]);
        if order != Ordering::Equal {
            return order;
        }
    }
    if a.len() < b.len() {
        Ordering::Less
    } else {
        Ordering::Equal
    }
}

/// The structural order of two games. Games at one index are equal at once. It allocates nothing. The measure by which
/// it ends is the depth of the first game, so it stands at most once more at the same time than that depth.
#[cycle(compare)]
pub(crate) fn compare(arena: &Arena, a: Game, b: Game) -> Ordering
    requires a { IsIndex arena.now a }
    requires b { IsIndex arena.now b }
    ensures { result ≡ game_cmp (game_of arena.now a) (game_of arena.now b) }
{
    if a == b {
        return Ordering::Equal;
    }
    match arena.read(a) {
        Read::Number(x) => match arena.read(b) {
            Read::Number(y) => x.compare(y),
            Read::Options(_, _) => Ordering::Less,
        },
        Read::Options(lefts, rights) => match arena.read(b) {
            Read::Number(_) => Ordering::Greater,
            Read::Options(other_lefts, other_rights) => {
                let order = compare_lists(arena, lefts, other_lefts);
                if order != Ordering::Equal {
                    return order;
                }
                compare_lists(arena, rights, other_rights)
            }
        },
    }
}
