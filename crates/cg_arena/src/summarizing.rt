//! The summary of a game of two lists of indexes.
//!
//! The cut of a list is the one that reaches furthest among the cuts of its games. Which one that is the keys of the
//! cuts say.
ghost use Rattle.std.specs.Prelude.{◌≡◌, ◌+◌, ◌<◌, ◌≤◌, ◌^◌, false, length, true, IsSome, IsTrue};
ghost use Rattle.cg_form.specs.Cut.{AnyNumber, CutIs, CutOf};
ghost use Rattle.cg_form.specs.Depth.{deepest};
ghost use Rattle.cg_form.specs.Game as tree;
ghost use Rattle.cg_form.specs.Game.{node};
ghost use Rattle.cg_form.specs.Simple.{NoNumber};
ghost use Rattle.cg_arena.specs.Keys.{HasKeys};
ghost use Rattle.cg_arena.specs.Arena.{AreIndexes, games_of};
ghost use Rattle.cg_arena.specs.Summaries.{IsSummary};
ghost use Rattle.cg_arena.specs.Decided.{NoFurther};

use crate::arena::Arena;
use crate::game::Game;
use crate::keys::Keys;
use crate::summary::Summary;
use cg_dyadic::cut::Cut;
use cg_form::cuts::turned;

/// Whether more numbers are no better for the player than the first game than are no better than the second.
#[inline]
fn reaches_past(left: bool, a: &Keys, b: &Keys) -> bool
    ensures past { (g h : tree.Game) → HasKeys g a.now → HasKeys h b.now → IsTrue result → NoFurther left h g }
    ensures not_past { (g h : tree.Game) → HasKeys g a.now → HasKeys h b.now → result ≡ false → NoFurther left g h }
{
    if left {
        return a.low > b.low;
    }
    a.high < b.high
}

/// The numbers that are no better for the player than some option, where there is an option.
pub(crate) fn cut_of(arena: &Arena, left: bool, options: &[Game]) -> Option<Cut>
    requires { AreIndexes arena.now options.now }
    ensures { CutOf AnyNumber left result (games_of arena.now options.now) }
{
    let mut best = *options.first()?;
    for option in options {
        if reaches_past(left, arena.keys(*option), arena.keys(best)) {
            best = *option;
        }
    }
    Some(arena.summary(best).cut(left))
}

/// The greatest depth of an option, and 0 where there is none.
fn deepest_of(arena: &Arena, options: &[Game]) -> u64
    requires { AreIndexes arena.now options.now }
    ensures deepest { result ≡ deepest (games_of arena.now options.now) }
    ensures small { result ≤ 2 ^ 32 }
{
    let mut greatest = 0;
    for option in options {
        greatest = arena.summary(*option).depth.max(greatest);
    }
    greatest
}

/// The cost of the item of a game with these lists of options.
fn cost_of_lists(lefts: &[Game], rights: &[Game]) -> u64
    ensures cost { result ≡ 1 + length lefts.now + length rights.now }
    ensures small { result < 2 ^ 63 }
{
    1 + lefts.len() as u64 + rights.len() as u64
}

/// The summary of the game with these options, which makes these cuts.
pub(crate) fn summary_with(
    arena: &Arena,
    low: Cut,
    high: Cut,
    lefts: &[Game],
    rights: &[Game],
) -> Summary
    requires lefts { AreIndexes arena.now lefts.now }
    requires rights { AreIndexes arena.now rights.now }
    requires low { CutIs AnyNumber true low (node (games_of arena.now lefts.now) (games_of arena.now rights.now)) }
    requires high { CutIs AnyNumber false high (node (games_of arena.now lefts.now) (games_of arena.now rights.now)) }
    ensures { IsSummary (node (games_of arena.now lefts.now) (games_of arena.now rights.now)) result }
{
    let deepest = deepest_of(arena, lefts).max(deepest_of(arena, rights));
    Summary {
        low,
        high,
        depth: deepest + 1,
        cost: cost_of_lists(lefts, rights),
    }
}

/// The summary of the game with these options, which equals no number, where these are the cuts of its options.
pub(crate) fn summary_between(
    arena: &Arena,
    low: &Option<Cut>,
    high: &Option<Cut>,
    lefts: &[Game],
    rights: &[Game],
) -> Summary
    requires lefts { AreIndexes arena.now lefts.now }
    requires rights { AreIndexes arena.now rights.now }
    requires no_number { NoNumber (node (games_of arena.now lefts.now) (games_of arena.now rights.now)) }
    requires low { CutOf AnyNumber true low.now (games_of arena.now lefts.now) }
    requires high { CutOf AnyNumber false high.now (games_of arena.now rights.now) }
    ensures { IsSummary (node (games_of arena.now lefts.now) (games_of arena.now rights.now)) result }
{
    let Some(lower) = low else { unreachable!() };
    let Some(upper) = high else { unreachable!() };
    let above = turned(true, lower, upper);
    let below = turned(false, lower, upper);
    summary_with(arena, above, below, lefts, rights)
}

/// The summary of the game with these options, which equals no number.
pub fn summary_of_lists(arena: &Arena, lefts: &[Game], rights: &[Game]) -> Summary
    requires lefts { AreIndexes arena.now lefts.now }
    requires rights { AreIndexes arena.now rights.now }
    requires no_number { NoNumber (node (games_of arena.now lefts.now) (games_of arena.now rights.now)) }
    ensures { IsSummary (node (games_of arena.now lefts.now) (games_of arena.now rights.now)) result }
{
    let low = cut_of(arena, true, lefts);
    let high = cut_of(arena, false, rights);
    summary_between(arena, &low, &high, lefts, rights)
}
