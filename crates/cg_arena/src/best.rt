//! The undominated options of a list, here also called the best of them.
//!
//! They are found in no order: most of them are bypassed, or are dominated by what a bypass brings in, before their
//! order matters. In a long list the games come furthest first, and how far the best of them go is kept beside them: a
//! game that goes further than all of these is compared with none of them.
ghost use Rattle.std.specs.Prelude.{◌≡◌, false, not, IfOk, IsTrue};
ghost use Rattle.cg_form.specs.Best.{keep};
ghost use Rattle.cg_form.specs.Order.{no_one};
ghost use Rattle.cg_form.specs.Side.{at_most as at_most_for};
ghost use Rattle.cg_arena.specs.Arena.{AreIndexes, IsIndex, game_of, games_of};
ghost use Rattle.cg_arena.specs.Reach.{AreBounds};
ghost use Rattle.cg_arena.specs.OrderMemos.{AreRight};
ghost use Rattle.cg_arena.specs.Undominated.{Undominated, with_last};

use crate::arena::Arena;
use crate::game::Game;
use crate::order::{at_most, none_as_good};
use crate::order_memo::OrderMemo;
use crate::ranked::furthest_first;
use crate::reach::Bounds;
use crate::substitutes::{FEW, Options, push_option};
use smallvec::SmallVec;
use std::alloc::AllocError;

/// Takes the items that are at most x for the player out of the list. The others keep their order.
#[inline(always)]
pub(crate) fn take_out(
    arena: &Arena,
    answers: &mut OrderMemo,
    left: bool,
    items: &mut Options,
    x: Game,
) -> Result<(), AllocError>
    requires items { AreIndexes arena.now items.old.items }
    requires x { IsIndex arena.now x }
    requires right { AreRight arena.now answers.old }
    ensures indexes { IfOk result (λ _. AreIndexes arena.now items.new.items) }
    ensures kept { IfOk result (λ _. games_of arena.now items.new.items
        ≡ keep (λ c. not (at_most_for left c (game_of arena.now x))) (games_of arena.now items.old.items)) }
    ensures right { AreRight arena.now answers.new }
{
    let mut at = 0;
    while at < items.len() {
        if at_most(arena, answers, left, items.as_slice()[at], x)? {
            items.remove(at);
        } else {
            at += 1;
        }
    }
    Ok(())
}

/// The best of some games, and how far they go.
#[derive(Drop)]
struct Chosen {
    items: Options,
    bounds: Bounds,
}

/// Whether the last of the items is as good as x for the player. Where the games come furthest first, it is the
/// likeliest.
fn last_beats(
    arena: &Arena,
    answers: &mut OrderMemo,
    left: bool,
    x: Game,
    items: &[Game],
) -> Result<bool, AllocError>
    requires x { IsIndex arena.now x }
    requires items { AreIndexes arena.now items.now }
    requires right { AreRight arena.now answers.old }
    ensures order { IfOk result (λ answer. IsTrue answer
        → no_one (at_most_for left (game_of arena.now x)) (games_of arena.now items.now) ≡ false) }
    ensures right { AreRight arena.now answers.new }
{
    if items.is_empty() {
        return Ok(false);
    }
    let last = items[items.len() - 1];
    at_most(arena, answers, !left, last, x)
}

/// Whether none of the items is as good as x for the player.
fn none_beats(
    arena: &Arena,
    answers: &mut OrderMemo,
    left: bool,
    x: Game,
    items: &[Game],
    bounds: &Bounds,
) -> Result<bool, AllocError>
    requires x { IsIndex arena.now x }
    requires items { AreIndexes arena.now items.now }
    requires bounds { AreBounds (games_of arena.now items.now) bounds.now }
    requires right { AreRight arena.now answers.old }
    ensures order { IfOk result (λ answer. answer
        ≡ no_one (at_most_for left (game_of arena.now x)) (games_of arena.now items.now)) }
    ensures right { AreRight arena.now answers.new }
{
    if bounds.are_passed(left, arena.keys(x)) {
        return Ok(true);
    }
    if last_beats(arena, answers, left, x, items)? {
        return Ok(false);
    }
    none_as_good(arena, answers, left, x, items)
}

/// Takes the items that are at most x for the player out of the list, where these are the bounds of the items.
fn take_out_bounded(
    arena: &Arena,
    answers: &mut OrderMemo,
    left: bool,
    items: &mut Options,
    x: Game,
    bounds: &Bounds,
) -> Result<(), AllocError>
    requires items { AreIndexes arena.now items.old.items }
    requires x { IsIndex arena.now x }
    requires bounds { AreBounds (games_of arena.now items.old.items) bounds.now }
    requires right { AreRight arena.now answers.old }
    ensures indexes { IfOk result (λ _. AreIndexes arena.now items.new.items) }
    ensures kept { IfOk result (λ _. games_of arena.now items.new.items
        ≡ keep (λ c. not (at_most_for left c (game_of arena.now x))) (games_of arena.now items.old.items)) }
    ensures right { AreRight arena.now answers.new }
{
    if bounds.are_passed(!left, arena.keys(x)) {
        return Ok(());
    }
    take_out(arena, answers, left, items, x)
}

/// Puts x to the best of some games, so that the best of all of them stand there.
fn put_one(
    arena: &Arena,
    answers: &mut OrderMemo,
    left: bool,
    best: &mut Chosen,
    x: Game,
) -> Result<(), AllocError>
    requires x { IsIndex arena.now x }
    requires best { AreIndexes arena.now best.old.items.items }
    requires bounds { AreBounds (games_of arena.now best.old.items.items) best.old.bounds }
    requires right { AreRight arena.now answers.old }
    ensures indexes { IfOk result (λ _. AreIndexes arena.now best.new.items.items) }
    ensures best { IfOk result (λ _. games_of arena.now best.new.items.items
        ≡ with_last left (games_of arena.now best.old.items.items) (game_of arena.now x)) }
    ensures bounds { IfOk result (λ _. AreBounds (games_of arena.now best.new.items.items) best.new.bounds) }
    ensures right { AreRight arena.now answers.new }
{
    if !none_beats(arena, answers, left, x, best.items.as_slice(), &best.bounds)? {
        return Ok(());
    }
    take_out_bounded(arena, answers, left, &mut best.items, x, &best.bounds)?;
    push_option(&mut best.items, x)?;
    best.bounds = best.bounds.with(arena.keys(x));
    Ok(())
}

/// The best of the items for the player, in no order: one after the other.
fn undominated_in_turn(
    arena: &Arena,
    answers: &mut OrderMemo,
    left: bool,
    items: &[Game],
) -> Result<Options, AllocError>
    requires items { AreIndexes arena.now items.now }
    requires right { AreRight arena.now answers.old }
    ensures indexes { IfOk result (λ r. AreIndexes arena.now r.items) }
    ensures undominated { IfOk result (λ r. Undominated left (games_of arena.now items.now)
        (games_of arena.now r.items)) }
    ensures right { AreRight arena.now answers.new }
{
    let mut best = Chosen {
        items: SmallVec::new(answers.alloc()),
        bounds: Bounds::none(),
    };
    for x in items {
        put_one(arena, answers, left, &mut best, *x)?;
    }
    let Chosen { items, bounds: _ } = best;
    Ok(items)
}

/// The best of the items for the player, in no order.
pub(crate) fn undominated(
    arena: &Arena,
    answers: &mut OrderMemo,
    left: bool,
    items: &[Game],
) -> Result<Options, AllocError>
    requires items { AreIndexes arena.now items.now }
    requires right { AreRight arena.now answers.old }
    ensures indexes { IfOk result (λ r. AreIndexes arena.now r.items) }
    ensures undominated { IfOk result (λ r. Undominated left (games_of arena.now items.now)
        (games_of arena.now r.items)) }
    ensures right { AreRight arena.now answers.new }
{
    if items.len() <= FEW {
        return undominated_in_turn(arena, answers, left, items);
    }
    let all = furthest_first(answers.alloc(), arena, left, items)?;
    undominated_in_turn(arena, answers, left, all.as_slice())
}
