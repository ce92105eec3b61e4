//! Whether an option is reversible, and whether all own options of an unreduced game stay as they are in its canonical
//! form.
//!
//! Mostly none of them is reversible. Then nothing is bypassed, and no list is made of what stands in their places.
ghost use Rattle.std.specs.Prelude.{IfNone, IfOk, IfSome, IsTrue, cond};
ghost use Rattle.cg_form.specs.Bypass.{Fine};
ghost use Rattle.cg_form.specs.Game as tree;
ghost use Rattle.cg_form.specs.Game.{Among};
ghost use Rattle.cg_form.specs.Side.{AtMost, far};
ghost use Rattle.cg_arena.specs.Arena.{IsIndex, game_of, games_of};
ghost use Rattle.cg_arena.specs.UnreducedGames.{AreKnown, unreduced_game};

use crate::arena::{Arena, Read};
use crate::game::Game;
use crate::order_memo::OrderMemo;
use crate::unreduced::{Unreduced, chosen, first_at_most};
use crate::verdicts::Verdicts;
use std::alloc::AllocError;

/// The option of the other player through which the option is reversible, if there is one: one that is no better for
/// the player than the unreduced game. An option that is a number has none.
#[inline(always)]
pub(crate) fn reverser(
    arena: &Arena,
    answers: &mut OrderMemo,
    unreduced: &Unreduced,
    verdicts: &mut Verdicts,
    left: bool,
    option: Game,
) -> Result<Option<Game>, AllocError>
    requires known { AreKnown arena.now unreduced.now answers.old verdicts.old }
    requires option { IsIndex arena.now option }
    requires less { ¬ AtMost left (unreduced_game arena.now unreduced.now) (game_of arena.now option) }
    ensures some { IfOk result (λ r. IfSome r (λ b. IsIndex arena.now b × Among (game_of arena.now b) (far left (game_of arena.now option))
        × AtMost left (game_of arena.now b) (unreduced_game arena.now unreduced.now))) }
    ensures none { IfOk result (λ r. IfNone r (Fine left (unreduced_game arena.now unreduced.now)
        (game_of arena.now option))) }
    ensures known { AreKnown arena.now unreduced.now answers.new verdicts.new }
{
    match arena.read(option) {
        Read::Number(_) => Ok(None),
        Read::Options(lefts, rights) => {
            let far = chosen(left, rights, lefts);
            first_at_most(arena, answers, unreduced, verdicts, left, far)
        }
    }
}

/// Whether each of the player's own options of the unreduced game is a number, or not reversible.
pub(crate) fn all_stay(
    arena: &Arena,
    answers: &mut OrderMemo,
    unreduced: &Unreduced,
    verdicts: &mut Verdicts,
    left: bool,
) -> Result<bool, AllocError>
    requires known { AreKnown arena.now unreduced.now answers.old verdicts.old }
    ensures fine { IfOk result (λ yes. IsTrue yes
        → (x : tree.Game) → Among x (games_of arena.now (cond left unreduced.now.lefts.now unreduced.now.rights.now))
        → Fine left (unreduced_game arena.now unreduced.now) x) }
    ensures known { AreKnown arena.now unreduced.now answers.new verdicts.new }
{
    for option in unreduced.own(left) {
        if reverser(arena, answers, unreduced, verdicts, left, *option)?.is_some() {
            return Ok(false);
        }
    }
    Ok(true)
}
