//! Bypassing the reversible options of a game that equals no number.
//!
//! An option that is reversible through a number is replaced by that number itself: the number is at least as good as
//! what the bypass would bring in, and adds nothing, since another option is at least as good as the number. So no
//! number is counted down. Each option is bypassed once, however many ways lead to it. The measure by which this ends is
//! the depth of the option, so each function of it stands at most once more at the same time than that depth.
ghost use Rattle.std.specs.Prelude.{◌≡◌, [], IfOk, cond};
ghost use Rattle.cg_form.specs.Bypass.{AllCovered, Grown};
ghost use Rattle.cg_form.specs.Game.{Among};
ghost use Rattle.cg_form.specs.Known.{EachLess};
ghost use Rattle.cg_form.specs.Side.{AtMost, far};
ghost use Rattle.cg_arena.specs.Passed.{AreSubstitutes, Replaced};
ghost use Rattle.cg_arena.specs.Arena.{AreIndexes, IsIndex, game_of, games_of};
ghost use Rattle.cg_arena.specs.UnreducedGames.{AreKnown, unreduced_game};

use crate::arena::{Arena, Read};
use crate::game::Game;
use crate::order_memo::OrderMemo;
use crate::staying::reverser;
use crate::substitutes::{Options, Substitutes};
use crate::unreduced::{Unreduced, chosen};
use crate::verdicts::Verdicts;
use std::alloc::AllocError;

/// The list with what stands in the place of an option that is reversible through this answer.
#[cycle(bypass)]
fn bypass_through(
    arena: &Arena,
    answers: &mut OrderMemo,
    unreduced: &Unreduced,
    verdicts: &mut Verdicts,
    left: bool,
    answer: Game,
    out: &mut Substitutes,
) -> Result<(), AllocError>
    requires known { AreKnown arena.now unreduced.now answers.old verdicts.old }
    requires answer { IsIndex arena.now answer }
    requires back { AtMost left (game_of arena.now answer) (unreduced_game arena.now unreduced.now) }
    requires out { AreSubstitutes arena.now left unreduced.now out.old }
    ensures done { IfOk result (λ _. Replaced arena.now left unreduced.now out.old out.new
        (λ a. Among (game_of arena.now answer) (far left a))) }
    ensures known { AreKnown arena.now unreduced.now answers.new verdicts.new }
{
    match arena.read(answer) {
        Read::Number(_) => out.push(answer),
        Read::Options(lefts, rights) => {
            let near = chosen(left, lefts, rights);
            bypass_list(arena, answers, unreduced, verdicts, left, near, out)
        }
    }
}

/// The list with what stands in the place of the option.
#[cycle(bypass)]
fn bypass(
    arena: &Arena,
    answers: &mut OrderMemo,
    unreduced: &Unreduced,
    verdicts: &mut Verdicts,
    left: bool,
    option: Game,
    out: &mut Substitutes,
) -> Result<(), AllocError>
    requires known { AreKnown arena.now unreduced.now answers.old verdicts.old }
    requires option { IsIndex arena.now option }
    requires less { ¬ AtMost left (unreduced_game arena.now unreduced.now) (game_of arena.now option) }
    requires out { AreSubstitutes arena.now left unreduced.now out.old }
    ensures done { IfOk result (λ _. Replaced arena.now left unreduced.now out.old out.new
        (λ a. a ≡ game_of arena.now option)) }
    ensures known { AreKnown arena.now unreduced.now answers.new verdicts.new }
{
    match reverser(arena, answers, unreduced, verdicts, left, option)? {
        None => out.push(option),
        Some(answer) => bypass_through(arena, answers, unreduced, verdicts, left, answer, out),
    }
}

/// The list with what stands in the place of the option, which is looked for where the option wasn't passed before.
#[cycle(bypass)]
fn bypass_once(
    arena: &Arena,
    answers: &mut OrderMemo,
    unreduced: &Unreduced,
    verdicts: &mut Verdicts,
    left: bool,
    option: Game,
    out: &mut Substitutes,
) -> Result<(), AllocError>
    requires known { AreKnown arena.now unreduced.now answers.old verdicts.old }
    requires option { IsIndex arena.now option }
    requires less { ¬ AtMost left (unreduced_game arena.now unreduced.now) (game_of arena.now option) }
    requires out { AreSubstitutes arena.now left unreduced.now out.old }
    ensures done { IfOk result (λ _. Replaced arena.now left unreduced.now out.old out.new
        (λ a. a ≡ game_of arena.now option)) }
    ensures known { AreKnown arena.now unreduced.now answers.new verdicts.new }
{
    if out.has_passed(option) {
        return Ok(());
    }
    bypass(arena, answers, unreduced, verdicts, left, option, out)?;
    out.pass(option)
}

/// The list with what stands in the places of the options in the list.
#[cycle(bypass)]
fn bypass_list(
    arena: &Arena,
    answers: &mut OrderMemo,
    unreduced: &Unreduced,
    verdicts: &mut Verdicts,
    left: bool,
    list: &[Game],
    out: &mut Substitutes,
) -> Result<(), AllocError>
    requires known { AreKnown arena.now unreduced.now answers.old verdicts.old }
    requires list { AreIndexes arena.now list.now }
    requires less { EachLess left (unreduced_game arena.now unreduced.now) (games_of arena.now list.now) }
    requires out { AreSubstitutes arena.now left unreduced.now out.old }
    ensures done { IfOk result (λ _. Replaced arena.now left unreduced.now out.old out.new
        (λ a. Among a (games_of arena.now list.now))) }
    ensures known { AreKnown arena.now unreduced.now answers.new verdicts.new }
{
    for option in list {
        bypass_once(arena, answers, unreduced, verdicts, left, *option, out)?;
    }
    Ok(())
}

/// What stands in the places of the player's own options of the unreduced game.
pub(crate) fn candidates(
    arena: &Arena,
    answers: &mut OrderMemo,
    unreduced: &Unreduced,
    verdicts: &mut Verdicts,
    left: bool,
) -> Result<Options, AllocError>
    requires known { AreKnown arena.now unreduced.now answers.old verdicts.old }
    ensures indexes { IfOk result (λ r. AreIndexes arena.now r.items) }
    ensures grown { IfOk result (λ r. Grown left (unreduced_game arena.now unreduced.now) []
        (games_of arena.now r.items)) }
    ensures covered { IfOk result (λ r. AllCovered left (unreduced_game arena.now unreduced.now)
        (games_of arena.now r.items)
        (games_of arena.now (cond left unreduced.now.lefts.now unreduced.now.rights.now))) }
    ensures known { AreKnown arena.now unreduced.now answers.new verdicts.new }
{
    let mut all = Substitutes::new(answers.alloc());
    bypass_list(
        arena,
        answers,
        unreduced,
        verdicts,
        left,
        unreduced.own(left),
        &mut all,
    )?;
    let Substitutes { items, passed: _ } = all;
    Ok(items)
}
