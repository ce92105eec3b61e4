//! The order of the games at two indexes.
//!
//! Numbers that lie between two games, or beside one of them, tell most answers. Only the other pairs are compared by
//! their options, as the definition says, and only their answers are kept, unless both games are light. A number is
//! never counted down: it is at most a game that equals no number exactly where it is at least no Right option, and at
//! least such a game exactly where it is at most no Left option.
//!
//! Where one move leads from one of two games to the other, that move tells the answer. So it is with a sum that has a
//! great nimber and one that differs in the nimber alone: all their options would be compared before the move is met.
//!
//! The measure by which a comparison ends is the sum of the depths of both games. So each function of it stands at most
//! once more at the same time than that sum.
ghost use Rattle.std.specs.Prelude.{◌≡◌, false, IfOk, IsTrue};
ghost use Rattle.cg_form.specs.Order.{le, no_one};
ghost use Rattle.cg_form.specs.Side.{at_most as at_most_for};
ghost use Rattle.cg_arena.specs.Arena.{AreIndexes, IsIndex, game_of, games_of};
ghost use Rattle.cg_arena.specs.OrderMemos.{AreRight};

use crate::arena::{Arena, Read};
use crate::decided::decided_for;
use crate::game::Game;
use crate::order_memo::OrderMemo;
use std::alloc::AllocError;

/// Whether the player has no option in the list that is as good as x; with `left` the player is Left, and else Right
/// with the order turned.
#[cycle(found)]
#[inline(always)]
pub(crate) fn none_as_good(
    arena: &Arena,
    answers: &mut OrderMemo,
    left: bool,
    x: Game,
    list: &[Game],
) -> Result<bool, AllocError>
    requires x { IsIndex arena.now x }
    requires list { AreIndexes arena.now list.now }
    requires right { AreRight arena.now answers.old }
    ensures order { IfOk result (λ answer. answer
        ≡ no_one (at_most_for left (game_of arena.now x)) (games_of arena.now list.now)) }
    ensures right { AreRight arena.now answers.new }
{
    for option in list {
        if at_most(arena, answers, !left, *option, x)? {
            return Ok(false);
        }
    }
    Ok(true)
}

/// Whether a <= b, from their options.
#[cycle(found)]
#[inline(always)]
fn compared(arena: &Arena, answers: &mut OrderMemo, a: Game, b: Game) -> Result<bool, AllocError>
    requires a { IsIndex arena.now a }
    requires b { IsIndex arena.now b }
    requires right { AreRight arena.now answers.old }
    ensures order { IfOk result (λ answer. answer ≡ le (game_of arena.now a) (game_of arena.now b)) }
    ensures right { AreRight arena.now answers.new }
{
    let high = arena.read(b);
    match arena.read(a) {
        Read::Number(x) => match high {
            Read::Number(y) => Ok(x.le(y)),
            Read::Options(_, rights) => none_as_good(arena, answers, false, a, rights),
        },
        Read::Options(lefts, _) => {
            if !none_as_good(arena, answers, true, b, lefts)? {
                return Ok(false);
            }
            match high {
                Read::Number(_) => Ok(true),
                Read::Options(_, rights) => none_as_good(arena, answers, false, a, rights),
            }
        }
    }
}

/// Whether one move leads from the one game to the other: Left's from a to b, or Right's from b to a.
fn is_one_move(arena: &Arena, a: Game, b: Game) -> bool
    requires a { IsIndex arena.now a }
    requires b { IsIndex arena.now b }
    ensures { IsTrue result → le (game_of arena.now a) (game_of arena.now b) ≡ false }
{
    if let Read::Options(lefts, _) = arena.read(a) {
        if lefts.contains(&b) {
            return true;
        }
    }
    match arena.read(b) {
        Read::Number(_) => false,
        Read::Options(_, rights) => rights.contains(&a),
    }
}

/// Whether a <= b, by an answer that is kept, by one move if a game is long, or from their options. An answer from their
/// options is kept, unless both games are light: these are compared again.
#[cycle(found)]
#[inline(never)]
fn found(arena: &Arena, answers: &mut OrderMemo, a: Game, b: Game) -> Result<bool, AllocError>
    requires a { IsIndex arena.now a }
    requires b { IsIndex arena.now b }
    requires right { AreRight arena.now answers.old }
    ensures order { IfOk result (λ answer. answer ≡ le (game_of arena.now a) (game_of arena.now b)) }
    ensures right { AreRight arena.now answers.new }
{
    if arena.is_light(a) && arena.is_light(b) {
        return compared(arena, answers, a, b);
    }
    if let Some(answer) = answers.recall(a, b) {
        return Ok(answer);
    }
    if (arena.is_long(a) || arena.is_long(b)) && is_one_move(arena, a, b) {
        return Ok(false);
    }
    let answer = compared(arena, answers, a, b)?;
    answers.remember(a, b, answer)?;
    Ok(answer)
}

/// Whether the game a is no better for the player than b; with `left` the player is Left, and else Right. The only
/// error is want of memory. (Siegel, Combinatorial Game Theory (2013), I.1 and II.1.)
#[cycle(found)]
#[inline(always)]
pub fn at_most(
    arena: &Arena,
    answers: &mut OrderMemo,
    left: bool,
    a: Game,
    b: Game,
) -> Result<bool, AllocError>
    requires a { IsIndex arena.now a }
    requires b { IsIndex arena.now b }
    requires right { AreRight arena.now answers.old }
    ensures order { IfOk result (λ answer. answer ≡ at_most_for left (game_of arena.now a) (game_of arena.now b)) }
    ensures right { AreRight arena.now answers.new }
{
    if a == b {
        return Ok(true);
    }
    if let Some(answer) = decided_for(left, arena.keys(a), arena.keys(b)) {
        return Ok(answer);
    }
    if left {
        found(arena, answers, a, b)
    } else {
        found(arena, answers, b, a)
    }
}
