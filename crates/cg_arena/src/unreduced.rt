//! A game of two lists of indexes, compared with the games at indexes.
//!
//! The measure by which a comparison ends is the depth of the game at the index. So each function of it stands at most
//! once more at the same time than that depth.
ghost use Rattle.std.specs.Prelude.{◌≡◌, cond, IfOk, IfSome, IfNone, IsTrue};
ghost use Rattle.cg_form.specs.Game.{Among};
ghost use Rattle.cg_form.specs.Order.{no_one};
ghost use Rattle.cg_form.specs.Side.{AtMost, at_most as at_most_for};
ghost use Rattle.cg_arena.specs.Arena.{AreIndexes, IsIndex, game_of, games_of};
ghost use Rattle.cg_arena.specs.UnreducedGames.{AreKnown, unreduced_game};

use crate::arena::{Arena, Read};
use crate::decided::decided_for;
use crate::game::Game;
use crate::keys::Keys;
use crate::order::none_as_good;
use crate::order_memo::OrderMemo;
use crate::summary::Summary;
use crate::verdicts::Verdicts;
use cg_form::cuts::in_cut;
use std::alloc::AllocError;

/// A game by its lists of options, which is to be made canonical. It equals no number, and has no index. On neither
/// side two of its options are comparable.
#[derive(Drop)]
pub(crate) struct Unreduced<'a> {
    /// The Left options.
    pub lefts: &'a [Game],
    /// The Right options.
    pub rights: &'a [Game],
    /// The summary of a game of the same value.
    pub summary: Summary,
    /// The keys of the summary.
    pub keys: Keys,
}

impl<'a> Unreduced<'a> {
    /// The options of the player, who is Left with `left`, and else Right.
    pub(crate) fn own(&self, left: bool) -> &'a [Game]
        ensures { result.now ≡ cond left self.now.lefts.now self.now.rights.now }
    {
        if left { self.lefts } else { self.rights }
    }
}

/// The player's own of two lists.
pub(crate) fn chosen<'a>(left: bool, lefts: &'a [Game], rights: &'a [Game]) -> &'a [Game]
    ensures { result.now ≡ cond left lefts.now rights.now }
{
    if left { lefts } else { rights }
}

/// Whether the game at the index is for the player at most as good as the unreduced game, from their options.
#[cycle(unreduced)]
fn compared_with_unreduced(
    arena: &Arena,
    answers: &mut OrderMemo,
    unreduced: &Unreduced,
    verdicts: &mut Verdicts,
    left: bool,
    index: Game,
) -> Result<bool, AllocError>
    requires known { AreKnown arena.now unreduced.now answers.old verdicts.old }
    requires index { IsIndex arena.now index }
    ensures order { IfOk result (λ answer. answer
        ≡ at_most_for left (game_of arena.now index) (unreduced_game arena.now unreduced.now)) }
    ensures known { AreKnown arena.now unreduced.now answers.new verdicts.new }
{
    match arena.read(index) {
        Read::Number(x) => Ok(in_cut(left, &unreduced.summary.cut(left), x)),
        Read::Options(lefts, rights) => {
            if !none_as_good(arena, answers, !left, index, unreduced.own(!left))? {
                return Ok(false);
            }
            let own = chosen(left, lefts, rights);
            match first_at_most(arena, answers, unreduced, verdicts, !left, own)? {
                None => Ok(true),
                Some(_) => Ok(false),
            }
        }
    }
}

/// Whether the game at the index is for the player at most as good as the unreduced game.
#[cycle(unreduced)]
#[inline(always)]
fn at_most_unreduced(
    arena: &Arena,
    answers: &mut OrderMemo,
    unreduced: &Unreduced,
    verdicts: &mut Verdicts,
    left: bool,
    index: Game,
) -> Result<bool, AllocError>
    requires known { AreKnown arena.now unreduced.now answers.old verdicts.old }
    requires index { IsIndex arena.now index }
    ensures order { IfOk result (λ answer. answer
        ≡ at_most_for left (game_of arena.now index) (unreduced_game arena.now unreduced.now)) }
    ensures known { AreKnown arena.now unreduced.now answers.new verdicts.new }
{
    if let Some(answer) = decided_for(left, arena.keys(index), &unreduced.keys) {
        return Ok(answer);
    }
    if let Some(answer) = verdicts.recall(left, index) {
        return Ok(answer);
    }
    let answer = compared_with_unreduced(arena, answers, unreduced, verdicts, left, index)?;
    verdicts.remember(left, index, answer)?;
    Ok(answer)
}

/// The first option in the list that is for the player at most as good as the unreduced game, if there is one.
#[cycle(unreduced)]
pub(crate) fn first_at_most(
    arena: &Arena,
    answers: &mut OrderMemo,
    unreduced: &Unreduced,
    verdicts: &mut Verdicts,
    left: bool,
    list: &[Game],
) -> Result<Option<Game>, AllocError>
    requires known { AreKnown arena.now unreduced.now answers.old verdicts.old }
    requires list { AreIndexes arena.now list.now }
    ensures some { IfOk result (λ r. IfSome r (λ b. IsIndex arena.now b
        × Among (game_of arena.now b) (games_of arena.now list.now)
        × AtMost left (game_of arena.now b) (unreduced_game arena.now unreduced.now))) }
    ensures none { IfOk result (λ r. IfNone r
        (IsTrue (no_one (λ b. at_most_for left b (unreduced_game arena.now unreduced.now))
        (games_of arena.now list.now)))) }
    ensures known { AreKnown arena.now unreduced.now answers.new verdicts.new }
{
    for option in list {
        if at_most_unreduced(arena, answers, unreduced, verdicts, left, *option)? {
            return Ok(Some(*option));
        }
    }
    Ok(None)
}
