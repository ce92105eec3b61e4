//! Positions of a certificate.
ghost use Rattle.std.specs.Prelude.{◌≡◌, IfOk, cond, map};
ghost use Rattle.cg_dyadic.specs.Number.{number_lefts, number_rights};
ghost use Rattle.cg_form.specs.Order.{le};
ghost use Rattle.cg_form.specs.Side.{at_most, near};
ghost use Rattle.cg_arena.specs.Arena.{IsRead};
ghost use Rattle.cg_cert.specs.Pairs.{is_number};
ghost use Rattle.cg_cert.specs.Positions.{IsPosition, ArePositionsOf, position_at};

use cg_canon::{Game, Read, Work};
use cg_cells::CellStore;
use cg_dyadic::Dyadic;
use cg_nodes::{BoardForms, GameFacts};
use std::alloc::{AllocError, Global};

/// A game of a certificate: a number, which need not stand in the arena, or a game of the arena.
#[derive(Clone, Copy, Debug, PartialEq, Eq)]
pub(crate) enum Position {
    /// A number.
    Number(Dyadic),
    /// A game of the arena.
    At(Game),
}

/// Whether a <= b. The only error is out of memory.
fn position_le<B: BoardForms, S: CellStore<GameFacts<B>>>(
    work: &mut Work<B, S>,
    a: &Position,
    b: &Position,
) -> Result<bool, AllocError>
    requires a { IsPosition work.old.arena a.now }
    requires b { IsPosition work.old.arena b.now }
    ensures order { IfOk result (λ answer. answer ≡ le (position_at work.old.arena a.now) (position_at work.old.arena b.now)) }
    ensures same { work.new ≡ work.old }
{
    match a {
        Position::Number(x) => match b {
            Position::Number(y) => Ok(x.le(*y)),
            Position::At(h) => Ok(work.arena().number_le(*x, *h)),
        },
        Position::At(g) => match b {
            Position::Number(y) => Ok(work.arena().le_number(*g, *y)),
            Position::At(h) => work.le(*g, *h),
        },
    }
}

/// Whether a is no better for the player than b; with `left` the player is Left, and else Right. The only error is want
/// of memory.
pub(crate) fn no_better<B: BoardForms, S: CellStore<GameFacts<B>>>(
    work: &mut Work<B, S>,
    left: bool,
    a: &Position,
    b: &Position,
) -> Result<bool, AllocError>
    requires a { IsPosition work.old.arena a.now }
    requires b { IsPosition work.old.arena b.now }
    ensures order { IfOk result (λ answer. answer
        ≡ at_most left (position_at work.old.arena a.now) (position_at work.old.arena b.now)) }
    ensures same { work.new ≡ work.old }
{
    if left {
        position_le(work, a, b)
    } else {
        position_le(work, b, a)
    }
}

/// What the position stands for.
fn read<'b, B: BoardForms, S: CellStore<GameFacts<B>>>(
    work: &'b Work<B, S>,
    position: &Position,
) -> Read<'b>
    requires { IsPosition work.now.arena position.now }
    ensures { IsRead work.now.arena result (position_at work.now.arena position.now) }
{
    match position {
        Position::Number(x) => Read::Number(*x),
        Position::At(game) => work.arena().read(*game),
    }
}

/// Whether the position is written as a number.
pub(crate) fn is_number<B: BoardForms, S: CellStore<GameFacts<B>>>(
    work: &Work<B, S>,
    position: &Position,
) -> bool
    requires { IsPosition work.now.arena position.now }
    ensures { result ≡ is_number (position_at work.now.arena position.now) }
{
    match read(work, position) {
        Read::Number(_) => true,
        Read::Options(_, _) => false,
    }
}

/// The player's own of the two lists.
fn own<'b>(left: bool, lefts: &'b [Game], rights: &'b [Game]) -> &'b [Game]
    ensures { result.now ≡ cond left lefts.now rights.now }
{
    if left { lefts } else { rights }
}

/// The options of a number, for Left or for Right.
fn options_of_number(alloc: Global, left: bool, x: Dyadic) -> Result<Vec<Position>, AllocError>
    ensures { IfOk result (λ all. all.items ≡ map Position.Number (cond left (number_lefts x) (number_rights x))) }
{
    let mut all = Vec::new(alloc);
    let option = if left {
        x.left_option()
    } else {
        x.right_option()
    };
    if let Some(y) = option {
        all.push(Position::Number(y))?;
    }
    Ok(all)
}

/// The positions of these games.
fn positions_at(alloc: Global, games: &[Game]) -> Result<Vec<Position>, AllocError>
    ensures { IfOk result (λ all. all.items ≡ map Position.At games.now) }
{
    let mut all = Vec::new(alloc);
    for game in games {
        all.push(Position::At(*game))?;
    }
    Ok(all)
}

/// The options of the position, for Left or for Right, in their order. The only error is out of memory.
pub(crate) fn options<B: BoardForms, S: CellStore<GameFacts<B>>>(
    alloc: Global,
    work: &Work<B, S>,
    left: bool,
    position: &Position,
) -> Result<Vec<Position>, AllocError>
    requires { IsPosition work.now.arena position.now }
    ensures { IfOk result (λ all. ArePositionsOf work.now.arena all.items (near left (position_at work.now.arena position.now))) }
{
    match read(work, position) {
        Read::Number(x) => options_of_number(alloc, left, x),
        Read::Options(lefts, rights) => positions_at(alloc, own(left, lefts, rights)),
    }
}
