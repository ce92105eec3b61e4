//! Pairs of positions, and Right's moves in them.
ghost use Rattle.std.specs.Prelude.{◌≡◌, ◌++◌, IfOk, map};
ghost use Rattle.cg_cells.specs.Store.{Spends};
ghost use Rattle.cg_nodes.specs.Games.{IsGame, game_at};
ghost use Rattle.cg_canon.specs.Works.{work_state};
ghost use Rattle.cg_cert.specs.Pairs.{both_numbers, moves, pair};
ghost use Rattle.cg_cert.specs.Positions.{IsStage, AreStagesOf, kept, moved, stage_at, staged};

use crate::position::{Position, is_number, options};
use cg_canon::Work;
use cg_cells::CellStore;
use cg_nodes::{BoardForms, GameFacts, Handle};
use std::alloc::{AllocError, Global};

/// Two positions, of which the first is to be at least the second.
#[derive(Clone, Copy, Debug, PartialEq, Eq)]
pub(crate) struct Stage {
    /// The first position.
    pub first: Position,
    /// The second position.
    pub second: Position,
}

/// The pair of the games of two handles. The only error is out of memory.
pub(crate) fn stage_of<B: BoardForms, S: CellStore<GameFacts<B>>>(
    alloc: Global,
    work: &mut Work<B, S>,
    g: Handle,
    h: Handle,
) -> Result<Stage, AllocError>
    requires g { IsGame (work_state S.state work.old) g }
    requires h { IsGame (work_state S.state work.old) h }
    ensures stands { IfOk result (λ m. IsStage work.new.arena m) }
    ensures pair { IfOk result (λ m. stage_at work.new.arena m
        ≡ pair (game_at (work_state S.state work.old) g) (game_at (work_state S.state work.old) h)) }
    ensures spends { Spends 0 (work_state S.state work.old) (work_state S.state work.new) }
{
    let first = work.game(alloc, g)?;
    let second = work.game(alloc, h)?;
    Ok(Stage {
        first: Position::At(first),
        second: Position::At(second),
    })
}

/// The pair of the position and the other one; the position is the first where it is said so.
pub(crate) fn staged(is_first: bool, other: &Position, position: &Position) -> Stage
    ensures { result ≡ staged is_first other.now position.now }
{
    if is_first {
        Stage {
            first: *position,
            second: *other,
        }
    } else {
        Stage {
            first: *other,
            second: *position,
        }
    }
}

/// The first position or the second.
pub(crate) fn moved(is_first: bool, stage: &Stage) -> Position
    ensures { result ≡ moved is_first stage.now }
{
    if is_first { stage.first } else { stage.second }
}

/// The other one.
pub(crate) fn kept(is_first: bool, stage: &Stage) -> Position
    ensures { result ≡ kept is_first stage.now }
{
    if is_first { stage.second } else { stage.first }
}

/// Whether both positions are written as numbers.
pub(crate) fn both_numbers<B: BoardForms, S: CellStore<GameFacts<B>>>(
    work: &Work<B, S>,
    stage: &Stage,
) -> bool
    requires { IsStage work.now.arena stage.now }
    ensures { result ≡ both_numbers (stage_at work.now.arena stage.now) }
{
    is_number(work, &stage.first) && is_number(work, &stage.second)
}

/// The pairs that were found, and behind them each of the positions beside the other one.
fn with_stages(
    is_first: bool,
    other: &Position,
    positions: &[Position],
    found: Vec<Stage>,
) -> Result<Vec<Stage>, AllocError>
    ensures { IfOk result (λ all. all.items ≡ found.items ++ map (staged is_first other.now) positions.now) }
{
    let mut all = found;
    for position in positions {
        all.push(staged(is_first, other, position))?;
    }
    Ok(all)
}

/// The pairs to which Right's moves lead, in order. The only error is out of memory.
pub(crate) fn moves<B: BoardForms, S: CellStore<GameFacts<B>>>(
    alloc: Global,
    work: &Work<B, S>,
    stage: &Stage,
) -> Result<Vec<Stage>, AllocError>
    requires { IsStage work.now.arena stage.now }
    ensures { IfOk result (λ all. AreStagesOf work.now.arena all.items (moves (stage_at work.now.arena stage.now))) }
{
    let rights = options(alloc, work, false, &stage.first)?;
    let lefts = options(alloc, work, true, &stage.second)?;
    let all = with_stages(true, &stage.second, &rights, Vec::new(alloc))?;
    with_stages(false, &stage.first, &lefts, all)
}
