//! The first option that is good enough, and a player's first move that serves.
ghost use Rattle.std.specs.Prelude.{◌≡◌, IfOk};
ghost use Rattle.cg_form.specs.Side.{near};
ghost use Rattle.cg_cert.specs.Positions.{IsChoice, IsMove, IsPosition, IsStage, position_at, stage_at};

use crate::position::{Position, no_better, options};
use crate::stage::Stage;
use cg_canon::Work;
use cg_cells::CellStore;
use cg_nodes::{BoardForms, GameFacts};
use std::alloc::{AllocError, Global};

/// An option, and its place among the options of its game.
#[derive(Clone, Copy, Debug, PartialEq, Eq)]
pub(crate) struct Choice {
    /// The place.
    pub place: u64,
    /// The option.
    pub position: Position,
}

/// A move in one of the two games of a pair, and the pair that it leads to.
#[derive(Clone, Copy, Debug, PartialEq, Eq)]
pub(crate) struct Move {
    /// Whether it is in the first game.
    pub is_first: bool,
    /// The place of the option.
    pub place: u64,
    /// The pair that it leads to.
    pub leads: Stage,
}

/// The player's first option of the game that is for the player at least as good as the other game. The only error is
/// out of memory.
fn first_choice<B: BoardForms, S: CellStore<GameFacts<B>>>(
    alloc: Global,
    work: &mut Work<B, S>,
    left: bool,
    game: &Position,
    other: &Position,
) -> Result<Option<Choice>, AllocError>
    requires game { IsPosition work.old.arena game.now }
    requires other { IsPosition work.old.arena other.now }
    ensures choice { IfOk result (λ r. IsChoice work.old.arena left
        (near left (position_at work.old.arena game.now))
        (position_at work.old.arena other.now) r) }
    ensures same { work.new ≡ work.old }
{
    let all = options(alloc, work, left, game)?;
    let mut place = 0;
    let mut rest = all.as_slice();
    while let Some((option, others)) = rest.split_first() {
        if no_better(work, left, other, option)? {
            return Ok(Some(Choice {
                place,
                position: *option,
            }));
        }
        place += 1;
        rest = others;
    }
    Ok(None)
}

/// The player's first move that serves, those in the first game before those in the second. The only error is want of
/// memory.
pub(crate) fn first_move<B: BoardForms, S: CellStore<GameFacts<B>>>(
    alloc: Global,
    work: &mut Work<B, S>,
    left: bool,
    stage: &Stage,
) -> Result<Option<Move>, AllocError>
    requires { IsStage work.old.arena stage.now }
    ensures found { IfOk result (λ r. IsMove work.old.arena left r
        (stage_at work.old.arena stage.now)) }
    ensures same { work.new ≡ work.old }
{
    if let Some(choice) = first_choice(alloc, work, left, &stage.first, &stage.second)? {
        return Ok(Some(Move {
            is_first: true,
            place: choice.place,
            leads: Stage {
                first: choice.position,
                second: stage.second,
            },
        }));
    }
    match first_choice(alloc, work, !left, &stage.second, &stage.first)? {
        None => Ok(None),
        Some(choice) => Ok(Some(Move {
            is_first: false,
            place: choice.place,
            leads: Stage {
                first: stage.first,
                second: choice.position,
            },
        })),
    }
}
