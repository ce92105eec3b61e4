//! The edges of the graph of positions: what comes next in a walk over boards.
ghost use Rattle.std.specs.Prelude.{◌≡◌, ◌∷◌, [], true, IfOk};
ghost use Rattle.cg_moves.specs.Rules.{cuts, pieces};

use crate::{Board, Pieces, Rules};
use std::alloc::{AllocError, Global};

/// To which boards edges lead from a board: what comes next after it in a walk.
#[derive(Clone, Copy)]
pub(crate) enum Edges {
    /// The boards that moves lead to.
    Moves,
    /// The pieces of the boards that moves lead to.
    Pieces,
}

/// The board alone.
pub(crate) fn singleton(alloc: Global, board: &Board) -> Result<Vec<Board>, AllocError>
    ensures { IfOk result (λ boards. boards.items ≡ board.now ∷ []) }
{
    let copy = board.copy(alloc)?;
    let mut boards = Vec::new(alloc);
    boards.push(copy)?;
    Ok(boards)
}

/// The pieces of the board, which must be one of the game; the rules must cut.
pub fn pieces_in<R: Rules>(
    alloc: Global,
    rules: &R,
    board: &Board,
) -> Result<Vec<Board>, AllocError>
    requires has { (R.game rules.now).has board.now ≡ true }
    requires cuts { cuts (R.game rules.now) ≡ true }
    ensures { IfOk result (λ boards. boards.items ≡ pieces (R.game rules.now) board.now) }
{
    match rules.pieces(alloc, board)? {
        Pieces::Cut(boards) => Ok(boards.into_vec()),
        Pieces::Whole => unreachable!(),
    }
}
