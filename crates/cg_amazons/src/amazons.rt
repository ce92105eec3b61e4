//! Amazons.
ghost use Rattle.std.specs.Prelude.{◌≡◌, [], IfOk, length, true};
ghost use Rattle.cg_amazons.specs.Amazons.{amazons, queen};
ghost use Rattle.cg_amazons.specs.MoveParts.{IsMoveBelow};
ghost use Rattle.cg_amazons.specs.Rays.{AreWordsOf};
ghost use Rattle.cg_amazons.specs.Taking.{Takes};

use crate::queens::{EMPTY, QueenWords, move_all};
use crate::ranking::rank;
use crate::shape::Shape;
use cg_moves::{Board, Boards, Pieces, Player, Rules, risen};
use std::alloc::{AllocError, Global};

/// Amazons: a queen moves along empty cells in one of the eight directions, and then shoots an arrow along empty cells
/// in one of them, whose cell is blocked from then on.
#[derive(Clone, Copy, Debug, PartialEq, Eq)]
pub struct Amazons;

fn queen(player: Player) -> u8
    ensures { result ≡ queen player }
{
    match player {
        Player::Left => b'x',
        Player::Right => b'o',
    }
}

fn words_of(board: &Board, player: Player) -> QueenWords
    requires { amazons.has board.now ≡ true }
    ensures columns { result.shape.columns ≡ board.now.columns }
    ensures queen { result.queen ≡ queen player }
    ensures words { AreWordsOf board.now result }
{
    let rows = board.rows();
    let columns = board.columns();
    let shape = Shape::of(rows, columns);
    let free = board.places(EMPTY);
    let queen = queen(player);
    let queens = board.places(queen);
    QueenWords {
        shape,
        free,
        queen,
        queens,
    }
}

fn boards_of(alloc: Global, board: &Board, player: Player) -> Result<Vec<Board>, AllocError>
    requires { amazons.has board.now ≡ true }
    ensures { IfOk result (λ boards. Takes board.now [] boards.items
        (IsMoveBelow board.now.columns (queen player) board.now.cells (length board.now.cells))) }
{
    let words = words_of(board, player);
    let mut boards = Vec::new(alloc);
    move_all(alloc, board, &words, &mut boards)?;
    Ok(boards)
}

/// These boards, sorted so that few steps put them in order.
fn sorted_boards_of(alloc: Global, board: &Board, player: Player) -> Result<Vec<Board>, AllocError>
    requires { amazons.has board.now ≡ true }
    ensures { IfOk result (λ boards. Takes board.now [] boards.items
        (IsMoveBelow board.now.columns (queen player) board.now.cells (length board.now.cells))) }
{
    let mut boards = boards_of(alloc, board, player)?;
    boards.sort_by_cached_key(|after| rank(board, after))?;
    Ok(boards)
}

impl Rules for Amazons {
    ghost use Rattle.cg_amazons.specs.Amazons.{amazons};

    ghost game = { λ _. amazons };

    fn moves(&self, alloc: Global, board: &Board, player: Player) -> Result<Boards, AllocError> {
        // Read for the proof alone: the board has columns.
        let _size = board.size();
        let boards = sorted_boards_of(alloc, board, player)?;
        risen(alloc, board, boards)
    }

    fn pieces(&self, _alloc: Global, _board: &Board) -> Result<Pieces, AllocError> {
        Ok(Pieces::Whole)
    }

    fn number(&self) -> u8 {
        3
    }

    fn lawful(&self) {}
}
