//! Where dominoes fit, in words.
ghost use Rattle.std.specs.Prelude.{◌≡◌, ◌%◌, ◌==◌, ◌&&◌, codes, length, nat_lt, true};
ghost use Rattle.cg_moves.specs.Words.{Marks};
ghost use Rattle.cg_moves.specs.declared.player.Player.TheVariants.{Left, Right};
ghost use Rattle.cg_domineering.specs.Moves.{domineering, fits, is_empty};

use cg_moves::words::{all_cells, moved_back};
use cg_moves::{Board, Player};

/// The empty cells: their index is 0, and that of the filled ones is 1.
#[inline(always)]
pub(crate) fn empty_cells(board: &Board) -> u64
    requires { board.now.symbols ≡ codes ".#" }
    ensures { Marks result (is_empty board.now.cells) }
{
    all_cells(board.size()) & !board.planes().a
}

/// Where Left's dominoes fit: the cell and the one below it are empty.
#[inline(always)]
pub(crate) fn left_spots(board: &Board, empty: u64) -> u64
    requires { Marks empty (is_empty board.now.cells) }
    ensures { Marks result (fits Left board.now) }
{
    let columns = board.columns();
    let below = moved_back(empty, columns);
    empty & below
}

/// Where Right's dominoes fit: the cell and the next one, which isn't the first of a row, are empty.
#[inline(always)]
pub(crate) fn right_spots(board: &Board, empty: u64, first: u64) -> u64
    requires empty { Marks empty (is_empty board.now.cells) }
    requires first { Marks first (λ i. nat_lt i (length board.now.cells) && (i % board.now.columns == 0)) }
    ensures { Marks result (fits Right board.now) }
{
    // Read for the proof alone: the board has columns.
    let _columns = board.columns();
    let beside = moved_back(empty & !first, 1);
    empty & beside
}

/// Where the player's dominoes fit: bit i is 1 exactly where one fits with its first cell at cell i, the upper or the
/// left one. The board must be one of Domineering.
pub fn spots(board: &Board, player: Player) -> u64
    requires { domineering.has board.now ≡ true }
    ensures { Marks result (fits player board.now) }
{
    let empty = empty_cells(board);
    match player {
        Player::Left => left_spots(board, empty),
        Player::Right => right_spots(board, empty, board.first_column()),
    }
}
