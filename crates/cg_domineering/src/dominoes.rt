//! The moves of Domineering.
ghost use Rattle.std.specs.Prelude.{◌≡◌, ◌<◌, IfOk, length, map, refl, true};
ghost use Rattle.cg_moves.specs.Grid.{with_cells};
ghost use Rattle.cg_domineering.specs.Moves.{domineering, dominoes, fits, moves_of, other_cell, with_domino};

use crate::fitting::{empty_cells, left_spots, right_spots, spots};
use cg_moves::words::with_bit;
use cg_moves::{Board, Boards, Pieces, Planes, Player, Rules, push};
use cg_pieces::{NeighbourRules, pieces, pieces_into, pieces_of_all_into};
use std::alloc::{AllocError, Global};

/// The rules of Domineering. The symbols are `.` for an empty cell and `#` for a filled one. Left fills two empty
/// cells, one above the other, and Right two empty cells side by side.
pub struct Domineering;

/// The other cell of the player's domino that fits with this first cell.
fn other_cell(board: &Board, player: Player, first: u8) -> u8
    requires { fits player board.now first ≡ true }
    ensures value { result ≡ other_cell player board.now first }
    ensures inside { result < length board.now.cells }
{
    // Read for the proof alone: the board has few cells.
    let _size = board.size();
    match player {
        Player::Left => first + board.columns(),
        Player::Right => first + 1,
    }
}

/// The board after the player's domino with this first cell, which fits. A filled cell has index 1, so that the words
/// but the first have no bits.
#[inline(always)]
fn placed(board: &Board, player: Player, first: u8) -> Board
    requires has { domineering.has board.now ≡ true }
    requires fits { fits player board.now first ≡ true }
    ensures { result ≡ with_cells board.now (with_domino player board.now first) }
{
    let other = other_cell(board, player, first);
    let one = with_bit(board.planes().a, first, 1);
    let both = with_bit(one, other, 1);
    let planes = Planes {
        a: both,
        b: 0,
        c: 0,
        d: 0,
    };
    board.with_planes(board.rows(), board.columns(), planes)
}

/// Puts the boards after the player's dominoes, by their first cells, in the place of these boards. They are in rising
/// order, since a filled cell is below an empty one.
fn boards_in(board: &Board, player: Player, boards: &mut Vec<Board>) -> Result<(), AllocError>
    requires { domineering.has board.now ≡ true }
    ensures { IfOk result (λ _. boards.new.items ≡ map (with_cells board.now) (moves_of player board.now)) }
{
    let spots = spots(board, player);
    boards.clear();
    let mut left = spots;
    while left != 0 {
        let first = left.trailing_zeros() as u8;
        left = with_bit(left, first, 0);
        push(boards, placed(board, player, first))?;
    }
    Ok(())
}

impl NeighbourRules for Domineering {
    ghost neighbours = { λ rules. dominoes };

    fn blank_index(&self) -> u8 {
        1
    }

    fn piece_cells(&self, board: &Board) -> u64 {
        empty_cells(board)
    }

    fn moving_cells(&self, board: &Board, cells: u64, first_column: u64) -> u64 {
        // Read for the proof alone: the board has columns.
        let _size = board.size();
        let below = left_spots(board, cells);
        let beside = right_spots(board, cells, first_column);
        below | beside
    }

    ghost lawful = { λ rules. record { blank = refl; past = refl } };
}

impl Rules for Domineering {
    ghost game = { λ rules. domineering };

    fn moves(&self, alloc: Global, board: &Board, player: Player) -> Result<Boards, AllocError> {
        let mut boards = Vec::new(alloc);
        boards_in(board, player, &mut boards)?;
        Ok(Boards::of(boards))
    }

    fn moves_into(
        &self,
        _alloc: Global,
        board: &Board,
        player: Player,
        room: &mut Vec<Board>,
    ) -> Result<(), AllocError> {
        boards_in(board, player, room)
    }

    fn pieces(&self, alloc: Global, board: &Board) -> Result<Pieces, AllocError> {
        Ok(Pieces::Cut(pieces(alloc, self, board)?))
    }

    fn pieces_into(
        &self,
        _alloc: Global,
        board: &Board,
        room: &mut Vec<Board>,
    ) -> Result<(), AllocError> {
        pieces_into(self, board, room)
    }

    fn pieces_of_all_into(
        &self,
        _alloc: Global,
        boards: &[Board],
        room: &mut Vec<Board>,
        counts: &mut Vec<u32>,
    ) -> Result<(), AllocError> {
        pieces_of_all_into(self, boards, room, counts)
    }

    fn number(&self) -> u8 {
        1
    }

    fn lawful(&self) {}
}
