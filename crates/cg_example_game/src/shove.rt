//! The rules of Shove.
ghost use Rattle.std.specs.Prelude.{◌≡◌, ◌++◌, ◌<◌, IfOk, length, map, true};
ghost use Rattle.cg_moves.specs.Grid.{with_cells};
ghost use Rattle.cg_example_game.specs.Shove.{moves_at, piece, shove, shoved};

use cg_moves::{Board, Boards, Pieces, Player, Rules};
use std::alloc::{AllocError, Global};

/// The symbol of an empty cell.
const EMPTY: u8 = b'.';

/// The rules of Shove. The symbols are `.` for an empty cell, `x` for a piece of Left and `o` for one of Right.
///
/// A player moves one of their pieces one cell to the left, with all that stand to its left. A piece that is moved from
/// the first cell falls off the strip.
pub struct Shove;

/// The symbol of the player's pieces.
fn piece(player: Player) -> u8
    ensures { result ≡ piece player }
{
    match player {
        Player::Left => b'x',
        Player::Right => b'o',
    }
}

/// The strip after the piece on this cell is shoved.
fn shoved(alloc: Global, board: &Board, at: u8) -> Result<Board, AllocError>
    requires has { shove.has board.now ≡ true }
    requires at { at < length board.now.cells }
    ensures { IfOk result (λ after. after ≡ with_cells board.now (shoved board.now.cells at)) }
{
    // The first cell leaves the strip, and one comes in behind the piece.
    let mut cells = board.cells(alloc)?.into_vec();
    cells.remove(0);
    cells.insert(at as usize, EMPTY)?;
    Board::make(
        alloc,
        board.rows(),
        board.columns(),
        board.symbols(),
        &cells,
    )
}

/// Puts the strip after the move of the piece on this cell behind the boards, if it is the player's.
fn put_move(
    alloc: Global,
    board: &Board,
    player: Player,
    at: u8,
    boards: &mut Vec<Board>,
) -> Result<(), AllocError>
    requires has { shove.has board.now ≡ true }
    requires at { at < length board.now.cells }
    ensures { IfOk result (λ _. boards.new.items ≡
        boards.old.items ++ map (with_cells board.now) (moves_at player board.now at)) }
{
    if board.cell(at) == piece(player) {
        boards.push(shoved(alloc, board, at)?)?;
    }
    Ok(())
}

impl Rules for Shove {
    ghost game = { λ rules. shove };

    fn moves(&self, alloc: Global, board: &Board, player: Player) -> Result<Boards, AllocError> {
        let mut boards = Vec::new(alloc);
        for at in 0..board.size() {
            put_move(alloc, board, player, at, &mut boards)?;
        }
        Ok(Boards::of(boards))
    }

    fn pieces(&self, _alloc: Global, _board: &Board) -> Result<Pieces, AllocError> {
        Ok(Pieces::Whole)
    }

    fn number(&self) -> u8 {
        0
    }

    fn lawful(&self) {}
}
