//! What of a game its pieces are made from.
ghost use Rattle.std.specs.Prelude.{◌≡◌, ◌%◌, ◌==◌, ◌&&◌, length, nat_lt};
ghost use Rattle.cg_moves.specs.Words.{Marks};
ghost use Rattle.cg_pieces.specs.Neighbours.{IsNeighbours, Neighbours, is_piece_cell};
ghost use Rattle.cg_pieces.specs.Moving.{AreMoving, IsIndex};

use cg_moves::Board;

/// The rules of a game in which a move changes two orthogonally adjacent cells that form pieces, by what contracts see
/// of them: the symbols of the cells that form pieces, the symbol of the other cells of a piece, and which moves are
/// allowed. Of a board of the game they give the cells that form pieces and those with moves, in words of one bit a
/// cell.
///
/// Their law: cells with the symbol of the other cells form no pieces.
pub trait NeighbourRules {
    ghost neighbours: { Self → Neighbours };

    /// The index, in the row of symbols, of the symbol of the other cells of a piece.
    fn blank_index(&self) -> u8
        ensures { IsIndex (neighbours self.now).symbols (neighbours self.now).blank result };

    /// The cells that form pieces.
    fn piece_cells(&self, board: &Board) -> u64
        requires { board.now.symbols ≡ (neighbours self.now).symbols }
        ensures { Marks result (is_piece_cell (neighbours self.now) board.now) };

    /// The cells with which some player has a move together with the cell below or the next one in the row, whichever
    /// of the two is the first of the move. The cells that form pieces and those of the first column are known.
    fn moving_cells(&self, board: &Board, cells: u64, first_column: u64) -> u64
        requires symbols { board.now.symbols ≡ (neighbours self.now).symbols }
        requires cells { Marks cells (is_piece_cell (neighbours self.now) board.now) }
        requires first { Marks first_column (λ i. nat_lt i (length board.now.cells) && (i % board.now.columns == 0)) }
        ensures { AreMoving (neighbours self.now) board.now result };

    ghost lawful: { (rules : Self) → IsNeighbours (neighbours rules) };
}
