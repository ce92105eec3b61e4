//! The cells of a board that form pieces, and their joined sets, in words.
ghost use Rattle.std.specs.Prelude.{◌≡◌, ◌↔◌, ℕ, ◌<◌, ◌%◌, ◌==◌, ◌&&◌, length, nat_lt};
ghost use Rattle.std.specs.Int.{bit_at};
ghost use Rattle.cg_moves.specs.Words.{Marks};
ghost use Rattle.cg_pieces.specs.Neighbours.{is_piece_cell};
ghost use Rattle.cg_pieces.specs.Words.{IsFieldOf, IsField, IsNextBy, IsNextSet};
ghost use Rattle.cg_pieces.specs.Words.{IsWithin, JoinedIn, is_in_column, is_in_row};

use crate::NeighbourRules;
use cg_moves::Board;
use cg_moves::words::with_bit;

/// The cells of a board that form pieces, with what tells which of them are adjacent.
#[derive(Clone, Copy)]
pub(crate) struct Field {
    /// How many columns the board has.
    columns: u8,
    /// The cells of the first column.
    first_column: u64,
    /// The cells that form pieces.
    cells: u64,
}

/// The field of the board in which these cells form pieces.
#[inline(always)]
pub(crate) fn field_of<N: NeighbourRules>(
    rules: &N,
    board: &Board,
    cells: u64,
    first_column: u64,
) -> Field
    requires cells { Marks cells (is_piece_cell (N.neighbours rules.now) board.now) }
    requires first { Marks first_column (λ i. nat_lt i (length board.now.cells) && (i % board.now.columns == 0)) }
    ensures { IsFieldOf (N.neighbours rules.now) board.now result }
{
    // Read for the proof alone: the cells are those of these rules.
    let _ = rules;
    Field {
        columns: board.columns(),
        first_column,
        cells,
    }
}

impl Field {
    /// The set with the cells that form pieces and are above or below one of it. Where a row has all 64 cells, there
    /// are none.
    #[inline(always)]
    fn with_column(self, set: u64) -> u64
        requires field { IsField self }
        requires set { IsWithin set self.cells }
        ensures { IsNextBy self (is_in_column self.columns) set result }
    {
        let step = self.columns % 64;
        let down = set << step;
        let up = set >> step;
        (set | (down | up)) & self.cells
    }

    /// The set with the cells that form pieces and are next to one of it in a row.
    #[inline(always)]
    fn with_row(self, set: u64) -> u64
        requires field { IsField self }
        requires set { IsWithin set self.cells }
        ensures { IsNextBy self (is_in_row self.columns) set result }
    {
        let on = set << 1;
        let back = (set & !self.first_column) >> 1;
        (set | (on & !self.first_column | back)) & self.cells
    }

    /// The set with the cells that form pieces and are adjacent to one of it, and those that are next to these in a
    /// row.
    #[inline(always)]
    fn with_next(self, set: u64) -> u64
        requires field { IsField self }
        requires set { IsWithin set self.cells }
        ensures { IsNextSet self set result }
    {
        let more = self.with_column(set);
        self.with_row(more)
    }

    /// The set of cells that are joined with this one, which forms pieces.
    pub(crate) fn joined(self, cell: u8) -> u64
        requires field { IsField self }
        requires cell { cell < 64 }
        requires inside { bit_at self.cells cell ≡ 1 }
        ensures { (k : ℕ) → (bit_at result k ≡ 1) ↔ JoinedIn self cell k }
    {
        let mut set = with_bit(0, cell, 1);
        let mut more = self.with_next(set);
        while more != set && more != self.cells {
            set = more;
            more = self.with_next(set);
        }
        more
    }
}
