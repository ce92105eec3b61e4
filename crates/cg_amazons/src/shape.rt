//! Steps of one cell, in words.
ghost use Rattle.std.specs.Prelude.{◌≡◌, ◌*◌, ◌≤◌, ℕ, Option, option_and_then};
ghost use Rattle.cg_amazons.specs.Amazons.{up, down, back, forth, step};
ghost use Rattle.cg_amazons.specs.Rays.{IsBelow, IsCell, IsShape};

use crate::Way;
use cg_moves::words::{all_cells, first_column, moved_back, moved_on};

/// The rows and columns of a board, with the words of all its cells and of those that aren't in the first column.
#[derive(Clone, Copy)]
pub(crate) struct Shape {
    pub(crate) rows: u8,
    pub(crate) columns: u8,
    all: u64,
    inner: u64,
}

impl Shape {
    /// The shape of a board of 1 to 64 cells in so many rows and columns.
    pub(crate) fn of(rows: u8, columns: u8) -> Shape
        requires some { 1 ≤ rows * columns }
        requires few { rows * columns ≤ 64 }
        ensures rows { result.rows ≡ rows }
        ensures columns { result.columns ≡ columns }
        ensures shape { IsShape result }
    {
        let all = all_cells(rows * columns);
        let first = first_column(rows, columns);
        let inner = all & !first;
        Shape {
            rows,
            columns,
            all,
            inner,
        }
    }

    fn up(self, at: u64) -> u64
        ensures { (cell : Option ℕ) → IsCell at cell → IsCell result (option_and_then (up self.columns) cell) }
    {
        moved_back(at, self.columns)
    }

    fn down(self, at: u64) -> u64
        requires { IsShape self }
        ensures { (cell : Option ℕ) → IsCell at cell
            → IsCell result (option_and_then (down self.columns (self.rows * self.columns)) cell) }
    {
        let moved = moved_on(at, self.columns);
        moved & self.all
    }

    /// The cell one column back.
    fn back(self, at: u64) -> u64
        requires { IsShape self }
        ensures { (cell : Option ℕ) → IsBelow (self.rows * self.columns) cell → IsCell at cell
            → IsCell result (option_and_then (back self.columns) cell) }
    {
        moved_back(at & self.inner, 1)
    }

    /// The cell one column forth.
    fn forth(self, at: u64) -> u64
        requires { IsShape self }
        ensures { (cell : Option ℕ) → IsBelow (self.rows * self.columns) cell → IsCell at cell
            → IsCell result (option_and_then (forth self.columns) cell) }
    {
        let moved = moved_on(at, 1);
        moved & self.inner
    }

    /// The next cell that way.
    pub(crate) fn step(self, way: Way, at: u64) -> u64
        requires { IsShape self }
        ensures { (cell : Option ℕ) → IsBelow (self.rows * self.columns) cell → IsCell at cell
            → IsCell result (option_and_then (step self.columns (self.rows * self.columns) way) cell) }
    {
        match way {
            Way::UpBack => self.back(self.up(at)),
            Way::Up => self.up(at),
            Way::UpForth => self.forth(self.up(at)),
            Way::Back => self.back(at),
            Way::Forth => self.forth(at),
            Way::DownBack => self.back(self.down(at)),
            Way::Down => self.down(at),
            Way::DownForth => self.forth(self.down(at)),
        }
    }
}
