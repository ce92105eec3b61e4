//! Boards.
ghost use Rattle.std.specs.Prelude.{◌≡◌, ◌*◌, ◌%◌, ◌<◌, ◌≤◌, ◌==◌, ◌&&◌, nat_lt, not, true};
ghost use Rattle.std.specs.Prelude.{length, slice_index, slice_set, take, Contains, IfOk, Ok};
ghost use Rattle.cg_moves.specs.Grid.{AreCells, IsGrid, IsLike, are_symbols, with_cells};
ghost use Rattle.cg_moves.specs.PlaneBits.{ArePlanes, IsGridBy, grid_by, index_of};
ghost use Rattle.cg_moves.specs.Rising.{bytes_cmp};
ghost use Rattle.cg_moves.specs.Words.{Marks};

use crate::planes::{index_in, planes_of};
use crate::words::{all_cells, first_column};
use crate::{Cells, Planes};
use std::alloc::{AllocError, Global};
use std::cmp::Ordering;
use std::marker::Model;

/// A board: its rows and columns, the symbols that its cells may have, and its cells.
///
/// There are 1 to 16 different symbols, each a printable byte other than `|`, and 1 to 64 cells, each with one of the
/// symbols. Contracts see the numbers of rows and columns, the row of symbols, and the list of cells, row by row. The
/// cells are kept in four words ([`Planes`]), so that a board takes no memory of its own.
#[derive(Debug, Drop)]
pub struct Board {
    // First, so that they are copied in whole words.
    planes: Planes,
    symbols: [u8; 16],
    rows: u8,
    columns: u8,
    count: u8,
}

impl Model for Board {
    ghost use Rattle.std.specs.Prelude.{◌≤◌, take};
    ghost use Rattle.cg_moves.specs.Grid.{Grid};
    ghost use Rattle.cg_moves.specs.GridCode.{grid_code};
    ghost use Rattle.cg_moves.specs.PlaneBits.{IsGridBy, grid_by};

    ghost Value = { Grid };

    ghost coded = { grid_code };

    ghost view = { λ b. grid_by b.rows b.columns (take b.count b.symbols) b.planes };

    ghost invariant = { λ b. (b.count ≤ 16) × IsGridBy b.rows b.columns (take b.count b.symbols) b.planes };
}

/// The symbols at the front of an array.
fn symbols_in(symbols: &[u8]) -> [u8; 16]
    requires { length symbols.now ≤ 16 }
    ensures { take (length symbols.now) result ≡ symbols.now }
{
    let mut all = [0; 16];
    all[..symbols.len()].copy_from_slice(symbols);
    all
}

impl Board {
    /// The board of these rows, columns, symbols and cells, row by row. It takes no memory, and is never refused.
    pub fn make(
        alloc: Global,
        rows: u8,
        columns: u8,
        symbols: &[u8],
        cells: &[u8],
    ) -> Result<Board, AllocError>
        requires symbols { are_symbols symbols.now ≡ true }
        requires size { length cells.now ≡ rows * columns }
        requires some { 1 ≤ length cells.now }
        requires few { length cells.now ≤ 64 }
        requires cells { AreCells symbols.now cells.now }
        ensures { result ≡ Ok (record { rows = rows; columns = columns; symbols = symbols.now; cells = cells.now }) }
    {
        let _ = alloc;
        Ok(Board {
            rows,
            columns,
            count: symbols.len() as u8,
            symbols: symbols_in(symbols),
            planes: planes_of(symbols, cells),
        })
    }

    /// An equal board. It takes no memory, and is never refused.
    pub fn copy(&self, alloc: Global) -> Result<Board, AllocError>
        ensures { result ≡ Ok self.now }
    {
        let _ = alloc;
        Ok(Board {
            rows: self.rows,
            columns: self.columns,
            count: self.count,
            symbols: self.symbols,
            planes: self.planes,
        })
    }

    /// The board of these rows and columns with the same symbols, whose cells these words are.
    pub fn with_planes(&self, rows: u8, columns: u8, planes: Planes) -> Board
        requires { IsGridBy rows columns self.now.symbols planes }
        ensures { result ≡ grid_by rows columns self.now.symbols planes }
    {
        Board {
            rows,
            columns,
            count: self.count,
            symbols: self.symbols,
            planes,
        }
    }

    /// How many rows there are.
    pub fn rows(&self) -> u8
        ensures value { result ≡ self.now.rows }
        ensures grid { IsGrid self.now }
    {
        self.rows
    }

    /// How many columns there are.
    pub fn columns(&self) -> u8
        ensures value { result ≡ self.now.columns }
        ensures grid { IsGrid self.now }
    {
        self.columns
    }

    /// The symbols that the cells may have.
    pub fn symbols(&self) -> &[u8]
        ensures value { result.now ≡ self.now.symbols }
        ensures grid { IsGrid self.now }
    {
        &self.symbols[..self.count as usize]
    }

    /// The index of the symbol in the row of symbols.
    pub fn index(&self, symbol: u8) -> u8
        requires { Contains self.now.symbols symbol }
        ensures value { result ≡ index_of self.now.symbols symbol }
        ensures below { result < 16 }
    {
        index_in(self.symbols(), symbol)
    }

    /// How many cells there are.
    pub fn size(&self) -> u8
        ensures value { result ≡ length self.now.cells }
        ensures grid { IsGrid self.now }
    {
        self.rows * self.columns
    }

    /// The cells in words: bit i of word a, b, c or d is bit 0, 1, 2 or 3 of the index of cell i's symbol in the row of
    /// symbols, and 0 where there is no cell i.
    pub fn planes(&self) -> Planes
        ensures planes { ArePlanes self.now.symbols self.now.cells result }
        ensures grid { IsGrid self.now }
    {
        self.planes
    }

    /// The cells with this symbol: bit i is 1 exactly where cell i has it.
    pub fn places(&self, symbol: u8) -> u64
        requires { Contains self.now.symbols symbol }
        ensures places { Marks result (λ i. slice_index self.now.cells i == symbol) }
        ensures grid { IsGrid self.now }
    {
        let symbols = self.symbols();
        let index = index_in(symbols, symbol);
        let size = self.size();
        let all = all_cells(size);
        let places = self.planes.places(index);
        places & all
    }

    /// The cells of the first column, each as a bit that is 1.
    pub fn first_column(&self) -> u64
        ensures column { Marks result (λ i. nat_lt i (length self.now.cells) && (i % self.now.columns == 0)) }
        ensures grid { IsGrid self.now }
    {
        first_column(self.rows, self.columns)
    }

    /// The symbol of the cell with this index, counted from 0 and row by row.
    pub fn cell(&self, index: u8) -> u8
        requires { index < length self.now.cells }
        ensures { result ≡ slice_index self.now.cells index }
    {
        self.symbols[self.planes.index_at(index) as usize]
    }

    /// The cells, row by row.
    pub fn cells(&self, alloc: Global) -> Result<Cells, AllocError>
        ensures value { IfOk result (λ cells. cells ≡ self.now.cells) }
        ensures grid { IfOk result (λ _. IsGrid self.now) }
    {
        let size = self.size();
        let mut cells = Vec::with_capacity(alloc, size as usize)?;
        for index in 0..size {
            cells.push(self.cell(index))?;
        }
        Ok(Cells::of(cells))
    }

    /// Gives the cell with this index another symbol.
    pub fn set(&mut self, index: u8, symbol: u8)
        requires index { index < length self.old.cells }
        requires symbol { Contains self.old.symbols symbol }
        ensures { self.new ≡ with_cells self.old (slice_set self.old.cells index symbol) }
    {
        let known = self.index(symbol);
        self.set_known(index, symbol, known);
    }

    /// Gives the cell another symbol, which has this index in the row of symbols. It is [`Board::set`] where the index
    /// is known.
    pub fn set_known(&mut self, cell: u8, symbol: u8, index: u8)
        requires cell { cell < length self.old.cells }
        requires symbol { Contains self.old.symbols symbol }
        requires index { index ≡ index_of self.old.symbols symbol }
        requires few { index < 16 }
        ensures { self.new ≡ with_cells self.old (slice_set self.old.cells cell symbol) }
    {
        // Read for the proof alone: the index is that of the symbol.
        let _ = symbol;
        self.planes = self.planes.with_index(cell, index);
    }

    /// The cells that have another symbol on the other board, which is like this one.
    fn differing(&self, other: &Board) -> u64
        requires { IsLike self.now other.now }
        ensures cells { Marks result (λ i. not (slice_index self.now.cells i == slice_index other.now.cells i)) }
        ensures grid { IsGrid self.now }
        ensures other { IsGrid other.now }
    {
        let here = self.planes();
        let there = other.planes();
        (here.a ^ there.a | here.b ^ there.b) | (here.c ^ there.c | here.d ^ there.d)
    }

    /// Which of the two boards, which are like each other, has the lower cells by their bytes.
    pub(crate) fn order(&self, other: &Board) -> Ordering
        requires { IsLike self.now other.now }
        ensures { result ≡ bytes_cmp self.now.cells other.now.cells }
    {
        let differing = self.differing(other);
        if differing == 0 {
            return Ordering::Equal;
        }
        let place = differing.trailing_zeros() as u8;
        self.cell(place).cmp(&other.cell(place))
    }
}
