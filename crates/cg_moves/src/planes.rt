//! Boards in words.
ghost use Rattle.std.specs.Prelude.{◌≡◌, ℕ, ◌<◌, ◌≤◌, ◌==◌, if◌then◌else◌, length, position, Contains};
ghost use Rattle.std.specs.Int.{bit_at};
ghost use Rattle.cg_moves.specs.Grid.{AreCells};
ghost use Rattle.cg_moves.specs.PlaneBits.{ArePlanes, index_at, index_of, IsWithIndex};

use crate::words::{bit, matching_bits, with_bit};

/// The cells of a board in four words. Bit i of the words `a`, `b`, `c` and `d` is bit 0, 1, 2 and 3 of the index of
/// cell i's symbol in the board's row of symbols. Bits past the last cell are 0.
#[derive(Clone, Copy, Debug, PartialEq, Eq)]
pub struct Planes {
    /// Bit 0 of each index.
    pub a: u64,
    /// Bit 1 of each index.
    pub b: u64,
    /// Bit 2 of each index.
    pub c: u64,
    /// Bit 3 of each index.
    pub d: u64,
}

/// The planes of no cells.
const NO_CELLS: Planes = Planes {
    a: 0,
    b: 0,
    c: 0,
    d: 0,
};

/// The index of the first of these symbols that is this one.
fn place_in(symbols: &[u8], symbol: u8) -> Option<usize>
    ensures { result ≡ position (λ s. s == symbol) symbols.now }
{
    symbols.iter().position(|other| *other == symbol)
}

/// The index of the symbol.
pub(crate) fn index_in(symbols: &[u8], symbol: u8) -> u8
    requires few { length symbols.now ≤ 16 }
    requires symbol { Contains symbols.now symbol }
    ensures value { result ≡ index_of symbols.now symbol }
    ensures below { result < length symbols.now }
{
    let Some(index) = place_in(symbols, symbol) else {
        unreachable!()
    };
    index as u8
}

impl Planes {
    /// The index at the cell.
    pub(crate) fn index_at(&self, cell: u8) -> u8
        requires { cell < 64 }
        ensures { result ≡ index_at self.now cell }
    {
        bit(self.a, cell) + 2 * bit(self.b, cell) + 4 * bit(self.c, cell) + 8 * bit(self.d, cell)
    }

    /// The word of the places that have this index.
    pub(crate) fn places(&self, index: u8) -> u64
        requires { index < 16 }
        ensures { (i : ℕ) → i < 64 → bit_at result i ≡ (if index_at self.now i == index then 1 else 0) }
    {
        let index = index as u64;
        let first = bit(index, 0);
        let second = bit(index, 1);
        let third = bit(index, 2);
        let fourth = bit(index, 3);
        let a = matching_bits(self.a, first);
        let b = matching_bits(self.b, second);
        let c = matching_bits(self.c, third);
        let d = matching_bits(self.d, fourth);
        (a & b) & (c & d)
    }

    /// The planes with another index at the cell.
    pub(crate) fn with_index(self, cell: u8, index: u8) -> Planes
        requires { cell < 64 }
        ensures { IsWithIndex self result cell index }
    {
        let index = u64::from(index);
        Planes {
            a: with_bit(self.a, cell, bit(index, 0)),
            b: with_bit(self.b, cell, bit(index, 1)),
            c: with_bit(self.c, cell, bit(index, 2)),
            d: with_bit(self.d, cell, bit(index, 3)),
        }
    }

    /// The planes with another symbol at the cell.
    pub(crate) fn with_symbol(self, symbols: &[u8], cell: u8, symbol: u8) -> Planes
        requires few { length symbols.now ≤ 16 }
        requires cell { cell < 64 }
        requires symbol { Contains symbols.now symbol }
        ensures { IsWithIndex self result cell (index_of symbols.now symbol) }
    {
        self.with_index(cell, index_in(symbols, symbol))
    }
}

/// The planes of these cells.
pub(crate) fn planes_of(symbols: &[u8], cells: &[u8]) -> Planes
    requires symbols { length symbols.now ≤ 16 }
    requires cells { AreCells symbols.now cells.now }
    requires few { length cells.now ≤ 64 }
    ensures { ArePlanes symbols.now cells.now result }
{
    let mut planes = NO_CELLS;
    for (cell, symbol) in cells.iter().enumerate() {
        planes = planes.with_symbol(symbols, cell as u8, *symbol);
    }
    planes
}
