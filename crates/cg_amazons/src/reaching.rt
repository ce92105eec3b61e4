//! What queens reach, in words.
ghost use Rattle.std.specs.Prelude.{◌≡◌, ◌↔◌, ◌*◌, ◌<◌, ◌≤◌, ℕ};
ghost use Rattle.std.specs.Int.{bit_at};
ghost use Rattle.cg_moves.specs.Rules.{In};
ghost use Rattle.cg_amazons.specs.Amazons.{Reaches, line};
ghost use Rattle.cg_amazons.specs.Rays.{IsShape, cells_of};

use crate::Way;
use crate::shape::Shape;
use cg_moves::words::with_bit;

/// The cells that way from this one as long as they are free.
fn ray(shape: Shape, free: u64, way: Way, cell: u8) -> u64
    requires shape { IsShape shape }
    requires cell { cell < shape.rows * shape.columns }
    ensures { (to : ℕ) → (bit_at result to ≡ 1)
        ↔ In to (line shape.columns (cells_of free (shape.rows * shape.columns)) way (shape.rows * shape.columns) cell) }
{
    let mut at = with_bit(0, cell, 1);
    let mut found = 0;
    for _turn in 0..shape.rows * shape.columns {
        let next = shape.step(way, at);
        at = next & free;
        if at == 0 {
            break;
        }
        found |= at;
    }
    found
}

/// The cells that a queen on this cell reaches along free cells.
pub(crate) fn reached(shape: Shape, free: u64, cell: u8) -> u64
    requires shape { IsShape shape }
    requires cell { cell < shape.rows * shape.columns }
    ensures { (to : ℕ) → (bit_at result to ≡ 1)
        ↔ Reaches shape.columns (cells_of free (shape.rows * shape.columns)) cell to }
{
    let up_back = ray(shape, free, Way::UpBack, cell);
    let up = ray(shape, free, Way::Up, cell);
    let up_forth = ray(shape, free, Way::UpForth, cell);
    let back = ray(shape, free, Way::Back, cell);
    let forth = ray(shape, free, Way::Forth, cell);
    let down_back = ray(shape, free, Way::DownBack, cell);
    let down = ray(shape, free, Way::Down, cell);
    let down_forth = ray(shape, free, Way::DownForth, cell);
    ((up_back | up) | (up_forth | back)) | ((forth | down_back) | (down | down_forth))
}

/// The cells that a queen reaches by one move: bit i is 1 exactly where it comes from `cell` to cell i along cells
/// whose bit in `free` is 1. The board has 1 to 64 cells in rows and columns, and `cell` is one of them.
pub fn rays(free: u64, rows: u8, columns: u8, cell: u8) -> u64
    requires some { 1 ≤ rows * columns }
    requires few { rows * columns ≤ 64 }
    requires cell { cell < rows * columns }
    ensures { (to : ℕ) → (bit_at result to ≡ 1) ↔ Reaches columns (cells_of free (rows * columns)) cell to }
{
    reached(Shape::of(rows, columns), free, cell)
}
