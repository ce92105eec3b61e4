//! The board of the rows and columns that bound a set of cells, in words.
ghost use Rattle.std.specs.Prelude.{◌≡◌, ℕ, ◌%◌, ◌<◌, ◌≤◌, ◌==◌, ◌&&◌, if◌then◌else◌, length, nat_lt, slice_index};
ghost use Rattle.std.specs.Int.{bit_at};
ghost use Rattle.cg_moves.specs.PlaneBits.{ArePlanes};
ghost use Rattle.cg_moves.specs.Words.{Marks};
ghost use Rattle.cg_pieces.specs.Boxes.{cropped, set_box};
ghost use Rattle.cg_pieces.specs.Frames.{IsBoxIn, IsCutOut, IsEdge, box_from};
ghost use Rattle.cg_pieces.specs.Moving.{IsIndex};
ghost use Rattle.cg_pieces.specs.Words.{IsSet, IsSetFrom, in_word};

use cg_moves::words::{all_cells, bit};
use cg_moves::{Board, Planes};

/// So many rows and columns from a first row and column on.
#[derive(Clone, Copy)]
struct Frame {
    top: u8,
    left: u8,
    rows: u8,
    columns: u8,
}

/// The first column with cells of the set.
#[inline(always)]
fn left_edge(board: &Board, first_column: u64, set: u64) -> u8
    requires first { Marks first_column (λ i. nat_lt i (length board.now.cells) && (i % board.now.columns == 0)) }
    requires set { IsSet board.now set }
    ensures { IsEdge (λ edge column. edge ≤ column) board.now.columns set result }
{
    // Read for the proof alone: the board has its cells in rows and columns.
    let _size = board.size();
    let mut left = 0;
    let mut column = first_column;
    while set & column == 0 {
        column <<= 1;
        left += 1;
    }
    left
}

/// The last column with cells of the set.
#[inline(always)]
fn right_edge(board: &Board, first_column: u64, set: u64) -> u8
    requires first { Marks first_column (λ i. nat_lt i (length board.now.cells) && (i % board.now.columns == 0)) }
    requires set { IsSet board.now set }
    ensures { IsEdge (λ edge column. column ≤ edge) board.now.columns set result }
{
    let mut right = board.columns() - 1;
    let mut column = first_column << right;
    while set & column == 0 {
        column >>= 1;
        right -= 1;
    }
    right
}

/// The place of the last bit that is 1.
#[inline(always)]
fn last_bit(word: u64) -> u8
    requires { 0 < word }
    ensures one { bit_at word result ≡ 1 }
    ensures last { (k : ℕ) → bit_at word k ≡ 1 → k ≤ result }
{
    63 - word.leading_zeros() as u8
}

/// The rows and columns that bound the set, of which this is the first cell.
#[inline(always)]
fn frame_of(board: &Board, first_column: u64, set: u64, first: u8) -> Frame
    requires first { Marks first_column (λ i. nat_lt i (length board.now.cells) && (i % board.now.columns == 0)) }
    requires set { IsSetFrom board.now set first }
    ensures { box_from result ≡ set_box (in_word set) board.now }
{
    let columns = board.columns();
    let top = first / columns;
    let bottom = last_bit(set) / columns;
    let left = left_edge(board, first_column, set);
    let right = right_edge(board, first_column, set);
    Frame {
        top,
        left,
        rows: bottom - top + 1,
        columns: right - left + 1,
    }
}

/// The bits of the word within the frame, which has all columns.
#[inline(always)]
fn cut_rows(word: u64, columns: u8, frame: Frame) -> u64
    requires inside { IsBoxIn columns (box_from frame) }
    requires whole { frame.columns ≡ columns }
    ensures { IsCutOut word columns frame result }
{
    (word >> (frame.top * columns)) & all_cells(frame.rows * columns)
}

/// The bits of the word within the frame, row by row.
#[inline(always)]
fn cut_columns(word: u64, columns: u8, frame: Frame) -> u64
    requires { IsBoxIn columns (box_from frame) }
    ensures { IsCutOut word columns frame result }
{
    let row_cells = all_cells(frame.columns);
    let mut rest = word >> (frame.top * columns + frame.left);
    let mut found = rest & row_cells;
    for row in 1..frame.rows {
        rest >>= columns;
        found |= (rest & row_cells) << (row * frame.columns);
    }
    found
}

/// The bits of the word within the frame.
#[inline(always)]
fn cut_out(word: u64, columns: u8, frame: Frame) -> u64
    requires { IsBoxIn columns (box_from frame) }
    ensures { IsCutOut word columns frame result }
{
    if word == 0 {
        0
    } else if frame.columns == columns {
        cut_rows(word, columns, frame)
    } else {
        cut_columns(word, columns, frame)
    }
}

/// The word in the set, and this bit, 0 or 1, at all other places.
#[inline(always)]
fn shown(word: u64, set: u64, bit: u8) -> u64
    requires { bit ≤ 1 }
    ensures { (k : ℕ) → k < 64 → bit_at result k ≡ (if in_word set k then bit_at word k else bit) }
{
    if bit == 0 { word & set } else { word | !set }
}

/// The words of the board of the set, which this frame bounds, with the symbol of this index in all other cells.
#[inline(always)]
fn planes_in(board: &Board, set: u64, frame: Frame, blank: u8) -> Planes
    requires set { IsSet board.now set }
    requires frame { box_from frame ≡ set_box (in_word set) board.now }
    requires blank { IsIndex board.now.symbols (slice_index board.now.symbols blank) blank }
    ensures { ArePlanes board.now.symbols
        (cropped (slice_index board.now.symbols blank) (in_word set) board.now).cells result }
{
    let columns = board.columns();
    let index = u64::from(blank);
    let planes = board.planes();
    Planes {
        a: cut_out(shown(planes.a, set, bit(index, 0)), columns, frame),
        b: cut_out(shown(planes.b, set, bit(index, 1)), columns, frame),
        c: cut_out(shown(planes.c, set, bit(index, 2)), columns, frame),
        d: cut_out(shown(planes.d, set, bit(index, 3)), columns, frame),
    }
}

/// The board of the set, of which this is the first cell, with the symbol of this index in all other cells.
#[inline(always)]
pub(crate) fn crop(board: &Board, first_column: u64, set: u64, first: u8, blank: u8) -> Board
    requires first { Marks first_column (λ i. nat_lt i (length board.now.cells) && (i % board.now.columns == 0)) }
    requires set { IsSetFrom board.now set first }
    requires blank { IsIndex board.now.symbols (slice_index board.now.symbols blank) blank }
    ensures { result ≡ cropped (slice_index board.now.symbols blank) (in_word set) board.now }
{
    // Read for the proof alone: the board has its cells in rows and columns.
    let _size = board.size();
    let frame = frame_of(board, first_column, set, first);
    let planes = planes_in(board, set, frame, blank);
    board.with_planes(frame.rows, frame.columns, planes)
}
